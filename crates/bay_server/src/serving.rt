// Serves a device, turn by turn.
ghost use Rattle.std.specs.Prelude.{◌≡◌, ◌⊎◌, MatchBool};
ghost use Rattle.bay_server.specs.ConnectionLines.{no_lines};
ghost use Rattle.bay_server.specs.Cycle.{TurnsLast};
ghost use Rattle.bay_server.specs.Host.{Pauses};
ghost use Rattle.bay_report.specs.TextLines.{lines_of};
ghost use Rattle.bay_server.specs.ServeReport.{AwaitsTurn, ReportsAndPolls, ServesTurns, numbered_lines};
ghost use Rattle.bay_server.specs.ServeReport as spec;
ghost use Rattle.bay_server.specs.Serving.{TriesTurn, with_host};
ghost use Rattle.bay_server_turn.specs.Calls.{CountedCall};

use crate::busy::BusyLink;
use crate::change_lines::{BayView, view_for_log};
use crate::clock::ServeClock;
use crate::connection_lines::LineCount;
use crate::host::Host;
use crate::log_lines::{log_all_served, log_shift};
use crate::process::{NextInput, Process, next_input, poll_process, skips_reads, was_busy};
use crate::record_line::log_record;
use crate::trace_lines::TraceLines;
use crate::turns::{report_turn, report_turn_refusal};
use bay_device::device::Device;
use bay_io::calls::Sink;
use bay_io::outbox::WriteFault;
use bay_io::writer::WatchedWriter;
use bay_report::output::Status;
use bay_server_turn::link::Link;
use bay_server_turn::process_input::{ProcessReport, TurnInput};
use bay_server_turn::server::Server;
use bay_server_turn::turn::serve_event;
use bay_server_turn::turn_report::Turn;

/// The result of trying a turn.
#[derive(Clone, Copy)]
pub enum TurnAttempt {
    /// The turn was done. `was_idle` is true if it left nothing to do at once.
    Done { was_idle: bool },
    /// The turn was refused, and serving ends with this status.
    Ends(u8),
}

// A device that is served to clients over their link by a clock, with the count of the log lines of
// their connections, and the process, if there is one.
#[derive(Drop)]
struct Service<L> {
    server: Server,
    clock: ServeClock,
    count: LineCount,
    link: BusyLink<L>,
    process: Option<Process<L>>,
}

impl<L> Service<L> {
    // Returns whether a turn left nothing to do at once, given its input.
    fn is_idle(&mut self, given: TurnInput) -> bool
        ensures server { self.new.server ≡ self.old.server }
        ensures clock { self.new.clock ≡ self.old.clock }
        ensures count { self.new.count ≡ self.old.count }
        ensures link { self.new.link.link ≡ self.old.link.link }
        ensures process { self.new.process ≡ self.old.process }
    {
        let was_link_busy = self.link.was_busy();
        let was_process_busy = was_busy(&mut self.process);
        let had_event = matches!(given, Ok(ProcessReport { event: Some(_), .. }));
        !was_link_busy && !was_process_busy && !had_event
    }
}

// Logs and prints what a turn reports, and then polls the process, unless the lines could not be
// printed.
fn report_and_poll<L: Link, W: Sink>(
    process: &mut Option<Process<L>>,
    device: &Device,
    moment: u64,
    count: LineCount,
    next: &NextInput,
    before: &BayView,
    turn: &Turn,
    writer: &mut WatchedWriter<W>,
) -> Result<u8, WriteFault>
    ensures { ReportsAndPolls (CountedCall L.does L.failures) W.contents W.does moment count
        next.now
        before.now turn.now device.now process.old process.new writer.old writer.new result }
{
    report_turn(writer, device, moment, count, next, before, turn)?;
    poll_process(process, device, moment, turn, writer)
}

// Reads the clock, chooses the input of a turn, and tries the turn. Logs and prints what it
// reports, and polls the process. Only then it writes what was recorded of the turn: a file may
// make it wait, and a command must not wait for that.
fn try_turn<L: Link, H: Host<L>, W: Sink>(
    served: &mut Service<L>,
    host: &mut H,
    lines: &mut TraceLines<'_>,
    writer: &mut WatchedWriter<W>,
) -> Result<TurnAttempt, WriteFault>
    ensures { TriesTurn (CountedCall L.does L.failures) H.does W.contents W.does
        (with_host served.old host.old lines.old) writer.old
        (with_host served.new host.new lines.new) writer.new result }
{
    let reading = served.clock.read(host.clocks());
    let clock = reading.moment;
    let moment = clock.max(served.server.device().moment());
    log_shift(writer, moment, reading.shift);
    let next = next_input(
        lines,
        &mut served.process,
        served.server.device(),
        moment,
        reading.jump,
    );
    let before = view_for_log(served.server.device(), writer);
    let source_line = next.shown.as_slice();
    match serve_event(
        &mut served.server,
        &mut served.link,
        clock,
        next.given,
        source_line,
    ) {
        Ok(turn) => {
            let reported = report_and_poll(
                &mut served.process,
                served.server.device(),
                moment,
                served.count,
                &next,
                &before,
                &turn,
                writer,
            );
            served.count = served.count.after(moment, &turn);
            log_record(writer, moment, served.server.write_record());
            reported?;
            let was_idle = served.is_idle(next.given);
            Ok(TurnAttempt::Done { was_idle })
        }
        Err(fault) => {
            let status = report_turn_refusal(writer, fault, next.number, &next.shown)?;
            Ok(TurnAttempt::Ends(status))
        }
    }
}

// Pauses if there is nothing to do at once.
fn pause_if_idle<L, H: Host<L>>(host: &mut H, was_idle: bool)
    ensures { (host.new ≡ host.old) ⊎ H.does host.old Pauses host.new }
{
    if was_idle {
        host.pause();
    }
}

// Waits for the next turn: pauses if there is nothing to do at once, and then waits until the end
// of the turn, if turns have a least length.
fn await_turn<L, H: Host<L>>(host: &mut H, was_idle: bool, end: Option<u64>)
    ensures { AwaitsTurn H.does end host.old host.new }
{
    pause_if_idle::<L, H>(host, was_idle);
    match end {
        Some(end) => host.wait_until(end),
        None => {}
    }
}

// Waits for the next turn, unless that turn skips its reads.
fn await_next<L, H: Host<L>>(
    process: &Option<Process<L>>,
    host: &mut H,
    was_idle: bool,
    end: Option<u64>,
)
    ensures { MatchBool (spec.skips_reads process.now) (host.new ≡ host.old)
        (AwaitsTurn H.does end host.old host.new) }
{
    if !skips_reads(process) {
        await_turn::<L, H>(host, was_idle, end);
    }
}

// Serves the given number of turns, logs and prints what each reports, and logs that all are
// served. Returns the exit status: 0 after the last turn, or 3 at a turn that is refused. Pauses
// after a turn that left nothing to do at once, and waits for the end of each turn that is too
// short, but not before a turn that skips its reads.
fn serve_lines<L: Link, H: Host<L>, W: Sink>(
    served: &mut Service<L>,
    host: &mut H,
    lines: &mut TraceLines<'_>,
    turns: u32,
    writer: &mut WatchedWriter<W>,
) -> Result<u8, WriteFault>
    ensures { ServesTurns (CountedCall L.does L.failures) H.does W.contents W.does turns
        (with_host served.old host.old lines.old) writer.old host.new writer.new result }
{
    for turn in 0..turns {
        match try_turn(served, host, lines, writer)? {
            TurnAttempt::Ends(status) => return Ok(status),
            TurnAttempt::Done { was_idle } => {
                await_next::<L, H>(&served.process, host, was_idle, served.clock.turn_end());
            }
        }
    }
    log_all_served(writer, served.server.device().moment());
    Ok(Status::Clean.code())
}

/// Serves the given number of turns over a link by a clock, each with the next line of a trace, or,
/// after the last one, with what the process reports, if there is one. The device's events go into
/// a record, if there is one. Logs and prints what each turn reports, and logs that all are served.
/// Waits after each turn until it has lasted as long as the clock says that it must, unless the next
/// turn skips its reads: while lines of the process wait, at most 63 turns in a row do.
/// Returns the exit status: 0 after the last turn, or 3 at a turn that is refused. Fails if a write
/// or a flush fails.
pub fn serve_turns<L: Link + Drop, H: Host<L>, W: Sink>(
    server: Server,
    clock: ServeClock,
    link: L,
    process: Option<Process<L>>,
    host: &mut H,
    trace: &[u8],
    turns: u32,
    writer: &mut WatchedWriter<W>,
) -> Result<u8, WriteFault>
    ensures { ServesTurns (CountedCall L.does L.failures) H.does W.contents W.does turns
        (record {
          link = link;
          held = server;
          clock = clock;
          count = no_lines;
          host = host.old;
          process = process;
          lines = numbered_lines 1 (lines_of trace.now);
        }) writer.old host.new writer.new result }
{
    let mut served = Service {
        server,
        clock,
        count: LineCount::new(),
        link: BusyLink::new(link),
        process,
    };
    let mut lines = TraceLines::new(trace);
    serve_lines(&mut served, host, &mut lines, turns, writer)
}

/// On a host that keeps time, turns with a least length last that long: between the readings of the
/// steady clock at the starts of a turn and of the next one at least this many milliseconds pass,
/// unless the next one skips its reads.
pub fn turns_last<L: Link, H: Host<L>, W: Sink>(_link: &L, _host: &H, _sink: &W)
    ensures { TurnsLast (CountedCall L.does L.failures) H.does W.contents W.does }
{}
