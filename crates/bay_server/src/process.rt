// The process, and the input of a turn.
ghost use Rattle.std.specs.Prelude.{◌≡◌, []};
ghost use Rattle.bay_server_turn.specs.Calls.{CountedCall};
ghost use Rattle.bay_server.specs.ServeReport.{PollsOne, PollsProcess, after_loss, choose_input, input_from_port, loss_of, input_from_line};
ghost use Rattle.bay_server.specs.ServeReport as spec;

use crate::trace_lines::TraceLines;
use crate::turns::report_connection_event;
use bay_device::device::Device;
use bay_io::calls::Sink;
use bay_io::outbox::WriteFault;
use bay_io::writer::WatchedWriter;
use bay_lines::escaped::EscapedText;
use bay_process_port::poll::poll;
use bay_process_port::port::Port;
use bay_report::output::Status;
use bay_server_turn::link::Link;
use bay_server_turn::process_input::{ProcessReport, TurnInput, read_line};
use bay_server_turn::turn_report::Turn;
use std::marker::Model;

/// The input of a turn, with the line that it was read from, escaped, and the number of the line in
/// the trace, or 0.
#[derive(Drop)]
pub struct NextInput {
    pub number: usize,
    pub shown: EscapedText,
    pub given: TurnInput,
}

// The maximum number of turns in a row that skip their reads, so that the process is served sooner.
const MOST_SKIPS: u8 = 63;

/// A process with a link of its own, how many of the next turns may skip their reads, and whether
/// anything is known to have happened on the link.
#[derive(Drop)]
pub struct Process<L> {
    link: L,
    port: Port,
    skips_left: u8,
    is_busy: bool,
}

impl<L> Model for Process<L> {
    ghost use Rattle.bay_server.specs.ServeReport.{ProcessData};

    ghost Value = { ProcessData L };

    ghost view = { λ p. record { link = p.link; port = p.port; skips_left = p.skips_left } };
}

impl<L> Process<L> {
    /// Creates a process on whose link nothing has happened yet.
    pub fn new(link: L, port: Port) -> Self
        ensures { result ≡ record { link = link; port = port; skips_left = 0 } }
    {
        Process {
            link,
            port,
            skips_left: 0,
            is_busy: false,
        }
    }

    // Returns whether the next turn skips its reads: it may, and a line of the process waits.
    fn skips_reads(&self) -> bool
        ensures { result ≡ spec.skips_reads_of self.now }
    {
        self.skips_left > 0 && self.port.has_line()
    }

    // Counts a turn that skipped its reads, or did not.
    fn count_turn(&mut self, skipped: bool)
        ensures { self.new ≡ record self.old
            { skips_left = spec.skips_after skipped self.old.skips_left } }
    {
        self.skips_left = if skipped {
            self.skips_left.saturating_sub(1)
        } else {
            MOST_SKIPS
        };
    }

    // Returns whether anything has happened since the last call of this function.
    fn was_busy(&mut self) -> bool
        ensures { self.new ≡ self.old }
    {
        let was_busy = self.is_busy;
        self.is_busy = false;
        was_busy
    }
}

/// Returns whether anything has happened on the link of the process since the last call of this
/// function.
pub fn was_busy<L>(process: &mut Option<Process<L>>) -> bool
    ensures { process.new ≡ process.old }
{
    match process {
        Some(process) => process.was_busy(),
        None => false,
    }
}

// Takes the input of a turn from the port of the process, if there is one.
fn take_port_input<L>(
    process: &mut Option<Process<L>>,
    device: &Device,
    moment: u64,
    jump: u64,
) -> NextInput
    ensures next { result ≡ (input_from_port device.now moment jump [] process.old).next }
    ensures process { process.new
        ≡ (input_from_port device.now moment jump [] process.old).process }
{
    match process {
        Some(process) => {
            let skips_reads = process.skips_reads();
            let port_input = process.port.take_line(device, moment, jump);
            process.count_turn(skips_reads);
            NextInput {
                number: 0,
                shown: port_input.shown,
                given: Ok(ProcessReport {
                    is_lost: port_input.is_lost,
                    event: port_input.event,
                    skips_reads,
                }),
            }
        }
        None => NextInput {
            number: 0,
            shown: EscapedText::new(b""),
            given: Ok(ProcessReport::of(None)),
        },
    }
}

// Takes whether a process has gone, or is believed no more, and is lost now. The next turn does not
// skip its reads.
fn take_loss<L>(process: &mut Option<Process<L>>, device: &Device, moment: u64, jump: u64) -> bool
    ensures lost { result ≡ loss_of device.now moment jump process.old }
    ensures process { process.new ≡ after_loss device.now moment jump process.old }
{
    match process {
        Some(process) => {
            process.skips_left = 0;
            process.port.take_loss(device, moment, jump)
        }
        None => false,
    }
}

/// Returns whether the next turn skips its reads: a line of the process waits, and fewer than 63
/// turns in a row have skipped them. The first turn and the turn after a line of a trace read.
pub fn skips_reads<L>(process: &Option<Process<L>>) -> bool
    ensures { result ≡ spec.skips_reads process.now }
{
    match process {
        Some(process) => process.skips_reads(),
        None => false,
    }
}

// Adds the loss of the process to the input of a turn with a line.
fn with_loss(given: TurnInput, is_lost: bool) -> TurnInput
    ensures { result ≡ spec.with_loss is_lost given }
{
    let given = given?;
    Ok(ProcessReport {
        is_lost: is_lost || given.is_lost,
        event: given.event,
        skips_reads: given.skips_reads,
    })
}

// Reads a line of the trace, with its number, for a turn whose input may also have the loss of the
// process.
fn read_next(device: &Device, is_lost: bool, line: (usize, &[u8])) -> NextInput
    ensures { result ≡ input_from_line device.now is_lost (line.entry.0, line.entry.1.now) }
{
    let (number, text) = line;
    NextInput {
        number,
        shown: EscapedText::new(text),
        given: with_loss(read_line(device, text), is_lost),
    }
}

/// Returns what a turn at a moment is given: the next line of the trace, or after the last one what
/// the process has. That the process is lost is given beside a line of the trace. A turn that takes
/// a line which waited skips its reads, unless 63 turns in a row have; one with a line of the trace
/// does not. `jump` is how many milliseconds the system's clock has gone on beyond the steady one
/// since the turn before.
pub fn next_input<L>(
    lines: &mut TraceLines<'_>,
    process: &mut Option<Process<L>>,
    device: &Device,
    moment: u64,
    jump: u64,
) -> NextInput
    ensures next { result ≡ (choose_input device.now moment jump lines.old process.old).next }
    ensures lines { lines.new ≡ (choose_input device.now moment jump lines.old process.old).lines }
    ensures process { process.new
        ≡ (choose_input device.now moment jump lines.old process.old).process }
{
    match lines.next_line() {
        Some(line) => read_next(device, take_loss(process, device, moment, jump), line),
        None => take_port_input(process, device, moment, jump),
    }
}

// Serves the connection of a process after a turn, and reports its event.
fn poll_one<L: Link, W: Sink>(
    process: &mut Process<L>,
    device: &Device,
    moment: u64,
    turn: &Turn,
    writer: &mut WatchedWriter<W>,
) -> Result<u8, WriteFault>
    ensures { PollsOne (CountedCall L.does L.failures) W.contents W.does moment turn.now device.now
        process.old
        process.new writer.old writer.new result }
{
    let sizes = process.port.sizes();
    let connection_event = poll(&mut process.port, &mut process.link, device, moment, turn);
    process.is_busy |= connection_event.is_some() || process.port.sizes() != sizes;
    report_connection_event(writer, moment, &connection_event)
}

/// Serves the connection of the process after a turn, if there is one, and reports its event.
/// Returns the status 0; fails if a write or a flush fails.
pub fn poll_process<L: Link, W: Sink>(
    process: &mut Option<Process<L>>,
    device: &Device,
    moment: u64,
    turn: &Turn,
    writer: &mut WatchedWriter<W>,
) -> Result<u8, WriteFault>
    ensures { PollsProcess (CountedCall L.does L.failures) W.contents W.does moment turn.now
        device.now
        process.old
        process.new writer.old writer.new result }
{
    match process {
        Some(process) => poll_one(process, device, moment, turn, writer),
        None => Ok(Status::Clean.code()),
    }
}
