// One turn of the server.
ghost use Rattle.std.specs.Prelude.{◌≡◌, [], None, Some, IfOk, IfErr, OnErr, OnOk, unwrap_or};
ghost use Rattle.bay_server_turn.specs.Calls.{CountedCall, MakesCalls};
ghost use Rattle.bay_server_turn.specs.Served.{Serves, turn_input_of, report_in, text_in, turn_refusal};
ghost use Rattle.bay_server_turn.specs.Turns.{event_calls, with_event, moment_at, scan_calls, after_turn_scan, after_process_event, turn_state};

use crate::closing::close_overflowed;
use crate::fault::ServeFault;
use crate::link::Link;
use crate::offering::offer_each;
use crate::process_input::{ProcessEvent, ProcessReport, TurnInput, read_line};
use crate::reading::{accept_one, read_clients};
use crate::sending::{put_ended, step_without_replies};
use crate::server::Server;
use crate::turn_builder::TurnBuilder;
use crate::turn_report::Turn;
use bay_device::device::Device;
use bay_device::event::{Event, LAST_MOMENT};

// Applies an event of the process at the turn's time; `source_line` is the line it was read from.
fn apply_event(
    server: &mut Server,
    notes: &mut TurnBuilder,
    now: u64,
    event: ProcessEvent,
    source_line: &[u8],
)
    ensures after { turn_state server.new notes.new
        ≡ after_process_event now source_line.now event (turn_state server.old notes.old) }
    ensures commands { notes.new.commands ≡ notes.old.commands }
{
    match server.step(now, event.event(), source_line) {
        Ok(step) => put_ended(server, notes, &step.ended),
        Err(fault) => notes.report_refusal(fault.code()),
    }
}

// Applies the event of the process, if there is one, and closes the associations whose queues it
// filled.
fn apply_event_if_any<L: Link>(
    server: &mut Server,
    notes: &mut TurnBuilder,
    link: &mut L,
    now: u64,
    event: Option<ProcessEvent>,
    source_line: &[u8],
)
    ensures makes { MakesCalls (CountedCall L.does L.failures) link.old
        (event_calls now source_line.now event (turn_state server.old notes.old)) link.new }
    ensures after { turn_state server.new notes.new
        ≡ with_event now source_line.now event (turn_state server.old notes.old) }
    ensures commands { notes.new.commands ≡ notes.old.commands }
{
    if let Some(event) = event {
        apply_event(server, notes, now, event, source_line);
        close_overflowed(server, notes, link, now);
    }
}

// Runs the program once, and closes the associations whose queues this filled.
fn scan<L: Link>(server: &mut Server, notes: &mut TurnBuilder, link: &mut L, now: u64)
    ensures makes { MakesCalls (CountedCall L.does L.failures) link.old
        (scan_calls now (turn_state server.old notes.old)) link.new }
    ensures after { turn_state server.new notes.new
        ≡ after_turn_scan now (turn_state server.old notes.old) }
{
    step_without_replies(server, notes, now, Event::Scan);
    close_overflowed(server, notes, link, now);
}

/// Serves one turn, at the later of `clock` (in milliseconds since 1970) and the device's last
/// moment:
///
/// - accepts at most one waiting connection, under the lowest free number;
/// - reports the loss of the process to the device, if the process is lost;
/// - unless `given` says that it skips reads, reads each open association once, in order, up to
///   4,096 octets; closes one whose client sends no more, and one whose read fails (131);
/// - applies the event of the process, if there is one;
/// - runs the program once;
/// - writes each queue as far as the link takes it; closes an association whose write fails (131).
///
/// After each of these it closes each association to whose queue a reply did not fit (130). The
/// record copies the words of an event of the process from `source_line`.
///
/// The error is the fault of `given`, if it has one, or else `MomentTooLarge`, if no time stamp can
/// hold the moment. If there is an error, nothing has changed.
pub fn serve_event<L: Link>(
    server: &mut Server,
    link: &mut L,
    clock: u64,
    given: TurnInput,
    source_line: &[u8],
) -> Result<Turn, ServeFault>
    // There is a script such that the calls on the link, the server after the turn and what the
    // turn reports are the script's.
    ensures ok { IfOk result
        (λ turn. Serves (CountedCall L.does L.failures) link.old link.new
        (moment_at clock server.old)
        (report_in given) source_line.now server.old server.new turn) }
    // A turn succeeds exactly if its input has no fault and its moment is not too large; otherwise
    // the error is this fault.
    ensures right { OnOk result (turn_refusal clock given server.old ≡ None) }
    ensures refused { IfErr result
        (λ fault. turn_refusal clock given server.old ≡ Some fault) }
    ensures server_kept { OnErr result (server.new ≡ server.old) }
    ensures link_kept { OnErr result (link.new ≡ link.old) }
{
    let given = given?;
    let now = clock.max(server.device().moment());
    if now > LAST_MOMENT {
        return Err(ServeFault::MomentTooLarge);
    }
    let over = server.device().expired_at(now);
    let mut notes = TurnBuilder::new();
    let opened = accept_one(server, &mut notes, link, now);
    apply_event_if_any(
        server,
        &mut notes,
        link,
        now,
        given.loss_event(),
        source_line,
    );
    read_clients(server, &mut notes, link, now, given.reading_count());
    apply_event_if_any(server, &mut notes, link, now, given.event, source_line);
    scan(server, &mut notes, link, now);
    offer_each(server, &mut notes, link, now);
    Ok(notes.into_turn(opened, over))
}

// Reads the line of a turn, if there is one.
fn read_turn_input(device: &Device, line: Option<&str>) -> TurnInput
    ensures { result ≡ turn_input_of device.now (text_in line.entry) }
{
    match line {
        Some(text) => read_line(device, text.as_bytes()),
        None => Ok(ProcessReport::of(None)),
    }
}

/// Serves one turn with the event that a line spells: a contact, an input or a measurement, or the
/// loss of the process; the line's own moment is ignored. Without a line the process has no event.
/// Otherwise as `serve_event`, whose `given` is the line's event or `BadLine`.
pub fn serve_turn<L: Link>(
    server: &mut Server,
    link: &mut L,
    clock: u64,
    line: Option<&str>,
) -> Result<Turn, ServeFault>
    ensures ok { IfOk result
        (λ turn. Serves (CountedCall L.does L.failures) link.old link.new
        (moment_at clock server.old)
        (report_in (turn_input_of server.old.device (text_in line.entry)))
        (unwrap_or (text_in line.entry) []) server.old server.new turn) }
    ensures right { OnOk result
        (turn_refusal clock (turn_input_of server.old.device (text_in line.entry)) server.old
        ≡ None) }
    ensures refused { IfErr result
        (λ fault. turn_refusal clock (turn_input_of server.old.device (text_in line.entry))
        server.old
        ≡ Some fault) }
    ensures server_kept { OnErr result (server.new ≡ server.old) }
    ensures link_kept { OnErr result (link.new ≡ link.old) }
{
    let given = read_turn_input(server.device(), line);
    let source_line = line.map_or(b"".as_slice(), |text| text.as_bytes());
    serve_event(server, link, clock, given, source_line)
}
