// The lines that are printed for a turn of a server.
ghost use Rattle.std.specs.Prelude.{◌≡◌};
ghost use Rattle.bay_io.specs.Sent.{Puts};
ghost use Rattle.bay_device.specs.declared.event.Why.TheVariants.{Fault};
ghost use Rattle.bay_report.specs.Lines.{closing_text};
ghost use Rattle.bay_report.specs.Report.{IsOutput, Prints};
ghost use Rattle.bay_server_turn.specs.Code.{code_of};
ghost use Rattle.bay_server.specs.ServeReport.{PrintsTurn, ReportsConnectionEvent, ReportsTurn, ReportsTurnRefusal};
ghost use Rattle.bay_process_port.specs.ProcessOutput.{refusal_text};
ghost use Rattle.bay_process_port.specs.declared.connection_event.ConnectionEvent.TheVariants.{Closed, Opened};
ghost use Rattle.bay_server.specs.TurnLines.{closings_text, memory_closings_text, connection_event_text, turn_text, turn_refusal_text};
ghost use Rattle.bay_server.specs.TurnLines as spec;

use crate::change_lines::BayView;
use crate::connection_lines::LineCount;
use crate::log_lines::{log_connection_event, log_turn, log_turn_refusal};
use crate::process::NextInput;
use bay_device::device::Device;
use bay_device::event::Why;
use bay_io::calls::Sink;
use bay_io::outbox::WriteFault;
use bay_io::writer::WatchedWriter;
use bay_lines::escaped::EscapedText;
use bay_process_port::connection_event::{ConnectionEvent, DisconnectReason};
use bay_report::lines::{put_closing_line, put_commands, put_refusal, put_unreadable};
use bay_report::output::{Status, finish, write_text};
use bay_server_turn::fault::ServeFault;
use bay_server_turn::turn_report::{CloseReason, Turn};

// Writes the line of a refusal, if there was one.
fn put_refused<W: Sink>(writer: &mut WatchedWriter<W>, moment: u64, refused: Option<u8>)
    ensures { Puts W.contents W.does writer.old (refusal_text moment refused) writer.new }
{
    match refused {
        Some(code) => put_refusal(writer, moment, code),
        None => {}
    }
}

// Writes the line of a closed association, with the number of the reason.
fn put_entry<W: Sink>(writer: &mut WatchedWriter<W>, moment: u64, entry: (u16, CloseReason))
    ensures { Puts W.contents W.does writer.old
        (closing_text moment entry.0 (Fault (code_of entry.1)))
        writer.new }
{
    let (association, closing) = entry;
    put_closing_line(writer, moment, association, Why::Fault(closing.code()));
}

// Writes the lines of the closed associations.
fn put_closings<W: Sink>(writer: &mut WatchedWriter<W>, moment: u64, closed: &[(u16, CloseReason)])
    ensures { Puts W.contents W.does writer.old (closings_text moment closed.now) writer.new }
{
    for entry in closed {
        put_entry(writer, moment, *entry);
    }
}

// Writes the lines of the associations that were closed because the device was out of memory.
fn put_memories<W: Sink>(writer: &mut WatchedWriter<W>, moment: u64, memory: &[u16])
    ensures { Puts W.contents W.does writer.old (memory_closings_text moment memory.now)
        writer.new }
{
    for association in memory {
        put_closing_line(writer, moment, *association, Why::Memory);
    }
}

// Writes the lines of a turn.
fn put_turn<W: Sink>(writer: &mut WatchedWriter<W>, device: &Device, moment: u64, turn: &Turn)
    ensures { Puts W.contents W.does writer.old (turn_text moment turn.now device.now) writer.new }
{
    put_refused(writer, moment, turn.refused);
    put_commands(writer, device, moment, turn.commands.as_slice());
    put_closings(writer, moment, turn.closed.as_slice());
    put_memories(writer, moment, turn.memory.as_slice());
}

// Returns whether a turn has nothing to print.
fn is_quiet(turn: &Turn) -> bool
    ensures { result ≡ spec.is_quiet turn.now }
{
    turn.refused.is_none()
        && turn.commands.as_slice().is_empty()
        && turn.closed.as_slice().is_empty()
        && turn.memory.as_slice().is_empty()
}

// Writes the lines of a turn, and flushes them.
fn write_turn<W: Sink>(
    writer: &mut WatchedWriter<W>,
    device: &Device,
    moment: u64,
    turn: &Turn,
) -> Result<u8, WriteFault>
    ensures { Prints W.contents W.does (IsOutput (turn_text moment turn.now device.now) 0)
        writer.old
        writer.new result }
{
    put_turn(writer, device, moment, turn);
    finish(writer, Status::Clean)
}

// Writes the lines of a turn and flushes them. Does not use the writer if the turn has nothing to
// print.
fn print_turn<W: Sink>(
    writer: &mut WatchedWriter<W>,
    device: &Device,
    moment: u64,
    turn: &Turn,
) -> Result<u8, WriteFault>
    ensures { PrintsTurn W.contents W.does moment turn.now device.now writer.old writer.new
        result }
{
    if is_quiet(turn) {
        Ok(Status::Clean.code())
    } else {
        write_turn(writer, device, moment, turn)
    }
}

/// Logs what a turn reports and what has changed in it, given its input, the count of the log lines
/// of connections and the view of the bay before it, and prints its lines. Returns the status 0;
/// fails if a write or a flush fails.
pub fn report_turn<W: Sink>(
    writer: &mut WatchedWriter<W>,
    device: &Device,
    moment: u64,
    count: LineCount,
    next: &NextInput,
    before: &BayView,
    turn: &Turn,
) -> Result<u8, WriteFault>
    ensures { ReportsTurn W.contents W.does moment count next.now before.now turn.now device.now
        writer.old
        writer.new result }
{
    log_turn(writer, device, moment, count, next, before, turn);
    print_turn(writer, device, moment, turn)
}

// Writes that the connection of the process was accepted.
fn put_opened<W: Sink>(writer: &mut WatchedWriter<W>, moment: u64)
    ensures { Puts W.contents W.does writer.old (connection_event_text moment Opened) writer.new }
{
    writer.put_number(moment);
    writer.put(b" process open\n");
}

// Writes that the connection of the process was closed, with the number of the reason.
fn put_disconnect<W: Sink>(writer: &mut WatchedWriter<W>, moment: u64, why: &DisconnectReason)
    ensures { Puts W.contents W.does writer.old (connection_event_text moment (Closed why.now))
        writer.new }
{
    writer.put_number(moment);
    writer.put(b" process closed ");
    writer.put_number(u64::from(why.code()));
    writer.put(b"\n");
}

// Writes an event of the connection of the process.
fn put_connection_event<W: Sink>(
    writer: &mut WatchedWriter<W>,
    moment: u64,
    connection_event: &ConnectionEvent,
)
    ensures { Puts W.contents W.does writer.old (connection_event_text moment connection_event.now)
        writer.new }
{
    match connection_event {
        ConnectionEvent::Opened => put_opened(writer, moment),
        ConnectionEvent::Closed(why) => put_disconnect(writer, moment, why),
    }
}

// Writes an event of the connection of the process, and flushes it.
fn write_connection_event<W: Sink>(
    writer: &mut WatchedWriter<W>,
    moment: u64,
    connection_event: &ConnectionEvent,
) -> Result<u8, WriteFault>
    ensures { Prints W.contents W.does
        (IsOutput (connection_event_text moment connection_event.now) 0) writer.old
        writer.new
        result }
{
    put_connection_event(writer, moment, connection_event);
    finish(writer, Status::Clean)
}

/// Logs and writes an event of the connection of the process, if there is one, and flushes it;
/// otherwise does not use the writer. Returns the status 0; fails if a write or a flush fails.
pub fn report_connection_event<W: Sink>(
    writer: &mut WatchedWriter<W>,
    moment: u64,
    connection_event: &Option<ConnectionEvent>,
) -> Result<u8, WriteFault>
    ensures { ReportsConnectionEvent W.contents W.does moment connection_event.now writer.old
        writer.new
        result }
{
    match connection_event {
        Some(connection_event) => {
            log_connection_event(writer, moment, connection_event);
            write_connection_event(writer, moment, connection_event)
        }
        None => Ok(Status::Clean.code()),
    }
}

// Writes which line of the trace is not valid.
fn write_bad_line<W: Sink>(writer: &mut WatchedWriter<W>, number: usize) -> Result<u8, WriteFault>
    ensures { Prints W.contents W.does (IsOutput (turn_refusal_text ServeFault.BadLine number) 3)
        writer.old
        writer.new result }
{
    put_unreadable(writer, number);
    finish(writer, Status::Fault)
}

// Writes why a turn was refused, with the number of its line of the trace.
fn write_turn_refusal<W: Sink>(
    writer: &mut WatchedWriter<W>,
    fault: ServeFault,
    number: usize,
) -> Result<u8, WriteFault>
    ensures { Prints W.contents W.does (IsOutput (turn_refusal_text fault number) 3) writer.old
        writer.new
        result }
{
    match fault {
        ServeFault::BadLine => write_bad_line(writer, number),
        ServeFault::MomentTooLarge => write_text(writer, b"fault 114\n", Status::Fault),
    }
}

/// Logs and writes why a turn was refused, with its line of the trace. Returns the status 3; fails
/// if a write or a flush fails.
pub fn report_turn_refusal<W: Sink>(
    writer: &mut WatchedWriter<W>,
    fault: ServeFault,
    number: usize,
    shown: &EscapedText,
) -> Result<u8, WriteFault>
    ensures { ReportsTurnRefusal W.contents W.does fault number shown.now writer.old writer.new
        result }
{
    log_turn_refusal(writer, fault, number, shown);
    write_turn_refusal(writer, fault, number)
}
