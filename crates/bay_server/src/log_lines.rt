// Logs the events of a server.
ghost use Rattle.std.specs.Prelude.{◌≡◌, Some, map, take};
ghost use Rattle.bay_io.specs.Sent.{Logs};
ghost use Rattle.bay_server.specs.Logging.{LogsAll};
ghost use Rattle.bay_server.specs.LogLines.{closed_line, memory_line, connection_event_log, opened_line, opened_log, process_closed_line, disconnect_line, ports_log, refused_line, refused_log, shift_log, silent_line, unbound_log, turn_refusal_log, all_served_log};
ghost use Rattle.bay_server.specs.ChangeLines.{turn_log};
ghost use Rattle.bay_server_turn.specs.declared.fault.ServeFault.TheVariants.{BadLine};

use crate::change_lines::{BayView, log_changes, log_ends, log_lost};
use crate::clock::{ClockShift, ClockSide};
use crate::connection_lines::{LineCount, log_left_out, take_first};
use crate::control_lines::log_controls;
use crate::host::BindFault;
use crate::process::NextInput;
use bay_device::device::Device;
use bay_io::calls::{LinePart, Sink};
use bay_io::writer::WatchedWriter;
use bay_lines::escaped::EscapedText;
use bay_process_port::connection_event::{ConnectionEvent, DisconnectReason};
use bay_server_turn::fault::ServeFault;
use bay_server_turn::turn_report::{CloseReason, Turn};
use std::net::SocketAddrV4;

/// Logs why a port can't be opened.
pub fn log_unbound<W: Sink>(writer: &mut WatchedWriter<W>, port: u16, fault: BindFault)
    ensures { Logs W.contents W.does writer.old (unbound_log port fault) writer.new }
{
    writer.log(&[
        LinePart::Text(b"bayctl: fault 121: port "),
        LinePart::Number(u64::from(port)),
        LinePart::Text(b": "),
        LinePart::Text(fault.words().as_bytes()),
        LinePart::Text(b"\n"),
    ]);
}

// Logs the ports of the clients and of the process.
fn log_both_ports<W: Sink>(writer: &mut WatchedWriter<W>, moment: u64, port: u16, process: u16)
    ensures { Logs W.contents W.does writer.old (ports_log moment port (Some process)) writer.new }
{
    writer.log(&[
        LinePart::Moment(moment),
        LinePart::Text(b" clients on 127.0.0.1:"),
        LinePart::Number(u64::from(port)),
        LinePart::Text(b", process on 127.0.0.1:"),
        LinePart::Number(u64::from(process)),
        LinePart::Text(b"\n"),
    ]);
}

/// Logs the port of the clients, and that of the process, if there is one.
pub fn log_ports<W: Sink>(
    writer: &mut WatchedWriter<W>,
    moment: u64,
    port: u16,
    process: Option<u16>,
)
    ensures { Logs W.contents W.does writer.old (ports_log moment port process) writer.new }
{
    match process {
        Some(process) => log_both_ports(writer, moment, port, process),
        None => writer.log(&[
            LinePart::Moment(moment),
            LinePart::Text(b" clients on 127.0.0.1:"),
            LinePart::Number(u64::from(port)),
            LinePart::Text(b"\n"),
        ]),
    }
}

/// Logs a change of the side of the system's time, if there is one.
pub fn log_shift<W: Sink>(writer: &mut WatchedWriter<W>, moment: u64, shift: Option<ClockShift>)
    ensures { LogsAll W.contents W.does writer.old (shift_log moment shift) writer.new }
{
    let Some(ClockShift { side, distance }) = shift else {
        return;
    };
    let moment = LinePart::Moment(moment);
    let is = LinePart::Text(b" the system's clock is ");
    let distance = LinePart::Number(distance);
    match side {
        ClockSide::Near => writer.log(&[
            moment,
            LinePart::Text(b" the system's clock agrees again\n"),
        ]),
        ClockSide::Ahead => writer.log(&[moment, is, distance, LinePart::Text(b" ms ahead\n")]),
        ClockSide::Behind => writer.log(&[moment, is, distance, LinePart::Text(b" ms behind\n")]),
    }
}

// Logs that an association was opened, and the address of its client.
fn log_open<W: Sink>(writer: &mut WatchedWriter<W>, moment: u64, opened: (u16, SocketAddrV4))
    ensures { Logs W.contents W.does writer.old (opened_line moment opened) writer.new }
{
    let (association, from) = opened;
    let octets = from.ip().octets();
    writer.log(&[
        LinePart::Moment(moment),
        LinePart::Text(b" association "),
        LinePart::Number(u64::from(association)),
        LinePart::Text(b" open from "),
        LinePart::Number(u64::from(octets[0])),
        LinePart::Text(b"."),
        LinePart::Number(u64::from(octets[1])),
        LinePart::Text(b"."),
        LinePart::Number(u64::from(octets[2])),
        LinePart::Text(b"."),
        LinePart::Number(u64::from(octets[3])),
        LinePart::Text(b":"),
        LinePart::Number(u64::from(from.port())),
        LinePart::Text(b"\n"),
    ]);
}

// Logs that an association was opened, if one was and there is room for a line.
fn log_opened<W: Sink>(
    writer: &mut WatchedWriter<W>,
    moment: u64,
    opened: Option<(u16, SocketAddrV4)>,
    room: usize,
)
    ensures { LogsAll W.contents W.does writer.old (take room (opened_log moment opened))
        writer.new }
{
    if room == 0 {
        return;
    }
    match opened {
        Some(opened) => log_open(writer, moment, opened),
        None => {}
    }
}

// Logs that the device refused the event of a line.
fn log_refusal<W: Sink>(writer: &mut WatchedWriter<W>, moment: u64, code: u8, shown: &EscapedText)
    ensures { Logs W.contents W.does writer.old (refused_line moment code shown.now) writer.new }
{
    writer.log(&[
        LinePart::Moment(moment),
        LinePart::Text(b" refused "),
        LinePart::Number(u64::from(code)),
        LinePart::Text(b": "),
        LinePart::Text(shown.as_slice()),
        LinePart::Text(b"\n"),
    ]);
}

// Logs that the device refused the event of a line, if it did.
fn log_refused<W: Sink>(
    writer: &mut WatchedWriter<W>,
    moment: u64,
    refused: Option<u8>,
    shown: &EscapedText,
)
    ensures { LogsAll W.contents W.does writer.old (refused_log moment refused shown.now)
        writer.new }
{
    match refused {
        Some(code) => log_refusal(writer, moment, code, shown),
        None => {}
    }
}

// Logs that an association was closed, and why.
fn log_closed<W: Sink>(writer: &mut WatchedWriter<W>, moment: u64, closed: (u16, CloseReason))
    ensures { Logs W.contents W.does writer.old (closed_line moment closed) writer.new }
{
    let (association, closing) = closed;
    writer.log(&[
        LinePart::Moment(moment),
        LinePart::Text(b" association "),
        LinePart::Number(u64::from(association)),
        LinePart::Text(b" closed "),
        LinePart::Number(u64::from(closing.code())),
        LinePart::Text(b": "),
        LinePart::Text(closing.words().as_bytes()),
        LinePart::Text(b"\n"),
    ]);
}

// Logs the associations that were closed.
fn log_closings<W: Sink>(writer: &mut WatchedWriter<W>, moment: u64, closed: &[(u16, CloseReason)])
    ensures { LogsAll W.contents W.does writer.old (map (closed_line moment) closed.now)
        writer.new }
{
    for entry in closed {
        log_closed(writer, moment, *entry);
    }
}

// Logs that an association was closed because the device was out of memory.
fn log_memory<W: Sink>(writer: &mut WatchedWriter<W>, moment: u64, association: u16)
    ensures { Logs W.contents W.does writer.old (memory_line moment association) writer.new }
{
    writer.log(&[
        LinePart::Moment(moment),
        LinePart::Text(b" association "),
        LinePart::Number(u64::from(association)),
        LinePart::Text(b" closed memory\n"),
    ]);
}

// Logs the associations that were closed because the device was out of memory.
fn log_memories<W: Sink>(writer: &mut WatchedWriter<W>, moment: u64, memory: &[u16])
    ensures { LogsAll W.contents W.does writer.old (map (memory_line moment) memory.now)
        writer.new }
{
    for association in memory {
        log_memory(writer, moment, *association);
    }
}

/// Logs what a turn reports and what has changed in it, given the count of the lines of connections
/// before it, its input, the view of the bay before it, and the device after it. Looks at nothing
/// if no lines are logged.
pub fn log_turn<W: Sink>(
    writer: &mut WatchedWriter<W>,
    device: &Device,
    moment: u64,
    count: LineCount,
    next: &NextInput,
    before: &BayView,
    turn: &Turn,
)
    ensures { LogsAll W.contents W.does writer.old
        (turn_log moment count next.now before.now device.now turn.now) writer.new }
{
    if !writer.is_logging() {
        return;
    }
    let closed = take_first(
        turn.closed.as_slice(),
        count.at_closings(moment, turn).room(),
    );
    let memory = take_first(turn.memory.as_slice(), count.at_memory(moment, turn).room());
    log_left_out(writer, moment, count);
    log_opened(writer, moment, turn.opened, count.at(moment).room());
    log_lost(writer, moment, next.given);
    log_refused(writer, moment, turn.refused, &next.shown);
    log_controls(writer, device, moment, &turn.decisions);
    log_closings(writer, moment, closed);
    log_memories(writer, moment, memory);
    log_ends(writer, device, moment, before, turn);
    log_changes(writer, device, moment, before);
}

// Logs which line of the trace is not valid.
fn log_bad_line<W: Sink>(writer: &mut WatchedWriter<W>, number: usize, shown: &EscapedText)
    ensures { Logs W.contents W.does writer.old (turn_refusal_log BadLine number shown.now)
        writer.new }
{
    writer.log(&[
        LinePart::Text(b"bayctl: fault 120 line "),
        LinePart::Number(number as u64),
        LinePart::Text(b": "),
        LinePart::Text(shown.as_slice()),
        LinePart::Text(b"\n"),
    ]);
}

/// Logs why a turn was refused, with its line of the trace.
pub fn log_turn_refusal<W: Sink>(
    writer: &mut WatchedWriter<W>,
    fault: ServeFault,
    number: usize,
    shown: &EscapedText,
)
    ensures { Logs W.contents W.does writer.old (turn_refusal_log fault number shown.now)
        writer.new }
{
    match fault {
        ServeFault::BadLine => log_bad_line(writer, number, shown),
        ServeFault::MomentTooLarge => writer.log(&[LinePart::Text(
            b"bayctl: fault 114: the clock is past the last moment\n",
        )]),
    }
}

/// Logs that all turns were served.
pub fn log_all_served<W: Sink>(writer: &mut WatchedWriter<W>, moment: u64)
    ensures { Logs W.contents W.does writer.old (all_served_log moment) writer.new }
{
    writer.log(&[
        LinePart::Moment(moment),
        LinePart::Text(b" all turns are served\n"),
    ]);
}

// Logs that the connection of the process was closed, with the number of the reason and in words.
fn log_process_closed<W: Sink>(writer: &mut WatchedWriter<W>, moment: u64, code: u8, words: &[u8])
    ensures { Logs W.contents W.does writer.old (process_closed_line moment code words.now)
        writer.new }
{
    writer.log(&[
        LinePart::Moment(moment),
        LinePart::Text(b" process closed "),
        LinePart::Number(u64::from(code)),
        LinePart::Text(b": "),
        LinePart::Text(words),
        LinePart::Text(b"\n"),
    ]);
}

// Logs that the connection of the process was closed because it was silent for this number of
// milliseconds.
fn log_silence<W: Sink>(writer: &mut WatchedWriter<W>, moment: u64, limit_ms: u32)
    ensures { Logs W.contents W.does writer.old (silent_line moment limit_ms) writer.new }
{
    writer.log(&[
        LinePart::Moment(moment),
        LinePart::Text(b" process closed 134: no line for "),
        LinePart::Number(u64::from(limit_ms)),
        LinePart::Text(b" ms\n"),
    ]);
}

// Logs that the connection of the process was closed, and why.
fn log_disconnect<W: Sink>(writer: &mut WatchedWriter<W>, moment: u64, why: &DisconnectReason)
    ensures { Logs W.contents W.does writer.old (disconnect_line moment why.now) writer.new }
{
    match why {
        DisconnectReason::Ended => log_process_closed(
            writer,
            moment,
            0,
            b"it ended its connection",
        ),
        DisconnectReason::BadLine(line) => log_process_closed(writer, moment, 120, line.as_slice()),
        DisconnectReason::QueueFull => {
            log_process_closed(
                writer,
                moment,
                130,
                b"what it is told does not fit its queue",
            )
        }
        DisconnectReason::LinkFailed => {
            log_process_closed(
                writer,
                moment,
                131,
                b"its connection failed, or it sent nothing for 10 seconds",
            )
        }
        DisconnectReason::Foreign => log_process_closed(
            writer,
            moment,
            132,
            b"it is not the process of this bay, or has another key",
        ),
        DisconnectReason::Untimely => {
            log_process_closed(
                writer,
                moment,
                133,
                b"its time is too far from the server's",
            )
        }
        DisconnectReason::OutOfOrder => {
            log_process_closed(
                writer,
                moment,
                133,
                b"its time is before that of the line before",
            )
        }
        DisconnectReason::Silent(limit_ms) => log_silence(writer, moment, *limit_ms),
        DisconnectReason::Jumped => log_process_closed(
            writer,
            moment,
            134,
            b"the clock has jumped",
        ),
    }
}

/// Logs an event of the connection of the process.
pub fn log_connection_event<W: Sink>(
    writer: &mut WatchedWriter<W>,
    moment: u64,
    connection_event: &ConnectionEvent,
)
    ensures { Logs W.contents W.does writer.old (connection_event_log moment connection_event.now)
        writer.new }
{
    match connection_event {
        ConnectionEvent::Opened => writer.log(&[
            LinePart::Moment(moment),
            LinePart::Text(b" process open\n"),
        ]),
        ConnectionEvent::Closed(why) => log_disconnect(writer, moment, why),
    }
}
