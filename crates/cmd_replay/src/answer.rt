// Answers a line of the trace: applies its event, and writes the lines of the answer.
ghost use Rattle.std.specs.Prelude.{◌≡◌, Some, IfSome, is_none, is_some};
ghost use Rattle.bay_device.specs.declared.event.Event.TheVariants.{Scan};
ghost use Rattle.cmd_replay.specs.Answering.{AnswersLine, AppliesEvent, is_unreadable};
ghost use Rattle.cmd_replay.specs.LineAnswers.{line_answer, named_answer};
ghost use Rattle.bay_trace.specs.Resolving.{resolved_event};
ghost use Rattle.bay_trace.specs.Trace.{at_moment, contact, scan, trace_line_of};
ghost use Rattle.bay_trace.specs.TraceView.{named_view};

use bay_base::position::Dbpos;
use bay_device::device::Device;
use bay_device::event::Event;
use bay_io::calls::Sink;
use bay_io::writer::WatchedWriter;
use bay_report::lines::{put_contact, put_scanned, put_step, put_unreadable};
use bay_report::output::NO_MEMORY;
use bay_trace::octets::LineOctets;
use bay_trace::resolve::{decode_octets, resolve_event, resolve_switch};
use bay_trace::trace::{NamedEvent, TraceLine, read_trace_line, scan_digits};
use std::alloc::AllocError;

/// Why a replay ends before the last line of its trace.
#[derive(Clone, Copy)]
pub enum ReplayEnd {
    /// The line is not valid.
    Unreadable,
    /// There is no memory for the octets of the line.
    OutOfMemory,
}

// Applies an event, and writes the lines of its answer.
fn answer_event<W: Sink>(
    writer: &mut WatchedWriter<W>,
    device: &mut Device,
    moment: u64,
    event: Event<'_>,
)
    ensures { AppliesEvent W.contents W.does writer.old moment event.entry device.old writer.new
        device.new }
{
    let answer = device.step(moment, event);
    put_step(writer, device, moment, &answer);
}

// Applies the position of the switch with this id, and writes the lines of the answer.
fn answer_contact<W: Sink>(
    writer: &mut WatchedWriter<W>,
    device: &mut Device,
    moment: u64,
    id: &str,
    position: Dbpos,
)
    ensures { AppliesEvent W.contents W.does writer.old moment
        (resolved_event device.old (contact id.now position)) device.old writer.new device.new }
{
    let switch = resolve_switch(device, id);
    let answer = device.contact(moment, switch, position);
    put_contact(writer, moment, &answer);
}

// Runs the program once, and writes the lines of the answer. Copies the digits of the moment from
// the line.
fn answer_scan<W: Sink>(
    writer: &mut WatchedWriter<W>,
    device: &mut Device,
    line: &[u8],
    moment: u64,
)
    requires { trace_line_of line.now ≡ Some (at_moment moment scan) }
    ensures { AppliesEvent W.contents W.does writer.old moment Scan device.old writer.new
        device.new }
{
    let digits = scan_digits(line);
    let answer = device.scan(moment);
    put_scanned(writer, device, moment, digits, &answer);
}

// Applies an event of any kind, and writes the lines of its answer. Returns true if the replay ends
// there because there is no memory for the event's octets.
fn answer_any<W: Sink>(
    writer: &mut WatchedWriter<W>,
    device: &mut Device,
    octets: &mut LineOctets,
    moment: u64,
    event: NamedEvent<'_>,
) -> bool
    ensures { AnswersLine W.contents W.does writer.old
        (λ choice. named_answer choice moment (named_view event.entry)
        (record { device = device.old; room = octets.old.room })) writer.new
        (record { device = device.new; room = octets.new.room }) result }
{
    match decode_octets(octets, &event) {
        Ok(()) => {
            let event = resolve_event(device, octets.as_slice(), event);
            answer_event(writer, device, moment, event);
            false
        }
        Err(AllocError) => {
            writer.put(NO_MEMORY);
            true
        }
    }
}

// Applies the event of a line, and writes the lines of its answer. Returns true if the replay ends
// there because there is no memory for the event's octets. Contacts and scans, the events of most
// lines, are answered without lists.
fn answer_named<W: Sink>(
    writer: &mut WatchedWriter<W>,
    device: &mut Device,
    octets: &mut LineOctets,
    line: &[u8],
    moment: u64,
    event: NamedEvent<'_>,
) -> bool
    requires { trace_line_of line.now ≡ Some (at_moment moment (named_view event)) }
    ensures { AnswersLine W.contents W.does writer.old
        (λ choice. named_answer choice moment (named_view event.entry)
        (record { device = device.old; room = octets.old.room })) writer.new
        (record { device = device.new; room = octets.new.room }) result }
{
    match event {
        NamedEvent::Contact { id, position } => {
            answer_contact(writer, device, moment, id, position);
            false
        }
        NamedEvent::Scan => {
            answer_scan(writer, device, line, moment);
            false
        }
        _ => answer_any(writer, device, octets, moment, event),
    }
}

/// Applies the event of the line with this number, counted from 1, and writes the lines of its
/// answer. Returns why the replay ends there; `None` if it goes on.
pub fn replay_line<W: Sink>(
    writer: &mut WatchedWriter<W>,
    device: &mut Device,
    octets: &mut LineOctets,
    number: usize,
    line: &[u8],
) -> Option<ReplayEnd>
    ensures answers { AnswersLine W.contents W.does writer.old
        (λ choice. line_answer choice number (trace_line_of line.now)
        (record { device = device.old; room = octets.old.room })) writer.new
        (record { device = device.new; room = octets.new.room }) (is_some result) }
    ensures end { IfSome result (λ end. is_unreadable end ≡ is_none (trace_line_of line.now)) }
{
    match read_trace_line(line) {
        None => {
            put_unreadable(writer, number);
            Some(ReplayEnd::Unreadable)
        }
        Some(TraceLine::Blank) => None,
        Some(TraceLine::At { moment, event }) => {
            if answer_named(writer, device, octets, line, moment, event) {
                Some(ReplayEnd::OutOfMemory)
            } else {
                None
            }
        }
    }
}
