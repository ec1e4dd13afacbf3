// Writes the trace line of an event of a device.
ghost use Rattle.std.specs.Prelude.{◌≡◌, ◌++◌, ◌<◌, ◌^◌, ℕ, List, codes};
ghost use Rattle.std.specs.Fmt.{decimal};
ghost use Rattle.hex.specs.Hex.{encode_lower};
ghost use Rattle.bay_device.specs.Device.{State};
ghost use Rattle.bay_device.specs.declared.event.Event.{Event as AnyEvent};
ghost use Rattle.bay_trace.specs.Recording.{IsReadAs, IsRecordable, PutsWhole, text_after_moment, event_line};

use bay_device::event::Event;
use bay_lines::bounded_buffer::BoundedBuffer;
use itoa::Buffer;

/// The maximum number of octets that are buffered.
pub const ROOM: usize = 73_728;

/// The lines that are not yet written.
pub type RecordLines = BoundedBuffer<ROOM>;

// The hexadecimal digits.
const DIGITS: &[u8; 16] = b"0123456789abcdef";

// Appends octets as hexadecimal digits. Returns false if there is not room for all of them.
fn put_digits(lines: &mut RecordLines, octets: &[u8]) -> bool
    ensures { PutsWhole lines.old (encode_lower octets.now) lines.new result }
{
    prove!(lines.as_slice().len() <= ROOM);
    for octet in octets {
        let pair = [
            DIGITS[(*octet / 16) as usize],
            DIGITS[(*octet % 16) as usize],
        ];
        if !lines.put(&pair) {
            return false;
        }
    }
    true
}

// Returns the rest of a line after its first space; nothing if it has no space.
fn words_after_moment(line: &[u8]) -> &[u8]
    ensures { result.now ≡ text_after_moment line.now }
{
    match line.iter().position(|octet| *octet == b' ') {
        Some(at) => &line[at + 1..],
        None => &line[line.len()..],
    }
}

// Appends the line of octets that a client sent. Returns false if there is not room for all of it.
fn put_received(lines: &mut RecordLines, moment: &[u8], association: u16, octets: &[u8]) -> bool
    ensures { PutsWhole lines.old
        (moment.now ++ codes " recv " ++ decimal association ++ codes " " ++ encode_lower octets.now
        ++ codes "\n") lines.new result }
{
    let mut numbers = Buffer::new();
    let number = numbers.format(association).as_bytes();
    lines.put_parts(&[moment, b" recv ", number, b" "])
        && put_digits(lines, octets)
        && lines.put_parts(&[b"\n"])
}

/// Appends the line of an event at a moment, in milliseconds since 1970. For an event of a switch,
/// an input or a meter it copies the words after the moment from `source`, the line that the event
/// was read from. Returns false if there is not room for all of the line; then a part of it may
/// have been appended.
pub fn put_event(lines: &mut RecordLines, now: u64, event: Event<'_>, source: &[u8]) -> bool
    ensures { PutsWhole lines.old (event_line now source.now event.entry ++ codes "\n") lines.new
        result }
{
    let mut moments = Buffer::new();
    let mut numbers = Buffer::new();
    let moment = moments.format(now).as_bytes();
    match event {
        Event::Open { association } => lines.put_parts(&[
            moment,
            b" open ",
            numbers.format(association).as_bytes(),
            b"\n",
        ]),
        Event::Recv {
            association,
            octets,
        } => put_received(lines, moment, association, octets),
        Event::Close { association } => lines.put_parts(&[
            moment,
            b" close ",
            numbers.format(association).as_bytes(),
            b"\n",
        ]),
        Event::Lost => lines.put_parts(&[moment, b" lost\n"]),
        Event::Scan => lines.put_parts(&[moment, b" scan\n"]),
        Event::Contact { .. }
        | Event::Input { .. }
        | Event::Measure { .. }
        | Event::BadMeasure { .. } => {
            lines.put_parts(&[moment, b" ", words_after_moment(source), b"\n"])
        }
    }
}

/// Read back, the line of an event has the moment at which the event was recorded, and the same
/// device resolves it to the same event.
pub fn recorded_events_are_read_as_themselves()
    ensures { (s : State) (now : ℕ) (source : List ℕ) (event : AnyEvent) → now < 2 ^ 64
        → IsRecordable s source event → IsReadAs s (event_line now source event) now event }
{}
