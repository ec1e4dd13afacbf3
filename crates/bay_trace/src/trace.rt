// Reads a line of the trace.
ghost use Rattle.std.specs.Prelude.{◌≡◌, ◌∷◌, ◌≤◌, ◌^◌, ◌<◌, ℕ, length, option_map, IfSome, None, Some, codes, neg_ℤ, pos, slice_index_or, ◌==◌, if◌then◌else◌};
ghost use Rattle.std.specs.Fmt.{decimal};
ghost use Rattle.std.specs.List.{slice_split};
ghost use Rattle.std.specs.Str.{IsUtf8};
ghost use Rattle.bay_trace.specs.Trace.{association_of, is_space, received_of, rest_words, association_event_in, first_number, read_integer, position_of, truth_of, field_of, name_of, measure_of, event_of, words_line, trace_line_of, process_of, at_moment, scan};
ghost use Rattle.bay_trace.specs.Trace as spec;
ghost use Rattle.bay_trace.specs.TraceView.{named_view, line_view};

use crate::octets::Digits;
use bay_base::decimal::{read_decimal, to_negative, to_positive, with_digit};
use bay_base::point::MeterField;
use bay_base::position::Dbpos;

// How many digits after the first are read without a test for overflow: any 19 digits are below
// 2^64.
const FREE_DIGITS: usize = 18;

// The rest of a line of a scan after its moment.
const SCAN: &[u8] = b" scan";

/// An event, with names as in the trace.
#[derive(Clone, Copy)]
pub enum NamedEvent<'a> {
    /// The association with this number is opened.
    Open {
        association: u16,
    },
    /// The client of this association sends octets.
    Recv {
        association: u16,
        digits: Digits<'a>,
    },
    /// The association with this number is closed.
    Close {
        association: u16,
    },
    /// The switch with this id reports this position.
    Contact {
        id: &'a str,
        position: Dbpos,
    },
    /// The input with this name has this value.
    Input {
        name: &'a str,
        value: bool,
    },
    /// This field of the meter with this id has this value.
    Measure {
        id: &'a str,
        field: MeterField,
        value: i32,
    },
    /// The value of this field of the meter with this id is invalid.
    BadMeasure {
        id: &'a str,
        field: MeterField,
    },
    /// The process is lost.
    Lost,
    /// The program runs once.
    Scan,
}

/// A line of the trace.
#[derive(Clone, Copy)]
pub enum TraceLine<'a> {
    /// An empty line.
    Blank,
    /// An event at a time in milliseconds since 1970.
    At { moment: u64, event: NamedEvent<'a> },
}

// Returns the first word of a text, and the text after the space that follows it, if there is one.
fn split_word(text: &[u8]) -> (&[u8], Option<&[u8]>)
    ensures { slice_split is_space text.now
        ≡ result.0.now ∷ rest_words (option_map (λ rest. rest.now) result.1) }
{
    match text.iter().position(|octet| *octet == b' ') {
        Some(at) => (&text[..at], Some(&text[at + 1..])),
        None => (text, None),
    }
}

// Reads a decimal value of 32 bits, optionally with a `-` before it.
fn parse_integer(word: &[u8]) -> Option<i32>
    ensures { result ≡ read_integer word.now }
{
    match word.strip_prefix(b"-") {
        Some(digits) => to_negative(read_decimal(digits)?),
        None => to_positive(read_decimal(word)?),
    }
}

// Reads a position from its digit, 0 to 3.
fn parse_position(word: &[u8]) -> Option<Dbpos>
    ensures { result ≡ position_of word.now }
{
    match word {
        b"0" => Some(Dbpos::Intermediate),
        b"1" => Some(Dbpos::Off),
        b"2" => Some(Dbpos::On),
        b"3" => Some(Dbpos::Bad),
        _ => None,
    }
}

// Reads a truth value from its digit, 0 or 1.
fn parse_truth(word: &[u8]) -> Option<bool>
    ensures { result ≡ truth_of word.now }
{
    match word {
        b"0" => Some(false),
        b"1" => Some(true),
        _ => None,
    }
}

// Returns the field of a meter with this name.
fn parse_field(word: &[u8]) -> Option<MeterField>
    ensures { result ≡ field_of word.now }
{
    if word == b"TOTW".as_slice() {
        Some(MeterField::TotW)
    } else if word == b"TOTVAR".as_slice() {
        Some(MeterField::TotVAr)
    } else if word == b"HZ".as_slice() {
        Some(MeterField::Hz)
    } else if word == b"AA".as_slice() {
        Some(MeterField::PhaseA)
    } else if word == b"AB".as_slice() {
        Some(MeterField::PhaseB)
    } else if word == b"AC".as_slice() {
        Some(MeterField::PhaseC)
    } else {
        None
    }
}

// Reads a name: UTF-8, and not empty. Most names are ASCII, which is valid UTF-8 without a check.
fn parse_name(word: &[u8]) -> Option<&str>
    ensures { option_map (λ name. name.now) result ≡ name_of word.now }
{
    if word.is_empty() {
        return None;
    }
    if word.iter().all(|octet| octet.is_ascii()) {
        return Some(unsafe { std::str::from_utf8_unchecked(word) });
    }
    match std::str::from_utf8(word) {
        Ok(name) => Some(name),
        Err(_) => None,
    }
}

// Reads an event of a switch: its id and its position.
fn parse_contact(text: &[u8]) -> Option<NamedEvent<'_>>
    ensures { option_map named_view result
        ≡ event_of (codes "contact" ∷ slice_split is_space text.now) }
{
    let (id, tail) = split_word(text);
    let id = parse_name(id)?;
    let position = parse_position(tail?)?;
    Some(NamedEvent::Contact { id, position })
}

// Reads an event of an input: its name and its value.
fn parse_input(text: &[u8]) -> Option<NamedEvent<'_>>
    ensures { option_map named_view result
        ≡ event_of (codes "input" ∷ slice_split is_space text.now) }
{
    let (id, tail) = split_word(text);
    let name = parse_name(id)?;
    let value = parse_truth(tail?)?;
    Some(NamedEvent::Input { name, value })
}

// Reads an event of the meter with this id: a field, then its value or `bad`.
fn parse_measured_field<'a>(id: &'a str, tail: &[u8]) -> Option<NamedEvent<'a>>
    ensures { option_map named_view result
        ≡ measure_of id.entry.now (slice_split is_space tail.now) }
{
    let (name, rest) = split_word(tail);
    let field = parse_field(name)?;
    let rest = rest?;
    if rest == b"bad".as_slice() {
        return Some(NamedEvent::BadMeasure { id, field });
    }
    let value = parse_integer(rest)?;
    Some(NamedEvent::Measure { id, field, value })
}

// Reads an event of a meter: its id, a field, then the value or `bad`.
fn parse_measure(text: &[u8]) -> Option<NamedEvent<'_>>
    ensures { option_map named_view result
        ≡ event_of (codes "measure" ∷ slice_split is_space text.now) }
{
    let (id, tail) = split_word(text);
    parse_measured_field(parse_name(id)?, tail?)
}

// Reads the number of an association, 0 to 65535.
fn parse_association(word: &[u8]) -> Option<u16>
    ensures { result ≡ association_of word.now }
{
    u16::try_from(read_decimal(word)?).ok()
}

// Reads the octets that the client of an association sends.
fn parse_received(text: &[u8]) -> Option<NamedEvent<'_>>
    ensures { option_map named_view result ≡ received_of (slice_split is_space text.now) }
{
    let (word, tail) = split_word(text);
    let association = parse_association(word)?;
    let digits = Digits::of(tail?)?;
    Some(NamedEvent::Recv {
        association,
        digits,
    })
}

// Reads an event of an association: it is opened, its client sends octets, or it is closed.
fn parse_association_event(text: &[u8]) -> Option<NamedEvent<'_>>
    ensures { option_map named_view result ≡ association_event_in (slice_split is_space text.now) }
{
    if let Some(tail) = text.strip_prefix(b"recv ") {
        return parse_received(tail);
    }
    if let Some(word) = text.strip_prefix(b"open ") {
        let association = parse_association(word)?;
        return Some(NamedEvent::Open { association });
    }
    let word = text.strip_prefix(b"close ")?;
    let association = parse_association(word)?;
    Some(NamedEvent::Close { association })
}

// Reads an event from the words after the time.
fn parse_event(text: &[u8]) -> Option<NamedEvent<'_>>
    ensures { option_map named_view result ≡ event_of (slice_split is_space text.now) }
{
    if text == b"scan".as_slice() {
        return Some(NamedEvent::Scan);
    }
    if text == b"lost".as_slice() {
        return Some(NamedEvent::Lost);
    }
    if let Some(tail) = text.strip_prefix(b"contact ") {
        return parse_contact(tail);
    }
    if let Some(tail) = text.strip_prefix(b"input ") {
        return parse_input(tail);
    }
    if let Some(tail) = text.strip_prefix(b"measure ") {
        return parse_measure(tail);
    }
    parse_association_event(text)
}

// Returns the number before the first space, however many digits it has, and the text after that
// space. Returns `None` if there is no such number or no space.
#[cold]
fn cut_long_number(text: &[u8]) -> Option<(u64, &[u8])>
    ensures { option_map (λ cut. (cut.0, slice_split is_space cut.1.now)) result
        ≡ first_number (slice_split is_space text.now) }
{
    let (word, rest) = split_word(text);
    let number = read_decimal(word)?;
    Some((number, rest?))
}

// Returns the number before the first space, and the text after that space; `None` if there is no
// such number or no space.
fn cut_number(text: &[u8]) -> Option<(u64, &[u8])>
    ensures { option_map (λ cut. (cut.0, slice_split is_space cut.1.now)) result
        ≡ first_number (slice_split is_space text.now) }
{
    let [first, others @ ..] = text else {
        return None;
    };
    let mut number = with_digit(0, *first)?;
    for index in 0..others.len().min(FREE_DIGITS) {
        let octet = others[index];
        if !octet.is_ascii_digit() {
            return if octet == b' ' {
                Some((number, &others[index + 1..]))
            } else {
                None
            };
        }
        number = number * 10 + u64::from(octet - b'0');
    }
    cut_long_number(text)
}

// Reads a line that is not empty.
fn parse_moment_line(text: &[u8]) -> Option<TraceLine<'_>>
    ensures { option_map line_view result ≡ words_line (slice_split is_space text.now) }
{
    let (moment, rest) = cut_number(text)?;
    let event = parse_event(rest)?;
    Some(TraceLine::At { moment, event })
}

/// Reads a line of the trace. Returns `None` if the line is not valid.
pub fn read_trace_line(line: &[u8]) -> Option<TraceLine<'_>>
    ensures line { option_map line_view result ≡ trace_line_of line.now }
    // A line that can be read is UTF-8.
    ensures text { IfSome result (λ _. IsUtf8 line.now) }
{
    if line.is_empty() {
        return Some(TraceLine::Blank);
    }
    parse_moment_line(line)
}

/// Returns the digits of the moment in the line of a scan, or `None` if they begin with a 0. For
/// any other line the contract leaves the result open.
pub fn scan_digits(line: &[u8]) -> Option<&[u8]>
    ensures { (moment : ℕ) → trace_line_of line.now ≡ Some (at_moment moment scan)
        → option_map (λ digits. digits.now) result
        ≡ (if slice_index_or line.now 0 0 == 48 then None else Some (decimal moment)) }
{
    let [first, ..] = line else {
        return None;
    };
    if *first == b'0' {
        return None;
    }
    Some(&line[..line.len().saturating_sub(SCAN.len())])
}

/// Reads a line with an event that a process sends: a contact, an input or a measurement. Ignores
/// its moment. Returns `None` if the line is empty, not valid, or has another event.
pub fn read_process_line(line: &[u8]) -> Option<NamedEvent<'_>>
    ensures { option_map named_view result ≡ process_of (trace_line_of line.now) }
{
    let Some(TraceLine::At { event, .. }) = read_trace_line(line) else {
        return None;
    };
    match event {
        NamedEvent::Contact { .. }
        | NamedEvent::Input { .. }
        | NamedEvent::Measure { .. }
        | NamedEvent::BadMeasure { .. } => Some(event),
        _ => None,
    }
}
