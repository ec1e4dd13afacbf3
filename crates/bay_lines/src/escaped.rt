// Escaping octets for a log.
ghost use Rattle.std.specs.Prelude.{◌≡◌, ◌+◌, ◌<◌, ◌≤◌, ◌++◌, length, take};
ghost use Rattle.std.specs.Char.{digit_char};
ghost use Rattle.bay_lines.specs.Escaped.{escaped_octet, escaped_octets, escaped_text};
ghost use Rattle.bay_lines.specs.Escaped as spec;

use arrayvec::ArrayVec;
use std::marker::Model;

// The most octets that are escaped.
const MOST: usize = 80;

// The most octets of an escaped text: four for each octet, and two dots.
const ROOM: usize = 322;

/// The escaped form of at most 80 octets, in printable ASCII: other octets and the backslash as
/// `\x1b`, and two dots if there are more. Does not allocate.
#[derive(Debug, Drop)]
pub struct EscapedText {
    text: ArrayVec<u8, ROOM>,
}

impl Model for EscapedText {
    ghost use Rattle.std.specs.Prelude.{ℕ, List};

    ghost Value = { List ℕ };

    ghost view = { λ s. s.text.items };
}

// Returns whether an octet is printed as it is.
fn is_plain(octet: u8) -> bool
    ensures { result ≡ spec.is_plain octet }
{
    octet >= b' ' && octet <= b'~' && octet != b'\\'
}

// Returns the hexadecimal digit of a value below 16, in lower case.
fn digit(value: u8) -> u8
    requires { value < 16 }
    ensures { result ≡ digit_char value }
{
    if value < 10 {
        b'0' + value
    } else {
        b'a' + (value - 10)
    }
}

// Appends the escaped form of an octet.
fn escape(text: &mut ArrayVec<u8, ROOM>, octet: u8)
    requires { length text.old.items + 4 ≤ 322 }
    ensures items { text.new.items ≡ text.old.items ++ escaped_octet octet }
    ensures grows { length text.new.items ≤ length text.old.items + 4 }
{
    if is_plain(octet) {
        text.push(octet);
    } else {
        text.push(b'\\');
        text.push(b'x');
        text.push(digit(octet / 16));
        text.push(digit(octet % 16));
    }
}

// Returns the escaped form of at most 80 octets.
fn escape_all(octets: &[u8]) -> ArrayVec<u8, ROOM>
    requires { length octets.now ≤ 80 }
    ensures items { result.items ≡ escaped_octets octets.now }
    ensures most { length result.items ≤ 320 }
{
    let mut text = ArrayVec::new();
    for octet in octets {
        escape(&mut text, *octet);
    }
    text
}

impl EscapedText {
    /// Escapes the first 80 octets, and appends two dots if there are more.
    pub fn new(octets: &[u8]) -> EscapedText
        ensures { result ≡ escaped_text octets.now }
    {
        if octets.len() <= MOST {
            return EscapedText {
                text: escape_all(octets),
            };
        }
        let mut text = escape_all(&octets[..MOST]);
        text.push(b'.');
        text.push(b'.');
        EscapedText { text }
    }

    /// Returns the escaped text.
    pub fn as_slice(&self) -> &[u8]
        ensures { result.now ≡ self.now }
    {
        self.text.as_slice()
    }
}
