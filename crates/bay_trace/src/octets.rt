// Octets in hexadecimal digits, as a line of the trace has them.
ghost use Rattle.std.specs.Prelude.{◌≡◌, ◌<◌, ◌≤◌, [], Some, true, is_some, length, max, option_map, take, OnErr, OnOk};
ghost use Rattle.hex.specs.Hex.{hex_digit_value, is_hex_digit};
ghost use Rattle.bay_trace.specs.Digits.{octets_or_empty, octets_of};

use std::alloc::{AllocError, Global};
use std::marker::Model;

/// Hexadecimal digits, in either case, that encode at least one octet.
#[derive(Clone, Copy)]
pub struct Digits<'a> {
    text: &'a [u8],
    ghost is_hexadecimal: { is_some (octets_of text.now) ≡ true },
}

// Returns whether a word consists of such digits. The loop has no early end, so that the processor
// can test many octets at once.
fn is_hexadecimal(word: &[u8]) -> bool
    ensures { result ≡ is_some (octets_of word.now) }
{
    if word.is_empty() {
        return false;
    }
    if word.len() % 2 != 0 {
        return false;
    }
    let mut all = true;
    for octet in word {
        all = all & octet.is_ascii_hexdigit();
    }
    all
}

impl<'a> Digits<'a> {
    /// Returns the digits of a word; `None` if the word is empty, has an odd length, or has an
    /// octet that is no hexadecimal digit.
    pub fn of(word: &'a [u8]) -> Option<Self>
        ensures { option_map (λ d. octets_or_empty d.text.now) result ≡ octets_of word.entry.now }
    {
        if is_hexadecimal(word) {
            Some(Digits { text: word })
        } else {
            None
        }
    }
}

// Returns the value of a hexadecimal digit, without a branch: a letter of either case is 64 or
// more, and its last four bits are its value less 9.
#[inline(always)]
fn digit_value(digit: u8) -> u8
    requires { is_hex_digit digit ≡ true }
    ensures value { hex_digit_value digit ≡ Some result }
    ensures within { result < 16 }
{
    digit % 16 + 9 * (digit / 64)
}

// Decodes digits into the first `count` octets of `room`.
fn decode(digits: Digits<'_>, count: usize, room: &mut [u8])
    requires counted { count ≡ length (octets_or_empty digits.text.now) }
    requires fits { count ≤ length room.old }
    ensures { take count room.new ≡ octets_or_empty digits.entry.text.now }
{
    let text = digits.text;
    for i in 0..count {
        room[i] = digit_value(text[2 * i]) * 16 + digit_value(text[2 * i + 1]);
    }
}

/// The buffer for the octets of a line. It is reallocated for a line with more octets than any
/// before, to exactly that size.
#[derive(Drop)]
pub struct LineOctets {
    alloc: Global,
    room: Vec<u8>,
    count: usize,
}

impl Model for LineOctets {
    ghost use Rattle.std.specs.Prelude.{◌≤◌, take, vec_len};
    ghost use Rattle.bay_trace.specs.Resolving.{LineRoom};

    ghost Value = { LineRoom };

    ghost view = { λ line. record { octets = take line.count line.room.items; room = vec_len line.room } };

    ghost invariant = { λ line. line.count ≤ vec_len line.room };
}

impl LineOctets {
    /// Creates a buffer without octets. Does not allocate.
    pub fn new(alloc: Global) -> Self
        ensures { result ≡ record { octets = []; room = 0 } }
    {
        LineOctets {
            alloc,
            room: Vec::new(alloc),
            count: 0,
        }
    }

    // Makes room for `count` octets, if there is less. Fails only if the allocation fails.
    fn make_room(&mut self, count: usize) -> Result<(), AllocError>
        ensures made { OnOk result
            ((length self.new.octets ≡ count) × (self.new.room ≡ max self.old.room count)) }
        ensures refused { OnErr result (self.old.room < count) }
    {
        if self.room.len() < count {
            self.room = vec![in self.alloc; 0u8; count]?;
        }
        self.count = count;
        Ok(())
    }

    /// Decodes digits, replacing the octets of the line before. Fails only if the octets need more
    /// room than there is and its allocation fails.
    pub fn read(&mut self, digits: Digits<'_>) -> Result<(), AllocError>
        ensures octets { OnOk result (self.new.octets ≡ octets_or_empty digits.entry.text.now) }
        ensures room { OnOk result
            (self.new.room ≡ max self.old.room (length (octets_or_empty digits.entry.text.now))) }
        ensures refused { OnErr result
            (self.old.room < length (octets_or_empty digits.entry.text.now)) }
    {
        let count = digits.text.len() / 2;
        self.make_room(count)?;
        decode(digits, count, self.room.as_mut_slice());
        Ok(())
    }

    /// Returns the octets of the line.
    pub fn as_slice(&self) -> &[u8]
        ensures { result.now ≡ self.now.octets }
    {
        &self.room.as_slice()[..self.count]
    }
}
