// A buffer of octets that are not yet written.
ghost use Rattle.std.specs.Prelude.{◌≡◌, ◌+◌, ◌≤◌, ◌++◌, [], length, take, drop, if◌then◌else◌};
ghost use Rattle.std.specs.Fmt.{decimal};
ghost use Rattle.bay_io.specs.Sent.{fits_buffer};

use itoa::Buffer;
use std::marker::Model;
use thiserror::Error;

// The capacity of the buffer in octets.
const ROOM: usize = 65_536;

/// A write or a flush failed, or a write accepted none of the octets offered.
#[derive(Clone, Copy, Debug, PartialEq, Eq, Error)]
#[error("a write failed")]
pub struct WriteFault;

// Copies a text after the first `count` octets of a buffer, if it fits there, and adds its length
// to `count`. Returns whether it fitted.
#[inline(always)]
fn append(room: &mut [u8; ROOM], count: &mut usize, text: &[u8]) -> bool
    requires { count.old ≤ 65536 }
    ensures fits { result ≡ fits_buffer (take count.old room.old) text.now }
    ensures after { take count.new room.new
        ≡ (if result then take count.old room.old ++ text.now else take count.old room.old) }
    ensures within { count.new ≤ 65536 }
{
    if text.len() > ROOM - *count {
        return false;
    }
    let end = *count + text.len();
    room[*count..end].copy_from_slice(text);
    *count = end;
    true
}

/// Octets that are not yet written, at most 65,536. Does not allocate.
#[derive(Drop)]
pub struct Outbox {
    room: [u8; ROOM],
    // The number of octets in use, from the first on.
    count: usize,
    // The digits of a number are formatted here. The buffer is a field, so that it is initialised
    // once and not for each number.
    digits: Buffer,
}

impl Model for Outbox {
    ghost use Rattle.std.specs.Prelude.{ℕ, ◌≤◌, List, take};

    ghost Value = { List ℕ };

    ghost view = { λ outbox. take outbox.count outbox.room };

    ghost invariant = { λ outbox. outbox.count ≤ 65536 };
}

impl Outbox {
    /// Creates an empty buffer.
    pub fn new() -> Self
        ensures { result ≡ [] }
    {
        Outbox {
            room: [0; ROOM],
            count: 0,
            digits: Buffer::new(),
        }
    }

    /// Appends a text if it fits in the buffer. Returns whether it fitted.
    #[inline(always)]
    pub fn keep(&mut self, text: &[u8]) -> bool
        ensures fits { result ≡ fits_buffer self.old text.now }
        ensures after { self.new ≡ (if result then self.old ++ text.now else self.old) }
    {
        append(&mut self.room, &mut self.count, text)
    }

    /// Appends the decimal digits of a number if they fit in the buffer. Returns whether they
    /// fitted.
    #[inline(always)]
    pub fn append_number(&mut self, number: u64) -> bool
        ensures fits { result ≡ fits_buffer self.old (decimal number) }
        ensures after { self.new ≡ (if result then self.old ++ decimal number else self.old) }
    {
        let digits = self.digits.format(number);
        append(&mut self.room, &mut self.count, digits.as_bytes())
    }

    /// Returns the octets in the buffer.
    pub fn as_slice(&self) -> &[u8]
        ensures octets { result.now ≡ self.now }
        ensures within { length self.now ≤ 65536 }
    {
        &self.room[..self.count]
    }

    /// Removes all octets but the first `count`.
    pub fn truncate(&mut self, count: usize)
        ensures { self.new ≡ take count self.old }
    {
        self.count = self.count.min(count);
    }

    /// Removes the first `count` octets.
    pub fn remove_first(&mut self, count: usize)
        requires { count ≤ length self.old }
        ensures { self.new ≡ drop count self.old }
    {
        if count == 0 {
            return;
        }
        self.room.copy_within(count..self.count, 0);
        self.count -= count;
    }

    /// Removes all octets.
    pub fn clear(&mut self)
        ensures { self.new ≡ [] }
    {
        self.count = 0;
    }
}
