// A buffer of bounded size.
ghost use Rattle.std.specs.Prelude.{◌≡◌, ◌+◌, ◌≤◌, ◌++◌, [], length, drop, nat_le, IfOk, if◌then◌else◌};
ghost use Rattle.bay_lines.specs.Puts.{PutsWhole, text_of};

use std::alloc::{AllocError, Global};
use std::marker::Model;

/// A buffer of at most `MOST` octets. It allocates once, when it is created.
#[derive(Drop)]
pub struct BoundedBuffer<const MOST: usize> {
    octets: Vec<u8>,
}

impl<const MOST: usize> Model for BoundedBuffer<MOST> {
    ghost use Rattle.std.specs.Prelude.{ℕ, List};
    ghost use Rattle.bay_lines.specs.Room.{HasRoom};

    ghost Value = { List ℕ };

    ghost view = { λ k. k.octets.items };

    ghost invariant = { λ k. HasRoom MOST k.octets };
}

impl<const MOST: usize> BoundedBuffer<MOST> {
    /// Creates an empty buffer. Fails only if the allocation fails.
    pub fn new(alloc: Global) -> Result<Self, AllocError>
        ensures { IfOk result (λ k. k ≡ []) }
    {
        let octets = Vec::with_capacity(alloc, MOST)?;
        Ok(BoundedBuffer { octets })
    }

    /// Returns the octets in order.
    pub fn as_slice(&self) -> &[u8]
        ensures value { result.now ≡ self.now }
        ensures most { length result.now ≤ MOST }
    {
        self.octets.as_slice()
    }

    /// Appends octets if all of them fit, and returns whether they did. Does not allocate.
    pub fn put(&mut self, octets: &[u8]) -> bool
        ensures fits { result ≡ nat_le (length self.old + length octets.now) MOST }
        ensures after { self.new ≡ (if result then self.old ++ octets.now else self.old) }
    {
        if MOST - self.octets.len() < octets.len() {
            return false;
        }
        self.octets.extend_from_slice(octets).is_ok()
    }

    /// Appends the parts of a text up to the first that does not fit, and returns whether all of
    /// them fitted. Does not allocate.
    pub fn put_parts(&mut self, parts: &[&[u8]]) -> bool
        ensures { PutsWhole MOST self.old (text_of parts.now) self.new result }
    {
        prove!(self.as_slice().len() <= MOST);
        for part in parts {
            if !self.put(part) {
                return false;
            }
        }
        true
    }

    /// Removes the first `count` octets.
    pub fn remove_first(&mut self, count: usize)
        requires { count ≤ length self.old }
        ensures { self.new ≡ drop count self.old }
    {
        if count == 0 {
            return;
        }
        let left = self.octets.len() - count;
        self.octets.copy_within(count.., 0);
        self.octets.truncate(left);
    }

    /// Removes all octets.
    pub fn clear(&mut self)
        ensures { self.new ≡ [] }
    {
        self.octets.clear();
    }
}
