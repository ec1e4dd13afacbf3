// Octets to send, with headroom.
ghost use Rattle.std.specs.Prelude.{◌≡◌, ◌≤◌, ◌++◌, drop, length, MatchBool};

use std::marker::Model;

/// Octets to send, which contracts view as a list. There may be headroom before them, into which
/// lower layers write their headers, so that the octets need not be copied.
#[derive(Drop)]
pub struct Outgoing {
    // The headroom, followed by the octets.
    octets: Vec<u8>,
    // The index of the first octet to send.
    first: usize,
}

impl Model for Outgoing {
    ghost use Rattle.std.specs.Prelude.{ℕ, List, ◌≤◌, drop, length};

    ghost Value = { List ℕ };

    ghost view = { λ o. drop o.first o.octets.items };

    ghost invariant = { λ o. o.first ≤ length o.octets.items };
}

impl Outgoing {
    /// Wraps octets without headroom.
    pub fn new(octets: Vec<u8>) -> Self
        ensures { result ≡ octets.items }
    {
        Outgoing { octets, first: 0 }
    }

    /// Wraps the octets from index `first` on; those before it are headroom.
    pub(crate) fn behind(octets: Vec<u8>, first: usize) -> Self
        requires { first ≤ length octets.items }
        ensures { result ≡ drop first octets.items }
    {
        Outgoing { octets, first }
    }

    /// Returns the octets.
    pub fn as_slice(&self) -> &[u8]
        ensures { result.now ≡ self.now }
    {
        &self.octets[self.first..]
    }

    /// Writes a header before the octets if it fits into the headroom. Returns whether it did.
    pub fn front(&mut self, head: &[u8]) -> bool
        ensures { MatchBool result (self.new ≡ head.now ++ self.old) (self.new ≡ self.old) }
    {
        if self.first < head.len() {
            return false;
        }
        let first = self.first - head.len();
        self.octets[first..self.first].copy_from_slice(head);
        self.first = first;
        true
    }
}
