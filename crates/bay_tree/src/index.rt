// The index of the rows by their names: a table of buckets, each a chain of rows in their order.
ghost use Rattle.std.specs.Prelude.{◌≡◌, ◌<◌, IfOk};
ghost use Rattle.bay_tree.specs.Arena.{IsIndex};
ghost use Rattle.bay_tree.specs.Arena as spec;
ghost use Rattle.bay_tree.specs.Rows.{row_index};

use crate::row::Row;
use std::alloc::{AllocError, Global};

/// The index of the rows by their names. It stores no names of its own: a look-up compares those of
/// the rows.
#[derive(Debug, Drop)]
pub struct Index {
    /// The number of octets of the longest name.
    longest: usize,
    /// The index of the first row of each bucket.
    first: Vec<Option<usize>>,
    /// For each row, the index of the next row in the same bucket.
    next: Vec<Option<usize>>,
}

// Returns the bucket of a name, one of `count` buckets.
fn bucket_of(count: usize, name: &[u8]) -> usize
    requires { 0 < count }
    ensures value { result ≡ spec.bucket_of count name.now }
    ensures within { result < count }
{
    let mut hash = 0u32;
    for octet in name {
        hash = hash
            .wrapping_mul(16_777_619)
            .wrapping_add(u32::from(*octet));
    }
    hash as usize % count
}

/// Builds the index of these rows. Fails only if an allocation fails.
pub fn build_index(alloc: Global, rows: &[Row]) -> Result<Index, AllocError>
    ensures { IfOk result (IsIndex rows.now) }
{
    let mut first = vec![in alloc; None; rows.len() + 1]?;
    let mut next = vec![in alloc; None; rows.len()]?;
    let mut longest = 0usize;
    for place in (0..rows.len()).rev() {
        let name = rows[place].name.as_str().as_bytes();
        longest = longest.max(name.len());
        let bucket = bucket_of(first.len(), name);
        next[place] = first[bucket];
        first[bucket] = Some(place);
    }
    Ok(Index {
        longest,
        first,
        next,
    })
}

impl Index {
    /// Returns the index of the first row with this name, given as octets; `None` if no row has it.
    /// Does not read a name that is longer than each row's.
    pub fn find(&self, rows: &[Row], name: &[u8]) -> Option<usize>
        requires { IsIndex rows.now self.now }
        ensures { result ≡ row_index rows.now name.now }
    {
        if name.len() > self.longest {
            return None;
        }
        let mut at = self.first[bucket_of(self.first.len(), name)];
        while let Some(place) = at {
            if rows[place].name.as_str().as_bytes() == name {
                return at;
            }
            at = self.next[place];
        }
        None
    }
}
