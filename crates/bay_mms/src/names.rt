// The names of a tree, encoded as responses list them (ISO 9506-2, GetNameList).
ghost use Rattle.std.specs.Prelude.{◌≡◌, ◌+◌, ◌-◌, ◌≤◌, IfOk, List, ℕ, drop, length, take};
ghost use Rattle.bay_tree.specs.Rows.{names_of};
ghost use Rattle.bay_mms.specs.Pages.{begin_at, encoded_names};
ghost use Rattle.bay_mms.specs.Responses.{names_text};

use bay_ber::tag::Tag;
use bay_ber::writer::push_value;
use bay_tree::tree::Tree;
use std::alloc::{AllocError, Global};
use std::marker::Model;

/// The names of a tree, encoded as responses list them, one after another, and the end of each.
/// They are encoded once, and each page copies a part of them.
#[derive(Drop)]
pub struct NameTexts {
    octets: Vec<u8>,
    ends: Vec<usize>,
}

impl Model for NameTexts {
    ghost use Rattle.std.specs.Prelude.{length};
    ghost use Rattle.bay_mms.specs.Pages.{AreEnds, NameTextsData};

    ghost Value = { NameTextsData };

    ghost view = { λ n. record { octets = n.octets.items; ends = n.ends.items } };

    ghost invariant = { λ n. AreEnds n.ends.items (length n.octets.items) };
}

// Returns the offset at which the name with this index begins, from the ends of all names.
fn begin_of_name(ends: &[usize], index: usize) -> usize
    requires { index ≤ length ends.now }
    ensures { result ≡ begin_at ends.now index }
{
    if index == 0 { 0 } else { ends[index - 1] }
}

impl NameTexts {
    /// Encodes the names of a tree, in the order of its rows. Fails only if an allocation fails.
    pub fn of_tree(alloc: Global, tree: &Tree) -> Result<Self, AllocError>
        ensures { IfOk result (λ names. names ≡ encoded_names (names_of tree.now)) }
    {
        let mut octets = Vec::new(alloc);
        let mut ends = Vec::new(alloc);
        let mut next = tree.first();
        while let Some(row) = next {
            push_value(&mut octets, Tag::universal(26), tree.name(row).as_bytes())?;
            ends.push(octets.len())?;
            next = tree.next(row);
        }
        Ok(NameTexts { octets, ends })
    }

    /// Returns the number of names.
    pub(crate) fn count(&self) -> usize
        ensures { result ≡ length self.now.ends }
    {
        self.ends.len()
    }

    /// Returns the number of octets of `count` names from index `start` on.
    pub(crate) fn size(&self, start: usize, count: usize) -> usize
        requires { start + count ≤ length self.now.ends }
        ensures { result ≡ begin_at self.now.ends (start + count) - begin_at self.now.ends start }
    {
        begin_of_name(&self.ends, start + count) - begin_of_name(&self.ends, start)
    }

    /// Returns the texts of `count` names from index `start` on.
    pub(crate) fn texts(&self, start: usize, count: usize) -> &[u8]
        requires { start + count ≤ length self.now.ends }
        ensures { (names : List (List ℕ)) → self.now ≡ encoded_names names
            → result.now ≡ names_text (take count (drop start names)) }
    {
        &self.octets[begin_of_name(&self.ends, start)..begin_of_name(&self.ends, start + count)]
    }
}
