// The lists in which a turn reports: at most eight items each.
ghost use Rattle.std.specs.Prelude.{◌≡◌, ◌<◌, ◌++◌, ◌∷◌, [], length};
ghost use Rattle.bay_device.specs.Outcomes.{associations};

use bay_device::event::ASSOCIATIONS;
use std::fmt;
use std::marker::Model;

/// A list of at most eight items. They lie in the value itself: nothing is allocated.
#[derive(Drop)]
pub struct BoundedList<T> {
    items: [T; ASSOCIATIONS],
    count: usize,
}

impl<T> Model for BoundedList<T> {
    ghost use Rattle.std.specs.Prelude.{◌≡◌, ◌≤◌, List, length, take};
    ghost use Rattle.bay_device.specs.Outcomes.{associations};

    ghost Value = { List T };

    ghost view = { λ e. take e.count e.items };

    ghost invariant = { λ e. (e.count ≤ associations) × (length e.items ≡ associations) };
}

impl<T: Copy> BoundedList<T> {
    /// Creates an empty list. The given item fills the unused slots.
    pub(crate) fn new(unused: T) -> Self
        ensures { result ≡ [] }
    {
        BoundedList {
            items: [unused; ASSOCIATIONS],
            count: 0,
        }
    }

    /// Appends an item. The list must have fewer than eight.
    pub(crate) fn push(&mut self, item: T)
        requires { length self.old < associations }
        ensures { self.new ≡ self.old ++ item ∷ [] }
    {
        self.items[self.count] = item;
        self.count += 1;
    }

    /// Returns the items in order.
    pub fn as_slice(&self) -> &[T]
        ensures { result.now ≡ self.now }
    {
        &self.items[..self.count]
    }
}

impl<T: Copy + fmt::Debug> fmt::Debug for BoundedList<T> {
    fn fmt<W: fmt::Write>(&self, f: &mut fmt::Formatter<W>) -> fmt::Result {
        f.debug_list().entries(self.as_slice()).finish()
    }
}
