// The selected switch, and the operating switch.
ghost use Rattle.std.specs.Prelude.{◌≡◌};

use crate::request::Choice;
use bay_base::switch::Operation;

/// A switch that an association has selected.
#[derive(Debug, Drop)]
pub struct Selection {
    /// The index of the switch in the bay file, from 0.
    pub switch: usize,
    pub association: u16,
    /// The time of the last select, in milliseconds since 1970.
    pub since: u64,
    /// The operation and the originator of the select, if it was a select with value.
    pub choice: Option<Choice>,
}

impl Selection {
    // Returns a copy. Does not allocate.
    pub(crate) fn duplicate(&self) -> Self
        ensures { result ≡ self.now }
    {
        let choice = self.choice.as_ref().map(|choice| choice.duplicate());
        Selection { choice, ..*self }
    }
}

/// A switch that is operating.
#[derive(Clone, Copy, Debug)]
pub struct Execution {
    /// The index of the switch in the bay file, from 0.
    pub switch: usize,
    /// The time of the operate, in milliseconds since 1970.
    pub start: u64,
    /// The operation that it carries out.
    pub operation: Operation,
}
