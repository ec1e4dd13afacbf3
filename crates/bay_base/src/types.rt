// The types of this controller's language: the elementary types and the timers.
ghost use Rattle.std.specs.Prelude.{◌≡◌};
ghost use Rattle.bay_base.specs.Types.{same_type};

/// An elementary type (IEC 61131-3:2003, table 10): the type of a point, a variable or a slot.
#[derive(Clone, Copy, Debug, PartialEq, Eq)]
pub enum ElementaryType {
    /// FALSE or TRUE.
    Bool,
    /// A signed number of 16 bits.
    Int,
    /// A signed number of 32 bits.
    Dint,
    /// A signed number of 64 bits.
    Lint,
    /// A duration of 0 to 2,147,483,647 milliseconds.
    Time,
}

impl ElementaryType {
    /// Returns whether two types are the same.
    pub fn is(self, other: ElementaryType) -> bool
        ensures { result ≡ same_type self other }
    {
        self == other
    }
}

/// A kind of timer (IEC 61131-3:2003, 2.5.2.3.4).
#[derive(Clone, Copy, Debug, PartialEq, Eq)]
pub enum TimerKind {
    /// TON: Q follows IN to TRUE after the time PT.
    OnDelay,
    /// TOF: Q follows IN to FALSE after the time PT.
    OffDelay,
}
