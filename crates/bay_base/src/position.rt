// The position of a switch.
ghost use Rattle.std.specs.Prelude.{◌≡◌};
ghost use Rattle.bay_base.specs.Positions.{position_number};

/// A double-point position (IEC 61850-7-3, DPC: stVal), in the order of its two bits.
#[derive(Clone, Copy, Debug, PartialEq, Eq)]
pub enum Dbpos {
    /// Neither end position is reached.
    Intermediate,
    /// Open.
    Off,
    /// Closed.
    On,
    /// Both end positions are reported at once.
    Bad,
}

impl Dbpos {
    /// Returns the number of a position (IEC 61850-8-1, Dbpos): 0 intermediate, 1 off, 2 on, 3 bad.
    pub fn number(self) -> i16
        ensures { result ≡ position_number self }
    {
        match self {
            Dbpos::Intermediate => 0,
            Dbpos::Off => 1,
            Dbpos::On => 2,
            Dbpos::Bad => 3,
        }
    }
}
