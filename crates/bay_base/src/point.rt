// The points of a bay: the variables through which its program reads and writes it.
use crate::text::Text;
use crate::types::ElementaryType;

/// A variable through which the program reads or writes the bay.
#[derive(Drop)]
pub struct Point {
    /// The name in upper case.
    pub name: Text,
    pub kind: ElementaryType,
    /// Whether the program may write it.
    pub writable: bool,
    /// The part of the bay that it represents.
    pub source: Source,
}

/// The part of the bay that a point represents.
#[derive(Clone, Copy, Debug, PartialEq, Eq)]
pub enum Source {
    /// A point of the switch at this index, counted from 0 in the order of the file.
    Switch { switch: usize, point: SwitchPoint },
    /// The input at this index, counted from 0 in the order of the file.
    Input { input: usize },
    /// A field of the meter at this index, counted from 0 in the order of the file.
    Meter { meter: usize, field: MeterField },
}

/// A point of a switch.
#[derive(Clone, Copy, Debug, PartialEq, Eq)]
pub enum SwitchPoint {
    /// The position as a number.
    Position,
    /// Whether the switch is open.
    Open,
    /// Whether the switch is closed.
    Closed,
    /// Whether the switch may be opened. The program writes this point.
    EnableOpen,
    /// Whether the switch may be closed. The program writes this point.
    EnableClose,
}

/// A measured value of a meter (IEC 61850-7-4, MMXU), in whole units.
#[derive(Clone, Copy, Debug, PartialEq, Eq)]
pub enum MeterField {
    /// The total active power, TotW.
    TotW,
    /// The total reactive power, TotVAr.
    TotVAr,
    /// The frequency, Hz.
    Hz,
    /// The current of phase A.
    PhaseA,
    /// The current of phase B.
    PhaseB,
    /// The current of phase C.
    PhaseC,
}
