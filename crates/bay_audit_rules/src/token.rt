// The tokens of a line.
use crate::rule::{Relation, RuleKind};
use bay_base::position::Dbpos;
use bay_config::bay::MeterField;

/// A token that comes after an operand of a condition.
#[derive(Clone, Copy)]
pub enum Connector {
    And,
    Or,
    /// `)`
    End,
}

/// A value that a rule tests a switch, an input or a measured value for.
#[derive(Clone, Copy)]
pub enum TestValue {
    Position(Dbpos),
    Truth(bool),
    /// A number; `None` for one that does not fit 32 bits with a sign.
    Number(Option<i32>),
}

/// An input or a measured value, by its index in the bay.
#[derive(Clone, Copy)]
pub enum Measurand {
    Input(usize),
    Measure { meter: usize, field: MeterField },
}

/// The objects that a name denotes: a switch, an input or a measured value, or a switch and one of
/// the others.
#[derive(Clone, Copy)]
pub struct NamedObject {
    pub switch: Option<usize>,
    pub measurand: Option<Measurand>,
}

/// A token.
#[derive(Clone, Copy)]
pub enum RuleToken {
    /// `never` or `always`
    Kind(RuleKind),
    /// `look`, which names values for `tools/audit` to try; it makes no rule.
    Look,
    /// `open`: a direction of a switch, or its position.
    Open,
    /// `close`
    Close,
    /// `until` of a rule that forbids, or `after` of one that requires.
    Since(RuleKind),
    For,
    When,
    Connector(Connector),
    Not,
    Is,
    /// `|`
    Bar,
    /// `(`
    Begin,
    Relation(Relation),
    TestValue(TestValue),
    /// A time in milliseconds; `None` for one that no timer can have.
    Time(Option<u32>),
    Name(NamedObject),
}
