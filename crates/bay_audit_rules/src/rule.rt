// The type of a rule.
use bay_base::listing::Listing;
use bay_base::position::Dbpos;
use bay_base::switch::Operation;
use bay_config::bay::MeterField;

/// Whether a rule forbids a release or requires it.
#[derive(Clone, Copy, PartialEq, Eq)]
pub enum RuleKind {
    /// The switch is never released while the condition holds.
    Never,
    /// The switch is always released while the condition holds.
    Always,
}

/// The relation of a measured value to a number.
#[derive(Clone, Copy)]
pub enum Relation {
    Less,
    AtMost,
    Equal,
    Unequal,
    AtLeast,
    Greater,
}

/// An item of a condition. A condition is a list of items in postfix order: each fact pushes its
/// truth value on a stack, `Not` replaces the top value, `And` and `Or` replace the two top values
/// by one. One value is left at the end.
#[derive(Clone, Copy)]
pub enum ConditionItem {
    /// Always TRUE.
    True,
    /// The switch at this index of the bay has this position.
    Position {
        switch: usize,
        position: Dbpos,
    },
    /// The input at this index of the bay is TRUE.
    Input {
        input: usize,
    },
    /// The field of the meter at this index of the bay has this relation to a number.
    Measure {
        meter: usize,
        field: MeterField,
        relation: Relation,
        value: i32,
    },
    Not,
    And,
    Or,
}

/// The time of a rule: `until C for T` if the rule forbids, `after C for T` if it requires.
#[derive(Drop)]
pub struct Timing {
    /// The condition that must hold without interruption, in postfix order.
    pub condition: Listing<ConditionItem>,
    /// The time for which it must hold, in milliseconds, 1 to 2,147,483,647.
    pub time: u32,
}

/// A rule for one direction of a switch.
#[derive(Drop)]
pub struct Rule {
    /// The line of the text, counted from 1.
    pub line: usize,
    pub kind: RuleKind,
    /// The index of the switch in the bay.
    pub switch: usize,
    /// The operation that the rule forbids or requires to be released.
    pub operation: Operation,
    /// The condition on the states that the rule covers, in postfix order.
    pub when: Listing<ConditionItem>,
    /// The time of the rule, if it has one.
    pub timed: Option<Timing>,
}
