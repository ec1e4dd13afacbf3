// A demand on each scan of a program.
use bay_audit_rules::rule::{ConditionItem, RuleKind};
use bay_base::listing::Listing;
use bay_base::switch::Operation;
use il_range::delay::KnownDelay;

/// A result of a scan.
#[derive(Clone, Copy)]
pub enum Goal {
    /// The switch at this index of the bay is released for this operation.
    Release { switch: usize, operation: Operation },
    /// No delay of the timer with this index in the image is running.
    Idle { timer: usize },
    /// The delay of this timer has begun, and IN has not cut it off.
    Begun { timer: usize },
    /// The same, and it began no later than the mark.
    Lasting { timer: usize },
}

/// A demand on each scan that it covers.
#[derive(Drop)]
pub struct Demand {
    /// Whether the scan must never or must always reach the goal.
    pub kind: RuleKind,
    pub goal: Goal,
    /// The condition, in postfix order: the demand covers only processes for which it is TRUE.
    pub when: Listing<ConditionItem>,
    /// The exception, in postfix order: the demand covers no process for which it is TRUE. An empty
    /// list is no exception.
    pub unless: Listing<ConditionItem>,
    /// For the first timers, in their order: the demand covers only scans before which the timer's
    /// delay is so, at the moment of the scan.
    pub limits: Listing<KnownDelay>,
}
