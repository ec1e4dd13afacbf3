// The truth values that a condition of a rule can have in a case.
ghost use Rattle.std.specs.Prelude.{◌≡◌, ◌∷◌, [], true, false, IfOk, OnOk, MatchOption};
ghost use Rattle.bay_audit.specs.Conditions as spec;

use crate::case::Case;
use bay_audit_rules::rule::{ConditionItem, Relation};
use bay_base::position::Dbpos;
use std::alloc::{AllocError, Global};
use std::marker::Model;

/// A truth set: whether a truth value may be TRUE, and whether it may be FALSE.
#[derive(Clone, Copy)]
pub struct TruthSet {
    pub yes: bool,
    pub no: bool,
}

impl TruthSet {
    // Returns the truth set of the negation.
    fn negate_truths(self) -> Self
        ensures { result ≡ spec.negate_truths self }
    {
        TruthSet {
            yes: self.no,
            no: self.yes,
        }
    }

    // Returns the truth set of the conjunction.
    fn and_truths(self, other: Self) -> Self
        ensures { result ≡ spec.and_truths self other }
    {
        TruthSet {
            yes: self.yes && other.yes,
            no: self.no || other.no,
        }
    }

    // Returns the truth set of the disjunction.
    fn or_truths(self, other: Self) -> Self
        ensures { result ≡ spec.or_truths self other }
    {
        TruthSet {
            yes: self.yes || other.yes,
            no: self.no && other.no,
        }
    }
}

// Returns the truth set of a position, for a switch that may have these positions.
fn position_truths(position: Dbpos, intermediate: bool, off: bool, on: bool, bad: bool) -> TruthSet
    ensures { result ≡ spec.position_truths position intermediate off on bad }
{
    match position {
        Dbpos::Intermediate => TruthSet {
            yes: intermediate,
            no: off || on || bad,
        },
        Dbpos::Off => TruthSet {
            yes: off,
            no: intermediate || on || bad,
        },
        Dbpos::On => TruthSet {
            yes: on,
            no: intermediate || off || bad,
        },
        Dbpos::Bad => TruthSet {
            yes: bad,
            no: intermediate || off || on,
        },
    }
}

// Returns the truth set of a relation to a number, for a measured value from `low` to `high`.
fn relation_truths(relation: Relation, low: i64, high: i64, number: i64) -> TruthSet
    ensures { result ≡ spec.relation_truths relation low high number }
{
    match relation {
        Relation::Less => TruthSet {
            yes: low < number,
            no: number <= high,
        },
        Relation::AtMost => TruthSet {
            yes: low <= number,
            no: number < high,
        },
        Relation::Equal => TruthSet {
            yes: low <= number && number <= high,
            no: low < number || number < high,
        },
        Relation::Unequal => TruthSet {
            yes: low < number || number < high,
            no: low <= number && number <= high,
        },
        Relation::AtLeast => TruthSet {
            yes: number <= high,
            no: low < number,
        },
        Relation::Greater => TruthSet {
            yes: number < high,
            no: low <= number,
        },
    }
}

// A stack of truth sets.
#[derive(Drop)]
struct TruthSetStack {
    items: Vec<TruthSet>,
}

impl Model for TruthSetStack {
    ghost use Rattle.std.specs.Prelude.{List, reverse};
    ghost use Rattle.bay_audit.specs.declared.truth_set.TruthSet.{TruthSet};

    ghost Value = { List TruthSet };

    ghost view = { λ s. reverse s.items.items };
}

impl TruthSetStack {
    // Creates an empty stack.
    fn new(alloc: Global) -> Self
        ensures { result ≡ [] }
    {
        TruthSetStack {
            items: Vec::new(alloc),
        }
    }

    // Pushes a truth set.
    fn push(&mut self, truths: TruthSet) -> Result<(), AllocError>
        ensures { OnOk result (self.new ≡ truths ∷ self.old) }
    {
        self.items.push(truths)?;
        Ok(())
    }

    // Pops the top; `None` if the stack is empty.
    fn pop(&mut self) -> Option<TruthSet>
        ensures { MatchOption result ((self.old ≡ []) × (self.new ≡ []))
            (λ truths. self.old ≡ truths ∷ self.new) }
    {
        self.items.pop()
    }

    // Replaces the top by its negation.
    fn negate_top(&mut self) -> Result<(), AllocError>
        ensures { OnOk result (self.new ≡ spec.negate_top_truths self.old) }
    {
        match self.pop() {
            Some(a) => self.push(a.negate_truths()),
            None => Ok(()),
        }
    }

    // Replaces the two on top by their conjunction, or by their disjunction.
    fn join_top(&mut self, is_both: bool) -> Result<(), AllocError>
        ensures both { is_both ≡ true
            → OnOk result (self.new ≡ spec.join_top_truths spec.and_truths self.old) }
        ensures either { is_both ≡ false
            → OnOk result (self.new ≡ spec.join_top_truths spec.or_truths self.old) }
    {
        let Some(b) = self.pop() else {
            return Ok(());
        };
        let Some(a) = self.pop() else {
            return Ok(());
        };
        self.push(if is_both {
            a.and_truths(b)
        } else {
            a.or_truths(b)
        })
    }

    // Applies one item of a condition.
    fn take(&mut self, case: &Case, item: ConditionItem) -> Result<(), AllocError>
        ensures { OnOk result (self.new ≡ spec.truths_after_item case.now item self.old) }
    {
        match item {
            ConditionItem::True => self.push(TruthSet {
                yes: true,
                no: false,
            }),
            ConditionItem::Position { switch, position } => self.push(position_truths(
                position,
                case.may_be(switch, Dbpos::Intermediate),
                case.may_be(switch, Dbpos::Off),
                case.may_be(switch, Dbpos::On),
                case.may_be(switch, Dbpos::Bad),
            )),
            ConditionItem::Input { input } => self.push(TruthSet {
                yes: case.input_may(input, true),
                no: case.input_may(input, false),
            }),
            ConditionItem::Measure {
                meter,
                field,
                relation,
                value,
            } => self.push(relation_truths(
                relation,
                case.low_of(meter, field),
                case.high_of(meter, field),
                i64::from(value),
            )),
            ConditionItem::Not => self.negate_top(),
            ConditionItem::And => self.join_top(true),
            ConditionItem::Or => self.join_top(false),
        }
    }
}

/// Returns which truth values a condition, with its exception, can have in a case: both the
/// condition and the negation of the exception must be TRUE. Fails only if an allocation fails.
pub fn rule_truths(
    alloc: Global,
    case: &Case,
    when: &[ConditionItem],
    unless: &[ConditionItem],
) -> Result<TruthSet, AllocError>
    ensures { IfOk result (λ truths. truths ≡ spec.rule_truths case.now when.now unless.now) }
{
    let when = condition_truths_of(alloc, case, when)?;
    let unless = condition_truths_of(alloc, case, unless)?;
    Ok(when.and_truths(unless.negate_truths()))
}

/// Returns which truth values a condition can have in a case. Fails only if an allocation fails.
pub fn condition_truths_of(
    alloc: Global,
    case: &Case,
    items: &[ConditionItem],
) -> Result<TruthSet, AllocError>
    ensures { IfOk result (λ truths. truths ≡ spec.condition_truths case.now items.now) }
{
    let mut stack = TruthSetStack::new(alloc);
    for item in items {
        stack.take(case, *item)?;
    }
    match stack.pop() {
        Some(truths) => Ok(truths),
        None => Ok(TruthSet {
            yes: false,
            no: true,
        }),
    }
}
