// The items of a condition while it is read.
ghost use Rattle.std.specs.Prelude.{◌≡◌, ◌∷◌, [], Some, None, OnOk, IfOk, option_map};
ghost use Rattle.bay_audit_rules.specs.declared.rule.ConditionItem.TheVariants as items;
ghost use Rattle.bay_audit_rules.specs.Facts.{truth_of};

use crate::rule::{ConditionItem, Relation};
use crate::token::{Measurand, NamedObject, TestValue};
use std::alloc::{AllocError, Global};
use std::marker::Model;

/// Items in postfix order; none after a name with a value that it can't have.
#[derive(Drop)]
pub struct ConditionDraft {
    items: Vec<ConditionItem>,
    fits: bool,
}

impl Model for ConditionDraft {
    ghost use Rattle.std.specs.Prelude.{Some, None, if◌then◌else◌};
    ghost use Rattle.bay_audit_rules.specs.Facts.{Items};

    ghost Value = { Items };

    ghost view = { λ d. if d.fits then Some d.items.items else None };
}

// Returns the truth value that a number is for an input; `None` if the number is not 0 or 1.
fn truth_from_number(number: i32) -> Option<bool>
    ensures { result ≡ truth_of number }
{
    match number {
        0 => Some(false),
        1 => Some(true),
        _ => None,
    }
}

impl ConditionDraft {
    ghost use Rattle.bay_audit_rules.specs.Facts.{◌⊕◌, item, negation, input_items, measure_items, number_items, value_items, relation_items};

    /// Makes a draft without items. Does not allocate.
    pub fn new(alloc: Global) -> Self
        ensures { result ≡ Some [] }
    {
        ConditionDraft {
            items: Vec::new(alloc),
            fits: true,
        }
    }

    /// Appends an item.
    pub fn push(&mut self, one: ConditionItem) -> Result<(), AllocError>
        ensures { OnOk result (self.new ≡ self.old ⊕ item one) }
    {
        if self.fits {
            self.items.push(one)?;
        }
        Ok(())
    }

    /// Appends a negation, if there is one.
    pub fn push_negation(&mut self, negated: bool) -> Result<(), AllocError>
        ensures { OnOk result (self.new ≡ self.old ⊕ negation negated) }
    {
        if negated {
            self.push(ConditionItem::Not)?;
        }
        Ok(())
    }

    // Drops all items: a name has a value that it can't have.
    fn refuse(&mut self)
        ensures { self.new ≡ None }
    {
        self.fits = false;
    }

    // Appends the fact that an input has this truth value.
    fn push_input(&mut self, measurand: Option<Measurand>, truth: bool) -> Result<(), AllocError>
        ensures { OnOk result (self.new ≡ self.old ⊕ input_items measurand truth) }
    {
        match measurand {
            Some(Measurand::Input(input)) => {
                self.push(ConditionItem::Input { input })?;
                self.push_negation(!truth)?;
            }
            _ => self.refuse(),
        }
        Ok(())
    }

    // Appends the fact that a measured value has this relation to a number.
    fn push_measure(
        &mut self,
        measurand: Option<Measurand>,
        relation: Relation,
        value: i32,
    ) -> Result<(), AllocError>
        ensures { OnOk result (self.new ≡ self.old ⊕ measure_items measurand relation value) }
    {
        match measurand {
            Some(Measurand::Measure { meter, field }) => self.push(ConditionItem::Measure {
                meter,
                field,
                relation,
                value,
            })?,
            _ => self.refuse(),
        }
        Ok(())
    }

    // Appends the fact that an input or a measured value is this number.
    fn push_number(&mut self, measurand: Option<Measurand>, number: i32) -> Result<(), AllocError>
        ensures { OnOk result (self.new ≡ self.old ⊕ number_items measurand number) }
    {
        match measurand {
            Some(Measurand::Input(_)) => match truth_from_number(number) {
                Some(truth) => self.push_input(measurand, truth)?,
                None => self.refuse(),
            },
            _ => self.push_measure(measurand, Relation::Equal, number)?,
        }
        Ok(())
    }

    /// Appends the fact that the named object has this value.
    pub fn push_value(&mut self, named: NamedObject, value: TestValue) -> Result<(), AllocError>
        ensures { OnOk result (self.new ≡ self.old ⊕ value_items named value) }
    {
        match value {
            TestValue::Position(position) => match named.switch {
                Some(switch) => self.push(ConditionItem::Position { switch, position })?,
                None => self.refuse(),
            },
            TestValue::Truth(truth) => self.push_input(named.measurand, truth)?,
            TestValue::Number(Some(number)) => self.push_number(named.measurand, number)?,
            TestValue::Number(None) => self.refuse(),
        }
        Ok(())
    }

    /// Appends the fact that the named object has this value, and joins it to the previous items by
    /// `or`.
    pub fn push_other(&mut self, named: NamedObject, value: TestValue) -> Result<(), AllocError>
        ensures { OnOk result (self.new ≡ self.old ⊕ value_items named value ⊕ item items.Or) }
    {
        self.push_value(named, value)?;
        self.push(ConditionItem::Or)
    }

    /// Appends the fact that the named measured value has this relation to a number.
    pub fn push_relation(
        &mut self,
        named: NamedObject,
        relation: Relation,
        number: Option<i32>,
    ) -> Result<(), AllocError>
        ensures { OnOk result (self.new ≡ self.old ⊕ relation_items named relation number) }
    {
        match number {
            Some(number) => self.push_measure(named.measurand, relation, number)?,
            None => self.refuse(),
        }
        Ok(())
    }

    /// Returns the items; `None` if a name has a value that it can't have.
    pub fn into_items(self) -> Option<Vec<ConditionItem>>
        ensures { option_map (λ items. items.items) result ≡ self }
    {
        if self.fits { Some(self.items) } else { None }
    }
}

/// An operator that is pending until its operand is complete, or an open parenthesis.
#[derive(Clone, Copy)]
pub enum Pending {
    Begin,
    Not,
    And,
    Or,
}

/// The pending operators and parentheses, the last first.
#[derive(Drop)]
pub struct PendingStack {
    pending: Vec<Pending>,
}

impl Model for PendingStack {
    ghost use Rattle.std.specs.Prelude.{List, reverse};
    ghost use Rattle.bay_audit_rules.specs.declared.draft.Pending.{Pending};

    ghost Value = { List Pending };

    ghost view = { λ s. reverse s.pending.items };
}

impl PendingStack {
    ghost use Rattle.bay_audit_rules.specs.Running.{first_of, rest_of};

    /// Makes an empty stack. Does not allocate.
    pub fn new(alloc: Global) -> Self
        ensures { result ≡ [] }
    {
        PendingStack {
            pending: Vec::new(alloc),
        }
    }

    /// Puts one on top.
    pub fn push(&mut self, one: Pending) -> Result<(), AllocError>
        ensures { OnOk result (self.new ≡ one ∷ self.old) }
    {
        self.pending.push(one)?;
        Ok(())
    }

    /// Returns the top; `None` if the stack is empty.
    pub fn top(&self) -> Option<Pending>
        ensures { result ≡ first_of self.now }
    {
        self.pending.last().copied()
    }

    /// Removes the top.
    pub fn pop(&mut self)
        ensures { self.new ≡ rest_of self.old }
    {
        let _ = self.pending.pop();
    }
}
