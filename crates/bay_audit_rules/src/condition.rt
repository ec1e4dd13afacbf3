// Reads a condition.
ghost use Rattle.std.specs.Prelude.{◌≡◌, ◌∷◌, [], true, false, Some, None, OnOk, IfOk};
ghost use Rattle.bay_audit_rules.specs.Grammar as grammar;
ghost use Rattle.bay_audit_rules.specs.Running.{close_parenthesis as ends, more_at, or_alone, values_at, is_at, number_at, fact_at, state, append_operators, append_or, token_step, finish, condition_at};
ghost use Rattle.bay_audit_rules.specs.declared.token.Connector.TheVariants.{End};
ghost use Rattle.bay_audit_rules.specs.declared.token.RuleToken.TheVariants as token;
ghost use Rattle.bay_audit_rules.specs.Advances.{Consumed, ConsumedIf, phase_of, IsAdvance, IsReadCondition};

use crate::draft::{ConditionDraft, Pending, PendingStack};
use crate::rule::{ConditionItem, Relation};
use crate::token::{Connector, NamedObject, RuleToken, TestValue};
use bay_base::position::Dbpos;
use std::alloc::{AllocError, Global};

/// The result of one token of a condition.
#[derive(Clone, Copy)]
pub enum Advance<'a> {
    /// The condition continues with these tokens. `expects` is whether an operand comes next.
    On {
        expects: bool,
        rest: &'a [RuleToken],
    },
    /// The condition ends before the token.
    Stop,
    /// The token can't occur here.
    Refuse,
}

// Returns the value that a token denotes after a name; `None` if it denotes none.
fn value_of(token: RuleToken) -> Option<TestValue>
    ensures { result ≡ grammar.value_of token }
{
    match token {
        RuleToken::TestValue(value) => Some(value),
        RuleToken::Open => Some(TestValue::Position(Dbpos::Off)),
        _ => None,
    }
}

// Reads the further values at the start of the tokens, and returns the rest.
fn read_more_values<'a>(
    draft: &mut ConditionDraft,
    named: NamedObject,
    tokens: &'a [RuleToken],
) -> Result<&'a [RuleToken], AllocError>
    ensures { IfOk result (λ rest. Consumed (more_at named tokens.entry.now) draft.old draft.new
        tokens.entry.now rest.now) }
{
    let mut rest = tokens;
    while let Some((RuleToken::Bar, others)) = rest.split_first() {
        let Some((token, behind)) = others.split_first() else {
            return Ok(rest);
        };
        let Some(value) = value_of(*token) else {
            return Ok(rest);
        };
        draft.push_other(named, value)?;
        rest = behind;
    }
    Ok(rest)
}

// Reads the values at the start of the tokens, and returns the rest; `None` if there is no value.
fn read_values<'a>(
    draft: &mut ConditionDraft,
    named: NamedObject,
    negated: bool,
    tokens: &'a [RuleToken],
) -> Result<Option<&'a [RuleToken]>, AllocError>
    ensures { IfOk result (ConsumedIf (values_at named negated tokens.entry.now) draft.old draft.new
        tokens.entry.now) }
{
    let Some((token, others)) = tokens.split_first() else {
        return Ok(None);
    };
    let Some(value) = value_of(*token) else {
        return Ok(None);
    };
    draft.push_value(named, value)?;
    let rest = read_more_values(draft, named, others)?;
    draft.push_negation(negated)?;
    Ok(Some(rest))
}

// Reads the values after `is`, with an optional `not`.
fn read_values_after_is<'a>(
    draft: &mut ConditionDraft,
    named: NamedObject,
    tokens: &'a [RuleToken],
) -> Result<Option<&'a [RuleToken]>, AllocError>
    ensures { IfOk result (ConsumedIf (is_at named tokens.entry.now) draft.old draft.new
        tokens.entry.now) }
{
    match tokens {
        [RuleToken::Not, rest @ ..] => read_values(draft, named, true, rest),
        _ => read_values(draft, named, false, tokens),
    }
}

// Reads the number after a relation.
fn read_compared_number<'a>(
    draft: &mut ConditionDraft,
    named: NamedObject,
    relation: Relation,
    tokens: &'a [RuleToken],
) -> Result<Option<&'a [RuleToken]>, AllocError>
    ensures { IfOk result (ConsumedIf (number_at named relation tokens.entry.now) draft.old
        draft.new
        tokens.entry.now) }
{
    let [RuleToken::TestValue(TestValue::Number(number)), rest @ ..] = tokens else {
        return Ok(None);
    };
    draft.push_relation(named, relation, *number)?;
    Ok(Some(rest))
}

// Reads values; without values, the fact is that an input is TRUE.
fn read_values_or_none<'a>(
    draft: &mut ConditionDraft,
    named: NamedObject,
    tokens: &'a [RuleToken],
) -> Result<Option<&'a [RuleToken]>, AllocError>
    ensures { IfOk result (ConsumedIf (or_alone named (values_at named false tokens.entry.now))
        draft.old draft.new tokens.entry.now) }
{
    if let Some(rest) = read_values(draft, named, false, tokens)? {
        return Ok(Some(rest));
    }
    draft.push_value(named, TestValue::Truth(true))?;
    Ok(Some(tokens))
}

/// Reads the fact at the start of the tokens, after its name, and returns the rest; `None` if there
/// is no fact. Fails only if an allocation fails.
pub fn read_fact<'a>(
    draft: &mut ConditionDraft,
    named: NamedObject,
    tokens: &'a [RuleToken],
) -> Result<Option<&'a [RuleToken]>, AllocError>
    ensures { IfOk result (ConsumedIf (fact_at named tokens.entry.now) draft.old draft.new
        tokens.entry.now) }
{
    match tokens {
        [RuleToken::Relation(relation), rest @ ..] => read_compared_number(
            draft, named, *relation, rest,
        ),
        [RuleToken::Is, rest @ ..] => read_values_after_is(draft, named, rest),
        [RuleToken::Not, rest @ ..] => read_values(draft, named, true, rest),
        _ => read_values_or_none(draft, named, tokens),
    }
}

// Appends the operators that are pending for the last operand alone, which is complete.
fn push_operators(draft: &mut ConditionDraft, stack: &mut PendingStack) -> Result<(), AllocError>
    ensures { OnOk result (state stack.new draft.new ≡ append_operators stack.old draft.old) }
{
    loop {
        match stack.top() {
            Some(Pending::Not) => draft.push(ConditionItem::Not)?,
            Some(Pending::And) => draft.push(ConditionItem::And)?,
            _ => return Ok(()),
        }
        stack.pop();
    }
}

// Appends the `or` that is pending for the last operands joined by `and`, which are complete.
fn push_or(draft: &mut ConditionDraft, stack: &mut PendingStack) -> Result<(), AllocError>
    ensures { OnOk result (state stack.new draft.new ≡ append_or (state stack.old draft.old)) }
{
    if let Some(Pending::Or) = stack.top() {
        draft.push(ConditionItem::Or)?;
        stack.pop();
    }
    Ok(())
}

// Reads a token where an operand is expected.
fn read_operand<'a>(
    draft: &mut ConditionDraft,
    stack: &mut PendingStack,
    token: RuleToken,
    rest: &'a [RuleToken],
) -> Result<Advance<'a>, AllocError>
    ensures { IfOk result (λ turn. IsAdvance turn (state stack.new draft.new) token rest.entry.now
        (token_step (phase_of true) (state stack.old draft.old) token rest.entry.now)) }
{
    match token {
        RuleToken::Name(named) => match read_fact(draft, named, rest)? {
            Some(rest) => {
                push_operators(draft, stack)?;
                Ok(Advance::On {
                    expects: false,
                    rest,
                })
            }
            None => Ok(Advance::Refuse),
        },
        RuleToken::Not => {
            stack.push(Pending::Not)?;
            Ok(Advance::On {
                expects: true,
                rest,
            })
        }
        RuleToken::Begin => {
            stack.push(Pending::Begin)?;
            Ok(Advance::On {
                expects: true,
                rest,
            })
        }
        _ => Ok(Advance::Refuse),
    }
}

// Reads a `)`.
fn read_close<'a>(
    draft: &mut ConditionDraft,
    stack: &mut PendingStack,
    rest: &'a [RuleToken],
) -> Result<Advance<'a>, AllocError>
    ensures { IfOk result (λ turn. IsAdvance turn (state stack.new draft.new) (token.Connector End)
        rest.entry.now (ends (append_or (state stack.old draft.old)))) }
{
    push_or(draft, stack)?;
    match stack.top() {
        Some(Pending::Begin) => {
            stack.pop();
            push_operators(draft, stack)?;
            Ok(Advance::On {
                expects: false,
                rest,
            })
        }
        _ => Ok(Advance::Refuse),
    }
}

// Reads a token after an operand.
fn read_after_operand<'a>(
    draft: &mut ConditionDraft,
    stack: &mut PendingStack,
    token: RuleToken,
    rest: &'a [RuleToken],
) -> Result<Advance<'a>, AllocError>
    ensures { IfOk result (λ turn. IsAdvance turn (state stack.new draft.new) token rest.entry.now
        (token_step (phase_of false) (state stack.old draft.old) token rest.entry.now)) }
{
    match token {
        RuleToken::Connector(Connector::And) => {
            stack.push(Pending::And)?;
            Ok(Advance::On {
                expects: true,
                rest,
            })
        }
        RuleToken::Connector(Connector::Or) => {
            push_or(draft, stack)?;
            stack.push(Pending::Or)?;
            Ok(Advance::On {
                expects: true,
                rest,
            })
        }
        RuleToken::Connector(Connector::End) => read_close(draft, stack, rest),
        _ => Ok(Advance::Stop),
    }
}

// Reads a token.
fn read_token<'a>(
    draft: &mut ConditionDraft,
    stack: &mut PendingStack,
    expects: bool,
    token: RuleToken,
    rest: &'a [RuleToken],
) -> Result<Advance<'a>, AllocError>
    ensures { IfOk result (λ turn. IsAdvance turn (state stack.new draft.new) token rest.entry.now
        (token_step (phase_of expects) (state stack.old draft.old) token rest.entry.now)) }
{
    if expects {
        read_operand(draft, stack, token, rest)
    } else {
        read_after_operand(draft, stack, token, rest)
    }
}

// Ends a condition before the rest of the tokens; `None` if a parenthesis is still open.
fn end_condition<'a>(
    draft: &mut ConditionDraft,
    mut stack: PendingStack,
    rest: &'a [RuleToken],
) -> Result<Option<&'a [RuleToken]>, AllocError>
    ensures { IfOk result (IsReadCondition (finish (state stack draft.old) rest.entry.now)
        draft.new) }
{
    push_or(draft, &mut stack)?;
    if stack.top().is_some() {
        return Ok(None);
    }
    Ok(Some(rest))
}

/// Reads the condition at the start of the tokens into an empty draft, and returns the rest; `None`
/// if there is no condition. Fails only if an allocation fails.
pub fn read_condition<'a>(
    alloc: Global,
    draft: &mut ConditionDraft,
    tokens: &'a [RuleToken],
) -> Result<Option<&'a [RuleToken]>, AllocError>
    requires { draft.old ≡ Some [] }
    ensures { IfOk result (IsReadCondition (condition_at tokens.entry.now) draft.new) }
{
    let mut stack = PendingStack::new(alloc);
    let mut expects = true;
    let mut rest = tokens;
    while let Some((token, others)) = rest.split_first() {
        match read_token(draft, &mut stack, expects, *token, others)? {
            Advance::On {
                expects: next,
                rest: behind,
            } => {
                expects = next;
                rest = behind;
            }
            Advance::Stop => return end_condition(draft, stack, rest),
            Advance::Refuse => return Ok(None),
        }
    }
    if expects {
        return Ok(None);
    }
    end_condition(draft, stack, rest)
}
