// Reads the statement of a line.
ghost use Rattle.std.specs.Prelude.{◌≡◌, ◌<◌, length, Some, None, option_map, IfOk, IfSome};
ghost use Rattle.bay_audit_rules.specs.TokenParsing.{directions_at, timed_at, when_at, looks_at, rule_at, statement_at};
ghost use Rattle.bay_audit_rules.specs.TokenParsing as spec;

use crate::condition::{read_condition, read_fact};
use crate::draft::ConditionDraft;
use crate::rule::{ConditionItem, RuleKind};
use crate::token::{NamedObject, RuleToken};
use std::alloc::{AllocError, Global};

/// The directions of a switch that a rule covers, in the order of the text.
#[derive(Clone, Copy)]
pub enum Directions {
    Opening,
    Closing,
    OpeningAndClosing,
    ClosingAndOpening,
}

/// A condition that holds for a time.
#[derive(Drop)]
pub struct HeldCondition {
    pub condition: ConditionDraft,
    /// In milliseconds; `None` for a time that no timer can have.
    pub time: Option<u32>,
}

/// A rule as its line spells it.
#[derive(Drop)]
pub struct RuleLine {
    pub kind: RuleKind,
    pub named: NamedObject,
    pub directions: Directions,
    pub timed: Option<HeldCondition>,
    pub when: ConditionDraft,
}

/// The statement of a line.
#[derive(Drop)]
pub enum RuleStatement {
    Blank,
    /// The values of a `look` line, which `tools/audit` tries.
    Looks(ConditionDraft),
    Rule(RuleLine),
}

// Reads the directions at the start of the tokens, and returns the rest.
fn read_directions(tokens: &[RuleToken]) -> Option<(Directions, &[RuleToken])>
    ensures { option_map (λ r. (r.0, r.1.now)) result ≡ directions_at tokens.now }
{
    match tokens {
        [RuleToken::Open, RuleToken::Bar, RuleToken::Close, rest @ ..] => Some((
            Directions::OpeningAndClosing,
            rest,
        )),
        [RuleToken::Close, RuleToken::Bar, RuleToken::Open, rest @ ..] => Some((
            Directions::ClosingAndOpening,
            rest,
        )),
        [RuleToken::Open, rest @ ..] => Some((Directions::Opening, rest)),
        [RuleToken::Close, rest @ ..] => Some((Directions::Closing, rest)),
        _ => None,
    }
}

// Reads a condition, `for` and a time, and returns the rest.
fn read_held_condition<'a>(
    alloc: Global,
    tokens: &'a [RuleToken],
) -> Result<Option<(HeldCondition, &'a [RuleToken])>, AllocError>
    ensures { IfOk result (λ r. option_map (λ one. (one.0, one.1.now)) r
        ≡ spec.held_condition_at tokens.entry.now) }
{
    let mut draft = ConditionDraft::new(alloc);
    match read_condition(alloc, &mut draft, tokens)? {
        Some([RuleToken::For, RuleToken::Time(time), rest @ ..]) => Ok(Some((
            HeldCondition {
                condition: draft,
                time: *time,
            },
            rest,
        ))),
        _ => Ok(None),
    }
}

// Reads the condition on the states that a rule covers: `when` and a condition, or nothing.
fn read_when(alloc: Global, tokens: &[RuleToken]) -> Result<Option<ConditionDraft>, AllocError>
    ensures { IfOk result (λ r. r ≡ when_at tokens.now) }
{
    let mut draft = ConditionDraft::new(alloc);
    match tokens {
        [] => draft.push(ConditionItem::True)?,
        [RuleToken::When, rest @ ..] => match read_condition(alloc, &mut draft, rest)? {
            Some([]) => {}
            _ => return Ok(None),
        },
        _ => return Ok(None),
    }
    Ok(Some(draft))
}

// Reads the values of a `look` line.
fn read_looks(
    alloc: Global,
    named: NamedObject,
    tokens: &[RuleToken],
) -> Result<Option<RuleStatement>, AllocError>
    ensures { IfOk result (λ r. r ≡ looks_at named tokens.now) }
{
    let mut draft = ConditionDraft::new(alloc);
    let Some(rest) = read_fact(&mut draft, named, tokens)? else {
        return Ok(None);
    };
    if !rest.is_empty() {
        return Ok(None);
    }
    Ok(Some(RuleStatement::Looks(draft)))
}

// Returns whether two kinds are equal.
fn same_kind(a: RuleKind, b: RuleKind) -> bool
    ensures { result ≡ spec.same_kind a b }
{
    matches!(
        (a, b),
        (RuleKind::Never, RuleKind::Never) | (RuleKind::Always, RuleKind::Always)
    )
}

// Reads the time at the start of the tokens, if there is one, and returns the rest.
fn read_timed<'a>(
    alloc: Global,
    kind: RuleKind,
    tokens: &'a [RuleToken],
) -> Result<Option<(Option<HeldCondition>, &'a [RuleToken])>, AllocError>
    ensures { IfOk result (λ r. option_map (λ one. (one.0, one.1.now)) r
        ≡ timed_at kind tokens.entry.now) }
{
    let [RuleToken::Since(which), rest @ ..] = tokens else {
        return Ok(Some((None, tokens)));
    };
    if !same_kind(kind, *which) {
        return Ok(None);
    }
    match read_held_condition(alloc, rest)? {
        Some((since, rest)) => Ok(Some((Some(since), rest))),
        None => Ok(None),
    }
}

// Reads a rule.
fn read_rule(
    alloc: Global,
    kind: RuleKind,
    named: NamedObject,
    tokens: &[RuleToken],
) -> Result<Option<RuleStatement>, AllocError>
    ensures { IfOk result (λ r. r ≡ rule_at kind named tokens.now) }
{
    let Some((directions, rest)) = read_directions(tokens) else {
        return Ok(None);
    };
    let Some((timed, rest)) = read_timed(alloc, kind, rest)? else {
        return Ok(None);
    };
    match read_when(alloc, rest)? {
        Some(when) => Ok(Some(RuleStatement::Rule(RuleLine {
            kind,
            named,
            directions,
            timed,
            when,
        }))),
        None => Ok(None),
    }
}

/// Reads the statement of a line from its tokens; `None` if they are not a statement. Fails only if
/// an allocation fails.
pub fn read_statement(
    alloc: Global,
    tokens: &[RuleToken],
) -> Result<Option<RuleStatement>, AllocError>
    ensures { IfOk result (λ r. r ≡ statement_at tokens.now) }
{
    match tokens {
        [] => Ok(Some(RuleStatement::Blank)),
        [RuleToken::Look, RuleToken::Name(named), rest @ ..] => read_looks(alloc, *named, rest),
        [RuleToken::Kind(kind), RuleToken::Name(named), rest @ ..] => read_rule(
            alloc, *kind, *named, rest,
        ),
        _ => Ok(None),
    }
}
