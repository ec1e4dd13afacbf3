// Reads the rules of a text.
ghost use Rattle.std.specs.Prelude.{◌≡◌, ◌≤◌, ◌<◌, ◌⊎◌, ◌∷◌, [], ◌++◌, true, false, Ok, Err, Some, None, length, map, option_map, IfOk, IfErr, OnOk, IfSome, MatchResult};
ghost use Rattle.std.specs.List.{list_any, slice_split};
ghost use Rattle.bay_audit_rules.specs.declared.fault.RuleFault.TheVariants.{OutOfMemory};
ghost use Rattle.bay_audit_rules.specs.declared.statement.RuleStatement.TheVariants as statement;
ghost use Rattle.bay_audit_rules.specs.Meaning.{TokensRead, LineRead, AllRead, TextRead, timing_of, rules_of, is_line_end};
ghost use Rattle.bay_audit_rules.specs.Meaning as spec;
ghost use Rattle.bay_audit_rules.specs.Reading.{Pushes, AppendsRules, rest_lines};

use crate::fault::RuleFault;
use crate::lexer::tokens_of;
use crate::rule::{ConditionItem, Rule, Timing};
use crate::statement::{Directions, HeldCondition, RuleLine, RuleStatement, read_statement};
use crate::token::{Connector, RuleToken};
use bay_base::listing::Listing;
use bay_base::switch::Operation;
use bay_config::bay::Bay;
use std::alloc::{AllocError, Global};

// The maximum number of rules in a text.
const MAX_RULES: usize = 1_000;

// The maximum nesting depth of parentheses.
const MAX_DEPTH: usize = 64;

// Returns whether a token is a name of nothing in the bay.
fn is_unknown(token: RuleToken) -> bool
    ensures { result ≡ spec.is_unknown token }
{
    match token {
        RuleToken::Name(named) => named.switch.is_none() && named.measurand.is_none(),
        _ => false,
    }
}

// Returns whether any of the tokens is a name of nothing in the bay.
fn has_unknown(tokens: &[RuleToken]) -> bool
    ensures { result ≡ list_any spec.is_unknown tokens.now }
{
    tokens.iter().any(|token| is_unknown(*token))
}

// Returns whether parentheses are nested too deep.
fn is_deep(tokens: &[RuleToken]) -> bool
    ensures { result ≡ spec.is_deep 0 tokens.now }
{
    let mut depth = 0usize;
    for token in tokens {
        match token {
            RuleToken::Begin => {
                if depth >= MAX_DEPTH {
                    return true;
                }
                depth += 1;
            }
            RuleToken::Connector(Connector::End) => depth = depth.saturating_sub(1),
            _ => {}
        }
    }
    false
}

// Returns the time of a rule; `None` if a name has a value that it can't have, or if no timer can
// have the time.
fn make_timing(timed: Option<HeldCondition>) -> Option<Option<Timing>>
    ensures { result ≡ timing_of timed }
{
    let Some(since) = timed else {
        return Some(None);
    };
    let condition = Listing::new(since.condition.into_items()?);
    let time = since.time?;
    Some(Some(Timing { condition, time }))
}

// Returns the rule of a line for opening the switch; `None` if the name is no switch, if another
// name has a value that it can't have, or if no timer can have the time.
fn make_template(line: usize, rule_line: RuleLine) -> Option<Rule>
    ensures { result ≡ spec.template_of line rule_line }
{
    let switch = rule_line.named.switch?;
    let timed = make_timing(rule_line.timed)?;
    let when = Listing::new(rule_line.when.into_items()?);
    Some(Rule {
        line,
        kind: rule_line.kind,
        switch,
        operation: Operation::Open,
        when,
        timed,
    })
}

// Copies the items of a condition.
fn copy_items(
    alloc: Global,
    items: &Listing<ConditionItem>,
) -> Result<Listing<ConditionItem>, AllocError>
    ensures { IfOk result (λ copy. copy ≡ items.now) }
{
    Ok(Listing::new(items.as_slice().to_vec(alloc)?))
}

// Copies the time of a rule.
fn copy_timing(alloc: Global, timed: &Option<Timing>) -> Result<Option<Timing>, AllocError>
    ensures { IfOk result (λ copy. copy ≡ timed.now) }
{
    match timed {
        Some(timing) => Ok(Some(Timing {
            condition: copy_items(alloc, &timing.condition)?,
            time: timing.time,
        })),
        None => Ok(None),
    }
}

// Appends a rule for one operation.
fn push_rule(
    alloc: Global,
    rules: &mut Vec<Rule>,
    rule: &Rule,
    operation: Operation,
) -> Result<(), AllocError>
    ensures { OnOk result (rules.new.items
        ≡ rules.old.items ++ spec.rule_of rule.now operation ∷ []) }
{
    let when = copy_items(alloc, &rule.when)?;
    let timed = copy_timing(alloc, &rule.timed)?;
    rules.push(Rule {
        line: rule.line,
        kind: rule.kind,
        switch: rule.switch,
        operation,
        when,
        timed,
    })?;
    Ok(())
}

// Appends a rule for each of its directions.
fn push_directions(
    alloc: Global,
    rules: &mut Vec<Rule>,
    rule: &Rule,
    directions: Directions,
) -> Result<(), AllocError>
    ensures { OnOk result
        (rules.new.items ≡ rules.old.items
        ++ map (spec.rule_of rule.now) (spec.operations_of directions)) }
{
    match directions {
        Directions::Opening => push_rule(alloc, rules, rule, Operation::Open),
        Directions::Closing => push_rule(alloc, rules, rule, Operation::Close),
        Directions::OpeningAndClosing => {
            push_rule(alloc, rules, rule, Operation::Open)?;
            push_rule(alloc, rules, rule, Operation::Close)
        }
        Directions::ClosingAndOpening => {
            push_rule(alloc, rules, rule, Operation::Close)?;
            push_rule(alloc, rules, rule, Operation::Open)
        }
    }
}

// Appends the rules of a line. Returns false if the name is no switch, if another name has a value
// that it can't have, or if no timer can have the time.
fn push_rules_of_line(
    alloc: Global,
    line: usize,
    rule_line: RuleLine,
    rules: &mut Vec<Rule>,
) -> Result<bool, AllocError>
    ensures { IfOk result
        (Pushes (rules_of line (statement.Rule rule_line)) rules.old.items rules.new.items) }
{
    let directions = rule_line.directions;
    match make_template(line, rule_line) {
        Some(rule) => {
            push_directions(alloc, rules, &rule, directions)?;
            Ok(true)
        }
        None => Ok(false),
    }
}

// Appends the rules of a statement. Returns false if the name of a rule is no switch, if another
// name has a value that it can't have, or if no timer can have the time.
fn push_rules(
    alloc: Global,
    line: usize,
    statement: RuleStatement,
    rules: &mut Vec<Rule>,
) -> Result<bool, AllocError>
    ensures { IfOk result (Pushes (rules_of line statement) rules.old.items rules.new.items) }
{
    match statement {
        RuleStatement::Blank => Ok(true),
        RuleStatement::Looks(draft) => Ok(draft.into_items().is_some()),
        RuleStatement::Rule(rule_line) => push_rules_of_line(alloc, line, rule_line, rules),
    }
}

// Reads the tokens of a line, and appends its rules.
fn read_tokens(
    alloc: Global,
    line: usize,
    tokens: &[RuleToken],
    rules: &mut Vec<Rule>,
) -> Result<(), RuleFault>
    ensures { AppendsRules (TokensRead line tokens.now) rules.old.items rules.new.items result }
{
    let Some(statement) = read_statement(alloc, tokens)? else {
        return Err(RuleFault::BadLine { line });
    };
    if has_unknown(tokens) {
        return Err(RuleFault::UnknownName { line });
    }
    if !push_rules(alloc, line, statement, rules)? {
        return Err(RuleFault::BadValue { line });
    }
    if is_deep(tokens) {
        return Err(RuleFault::TooMany { line });
    }
    Ok(())
}

// Reads a line, and appends its rules.
fn read_line(
    alloc: Global,
    bay: &Bay,
    line: usize,
    text: &[u8],
    rules: &mut Vec<Rule>,
) -> Result<(), RuleFault>
    ensures { AppendsRules (LineRead bay.now line text.now) rules.old.items rules.new.items result }
{
    let Some(tokens) = tokens_of(alloc, bay, text)? else {
        return Err(RuleFault::BadWord { line });
    };
    read_tokens(alloc, line, tokens.as_slice(), rules)
}

// Returns the first line of a text, and the rest; `None` if there is no line end.
fn cut_line(text: &[u8]) -> (&[u8], Option<&[u8]>)
    ensures cut { slice_split is_line_end text.now
        ≡ result.0.now ∷ rest_lines (option_map (λ rest. rest.now) result.1) }
    ensures less { IfSome result.1 (λ rest. length rest.now < length text.now) }
{
    match text.iter().position(|octet| *octet == b'\n') {
        Some(at) => (&text[..at], Some(&text[at + 1..])),
        None => (text, None),
    }
}

// Reads the rules of all lines of a text.
fn read_lines(alloc: Global, bay: &Bay, text: &[u8]) -> Result<Vec<Rule>, RuleFault>
    ensures read { IfOk result (λ rules. AllRead bay.now text.now (Ok rules.items)) }
    ensures refused { IfErr result
        (λ fault. (fault ≡ OutOfMemory) ⊎ AllRead bay.now text.now (Err fault)) }
{
    let mut rules = Vec::new(alloc);
    let mut rest = text;
    let mut line = 1usize;
    loop {
        let (first, behind) = cut_line(rest);
        read_line(alloc, bay, line, first, &mut rules)?;
        if rules.len() > MAX_RULES {
            return Err(RuleFault::TooMany { line });
        }
        match behind {
            Some(behind) => rest = behind,
            None => return Ok(rules),
        }
        line += 1;
    }
}

/// Reads the rules of a text for a bay; at least one.
pub fn read_rules(alloc: Global, bay: &Bay, text: &[u8]) -> Result<Listing<Rule>, RuleFault>
    // The rules that the text spells;
    ensures read { IfOk result (λ rules. TextRead bay.now text.now (Ok rules)) }
    // or its first fault, or `OutOfMemory` if an allocation fails.
    ensures refused { IfErr result
        (λ fault. (fault ≡ OutOfMemory) ⊎ TextRead bay.now text.now (Err fault)) }
{
    let rules = read_lines(alloc, bay, text)?;
    if rules.is_empty() {
        return Err(RuleFault::NoRule);
    }
    Ok(Listing::new(rules))
}
