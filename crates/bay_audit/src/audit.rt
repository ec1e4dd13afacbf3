// Finds which rules a program obeys, and in which cases it breaks the others.
ghost use Rattle.std.specs.Prelude.{◌≡◌, ◌++◌, length, map, IfOk, OnOk};
ghost use Rattle.bay_audit.specs.Effort.{IsSpent};
ghost use Rattle.bay_audit.specs.Rules.{AreReleases, IsAnswer, program_of, direction_of, directions};
ghost use Rattle.bay_audit.specs.Rules.{AreRightAnswers, IsRightAnswer};
ghost use Rattle.bay_audit.specs.Rules as spec;

use crate::answer::{Audit, RuleAnswer, Verdict};
use crate::case::{Case, Test};
use crate::demand::{Demand, Goal};
use crate::effort::PassBudget;
use crate::program::AuditedProgram;
use crate::release::find_releases;
use crate::until::answer_timed_rule;
use crate::verdict::find_verdict;
use bay_audit_rules::rule::Rule;
use bay_base::listing::Listing;
use bay_config::bay::Bay;
use il_verify::verify::Verified;
use std::alloc::{AllocError, Global};

// Appends a case to those that are left, if it has a process.
fn push_if_any(left: &mut Vec<Case>, case: Case) -> Result<(), AllocError>
    ensures { OnOk result (left.new.items ≡ left.old.items ++ spec.if_any case) }
{
    if case.has_example() {
        left.push(case)?;
    }
    Ok(())
}

/// Appends the two parts of a case to the cases that are left, each if it has a process. Fails only
/// if an allocation fails.
pub(crate) fn split(
    alloc: Global,
    left: &mut Vec<Case>,
    case: &Case,
    test: Test,
) -> Result<(), AllocError>
    ensures { OnOk result (left.new.items ≡ left.old.items ++ spec.parts_of case.now test) }
{
    push_if_any(left, case.with(alloc, test, false)?)?;
    push_if_any(left, case.with(alloc, test, true)?)
}

/// Answers a demand in at most `passes` passes, and subtracts those that it needed. Fails only if
/// an allocation fails.
pub(crate) fn answer_demand(
    alloc: Global,
    program: &AuditedProgram<'_>,
    demand: &Demand,
    passes: &mut u32,
) -> Result<RuleAnswer, AllocError>
    ensures { IfOk result (IsAnswer program.now demand.now) }
{
    let mut left = Case::all(alloc)?;
    let mut cases: u32 = 0;
    for _ in 0..*passes {
        let Some(case) = left.pop() else {
            break;
        };
        *passes = passes.saturating_sub(1);
        match find_verdict(alloc, program, demand, &case)? {
            Verdict::Obeyed => cases = cases.saturating_add(1),
            Verdict::Broken => return Ok(RuleAnswer::Broken { case }),
            Verdict::Open(depends_on) => return Ok(RuleAnswer::Open { case, depends_on }),
            Verdict::Split(test) => split(alloc, &mut left, &case, test)?,
        }
    }
    if left.as_slice().is_empty() {
        Ok(RuleAnswer::Holds { cases })
    } else {
        Ok(RuleAnswer::TooMany)
    }
}

/// Returns the demand of a rule, without its time. Fails only if an allocation fails.
pub(crate) fn plain_demand(alloc: Global, rule: &Rule) -> Result<Demand, AllocError>
    ensures { IfOk result (λ demand. demand ≡ spec.plain_demand rule.now) }
{
    let when = Vec::from_slice(alloc, rule.when.as_slice())?;
    Ok(Demand {
        kind: rule.kind,
        goal: Goal::Release {
            switch: rule.switch,
            operation: rule.operation,
        },
        when: Listing::new(when),
        unless: Listing::new(Vec::new(alloc)),
        limits: Listing::new(Vec::new(alloc)),
    })
}

// Answers a rule in at most `passes` passes, and subtracts those that it needed.
fn answer_within(
    alloc: Global,
    program: &AuditedProgram<'_>,
    rule: &Rule,
    passes: &mut u32,
) -> Result<RuleAnswer, AllocError>
    ensures { IfOk result (IsRightAnswer program.now rule.now) }
{
    match &rule.timed {
        Some(timing) => answer_timed_rule(alloc, program, rule, timing, passes),
        None => {
            let demand = plain_demand(alloc, rule)?;
            answer_demand(alloc, program, &demand, passes)
        }
    }
}

/// Answers a rule in its share of the passes that are left, and leaves those that it did not need
/// to the answers after it. Fails only if an allocation fails.
pub fn answer_rule(
    alloc: Global,
    program: &AuditedProgram<'_>,
    rule: &Rule,
    budget: &mut PassBudget,
) -> Result<RuleAnswer, AllocError>
    // The answer is right, as `audit` requires;
    ensures right { IfOk result (IsRightAnswer program.now rule.now) }
    // It made at most its share of the passes, and one answer less shares the others.
    ensures shared { OnOk result (IsSpent budget.old budget.new) }
{
    let share = budget.share();
    let mut passes = share;
    let found = answer_within(alloc, program, rule, &mut passes)?;
    budget.spend(share.saturating_sub(passes));
    Ok(found)
}

// Answers a list of rules.
fn answer_each(
    alloc: Global,
    program: &AuditedProgram<'_>,
    rules: &[Rule],
    budget: &mut PassBudget,
) -> Result<Vec<RuleAnswer>, AllocError>
    ensures { IfOk result
        (λ answers. AreRightAnswers program.now rules.now answers.items) }
{
    let mut answers = Vec::new(alloc);
    for rule in rules {
        answers.push(answer_rule(alloc, program, rule, budget)?)?;
    }
    Ok(answers)
}

/// Answers the rules of a bay's program, without its releases. Looks at about `effort` million
/// octets of code, which the rules share. Fails only if an allocation fails.
pub fn answer_rules(
    alloc: Global,
    bay: &Bay,
    verified: &Verified,
    rules: &[Rule],
    effort: u32,
) -> Result<Vec<RuleAnswer>, AllocError>
    // Each answer is right, as `audit` requires.
    ensures { IfOk result
        (λ answers. AreRightAnswers (program_of bay.now verified.now) rules.now answers.items) }
{
    let program = AuditedProgram::new(alloc, bay, verified)?;
    let mut budget = PassBudget::new(verified.image(), effort, rules.len());
    answer_each(alloc, &program, rules, &mut budget)
}

/// Returns the number of answers of an audit: one for each rule, and one for each release.
pub fn answer_count(bay: &Bay, rules: &[Rule]) -> usize {
    let ways = bay.switches.as_slice().len().saturating_mul(2);
    rules.len().saturating_add(ways)
}

/// Answers the rules of a bay's program, and returns in which cases each switch is released. Looks
/// at about `effort` million octets of code, which the rules and the releases share. Fails only if
/// an allocation fails.
pub fn audit(
    alloc: Global,
    bay: &Bay,
    verified: &Verified,
    rules: &[Rule],
    effort: u32,
) -> Result<Audit, AllocError>
    // Each answer is right. A rule that holds does so for every process, in each state that the
    // program can reach from its first values. A rule that is broken is so by each process of its
    // case, in each such state. A rule with a time may also hold by a timer, which runs only while
    // the condition holds and has expired before a release, and may also be broken by a run of one
    // scan or two;
    ensures answers { IfOk result
        (λ audit. AreRightAnswers (program_of bay.now verified.now) rules.now
        audit.answers.items) }
    // The cases of each release are right and disjoint, each has a process, and together with those
    // that are left they cover all processes; the release while the process is lost is right, and
    // so is that by the first scan after a load. If a case is released, each scan from such a
    // process leaves the release TRUE, in each state that the program can reach; if it is refused,
    // FALSE;
    ensures releases { IfOk result (λ audit. AreReleases bay.now (program_of bay.now verified.now)
        audit.releases.items) }
    // There is one release for each switch and direction.
    ensures directions { IfOk result (λ audit. map direction_of audit.releases.items
        ≡ directions (length bay.now.switches)) }
{
    let program = AuditedProgram::new(alloc, bay, verified)?;
    let mut budget = PassBudget::new(verified.image(), effort, answer_count(bay, rules));
    Ok(Audit {
        answers: answer_each(alloc, &program, rules, &mut budget)?,
        releases: find_releases(alloc, bay, &program, &mut budget)?,
    })
}
