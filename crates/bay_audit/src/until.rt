// Rules with a time: a switch is not released until a condition has held for a time, or is released
// after that.
ghost use Rattle.std.specs.Prelude.{◌≡◌, IfOk, IfSome, IsSome};
ghost use Rattle.bay_audit.specs.Rules.{IsDueByTimer, IsUntilAnswer, IsMet, IsAfterAnswer, IsTimedAnswer};
ghost use Rattle.bay_audit.specs.Rules as spec;

use crate::answer::RuleAnswer;
use crate::audit::{answer_demand, plain_demand};
use crate::demand::{Demand, Goal};
use crate::early::early_case;
use crate::program::AuditedProgram;
use bay_audit_rules::rule::{ConditionItem, Rule, RuleKind, Timing};
use bay_base::listing::Listing;
use il_range::delay::KnownDelay;
use std::alloc::{AllocError, Global};

// Returns a copy of a condition.
fn copy_of(alloc: Global, items: &[ConditionItem]) -> Result<Listing<ConditionItem>, AllocError>
    ensures { IfOk result (λ copy. copy ≡ items.now) }
{
    let items = Vec::from_slice(alloc, items)?;
    Ok(Listing::new(items))
}

// Returns the limit of the delay of one timer.
fn limit_of(
    alloc: Global,
    timer: usize,
    delay: KnownDelay,
) -> Result<Listing<KnownDelay>, AllocError>
    ensures { IfOk result (λ limits. limits ≡ spec.limit_of timer delay) }
{
    let mut limits = vec![in alloc; KnownDelay::Unknown; timer]?;
    limits.push(delay)?;
    Ok(Listing::new(limits))
}

// Returns the demand that the switch is not released unless a delay of the timer runs that began at
// least `time` ago.
fn make_late_demand(
    alloc: Global,
    rule: &Rule,
    time: u32,
    timer: usize,
) -> Result<Demand, AllocError>
    ensures { IfOk result (λ demand. demand ≡ spec.delay_demand rule.now time timer) }
{
    let when = copy_of(alloc, rule.when.as_slice())?;
    let limits = limit_of(alloc, timer, KnownDelay::Below(time))?;
    Ok(Demand {
        kind: RuleKind::Never,
        goal: Goal::Release {
            switch: rule.switch,
            operation: rule.operation,
        },
        when,
        unless: Listing::new(Vec::new(alloc)),
        limits,
    })
}

// Returns the demand that the switch is not released while the condition is FALSE.
fn make_presence_demand(
    alloc: Global,
    rule: &Rule,
    condition: &[ConditionItem],
) -> Result<Demand, AllocError>
    ensures { IfOk result (λ demand. demand ≡ spec.necessary_demand rule.now condition.now) }
{
    let when = copy_of(alloc, rule.when.as_slice())?;
    let unless = copy_of(alloc, condition)?;
    Ok(Demand {
        kind: RuleKind::Never,
        goal: Goal::Release {
            switch: rule.switch,
            operation: rule.operation,
        },
        when,
        unless,
        limits: Listing::new(Vec::new(alloc)),
    })
}

// Returns the demand that no delay of the timer runs while the condition is FALSE.
fn make_idle_demand(
    alloc: Global,
    condition: &[ConditionItem],
    timer: usize,
) -> Result<Demand, AllocError>
    ensures { IfOk result (λ demand. demand ≡ spec.idle_timer_demand condition.now timer) }
{
    let when = vec![in alloc; ConditionItem::True]?;
    let unless = copy_of(alloc, condition)?;
    Ok(Demand {
        kind: RuleKind::Always,
        goal: Goal::Idle { timer },
        when: Listing::new(when),
        unless,
        limits: Listing::new(Vec::new(alloc)),
    })
}

// Returns the demand that the switch is released while the condition is TRUE, in scans before
// which the delays of timers are within the limits.
fn make_early_demand(
    alloc: Global,
    rule: &Rule,
    condition: &[ConditionItem],
    limits: Listing<KnownDelay>,
) -> Result<Demand, AllocError>
    ensures { IfOk result
        (λ demand. demand ≡ spec.release_demand_within rule.now condition.now limits) }
{
    let when = copy_of(alloc, rule.when.as_slice())?;
    let mut unless = Vec::from_slice(alloc, condition)?;
    unless.push(ConditionItem::Not)?;
    Ok(Demand {
        kind: RuleKind::Always,
        goal: Goal::Release {
            switch: rule.switch,
            operation: rule.operation,
        },
        when,
        unless: Listing::new(unless),
        limits,
    })
}

// Returns the demand that a scan with the condition TRUE reaches a goal, in scans before which the
// delays of timers are within the limits.
fn running_demand(
    alloc: Global,
    condition: &[ConditionItem],
    goal: Goal,
    limits: Listing<KnownDelay>,
) -> Result<Demand, AllocError>
    ensures { IfOk result (λ demand. demand ≡ spec.running_demand condition.now goal limits) }
{
    let when = copy_of(alloc, condition)?;
    Ok(Demand {
        kind: RuleKind::Always,
        goal,
        when,
        unless: Listing::new(Vec::new(alloc)),
        limits,
    })
}

// Returns the number of cases by which a demand is met; `None` if it is not proved.
fn cases_needed(
    alloc: Global,
    program: &AuditedProgram<'_>,
    demand: &Demand,
    passes: &mut u32,
) -> Result<Option<u32>, AllocError>
    ensures { IfOk result (λ cases. IsSome cases → IsMet program.now demand.now) }
{
    match answer_demand(alloc, program, demand, passes)? {
        RuleAnswer::Holds { cases } => Ok(Some(cases)),
        _ => Ok(None),
    }
}

// Returns the number of cases by which a timer's delay runs only while a condition is TRUE, and a
// release waits for the delay; `None` if that is not proved.
fn cases_by_timer(
    alloc: Global,
    program: &AuditedProgram<'_>,
    rule: &Rule,
    timing: &Timing,
    timer: usize,
    passes: &mut u32,
) -> Result<Option<u32>, AllocError>
    ensures { IfOk result (λ cases. IsSome cases
        → IsMet program.now (spec.delay_demand rule.now timing.now.time timer)
        × IsMet program.now (spec.idle_timer_demand timing.now.condition timer)) }
{
    let demand = make_late_demand(alloc, rule, timing.time, timer)?;
    let Some(late_demand) = cases_needed(alloc, program, &demand, passes)? else {
        return Ok(None);
    };
    let demand = make_idle_demand(alloc, timing.condition.as_slice(), timer)?;
    let Some(idle_demand) = cases_needed(alloc, program, &demand, passes)? else {
        return Ok(None);
    };
    Ok(Some(late_demand.saturating_add(idle_demand)))
}

// Returns the answer that a timer establishes the rule; `None` if none does. The switch is not
// released without the condition.
fn answer_by_bearing_timer(
    alloc: Global,
    program: &AuditedProgram<'_>,
    rule: &Rule,
    timing: &Timing,
    cases: u32,
    passes: &mut u32,
) -> Result<Option<RuleAnswer>, AllocError>
    requires { IsMet program.now (spec.necessary_demand rule.now timing.now.condition) }
    ensures { IfOk result
        (λ found. IfSome found (IsUntilAnswer program.now rule.now timing.now)) }
{
    for timer in 0..program.image().timers().len() {
        if let Some(more) = cases_by_timer(alloc, program, rule, timing, timer, passes)? {
            return Ok(Some(RuleAnswer::Since {
                timer,
                cases: cases.saturating_add(more),
            }));
        }
    }
    Ok(None)
}

// Answers by the release of the switch: the rule holds if it is never released in a state that the
// rule covers, is broken if it is released too early in a case, or is not decided.
fn answer_by_dependency(
    alloc: Global,
    program: &AuditedProgram<'_>,
    rule: &Rule,
    timing: &Timing,
    passes: &mut u32,
) -> Result<RuleAnswer, AllocError>
    ensures { IfOk result (IsUntilAnswer program.now rule.now timing.now) }
{
    let demand = plain_demand(alloc, rule)?;
    let found = answer_demand(alloc, program, &demand, passes)?;
    if let RuleAnswer::Holds { cases } = found {
        return Ok(RuleAnswer::Holds { cases });
    }
    if let Some(case) = early_case(alloc, program, rule, timing.time, passes)? {
        return Ok(RuleAnswer::Broken { case });
    }
    match found {
        RuleAnswer::Open { case, depends_on } if *passes > 0 => Ok(RuleAnswer::Open {
            case,
            depends_on,
        }),
        _ => Ok(RuleAnswer::TooMany),
    }
}

// Answers a rule that forbids an operation until a condition has held for a time: the rule holds if
// one of the program's timers establishes it.
fn answer_forbidden(
    alloc: Global,
    program: &AuditedProgram<'_>,
    rule: &Rule,
    timing: &Timing,
    passes: &mut u32,
) -> Result<RuleAnswer, AllocError>
    ensures { IfOk result (IsUntilAnswer program.now rule.now timing.now) }
{
    let demand = make_presence_demand(alloc, rule, timing.condition.as_slice())?;
    match answer_demand(alloc, program, &demand, passes)? {
        RuleAnswer::Holds { cases } => {
            if let Some(found) = answer_by_bearing_timer(
                alloc, program, rule, timing, cases, passes,
            )? {
                return Ok(found);
            }
        }
        RuleAnswer::Broken { case } => return Ok(RuleAnswer::Broken { case }),
        _ => {}
    }
    answer_by_dependency(alloc, program, rule, timing, passes)
}

// Returns the number of cases by which a timer's delay begins and lasts while a condition is TRUE;
// `None` if that is not proved.
fn cases_lasting(
    alloc: Global,
    program: &AuditedProgram<'_>,
    condition: &[ConditionItem],
    timer: usize,
    passes: &mut u32,
) -> Result<Option<u32>, AllocError>
    ensures { IfOk result (λ cases. IsSome cases
        → IsMet program.now (spec.begun_demand condition.now timer)
        × IsMet program.now (spec.lasting_demand condition.now timer)) }
{
    let none = Listing::new(Vec::new(alloc));
    let demand = running_demand(alloc, condition, Goal::Begun { timer }, none)?;
    let Some(begun_cases) = cases_needed(alloc, program, &demand, passes)? else {
        return Ok(None);
    };
    let limits = limit_of(alloc, timer, KnownDelay::AtLeast(0))?;
    let demand = running_demand(alloc, condition, Goal::Lasting { timer }, limits)?;
    let Some(lasting_cases) = cases_needed(alloc, program, &demand, passes)? else {
        return Ok(None);
    };
    Ok(Some(begun_cases.saturating_add(lasting_cases)))
}

// Returns the number of cases by which a timer's delay lasts while a condition is TRUE, and the
// switch is released once it has lasted for the time; `None` if that is not proved.
fn cases_due(
    alloc: Global,
    program: &AuditedProgram<'_>,
    rule: &Rule,
    timing: &Timing,
    timer: usize,
    passes: &mut u32,
) -> Result<Option<u32>, AllocError>
    ensures { IfOk result (λ cases. IsSome cases
        → IsDueByTimer program.now rule.now timing.now timer) }
{
    if timing.time == 0 {
        return Ok(None);
    }
    let condition = timing.condition.as_slice();
    let Some(lasting_cases) = cases_lasting(alloc, program, condition, timer, passes)? else {
        return Ok(None);
    };
    let limits = limit_of(alloc, timer, KnownDelay::AtLeast(timing.time))?;
    let demand = make_early_demand(alloc, rule, condition, limits)?;
    let Some(release_cases) = cases_needed(alloc, program, &demand, passes)? else {
        return Ok(None);
    };
    Ok(Some(lasting_cases.saturating_add(release_cases)))
}

// Returns the answer that a timer establishes a rule that requires a release after a condition has
// held for a time; `None` if none does.
fn answer_by_expiring_timer(
    alloc: Global,
    program: &AuditedProgram<'_>,
    rule: &Rule,
    timing: &Timing,
    passes: &mut u32,
) -> Result<Option<RuleAnswer>, AllocError>
    ensures { IfOk result
        (λ found. IfSome found (IsAfterAnswer program.now rule.now timing.now)) }
{
    for timer in 0..program.image().timers().len() {
        if let Some(cases) = cases_due(alloc, program, rule, timing, timer, passes)? {
            return Ok(Some(RuleAnswer::Since { timer, cases }));
        }
    }
    Ok(None)
}

// Answers a rule that requires a release after a condition has held for a time: it holds if the
// condition alone releases the switch, or if one of the program's timers establishes it.
fn answer_required(
    alloc: Global,
    program: &AuditedProgram<'_>,
    rule: &Rule,
    timing: &Timing,
    passes: &mut u32,
) -> Result<RuleAnswer, AllocError>
    ensures { IfOk result (IsAfterAnswer program.now rule.now timing.now) }
{
    let none = Listing::new(Vec::new(alloc));
    let demand = make_early_demand(alloc, rule, timing.condition.as_slice(), none)?;
    let found = answer_demand(alloc, program, &demand, passes)?;
    let RuleAnswer::Open { case, depends_on } = found else {
        return Ok(found);
    };
    if let Some(by) = answer_by_expiring_timer(alloc, program, rule, timing, passes)? {
        return Ok(by);
    }
    if *passes > 0 {
        Ok(RuleAnswer::Open { case, depends_on })
    } else {
        Ok(RuleAnswer::TooMany)
    }
}

/// Answers a rule with a time in at most `passes` passes, and subtracts those that it needed. Fails
/// only if an allocation fails.
pub(crate) fn answer_timed_rule(
    alloc: Global,
    program: &AuditedProgram<'_>,
    rule: &Rule,
    timing: &Timing,
    passes: &mut u32,
) -> Result<RuleAnswer, AllocError>
    ensures { IfOk result (IsTimedAnswer program.now rule.now timing.now) }
{
    match rule.kind {
        RuleKind::Never => answer_forbidden(alloc, program, rule, timing, passes),
        RuleKind::Always => answer_required(alloc, program, rule, timing, passes),
    }
}
