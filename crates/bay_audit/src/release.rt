// The cases in which each switch is released, in each direction.
ghost use Rattle.std.specs.Prelude.{◌≡◌, IfOk, OnOk, length, map};
ghost use Rattle.bay_audit.specs.Effort.{IsSpent};
ghost use Rattle.bay_audit.specs.Process.{IsLost};
ghost use Rattle.bay_audit.specs.Rules.{AreReleases, IsRelease, IsRightFor, IsFirstRelease, IsReleaseOrTest, direction_of, directions};
ghost use Rattle.bay_audit.specs.Rules as spec;

use crate::answer::{CaseRelease, Release, ReportedCase, RuleVerdict, Verdict};
use crate::audit::split;
use crate::case::{Case, Test};
use crate::demand::{Demand, Goal};
use crate::effort::PassBudget;
use crate::program::AuditedProgram;
use crate::split::dependencies_of;
use crate::truth_set::TruthSet;
use crate::verdict::{find_verdict, input_ranges, release_range, run_pass};
use bay_audit_rules::rule::{ConditionItem, RuleKind};
use bay_base::listing::Listing;
use bay_base::switch::Operation;
use bay_config::bay::Bay;
use il_range::range::Range;
use std::alloc::{AllocError, Global};

// Returns the demand that a switch is always released in a direction.
fn make_release_demand(
    alloc: Global,
    switch: usize,
    operation: Operation,
) -> Result<Demand, AllocError>
    ensures { IfOk result (λ demand. demand ≡ spec.release_demand switch operation) }
{
    let when = vec![in alloc; ConditionItem::True]?;
    Ok(Demand {
        kind: RuleKind::Always,
        goal: Goal::Release { switch, operation },
        when: Listing::new(when),
        unless: Listing::new(Vec::new(alloc)),
        limits: Listing::new(Vec::new(alloc)),
    })
}

// Returns the release that a verdict on that demand means, or the test by which to split the case.
fn release_or_test(verdict: Verdict) -> Result<CaseRelease, Test>
    ensures { IsReleaseOrTest verdict result }
{
    match verdict {
        Verdict::Obeyed => Ok(CaseRelease::Released),
        Verdict::Broken => Ok(CaseRelease::Refused),
        Verdict::Open(depends_on) => Ok(CaseRelease::Depends(depends_on)),
        Verdict::Split(test) => Err(test),
    }
}

// Returns the release while the process is lost, by the verdict of one pass.
fn lost_release(
    alloc: Global,
    bay: &Bay,
    program: &AuditedProgram<'_>,
    switch: usize,
    operation: Operation,
) -> Result<CaseRelease, AllocError>
    ensures { IfOk result (IsRightFor (IsLost bay.now) program.now switch operation) }
{
    let demand = make_release_demand(alloc, switch, operation)?;
    let case = Case::lost(
        alloc,
        bay.switches.as_slice().len(),
        bay.inputs.as_slice().len(),
    )?;
    let covered = TruthSet {
        yes: true,
        no: false,
    };
    let (decision, prediction) = run_pass(alloc, program, &demand, &case, covered)?;
    match decision {
        RuleVerdict::Obeyed => Ok(CaseRelease::Released),
        RuleVerdict::Missed => Ok(CaseRelease::Refused),
        RuleVerdict::Unknown => {
            let depends_on = dependencies_of(alloc, program, demand.goal, &prediction)?;
            Ok(CaseRelease::Depends(depends_on))
        }
    }
}

// Returns the release by the first scan, by one pass with any process.
fn start_release(
    alloc: Global,
    program: &AuditedProgram<'_>,
    switch: usize,
    operation: Operation,
) -> Result<CaseRelease, AllocError>
    ensures { IfOk result (IsFirstRelease program.now switch operation) }
{
    let case = Case::new(alloc);
    let given = input_ranges(alloc, &case, program.reads())?;
    let prediction = program.first_scan(alloc, given.as_slice())?;
    let ranges = prediction.ranges.as_slice();
    match release_range(alloc, program, switch, operation, ranges)? {
        Range::Yes => Ok(CaseRelease::Released),
        Range::No => Ok(CaseRelease::Refused),
        _ => {
            let goal = Goal::Release { switch, operation };
            let depends_on = dependencies_of(alloc, program, goal, &prediction)?;
            Ok(CaseRelease::Depends(depends_on))
        }
    }
}

/// Returns the cases in which a switch is released in a direction, in its share of the passes that
/// are left. Leaves the passes that it did not need to the answers after it. Fails only if an
/// allocation fails.
pub fn find_release(
    alloc: Global,
    bay: &Bay,
    program: &AuditedProgram<'_>,
    switch: usize,
    operation: Operation,
    budget: &mut PassBudget,
) -> Result<Release, AllocError>
    // The cases are right and disjoint, each has a process, and together with those that are left
    // they cover all processes; the release while the process is lost is right, and so is that by
    // the first scan;
    ensures right { IfOk result (IsRelease bay.now program.now) }
    // It is the release of this switch in this direction;
    ensures way { IfOk result (λ r. direction_of r ≡ record { 0 = switch; 1 = operation }) }
    // It made at most its share of the passes, and one answer less shares the others.
    ensures shared { OnOk result (IsSpent budget.old budget.new) }
{
    let demand = make_release_demand(alloc, switch, operation)?;
    let mut left = Case::all(alloc)?;
    let mut cases = Vec::new(alloc);
    let share = budget.share();
    let mut passes = share;
    for _ in 0..share {
        let Some(case) = left.pop() else {
            break;
        };
        passes = passes.saturating_sub(1);
        match release_or_test(find_verdict(alloc, program, &demand, &case)?) {
            Ok(release) => cases.push(ReportedCase { case, release })?,
            Err(test) => split(alloc, &mut left, &case, test)?,
        }
    }
    budget.spend(share.saturating_sub(passes));
    Ok(Release {
        switch,
        operation,
        cases,
        left,
        lost: lost_release(alloc, bay, program, switch, operation)?,
        start: start_release(alloc, program, switch, operation)?,
    })
}

/// Returns the cases in which each switch of a bay is released, opening first, each in its share of
/// the passes that are left. Fails only if an allocation fails.
pub fn find_releases(
    alloc: Global,
    bay: &Bay,
    program: &AuditedProgram<'_>,
    budget: &mut PassBudget,
) -> Result<Vec<Release>, AllocError>
    ensures right { IfOk result
        (λ releases. AreReleases bay.now program.now releases.items) }
    ensures all { IfOk result (λ releases. map direction_of releases.items
        ≡ directions (length bay.now.switches)) }
{
    let mut releases = Vec::new(alloc);
    for switch in 0..bay.switches.as_slice().len() {
        releases.push(find_release(alloc, bay, program, switch, Operation::Open, budget)?)?;
        releases.push(find_release(alloc, bay, program, switch, Operation::Close, budget)?)?;
    }
    Ok(releases)
}
