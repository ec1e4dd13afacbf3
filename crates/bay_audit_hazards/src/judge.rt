// Judges a release of a bay's program by the hazards in a single line diagram.
ghost use Rattle.std.specs.Prelude.{IfOk, OnOk};
ghost use Rattle.bay_audit.specs.Effort.{IsSpent};
ghost use Rattle.bay_audit.specs.Rules.{IsRelease};
ghost use Rattle.bay_audit_hazards.specs.Judged.{IsHazardAnswer, IsSureAnswer};
ghost use Rattle.bay_audit_hazards.specs.Parts as spec;

use crate::answer::{HazardAnswer, Sweep};
use crate::sweep::sweep;
use bay_audit::answer::{CaseRelease, Release, ReportedCase};
use bay_audit::case::Case;
use bay_audit::effort::PassBudget;
use bay_audit::program::AuditedProgram;
use bay_config::bay::Bay;
use bay_diagram::network::Network;
use std::alloc::{AllocError, Global};

// A million octets of code, by which an effort is counted.
const MILLION: u64 = 1_000_000;

// The looks at a branch or a node that take the time of one octet of code.
const LOOKS: u64 = 16;

// Returns how many passes over the program an evaluation counts for. At worst it makes some walks
// for each disconnector, each over all branches, and looks at nodes for each of them.
fn evaluation_cost(program: &AuditedProgram<'_>, network: &Network) -> u32 {
    let branches = network.branches.as_slice();
    let disconnectors = branches
        .iter()
        .filter(|branch| branch.is_disconnector())
        .count() as u64;
    let count = branches.len() as u64;
    let nodes = network.nodes.as_slice().len() as u64;
    let looks = disconnectors
        .saturating_add(1)
        .saturating_mul(count)
        .saturating_mul(count.saturating_add(nodes));
    let passes = u64::from(PassBudget::new(program.image(), 1, 1).passes);
    let cost = (looks / LOOKS).saturating_mul(passes) / MILLION;
    u32::try_from(cost.saturating_add(1)).unwrap_or(u32::MAX)
}

// Returns the cases in which the switch is released, and those in which no test decides that.
fn split_by_release(
    alloc: Global,
    cases: Vec<ReportedCase>,
) -> Result<(Vec<Case>, Vec<Case>), AllocError>
    ensures { IfOk result (λ both. spec.AreSplit cases.items both.0.items both.1.items) }
{
    let mut cases = cases;
    let mut released = Vec::new(alloc);
    let mut undecided = Vec::new(alloc);
    while let Some(reported) = cases.pop() {
        match reported.release {
            CaseRelease::Released => released.push(reported.case)?,
            CaseRelease::Refused => {}
            CaseRelease::Depends(_) => undecided.push(reported.case)?,
        }
    }
    Ok((released, undecided))
}

// Judges a release, and subtracts the passes that it needed.
fn judge_within(
    alloc: Global,
    bay: &Bay,
    program: &AuditedProgram<'_>,
    network: &Network,
    release: Release,
    passes: &mut u32,
) -> Result<HazardAnswer, AllocError>
    requires { IsRelease bay.now program.now release }
    ensures right { IfOk result
        (IsHazardAnswer program.now network.now release.switch release.operation) }
    ensures sure { IfOk result
        (IsSureAnswer bay.now network.now release.switch release.operation) }
{
    let Release {
        switch,
        operation,
        cases,
        left,
        ..
    } = release;
    let cost = evaluation_cost(program, network);
    let (released, undecided) = split_by_release(alloc, cases)?;
    let first = match sweep(
        alloc, bay, network, switch, operation, released, cost, passes,
    )? {
        Sweep::Harmless { cases } => cases,
        Sweep::Hazard { case } => return Ok(HazardAnswer::Broken { case }),
        Sweep::Undecided => return Ok(HazardAnswer::Undecided),
    };
    let second = match sweep(
        alloc, bay, network, switch, operation, undecided, cost, passes,
    )? {
        Sweep::Harmless { cases } => cases,
        Sweep::Hazard { case } => return Ok(HazardAnswer::Open { case }),
        Sweep::Undecided => return Ok(HazardAnswer::Undecided),
    };
    match sweep(alloc, bay, network, switch, operation, left, cost, passes)? {
        Sweep::Harmless { cases } => Ok(HazardAnswer::Holds {
            cases: first.saturating_add(second).saturating_add(cases),
        }),
        Sweep::Hazard { .. } | Sweep::Undecided => Ok(HazardAnswer::Undecided),
    }
}

/// Judges a release by the hazards in a single line diagram, in its share of the passes that are
/// left. Leaves the passes that it did not need to the answers after it. Fails only if an
/// allocation fails.
pub fn judge(
    alloc: Global,
    bay: &Bay,
    program: &AuditedProgram<'_>,
    network: &Network,
    release: Release,
    budget: &mut PassBudget,
) -> Result<HazardAnswer, AllocError>
    // The release is right: `bay_audit::release` found it.
    requires { IsRelease bay.now program.now release }
    // The answer is right. If it holds, then for every process in which the operation is a hazard
    // no scan releases the switch, in each state that the program can reach. If it is broken, the
    // case has a process, and for each process of the case the operation is a hazard and each scan
    // releases the switch, in each such state;
    ensures right { IfOk result
        (IsHazardAnswer program.now network.now release.switch release.operation) }
    // If the answer has a case, the operation is a hazard in the best that can be known in it: so
    // `explain` shows this hazard.
    ensures sure { IfOk result
        (IsSureAnswer bay.now network.now release.switch release.operation) }
    // It made at most its share of the passes, and one answer less shares the others.
    ensures shared { OnOk result (IsSpent budget.old budget.new) }
{
    let share = budget.share();
    let mut passes = share;
    let found = judge_within(alloc, bay, program, network, release, &mut passes)?;
    budget.spend(share.saturating_sub(passes));
    Ok(found)
}
