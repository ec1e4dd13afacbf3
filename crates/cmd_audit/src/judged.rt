// The releases of a bay's switches, judged by the hazards in its single line diagram.
ghost use Rattle.std.specs.Prelude.{◌≡◌, IfOk, length, map};
ghost use Rattle.std.specs.List.{list_all};
ghost use Rattle.bay_audit.specs.Rules.{directions};
ghost use Rattle.cmd_audit.specs.Judged.{AreJudged, IsExplainedAnswer, IsJudgedRelease, judged_way};
ghost use Rattle.cmd_audit.specs.Judged as spec;

use bay_audit::effort::PassBudget;
use bay_audit::program::AuditedProgram;
use bay_audit::release::find_release;
use bay_audit_hazards::answer::HazardAnswer;
use bay_audit_hazards::explain::explain;
use bay_audit_hazards::judge::judge;
use bay_base::switch::Operation;
use bay_config::bay::Bay;
use bay_diagram::network::Network;
use bay_diagram::shown::ShownHazard;
use bay_load::loaded::Loaded;
use std::alloc::{AllocError, Global};

/// The release of a switch in a direction, judged by the hazards in a diagram.
#[derive(Drop)]
pub struct JudgedRelease {
    pub switch: usize,
    pub operation: Operation,
    pub answer: HazardAnswer,
    /// A hazard in the case of the answer, if it has one.
    pub shown: Option<ShownHazard>,
}

/// Returns each switch of a bay with each operation, opening first. Fails only if an allocation
/// fails.
pub(crate) fn ways_of(alloc: Global, bay: &Bay) -> Result<Vec<(usize, Operation)>, AllocError>
    ensures { IfOk result (λ these. these.items ≡ directions (length bay.now.switches)) }
{
    let mut these = Vec::new(alloc);
    for switch in 0..bay.switches.as_slice().len() {
        these.push((switch, Operation::Open))?;
        these.push((switch, Operation::Close))?;
    }
    Ok(these)
}

/// Returns the passes that an audit of a diagram may make: two answers for each release, the
/// release itself and whether it is a hazard.
pub(crate) fn budget_of(loaded: &Loaded, effort: u32, releases: usize) -> PassBudget {
    PassBudget::new(
        loaded.verified().image(),
        effort,
        releases.saturating_mul(2),
    )
}

// Returns what is shown of the answer to a release.
fn shown_of(
    alloc: Global,
    bay: &Bay,
    network: &Network,
    way: (usize, Operation),
    answer: &HazardAnswer,
) -> Result<Option<ShownHazard>, AllocError>
    ensures { IfOk result (IsExplainedAnswer bay.now network.now way.0 way.1 answer.now) }
{
    match answer {
        HazardAnswer::Broken { case } | HazardAnswer::Open { case } => {
            explain(alloc, bay, network, way.0, way.1, case)
        }
        HazardAnswer::Holds { .. } | HazardAnswer::Undecided => Ok(None),
    }
}

/// Judges the release of a switch in a direction. Fails only if an allocation fails.
pub(crate) fn judge_release(
    alloc: Global,
    bay: &Bay,
    program: &AuditedProgram<'_>,
    network: &Network,
    way: (usize, Operation),
    budget: &mut PassBudget,
) -> Result<JudgedRelease, AllocError>
    ensures right { IfOk result (IsJudgedRelease program.now network.now) }
    ensures way { IfOk result (λ r. judged_way r ≡ way) }
{
    let found = find_release(alloc, bay, program, way.0, way.1, budget)?;
    let answer = judge(alloc, bay, program, network, found, budget)?;
    let shown = shown_of(alloc, bay, network, way, &answer)?;
    Ok(JudgedRelease {
        switch: way.0,
        operation: way.1,
        answer,
        shown,
    })
}

/// Judges the releases of a bay's switches. Fails only if an allocation fails.
pub(crate) fn judge_releases(
    alloc: Global,
    bay: &Bay,
    program: &AuditedProgram<'_>,
    network: &Network,
    ways: &[(usize, Operation)],
    budget: &mut PassBudget,
) -> Result<Vec<JudgedRelease>, AllocError>
    ensures right { IfOk result (λ releases. AreJudged program.now network.now releases.items) }
    ensures all { IfOk result (λ releases. map judged_way releases.items ≡ ways.now) }
{
    let mut releases = Vec::new(alloc);
    for way in ways {
        releases.push(judge_release(alloc, bay, program, network, *way, budget)?)?;
    }
    Ok(releases)
}

/// Returns whether a release holds.
pub(crate) fn is_safe(release: &JudgedRelease) -> bool
    ensures { result ≡ spec.is_safe release.now }
{
    match release.answer {
        HazardAnswer::Holds { .. } => true,
        HazardAnswer::Broken { .. } | HazardAnswer::Open { .. } | HazardAnswer::Undecided => false,
    }
}

/// Returns whether each release holds.
pub(crate) fn are_safe(releases: &[JudgedRelease]) -> bool
    ensures { result ≡ list_all spec.is_safe releases.now }
{
    releases.iter().all(|release| is_safe(release))
}
