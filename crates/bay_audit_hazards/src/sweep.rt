// Whether an operation is a hazard in a process of some cases.
ghost use Rattle.std.specs.Prelude.{◌≡◌, ◌++◌, ◌∷◌, [], false, true, IfOk, OnOk};
ghost use Rattle.bay_audit.specs.Rules.{case_with_answer};
ghost use Rattle.bay_audit_hazards.specs.Parts as spec;

use crate::answer::{Evaluation, Sweep};
use crate::evaluation::evaluate;
use bay_audit::case::{Case, Test};
use bay_base::switch::Operation;
use bay_config::bay::Bay;
use bay_diagram::network::Network;
use std::alloc::{AllocError, Global};

// Appends the two parts of a case.
fn split(alloc: Global, left: &mut Vec<Case>, case: &Case, test: Test) -> Result<(), AllocError>
    ensures { OnOk result (left.new.items
        ≡ (left.old.items ++ case_with_answer case.now test false ∷ [])
        ++ case_with_answer case.now test true ∷ []) }
{
    left.push(case.with(alloc, test, false)?)?;
    left.push(case.with(alloc, test, true)?)?;
    Ok(())
}

/// Returns whether an operation is a hazard in a process of some cases. A case that does not decide
/// it is split. Each evaluation of a case takes `cost` of the passes; it stops when none is left.
/// Fails only if an allocation fails.
pub fn sweep(
    alloc: Global,
    bay: &Bay,
    network: &Network,
    switch: usize,
    operation: Operation,
    cases: Vec<Case>,
    cost: u32,
    passes: &mut u32,
) -> Result<Sweep, AllocError>
    ensures right { IfOk result (spec.IsSweep network.now switch operation cases.items) }
    ensures sure { IfOk result (spec.IsSureSweep bay.now network.now switch operation) }
{
    let mut left = cases;
    let mut harmless: u32 = 0;
    for _ in 0..*passes {
        if *passes == 0 {
            break;
        }
        let Some(case) = left.pop() else {
            break;
        };
        *passes = passes.saturating_sub(cost);
        match evaluate(alloc, bay, network, switch, operation, &case)? {
            Evaluation::Empty => {}
            Evaluation::Harmless => harmless = harmless.saturating_add(1),
            Evaluation::Hazard => return Ok(Sweep::Hazard { case }),
            Evaluation::Split(test) => split(alloc, &mut left, &case, test)?,
            Evaluation::Unclear => return Ok(Sweep::Undecided),
        }
    }
    if left.as_slice().is_empty() {
        Ok(Sweep::Harmless { cases: harmless })
    } else {
        Ok(Sweep::Undecided)
    }
}
