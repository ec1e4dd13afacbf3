// Whether an operation is a hazard in the processes of a case: in none, if it is none in the worst
// that can be known in the case; in each, if it is one in the best.
ghost use Rattle.std.specs.Prelude.{◌≡◌, IfOk};
ghost use Rattle.bay_audit_hazards.specs.Parts as spec;

use crate::answer::Evaluation;
use crate::split::open_test;
use bay_audit::case::Case;
use bay_base::listing::Listing;
use bay_base::position::Dbpos;
use bay_base::switch::Operation;
use bay_config::bay::Bay;
use bay_diagram::hazard::is_hazard;
use bay_diagram::network::Network;
use bay_diagram::reading::{Bound, InputSet, Known, PositionSet};
use bay_diagram::show::show;
use std::alloc::{AllocError, Global};

// Returns the positions that each of the first `switches` switches may have in the case.
fn positions_in(alloc: Global, case: &Case, switches: usize) -> Result<Vec<PositionSet>, AllocError>
    ensures { IfOk result (λ sets. spec.AllowPositions case.now switches sets.items) }
{
    let mut sets = Vec::new(alloc);
    for switch in 0..switches {
        sets.push(PositionSet {
            intermediate: case.may_be(switch, Dbpos::Intermediate),
            off: case.may_be(switch, Dbpos::Off),
            on: case.may_be(switch, Dbpos::On),
            bad: case.may_be(switch, Dbpos::Bad),
        })?;
    }
    Ok(sets)
}

// Returns the values that each of the first `inputs` inputs may have in the case.
fn inputs_in(alloc: Global, case: &Case, inputs: usize) -> Result<Vec<InputSet>, AllocError>
    ensures { IfOk result (λ sets. spec.AllowInputs case.now inputs sets.items) }
{
    let mut sets = Vec::new(alloc);
    for input in 0..inputs {
        sets.push(InputSet {
            yes: case.input_may(input, true),
            no: case.input_may(input, false),
        })?;
    }
    Ok(sets)
}

/// Returns the worst that can be known in the case, or the best. Fails only if an allocation fails.
pub fn known_in(alloc: Global, bay: &Bay, case: &Case, bound: Bound) -> Result<Known, AllocError>
    ensures { IfOk result (spec.IsKnown bay.now bound case.now) }
{
    let switches = bay.switches.as_slice().len();
    let inputs = bay.inputs.as_slice().len();
    Ok(Known {
        bound,
        positions: Listing::new(positions_in(alloc, case, switches)?),
        inputs: Listing::new(inputs_in(alloc, case, inputs)?),
    })
}

/// Returns whether an operation is a hazard in the processes of a case. Fails only if an allocation
/// fails.
pub fn evaluate(
    alloc: Global,
    bay: &Bay,
    network: &Network,
    switch: usize,
    operation: Operation,
    case: &Case,
) -> Result<Evaluation, AllocError>
    ensures right { IfOk result (spec.IsEvaluated network.now switch operation case.now) }
    ensures sure { IfOk result (spec.IsSure bay.now network.now switch operation case.now) }
{
    if !case.has_example() {
        return Ok(Evaluation::Empty);
    }
    let worst = known_in(alloc, bay, case, Bound::Worst)?;
    if !is_hazard(network, &worst, switch, operation) {
        return Ok(Evaluation::Harmless);
    }
    let best = known_in(alloc, bay, case, Bound::Best)?;
    if is_hazard(network, &best, switch, operation) {
        return Ok(Evaluation::Hazard);
    }
    let shown = show(alloc, network, &worst, switch, operation)?;
    match open_test(case, network, &shown) {
        Some(test) => Ok(Evaluation::Split(test)),
        None => Ok(Evaluation::Unclear),
    }
}
