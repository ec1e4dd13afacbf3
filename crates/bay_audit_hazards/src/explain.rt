// Shows the hazard of an operation in the processes of a case.
ghost use Rattle.std.specs.Prelude.{IfOk};
ghost use Rattle.bay_audit_hazards.specs.Judged.{IsExplained};

use crate::evaluation::known_in;
use bay_audit::case::Case;
use bay_base::switch::Operation;
use bay_config::bay::Bay;
use bay_diagram::network::Network;
use bay_diagram::reading::Bound;
use bay_diagram::show::show;
use bay_diagram::shown::ShownHazard;
use std::alloc::{AllocError, Global};

/// Returns the hazard that an operation is in each process of a case, with the walks that show it;
/// `None` if it is none in the best that can be known in the case. It is never `None` for the case
/// of an answer of `judge`. Fails only if an allocation fails.
pub fn explain(
    alloc: Global,
    bay: &Bay,
    network: &Network,
    switch: usize,
    operation: Operation,
    case: &Case,
) -> Result<Option<ShownHazard>, AllocError>
    // In each process of the case the hazard that is shown is one of the operation, and each walk
    // leads over branches of the network that its definition lets it lead over, one after the
    // other, between the nodes that the definition names. Nothing is shown only if the operation is
    // no hazard in the best that can be known in the case.
    ensures { IfOk result (IsExplained bay.now network.now switch operation case.now) }
{
    let known = known_in(alloc, bay, case, Bound::Best)?;
    show(alloc, network, &known, switch, operation)
}
