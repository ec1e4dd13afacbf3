// Two bays of examples/07_diagrams, and what is known of them.
use bay_base::listing::Listing;
use bay_base::switch::SwitchKind;
use bay_diagram::network::{Branch, Checks, Device, Network, Node, NodeKind};
use bay_diagram::reading::{Bound, InputSet, Known, PositionSet};
use std::alloc::{AllocError, Global};

// A diagram that selects no further hazards.
const NO_CHECKS: Checks = Checks {
    live_parts: false,
    fed_earths: false,
};

// Returns a node.
fn node(number: u8, kind: NodeKind, is_source: bool, dead: Option<usize>) -> Node {
    Node {
        number,
        kind,
        is_source,
        dead,
    }
}

// Returns a branch. A disconnector isolates.
fn branch(number: usize, one: u8, other: u8, kind: SwitchKind, device: Device) -> Branch {
    Branch {
        number,
        one,
        other,
        kind,
        isolates: kind == SwitchKind::Disconnector,
        synchro: None,
        is_coupler: false,
        device,
    }
}

// Returns the switch of the bay at an index.
fn own(switch: usize) -> Device {
    Device::Own { switch }
}

// Returns a switch of another bay.
fn other(closed_input: Option<usize>, open_input: Option<usize>) -> Device {
    Device::Other {
        closed_input,
        open_input,
    }
}

// Returns the line bay.
pub fn line_bay(alloc: Global) -> Result<Network, AllocError> {
    let nodes = vec![in alloc;
        node(0, NodeKind::Busbar, true, None),
        node(1, NodeKind::Busbar, true, None),
        node(2, NodeKind::Line, true, Some(0)),
        node(3, NodeKind::Junction, false, None),
        node(4, NodeKind::Junction, false, None),
        node(5, NodeKind::Junction, false, None),
        node(6, NodeKind::Junction, false, None),
    ]?;
    let branches = vec![in alloc;
        branch(0, 0, 3, SwitchKind::Disconnector, own(1)),
        branch(1, 3, 4, SwitchKind::Breaker, own(0)),
        branch(2, 4, 2, SwitchKind::Disconnector, own(3)),
        branch(3, 2, 1, SwitchKind::Disconnector, own(2)),
        branch(4, 3, 3, SwitchKind::Earthing, own(4)),
        branch(5, 4, 4, SwitchKind::Earthing, own(5)),
        branch(6, 2, 2, SwitchKind::Earthing, own(6)),
        branch(7, 0, 5, SwitchKind::Disconnector, other(Some(3), None)),
        branch(8, 5, 6, SwitchKind::Breaker, other(Some(1), Some(2))),
        branch(9, 6, 1, SwitchKind::Disconnector, other(Some(4), None)),
    ]?;
    Ok(Network {
        nodes: Listing::new(nodes),
        branches: Listing::new(branches),
        checks: NO_CHECKS,
    })
}

// Returns the transformer bay.
pub fn transformer_bay(alloc: Global) -> Result<Network, AllocError> {
    let nodes = vec![in alloc;
        node(0, NodeKind::Busbar, true, None),
        node(1, NodeKind::Busbar, true, None),
        node(2, NodeKind::Junction, false, None),
        node(3, NodeKind::Transformer, false, None),
        node(4, NodeKind::Junction, false, None),
        node(5, NodeKind::Busbar, true, None),
    ]?;
    let branches = vec![in alloc;
        branch(0, 0, 2, SwitchKind::Disconnector, own(1)),
        branch(1, 1, 2, SwitchKind::Disconnector, own(2)),
        branch(2, 2, 3, SwitchKind::Breaker, own(0)),
        branch(3, 2, 2, SwitchKind::Earthing, own(3)),
        branch(4, 3, 3, SwitchKind::Earthing, own(4)),
        branch(5, 3, 4, SwitchKind::Breaker, other(Some(0), Some(1))),
        branch(6, 4, 5, SwitchKind::Disconnector, other(Some(2), Some(3))),
        branch(7, 0, 1, SwitchKind::Breaker, other(Some(4), None)),
    ]?;
    Ok(Network {
        nodes: Listing::new(nodes),
        branches: Listing::new(branches),
        checks: NO_CHECKS,
    })
}

// Returns the positions that a character means: open, closed, intermediate, bad, or any.
fn positions_of(character: u8) -> PositionSet {
    PositionSet {
        intermediate: character == b'i' || character == b'*',
        off: character == b'o' || character == b'*',
        on: character == b'c' || character == b'*',
        bad: character == b'b' || character == b'*',
    }
}

// Returns the values that a character means: FALSE, TRUE, or either.
fn values_of(character: u8) -> InputSet {
    InputSet {
        yes: character == b'1' || character == b'*',
        no: character == b'0' || character == b'*',
    }
}

/// Returns what is known, by a character for each switch and each input.
pub fn known_of(
    alloc: Global,
    bound: Bound,
    switches: &str,
    inputs: &str,
) -> Result<Known, AllocError> {
    let positions = switches
        .as_bytes()
        .iter()
        .map(|character| positions_of(*character))
        .collect(alloc)?;
    let values = inputs
        .as_bytes()
        .iter()
        .map(|character| values_of(*character))
        .collect(alloc)?;
    Ok(Known {
        bound,
        positions: Listing::new(positions),
        inputs: Listing::new(values),
    })
}
