// Chooses the test by which a case is split if the operation is a hazard in some of its processes.
// Any test is sound, so no clause says which one it is.
use bay_audit::case::{Case, Test};
use bay_base::position::Dbpos;
use bay_diagram::network::{Device, Network};
use bay_diagram::shown::{HazardKind, ShownHazard, ShownWalk};
use il_range::range::Positions;

// The positions that are not open. The part of a case with these is judged first: most hazards come
// from switches that are closed.
const NOT_OFF: Positions = Positions {
    intermediate: true,
    off: false,
    on: true,
    bad: true,
};

const ON: Positions = Positions {
    intermediate: false,
    off: false,
    on: true,
    bad: false,
};

// Returns the test of a switch of the bay: whether it is open, or else whether it is closed. A
// switch in any other position is known to be neither.
fn position_test(case: &Case, switch: usize) -> Option<Test> {
    let off = case.may_be(switch, Dbpos::Off);
    let on = case.may_be(switch, Dbpos::On);
    let neither = case.may_be(switch, Dbpos::Intermediate) || case.may_be(switch, Dbpos::Bad);
    if off && (on || neither) {
        Some(Test::Position {
            switch,
            positions: NOT_OFF,
        })
    } else if on && neither {
        Some(Test::Position {
            switch,
            positions: ON,
        })
    } else {
        None
    }
}

// Returns the test of an input that may be missing; `None` if the case decides it.
fn input_test(case: &Case, input: Option<usize>) -> Option<Test> {
    let input = input?;
    if case.input_may(input, true) && case.input_may(input, false) {
        Some(Test::Input { input })
    } else {
        None
    }
}

// Returns the first test of what is known of a switch.
fn device_test(case: &Case, device: Device) -> Option<Test> {
    match device {
        Device::Own { switch } => position_test(case, switch),
        Device::Other {
            closed_input,
            open_input,
        } => input_test(case, closed_input).or_else(|| input_test(case, open_input)),
    }
}

// Returns the first test of what is known of the branch with a number.
fn branch_test(case: &Case, network: &Network, number: usize) -> Option<Test> {
    let branch = network
        .branches
        .as_slice()
        .iter()
        .find(|branch| branch.number == number)?;
    device_test(case, branch.device)
}

// Returns whether the position of a branch counts in a hazard that is shown: not that of the switch
// itself, and where a gap is wanted, only that of what is one.
fn counts(network: &Network, shown: &ShownHazard, number: usize) -> bool {
    let is_gap = match shown.kind {
        HazardKind::Earths | HazardKind::Bridges => network
            .branches
            .as_slice()
            .iter()
            .any(|branch| branch.number == number && branch.isolates),
        HazardKind::Breaks
        | HazardKind::Makes
        | HazardKind::Leaves
        | HazardKind::Joins
        | HazardKind::Uncouples
        | HazardKind::Unearths => true,
    };
    number != shown.switch && is_gap
}

// Returns the first test of the switches that a walk leads over.
fn walk_test(
    case: &Case,
    network: &Network,
    shown: &ShownHazard,
    walk: &ShownWalk,
) -> Option<Test> {
    for step in walk.steps.as_slice() {
        if counts(network, shown, step.branch) {
            let test = branch_test(case, network, step.branch);
            if test.is_some() {
                return test;
            }
        }
    }
    None
}

// Returns the test of the input that lets the breaker of a hazard close between two live parts.
fn synchro_test(case: &Case, network: &Network, shown: &ShownHazard) -> Option<Test> {
    let branch = network
        .branches
        .as_slice()
        .iter()
        .find(|branch| branch.number == shown.switch)?;
    match shown.kind {
        HazardKind::Joins => input_test(case, branch.synchro),
        _ => None,
    }
}

// Returns the first test of the switches and the input that a hazard is shown by.
fn shown_test(case: &Case, network: &Network, shown: &ShownHazard) -> Option<Test> {
    let test = synchro_test(case, network, shown).or_else(|| walk_test(
        case,
        network,
        shown,
        &shown.walk,
    ));
    if test.is_some() {
        return test;
    }
    match (shown.other, shown.earth, &shown.beside) {
        (Some(other), _, Some(beside)) => {
            branch_test(case, network, other).or(walk_test(case, network, shown, beside))
        }
        (Some(other), _, None) => branch_test(case, network, other),
        (None, Some(earth), _) => branch_test(case, network, earth),
        (None, None, _) => None,
    }
}

// Returns the first test of the diagram's switches, or else of its sources, that the case leaves
// open.
fn first_test(case: &Case, network: &Network) -> Option<Test> {
    network
        .branches
        .as_slice()
        .iter()
        .find_map(|branch| device_test(case, branch.device))
        .or_else(|| {
            network
                .nodes
                .as_slice()
                .iter()
                .find_map(|node| input_test(case, node.dead))
        })
}

/// Returns a test that the case leaves open: of the switches by which the hazard is shown, or else
/// of the diagram's switches and sources.
pub fn open_test(case: &Case, network: &Network, shown: &Option<ShownHazard>) -> Option<Test> {
    let test = match shown {
        Some(shown) => shown_test(case, network, shown),
        None => None,
    };
    match test {
        Some(test) => Some(test),
        None => first_test(case, network),
    }
}
