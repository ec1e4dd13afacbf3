// Where the walks that show a hazard begin and end.
ghost use Rattle.std.specs.Prelude.{◌≡◌, ◌&&◌, ◌||◌, ◌==◌, not, find, option_copied};
ghost use Rattle.bay_diagram.specs.Hazards as hazards;
ghost use Rattle.bay_diagram.specs.Network as networks;
ghost use Rattle.bay_diagram.specs.Reading.{reading_in};
ghost use Rattle.bay_diagram.specs.Shown as spec;
ghost use Rattle.bay_diagram.specs.Walks.{joined_in};
ghost use Rattle.bay_diagram.specs.declared.hazard.Target.TheVariants as targets;

use crate::hazard::{Target, is_target, without};
use crate::network::{Branch, Network, Node};
use crate::reading::Known;
use crate::walk::{Avoid, Over, Route, is_same_label, labels_of};

/// Where a walk ends: at a node, which this earthing switch may earth, if there is one.
#[derive(Clone, Copy)]
pub struct End {
    pub node: u8,
    pub earth: Option<usize>,
}

// Returns the first node that a walk looks for and that has the label of the node at `from`.
fn target_by<'a>(
    network: &'a Network,
    known: &Known,
    switch: &Branch,
    labels: &[u8; 256],
    from: u8,
    target: Target,
) -> Option<&'a Node>
    ensures { option_copied result
        ≡ find (λ x. hazards.is_target network.now (reading_in known.now) switch.now target x
        && joined_in labels.now from x.number) network.now.nodes }
{
    network.nodes.as_slice().iter().find(|node| {
        is_target(network, known, switch, target, node) && is_same_label(labels, from, node.number)
    })
}

// Returns whether a walk looks for the node with a number.
fn is_target_at(
    network: &Network,
    known: &Known,
    switch: &Branch,
    target: Target,
    number: u8,
) -> bool
    ensures { result ≡ spec.is_target_at network.now (reading_in known.now) switch.now target
        number }
{
    network.nodes.as_slice().iter().any(|node| node.number == number
        && is_target(network, known, switch, target, node))
}

/// Returns the number of a node that a walk of the route from the node at `from` looks for: of that
/// node itself, if it may end there.
pub fn target_of(
    network: &Network,
    known: &Known,
    switch: &Branch,
    route: Route,
    from: u8,
    target: Target,
) -> Option<u8>
    ensures { spec.IsFound
        (spec.IsTargetOf network.now (reading_in known.now) switch.now route from target)
        (hazards.reaches network.now (reading_in known.now) switch.now route from target) result }
{
    if is_target_at(network, known, switch, target, from) {
        return Some(from);
    }
    let labels = labels_of(network, known, route);
    match target_by(network, known, switch, &labels, from, target) {
        Some(node) => Some(node.number),
        None => None,
    }
}

// Returns the first earthing switch other than `switch` that may earth a node with the label of the
// node at `from`.
fn earth_by<'a>(
    network: &'a Network,
    known: &Known,
    switch: &Branch,
    labels: &[u8; 256],
    from: u8,
) -> Option<&'a Branch>
    ensures { option_copied result ≡ find (λ c. networks.is_earthing c.kind
        && (not (c.number == switch.now.number) && ((reading_in known.now).may_conduct c.device
        && joined_in labels.now from c.one))) network.now.branches }
{
    network.branches.as_slice().iter().find(|branch| {
        branch.is_earthing()
            && (branch.number != switch.number
                && (known.may_conduct(branch.device) && is_same_label(labels, from, branch.one)))
    })
}

/// Returns an end of a walk of the route from the node at `from`: a node that may be earthed by an
/// earthing switch other than `switch`.
pub fn earth_of(
    network: &Network,
    known: &Known,
    switch: &Branch,
    route: Route,
    from: u8,
) -> Option<End>
    ensures { spec.IsFound
        (spec.IsEndOf network.now (reading_in known.now) switch.now route from
        (spec.ends_at_earth network.now (reading_in known.now) switch.now))
        (hazards.reaches_earth network.now (reading_in known.now) switch.now route from) result }
{
    let labels = labels_of(network, known, route);
    match earth_by(network, known, switch, &labels, from) {
        Some(branch) => Some(End {
            node: branch.one,
            earth: Some(branch.number),
        }),
        None => None,
    }
}

/// Returns an end of a walk of the route from the node at `from`: a terminal, or else a node that
/// may be earthed by an earthing switch other than `switch`.
pub fn current_end_of(
    network: &Network,
    known: &Known,
    switch: &Branch,
    route: Route,
    from: u8,
) -> Option<End>
    ensures { spec.IsFound
        (spec.IsEndOf network.now (reading_in known.now) switch.now route from
        (spec.ends_current network.now (reading_in known.now) switch.now))
        (hazards.reaches network.now (reading_in known.now) switch.now route from targets.Terminal
        || hazards.reaches_earth network.now (reading_in known.now) switch.now route from) result }
{
    match target_of(network, known, switch, route, from, Target::Terminal) {
        Some(node) => Some(End { node, earth: None }),
        None => earth_of(network, known, switch, route, from),
    }
}

// Returns the first source that an earthing switch would earth, though no gap parts them.
fn unearthable_by<'a>(
    network: &'a Network,
    known: &Known,
    switch: &Branch,
    gapless: &[u8; 256],
    inseparable: &[u8; 256],
) -> Option<&'a Node>
    ensures { option_copied result ≡ find (λ x. x.is_source
        && (joined_in gapless.now switch.now.one x.number
        && ((reading_in known.now).may_be_false x.dead
        || not (joined_in inseparable.now switch.now.one x.number)))) network.now.nodes }
{
    network.nodes.as_slice().iter().find(|node| {
        node.is_source
            && (is_same_label(gapless, switch.one, node.number)
                && (known.may_be_false(node.dead)
                    || !is_same_label(inseparable, switch.one, node.number)))
    })
}

/// Returns the number of a source that an earthing switch would earth, though no gap parts them.
pub fn unearthable_of(network: &Network, known: &Known, switch: &Branch) -> Option<u8>
    ensures { spec.IsFound (spec.IsUnearthable network.now (reading_in known.now) switch.now)
        (hazards.earths network.now (reading_in known.now) switch.now) result }
{
    let gapless = labels_of(
        network,
        known,
        without(Over::Gapless, switch, Avoid::Nothing),
    );
    let inseparable = labels_of(
        network,
        known,
        without(Over::Inseparable, switch, Avoid::Nothing),
    );
    match unearthable_by(network, known, switch, &gapless, &inseparable) {
        Some(node) => Some(node.number),
        None => None,
    }
}
