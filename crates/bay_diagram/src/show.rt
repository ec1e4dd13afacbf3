// Shows a hazard: finds the walks that its definition is about.
ghost use Rattle.std.specs.Prelude.{◌≡◌, ◌&&◌, ◌||◌, IfOk, find, option_copied};
ghost use Rattle.bay_diagram.specs.Hazards as hazards;
ghost use Rattle.bay_diagram.specs.Network as networks;
ghost use Rattle.bay_diagram.specs.Reading.{reading_in};
ghost use Rattle.bay_diagram.specs.Shown as spec;
ghost use Rattle.bay_diagram.specs.Walks.{leads};
ghost use Rattle.bay_diagram.specs.declared.hazard.Target.TheVariants as targets;
ghost use Rattle.bay_diagram.specs.declared.shown.HazardKind.TheVariants as kinds;
ghost use Rattle.bay_diagram.specs.declared.walk.Avoid.TheVariants as avoids;
ghost use Rattle.bay_diagram.specs.declared.walk.Over.TheVariants as overs;

use crate::ends::{current_end_of, earth_of, target_of, unearthable_of};
use crate::hazard::{
    Target, breaks, bridges, earths, endangers, joins_parts, leaves_any, makes_any, uncouples,
    unearths, without,
};
use crate::moving::{show_leaves, show_makes};
use crate::network::{Branch, Network};
use crate::path::{walk_along, walk_through};
use crate::reading::Known;
use crate::shown::{HazardKind, ShownHazard, ShownWalk};
use crate::walk::{Avoid, Over, leads};
use bay_base::listing::Listing;
use bay_base::switch::{Operation, SwitchKind};
use std::alloc::{AllocError, Global};

// Returns a hazard without another disconnector.
fn shown_by(kind: HazardKind, switch: &Branch, earth: Option<usize>, walk: ShownWalk) -> ShownHazard
    ensures { result ≡ spec.shown_by kind switch.now.number earth walk }
{
    ShownHazard {
        kind,
        switch: switch.number,
        other: None,
        earth,
        walk,
        beside: None,
    }
}

// Shows E: the way from a source to the node of the earthing switch.
fn show_earths(
    alloc: Global,
    network: &Network,
    known: &Known,
    switch: &Branch,
) -> Result<Option<ShownHazard>, AllocError>
    ensures { IfOk result (spec.IsFound
        (spec.IsShownBy network.now (reading_in known.now) switch.now kinds.Earths)
        (hazards.earths network.now (reading_in known.now) switch.now)) }
{
    let Some(start) = unearthable_of(network, known, switch) else {
        return Ok(None);
    };
    let route = without(Over::Gapless, switch, Avoid::Nothing);
    let steps = walk_along(alloc, network, known, route, start, switch.one)?;
    let walk = ShownWalk {
        start,
        steps: Listing::new(steps),
    };
    Ok(Some(shown_by(HazardKind::Earths, switch, Some(switch.number), walk)))
}

// Shows J from the side `a` of the switch: the way from a live source to an earth.
fn show_bridge(
    alloc: Global,
    network: &Network,
    known: &Known,
    switch: &Branch,
    a: u8,
    b: u8,
) -> Result<Option<ShownHazard>, AllocError>
    ensures { IfOk result (spec.IsFound
        (spec.IsPassShown (spec.shows_bridge network.now (reading_in known.now) switch.now)
        switch.now kinds.Bridges a b)
        (hazards.bridges_from network.now (reading_in known.now) switch.now a b)) }
{
    let of_a = without(Over::Gapless, switch, Avoid::Node(b));
    let of_b = without(Over::Gapless, switch, Avoid::Node(a));
    let Some(start) = target_of(network, known, switch, of_a, a, Target::Live) else {
        return Ok(None);
    };
    let Some(end) = earth_of(network, known, switch, of_b, b) else {
        return Ok(None);
    };
    let routes = (of_a, of_b);
    let walk = walk_through(alloc, network, known, routes, start, switch, a, b, end.node)?;
    Ok(Some(shown_by(HazardKind::Bridges, switch, end.earth, walk)))
}

// Shows J: from whichever side of the switch a live source is.
fn show_bridges(
    alloc: Global,
    network: &Network,
    known: &Known,
    switch: &Branch,
) -> Result<Option<ShownHazard>, AllocError>
    ensures { IfOk result (spec.IsFound
        (spec.IsShownBy network.now (reading_in known.now) switch.now kinds.Bridges)
        (hazards.bridges network.now (reading_in known.now) switch.now)) }
{
    match show_bridge(alloc, network, known, switch, switch.one, switch.other)? {
        Some(shown) => Ok(Some(shown)),
        None => show_bridge(alloc, network, known, switch, switch.other, switch.one),
    }
}

// Shows C from the side `a` of the switch: the way of a current from a live source.
fn show_break(
    alloc: Global,
    network: &Network,
    known: &Known,
    switch: &Branch,
    a: u8,
    b: u8,
) -> Result<Option<ShownHazard>, AllocError>
    ensures { IfOk result (spec.IsFound
        (spec.IsPassShown (spec.shows_break network.now (reading_in known.now) switch.now)
        switch.now kinds.Breaks a b)
        (hazards.breaks_from network.now (reading_in known.now) switch.now a b)) }
{
    let of_a = without(Over::Possible, switch, Avoid::Node(b));
    let of_b = without(Over::Possible, switch, Avoid::Node(a));
    let Some(start) = target_of(network, known, switch, of_a, a, Target::Live) else {
        return Ok(None);
    };
    let Some(end) = current_end_of(network, known, switch, of_b, b) else {
        return Ok(None);
    };
    let routes = (of_a, of_b);
    let walk = walk_through(alloc, network, known, routes, start, switch, a, b, end.node)?;
    Ok(Some(shown_by(HazardKind::Breaks, switch, end.earth, walk)))
}

// Shows C: from whichever side of the switch a live source is.
fn show_breaks(
    alloc: Global,
    network: &Network,
    known: &Known,
    switch: &Branch,
) -> Result<Option<ShownHazard>, AllocError>
    ensures { IfOk result (spec.IsFound
        (spec.IsShownBy network.now (reading_in known.now) switch.now kinds.Breaks)
        (hazards.breaks_from network.now (reading_in known.now) switch.now
        switch.now.one switch.now.other
        || hazards.breaks_from network.now (reading_in known.now) switch.now
        switch.now.other switch.now.one)) }
{
    match show_break(alloc, network, known, switch, switch.one, switch.other)? {
        Some(shown) => Ok(Some(shown)),
        None => show_break(alloc, network, known, switch, switch.other, switch.one),
    }
}

// Shows Y: the way from a live source over the breaker to a live source.
fn show_join(
    alloc: Global,
    network: &Network,
    known: &Known,
    switch: &Branch,
) -> Result<Option<ShownHazard>, AllocError>
    ensures { IfOk result (spec.IsFound
        (spec.IsShownBy network.now (reading_in known.now) switch.now kinds.Joins)
        (hazards.joins_live network.now (reading_in known.now) switch.now)) }
{
    let (one, other) = (switch.one, switch.other);
    let of_one = without(Over::Possible, switch, Avoid::Node(other));
    let of_other = without(Over::Possible, switch, Avoid::Node(one));
    let Some(start) = target_of(network, known, switch, of_one, one, Target::Energised) else {
        return Ok(None);
    };
    let Some(end) = target_of(network, known, switch, of_other, other, Target::Energised) else {
        return Ok(None);
    };
    let routes = (of_one, of_other);
    let walk = walk_through(
        alloc, network, known, routes, start, switch, one, other, end,
    )?;
    Ok(Some(shown_by(HazardKind::Joins, switch, None, walk)))
}

// Shows T: the way over disconnectors from one side of a coupler to the other.
fn show_bypass(
    alloc: Global,
    network: &Network,
    known: &Known,
    switch: &Branch,
) -> Result<Option<ShownHazard>, AllocError>
    ensures { IfOk result (spec.IsFound
        (spec.IsShownBy network.now (reading_in known.now) switch.now kinds.Uncouples)
        (leads network.now (reading_in known.now)
        (hazards.without overs.Disconnectors switch.now avoids.Nothing)
        switch.now.one switch.now.other)) }
{
    let route = without(Over::Disconnectors, switch, Avoid::Nothing);
    if !leads(network, known, route, switch.one, switch.other) {
        return Ok(None);
    }
    let steps = walk_along(alloc, network, known, route, switch.one, switch.other)?;
    let walk = ShownWalk {
        start: switch.one,
        steps: Listing::new(steps),
    };
    Ok(Some(shown_by(HazardKind::Uncouples, switch, None, walk)))
}

// Shows L: the way from a live source to the node of the earthing switch.
fn show_source(
    alloc: Global,
    network: &Network,
    known: &Known,
    switch: &Branch,
) -> Result<Option<ShownHazard>, AllocError>
    ensures { IfOk result (spec.IsFound
        (spec.IsShownBy network.now (reading_in known.now) switch.now kinds.Unearths)
        (hazards.reaches network.now (reading_in known.now) switch.now
        (hazards.without overs.Possible switch.now avoids.Nothing) switch.now.one
        targets.Separable)) }
{
    let node = switch.one;
    let route = without(Over::Possible, switch, Avoid::Nothing);
    let Some(start) = target_of(network, known, switch, route, node, Target::Separable) else {
        return Ok(None);
    };
    let steps = walk_along(alloc, network, known, route, start, node)?;
    let walk = ShownWalk {
        start,
        steps: Listing::new(steps),
    };
    Ok(Some(shown_by(HazardKind::Unearths, switch, Some(switch.number), walk)))
}

// Returns whether an operation of a switch of this kind can be a hazard of this kind.
fn can_be(switch: SwitchKind, operation: Operation, hazard: HazardKind) -> bool
    ensures { result ≡ spec.can_be switch operation hazard }
{
    match (switch, operation, hazard) {
        (SwitchKind::Earthing, Operation::Close, HazardKind::Earths)
        | (SwitchKind::Earthing, Operation::Open, HazardKind::Unearths)
        | (
            SwitchKind::Breaker,
            Operation::Close,
            HazardKind::Bridges | HazardKind::Makes | HazardKind::Joins,
        )
        | (SwitchKind::Breaker, Operation::Open, HazardKind::Leaves | HazardKind::Uncouples)
        | (
            SwitchKind::Disconnector,
            Operation::Close,
            HazardKind::Bridges | HazardKind::Breaks | HazardKind::Makes,
        )
        | (SwitchKind::Disconnector, Operation::Open, HazardKind::Breaks | HazardKind::Leaves) => {
            true
        }
        _ => false,
    }
}

// Returns whether the switch is in a hazard of this kind.
fn is_of_kind(network: &Network, known: &Known, switch: &Branch, hazard: HazardKind) -> bool
    ensures { result ≡ spec.is_of_kind network.now (reading_in known.now) switch.now hazard }
{
    match hazard {
        HazardKind::Earths => earths(network, known, switch),
        HazardKind::Bridges => bridges(network, known, switch),
        HazardKind::Breaks => breaks(network, known, switch),
        HazardKind::Makes => makes_any(network, known, switch),
        HazardKind::Leaves => leaves_any(network, known, switch),
        HazardKind::Joins => joins_parts(network, known, switch),
        HazardKind::Uncouples => uncouples(network, known, switch),
        HazardKind::Unearths => unearths(network, known, switch),
    }
}

// Returns the first kind of hazard that an operation of a branch is.
fn kind_of(
    network: &Network,
    known: &Known,
    switch: &Branch,
    operation: Operation,
) -> Option<HazardKind>
    ensures { result ≡ find (λ hazard. spec.can_be switch.now.kind operation hazard
        && spec.is_of_kind network.now (reading_in known.now) switch.now hazard) spec.kinds }
{
    let kinds = [
        HazardKind::Earths,
        HazardKind::Bridges,
        HazardKind::Breaks,
        HazardKind::Makes,
        HazardKind::Leaves,
        HazardKind::Joins,
        HazardKind::Uncouples,
        HazardKind::Unearths,
    ];
    kinds.iter().copied().find(|hazard| {
        can_be(switch.kind, operation, *hazard) && is_of_kind(network, known, switch, *hazard)
    })
}

// Shows the hazard that an operation of a branch is.
fn show_at(
    alloc: Global,
    network: &Network,
    known: &Known,
    switch: &Branch,
    operation: Operation,
) -> Result<Option<ShownHazard>, AllocError>
    ensures { IfOk result (spec.IsFound
        (spec.IsShownAt network.now (reading_in known.now) switch.now operation)
        (hazards.endangers network.now (reading_in known.now) switch.now operation)) }
{
    let Some(kind) = kind_of(network, known, switch, operation) else {
        return Ok(None);
    };
    match kind {
        HazardKind::Earths => show_earths(alloc, network, known, switch),
        HazardKind::Bridges => show_bridges(alloc, network, known, switch),
        HazardKind::Breaks => show_breaks(alloc, network, known, switch),
        HazardKind::Makes => show_makes(alloc, network, known, switch),
        HazardKind::Leaves => show_leaves(alloc, network, known, switch),
        HazardKind::Joins => show_join(alloc, network, known, switch),
        HazardKind::Uncouples => show_bypass(alloc, network, known, switch),
        HazardKind::Unearths => show_source(alloc, network, known, switch),
    }
}

// Returns the first branch that is the switch of the bay at an index and at which an operation is a
// hazard.
fn endangered<'a>(
    network: &'a Network,
    known: &Known,
    switch: usize,
    operation: Operation,
) -> Option<&'a Branch>
    ensures { option_copied result ≡ find (λ s. networks.is_own switch s.device
        && hazards.endangers network.now (reading_in known.now) s operation) network.now.branches }
{
    network.branches.as_slice().iter().find(|branch| branch.is_own(switch)
        && endangers(network, known, branch, operation))
}

/// Returns the hazard that an operation of the switch of the bay at an index is, with the walks
/// that show it; `None` if it is none. Fails only if an allocation fails.
pub fn show(
    alloc: Global,
    network: &Network,
    known: &Known,
    switch: usize,
    operation: Operation,
) -> Result<Option<ShownHazard>, AllocError>
    // What is shown is a hazard of the operation by what is known, and each walk leads over
    // branches of the network that the hazard's definition lets it lead over, one after the other,
    // between the nodes that the definition names. Nothing is shown only if it is no hazard.
    ensures { IfOk result (spec.IsShownOf network.now (reading_in known.now) switch operation) }
{
    let Some(branch) = endangered(network, known, switch, operation) else {
        return Ok(None);
    };
    show_at(alloc, network, known, branch, operation)
}
