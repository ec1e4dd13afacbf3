// Walks, step by step.
ghost use Rattle.std.specs.Prelude.{◌≡◌, ◌≤◌, ◌==◌, length, true, Bool, List, IfOk};
ghost use Rattle.bay_diagram.specs.Reading.{reading_in};
ghost use Rattle.bay_diagram.specs.Shown.{IsWalkThrough, is_through, is_walk, leaves_out, sides_from};
ghost use Rattle.bay_diagram.specs.Walks as spec;
ghost use Rattle.bay_diagram.specs.declared.shown.Step as declared;

use crate::network::{Branch, Network};
use crate::reading::Known;
use crate::shown::{ShownWalk, Step};
use crate::walk::{Route, is_same_label, labels_among};
use bay_base::listing::Listing;
use std::alloc::{AllocError, Global};

// Returns the nodes of a branch, first the one that has the label of the node at `a`, if one has.
fn sides(labels: &[u8; 256], branch: &Branch, a: u8) -> (u8, u8)
    ensures { result ≡ sides_from (spec.joined_in labels.now a branch.now.one) branch.now }
{
    if is_same_label(labels, a, branch.one) {
        (branch.one, branch.other)
    } else {
        (branch.other, branch.one)
    }
}

// Returns a walk of the route from one node to another over the first `count` branches: over the
// last of them, if those before it don't join the two nodes.
fn walk_within(
    alloc: Global,
    network: &Network,
    known: &Known,
    route: Route,
    count: usize,
    a: u8,
    b: u8,
) -> Result<Vec<Step>, AllocError>
    requires within { count ≤ length network.now.branches }
    requires joined { spec.label_within network.now (reading_in known.now) route count a
        ≡ spec.label_within network.now (reading_in known.now) route count b }
    ensures { IfOk result (λ steps. is_walk network.now
        (spec.may_lead_over network.now (reading_in known.now) route) (λ n. n == b) a steps.items
        ≡ true) }
{
    if count == 0 {
        return Ok(Vec::new(alloc));
    }
    let last = count - 1;
    let labels = labels_among(network, known, route, &network.branches.as_slice()[..last]);
    if is_same_label(&labels, a, b) {
        return walk_within(alloc, network, known, route, last, a, b);
    }
    let branch = network.branches.as_slice()[last];
    let (near, far) = sides(&labels, &branch, a);
    let mut steps = walk_within(alloc, network, known, route, last, a, near)?;
    let rest = walk_within(alloc, network, known, route, last, far, b)?;
    steps.push(Step {
        branch: branch.number,
        node: far,
    })?;
    steps.extend_from_slice(rest.as_slice())?;
    Ok(steps)
}

/// Returns a walk of the route from one node to another. Fails only if an allocation fails.
pub fn walk_along(
    alloc: Global,
    network: &Network,
    known: &Known,
    route: Route,
    a: u8,
    b: u8,
) -> Result<Vec<Step>, AllocError>
    requires { spec.leads network.now (reading_in known.now) route a b ≡ true }
    ensures { IfOk result (λ steps. is_walk network.now
        (spec.may_lead_over network.now (reading_in known.now) route) (λ n. n == b) a steps.items
        ≡ true) }
{
    let count = network.branches.as_slice().len();
    walk_within(alloc, network, known, route, count, a, b)
}

/// Returns a walk of the route from one node to the side `a` of a switch, over the switch to its
/// side `b`, and then the rest. Fails only if an allocation fails.
pub fn walk_over(
    alloc: Global,
    network: &Network,
    known: &Known,
    route: Route,
    from: u8,
    switch: &Branch,
    a: u8,
    b: u8,
    rest: &[Step],
) -> Result<Vec<Step>, AllocError>
    requires leads { spec.leads network.now (reading_in known.now) route from a ≡ true }
    requires apart { leaves_out route switch.now.number ≡ true }
    ensures { IfOk result (λ steps. (goes_on : List declared.Step → Bool)
        → goes_on rest.now ≡ true
        → is_through network.now (spec.may_lead_over network.now (reading_in known.now) route)
        switch.now a b goes_on from steps.items ≡ true) }
{
    let mut steps = walk_along(alloc, network, known, route, from, a)?;
    steps.push(Step {
        branch: switch.number,
        node: b,
    })?;
    steps.extend_from_slice(rest)?;
    Ok(steps)
}

/// Returns a walk of one route from a node to the side `a` of a switch, over it, and of another
/// route from its side `b` to a node. Fails only if an allocation fails.
pub fn walk_through(
    alloc: Global,
    network: &Network,
    known: &Known,
    routes: (Route, Route),
    start: u8,
    switch: &Branch,
    a: u8,
    b: u8,
    end: u8,
) -> Result<ShownWalk, AllocError>
    requires to { spec.leads network.now (reading_in known.now) routes.0 start a ≡ true }
    requires from { spec.leads network.now (reading_in known.now) routes.1 b end ≡ true }
    requires apart { leaves_out routes.0 switch.now.number ≡ true }
    ensures { IfOk result (IsWalkThrough network.now (reading_in known.now) routes.0 routes.1
        start switch.now a b end) }
{
    let rest = walk_along(alloc, network, known, routes.1, b, end)?;
    let steps = walk_over(
        alloc,
        network,
        known,
        routes.0,
        start,
        switch,
        a,
        b,
        rest.as_slice(),
    )?;
    Ok(ShownWalk {
        start,
        steps: Listing::new(steps),
    })
}
