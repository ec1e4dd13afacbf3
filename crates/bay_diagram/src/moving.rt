// Shows the hazards of another disconnector, which may be on its way.
ghost use Rattle.std.specs.Prelude.{◌≡◌, ◌&&◌, ◌||◌, true, IfOk, find, option_copied};
ghost use Rattle.bay_diagram.specs.Hazards as hazards;
ghost use Rattle.bay_diagram.specs.Reading.{reading_in};
ghost use Rattle.bay_diagram.specs.Shown as spec;
ghost use Rattle.bay_diagram.specs.Walks.{leads};
ghost use Rattle.bay_diagram.specs.declared.shown.HazardKind.TheVariants as kinds;
ghost use Rattle.bay_diagram.specs.declared.walk.Over.TheVariants as overs;

use crate::ends::target_of;
use crate::hazard::{
    Ends, Target, is_exposed, leaves_current, lies_beside, makes_current, without_both,
};
use crate::network::{Branch, Network};
use crate::path::{walk_along, walk_over, walk_through};
use crate::reading::Known;
use crate::shown::{HazardKind, ShownHazard, ShownWalk};
use crate::walk::{Avoid, Over, leads};
use bay_base::listing::Listing;
use std::alloc::{AllocError, Global};

// Shows the way of a current over the switch and the other disconnector, with the nodes to avoid
// between them.
fn show_chain(
    alloc: Global,
    network: &Network,
    known: &Known,
    switch: &Branch,
    other: &Branch,
    ends: Ends,
    nodes: Avoid,
    first: Target,
    last: Target,
) -> Result<Option<ShownWalk>, AllocError>
    ensures { IfOk result (spec.IsFound
        (λ walk. spec.shows_chain network.now (reading_in known.now) switch.now other.now
        ends.a ends.b ends.x ends.y nodes first last walk ≡ true)
        (leads network.now (reading_in known.now)
        (hazards.without_both overs.Possible switch.now other.now nodes) ends.a ends.x
        && hazards.reaches_both network.now (reading_in known.now) switch.now other.now
        ends.a ends.b ends.x ends.y first last)) }
{
    let Ends { a, b, x, y } = ends;
    let of_b = without_both(Over::Possible, switch, other, Avoid::NodesAndEnd(a, x, y));
    let between = without_both(Over::Possible, switch, other, nodes);
    let of_y = without_both(Over::Possible, switch, other, Avoid::NodesAndEnd(a, x, b));
    if !leads(network, known, between, a, x) {
        return Ok(None);
    }
    let Some(start) = target_of(network, known, switch, of_b, b, first) else {
        return Ok(None);
    };
    let Some(end) = target_of(network, known, switch, of_y, y, last) else {
        return Ok(None);
    };
    let steps = walk_along(alloc, network, known, of_y, y, end)?;
    let steps = walk_over(
        alloc,
        network,
        known,
        between,
        a,
        other,
        x,
        y,
        steps.as_slice(),
    )?;
    let steps = walk_over(
        alloc,
        network,
        known,
        of_b,
        start,
        switch,
        b,
        a,
        steps.as_slice(),
    )?;
    Ok(Some(ShownWalk {
        start,
        steps: Listing::new(steps),
    }))
}

// Shows the way of a current over the switch and the other disconnector, if it passes no terminal
// between them.
fn show_near(
    alloc: Global,
    network: &Network,
    known: &Known,
    switch: &Branch,
    other: &Branch,
    ends: Ends,
) -> Result<Option<ShownWalk>, AllocError>
    ensures { IfOk result (spec.IsFound
        (λ walk. spec.shows_near network.now (reading_in known.now) switch.now other.now
        ends.a ends.b ends.x ends.y walk ≡ true)
        (hazards.makes_near network.now (reading_in known.now) switch.now other.now
        ends.a ends.b ends.x ends.y)) }
{
    if network.is_terminal(ends.a) || network.is_terminal(ends.x) {
        return Ok(None);
    }
    let nodes = Avoid::TerminalsAndNodes(ends.b, ends.y);
    let (live, terminal) = (Target::Live, Target::Terminal);
    match show_chain(
        alloc, network, known, switch, other, ends, nodes, live, terminal,
    )? {
        Some(walk) => Ok(Some(walk)),
        None => show_chain(
            alloc, network, known, switch, other, ends, nodes, terminal, live,
        ),
    }
}

// Shows the way over the switch and the other disconnector by which the switch would energise a
// terminal, if it passes no source between them.
fn show_energising(
    alloc: Global,
    network: &Network,
    known: &Known,
    switch: &Branch,
    other: &Branch,
    ends: Ends,
) -> Result<Option<ShownWalk>, AllocError>
    ensures { IfOk result (spec.IsFound
        (λ walk. spec.shows_energising network.now (reading_in known.now) switch.now other.now
        ends.a ends.b ends.x ends.y walk ≡ true)
        (hazards.energises network.now (reading_in known.now) switch.now other.now
        ends.a ends.b ends.x ends.y)) }
{
    if network.is_source(ends.a) || network.is_source(ends.x) {
        return Ok(None);
    }
    let nodes = Avoid::SourcesAndNodes(ends.b, ends.y);
    let (live, load) = (Target::Live, Target::Load);
    show_chain(
        alloc, network, known, switch, other, ends, nodes, live, load,
    )
}

// Shows the way of a current over the switch and the other disconnector, if these sides of the two
// face each other.
fn show_make_from(
    alloc: Global,
    network: &Network,
    known: &Known,
    switch: &Branch,
    other: &Branch,
    ends: Ends,
) -> Result<Option<ShownWalk>, AllocError>
    ensures { IfOk result (spec.IsFound
        (λ walk. spec.shows_make_from network.now (reading_in known.now) switch.now other.now
        ends.a ends.b ends.x ends.y walk ≡ true)
        (hazards.makes_from network.now (reading_in known.now) switch.now other.now
        ends.a ends.b ends.x ends.y)) }
{
    if ends.a == ends.y || (ends.b == ends.x || ends.b == ends.y) {
        return Ok(None);
    }
    match show_near(alloc, network, known, switch, other, ends)? {
        Some(walk) => Ok(Some(walk)),
        None => show_energising(alloc, network, known, switch, other, ends),
    }
}

// Returns the nodes of two switches in a path.
fn ends_of(a: u8, b: u8, x: u8, y: u8) -> Ends
    ensures { result ≡ spec.ends_of a b x y }
{
    Ends { a, b, x, y }
}

// Shows A: the way of a current over the switch and the other disconnector, whichever sides of the
// two face each other.
fn show_make(
    alloc: Global,
    network: &Network,
    known: &Known,
    switch: &Branch,
    other: &Branch,
) -> Result<Option<ShownWalk>, AllocError>
    ensures { IfOk result (spec.IsFound
        (λ walk. spec.shows_make network.now (reading_in known.now) switch.now other.now walk
        ≡ true)
        (hazards.makes_current network.now (reading_in known.now) switch.now other.now)) }
{
    let (u, v) = (switch.one, switch.other);
    let (x, y) = (other.one, other.other);
    match show_make_from(alloc, network, known, switch, other, ends_of(u, v, x, y))? {
        Some(walk) => Ok(Some(walk)),
        None => match show_make_from(alloc, network, known, switch, other, ends_of(u, v, y, x))? {
            Some(walk) => Ok(Some(walk)),
            None => match show_make_from(
                alloc,
                network,
                known,
                switch,
                other,
                ends_of(v, u, x, y),
            )? {
                Some(walk) => Ok(Some(walk)),
                None => show_make_from(alloc, network, known, switch, other, ends_of(v, u, y, x)),
            },
        },
    }
}

// Returns the first disconnector through which the switch would make a current.
fn made_through<'a>(network: &'a Network, known: &Known, switch: &Branch) -> Option<&'a Branch>
    ensures { option_copied result
        ≡ find (λ d. hazards.is_exposed network.now (reading_in known.now) switch.now d
        && hazards.makes_current network.now (reading_in known.now) switch.now d)
        network.now.branches }
{
    network.branches.as_slice().iter().find(|other| {
        is_exposed(network, known, switch, other) && makes_current(network, known, switch, other)
    })
}

/// Shows A with the first disconnector through which the switch would make a current. Fails only if
/// an allocation fails.
pub fn show_makes(
    alloc: Global,
    network: &Network,
    known: &Known,
    switch: &Branch,
) -> Result<Option<ShownHazard>, AllocError>
    ensures { IfOk result (spec.IsFound
        (spec.IsShownBy network.now (reading_in known.now) switch.now kinds.Makes)
        (hazards.makes_any network.now (reading_in known.now) switch.now)) }
{
    let Some(other) = made_through(network, known, switch) else {
        return Ok(None);
    };
    match show_make(alloc, network, known, switch, other)? {
        Some(walk) => Ok(Some(ShownHazard {
            kind: HazardKind::Makes,
            switch: switch.number,
            other: Some(other.number),
            earth: None,
            walk,
            beside: None,
        })),
        None => Ok(None),
    }
}

// Shows the path beside the other disconnector over the switch, with its side `a` towards the first
// node of the other.
fn show_side(
    alloc: Global,
    network: &Network,
    known: &Known,
    switch: &Branch,
    other: &Branch,
    a: u8,
    b: u8,
) -> Result<Option<ShownWalk>, AllocError>
    ensures { IfOk result (spec.IsFound
        (λ walk. spec.shows_side network.now (reading_in known.now) switch.now other.now a b walk
        ≡ true)
        (hazards.lies_beside network.now (reading_in known.now) switch.now other.now a b)) }
{
    if !lies_beside(network, known, switch, other, a, b) {
        return Ok(None);
    }
    let (x, y) = (other.one, other.other);
    let of_a = Avoid::TransformersAndNodes(x, a, b, y);
    let of_b = Avoid::TransformersAndNodes(b, y, a, x);
    let routes = (
        without_both(Over::Possible, switch, other, of_a),
        without_both(Over::Possible, switch, other, of_b),
    );
    let walk = walk_through(alloc, network, known, routes, x, switch, a, b, y)?;
    Ok(Some(walk))
}

// Shows the path beside the other disconnector over the switch, whichever way it leads.
fn show_beside(
    alloc: Global,
    network: &Network,
    known: &Known,
    switch: &Branch,
    other: &Branch,
) -> Result<Option<ShownWalk>, AllocError>
    ensures { IfOk result (spec.IsFound
        (λ walk. spec.shows_side network.now (reading_in known.now) switch.now other.now
        switch.now.one switch.now.other walk
        || spec.shows_side network.now (reading_in known.now) switch.now other.now
        switch.now.other switch.now.one walk ≡ true)
        (hazards.lies_beside network.now (reading_in known.now) switch.now other.now
        switch.now.one switch.now.other
        || hazards.lies_beside network.now (reading_in known.now) switch.now other.now
        switch.now.other switch.now.one)) }
{
    match show_side(
        alloc,
        network,
        known,
        switch,
        other,
        switch.one,
        switch.other,
    )? {
        Some(walk) => Ok(Some(walk)),
        None => show_side(
            alloc,
            network,
            known,
            switch,
            other,
            switch.other,
            switch.one,
        ),
    }
}

// Shows the way of a current over the other disconnector from its side `x`, without the switch.
fn show_feed(
    alloc: Global,
    network: &Network,
    known: &Known,
    switch: &Branch,
    other: &Branch,
    x: u8,
    y: u8,
) -> Result<Option<ShownWalk>, AllocError>
    ensures { IfOk result (spec.IsFound
        (λ walk. spec.shows_feed network.now (reading_in known.now) switch.now other.now x y walk
        ≡ true)
        (hazards.feeds_from network.now (reading_in known.now) switch.now other.now x y)) }
{
    let of_x = without_both(Over::Possible, switch, other, Avoid::Node(y));
    let of_y = without_both(Over::Possible, switch, other, Avoid::Node(x));
    let Some(start) = target_of(network, known, switch, of_x, x, Target::Live) else {
        return Ok(None);
    };
    let Some(end) = target_of(network, known, switch, of_y, y, Target::Terminal) else {
        return Ok(None);
    };
    let routes = (of_x, of_y);
    let walk = walk_through(alloc, network, known, routes, start, other, x, y, end)?;
    Ok(Some(walk))
}

// Shows the way of a current over the other disconnector, without the switch.
fn show_feeds(
    alloc: Global,
    network: &Network,
    known: &Known,
    switch: &Branch,
    other: &Branch,
) -> Result<Option<ShownWalk>, AllocError>
    ensures { IfOk result (spec.IsFound
        (λ walk. spec.shows_feed network.now (reading_in known.now) switch.now other.now
        other.now.one other.now.other walk
        || spec.shows_feed network.now (reading_in known.now) switch.now other.now
        other.now.other other.now.one walk ≡ true)
        (hazards.feeds_from network.now (reading_in known.now) switch.now other.now
        other.now.one other.now.other
        || hazards.feeds_from network.now (reading_in known.now) switch.now other.now
        other.now.other other.now.one)) }
{
    match show_feed(alloc, network, known, switch, other, other.one, other.other)? {
        Some(walk) => Ok(Some(walk)),
        None => show_feed(alloc, network, known, switch, other, other.other, other.one),
    }
}

// Returns the first disconnector to which the switch would leave a current.
fn left_to<'a>(network: &'a Network, known: &Known, switch: &Branch) -> Option<&'a Branch>
    ensures { option_copied result
        ≡ find (λ d. hazards.is_exposed network.now (reading_in known.now) switch.now d
        && hazards.leaves_current network.now (reading_in known.now) switch.now d)
        network.now.branches }
{
    network.branches.as_slice().iter().find(|other| {
        is_exposed(network, known, switch, other) && leaves_current(network, known, switch, other)
    })
}

/// Shows B with the first disconnector to which the switch would leave a current. Fails only if an
/// allocation fails.
pub fn show_leaves(
    alloc: Global,
    network: &Network,
    known: &Known,
    switch: &Branch,
) -> Result<Option<ShownHazard>, AllocError>
    ensures { IfOk result (spec.IsFound
        (spec.IsShownBy network.now (reading_in known.now) switch.now kinds.Leaves)
        (hazards.leaves_any network.now (reading_in known.now) switch.now)) }
{
    let Some(other) = left_to(network, known, switch) else {
        return Ok(None);
    };
    let Some(beside) = show_beside(alloc, network, known, switch, other)? else {
        return Ok(None);
    };
    let Some(walk) = show_feeds(alloc, network, known, switch, other)? else {
        return Ok(None);
    };
    Ok(Some(ShownHazard {
        kind: HazardKind::Leaves,
        switch: switch.number,
        other: Some(other.number),
        earth: None,
        walk,
        beside: Some(beside),
    }))
}
