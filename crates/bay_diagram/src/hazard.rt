// Hazards: what an operation of a switch would do, by what is known. Each is a truth value over
// walks.
ghost use Rattle.std.specs.Prelude.{◌≡◌, not};
ghost use Rattle.bay_diagram.specs.Hazards as spec;
ghost use Rattle.bay_diagram.specs.Reading.{reading_in};
ghost use Rattle.bay_diagram.specs.Walks as walks;
ghost use Rattle.bay_diagram.specs.Walks.{joined_in};
ghost use Rattle.bay_diagram.specs.declared.walk.Avoid.TheVariants as avoids;
ghost use Rattle.bay_diagram.specs.declared.walk.Over.TheVariants as overs;

use crate::network::{Branch, Network, Node};
use crate::reading::Known;
use crate::walk::{Avoid, Over, Route, is_same_label, labels_of, leads};
use bay_base::switch::{Operation, SwitchKind};

/// The nodes that a walk looks for.
#[derive(Clone, Copy)]
pub enum Target {
    /// Sources without a closed earthing switch.
    Live,
    /// Terminals.
    Terminal,
    /// Terminals that are no sources.
    Load,
    /// Live sources that are not known to be dead.
    Energised,
    /// Those of them that a gap could part from the first node of the switch.
    Separable,
}

// Returns a route without a branch.
pub(crate) fn without(over: Over, switch: &Branch, avoid: Avoid) -> Route
    ensures { result ≡ spec.without over switch.now avoid }
{
    Route {
        over,
        without: switch.number,
        also_without: switch.number,
        avoid,
    }
}

// Returns a route without two branches.
pub(crate) fn without_both(over: Over, switch: &Branch, other: &Branch, avoid: Avoid) -> Route
    ensures { result ≡ spec.without_both over switch.now other.now avoid }
{
    Route {
        over,
        without: switch.number,
        also_without: other.number,
        avoid,
    }
}

// Returns whether a branch is an earthing switch of the node, other than `switch`.
fn is_earth_at(switch: &Branch, node: u8, branch: &Branch) -> bool
    ensures { result ≡ spec.is_earth_at switch.now node branch.now }
{
    branch.is_earthing() && (branch.number != switch.number && branch.one == node)
}

// Returns whether an earthing switch other than `switch` surely earths a node.
fn is_earthed(network: &Network, known: &Known, switch: &Branch, node: u8) -> bool
    ensures { result ≡ spec.is_earthed network.now (reading_in known.now) switch.now node }
{
    network.branches.as_slice().iter().any(|branch| {
        is_earth_at(switch, node, branch) && known.is_closed(branch.device)
    })
}

// Returns whether a node is a source that no earthing switch other than `switch` surely earths.
fn is_live(network: &Network, known: &Known, switch: &Branch, node: &Node) -> bool
    ensures { result ≡ spec.is_live network.now (reading_in known.now) switch.now node.now }
{
    node.is_source && !is_earthed(network, known, switch, node.number)
}

// Returns whether a node is a live source that is not known to be dead.
fn is_energised(network: &Network, known: &Known, switch: &Branch, node: &Node) -> bool
    ensures { result ≡ spec.is_energised network.now (reading_in known.now) switch.now node.now }
{
    is_live(network, known, switch, node) && known.may_be_false(node.dead)
}

// Returns whether a gap could part a node from the first node of the switch.
fn is_separable(network: &Network, known: &Known, switch: &Branch, node: &Node) -> bool
    ensures { result ≡ not (walks.leads network.now (reading_in known.now)
        (spec.without overs.Inseparable switch.now avoids.Nothing) switch.now.one node.now.number) }
{
    let route = without(Over::Inseparable, switch, Avoid::Nothing);
    !leads(network, known, route, switch.one, node.number)
}

// Returns whether a walk looks for the node.
pub(crate) fn is_target(
    network: &Network,
    known: &Known,
    switch: &Branch,
    target: Target,
    node: &Node,
) -> bool
    ensures { result
        ≡ spec.is_target network.now (reading_in known.now) switch.now target node.now }
{
    match target {
        Target::Live => is_live(network, known, switch, node),
        Target::Terminal => node.kind.is_terminal(),
        Target::Load => node.kind.is_terminal() && !node.is_source,
        Target::Energised => is_energised(network, known, switch, node),
        Target::Separable => {
            is_energised(network, known, switch, node) && is_separable(network, known, switch, node)
        }
    }
}

// Returns whether a node that a walk looks for has the label of the node at `from`.
fn reaches_by(
    network: &Network,
    known: &Known,
    switch: &Branch,
    labels: &[u8; 256],
    from: u8,
    target: Target,
) -> bool
    ensures { result ≡ spec.reaches_by network.now (reading_in known.now) switch.now
        (joined_in labels.now) from target }
{
    network.nodes.as_slice().iter().any(|node| {
        is_target(network, known, switch, target, node) && is_same_label(labels, from, node.number)
    })
}

// Returns whether a walk leads from the node at `from` to a node that it looks for.
fn reaches(
    network: &Network,
    known: &Known,
    switch: &Branch,
    route: Route,
    from: u8,
    target: Target,
) -> bool
    ensures { result
        ≡ spec.reaches network.now (reading_in known.now) switch.now route from target }
{
    let labels = labels_of(network, known, route);
    reaches_by(network, known, switch, &labels, from, target)
}

// Returns whether a node that an earthing switch other than `switch` may earth has the label of the
// node at `from`.
fn reaches_earth_by(
    network: &Network,
    known: &Known,
    switch: &Branch,
    labels: &[u8; 256],
    from: u8,
) -> bool
    ensures { result ≡ spec.reaches_earth_by network.now (reading_in known.now) switch.now
        (joined_in labels.now) from }
{
    network.branches.as_slice().iter().any(|branch| {
        branch.is_earthing()
            && (branch.number != switch.number
                && (known.may_conduct(branch.device) && is_same_label(labels, from, branch.one)))
    })
}

// Returns whether a walk leads from the node at `from` to a node that may be earthed by an earthing
// switch other than `switch`.
fn reaches_earth(network: &Network, known: &Known, switch: &Branch, route: Route, from: u8) -> bool
    ensures { result ≡ spec.reaches_earth network.now (reading_in known.now) switch.now route from }
{
    let labels = labels_of(network, known, route);
    reaches_earth_by(network, known, switch, &labels, from)
}

// Returns whether a surely closed path lies beside a branch, without `switch`.
fn has_beside(network: &Network, known: &Known, switch: &Branch, branch: &Branch) -> bool
    ensures { result ≡ spec.has_beside network.now (reading_in known.now) switch.now branch.now }
{
    let avoid = Avoid::TransformersBut(branch.one, branch.other);
    let route = without_both(Over::Closed, switch, branch, avoid);
    leads(network, known, route, branch.one, branch.other)
}

// Returns whether a source, from which no gap parts the node of an earthing switch, may be live or
// could be parted.
fn earths_by(
    network: &Network,
    known: &Known,
    switch: &Branch,
    gapless: &[u8; 256],
    inseparable: &[u8; 256],
) -> bool
    ensures { result ≡ spec.earths_by network.now (reading_in known.now) switch.now
        (joined_in gapless.now) (joined_in inseparable.now) }
{
    network.nodes.as_slice().iter().any(|node| {
        node.is_source
            && (is_same_label(gapless, switch.one, node.number)
                && (known.may_be_false(node.dead)
                    || !is_same_label(inseparable, switch.one, node.number)))
    })
}

// Returns whether an earthing switch would close onto a node that is not isolated.
pub(crate) fn earths(network: &Network, known: &Known, switch: &Branch) -> bool
    ensures { result ≡ spec.earths network.now (reading_in known.now) switch.now }
{
    let gapless = labels_of(
        network,
        known,
        without(Over::Gapless, switch, Avoid::Nothing),
    );
    let inseparable = labels_of(
        network,
        known,
        without(Over::Inseparable, switch, Avoid::Nothing),
    );
    earths_by(network, known, switch, &gapless, &inseparable)
}

// Returns whether the switch would join a live source at its side `a` and an earth at its side `b`.
fn bridges_from(network: &Network, known: &Known, switch: &Branch, a: u8, b: u8) -> bool
    ensures { result ≡ spec.bridges_from network.now (reading_in known.now) switch.now a b }
{
    let of_a = without(Over::Gapless, switch, Avoid::Node(b));
    let of_b = without(Over::Gapless, switch, Avoid::Node(a));
    reaches(network, known, switch, of_a, a, Target::Live)
        && reaches_earth(network, known, switch, of_b, b)
}

// Returns whether nothing but open breakers would part a live source and an earth.
pub(crate) fn bridges(network: &Network, known: &Known, switch: &Branch) -> bool
    ensures { result ≡ spec.bridges network.now (reading_in known.now) switch.now }
{
    bridges_from(network, known, switch, switch.one, switch.other)
        || bridges_from(network, known, switch, switch.other, switch.one)
}

// Returns whether a current can flow through the switch from its side `a`.
fn breaks_from(network: &Network, known: &Known, switch: &Branch, a: u8, b: u8) -> bool
    ensures { result ≡ spec.breaks_from network.now (reading_in known.now) switch.now a b }
{
    let of_a = without(Over::Possible, switch, Avoid::Node(b));
    let of_b = without(Over::Possible, switch, Avoid::Node(a));
    reaches(network, known, switch, of_a, a, Target::Live)
        && (reaches(network, known, switch, of_b, b, Target::Terminal)
            || reaches_earth(network, known, switch, of_b, b))
}

// Returns whether a disconnector would make or break a current.
pub(crate) fn breaks(network: &Network, known: &Known, switch: &Branch) -> bool
    ensures { result ≡ spec.breaks network.now (reading_in known.now) switch.now }
{
    (breaks_from(network, known, switch, switch.one, switch.other)
        || breaks_from(network, known, switch, switch.other, switch.one))
        && !has_beside(network, known, switch, switch)
}

// The nodes of two switches in a path: the one leads from `b` to `a`, the other from `x` to `y`.
#[derive(Clone, Copy)]
pub(crate) struct Ends {
    pub a: u8,
    pub b: u8,
    pub x: u8,
    pub y: u8,
}

// Returns whether walks lead from `b` and from `y` to nodes that they look for.
fn reaches_both(
    network: &Network,
    known: &Known,
    switch: &Branch,
    other: &Branch,
    ends: Ends,
    first: Target,
    last: Target,
) -> bool
    ensures { result ≡ spec.reaches_both network.now (reading_in known.now) switch.now other.now
        ends.a ends.b ends.x ends.y first last }
{
    let Ends { a, b, x, y } = ends;
    let of_b = without_both(Over::Possible, switch, other, Avoid::NodesAndEnd(a, x, y));
    let of_y = without_both(Over::Possible, switch, other, Avoid::NodesAndEnd(a, x, b));
    reaches(network, known, switch, of_b, b, first)
        && reaches(network, known, switch, of_y, y, last)
}

// Returns whether the switch would close a path of a current through the other one, whose part
// between `a` and `x` passes no terminal.
fn makes_near(network: &Network, known: &Known, switch: &Branch, other: &Branch, ends: Ends) -> bool
    ensures { result ≡ spec.makes_near network.now (reading_in known.now) switch.now other.now
        ends.a ends.b ends.x ends.y }
{
    let avoid = Avoid::TerminalsAndNodes(ends.b, ends.y);
    let route = without_both(Over::Possible, switch, other, avoid);
    !(network.is_terminal(ends.a) || network.is_terminal(ends.x))
        && (leads(network, known, route, ends.a, ends.x)
            && (reaches_both(
                network,
                known,
                switch,
                other,
                ends,
                Target::Live,
                Target::Terminal,
            ) || reaches_both(
                network,
                known,
                switch,
                other,
                ends,
                Target::Terminal,
                Target::Live,
            )))
}

// Returns whether the switch would energise a terminal by a path through the other one, whose part
// between `a` and `x` passes no source.
fn energises(network: &Network, known: &Known, switch: &Branch, other: &Branch, ends: Ends) -> bool
    ensures { result ≡ spec.energises network.now (reading_in known.now) switch.now other.now
        ends.a ends.b ends.x ends.y }
{
    let avoid = Avoid::SourcesAndNodes(ends.b, ends.y);
    let route = without_both(Over::Possible, switch, other, avoid);
    !(network.is_source(ends.a) || network.is_source(ends.x))
        && (leads(network, known, route, ends.a, ends.x)
            && reaches_both(
                network,
                known,
                switch,
                other,
                ends,
                Target::Live,
                Target::Load,
            ))
}

// Returns whether the switch would close a path of a current through the other one.
fn makes_from(network: &Network, known: &Known, switch: &Branch, other: &Branch, ends: Ends) -> bool
    ensures { result ≡ spec.makes_from network.now (reading_in known.now) switch.now other.now
        ends.a ends.b ends.x ends.y }
{
    !(ends.a == ends.y || (ends.b == ends.x || ends.b == ends.y))
        && (makes_near(network, known, switch, other, ends)
            || energises(network, known, switch, other, ends))
}

// Returns whether the switch would close a path of a current through the other one, whichever sides
// of the two face each other.
pub(crate) fn makes_current(
    network: &Network,
    known: &Known,
    switch: &Branch,
    other: &Branch,
) -> bool
    ensures { result ≡ spec.makes_current network.now (reading_in known.now) switch.now other.now }
{
    let (u, v) = (switch.one, switch.other);
    let (x, y) = (other.one, other.other);
    makes_from(network, known, switch, other, Ends { a: u, b: v, x, y })
        || (makes_from(
            network,
            known,
            switch,
            other,
            Ends {
                a: u,
                b: v,
                x: y,
                y: x,
            },
        ) || (makes_from(network, known, switch, other, Ends { a: v, b: u, x, y })
            || makes_from(
                network,
                known,
                switch,
                other,
                Ends {
                    a: v,
                    b: u,
                    x: y,
                    y: x,
                },
            )))
}

// Returns whether the switch lies on a path beside the other one, with its side `a` towards the
// first node of the other.
pub(crate) fn lies_beside(
    network: &Network,
    known: &Known,
    switch: &Branch,
    other: &Branch,
    a: u8,
    b: u8,
) -> bool
    ensures { result
        ≡ spec.lies_beside network.now (reading_in known.now) switch.now other.now a b }
{
    let (x, y) = (other.one, other.other);
    let of_a = without_both(
        Over::Possible,
        switch,
        other,
        Avoid::TransformersAndNodes(x, a, b, y),
    );
    let of_b = without_both(
        Over::Possible,
        switch,
        other,
        Avoid::TransformersAndNodes(b, y, a, x),
    );
    (a == x || !network.is_transformer(a))
        && ((b == y || !network.is_transformer(b))
            && (!(a == y || b == x)
                && (leads(network, known, of_a, x, a) && leads(network, known, of_b, b, y))))
}

// Returns whether a current can flow through the other switch from its side `x`, without `switch`.
fn feeds_from(
    network: &Network,
    known: &Known,
    switch: &Branch,
    other: &Branch,
    x: u8,
    y: u8,
) -> bool
    ensures { result
        ≡ spec.feeds_from network.now (reading_in known.now) switch.now other.now x y }
{
    let of_x = without_both(Over::Possible, switch, other, Avoid::Node(y));
    let of_y = without_both(Over::Possible, switch, other, Avoid::Node(x));
    reaches(network, known, switch, of_x, x, Target::Live)
        && reaches(network, known, switch, of_y, y, Target::Terminal)
}

// Returns whether the switch would take away a path beside the other one, through which a current
// can flow.
pub(crate) fn leaves_current(
    network: &Network,
    known: &Known,
    switch: &Branch,
    other: &Branch,
) -> bool
    ensures { result ≡ spec.leaves_current network.now (reading_in known.now) switch.now other.now }
{
    (lies_beside(network, known, switch, other, switch.one, switch.other)
        || lies_beside(network, known, switch, other, switch.other, switch.one))
        && (feeds_from(network, known, switch, other, other.one, other.other)
            || feeds_from(network, known, switch, other, other.other, other.one))
}

// Returns whether a branch is a disconnector that may be on its way, other than `switch`, and no
// surely closed path lies beside it or beside `switch`.
pub(crate) fn is_exposed(network: &Network, known: &Known, switch: &Branch, other: &Branch) -> bool
    ensures { result ≡ spec.is_exposed network.now (reading_in known.now) switch.now other.now }
{
    other.is_disconnector()
        && (other.number != switch.number
            && (known.may_move(other.device)
                && (!has_beside(network, known, switch, other)
                    && !has_beside(network, known, other, switch))))
}

// Returns whether the switch would make a current through a disconnector that may be on its way.
pub(crate) fn makes_any(network: &Network, known: &Known, switch: &Branch) -> bool
    ensures { result ≡ spec.makes_any network.now (reading_in known.now) switch.now }
{
    network.branches.as_slice().iter().any(|other| {
        is_exposed(network, known, switch, other) && makes_current(network, known, switch, other)
    })
}

// Returns whether the switch would leave a current to a disconnector that may be on its way.
pub(crate) fn leaves_any(network: &Network, known: &Known, switch: &Branch) -> bool
    ensures { result ≡ spec.leaves_any network.now (reading_in known.now) switch.now }
{
    network.branches.as_slice().iter().any(|other| {
        is_exposed(network, known, switch, other) && leaves_current(network, known, switch, other)
    })
}

// Returns whether live sources that are not known to be dead may be joined to both sides of the
// switch.
fn joins_live(network: &Network, known: &Known, switch: &Branch) -> bool
    ensures { result ≡ spec.joins_live network.now (reading_in known.now) switch.now }
{
    let of_one = without(Over::Possible, switch, Avoid::Node(switch.other));
    let of_other = without(Over::Possible, switch, Avoid::Node(switch.one));
    reaches(
        network,
        known,
        switch,
        of_one,
        switch.one,
        Target::Energised,
    ) && reaches(
        network,
        known,
        switch,
        of_other,
        switch.other,
        Target::Energised,
    )
}

// Returns whether a breaker would join two live parts that are not surely joined, and its input of
// a synchrocheck may be FALSE; FALSE if no key selects this.
pub(crate) fn joins_parts(network: &Network, known: &Known, switch: &Branch) -> bool
    ensures { result ≡ spec.joins_parts network.now (reading_in known.now) switch.now }
{
    (network.checks.live_parts || switch.synchro.is_some())
        && (known.may_be_false(switch.synchro)
            && (joins_live(network, known, switch) && !has_beside(network, known, switch, switch)))
}

// Returns whether a coupler would leave its two sides to disconnectors alone; FALSE if the switch
// is not a coupler.
pub(crate) fn uncouples(network: &Network, known: &Known, switch: &Branch) -> bool
    ensures { result ≡ spec.uncouples network.now (reading_in known.now) switch.now }
{
    let route = without(Over::Disconnectors, switch, Avoid::Nothing);
    switch.is_coupler && leads(network, known, route, switch.one, switch.other)
}

// Returns whether an earthing switch would open while a source may feed it; FALSE if no key
// selects this.
pub(crate) fn unearths(network: &Network, known: &Known, switch: &Branch) -> bool
    ensures { result ≡ spec.unearths network.now (reading_in known.now) switch.now }
{
    let route = without(Over::Possible, switch, Avoid::Nothing);
    network.checks.fed_earths
        && reaches(network, known, switch, route, switch.one, Target::Separable)
}

/// Returns whether an operation of a branch is a hazard, by what is known.
pub fn endangers(network: &Network, known: &Known, switch: &Branch, operation: Operation) -> bool
    ensures { result ≡ spec.endangers network.now (reading_in known.now) switch.now operation }
{
    match (switch.kind, operation) {
        (SwitchKind::Earthing, Operation::Close) => earths(network, known, switch),
        (SwitchKind::Earthing, Operation::Open) => unearths(network, known, switch),
        (SwitchKind::Breaker, Operation::Close) => {
            bridges(network, known, switch)
                || (makes_any(network, known, switch) || joins_parts(network, known, switch))
        }
        (SwitchKind::Breaker, Operation::Open) => {
            leaves_any(network, known, switch) || uncouples(network, known, switch)
        }
        (SwitchKind::Disconnector, Operation::Close) => {
            bridges(network, known, switch)
                || (breaks(network, known, switch) || makes_any(network, known, switch))
        }
        (SwitchKind::Disconnector, Operation::Open) => {
            breaks(network, known, switch) || leaves_any(network, known, switch)
        }
    }
}

/// Returns whether an operation of the switch of the bay at an index is a hazard, by what is known:
/// at any branch of the diagram that is this switch.
pub fn is_hazard(network: &Network, known: &Known, switch: usize, operation: Operation) -> bool
    ensures { result ≡ spec.is_hazard network.now (reading_in known.now) switch operation }
{
    network.branches.as_slice().iter().any(|branch| branch.is_own(switch)
        && endangers(network, known, branch, operation))
}
