// Walks over branches: whether one leads from a node to another. No walk is listed: each node has a
// label, and each branch puts the label of its one node in the place of the other's.
ghost use Rattle.std.specs.Prelude.{◌≡◌, ℕ, length, filter};
ghost use Rattle.bay_diagram.specs.Joined.{label_of, relabel};
ghost use Rattle.bay_diagram.specs.Reading.{reading_in};
ghost use Rattle.bay_diagram.specs.Walks as spec;

use crate::network::{Branch, Network};
use crate::reading::Known;

/// The branches that a walk may lead over. None of them is an earthing switch.
#[derive(Clone, Copy)]
pub enum Over {
    /// Those that may be closed.
    Possible,
    /// Those that are surely closed.
    Closed,
    /// Those that are no isolating gap: a closed breaker and an open one are none.
    Gapless,
    /// Those that never are an isolating gap.
    Inseparable,
    /// Disconnectors that may be closed.
    Disconnectors,
}

/// The nodes whose branches a walk does not take.
#[derive(Clone, Copy)]
pub enum Avoid {
    /// None.
    Nothing,
    /// A node.
    Node(u8),
    /// Two nodes, and a third one unless it is a transformer.
    NodesAndEnd(u8, u8, u8),
    /// Transformers but these two nodes.
    TransformersBut(u8, u8),
    /// Transformers but the first two nodes, and the other two nodes.
    TransformersAndNodes(u8, u8, u8, u8),
    /// Terminals, and two nodes.
    TerminalsAndNodes(u8, u8),
    /// Sources, and two nodes.
    SourcesAndNodes(u8, u8),
}

/// What a walk may lead over, without the branches of two numbers.
#[derive(Clone, Copy)]
pub struct Route {
    pub over: Over,
    pub without: usize,
    pub also_without: usize,
    pub avoid: Avoid,
}

// Returns whether a walk may lead over the branch, by what is known of it.
fn may_cross(known: &Known, over: Over, branch: &Branch) -> bool
    ensures { result ≡ spec.may_cross (reading_in known.now) over branch.now }
{
    match over {
        Over::Possible => known.may_conduct(branch.device),
        Over::Closed => known.is_closed(branch.device),
        Over::Gapless => !branch.isolates || known.may_conduct(branch.device),
        Over::Inseparable => !branch.isolates,
        Over::Disconnectors => branch.is_disconnector() && known.may_conduct(branch.device),
    }
}

// Returns whether a walk must avoid the node.
fn avoids(network: &Network, avoid: Avoid, node: u8) -> bool
    ensures { result ≡ spec.avoids network.now avoid node }
{
    match avoid {
        Avoid::Nothing => false,
        Avoid::Node(a) => node == a,
        Avoid::NodesAndEnd(a, b, end) => {
            node == a || (node == b || node == end && !network.is_transformer(node))
        }
        Avoid::TransformersBut(a, b) => {
            network.is_transformer(node) && !(node == a || node == b)
        }
        Avoid::TransformersAndNodes(a, b, c, d) => {
            network.is_transformer(node) && !(node == a || node == b) || (node == c || node == d)
        }
        Avoid::TerminalsAndNodes(a, b) => network.is_terminal(node) || (node == a || node == b),
        Avoid::SourcesAndNodes(a, b) => network.is_source(node) || (node == a || node == b),
    }
}

// Returns whether a walk of the route may lead over the branch.
fn may_lead_over(network: &Network, known: &Known, route: Route, branch: &Branch) -> bool
    ensures { result ≡ spec.may_lead_over network.now (reading_in known.now) route branch.now }
{
    may_cross(known, route.over, branch)
        && (!branch.is_earthing()
            && (!(branch.number == route.without || branch.number == route.also_without)
                && !(avoids(network, route.avoid, branch.one)
                    || avoids(network, route.avoid, branch.other))))
}

// Returns the labels of nodes before any branch: each has its own number.
fn own_labels() -> [u8; 256]
    ensures own { (n : ℕ) → spec.label_in result n ≡ n }
    ensures long { length result ≡ 256 }
{
    let mut labels = [0u8; 256];
    for n in 0..256 {
        labels[n] = n as u8;
    }
    labels
}

// Returns a label after `to` came in the place of `from`.
fn relabelled(label: u8, from: u8, to: u8) -> u8
    ensures { result ≡ relabel from to label }
{
    if label == from { to } else { label }
}

// Puts one label in the place of another.
fn relabel_all(labels: &mut [u8; 256], from: u8, to: u8)
    ensures each { spec.IsRelabelled from to labels.old labels.new }
    ensures long { length labels.new ≡ 256 }
{
    for n in 0..256 {
        labels[n] = relabelled(labels[n], from, to);
    }
}

// Joins the nodes of a branch, if a walk of the route may lead over it.
fn join_by(network: &Network, known: &Known, route: Route, branch: &Branch, labels: &mut [u8; 256])
    ensures next { (n : ℕ) → spec.label_in labels.new n ≡ spec.label_next
        (spec.may_lead_over network.now (reading_in known.now) route branch.now)
        (spec.label_in labels.old) branch.now n }
    ensures long { length labels.new ≡ 256 }
{
    if !may_lead_over(network, known, route, branch) {
        return;
    }
    let from = labels[usize::from(branch.one)];
    let to = labels[usize::from(branch.other)];
    relabel_all(labels, from, to);
}

/// Returns the labels of nodes by some branches of the network: two have one label if a walk of the
/// route leads from one to the other over these branches.
pub fn labels_among(
    network: &Network,
    known: &Known,
    route: Route,
    branches: &[Branch],
) -> [u8; 256]
    ensures { (n : ℕ) → spec.label_in result n ≡ label_of
        (filter (spec.may_lead_over network.now (reading_in known.now) route) branches.now) n }
{
    let mut labels = own_labels();
    for branch in branches {
        join_by(network, known, route, branch, &mut labels);
    }
    labels
}

/// Returns the labels of nodes: two have one label if a walk of the route leads from one to the
/// other.
pub fn labels_of(network: &Network, known: &Known, route: Route) -> [u8; 256]
    ensures { (n : ℕ) → spec.label_in result n ≡ label_of
        (filter (spec.may_lead_over network.now (reading_in known.now) route) network.now.branches)
        n }
{
    labels_among(network, known, route, network.branches.as_slice())
}

/// Returns whether two nodes have one label.
pub fn is_same_label(labels: &[u8; 256], a: u8, b: u8) -> bool
    ensures { result ≡ spec.joined_in labels.now a b }
{
    labels[usize::from(a)] == labels[usize::from(b)]
}

/// Returns whether a walk of the route leads from one node to another.
pub fn leads(network: &Network, known: &Known, route: Route, a: u8, b: u8) -> bool
    ensures { result ≡ spec.leads network.now (reading_in known.now) route a b }
{
    let labels = labels_of(network, known, route);
    is_same_label(&labels, a, b)
}
