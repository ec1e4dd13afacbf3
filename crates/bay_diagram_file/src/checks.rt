// What the tables of a diagram file must be together, for a bay. Each check has the first table
// that fails it.
ghost use Rattle.std.specs.Prelude.{◌≡◌, find, option_copied, position};
ghost use Rattle.bay_base.specs.Names.{same_name};
ghost use Rattle.bay_diagram_file.specs.Checks as spec;
ghost use Rattle.bay_diagram_file.specs.declared.fault.Place.TheVariants as places;

use crate::fault::{DiagramFault, FaultKind, Place};
use crate::row::{NodeRow, NodeWord, RowFault, SwitchRow};
use bay_base::names::same_name;
use bay_base::switch::SwitchKind;
use bay_base::text::Text;
use bay_config::bay::{Bay, Switch};
use bay_diagram::network::NodeKind;

/// Returns the index of the node with a name; `None` if there is none.
pub fn node_named(nodes: &[NodeRow], name: &str) -> Option<usize>
    ensures { result ≡ spec.node_named nodes.now name.now }
{
    nodes
        .iter()
        .position(|node| same_name(name, node.name.as_str()))
}

/// Returns the index of the switch of the bay with an id; `None` if there is none.
pub fn switch_named(switches: &[Switch], id: &str) -> Option<usize>
    ensures { result ≡ spec.switch_named switches.now id.now }
{
    switches
        .iter()
        .position(|switch| same_name(id, switch.id.as_str()))
}

/// Returns the index of the input with a name; `None` if there is none.
pub fn input_named(inputs: &[Text], name: &str) -> Option<usize>
    ensures { result ≡ spec.input_named inputs.now name.now }
{
    inputs
        .iter()
        .position(|input| same_name(name, input.as_str()))
}

// Returns whether a name is given, and is of none of the inputs.
fn is_no_input(inputs: &[Text], name: &Option<Text>) -> bool
    ensures { result ≡ spec.is_no_input inputs.now name.now }
{
    match name {
        Some(name) => input_named(inputs, name.as_str()).is_none(),
        None => false,
    }
}

// Returns whether an id is given, and is of none of the switches.
fn is_no_switch(switches: &[Switch], id: &Option<Text>) -> bool
    ensures { result ≡ spec.is_no_switch switches.now id.now }
{
    match id {
        Some(id) => switch_named(switches, id.as_str()).is_none(),
        None => false,
    }
}

// Returns whether an id is given, and is of one of the switches.
fn is_switch(switches: &[Switch], id: &Option<Text>) -> bool
    ensures { result ≡ spec.is_switch switches.now id.now }
{
    match id {
        Some(id) => switch_named(switches, id.as_str()).is_some(),
        None => false,
    }
}

/// Returns the name of a switch, of the bay or of another one.
pub fn name_of(row: &SwitchRow) -> &str
    ensures { result.now ≡ spec.name_of row.now }
{
    match (&row.switch, &row.name) {
        (Some(id), _) => id.as_str(),
        (None, Some(name)) => name.as_str(),
        (None, None) => "",
    }
}

// Returns whether a node is an earth or a junction.
fn is_bare(kind: NodeWord) -> bool
    ensures { result ≡ spec.is_bare kind }
{
    match kind {
        NodeWord::Earth | NodeWord::Kind(NodeKind::Junction) => true,
        NodeWord::Kind(_) => false,
    }
}

// Returns whether a node is an earth.
fn is_earth(kind: NodeWord) -> bool
    ensures { result ≡ spec.is_earth kind }
{
    match kind {
        NodeWord::Earth => true,
        NodeWord::Kind(_) => false,
    }
}

// Returns the number of nodes with a name.
fn nodes_named(nodes: &[NodeRow], name: &str) -> usize
    ensures { result ≡ spec.nodes_named nodes.now name.now }
{
    nodes
        .iter()
        .filter(|node| same_name(name, node.name.as_str()))
        .count()
}

// Returns whether another node has the name, too.
fn is_duplicate_node(nodes: &[NodeRow], node: &NodeRow) -> bool
    ensures { result ≡ spec.is_duplicate_node nodes.now node.now }
{
    1 < nodes_named(nodes, node.name.as_str())
}

// Returns whether a node that may be no source is one, or one that is no source has a key of
// sources.
fn is_bad_source(node: &NodeRow) -> bool
    ensures { result ≡ spec.is_bad_source node.now }
{
    if node.is_source {
        is_bare(node.kind)
    } else {
        node.has_system || node.dead.is_some()
    }
}

// Returns whether a switch leads to a node.
fn leads_to(node: &NodeRow, row: &SwitchRow) -> bool
    ensures { result ≡ spec.leads_to node.now row.now }
{
    let name = node.name.as_str();
    same_name(name, row.one.as_str()) || same_name(name, row.other.as_str())
}

// Returns the number of switches that lead to a node.
fn switches_at(switches: &[SwitchRow], node: &NodeRow) -> usize
    ensures { result ≡ spec.switches_at switches.now node.now }
{
    switches.iter().filter(|row| leads_to(node, row)).count()
}

// Returns how many switches must lead to a node: two to a junction, one to any other.
fn switches_needed(kind: NodeWord) -> usize
    ensures { result ≡ spec.switches_needed kind }
{
    match kind {
        NodeWord::Kind(NodeKind::Junction) => 2,
        NodeWord::Kind(_) | NodeWord::Earth => 1,
    }
}

// Returns whether too few switches lead to a node.
fn is_loose(switches: &[SwitchRow], node: &NodeRow) -> bool
    ensures { result ≡ spec.is_loose switches.now node.now }
{
    switches_at(switches, node) < switches_needed(node.kind)
}

// Returns the number of switches with a name.
fn switches_named(switches: &[SwitchRow], name: &str) -> usize
    ensures { result ≡ spec.switches_named switches.now name.now }
{
    switches
        .iter()
        .filter(|row| same_name(name, name_of(row)))
        .count()
}

// Returns whether another switch has the name, too.
fn is_duplicate_switch(switches: &[SwitchRow], row: &SwitchRow) -> bool
    ensures { result ≡ spec.is_duplicate_switch switches.now row.now }
{
    1 < switches_named(switches, name_of(row))
}

// Returns whether a switch has a name of no node, no input or no switch of the bay.
fn has_unknown_name(bay: &Bay, nodes: &[NodeRow], row: &SwitchRow) -> bool
    ensures { result ≡ spec.has_unknown_name bay.now nodes.now row.now }
{
    let inputs = bay.inputs.as_slice();
    node_named(nodes, row.one.as_str()).is_none()
        || (node_named(nodes, row.other.as_str()).is_none()
            || (is_no_switch(bay.switches.as_slice(), &row.switch)
                || (is_no_input(inputs, &row.closed)
                    || (is_no_input(inputs, &row.opened) || is_no_input(inputs, &row.synchro)))))
}

// Returns the switch of the bay with an id; `None` if there is none.
fn switch_with<'a>(switches: &'a [Switch], id: &str) -> Option<&'a Switch>
    ensures { option_copied result ≡ find (λ s. same_name id.now s.id) switches.now }
{
    switches
        .iter()
        .find(|switch| same_name(id, switch.id.as_str()))
}

// Returns the kind of the switch of the bay with an id; a breaker if there is none.
fn kind_named(switches: &[Switch], id: &str) -> SwitchKind
    ensures { result ≡ spec.kind_found (find (λ s. same_name id.now s.id) switches.now) }
{
    match switch_with(switches, id) {
        Some(switch) => switch.kind,
        None => SwitchKind::Breaker,
    }
}

// Returns the kind of a switch by the id of a switch of the bay, or else by its key.
fn kind_by(switches: &[Switch], id: &Option<Text>, kind: Option<SwitchKind>) -> SwitchKind
    ensures { result ≡ spec.kind_by switches.now id.now kind }
{
    match id {
        Some(id) => kind_named(switches, id.as_str()),
        None => kind.unwrap_or(SwitchKind::Breaker),
    }
}

/// Returns the kind of a switch, of the bay or of another one.
pub fn kind_of(switches: &[Switch], row: &SwitchRow) -> SwitchKind
    ensures { result ≡ spec.kind_of switches.now row.now }
{
    kind_by(switches, &row.switch, row.kind)
}

/// Returns whether the node with a name is an earth.
pub fn is_earth_named(nodes: &[NodeRow], name: &str) -> bool
    ensures { result ≡ spec.is_earth_named nodes.now name.now }
{
    nodes.iter().any(|node| same_name(name, node.name.as_str()) && is_earth(node.kind))
}

// Returns whether a kind of switch is a breaker.
fn is_breaker(kind: SwitchKind) -> bool
    ensures { result ≡ spec.is_breaker kind }
{
    match kind {
        SwitchKind::Breaker => true,
        SwitchKind::Disconnector | SwitchKind::Earthing => false,
    }
}

// Returns whether a switch has a key that only a breaker of the bay may have, and is none.
fn has_breaker_keys(switches: &[Switch], row: &SwitchRow) -> bool
    ensures { result ≡ spec.has_breaker_keys switches.now row.now }
{
    (row.synchro.is_some() || row.is_coupler)
        && !(row.switch.is_some() && is_breaker(kind_of(switches, row)))
}

// Returns whether the keys of a switch are neither those of a switch of the bay nor those of one of
// another bay.
fn has_bad_keys(switches: &[Switch], row: &SwitchRow) -> bool
    ensures { result ≡ spec.has_bad_keys switches.now row.now }
{
    row.switch.is_some() == row.name.is_some()
        || (row.switch.is_some()
            && (row.kind.is_some() || (row.closed.is_some() || row.opened.is_some()))
            || (row.name.is_some() && row.kind.is_none()
                || (is_switch(switches, &row.name) || has_breaker_keys(switches, row))))
}

// Returns whether a kind of switch does not fit its nodes, of which some are earths, or isolates.
fn fits_badly(kind: SwitchKind, one: bool, other: bool, isolates: bool) -> bool
    ensures { result ≡ spec.fits_badly kind one other isolates }
{
    match kind {
        SwitchKind::Earthing => one == other || isolates,
        SwitchKind::Breaker | SwitchKind::Disconnector => one || other,
    }
}

// Returns whether a switch does not fit its nodes.
fn has_bad_nodes(switches: &[Switch], nodes: &[NodeRow], row: &SwitchRow) -> bool
    ensures { result ≡ spec.has_bad_nodes switches.now nodes.now row.now }
{
    let one = is_earth_named(nodes, row.one.as_str());
    let other = is_earth_named(nodes, row.other.as_str());
    same_name(row.one.as_str(), row.other.as_str())
        || fits_badly(kind_of(switches, row), one, other, row.isolates)
}

// Returns whether a table is a switch of the bay.
fn has_id(id: &Option<Text>, switch: &Switch) -> bool
    ensures { result ≡ spec.has_id id.now switch.now }
{
    match id {
        Some(id) => same_name(id.as_str(), switch.id.as_str()),
        None => false,
    }
}

// Returns whether a table is the switch of the bay.
fn is_present(rows: &[SwitchRow], switch: &Switch) -> bool
    ensures { result ≡ spec.is_present rows.now switch.now }
{
    rows.iter().any(|row| has_id(&row.switch, switch))
}

// Returns whether no table is the switch of the bay.
fn is_absent(rows: &[SwitchRow], switch: &Switch) -> bool
    ensures { result ≡ spec.is_absent rows.now switch.now }
{
    !is_present(rows, switch)
}

// Returns the refusal of a node; `None` if none fails the check.
fn node_refusal(kind: FaultKind, found: Option<usize>) -> Option<DiagramFault>
    ensures { result ≡ spec.refusal kind places.Node found }
{
    match found {
        Some(index) => Some(DiagramFault {
            kind,
            place: Place::Node(index),
        }),
        None => None,
    }
}

// Returns the refusal of a switch of the diagram; `None` if none fails the check.
fn between_refusal(kind: FaultKind, found: Option<usize>) -> Option<DiagramFault>
    ensures { result ≡ spec.refusal kind places.Between found }
{
    match found {
        Some(index) => Some(DiagramFault {
            kind,
            place: Place::Between(index),
        }),
        None => None,
    }
}

// Returns the refusal of a switch of the bay; `None` if none fails the check.
fn switch_refusal(kind: FaultKind, found: Option<usize>) -> Option<DiagramFault>
    ensures { result ≡ spec.refusal kind places.Switch found }
{
    match found {
        Some(index) => Some(DiagramFault {
            kind,
            place: Place::Switch(index),
        }),
        None => None,
    }
}

/// Returns the first of two refusals.
pub fn first_refusal(one: Option<DiagramFault>, other: Option<DiagramFault>) -> Option<DiagramFault>
    ensures { result ≡ spec.first_refusal one other }
{
    match one {
        Some(fault) => Some(fault),
        None => other,
    }
}

// Returns whether the fault of a table by itself is this one.
fn is_fault(which: RowFault, found: Option<RowFault>) -> bool
    ensures { result ≡ spec.is_fault which found }
{
    match (which, found) {
        (RowFault::UnknownKey, Some(RowFault::UnknownKey))
        | (RowFault::MissingKey, Some(RowFault::MissingKey))
        | (RowFault::BadValue, Some(RowFault::BadValue)) => true,
        _ => false,
    }
}

// Returns the first node with this fault by itself.
fn faulty_node(which: RowFault, nodes: &[NodeRow]) -> Option<usize>
    ensures { result ≡ position (λ n. spec.is_fault which n.fault) nodes.now }
{
    nodes.iter().position(|node| is_fault(which, node.fault))
}

// Returns the first switch with this fault by itself.
fn faulty_switch(which: RowFault, switches: &[SwitchRow]) -> Option<usize>
    ensures { result ≡ position (λ s. spec.is_fault which s.fault) switches.now }
{
    switches.iter().position(|row| is_fault(which, row.fault))
}

// Returns the refusal of the first table with a fault by itself.
fn row_refusal(
    kind: FaultKind,
    which: RowFault,
    nodes: &[NodeRow],
    switches: &[SwitchRow],
) -> Option<DiagramFault>
    ensures { result ≡ spec.row_refusal kind which nodes.now switches.now }
{
    let node = faulty_node(which, nodes);
    let between = faulty_switch(which, switches);
    first_refusal(node_refusal(kind, node), between_refusal(kind, between))
}

// Returns the first node whose name another node has, too.
fn duplicate_node(nodes: &[NodeRow]) -> Option<usize>
    ensures { result ≡ position (spec.is_duplicate_node nodes.now) nodes.now }
{
    nodes.iter().position(|node| is_duplicate_node(nodes, node))
}

// Returns the first switch whose name another switch has, too.
fn duplicate_switch(switches: &[SwitchRow]) -> Option<usize>
    ensures { result ≡ position (spec.is_duplicate_switch switches.now) switches.now }
{
    switches
        .iter()
        .position(|row| is_duplicate_switch(switches, row))
}

// Returns the first node whose input is not an input of the bay.
fn unknown_input_node(inputs: &[Text], nodes: &[NodeRow]) -> Option<usize>
    ensures { result ≡ position (λ n. spec.is_no_input inputs.now n.dead) nodes.now }
{
    nodes
        .iter()
        .position(|node| is_no_input(inputs, &node.dead))
}

// Returns the first switch with a name of no node, no input or no switch of the bay.
fn unknown_name_switch(bay: &Bay, nodes: &[NodeRow], switches: &[SwitchRow]) -> Option<usize>
    ensures { result ≡ position (spec.has_unknown_name bay.now nodes.now) switches.now }
{
    switches
        .iter()
        .position(|row| has_unknown_name(bay, nodes, row))
}

// Returns the refusal of the first name that two tables have, or that is unknown.
fn name_refusal(bay: &Bay, nodes: &[NodeRow], switches: &[SwitchRow]) -> Option<DiagramFault>
    ensures { result ≡ spec.name_refusal bay.now nodes.now switches.now }
{
    let node = node_refusal(FaultKind::DuplicateName, duplicate_node(nodes));
    let switch = between_refusal(FaultKind::DuplicateName, duplicate_switch(switches));
    let no_input = unknown_input_node(bay.inputs.as_slice(), nodes);
    let input = node_refusal(FaultKind::UnknownName, no_input);
    let no_name = unknown_name_switch(bay, nodes, switches);
    let name = between_refusal(FaultKind::UnknownName, no_name);
    first_refusal(node, first_refusal(switch, first_refusal(input, name)))
}

// Returns the first node that may not be a source, or not have a key of sources.
fn bad_source(nodes: &[NodeRow]) -> Option<usize>
    ensures { result ≡ position spec.is_bad_source nodes.now }
{
    nodes.iter().position(|node| is_bad_source(node))
}

// Returns the first switch with keys that it may not have.
fn bad_keys(own: &[Switch], switches: &[SwitchRow]) -> Option<usize>
    ensures { result ≡ position (spec.has_bad_keys own.now) switches.now }
{
    switches.iter().position(|row| has_bad_keys(own, row))
}

// Returns the first switch that does not fit its nodes.
fn bad_nodes(own: &[Switch], nodes: &[NodeRow], switches: &[SwitchRow]) -> Option<usize>
    ensures { result ≡ position (spec.has_bad_nodes own.now nodes.now) switches.now }
{
    switches
        .iter()
        .position(|row| has_bad_nodes(own, nodes, row))
}

// Returns the refusal of the first bad source, or else of the first switch with bad keys, or with
// bad nodes.
fn shape_refusal(bay: &Bay, nodes: &[NodeRow], switches: &[SwitchRow]) -> Option<DiagramFault>
    ensures { result ≡ spec.shape_refusal bay.now nodes.now switches.now }
{
    let own = bay.switches.as_slice();
    let source = node_refusal(FaultKind::BadSource, bad_source(nodes));
    let keys = between_refusal(FaultKind::BadKeys, bad_keys(own, switches));
    let ends = between_refusal(FaultKind::BadNodes, bad_nodes(own, nodes, switches));
    first_refusal(source, first_refusal(keys, ends))
}

// Returns whether a node is a source.
fn has_source(nodes: &[NodeRow]) -> bool
    ensures { result ≡ spec.has_source nodes.now }
{
    nodes.iter().any(|node| node.is_source)
}

// Returns the refusal of a diagram without a source.
fn source_refusal(nodes: &[NodeRow]) -> Option<DiagramFault>
    ensures { result ≡ spec.source_refusal nodes.now }
{
    if has_source(nodes) {
        None
    } else {
        Some(DiagramFault {
            kind: FaultKind::Incomplete,
            place: Place::File,
        })
    }
}

// Returns the first switch of the bay that no table is.
fn absent_switch(own: &[Switch], switches: &[SwitchRow]) -> Option<usize>
    ensures { result ≡ position (spec.is_absent switches.now) own.now }
{
    own.iter().position(|switch| is_absent(switches, switch))
}

// Returns the first node to which too few switches lead.
fn loose_node(nodes: &[NodeRow], switches: &[SwitchRow]) -> Option<usize>
    ensures { result ≡ position (spec.is_loose switches.now) nodes.now }
{
    nodes.iter().position(|node| is_loose(switches, node))
}

// Returns the refusal of what is missing.
fn whole_refusal(bay: &Bay, nodes: &[NodeRow], switches: &[SwitchRow]) -> Option<DiagramFault>
    ensures { result ≡ spec.whole_refusal bay.now nodes.now switches.now }
{
    let absent = absent_switch(bay.switches.as_slice(), switches);
    let switch = switch_refusal(FaultKind::Incomplete, absent);
    let node = node_refusal(FaultKind::Incomplete, loose_node(nodes, switches));
    first_refusal(switch, first_refusal(node, source_refusal(nodes)))
}

/// Returns the first refusal of the tables of a diagram.
pub fn tables_refusal(bay: &Bay, nodes: &[NodeRow], switches: &[SwitchRow]) -> Option<DiagramFault>
    ensures { result ≡ spec.tables_refusal bay.now nodes.now switches.now }
{
    let unknown = row_refusal(FaultKind::UnknownKey, RowFault::UnknownKey, nodes, switches);
    let missing = row_refusal(FaultKind::MissingKey, RowFault::MissingKey, nodes, switches);
    let bad = row_refusal(FaultKind::BadValue, RowFault::BadValue, nodes, switches);
    let name = name_refusal(bay, nodes, switches);
    let shape = shape_refusal(bay, nodes, switches);
    let whole = whole_refusal(bay, nodes, switches);
    first_refusal(
        unknown,
        first_refusal(
            missing,
            first_refusal(bad, first_refusal(name, first_refusal(shape, whole))),
        ),
    )
}
