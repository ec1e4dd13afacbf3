// The nodes and branches that the tables of a diagram describe.
ghost use Rattle.std.specs.Prelude.{◌≡◌, map, option_and_then, IfOk};
ghost use Rattle.bay_diagram_file.specs.Checks as checks;
ghost use Rattle.bay_diagram_file.specs.Diagram.{named_of};
ghost use Rattle.bay_diagram_file.specs.Parts as spec;

use crate::checks::{input_named, is_earth_named, kind_of, name_of, node_named, switch_named};
use crate::diagram::Diagram;
use crate::row::{NodeRow, NodeWord, SwitchRow};
use bay_base::listing::Listing;
use bay_base::switch::SwitchKind;
use bay_base::text::Text;
use bay_config::bay::Bay;
use bay_diagram::network::{Branch, Checks, Device, Network, Node};
use std::alloc::{AllocError, Global};

// Returns the number of the node with a table at an index.
fn number_of(index: usize) -> u8
    ensures { result ≡ spec.number_of index }
{
    if index < 256 { index as u8 } else { 0 }
}

// Returns the number of the node with a name.
fn number_named(nodes: &[NodeRow], name: &str) -> u8
    ensures { result ≡ spec.number_named nodes.now name.now }
{
    number_of(node_named(nodes, name).unwrap_or(0))
}

// Returns the index of the input with a name that may be missing.
fn input_of(inputs: &[Text], name: &Option<Text>) -> Option<usize>
    ensures { result ≡ option_and_then (checks.input_named inputs.now) name.now }
{
    match name {
        Some(name) => input_named(inputs, name.as_str()),
        None => None,
    }
}

// Returns the node of a table; an earth is none.
fn node_of(inputs: &[Text], index: usize, row: &NodeRow) -> Option<Node>
    ensures { result ≡ spec.node_of inputs.now index row.now }
{
    match row.kind {
        NodeWord::Earth => None,
        NodeWord::Kind(kind) => Some(Node {
            number: number_of(index),
            kind,
            is_source: row.is_source,
            dead: input_of(inputs, &row.dead),
        }),
    }
}

// Returns the nodes of the tables.
fn nodes_of(alloc: Global, inputs: &[Text], rows: &[NodeRow]) -> Result<Vec<Node>, AllocError>
    ensures { IfOk result (λ nodes. nodes.items ≡ spec.nodes_from inputs.now 0 rows.now) }
{
    let mut nodes = Vec::new(alloc);
    for (index, row) in rows.iter().enumerate() {
        if let Some(node) = node_of(inputs, index, row) {
            nodes.push(node)?;
        }
    }
    Ok(nodes)
}

// Returns how the position of a switch is known.
fn device_of(bay: &Bay, row: &SwitchRow) -> Device
    ensures { result ≡ spec.device_by bay.now row.now row.now.switch }
{
    let inputs = bay.inputs.as_slice();
    match &row.switch {
        Some(id) => Device::Own {
            switch: switch_named(bay.switches.as_slice(), id.as_str()).unwrap_or(0),
        },
        None => Device::Other {
            closed_input: input_of(inputs, &row.closed),
            open_input: input_of(inputs, &row.opened),
        },
    }
}

// Returns the numbers of the nodes of a switch; those of an earthing switch are both the node that
// it earths.
fn ends_of(nodes: &[NodeRow], row: &SwitchRow) -> (u8, u8)
    ensures { result ≡ spec.ends_of nodes.now row.now }
{
    let one = number_named(nodes, row.one.as_str());
    let other = number_named(nodes, row.other.as_str());
    if is_earth_named(nodes, row.one.as_str()) {
        (other, other)
    } else if is_earth_named(nodes, row.other.as_str()) {
        (one, one)
    } else {
        (one, other)
    }
}

// Returns the branch of a table.
fn branch_of(bay: &Bay, nodes: &[NodeRow], index: usize, row: &SwitchRow) -> Branch
    ensures { result ≡ spec.branch_of bay.now nodes.now index row.now }
{
    let kind = kind_of(bay.switches.as_slice(), row);
    let (one, other) = ends_of(nodes, row);
    let is_disconnector = match kind {
        SwitchKind::Disconnector => true,
        SwitchKind::Breaker | SwitchKind::Earthing => false,
    };
    Branch {
        number: index,
        one,
        other,
        kind,
        isolates: row.isolates || is_disconnector,
        synchro: input_of(bay.inputs.as_slice(), &row.synchro),
        is_coupler: row.is_coupler,
        device: device_of(bay, row),
    }
}

// Returns the branches of the tables.
fn branches_of(
    alloc: Global,
    bay: &Bay,
    nodes: &[NodeRow],
    rows: &[SwitchRow],
) -> Result<Vec<Branch>, AllocError>
    ensures { IfOk result (λ branches. branches.items
        ≡ spec.branches_from bay.now nodes.now 0 rows.now) }
{
    let mut branches = Vec::new(alloc);
    for (index, row) in rows.iter().enumerate() {
        branches.push(branch_of(bay, nodes, index, row))?;
    }
    Ok(branches)
}

// Returns the nodes and branches of the tables.
fn network_of_tables(
    alloc: Global,
    bay: &Bay,
    checks: Checks,
    nodes: &[NodeRow],
    rows: &[SwitchRow],
) -> Result<Network, AllocError>
    ensures { IfOk result (λ network. network
        ≡ spec.network_of_tables bay.now checks nodes.now rows.now) }
{
    Ok(Network {
        nodes: Listing::new(nodes_of(alloc, bay.inputs.as_slice(), nodes)?),
        branches: Listing::new(branches_of(alloc, bay, nodes, rows)?),
        checks,
    })
}

// Returns the names of the nodes.
fn node_names(alloc: Global, rows: &[NodeRow]) -> Result<Vec<Text>, AllocError>
    ensures { IfOk result (λ names. names.items ≡ map (λ n. n.name) rows.now) }
{
    let mut names = Vec::new(alloc);
    for row in rows {
        names.push(Text::from_str(alloc, row.name.as_str())?)?;
    }
    Ok(names)
}

// Returns the ids and names of the switches.
fn switch_names(alloc: Global, rows: &[SwitchRow]) -> Result<Vec<Text>, AllocError>
    ensures { IfOk result (λ names. names.items ≡ map checks.name_of rows.now) }
{
    let mut names = Vec::new(alloc);
    for row in rows {
        names.push(Text::from_str(alloc, name_of(row))?)?;
    }
    Ok(names)
}

/// Returns the diagram of the tables, with its names. Fails only if an allocation fails.
pub fn diagram_of(
    alloc: Global,
    bay: &Bay,
    checks: Checks,
    nodes: &[NodeRow],
    rows: &[SwitchRow],
) -> Result<Diagram, AllocError>
    ensures { IfOk result (λ diagram. diagram ≡ named_of bay.now checks nodes.now rows.now) }
{
    Ok(Diagram {
        network: network_of_tables(alloc, bay, checks, nodes, rows)?,
        nodes: Listing::new(node_names(alloc, nodes)?),
        switches: Listing::new(switch_names(alloc, rows)?),
    })
}
