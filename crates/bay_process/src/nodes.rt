// The rows of a bay's switches in its tree.
ghost use Rattle.std.specs.Prelude.{◌≡◌, ◌≢◌, ◌<◌, ◌++◌, length, None, IfOk};
ghost use Rattle.bay_tree.specs.Rows.{leaf_named};
ghost use Rattle.bay_process.specs.Layout.{layout_of};
ghost use Rattle.bay_nodes.specs.Names.{names_at};
ghost use Rattle.bay_process.specs.Nodes.{AreNodesOf, AreSwitchNodes, nodes_names, HasSwitch, HasSwitches, HaveStatus, IsHandleOf, AreHandlesOf, AreSwitchRowsOf, AreRowsOfNodes};

use crate::rows::{StatusRows, SwitchRows};
use bay_base::text::Text;
use bay_config::bay::Bay;
use bay_config::nodes::{control_name, interlocking_name, node_name};
use bay_nodes::names::row_name;
use bay_nodes::paths::{CLOSING, OPENING, OPERATIONS, POSITION, StatusPaths};
use bay_tree::tree::{Handle, Tree};
use std::alloc::{AllocError, Global};

/// The names of the logical nodes of a switch (IEC 61850-7-4).
#[derive(Drop)]
pub struct SwitchNodes {
    /// XCBR or XSWI.
    pub position: Text,
    /// CSWI.
    pub control: Text,
    /// CILO.
    pub interlocking: Text,
}

// Returns the names of the nodes of the switch at an index.
fn nodes_at(alloc: Global, bay: &Bay, index: usize) -> Result<SwitchNodes, AllocError>
    requires { index < length bay.now.switches }
    ensures { IfOk result (AreNodesOf bay.now index) }
{
    let position = node_name(alloc, bay, index)?;
    let control = control_name(alloc, bay, index)?;
    let interlocking = interlocking_name(alloc, bay, index)?;
    Ok(SwitchNodes {
        position,
        control,
        interlocking,
    })
}

/// Returns the names of the nodes of the switches, in the order of the switches. Fails only if an
/// allocation fails.
pub fn all_nodes(alloc: Global, bay: &Bay) -> Result<Vec<SwitchNodes>, AllocError>
    ensures sized { IfOk result (λ nodes. length nodes.items ≡ length bay.now.switches) }
    ensures named { IfOk result (λ nodes. AreSwitchNodes bay.now nodes.items) }
{
    let mut all = Vec::new(alloc);
    for index in 0..bay.switches.as_slice().len() {
        let nodes = nodes_at(alloc, bay, index)?;
        all.push(nodes)?;
    }
    Ok(all)
}

// Returns the handle of the row with this name, which must have a value.
fn handle_of(tree: &Tree, name: &str) -> Handle
    requires { leaf_named name.now tree.now ≢ None }
    ensures { IsHandleOf tree.now name.now result }
{
    match tree.find(name) {
        Ok(handle) => handle,
        Err(_) => unreachable!(),
    }
}

// Returns the handle of the row at a path of a node, which must have a value.
fn handle_at(alloc: Global, tree: &Tree, node: &str, path: &str) -> Result<Handle, AllocError>
    requires { leaf_named (node.now ++ path.now) tree.now ≢ None }
    ensures { IfOk result (IsHandleOf tree.now (node.now ++ path.now)) }
{
    let name = row_name(alloc, node, path)?;
    Ok(handle_of(tree, name.as_str()))
}

/// Returns the rows at the paths below a node: the value, its quality and its time stamp. Fails
/// only if an allocation fails.
pub fn find_status_rows(
    alloc: Global,
    tree: &Tree,
    node: &str,
    paths: StatusPaths,
) -> Result<StatusRows, AllocError>
    requires { HaveStatus tree.now (names_at node.now paths) }
    ensures { IfOk result (AreHandlesOf tree.now (names_at node.now paths)) }
{
    let value = handle_at(alloc, tree, node, paths.value)?;
    let quality = handle_at(alloc, tree, node, paths.quality)?;
    let time = handle_at(alloc, tree, node, paths.time)?;
    Ok(StatusRows {
        value,
        quality,
        time,
    })
}

// Returns the rows of a switch: those of its node, of its control and of its interlocking.
fn find_switch_rows(
    alloc: Global,
    tree: &Tree,
    nodes: &SwitchNodes,
) -> Result<SwitchRows, AllocError>
    requires { HasSwitch tree.now (nodes_names nodes.now) }
    ensures { IfOk result (AreSwitchRowsOf (layout_of tree.now) (nodes_names nodes.now)) }
{
    let node = nodes.position.as_str();
    let control = nodes.control.as_str();
    let interlocking = nodes.interlocking.as_str();
    let position = find_status_rows(alloc, tree, node, POSITION)?;
    let repeated = find_status_rows(alloc, tree, control, POSITION)?;
    let operations = find_status_rows(alloc, tree, node, OPERATIONS)?;
    let ena_opn = find_status_rows(alloc, tree, interlocking, OPENING)?;
    let ena_cls = find_status_rows(alloc, tree, interlocking, CLOSING)?;
    Ok(SwitchRows {
        position,
        control: repeated,
        operations,
        ena_opn,
        ena_cls,
    })
}

/// Returns the rows of the switches, in the order of the switches. Fails only if an allocation
/// fails.
pub fn all_switch_rows(
    alloc: Global,
    tree: &Tree,
    nodes: &[SwitchNodes],
) -> Result<Vec<SwitchRows>, AllocError>
    requires { HasSwitches tree.now nodes.now }
    ensures sized { IfOk result (λ rows. length rows.items ≡ length nodes.now) }
    ensures named { IfOk result (λ rows. AreRowsOfNodes (layout_of tree.now) nodes.now rows.items) }
{
    let mut rows = Vec::new(alloc);
    for i in 0..nodes.len() {
        let one = find_switch_rows(alloc, tree, &nodes[i])?;
        rows.push(one)?;
    }
    Ok(rows)
}
