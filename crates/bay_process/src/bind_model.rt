// The handles of the rows of profile 2 that events change, in the tree of a bay.
ghost use Rattle.std.specs.Prelude.{◌≡◌, length, IfOk};
ghost use Rattle.bay_config.specs.declared.bay.Bay.{Bay};
ghost use Rattle.bay_process.specs.Layout.{layout_of};
ghost use Rattle.bay_process.specs.Nodes.{AreLocalRowsOf, HasInputLeaves, HasLocalLeaves, IsModelSource};
ghost use Rattle.bay_process.specs.ModelRows.{AreInputsBound, IsModelled, profile_with};

use crate::model::{LocalRows, ModelRows};
use crate::nodes::{SwitchNodes, find_status_rows};
use crate::rows::StatusRows;
use bay_base::listing::Listing;
use bay_base::text::Text;
use bay_control::control::ControlTable;
use bay_nodes::names::{DEVICE, INDICATION, PHYSICAL_DEVICE, node_name};
use bay_nodes::paths::{HEALTH, INPUT, LOCAL, PHYSICAL_HEALTH};
use bay_nodes::profile::Profile;
use bay_tree::tree::Tree;
use std::alloc::{AllocError, Global};

// Returns the rows of Loc of each switch, in the order of the switches, with the inputs of their
// keys.
fn find_locals(
    alloc: Global,
    tree: &Tree,
    nodes: &[SwitchNodes],
    controls: &ControlTable,
) -> Result<Vec<LocalRows>, AllocError>
    requires { HasLocalLeaves tree.now nodes.now }
    ensures sized { IfOk result (λ locals. length locals.items ≡ length nodes.now) }
    ensures named { IfOk result
        (λ locals. AreLocalRowsOf (layout_of tree.now) nodes.now controls.now locals.items) }
{
    let mut locals = Vec::new(alloc);
    for index in 0..nodes.len() {
        let rows = find_status_rows(alloc, tree, nodes[index].position.as_str(), LOCAL)?;
        let key = controls.key(index);
        locals.push(LocalRows { rows, key })?;
    }
    Ok(locals)
}

// Returns the rows of the value of each of `count` inputs, in the order of the inputs.
fn find_inputs(alloc: Global, tree: &Tree, count: usize) -> Result<Vec<StatusRows>, AllocError>
    requires { HasInputLeaves tree.now count }
    ensures sized { IfOk result (λ rows. length rows.items ≡ count) }
    ensures bound { IfOk result (λ rows. AreInputsBound (layout_of tree.now) 0 rows.items) }
{
    let mut inputs = Vec::new(alloc);
    for index in 0..count {
        let object = node_name(alloc, INDICATION, index + 1)?;
        let rows = find_status_rows(alloc, tree, object.as_str(), INPUT)?;
        inputs.push(rows)?;
    }
    Ok(inputs)
}

/// Returns the handles of the rows of profile 2 that events change; `None` in profile 1. Fails only
/// if an allocation fails.
pub fn bind_model(
    alloc: Global,
    tree: &Tree,
    profile: Profile,
    nodes: &[SwitchNodes],
    inputs: &[Text],
    controls: &ControlTable,
) -> Result<Option<ModelRows>, AllocError>
    requires { (bay : Bay)
        × IsModelSource bay profile tree.now nodes.now inputs.now controls.now }
    ensures profile { IfOk result (λ model. profile_with model ≡ profile) }
    ensures bound { (bay : Bay)
        → IsModelSource bay profile tree.now nodes.now inputs.now controls.now
        → IfOk result (IsModelled (layout_of tree.now) bay.inputs bay.switches) }
{
    match profile {
        Profile::One => Ok(None),
        Profile::Two => {
            let health = find_status_rows(alloc, tree, DEVICE, HEALTH)?;
            let physical = find_status_rows(alloc, tree, PHYSICAL_DEVICE, PHYSICAL_HEALTH)?;
            let locals = find_locals(alloc, tree, nodes, controls)?;
            let rows = find_inputs(alloc, tree, inputs.len())?;
            Ok(Some(ModelRows {
                health,
                physical,
                locals: Listing::new(locals),
                inputs: Listing::new(rows),
            }))
        }
    }
}
