// The rows of the controls of a bay's switches in its tree (IEC 61850-8-1: stSeld, SBO, SBOw, Oper
// and Cancel).
ghost use Rattle.std.specs.Prelude.{◌≡◌, ◌++◌, ℕ, List, codes, length, Some, IfOk};
ghost use Rattle.bay_tree.specs.Rows.{row_index};
ghost use Rattle.bay_tree.specs.declared.leaf.LeafType.TheVariants as leaf_type;
ghost use Rattle.bay_tree.specs.declared.row.Row.{Row};
ghost use Rattle.bay_nodes.specs.Names.{ControlNames, control_names_of};
ghost use Rattle.bay_process.specs.Controls.{HaveSelected, AreControlRows, AreAllControlRows};
ghost use Rattle.bay_process.specs.Layout.{layout_of};
ghost use Rattle.bay_process.specs.Nodes.{HasLeaf};
ghost use Rattle.bay_process.specs.declared.controls.ControlRows as declared;

use bay_nodes::names::{CONTROL, node_name, row_name};
use bay_nodes::paths::{CANCEL, OPERATE, SELECT, SELECT_WITH_VALUE, SELECTED};
use bay_tree::tree::{Handle, Tree};
use std::alloc::{AllocError, Global};

/// The handles of the rows of a switch's control: `stSeld`, and those of its control rows that its
/// kind of control has.
#[derive(Clone, Copy, Debug)]
pub struct ControlRows {
    /// Whether the switch is selected: `stSeld`.
    pub selected: Handle,
    /// Selects it: `SBO`.
    pub select: Option<Handle>,
    /// Selects it with value: `SBOw`.
    pub select_with_value: Option<Handle>,
    /// Operates it: `Oper`.
    pub operate: Option<Handle>,
    /// Cancels its selection: `Cancel`.
    pub cancel: Option<Handle>,
}

// Returns the handle of the row at a path of a node, if the tree has it.
fn handle_at(
    alloc: Global,
    tree: &Tree,
    node: &str,
    path: &str,
) -> Result<Option<Handle>, AllocError>
    ensures { IfOk result (λ handle. handle ≡ row_index tree.now (node.now ++ path.now)) }
{
    let name = row_name(alloc, node, path)?;
    match tree.find(name.as_str()) {
        Ok(handle) => Ok(Some(handle)),
        Err(_) => Ok(None),
    }
}

// Returns the handle of the row `stSeld` of a control.
fn selected_at(alloc: Global, tree: &Tree, node: &str) -> Result<Handle, AllocError>
    requires { HasLeaf tree.now (control_names_of node.now).selected leaf_type.Truth }
    ensures { IfOk result (λ handle. row_index tree.now (control_names_of node.now).selected
        ≡ Some handle) }
{
    match handle_at(alloc, tree, node, SELECTED)? {
        Some(handle) => Ok(handle),
        None => unreachable!(),
    }
}

/// Returns the handles of the rows of the controls of `count` switches, in the order of the
/// switches. Fails only if an allocation fails.
pub fn control_rows(
    alloc: Global,
    tree: &Tree,
    count: usize,
) -> Result<Vec<ControlRows>, AllocError>
    requires { HaveSelected tree.now count }
    ensures sized { IfOk result (λ controls. length controls.items ≡ count) }
    ensures named { IfOk result (λ controls. AreAllControlRows tree.now controls.items) }
{
    let mut controls = Vec::new(alloc);
    for index in 0..count {
        let name = node_name(alloc, CONTROL, index + 1)?;
        let node = name.as_str();
        let selected = selected_at(alloc, tree, node)?;
        let select = handle_at(alloc, tree, node, SELECT)?;
        let select_with_value = handle_at(alloc, tree, node, SELECT_WITH_VALUE)?;
        let operate = handle_at(alloc, tree, node, OPERATE)?;
        let cancel = handle_at(alloc, tree, node, CANCEL)?;
        controls.push(ControlRows {
            selected,
            select,
            select_with_value,
            operate,
            cancel,
        })?;
    }
    Ok(controls)
}

/// The handles of a control's rows stay valid when the value of a row changes. Does nothing; its
/// contract is the law.
pub fn control_rows_stay()
    ensures { (before after : List Row) (names : ControlNames) (handles : declared.ControlRows)
        → layout_of before ≡ layout_of after → AreControlRows before names handles
        → AreControlRows after names handles }
{}
