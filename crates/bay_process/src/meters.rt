// The rows of a bay's meters in its tree.
ghost use Rattle.std.specs.Prelude.{◌≡◌, ◌++◌, length, map, option_copied, IfOk};
ghost use Rattle.bay_process.specs.Layout.{layout_of, meters_of, AreMetersBound, IsFloatHandle};
ghost use Rattle.bay_nodes.specs.Names.{meter_names_of, names_at};
ghost use Rattle.bay_process.specs.Values as spec;
ghost use Rattle.bay_process.specs.Nodes.{AreHandlesOf, AreMeterNodes, AreMeterRowsOf, HasMeterLeaves, HaveMeters, HaveStatus};

use crate::meter::{BoundMeter, MeasureRows, MeterRows};
use crate::nodes::find_status_rows;
use bay_base::text::Text;
use bay_config::bay::{Bay, Meter};
use bay_config::nodes::meter_name;
use bay_nodes::names::row_name;
use bay_nodes::paths::{
    ACTIVE_POWER, ACTIVE_POWER_FLOAT, FREQUENCY, FREQUENCY_FLOAT, PHASE_A, PHASE_A_FLOAT, PHASE_B,
    PHASE_B_FLOAT, PHASE_C, PHASE_C_FLOAT, REACTIVE_POWER, REACTIVE_POWER_FLOAT, StatusPaths,
};
use bay_tree::leaf::Leaf;
use bay_tree::tree::{Handle, Tree};
use std::alloc::{AllocError, Global};

/// Returns the names of the nodes of the meters (IEC 61850-7-4, MMXU), in the order of the meters.
/// Fails only if an allocation fails.
pub fn all_meter_nodes(alloc: Global, bay: &Bay) -> Result<Vec<Text>, AllocError>
    ensures sized { IfOk result (λ nodes. length nodes.items ≡ length bay.now.meters) }
    ensures named { IfOk result (λ nodes. AreMeterNodes bay.now nodes.items) }
{
    let mut all = Vec::new(alloc);
    for index in 0..bay.meters.as_slice().len() {
        let node = meter_name(alloc, bay, index)?;
        all.push(node)?;
    }
    Ok(all)
}

// Returns whether a value is a float.
fn is_float(leaf: Option<&Leaf>) -> bool
    ensures { result ≡ spec.is_float (option_copied leaf.entry) }
{
    match leaf {
        Some(Leaf::Float(_)) => true,
        _ => false,
    }
}

// Returns the handle of the float with this name, if there is one.
fn float_named(tree: &Tree, name: &str) -> Option<Handle>
    ensures { IsFloatHandle (layout_of tree.now) name.now result }
{
    match tree.find(name) {
        Ok(handle) => {
            if is_float(tree.get(handle)) {
                Some(handle)
            } else {
                None
            }
        }
        Err(_) => None,
    }
}

// Returns the rows of a measured value at these paths of a node: its float is at `float`, if it has
// one.
fn find_measure_rows(
    alloc: Global,
    tree: &Tree,
    node: &str,
    paths: StatusPaths,
    float: &str,
) -> Result<MeasureRows, AllocError>
    requires { HaveStatus tree.now (names_at node.now paths) }
    ensures status { IfOk result
        (λ rows. AreHandlesOf tree.now (names_at node.now paths) rows.status) }
    ensures float { IfOk result
        (λ rows. IsFloatHandle (layout_of tree.now) (node.now ++ float.now) rows.float) }
{
    let status = find_status_rows(alloc, tree, node, paths)?;
    let name = row_name(alloc, node, float)?;
    let float = float_named(tree, name.as_str());
    Ok(MeasureRows { status, float })
}

// Returns the rows of the meter with this node.
fn find_meter_rows(alloc: Global, tree: &Tree, node: &str) -> Result<MeterRows, AllocError>
    requires { HasMeterLeaves tree.now (meter_names_of node.now) }
    ensures { IfOk result (AreMeterRowsOf (layout_of tree.now) node.now) }
{
    let tot_w = find_measure_rows(alloc, tree, node, ACTIVE_POWER, ACTIVE_POWER_FLOAT)?;
    let tot_var = find_measure_rows(alloc, tree, node, REACTIVE_POWER, REACTIVE_POWER_FLOAT)?;
    let hz = find_measure_rows(alloc, tree, node, FREQUENCY, FREQUENCY_FLOAT)?;
    let phase_a = find_measure_rows(alloc, tree, node, PHASE_A, PHASE_A_FLOAT)?;
    let phase_b = find_measure_rows(alloc, tree, node, PHASE_B, PHASE_B_FLOAT)?;
    let phase_c = find_measure_rows(alloc, tree, node, PHASE_C, PHASE_C_FLOAT)?;
    Ok(MeterRows {
        tot_w,
        tot_var,
        hz,
        phase_a,
        phase_b,
        phase_c,
    })
}

/// Binds the meters to their rows. Fails only if an allocation fails.
pub fn bind_meters(
    alloc: Global,
    tree: &Tree,
    meters: &[Meter],
    nodes: &[Text],
) -> Result<Vec<BoundMeter>, AllocError>
    requires sized { length nodes.now ≡ length meters.now }
    requires there { HaveMeters tree.now nodes.now }
    ensures ids { IfOk result (λ bound. meters_of bound.items ≡ map (λ m. m.id) meters.now) }
    ensures bound { IfOk result (λ bound. AreMetersBound (layout_of tree.now) bound.items) }
{
    let mut bound = Vec::new(alloc);
    for i in 0..meters.len() {
        let rows = find_meter_rows(alloc, tree, nodes[i].as_str())?;
        let id = Text::from_str(alloc, meters[i].id.as_str())?;
        bound.push(BoundMeter { id, rows })?;
    }
    Ok(bound)
}
