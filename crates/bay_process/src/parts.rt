// The parts of the state of a device.
ghost use Rattle.std.specs.Prelude.{◌≡◌, length, IfOk};
ghost use Rattle.bay_tree.specs.Rows.{IsTree};
ghost use Rattle.il_scan.specs.Scans.{first_machine};
ghost use Rattle.bay_process.specs.Layout.{layout_of};
ghost use Rattle.bay_process.specs.Nodes.{AreMeterNodes, AreSwitchNodes, HasSwitches, HaveMeters};
ghost use Rattle.bay_process.specs.Parts.{AreBoundRows, AreBoundSwitches, IsBoundMachine};

use crate::bind::{bind_switches, sources_of};
use crate::meter::BoundMeter;
use crate::meters::{all_meter_nodes, bind_meters};
use crate::nodes::{SwitchNodes, all_nodes, all_switch_rows};
use crate::switch::BoundSwitch;
use bay_base::text::Text;
use bay_config::bay::{Bay, Meter, Point, Source, Switch};
use bay_tree::row::Row;
use bay_tree::tree::Tree;
use il_scan::machine::Machine;
use il_verify::verify::Verified;
use std::alloc::{AllocError, Global};

/// A machine, with the sources of the points of its program.
#[derive(Drop)]
pub struct BoundMachine {
    pub machine: Machine,
    /// The sources of the read-only points, in the order of the points; `writes` has those of the
    /// writable points.
    pub reads: Vec<Source>,
    pub writes: Vec<Source>,
}

// Creates a machine with a verified image, in its state before the first scan.
fn machine_of(alloc: Global, verified: Verified) -> Result<Machine, AllocError>
    ensures { IfOk result (λ machine. machine ≡ first_machine verified) }
{
    let machine = Machine::new(alloc, verified)?;
    Ok(machine)
}

/// Creates a machine with a verified image, in its state before the first scan, and finds the
/// sources of its points in the bay. Fails only if an allocation fails.
pub fn bind_machine(
    alloc: Global,
    bay: &[Point],
    verified: Verified,
) -> Result<BoundMachine, AllocError>
    ensures { IfOk result (IsBoundMachine bay.now verified) }
{
    let points = verified.image().points();
    let reads = sources_of(alloc, false, bay, points)?;
    let writes = sources_of(alloc, true, bay, points)?;
    let machine = machine_of(alloc, verified)?;
    Ok(BoundMachine {
        machine,
        reads,
        writes,
    })
}

/// The names of the nodes of a bay's switches and meters, each in their order.
#[derive(Drop)]
pub struct NodeNames {
    pub switches: Vec<SwitchNodes>,
    pub meters: Vec<Text>,
}

/// Returns the names of the nodes of a bay's switches and meters. Fails only if an allocation
/// fails.
pub fn node_names(alloc: Global, bay: &Bay) -> Result<NodeNames, AllocError>
    ensures switches_sized { IfOk result
        (λ nodes. length nodes.switches.items ≡ length bay.now.switches) }
    ensures switches_named { IfOk result (λ nodes. AreSwitchNodes bay.now nodes.switches.items) }
    ensures meters_sized { IfOk result
        (λ nodes. length nodes.meters.items ≡ length bay.now.meters) }
    ensures meters_named { IfOk result (λ nodes. AreMeterNodes bay.now nodes.meters.items) }
{
    let switches = all_nodes(alloc, bay)?;
    let meters = all_meter_nodes(alloc, bay)?;
    Ok(NodeNames { switches, meters })
}

/// The tree of a bay's rows, with its switches and meters bound to it.
#[derive(Drop)]
pub struct BoundRows {
    pub tree: Tree,
    pub switches: Vec<BoundSwitch>,
    pub meters: Vec<BoundMeter>,
}

// Binds the switches of a bay to the rows below their nodes, and to the indices of their
// interlocking values.
fn bind_switch_rows(
    alloc: Global,
    tree: &Tree,
    switches: Vec<Switch>,
    nodes: &[SwitchNodes],
    writes: &[Source],
) -> Result<Vec<BoundSwitch>, AllocError>
    requires sized { length nodes.now ≡ length switches.items }
    requires there { HasSwitches tree.now nodes.now }
    ensures { IfOk result (λ bound. AreBoundSwitches (layout_of tree.now) writes.now switches.items
        nodes.now bound.items) }
{
    let rows = all_switch_rows(alloc, tree, nodes)?;
    let bound = bind_switches(alloc, switches, rows.as_slice(), writes)?;
    Ok(bound)
}

/// Builds the tree of a bay's rows, and binds its switches and meters to the rows below their
/// nodes. Fails only if an allocation fails.
pub fn bind_rows(
    alloc: Global,
    rows: Vec<Row>,
    switches: Vec<Switch>,
    meters: &[Meter],
    nodes: &NodeNames,
    writes: &[Source],
) -> Result<BoundRows, AllocError>
    requires tree { IsTree rows.items }
    requires switches_sized { length nodes.now.switches.items ≡ length switches.items }
    requires switches_there { HasSwitches rows.items nodes.now.switches.items }
    requires meters_sized { length nodes.now.meters.items ≡ length meters.now }
    requires meters_there { HaveMeters rows.items nodes.now.meters.items }
    ensures { IfOk result (AreBoundRows rows.items switches.items meters.now
        nodes.now.switches.items writes.now) }
{
    let tree = Tree::build(alloc, rows)?;
    let switches = bind_switch_rows(alloc, &tree, switches, nodes.switches.as_slice(), writes)?;
    let meters = bind_meters(alloc, &tree, meters, nodes.meters.as_slice())?;
    Ok(BoundRows {
        tree,
        switches,
        meters,
    })
}
