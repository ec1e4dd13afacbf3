// Makes the state of a device from a bay and a verified image.
ghost use Rattle.std.specs.Prelude.{◌≡◌, [], None, IfOk, OnOk, length, replicate};
ghost use Rattle.bay_process.specs.Controls.{AreAllControlRows, HaveSelected};
ghost use Rattle.bay_process.specs.Layout.{layout_of};
ghost use Rattle.bay_mms_services.specs.Bay.{rows_with_selection};
ghost use Rattle.il_verify.specs.Verdicts.{IsVerified};
ghost use Rattle.bay_device.specs.BoundBay.{IsBoundBay, IsTimedBay};
ghost use Rattle.bay_device.specs.Load.{initial_device};
ghost use Rattle.bay_device.specs.Outcomes.{associations};
ghost use Rattle.bay_device.specs.StateView.{state_view};

use crate::state::DeviceState;
use crate::table::build_tables;
use bay_base::listing::Listing;
use bay_base::text::Text;
use bay_config::bay::{Bay, Source};
use bay_control::control::ControlTable;
use bay_control::controls::Controls;
use bay_mms::names::NameTexts;
use bay_mms_services::bay::ServedBay;
use bay_mms_services::decisions::clear_selected_rows;
use bay_process::bind::{all_false, spans_of};
use bay_process::bind_model::bind_model;
use bay_process::controls::{ControlRows, control_rows};
use bay_process::meter::BoundMeter;
use bay_process::model::ModelRows;
use bay_process::parts::{bind_machine, bind_rows, node_names};
use bay_process::releases::{Releases, store_releases};
use bay_tree::tree::Tree;
use il_scan::span::Span;
use il_verify::verify::Verified;
use std::alloc::{AllocError, Global};
use std::mem::replace;

// Returns the handles of the rows of the controls of `count` switches in a tree, and writes FALSE
// as stSeld of each switch.
fn control_rows_of_tree(
    alloc: Global,
    tree: &mut Tree,
    count: usize,
) -> Result<Listing<ControlRows>, AllocError>
    requires { HaveSelected tree.old count }
    ensures sized { IfOk result (λ rows. length rows ≡ count) }
    ensures named { IfOk result (λ rows. AreAllControlRows tree.new rows) }
    ensures rows { OnOk result (tree.new ≡ rows_with_selection None count tree.old) }
    ensures layout { OnOk result (layout_of tree.new ≡ layout_of tree.old) }
{
    let rows = control_rows(alloc, tree, count)?;
    clear_selected_rows(tree, rows.as_slice());
    Ok(Listing::new(rows))
}

/// A bay as its clients see it, with the other parts of a device's state that come from its bay.
#[derive(Drop)]
pub struct BoundBay {
    pub bay: ServedBay,
    pub scan_max_age_ms: u32,
    pub inputs: Listing<Text>,
    pub meters: Listing<BoundMeter>,
    pub model_rows: Option<ModelRows>,
    pub releases: Releases,
}

// Takes the items out of a list, which is then empty. Does not allocate.
fn take_items<T>(alloc: Global, list: &mut Listing<T>) -> Vec<T>
    ensures value { result.items ≡ list.old }
    ensures after { list.new ≡ [] }
{
    replace(list, Listing::new(Vec::new(alloc))).into_vec()
}

// Makes a bay without a selection, with its switches and meters bound to the rows of its tree.
fn bind_bay(alloc: Global, mut bay: Box<Bay>, writes: &[Source]) -> Result<BoundBay, AllocError>
    requires { IsTimedBay bay.value }
    ensures { IfOk result (IsBoundBay bay.value writes.now) }
{
    let nodes = node_names(alloc, &bay)?;
    let control_table = ControlTable::new(&bay);
    let rows = take_items(alloc, &mut bay.rows);
    let switches = take_items(alloc, &mut bay.switches);
    let mut bound = bind_rows(alloc, rows, switches, bay.meters.as_slice(), &nodes, writes)?;
    let model_rows = bind_model(
        alloc,
        &bound.tree,
        bay.profile,
        nodes.switches.as_slice(),
        bay.inputs.as_slice(),
        &control_table,
    )?;
    let control_rows = control_rows_of_tree(alloc, &mut bound.tree, bound.switches.len())?;
    let releases = store_releases(alloc, &bound.tree, bound.switches.as_slice())?;
    let names = NameTexts::of_tree(alloc, &bound.tree)?;
    let Bay {
        domain,
        vendor,
        model,
        revision,
        scan_max_age_ms,
        inputs,
        ..
    } = Box::into_inner(bay);
    Ok(BoundBay {
        bay: ServedBay {
            domain,
            vendor,
            model,
            revision,
            tree: bound.tree,
            names,
            switches: Listing::new(bound.switches),
            control_rows,
            control_table,
            controls: Controls::new(),
        },
        scan_max_age_ms,
        inputs,
        meters: Listing::new(bound.meters),
        model_rows,
        releases,
    })
}

/// Makes the state of a device from a bay and a verified image, before its first event.
pub(crate) fn make_state(
    alloc: Global,
    bay: Box<Bay>,
    verified: Verified,
) -> Result<Box<DeviceState>, AllocError>
    requires bay { IsTimedBay bay.value }
    requires verified { IsVerified bay.value.points verified }
    ensures { IfOk result (λ state. state_view (replicate associations None) state.value
        ≡ initial_device bay.value verified) }
{
    let wired = bind_machine(alloc, bay.points.as_slice(), verified)?;
    let input_values = all_false(alloc, bay.inputs.as_slice())?;
    let bound = bind_bay(alloc, bay, wired.writes.as_slice())?;
    let tables = build_tables(
        bound.bay.switches.as_slice(),
        bound.inputs.as_slice(),
        bound.meters.as_slice(),
    );
    let count = bound.bay.switches.as_slice().len();
    let spans = spans_of(alloc, wired.reads.as_slice(), count)?;
    let unread = Span {
        from: 0,
        to: wired.reads.len(),
    };
    let state = Box::new(
        alloc,
        DeviceState {
            bay: bound.bay,
            scan_max_age_ms: bound.scan_max_age_ms,
            inputs: bound.inputs,
            input_values,
            meters: bound.meters,
            model_rows: bound.model_rows,
            releases: bound.releases,
            tables,
            reads: Listing::new(wired.reads),
            writes: Listing::new(wired.writes),
            machine: wired.machine,
            spans: Listing::new(spans),
            unread,
            moment: 0,
            last_scan: None,
            is_stale: false,
            is_lost: false,
            pending: None,
        },
    )?;
    Ok(state)
}
