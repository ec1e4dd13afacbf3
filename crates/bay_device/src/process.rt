// Applies positions, inputs, measured values and scans to a bay that is served: its tree still has
// FALSE as stSeld of every switch.
ghost use Rattle.std.specs.Prelude.{◌≡◌, ◌<◌, ℕ, List, Some, false, length, not, slice_get};
ghost use Rattle.bay_nodes.specs.Names.{float_names, meter_names, switch_names};
ghost use Rattle.bay_nodes.specs.declared.switch.Switch.{Switch};
ghost use Rattle.bay_process.specs.Layout.{layout_of, switches_of, IsMeterBound};
ghost use Rattle.bay_nodes.specs.declared.profile.Profile.TheVariants.{Two};
ghost use Rattle.bay_process.specs.Model.{rows_after_health, rows_after_input, rows_after_lost_inputs};
ghost use Rattle.bay_process.specs.ModelRows.{IsModelBound};
ghost use Rattle.bay_process.specs.Names.{field_float, field_names};
ghost use Rattle.bay_process.specs.Scans.{rows_after_outputs};
ghost use Rattle.bay_process.specs.ReportedRows.{AreInterlocked, AreStored};
ghost use Rattle.bay_process.specs.Values.{rows_after_contact, rows_after_bad_measure, rows_after_measure, has_position, has_invalid_measure, has_measure};
ghost use Rattle.bay_mms_services.specs.Views.{bay_view};

use bay_base::position::Dbpos;
use bay_config::bay::MeterField;
use bay_mms_services::bay::ServedBay;
use bay_process::contact::apply_position;
use bay_process::meter::{MeterRows, apply_bad_measure, apply_measure};
use bay_process::model::ModelRows;
use bay_process::releases::Releases;
use bay_process::scan::write_outputs;
use il_scan::points::Outputs;

/// Applies the reported position of the switch at an index. Returns whether its value or its
/// quality changed.
pub fn contact(bay: &mut ServedBay, now: u64, switch: usize, position: Dbpos) -> bool
    requires { switch < length bay.old.switches }
    ensures changed { (s : Switch) → slice_get (switches_of bay.old.switches) switch ≡ Some s
        → result ≡ not (has_position (switch_names (switches_of bay.old.switches) switch s).position
        position bay.old.tree) }
    ensures after { (s : Switch) → slice_get (switches_of bay.old.switches) switch ≡ Some s
        → bay_view bay.new ≡ record (bay_view bay.old) {
          rows = rows_after_contact
              (switch_names (switches_of bay.old.switches) switch s) position now bay.old.tree;
        } }
    ensures switches { bay.new.switches ≡ bay.old.switches }
    ensures layout { layout_of bay.new.tree ≡ layout_of bay.old.tree }
{
    let rows = bay.switches.as_slice()[switch].rows;
    apply_position(&mut bay.tree, &rows, position, now)
}

/// Applies a measured value of the meter at an index, which has these rows; only the contract uses
/// the index. Returns whether the value or its quality changed.
pub fn measure(
    bay: &mut ServedBay,
    now: u64,
    _meter: usize,
    rows: MeterRows,
    field: MeterField,
    value: i32,
) -> bool
    requires { IsMeterBound (layout_of bay.old.tree) _meter rows }
    ensures changed { result
        ≡ not (has_measure (field_names field (meter_names _meter)) value bay.old.tree) }
    ensures after { bay_view bay.new
        ≡ record (bay_view bay.old) {
          rows = rows_after_measure (field_names field (meter_names _meter))
              (field_float field (float_names _meter)) value now bay.old.tree;
        } }
    ensures switches { bay.new.switches ≡ bay.old.switches }
    ensures layout { layout_of bay.new.tree ≡ layout_of bay.old.tree }
{
    apply_measure(&mut bay.tree, rows.field(field), value, now)
}

/// Applies the report that a measured value of the meter at an index is invalid. The meter has
/// these rows; only the contract uses the index. Returns whether the quality changed.
pub fn doubt(
    bay: &mut ServedBay,
    now: u64,
    _meter: usize,
    rows: MeterRows,
    field: MeterField,
) -> bool
    requires { IsMeterBound (layout_of bay.old.tree) _meter rows }
    ensures changed { result
        ≡ not (has_invalid_measure (field_names field (meter_names _meter)) bay.old.tree) }
    ensures after { bay_view bay.new
        ≡ record (bay_view bay.old) {
          rows = rows_after_bad_measure (field_names field (meter_names _meter)) now bay.old.tree;
        } }
    ensures switches { bay.new.switches ≡ bay.old.switches }
    ensures layout { layout_of bay.new.tree ≡ layout_of bay.old.tree }
{
    apply_bad_measure(&mut bay.tree, rows.field(field).status, now)
}

/// Applies the report of the input at an index to the rows of profile 2.
pub fn input(bay: &mut ServedBay, model: &ModelRows, now: u64, input: usize, value: bool)
    requires bound { (inputs : List (List ℕ)) × (switches : List Switch)
        × IsModelBound (layout_of bay.old.tree) inputs switches model.now }
    requires within { input < length model.now.inputs }
    ensures after { (inputs : List (List ℕ)) (switches : List Switch)
        → IsModelBound (layout_of bay.old.tree) inputs switches model.now
        → bay_view bay.new ≡ record (bay_view bay.old) {
          rows = rows_after_input Two inputs switches input value now bay.old.tree;
        } }
    ensures switches { bay.new.switches ≡ bay.old.switches }
    ensures layout { layout_of bay.new.tree ≡ layout_of bay.old.tree }
{
    model.apply_input(&mut bay.tree, input, value, now);
}

/// Applies the loss of the process to the rows of the inputs and of the switches' keys in profile
/// 2.
pub fn lose_inputs(bay: &mut ServedBay, model: &ModelRows, now: u64)
    requires { (inputs : List (List ℕ)) × (switches : List Switch)
        × IsModelBound (layout_of bay.old.tree) inputs switches model.now }
    ensures after { (inputs : List (List ℕ)) (switches : List Switch)
        → IsModelBound (layout_of bay.old.tree) inputs switches model.now
        → bay_view bay.new ≡ record (bay_view bay.old) {
          rows = rows_after_lost_inputs Two inputs switches now bay.old.tree;
        } }
    ensures switches { bay.new.switches ≡ bay.old.switches }
    ensures layout { layout_of bay.new.tree ≡ layout_of bay.old.tree }
{
    model.lose_inputs(&mut bay.tree, now);
}

/// Writes whether the process is lost to the health of the device in profile 2. Returns whether the
/// health changed.
pub fn health(bay: &mut ServedBay, model: &ModelRows, now: u64, is_lost: bool) -> bool
    requires { (inputs : List (List ℕ)) × (switches : List Switch)
        × IsModelBound (layout_of bay.old.tree) inputs switches model.now }
    ensures same { result ≡ false → bay.new.tree ≡ bay.old.tree }
    ensures after { bay_view bay.new
        ≡ record (bay_view bay.old) { rows = rows_after_health Two is_lost now bay.old.tree } }
    ensures switches { bay.new.switches ≡ bay.old.switches }
    ensures layout { layout_of bay.new.tree ≡ layout_of bay.old.tree }
{
    model.apply_health(&mut bay.tree, is_lost, now)
}

/// Writes the outputs of a scan to the interlocking values of all switches.
pub fn write_scan(bay: &mut ServedBay, kept: &mut Releases, outputs: &Outputs<'_>, now: u64)
    requires interlocked { AreInterlocked (layout_of bay.old.tree) bay.old.switches }
    requires kept { AreStored bay.old.tree (switches_of bay.old.switches) 0 kept.old }
    ensures after { bay_view bay.new
        ≡ record (bay_view bay.old) {
          rows = rows_after_outputs (layout_of bay.old.tree) bay.old.switches outputs.now now
              bay.old.tree;
        } }
    ensures switches { bay.new.switches ≡ bay.old.switches }
    ensures layout { layout_of bay.new.tree ≡ layout_of bay.old.tree }
    ensures kept { AreStored bay.new.tree (switches_of bay.old.switches) 0 kept.new }
{
    write_outputs(&mut bay.tree, kept, bay.switches.as_slice(), outputs, now);
}
