// The inputs that a scan reads, and the outputs that it writes (IEC 61850-7-4, CILO: EnaOpn and
// EnaCls).
ghost use Rattle.std.specs.Prelude.{◌≡◌, ◌+◌, ◌<◌, ℕ, List, [], length, slice_get, Some, None};
ghost use Rattle.bay_nodes.specs.declared.switch.Switch.{Switch};
ghost use Rattle.bay_tree.specs.declared.leaf.LeafType.TheVariants as leaf_type;
ghost use Rattle.bay_tree.specs.declared.leaf.Leaf.TheVariants as leaves;
ghost use Rattle.il_image.specs.Images.{IsValue};
ghost use Rattle.il_image.specs.Values.{type_of};
ghost use Rattle.bay_base.specs.declared.types.ElementaryType.TheVariants as elementary;
ghost use Rattle.il_scan.specs.OutputValues.{is_true};
ghost use Rattle.bay_process.specs.Values.{output_at, with_enabled, with_output};
ghost use Rattle.bay_process.specs.Values as spec_values;
ghost use Rattle.bay_process.specs.Layout.{layout_of, status_names_in, switch_names_in, switches_of, AreStatusRows, AreSwitchRows, AreLeafTyped, AreMetersLeafTyped};
ghost use Rattle.bay_process.specs.Sources.{type_of_source, type_of_switch_point};
ghost use Rattle.bay_process.specs.ReportedRows.{AreEnabling, AreInterlocked, AreStored, AreValued, IsInterlocked, HoldsRelease};
ghost use Rattle.bay_process.specs.Scans.{source_value, leaf_at_handle, rows_after_outputs};
ghost use Rattle.bay_process.specs.Scans as spec;

use crate::meter::BoundMeter;
use crate::releases::Releases;
use crate::rows::{
    StatusRows, SwitchRows, count_at, is_quality, is_truth, position_at, put_status,
};
use crate::switch::{BoundSwitch, SwitchEnables};
use crate::values::InputValues;
use bay_base::position::Dbpos;
use bay_config::bay::{MeterField, Source, SwitchPoint};
use bay_tree::leaf::{Leaf, Quality};
use bay_tree::tree::Tree;
use il_image::value::Value;
use il_scan::points::{Inputs, Outputs};

/// Returns the value of a point of a switch with this position: the position as a number, or
/// whether it is open or closed. A point that the program writes reads FALSE.
pub fn value_at_position(point: SwitchPoint, position: Dbpos) -> Value
    ensures { result ≡ spec_values.position_value point (Some (leaves.Dbpos position)) }
{
    match point {
        SwitchPoint::Position => Value::Short(position.number()),
        SwitchPoint::Open => Value::Truth(position == Dbpos::Off),
        SwitchPoint::Closed => Value::Truth(position == Dbpos::On),
        SwitchPoint::EnableOpen | SwitchPoint::EnableClose => Value::Truth(false),
    }
}

// Returns the value of a point of a switch, from the position of the switch in the tree.
fn position_value(tree: &Tree, rows: StatusRows, point: SwitchPoint) -> Value
    requires { AreStatusRows (layout_of tree.now) leaf_type.Dbpos rows }
    ensures value { result ≡ spec_values.position_value point (leaf_at_handle tree.now rows.value) }
    ensures typed { type_of result ≡ type_of_switch_point point }
    ensures is_value { IsValue result }
{
    value_at_position(point, position_at(tree, rows.value))
}

// Returns the value of a point of a switch that does not exist.
fn no_position(point: SwitchPoint) -> Value
    ensures value { result ≡ spec.switch_value [] point None }
    ensures typed { type_of result ≡ type_of_switch_point point }
    ensures is_value { IsValue result }
{
    match point {
        SwitchPoint::Position => Value::Short(0),
        _ => Value::Truth(false),
    }
}

// Returns the value of a point of the switch at an index.
fn switch_value(tree: &Tree, switches: &[BoundSwitch], switch: usize, point: SwitchPoint) -> Value
    requires { AreLeafTyped (layout_of tree.now) switches.now }
    ensures value { result ≡ spec.switch_value tree.now point (slice_get switches.now switch) }
    ensures typed { type_of result ≡ type_of_switch_point point }
    ensures is_value { IsValue result }
{
    match switches.get(switch) {
        Some(bound) => position_value(tree, bound.rows.position, point),
        None => no_position(point),
    }
}

// Returns the measured value of a field of the meter at an index.
fn meter_value(tree: &Tree, meters: &[BoundMeter], meter: usize, field: MeterField) -> Value
    requires { AreMetersLeafTyped (layout_of tree.now) meters.now }
    ensures value { result ≡ spec.meter_value tree.now field (slice_get meters.now meter) }
    ensures typed { type_of result ≡ elementary.Dint }
    ensures is_value { IsValue result }
{
    match meters.get(meter) {
        Some(bound) => Value::Long(count_at(tree, bound.rows.field(field).status.value)),
        None => Value::Long(0),
    }
}

// Returns the value of a point, from the positions, the inputs or the measured values.
fn point_value(
    tree: &Tree,
    switches: &[BoundSwitch],
    inputs: &InputValues,
    meters: &[BoundMeter],
    source: Source,
) -> Value
    requires switches { AreLeafTyped (layout_of tree.now) switches.now }
    requires meters { AreMetersLeafTyped (layout_of tree.now) meters.now }
    ensures value { result ≡ source_value tree.now switches.now inputs.now meters.now source }
    ensures typed { type_of result ≡ type_of_source source }
    ensures is_value { IsValue result }
{
    match source {
        Source::Switch { switch, point } => switch_value(tree, switches, switch, point),
        Source::Input { input } => Value::Truth(inputs.get(input).unwrap_or(false)),
        Source::Meter { meter, field } => meter_value(tree, meters, meter, field),
    }
}

/// The read-only points of a program, and the values that they read.
#[derive(Drop)]
pub struct ReadPoints<'a> {
    pub tree: &'a Tree,
    pub switches: &'a [BoundSwitch],
    pub inputs: &'a InputValues,
    pub meters: &'a [BoundMeter],
    pub reads: &'a [Source],
    ghost leaf_typed: { AreLeafTyped (layout_of tree.now) switches.now },
    ghost metered: { AreMetersLeafTyped (layout_of tree.now) meters.now },
}

impl<'a> Inputs for ReadPoints<'a> {
    ghost use Rattle.std.specs.Prelude.{map};
    ghost use Rattle.std.proofs.Common.{sym, ◌∙◌};
    ghost use Rattle.std.proofs.lemmas.List.{length-map};
    ghost use Rattle.bay_process.specs.Sources.{type_of_source};
    ghost use Rattle.bay_process.specs.Scans.{source_value};

    ghost types = { λ points. map type_of_source points.reads.now };

    ghost values = { λ points. map (source_value points.tree.now points.switches.now points.inputs.now
        points.meters.now) points.reads.now };

    #[inline(always)]
    fn input(&self, index: usize) -> Value {
        point_value(
            self.tree,
            self.switches,
            self.inputs,
            self.meters,
            self.reads[index],
        )
    }

    ghost sized = { λ points. length-map points.reads.now
        (source_value points.tree.now points.switches.now points.inputs.now points.meters.now)
        ∙ sym (length-map points.reads.now type_of_source) };
}

// Writes an interlocking value, with good quality.
fn set_enabled(tree: &mut Tree, rows: StatusRows, value: bool, now: u64)
    requires { AreStatusRows (layout_of tree.old) leaf_type.Truth rows }
    ensures rows { tree.new ≡ with_enabled (status_names_in (layout_of tree.old) rows) value now
        tree.old }
    ensures layout { layout_of tree.new ≡ layout_of tree.old }
    ensures valued { AreValued tree.old (status_names_in (layout_of tree.old) rows) }
{
    let is_same = is_truth(tree, rows.value, value);
    let is_good = is_quality(tree, rows.quality, Quality::Good);
    if is_same && is_good {
        return;
    }
    put_status(tree, rows, Leaf::Truth(value), Quality::Good, now)
}

// Returns the value of an output; FALSE if the program does not name the point.
fn output(outputs: &Outputs<'_>, index: Option<usize>) -> bool
    ensures { result ≡ is_true (output_at index outputs.now) }
{
    match index {
        Some(index) => outputs.is_true(index),
        None => false,
    }
}

// Writes the interlocking values to the rows of a switch.
fn write_output(tree: &mut Tree, rows: &SwitchRows, enabled: SwitchEnables, now: u64)
    requires { AreSwitchRows (layout_of tree.old) rows.now }
    ensures rows { tree.new ≡ with_output (switch_names_in (layout_of tree.old) rows.now)
        enabled.may_open
        enabled.may_close now tree.old }
    ensures layout { layout_of tree.new ≡ layout_of tree.old }
    ensures holds_release { (k : ℕ) → AreEnabling (layout_of tree.old) k rows.now
        → HoldsRelease tree.new k enabled }
{
    set_enabled(tree, rows.ena_opn, enabled.may_open, now);
    set_enabled(tree, rows.ena_cls, enabled.may_close, now);
}

// Writes the interlocking values of the switch at an index, unless the last scan wrote the same
// ones.
#[inline(always)]
fn write_interlocking(
    tree: &mut Tree,
    kept: &mut Releases,
    index: usize,
    rows: &SwitchRows,
    enabled: SwitchEnables,
    now: u64,
)
    requires rows { IsInterlocked (layout_of tree.old) index rows.now }
    requires kept { (ss : List Switch) × AreStored tree.old ss index kept.old
        × (index < length ss) }
    ensures rows { tree.new ≡ with_output (switch_names_in (layout_of tree.old) rows.now)
        enabled.may_open
        enabled.may_close now tree.old }
    ensures layout { layout_of tree.new ≡ layout_of tree.old }
    ensures kept { (ss : List Switch) → AreStored tree.old ss index kept.old → index < length ss
        → AreStored tree.new ss (index + 1) kept.new }
{
    let stood = kept.get(index);
    if kept.is_written
        && enabled.may_open == stood.may_open
        && enabled.may_close == stood.may_close
    {
        return;
    }
    write_output(tree, rows, enabled, now);
    kept.set(index, enabled);
}

/// Writes the outputs of a scan to the interlocking values of all switches, at `now` in
/// milliseconds since 1970.
pub fn write_outputs(
    tree: &mut Tree,
    kept: &mut Releases,
    switches: &[BoundSwitch],
    outputs: &Outputs<'_>,
    now: u64,
)
    requires interlocked { AreInterlocked (layout_of tree.old) switches.now }
    requires kept { AreStored tree.old (switches_of switches.now) 0 kept.old }
    ensures rows { tree.new ≡ rows_after_outputs (layout_of tree.old) switches.now outputs.now now
        tree.old }
    ensures layout { layout_of tree.new ≡ layout_of tree.old }
    ensures kept { AreStored tree.new (switches_of switches.now) 0 kept.new }
{
    for index in 0..switches.len() {
        let bound = &switches[index];
        let enabled = SwitchEnables {
            may_open: output(outputs, bound.outputs.ena_opn),
            may_close: output(outputs, bound.outputs.ena_cls),
        };
        write_interlocking(tree, kept, index, &bound.rows, enabled, now);
    }
    kept.is_written = true;
}
