// The measured values of a meter (IEC 61850-7-4, MMXU; IEC 61850-7-3, MV and CMV).
ghost use Rattle.std.specs.Prelude.{◌≡◌, ℕ, List, not};
ghost use Rattle.bay_tree.specs.declared.leaf.LeafType.TheVariants as leaf_type;
ghost use Rattle.bay_tree.specs.Rows.{leaf_named};
ghost use Rattle.bay_process.specs.Values.{has_invalid_measure, has_measure, rows_after_bad_measure, rows_after_measure, with_float};
ghost use Rattle.bay_process.specs.Values as spec;
ghost use Rattle.bay_process.specs.Layout.{layout_of, row_name_in, status_names_in, field_rows, HasLeafType, AreStatusRows, IsFloatHandle, IsFloatTyped};

use crate::rows::{StatusRows, count_at, is_quality, put, put_status};
use bay_base::text::Text;
use bay_config::bay::MeterField;
use bay_tree::leaf::{Leaf, Quality};
use bay_tree::tree::{Handle, Tree};

/// The handles of a measured value.
#[derive(Clone, Copy, Debug)]
pub struct MeasureRows {
    /// Its integer, its quality and its time stamp.
    pub status: StatusRows,
    /// The same value as a float; `None` if the meter has no scale.
    pub float: Option<Handle>,
}

/// The handles of the measured values of a meter.
#[derive(Clone, Copy, Debug)]
pub struct MeterRows {
    pub tot_w: MeasureRows,
    pub tot_var: MeasureRows,
    pub hz: MeasureRows,
    pub phase_a: MeasureRows,
    pub phase_b: MeasureRows,
    pub phase_c: MeasureRows,
}

/// A meter of the bay, with the handles of its values in the tree.
#[derive(Drop)]
pub struct BoundMeter {
    /// The id as the bay file spells it.
    pub id: Text,
    pub rows: MeterRows,
}

impl MeterRows {
    /// Returns the rows of a field of the meter.
    pub fn field(self, field: MeterField) -> MeasureRows
        ensures { result ≡ field_rows self field }
    {
        match field {
            MeterField::TotW => self.tot_w,
            MeterField::TotVAr => self.tot_var,
            MeterField::Hz => self.hz,
            MeterField::PhaseA => self.phase_a,
            MeterField::PhaseB => self.phase_b,
            MeterField::PhaseC => self.phase_c,
        }
    }
}

// Returns whether a row has this number.
fn is_number(tree: &Tree, handle: Handle, number: i32) -> bool
    requires { HasLeafType (layout_of tree.now) handle leaf_type.Int32 }
    ensures { result ≡ spec.is_number number
        (leaf_named (row_name_in (layout_of tree.now) handle) tree.now) }
{
    number == count_at(tree, handle)
}

// Writes a measured value as a float, if there is a float.
fn put_float(tree: &mut Tree, float: Option<Handle>, value: i32)
    requires { IsFloatTyped (layout_of tree.old) float }
    ensures rows { (name : List ℕ) → IsFloatHandle (layout_of tree.old) name float
        → tree.new ≡ with_float name value tree.old }
    ensures layout { layout_of tree.new ≡ layout_of tree.old }
{
    tree.are_a_tree();
    if let Some(handle) = float {
        put(tree, handle, Leaf::Float(value));
    }
}

/// Applies a measured value, with good quality, at `now` in milliseconds since 1970; the float of
/// the value, if it has one, is the same number. Returns whether the value or its quality changed.
pub fn apply_measure(tree: &mut Tree, rows: MeasureRows, value: i32, now: u64) -> bool
    requires status { AreStatusRows (layout_of tree.old) leaf_type.Int32 rows.status }
    requires float { IsFloatTyped (layout_of tree.old) rows.float }
    ensures changed { result
        ≡ not (has_measure (status_names_in (layout_of tree.old) rows.status) value tree.old) }
    ensures rows { (name : List ℕ) → IsFloatHandle (layout_of tree.old) name rows.float
        → tree.new
        ≡ rows_after_measure (status_names_in (layout_of tree.old) rows.status) name value now
        tree.old }
    ensures layout { layout_of tree.new ≡ layout_of tree.old }
{
    let MeasureRows { status, float } = rows;
    let is_same = is_number(tree, status.value, value);
    let is_good = is_quality(tree, status.quality, Quality::Good);
    if is_same && is_good {
        return false;
    }
    put_status(tree, status, Leaf::Int32(value), Quality::Good, now);
    put_float(tree, float, value);
    true
}

/// Applies the report that a measured value is invalid, at `now` in milliseconds since 1970. The
/// value itself stays. Returns whether its quality changed.
pub fn apply_bad_measure(tree: &mut Tree, rows: StatusRows, now: u64) -> bool
    requires { AreStatusRows (layout_of tree.old) leaf_type.Int32 rows }
    ensures changed { result
        ≡ not (has_invalid_measure (status_names_in (layout_of tree.old) rows) tree.old) }
    ensures rows { tree.new ≡ rows_after_bad_measure (status_names_in (layout_of tree.old) rows) now
        tree.old }
    ensures layout { layout_of tree.new ≡ layout_of tree.old }
{
    if is_quality(tree, rows.quality, Quality::Invalid) {
        return false;
    }
    put(tree, rows.quality, Leaf::Quality(Quality::Invalid));
    put(tree, rows.time, Leaf::Utc(now));
    true
}
