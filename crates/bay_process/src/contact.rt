// Applies a reported position to the rows of its switch (IEC 61850-7-4, XCBR and XSWI: Pos and
// OpCnt).
ghost use Rattle.std.specs.Prelude.{◌≡◌, not};
ghost use Rattle.bay_tree.specs.declared.leaf.LeafType.TheVariants as leaf_type;
ghost use Rattle.bay_process.specs.Values.{rows_after_operation, rows_after_change, rows_after_contact};
ghost use Rattle.bay_process.specs.Values as spec;
ghost use Rattle.bay_process.specs.Layout.{layout_of, status_names_in, switch_names_in, AreStatusRows, AreSwitchRows};

use crate::rows::{StatusRows, SwitchRows, count_at, is_position, is_quality, put, put_status};
use bay_base::position::Dbpos;
use bay_tree::leaf::{Leaf, Quality};
use bay_tree::tree::Tree;

// Returns the quality of a position (IEC 61850-7-3).
fn position_quality(position: Dbpos) -> Quality
    ensures { result ≡ spec.position_quality position }
{
    match position {
        Dbpos::Bad => Quality::Invalid,
        Dbpos::Intermediate | Dbpos::Off | Dbpos::On => Quality::Good,
    }
}

// Returns whether a position is one of the two end positions.
fn is_end_position(position: Dbpos) -> bool
    ensures { result ≡ spec.is_end_position position }
{
    match position {
        Dbpos::Off | Dbpos::On => true,
        Dbpos::Intermediate | Dbpos::Bad => false,
    }
}

// Counts one more operation, unless the count has its maximum.
fn count_operation(tree: &mut Tree, rows: StatusRows, now: u64)
    requires { AreStatusRows (layout_of tree.old) leaf_type.Int32 rows }
    ensures rows { tree.new ≡ rows_after_operation (status_names_in (layout_of tree.old) rows) now
        tree.old }
    ensures layout { layout_of tree.new ≡ layout_of tree.old }
{
    let count = count_at(tree, rows.value);
    if count < i32::MAX {
        put(tree, rows.value, Leaf::Int32(count + 1));
        put(tree, rows.time, Leaf::Utc(now));
    }
}

// Returns whether the rows already have this position, with its quality.
fn has_position(tree: &Tree, rows: StatusRows, position: Dbpos) -> bool
    requires { AreStatusRows (layout_of tree.now) leaf_type.Dbpos rows }
    ensures { result ≡ spec.has_position (status_names_in (layout_of tree.now) rows) position
        tree.now }
{
    let is_same = is_position(tree, rows.value, position);
    let has_same_quality = is_quality(tree, rows.quality, position_quality(position));
    is_same && has_same_quality
}

// Writes a new position of a switch, below its control too. Counts an operation if the switch
// reaches an end position.
fn put_position(tree: &mut Tree, rows: &SwitchRows, position: Dbpos, now: u64)
    requires { AreSwitchRows (layout_of tree.old) rows.now }
    ensures rows { tree.new ≡ rows_after_change (switch_names_in (layout_of tree.old) rows.now)
        position
        now tree.old }
    ensures layout { layout_of tree.new ≡ layout_of tree.old }
{
    let is_operation = is_end_position(position)
        && !is_position(tree, rows.position.value, position);
    put_status(
        tree,
        rows.position,
        Leaf::Dbpos(position),
        position_quality(position),
        now,
    );
    put_status(
        tree,
        rows.control,
        Leaf::Dbpos(position),
        position_quality(position),
        now,
    );
    if is_operation {
        count_operation(tree, rows.operations, now);
    }
}

/// Applies the reported position of a switch, at `now` in milliseconds since 1970. Returns whether
/// its value or its quality changed.
pub fn apply_position(tree: &mut Tree, rows: &SwitchRows, position: Dbpos, now: u64) -> bool
    requires { AreSwitchRows (layout_of tree.old) rows.now }
    ensures changed { result
        ≡ not (spec.has_position (status_names_in (layout_of tree.old) rows.now.position) position
        tree.old) }
    ensures rows { tree.new ≡ rows_after_contact (switch_names_in (layout_of tree.old) rows.now)
        position
        now tree.old }
    ensures layout { layout_of tree.new ≡ layout_of tree.old }
{
    if has_position(tree, rows.position, position) {
        return false;
    }
    put_position(tree, rows, position, now);
    true
}
