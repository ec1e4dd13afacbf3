// The rows of status values in the tree: a value, its quality and its time stamp (IEC 61850-7-3).
ghost use Rattle.std.specs.Prelude.{◌≡◌, ◌≢◌, None, Some};
ghost use Rattle.bay_tree.specs.declared.leaf.LeafType.TheVariants as leaf_type;
ghost use Rattle.bay_tree.specs.declared.leaf.Leaf.TheVariants as leaves;
ghost use Rattle.bay_tree.specs.LeafTypes.{leaf_type_of};
ghost use Rattle.bay_tree.specs.Rows.{leaf_named, with_leaf_named};
ghost use Rattle.bay_process.specs.Values.{with_status};
ghost use Rattle.bay_process.specs.Values as spec;
ghost use Rattle.bay_process.specs.Layout.{layout_of, row_name_in, status_names_in, HasLeafType, AreStatusRows};

use bay_base::position::Dbpos;
use bay_tree::leaf::{Leaf, Quality};
use bay_tree::tree::{Handle, Tree};

/// The handles of a value, its quality and its time stamp.
#[derive(Clone, Copy, Debug)]
pub struct StatusRows {
    pub value: Handle,
    pub quality: Handle,
    pub time: Handle,
}

/// The handles of the values of a switch that events and scans write.
#[derive(Clone, Copy, Debug)]
pub struct SwitchRows {
    /// Its position: `Pos` of its XCBR or XSWI.
    pub position: StatusRows,
    /// The same position in its control: `Pos` of its CSWI.
    pub control: StatusRows,
    /// The number of times it has reached an end position: `OpCnt`.
    pub operations: StatusRows,
    /// Whether it may be opened: `EnaOpn` of its CILO.
    pub ena_opn: StatusRows,
    /// Whether it may be closed: `EnaCls`.
    pub ena_cls: StatusRows,
}

/// Writes a value to the row at a handle. The row must have a value of the same type.
#[inline(always)]
pub fn put(tree: &mut Tree, handle: Handle, leaf: Leaf)
    requires { HasLeafType (layout_of tree.old) handle (leaf_type_of leaf) }
    ensures rows { tree.new ≡ with_leaf_named (row_name_in (layout_of tree.old) handle) leaf
        tree.old }
    ensures layout { layout_of tree.new ≡ layout_of tree.old }
{
    match tree.set(handle, leaf) {
        Ok(()) => {}
        Err(_) => unreachable!(),
    }
}

/// Writes a value, its quality and its time stamp.
#[inline(always)]
pub fn put_status(tree: &mut Tree, rows: StatusRows, value: Leaf, quality: Quality, now: u64)
    requires { AreStatusRows (layout_of tree.old) (leaf_type_of value) rows }
    ensures rows { tree.new ≡ with_status (status_names_in (layout_of tree.old) rows) value quality
        now
        tree.old }
    ensures layout { layout_of tree.new ≡ layout_of tree.old }
{
    put(tree, rows.value, value);
    put(tree, rows.quality, Leaf::Quality(quality));
    put(tree, rows.time, Leaf::Utc(now));
}

/// Returns the position in a row.
pub fn position_at(tree: &Tree, handle: Handle) -> Dbpos
    requires { HasLeafType (layout_of tree.now) handle leaf_type.Dbpos }
    ensures { leaf_named (row_name_in (layout_of tree.now) handle) tree.now
        ≡ Some (leaves.Dbpos result) }
{
    match tree.get(handle) {
        Some(Leaf::Dbpos(position)) => *position,
        _ => unreachable!(),
    }
}

// Returns the quality in a row.
fn quality_at(tree: &Tree, handle: Handle) -> Quality
    requires { HasLeafType (layout_of tree.now) handle leaf_type.Quality }
    ensures { leaf_named (row_name_in (layout_of tree.now) handle) tree.now
        ≡ Some (leaves.Quality result) }
{
    match tree.get(handle) {
        Some(Leaf::Quality(quality)) => *quality,
        _ => unreachable!(),
    }
}

// Returns the truth value in a row.
fn truth_at(tree: &Tree, handle: Handle) -> bool
    requires { HasLeafType (layout_of tree.now) handle leaf_type.Truth }
    ensures { leaf_named (row_name_in (layout_of tree.now) handle) tree.now
        ≡ Some (leaves.Truth result) }
{
    match tree.get(handle) {
        Some(Leaf::Truth(truth)) => *truth,
        _ => unreachable!(),
    }
}

/// Returns the number in a row.
pub fn count_at(tree: &Tree, handle: Handle) -> i32
    requires { HasLeafType (layout_of tree.now) handle leaf_type.Int32 }
    ensures { leaf_named (row_name_in (layout_of tree.now) handle) tree.now
        ≡ Some (leaves.Int32 result) }
{
    match tree.get(handle) {
        Some(Leaf::Int32(count)) => *count,
        _ => unreachable!(),
    }
}

/// Returns whether a row has this position.
pub fn is_position(tree: &Tree, handle: Handle, position: Dbpos) -> bool
    requires { HasLeafType (layout_of tree.now) handle leaf_type.Dbpos }
    ensures { result ≡ spec.is_position position
        (leaf_named (row_name_in (layout_of tree.now) handle) tree.now) }
{
    position == position_at(tree, handle)
}

/// Returns whether a row has this quality.
pub fn is_quality(tree: &Tree, handle: Handle, quality: Quality) -> bool
    requires { HasLeafType (layout_of tree.now) handle leaf_type.Quality }
    ensures value { result ≡ spec.is_quality quality
        (leaf_named (row_name_in (layout_of tree.now) handle) tree.now) }
    ensures there { leaf_named (row_name_in (layout_of tree.now) handle) tree.now ≢ None }
{
    quality == quality_at(tree, handle)
}

/// Returns whether a row has this truth value.
pub fn is_truth(tree: &Tree, handle: Handle, value: bool) -> bool
    requires { HasLeafType (layout_of tree.now) handle leaf_type.Truth }
    ensures value { result ≡ spec.is_truth value
        (leaf_named (row_name_in (layout_of tree.now) handle) tree.now) }
    ensures there { leaf_named (row_name_in (layout_of tree.now) handle) tree.now ≢ None }
{
    truth_at(tree, handle) == value
}
