// The rows of profile 2 that events of the process change beside positions and measured values (IEC
// 61850-7-4: LLN0 Health, LPHD PhyHealth, XCBR and XSWI Loc, GGIO Ind).
ghost use Rattle.std.specs.Prelude.{◌≡◌, ◌<◌, ℕ, List, Some, None, false, length};
ghost use Rattle.bay_tree.specs.declared.leaf.LeafType.TheVariants as leaf_type;
ghost use Rattle.bay_tree.specs.declared.leaf.Leaf.TheVariants as leaves;
ghost use Rattle.bay_tree.specs.Rows.{leaf_named};
ghost use Rattle.bay_nodes.specs.declared.profile.Profile.TheVariants.{Two};
ghost use Rattle.bay_nodes.specs.declared.switch.Switch.{Switch};
ghost use Rattle.bay_process.specs.Layout.{layout_of, row_name_in, status_names_in, HasLeafType, AreStatusRows};
ghost use Rattle.bay_process.specs.Model.{rows_after_health, rows_after_input, rows_after_lost_inputs, with_health, with_truth};
ghost use Rattle.bay_process.specs.Model as spec;
ghost use Rattle.bay_process.specs.ModelRows.{AreLocalsTyped, AreTruths, IsModelBound, rows_after_invalid, rows_after_locals};

use crate::rows::{StatusRows, is_quality, is_truth, put_status};
use bay_base::listing::Listing;
use bay_tree::leaf::{Leaf, Quality};
use bay_tree::tree::{Handle, Tree};

/// The handles of whether a switch accepts local commands only (`Loc`), and the index of the input
/// that is TRUE while the key of the switch is at remote; `None` if the switch has no key.
#[derive(Clone, Copy, Debug)]
pub struct LocalRows {
    pub rows: StatusRows,
    pub key: Option<usize>,
}

/// The handles of the rows of profile 2 that events change beside positions and measured values.
#[derive(Drop)]
pub struct ModelRows {
    /// The health of the device: `Health` of LLN0.
    pub health: StatusRows,
    /// The health of the physical device: `PhyHealth` of LPHD1.
    pub physical: StatusRows,
    /// `Loc` of each switch, in the order of the switches.
    pub locals: Listing<LocalRows>,
    /// The value of each input, in the order of the inputs.
    pub inputs: Listing<StatusRows>,
}

// Returns the number in a row.
fn int8_at(tree: &Tree, handle: Handle) -> i8
    requires { HasLeafType (layout_of tree.now) handle leaf_type.Int8 }
    ensures { leaf_named (row_name_in (layout_of tree.now) handle) tree.now
        ≡ Some (leaves.Int8 result) }
{
    match tree.get(handle) {
        Some(Leaf::Int8(number)) => *number,
        _ => unreachable!(),
    }
}

// Returns the health as a number: 3 while the process is lost, and otherwise 1.
fn health_number(is_lost: bool) -> i8
    ensures { result ≡ spec.health_number is_lost }
{
    if is_lost { 3 } else { 1 }
}

// Writes whether the process is lost to a health. Returns whether the health changed.
fn put_health(tree: &mut Tree, rows: StatusRows, is_lost: bool, now: u64) -> bool
    requires { AreStatusRows (layout_of tree.old) leaf_type.Int8 rows }
    ensures same { result ≡ false → tree.new ≡ tree.old }
    ensures rows { tree.new ≡ with_health (status_names_in (layout_of tree.old) rows) is_lost now
        tree.old }
    ensures layout { layout_of tree.new ≡ layout_of tree.old }
{
    let number = health_number(is_lost);
    if number == int8_at(tree, rows.value) {
        return false;
    }
    put_status(tree, rows, Leaf::Int8(number), Quality::Good, now);
    true
}

// Writes a truth value of this quality, unless the rows already have both.
fn put_truth(tree: &mut Tree, rows: StatusRows, value: bool, quality: Quality, now: u64)
    requires { AreStatusRows (layout_of tree.old) leaf_type.Truth rows }
    ensures rows { tree.new ≡ with_truth (status_names_in (layout_of tree.old) rows) value quality
        now
        tree.old }
    ensures layout { layout_of tree.new ≡ layout_of tree.old }
{
    let is_same = is_truth(tree, rows.value, value);
    let has_same_quality = is_quality(tree, rows.quality, quality);
    if is_same && has_same_quality {
        return;
    }
    put_status(tree, rows, Leaf::Truth(value), quality, now)
}

// Returns whether the key of a switch is the input; if no input is named, whether the switch has a
// key.
fn is_keyed_by(input: Option<usize>, key: Option<usize>) -> bool
    ensures { result ≡ spec.is_keyed_by input key }
{
    match (input, key) {
        (_, None) => false,
        (None, Some(_)) => true,
        (Some(input), Some(key)) => key == input,
    }
}

// Writes the Loc of each switch whose key is the input; if no input is named, of each switch that
// has a key.
fn put_locals(
    tree: &mut Tree,
    locals: &[LocalRows],
    input: Option<usize>,
    value: bool,
    quality: Quality,
    now: u64,
)
    requires { AreLocalsTyped (layout_of tree.old) locals.now }
    ensures rows { tree.new
        ≡ rows_after_locals (layout_of tree.old) input value quality now locals.now tree.old }
    ensures layout { layout_of tree.new ≡ layout_of tree.old }
{
    for index in 0..locals.len() {
        let local = locals[index];
        if is_keyed_by(input, local.key) {
            put_truth(tree, local.rows, value, quality, now);
        }
    }
}

// Writes FALSE as the value of each input, and invalid.
fn invalidate_inputs(tree: &mut Tree, inputs: &[StatusRows], now: u64)
    requires { AreTruths (layout_of tree.old) inputs.now }
    ensures rows { tree.new ≡ rows_after_invalid (layout_of tree.old) now inputs.now tree.old }
    ensures layout { layout_of tree.new ≡ layout_of tree.old }
{
    for index in 0..inputs.len() {
        put_truth(tree, inputs[index], false, Quality::Invalid, now);
    }
}

impl ModelRows {
    /// Writes whether the process is lost to the health of the device and of the physical device,
    /// at `now` in milliseconds since 1970. Returns whether one of them changed.
    pub fn apply_health(&self, tree: &mut Tree, is_lost: bool, now: u64) -> bool
        requires { (inputs : List (List ℕ)) × (switches : List Switch)
            × IsModelBound (layout_of tree.old) inputs switches self.now }
        ensures same { result ≡ false → tree.new ≡ tree.old }
        ensures rows { tree.new ≡ rows_after_health Two is_lost now tree.old }
        ensures layout { layout_of tree.new ≡ layout_of tree.old }
    {
        let device = put_health(tree, self.health, is_lost, now);
        let physical = put_health(tree, self.physical, is_lost, now);
        device || physical
    }

    /// Applies the report of the input at an index, at `now` in milliseconds since 1970: to its
    /// value, and to Loc of each switch whose key it is.
    pub fn apply_input(&self, tree: &mut Tree, input: usize, value: bool, now: u64)
        requires bound { (inputs : List (List ℕ)) × (switches : List Switch)
            × IsModelBound (layout_of tree.old) inputs switches self.now }
        requires within { input < length self.now.inputs }
        ensures rows { (inputs : List (List ℕ)) (switches : List Switch)
            → IsModelBound (layout_of tree.old) inputs switches self.now
            → tree.new ≡ rows_after_input Two inputs switches input value now tree.old }
        ensures layout { layout_of tree.new ≡ layout_of tree.old }
    {
        let rows = self.inputs.as_slice()[input];
        put_truth(tree, rows, value, Quality::Good, now);
        put_locals(
            tree,
            self.locals.as_slice(),
            Some(input),
            !value,
            Quality::Good,
            now,
        );
    }

    /// Applies the loss of the process, at `now` in milliseconds since 1970: each input is FALSE,
    /// and each switch with a key is local, both invalid.
    pub fn lose_inputs(&self, tree: &mut Tree, now: u64)
        requires { (inputs : List (List ℕ)) × (switches : List Switch)
            × IsModelBound (layout_of tree.old) inputs switches self.now }
        ensures rows { (inputs : List (List ℕ)) (switches : List Switch)
            → IsModelBound (layout_of tree.old) inputs switches self.now
            → tree.new ≡ rows_after_lost_inputs Two inputs switches now tree.old }
        ensures layout { layout_of tree.new ≡ layout_of tree.old }
    {
        invalidate_inputs(tree, self.inputs.as_slice(), now);
        put_locals(
            tree,
            self.locals.as_slice(),
            None,
            true,
            Quality::Invalid,
            now,
        );
    }
}
