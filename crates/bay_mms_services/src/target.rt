// Which control a row belongs to.
ghost use Rattle.std.specs.Prelude.{◌≡◌, ◌<◌, ◌^◌, ◌+◌, ◌++◌, ◌∷◌, ℕ, List, Some};
ghost use Rattle.bay_nodes.specs.Names.{cswi_name};
ghost use Rattle.bay_mms_services.specs.RowParts.{part_of_row};
ghost use Rattle.bay_mms_services.specs.RowParts as spec;

use bay_base::decimal::with_digit;
use bay_process::controls::ControlRows;
use bay_tree::tree::Handle;

/// A part of a control (IEC 61850-8-1, the structures below CO).
#[derive(Clone, Copy, Debug)]
pub enum ControlPart {
    /// SBO.
    Select,
    /// SBOw.
    SelectWith,
    /// Oper.
    Operate,
    Cancel,
}

/// A part of the control of a switch.
#[derive(Clone, Copy)]
pub struct Target {
    /// The index of the switch in the bay file, from 0.
    pub switch: usize,
    pub part: ControlPart,
}

/// Returns the index of the switch that a row's name is numbered with, if the row is below the node
/// of a control (IEC 61850-7-4, CSWI): the node's number less 1. Any other row may have an index,
/// too, or `None`. The time that this takes does not depend on the number of switches.
pub(crate) fn control_index(name: &[u8]) -> Option<usize>
    ensures { (k : ℕ) (path : List ℕ) → k + 1 < 2 ^ 64 → name.now ≡ cswi_name k ++ 36 ∷ path
        → result ≡ Some k }
{
    let [b'C', b'S', b'W', b'I', digits @ ..] = name else {
        return None;
    };
    let mut number = 0u64;
    for octet in digits {
        match with_digit(number, *octet) {
            Some(longer) => number = longer,
            None => return (number as usize).checked_sub(1),
        }
    }
    None
}

// Returns whether this optional row is the row at `handle`.
fn is_row(row: Option<Handle>, handle: Handle) -> bool
    ensures { result ≡ spec.is_row handle row }
{
    row.is_some_and(|r| r == handle)
}

/// Returns the part of a switch's control that a row is; `None` if it is none.
pub(crate) fn part_of_row(rows: &ControlRows, handle: Handle) -> Option<ControlPart>
    ensures { result ≡ part_of_row rows.now handle }
{
    if is_row(rows.select, handle) {
        Some(ControlPart::Select)
    } else if is_row(rows.select_with_value, handle) {
        Some(ControlPart::SelectWith)
    } else if is_row(rows.operate, handle) {
        Some(ControlPart::Operate)
    } else if is_row(rows.cancel, handle) {
        Some(ControlPart::Cancel)
    } else {
        None
    }
}
