// Reads the section `check`: the hazards that count only if a diagram selects them.
ghost use Rattle.std.specs.Prelude.{◌≡◌, codes};
ghost use Rattle.toml.specs.Data.{as_table, get_member};
ghost use Rattle.toml.specs.View.{table_view, view};
ghost use Rattle.bay_diagram_file.specs.Diagram as spec;

use crate::fault::{DiagramFault, FaultKind, Place};
use crate::keys::{find, has_unknown_key, may_be_truth, truth_at};
use bay_diagram::network::Checks;
use toml::{Table, Value};

/// Returns a fault of the file, or of a section, as a whole.
pub fn file_fault(kind: FaultKind) -> DiagramFault
    ensures { result ≡ spec.file_fault kind }
{
    DiagramFault {
        kind,
        place: Place::File,
    }
}

// Returns whether the value at each key of the table is TRUE or FALSE.
fn has_right_values(table: &Table) -> bool
    ensures { result ≡ spec.has_check_values (table_view table.now) }
{
    may_be_truth(table, "live_parts") && may_be_truth(table, "fed_earths")
}

// Returns the refusal of the table.
fn table_refusal(table: &Table) -> Option<DiagramFault>
    ensures { result ≡ spec.check_table_refusal (table_view table.now) }
{
    if has_unknown_key(table, &["live_parts", "fed_earths"]) {
        Some(file_fault(FaultKind::UnknownKey))
    } else if has_right_values(table) {
        None
    } else {
        Some(file_fault(FaultKind::BadValue))
    }
}

// Returns the refusal of a value, which must be a table.
fn value_refusal(value: &Value) -> Option<DiagramFault>
    ensures { result ≡ spec.check_value_refusal (as_table (view value.now)) }
{
    match value.as_table() {
        Some(table) => table_refusal(table),
        None => Some(file_fault(FaultKind::BadValue)),
    }
}

/// Returns the refusal of the section, which may be missing.
pub fn check_refusal(file: &Table) -> Option<DiagramFault>
    ensures { result ≡ spec.check_refusal (get_member (codes "check") (table_view file.now)) }
{
    match find(file, "check") {
        Some(value) => value_refusal(value),
        None => None,
    }
}

// Returns the hazards that a value selects; none if it is no table.
fn checks_of(value: &Value) -> Checks
    ensures { result ≡ spec.checks_of_table (as_table (view value.now)) }
{
    match value.as_table() {
        Some(table) => Checks {
            live_parts: truth_at(table, "live_parts"),
            fed_earths: truth_at(table, "fed_earths"),
        },
        None => Checks {
            live_parts: false,
            fed_earths: false,
        },
    }
}

/// Returns the hazards that a file selects.
pub fn checks_in(file: &Table) -> Checks
    ensures { result ≡ spec.checks_in (table_view file.now) }
{
    match find(file, "check") {
        Some(value) => checks_of(value),
        None => Checks {
            live_parts: false,
            fed_earths: false,
        },
    }
}
