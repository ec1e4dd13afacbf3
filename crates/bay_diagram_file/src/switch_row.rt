// Reads the tables of the section `between`.
ghost use Rattle.std.specs.Prelude.{◌≡◌, map, option_copied, IfOk};
ghost use Rattle.toml.specs.View.{table_view, view};
ghost use Rattle.bay_config.specs.Key as key;
ghost use Rattle.bay_config.specs.Switch.{kinds};
ghost use Rattle.bay_diagram_file.specs.Row as spec;

use crate::keys::{
    copy_or_empty, copy_text_at, has_key, has_unknown_key, may_be_text, may_be_truth, text_at,
    truth_at, values_at,
};
use crate::node_row::has_name;
use crate::row::{RowFault, SwitchRow};
use bay_base::switch::SwitchKind;
use std::alloc::{AllocError, Global};
use toml::{Table, Value};

// Returns the kind of switch that a word names; `None` for any other word.
fn kind_named(word: &str) -> Option<SwitchKind>
    ensures { result ≡ key.value_named kinds word.now }
{
    match word {
        "breaker" => Some(SwitchKind::Breaker),
        "disconnector" => Some(SwitchKind::Disconnector),
        "earthing" => Some(SwitchKind::Earthing),
        _ => None,
    }
}

// Returns the kind of a switch; `None` if it is missing or none of the words.
fn kind_at(table: &Table) -> Option<SwitchKind>
    ensures { result ≡ spec.switch_kind_in (table_view table.now) }
{
    match text_at(table, "kind") {
        Some(word) => kind_named(word),
        None => None,
    }
}

// Returns whether the table names two nodes.
fn has_nodes(table: &Table) -> bool
    ensures { result ≡ spec.has_nodes (table_view table.now) }
{
    match values_at(table, "nodes") {
        [one, other] => one.is_str() && other.is_str(),
        _ => false,
    }
}

// Returns the text of a value of a list at an index; `None` if there is none.
fn text_among<'a>(values: &'a [Value], index: usize) -> Option<&'a str>
    ensures { option_copied result ≡ spec.text_at (map (λ v. view v) values.now) index }
{
    match values.get(index) {
        Some(value) => value.as_str(),
        None => None,
    }
}

// Returns whether the value at each key of a table is one that it may have.
fn has_right_values(table: &Table) -> bool
    ensures { result ≡ spec.has_switch_values (table_view table.now) }
{
    (!has_key(table, "switch") || has_name(table, "switch"))
        && ((!has_key(table, "name") || has_name(table, "name"))
            && ((!has_key(table, "kind") || kind_at(table).is_some())
                && (has_nodes(table)
                    && (may_be_text(table, "closed")
                        && (may_be_text(table, "open")
                            && (may_be_truth(table, "isolates")
                                && (may_be_text(table, "synchro")
                                    && may_be_truth(table, "coupler"))))))))
}

// Returns what is wrong with a table by itself.
fn fault_of(table: &Table) -> Option<RowFault>
    ensures { result ≡ spec.switch_fault (table_view table.now) }
{
    let known = [
        "switch", "name", "kind", "nodes", "closed", "open", "isolates", "synchro", "coupler",
    ];
    if has_unknown_key(table, &known) {
        Some(RowFault::UnknownKey)
    } else if !has_key(table, "nodes") {
        Some(RowFault::MissingKey)
    } else if !has_right_values(table) {
        Some(RowFault::BadValue)
    } else {
        None
    }
}

// Reads a table.
fn row_of(alloc: Global, table: &Table) -> Result<SwitchRow, AllocError>
    ensures { IfOk result (λ row. row ≡ spec.switch_row_of_table (table_view table.now)) }
{
    let nodes = values_at(table, "nodes");
    let switch = copy_text_at(alloc, table, "switch")?;
    let name = copy_text_at(alloc, table, "name")?;
    let one = copy_or_empty(alloc, text_among(nodes, 0))?;
    let other = copy_or_empty(alloc, text_among(nodes, 1))?;
    let closed = copy_text_at(alloc, table, "closed")?;
    let opened = copy_text_at(alloc, table, "open")?;
    let synchro = copy_text_at(alloc, table, "synchro")?;
    Ok(SwitchRow {
        fault: fault_of(table),
        switch,
        name,
        kind: kind_at(table),
        one,
        other,
        closed,
        opened,
        isolates: truth_at(table, "isolates"),
        synchro,
        is_coupler: truth_at(table, "coupler"),
    })
}

// Returns the row of a value that is no table.
fn bad_row(alloc: Global) -> Result<SwitchRow, AllocError>
    ensures { IfOk result (λ row. row ≡ spec.bad_switch_row) }
{
    let one = copy_or_empty(alloc, None)?;
    let other = copy_or_empty(alloc, None)?;
    Ok(SwitchRow {
        fault: Some(RowFault::BadValue),
        switch: None,
        name: None,
        kind: None,
        one,
        other,
        closed: None,
        opened: None,
        isolates: false,
        synchro: None,
        is_coupler: false,
    })
}

// Reads a value of the section.
fn row_from(alloc: Global, value: &Value) -> Result<SwitchRow, AllocError>
    ensures { IfOk result (λ row. row ≡ spec.switch_row_of_value (view value.now)) }
{
    match value.as_table() {
        Some(table) => row_of(alloc, table),
        None => bad_row(alloc),
    }
}

/// Reads the values of the section. Fails only if an allocation fails.
pub fn switch_rows(alloc: Global, values: &[Value]) -> Result<Vec<SwitchRow>, AllocError>
    ensures { IfOk result (λ rows. rows.items
        ≡ map spec.switch_row_of_value (map (λ v. view v) values.now)) }
{
    let mut rows = Vec::new(alloc);
    for value in values {
        rows.push(row_from(alloc, value)?)?;
    }
    Ok(rows)
}
