// Reads the tables of the section `node`.
ghost use Rattle.std.specs.Prelude.{◌≡◌, map, IfOk};
ghost use Rattle.std.specs.List.{list_all};
ghost use Rattle.toml.specs.View.{table_view, view};
ghost use Rattle.bay_config.specs.Key as key;
ghost use Rattle.bay_diagram_file.specs.Row as spec;

use crate::keys::{
    copy_or_empty, copy_text_at, has_key, has_unknown_key, may_be_text, may_be_truth, text_at,
    truth_at,
};
use crate::row::{NodeRow, NodeWord, RowFault};
use bay_diagram::network::NodeKind;
use std::alloc::{AllocError, Global};
use toml::{Table, Value};

// Returns whether a text begins with an ASCII letter.
fn begins_with_letter(text: &[u8]) -> bool
    ensures { result ≡ key.begins_with_letter text.now }
{
    match text {
        [first, ..] => first.is_ascii_alphabetic(),
        [] => false,
    }
}

// Returns whether a character is a letter, a digit or `_`.
fn is_name_character(byte: u8) -> bool
    ensures { result ≡ key.is_name_character byte }
{
    byte.is_ascii_alphanumeric() || byte == b'_'
}

// Returns whether each character is a letter, a digit or `_`.
fn has_name_characters(text: &[u8]) -> bool
    ensures { result ≡ list_all key.is_name_character text.now }
{
    text.iter().all(|byte| is_name_character(*byte))
}

// Returns whether a text is a name: a letter, then letters, digits and `_`; at most 32 characters.
fn is_name(text: &str) -> bool
    ensures { result ≡ key.is_identifier 32 text.now }
{
    let bytes = text.as_bytes();
    begins_with_letter(bytes) && has_name_characters(bytes) && bytes.len() <= 32
}

/// Returns whether the table has a name at a key.
pub fn has_name(table: &Table, name: &str) -> bool
    ensures { result ≡ spec.has_name (table_view table.now) name.now }
{
    match text_at(table, name) {
        Some(text) => is_name(text),
        None => false,
    }
}

// Returns the kind of node that a word names; `None` for any other word.
fn kind_named(word: &str) -> Option<NodeWord>
    ensures { result ≡ key.value_named spec.node_words word.now }
{
    match word {
        "busbar" => Some(NodeWord::Kind(NodeKind::Busbar)),
        "line" => Some(NodeWord::Kind(NodeKind::Line)),
        "cable" => Some(NodeWord::Kind(NodeKind::Cable)),
        "transformer" => Some(NodeWord::Kind(NodeKind::Transformer)),
        "junction" => Some(NodeWord::Kind(NodeKind::Junction)),
        "earth" => Some(NodeWord::Earth),
        _ => None,
    }
}

// Returns the kind of a node; `None` if it is missing or none of the words.
fn kind_at(table: &Table) -> Option<NodeWord>
    ensures { result ≡ spec.node_kind_in (table_view table.now) }
{
    match text_at(table, "kind") {
        Some(word) => kind_named(word),
        None => None,
    }
}

// Returns whether the value at each key of a table is one that it may have.
fn has_right_values(table: &Table) -> bool
    ensures { result ≡ spec.has_node_values (table_view table.now) }
{
    has_name(table, "name")
        && (kind_at(table).is_some()
            && (may_be_truth(table, "source")
                && (may_be_text(table, "system") && may_be_text(table, "dead"))))
}

// Returns what is wrong with a table by itself.
fn fault_of(table: &Table) -> Option<RowFault>
    ensures { result ≡ spec.node_fault (table_view table.now) }
{
    if has_unknown_key(table, &["name", "kind", "source", "system", "dead"]) {
        Some(RowFault::UnknownKey)
    } else if !(has_key(table, "name") && has_key(table, "kind")) {
        Some(RowFault::MissingKey)
    } else if !has_right_values(table) {
        Some(RowFault::BadValue)
    } else {
        None
    }
}

// Reads a table.
fn row_of(alloc: Global, table: &Table) -> Result<NodeRow, AllocError>
    ensures { IfOk result (λ row. row ≡ spec.node_row_of_table (table_view table.now)) }
{
    let name = copy_or_empty(alloc, text_at(table, "name"))?;
    let dead = copy_text_at(alloc, table, "dead")?;
    Ok(NodeRow {
        fault: fault_of(table),
        name,
        kind: kind_at(table).unwrap_or(NodeWord::Earth),
        is_source: truth_at(table, "source"),
        has_system: has_key(table, "system"),
        dead,
    })
}

// Returns the row of a value that is no table.
fn bad_row(alloc: Global) -> Result<NodeRow, AllocError>
    ensures { IfOk result (λ row. row ≡ spec.bad_node_row) }
{
    Ok(NodeRow {
        fault: Some(RowFault::BadValue),
        name: copy_or_empty(alloc, None)?,
        kind: NodeWord::Earth,
        is_source: false,
        has_system: false,
        dead: None,
    })
}

// Reads a value of the section.
fn row_from(alloc: Global, value: &Value) -> Result<NodeRow, AllocError>
    ensures { IfOk result (λ row. row ≡ spec.node_row_of_value (view value.now)) }
{
    match value.as_table() {
        Some(table) => row_of(alloc, table),
        None => bad_row(alloc),
    }
}

/// Reads the values of the section. Fails only if an allocation fails.
pub fn node_rows(alloc: Global, values: &[Value]) -> Result<Vec<NodeRow>, AllocError>
    ensures { IfOk result (λ rows. rows.items
        ≡ map spec.node_row_of_value (map (λ v. view v) values.now)) }
{
    let mut rows = Vec::new(alloc);
    for value in values {
        rows.push(row_from(alloc, value)?)?;
    }
    Ok(rows)
}
