// The value at a key of a table.
ghost use Rattle.std.specs.Prelude.{◌≡◌, [], not, map, is_some, option_copied, option_map, IfOk};
ghost use Rattle.std.specs.Prelude.{option_and_then, string_bytes, unwrap_or};
ghost use Rattle.std.specs.BTreeMap.{keys};
ghost use Rattle.std.specs.List.{list_any};
ghost use Rattle.std.specs.Str.{bytes_eq};
ghost use Rattle.toml.specs.Data.{as_str, get_member};
ghost use Rattle.toml.specs.View.{table_view, view};
ghost use Rattle.bay_config.specs.Key.{has_unknown};
ghost use Rattle.bay_diagram_file.specs.Row as spec;

use bay_base::text::Text;
use std::alloc::{AllocError, Global};
use toml::{Table, Value};

/// Returns the value at a key; `None` if the table does not have the key.
pub fn find<'a>(table: &'a Table, key: &str) -> Option<&'a Value>
    ensures { option_map (λ v. view v.now) result ≡ get_member key.now (table_view table.now) }
{
    table.get(key)
}

// Returns whether `known` has the key.
fn is_known(known: &[&str], key: &str) -> bool
    ensures { result ≡ list_any (λ k. bytes_eq key.now k.now) known.now }
{
    known.iter().any(|one| key == *one)
}

// Returns whether any key of the table is not in `known`.
fn has_unlisted_key(table: &Table, known: &[&str]) -> bool
    ensures { result ≡ list_any
        (λ key. not (list_any (λ k. bytes_eq (string_bytes key) k.now) known.now))
        (keys table.now) }
{
    table.keys().any(|key| !is_known(known, key.as_str()))
}

/// Returns whether any key of the table is not in `known`.
pub fn has_unknown_key(table: &Table, known: &[&str]) -> bool
    ensures { result ≡ has_unknown (map (λ k. k.now) known.now) (table_view table.now) }
{
    has_unlisted_key(table, known)
}

/// Returns whether the table has the key.
pub fn has_key(table: &Table, key: &str) -> bool
    ensures { result ≡ is_some (get_member key.now (table_view table.now)) }
{
    find(table, key).is_some()
}

/// Returns whether the value at a key is a text, or is missing.
pub fn may_be_text(table: &Table, key: &str) -> bool
    ensures { result ≡ spec.may_be spec.is_text (get_member key.now (table_view table.now)) }
{
    match find(table, key) {
        Some(value) => value.is_str(),
        None => true,
    }
}

/// Returns whether the value at a key is a truth value, or is missing.
pub fn may_be_truth(table: &Table, key: &str) -> bool
    ensures { result ≡ spec.may_be spec.is_truth (get_member key.now (table_view table.now)) }
{
    match find(table, key) {
        Some(value) => value.is_bool(),
        None => true,
    }
}

/// Returns the text at a key; `None` if there is none.
pub fn text_at<'a>(table: &'a Table, key: &str) -> Option<&'a str>
    ensures { option_copied result
        ≡ option_and_then as_str (get_member key.now (table_view table.now)) }
{
    match find(table, key) {
        Some(value) => value.as_str(),
        None => None,
    }
}

/// Returns the truth value at a key; FALSE if there is none.
pub fn truth_at(table: &Table, key: &str) -> bool
    ensures { result ≡ spec.truth_in (table_view table.now) key.now }
{
    match find(table, key) {
        Some(value) => value.as_bool().unwrap_or(false),
        None => false,
    }
}

/// Returns the values of the list at a key; none if it is no list.
pub fn values_at<'a>(table: &'a Table, key: &str) -> &'a [Value]
    ensures { map (λ v. view v) result.now ≡ spec.values_in (table_view table.now) key.now }
{
    match find(table, key) {
        Some(value) => match value.as_array() {
            Some(values) => values.as_slice(),
            None => &[],
        },
        None => &[],
    }
}

/// Copies the text at a key; `None` if there is none. Fails only if the allocation fails.
pub fn copy_text_at(alloc: Global, table: &Table, key: &str) -> Result<Option<Text>, AllocError>
    ensures { IfOk result (λ text. text
        ≡ option_and_then as_str (get_member key.now (table_view table.now))) }
{
    match text_at(table, key) {
        Some(text) => Ok(Some(Text::from_str(alloc, text)?)),
        None => Ok(None),
    }
}

/// Copies a text; an empty one for `None`. Fails only if the allocation fails.
pub fn copy_or_empty(alloc: Global, text: Option<&str>) -> Result<Text, AllocError>
    ensures { IfOk result (λ copy. copy ≡ unwrap_or (option_copied text.entry) []) }
{
    match text {
        Some(text) => Text::from_str(alloc, text),
        None => Text::from_str(alloc, ""),
    }
}
