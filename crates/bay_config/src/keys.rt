// The value at a key of a table, and the keys that a table may have.
ghost use Rattle.std.specs.Prelude.{◌≡◌, not, map, option_and_then, option_map, string_bytes, IfOk, IfErr};
ghost use Rattle.std.specs.BTreeMap.{keys};
ghost use Rattle.std.specs.Int.{is_in_range};
ghost use Rattle.std.specs.List.{list_all, list_any};
ghost use Rattle.std.specs.Str.{bytes_eq};
ghost use Rattle.toml.specs.Data.{as_str, get_member};
ghost use Rattle.toml.specs.View.{view, table_view};
ghost use Rattle.bay_config.specs.declared.fault.BayFault.TheVariants.{OutOfMemory};
ghost use Rattle.bay_base.specs.Exact.{ExactOr, unless_refused};
ghost use Rattle.bay_config.specs.Key.{identifier, description, number, optional, unknown_refusal, key_refusal, text_in, number_in};
ghost use Rattle.bay_config.specs.Key as spec;

use crate::fault::BayFault;
use bay_base::text::Text;
use std::alloc::Global;
use toml::{Table, Value};

/// Returns the value at a key; `None` if the table does not have the key.
pub fn find<'a>(table: &'a Table, key: &str) -> Option<&'a Value>
    ensures { option_map (λ v. view v.now) result ≡ get_member key.now (table_view table.now) }
{
    table.get(key)
}

/// Returns whether `known` has the key.
pub fn is_known(known: &[&str], key: &str) -> bool
    ensures { result ≡ list_any (λ k. bytes_eq key.now k.now) known.now }
{
    known.iter().any(|one| key == *one)
}

// Returns whether any key of the table is unknown.
fn has_unknown_key(table: &Table, known: &[&str]) -> bool
    ensures { result ≡ list_any
        (λ key. not (list_any (λ k. bytes_eq (string_bytes key) k.now) known.now))
        (keys table.now) }
{
    table.keys().any(|key| !is_known(known, key.as_str()))
}

/// Checks the keys of a table: `UnknownKey` if any of them is not in `known`.
pub fn check_keys(table: &Table, known: &[&str]) -> Result<(), BayFault>
    ensures { result ≡ unless_refused
        (unknown_refusal (map (λ k. k.now) known.now) (table_view table.now))
        tt }
{
    if has_unknown_key(table, known) {
        return Err(BayFault::UnknownKey);
    }
    Ok(())
}

// Returns whether a text begins with an ASCII letter.
fn begins_with_letter(text: &[u8]) -> bool
    ensures { result ≡ spec.begins_with_letter text.now }
{
    match text {
        [first, ..] => first.is_ascii_alphabetic(),
        [] => false,
    }
}

// Returns whether a character is a letter, a digit or `_`.
fn is_name_character(byte: u8) -> bool
    ensures { result ≡ spec.is_name_character byte }
{
    byte.is_ascii_alphanumeric() || byte == b'_'
}

// Returns whether each character is a letter, a digit or `_`.
fn has_name_characters(text: &[u8]) -> bool
    ensures { result ≡ list_all spec.is_name_character text.now }
{
    text.iter().all(|byte| is_name_character(*byte))
}

// Returns whether a text is a name of at most `most` characters: a letter, then letters, digits and
// `_`.
fn is_identifier(text: &str, most: usize) -> bool
    ensures { result ≡ spec.is_identifier most text.now }
{
    let bytes = text.as_bytes();
    begins_with_letter(bytes) && has_name_characters(bytes) && bytes.len() <= most
}

// Returns whether each character is from space to `~`.
fn has_printable_characters(text: &[u8]) -> bool
    ensures { result ≡ list_all (is_in_range 32 126) text.now }
{
    text.iter().all(|byte| b' ' <= *byte && *byte <= b'~')
}

// Returns whether a text has 1 to 64 characters from space to `~`.
fn is_description(text: &str) -> bool
    ensures { result ≡ spec.is_description text.now }
{
    let bytes = text.as_bytes();
    1 <= bytes.len() && bytes.len() <= 64 && has_printable_characters(bytes)
}

/// Reads the identifier at a key, of at most `most` characters. `MissingKey` if the table does not
/// have the key, `BadValue` if its value is not such an identifier, `OutOfMemory` if an allocation
/// fails.
pub fn read_identifier(
    alloc: Global,
    table: &Table,
    key: &str,
    most: usize,
) -> Result<Text, BayFault>
    ensures { let file = table_view table.now in
        ExactOr OutOfMemory (λ x. x) result
        (unless_refused (key_refusal file (record { name = key.now; form = identifier most }))
        (text_in file key.now)) }
{
    match find(table, key) {
        Some(value) => match value.as_str() {
            Some(text) if is_identifier(text, most) => Ok(Text::from_str(alloc, text)?),
            _ => Err(BayFault::BadValue),
        },
        None => Err(BayFault::MissingKey),
    }
}

/// Reads the identifier at a key, of at most `most` characters; `None` if the table does not have
/// the key. `BadValue` if its value is not such an identifier, `OutOfMemory` if an allocation
/// fails.
pub fn read_optional_identifier(
    alloc: Global,
    table: &Table,
    key: &str,
    most: usize,
) -> Result<Option<Text>, BayFault>
    ensures { let file = table_view table.now in
        ExactOr OutOfMemory (λ x. x) result
        (unless_refused
        (key_refusal file (record { name = key.now; form = optional (identifier most) }))
        (option_and_then as_str (get_member key.now file))) }
{
    match find(table, key) {
        Some(value) => match value.as_str() {
            Some(text) if is_identifier(text, most) => Ok(Some(Text::from_str(alloc, text)?)),
            _ => Err(BayFault::BadValue),
        },
        None => Ok(None),
    }
}

/// Reads the description at a key: 1 to 64 characters from space to `~`. `MissingKey` if the table
/// does not have the key, `BadValue` if its value is not a description, `OutOfMemory` if an
/// allocation fails.
pub fn read_description(alloc: Global, table: &Table, key: &str) -> Result<Text, BayFault>
    ensures { let file = table_view table.now in
        ExactOr OutOfMemory (λ x. x) result
        (unless_refused (key_refusal file (record { name = key.now; form = description }))
        (text_in file key.now)) }
{
    match find(table, key) {
        Some(value) => match value.as_str() {
            Some(text) if is_description(text) => Ok(Text::from_str(alloc, text)?),
            _ => Err(BayFault::BadValue),
        },
        None => Err(BayFault::MissingKey),
    }
}

/// Reads the number at a key, from `least` to `most`. `MissingKey` if the table does not have the
/// key, `BadValue` if its value is not such a number.
pub fn read_u32(table: &Table, key: &str, least: u32, most: u32) -> Result<u32, BayFault>
    ensures { let file = table_view table.now in
        result ≡ unless_refused
        (key_refusal file (record { name = key.now; form = number least most }))
        (number_in file key.now) }
{
    match find(table, key) {
        Some(value) => match value.as_integer() {
            Some(number) => {
                if i64::from(least) <= number && number <= i64::from(most) {
                    Ok(number as u32)
                } else {
                    Err(BayFault::BadValue)
                }
            }
            None => Err(BayFault::BadValue),
        },
        None => Err(BayFault::MissingKey),
    }
}
