// The section `input` of a file, which lists the names of the inputs.
ghost use Rattle.std.specs.Prelude.{map, codes, IsErrOf, IsSome};
ghost use Rattle.toml.specs.Data.{get_member};
ghost use Rattle.toml.specs.View.{table_view, items_view};
ghost use Rattle.bay_config.specs.declared.fault.BayFault.TheVariants.{OutOfMemory};
ghost use Rattle.bay_config.specs.Bay.{input_in, input_keys, input_section, inputs_in};
ghost use Rattle.bay_base.specs.Exact.{ExactOr, unless_refused};
ghost use Rattle.bay_config.specs.Key.{first_fault, entry_refusal};
ghost use Rattle.bay_config.specs.Section.{tables_of, items_at, items_refusal, section_refusal};

use crate::fault::BayFault;
use crate::keys::{check_keys, find, read_identifier};
use crate::lists::check_list;
use bay_base::listing::Listing;
use bay_base::text::Text;
use std::alloc::Global;
use toml::{Table, Value};

// Reads the name of the input in a table.
fn read_input(alloc: Global, table: &Table) -> Result<Text, BayFault>
    ensures { let t = table_view table.now in
        ExactOr OutOfMemory (λ x. x) result
        (unless_refused (entry_refusal input_keys t) (input_in t)) }
{
    check_keys(table, &["name"])?;
    read_identifier(alloc, table, "name", 16)
}

// Reads the names of the inputs in the tables of a list.
fn read_inputs(alloc: Global, values: &[Value]) -> Result<Listing<Text>, BayFault>
    ensures { let tables = tables_of (items_view values.now) in
        ExactOr OutOfMemory (λ x. x) result
        (unless_refused (first_fault (map (λ t. entry_refusal input_keys t) tables))
        (map input_in tables)) }
{
    let mut names = Vec::new(alloc);
    for i in 0..values.len() {
        if let Some(table) = values[i].as_table() {
            let name = read_input(alloc, table)?;
            names.push(name)?;
        }
    }
    Ok(Listing::new(names))
}

// Reads the names of the inputs in a list. Refuses a list with too many values, or with a value
// that is not a table.
fn read_input_list(alloc: Global, values: &[Value]) -> Result<Listing<Text>, BayFault>
    ensures { let items = items_view values.now in
        ExactOr OutOfMemory (λ x. x) result
        (unless_refused (items_refusal 0 64 (λ _. input_keys) items)
        (map input_in (tables_of items))) }
{
    check_list(values, 0, 64)?;
    read_inputs(alloc, values)
}

/// Reads the names of the inputs; none if the section is missing. `BadValue` if the section is not
/// a list; otherwise its first fault, or `OutOfMemory` if an allocation fails. Does not allocate
/// for a value that is not a list.
pub fn read_input_section(alloc: Global, file: &Table) -> Result<Listing<Text>, BayFault>
    ensures names { let f = table_view file.now in
        ExactOr OutOfMemory (λ x. x) result
        (unless_refused (section_refusal f input_section) (inputs_in f)) }
    ensures memory { IsErrOf result OutOfMemory
        → IsSome (items_at (get_member (codes "input") (table_view file.now))) }
{
    match find(file, "input") {
        Some(value) => match value.as_array() {
            Some(values) => read_input_list(alloc, values.as_slice()),
            None => Err(BayFault::BadValue),
        },
        None => Ok(Listing::new(Vec::new(alloc))),
    }
}
