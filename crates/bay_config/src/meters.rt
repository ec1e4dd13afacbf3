// The section `meter` of a file.
ghost use Rattle.std.specs.Prelude.{◌≡◌, map, codes, IsErrOf, IsSome};
ghost use Rattle.toml.specs.Data.{get_member};
ghost use Rattle.toml.specs.View.{table_view, items_view};
ghost use Rattle.bay_config.specs.declared.fault.BayFault.TheVariants.{OutOfMemory};
ghost use Rattle.bay_config.specs.Bay.{meter_in, meter_keys, meter_section, meters_of, scale_in, scale_keys};
ghost use Rattle.bay_base.specs.Exact.{ExactOr, unless_refused};
ghost use Rattle.bay_config.specs.Key.{first_fault, entry_refusal, key_refusal};
ghost use Rattle.bay_config.specs.Section.{tables_of, items_at, items_refusal, section_refusal};

use crate::bay::{Meter, Profile};
use crate::fault::BayFault;
use crate::keys::{check_keys, find, read_identifier};
use crate::lists::check_list;
use bay_base::listing::Listing;
use std::alloc::Global;
use toml::{Table, Value};

// Returns the known keys of a meter: only in profile 2 it may have a scale.
fn meter_key_names(profile: Profile) -> &'static [&'static str]
    ensures { map (λ k. k.now) result.now ≡ map (λ key. key.name) (meter_keys profile) }
{
    match profile {
        Profile::One => &["id"],
        Profile::Two => &["id", "scale"],
    }
}

// Reads the scale in a table, -6 to 6; `None` if the table does not have the key.
fn read_power(table: &Table) -> Result<Option<i8>, BayFault>
    ensures { let t = table_view table.now in
        result ≡ unless_refused (first_fault (map (key_refusal t) (scale_keys Profile.Two)))
        (scale_in Profile.Two t) }
{
    match find(table, "scale") {
        Some(value) => match value.as_integer() {
            Some(power) if -6 <= power && power <= 6 => Ok(Some(power as i8)),
            _ => Err(BayFault::BadValue),
        },
        None => Ok(None),
    }
}

// Reads the scale of a meter; `None` if the table does not have the key, and in profile 1.
fn read_scale(table: &Table, profile: Profile) -> Result<Option<i8>, BayFault>
    ensures { let t = table_view table.now in
        result ≡ unless_refused (first_fault (map (key_refusal t) (scale_keys profile)))
        (scale_in profile t) }
{
    match profile {
        Profile::One => Ok(None),
        Profile::Two => read_power(table),
    }
}

// Reads the meter in a table.
fn read_meter(alloc: Global, table: &Table, profile: Profile) -> Result<Meter, BayFault>
    ensures { let t = table_view table.now in
        ExactOr OutOfMemory (λ x. x) result
        (unless_refused (entry_refusal (meter_keys profile) t) (meter_in profile t)) }
{
    check_keys(table, meter_key_names(profile))?;
    let id = read_identifier(alloc, table, "id", 16)?;
    let scale = read_scale(table, profile)?;
    Ok(Meter { id, scale })
}

// Reads the meters in the tables of a list.
fn read_meters(
    alloc: Global,
    values: &[Value],
    profile: Profile,
) -> Result<Listing<Meter>, BayFault>
    ensures { let tables = tables_of (items_view values.now) in
        ExactOr OutOfMemory (λ x. x) result
        (unless_refused (first_fault (map (λ t. entry_refusal (meter_keys profile) t) tables))
        (map (meter_in profile) tables)) }
{
    let mut meters = Vec::new(alloc);
    for i in 0..values.len() {
        if let Some(table) = values[i].as_table() {
            let meter = read_meter(alloc, table, profile)?;
            meters.push(meter)?;
        }
    }
    Ok(Listing::new(meters))
}

// Reads the meters in a list. Refuses a list with too many values, or with a value that is not a
// table.
fn read_meter_list(
    alloc: Global,
    values: &[Value],
    profile: Profile,
) -> Result<Listing<Meter>, BayFault>
    ensures { let items = items_view values.now in
        ExactOr OutOfMemory (λ x. x) result
        (unless_refused (items_refusal 0 8 (λ _. meter_keys profile) items)
        (map (meter_in profile) (tables_of items))) }
{
    check_list(values, 0, 8)?;
    read_meters(alloc, values, profile)
}

/// Reads the meters; none if the section is missing. `BadValue` if the section is not a list;
/// otherwise its first fault, or `OutOfMemory` if an allocation fails. Does not allocate for a
/// value that is not a list.
pub fn read_meter_section(
    alloc: Global,
    file: &Table,
    profile: Profile,
) -> Result<Listing<Meter>, BayFault>
    ensures meters { let f = table_view file.now in
        ExactOr OutOfMemory (λ x. x) result
        (unless_refused (section_refusal f (meter_section profile)) (meters_of profile f)) }
    ensures memory { IsErrOf result OutOfMemory
        → IsSome (items_at (get_member (codes "meter") (table_view file.now))) }
{
    match find(file, "meter") {
        Some(value) => match value.as_array() {
            Some(values) => read_meter_list(alloc, values.as_slice(), profile),
            None => Err(BayFault::BadValue),
        },
        None => Ok(Listing::new(Vec::new(alloc))),
    }
}
