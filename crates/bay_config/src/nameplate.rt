// The section `bay` of a file.
ghost use Rattle.toml.specs.View.{table_view};
ghost use Rattle.bay_config.specs.declared.fault.BayFault.TheVariants.{OutOfMemory};
ghost use Rattle.std.specs.Prelude.{◌≡◌, codes};
ghost use Rattle.bay_config.specs.Bay.{bay_keys, bay_section, bay_table, nameplate_in, profile_key, profile_numbered};
ghost use Rattle.bay_base.specs.Exact.{ExactOr, unless_refused};
ghost use Rattle.bay_config.specs.Key.{entry_refusal, key_refusal, number_in};
ghost use Rattle.bay_config.specs.Section.{section_refusal};

use crate::fault::BayFault;
use crate::keys::{check_keys, find, read_description, read_identifier, read_u32};
use bay_nodes::nameplate::Nameplate;
use bay_nodes::profile::Profile;
use std::alloc::Global;
use toml::Table;

// The last profile that a file may have.
const LAST_PROFILE: u32 = 2;

// Returns the profile with a number.
fn profile_with(number: u32) -> Profile
    ensures { result ≡ profile_numbered number }
{
    if number == 2 {
        Profile::Two
    } else {
        Profile::One
    }
}

// Reads the profile of the model; profile 1 if the table does not have the key.
fn read_profile(table: &Table) -> Result<Profile, BayFault>
    ensures { let t = table_view table.now in
        result ≡ unless_refused (key_refusal t profile_key)
        (profile_numbered (number_in t (codes "profile"))) }
{
    match find(table, "profile") {
        Some(_) => {
            let number = read_u32(table, "profile", 1, LAST_PROFILE)?;
            Ok(profile_with(number))
        }
        None => Ok(Profile::One),
    }
}

// Reads the nameplate from the table of the section `bay`, after a check of its keys.
fn read_nameplate_table(alloc: Global, table: &Table) -> Result<Nameplate, BayFault>
    ensures { let t = table_view table.now in
        ExactOr OutOfMemory (λ x. x) result
        (unless_refused (entry_refusal bay_keys t) (nameplate_in t)) }
{
    check_keys(
        table,
        &[
            "domain",
            "vendor",
            "model",
            "revision",
            "scan_max_age_ms",
            "profile",
        ],
    )?;
    let domain = read_identifier(alloc, table, "domain", 32)?;
    let vendor = read_description(alloc, table, "vendor")?;
    let model = read_description(alloc, table, "model")?;
    let revision = read_description(alloc, table, "revision")?;
    let scan_max_age_ms = read_u32(table, "scan_max_age_ms", 0, 600_000)?;
    let profile = read_profile(table)?;
    Ok(Nameplate {
        domain,
        vendor,
        model,
        revision,
        scan_max_age_ms,
        profile,
    })
}

/// Reads the section `bay`. `MissingKey` if the file has no such section, `BadValue` if it is not a
/// table; otherwise the first fault of the table, or `OutOfMemory` if an allocation fails.
pub fn read_nameplate(alloc: Global, file: &Table) -> Result<Nameplate, BayFault>
    ensures { let f = table_view file.now in
        ExactOr OutOfMemory (λ x. x) result
        (unless_refused (section_refusal f bay_section) (nameplate_in (bay_table f))) }
{
    match find(file, "bay") {
        Some(value) => match value.as_table() {
            Some(table) => read_nameplate_table(alloc, table),
            None => Err(BayFault::BadValue),
        },
        None => Err(BayFault::MissingKey),
    }
}
