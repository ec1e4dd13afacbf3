// The section `switch` of a file.
ghost use Rattle.std.specs.Prelude.{◌≡◌, ◌∷◌, ◌++◌, [], false, map, codes, IfOk, unwrap_or};
ghost use Rattle.toml.specs.View.{table_view, items_view};
ghost use Rattle.bay_base.specs.declared.switch.SwitchKind.TheVariants.{Breaker};
ghost use Rattle.bay_config.specs.declared.fault.BayFault.TheVariants.{OutOfMemory};
ghost use Rattle.bay_base.specs.declared.switch.Control.TheVariants.{Status};
ghost use Rattle.bay_config.specs.Bay.{switch_section, switches_in};
ghost use Rattle.bay_base.specs.Exact.{ExactOr, unless_refused};
ghost use Rattle.bay_config.specs.Key.{first_fault, has_unknown, key_refusal, entry_refusal, value_named, number_in};
ghost use Rattle.bay_config.specs.Section.{tables_of, items_refusal, section_refusal};
ghost use Rattle.bay_config.specs.Switch.{kinds, controls, kind_of, control_of, kind_key, control_key, sbo_timeout_key, travel_key, time_keys, remote_key, synchrocheck_key, synchrocheck_keys, optional_keys, remote_in, refuses_in, switch_keys, switch_in};

use crate::bay::{Control, Switch, SwitchKind};
use crate::fault::BayFault;
use crate::keys::{check_keys, find, read_identifier, read_optional_identifier, read_u32};
use crate::lists::check_list;
use bay_base::listing::Listing;
use bay_base::text::Text;
use std::alloc::Global;
use toml::{Table, Value};

// Returns the kind of switch that a word names; `None` for any other word.
fn kind_named(word: &str) -> Option<SwitchKind>
    ensures { result ≡ value_named kinds word.now }
{
    match word {
        "breaker" => Some(SwitchKind::Breaker),
        "disconnector" => Some(SwitchKind::Disconnector),
        "earthing" => Some(SwitchKind::Earthing),
        _ => None,
    }
}

// Returns the kind of control that a word names; `None` for any other word.
fn control_named(word: &str) -> Option<Control>
    ensures { result ≡ value_named controls word.now }
{
    match word {
        "status" => Some(Control::Status),
        "direct" => Some(Control::Direct),
        "sbo" => Some(Control::Sbo),
        "sbo-enhanced" => Some(Control::SboEnhanced),
        _ => None,
    }
}

// Returns the kind of a switch in a table; `None` if it is missing or invalid.
fn readable_kind(table: &Table) -> Option<SwitchKind>
    ensures { result ≡ kind_of (table_view table.now) }
{
    match find(table, "kind") {
        Some(value) => match value.as_str() {
            Some(word) => kind_named(word),
            None => None,
        },
        None => None,
    }
}

// Reads the kind of a switch: one of three words.
#[tactic(auto, using(crate::proofs::KeyLemmas::among_named))]
fn read_kind(table: &Table) -> Result<SwitchKind, BayFault>
    ensures held { let t = table_view table.now in
        result ≡ unless_refused (key_refusal t kind_key) (unwrap_or (kind_of t) Breaker) }
    ensures readable { IfOk result (λ k. kind_of (table_view table.now) ≡ Some k) }
{
    match find(table, "kind") {
        Some(value) => match value.as_str() {
            Some(word) => match kind_named(word) {
                Some(kind) => Ok(kind),
                None => Err(BayFault::BadValue),
            },
            None => Err(BayFault::BadValue),
        },
        None => Err(BayFault::MissingKey),
    }
}

// Returns the kind of control in a table; `None` if it is missing or invalid.
fn readable_control(table: &Table) -> Option<Control>
    ensures { result ≡ control_of (table_view table.now) }
{
    match find(table, "control") {
        Some(value) => match value.as_str() {
            Some(word) => control_named(word),
            None => None,
        },
        None => None,
    }
}

// Reads the kind of a switch's control: one of four words.
#[tactic(auto, using(crate::proofs::KeyLemmas::among_named))]
fn read_control(table: &Table) -> Result<Control, BayFault>
    ensures held { let t = table_view table.now in
        result ≡ unless_refused (key_refusal t control_key) (unwrap_or (control_of t) Status) }
    ensures readable { IfOk result (λ c. control_of (table_view table.now) ≡ Some c) }
{
    match find(table, "control") {
        Some(value) => match value.as_str() {
            Some(word) => match control_named(word) {
                Some(control) => Ok(control),
                None => Err(BayFault::BadValue),
            },
            None => Err(BayFault::BadValue),
        },
        None => Err(BayFault::MissingKey),
    }
}

// Returns the names of the keys of a switch with this control and of this kind.
fn switch_key_names(control: Option<Control>, kind: Option<SwitchKind>) -> &'static [&'static str]
    ensures { map (λ k. k.now) result.now
        ≡ codes "id" ∷ codes "kind" ∷ codes "control"
        ∷ map (λ k. k.name) (time_keys control ++ optional_keys control kind) }
{
    match (control, kind) {
        (Some(Control::Status), _) => &["id", "kind", "control"],
        (Some(Control::Direct), Some(SwitchKind::Disconnector | SwitchKind::Earthing)) => {
            &["id", "kind", "control", "travel_ms", "remote"]
        }
        (Some(Control::Direct), Some(SwitchKind::Breaker) | None) => &[
            "id",
            "kind",
            "control",
            "travel_ms",
            "remote",
            "synchrocheck",
        ],
        (_, Some(SwitchKind::Disconnector | SwitchKind::Earthing)) => &[
            "id",
            "kind",
            "control",
            "sbo_timeout_ms",
            "travel_ms",
            "remote",
        ],
        (_, Some(SwitchKind::Breaker) | None) => &[
            "id",
            "kind",
            "control",
            "sbo_timeout_ms",
            "travel_ms",
            "remote",
            "synchrocheck",
        ],
    }
}

// Reads the time that a selection lasts and the time that the switch may travel, in milliseconds.
fn read_both_times(table: &Table) -> Result<(u32, u32), BayFault>
    ensures { let t = table_view table.now in
        result ≡ unless_refused
        (first_fault (map (key_refusal t) (sbo_timeout_key ∷ travel_key ∷ [])))
        (number_in t (codes "sbo_timeout_ms"), number_in t (codes "travel_ms")) }
{
    let sbo_timeout_ms = read_u32(table, "sbo_timeout_ms", 1, 600_000)?;
    let travel_ms = read_u32(table, "travel_ms", 1, 600_000)?;
    Ok((sbo_timeout_ms, travel_ms))
}

// Reads the time that a selection lasts and the time that the switch may travel, in milliseconds; 0
// if the kind of control excludes the key.
fn read_times(table: &Table, control: Control) -> Result<(u32, u32), BayFault>
    requires known { has_unknown (map (λ k. k.name) (switch_keys (table_view table.now)))
        (table_view table.now) ≡ false }
    requires readable { control_of (table_view table.now) ≡ Some control }
    ensures { let t = table_view table.now in
        result ≡ unless_refused (first_fault (map (key_refusal t) (time_keys (Some control))))
        (number_in t (codes "sbo_timeout_ms"), number_in t (codes "travel_ms")) }
{
    match control {
        Control::Status => Ok((0, 0)),
        Control::Direct => {
            let travel_ms = read_u32(table, "travel_ms", 1, 600_000)?;
            Ok((0, travel_ms))
        }
        Control::Sbo => read_both_times(table),
        Control::SboEnhanced => read_both_times(table),
    }
}

// Reads whether a breaker refuses a synchrocheck: only the word `refuse` may be there.
fn read_synchrocheck(table: &Table) -> Result<bool, BayFault>
    ensures { let t = table_view table.now in
        result ≡ unless_refused (key_refusal t synchrocheck_key) (refuses_in t) }
{
    match find(table, "synchrocheck") {
        Some(value) => match value.as_str() {
            Some(word) => {
                if word == "refuse" {
                    Ok(true)
                } else {
                    Err(BayFault::BadValue)
                }
            }
            None => Err(BayFault::BadValue),
        },
        None => Ok(false),
    }
}

// Reads whether a switch of this kind refuses a synchrocheck; `false` if its kind excludes the key.
fn read_synchrocheck_of_kind(table: &Table, kind: SwitchKind) -> Result<bool, BayFault>
    requires known { has_unknown (map (λ k. k.name) (switch_keys (table_view table.now)))
        (table_view table.now) ≡ false }
    requires readable { kind_of (table_view table.now) ≡ Some kind }
    ensures { let t = table_view table.now in
        result ≡ unless_refused (first_fault (map (key_refusal t) (synchrocheck_keys (Some kind))))
        (refuses_in t) }
{
    match kind {
        SwitchKind::Breaker => read_synchrocheck(table),
        SwitchKind::Disconnector => Ok(false),
        SwitchKind::Earthing => Ok(false),
    }
}

// Reads the name of the input of a controlled switch's key, and whether it refuses a synchrocheck.
fn read_both_options(
    alloc: Global,
    table: &Table,
    kind: SwitchKind,
) -> Result<(Option<Text>, bool), BayFault>
    requires known { has_unknown (map (λ k. k.name) (switch_keys (table_view table.now)))
        (table_view table.now) ≡ false }
    requires readable { kind_of (table_view table.now) ≡ Some kind }
    ensures { let t = table_view table.now in
        ExactOr OutOfMemory (λ x. x) result
        (unless_refused
        (first_fault (map (key_refusal t) (remote_key ∷ synchrocheck_keys (Some kind))))
        (remote_in t, refuses_in t)) }
{
    let remote = read_optional_identifier(alloc, table, "remote", 16)?;
    let refuses_synchrocheck = read_synchrocheck_of_kind(table, kind)?;
    Ok((remote, refuses_synchrocheck))
}

// Reads the keys that a switch may leave out: the name of the input of its key, and whether it
// refuses a synchrocheck. A switch without control has neither.
fn read_options(
    alloc: Global,
    table: &Table,
    control: Control,
    kind: SwitchKind,
) -> Result<(Option<Text>, bool), BayFault>
    requires known { has_unknown (map (λ k. k.name) (switch_keys (table_view table.now)))
        (table_view table.now) ≡ false }
    requires control { control_of (table_view table.now) ≡ Some control }
    requires kind { kind_of (table_view table.now) ≡ Some kind }
    ensures { let t = table_view table.now in
        ExactOr OutOfMemory (λ x. x) result
        (unless_refused
        (first_fault (map (key_refusal t) (optional_keys (Some control) (Some kind))))
        (remote_in t, refuses_in t)) }
{
    match control {
        Control::Status => Ok((None, false)),
        Control::Direct => read_both_options(alloc, table, kind),
        Control::Sbo => read_both_options(alloc, table, kind),
        Control::SboEnhanced => read_both_options(alloc, table, kind),
    }
}

// Reads the switch in a table.
fn read_switch(alloc: Global, table: &Table) -> Result<Switch, BayFault>
    ensures { let t = table_view table.now in
        ExactOr OutOfMemory (λ x. x) result
        (unless_refused (entry_refusal (switch_keys t) t) (switch_in t)) }
{
    check_keys(
        table,
        switch_key_names(readable_control(table), readable_kind(table)),
    )?;
    let id = read_identifier(alloc, table, "id", 16)?;
    let kind = read_kind(table)?;
    let control = read_control(table)?;
    let (sbo_timeout_ms, travel_ms) = read_times(table, control)?;
    let (remote, refuses_synchrocheck) = read_options(alloc, table, control, kind)?;
    Ok(Switch {
        id,
        kind,
        control,
        sbo_timeout_ms,
        travel_ms,
        remote,
        refuses_synchrocheck,
    })
}

// Reads the switches in the tables of a list.
fn read_switches(alloc: Global, values: &[Value]) -> Result<Listing<Switch>, BayFault>
    ensures { let tables = tables_of (items_view values.now) in
        ExactOr OutOfMemory (λ x. x) result
        (unless_refused (first_fault (map (λ t. entry_refusal (switch_keys t) t) tables))
        (map switch_in tables)) }
{
    let mut switches = Vec::new(alloc);
    for i in 0..values.len() {
        if let Some(table) = values[i].as_table() {
            let switch = read_switch(alloc, table)?;
            switches.push(switch)?;
        }
    }
    Ok(Listing::new(switches))
}

// Reads the switches in a list, which must have 1 to 32 values, each a table.
fn read_switch_list(alloc: Global, values: &[Value]) -> Result<Listing<Switch>, BayFault>
    ensures { let items = items_view values.now in
        ExactOr OutOfMemory (λ x. x) result
        (unless_refused (items_refusal 1 32 switch_keys items) (map switch_in (tables_of items))) }
{
    check_list(values, 1, 32)?;
    read_switches(alloc, values)
}

/// Reads the section `switch`. `MissingKey` if the file has no such section, `BadValue` if it is
/// not a list; otherwise its first fault, or `OutOfMemory` if an allocation fails.
pub fn read_switch_section(alloc: Global, file: &Table) -> Result<Listing<Switch>, BayFault>
    ensures { let f = table_view file.now in
        ExactOr OutOfMemory (λ x. x) result
        (unless_refused (section_refusal f switch_section) (switches_in f)) }
{
    match find(file, "switch") {
        Some(value) => match value.as_array() {
            Some(values) => read_switch_list(alloc, values.as_slice()),
            None => Err(BayFault::BadValue),
        },
        None => Err(BayFault::MissingKey),
    }
}
