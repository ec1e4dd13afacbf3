// The checks of a section that is a list of tables.
ghost use Rattle.std.specs.Prelude.{◌≡◌, is_some};
ghost use Rattle.std.specs.List.{list_all};
ghost use Rattle.toml.specs.Data.{as_table};
ghost use Rattle.toml.specs.View.{view, items_view};
ghost use Rattle.bay_base.specs.Exact.{unless_refused};
ghost use Rattle.bay_config.specs.Key.{first_fault};
ghost use Rattle.bay_config.specs.Section.{list_checks};

use crate::fault::BayFault;
use toml::Value;

// Returns whether each value is a table.
fn are_tables(values: &[Value]) -> bool
    ensures { result ≡ list_all (λ v. is_some (as_table (view v))) values.now }
{
    values.iter().all(|value| value.is_table())
}

/// Checks a list: `MissingKey` if it has fewer than `least` values, then `BadValue` if a value is
/// not a table, then `TooMany` if it has more than `most` values.
pub fn check_list(values: &[Value], least: usize, most: usize) -> Result<(), BayFault>
    ensures { result ≡ unless_refused (first_fault (list_checks least most (items_view values.now)))
        tt }
{
    if values.len() < least {
        return Err(BayFault::MissingKey);
    }
    if !are_tables(values) {
        return Err(BayFault::BadValue);
    }
    if values.len() > most {
        return Err(BayFault::TooMany);
    }
    Ok(())
}
