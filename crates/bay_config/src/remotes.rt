// The inputs of the switches' keys.
ghost use Rattle.std.specs.Prelude.{◌≡◌};
ghost use Rattle.bay_base.specs.Exact.{unless_refused};
ghost use Rattle.bay_config.specs.Remote.{remotes_refusal};
ghost use Rattle.bay_config.specs.Remote as spec;

use crate::bay::Switch;
use crate::fault::BayFault;
use bay_base::names::same_name;
use bay_base::text::Text;

// Returns whether an input has this name.
fn has_input(inputs: &[Text], name: &str) -> bool
    ensures { result ≡ spec.has_input inputs.now name.now }
{
    inputs.iter().any(|input| same_name(input.as_str(), name))
}

// Returns whether the key of a switch is an input, if it has one.
fn is_input(inputs: &[Text], remote: &Option<Text>) -> bool
    ensures { result ≡ spec.is_input inputs.now remote.now }
{
    match remote {
        Some(name) => has_input(inputs, name.as_str()),
        None => true,
    }
}

// Returns whether the key of each switch is an input, if it has one.
fn are_inputs(inputs: &[Text], switches: &[Switch]) -> bool
    ensures { result ≡ spec.are_inputs inputs.now switches.now }
{
    switches
        .iter()
        .all(|switch| is_input(inputs, &switch.remote))
}

/// Checks the keys of the switches: `BadValue` if one of them is not an input.
pub fn check_remotes(inputs: &[Text], switches: &[Switch]) -> Result<(), BayFault>
    ensures { result ≡ unless_refused (remotes_refusal inputs.now switches.now) tt }
{
    if are_inputs(inputs, switches) {
        Ok(())
    } else {
        Err(BayFault::BadValue)
    }
}
