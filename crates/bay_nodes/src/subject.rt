// What a node is about: where the values of its rows come from, beside the nameplate.
ghost use Rattle.std.specs.Prelude.{◌≡◌};
ghost use Rattle.bay_nodes.specs.Subjects as spec;

use crate::meter::Meter;
use crate::nameplate::Nameplate;
use crate::switch::Switch;
use bay_base::switch::{Control, SwitchKind};

/// What a node, or a data object of a node, is about.
#[derive(Clone, Copy)]
pub enum Subject<'a> {
    Device,
    Switch(&'a Switch),
    Meter(&'a Meter),
    /// The name of an input.
    Input(&'a str),
}

/// Returns the description of a subject (IEC 61850-7-3, d): the id of a switch or a meter, the name
/// of an input, or the model of the device.
pub fn description<'a>(nameplate: &'a Nameplate, subject: Subject<'a>) -> &'a str
    ensures { result.now ≡ spec.description nameplate.now subject.entry }
{
    match subject {
        Subject::Device => nameplate.model.as_str(),
        Subject::Switch(switch) => switch.id.as_str(),
        Subject::Meter(meter) => meter.id.as_str(),
        Subject::Input(name) => name,
    }
}

/// Returns whether the subject is a switch with a key.
pub fn is_keyed(subject: Subject) -> bool
    ensures { result ≡ spec.is_keyed subject.entry }
{
    match subject {
        Subject::Switch(switch) => switch.remote.is_some(),
        Subject::Device | Subject::Meter(_) | Subject::Input(_) => false,
    }
}

/// Returns the type of a switch (IEC 61850-7-4, SwTyp); 0 for a breaker or another subject.
pub fn switch_type(subject: Subject) -> i8
    ensures { result ≡ spec.switch_type subject.entry }
{
    match subject {
        Subject::Switch(switch) => match switch.kind {
            SwitchKind::Breaker => 0,
            SwitchKind::Disconnector => 2,
            SwitchKind::Earthing => 3,
        },
        Subject::Device | Subject::Meter(_) | Subject::Input(_) => 0,
    }
}

/// Returns the control model of a switch (IEC 61850-7-3, ctlModel); 0 for another subject.
pub fn control_model(subject: Subject) -> i8
    ensures { result ≡ spec.control_model subject.entry }
{
    match subject {
        Subject::Switch(switch) => match switch.control {
            Control::Status => 0,
            Control::Direct => 1,
            Control::Sbo => 2,
            Control::SboEnhanced => 4,
        },
        Subject::Device | Subject::Meter(_) | Subject::Input(_) => 0,
    }
}

/// Returns how long a selection of a switch lasts, in milliseconds; 0 for another subject.
pub fn select_timeout(subject: Subject) -> u32
    ensures { result ≡ spec.select_timeout subject.entry }
{
    match subject {
        Subject::Switch(switch) => switch.sbo_timeout_ms,
        Subject::Device | Subject::Meter(_) | Subject::Input(_) => 0,
    }
}

/// Returns the power of ten by which the values of a meter are multiplied; 0 for another subject
/// and a meter without a scale.
pub fn multiplier(subject: Subject) -> i8
    ensures { result ≡ spec.multiplier subject.entry }
{
    match subject {
        Subject::Meter(meter) => meter.scale.unwrap_or(0),
        Subject::Device | Subject::Switch(_) | Subject::Input(_) => 0,
    }
}
