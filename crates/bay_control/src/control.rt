// The settings of the switches' controls, from the bay file.
ghost use Rattle.std.specs.Prelude.{◌≡◌, ◌≤◌, ◌+◌, length, nat_le, position};
ghost use Rattle.bay_base.specs.Names.{same_name};
ghost use Rattle.bay_control.specs.Decisions.{controls_of, key_input};
ghost use Rattle.bay_control.specs.Decisions as spec_decisions;
ghost use Rattle.bay_control.specs.Requests.{control_of, no_control};
ghost use Rattle.bay_control.specs.Requests as spec;

use arrayvec::ArrayVec;
use bay_base::names::same_name;
use bay_base::switch::Control;
use bay_base::text::Text;
use bay_config::bay::{Bay, Switch};
use std::marker::Model;

/// The control of a switch, as the bay file defines it.
#[derive(Clone, Copy, Debug)]
pub struct SwitchControl {
    /// The control model (IEC 61850-7-3, ctlModel).
    pub model: Control,
    /// The time that a selection lasts, in milliseconds (IEC 61850-7-3, sboTimeout).
    pub sbo_timeout_ms: u32,
    /// The time that an execution lasts, in milliseconds.
    pub travel_ms: u32,
    /// The index of the input that is TRUE while the key of the switch is at remote; `None` if the
    /// switch has no key.
    pub key: Option<usize>,
    /// Whether an operate to close that requests a synchrocheck is refused.
    pub refuses_synchrocheck: bool,
}

impl SwitchControl {
    /// Returns whether a client must select the switch before it operates it, with normal or
    /// enhanced security.
    pub(crate) fn is_sbo(self) -> bool
        ensures { result ≡ spec.is_sbo self.model }
    {
        matches!(self.model, Control::Sbo | Control::SboEnhanced)
    }
}

impl Default for SwitchControl {
    ghost is_default = { λ c. c ≡ no_control };

    // Returns the control of a switch that has none.
    fn default() -> Self {
        SwitchControl {
            model: Control::Status,
            sbo_timeout_ms: 0,
            travel_ms: 0,
            key: None,
            refuses_synchrocheck: false,
        }
    }
}

// Returns the index of the input with a name; `None` if there is none.
fn find_input(inputs: &[Text], name: &str) -> Option<usize>
    ensures { result ≡ position (λ input. same_name input name.now) inputs.now }
{
    inputs
        .iter()
        .position(|input| same_name(input.as_str(), name))
}

// Returns the index of the input with a name; an index without an input if there is none.
fn input_at(inputs: &[Text], name: &str) -> usize
    ensures { result ≡ spec_decisions.input_at inputs.now name.now }
{
    match find_input(inputs, name) {
        Some(index) => index,
        None => inputs.len(),
    }
}

// Returns the index of the input of a switch's key; `None` if the switch has no key.
fn key_input(inputs: &[Text], switch: &Switch) -> Option<usize>
    ensures { result ≡ key_input inputs.now switch.now }
{
    match &switch.remote {
        Some(name) => Some(input_at(inputs, name.as_str())),
        None => None,
    }
}

/// The control of each switch, in the order of the bay file. It never changes.
#[derive(Drop)]
pub struct ControlTable {
    controls: ArrayVec<SwitchControl, 32>,
}

impl Model for ControlTable {
    ghost use Rattle.std.specs.Prelude.{List};
    ghost use Rattle.bay_control.specs.declared.control.SwitchControl.{SwitchControl};

    ghost Value = { List SwitchControl };

    ghost view = { λ t. t.controls.items };
}

impl ControlTable {
    /// Makes the table of a bay's switches, at most 32.
    pub fn new(bay: &Bay) -> Self
        requires { length bay.now.switches ≤ 32 }
        ensures { result ≡ controls_of bay.now.inputs bay.now.switches }
    {
        let mut controls = ArrayVec::new();
        for switch in bay.switches.as_slice() {
            controls.push(SwitchControl {
                model: switch.control,
                sbo_timeout_ms: switch.sbo_timeout_ms,
                travel_ms: switch.travel_ms,
                key: key_input(bay.inputs.as_slice(), switch),
                refuses_synchrocheck: switch.refuses_synchrocheck,
            });
        }
        ControlTable { controls }
    }

    /// Returns the control of a switch; if there is no such switch, one of status only.
    pub(crate) fn of(&self, switch: usize) -> SwitchControl
        ensures { result ≡ control_of self.now switch }
    {
        match self.controls.as_slice().get(switch) {
            Some(control) => *control,
            None => SwitchControl::default(),
        }
    }

    /// Returns the index of the input of a switch's key; `None` if the switch has no key.
    pub fn key(&self, switch: usize) -> Option<usize>
        ensures { result ≡ (control_of self.now switch).key }
    {
        self.of(switch).key
    }

    /// Returns whether the control of a switch has enhanced security: its client receives reports
    /// of refused requests and of the end of an operate.
    pub fn is_enhanced(&self, switch: usize) -> bool
        ensures { result ≡ spec.is_enhanced (control_of self.now switch).model }
    {
        matches!(self.of(switch).model, Control::SboEnhanced)
    }
}

/// Returns whether at least `span` milliseconds have passed since `since`.
pub(crate) fn has_passed(since: u64, span: u32, now: u64) -> bool
    ensures { result ≡ nat_le (since + span) now }
{
    since <= now && u64::from(span) <= now - since
}
