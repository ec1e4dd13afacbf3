// What is known of switches and sources in a case of what the process reports.
ghost use Rattle.std.specs.Prelude.{◌≡◌};
ghost use Rattle.bay_diagram.specs.Reading as spec;

use crate::network::Device;
use bay_base::listing::Listing;
use bay_base::position::Dbpos;

/// The positions that a switch may have in a case.
#[derive(Clone, Copy)]
pub struct PositionSet {
    pub intermediate: bool,
    pub off: bool,
    pub on: bool,
    pub bad: bool,
}

/// The values that an input may have in a case: TRUE (`yes`), FALSE (`no`).
#[derive(Clone, Copy)]
pub struct InputSet {
    pub yes: bool,
    pub no: bool,
}

/// Which of what can be known in a case is taken.
#[derive(Clone, Copy)]
pub enum Bound {
    /// The worst: a hazard that any process of the case has is one.
    Worst,
    /// The best: only a hazard that each process of the case has is one.
    Best,
}

/// What is known in a case: the positions that each switch of the bay may have, and the values that
/// each input may have, by their indices. A switch or an input without a set may have any. A
/// process is a case in which each set has one element.
#[derive(Drop)]
pub struct Known {
    pub bound: Bound,
    pub positions: Listing<PositionSet>,
    pub inputs: Listing<InputSet>,
}

impl Known {
    // Returns whether a switch of the bay may have a position.
    fn allows_position(&self, switch: usize, position: Dbpos) -> bool
        ensures { result ≡ (spec.allowed_by self.now).position switch position }
    {
        match self.positions.as_slice().get(switch) {
            Some(set) => match position {
                Dbpos::Intermediate => set.intermediate,
                Dbpos::Off => set.off,
                Dbpos::On => set.on,
                Dbpos::Bad => set.bad,
            },
            None => true,
        }
    }

    // Returns whether an input may have a value.
    fn allows_input(&self, input: usize, value: bool) -> bool
        ensures { result ≡ (spec.allowed_by self.now).input input value }
    {
        match self.inputs.as_slice().get(input) {
            Some(set) => { if value { set.yes } else { set.no } }
            None => true,
        }
    }

    // Returns whether an input that may be missing may have a value; a missing one is FALSE.
    fn may_have_value(&self, input: Option<usize>, value: bool) -> bool
        ensures { result ≡ spec.may_have_value (spec.allowed_by self.now) input value }
    {
        match input {
            Some(index) => self.allows_input(index, value),
            None => !value,
        }
    }

    // Returns whether the switch may be known to be open.
    fn may_be_open(&self, device: Device) -> bool
        ensures { result ≡ spec.may_be_open (spec.allowed_by self.now) device }
    {
        match device {
            Device::Own { switch } => self.allows_position(switch, Dbpos::Off),
            Device::Other {
                closed_input,
                open_input,
            } => self.may_have_value(open_input, true) && self.may_have_value(closed_input, false),
        }
    }

    // Returns whether the switch may be known to be closed.
    fn may_be_closed(&self, device: Device) -> bool
        ensures { result ≡ spec.may_be_closed (spec.allowed_by self.now) device }
    {
        match device {
            Device::Own { switch } => self.allows_position(switch, Dbpos::On),
            Device::Other {
                closed_input,
                open_input,
            } => self.may_have_value(closed_input, true) && self.may_have_value(open_input, false),
        }
    }

    // Returns whether the switch may be known neither to be open nor to be closed.
    fn may_be_neither(&self, device: Device) -> bool
        ensures { result ≡ spec.may_be_neither (spec.allowed_by self.now) device }
    {
        match device {
            Device::Own { switch } => {
                self.allows_position(switch, Dbpos::Intermediate)
                    || self.allows_position(switch, Dbpos::Bad)
            }
            Device::Other {
                closed_input,
                open_input,
            } => {
                self.may_have_value(closed_input, true) && self.may_have_value(open_input, true)
                    || self.may_have_value(closed_input, false)
                        && self.may_have_value(open_input, false)
            }
        }
    }

    /// Returns whether the switch may be closed.
    pub fn may_conduct(&self, device: Device) -> bool
        ensures { result ≡ (spec.reading_in self.now).may_conduct device }
    {
        match self.bound {
            Bound::Worst => self.may_be_closed(device) || self.may_be_neither(device),
            Bound::Best => !self.may_be_open(device),
        }
    }

    /// Returns whether the switch is surely closed.
    pub fn is_closed(&self, device: Device) -> bool
        ensures { result ≡ (spec.reading_in self.now).conducts device }
    {
        match self.bound {
            Bound::Worst => !(self.may_be_open(device) || self.may_be_neither(device)),
            Bound::Best => self.may_be_closed(device),
        }
    }

    /// Returns whether the switch may be in no end position.
    pub fn may_move(&self, device: Device) -> bool
        ensures { result ≡ (spec.reading_in self.now).may_move device }
    {
        match self.bound {
            Bound::Worst => self.may_be_neither(device),
            Bound::Best => !(self.may_be_open(device) || self.may_be_closed(device)),
        }
    }

    /// Returns whether an input may be FALSE. An input that is missing is.
    pub fn may_be_false(&self, input: Option<usize>) -> bool
        ensures { result ≡ (spec.reading_in self.now).may_be_false input }
    {
        match self.bound {
            Bound::Worst => self.may_have_value(input, false),
            Bound::Best => !self.may_have_value(input, true),
        }
    }
}
