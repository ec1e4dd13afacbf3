// Queries of a device's state.
ghost use Rattle.std.specs.Prelude.{◌≡◌, List, Option, slice_get, option_map};
ghost use Rattle.bay_connection.specs.ConnectionStates.{ConnectionState};
ghost use Rattle.bay_tree.specs.declared.leaf.Leaf.TheVariants as leaf;
ghost use Rattle.bay_process.specs.Layout.{switches_of};
ghost use Rattle.bay_device.specs.LookUps.{switch_index, enabled_of, position_of};
ghost use Rattle.bay_device.specs.LookUps as spec;
ghost use Rattle.bay_device.specs.StateView.{state_view};

use crate::state::DeviceState;
use bay_base::position::Dbpos;
use bay_process::rows::position_at;

impl DeviceState {
    /// Returns the index of the input with this name, ignoring the case of its letters; `None` if
    /// there is none.
    pub fn input_index(&self, name: &str) -> Option<usize>
        ensures { (connections : List (Option ConnectionState))
            → result ≡ spec.input_index (state_view connections self.now) name.now }
    {
        self.tables.inputs.index_of(self.inputs.as_slice(), name)
    }

    /// Returns the index of the meter with this id, ignoring the case of its letters; `None` if
    /// there is none.
    pub fn meter_index(&self, id: &str) -> Option<usize>
        ensures { (connections : List (Option ConnectionState))
            → result ≡ spec.meter_index (state_view connections self.now) id.now }
    {
        self.tables.meters.index_of(self.meters.as_slice(), id)
    }

    /// Returns the index of the switch with this id, ignoring the case of its letters; `None` if
    /// there is none.
    pub fn switch(&self, id: &str) -> Option<usize>
        ensures { (connections : List (Option ConnectionState))
            → result ≡ switch_index (state_view connections self.now) id.now }
    {
        self.tables
            .switches
            .index_of(self.bay.switches.as_slice(), id)
    }

    /// Returns the id of the switch at an index, as the bay file spells it; `None` if there is no
    /// such switch.
    pub fn id(&self, switch: usize) -> Option<&str>
        ensures { option_map (λ id. id.now) result
            ≡ option_map (λ s. s.id) (slice_get (switches_of self.now.bay.switches) switch) }
    {
        let bound = self.bay.switches.as_slice().get(switch)?;
        Some(bound.switch.id.as_str())
    }

    /// Returns whether the switch at an index may be opened, and whether it may be closed; `None`
    /// if there is no such switch.
    pub fn ena(&self, switch: usize) -> Option<(bool, bool)>
        ensures { (connections : List (Option ConnectionState))
            → result ≡ enabled_of (state_view connections self.now) switch }
    {
        if switch >= self.bay.switches.as_slice().len() {
            return None;
        }
        let enabled = self.releases.get(switch);
        Some((enabled.may_open, enabled.may_close))
    }

    /// Returns the position of the switch at an index, as its control repeats it; `None` if there
    /// is no such switch.
    pub fn position(&self, switch: usize) -> Option<Dbpos>
        ensures { (connections : List (Option ConnectionState)) → option_map leaf.Dbpos result
            ≡ position_of (state_view connections self.now) switch }
    {
        let bound = self.bay.switches.as_slice().get(switch)?;
        Some(position_at(&self.bay.tree, bound.rows.control.value))
    }
}
