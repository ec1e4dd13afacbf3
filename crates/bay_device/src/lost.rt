// The loss of the process: all its values become invalid.
ghost use Rattle.std.specs.Prelude.{◌≡◌, ◌<◌, List, Option, length};
ghost use Rattle.bay_connection.specs.ConnectionStates.{ConnectionState};
ghost use Rattle.bay_process.specs.Layout.{meters_of, switches_of};
ghost use Rattle.bay_device.specs.Device.{device_at, device_after_bad_measure, expiry_report, device_after_loss, inputs_lost, measures_lost, meter_lost, positions_lost, with_health};
ghost use Rattle.bay_device.specs.StateView.{state_view};

use crate::event::Sent;
use crate::process;
use crate::state::DeviceState;
use bay_base::position::Dbpos;
use bay_config::bay::MeterField;

impl DeviceState {
    /// Handles the report that a field of the meter at an index is invalid.
    pub fn invalidate_field(&mut self, now: u64, meter: usize, field: MeterField)
        requires { meter < length self.old.meters }
        ensures after { (connections : List (Option ConnectionState))
            → state_view connections self.new
            ≡ device_after_bad_measure now meter field (state_view connections self.old) }
        ensures meters { self.new.meters ≡ self.old.meters }
    {
        let rows = self.meters.as_slice()[meter].rows;
        self.unread = self.all_points();
        let changed = process::doubt(&mut self.bay, now, meter, rows, field);
        self.is_stale |= changed;
        self.is_lost = false;
    }

    // Makes each field of the meter at an index invalid.
    fn lose_meter(&mut self, now: u64, meter: usize)
        requires { meter < length self.old.meters }
        ensures after { (connections : List (Option ConnectionState))
            → state_view connections self.new
            ≡ meter_lost now meter (state_view connections self.old) }
        ensures meters { self.new.meters ≡ self.old.meters }
    {
        self.invalidate_field(now, meter, MeterField::TotW);
        self.invalidate_field(now, meter, MeterField::TotVAr);
        self.invalidate_field(now, meter, MeterField::Hz);
        self.invalidate_field(now, meter, MeterField::PhaseA);
        self.invalidate_field(now, meter, MeterField::PhaseB);
        self.invalidate_field(now, meter, MeterField::PhaseC);
    }

    // Makes each field of each meter invalid.
    fn lose_meters(&mut self, now: u64)
        ensures { (connections : List (Option ConnectionState))
            → state_view connections self.new
            ≡ measures_lost now 0 (meters_of self.old.meters) (state_view connections self.old) }
    {
        for meter in 0..self.meters.as_slice().len() {
            self.lose_meter(now, meter);
        }
    }

    // Makes the position of each switch bad.
    fn lose_positions(&mut self, now: u64)
        ensures { (connections : List (Option ConnectionState))
            → state_view connections self.new
            ≡ positions_lost now 0 (switches_of self.old.bay.switches)
            (state_view connections self.old) }
    {
        for switch in 0..self.bay.switches.as_slice().len() {
            self.apply_contact(now, switch, Dbpos::Bad);
        }
    }

    // Makes each input FALSE.
    fn lose_inputs(&mut self, now: u64)
        ensures after { (connections : List (Option ConnectionState))
            → state_view connections self.new ≡ inputs_lost now (state_view connections self.old) }
        ensures meters { self.new.meters ≡ self.old.meters }
    {
        self.unread = self.all_points();
        self.is_stale |= self.input_values.first_true().is_some();
        self.input_values.clear();
        if let Some(model) = &self.model_rows {
            process::lose_inputs(&mut self.bay, model, now);
        }
    }

    /// Handles the loss of the process: makes each position bad, each input FALSE and each measured
    /// value invalid. Returns the report that an operate ended, if one expired.
    pub fn lose_process(&mut self, now: u64) -> Option<Sent>
        ensures sent { (connections : List (Option ConnectionState))
            → result ≡ expiry_report now (state_view connections self.old) }
        ensures after { (connections : List (Option ConnectionState))
            → state_view connections self.new
            ≡ with_health now (device_after_loss now
            (device_at now (state_view connections self.old))) }
    {
        let over = self.advance(now);
        self.lose_positions(now);
        self.lose_inputs(now);
        self.lose_meters(now);
        self.is_lost = true;
        self.report_health(now);
        over
    }
}
