// Applies an event of the process to a device's state: a position, an input, a measured value, a
// scan, and time.
ghost use Rattle.std.specs.Prelude.{◌≡◌, ◌<◌, List, Option, Some, None, length, map, slice_get};
ghost use Rattle.il_scan.specs.Scans.{AreHeld, Scans, inputs_in, outputs_of, read_only, type_of_point};
ghost use Rattle.bay_connection.specs.ConnectionStates.{ConnectionState};
ghost use Rattle.bay_nodes.specs.declared.switch.Switch.{Switch};
ghost use Rattle.bay_process.specs.Layout.{AreLeafTyped, AreMetersLeafTyped, layout_of, switches_of};
ghost use Rattle.bay_process.specs.Scans.{source_value};
ghost use Rattle.bay_process.specs.Sources.{type_of_source};
ghost use Rattle.bay_device.specs.Device.{device_at, device_after_contact, expiry_report, run_result_at, reached_report_at, after_scan, with_health, with_input};
ghost use Rattle.bay_device.specs.Device as spec;
ghost use Rattle.bay_device.specs.Meaning.{Halts};
ghost use Rattle.bay_device.specs.Outcomes.{event_outcome, without_owner};
ghost use Rattle.bay_device.specs.Outcomes as spec_outcomes;
ghost use Rattle.bay_device.specs.StateView.{state_view};
ghost use Rattle.bay_device.specs.Steps.{IsQuiet};
ghost use Rattle.bay_device.specs.declared.event.Event.TheVariants.{BadMeasure, Contact, Input, Measure};

use crate::event::Sent;
use crate::fault::StepFault;
use crate::process;
use crate::state::DeviceState;
use crate::termination::{forget, report_missed, report_reached};
use bay_base::position::Dbpos;
use bay_config::bay::{MeterField, Source};
use bay_mms_services::bay::ServedBay;
use bay_process::meter::BoundMeter;
use bay_process::scan::ReadPoints;
use bay_process::values::InputValues;
use il_scan::machine::Machine;
use il_scan::span::Span;

// Returns the first, or the later if there is no first.
fn or_else(first: Option<Sent>, later: Option<Sent>) -> Option<Sent>
    ensures { result ≡ spec_outcomes.or_else first later }
{
    match first {
        Some(sent) => Some(sent),
        None => later,
    }
}

// Runs the program once on the current positions, inputs and measured values; the machine's slots
// already have those outside the span `unread`. Returns the number of its steps.
fn run_program(
    machine: &mut Machine,
    unread: Span,
    bay: &ServedBay,
    inputs: &InputValues,
    meters: &[BoundMeter],
    reads: &[Source],
    now: u64,
) -> u32
    requires leaf_typed { AreLeafTyped (layout_of bay.now.tree) bay.now.switches }
    requires metered { AreMetersLeafTyped (layout_of bay.now.tree) meters.now }
    requires typed { map type_of_source reads.now
        ≡ map type_of_point (read_only machine.old.image.points) }
    requires held { AreHeld unread
        (map (source_value bay.now.tree bay.now.switches inputs.now meters.now) reads.now)
        (inputs_in machine.old.image.points machine.old.slots) }
    ensures scans { Scans machine.old
        (map (source_value bay.now.tree bay.now.switches inputs.now meters.now) reads.now) now
        machine.new result (outputs_of machine.new.image.points machine.new.slots) }
    ensures kept { inputs_in machine.new.image.points machine.new.slots
        ≡ map (source_value bay.now.tree bay.now.switches inputs.now meters.now) reads.now }
{
    let points = ReadPoints {
        tree: &bay.tree,
        switches: bay.switches.as_slice(),
        inputs,
        meters,
        reads,
    };
    machine.scan_changed(&points, unread, now)
}

impl DeviceState {
    /// Returns whether the last scan is fresh at a time: none of its inputs has changed since, and
    /// it is not too old.
    pub fn is_fresh(&self, now: u64) -> bool
        ensures { (connections : List (Option ConnectionState))
            → result ≡ spec.is_fresh now (state_view connections self.now) }
    {
        let is_recent = match self.last_scan {
            Some(scan) => now.saturating_sub(scan) <= u64::from(self.scan_max_age_ms),
            None => false,
        };
        is_recent && !self.is_stale
    }

    /// Ends what has expired at a time. Returns the report that an operate ended, if one expired.
    #[inline(always)]
    pub fn advance(&mut self, now: u64) -> Option<Sent>
        ensures sent { (connections : List (Option ConnectionState))
            → result ≡ expiry_report now (state_view connections self.old) }
        ensures after { (connections : List (Option ConnectionState))
            → state_view connections self.new ≡ device_at now (state_view connections self.old) }
        ensures meters { self.new.meters ≡ self.old.meters }
        ensures layout { layout_of self.new.bay.tree ≡ layout_of self.old.bay.tree }
    {
        let over = self.bay.controls.advance(&self.bay.control_table, now);
        self.moment = now;
        match over {
            Some(_) => report_missed(&mut self.pending),
            None => None,
        }
    }

    /// Writes whether the process is lost to the health of the device, in profile 2.
    pub fn report_health(&mut self, now: u64)
        ensures after { (connections : List (Option ConnectionState))
            → state_view connections self.new
            ≡ with_health now (state_view connections self.old) }
        ensures meters { self.new.meters ≡ self.old.meters }
    {
        let all = self.all_points();
        if let Some(model) = &self.model_rows {
            if process::health(&mut self.bay, model, now, self.is_lost) {
                self.unread = all;
            }
        }
    }

    /// Applies the reported position of the switch at an index. Returns the report that an operate
    /// ended, if the position ends one.
    #[inline(always)]
    pub fn apply_contact(&mut self, now: u64, switch: usize, position: Dbpos) -> Option<Sent>
        requires { switch < length self.old.bay.switches }
        ensures sent { (connections : List (Option ConnectionState))
            → result ≡ reached_report_at switch position (state_view connections self.old) }
        ensures after { (connections : List (Option ConnectionState)) (s : Switch)
            → slice_get (switches_of self.old.bay.switches) switch ≡ Some s
            → state_view connections self.new
            ≡ device_after_contact now switch s position (state_view connections self.old) }
    {
        let changed = process::contact(&mut self.bay, now, switch, position);
        self.unread = self.unread.with(self.spans.as_slice()[switch]);
        self.is_stale |= changed;
        self.is_lost = false;
        if self.bay.controls.contact(switch, position) {
            report_reached(&mut self.pending)
        } else {
            None
        }
    }

    /// Handles the reported position of the switch at an index. `NoSuchPoint` if there is none.
    pub fn contact(
        &mut self,
        now: u64,
        switch: usize,
        position: Dbpos,
    ) -> Result<Option<Sent>, StepFault>
        ensures { (connections : List (Option ConnectionState))
            → IsQuiet result (state_view connections self.new)
            (event_outcome None now (Contact switch position) (state_view connections self.old)) }
    {
        if switch >= self.bay.switches.as_slice().len() {
            return Err(StepFault::NoSuchPoint);
        }
        let over = self.advance(now);
        let report_reached = self.apply_contact(now, switch, position);
        self.report_health(now);
        Ok(or_else(over, report_reached))
    }

    // Applies the reported value of the input at an index: the process is not lost.
    fn apply_input(&mut self, now: u64, input: usize, value: bool)
        requires { input < length self.old.input_values }
        ensures after { (connections : List (Option ConnectionState))
            → state_view connections self.new
            ≡ with_input now input value (state_view connections self.old) }
    {
        self.unread = self.all_points();
        self.input_values.set(input, value);
        self.is_lost = false;
        if let Some(model) = &self.model_rows {
            process::input(&mut self.bay, model, now, input, value);
        }
    }

    /// Handles the reported value of the input at an index. `NoSuchPoint` if there is none.
    pub fn input(&mut self, now: u64, input: usize, value: bool) -> Result<Option<Sent>, StepFault>
        ensures { (connections : List (Option ConnectionState))
            → IsQuiet result (state_view connections self.new)
            (event_outcome None now (Input input value) (state_view connections self.old)) }
    {
        let before = match self.input_values.get(input) {
            Some(before) => before,
            None => return Err(StepFault::NoSuchPoint),
        };
        let over = self.advance(now);
        self.apply_input(now, input, value);
        self.is_stale |= value != before;
        self.report_health(now);
        Ok(over)
    }

    /// Handles the reported value of a field of the meter at an index. `NoSuchPoint` if there is
    /// none.
    pub fn measure(
        &mut self,
        now: u64,
        meter: usize,
        field: MeterField,
        value: i32,
    ) -> Result<Option<Sent>, StepFault>
        ensures { (connections : List (Option ConnectionState))
            → IsQuiet result (state_view connections self.new)
            (event_outcome None now (Measure meter field value) (state_view connections self.old)) }
    {
        let rows = match self.meters.as_slice().get(meter) {
            Some(bound) => bound.rows,
            None => return Err(StepFault::NoSuchPoint),
        };
        let over = self.advance(now);
        self.unread = self.all_points();
        let changed = process::measure(&mut self.bay, now, meter, rows, field, value);
        self.is_stale |= changed;
        self.is_lost = false;
        self.report_health(now);
        Ok(over)
    }

    /// Handles the report that a field of the meter at an index is invalid. `NoSuchPoint` if there
    /// is no such meter.
    pub fn bad_measure(
        &mut self,
        now: u64,
        meter: usize,
        field: MeterField,
    ) -> Result<Option<Sent>, StepFault>
        ensures { (connections : List (Option ConnectionState))
            → IsQuiet result (state_view connections self.new)
            (event_outcome None now (BadMeasure meter field) (state_view connections self.old)) }
    {
        if meter >= self.meters.as_slice().len() {
            return Err(StepFault::NoSuchPoint);
        }
        let over = self.advance(now);
        self.invalidate_field(now, meter, field);
        self.report_health(now);
        Ok(over)
    }

    /// Runs the program once on the current positions, inputs and measured values. Returns the
    /// number of its steps.
    #[inline(always)]
    pub fn scan(&mut self, now: u64) -> u32
        ensures after { (connections : List (Option ConnectionState))
            → state_view connections self.new ≡ after_scan now (state_view connections self.old) }
        ensures steps { (connections : List (Option ConnectionState))
            → result ≡ (run_result_at now (state_view connections self.old)).steps }
        ensures halts { (connections : List (Option ConnectionState))
            → Halts now (state_view connections self.old) result (state_view connections self.new) }
    {
        let steps = run_program(
            &mut self.machine,
            self.unread,
            &self.bay,
            &self.input_values,
            self.meters.as_slice(),
            self.reads.as_slice(),
            now,
        );
        process::write_scan(
            &mut self.bay,
            &mut self.releases,
            &self.machine.outputs(),
            now,
        );
        self.unread = Span {
            from: usize::MAX,
            to: 0,
        };
        self.last_scan = Some(now);
        self.is_stale = false;
        steps
    }

    /// Ends the selection of a closed association, and discards the pending reports to it.
    pub fn drop_owner(&mut self, association: u16)
        ensures { (connections : List (Option ConnectionState))
            → state_view connections self.new
            ≡ without_owner association (state_view connections self.old) }
    {
        self.bay.controls.drop_owner(association);
        forget(&mut self.pending, association);
    }
}
