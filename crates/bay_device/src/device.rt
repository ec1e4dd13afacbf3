// The device: one bay, stepped by events.
ghost use Rattle.std.specs.Prelude.{◌≡◌, ◌+◌, ◌<◌, ◌≤◌, ◌++◌, [], codes, None, Ok, Option, Some, All, ℕ, length, slice_get, option_map, position, replicate, IfOk, IfSome, IsSome, MatchResult, OnErr, is_err, is_none, is_some};
ghost use Rattle.bay_control.specs.Backing.{AreBacked};
ghost use Rattle.bay_mms_services.specs.ObservedEntries.{AreNamedAlike};
ghost use Rattle.bay_mms_services.specs.Bay.{Bay};
ghost use Rattle.bay_mms_services.specs.Released.{HaveTravelTime};
ghost use Rattle.bay_transport.specs.Feeding.{AcceptsOctets};
ghost use Rattle.il_check.specs.Program.{Checked};
ghost use Rattle.il_image.specs.Images.{image_octets};
ghost use Rattle.il_image.specs.declared.opcode.Version.TheVariants.{Two};
ghost use Rattle.bay_load.specs.Report.{IsReport};
ghost use Rattle.bay_device.specs.Commands.{CommandsReleased, IsSingle};
ghost use Rattle.bay_device.specs.Device as spec_device;
ghost use Rattle.bay_device.specs.Device.{bay_of};
ghost use Rattle.bay_device.specs.Entries.{IsIdle, LeadsByChoice};
ghost use Rattle.bay_device.specs.Fresh.{FreshAt};
ghost use Rattle.bay_device.specs.Load.{device_of};
ghost use Rattle.bay_device.specs.LookUps.{switch_index, input_index, meter_index, enabled_of, operating_in, position_of, switches_text};
ghost use Rattle.bay_device.specs.Meaning.{HaltsAt, MeansAt, Runs, is_refused};
ghost use Rattle.bay_device.specs.Operates.{AllOperate, AreOperates};
ghost use Rattle.bay_device.specs.Outcomes.{associations, connection_at, event_outcome, outcome, recv_after, refusal_outcome, without_connection};
ghost use Rattle.bay_device.specs.Outcomes as spec;
ghost use Rattle.bay_device.specs.Remote.{RemoteAt};
ghost use Rattle.bay_device.specs.StateView.{state_view};
ghost use Rattle.bay_device.specs.Steps.{EachStep, IsOutcome, HandlesOctets, IsWithoutOctets, Receives, Steps, quiet_answer, scan_answer};
ghost use Rattle.bay_device.specs.ObservedRuns.{HaveAgreedSize, EntriesLead, observed_in_run};
ghost use Rattle.bay_tree.specs.declared.leaf.Leaf.TheVariants as leaf;
ghost use Rattle.bay_device.specs.declared.event.Event.{Event};
ghost use Rattle.bay_device.specs.declared.event.Event.TheVariants.{Open, Recv, Close, Contact, Input, Measure, BadMeasure, Lost, Scan};

use crate::connections::Connections;
use crate::event::{Event, LAST_MOMENT, ScanResult, Sent, Step, Why, association_slot, closed_by};
use crate::fault::StepFault;
use crate::initial::make_state;
use crate::message::EventEffects;
use crate::octets::handle_octets;
use crate::state::DeviceState;
use crate::termination::forget;
use bay_base::listing::Listing;
use bay_base::position::Dbpos;
use bay_config::bay::MeterField;
use bay_connection::connection::Connection;
use bay_load::loaded::Loaded;
use bay_load::report::{Report, report_of};
use bay_tree::tree::Tree;
use il_image::encode::encode;
use il_verify::verify::Verified;
use std::alloc::{AllocError, Global};
use std::marker::Model;

/// A device. Contracts see it as its state: the contents of the bay file, the rows of its tree, the
/// values of its inputs, the machine with its program, its controls, the times of the last event
/// and the last scan, and the states of its clients' connections. Its two parts are in boxes, so
/// that two calls drop a device.
#[derive(Drop)]
pub struct Device {
    alloc: Global,
    state: Box<DeviceState>,
    connections: Box<Connections>,
}

impl Model for Device {
    ghost use Rattle.bay_device.specs.Device.{State};
    ghost use Rattle.bay_device.specs.StateView.{state_view};
    ghost use Rattle.std.specs.Coded.{codes};

    ghost Value = { State };

    ghost coded = { Prim.hlevel codes };

    ghost view = { λ d. state_view d.connections.value d.state.value };
}

impl Device {
    /// Makes the device of what was loaded, before its first event: there is no selection, and no
    /// association is open. Fails only if an allocation fails.
    pub fn new(alloc: Global, loaded: Loaded) -> Result<Self, AllocError>
        ensures device { IfOk result (λ device. device ≡ device_of loaded) }
        ensures idle { IfOk result IsIdle }
    {
        let (bay, verified) = loaded.into_parts();
        let state = make_state(alloc, bay, verified)?;
        let connections = Box::new(alloc, Connections::new())?;
        Ok(Device {
            alloc,
            state,
            connections,
        })
    }

    /// Returns the number of instructions of the program, and the maximum stack depth and number of
    /// steps of a scan. Goes over the code once.
    pub fn report(&self) -> Report
        ensures { IsReport self.now.machine.image result }
    {
        report_of(self.state.machine.verified())
    }

    /// Returns the verified program, read-only.
    pub fn verified(&self) -> &Verified
        ensures { result.now ≡ self.now.machine.image }
    {
        self.state.machine.verified()
    }

    /// Returns the octets of the program's image, in version 2 of the format. Fails only if an
    /// allocation fails.
    pub fn image(&self) -> Result<Vec<u8>, AllocError>
        ensures { IfOk result (λ octets. octets.items ≡ image_octets Two self.now.machine.image) }
    {
        encode(self.alloc, self.state.machine.verified().image())
    }

    // Returns the answer to an event that sends nothing but the report that an operate ended.
    fn quiet(&self, ended: Option<Sent>) -> Step
        ensures { result ≡ spec.quiet_step ended }
    {
        Step {
            ended,
            sent: Listing::new(Vec::new(self.alloc)),
            commands: Listing::new(Vec::new(self.alloc)),
            decisions: Listing::new(Vec::new(self.alloc)),
            closed: None,
            scan: None,
        }
    }

    // Opens an association for a client that connects.
    fn open(&mut self, now: u64, association: u16) -> Result<Step, StepFault>
        ensures { IsOutcome (event_outcome None now (Open association) self.old) result self.new }
    {
        let slot = match association_slot(association) {
            Some(slot) => slot,
            None => return Err(StepFault::NoSuchAssociation),
        };
        if self.connections.is_open(slot) {
            return Err(StepFault::AlreadyOpen);
        }
        let ended = self.state.advance(now);
        let connection = Connection::new(self.alloc, association);
        self.connections.put(slot, Some(connection));
        Ok(self.quiet(ended))
    }

    // Closes an association, and ends its selection.
    fn drop_connection(&mut self, association: u16, slot: usize)
        requires { spec.slot_of association ≡ Some slot }
        ensures { self.new ≡ without_connection association self.old }
    {
        self.connections.put(slot, None);
        self.state.drop_owner(association);
    }

    // Closes the association of a client that has closed its connection.
    fn close(&mut self, now: u64, association: u16) -> Result<Step, StepFault>
        ensures { IsOutcome (event_outcome None now (Close association) self.old) result self.new }
    {
        let slot = match association_slot(association) {
            Some(slot) => slot,
            None => return Err(StepFault::NoSuchAssociation),
        };
        if !self.connections.is_open(slot) {
            return Err(StepFault::NoSuchAssociation);
        }
        let ended = self.state.advance(now);
        self.drop_connection(association, slot);
        Ok(self.quiet(ended))
    }

    // Puts the connection of an association back, or closes the association.
    fn finish(&mut self, association: u16, slot: usize, connection: Connection, why: Option<Why>)
        requires here { spec.slot_of association ≡ Some slot }
        requires going { why ≡ None → AcceptsOctets connection.state.stream.state }
        ensures { self.new ≡ recv_after association connection.state self.old why }
    {
        match why {
            None => self.connections.put(slot, Some(connection)),
            Some(_) => self.drop_connection(association, slot),
        }
    }

    // Handles the octets of an open association.
    fn receive_octets(
        &mut self,
        now: u64,
        association: u16,
        slot: usize,
        octets: &[u8],
        ended: Option<Sent>,
    ) -> Step
        requires here { spec.slot_of association ≡ Some slot }
        requires open { IsSome (connection_at (Some slot) self.old) }
        requires some { 0 < length octets.now }
        ensures { HandlesOctets now association octets.now ended self.old result self.new }
    {
        let mut connection = match self.connections.take(slot) {
            Some(connection) => connection,
            None => unreachable!(),
        };
        let mut effects = EventEffects::new(self.alloc);
        let why = handle_octets(
            self.alloc,
            now,
            association,
            &mut self.state,
            &mut connection,
            octets,
            &mut effects,
        )
        .err();
        self.finish(association, slot, connection, why);
        Step {
            ended,
            sent: Listing::new(effects.sent),
            commands: Listing::new(effects.commands),
            decisions: Listing::new(effects.decisions),
            closed: closed_by(association, why),
            scan: None,
        }
    }

    // Handles the octets of a client.
    fn recv(&mut self, now: u64, association: u16, octets: &[u8]) -> Result<Step, StepFault>
        ensures { Receives now association octets.now self.old result self.new }
    {
        let slot = match association_slot(association) {
            Some(slot) => slot,
            None => return Err(StepFault::NoSuchAssociation),
        };
        if !self.connections.is_open(slot) {
            return Err(StepFault::NoSuchAssociation);
        }
        let ended = self.state.advance(now);
        if octets.is_empty() {
            return Ok(self.quiet(ended));
        }
        Ok(self.receive_octets(now, association, slot, octets, ended))
    }

    // Handles the reported position of the switch at an index.
    fn contact_step(&mut self, now: u64, switch: usize, position: Dbpos) -> Result<Step, StepFault>
        ensures { IsOutcome (event_outcome None now (Contact switch position) self.old) result
            self.new }
    {
        let ended = self.state.contact(now, switch, position)?;
        Ok(self.quiet(ended))
    }

    // Handles the reported value of the input at an index.
    fn handle_input(&mut self, now: u64, input: usize, value: bool) -> Result<Step, StepFault>
        ensures { IsOutcome (event_outcome None now (Input input value) self.old) result self.new }
    {
        let ended = self.state.input(now, input, value)?;
        Ok(self.quiet(ended))
    }

    // Handles the reported value of a field of the meter at an index.
    fn measure(
        &mut self,
        now: u64,
        meter: usize,
        field: MeterField,
        value: i32,
    ) -> Result<Step, StepFault>
        ensures { IsOutcome (event_outcome None now (Measure meter field value) self.old) result
            self.new }
    {
        let ended = self.state.measure(now, meter, field, value)?;
        Ok(self.quiet(ended))
    }

    // Handles the report that a field of the meter at an index is invalid.
    fn bad_measure(&mut self, now: u64, meter: usize, field: MeterField) -> Result<Step, StepFault>
        ensures { IsOutcome (event_outcome None now (BadMeasure meter field) self.old) result
            self.new }
    {
        let ended = self.state.bad_measure(now, meter, field)?;
        Ok(self.quiet(ended))
    }

    // Handles the loss of the process.
    fn lose_process(&mut self, now: u64) -> Result<Step, StepFault>
        ensures { IsOutcome (event_outcome None now Lost self.old) result self.new }
    {
        let ended = self.state.lose_process(now);
        Ok(self.quiet(ended))
    }

    // Runs the program once.
    fn do_scan(&mut self, now: u64) -> ScanResult
        ensures gives { IsOutcome (event_outcome None now Scan self.old)
            (Ok (spec.scan_step result)) self.new }
        ensures halts { HaltsAt now Scan self.old (Ok (spec.scan_step result)) self.new }
    {
        let ended = self.state.advance(now);
        let steps = self.state.scan(now);
        ScanResult { ended, steps }
    }

    // Runs the program once, as a step.
    fn scan_step(&mut self, now: u64) -> Result<Step, StepFault>
        ensures gives { IsOutcome (event_outcome None now Scan self.old) result self.new }
        ensures halts { HaltsAt now Scan self.old result self.new }
    {
        let scanned = self.do_scan(now);
        Ok(Step {
            scan: Some(scanned.steps),
            ..self.quiet(scanned.ended)
        })
    }

    // States that there is a slot for each association's connection, and that the travel time of
    // each controlled switch is at least 1 ms. Has no effect; callers use its contract.
    fn is_sound(&self)
        ensures slots { length self.now.connections ≡ associations }
        ensures timed { HaveTravelTime self.now.controls.controls }
    {
        self.connections.are_eight();
    }

    // Refuses a time that is too large, or before that of the last event.
    fn admit(&self, now: u64) -> Result<(), StepFault>
        ensures outcome { (choice : Option ℕ) (event : Event) → MatchResult result
            (λ _. outcome choice now event self.now ≡ event_outcome choice now event self.now)
            (λ fault. outcome choice now event self.now ≡ refusal_outcome fault self.now) }
        ensures refused { is_err result ≡ is_refused now self.now }
    {
        if now > LAST_MOMENT {
            return Err(StepFault::MomentTooLarge);
        }
        if now < self.state.moment {
            return Err(StepFault::TimeWentBack);
        }
        Ok(())
    }

    // Handles one event at a time.
    fn do_event(&mut self, now: u64, event: Event<'_>) -> Result<Step, StepFault>
        ensures steps { Steps now event.entry self.old result self.new }
        ensures halts { HaltsAt now event.entry self.old result self.new }
    {
        self.admit(now)?;
        match event {
            Event::Open { association } => self.open(now, association),
            Event::Recv {
                association,
                octets,
            } => self.recv(now, association, octets),
            Event::Close { association } => self.close(now, association),
            Event::Contact { switch, position } => self.contact_step(now, switch, position),
            Event::Input { input, value } => self.handle_input(now, input, value),
            Event::Measure {
                meter,
                field,
                value,
            } => self.measure(now, meter, field, value),
            Event::BadMeasure { meter, field } => self.bad_measure(now, meter, field),
            Event::Lost => self.lose_process(now),
            Event::Scan => self.scan_step(now),
        }
    }

    /// Handles one event at a time in milliseconds since 1970. A refused event changes nothing. If
    /// an allocation fails, the device closes the association whose octets it was handling. Then
    /// the PDUs before the failure have had their effects, and the PDU in which it occurs has none.
    ///
    /// Returns the first of these faults that applies: the time is too large, 114; it is before
    /// that of the last event, 110; the number of the association is not 1 to 8, or the association
    /// is not open, 111; the association to open is already open, 112; there is no such switch,
    /// input or meter, 113.
    pub fn step(&mut self, now: u64, event: Event<'_>) -> Result<Step, StepFault>
        // The answer and the device after the event are its outcome, for some choice;
        ensures steps { Steps now event.entry self.old result self.new }
        // an event without octets leaves no choice, and does not allocate.
        ensures sure { IsWithoutOctets event.entry
            → IsOutcome (outcome None now event.entry self.old) result self.new }
        // When a command is issued, the interlocking releases it on a fresh scan, the process is
        // not lost and no switch is operating; a step with a command also sends something.
        ensures commanded { CommandsReleased now event.entry self.old result self.new }
        // The commands are the accepted operates among the entries that the octets of the event and
        // of its answer encode, in their order. Responses belong to requests by their order.
        ensures operates { (names : Bay) → AreNamedAlike names (bay_of self.old)
            → HaveAgreedSize self.old.connections
            → IfOk result (AreOperates now event.entry names self.old.connections) }
        // If there is a command, the events since load include a scan that is not too old, since
        // which the process has not changed, and after all of them the process is not lost.
        ensures fresh { FreshAt now event.entry self.old result self.new }
        // If its switch has a key, the last report of it since the process was last lost is remote.
        ensures remote { RemoteAt now event.entry self.old result self.new }
        // There is at most one command.
        ensures single { IsSingle result }
        // With such a choice, the entries of the event lead from the controls before it to those
        // after it.
        ensures leads { LeadsByChoice now event.entry self.old result self.new }
        // So do the entries that the octets of the event and of its answer encode.
        ensures tells { (names : Bay) → AreNamedAlike names (bay_of self.old)
            → HaveAgreedSize self.old.connections
            → EntriesLead names now event.entry self.old result self.new }
        // A scan halts without a trap, within the budget, in the number of steps of the answer;
        ensures halts { HaltsAt now event.entry self.old result self.new }
        // and a device that runs a text then has the values that the text means, and still runs it.
        ensures means { (c : Checked) → Runs c self.old
            → MeansAt c now event.entry self.old result self.new }
        ensures runs { (c : Checked) → Runs c self.old → Runs c self.new }
    {
        self.is_sound();
        self.do_event(now, event)
    }

    /// Handles the reported position of the switch at an index as `step` does. Returns the report
    /// that an operate ended, which is all that the step sends, or the fault of `step`.
    pub fn contact(
        &mut self,
        now: u64,
        switch: usize,
        position: Dbpos,
    ) -> Result<Option<Sent>, StepFault>
        ensures { IsOutcome (outcome None now (Contact switch position) self.old)
            (quiet_answer result) self.new }
    {
        self.admit(now)?;
        self.state.contact(now, switch, position)
    }

    /// Runs the program once, as `step` does. Returns the fault of `step` if the time is refused.
    pub fn scan(&mut self, now: u64) -> Result<ScanResult, StepFault>
        ensures { IsOutcome (outcome None now Scan self.old) (scan_answer result) self.new }
    {
        self.admit(now)?;
        Ok(self.do_scan(now))
    }

    /// Handles a list of events in order and returns their answers. Fails only if the allocation of
    /// the list of answers fails; then no event is handled.
    pub fn run(
        &mut self,
        events: &[(u64, Event<'_>)],
    ) -> Result<Vec<Result<Step, StepFault>>, AllocError>
        // The answers are those of steps, one event after the other, and each scan halts without a
        // trap, in the number of steps that its answer has, which is within the budget;
        ensures ok { IfOk result
            (λ answers. EachStep HaltsAt events.now self.old answers.items self.new) }
        ensures err { OnErr result (self.new ≡ self.old) }
        // when a command is issued, the interlocking releases it on a fresh scan, the process is
        // not lost and no switch is operating, and the step also sends something;
        ensures commanded { IfOk result
            (λ answers. EachStep CommandsReleased events.now self.old answers.items self.new) }
        // the events since load before it include a scan that is not too old, since which the
        // process has not changed, and after all of them the process is not lost;
        ensures fresh { IfOk result
            (λ answers. EachStep FreshAt events.now self.old answers.items self.new) }
        // if its switch has a key, the last report of it since the process was last lost is remote;
        ensures remote { IfOk result
            (λ answers. EachStep RemoteAt events.now self.old answers.items self.new) }
        // there is at most one command for each event;
        ensures single { IfOk result (λ answers. All IsSingle answers.items) }
        // and after each scan a device that runs a text has the values that the text means.
        ensures means { (c : Checked) → Runs c self.old → IfOk result
            (λ answers. EachStep (MeansAt c) events.now self.old answers.items self.new) }
        ensures runs { (c : Checked) → Runs c self.old → Runs c self.new }
        // From a state without a selection, as load returns it, each accepted operate of an SBO
        // switch among the entries that the octets of the events and of the answers encode is
        // backed by a select.
        ensures backed { self.old.controls.selection ≡ None → HaveAgreedSize self.old.connections
            → IfOk result (λ answers. AreBacked self.old.controls.controls
            (observed_in_run (bay_of self.old) self.old.connections events.now answers.items)) }
        // The commands are the accepted operates among these entries, in their order.
        ensures operates { HaveAgreedSize self.old.connections → IfOk result
            (λ answers. AllOperate (bay_of self.old) self.old.connections events.now
            answers.items) }
    {
        self.is_sound();
        let mut answers = Vec::with_capacity(self.alloc, events.len())?;
        for (now, event) in events {
            let answer = self.step(*now, *event);
            answers.push(answer).unwrap();
        }
        Ok(answers)
    }

    /// Returns the time of the last accepted event, in milliseconds since 1970; 0 before the first.
    pub fn moment(&self) -> u64
        ensures { result ≡ self.now.moment }
    {
        self.state.moment
    }

    /// Returns the name of the domain, as the bay file spells it.
    pub fn domain(&self) -> &str
        ensures { result.now ≡ self.now.domain }
    {
        self.state.bay.domain.as_str()
    }

    /// Returns the revision of the configuration, as the bay file spells it.
    pub fn revision(&self) -> &str
        ensures { result.now ≡ self.now.revision }
    {
        self.state.bay.revision.as_str()
    }

    /// Returns the index of the switch whose execution has expired by a time in ms; else `None`.
    pub fn expired_at(&self, now: u64) -> Option<usize>
        ensures { result ≡ spec_device.expired_at now self.now }
    {
        let mut controls = self.state.bay.controls.duplicate();
        controls.advance(&self.state.bay.control_table, now)
    }

    /// Returns the index of the switch that is operating; `None` if none is.
    pub fn operating(&self) -> Option<usize>
        ensures { result ≡ operating_in self.now }
    {
        match &self.state.bay.controls.execution {
            Some(execution) => Some(execution.switch),
            None => None,
        }
    }

    /// Returns whether the association with this number is open.
    pub fn is_open(&self, association: u16) -> bool
        ensures { result ≡ is_some (connection_at (spec.slot_of association) self.now) }
    {
        match association_slot(association) {
            Some(slot) => self.connections.is_open(slot),
            None => false,
        }
    }

    /// Returns the lowest number of an association that is not open; `None` if all eight are open.
    pub fn free_association(&self) -> Option<u16>
        ensures lowest { result
            ≡ option_map (λ slot. slot + 1) (position is_none self.now.connections) }
        ensures within { IfSome result (λ a. (0 < a) × (a ≤ associations)) }
    {
        let slot = self.connections.free_slot()?;
        Some(slot as u16 + 1)
    }

    /// Returns the number of switches in the bay.
    pub fn switch_count(&self) -> usize
        ensures { result ≡ length self.now.switches }
    {
        self.state.bay.switches.as_slice().len()
    }

    /// Returns the index of the switch with this id, ignoring case; `None` if there is none.
    pub fn switch(&self, id: &str) -> Option<usize>
        ensures { result ≡ switch_index self.now id.now }
    {
        self.state.switch(id)
    }

    /// Returns the number of inputs in the bay.
    pub fn input_count(&self) -> usize
        ensures { result ≡ length self.now.input_values }
    {
        self.state.input_values.count()
    }

    /// Returns the index of the input with this name, ignoring case; `None` if there is none.
    pub fn input(&self, name: &str) -> Option<usize>
        ensures { result ≡ input_index self.now name.now }
    {
        self.state.input_index(name)
    }

    /// Returns the number of meters in the bay.
    pub fn meter_count(&self) -> usize
        ensures { result ≡ length self.now.meters }
    {
        self.state.meters.as_slice().len()
    }

    /// Returns the index of the meter with this id, ignoring case; `None` if there is none.
    pub fn meter(&self, id: &str) -> Option<usize>
        ensures { result ≡ meter_index self.now id.now }
    {
        self.state.meter_index(id)
    }

    /// Returns the id of the switch at an index, as in the bay file; `None` if there is no switch.
    pub fn id(&self, switch: usize) -> Option<&str>
        ensures { option_map (λ id. id.now) result
            ≡ option_map (λ s. s.id) (slice_get self.now.switches switch) }
    {
        self.state.id(switch)
    }

    /// Returns whether the switch at an index may be opened, and whether it may be closed (IEC
    /// 61850-7-4, CILO); `None` if there is no such switch.
    pub fn ena(&self, switch: usize) -> Option<(bool, bool)>
        ensures { result ≡ enabled_of self.now switch }
    {
        self.state.ena(switch)
    }

    /// Returns the text of the interlocking values of all switches, in the order of the bay file:
    /// ` ID=xy` for each, where `x` is the digit of EnaOpn and `y` that of EnaCls, and a line end.
    pub fn releases(&self) -> &[u8]
        ensures { result.now ≡ switches_text self.now 0 self.now.switches ++ codes "\n" }
    {
        self.state.releases.text.as_slice()
    }

    /// Returns the position of the switch at an index, as its control repeats it (IEC 61850-7-4,
    /// CSWI); `None` if there is no such switch.
    pub fn position(&self, switch: usize) -> Option<Dbpos>
        ensures { option_map leaf.Dbpos result ≡ position_of self.now switch }
    {
        self.state.position(switch)
    }

    /// Returns the tree of the device's values, for reading.
    pub fn tree(&self) -> &Tree
        ensures { result.now ≡ self.now.rows }
    {
        &self.state.bay.tree
    }
}
