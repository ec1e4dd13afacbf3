// Events of the process, and the lines that spell them.
ghost use Rattle.std.specs.Prelude.{◌≡◌, ◌≤◌};
ghost use Rattle.bay_device.specs.Outcomes.{associations};
ghost use Rattle.bay_device.specs.Steps.{IsWithoutOctets};
ghost use Rattle.bay_server_turn.specs.Turns.{event_of, loss_event};
ghost use Rattle.bay_server_turn.specs.Served.{turn_input_of_line, report_of_event, event_in_line};
ghost use Rattle.bay_server_turn.specs.Served as spec;
ghost use Rattle.bay_trace.specs.TraceView.{named_view};

use crate::fault::ServeFault;
use bay_base::position::Dbpos;
use bay_config::bay::MeterField;
use bay_device::device::Device;
use bay_device::event::{ASSOCIATIONS, Event};
use bay_trace::trace::{NamedEvent, TraceLine, read_process_line, read_trace_line};

/// An event of the process. Switches, inputs and meters have indices from 0.
#[derive(Clone, Copy)]
pub enum ProcessEvent {
    /// The contacts of a switch report a position.
    Contact {
        switch: usize,
        position: Dbpos,
    },
    /// An input has a value.
    Input {
        input: usize,
        value: bool,
    },
    /// A field of a meter has a value, in whole units.
    Measure {
        meter: usize,
        field: MeterField,
        value: i32,
    },
    /// The value of a field of a meter is invalid.
    BadMeasure {
        meter: usize,
        field: MeterField,
    },
    /// The process is lost: nothing is known of it any longer.
    Lost,
}

/// The report of the process to a turn: whether the process is lost, which the turn handles before
/// it reads clients, and an event, if there is one; and whether the turn reads clients.
#[derive(Clone, Copy)]
pub struct ProcessReport {
    pub is_lost: bool,
    pub event: Option<ProcessEvent>,
    /// Whether the turn leaves what clients have sent for a later turn.
    pub skips_reads: bool,
}

/// The input of a turn, or why a line has none.
pub type TurnInput = Result<ProcessReport, ServeFault>;

impl ProcessReport {
    /// Creates a report of an event alone, or of nothing, to a turn that reads clients.
    pub fn of(event: Option<ProcessEvent>) -> Self
        ensures { result ≡ report_of_event event }
    {
        ProcessReport {
            is_lost: false,
            event,
            skips_reads: false,
        }
    }

    /// Returns how many associations the turn may read: all of them, or none.
    pub(crate) fn reading_count(self) -> usize
        ensures count { result ≡ spec.reading_count self }
        ensures within { result ≤ associations }
    {
        if self.skips_reads { 0 } else { ASSOCIATIONS }
    }

    /// Returns the event that the turn applies before it reads clients: the loss of the process, or
    /// `None`.
    pub(crate) fn loss_event(self) -> Option<ProcessEvent>
        ensures { result ≡ loss_event self }
    {
        if self.is_lost {
            Some(ProcessEvent::Lost)
        } else {
            None
        }
    }
}

impl ProcessEvent {
    /// Returns the event as an event of a device.
    pub(crate) fn event(self) -> Event<'static>
        ensures event { result ≡ event_of self }
        ensures quiet { IsWithoutOctets result }
    {
        match self {
            ProcessEvent::Contact { switch, position } => Event::Contact { switch, position },
            ProcessEvent::Input { input, value } => Event::Input { input, value },
            ProcessEvent::Measure {
                meter,
                field,
                value,
            } => Event::Measure {
                meter,
                field,
                value,
            },
            ProcessEvent::BadMeasure { meter, field } => Event::BadMeasure { meter, field },
            ProcessEvent::Lost => Event::Lost,
        }
    }
}

/// Resolves the names of an event of the process: a contact, an input or a measurement. An unknown
/// name becomes an index that no item of the device has. Returns `None` for any other event.
pub(crate) fn resolve_process_event(device: &Device, event: NamedEvent<'_>) -> Option<ProcessEvent>
    ensures { result ≡ spec.process_event device.now (named_view event.entry) }
{
    match event {
        NamedEvent::Contact { id, position } => Some(ProcessEvent::Contact {
            switch: device.switch(id).unwrap_or(device.switch_count()),
            position,
        }),
        NamedEvent::Input { name, value } => Some(ProcessEvent::Input {
            input: device.input(name).unwrap_or(device.input_count()),
            value,
        }),
        NamedEvent::Measure { id, field, value } => Some(ProcessEvent::Measure {
            meter: device.meter(id).unwrap_or(device.meter_count()),
            field,
            value,
        }),
        NamedEvent::BadMeasure { id, field } => Some(ProcessEvent::BadMeasure {
            meter: device.meter(id).unwrap_or(device.meter_count()),
            field,
        }),
        _ => None,
    }
}

/// Reads a line with a contact, an input or a measurement, by the names of a device. An unknown
/// name becomes an index that no item of the device has. Returns `None` if the line is not valid or
/// has another event.
pub fn read_process_event(device: &Device, line: &[u8]) -> Option<ProcessEvent>
    ensures { result ≡ event_in_line device.now line.now }
{
    resolve_process_event(device, read_process_line(line)?)
}

/// Reads the line of a turn: a contact, an input or a measurement, or the loss of the process.
/// Ignores its moment. Returns `BadLine` for any other line.
pub fn read_line(device: &Device, line: &[u8]) -> TurnInput
    ensures { result ≡ turn_input_of_line device.now line.now }
{
    if let Some(
        TraceLine::At {
            event: NamedEvent::Lost,
            ..
        },
    ) = read_trace_line(line)
    {
        return Ok(ProcessReport {
            is_lost: true,
            event: None,
            skips_reads: false,
        });
    }
    match read_process_event(device, line) {
        Some(event) => Ok(ProcessReport::of(Some(event))),
        None => Err(ServeFault::BadLine),
    }
}
