// Resolves the names of a line of the trace: its event becomes an event of a device, with indices
// and octets.
ghost use Rattle.std.specs.Prelude.{◌≡◌, length, unwrap_or};
ghost use Rattle.bay_device.specs.LookUps.{switch_index};
ghost use Rattle.bay_trace.specs.Resolving.{AreEventOctets, Decodes, without_address};
ghost use Rattle.bay_trace.specs.Resolving as spec;
ghost use Rattle.bay_trace.specs.TraceView.{named_view};

use crate::octets::LineOctets;
use crate::trace::NamedEvent;
use bay_device::device::Device;
use bay_device::event::Event;
use std::alloc::AllocError;

/// Decodes the octets of an event, if it has any, into the buffer. Fails only if the octets need
/// more room than the buffer has and the allocation fails.
pub fn decode_octets(octets: &mut LineOctets, event: &NamedEvent<'_>) -> Result<(), AllocError>
    ensures { Decodes (named_view event.now) octets.old octets.new result }
{
    match event {
        NamedEvent::Recv { digits, .. } => octets.read(*digits),
        _ => Ok(()),
    }
}

/// Returns the index of the switch with this id in the device. For an unknown id, returns the
/// number of switches, which is no index of any.
pub fn resolve_switch(device: &Device, id: &str) -> usize
    ensures { result
        ≡ unwrap_or (switch_index device.now id.now) (length device.now.switches) }
{
    device.switch(id).unwrap_or(device.switch_count())
}

/// Resolves the names of an event to their indices in the device. An unknown name becomes an index
/// that no switch, input or meter has.
pub fn resolve_event<'a>(device: &Device, octets: &'a [u8], event: NamedEvent<'_>) -> Event<'a>
    requires { AreEventOctets (named_view event) octets.now }
    ensures { without_address result ≡ spec.resolved_event device.now (named_view event.entry) }
{
    match event {
        NamedEvent::Open { association } => Event::Open { association },
        NamedEvent::Recv { association, .. } => Event::Recv {
            association,
            octets,
        },
        NamedEvent::Close { association } => Event::Close { association },
        NamedEvent::Contact { id, position } => Event::Contact {
            switch: resolve_switch(device, id),
            position,
        },
        NamedEvent::Input { name, value } => Event::Input {
            input: device.input(name).unwrap_or(device.input_count()),
            value,
        },
        NamedEvent::Measure { id, field, value } => Event::Measure {
            meter: device.meter(id).unwrap_or(device.meter_count()),
            field,
            value,
        },
        NamedEvent::BadMeasure { id, field } => Event::BadMeasure {
            meter: device.meter(id).unwrap_or(device.meter_count()),
            field,
        },
        NamedEvent::Lost => Event::Lost,
        NamedEvent::Scan => Event::Scan,
    }
}
