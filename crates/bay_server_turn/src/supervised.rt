// The lines of a supervised process.
ghost use Rattle.std.specs.Prelude.{◌≡◌};
ghost use Rattle.bay_server_turn.specs.Supervised.{timed_line_of};

use crate::process_input::{ProcessEvent, resolve_process_event};
use bay_base::decimal::read_decimal;
use bay_device::device::Device;
use bay_trace::trace::{TraceLine, read_trace_line};

/// A line of a supervised process, after its first line.
#[derive(Clone, Copy)]
pub struct TimedLine {
    /// When the event occurred, in milliseconds since 1970, as the process knows the server's time.
    pub moment: u64,
    /// The event; with none, the line only shows that the process is alive.
    pub event: Option<ProcessEvent>,
}

/// Reads a line of a supervised process, after its first, by the names of a device: a moment and `
/// alive`, or a line of a trace with a contact, an input or a measurement. An unknown name becomes
/// an index that no item of the device has. Returns `None` for any other line.
pub fn read_timed_line(device: &Device, line: &[u8]) -> Option<TimedLine>
    ensures { result ≡ timed_line_of device.now line.now }
{
    if let Some(digits) = line.strip_suffix(b" alive") {
        let moment = read_decimal(digits)?;
        return Some(TimedLine {
            moment,
            event: None,
        });
    }
    let Some(TraceLine::At { moment, event }) = read_trace_line(line) else {
        return None;
    };
    let event = resolve_process_event(device, event)?;
    Some(TimedLine {
        moment,
        event: Some(event),
    })
}
