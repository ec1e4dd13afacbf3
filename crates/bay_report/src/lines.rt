// The lines that are printed for an event.
ghost use Rattle.std.specs.Prelude.{◌≡◌, ◌≤◌, ◌*◌, ◌∷◌, [], ◌++◌, codes, length, slice_get, IfSome};
ghost use Rattle.std.specs.Fmt.{decimal};
ghost use Rattle.hex.specs.Hex.{encode_lower};
ghost use Rattle.bay_device.specs.Device.{State};
ghost use Rattle.bay_device.specs.Steps.{quiet_answer, scan_answer};
ghost use Rattle.bay_io.specs.Sent.{Puts};
ghost use Rattle.bay_report.specs.Lines.{scan_text, ran_text, send_text, sends_text, ended_text, target_text, command_line, command_text, commands_text, why_text, closing_text, closed_text, refusal_line, accepted_text, step_text, unreadable_text};

use bay_base::switch::Operation;
use bay_device::device::Device;
use bay_device::event::{ScanResult, Sent, Step, Why};
use bay_device::fault::StepFault;
use bay_io::calls::Sink;
use bay_io::writer::WatchedWriter;
use bay_mms_services::answer::Command;

// The number of octets whose digits are written at a time.
const CHUNK: usize = 256;

// Writes a moment, in milliseconds since 1970; copies its digits, if they are given.
fn put_moment<W: Sink>(writer: &mut WatchedWriter<W>, moment: u64, digits: Option<&[u8]>)
    requires { IfSome digits (λ d. d.now ≡ decimal moment) }
    ensures { Puts W.contents W.does writer.old (decimal moment) writer.new }
{
    match digits {
        Some(digits) => writer.put(digits),
        None => writer.put_number(moment),
    }
}

// Writes the line of a scan; copies the digits of its moment, if they are given.
#[inline(always)]
fn put_scan<W: Sink>(
    writer: &mut WatchedWriter<W>,
    device: &Device,
    moment: u64,
    digits: Option<&[u8]>,
    steps: u32,
)
    requires { IfSome digits (λ d. d.now ≡ decimal moment) }
    ensures { Puts W.contents W.does writer.old (scan_text moment steps device.now) writer.new }
{
    put_moment(writer, moment, digits);
    writer.put(b" scan steps=");
    writer.put_number(u64::from(steps));
    writer.put(device.releases());
}

// Writes the line of a scan, if there was one.
fn put_ran<W: Sink>(writer: &mut WatchedWriter<W>, device: &Device, moment: u64, scan: Option<u32>)
    ensures { Puts W.contents W.does writer.old (ran_text moment scan device.now) writer.new }
{
    match scan {
        Some(steps) => put_scan(writer, device, moment, None, steps),
        None => {}
    }
}

/// Writes the line of an event that was refused at a moment (milliseconds since 1970), with the
/// number of the fault.
#[cold]
pub fn put_refusal<W: Sink>(writer: &mut WatchedWriter<W>, moment: u64, code: u8)
    ensures { Puts W.contents W.does writer.old (refusal_line moment code) writer.new }
{
    writer.put_number(moment);
    writer.put(b" refused ");
    writer.put_number(u64::from(code));
    writer.put(b"\n");
}

// Writes the digits of a chunk of octets, using `room` for them.
fn put_chunk<W: Sink>(writer: &mut WatchedWriter<W>, room: &mut [u8], chunk: &[u8])
    requires { 2 * length chunk.now ≤ length room.old }
    ensures { Puts W.contents W.does writer.old (encode_lower chunk.now) writer.new }
{
    let digits = &mut room[..2 * chunk.len()];
    let _ = hex::encode_to_slice(chunk, digits);
    writer.put(digits);
}

// Writes octets as hexadecimal digits.
fn put_digits<W: Sink>(writer: &mut WatchedWriter<W>, octets: &[u8])
    ensures { Puts W.contents W.does writer.old (encode_lower octets.now) writer.new }
{
    let mut room = [0u8; 2 * CHUNK];
    let mut rest = octets;
    while !rest.is_empty() {
        let (chunk, after) = rest.split_at(rest.len().min(CHUNK));
        put_chunk(writer, &mut room, chunk);
        rest = after;
    }
}

// Writes the line of sent octets.
#[cold]
fn put_send<W: Sink>(writer: &mut WatchedWriter<W>, moment: u64, sent: &Sent)
    ensures { Puts W.contents W.does writer.old (send_text moment sent.now) writer.new }
{
    writer.put_number(moment);
    writer.put(b" send ");
    writer.put_number(u64::from(sent.association));
    writer.put(b" ");
    put_digits(writer, sent.octets.as_slice());
    writer.put(b"\n");
}

// Writes a line for each message sent.
fn put_sends<W: Sink>(writer: &mut WatchedWriter<W>, moment: u64, sends: &[Sent])
    ensures { Puts W.contents W.does writer.old (sends_text moment sends.now) writer.new }
{
    for sent in sends {
        put_send(writer, moment, sent);
    }
}

// Writes the line of the report that an operation ended, if there is one.
fn put_ended<W: Sink>(writer: &mut WatchedWriter<W>, moment: u64, ended: &Option<Sent>)
    ensures { Puts W.contents W.does writer.old (ended_text moment ended.now) writer.new }
{
    match ended {
        Some(sent) => put_send(writer, moment, sent),
        None => {}
    }
}

/// Returns the end of a command's line.
pub fn command_end(operation: Operation) -> &'static [u8]
    ensures { result.now ≡ target_text operation }
{
    match operation {
        Operation::Open => b" off\n",
        Operation::Close => b" on\n",
    }
}

// Writes the line of a command to the switch with this id.
#[cold]
fn put_command_line<W: Sink>(
    writer: &mut WatchedWriter<W>,
    moment: u64,
    id: &str,
    operation: Operation,
)
    ensures { Puts W.contents W.does writer.old (command_line moment id.now operation) writer.new }
{
    writer.put_number(moment);
    writer.put(b" command ");
    writer.put(id.as_bytes());
    writer.put(command_end(operation));
}

// Writes the line of a command; nothing if the device has no such switch.
fn put_command<W: Sink>(
    writer: &mut WatchedWriter<W>,
    device: &Device,
    moment: u64,
    command: Command,
)
    ensures { Puts W.contents W.does writer.old (command_text moment device.now command)
        writer.new }
{
    match device.id(command.switch) {
        Some(id) => put_command_line(writer, moment, id, command.operation),
        None => {}
    }
}

/// Writes a line for each command at a moment (milliseconds since 1970).
pub fn put_commands<W: Sink>(
    writer: &mut WatchedWriter<W>,
    device: &Device,
    moment: u64,
    commands: &[Command],
)
    ensures { Puts W.contents W.does writer.old (commands_text moment device.now commands.now)
        writer.new }
{
    for command in commands {
        put_command(writer, device, moment, *command);
    }
}

// Writes why an association was closed, at the end of its line.
fn put_why<W: Sink>(writer: &mut WatchedWriter<W>, why: Why)
    ensures { Puts W.contents W.does writer.old (why_text why) writer.new }
{
    match why {
        Why::Ended => writer.put(b"0\n"),
        Why::Fault(code) => {
            writer.put_number(u64::from(code));
            writer.put(b"\n");
        }
        Why::Memory => writer.put(b"memory\n"),
    }
}

/// Writes the line of an association that was closed at a moment (milliseconds since 1970).
#[cold]
pub fn put_closing_line<W: Sink>(
    writer: &mut WatchedWriter<W>,
    moment: u64,
    association: u16,
    why: Why,
)
    ensures { Puts W.contents W.does writer.old (closing_text moment association why) writer.new }
{
    writer.put_number(moment);
    writer.put(b" closed ");
    writer.put_number(u64::from(association));
    writer.put(b" ");
    put_why(writer, why);
}

// Writes the line of the closed association, if one was closed.
fn put_closed<W: Sink>(writer: &mut WatchedWriter<W>, moment: u64, closed: Option<(u16, Why)>)
    ensures { Puts W.contents W.does writer.old (closed_text moment closed) writer.new }
{
    match closed {
        Some((association, why)) => put_closing_line(writer, moment, association, why),
        None => {}
    }
}

// Writes the lines of an accepted event.
fn put_accepted<W: Sink>(writer: &mut WatchedWriter<W>, device: &Device, moment: u64, step: &Step)
    ensures { Puts W.contents W.does writer.old (accepted_text moment step.now device.now)
        writer.new }
{
    put_ended(writer, moment, &step.ended);
    put_sends(writer, moment, step.sent.as_slice());
    put_commands(writer, device, moment, step.commands.as_slice());
    put_ran(writer, device, moment, step.scan);
    put_closed(writer, moment, step.closed);
}

/// Writes the lines of an event at a moment (milliseconds since 1970), given its answer and the
/// device after it.
pub fn put_step<W: Sink>(
    writer: &mut WatchedWriter<W>,
    device: &Device,
    moment: u64,
    answer: &Result<Step, StepFault>,
)
    ensures { Puts W.contents W.does writer.old (step_text moment answer.now device.now)
        writer.new }
{
    match answer {
        Err(fault) => put_refusal(writer, moment, fault.code()),
        Ok(step) => put_accepted(writer, device, moment, step),
    }
}

/// Writes the lines of a contact at a moment (milliseconds since 1970), given its answer.
pub fn put_contact<W: Sink>(
    writer: &mut WatchedWriter<W>,
    moment: u64,
    answer: &Result<Option<Sent>, StepFault>,
)
    ensures { (s : State) → Puts W.contents W.does writer.old
        (step_text moment (quiet_answer answer.now) s) writer.new }
{
    match answer {
        Err(fault) => put_refusal(writer, moment, fault.code()),
        Ok(ended) => put_ended(writer, moment, ended),
    }
}

/// Writes the lines of a scan at a moment (milliseconds since 1970), given its answer and the
/// device after it. Copies the digits of the moment, if they are given.
pub fn put_scanned<W: Sink>(
    writer: &mut WatchedWriter<W>,
    device: &Device,
    moment: u64,
    digits: Option<&[u8]>,
    answer: &Result<ScanResult, StepFault>,
)
    requires { IfSome digits (λ d. d.now ≡ decimal moment) }
    ensures { Puts W.contents W.does writer.old
        (step_text moment (scan_answer answer.now) device.now) writer.new }
{
    match answer {
        Err(fault) => put_refusal(writer, moment, fault.code()),
        Ok(scanned) => {
            put_ended(writer, moment, &scanned.ended);
            put_scan(writer, device, moment, digits, scanned.steps);
        }
    }
}

/// Writes the line of the fault 120, for a line of the trace that is not valid, with its number.
#[cold]
pub fn put_unreadable<W: Sink>(writer: &mut WatchedWriter<W>, number: usize)
    ensures { Puts W.contents W.does writer.old (unreadable_text number) writer.new }
{
    writer.put(b"fault 120 line ");
    writer.put_number(number as u64);
    writer.put(b"\n");
}
