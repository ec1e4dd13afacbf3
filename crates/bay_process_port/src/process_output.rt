// Queues what a process receives after a turn.
ghost use Rattle.std.specs.Prelude.{◌≡◌, slice_get};
ghost use Rattle.bay_report.specs.Lines.{command_line, command_text, commands_text, refusal_line};
ghost use Rattle.bay_process_port.specs.ProcessOutput.{PutsWhole, alive_text, greeting_text, over_line, expiry_text, refusal_text, process_turn_text};
ghost use Rattle.bay_process_port.specs.ProcessOutput as spec;

use crate::supervision::SupervisedProcess;
use bay_base::switch::Operation;
use bay_device::device::Device;
use bay_lines::bounded_buffer::BoundedBuffer;
use bay_mms_services::answer::Command;
use bay_server_turn::turn_report::Turn;
use itoa::Buffer;

/// The maximum number of octets that are queued.
pub const QUEUE: usize = 65_536;

/// The octets still to be sent.
pub type ProcessQueue = BoundedBuffer<QUEUE>;

// Appends the line of a refusal with this number.
fn put_refusal_line(queue: &mut ProcessQueue, moment: u64, code: u8) -> bool
    ensures { PutsWhole queue.old (refusal_line moment code) queue.new result }
{
    let mut moments = Buffer::new();
    let mut codes = Buffer::new();
    queue.put_parts(&[
        moments.format(moment).as_bytes(),
        b" refused ",
        codes.format(code).as_bytes(),
        b"\n",
    ])
}

// Appends the line of a refusal, if there was one.
fn put_refusal(queue: &mut ProcessQueue, moment: u64, refused: Option<u8>) -> bool
    ensures { PutsWhole queue.old (refusal_text moment refused) queue.new result }
{
    match refused {
        Some(code) => put_refusal_line(queue, moment, code),
        None => queue.put_parts(&[]),
    }
}

// Appends the line of a command to the switch with this id.
fn put_command_line(queue: &mut ProcessQueue, moment: u64, id: &str, operation: Operation) -> bool
    ensures { PutsWhole queue.old (command_line moment id.now operation) queue.new result }
{
    let order: &[u8] = match operation {
        Operation::Open => b" off\n",
        Operation::Close => b" on\n",
    };
    let mut moments = Buffer::new();
    queue.put_parts(&[
        moments.format(moment).as_bytes(),
        b" command ",
        id.as_bytes(),
        order,
    ])
}

// Appends the line of a command.
fn put_command(queue: &mut ProcessQueue, device: &Device, moment: u64, command: Command) -> bool
    ensures { PutsWhole queue.old (command_text moment device.now command) queue.new result }
{
    match device.id(command.switch) {
        Some(id) => put_command_line(queue, moment, id, command.operation),
        None => queue.put_parts(&[]),
    }
}

// Appends the lines of all commands.
fn put_commands(
    queue: &mut ProcessQueue,
    device: &Device,
    moment: u64,
    commands: &[Command],
) -> bool
    ensures { PutsWhole queue.old (commands_text moment device.now commands.now) queue.new result }
{
    prove!(queue.as_slice().len() <= QUEUE);
    for command in commands {
        if !put_command(queue, device, moment, *command) {
            return false;
        }
    }
    true
}

/// Appends the refusal and the commands of a turn, given the device after it. Returns false if
/// there is not room for all of them.
pub fn put_turn_report(queue: &mut ProcessQueue, device: &Device, moment: u64, turn: &Turn) -> bool
    ensures { PutsWhole queue.old (process_turn_text moment turn.now device.now) queue.new result }
{
    if !put_refusal(queue, moment, turn.refused) {
        return false;
    }
    put_commands(queue, device, moment, turn.commands.as_slice())
}

// Appends that the operate of the switch with this id has expired.
fn put_expiry_line(queue: &mut ProcessQueue, moment: u64, id: &str) -> bool
    ensures { PutsWhole queue.old (over_line moment id.now) queue.new result }
{
    let mut moments = Buffer::new();
    queue.put_parts(&[
        moments.format(moment).as_bytes(),
        b" over ",
        id.as_bytes(),
        b"\n",
    ])
}

// Appends that the operate of the switch at an index has expired.
fn put_expiry_of(queue: &mut ProcessQueue, device: &Device, moment: u64, switch: usize) -> bool
    ensures { PutsWhole queue.old
        (spec.expiry_part moment (slice_get device.now.switches switch)) queue.new result }
{
    match device.id(switch) {
        Some(id) => put_expiry_line(queue, moment, id),
        None => queue.put_parts(&[]),
    }
}

/// Appends that the operate of a switch has expired, if one has. Returns false if there is not room
/// for the line.
pub fn put_expiry(
    queue: &mut ProcessQueue,
    device: &Device,
    moment: u64,
    over: Option<usize>,
) -> bool
    ensures { PutsWhole queue.old (expiry_text moment device.now over) queue.new result }
{
    match over {
        Some(switch) => put_expiry_of(queue, device, moment, switch),
        None => queue.put_parts(&[]),
    }
}

/// Appends that the server is alive, if `lives` is true. Returns false if there is not room for the
/// line.
pub fn put_alive(queue: &mut ProcessQueue, moment: u64, lives: bool) -> bool
    ensures { PutsWhole queue.old (alive_text moment lives) queue.new result }
{
    if !lives {
        return queue.put_parts(&[]);
    }
    let mut moments = Buffer::new();
    queue.put_parts(&[moments.format(moment).as_bytes(), b" alive\n"])
}

/// Appends the greeting of a process, if it is supervised. Returns false if there is not room for
/// it.
pub fn put_greeting(
    queue: &mut ProcessQueue,
    device: &Device,
    moment: u64,
    watch: &Option<SupervisedProcess>,
) -> bool
    ensures { PutsWhole queue.old (greeting_text moment device.now watch.now) queue.new result }
{
    let Some(watch) = watch else {
        return queue.put_parts(&[]);
    };
    let mut moments = Buffer::new();
    let mut limits = Buffer::new();
    queue.put_parts(&[
        moments.format(moment).as_bytes(),
        b" process ",
        limits.format(watch.limit_ms()).as_bytes(),
        b" ",
        device.domain().as_bytes(),
        b" ",
        device.revision().as_bytes(),
        b"\n",
    ])
}
