// Queues what a step of the device sends.
ghost use Rattle.std.specs.Prelude.{◌≡◌, ◌+◌, ◌≤◌, ◌<◌, length};
ghost use Rattle.bay_device.specs.Outcomes.{associations, outcome};
ghost use Rattle.bay_device.specs.Steps.{IsWithoutOctets};
ghost use Rattle.bay_server_turn.specs.Turns.{put_at, after_event, turn_state, with_commands};
ghost use Rattle.bay_server_turn.specs.Turns as spec;

use crate::server::Server;
use crate::turn_builder::TurnBuilder;
use bay_device::event::{Event, Sent, association_slot};
use bay_mms_services::answer::Command;

// Appends a reply to the queue of an association as a whole, or notes that it did not fit.
fn put_whole(server: &mut Server, notes: &mut TurnBuilder, slot: usize, octets: &[u8])
    requires { slot < associations }
    ensures after { turn_state server.new notes.new
        ≡ spec.put_whole slot octets.now (turn_state server.old notes.old) }
    ensures commands { notes.new.commands ≡ notes.old.commands }
{
    if !server.put(slot, octets) {
        notes.mark_full(slot);
    }
}

/// Queues what is sent to an association, if its queue accepts replies.
pub fn put_sent(server: &mut Server, notes: &mut TurnBuilder, sent: &Sent)
    ensures after { turn_state server.new notes.new
        ≡ spec.put_sent sent.now (turn_state server.old notes.old) }
    ensures commands { notes.new.commands ≡ notes.old.commands }
{
    let Some(slot) = association_slot(sent.association) else {
        return;
    };
    if notes
        .association_state(slot)
        .accepts_replies(server.is_open(slot))
    {
        put_whole(server, notes, slot, sent.octets.as_slice());
    }
}

/// Queues everything that is sent, in order.
pub fn put_all(server: &mut Server, notes: &mut TurnBuilder, sends: &[Sent])
    ensures after { turn_state server.new notes.new
        ≡ spec.put_all sends.now (turn_state server.old notes.old) }
    ensures commands { notes.new.commands ≡ notes.old.commands }
{
    for sent in sends {
        put_sent(server, notes, sent);
    }
}

/// Queues the report that an operation ended, if there is one.
pub fn put_ended(server: &mut Server, notes: &mut TurnBuilder, ended: &Option<Sent>)
    ensures after { turn_state server.new notes.new
        ≡ spec.put_ended ended.now (turn_state server.old notes.old) }
    ensures commands { notes.new.commands ≡ notes.old.commands }
{
    if let Some(sent) = ended {
        put_sent(server, notes, sent);
    }
}

/// Applies an event that sends nothing but the report that an operation ended, and queues this
/// report.
pub fn step_without_replies(
    server: &mut Server,
    notes: &mut TurnBuilder,
    now: u64,
    event: Event<'_>,
)
    requires { IsWithoutOctets event }
    ensures after { turn_state server.new notes.new
        ≡ after_event now event.entry (turn_state server.old notes.old) }
    ensures commands { notes.new.commands ≡ notes.old.commands }
{
    if let Ok(step) = server.step(now, event, b"") {
        put_ended(server, notes, &step.ended);
    }
}

/// Reports the command of a step, which has at most one.
pub fn report_commands(server: &Server, notes: &mut TurnBuilder, commands: &[Command])
    requires single { length commands.now ≤ 1 }
    requires room { length notes.old.commands < associations }
    ensures after { turn_state server.now notes.new
        ≡ with_commands commands.now (turn_state server.now notes.old) }
    ensures grows { length notes.new.commands ≤ length notes.old.commands + 1 }
{
    if let Some(command) = commands.first() {
        notes.report_command(*command);
    }
}
