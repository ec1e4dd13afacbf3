// Closes associations at once.
ghost use Rattle.std.specs.Prelude.{◌≡◌, ◌+◌, ◌<◌};
ghost use Rattle.bay_server_turn.specs.Calls.{CountedCall, Closes, MakesCalls};
ghost use Rattle.bay_server_turn.specs.Turns.{after_closing_full, after_closing_some_full, calls_closing_full, calls_closing_some_full, turn_state};
ghost use Rattle.bay_server_turn.specs.Turns as spec;
ghost use Rattle.bay_device.specs.Outcomes.{associations};

use crate::link::Link;
use crate::sending::step_without_replies;
use crate::server::Server;
use crate::turn_builder::TurnBuilder;
use crate::turn_report::CloseReason;
use bay_device::event::{ASSOCIATIONS, Event};

/// Closes an association at once, for this reason: in the device and on the link. The rest of its
/// queue is lost.
pub fn close_at_once<L: Link>(
    server: &mut Server,
    notes: &mut TurnBuilder,
    link: &mut L,
    now: u64,
    slot: usize,
    closing: CloseReason,
)
    requires { slot < associations }
    ensures call { CountedCall L.does L.failures link.old (Closes (slot + 1)) link.new }
    ensures after { turn_state server.new notes.new
        ≡ spec.close_at_once now closing slot (turn_state server.old notes.old) }
    ensures commands { notes.new.commands ≡ notes.old.commands }
{
    let association = slot as u16 + 1;
    step_without_replies(server, notes, now, Event::Close { association });
    link.close(association);
    server.clear(slot);
    notes.mark_closed(slot, closing);
}

// Closes associations to which a reply did not fit, the lowest first, `count` at most. A closing
// can fill the queue of another association, so each call looks again.
fn close_some_overflowed<L: Link>(
    server: &mut Server,
    notes: &mut TurnBuilder,
    link: &mut L,
    now: u64,
    count: usize,
)
    ensures makes { MakesCalls (CountedCall L.does L.failures) link.old
        (calls_closing_some_full now count (turn_state server.old notes.old)) link.new }
    ensures after { turn_state server.new notes.new
        ≡ after_closing_some_full now count (turn_state server.old notes.old) }
    ensures commands { notes.new.commands ≡ notes.old.commands }
{
    if count == 0 {
        return;
    }
    if let Some(slot) = notes.first_full() {
        close_at_once(server, notes, link, now, slot, CloseReason::QueueFull);
        close_some_overflowed(server, notes, link, now, count - 1);
    }
}

/// Closes every association to which a reply did not fit, with the reason `QueueFull`.
pub fn close_overflowed<L: Link>(
    server: &mut Server,
    notes: &mut TurnBuilder,
    link: &mut L,
    now: u64,
)
    ensures makes { MakesCalls (CountedCall L.does L.failures) link.old
        (calls_closing_full now (turn_state server.old notes.old)) link.new }
    ensures after { turn_state server.new notes.new
        ≡ after_closing_full now (turn_state server.old notes.old) }
    ensures commands { notes.new.commands ≡ notes.old.commands }
{
    close_some_overflowed(server, notes, link, now, ASSOCIATIONS);
}
