// Offers the queues to the link.
ghost use Rattle.std.specs.Prelude.{◌≡◌, ◌+◌, ◌<◌, ◌≤◌, length};
ghost use Rattle.bay_server_turn.specs.Calls.{CountedCall};
ghost use Rattle.bay_server_turn.specs.Served.{Performs, PerformsEach, Offers};
ghost use Rattle.bay_server_turn.specs.Turns.{offer_calls, turn_state};
ghost use Rattle.bay_server_turn.specs.Turns as spec;
ghost use Rattle.bay_device.specs.Outcomes.{associations};

use crate::closing::{close_at_once, close_overflowed};
use crate::link::Link;
use crate::server::Server;
use crate::turn_builder::TurnBuilder;
use crate::turn_report::CloseReason;
use bay_device::event::ASSOCIATIONS;

// The result of an offer: how many octets the link took, and whether a write failed.
#[derive(Clone, Copy)]
struct OfferResult {
    done: usize,
    failed: bool,
}

// Offers octets to a client until none are left, a write takes none, or a write fails.
fn offer<L: Link>(octets: &[u8], link: &mut L, association: u16) -> OfferResult
    requires low { 0 < association }
    requires high { association ≤ associations }
    ensures within { result.done ≤ length octets.now }
    ensures offers { Offers (CountedCall L.does L.failures) link.old link.new association octets.now
        result.done result.failed }
{
    let mut done = 0;
    while done < octets.len() {
        match link.write(association, &octets[done..]) {
            Ok(0) => {
                return OfferResult {
                    done,
                    failed: false,
                };
            }
            Ok(count) => done += count,
            Err(_) => return OfferResult { done, failed: true },
        }
    }
    OfferResult {
        done,
        failed: false,
    }
}

// Offers the queue of an association, if it is open, or was closed and has not been offered since;
// then closes the connection of one that was closed.
fn offer_one<L: Link>(
    server: &mut Server,
    notes: &mut TurnBuilder,
    link: &mut L,
    now: u64,
    slot: usize,
)
    requires { slot < associations }
    ensures { Performs (CountedCall L.does L.failures) (spec.offer_one now slot)
        (offer_calls now slot)
        link.old link.new (turn_state server.old notes.old) (turn_state server.new notes.new) }
{
    let association = slot as u16 + 1;
    if notes.association_state(slot).is_draining() {
        offer(server.queue(slot), link, association);
        link.close(association);
        server.clear(slot);
        notes.finish_closing(slot);
        return;
    }
    if !server.is_open(slot) {
        return;
    }
    let offered = offer(server.queue(slot), link, association);
    if offered.failed {
        close_at_once(server, notes, link, now, slot, CloseReason::LinkFailed);
        close_overflowed(server, notes, link, now);
    } else {
        server.remove_first(slot, offered.done);
    }
}

/// Offers all queues, in the order of the associations' numbers.
pub fn offer_each<L: Link>(server: &mut Server, notes: &mut TurnBuilder, link: &mut L, now: u64)
    ensures { PerformsEach (CountedCall L.does L.failures) (spec.offer_one now) (offer_calls now)
        link.old
        link.new associations (turn_state server.old notes.old) (turn_state server.new notes.new) }
{
    for slot in 0..ASSOCIATIONS {
        offer_one(server, notes, link, now, slot);
    }
}
