// Accepts connections, and reads clients.
ghost use Rattle.std.specs.Prelude.{◌≡◌, ◌+◌, ◌<◌, ◌≤◌, length};
ghost use Rattle.bay_server_turn.specs.Calls.{CountedCall};
ghost use Rattle.bay_server_turn.specs.Served.{Performs, PerformsEach, Opens, HandlesOctets};
ghost use Rattle.bay_server_turn.specs.Turns.{read_calls, turn_state};
ghost use Rattle.bay_server_turn.specs.Turns as spec;
ghost use Rattle.bay_device.specs.Outcomes.{associations};

use crate::closing::{close_at_once, close_overflowed};
use crate::link::{Link, ReadResult};
use crate::sending::{put_all, put_ended, report_commands, step_without_replies};
use crate::server::Server;
use crate::turn_builder::TurnBuilder;
use crate::turn_report::CloseReason;
use bay_device::event::{Event, Why};
use std::net::SocketAddrV4;

// The maximum number of octets read from a client in a turn.
const PIECE: usize = 4096;

/// Accepts a waiting connection, if there is one and a number is free. Returns the association that
/// it opens, and the address of its client; `None` also if the call fails.
pub fn accept_one<L: Link>(
    server: &mut Server,
    notes: &mut TurnBuilder,
    link: &mut L,
    now: u64,
) -> Option<(u16, SocketAddrV4)>
    ensures opens { Opens (CountedCall L.does L.failures) now link.old link.new
        (turn_state server.old notes.old) (turn_state server.new notes.new) result }
    ensures commands { notes.new.commands ≡ notes.old.commands }
{
    let Some(slot) = server.lowest_free_association() else {
        return None;
    };
    let association = slot as u16 + 1;
    match link.accept(association) {
        Ok(Some(from)) => {
            step_without_replies(server, notes, now, Event::Open { association });
            close_overflowed(server, notes, link, now);
            Some((association, from))
        }
        Ok(None) => None,
        Err(_) => None,
    }
}

// Passes a client's octets to the device, queues what the device sends, and notes its commands, its
// decisions and whether it closed the association.
fn handle_octets(server: &mut Server, notes: &mut TurnBuilder, now: u64, slot: usize, octets: &[u8])
    requires slot { slot < associations }
    requires room { length notes.old.commands < associations }
    ensures takes { HandlesOctets now slot octets.now (turn_state server.old notes.old)
        (turn_state server.new notes.new) }
    ensures grows { length notes.new.commands ≤ length notes.old.commands + 1 }
{
    let association = slot as u16 + 1;
    let Ok(step) = server.step(
        now,
        Event::Recv {
            association,
            octets,
        },
        b"",
    ) else {
        return;
    };
    notes.start_closing_if_closed(slot, step.closed);
    put_ended(server, notes, &step.ended);
    put_all(server, notes, step.sent.as_slice());
    report_commands(server, notes, step.commands.as_slice());
    notes.report_decisions(slot, step.decisions);
}

// Reads a client once, if its association is open.
fn read_one<L: Link>(
    server: &mut Server,
    notes: &mut TurnBuilder,
    link: &mut L,
    now: u64,
    slot: usize,
)
    requires slot { slot < associations }
    requires room { length notes.old.commands < associations }
    ensures performs { Performs (CountedCall L.does L.failures) (spec.read_one now slot)
        (read_calls now slot)
        link.old link.new (turn_state server.old notes.old) (turn_state server.new notes.new) }
    ensures grows { length notes.new.commands ≤ length notes.old.commands + 1 }
{
    if !server.is_open(slot) {
        return;
    }
    let association = slot as u16 + 1;
    let mut room = [0; PIECE];
    match link.read(association, &mut room) {
        Ok(ReadResult::Bytes(count)) => {
            handle_octets(server, notes, now, slot, &room[..count]);
            close_overflowed(server, notes, link, now);
        }
        Ok(ReadResult::Nothing) => {}
        Ok(ReadResult::End) => {
            notes.start_closing(slot, Why::Ended);
            step_without_replies(server, notes, now, Event::Close { association });
            close_overflowed(server, notes, link, now);
        }
        Err(_) => {
            close_at_once(server, notes, link, now, slot, CloseReason::LinkFailed);
            close_overflowed(server, notes, link, now);
        }
    }
}

/// Reads the first `count` clients, in the order of their numbers.
pub fn read_clients<L: Link>(
    server: &mut Server,
    notes: &mut TurnBuilder,
    link: &mut L,
    now: u64,
    count: usize,
)
    requires count { count ≤ associations }
    requires room { length notes.old.commands ≤ 0 }
    ensures { PerformsEach (CountedCall L.does L.failures) (spec.read_one now) (read_calls now)
        link.old
        link.new count (turn_state server.old notes.old) (turn_state server.new notes.new) }
{
    for slot in 0..count {
        read_one(server, notes, link, now, slot);
    }
}
