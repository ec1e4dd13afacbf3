// Serves the connection of the process after a turn.
ghost use Rattle.std.specs.Prelude.{◌≡◌};
ghost use Rattle.bay_server_turn.specs.Calls.{CountedCall};
ghost use Rattle.bay_process_port.specs.Polling.{Polls, ClosesDismissed, PerformsPart, accept_outcome, poll_outcome, first_part, exchange_part, after_greeting};
ghost use Rattle.bay_process_port.specs.Ports.{StaysBound, with_no_data};
ghost use Rattle.bay_process_port.specs.ProcessOutput.{reported_turn};

use crate::connection_event::{ConnectionEvent, DisconnectReason};
use crate::port::{PROCESS, Port, Presence};
use bay_device::device::Device;
use bay_server_turn::link::Link;
use bay_server_turn::turn_report::Turn;

// Serves a connected process: queues the turn's lines and the releases that have changed, writes
// what is waiting, and reads from the process. An error means that its connection must be closed.
fn exchange<L: Link>(
    port: &mut Port,
    link: &mut L,
    device: &Device,
    moment: u64,
    turn: &Turn,
) -> Result<(), DisconnectReason>
    ensures does { PerformsPart (CountedCall L.does L.failures)
        (exchange_part (reported_turn moment turn.now device.now) device.now)
        link.old link.new port.old port.new result }
    ensures bound { StaysBound port.old port.new }
{
    port.queue_report(device, moment, turn)?;
    port.offer(link)?;
    port.read(link)
}

// Starts the connection of a process that was accepted; closes it again if it has ended or failed.
fn start_connection<L: Link>(
    port: &mut Port,
    link: &mut L,
    device: &Device,
    moment: u64,
) -> Option<ConnectionEvent>
    ensures { Polls (CountedCall L.does L.failures)
        (λ script. after_greeting port.old (first_part moment device.now
        (script.heard, script.again) (with_no_data Presence.Present port.old)))
        link.old link.new port.new result }
{
    port.set_presence(Presence::Present);
    match port.begin(link, device, moment) {
        Ok(()) => Some(ConnectionEvent::Opened),
        Err(_) => {
            link.close(PROCESS);
            port.set_presence(Presence::Absent);
            None
        }
    }
}

// Accepts a waiting connection, if there is one.
fn accept<L: Link>(
    port: &mut Port,
    link: &mut L,
    device: &Device,
    moment: u64,
) -> Option<ConnectionEvent>
    ensures { Polls (CountedCall L.does L.failures)
        (λ script. accept_outcome moment device.now script.accepted (script.heard, script.again)
        port.old)
        link.old link.new port.new result }
{
    match link.accept(PROCESS) {
        Ok(Some(_)) => start_connection(port, link, device, moment),
        Ok(None) => None,
        Err(_) => None,
    }
}

// Closes the connection of a process that a turn has dismissed, and returns why.
fn close_dismissed<L: Link>(port: &mut Port, link: &mut L) -> Option<ConnectionEvent>
    ensures { ClosesDismissed (CountedCall L.does L.failures) port.old.presence link.old link.new
        port.old
        port.new result }
{
    match port.take_dismissal() {
        Some(why) => {
            link.close(PROCESS);
            Some(ConnectionEvent::Closed(why))
        }
        None => None,
    }
}

/// Serves the connection of the process after a turn at a moment (milliseconds since 1970), given
/// the device after the turn. Returns the event of the connection; `None` if there is none.
///
/// The connection of a process that the turn has dismissed is closed.
///
/// A waiting connection is accepted, greeted if it is supervised, and read; one that has gone
/// itself, and left no whole line, is closed again and not reported. A connected process is sent
/// the turn's refusal and commands, each line as it is printed, and the releases that have changed,
/// if the port sends releases. What is waiting is written once, and the process is read once if no
/// whole line is buffered. A supervised process is sent first that an operate has ended, and last
/// that the server lives, if the process reported that it lives. The connection is closed at its
/// end, for a full queue, and if a read or a write fails. After that, no process is accepted before
/// a turn has handled the loss of this one.
pub fn poll<L: Link>(
    port: &mut Port,
    link: &mut L,
    device: &Device,
    moment: u64,
    turn: &Turn,
) -> Option<ConnectionEvent>
    ensures { Polls (CountedCall L.does L.failures)
        (λ script. poll_outcome (reported_turn moment turn.now device.now) device.now script
        port.old)
        link.old link.new port.new result }
{
    match port.presence() {
        Presence::Absent => accept(port, link, device, moment),
        Presence::LossPending => None,
        Presence::Dismissed(_) => close_dismissed(port, link),
        Presence::Present => match exchange(port, link, device, moment, turn) {
            Ok(()) => None,
            Err(why) => {
                link.close(PROCESS);
                port.set_presence(Presence::LossPending);
                Some(ConnectionEvent::Closed(why))
            }
        },
    }
}
