// What a turn of the server reports.
ghost use Rattle.std.specs.Prelude.{◌≡◌};
ghost use Rattle.bay_server_turn.specs.Code.{code_of, words_of};

use crate::bounded_list::BoundedList;
use bay_base::listing::Listing;
use bay_connection::fault::fault_words;
use bay_device::event::ASSOCIATIONS;
use bay_mms_services::answer::{Command, ControlDecision};
use std::net::SocketAddrV4;

/// Why an association was closed.
#[derive(Clone, Copy, Debug, PartialEq, Eq)]
pub enum CloseReason {
    /// The client ended it or closed its connection.
    Ended,
    /// The device refused its octets with the fault of this number: 10 to 13 of the transport, 20
    /// to 25 of the association.
    Fault(u8),
    /// A reply did not fit into its queue.
    QueueFull,
    /// A read or a write of its connection failed.
    LinkFailed,
}

impl CloseReason {
    /// Returns the number of the reason: 0, that of the device's fault, 130 or 131.
    pub fn code(self) -> u8
        ensures { result ≡ code_of self }
    {
        match self {
            CloseReason::Ended => 0,
            CloseReason::Fault(code) => code,
            CloseReason::QueueFull => 130,
            CloseReason::LinkFailed => 131,
        }
    }

    /// Returns what the reason is, in words.
    pub fn words(self) -> &'static str
        ensures { result.now ≡ words_of self }
    {
        match self {
            CloseReason::Ended => "its client ended it",
            CloseReason::Fault(code) => fault_words(code),
            CloseReason::QueueFull => "a reply does not fit its queue",
            CloseReason::LinkFailed => "its connection failed, or it sent nothing for too long",
        }
    }
}

/// What a turn reports.
#[derive(Drop)]
pub struct Turn {
    /// The association that was opened, and the address of its client.
    pub opened: Option<(u16, SocketAddrV4)>,
    /// The switch whose execution expired: it had not reached its position in time.
    pub over: Option<usize>,
    /// The number of the fault with which the device refused the event of the process: 113, no such
    /// switch, input or meter.
    pub refused: Option<u8>,
    /// The commands to operate switches.
    pub commands: BoundedList<Command>,
    /// For each association, what was decided on the controls that its client requested; `None` if
    /// the device handled no octets of this client.
    pub decisions: [Option<Listing<ControlDecision>>; ASSOCIATIONS],
    /// The associations that were closed, each with the reason, in the order of closing.
    pub closed: BoundedList<(u16, CloseReason)>,
    /// The associations that the device closed because it was out of memory.
    pub memory: BoundedList<u16>,
}
