// The connections of the clients.
ghost use Rattle.std.specs.Prelude.{◌≡◌, ℕ, ◌<◌, ◌≤◌, length, IfOk};
ghost use Rattle.std.specs.Result.{result_ok};
ghost use Rattle.bay_server_turn.specs.Calls.{Call, Accepts, Reads, Writes, Closes, CountedCall, read_outcome_of, FitsIn};
ghost use Rattle.bay_device.specs.Outcomes.{associations};

use std::net::SocketAddrV4;
use thiserror::Error;

/// A failed call of a link.
#[derive(Clone, Copy, Debug, PartialEq, Eq, Error)]
#[error("the link failed")]
pub struct LinkFault;

/// The result of a read.
#[derive(Clone, Copy, Debug, PartialEq, Eq)]
pub enum ReadResult {
    /// The number of octets read, at least one.
    Bytes(usize),
    /// No octets have arrived yet.
    Nothing,
    /// The client sends no more octets.
    End,
}

/// The connections of up to eight clients, by the numbers of their associations, 1 to 8. No call
/// blocks.
///
/// Its meaning is `does old call new`: this call, with its result, may have led from the one state
/// of the link to the other. A link of which more is known can define its own relation. A link over
/// sockets, of which nothing is known, keeps the default, which any call meets.
pub trait Link {
    ghost does: { Self → Call → Self → Type 0 } = { λ _ _ _. Unit {0} };

    /// The number of failed calls, counted up to 18,446,744,073,709,551,615.
    ghost failures: { Self → ℕ };

    /// Accepts a waiting connection, if there is one, under this number. Returns the address of its
    /// client; `None` if no connection waits. An error counts as one failure.
    fn accept(&mut self, association: u16) -> Result<Option<SocketAddrV4>, LinkFault>
        requires low { 0 < association }
        requires high { association ≤ associations }
        ensures call { CountedCall does failures self.old (Accepts association (result_ok result))
            self.new };

    /// Reads octets from a client, at most as many as fit in `room`. An error counts as one
    /// failure.
    fn read(&mut self, association: u16, room: &mut [u8]) -> Result<ReadResult, LinkFault>
        requires low { 0 < association }
        requires high { association ≤ associations }
        ensures call { CountedCall does failures self.old
            (Reads association (length room.old) (read_outcome_of result room.new)) self.new }
        ensures within { FitsIn room.new result };

    /// Sends a prefix of the octets to a client and returns its length; 0 if none can be sent now.
    /// An error counts as one failure.
    fn write(&mut self, association: u16, octets: &[u8]) -> Result<usize, LinkFault>
        requires low { 0 < association }
        requires high { association ≤ associations }
        ensures call { CountedCall does failures self.old
            (Writes association octets.now (result_ok result)) self.new }
        ensures within { IfOk result (λ n. n ≤ length octets.now) };

    /// Closes the connection of a client.
    fn close(&mut self, association: u16)
        requires low { 0 < association }
        requires high { association ≤ associations }
        ensures { CountedCall does failures self.old (Closes association) self.new };
}
