// A link that records whether its calls left something to do at once.
ghost use Rattle.std.specs.Prelude.{◌≡◌};

use bay_server_turn::link::{Link, LinkFault, ReadResult};
use std::net::SocketAddrV4;

/// A link that records whether its calls may have left something that can be done without waiting:
/// a connection was accepted, a read filled its room, a client's end was read, a connection was
/// closed, or a read or a write failed. A read that did not fill its room has emptied the socket,
/// and a write was offered everything that is queued: after them there is something to do only once
/// a socket is ready. The same holds after a connection could not be accepted, for example for lack
/// of descriptors.
#[derive(Drop)]
pub struct BusyLink<L> {
    link: L,
    is_busy: bool,
}

impl<L> BusyLink<L> {
    /// Creates a link that has not been called yet.
    pub fn new(link: L) -> Self
        ensures { result.link ≡ link }
    {
        BusyLink {
            link,
            is_busy: false,
        }
    }

    /// Returns whether anything was left to do since the last call of this function.
    pub fn was_busy(&mut self) -> bool
        ensures { self.new.link ≡ self.old.link }
    {
        let was_busy = self.is_busy;
        self.is_busy = false;
        was_busy
    }
}

impl<L: Link> Link for BusyLink<L> {
    ghost does = { λ old call new. L.does old.link call new.link };

    ghost failures = { λ busy. L.failures busy.link };

    fn accept(&mut self, a: u16) -> Result<Option<SocketAddrV4>, LinkFault> {
        let answer = self.link.accept(a);
        self.is_busy |= matches!(answer, Ok(Some(_)));
        answer
    }

    fn read(&mut self, a: u16, room: &mut [u8]) -> Result<ReadResult, LinkFault> {
        let answer = self.link.read(a, room);
        self.is_busy |= match answer {
            Ok(ReadResult::Nothing) => false,
            Ok(ReadResult::Bytes(count)) => count == room.len(),
            Ok(ReadResult::End) => true,
            Err(_) => true,
        };
        answer
    }

    fn write(&mut self, a: u16, octets: &[u8]) -> Result<usize, LinkFault> {
        let answer = self.link.write(a, octets);
        self.is_busy |= answer.is_err();
        answer
    }

    fn close(&mut self, a: u16) {
        self.is_busy = true;
        self.link.close(a);
    }
}
