// Clients in memory, for which one call may fail, and which transfer a bounded number of octets in
// each call.
ghost use Rattle.std.specs.Prelude.{◌≡◌};

use bay_server_turn::link::{Link, LinkFault, ReadResult};
use std::cell::RefCell;
use std::net::{Ipv4Addr, SocketAddrV4};

/// Clients that connect one after the other, each from 127.0.0.1:40000. Each sends the same octets,
/// and then nothing or its end. The octets that all of them receive are stored in `taken`.
#[derive(Drop)]
pub struct MemoryLink<'a> {
    clients: usize,
    connected: usize,
    sent: Vec<u8>,
    given: [usize; 8],
    taken: &'a RefCell<Vec<u8>>,
    pub ends: bool,
    pub per_read: usize,
    pub per_write: usize,
    pub calls: u64,
    pub fails_at: u64,
    pub failures: u64,
    pub closed: u64,
}

impl<'a> MemoryLink<'a> {
    /// Creates a link of this number of clients that send these octets. No call fails.
    pub fn new(clients: usize, sent: Vec<u8>, taken: &'a RefCell<Vec<u8>>) -> MemoryLink<'a> {
        MemoryLink {
            clients,
            connected: 0,
            sent,
            given: [0; 8],
            taken,
            ends: true,
            per_read: usize::MAX,
            per_write: usize::MAX,
            calls: 0,
            fails_at: 0,
            failures: 0,
            closed: 0,
        }
    }

    // Counts a call, and returns whether it is the one that fails.
    fn is_failing(&mut self) -> bool
        ensures { self.new.failures ≡ self.old.failures }
    {
        self.calls = self.calls.saturating_add(1);
        self.calls == self.fails_at
    }
}

impl Link for MemoryLink<'_> {
    ghost failures = { λ link. link.failures };

    fn accept(&mut self, association: u16) -> Result<Option<SocketAddrV4>, LinkFault> {
        if self.is_failing() {
            self.failures = self.failures.saturating_add(1);
            return Err(LinkFault);
        }
        if self.connected < self.clients {
            self.connected = self.connected.saturating_add(1);
            self.given[association as usize - 1] = 0;
            return Ok(Some(SocketAddrV4::new(Ipv4Addr::LOCALHOST, 40_000)));
        }
        Ok(None)
    }

    fn read(&mut self, association: u16, room: &mut [u8]) -> Result<ReadResult, LinkFault> {
        if self.is_failing() {
            self.failures = self.failures.saturating_add(1);
            return Err(LinkFault);
        }
        let given = self.given[association as usize - 1];
        let rest = self.sent.as_slice().get(given..).unwrap_or(&[]);
        let most = room.len().min(self.per_read);
        let count = most.min(rest.len());
        room[..count].copy_from_slice(&rest[..count]);
        self.given[association as usize - 1] = given.saturating_add(count);
        if count > 0 {
            return Ok(ReadResult::Bytes(count));
        }
        if self.ends {
            return Ok(ReadResult::End);
        }
        Ok(ReadResult::Nothing)
    }

    fn write(&mut self, _association: u16, octets: &[u8]) -> Result<usize, LinkFault> {
        let count = self.per_write.min(octets.len());
        if !self.is_failing()
            && let Ok(mut taken) = self.taken.try_borrow_mut()
            && taken.extend_from_slice(&octets[..count]).is_ok()
        {
            return Ok(count);
        }
        self.failures = self.failures.saturating_add(1);
        Err(LinkFault)
    }

    fn close(&mut self, _association: u16) {
        self.closed = self.closed.saturating_add(1);
    }
}
