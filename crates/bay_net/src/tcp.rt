// A link over the sockets of the system. No call blocks.
ghost use Rattle.std.specs.Prelude.{◌≡◌, ◌+◌, ◌-◌, ◌<◌, min};
ghost use Rattle.std.specs.Io.{ReadsAtMost, WritesAtMost};

use crate::readiness::{ListenerState, Readiness, add_stream};
use bay_device::event::ASSOCIATIONS;
use bay_server_turn::link::{Link, LinkFault, ReadResult};
use mio::Registry;
use std::alloc::Global;
use std::io;
use std::io::{ErrorKind, Read, Write};
use std::net::{Ipv4Addr, Net, SocketAddr, SocketAddrV4, TcpListener, TcpStream};
use std::rc::Rc;
use std::time::{Clock, Instant};

// The number of seconds for which a connection may send nothing at all before it counts as failed.
const SILENCE: u64 = 10;

// An accepted connection; since when it has sent nothing, if that is limited: since it was
// accepted, or since its last octets came; and for how many seconds it may send nothing.
#[derive(Drop)]
struct Peer {
    stream: TcpStream,
    silent_since: Option<Instant>,
    limit_s: u64,
}

/// A listener on 127.0.0.1 and the accepted connections, indexed by their numbers.
#[derive(Drop)]
pub struct TcpLink<'a, C> {
    clock: &'a C,
    registry: Registry,
    listener: TcpListener,
    listener_state: Rc<ListenerState, Global>,
    peers: [Option<Peer>; ASSOCIATIONS],
    idle_s: Option<u32>,
    failures: u64,
}

// Returns whether a call would have blocked.
fn would_block(error: &io::Error) -> bool {
    error.kind() == ErrorKind::WouldBlock || error.kind() == ErrorKind::Interrupted
}

// Returns whether an accept would have blocked.
fn is_blocked<T>(accepted: &io::Result<T>) -> bool {
    match accepted {
        Ok(_) => false,
        Err(error) => error.kind() == ErrorKind::WouldBlock,
    }
}

// Returns the error of a read or a write without an open connection.
fn not_connected() -> io::Error {
    io::Error::from(ErrorKind::NotConnected)
}

impl Peer {
    // Whether no octet has come for longer than the connection may send nothing. The clock is read
    // only if that is limited.
    fn is_idle<C: Clock>(&self, clock: &C) -> bool {
        let Some(since) = &self.silent_since else {
            return false;
        };
        match Instant::now(clock) {
            Ok(now) => now.saturating_duration_since(*since).as_secs() >= self.limit_s,
            Err(_) => false,
        }
    }
}

// Reads from a connection, if it is open.
fn read_some(peer: &Option<Peer>, room: &mut [u8]) -> io::Result<usize>
    ensures { ReadsAtMost result room.new }
{
    match peer {
        Some(peer) => (&mut &peer.stream).read(room),
        None => Err(not_connected()),
    }
}

// Writes to a connection, if it is open.
fn write_some(peer: &Option<Peer>, octets: &[u8]) -> io::Result<usize>
    ensures { WritesAtMost result octets.now }
{
    match peer {
        Some(peer) => (&mut &peer.stream).write(octets),
        None => Err(not_connected()),
    }
}

impl<'a, C: Clock> TcpLink<'a, C> {
    /// Listens on 127.0.0.1 at a port, or for port 0 at one that the system picks. `readiness`
    /// reports when a socket of the link is ready, and `clock` how long a connection has been
    /// silent. A connection fails that sends nothing for 10 seconds after it was accepted, and if
    /// `idle_s` is given, one that has sent nothing for this many seconds.
    pub fn bind<R: Net<Listener = TcpListener, Stream = TcpStream>>(
        rt: &R,
        clock: &'a C,
        readiness: &mut Readiness,
        port: u16,
        idle_s: Option<u32>,
    ) -> io::Result<TcpLink<'a, C>> {
        let registry = readiness.registry()?;
        let address = SocketAddr::from((Ipv4Addr::LOCALHOST, port));
        let listener = TcpListener::bind(rt, address)?;
        listener.set_nonblocking(true)?;
        let listener_state = readiness.add_listener(&listener)?;
        Ok(TcpLink {
            clock,
            registry,
            listener,
            listener_state,
            peers: [None, None, None, None, None, None, None, None],
            idle_s,
            failures: 0,
        })
    }

    /// Returns the port that the link listens on.
    pub fn port(&self) -> io::Result<u16> {
        Ok(self.listener.local_addr()?.port())
    }

    /// Returns the number of failed calls, counted up to 18,446,744,073,709,551,615.
    pub fn failures(&self) -> u64
        ensures { result ≡ self.now.failures }
    {
        self.failures
    }

    // Accepts a waiting connection, and returns it with the address of its client, which is one of
    // IPv4. Its reads and writes do not block, and what is written is sent at once.
    fn accept_one(&self) -> io::Result<(Peer, SocketAddrV4)> {
        let (stream, address) = self.listener.accept()?;
        let SocketAddr::V4(from) = address else {
            return Err(not_connected());
        };
        stream.set_nonblocking(true)?;
        stream.set_nodelay(true)?;
        add_stream(&self.registry, &stream)?;
        let silent_since = Some(Instant::now(self.clock)?);
        let peer = Peer {
            stream,
            silent_since,
            limit_s: SILENCE,
        };
        Ok((peer, from))
    }

    // Whether a connection has sent nothing for too long.
    fn is_idle(&self, slot: usize) -> bool {
        match self.peers.get(slot) {
            Some(Some(peer)) => peer.is_idle(self.clock),
            _ => false,
        }
    }

    // Records that a connection has sent octets.
    fn note_octets(&mut self, slot: usize)
        ensures { self.new.failures ≡ self.old.failures }
    {
        let since = match self.idle_s {
            Some(_) => Instant::now(self.clock).ok(),
            None => None,
        };
        if let Some(Some(peer)) = self.peers.get_mut(slot) {
            peer.silent_since = since;
            peer.limit_s = u64::from(self.idle_s.unwrap_or(0));
        }
    }

    // Counts a failed call.
    fn count_failure(&mut self) -> LinkFault
        ensures { self.new.failures ≡ min (self.old.failures + 1) 18446744073709551615 }
    {
        self.failures = self.failures.saturating_add(1);
        LinkFault
    }
}

impl<C: Clock> Link for TcpLink<'_, C> {
    ghost failures = { λ link. link.failures };

    // Does not call the system after a wait that found no connection. A connection that can't be
    // accepted, for example for lack of descriptors, is tried again.
    fn accept(&mut self, association: u16) -> Result<Option<SocketAddrV4>, LinkFault> {
        if self.listener_state.was_quiet() {
            return Ok(None);
        }
        let accepted = self.accept_one();
        self.listener_state.set_empty(is_blocked(&accepted));
        match accepted {
            Ok((peer, from)) => {
                self.peers[association as usize - 1] = Some(peer);
                Ok(Some(from))
            }
            Err(error) if would_block(&error) => Ok(None),
            Err(_) => Err(self.count_failure()),
        }
    }

    fn read(&mut self, association: u16, room: &mut [u8]) -> Result<ReadResult, LinkFault> {
        let slot = association as usize - 1;
        match read_some(&self.peers[slot], room) {
            Ok(0) => Ok(ReadResult::End),
            Ok(n) => {
                self.note_octets(slot);
                Ok(ReadResult::Bytes(n))
            }
            Err(error) if would_block(&error) && !self.is_idle(slot) => Ok(ReadResult::Nothing),
            Err(_) => Err(self.count_failure()),
        }
    }

    fn write(&mut self, association: u16, octets: &[u8]) -> Result<usize, LinkFault> {
        match write_some(&self.peers[association as usize - 1], octets) {
            Ok(n) => Ok(n),
            Err(error) if would_block(&error) => Ok(0),
            Err(_) => Err(self.count_failure()),
        }
    }

    fn close(&mut self, association: u16) {
        self.peers[association as usize - 1] = None;
    }
}
