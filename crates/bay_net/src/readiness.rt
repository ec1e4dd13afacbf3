// Waits until a socket is ready.
use mio::unix::SourceFd;
use mio::{Events, Interest, Poll, Registry, Token};
use std::alloc::Global;
use std::cell::Cell;
use std::io;
use std::net::{Net, TcpListener, TcpStream};
use std::os::fd::AsRawFd;
use std::rc::Rc;
use std::time::Duration;

// The maximum number of events that one wait returns. The next wait returns more.
const EVENTS: usize = 32;

// The token of every connection: after a wait, all connections are read.
const ANY: Token = Token(usize::MAX);

/// Waits until sockets of links are ready.
///
/// An event is reported at a change, so waiting is correct only if every call on these sockets has
/// either reported that it would block, or has read less than its room, which also empties a
/// socket.
#[derive(Drop)]
pub struct Readiness {
    alloc: Global,
    poll: Poll,
    events: Events<Global>,
    listeners: Vec<Rc<ListenerState, Global>>,
}

/// Whether connections wait at a listener, as far as this is known.
#[derive(Drop)]
pub(crate) struct ListenerState {
    /// The last accept would have blocked, and the listener has had no event since.
    is_empty: Cell<bool>,
    /// A wait has ended in this state, and no accept was tried since.
    is_quiet: Cell<bool>,
}

impl ListenerState {
    /// Returns whether a wait has just ended and no connection waits. Returns true once for each
    /// wait, so a listener is called as often as no wait comes between.
    pub(crate) fn was_quiet(&self) -> bool {
        self.is_quiet.replace(false)
    }

    /// Records whether an accept would have blocked.
    pub(crate) fn set_empty(&self, is_empty: bool) {
        self.is_empty.set(is_empty);
    }
}

/// Registers a connection until it is closed.
pub(crate) fn add_stream(registry: &Registry, stream: &TcpStream) -> io::Result<()> {
    let descriptor = stream.as_raw_fd();
    let both = Interest::READABLE | Interest::WRITABLE;
    registry.register(&mut SourceFd(&descriptor), ANY, both)
}

impl Readiness {
    /// Creates a readiness without registered sockets. Fails if the system has no poll for it or
    /// memory runs out.
    pub fn new<R: Net>(rt: &R, alloc: Global) -> io::Result<Readiness> {
        let poll = Poll::new(rt)?;
        let events = Events::with_capacity(alloc, EVENTS)?;
        Ok(Readiness {
            alloc,
            poll,
            events,
            listeners: Vec::new(alloc),
        })
    }

    /// Registers a listener, whose token is its index.
    pub(crate) fn add_listener(
        &mut self,
        listener: &TcpListener,
    ) -> io::Result<Rc<ListenerState, Global>> {
        let descriptor = listener.as_raw_fd();
        let token = Token(self.listeners.len());
        let registry = self.poll.registry();
        registry.register(&mut SourceFd(&descriptor), token, Interest::READABLE)?;
        let listener_state = ListenerState {
            is_empty: Cell::new(false),
            is_quiet: Cell::new(false),
        };
        let listener_state = Rc::new(self.alloc, listener_state)?;
        self.listeners.push(listener_state.clone()?)?;
        Ok(listener_state)
    }

    /// Returns a handle with which connections are registered.
    pub(crate) fn registry(&self) -> io::Result<Registry> {
        self.poll.registry().try_clone()
    }

    /// Waits until a socket is ready or the time is up. Fails if the wait of the system fails.
    pub fn wait(&mut self, most: Duration) -> io::Result<()> {
        self.poll.poll(&mut self.events, Some(most))?;
        for event in self.events.iter() {
            if let Some(listener_state) = self.listeners.as_slice().get(event.token().0) {
                listener_state.is_empty.set(false);
            }
        }
        for listener_state in self.listeners.as_slice() {
            listener_state.is_quiet.set(listener_state.is_empty.get());
        }
        Ok(())
    }
}
