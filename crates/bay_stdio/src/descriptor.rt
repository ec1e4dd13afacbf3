// A file descriptor as a sink.
ghost use Rattle.std.specs.Prelude.{◌≡◌, false, true};
ghost use Rattle.bay_stdio.specs.Descriptor.{accepted_octets};

use bay_io::calls::{LinePart, Sink};
use mio::unix::SourceFd;
use mio::{Events, Interest, Poll, Token};
use std::alloc::Global;
use std::io;
use std::io::{ErrorKind, Write};
use std::marker::Model;
use std::net::Net;
use std::os::fd::{AsRawFd, RawFd};
use std::time::Duration;

// The most octets that a ready descriptor accepts without blocking: one page of a pipe (Linux,
// pipe(7), PIPE_BUF).
const PIECE: usize = 4_096;

// The token of the one descriptor that is registered.
const TOKEN: Token = Token(0);

// Polls whether a descriptor is ready.
#[derive(Drop)]
struct Readiness {
    poll: Poll,
    events: Events<Global>,
}

// How to find out whether a descriptor is ready.
#[derive(Drop)]
enum Gate {
    /// Not known yet: nothing was written or waited for.
    Unknown,
    /// The descriptor is always ready, as a file is.
    Open,
    Polled(Readiness),
}

/// A writer over a descriptor.
#[derive(Drop)]
pub struct Descriptor<'a, R, W> {
    rt: &'a R,
    writer: W,
    waits: bool,
    gate: Gate,
}

impl<'a, R, W> Model for Descriptor<'a, R, W> {
    ghost use Rattle.bay_stdio.specs.Descriptor.{DescriptorData};

    ghost Value = { DescriptorData W };

    ghost view = { λ d. record { writer = d.writer; waits = d.waits } };
}

impl Readiness {
    // Registers a descriptor.
    fn new<R: Net + AllocGlobal>(rt: &R, descriptor: RawFd) -> io::Result<Readiness> {
        let poll = Poll::new(rt)?;
        let events = Events::with_capacity(rt.alloc(), 1)?;
        let mut source = SourceFd(&descriptor);
        poll.registry()
            .register(&mut source, TOKEN, Interest::WRITABLE)?;
        Ok(Readiness { poll, events })
    }

    // Waits until the descriptor is ready or the time has passed. Returns whether it is ready.
    fn wait(&mut self, descriptor: RawFd, most: Duration) -> io::Result<bool> {
        let mut source = SourceFd(&descriptor);
        // The system reports changes. After a new registration it reports the present state.
        self.poll
            .registry()
            .reregister(&mut source, TOKEN, Interest::WRITABLE)?;
        self.poll.poll(&mut self.events, Some(most))?;
        Ok(!self.events.is_empty())
    }
}

impl Gate {
    // Registers a descriptor, or finds that it is always ready.
    fn of<R: Net + AllocGlobal>(rt: &R, descriptor: RawFd) -> io::Result<Gate> {
        match Readiness::new(rt, descriptor) {
            Ok(readiness) => Ok(Gate::Polled(readiness)),
            // A descriptor that the system can't poll is a file or the like.
            Err(error) if error.kind() == ErrorKind::PermissionDenied => Ok(Gate::Open),
            Err(error) => Err(error),
        }
    }
}

impl<'a, R, W> Descriptor<'a, R, W> {
    /// Creates a sink whose writes wait until the descriptor accepts octets.
    pub fn new(rt: &'a R, writer: W) -> Self
        ensures { result ≡ record { writer = writer; waits = true } }
    {
        Descriptor {
            rt,
            writer,
            waits: true,
            gate: Gate::Unknown,
        }
    }

    /// From now on no write waits: if the descriptor accepts nothing at once, a write returns 0.
    pub fn stop_waiting(&mut self)
        ensures { self.new ≡ record self.old { waits = false } }
    {
        self.waits = false;
    }
}

impl<R: Net + AllocGlobal, W: AsRawFd> Descriptor<'_, R, W> {
    /// Waits until the descriptor is ready or the time has passed. Fails if the descriptor can't be
    /// polled.
    pub fn wait(&mut self, most: Duration) -> io::Result<()>
        ensures { self.new ≡ self.old }
    {
        self.is_ready(most)?;
        Ok(())
    }

    // Waits until the descriptor is ready or the time has passed. Returns whether it is ready.
    fn is_ready(&mut self, most: Duration) -> io::Result<bool>
        ensures { self.new ≡ self.old }
    {
        let descriptor = self.writer.as_raw_fd();
        if matches!(&self.gate, Gate::Unknown) {
            self.gate = Gate::of(self.rt, descriptor)?;
        }
        match &mut self.gate {
            Gate::Polled(readiness) => readiness.wait(descriptor, most),
            _ => Ok(true),
        }
    }
}

// Returns whether a call would have blocked or was interrupted.
fn would_wait(error: &io::Error) -> bool {
    error.kind() == ErrorKind::WouldBlock || error.kind() == ErrorKind::Interrupted
}

impl<R: Net + AllocGlobal, W: Write + AsRawFd> Sink for Descriptor<'_, R, W> {
    ghost contents = { accepted_octets W.contents };

    fn write_octets(&mut self, octets: &[u8]) -> io::Result<usize> {
        if self.waits {
            return self.writer.write(octets);
        }
        if !self.is_ready(Duration::ZERO)? {
            return Ok(0);
        }
        match self.writer.write(&octets[..octets.len().min(PIECE)]) {
            Err(error) if would_wait(&error) => Ok(0),
            answer => answer,
        }
    }

    fn flush_octets(&mut self) -> io::Result<()> {
        self.writer.flush()
    }

    // A descriptor has no log.
    fn log_line(&mut self, _parts: &[LinePart<'_>]) {}
}
