// The system that serving uses: ports, and two clocks.
ghost use Rattle.std.specs.Prelude.{◌≡◌};
ghost use Rattle.bay_server.specs.Host.{HostCall, Binds, ReadsTimes, Pauses, WaitsUntil};
ghost use Rattle.bay_server.specs.LogLines.{bind_words};

use crate::clock::Clocks;
use bay_net::readiness::Readiness;
use bay_net::tcp::TcpLink;
use std::alloc::Global;
use std::io::ErrorKind;
use std::net::{Net, TcpListener, TcpStream};
use std::rt::{Clock, Runtime};
use std::time::Duration;
use std::{io, thread};
use thiserror::Error;

// The maximum length of a pause, in milliseconds.
const PAUSE: u64 = 10;

// The maximum length of a wait, in milliseconds: that of the longest turn that can be requested. So
// a clock that can't be read holds up no turn for longer.
const WAIT: u64 = 100;

// The system's number for too many open files (EMFILE).
const TOO_MANY_FILES: i32 = 24;

/// Why a port can't be opened.
#[derive(Clone, Copy, Debug, Error)]
#[error("{}", self.words())]
pub enum BindFault {
    /// Another program listens on it.
    InUse,
    /// The program may not listen on it.
    Denied,
    /// The program has as many open files as it may have.
    NoDescriptor,
    /// Any other reason.
    Failed,
}

impl BindFault {
    /// Returns what the fault is, in words.
    pub fn words(self) -> &'static str
        ensures { result.now ≡ bind_words self }
    {
        match self {
            BindFault::InUse => "another program uses it",
            BindFault::Denied => "permission denied",
            BindFault::NoDescriptor => "too many open files",
            BindFault::Failed => "the system does not open it",
        }
    }
}

impl From<io::Error> for BindFault {
    fn from(error: io::Error) -> BindFault {
        match error.kind() {
            ErrorKind::AddrInUse => BindFault::InUse,
            ErrorKind::PermissionDenied => BindFault::Denied,
            _ if error.raw_os_error() == Some(TOO_MANY_FILES) => BindFault::NoDescriptor,
            _ => BindFault::Failed,
        }
    }
}

/// The ports of 127.0.0.1, on which links listen, and two clocks.
///
/// Its meaning is `does old call new`: this call, with its result, may have led from the one state
/// to the other. A host in memory defines its own relation. The system's host, of which nothing is
/// known, keeps the default, which any call meets.
pub trait Host<L> {
    ghost does: { Self → HostCall L → Self → Type 0 } = { λ _ _ _. Unit {0} };

    /// Listens at a port. If `idle_s` is given, a connection that has sent nothing for this many
    /// seconds has failed.
    fn bind(&mut self, port: u16, idle_s: Option<u32>) -> Result<L, BindFault>
        ensures { does self.old (Binds port idle_s result) self.new };

    /// Returns the times of the system's clock and of one that does not jump, in milliseconds.
    fn clocks(&mut self) -> Clocks
        ensures { does self.old (ReadsTimes result.system result.steady) self.new };

    /// Waits until something may have happened on a link, for at most some milliseconds.
    fn pause(&mut self)
        ensures { does self.old Pauses self.new };

    /// Waits until the clock that does not jump shows this time, in milliseconds. Does not wait if
    /// it shows it already, and waits for at most 100 milliseconds.
    fn wait_until(&mut self, steady: u64)
        ensures { does self.old (WaitsUntil steady) self.new };
}

/// The ports and the clocks of the system that the program runs on.
#[derive(Drop)]
pub struct SystemHost<'a, R> {
    rt: &'a R,
    readiness: Option<Readiness>,
}

impl<'a, R> SystemHost<'a, R> {
    /// Creates a host without open ports.
    pub fn new(rt: &'a R) -> Self {
        SystemHost {
            rt,
            readiness: None,
        }
    }
}

// Returns a clock's time in milliseconds; 0, which is not later than any time, if the clock cannot
// be read.
fn milliseconds(time: io::Result<Duration>) -> u64 {
    match time {
        Ok(time) => u64::try_from(time.as_millis()).unwrap_or(u64::MAX),
        Err(_) => 0,
    }
}

// Returns the readiness of a host's sockets, which is created at the first port.
fn open_readiness<'a, R: Runtime<A = Global> + Net>(
    rt: &R,
    readiness: &'a mut Option<Readiness>,
) -> Result<&'a mut Readiness, BindFault> {
    if readiness.is_none() {
        *readiness = Some(Readiness::new(rt, rt.alloc())?);
    }
    readiness.as_mut().ok_or(BindFault::Failed)
}

impl<'a, R: Runtime<A = Global> + Net<Listener = TcpListener, Stream = TcpStream>> Host<
    TcpLink<'a, R>,
> for SystemHost<'a, R> {
    fn bind(&mut self, port: u16, idle_s: Option<u32>) -> Result<TcpLink<'a, R>, BindFault> {
        let readiness = open_readiness(self.rt, &mut self.readiness)?;
        Ok(TcpLink::bind(self.rt, self.rt, readiness, port, idle_s)?)
    }

    fn clocks(&mut self) -> Clocks {
        Clocks {
            system: milliseconds(self.rt.since_1970()),
            steady: milliseconds(self.rt.monotonic()),
        }
    }

    // Sleeps if there is nothing to wait for.
    fn pause(&mut self) {
        let most = Duration::from_millis(PAUSE);
        let waited = match &mut self.readiness {
            Some(readiness) => readiness.wait(most).is_ok(),
            None => false,
        };
        if !waited {
            thread::sleep(self.rt, most);
        }
    }

    fn wait_until(&mut self, steady: u64) {
        let left = steady.saturating_sub(milliseconds(self.rt.monotonic()));
        if left > 0 {
            thread::sleep(self.rt, Duration::from_millis(left.min(WAIT)));
        }
    }
}
