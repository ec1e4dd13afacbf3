// The output of a program: its octets, and the log beside them.
ghost use Rattle.std.specs.Prelude.{◌≡◌, ◌==◌, [], is_ok, length};
ghost use Rattle.std.specs.Result.{result_ok};
ghost use Rattle.bay_io.specs.Sent.{Sends};
ghost use Rattle.bay_stdio.specs.Descriptor.{accepted_octets};
ghost use Rattle.bay_stdio.specs.Output.{CallEffect, Drains, PutsIntoQueue, written_octets};

use crate::descriptor::Descriptor;
use crate::log::Log;
use crate::queue::{OutputQueue, send_waiting};
use bay_io::calls::{LinePart, Sink};
use std::io;
use std::io::{ErrorKind, Write};
use std::marker::Model;
use std::net::Net;
use std::os::fd::AsRawFd;
use std::time::Duration;

// How often `drain` waits for the reader of the output, each time for at most a millisecond.
const WAITS: usize = 1_000;

/// A sink of octets and a sink of the log's lines. With a queue, octets that the first sink does
/// not accept at once wait, up to the limit of the queue. Lines of the log always wait; those that
/// don't fit are lost and counted.
#[derive(Drop)]
pub struct Output<O, E> {
    out: O,
    queue: Option<OutputQueue>,
    err: E,
    log: Log,
}

impl<O, E> Model for Output<O, E> {
    ghost use Rattle.bay_stdio.specs.Output.{OutputData};

    ghost Value = { OutputData O E };

    ghost view = { λ o. record { out = o.out; queue = o.queue; err = o.err; log = o.log } };
}

impl<O, E> Output<O, E> {
    /// Creates an output over two sinks, with this queue, if any, and an empty log.
    pub fn new(out: O, err: E, queue: Option<OutputQueue>) -> Self
        ensures { result ≡ record {
          out = out;
          queue = queue;
          err = err;
          log = record { waiting = []; lost = 0 };
        } }
    {
        Output {
            out,
            queue,
            err,
            log: Log::new(),
        }
    }
}

// Puts octets into a queue. If they don't fit, first writes as much of the queue as the sink
// accepts. If they still don't fit, that is a failed write (`WouldBlock`).
fn put_into_queue<O: Sink>(queue: &mut OutputQueue, out: &mut O, octets: &[u8]) -> io::Result<usize>
    ensures { PutsIntoQueue O.contents O.does queue.old out.old octets.now queue.new out.new
        (result_ok result) }
{
    if queue.put(octets) {
        return Ok(octets.len());
    }
    send_waiting(queue, out)?;
    if queue.put(octets) {
        Ok(octets.len())
    } else {
        Err(io::Error::from(ErrorKind::WouldBlock))
    }
}

impl<O: Sink, E: Sink> Sink for Output<O, E> {
    ghost contents = { λ output. written_octets (O.contents output.out) output.queue };

    ghost does = { CallEffect O.contents O.does E.contents E.does };

    fn write_octets(&mut self, octets: &[u8]) -> io::Result<usize> {
        match &mut self.queue {
            Some(queue) => put_into_queue(queue, &mut self.out, octets),
            None => self.out.write_octets(octets),
        }
    }

    // Writes the waiting lines of the log as far as its sink accepts them, and ignores a failure.
    // Then writes the queue as far as the sink accepts it, or flushes the sink if there is no
    // queue.
    fn flush_octets(&mut self) -> io::Result<()> {
        let _ = self.log.send(&mut self.err);
        match &mut self.queue {
            Some(queue) => send_waiting(queue, &mut self.out),
            None => self.out.flush_octets(),
        }
    }

    fn log_line(&mut self, parts: &[LinePart<'_>]) {
        self.log.put(parts);
        let _ = self.log.send(&mut self.err);
    }
}

// Writes the queue, for at most about a second. Fails if some of it is left.
fn drain_queue<R: Net + AllocGlobal, O: Write + AsRawFd>(
    queue: &mut OutputQueue,
    out: &mut Descriptor<'_, R, O>,
) -> io::Result<()>
    ensures sends { Sends (accepted_octets O.contents out.old) (accepted_octets O.contents out.new)
        queue.old
        queue.new }
    ensures all { is_ok result ≡ (length queue.new == 0) }
{
    for _ in 0..WAITS {
        send_waiting(queue, out)?;
        if queue.as_slice().is_empty() {
            return Ok(());
        }
        out.wait(Duration::from_millis(1))?;
    }
    Err(io::Error::from(ErrorKind::TimedOut))
}

impl<R: Net + AllocGlobal, O: Write + AsRawFd, E: Sink> Output<Descriptor<'_, R, O>, E> {
    /// Writes the queue, for at most about a second, and as much of the log as its sink accepts.
    /// Fails if some of the queue is left.
    pub fn drain(&mut self) -> io::Result<()>
        ensures { Drains (accepted_octets O.contents) E.contents E.does self.old self.new
            (is_ok result) }
    {
        // If lines were lost, this logs how many.
        self.log_line(&[]);
        match &mut self.queue {
            Some(queue) => drain_queue(queue, &mut self.out),
            None => Ok(()),
        }
    }
}
