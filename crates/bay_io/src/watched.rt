// A sink that records whether a call has failed. Only a write or a flush changes the record, and
// nothing is logged before the log is started.
ghost use Rattle.std.specs.Prelude.{◌≡◌, ◌||◌, true, false, is_ok, is_err, if◌then◌else◌, MatchBool};
ghost use Rattle.std.specs.Io.{WritesAtMost};
ghost use Rattle.std.specs.Io.KnownBytes.{WriteAppends, Keeps};
ghost use Rattle.bay_io.specs.Calls.{Log, parts_text, sink_write, sink_flush};
ghost use Rattle.bay_io.specs.Watched as spec;

use crate::calls::{LinePart, Sink};
use std::io;
use std::marker::Model;

/// A sink that records whether a write or a flush has failed, or a write accepted none of the
/// octets offered; whether the sink was flushed since its last write; and whether it logs.
#[derive(Drop)]
pub struct Watched<W> {
    inner: W,
    has_failed: bool,
    is_flushed: bool,
    logs: bool,
}

impl<W> Model for Watched<W> {
    ghost use Rattle.bay_io.specs.Watched.{SinkState};

    ghost Value = { SinkState W };

    ghost view = { λ w. record {
      inner = w.inner;
      has_failed = w.has_failed;
      is_flushed = w.is_flushed;
      logs = w.logs;
    } };
}

impl<W> Watched<W> {
    /// Wraps a sink before its first write. It counts as not flushed, and does not log.
    pub fn new(inner: W) -> Self
        ensures { result ≡ record {
          inner = inner;
          has_failed = false;
          is_flushed = false;
          logs = false;
        } }
    {
        Watched {
            inner,
            has_failed: false,
            is_flushed: false,
            logs: false,
        }
    }

    /// Returns the sink.
    pub fn into_inner(self) -> W
        ensures { result ≡ self.inner }
    {
        let Watched { inner, .. } = self;
        inner
    }

    /// Starts the log: from now on lines are logged.
    pub fn start_log(&mut self)
        ensures { self.new ≡ record self.old { logs = true } }
    {
        self.logs = true;
    }

    /// Returns whether lines are logged.
    pub fn is_logging(&self) -> bool
        ensures { result ≡ self.now.logs }
    {
        self.logs
    }

    /// Returns whether a write or a flush has failed, or a write accepted none of the octets
    /// offered.
    pub fn has_failed(&self) -> bool
        ensures { result ≡ self.now.has_failed }
    {
        self.has_failed
    }
}

// Returns whether a write of a text failed or accepted none of it.
fn is_write_failure(text: &[u8], outcome: &io::Result<usize>) -> bool
    ensures { result ≡ spec.is_write_failure text.now outcome.now }
{
    match outcome {
        Ok(taken) => *taken == 0 && !text.is_empty(),
        Err(_) => true,
    }
}

impl<W: Sink> Watched<W> {
    /// Writes a prefix of the octets in one call and returns its length. Fails if the sink does,
    /// and records that, or that the sink accepted none of the octets.
    pub fn write(&mut self, octets: &[u8]) -> io::Result<usize>
        ensures bound { WritesAtMost result octets.now }
        ensures bytes { WriteAppends (W.contents self.old.inner) (W.contents self.new.inner) result
            octets.now }
        // The sink was offered these octets once, with this result.
        ensures call { W.does self.old.inner (sink_write octets.now result) self.new.inner }
        ensures failed { self.new.has_failed
            ≡ (self.old.has_failed || spec.is_write_failure octets.now result) }
        ensures flushed { self.new.is_flushed ≡ false }
        ensures logs { self.new.logs ≡ self.old.logs }
    {
        let outcome = self.inner.write_octets(octets);
        if is_write_failure(octets, &outcome) {
            self.has_failed = true;
        }
        self.is_flushed = false;
        outcome
    }

    /// Flushes the sink. Fails if the sink does, and records that.
    pub fn flush(&mut self) -> io::Result<()>
        ensures bytes { Keeps (W.contents self.old.inner) (W.contents self.new.inner) }
        ensures call { W.does self.old.inner (sink_flush result) self.new.inner }
        ensures failed { self.new.has_failed ≡ (self.old.has_failed || is_err result) }
        ensures flushed { self.new.is_flushed
            ≡ (if is_ok result then true else self.old.is_flushed) }
        ensures logs { self.new.logs ≡ self.old.logs }
    {
        let outcome = self.inner.flush_octets();
        if outcome.is_ok() {
            self.is_flushed = true;
        } else {
            self.has_failed = true;
        }
        outcome
    }

    /// Logs the line of these parts, if the log was started.
    pub fn log(&mut self, parts: &[LinePart<'_>])
        ensures bytes { Keeps (W.contents self.old.inner) (W.contents self.new.inner) }
        ensures call { MatchBool self.old.logs
            (W.does self.old.inner (Log (parts_text parts.now)) self.new.inner)
            (self.new.inner ≡ self.old.inner) }
        ensures rest { self.new ≡ record self.old { inner = self.new.inner } }
    {
        if self.logs {
            self.inner.log_line(parts);
        }
    }
}
