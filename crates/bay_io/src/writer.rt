// A buffered writer over a sink that records failures; it writes 64 KiB at a time.
//
// The writer records whether a write has failed: a caller puts text after text, and checks once.
ghost use Rattle.std.specs.Prelude.{◌≡◌, [], true, false, is_err, OnOk, OnErr};
ghost use Rattle.std.specs.Fmt.{decimal};
ghost use Rattle.std.specs.Io.KnownBytes.{Appends, Keeps};
ghost use Rattle.bay_io.specs.Calls.{SomeCalls, Unlogged, parts_text, write_failed};
ghost use Rattle.bay_io.specs.Sent.{Finishes, Logs, Puts, SendsPart};

use crate::calls::{LinePart, Sink};
use crate::outbox::{Outbox, WriteFault};
use crate::watched::Watched;
use itoa::Buffer;
use std::marker::Model;

// Writes the whole text. If a write fails, only a prefix is written. Does not write to a sink that
// has failed.
fn write_out<W: Sink>(sink: &mut Watched<W>, text: &[u8]) -> Result<(), WriteFault>
    ensures ok { OnOk result
        (Appends (W.contents sink.old.inner) (W.contents sink.new.inner) text.now) }
    ensures err { OnErr result
        (SendsPart (W.contents sink.old.inner) (W.contents sink.new.inner) text.now) }
    ensures fault { is_err result ≡ sink.new.has_failed }
    ensures calls_made { SomeCalls (Unlogged W.does) write_failed sink.old.inner sink.old.has_failed
        sink.new.inner sink.new.has_failed }
    ensures kept { sink.old.has_failed ≡ true → sink.new ≡ sink.old }
    ensures logs { sink.new.logs ≡ sink.old.logs }
{
    if sink.has_failed() {
        return Err(WriteFault);
    }
    let mut done = 0;
    while done < text.len() {
        match sink.write(&text[done..]) {
            Ok(0) => return Err(WriteFault),
            Ok(n) => done += n,
            Err(_) => return Err(WriteFault),
        }
    }
    Ok(())
}

// Flushes the sink. Does not flush a sink that has failed.
fn flush_out<W: Sink>(sink: &mut Watched<W>) -> Result<(), WriteFault>
    ensures kept { Keeps (W.contents sink.old.inner) (W.contents sink.new.inner) }
    ensures flushed { OnOk result (sink.new.is_flushed ≡ true) }
    ensures fault { is_err result ≡ sink.new.has_failed }
    ensures calls_made { SomeCalls (Unlogged W.does) write_failed sink.old.inner sink.old.has_failed
        sink.new.inner sink.new.has_failed }
    ensures logs { sink.new.logs ≡ sink.old.logs }
{
    if sink.has_failed() {
        return Err(WriteFault);
    }
    match sink.flush() {
        Ok(()) => Ok(()),
        Err(_) => Err(WriteFault),
    }
}

/// A writer with a buffer of 65,536 octets. It records whether a write or a flush has failed, or a
/// write accepted none of the octets offered; whether the sink was flushed since its last write;
/// and whether it logs. A line of the log goes to the sink at once: it does not wait for the octets
/// in the buffer.
#[derive(Drop)]
pub struct WatchedWriter<W> {
    sink: Watched<W>,
    outbox: Outbox,
}

impl<W> Model for WatchedWriter<W> {
    ghost use Rattle.bay_io.specs.Watched.{WriterState};

    ghost Value = { WriterState W };

    ghost view = { λ w. record {
      inner = w.sink.inner;
      has_failed = w.sink.has_failed;
      is_flushed = w.sink.is_flushed;
      logs = w.sink.logs;
      pending = w.outbox;
    } };
}

impl<W> WatchedWriter<W> {
    /// Wraps a sink before its first write. It counts as not flushed, and does not log.
    pub fn new(inner: W) -> Self
        ensures { result ≡ record {
          inner = inner;
          has_failed = false;
          is_flushed = false;
          logs = false;
          pending = [];
        } }
    {
        WatchedWriter {
            sink: Watched::new(inner),
            outbox: Outbox::new(),
        }
    }

    /// Returns whether a write or a flush has failed, or a write accepted none of the octets
    /// offered.
    pub fn has_failed(&self) -> bool
        ensures { result ≡ self.now.has_failed }
    {
        self.sink.has_failed()
    }

    /// Returns the sink. The octets in the buffer are lost.
    pub fn into_inner(self) -> W
        ensures { result ≡ self.inner }
    {
        let WatchedWriter { sink, .. } = self;
        sink.into_inner()
    }

    /// Starts the log: from now on lines are logged.
    pub fn start_log(&mut self)
        ensures { self.new ≡ record self.old { logs = true } }
    {
        self.sink.start_log();
    }

    /// Returns whether lines are logged.
    pub fn is_logging(&self) -> bool
        ensures { result ≡ self.now.logs }
    {
        self.sink.is_logging()
    }
}

impl<W: Sink> WatchedWriter<W> {
    // Writes out the buffer.
    fn write_pending(&mut self) -> Result<(), WriteFault>
        ensures ok { OnOk result
            (Appends (W.contents self.old.inner) (W.contents self.new.inner) self.old.pending) }
        ensures err { OnErr result
            (SendsPart (W.contents self.old.inner) (W.contents self.new.inner) self.old.pending) }
        ensures empty { OnOk result (self.new.pending ≡ []) }
        ensures fault { is_err result ≡ self.new.has_failed }
        ensures calls_made { SomeCalls (Unlogged W.does) write_failed self.old.inner
            self.old.has_failed
            self.new.inner self.new.has_failed }
        ensures kept { self.old.has_failed ≡ true → self.new ≡ self.old }
        ensures logs { self.new.logs ≡ self.old.logs }
    {
        write_out(&mut self.sink, self.outbox.as_slice())?;
        self.outbox.clear();
        Ok(())
    }

    // Appends the text to the empty buffer, or writes it out directly if it is longer than the
    // buffer.
    fn put_first(&mut self, text: &[u8])
        requires { self.old.pending ≡ [] }
        ensures { Puts W.contents W.does self.old text.now self.new }
    {
        if !self.outbox.keep(text) {
            let _ = write_out(&mut self.sink, text);
        }
    }

    // Writes out the buffer and then appends the text.
    #[inline(never)]
    fn put_after_flush(&mut self, text: &[u8])
        ensures { Puts W.contents W.does self.old text.now self.new }
    {
        if self.write_pending().is_ok() {
            self.put_first(text);
        }
    }

    /// Appends the text. Writes out the buffer first if the text does not fit. A failure is
    /// recorded (see `has_failed`); after one nothing is written.
    #[inline(always)]
    pub fn put(&mut self, text: &[u8])
        ensures { Puts W.contents W.does self.old text.now self.new }
    {
        if !self.outbox.keep(text) {
            self.put_after_flush(text);
        }
    }

    /// Appends a number in decimal digits, like `put`.
    #[inline(always)]
    pub fn put_number(&mut self, number: u64)
        ensures { Puts W.contents W.does self.old (decimal number) self.new }
    {
        if !self.outbox.append_number(number) {
            self.put_after_flush(Buffer::new().format(number).as_bytes());
        }
    }

    /// Writes out the buffer and flushes the sink. Fails if a write or the flush fails or one has
    /// failed before.
    pub fn finish(&mut self) -> Result<(), WriteFault>
        ensures { Finishes W.contents W.does self.old self.new result }
    {
        self.write_pending()?;
        flush_out(&mut self.sink)
    }

    /// Logs the line of these parts, if the log was started. The buffer does not change.
    pub fn log(&mut self, parts: &[LinePart<'_>])
        ensures { Logs W.contents W.does self.old (parts_text parts.now) self.new }
    {
        self.sink.log(parts);
    }
}
