// Records the device's events in a file, as the lines of a trace.
ghost use Rattle.std.specs.Prelude.{◌≡◌, ◌≤◌, IfOk, length, take};
ghost use Rattle.std.specs.Io.KnownBytes.{Appends};
ghost use Rattle.bay_server_turn.specs.Recorded.{Writes, new_recording, with_event_line};
ghost use Rattle.bay_server_turn.specs.Recorded as spec;

use bay_device::event::Event;
use bay_trace::record_lines::{RecordLines, put_event};
use bay_trace::trace::read_process_line;
use std::alloc::{AllocError, Global};
use std::io::{ErrorKind, Write};
use std::marker::Model;

/// Why a record ends before its server does.
#[derive(Clone, Copy, Debug, PartialEq, Eq)]
pub enum RecordEnd {
    /// The next line is longer than what is left of the size of the record.
    Full,
    /// The buffer has no room for a line, or the event has no line.
    Overlong,
    /// The file can't be written.
    Failed,
}

/// A record of bounded size in a file (or another writer), and the lines that are not yet written
/// to it. Their buffer, and that of a line, are allocated when the record is created. A line is
/// recorded as a whole or not at all, and none after one that is not.
#[derive(Drop)]
pub struct Record<W> {
    writer: W,
    line: RecordLines,
    lines: RecordLines,
    left: usize,
    is_over: bool,
    end: Option<RecordEnd>,
}

impl<W> Model for Record<W> {
    ghost use Rattle.bay_server_turn.specs.Recorded.{RecordState};

    ghost Value = { RecordState W };

    ghost view = { λ r. record {
      writer = r.writer;
      recording = record {
        waiting = r.lines;
        left = r.left;
        is_over = r.is_over;
        end = r.end;
      };
    } };
}

// Returns whether the event has a line in the record.
fn has_line(event: Event<'_>, source_line: &[u8]) -> bool
    ensures { result ≡ spec.has_line source_line.now event.entry }
{
    match event {
        Event::Recv { octets, .. } => !octets.is_empty(),
        Event::Contact { .. }
        | Event::Input { .. }
        | Event::Measure { .. }
        | Event::BadMeasure { .. } => read_process_line(source_line).is_some(),
        Event::Open { .. } | Event::Close { .. } | Event::Lost | Event::Scan => true,
    }
}

// Writes octets until the writer took all, or takes none, or a write fails. A write that a signal
// interrupts is made again. Returns how many octets the writer took.
fn write_prefix<W: Write>(writer: &mut W, octets: &[u8]) -> usize
    ensures within { result ≤ length octets.now }
    ensures bytes { Appends (W.contents writer.old) (W.contents writer.new)
        (take result octets.now) }
{
    let mut taken = 0;
    for _ in 0..=octets.len() {
        if taken == octets.len() {
            return taken;
        }
        match writer.write(&octets[taken..]) {
            Ok(0) => return taken,
            Ok(count) => taken += count,
            Err(error) => {
                if error.kind() != ErrorKind::Interrupted {
                    return taken;
                }
            }
        }
    }
    taken
}

impl<W> Record<W> {
    /// Creates a record of at most `most` octets in an empty file. Fails only if an allocation
    /// fails.
    pub fn new(alloc: Global, writer: W, most: u32) -> Result<Self, AllocError>
    where
        W: Drop,
        ensures { IfOk result
            (λ made. made ≡ record { writer = writer; recording = new_recording most }) }
    {
        Ok(Record {
            writer,
            line: RecordLines::new(alloc)?,
            lines: RecordLines::new(alloc)?,
            left: most as usize,
            is_over: false,
            end: None,
        })
    }

    // Ends the record, for this reason: it records nothing from now on.
    fn finish(&mut self, end: RecordEnd)
        ensures { self.new ≡ record self.old { recording = spec.finished end self.old.recording } }
    {
        self.is_over = true;
        self.end = Some(end);
    }

    /// Records an event at a moment, in milliseconds since 1970; `source_line` is the line it was
    /// read from, if it is one of the process.
    pub(crate) fn put(&mut self, now: u64, event: Event<'_>, source_line: &[u8])
        ensures { self.new ≡ record self.old {
          recording
              = with_event_line now source_line.now event.entry self.old.recording;
        } }
    {
        if self.is_over {
            return;
        }
        self.line.clear();
        if !has_line(event, source_line) || !put_event(&mut self.line, now, event, source_line) {
            self.finish(RecordEnd::Overlong);
            return;
        }
        let line = self.line.as_slice();
        if line.len() > self.left {
            self.finish(RecordEnd::Full);
        } else if self.lines.put(line) {
            self.left -= line.len();
        } else {
            self.finish(RecordEnd::Overlong);
        }
    }
}

impl<W: Write> Record<W> {
    /// Writes the lines that are not yet written. Returns once why the record has ended; otherwise
    /// `None`.
    pub(crate) fn write(&mut self) -> Option<RecordEnd>
        ensures { Writes W.contents self.old self.new result }
    {
        let lines = self.lines.as_slice();
        if write_prefix(&mut self.writer, lines) < lines.len() {
            self.lines.clear();
            self.is_over = true;
            self.end = None;
            return Some(RecordEnd::Failed);
        }
        self.lines.clear();
        self.end.take()
    }
}
