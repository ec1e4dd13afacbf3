// Calls that read, write and log.
ghost use Rattle.std.specs.Prelude.{ℕ, List, length, Option, None};
ghost use Rattle.std.specs.Io.{ReadsAtMost, WritesAtMost};
ghost use Rattle.std.specs.Io.KnownBytes.{Keeps, ReadConsumes, WriteAppends};
ghost use Rattle.bay_io.specs.Calls.{Log, ReadCall, WriteCall, sink_flush, parts_text, source_read, sink_write};

use std::io;
use std::io::{Read, Write};

/// A source of octets.
///
/// Its meaning is the relation `does old call new`: this call, with its result, may have led from
/// the old state to the new one. A source in memory defines the relation. For any other source
/// nothing is known: the default holds of every call. Code that is proved for every source makes
/// only the calls that its contract states.
pub trait OctetSource {
    ghost remaining: { Self → Option (List ℕ) } = { λ _. None };

    ghost does: { Self → ReadCall → Self → Type 0 } = { λ _ _ _. Unit {0} };

    /// Reads at most as many octets as fit in `room`, and returns their number. A result of 0 means
    /// the end, if `room` is not empty.
    fn read_octets(&mut self, room: &mut [u8]) -> io::Result<usize>
        ensures bound { ReadsAtMost result room.new }
        ensures bytes { ReadConsumes (remaining self.old) (remaining self.new) result room.new }
        ensures call { does self.old (source_read (length room.old) result room.new) self.new };
}

/// A part of a line of the log.
#[derive(Clone, Copy, Debug)]
pub enum LinePart<'a> {
    Text(&'a [u8]),
    /// A number, in decimal digits.
    Number(u64),
    /// A moment in milliseconds since 1970, as `YYYY-MM-DDThh:mm:ss.mmmZ` (ISO 8601, in UTC).
    Moment(u64),
}

/// A sink for octets, with a meaning like that of an `OctetSource`. It may have a log beside the
/// octets.
pub trait Sink {
    ghost contents: { Self → Option (List ℕ) } = { λ _. None };

    ghost does: { Self → WriteCall → Self → Type 0 } = { λ _ _ _. Unit {0} };

    /// Writes a prefix of the octets and returns its length. A result of 0 means that the sink
    /// accepts nothing now.
    fn write_octets(&mut self, octets: &[u8]) -> io::Result<usize>
        ensures bound { WritesAtMost result octets.now }
        ensures bytes { WriteAppends (contents self.old) (contents self.new) result octets.now }
        ensures call { does self.old (sink_write octets.now result) self.new };

    /// Flushes the octets written before.
    fn flush_octets(&mut self) -> io::Result<()>
        ensures bytes { Keeps (contents self.old) (contents self.new) }
        ensures call { does self.old (sink_flush result) self.new };

    /// Logs the line of these parts, the last of which ends with LF. A failure of the log is not
    /// reported.
    fn log_line(&mut self, parts: &[LinePart<'_>])
        ensures bytes { Keeps (contents self.old) (contents self.new) }
        ensures call { does self.old (Log (parts_text parts.now)) self.new };
}

impl<R: Read> OctetSource for R {
    ghost remaining = { λ r. R.remaining r };

    fn read_octets(&mut self, room: &mut [u8]) -> io::Result<usize> {
        self.read(room)
    }
}

impl<W: Write> Sink for W {
    ghost contents = { λ w. W.contents w };

    fn write_octets(&mut self, octets: &[u8]) -> io::Result<usize> {
        self.write(octets)
    }

    fn flush_octets(&mut self) -> io::Result<()> {
        self.flush()
    }

    // A writer of std has no log.
    fn log_line(&mut self, _parts: &[LinePart<'_>]) {}
}
