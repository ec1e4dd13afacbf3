// A reader that records whether a read has failed. Only a read changes the record.
ghost use Rattle.std.specs.Prelude.{◌≡◌, ◌||◌, false, is_err, length};
ghost use Rattle.std.specs.Io.{ReadsAtMost};
ghost use Rattle.std.specs.Io.KnownBytes.{ReadConsumes};
ghost use Rattle.bay_io.specs.Calls.{source_read};

use crate::calls::OctetSource;
use std::io;
use std::marker::Model;

/// A reader that records whether a read has failed.
#[derive(Drop)]
pub struct WatchedReader<R> {
    inner: R,
    has_failed: bool,
}

impl<R> Model for WatchedReader<R> {
    ghost use Rattle.bay_io.specs.Watched.{ReaderState};

    ghost Value = { ReaderState R };

    ghost view = { λ w. record { inner = w.inner; has_failed = w.has_failed } };
}

impl<R> WatchedReader<R> {
    /// Wraps a reader before its first read.
    pub fn new(inner: R) -> Self
        ensures { result ≡ record { inner = inner; has_failed = false } }
    {
        WatchedReader {
            inner,
            has_failed: false,
        }
    }

    /// Returns whether a read has failed.
    pub fn has_failed(&self) -> bool
        ensures { result ≡ self.now.has_failed }
    {
        self.has_failed
    }
}

impl<R: OctetSource> WatchedReader<R> {
    /// Reads once, at most as many octets as fit in `room`, and returns their number. A result of 0
    /// means the end, if `room` is not empty.
    pub fn read(&mut self, room: &mut [u8]) -> io::Result<usize>
        ensures bound { ReadsAtMost result room.new }
        ensures bytes { ReadConsumes (R.remaining self.old.inner) (R.remaining self.new.inner)
            result room.new }
        // The source was read once, with this room and this result.
        ensures call { R.does self.old.inner (source_read (length room.old) result room.new)
            self.new.inner }
        ensures failed { self.new.has_failed ≡ (self.old.has_failed || is_err result) }
    {
        let outcome = self.inner.read_octets(room);
        if outcome.is_err() {
            self.has_failed = true;
        }
        outcome
    }
}
