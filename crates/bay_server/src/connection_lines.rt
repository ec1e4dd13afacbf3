// Counts the log lines of clients' connections that come and go, so that no client can fill a log
// by connecting again and again.
ghost use Rattle.std.specs.Prelude.{◌≡◌, ◌-◌, take};
ghost use Rattle.bay_server.specs.Logging.{LogsAll};
ghost use Rattle.bay_server.specs.ConnectionLines.{count_after, count_at, count_at_closings, count_at_memory, left_out_log, no_lines, opened_lines, with_lines};
ghost use Rattle.bay_server.specs.ConnectionLines as spec;

use bay_io::calls::{LinePart, Sink};
use bay_io::writer::WatchedWriter;
use bay_server_turn::turn_report::Turn;
use std::net::SocketAddrV4;

// How many lines are written in a second.
const MOST: u64 = 10;

// The number of milliseconds in a second.
const SECOND: u64 = 1_000;

/// How many log lines of clients' connections have come in a second of the log's clock, whether
/// written or not. The first ten in a second are written.
#[derive(Clone, Copy)]
pub struct LineCount {
    second: u64,
    lines: u64,
}

impl LineCount {
    /// Returns the count of a server that starts.
    pub fn new() -> Self
        ensures { result ≡ no_lines }
    {
        LineCount {
            second: 0,
            lines: 0,
        }
    }

    /// Returns the count at a moment: it begins anew with each second.
    pub fn at(self, moment: u64) -> Self
        ensures { result ≡ count_at moment self }
    {
        let second = moment / SECOND;
        if second == self.second {
            self
        } else {
            LineCount { second, lines: 0 }
        }
    }

    // Returns the count after this number of lines.
    fn with(self, lines: usize) -> Self
        ensures { result ≡ with_lines lines self }
    {
        LineCount {
            second: self.second,
            lines: self.lines.saturating_add(lines as u64),
        }
    }

    /// Returns how many more lines of this second are written.
    pub fn room(self) -> usize
        ensures { result ≡ 10 - self.lines }
    {
        MOST.saturating_sub(self.lines) as usize
    }

    /// Returns the count at a moment, before the lines of a turn's closed associations.
    pub fn at_closings(self, moment: u64, turn: &Turn) -> Self
        ensures { result ≡ count_at_closings moment turn.now self }
    {
        self.at(moment).with(count_opened(turn.opened))
    }

    /// Returns the count at a moment, before the lines of a turn's associations that were closed
    /// because the device was out of memory.
    pub fn at_memory(self, moment: u64, turn: &Turn) -> Self
        ensures { result ≡ count_at_memory moment turn.now self }
    {
        self.at_closings(moment, turn)
            .with(turn.closed.as_slice().len())
    }

    /// Returns the count after a turn at a moment.
    pub fn after(self, moment: u64, turn: &Turn) -> Self
        ensures { result ≡ count_after moment turn.now self }
    {
        self.at_memory(moment, turn)
            .with(turn.memory.as_slice().len())
    }

    // Returns how many lines of the count's second were left out, if this second has passed.
    fn left_out(self, moment: u64) -> u64
        ensures { result ≡ spec.left_out moment self }
    {
        if moment / SECOND == self.second {
            0
        } else {
            self.lines.saturating_sub(MOST)
        }
    }
}

// Returns how many lines an opened association has, if one was opened.
fn count_opened(opened: Option<(u16, SocketAddrV4)>) -> usize
    ensures { result ≡ opened_lines opened }
{
    match opened {
        Some(_) => 1,
        None => 0,
    }
}

/// Logs how many lines were left out in the second of a count, if this second has passed and any
/// were.
pub fn log_left_out<W: Sink>(writer: &mut WatchedWriter<W>, moment: u64, count: LineCount)
    ensures { LogsAll W.contents W.does writer.old
        (left_out_log moment (spec.left_out moment count))
        writer.new }
{
    let lines = count.left_out(moment);
    if lines == 0 {
        return;
    }
    writer.log(&[
        LinePart::Moment(moment),
        LinePart::Text(b" "),
        LinePart::Number(lines),
        LinePart::Text(b" lines of connections left out\n"),
    ]);
}

/// Returns the first items of a list, at most this number.
pub fn take_first<T>(items: &[T], most: usize) -> &[T]
    ensures { result.now ≡ take most items.now }
{
    if most < items.len() {
        &items[..most]
    } else {
        items
    }
}
