// The lines of a trace, one after another.
ghost use Rattle.std.specs.Prelude.{◌≡◌, drop, slice_get};
ghost use Rattle.bay_report.specs.TextLines.{lines_of};
ghost use Rattle.bay_server.specs.ServeReport.{line_view, numbered_lines};

use bay_report::text_lines::split_line;
use std::marker::Model;

/// The lines of a trace that are not empty, in order, each with its number among all lines.
#[derive(Drop)]
pub struct TraceLines<'a> {
    rest: &'a [u8],
    number: usize,
}

impl<'a> Model for TraceLines<'a> {
    ghost use Rattle.std.specs.Prelude.{ℕ, List, ◌+◌, ◌^◌, ◌<◌, length};
    ghost use Rattle.bay_report.specs.TextLines.{lines_of};
    ghost use Rattle.bay_server.specs.ServeReport.{numbered_lines};

    ghost Value = { List (ℕ × List ℕ) };

    ghost view = { λ t. numbered_lines t.number (lines_of t.rest.now) };

    ghost invariant = { λ t. t.number + length t.rest.now < 2 ^ 64 };
}

impl<'a> TraceLines<'a> {
    /// Creates the lines of a trace, numbered from 1.
    pub fn new(trace: &'a [u8]) -> Self
        ensures { result ≡ numbered_lines 1 (lines_of trace.entry.now) }
    {
        TraceLines {
            rest: trace,
            number: 1,
        }
    }

    /// Returns the next line with its number; `None` after the last.
    pub fn next_line(&mut self) -> Option<(usize, &'a [u8])>
        ensures first { line_view result ≡ slice_get self.old 0 }
        ensures others { self.new ≡ drop 1 self.old }
    {
        while !self.rest.is_empty() {
            let (line, after) = split_line(self.rest);
            let number = self.number;
            self.rest = after;
            self.number += 1;
            if !line.is_empty() {
                return Some((number, line));
            }
        }
        None
    }
}
