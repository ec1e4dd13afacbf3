// Lines that wait to be logged.
ghost use Rattle.std.specs.Prelude.{◌≡◌, ◌≤◌, ◌++◌, [], is_ok, length, if◌then◌else◌};
ghost use Rattle.bay_io.specs.Calls.{part_text, parts_text};
ghost use Rattle.bay_io.specs.Sent.{fits_buffer};
ghost use Rattle.bay_stdio.specs.Log.{AppendsIfFits, notice, with_line};
ghost use Rattle.bay_stdio.specs.Offers.{OffersQueue};

use crate::offer::{WriteProgress, write_available};
use bay_io::calls::{LinePart, Sink};
use bay_io::moments::utc_text;
use bay_io::outbox::Outbox;
use std::io;
use std::marker::Model;

/// Lines of together at most 65,536 octets, and the number of lines lost since the last one that
/// fitted.
#[derive(Drop)]
pub struct Log {
    waiting: Outbox,
    lost: u64,
}

impl Model for Log {
    ghost use Rattle.bay_stdio.specs.Log.{LogData};

    ghost Value = { LogData };

    ghost view = { λ log. record { waiting = log.waiting; lost = log.lost } };
}

// Appends a part of a line if it fits. Returns whether it fitted.
fn append_part(waiting: &mut Outbox, part: LinePart<'_>) -> bool
    ensures fits { result ≡ fits_buffer waiting.old (part_text part.entry) }
    ensures after { waiting.new
        ≡ (if result then waiting.old ++ part_text part.entry else waiting.old) }
{
    match part {
        LinePart::Text(text) => waiting.keep(text),
        LinePart::Number(number) => waiting.append_number(number),
        LinePart::Moment(moment) => waiting.keep(utc_text(moment).as_slice()),
    }
}

// Appends the parts of a line up to the first that does not fit. Returns whether all fitted.
fn append_parts(waiting: &mut Outbox, parts: &[LinePart<'_>]) -> bool
    requires { length waiting.old ≤ 65536 }
    ensures { AppendsIfFits waiting.old (parts_text parts.now) waiting.new result }
{
    for part in parts {
        if !append_part(waiting, *part) {
            return false;
        }
    }
    true
}

impl Log {
    /// Creates an empty log.
    pub fn new() -> Self
        ensures { result ≡ record { waiting = []; lost = 0 } }
    {
        Log {
            waiting: Outbox::new(),
            lost: 0,
        }
    }

    // Appends the line with the number of lost lines, if any were lost. Returns whether it fitted.
    fn append_notice(&mut self) -> bool
        requires { length self.old.waiting ≤ 65536 }
        ensures notice { AppendsIfFits self.old.waiting (notice self.old.lost) self.new.waiting
            result }
        ensures lost { self.new.lost ≡ self.old.lost }
    {
        if self.lost == 0 {
            return true;
        }
        let parts = [
            LinePart::Number(self.lost),
            LinePart::Text(b" lines of the log were lost\n"),
        ];
        append_parts(&mut self.waiting, &parts)
    }

    /// Appends the line of these parts, after a line with the number of lost lines, if any were
    /// lost. If the two don't fit, appends nothing and counts this line as lost.
    pub fn put(&mut self, parts: &[LinePart<'_>])
        ensures { self.new ≡ with_line (parts_text parts.now) self.old }
    {
        let before = self.waiting.as_slice().len();
        if self.append_notice() && append_parts(&mut self.waiting, parts) {
            self.lost = 0;
        } else {
            self.waiting.truncate(before);
            self.lost = self.lost.saturating_add(1);
        }
    }

    /// Writes the waiting lines in order, as far as the sink accepts them. Fails if a write fails;
    /// the octets accepted before it are removed.
    pub fn send<S: Sink>(&mut self, sink: &mut S) -> io::Result<()>
        ensures sends { OffersQueue S.contents S.does self.old.waiting sink.old self.new.waiting
            sink.new (is_ok result) }
        ensures lost { self.new.lost ≡ self.old.lost }
    {
        let WriteProgress { taken, failed } = write_available(sink, self.waiting.as_slice());
        self.waiting.remove_first(taken);
        match failed {
            Some(error) => Err(error),
            None => Ok(()),
        }
    }
}
