// Logs the room and the end of a record.
ghost use Rattle.std.specs.Prelude.{◌≡◌};
ghost use Rattle.bay_server.specs.Logging.{LogsAll};
ghost use Rattle.bay_server.specs.RecordLine.{record_log, room_log};
ghost use Rattle.bay_server.specs.RecordLine as spec;

use bay_io::calls::{LinePart, Sink};
use bay_io::writer::WatchedWriter;
use bay_server_turn::record::RecordEnd;

// About how many octets come into a record in a minute without clients.
const IDLE: u32 = 120_000;

// About how many octets come into a record in a minute beside an operator's panel and a station's
// page that read the bay.
const BUSY: u32 = 500_000;

/// Logs how many octets a record has room for, and about how long it lasts, if the session is
/// recorded.
pub fn log_room<W: Sink>(writer: &mut WatchedWriter<W>, moment: u64, record_most: Option<u32>)
    ensures { LogsAll W.contents W.does writer.old (room_log moment record_most) writer.new }
{
    let Some(most) = record_most else {
        return;
    };
    writer.log(&[
        LinePart::Moment(moment),
        LinePart::Text(b" the record has room for "),
        LinePart::Number(u64::from(most)),
        LinePart::Text(b" octets: about "),
        LinePart::Number(u64::from(most / IDLE)),
        LinePart::Text(b" minutes without clients, about "),
        LinePart::Number(u64::from(most / BUSY)),
        LinePart::Text(b" beside a panel and a station's page\n"),
    ]);
}

// Returns why a record ends before its server does, in words.
fn end_words(end: RecordEnd) -> &'static [u8]
    ensures { result.now ≡ spec.end_words end }
{
    match end {
        RecordEnd::Full => b"it is full\n",
        RecordEnd::Overlong => b"a line is too long for it\n",
        RecordEnd::Failed => b"its file can't be written\n",
    }
}

/// Logs why a record has ended, if it has.
pub fn log_record<W: Sink>(writer: &mut WatchedWriter<W>, moment: u64, end: Option<RecordEnd>)
    ensures { LogsAll W.contents W.does writer.old (record_log moment end) writer.new }
{
    let Some(end) = end else {
        return;
    };
    writer.log(&[
        LinePart::Moment(moment),
        LinePart::Text(b" the record has ended: "),
        LinePart::Text(end_words(end)),
    ]);
}
