// Logs a fault: one line, in the form `bayctl: FAULT: WHAT`.
ghost use Rattle.std.specs.Prelude.{◌≡◌, None, Some, codes};
ghost use Rattle.bay_io.specs.Calls.{parts_text};
ghost use Rattle.bay_io.specs.Sent.{Logs};
ghost use Rattle.bay_report.specs.LogLines.{IsLoggedOutput, LogsIfAny, PrintsLogs, RefusalReport, UnreadReport, load_refusal_log, unreadable_line, unwritten_line};
ghost use Rattle.bay_report.specs.Report.{code_of};
ghost use Rattle.bay_report.specs.LogLines as spec;

use crate::output::{NO_MEMORY, Status, write_refusal, write_text};
use bay_io::calls::{LinePart, Sink};
use bay_io::input::ReadFault;
use bay_io::outbox::WriteFault;
use bay_io::writer::WatchedWriter;
use bay_lines::escaped::EscapedText;
use bay_load::error::LoadError;
use std::io::ErrorKind;

// Returns why the system can't read a file, in words.
fn read_error_words(kind: ErrorKind) -> &'static [u8]
    ensures { result.now ≡ spec.read_error_words kind }
{
    match kind {
        ErrorKind::NotFound => b"there is no such file",
        ErrorKind::PermissionDenied => b"permission denied",
        ErrorKind::IsADirectory => b"it is a folder",
        ErrorKind::NotADirectory => b"a part of its name is no folder",
        ErrorKind::FilesystemLoop => b"too many links",
        ErrorKind::InvalidFilename => b"its name is too long",
        _ => b"the system can't read it",
    }
}

// Logs why a load is refused; nothing if memory ran out.
fn log_refusal<W: Sink>(writer: &mut WatchedWriter<W>, error: LoadError)
    ensures { LogsIfAny W.contents W.does writer.old (load_refusal_log error) writer.new }
{
    let Some(code) = error.code() else {
        return;
    };
    let line = error.line();
    let number = LinePart::Number(u64::from(code));
    let words = LinePart::Text(error.words().as_bytes());
    if line == 0 {
        let colon = LinePart::Text(b": ");
        writer.log(&[
            LinePart::Text(b"bayctl: load refused "),
            number,
            colon,
            words,
            LinePart::Text(b"\n"),
        ]);
    } else {
        writer.log(&[
            LinePart::Text(b"bayctl: load refused "),
            number,
            LinePart::Text(b" line "),
            LinePart::Number(line as u64),
            LinePart::Text(b": "),
            words,
            LinePart::Text(b"\n"),
        ]);
    }
}

// Returns why the system can't write a file, in words.
fn write_error_words(kind: ErrorKind) -> &'static [u8]
    ensures { result.now ≡ spec.write_error_words kind }
{
    match kind {
        ErrorKind::AlreadyExists => b"it exists already, so name a new file",
        ErrorKind::NotFound => b"there is no such folder",
        ErrorKind::PermissionDenied
        | ErrorKind::IsADirectory
        | ErrorKind::NotADirectory
        | ErrorKind::FilesystemLoop
        | ErrorKind::InvalidFilename => read_error_words(kind),
        ErrorKind::StorageFull => b"no space is left",
        ErrorKind::ReadOnlyFilesystem => b"its file system is read-only",
        _ => b"it can't be written",
    }
}

/// Logs that the file with this name can't be written, and why.
pub fn log_unwritten<W: Sink>(writer: &mut WatchedWriter<W>, name: &str, kind: ErrorKind)
    ensures { Logs W.contents W.does writer.old (unwritten_line name.now kind) writer.new }
{
    writer.log(&[
        LinePart::Text(b"bayctl: fault 122: "),
        LinePart::Text(name.as_bytes()),
        LinePart::Text(b": "),
        LinePart::Text(write_error_words(kind)),
        LinePart::Text(b"\n"),
    ]);
}

/// Logs a line of a trace that is not valid, escaped, with its number.
pub fn log_unreadable<W: Sink>(writer: &mut WatchedWriter<W>, number: usize, line: &[u8])
    ensures { Logs W.contents W.does writer.old (unreadable_line number line.now) writer.new }
{
    let line = EscapedText::new(line);
    writer.log(&[
        LinePart::Text(b"bayctl: fault 120 line "),
        LinePart::Number(number as u64),
        LinePart::Text(b": "),
        LinePart::Text(line.as_slice()),
        LinePart::Text(b"\n"),
    ]);
}

/// Writes a text as the whole output, then logs the line of these parts. Returns the number of the
/// status. Fails if a write or a flush fails or failed before; then it logs nothing.
pub fn write_and_log<W: Sink>(
    writer: &mut WatchedWriter<W>,
    text: &[u8],
    status: Status,
    parts: &[LinePart<'_>],
) -> Result<u8, WriteFault>
    ensures { PrintsLogs W.contents W.does (IsLoggedOutput (Some (parts_text parts.now)) text.now
        (code_of status))
        writer.old writer.new result }
{
    let status = write_text(writer, text, status)?;
    writer.log(parts);
    Ok(status)
}

/// Writes `fault memory` as the whole output, and returns the status 3. Fails if a write or a flush
/// fails or failed before.
pub fn write_out_of_memory<W: Sink>(writer: &mut WatchedWriter<W>) -> Result<u8, WriteFault>
    ensures { PrintsLogs W.contents W.does (IsLoggedOutput None (codes "fault memory\n") 3)
        writer.old
        writer.new result }
{
    write_text(writer, NO_MEMORY, Status::Fault)
}

/// Writes the fault of a file that can't be read as the whole output: `fault memory` if memory ran
/// out, otherwise `fault 121`, and then logs why, with the file's name. Returns the status 3. Fails
/// if a write or a flush fails or failed before.
pub fn report_unread<W: Sink>(
    writer: &mut WatchedWriter<W>,
    name: &str,
    fault: ReadFault,
) -> Result<u8, WriteFault>
    ensures { PrintsLogs W.contents W.does (UnreadReport name.now fault) writer.old writer.new
        result }
{
    let start = LinePart::Text(b"bayctl: fault 121: ");
    let what = LinePart::Text(name.as_bytes());
    match fault {
        ReadFault::OutOfMemory => write_out_of_memory(writer),
        ReadFault::TooLong => {
            let why = LinePart::Text(b": it is longer than 16,777,216 bytes\n");
            write_and_log(writer, b"fault 121\n", Status::Fault, &[start, what, why])
        }
        ReadFault::Failed(kind) => {
            let why = LinePart::Text(read_error_words(kind));
            let parts = [
                start,
                what,
                LinePart::Text(b": "),
                why,
                LinePart::Text(b"\n"),
            ];
            write_and_log(writer, b"fault 121\n", Status::Fault, &parts)
        }
    }
}

/// Writes the line of a refused load as the whole output, then logs why it is refused, unless
/// memory ran out. Returns the status 1. Fails if a write or a flush fails or failed before.
pub fn report_load_refusal<W: Sink>(
    writer: &mut WatchedWriter<W>,
    error: LoadError,
) -> Result<u8, WriteFault>
    ensures { PrintsLogs W.contents W.does (RefusalReport error) writer.old writer.new result }
{
    let status = write_refusal(writer, error)?;
    log_refusal(writer, error);
    Ok(status)
}
