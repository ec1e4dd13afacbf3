// Output that is written and flushed as a whole, with the exit status it leads to.
ghost use Rattle.std.specs.Prelude.{◌≡◌, IfOk};
ghost use Rattle.bay_io.specs.Sent.{Finishes};
ghost use Rattle.bay_report.specs.Report.{IsOutput, Prints, code_of, load_refusal_text, report_text};

use crate::report::{put_load_refusal, put_report};
use bay_io::calls::Sink;
use bay_io::outbox::WriteFault;
use bay_io::writer::WatchedWriter;
use bay_load::error::LoadError;
use bay_load::report::Report;

/// The line that is printed when memory runs out, except in a load.
pub const NO_MEMORY: &[u8] = b"fault memory\n";

/// An exit status of the program.
#[derive(Clone, Copy)]
pub enum Status {
    /// No fault.
    Clean,
    /// A load or a text of rules is refused.
    Refused,
    /// The arguments are not a valid command.
    Usage,
    /// A fault in a trace, in reading or in writing, or out of memory outside a load.
    Fault,
    /// A rule of an audit is broken, open, or takes too many passes.
    Unproved,
}

impl Status {
    /// Returns the number of the status: 0 to 4 in the order of the variants.
    pub fn code(self) -> u8
        ensures { result ≡ code_of self }
    {
        match self {
            Status::Clean => 0,
            Status::Refused => 1,
            Status::Usage => 2,
            Status::Fault => 3,
            Status::Unproved => 4,
        }
    }
}

/// Writes and flushes everything that was put, and returns the number of the given status. Fails if
/// a write or a flush fails or failed before.
pub fn finish<W: Sink>(writer: &mut WatchedWriter<W>, status: Status) -> Result<u8, WriteFault>
    ensures finishes { Finishes W.contents W.does writer.old writer.new result }
    ensures status { IfOk result (λ s. s ≡ code_of status) }
{
    writer.finish()?;
    Ok(status.code())
}

/// Writes and flushes a text as the whole output, and returns the number of the given status. Fails
/// if a write or a flush fails or failed before.
pub fn write_text<W: Sink>(
    writer: &mut WatchedWriter<W>,
    text: &[u8],
    status: Status,
) -> Result<u8, WriteFault>
    ensures { Prints W.contents W.does (IsOutput text.now (code_of status)) writer.old writer.new
        result }
{
    writer.put(text);
    finish(writer, status)
}

/// Writes and flushes the line of a refused load, and returns the status 1. Fails if a write or a
/// flush fails or failed before.
pub(crate) fn write_refusal<W: Sink>(
    writer: &mut WatchedWriter<W>,
    error: LoadError,
) -> Result<u8, WriteFault>
    ensures { Prints W.contents W.does (IsOutput (load_refusal_text error) 1) writer.old writer.new
        result }
{
    put_load_refusal(writer, error);
    finish(writer, Status::Refused)
}

/// Writes and flushes the line of a load, and returns the status 0. Fails if a write or a flush
/// fails or failed before.
pub fn write_report<W: Sink>(
    writer: &mut WatchedWriter<W>,
    report: Report,
) -> Result<u8, WriteFault>
    ensures { Prints W.contents W.does (IsOutput (report_text report) 0) writer.old writer.new
        result }
{
    put_report(writer, report);
    finish(writer, Status::Clean)
}
