// The line that is printed for a load.
ghost use Rattle.std.specs.Prelude.{◌≡◌, ◌++◌, codes};
ghost use Rattle.std.specs.Fmt.{decimal};
ghost use Rattle.bay_io.specs.Sent.{Puts};
ghost use Rattle.bay_report.specs.Report.{load_refusal_text};
ghost use Rattle.bay_report.specs.Report as spec;

use bay_io::calls::Sink;
use bay_io::writer::WatchedWriter;
use bay_load::error::LoadError;
use bay_load::report::Report;

// Writes a number at the end of its line.
fn put_last_number<W: Sink>(writer: &mut WatchedWriter<W>, number: u64)
    ensures { Puts W.contents W.does writer.old (decimal number ++ codes "\n") writer.new }
{
    writer.put_number(number);
    writer.put(b"\n");
}

// Writes the line of a refusal at a line of the program.
fn put_line_refusal<W: Sink>(writer: &mut WatchedWriter<W>, code: u8, line: usize)
    ensures { Puts W.contents W.does writer.old
        (codes "load refused " ++ decimal code ++ codes " line "
        ++ (decimal line ++ codes "\n")) writer.new }
{
    writer.put(b"load refused ");
    writer.put_number(u64::from(code));
    writer.put(b" line ");
    put_last_number(writer, line as u64);
}

// Writes the line of a refusal, given its number and the line of the program, 0 if there is none.
fn put_numbered_refusal<W: Sink>(writer: &mut WatchedWriter<W>, code: u8, line: usize)
    ensures { Puts W.contents W.does writer.old (spec.numbered_refusal code line) writer.new }
{
    if line != 0 {
        return put_line_refusal(writer, code, line);
    }
    writer.put(b"load refused ");
    put_last_number(writer, u64::from(code));
}

/// Writes the line of a refused load.
pub fn put_load_refusal<W: Sink>(writer: &mut WatchedWriter<W>, error: LoadError)
    ensures { Puts W.contents W.does writer.old (load_refusal_text error) writer.new }
{
    match error.code() {
        None => writer.put(b"load refused memory\n"),
        Some(code) => put_numbered_refusal(writer, code, error.line()),
    }
}

/// Writes the line of a load: the number of the program's instructions, the maximum number of
/// values on its stack, and the maximum number of instructions that a scan executes.
pub fn put_report<W: Sink>(writer: &mut WatchedWriter<W>, report: Report)
    ensures { Puts W.contents W.does writer.old (spec.report_text report) writer.new }
{
    writer.put(b"instructions=");
    writer.put_number(u64::from(report.instructions));
    writer.put(b" depth=");
    writer.put_number(u64::from(report.depth));
    writer.put(b" budget=");
    put_last_number(writer, u64::from(report.budget));
}
