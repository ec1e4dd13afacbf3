// Reads a scenario, replays it, and writes its report.
ghost use Rattle.std.specs.Prelude.{◌≡◌, ◌+◌, ◌≤◌, length, is_none};
ghost use Rattle.cmd_replay.specs.Answering.{FinishesLogs, is_unreadable};
ghost use Rattle.cmd_replay.specs.Replay.{DeviceReport, PartsLoadReport, ScenarioReport, ReplayReport, Replays, ReplaysReads, last_log};
ghost use Rattle.bay_report.specs.LogLines.{PrintsLogs};
ghost use Rattle.cmd_replay.specs.Scenario.{scenario_limit};
ghost use Rattle.bay_report.specs.TextLines.{lines_of};
ghost use Rattle.cmd_replay.specs.ScenarioView.{scenario_view};
ghost use Rattle.bay_trace.specs.Trace.{trace_line_of};

use crate::answer::{ReplayEnd, replay_line};
use crate::scenario::{Scenario, split_scenario};
use bay_device::device::Device;
use bay_device::load::load_device;
use bay_io::calls::{LinePart, OctetSource, Sink};
use bay_io::input::read_all;
pub use bay_io::outbox::WriteFault;
use bay_io::reader::WatchedReader;
use bay_io::writer::WatchedWriter;
use bay_load::load::Form;
use bay_report::log::{log_unreadable, report_load_refusal, report_unread, write_and_log};
use bay_report::output::{Status, finish};
use bay_report::report::put_report;
use bay_report::text_lines::split_line;
use bay_trace::octets::LineOctets;
use std::alloc::Global;

// The maximum number of octets in a scenario.
const SCENARIO_LIMIT: usize = 16_777_216;

// Flushes the report at the line with this number, at which the replay ends, and logs the line if
// it is not valid.
fn end_replay<W: Sink>(
    writer: &mut WatchedWriter<W>,
    number: usize,
    line: &[u8],
    end: ReplayEnd,
) -> Result<u8, WriteFault>
    requires { is_unreadable end ≡ is_none (trace_line_of line.now) }
    ensures { FinishesLogs W.contents W.does 3 (last_log number line.now) writer.old writer.new
        result }
{
    let status = finish(writer, Status::Fault)?;
    match end {
        ReplayEnd::Unreadable => log_unreadable(writer, number, line),
        ReplayEnd::OutOfMemory => {}
    }
    Ok(status)
}

// Writes the line of a device's load and replays a trace on it line by line, writing the report as
// it goes.
fn replay_device<W: Sink>(
    alloc: Global,
    device: &mut Device,
    trace: &[u8],
    writer: &mut WatchedWriter<W>,
) -> Result<u8, WriteFault>
    requires { length trace.now ≤ scenario_limit }
    ensures { PrintsLogs W.contents W.does (DeviceReport device.old (lines_of trace.now)) writer.old
        writer.new
        result }
{
    put_report(writer, device.report());
    let mut octets = LineOctets::new(alloc);
    let mut rest = trace;
    let mut number = 1usize;
    while !rest.is_empty() {
        let (line, after) = split_line(rest);
        match replay_line(writer, device, &mut octets, number, line) {
            Some(end) => return end_replay(writer, number, line, end),
            None => {}
        }
        if writer.has_failed() {
            return Err(WriteFault);
        }
        number += 1;
        rest = after;
    }
    finish(writer, Status::Clean)
}

// Loads the parts of a scenario and replays the trace.
fn replay_parts<W: Sink>(
    alloc: Global,
    scenario: Scenario<'_>,
    writer: &mut WatchedWriter<W>,
) -> Result<u8, WriteFault>
    requires { length scenario.trace.now ≤ scenario_limit }
    ensures { PrintsLogs W.contents W.does (PartsLoadReport (scenario_view scenario.entry))
        writer.old
        writer.new
        result }
{
    match load_device(alloc, scenario.bay, Form::Logic, scenario.logic) {
        Ok(mut device) => replay_device(alloc, &mut device, scenario.trace, writer),
        Err(error) => report_load_refusal(writer, error),
    }
}

// Replays a scenario from memory.
fn replay_scenario<W: Sink>(
    alloc: Global,
    text: &[u8],
    writer: &mut WatchedWriter<W>,
) -> Result<u8, WriteFault>
    requires { length text.now ≤ scenario_limit }
    ensures { PrintsLogs W.contents W.does (ScenarioReport text.now) writer.old writer.new result }
{
    match split_scenario(text) {
        Some(scenario) => replay_parts(alloc, scenario, writer),
        None => write_and_log(
            writer,
            b"fault 120 line 0\n",
            Status::Fault,
            &[LinePart::Text(b"bayctl: fault 120 line 0: a line %% is missing\n")],
        ),
    }
}

/// Reads a scenario from a reader, and writes its report to a writer. Returns the exit status: 0, 1
/// if the load is refused, or 3 for a fault: a failed read, more than 16,777,216 octets, a line
/// `%%` that is missing, a line of the trace that is not valid, or out of memory outside the load.
/// Logs the refusal or the fault, unless memory ran out.
///
/// Fails if a write or a flush fails. A reader or a writer that has already failed is not called.
pub fn replay_reader<R: OctetSource, W: Sink>(
    alloc: Global,
    reader: &mut WatchedReader<R>,
    writer: &mut WatchedWriter<W>,
) -> Result<u8, WriteFault>
    // Either a whole text of the report was written and flushed, and the status is the report's; or
    // a write or a flush has failed, and a prefix of such a text was written. After a whole text
    // the line that goes with it is logged, if there is one.
    ensures printed { PrintsLogs W.contents W.does
        (ReplayReport (R.remaining reader.old.inner) reader.new.has_failed) writer.old writer.new
        result }
    // The scenario is what these reads of the reader returned.
    ensures given { ReplaysReads R.does W.contents W.does reader.old reader.new writer.old
        writer.new result }
{
    match read_all(alloc, reader, SCENARIO_LIMIT) {
        Ok(input) => replay_scenario(alloc, input.as_slice(), writer),
        Err(fault) => report_unread(writer, "standard input", fault),
    }
}

/// Reads a scenario from any source and writes its report to any sink, and consumes both. The
/// contract states their calls and the results of these in terms of their own meaning.
pub fn replay_run<R: OctetSource + Drop, W: Sink + Drop>(
    alloc: Global,
    reader: R,
    writer: W,
) -> Result<u8, WriteFault>
    ensures { Replays R.does W.contents W.does reader writer result }
{
    let mut reader = WatchedReader::new(reader);
    let mut writer = WatchedWriter::new(writer);
    replay_reader(alloc, &mut reader, &mut writer)
}
