// Whether each release of a loaded program is harmless in a single line diagram.
ghost use Rattle.std.specs.Prelude.{◌≡◌, ◌≢◌, IfOk};
ghost use Rattle.bay_diagram_file.specs.Code.{out_of_memory};
ghost use Rattle.bay_report.specs.LogLines.{PrintsLogs};
ghost use Rattle.cmd_audit.specs.HazardText.{unsafe_lines};
ghost use Rattle.cmd_audit.specs.JudgingDiagram.{DiagramVerdictReport, IsDiagramVerdictOn, JudgesDiagram, JudgesDiagramText};

use crate::hazard_text::put_unsafe;
use crate::judged::{JudgedRelease, are_safe, budget_of, judge_releases, ways_of};
use crate::refusal::{Refusal, write_refusal};
use bay_audit::effort::EFFORT;
use bay_audit::program::AuditedProgram;
use bay_config::bay::Bay;
use bay_diagram_file::diagram::Diagram;
use bay_diagram_file::fault::DiagramFault;
use bay_diagram_file::read::diagram_in;
use bay_io::calls::Sink;
use bay_io::outbox::WriteFault;
use bay_io::writer::WatchedWriter;
use bay_load::loaded::Loaded;
use bay_report::log::write_out_of_memory;
use bay_report::output::{Status, finish, write_text};
use std::alloc::{AllocError, Global};

/// The verdict on the diagram of a text for a loaded program.
#[derive(Drop)]
pub enum DiagramVerdict {
    /// Each release holds: while it is a hazard, the program does not release the switch. This is
    /// the number of releases.
    Hold(usize),
    /// A release does not hold. The text has the lines of an audit for each such release.
    Unproved(Vec<u8>),
    /// The text has this fault.
    Refused(DiagramFault),
    /// An allocation failed.
    OutOfMemory,
}

// Returns the lines of the releases that do not hold.
fn lines_of(
    alloc: Global,
    bay: &Bay,
    diagram: &Diagram,
    releases: &[JudgedRelease],
) -> Result<Vec<u8>, AllocError>
    ensures { IfOk result
        (λ text. text.items ≡ unsafe_lines bay.now diagram.now releases.now) }
{
    let mut text = Vec::new(alloc);
    for release in releases {
        put_unsafe(&mut text, bay, diagram, release)?;
    }
    Ok(text)
}

// Judges the releases of a program by a diagram, and returns the verdict on them.
fn verdict_on(
    alloc: Global,
    loaded: &Loaded,
    diagram: &Diagram,
) -> Result<DiagramVerdict, AllocError>
    ensures { IfOk result (λ verdict. JudgesDiagram loaded.now diagram.now verdict) }
{
    let bay = loaded.bay();
    let program = AuditedProgram::new(alloc, bay, loaded.verified())?;
    let ways = ways_of(alloc, bay)?;
    let ways = ways.as_slice();
    let mut budget = budget_of(loaded, EFFORT, ways.len());
    let releases = judge_releases(alloc, bay, &program, &diagram.network, ways, &mut budget)?;
    if are_safe(releases.as_slice()) {
        return Ok(DiagramVerdict::Hold(releases.len()));
    }
    let text = lines_of(alloc, bay, diagram, releases.as_slice())?;
    Ok(DiagramVerdict::Unproved(text))
}

// Returns the verdict on a text with this fault. Fails if memory ran out.
fn refused_verdict(fault: DiagramFault) -> Result<DiagramVerdict, AllocError>
    ensures { IfOk result
        (λ verdict. (verdict ≡ DiagramVerdict.Refused fault) × (fault ≢ out_of_memory)) }
{
    match fault.kind.code() {
        Some(_) => Ok(DiagramVerdict::Refused(fault)),
        None => Err(AllocError),
    }
}

// Reads the text of a diagram file, and returns the verdict on it.
fn verdict_on_text(
    alloc: Global,
    loaded: &Loaded,
    diagram: &[u8],
) -> Result<DiagramVerdict, AllocError>
    ensures { IfOk result (λ verdict. JudgesDiagramText loaded.now diagram.now verdict) }
{
    match diagram_in(alloc, loaded.bay(), diagram) {
        Ok(diagram) => verdict_on(alloc, loaded, &diagram),
        Err(fault) => refused_verdict(fault),
    }
}

/// Returns the verdict on the text of a diagram file for the bay and the program that were loaded.
pub fn judge_diagram(alloc: Global, loaded: &Loaded, diagram: &[u8]) -> DiagramVerdict
    ensures { IsDiagramVerdictOn loaded.now diagram.now result }
{
    match verdict_on_text(alloc, loaded, diagram) {
        Ok(verdict) => verdict,
        Err(AllocError) => DiagramVerdict::OutOfMemory,
    }
}

// Writes the number of the releases that hold.
fn write_count<W: Sink>(writer: &mut WatchedWriter<W>, count: usize) -> Result<u8, WriteFault>
    ensures { PrintsLogs W.contents W.does (DiagramVerdictReport (DiagramVerdict.Hold count))
        writer.old writer.new result }
{
    writer.put(b"diagram ");
    writer.put_number(count as u64);
    writer.put(b"\n");
    finish(writer, Status::Clean)
}

/// Writes and flushes what is printed of a verdict: `diagram COUNT`, the lines of the releases that
/// do not hold, the line of the text's fault, which is then logged, or `fault memory`. Returns the
/// status: 0 if each release holds, 4 if one does not, 1 if the text is refused, and 3 if memory
/// ran out. Fails if a write or a flush fails or failed before.
pub fn write_diagram_verdict<W: Sink>(
    writer: &mut WatchedWriter<W>,
    verdict: &DiagramVerdict,
) -> Result<u8, WriteFault>
    ensures { PrintsLogs W.contents W.does (DiagramVerdictReport verdict.now) writer.old writer.new
        result }
{
    match verdict {
        DiagramVerdict::Hold(count) => write_count(writer, *count),
        DiagramVerdict::Unproved(text) => write_text(writer, text.as_slice(), Status::Unproved),
        DiagramVerdict::Refused(fault) => write_refusal(writer, Refusal::DiagramFile(*fault)),
        DiagramVerdict::OutOfMemory => write_out_of_memory(writer),
    }
}
