// Judges the releases of a bay's switches by a diagram, and writes the line of each as soon as it
// is known.
ghost use Rattle.std.specs.Prelude.{◌≡◌, [], codes, MatchResult};
ghost use Rattle.cmd_audit.specs.Auditing.{Judgements, status_of};
ghost use Rattle.cmd_audit.specs.Written.{PutsFirstJudged, PutsJudged, PutsText};

use crate::hazard_text::put_hazard_line;
use crate::judged::{budget_of, is_safe, judge_release, ways_of};
use crate::stopped::Stopped;
use crate::written::{both, write_now};
use bay_audit::effort::PassBudget;
use bay_audit::program::AuditedProgram;
use bay_base::switch::Operation;
use bay_config::bay::Bay;
use bay_diagram_file::diagram::Diagram;
use bay_io::calls::Sink;
use bay_io::writer::WatchedWriter;
use bay_load::loaded::Loaded;
use std::alloc::Global;

// Judges these releases, and writes the line of each when it is known. Returns whether each of them
// holds.
fn write_judged<W: Sink>(
    alloc: Global,
    writer: &mut WatchedWriter<W>,
    bay: &Bay,
    diagram: &Diagram,
    program: &AuditedProgram<'_>,
    ways: &[(usize, Operation)],
    budget: &mut PassBudget,
) -> Result<bool, Stopped>
    ensures { MatchResult result
        (λ passed. PutsJudged W.contents W.does bay.now diagram.now program.now ways.now passed
        writer.old writer.new)
        (λ _. PutsFirstJudged W.contents W.does bay.now diagram.now program.now ways.now writer.old
        writer.new) }
{
    let mut passed = true;
    for way in ways {
        let judged = judge_release(alloc, bay, program, &diagram.network, *way, budget)?;
        let mut text = Vec::new(alloc);
        put_hazard_line(&mut text, bay, diagram, &judged)?;
        write_now(writer, text.as_slice())?;
        passed = both(passed, is_safe(&judged));
    }
    Ok(passed)
}

/// Judges the releases of a bay's switches by a diagram, with an effort in millions of octets of
/// code, and writes the line of each as soon as it is known. Returns whether each of them holds.
/// Stops if an allocation or a write fails.
pub(crate) fn write_judgements<W: Sink>(
    alloc: Global,
    writer: &mut WatchedWriter<W>,
    loaded: &Loaded,
    diagram: &Diagram,
    effort: u32,
) -> Result<bool, Stopped>
    ensures { MatchResult result
        (λ passed. PutsText W.contents W.does (Judgements loaded.now diagram.now) []
        (status_of passed) writer.old writer.new)
        (λ _. PutsText W.contents W.does (Judgements loaded.now diagram.now)
        (codes "fault memory\n") 3 writer.old writer.new) }
{
    let bay = loaded.bay();
    let program = AuditedProgram::new(alloc, bay, loaded.verified())?;
    let ways = ways_of(alloc, bay)?;
    let ways = ways.as_slice();
    let mut budget = budget_of(loaded, effort, ways.len());
    write_judged(alloc, writer, bay, diagram, &program, ways, &mut budget)
}
