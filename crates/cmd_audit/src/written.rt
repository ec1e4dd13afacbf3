// Answers rules and finds releases, and writes the lines of each as soon as it is known.
ghost use Rattle.std.specs.Prelude.{◌≡◌, ◌&&◌, [], codes, length, MatchResult};
ghost use Rattle.bay_audit.specs.Rules.{directions};
ghost use Rattle.bay_io.specs.Sent.{Puts};
ghost use Rattle.cmd_audit.specs.Auditing.{AuditText, status_of};
ghost use Rattle.cmd_audit.specs.Written.{PutsAnswers, PutsFirstAnswers, PutsReleaseIfAny, PutsRelease, PutsReleases, PutsFirstReleases, PutsText};

use crate::state_names::StateNames;
use crate::stopped::Stopped;
use crate::text::{is_passed, put_answer, put_release_of, put_states};
use bay_audit::answer::Release;
use bay_audit::audit::{answer_count, answer_rule};
use bay_audit::effort::PassBudget;
use bay_audit::program::AuditedProgram;
use bay_audit::release::find_release;
use bay_audit_rules::rule::Rule;
use bay_base::switch::Operation;
use bay_config::bay::Bay;
use bay_io::calls::Sink;
use bay_io::writer::WatchedWriter;
use bay_load::loaded::Loaded;
use std::alloc::Global;

/// Writes a text and flushes it.
pub(crate) fn write_now<W: Sink>(writer: &mut WatchedWriter<W>, text: &[u8]) -> Result<(), Stopped>
    ensures { Puts W.contents W.does writer.old text.now writer.new }
{
    writer.put(text);
    writer.finish()?;
    Ok(())
}

/// Returns whether both are TRUE.
pub(crate) fn both(one: bool, other: bool) -> bool
    ensures { result ≡ (one && other) }
{
    one && other
}

// Answers rules, and writes the line of each answer when it is known. Returns whether each rule
// holds.
fn write_answers<W: Sink>(
    alloc: Global,
    writer: &mut WatchedWriter<W>,
    bay: &Bay,
    names: &StateNames<'_>,
    program: &AuditedProgram<'_>,
    rules: &[Rule],
    budget: &mut PassBudget,
) -> Result<bool, Stopped>
    ensures { MatchResult result
        (λ passed. PutsAnswers W.contents W.does bay.now names.now program.now rules.now passed
        writer.old writer.new)
        (λ _. PutsFirstAnswers W.contents W.does bay.now names.now program.now rules.now writer.old
        writer.new) }
{
    let mut passed = true;
    for rule in rules {
        let answer = answer_rule(alloc, program, rule, budget)?;
        let mut text = Vec::new(alloc);
        put_answer(&mut text, bay, names, rule, &answer)?;
        write_now(writer, text.as_slice())?;
        passed = both(passed, is_passed(&answer));
    }
    Ok(passed)
}

// Finds the release of a switch in a direction, and writes its lines.
fn write_release<W: Sink>(
    alloc: Global,
    writer: &mut WatchedWriter<W>,
    bay: &Bay,
    names: &StateNames<'_>,
    program: &AuditedProgram<'_>,
    way: (usize, Operation),
    budget: &mut PassBudget,
) -> Result<Release, Stopped>
    ensures { MatchResult result
        (λ r. PutsRelease W.contents W.does bay.now names.now program.now way r writer.old
        writer.new)
        (λ _. PutsReleaseIfAny W.contents W.does bay.now names.now program.now way writer.old
        writer.new) }
{
    let found = find_release(alloc, bay, program, way.0, way.1, budget)?;
    let mut text = Vec::new(alloc);
    put_release_of(&mut text, bay, names, &found)?;
    write_now(writer, text.as_slice())?;
    Ok(found)
}

// Finds the releases of each switch, opening first, and writes the lines of each when it is known.
fn write_releases<W: Sink>(
    alloc: Global,
    writer: &mut WatchedWriter<W>,
    bay: &Bay,
    names: &StateNames<'_>,
    program: &AuditedProgram<'_>,
    budget: &mut PassBudget,
) -> Result<Vec<Release>, Stopped>
    ensures { MatchResult result
        (λ releases. PutsReleases W.contents W.does bay.now names.now program.now
        (directions (length bay.now.switches)) releases.items writer.old writer.new)
        (λ _. PutsFirstReleases W.contents W.does bay.now names.now program.now
        (directions (length bay.now.switches)) writer.old writer.new) }
{
    let mut releases = Vec::new(alloc);
    for switch in 0..bay.switches.as_slice().len() {
        let open = (switch, Operation::Open);
        let first = write_release(alloc, writer, bay, names, program, open, budget)?;
        releases.push(first)?;
        let close = (switch, Operation::Close);
        let second = write_release(alloc, writer, bay, names, program, close, budget)?;
        releases.push(second)?;
    }
    Ok(releases)
}

/// Answers rules and finds the releases of a bay's program, with an effort in millions of octets of
/// code, and writes the lines of each as soon as it is known. The last lines, those of the releases
/// while the process is lost and by the first scan, are not flushed. Returns whether each rule
/// holds. Stops if an allocation or a write fails.
pub(crate) fn write_audit<W: Sink>(
    alloc: Global,
    writer: &mut WatchedWriter<W>,
    loaded: &Loaded,
    rules: &[Rule],
    effort: u32,
) -> Result<bool, Stopped>
    ensures { MatchResult result
        (λ passed. PutsText W.contents W.does (AuditText loaded.now rules.now) [] (status_of passed)
        writer.old writer.new)
        (λ _. PutsText W.contents W.does (AuditText loaded.now rules.now) (codes "fault memory\n") 3
        writer.old writer.new) }
{
    let bay = loaded.bay();
    let names = StateNames::of(loaded);
    let program = AuditedProgram::new(alloc, bay, loaded.verified())?;
    let count = answer_count(bay, rules);
    let mut budget = PassBudget::new(loaded.verified().image(), effort, count);
    let passed = write_answers(alloc, writer, bay, &names, &program, rules, &mut budget)?;
    let releases = write_releases(alloc, writer, bay, &names, &program, &mut budget)?;
    let mut text = Vec::new(alloc);
    put_states(&mut text, bay, &names, releases.as_slice())?;
    writer.put(text.as_slice());
    Ok(passed)
}
