// Whether each rule of a text holds for a loaded program.
ghost use Rattle.std.specs.Prelude.{◌≡◌, ◌≢◌, ◌++◌, IfOk, OnOk, zip};
ghost use Rattle.bay_report.specs.LogLines.{PrintsLogs};
ghost use Rattle.cmd_audit.specs.Judging.{IsVerdictOn, Judges, JudgesText, VerdictReport, unproved_line, unproved_text};

use crate::refusal::{Refusal, write_refusal};
use crate::state_names::StateNames;
use crate::text::{are_passed, is_passed, put_answer};
use bay_audit::answer::RuleAnswer;
use bay_audit::audit::answer_rules;
use bay_audit::effort::EFFORT;
use bay_audit_rules::fault::RuleFault;
use bay_audit_rules::read::read_rules;
use bay_audit_rules::rule::Rule;
use bay_config::bay::Bay;
use bay_io::calls::Sink;
use bay_io::outbox::WriteFault;
use bay_io::writer::WatchedWriter;
use bay_load::loaded::Loaded;
use bay_report::log::write_out_of_memory;
use bay_report::output::{Status, finish, write_text};
use std::alloc::{AllocError, Global};

/// The verdict on the rules of a text for a loaded program.
#[derive(Drop)]
pub enum RulesVerdict {
    /// Each rule holds. This is their number.
    Hold(usize),
    /// A rule does not hold. The text has the lines of an audit for each such rule.
    Unproved(Vec<u8>),
    /// The text has this fault.
    Refused(RuleFault),
    /// An allocation failed.
    OutOfMemory,
}

// Adds the line of the answer to a rule, unless the rule holds.
fn put_unproved(
    text: &mut Vec<u8>,
    bay: &Bay,
    names: &StateNames<'_>,
    rule: &Rule,
    answer: &RuleAnswer,
) -> Result<(), AllocError>
    ensures { OnOk result (text.new.items ≡ text.old.items
        ++ unproved_line bay.now names.now (rule.now, answer.now)) }
{
    if is_passed(answer) {
        return Ok(());
    }
    put_answer(text, bay, names, rule, answer)
}

// Returns the lines of the answers to the rules that do not hold.
fn unproved_lines(
    alloc: Global,
    bay: &Bay,
    names: &StateNames<'_>,
    rules: &[Rule],
    answers: &[RuleAnswer],
) -> Result<Vec<u8>, AllocError>
    ensures { IfOk result (λ text. text.items
        ≡ unproved_text bay.now names.now (zip rules.now answers.now)) }
{
    let mut text = Vec::new(alloc);
    for i in 0..rules.len() {
        let Some(answer) = answers.get(i) else {
            return Ok(text);
        };
        put_unproved(&mut text, bay, names, &rules[i], answer)?;
    }
    Ok(text)
}

// Answers rules for a program, and returns the verdict on them.
fn judge(alloc: Global, loaded: &Loaded, rules: &[Rule]) -> Result<RulesVerdict, AllocError>
    ensures { IfOk result (λ verdict. Judges loaded.now rules.now verdict) }
{
    let bay = loaded.bay();
    let answers = answer_rules(alloc, bay, loaded.verified(), rules, EFFORT)?;
    if are_passed(answers.as_slice()) {
        return Ok(RulesVerdict::Hold(rules.len()));
    }
    let names = StateNames::of(loaded);
    let text = unproved_lines(alloc, bay, &names, rules, answers.as_slice())?;
    Ok(RulesVerdict::Unproved(text))
}

// Returns the verdict on a text with this fault. Fails if memory ran out.
fn refused_verdict(fault: RuleFault) -> Result<RulesVerdict, AllocError>
    ensures { IfOk result
        (λ verdict. (verdict ≡ RulesVerdict.Refused fault) × (fault ≢ RuleFault.OutOfMemory)) }
{
    match fault {
        RuleFault::OutOfMemory => Err(AllocError),
        RuleFault::BadWord { .. }
        | RuleFault::BadLine { .. }
        | RuleFault::UnknownName { .. }
        | RuleFault::BadValue { .. }
        | RuleFault::TooMany { .. }
        | RuleFault::NoRule => Ok(RulesVerdict::Refused(fault)),
    }
}

// Reads a text of rules, and returns the verdict on them.
fn judge_text(alloc: Global, loaded: &Loaded, rules: &[u8]) -> Result<RulesVerdict, AllocError>
    ensures { IfOk result (λ verdict. JudgesText loaded.now rules.now verdict) }
{
    match read_rules(alloc, loaded.bay(), rules) {
        Ok(rules) => judge(alloc, loaded, rules.as_slice()),
        Err(fault) => refused_verdict(fault),
    }
}

/// Returns the verdict on the rules of a text for the bay and the program that were loaded. They
/// hold if a timer establishes them, too.
pub fn judge_rules(alloc: Global, loaded: &Loaded, rules: &[u8]) -> RulesVerdict
    ensures { IsVerdictOn loaded.now rules.now result }
{
    match judge_text(alloc, loaded, rules) {
        Ok(verdict) => verdict,
        Err(AllocError) => RulesVerdict::OutOfMemory,
    }
}

// Writes the number of the rules that hold.
fn write_count<W: Sink>(writer: &mut WatchedWriter<W>, count: usize) -> Result<u8, WriteFault>
    ensures { PrintsLogs W.contents W.does (VerdictReport (RulesVerdict.Hold count)) writer.old
        writer.new result }
{
    writer.put(b"rules ");
    writer.put_number(count as u64);
    writer.put(b"\n");
    finish(writer, Status::Clean)
}

/// Writes and flushes what is printed of a verdict: `rules COUNT`, the lines of the rules that do
/// not hold, the line of the text's fault, which is then logged, or `fault memory`. Returns the
/// status: 0 if each rule holds, 4 if one does not, 1 if the text is refused, and 3 if memory ran
/// out. Fails if a write or a flush fails or failed before.
pub fn write_verdict<W: Sink>(
    writer: &mut WatchedWriter<W>,
    verdict: &RulesVerdict,
) -> Result<u8, WriteFault>
    ensures { PrintsLogs W.contents W.does (VerdictReport verdict.now) writer.old writer.new
        result }
{
    match verdict {
        RulesVerdict::Hold(count) => write_count(writer, *count),
        RulesVerdict::Unproved(text) => write_text(writer, text.as_slice(), Status::Unproved),
        RulesVerdict::Refused(fault) => write_refusal(writer, Refusal::Rules(*fault)),
        RulesVerdict::OutOfMemory => write_out_of_memory(writer),
    }
}
