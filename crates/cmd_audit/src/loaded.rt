// The text after the line of a load: the answers to rules with the releases, and the releases
// judged by a diagram; or why the rules or the diagram are refused.
ghost use Rattle.std.specs.Prelude.{◌≡◌, ◌⊎◌, [], codes, Some, None, Ok, Err, IfErr, IfOk, MatchResult};
ghost use Rattle.bay_diagram_file.specs.Code.{out_of_memory};
ghost use Rattle.bay_io.specs.Sent.{Puts};
ghost use Rattle.bay_report.specs.Report.{code_of};
ghost use Rattle.cmd_audit.specs.Auditing.{AnswersIf, AreAnswered, DiagramRead, JudgementsIf, RulesRead};
ghost use Rattle.cmd_audit.specs.Auditing as spec;
ghost use Rattle.cmd_audit.specs.Refusals.{log_in, refusal_line};
ghost use Rattle.cmd_audit.specs.Written.{PutsRest, PutsRulesText, PutsStopped, PutsText};

use crate::hazards::write_judgements;
use crate::refusal::{Refusal, put_refusal};
use crate::stopped::Stopped;
use crate::written::{both, write_audit};
use bay_audit_rules::fault::RuleFault;
use bay_audit_rules::read::read_rules;
use bay_audit_rules::rule::Rule;
use bay_base::listing::Listing;
use bay_config::bay::Bay;
use bay_diagram_file::diagram::Diagram;
use bay_diagram_file::fault::DiagramFault;
use bay_diagram_file::read::diagram_in;
use bay_io::calls::Sink;
use bay_io::writer::WatchedWriter;
use bay_load::loaded::Loaded;
use bay_report::output::{NO_MEMORY, Status};
use std::alloc::Global;

/// The octets of the files of rules and of a diagram, if they are named.
#[derive(Drop)]
pub(crate) struct AuditTexts {
    pub rules: Option<Listing<u8>>,
    pub diagram: Option<Listing<u8>>,
}

/// How an audit ends: the exit status, and why rules or a diagram are refused, if they are.
#[derive(Drop)]
pub(crate) struct AuditEnd {
    pub status: Status,
    pub refused: Option<Refusal>,
}

// Reads the rules, if there are some.
fn rules_of(
    alloc: Global,
    bay: &Bay,
    texts: &AuditTexts,
) -> Result<Option<Listing<Rule>>, RuleFault>
    ensures read { IfOk result (λ rules. RulesRead bay.now texts.now.rules
        (Ok rules)) }
    ensures refused { IfErr result (λ fault. (fault ≡ RuleFault.OutOfMemory)
        ⊎ RulesRead bay.now texts.now.rules (Err fault)) }
{
    match &texts.rules {
        Some(text) => Ok(Some(read_rules(alloc, bay, text.as_slice())?)),
        None => Ok(None),
    }
}

// Reads the diagram, if there is one.
fn diagram_of(alloc: Global, bay: &Bay, texts: &AuditTexts) -> Result<Option<Diagram>, DiagramFault>
    ensures read { IfOk result (λ diagram. DiagramRead bay.now texts.now.diagram
        (Ok diagram)) }
    ensures refused { IfErr result (λ fault. (fault ≡ out_of_memory)
        ⊎ DiagramRead bay.now texts.now.diagram (Err fault)) }
{
    match &texts.diagram {
        Some(text) => Ok(Some(diagram_in(alloc, bay, text.as_slice())?)),
        None => Ok(None),
    }
}

// Returns the exit status of an audit, by whether everything holds.
fn status_of(passed: bool) -> Status
    ensures { code_of result ≡ spec.status_of passed }
{
    if passed {
        Status::Clean
    } else {
        Status::Unproved
    }
}

// Writes the answers to rules and the releases, if there are rules. Returns whether each rule
// holds.
fn write_answers_if<W: Sink>(
    alloc: Global,
    writer: &mut WatchedWriter<W>,
    loaded: &Loaded,
    rules: &Option<Listing<Rule>>,
    effort: u32,
) -> Result<bool, Stopped>
    ensures { MatchResult result
        (λ passed. PutsText W.contents W.does
        (AnswersIf loaded.now rules.now) [] (spec.status_of passed)
        writer.old writer.new)
        (λ _. PutsText W.contents W.does
        (AnswersIf loaded.now rules.now) (codes "fault memory\n") 3
        writer.old writer.new) }
{
    match rules {
        Some(rules) => write_audit(alloc, writer, loaded, rules.as_slice(), effort),
        None => Ok(true),
    }
}

// Writes the releases judged by a diagram, if there is one. Returns whether each of them holds.
fn write_judgements_if<W: Sink>(
    alloc: Global,
    writer: &mut WatchedWriter<W>,
    loaded: &Loaded,
    diagram: &Option<Diagram>,
    effort: u32,
) -> Result<bool, Stopped>
    ensures { MatchResult result
        (λ safe. PutsText W.contents W.does (JudgementsIf loaded.now diagram.now) []
        (spec.status_of safe) writer.old writer.new)
        (λ _. PutsText W.contents W.does (JudgementsIf loaded.now diagram.now)
        (codes "fault memory\n") 3 writer.old writer.new) }
{
    match diagram {
        Some(diagram) => write_judgements(alloc, writer, loaded, diagram, effort),
        None => Ok(true),
    }
}

// Writes the text for rules and a diagram that were read. Stops if an allocation or a write fails.
fn write_answered<W: Sink>(
    alloc: Global,
    writer: &mut WatchedWriter<W>,
    loaded: &Loaded,
    rules: &Option<Listing<Rule>>,
    diagram: &Option<Diagram>,
    effort: u32,
) -> Result<AuditEnd, Stopped>
    ensures { MatchResult result
        (λ end. (end.refused ≡ None) × PutsText W.contents W.does
        (AreAnswered loaded.now rules.now diagram.now) []
        (code_of end.status) writer.old writer.new)
        (λ _. PutsText W.contents W.does
        (AreAnswered loaded.now rules.now diagram.now)
        (codes "fault memory\n") 3 writer.old writer.new) }
{
    let passed = write_answers_if(alloc, writer, loaded, rules, effort)?;
    let safe = write_judgements_if(alloc, writer, loaded, diagram, effort)?;
    Ok(AuditEnd {
        status: status_of(both(passed, safe)),
        refused: None,
    })
}

// Puts the line of rules or of a diagram that are refused, and returns how the audit ends.
fn refuse<W: Sink>(writer: &mut WatchedWriter<W>, refusal: Refusal) -> AuditEnd
    ensures put { Puts W.contents W.does writer.old (refusal_line refusal) writer.new }
    ensures end { result ≡ record { status = Status.Refused; refused = Some refusal } }
{
    put_refusal(writer, refusal);
    AuditEnd {
        status: Status::Refused,
        refused: Some(refusal),
    }
}

// Writes the text after the line of a load. Stops if an allocation or a write fails.
fn write_loaded<W: Sink>(
    alloc: Global,
    writer: &mut WatchedWriter<W>,
    loaded: &Loaded,
    texts: &AuditTexts,
    effort: u32,
) -> Result<AuditEnd, Stopped>
    ensures { MatchResult result
        (λ end. PutsRulesText W.contents W.does loaded.now texts.now (log_in end.refused)
        (code_of end.status) writer.old writer.new)
        (λ _. PutsStopped W.contents W.does loaded.now texts.now writer.old writer.new) }
{
    if writer.has_failed() {
        return Err(Stopped);
    }
    let rules = match rules_of(alloc, loaded.bay(), texts) {
        Ok(rules) => rules,
        Err(RuleFault::OutOfMemory) => return Err(Stopped),
        Err(fault) => return Ok(refuse(writer, Refusal::Rules(fault))),
    };
    match diagram_of(alloc, loaded.bay(), texts) {
        Ok(diagram) => write_answered(alloc, writer, loaded, &rules, &diagram, effort),
        Err(fault) => {
            if fault.kind.code().is_none() {
                return Err(Stopped);
            }
            Ok(refuse(writer, Refusal::DiagramFile(fault)))
        }
    }
}

/// Writes the text after the line of a load, also if memory runs out. Its last lines may not be
/// flushed.
pub(crate) fn write_rest<W: Sink>(
    alloc: Global,
    writer: &mut WatchedWriter<W>,
    loaded: &Loaded,
    texts: &AuditTexts,
    effort: u32,
) -> AuditEnd
    ensures { PutsRest W.contents W.does loaded.now texts.now (log_in result.refused)
        (code_of result.status) writer.old writer.new }
{
    match write_loaded(alloc, writer, loaded, texts, effort) {
        Ok(end) => end,
        Err(Stopped) => {
            writer.put(NO_MEMORY);
            AuditEnd {
                status: Status::Fault,
                refused: None,
            }
        }
    }
}
