// The line of rules or of a diagram file that are refused, and what is logged.
ghost use Rattle.std.specs.Prelude.{◌≡◌, option_map};
ghost use Rattle.bay_io.specs.Sent.{Puts};
ghost use Rattle.bay_report.specs.LogLines.{IsLoggedOutput, LogsIfAny, PrintsLogs};
ghost use Rattle.cmd_audit.specs.Refusals as spec;
ghost use Rattle.cmd_audit.specs.Text.{refusal_text, refused_log};

use bay_audit_rules::fault::RuleFault;
use bay_diagram_file::fault::{DiagramFault, Place};
use bay_io::calls::{LinePart, Sink};
use bay_io::outbox::WriteFault;
use bay_io::writer::WatchedWriter;
use bay_report::output::{Status, finish};

/// Why an audit is refused after its load.
#[derive(Clone, Copy, Drop)]
pub(crate) enum Refusal {
    /// The text of rules has this fault.
    Rules(RuleFault),
    /// The diagram file has this fault.
    DiagramFile(DiagramFault),
}

// Returns the number of a table by its index, from 1 on.
fn number_of(index: usize) -> u64
    ensures { result ≡ spec.number_of index }
{
    let index = index as u64;
    if index < 18_446_744_073_709_551_615 {
        index + 1
    } else {
        index
    }
}

// Returns the table that has a fault, by its section and number, or the switch of the bay file;
// `None` for the file as a whole.
fn table_of(place: Place) -> Option<(&'static str, u64)>
    ensures { option_map (λ t. (t.0.now, t.1)) result ≡ spec.table_of place }
{
    match place {
        Place::File => None,
        Place::Node(index) => Some((" node ", number_of(index))),
        Place::Between(index) => Some((" between ", number_of(index))),
        Place::Switch(index) => Some((" switch ", number_of(index))),
    }
}

// Puts the line of a fault of rules, if it has one.
fn put_rule_fault<W: Sink>(writer: &mut WatchedWriter<W>, fault: RuleFault)
    ensures { Puts W.contents W.does writer.old (refusal_text fault) writer.new }
{
    let Some(code) = fault.code() else {
        return;
    };
    writer.put(b"rules refused ");
    writer.put_number(u64::from(code));
    writer.put(b" line ");
    writer.put_number(fault.line() as u64);
    writer.put(b"\n");
}

// Puts the table that has a fault.
fn put_table<W: Sink>(writer: &mut WatchedWriter<W>, place: Place)
    ensures { Puts W.contents W.does writer.old (spec.table_text (spec.table_of place)) writer.new }
{
    if let Some((section, number)) = table_of(place) {
        writer.put(section.as_bytes());
        writer.put_number(number);
    }
}

// Puts the line of a fault of a diagram file, if it has one.
fn put_diagram_fault<W: Sink>(writer: &mut WatchedWriter<W>, fault: DiagramFault)
    ensures { Puts W.contents W.does writer.old (spec.diagram_refusal fault) writer.new }
{
    let Some(code) = fault.kind.code() else {
        return;
    };
    writer.put(b"diagram refused ");
    writer.put_number(u64::from(code));
    put_table(writer, fault.place);
    writer.put(b"\n");
}

/// Puts the line of rules or of a diagram file that are refused.
pub(crate) fn put_refusal<W: Sink>(writer: &mut WatchedWriter<W>, refusal: Refusal)
    ensures { Puts W.contents W.does writer.old (spec.refusal_line refusal) writer.new }
{
    match refusal {
        Refusal::Rules(fault) => put_rule_fault(writer, fault),
        Refusal::DiagramFile(fault) => put_diagram_fault(writer, fault),
    }
}

// Logs why rules are refused.
fn log_rule_fault<W: Sink>(writer: &mut WatchedWriter<W>, fault: RuleFault)
    ensures { LogsIfAny W.contents W.does writer.old (refused_log fault) writer.new }
{
    let Some(code) = fault.code() else {
        return;
    };
    writer.log(&[
        LinePart::Text(b"bayctl: rules refused "),
        LinePart::Number(u64::from(code)),
        LinePart::Text(b" line "),
        LinePart::Number(fault.line() as u64),
        LinePart::Text(b": "),
        LinePart::Text(fault.words().as_bytes()),
        LinePart::Text(b"\n"),
    ]);
}

// Logs why a diagram file is refused.
fn log_diagram_fault<W: Sink>(writer: &mut WatchedWriter<W>, fault: DiagramFault)
    ensures { LogsIfAny W.contents W.does writer.old (spec.diagram_log fault) writer.new }
{
    let Some(code) = fault.kind.code() else {
        return;
    };
    let refused = LinePart::Text(b"bayctl: diagram refused ");
    let code = LinePart::Number(u64::from(code));
    let words = LinePart::Text(fault.kind.words().as_bytes());
    match table_of(fault.place) {
        None => writer.log(&[
            refused,
            code,
            LinePart::Text(b": "),
            words,
            LinePart::Text(b"\n"),
        ]),
        Some((section, number)) => writer.log(&[
            refused,
            code,
            LinePart::Text(section.as_bytes()),
            LinePart::Number(number),
            LinePart::Text(b": "),
            words,
            LinePart::Text(b"\n"),
        ]),
    }
}

// Logs why rules or a diagram file are refused.
fn log_refusal<W: Sink>(writer: &mut WatchedWriter<W>, refusal: Refusal)
    ensures { LogsIfAny W.contents W.does writer.old (spec.refusal_log refusal) writer.new }
{
    match refusal {
        Refusal::Rules(fault) => log_rule_fault(writer, fault),
        Refusal::DiagramFile(fault) => log_diagram_fault(writer, fault),
    }
}

/// Logs why rules or a diagram file are refused, if they are.
pub(crate) fn log_refused<W: Sink>(writer: &mut WatchedWriter<W>, refused: Option<Refusal>)
    ensures { LogsIfAny W.contents W.does writer.old (spec.log_in refused) writer.new }
{
    if let Some(refusal) = refused {
        log_refusal(writer, refusal);
    }
}

/// Writes and flushes the line of rules or of a diagram file that are refused, and then logs why.
/// Returns the status 1. Fails if a write or a flush fails or failed before.
pub(crate) fn write_refusal<W: Sink>(
    writer: &mut WatchedWriter<W>,
    refusal: Refusal,
) -> Result<u8, WriteFault>
    ensures { PrintsLogs W.contents W.does
        (IsLoggedOutput (spec.refusal_log refusal) (spec.refusal_line refusal) 1)
        writer.old writer.new result }
{
    put_refusal(writer, refusal);
    let status = finish(writer, Status::Refused)?;
    log_refusal(writer, refusal);
    Ok(status)
}
