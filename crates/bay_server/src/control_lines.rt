// Logs the controls that clients request.
ghost use Rattle.std.specs.Prelude.{◌≡◌, ◌++◌, codes, map};
ghost use Rattle.std.specs.List.{flat_map};
ghost use Rattle.bay_io.specs.Calls.{part_text};
ghost use Rattle.bay_io.specs.Sent.{Logs};
ghost use Rattle.bay_server.specs.Logging.{LogsAll};
ghost use Rattle.bay_server.specs.LogLines.{concat, decisions_log, decision_line, id_of, selected_line, sign_text, verdict_texts, written_line};
ghost use Rattle.bay_server.specs.LogLines as spec;

use bay_base::listing::Listing;
use bay_base::switch::Operation;
use bay_control::cause::AddCause;
use bay_device::device::Device;
use bay_io::calls::{LinePart, Sink};
use bay_io::writer::WatchedWriter;
use bay_lines::escaped::EscapedText;
use bay_mms_services::answer::{ControlDecision, ControlRequest};
use bay_mms_services::target::ControlPart;

// Returns the service that is requested of a control.
fn service_words(part: ControlPart) -> &'static [u8]
    ensures { result.now ≡ spec.service_words part }
{
    match part {
        ControlPart::Select => b" select ",
        ControlPart::SelectWith => b" select ",
        ControlPart::Operate => b" operate ",
        ControlPart::Cancel => b" cancel ",
    }
}

// The parts of a line that say what was decided, all but its end.
type VerdictParts = (
    LinePart<'static>,
    LinePart<'static>,
    LinePart<'static>,
    LinePart<'static>,
);

// Returns what was decided, with the number and the words of the cause of a refusal.
fn verdict_parts(answer: Result<(), AddCause>) -> VerdictParts
    ensures { part_text result.0 ++ (part_text result.1 ++ (part_text result.2
        ++ (part_text result.3 ++ codes "\n"))) ≡ concat (verdict_texts answer) }
{
    let nothing = LinePart::Text(b"");
    match answer {
        Ok(()) => (LinePart::Text(b": done"), nothing, nothing, nothing),
        Err(cause) => (
            LinePart::Text(b": refused "),
            LinePart::Number(u64::from(cause.code())),
            LinePart::Text(b": "),
            LinePart::Text(cause.words().as_bytes()),
        ),
    }
}

// Returns the position that is requested.
fn position_words(operation: Operation) -> &'static [u8]
    ensures { result.now ≡ spec.position_words operation }
{
    match operation {
        Operation::Open => b" open orCat=",
        Operation::Close => b" close orCat=",
    }
}

// Returns the sign of a number, if it is below 0.
fn sign(number: i8) -> &'static [u8]
    ensures { result.now ≡ sign_text number }
{
    if number < 0 { b"-" } else { b"" }
}

/// Returns the id of the switch at an index; nothing if there is none.
pub fn switch_id(device: &Device, switch: usize) -> &[u8]
    ensures { result.now ≡ id_of device.now switch }
{
    match device.id(switch) {
        Some(id) => id.as_bytes(),
        None => b"",
    }
}

// Logs what was written to a control, with its orIdent escaped, and the decision.
fn log_written<'a, W: Sink>(
    writer: &mut WatchedWriter<W>,
    moment: u64,
    id: &'a [u8],
    ident: &'a [u8],
    decision: &ControlDecision,
    request: &ControlRequest,
)
    ensures { Logs W.contents W.does writer.old
        (written_line moment id.now ident.now decision.now request.now) writer.new }
{
    let (verdict, number, colon, cause) = verdict_parts(decision.answer);
    writer.log(&[
        LinePart::Moment(moment),
        LinePart::Text(b" association "),
        LinePart::Number(u64::from(decision.association)),
        LinePart::Text(service_words(decision.part)),
        LinePart::Text(id),
        LinePart::Text(position_words(request.operation)),
        LinePart::Text(sign(request.origin.cat)),
        LinePart::Number(u64::from(request.origin.cat.unsigned_abs())),
        LinePart::Text(b" orIdent="),
        LinePart::Text(ident),
        LinePart::Text(b" ctlNum="),
        LinePart::Number(u64::from(request.ctl_num)),
        verdict,
        number,
        colon,
        cause,
        LinePart::Text(b"\n"),
    ]);
}

// Logs the decision on a select by a read.
fn log_selected<W: Sink>(
    writer: &mut WatchedWriter<W>,
    moment: u64,
    id: &[u8],
    decision: &ControlDecision,
)
    ensures { Logs W.contents W.does writer.old (selected_line moment id.now decision.now)
        writer.new }
{
    let (verdict, number, colon, cause) = verdict_parts(decision.answer);
    writer.log(&[
        LinePart::Moment(moment),
        LinePart::Text(b" association "),
        LinePart::Number(u64::from(decision.association)),
        LinePart::Text(service_words(decision.part)),
        LinePart::Text(id),
        verdict,
        number,
        colon,
        cause,
        LinePart::Text(b"\n"),
    ]);
}

// Logs a decision on a control.
fn log_decision<W: Sink>(
    writer: &mut WatchedWriter<W>,
    device: &Device,
    moment: u64,
    decision: &ControlDecision,
)
    ensures { Logs W.contents W.does writer.old (decision_line moment device.now decision.now)
        writer.new }
{
    let id = switch_id(device, decision.switch);
    match &decision.request {
        Some(request) => {
            let ident = EscapedText::new(request.origin.ident.as_slice());
            log_written(writer, moment, id, ident.as_slice(), decision, request)
        }
        None => log_selected(writer, moment, id, decision),
    }
}

// Logs decisions on controls.
fn log_decisions<W: Sink>(
    writer: &mut WatchedWriter<W>,
    device: &Device,
    moment: u64,
    decisions: &[ControlDecision],
)
    ensures { LogsAll W.contents W.does writer.old
        (map (decision_line moment device.now) decisions.now) writer.new }
{
    for decision in decisions {
        log_decision(writer, device, moment, decision);
    }
}

// Logs the decisions on the controls that an association requested, if the device handled octets of
// it.
fn log_requests<W: Sink>(
    writer: &mut WatchedWriter<W>,
    device: &Device,
    moment: u64,
    decisions: &Option<Listing<ControlDecision>>,
)
    ensures { LogsAll W.contents W.does writer.old (decisions_log moment device.now decisions.now)
        writer.new }
{
    match decisions {
        Some(decisions) => log_decisions(writer, device, moment, decisions.as_slice()),
        None => {}
    }
}

/// Logs the decisions on the controls that each association requested.
pub fn log_controls<W: Sink>(
    writer: &mut WatchedWriter<W>,
    device: &Device,
    moment: u64,
    request: &[Option<Listing<ControlDecision>>],
)
    ensures { LogsAll W.contents W.does writer.old
        (flat_map (decisions_log moment device.now) request.now)
        writer.new }
{
    for decisions in request {
        log_requests(writer, device, moment, decisions);
    }
}
