// The answer to a PDU.
use crate::target::ControlPart;
use bay_base::switch::Operation;
use bay_ber::outgoing::Outgoing;
use bay_control::cause::AddCause;
use bay_control::request::Originator;

/// A command to operate a switch.
#[derive(Clone, Copy, Debug, PartialEq, Eq)]
pub struct Command {
    /// The index of the switch in the bay file, from 0.
    pub switch: usize,
    pub operation: Operation,
}

/// The contents of a write to a control.
#[derive(Debug, Drop)]
pub struct ControlRequest {
    /// The requested operation (ctlVal).
    pub operation: Operation,
    pub origin: Originator,
    /// The number of the control (ctlNum).
    pub ctl_num: u8,
}

/// A client's request on a control, and the decision on it.
#[derive(Debug, Drop)]
pub struct ControlDecision {
    /// The number of the client's association.
    pub association: u16,
    /// The index of the switch in the bay file, from 0.
    pub switch: usize,
    pub part: ControlPart,
    /// The contents of the write. `None` for a select by a read of SBO.
    pub request: Option<ControlRequest>,
    /// `Ok` if the request was accepted, otherwise the cause of the refusal.
    pub answer: Result<(), AddCause>,
}

/// The PDUs of MMS that report to a client the end of its operate (IEC 61850-8-1,
/// CommandTermination). `None` if the PDU has more octets than agreed.
#[derive(Drop)]
pub struct TerminationReports {
    /// Sent if the switch reaches the requested position.
    pub positive: Option<Outgoing>,
    /// Sent if it does not reach this position in time.
    pub negative: Option<Outgoing>,
}

/// The answer to a PDU of a client, with the commands and decisions that follow from the PDU.
#[derive(Drop)]
pub struct PduAnswer {
    /// The PDUs of MMS to send, in order: the reports of refused controls, then the response.
    pub sent: Vec<Outgoing>,
    /// The switches to operate.
    pub commands: Vec<Command>,
    /// The decisions on controls, in the order of the requests.
    pub decisions: Vec<ControlDecision>,
    /// The reports for the end of an accepted operate of a switch with enhanced security.
    pub termination: Option<TerminationReports>,
}
