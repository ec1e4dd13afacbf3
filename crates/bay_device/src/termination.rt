// The reports to a client that its operate with enhanced security ended (IEC 61850-7-2,
// CommandTermination).
ghost use Rattle.std.specs.Prelude.{◌≡◌, None};
ghost use Rattle.bay_device.specs.Device as spec;
ghost use Rattle.bay_device.specs.Outcomes.{pending_without};

use crate::event::Sent;
use bay_ber::outgoing::Outgoing;

/// The octets that report to the client of an association that its operate ended. `None` if the PDU
/// has more octets than agreed.
#[derive(Drop)]
pub struct PendingTermination {
    /// The number of the association that requested the operate.
    pub association: u16,
    /// Sent if the switch reaches the requested position.
    pub positive: Option<Outgoing>,
    /// Sent if it does not reach this position in time.
    pub negative: Option<Outgoing>,
}

// Returns the octets as sent to an association, if there are any.
fn sent_to(association: u16, octets: Option<Outgoing>) -> Option<Sent>
    ensures { result ≡ spec.sent_to association octets }
{
    Some(Sent {
        association,
        octets: octets?,
    })
}

/// Returns the report that the switch reached the requested position. No report is pending
/// afterwards.
pub fn report_reached(pending: &mut Option<PendingTermination>) -> Option<Sent>
    ensures sent { result ≡ spec.reached_report pending.old }
    ensures none { pending.new ≡ None }
{
    let pending = pending.take()?;
    sent_to(pending.association, pending.positive)
}

/// Returns the report that the switch did not reach the requested position in time. No report is
/// pending afterwards.
pub fn report_missed(pending: &mut Option<PendingTermination>) -> Option<Sent>
    ensures sent { result ≡ spec.missed_report pending.old }
    ensures none { pending.new ≡ None }
{
    let pending = pending.take()?;
    sent_to(pending.association, pending.negative)
}

/// Discards the pending reports to a closed association.
pub fn forget(pending: &mut Option<PendingTermination>, association: u16)
    ensures { pending.new ≡ pending_without association pending.old }
{
    if pending
        .as_ref()
        .is_some_and(|pending| pending.association == association)
    {
        *pending = None;
    }
}
