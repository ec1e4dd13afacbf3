// Limits answers to the agreed size of a PDU.
ghost use Rattle.std.specs.Prelude.{◌≡◌, None, List, ℕ, IfOk, IfSome, is_ok, true};
ghost use Rattle.bay_base.specs.Exact.{ExactOr};
ghost use Rattle.bay_mms.specs.Writing.{text_within};
ghost use Rattle.bay_mms_services.specs.Replies as spec;

use bay_ber::outgoing::Outgoing;
use bay_mms::fault::EncodeFault;
use std::alloc::AllocError;

// Returns no PDU if the PDU was too long; an error if memory was exhausted.
fn no_pdu(fault: EncodeFault) -> Result<Option<Outgoing>, AllocError>
    ensures { IfOk result (λ found. (found ≡ None) × (fault ≡ EncodeFault.TooLong)) }
{
    match fault {
        EncodeFault::TooLong => Ok(None),
        EncodeFault::OutOfMemory => Err(AllocError),
    }
}

/// Returns an encoded PDU, or `None` if it has more octets than agreed. Fails only if an allocation
/// failed.
pub fn pdu_if_fits(made: Result<Outgoing, EncodeFault>) -> Result<Option<Outgoing>, AllocError>
    ensures pdu { (size : ℕ) (pdu : List ℕ)
        → ExactOr EncodeFault.OutOfMemory (λ octets. octets) made (text_within size pdu)
        → IfOk result (λ found. found ≡ spec.pdu_within_size size pdu) }
    ensures made { IfOk result (λ found. IfSome found (λ _. is_ok made ≡ true)) }
{
    match made {
        Ok(pdu) => Ok(Some(pdu)),
        Err(fault) => no_pdu(fault),
    }
}
