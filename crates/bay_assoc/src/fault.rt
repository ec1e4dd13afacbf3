// Why a TSDU is refused.
ghost use Rattle.std.specs.Prelude.{◌≡◌, Some};
ghost use Rattle.bay_assoc.specs.Code.{code_of, fault_of, words_of};
ghost use Rattle.bay_assoc.specs.declared.fault.AssocFault.TheVariants.{OutOfMemory};

use std::alloc::AllocError;
use thiserror::Error;

/// Why a TSDU is refused. After any of these the association refuses every later TSDU with
/// `Failed`.
#[derive(Clone, Copy, Debug, Error)]
#[error("{}", self.words())]
pub enum AssocFault {
    /// The TSDU is not an SPDU that is known here (X.225 8.3).
    BadSession,
    /// The user data of the session are not a PPDU (ISO 8823-1 8.2).
    BadPresentation,
    /// No context is offered for ACSE or none for MMS with the Basic Encoding Rules, or a value is
    /// in a context that was not accepted.
    NoContext,
    /// A value is not an APDU of ACSE that is allowed now (ISO 8650-1 9), or contains no initiate
    /// of MMS that can be read.
    BadAcse,
    /// The SPDU is not allowed now.
    OutOfPhase,
    /// The proposed size of a PDU of MMS is below 256 octets.
    PduSizeTooSmall,
    /// An earlier TSDU was refused.
    Failed,
    /// Out of memory for the answer.
    OutOfMemory,
}

impl AssocFault {
    /// Returns the number of the fault: 20 to 26 in the order of the variants. `OutOfMemory` has
    /// none.
    pub fn code(self) -> Option<u8>
        ensures { result ≡ code_of self }
    {
        match self {
            AssocFault::BadSession => Some(20),
            AssocFault::BadPresentation => Some(21),
            AssocFault::NoContext => Some(22),
            AssocFault::BadAcse => Some(23),
            AssocFault::OutOfPhase => Some(24),
            AssocFault::PduSizeTooSmall => Some(25),
            AssocFault::Failed => Some(26),
            AssocFault::OutOfMemory => None,
        }
    }

    /// Returns what the fault is, in words.
    pub fn words(self) -> &'static str
        ensures { result.now ≡ words_of self }
    {
        match self {
            AssocFault::BadSession => "no SPDU",
            AssocFault::BadPresentation => "a malformed PPDU",
            AssocFault::NoContext => "a presentation context that was not offered or accepted",
            AssocFault::BadAcse => "an APDU that can't be read",
            AssocFault::OutOfPhase => "an SPDU out of place",
            AssocFault::PduSizeTooSmall => "a PDU size below 256",
            AssocFault::Failed => "the association has failed",
            AssocFault::OutOfMemory => "out of memory",
        }
    }

    /// Returns the fault with this number; `None` if there is no such fault.
    pub fn with_code(code: u8) -> Option<AssocFault>
        ensures value { result ≡ fault_of code }
        ensures each { (fault : AssocFault) → code_of fault ≡ Some code → result ≡ Some fault }
    {
        match code {
            20 => Some(AssocFault::BadSession),
            21 => Some(AssocFault::BadPresentation),
            22 => Some(AssocFault::NoContext),
            23 => Some(AssocFault::BadAcse),
            24 => Some(AssocFault::OutOfPhase),
            25 => Some(AssocFault::PduSizeTooSmall),
            26 => Some(AssocFault::Failed),
            _ => None,
        }
    }
}

impl From<AllocError> for AssocFault {
    ghost from_gives = { λ _ e. e ≡ OutOfMemory };

    fn from(_error: AllocError) -> AssocFault {
        AssocFault::OutOfMemory
    }
}
