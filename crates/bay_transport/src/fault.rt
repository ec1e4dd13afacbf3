// Why octets of a stream are refused.
ghost use Rattle.std.specs.Prelude.{◌≡◌, Some};
ghost use Rattle.bay_transport.specs.declared.fault.TransportFault.TheVariants.{OutOfMemory};
ghost use Rattle.bay_transport.specs.Code.{code_of, fault_of, words_of};

use std::alloc::AllocError;
use thiserror::Error;

/// Why octets are refused. After any of these the transport refuses every later piece with
/// `Failed`.
#[derive(Clone, Copy, Debug, PartialEq, Eq, Error)]
#[error("{}", self.words())]
pub enum TransportFault {
    /// A frame does not begin with 03, or its length is below 7 (RFC 1006 6).
    BadTpkt,
    /// A TPDU is malformed or not allowed now (X.224 13).
    BadCotp,
    /// The request is for a class other than 0 (X.224 13.3.3).
    ClassRefused,
    /// The data TPDUs of one TSDU hold more than 70,000 octets of data.
    TsduTooLong,
    /// An earlier piece was refused.
    Failed,
    /// Out of memory for the octets that must be buffered.
    OutOfMemory,
}

impl TransportFault {
    /// Returns the number of the fault: 10 to 14 in the order of the variants. `OutOfMemory` has
    /// none.
    pub fn code(self) -> Option<u8>
        ensures { result ≡ code_of self }
    {
        match self {
            TransportFault::BadTpkt => Some(10),
            TransportFault::BadCotp => Some(11),
            TransportFault::ClassRefused => Some(12),
            TransportFault::TsduTooLong => Some(13),
            TransportFault::Failed => Some(14),
            TransportFault::OutOfMemory => None,
        }
    }

    /// Returns what the fault is, in words.
    pub fn words(self) -> &'static str
        ensures { result.now ≡ words_of self }
    {
        match self {
            TransportFault::BadTpkt => "no TPKT",
            TransportFault::BadCotp => "a TPDU that is malformed, unknown or out of place",
            TransportFault::ClassRefused => "a transport class other than 0",
            TransportFault::TsduTooLong => "a TSDU of more than 70,000 octets",
            TransportFault::Failed => "the transport has failed",
            TransportFault::OutOfMemory => "out of memory",
        }
    }

    /// Returns the fault with this number; `None` if there is no such fault.
    pub fn with_code(code: u8) -> Option<TransportFault>
        ensures value { result ≡ fault_of code }
        ensures each { (fault : TransportFault) → code_of fault ≡ Some code → result ≡ Some fault }
    {
        match code {
            10 => Some(TransportFault::BadTpkt),
            11 => Some(TransportFault::BadCotp),
            12 => Some(TransportFault::ClassRefused),
            13 => Some(TransportFault::TsduTooLong),
            14 => Some(TransportFault::Failed),
            _ => None,
        }
    }
}

impl From<AllocError> for TransportFault {
    ghost from_gives = { λ _ e. e ≡ OutOfMemory };

    fn from(_error: AllocError) -> TransportFault {
        TransportFault::OutOfMemory
    }
}
