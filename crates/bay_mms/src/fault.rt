// Why reading or writing failed.
ghost use Rattle.std.specs.Prelude.{◌≡◌, Some, None};
ghost use Rattle.bay_mms.specs.Code.{code_of, access_code_of};

use std::alloc::AllocError;
use thiserror::Error;

/// Why writing a text failed.
#[derive(Clone, Copy, Debug, Error)]
pub enum EncodeFault {
    /// The text has more octets than allowed.
    #[error("the text is too long")]
    TooLong,
    /// Out of memory for the text.
    #[error("out of memory")]
    OutOfMemory,
}

impl From<AllocError> for EncodeFault {
    ghost use Rattle.bay_mms.specs.declared.fault.EncodeFault.TheVariants.{OutOfMemory};

    ghost from_gives = { λ _ e. e ≡ OutOfMemory };

    fn from(_error: AllocError) -> EncodeFault {
        EncodeFault::OutOfMemory
    }
}

/// Why octets are not a request that is served.
#[derive(Clone, Copy, Debug, Error)]
pub enum MmsFault {
    /// The octets encode no request. Has the invoke id if one can be read.
    #[error("the octets are no request")]
    BadPdu(Option<u32>),
    /// The service is not served, or the request has alternate access or a named list. Has the
    /// invoke id.
    #[error("the service is not known")]
    UnknownService(u32),
    /// The request reads or writes more than 32 variables. Has the invoke id.
    #[error("there are too many variables")]
    TooMany(u32),
    /// Out of memory for the request.
    #[error("out of memory")]
    OutOfMemory,
}

impl MmsFault {
    /// Returns the number of the fault, 30 to 32 in the order of the variants. `OutOfMemory` has
    /// none.
    pub fn code(self) -> Option<u8>
        ensures { result ≡ code_of self }
    {
        match self {
            MmsFault::BadPdu(_) => Some(30),
            MmsFault::UnknownService(_) => Some(31),
            MmsFault::TooMany(_) => Some(32),
            MmsFault::OutOfMemory => None,
        }
    }
}

/// Why a variable is not read or written (ISO 9506-2, DataAccessError).
#[derive(Clone, Copy, Debug, Error)]
pub enum DataAccessError {
    /// The written variable is not a whole control, or the control is refused.
    #[error("the access is denied")]
    ObjectAccessDenied,
    /// The data have another shape.
    #[error("the data are of another type")]
    TypeInconsistent,
    /// There is no such variable.
    #[error("there is no such variable")]
    ObjectNonExistent,
    /// A number or an identity in the data is out of range.
    #[error("a value is out of range")]
    ObjectValueInvalid,
}

impl DataAccessError {
    /// Returns the number of the error in ISO 9506-2.
    pub fn code(self) -> u8
        ensures { result ≡ access_code_of self }
    {
        match self {
            DataAccessError::ObjectAccessDenied => 3,
            DataAccessError::TypeInconsistent => 7,
            DataAccessError::ObjectNonExistent => 10,
            DataAccessError::ObjectValueInvalid => 11,
        }
    }
}

/// Why reading a part of a request failed, before its invoke id is known.
#[derive(Clone, Copy)]
pub(crate) enum Refusal {
    /// The part is wrongly encoded.
    Bad,
    /// The part is well encoded, but the request is not served.
    Unknown,
    /// The request has too many variables.
    Many,
    /// Out of memory for the part.
    OutOfMemory,
}

impl From<AllocError> for Refusal {
    ghost use Rattle.bay_mms.specs.declared.fault.Refusal.TheVariants.{OutOfMemory};

    ghost from_gives = { λ _ e. e ≡ OutOfMemory };

    fn from(_error: AllocError) -> Refusal {
        Refusal::OutOfMemory
    }
}
