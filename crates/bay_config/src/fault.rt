// Why a text is not a bay file.
ghost use Rattle.std.specs.Prelude.{◌≡◌};
ghost use Rattle.bay_config.specs.declared.fault.BayFault.TheVariants.{OutOfMemory};
ghost use Rattle.bay_config.specs.Code.{code_of, words_of};

use std::alloc::{AllocError, AllocFailed};
use thiserror::Error;

/// The first fault of a bay file.
#[derive(Clone, Copy, Debug, PartialEq, Eq, Error)]
#[error("{}", self.words())]
pub enum BayFault {
    /// The text is not a TOML document, or has more than 262,144 octets.
    BadToml,
    /// A required section or key is missing, or the list of switches is empty.
    MissingKey,
    /// A key is unknown in its section, or the kind of control excludes it.
    UnknownKey,
    /// A section or a value has a wrong type, a value is out of its range, or a point has the name
    /// of a reserved word.
    BadValue,
    /// Two points have the same name.
    DuplicateName,
    /// A section has too many entries.
    TooMany,
    /// Out of memory.
    OutOfMemory,
}

impl BayFault {
    /// Returns the number of the fault, 50 to 55; `None` for `OutOfMemory`.
    pub fn code(self) -> Option<u8>
        ensures { result ≡ code_of self }
    {
        match self {
            BayFault::BadToml => Some(50),
            BayFault::MissingKey => Some(51),
            BayFault::UnknownKey => Some(52),
            BayFault::BadValue => Some(53),
            BayFault::DuplicateName => Some(54),
            BayFault::TooMany => Some(55),
            BayFault::OutOfMemory => None,
        }
    }

    /// Returns what the fault is, in words.
    pub fn words(self) -> &'static str
        ensures { result.now ≡ words_of self }
    {
        match self {
            BayFault::BadToml => "the text is not a TOML document, or is too long",
            BayFault::MissingKey => "a section or a key is missing",
            BayFault::UnknownKey => {
                "a key is unknown, or the kind of control or of switch excludes it"
            }
            BayFault::BadValue => "a value is of a wrong kind or out of its range",
            BayFault::DuplicateName => "two points have one name",
            BayFault::TooMany => "a section has too many entries",
            BayFault::OutOfMemory => "out of memory",
        }
    }
}

impl From<AllocError> for BayFault {
    ghost from_gives = { λ _ e. e ≡ OutOfMemory };

    fn from(_e: AllocError) -> BayFault {
        BayFault::OutOfMemory
    }
}

impl<T: Drop> From<AllocFailed<T>> for BayFault {
    ghost from_gives = { λ _ e. e ≡ OutOfMemory };

    fn from(_e: AllocFailed<T>) -> BayFault {
        BayFault::OutOfMemory
    }
}
