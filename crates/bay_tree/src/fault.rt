// Why a call on the tree is refused.
ghost use Rattle.std.specs.Prelude.{◌≡◌};
ghost use Rattle.bay_tree.specs.declared.fault.NamesFault.TheVariants.{OutOfMemory};
ghost use Rattle.bay_tree.specs.Code.{code_of, names_code_of};

use std::alloc::AllocError;
use thiserror::Error;

/// Why a look-up or a write is refused. Neither allocates, and a refusal changes nothing.
#[derive(Clone, Copy, Debug, PartialEq, Eq, Error)]
pub enum TreeFault {
    /// No row has the name.
    #[error("no row has this name")]
    NoSuchName,
    /// The row is a structure, or its value has another type.
    #[error("the value is of another type than the row's")]
    WrongType,
}

impl TreeFault {
    /// Returns the number of the fault: 40 for an unknown name, 41 for another type.
    pub fn code(self) -> u8
        ensures { result ≡ code_of self }
    {
        match self {
            TreeFault::NoSuchName => 40,
            TreeFault::WrongType => 41,
        }
    }
}

/// Why a page of names is refused.
#[derive(Clone, Copy, Debug, PartialEq, Eq, Error)]
pub enum NamesFault {
    /// No row has the name after which the page begins.
    #[error("no row has this name")]
    NoSuchName,
    /// Out of memory for the copies of the names.
    #[error("out of memory")]
    OutOfMemory,
}

impl NamesFault {
    /// Returns the number of the fault: 40 for an unknown name. Out of memory has none.
    pub fn code(self) -> Option<u8>
        ensures { result ≡ names_code_of self }
    {
        match self {
            NamesFault::NoSuchName => Some(40),
            NamesFault::OutOfMemory => None,
        }
    }
}

impl From<AllocError> for NamesFault {
    ghost from_gives = { λ _ e. e ≡ OutOfMemory };

    fn from(_error: AllocError) -> NamesFault {
        NamesFault::OutOfMemory
    }
}
