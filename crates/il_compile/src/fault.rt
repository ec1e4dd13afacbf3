// Why a program does not compile.
ghost use Rattle.std.specs.Prelude.{◌≡◌};
ghost use Rattle.il_compile.specs.Faults.{code_of, words_of};
ghost use Rattle.il_compile.specs.declared.fault.CompileFault.TheVariants.{OutOfMemory};

use std::alloc::{AllocError, AllocFailed};
use thiserror::Error;

/// Why a program does not compile.
#[derive(Clone, Copy, Debug, PartialEq, Eq, Error)]
#[error("{}", self.words())]
pub enum CompileFault {
    /// The encoded image would have more than 65,535 octets.
    CodeTooLong,
    /// Out of memory.
    OutOfMemory,
}

impl CompileFault {
    /// Returns the fault's number, 85, or `None` for out of memory.
    pub fn code(self) -> Option<u8>
        ensures { result ≡ code_of self }
    {
        match self {
            CompileFault::CodeTooLong => Some(85),
            CompileFault::OutOfMemory => None,
        }
    }

    /// Returns what the fault is, in words.
    pub fn words(self) -> &'static str
        ensures { result.now ≡ words_of self }
    {
        match self {
            CompileFault::CodeTooLong => {
                "the image of the program would have more than 65,535 octets"
            }
            CompileFault::OutOfMemory => "out of memory",
        }
    }
}

impl From<AllocError> for CompileFault {
    ghost from_gives = { λ _ e. e ≡ OutOfMemory };

    fn from(_error: AllocError) -> CompileFault {
        CompileFault::OutOfMemory
    }
}

impl<T: Drop> From<AllocFailed<T>> for CompileFault {
    ghost from_gives = { λ _ e. e ≡ OutOfMemory };

    fn from(_error: AllocFailed<T>) -> CompileFault {
        CompileFault::OutOfMemory
    }
}
