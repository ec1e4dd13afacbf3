// Why the pass has no result.
ghost use Rattle.std.specs.Prelude.{◌≡◌};
ghost use Rattle.il_range.specs.declared.stop.PassStop.TheVariants.{OutOfMemory};

use std::alloc::{AllocError, AllocFailed};

/// Why the pass has no result.
#[derive(Clone, Copy, Debug, PartialEq, Eq)]
pub(crate) enum PassStop {
    OutOfMemory,
    /// The code is not what a verified image has.
    Undecided,
}

impl From<AllocError> for PassStop {
    ghost from_gives = { λ _ e. e ≡ OutOfMemory };

    fn from(_error: AllocError) -> PassStop {
        PassStop::OutOfMemory
    }
}

impl<T: Drop> From<AllocFailed<T>> for PassStop {
    ghost from_gives = { λ _ e. e ≡ OutOfMemory };

    fn from(_error: AllocFailed<T>) -> PassStop {
        PassStop::OutOfMemory
    }
}
