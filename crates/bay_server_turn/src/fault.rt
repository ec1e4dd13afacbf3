// Why a turn is refused.
ghost use Rattle.std.specs.Prelude.{◌≡◌};
ghost use Rattle.bay_server_turn.specs.Code.{serve_code_of};

use thiserror::Error;

/// Why a turn was refused. Nothing has changed.
#[derive(Clone, Copy, Debug, Error)]
pub enum ServeFault {
    /// The line has neither a contact, an input or a measurement nor the loss of the process.
    #[error("the line is no contact, input or measure")]
    BadLine,
    /// The time is past the last one that a time stamp can hold, 4,294,967,295,999 ms.
    #[error("the moment is too large")]
    MomentTooLarge,
}

impl ServeFault {
    /// Returns the number of the fault: 120 for `BadLine`, 114 for `MomentTooLarge`.
    pub fn code(self) -> u8
        ensures { result ≡ serve_code_of self }
    {
        match self {
            ServeFault::BadLine => 120,
            ServeFault::MomentTooLarge => 114,
        }
    }
}
