// Why texts and images are not loaded, and why an event is refused.
ghost use Rattle.std.specs.Prelude.{◌≡◌};
ghost use Rattle.bay_device.specs.Code.{step_code_of};
ghost use Rattle.bay_device.specs.Load.{load_fault_of};
ghost use Rattle.bay_device.specs.Load as spec;

use bay_load::error::LoadError;
use thiserror::Error;

/// Why a bay with a program or an image is not loaded: the number and the line of a load's error.
#[derive(Clone, Copy, Debug, PartialEq, Eq, Error)]
pub enum LoadFault {
    /// The number of the fault, and for a fault of the program (60 to 79) its line, counted from 1;
    /// otherwise line 0.
    #[error("fault {code} at line {line}")]
    Refused { code: u8, line: usize },
    /// Out of memory.
    #[error("out of memory")]
    OutOfMemory,
}

// Returns the fault with a number at a line; `OutOfMemory` if there is no number.
fn fault_of(code: Option<u8>, line: usize) -> LoadFault
    ensures { result ≡ spec.fault_of code line }
{
    match code {
        Some(code) => LoadFault::Refused { code, line },
        None => LoadFault::OutOfMemory,
    }
}

impl From<LoadError> for LoadFault {
    ghost from_gives = { λ error e. e ≡ load_fault_of error };

    fn from(error: LoadError) -> LoadFault {
        fault_of(error.code(), error.line())
    }
}

/// Why an event is refused. A refused event changes nothing.
#[derive(Clone, Copy, Debug, PartialEq, Eq, Error)]
pub enum StepFault {
    /// The time is later than a time stamp can hold.
    #[error("the moment is too large")]
    MomentTooLarge,
    /// The time is before that of the last event.
    #[error("the moment is before the last event's")]
    TimeWentBack,
    /// The number of the association is not 1 to 8, or octets or a close arrive for one that is not
    /// open.
    #[error("there is no such association")]
    NoSuchAssociation,
    /// The association to open is already open.
    #[error("the association is already open")]
    AlreadyOpen,
    /// There is no such switch, input or meter.
    #[error("there is no such switch, input or meter")]
    NoSuchPoint,
}

impl StepFault {
    /// Returns the number of the fault: 114 time too large, 110 time went back, 111 no such
    /// association, 112 already open, 113 no such point.
    pub fn code(self) -> u8
        ensures { result ≡ step_code_of self }
    {
        match self {
            StepFault::MomentTooLarge => 114,
            StepFault::TimeWentBack => 110,
            StepFault::NoSuchAssociation => 111,
            StepFault::AlreadyOpen => 112,
            StepFault::NoSuchPoint => 113,
        }
    }
}
