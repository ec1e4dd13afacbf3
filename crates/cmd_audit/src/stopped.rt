// Why an audit stops before its last line.
use bay_io::outbox::WriteFault;
use std::alloc::{AllocError, AllocFailed};

/// An audit stopped, because memory ran out or a write failed.
#[derive(Clone, Copy, Debug)]
pub(crate) struct Stopped;

impl From<AllocError> for Stopped {
    fn from(_error: AllocError) -> Stopped {
        Stopped
    }
}

impl<T: Drop> From<AllocFailed<T>> for Stopped {
    fn from(_error: AllocFailed<T>) -> Stopped {
        Stopped
    }
}

impl From<WriteFault> for Stopped {
    fn from(_error: WriteFault) -> Stopped {
        Stopped
    }
}
