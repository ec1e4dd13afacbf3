// Why an image is refused.
ghost use Rattle.std.specs.Prelude.{◌≡◌};
ghost use Rattle.il_verify.specs.Codes.{code_of, words_of};
ghost use Rattle.il_verify.specs.declared.fault.VerifyFault.TheVariants.{OutOfMemory};

use std::alloc::{AllocError, AllocFailed};
use thiserror::Error;

/// Why an image is refused. If an instruction has several faults, the first of these is returned:
/// no predecessor; no such slot or timer; too few values on the stack; a value of a wrong kind; a
/// divisor that may be zero; a write to a read-only point; too many values on the stack; a jump to
/// an offset at which no instruction begins; an end without HALT or JUMP; stacks of different
/// depths at one instruction.
#[derive(Clone, Copy, Debug, PartialEq, Eq, Error)]
#[error("{}", self.words())]
pub enum VerifyFault {
    /// An instruction needs more values than are on the stack.
    StackEmpty,
    /// More than 32 values would be on the stack.
    StackFull,
    /// A value on the stack is not known to have the kind that an instruction needs.
    WrongKind,
    /// A divisor is not known to be nonzero.
    ZeroDivisor,
    /// An instruction names a slot that the image does not have.
    NoSlot,
    /// An instruction names a timer that the image does not have.
    NoTimer,
    /// A jump goes past the code or into the middle of an instruction.
    BadTarget,
    /// Neither the instruction before this one nor a jump leads to it.
    Unreachable,
    /// Paths to an instruction bring stacks of different depths.
    DepthClash,
    /// The code ends without HALT or JUMP, or is empty.
    NoHalt,
    /// A point is not the bay's with the same type and access, or occurs twice; there are more than
    /// 512 slots or 64 timers; or a read-only point is written.
    BadBinding,
    /// Out of memory for the pass over the code.
    OutOfMemory,
}

impl VerifyFault {
    /// Returns the fault's number, 90 to 100 in the order of the faults, or `None` for out of
    /// memory.
    pub fn code(self) -> Option<u8>
        ensures { result ≡ code_of self }
    {
        match self {
            VerifyFault::StackEmpty => Some(90),
            VerifyFault::StackFull => Some(91),
            VerifyFault::WrongKind => Some(92),
            VerifyFault::ZeroDivisor => Some(93),
            VerifyFault::NoSlot => Some(94),
            VerifyFault::NoTimer => Some(95),
            VerifyFault::BadTarget => Some(96),
            VerifyFault::Unreachable => Some(97),
            VerifyFault::DepthClash => Some(98),
            VerifyFault::NoHalt => Some(99),
            VerifyFault::BadBinding => Some(100),
            VerifyFault::OutOfMemory => None,
        }
    }

    /// Returns what the fault is, in words.
    pub fn words(self) -> &'static str
        ensures { result.now ≡ words_of self }
    {
        match self {
            VerifyFault::StackEmpty => "too few values lie on the stack",
            VerifyFault::StackFull => "too many values lie on the stack",
            VerifyFault::WrongKind => "a value is of a wrong kind",
            VerifyFault::ZeroDivisor => "a divisor may be zero",
            VerifyFault::NoSlot => "there is no such slot",
            VerifyFault::NoTimer => "there is no such timer",
            VerifyFault::BadTarget => "a jump leads to no instruction",
            VerifyFault::Unreachable => "an instruction is not reached",
            VerifyFault::DepthClash => "stacks of two depths meet",
            VerifyFault::NoHalt => "the code does not end at a HALT or a JUMP",
            VerifyFault::BadBinding => "the image does not fit the bay",
            VerifyFault::OutOfMemory => "out of memory",
        }
    }
}

impl From<AllocError> for VerifyFault {
    ghost from_gives = { λ _ e. e ≡ OutOfMemory };

    fn from(_error: AllocError) -> VerifyFault {
        VerifyFault::OutOfMemory
    }
}

impl<T: Drop> From<AllocFailed<T>> for VerifyFault {
    ghost from_gives = { λ _ e. e ≡ OutOfMemory };

    fn from(_error: AllocFailed<T>) -> VerifyFault {
        VerifyFault::OutOfMemory
    }
}
