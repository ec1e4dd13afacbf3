// Why a program that can be read is refused.
ghost use Rattle.std.specs.Prelude.{◌≡◌};
ghost use Rattle.il_check.specs.Code.{code_of, line_of, words_of};
ghost use Rattle.il_check.specs.declared.fault.CheckFault.TheVariants.{OutOfMemory};

use std::alloc::{AllocError, AllocFailed};
use thiserror::Error;

/// Why a program is refused, with the line of the fault, counted from 1.
#[derive(Clone, Copy, Debug, PartialEq, Eq, Error)]
#[error("{}", self.words())]
pub enum CheckFault {
    /// A name is not declared, or an external's name is not a point's.
    UnknownName { line: usize },
    /// A name is declared twice, or two labels have the same name.
    DuplicateName { line: usize },
    /// A type is not the required one, or a name does not mean what the instruction needs.
    TypeMismatch { line: usize },
    /// The current result is used but not set.
    UnsetResult { line: usize },
    /// A jump goes to a label above.
    BackwardJump { line: usize },
    /// A jump goes to a label that does not exist.
    UnknownLabel { line: usize },
    /// An instruction is unreachable.
    Unreachable { line: usize },
    /// Something read-only is written.
    ReadOnly { line: usize },
    /// A divisor is not a literal, or is 0.
    ZeroDivisor { line: usize },
    /// More than 512 externals and variables, 64 timers or 256 labels are declared, or parentheses
    /// nest more than 16 deep.
    TooMany { line: usize },
    /// Out of memory.
    OutOfMemory,
}

impl CheckFault {
    /// Returns the fault's number: 70 unknown name, 71 duplicate name, 72 type mismatch, 73 unset
    /// result, 74 backward jump, 75 unknown label, 76 unreachable, 77 read-only, 78 zero divisor,
    /// 79 too many; `None` for out of memory.
    pub fn code(self) -> Option<u8>
        ensures { result ≡ code_of self }
    {
        match self {
            CheckFault::UnknownName { .. } => Some(70),
            CheckFault::DuplicateName { .. } => Some(71),
            CheckFault::TypeMismatch { .. } => Some(72),
            CheckFault::UnsetResult { .. } => Some(73),
            CheckFault::BackwardJump { .. } => Some(74),
            CheckFault::UnknownLabel { .. } => Some(75),
            CheckFault::Unreachable { .. } => Some(76),
            CheckFault::ReadOnly { .. } => Some(77),
            CheckFault::ZeroDivisor { .. } => Some(78),
            CheckFault::TooMany { .. } => Some(79),
            CheckFault::OutOfMemory => None,
        }
    }

    /// Returns the line of the fault, counted from 1, or 0 for out of memory.
    pub fn line(self) -> usize
        ensures { result ≡ line_of self }
    {
        match self {
            CheckFault::UnknownName { line }
            | CheckFault::DuplicateName { line }
            | CheckFault::TypeMismatch { line }
            | CheckFault::UnsetResult { line }
            | CheckFault::BackwardJump { line }
            | CheckFault::UnknownLabel { line }
            | CheckFault::Unreachable { line }
            | CheckFault::ReadOnly { line }
            | CheckFault::ZeroDivisor { line }
            | CheckFault::TooMany { line } => line,
            CheckFault::OutOfMemory => 0,
        }
    }

    /// Returns what the fault is, in words.
    pub fn words(self) -> &'static str
        ensures { result.now ≡ words_of self }
    {
        match self {
            CheckFault::UnknownName { .. } => "the name is unknown",
            CheckFault::DuplicateName { .. } => "the name is declared twice",
            CheckFault::TypeMismatch { .. } => "the type is not the one that is needed",
            CheckFault::UnsetResult { .. } => "the result is not set",
            CheckFault::BackwardJump { .. } => "the jump goes backward",
            CheckFault::UnknownLabel { .. } => "the label is unknown",
            CheckFault::Unreachable { .. } => "the instruction can't be reached",
            CheckFault::ReadOnly { .. } => "the variable may only be read",
            CheckFault::ZeroDivisor { .. } => "the divisor is not a literal other than 0",
            CheckFault::TooMany { .. } => {
                "too many names are declared, or parentheses are too deep"
            }
            CheckFault::OutOfMemory => "out of memory",
        }
    }
}

impl From<AllocError> for CheckFault {
    ghost from_gives = { λ _ e. e ≡ OutOfMemory };

    fn from(_error: AllocError) -> CheckFault {
        CheckFault::OutOfMemory
    }
}

impl<T: Drop> From<AllocFailed<T>> for CheckFault {
    ghost from_gives = { λ _ e. e ≡ OutOfMemory };

    fn from(_error: AllocFailed<T>) -> CheckFault {
        CheckFault::OutOfMemory
    }
}
