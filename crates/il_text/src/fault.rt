// Why a text is not a program.
ghost use Rattle.std.specs.Prelude.{◌≡◌};
ghost use Rattle.il_text.specs.Code.{code_of, line_of, words_of};
ghost use Rattle.il_text.specs.declared.fault.TextFault.TheVariants.{OutOfMemory};

use std::alloc::{AllocError, AllocFailed};
use thiserror::Error;

/// Why a text is not a program, with the line of the fault, counted from 1.
#[derive(Clone, Copy, Debug, Error)]
#[error("{}", self.words())]
pub enum TextFault {
    /// A character that begins no token, a malformed literal, a name of more than 64 characters, or
    /// an unclosed comment.
    BadToken { line: usize },
    /// The tokens do not form a line that is allowed here, or the text ends early.
    BadLine { line: usize },
    /// More than 16 parentheses are open at once.
    TooDeep { line: usize },
    /// A well-formed literal outside the range of its type.
    BadLiteral { line: usize },
    /// More than 4,000 lines hold an instruction or a `)`.
    TooLong { line: usize },
    /// Out of memory.
    OutOfMemory,
}

impl TextFault {
    /// Returns the fault's number, 60 to 64, or `None` for out of memory.
    pub fn code(self) -> Option<u8>
        ensures { result ≡ code_of self }
    {
        match self {
            TextFault::BadToken { .. } => Some(60),
            TextFault::BadLine { .. } => Some(61),
            TextFault::TooDeep { .. } => Some(62),
            TextFault::BadLiteral { .. } => Some(63),
            TextFault::TooLong { .. } => Some(64),
            TextFault::OutOfMemory => None,
        }
    }

    /// Returns the line of the fault, counted from 1, or 0 for out of memory.
    pub fn line(self) -> usize
        ensures { result ≡ line_of self }
    {
        match self {
            TextFault::BadToken { line }
            | TextFault::BadLine { line }
            | TextFault::TooDeep { line }
            | TextFault::BadLiteral { line }
            | TextFault::TooLong { line } => line,
            TextFault::OutOfMemory => 0,
        }
    }

    /// Returns what the fault is, in words.
    pub fn words(self) -> &'static str
        ensures { result.now ≡ words_of self }
    {
        match self {
            TextFault::BadToken { .. } => "a token cannot be read",
            TextFault::BadLine { .. } => "a line cannot be read",
            TextFault::TooDeep { .. } => "parentheses are too deep",
            TextFault::BadLiteral { .. } => "a literal is out of range",
            TextFault::TooLong { .. } => "the program is too long",
            TextFault::OutOfMemory => "out of memory",
        }
    }
}

impl From<AllocError> for TextFault {
    ghost from_gives = { λ _ e. e ≡ OutOfMemory };

    fn from(_error: AllocError) -> TextFault {
        TextFault::OutOfMemory
    }
}

impl<T: Drop> From<AllocFailed<T>> for TextFault {
    ghost from_gives = { λ _ e. e ≡ OutOfMemory };

    fn from(_error: AllocFailed<T>) -> TextFault {
        TextFault::OutOfMemory
    }
}
