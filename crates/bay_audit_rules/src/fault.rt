// Why a text is not a list of rules.
ghost use Rattle.std.specs.Prelude.{◌≡◌};
ghost use Rattle.bay_audit_rules.specs.Code.{code_of, line_of, words_of};
ghost use Rattle.bay_audit_rules.specs.declared.fault.RuleFault.TheVariants.{OutOfMemory};

use std::alloc::{AllocError, AllocFailed};
use thiserror::Error;

/// Why a text is not a list of rules, with the line of the fault, counted from 1.
#[derive(Clone, Copy, Debug, Error)]
#[error("{}", self.words())]
pub enum RuleFault {
    /// A word or a sign that does not occur in rules.
    BadWord { line: usize },
    /// The words of a line do not form a rule.
    BadLine { line: usize },
    /// A name of no switch, input or measured value of the bay.
    UnknownName { line: usize },
    /// A position, a value or a time that the named object can't have.
    BadValue { line: usize },
    /// More than 1,000 rules, or parentheses nested more than 64 deep.
    TooMany { line: usize },
    /// A text without a rule.
    NoRule,
    /// Out of memory.
    OutOfMemory,
}

impl RuleFault {
    /// Returns the number of the fault, 140 to 145; `None` for `OutOfMemory`.
    pub fn code(self) -> Option<u8>
        ensures { result ≡ code_of self }
    {
        match self {
            RuleFault::BadWord { .. } => Some(140),
            RuleFault::BadLine { .. } => Some(141),
            RuleFault::UnknownName { .. } => Some(142),
            RuleFault::BadValue { .. } => Some(143),
            RuleFault::TooMany { .. } => Some(144),
            RuleFault::NoRule => Some(145),
            RuleFault::OutOfMemory => None,
        }
    }

    /// Returns the line of the fault, counted from 1; 1 for a text without a rule, 0 for
    /// `OutOfMemory`.
    pub fn line(self) -> usize
        ensures { result ≡ line_of self }
    {
        match self {
            RuleFault::BadWord { line }
            | RuleFault::BadLine { line }
            | RuleFault::UnknownName { line }
            | RuleFault::BadValue { line }
            | RuleFault::TooMany { line } => line,
            RuleFault::NoRule => 1,
            RuleFault::OutOfMemory => 0,
        }
    }

    /// Returns what the fault is, in words.
    pub fn words(self) -> &'static str
        ensures { result.now ≡ words_of self }
    {
        match self {
            RuleFault::BadWord { .. } => "a word or a sign that no rule has",
            RuleFault::BadLine { .. } => "a line is no rule",
            RuleFault::UnknownName { .. } => "a name is unknown",
            RuleFault::BadValue { .. } => {
                "a position, a value or a time that what is named can't have"
            }
            RuleFault::TooMany { .. } => {
                "too many rules, or too many parentheses within each other"
            }
            RuleFault::NoRule => "a text without a rule",
            RuleFault::OutOfMemory => "out of memory",
        }
    }
}

impl From<AllocError> for RuleFault {
    ghost from_gives = { λ _ e. e ≡ OutOfMemory };

    fn from(_e: AllocError) -> RuleFault {
        RuleFault::OutOfMemory
    }
}

impl<T: Drop> From<AllocFailed<T>> for RuleFault {
    ghost from_gives = { λ _ e. e ≡ OutOfMemory };

    fn from(_e: AllocFailed<T>) -> RuleFault {
        RuleFault::OutOfMemory
    }
}
