// Why a control is refused.
ghost use Rattle.std.specs.Prelude.{◌≡◌};
ghost use Rattle.bay_control.specs.Causes.{code_of, words_of};

use thiserror::Error;

/// Why a control is refused, or why an accepted one ended without effect (IEC 61850-7-2, 20:
/// AddCause).
#[derive(Clone, Copy, Debug, PartialEq, Eq, Error)]
#[error("{}", self.words())]
pub enum AddCause {
    /// The switch has no control of this kind.
    NotSupported,
    /// The key of the switch was not last reported to be at remote.
    BlockedBySwitchingHierarchy,
    /// Another association has selected the switch.
    SelectFailed,
    /// The switch already has the requested position.
    PositionReached,
    /// The request is a test.
    BlockedByMode,
    /// The process is lost: nothing was received from it since.
    BlockedByProcess,
    /// The interlocking does not release the operation, or the last scan is not fresh.
    BlockedByInterlocking,
    /// The request is to close with a synchrocheck, which the bay file refuses for this switch.
    BlockedBySynchrocheck,
    /// The switch is operating.
    CommandAlreadyInExecution,
    /// Another switch of the bay is selected or operating.
    OneOfNControl,
    /// The switch did not reach the requested position in time. This ends an execution; it never
    /// refuses a request.
    TimeLimitOver,
    /// The association has not selected the switch, or has selected it for another operation or
    /// originator.
    ObjectNotSelected,
}

impl AddCause {
    /// Returns the number of the cause in the standard.
    pub fn code(self) -> u8
        ensures { result ≡ code_of self }
    {
        match self {
            AddCause::NotSupported => 1,
            AddCause::BlockedBySwitchingHierarchy => 2,
            AddCause::SelectFailed => 3,
            AddCause::PositionReached => 5,
            AddCause::BlockedByMode => 8,
            AddCause::BlockedByProcess => 9,
            AddCause::BlockedByInterlocking => 10,
            AddCause::BlockedBySynchrocheck => 11,
            AddCause::CommandAlreadyInExecution => 12,
            AddCause::OneOfNControl => 14,
            AddCause::TimeLimitOver => 16,
            AddCause::ObjectNotSelected => 18,
        }
    }

    /// Returns what the cause is, in words.
    pub fn words(self) -> &'static str
        ensures { result.now ≡ words_of self }
    {
        match self {
            AddCause::NotSupported => "the switch has no control of this kind",
            AddCause::BlockedBySwitchingHierarchy => "the key of the switch is at local",
            AddCause::SelectFailed => "another association has selected the switch",
            AddCause::PositionReached => "the switch is where it is asked to go",
            AddCause::BlockedByMode => "the request is a test request",
            AddCause::BlockedByProcess => "the process is lost",
            AddCause::BlockedByInterlocking => "the interlocking does not release the operation",
            AddCause::BlockedBySynchrocheck => "the switch has no synchrocheck",
            AddCause::CommandAlreadyInExecution => "the switch is operating",
            AddCause::OneOfNControl => "another switch is selected or operating",
            AddCause::TimeLimitOver => "the switch did not reach its position in time",
            AddCause::ObjectNotSelected => "the association has not selected the switch for this",
        }
    }
}
