// The result of a command.
ghost use Rattle.std.specs.Prelude.{◌≡◌};
ghost use Rattle.bay_main.specs.Commands.{IsCommandResult};
ghost use Rattle.bay_main.specs.Ending.{error_message_of, status_of};

use bay_io::outbox::WriteFault;
use bay_report::output::Status;

/// The result of a command.
#[derive(Drop)]
pub enum CommandResult {
    /// The command ended with this exit status.
    Status(u8),
    /// A write failed, either of the output or of a file.
    WriteFailed,
    /// The arguments are not a valid command. The text has the reason, or the help that was
    /// requested.
    Refused(String),
}

impl CommandResult {
    /// Returns the result of a command, from that of its function.
    pub fn of(answer: Result<u8, WriteFault>) -> CommandResult
        ensures { IsCommandResult answer result }
    {
        match answer {
            Ok(status) => CommandResult::Status(status),
            Err(WriteFault) => CommandResult::WriteFailed,
        }
    }

    /// Returns the exit status: 3 for a failed write, 2 for refused arguments.
    pub fn status(&self) -> u8
        ensures { result ≡ status_of self.now }
    {
        match self {
            CommandResult::Status(status) => *status,
            CommandResult::WriteFailed => Status::Fault.code(),
            CommandResult::Refused(_) => Status::Usage.code(),
        }
    }

    /// Returns the text for standard error: `fault 122` for a failed write, the text of refused
    /// arguments, and otherwise nothing.
    pub fn error_message(&self) -> &str
        ensures { result.now ≡ error_message_of self.now }
    {
        match self {
            CommandResult::Status(_) => "",
            CommandResult::WriteFailed => "fault 122\n",
            CommandResult::Refused(text) => text.as_str(),
        }
    }
}
