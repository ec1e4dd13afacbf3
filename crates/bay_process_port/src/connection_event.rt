// Events of the process's connection.
ghost use Rattle.std.specs.Prelude.{◌≡◌};
ghost use Rattle.bay_process_port.specs.Code.{code_of};

use bay_lines::escaped::EscapedText;

/// Why the connection of the process was closed.
#[derive(Drop)]
pub enum DisconnectReason {
    /// The process sends no more octets.
    Ended,
    /// It sent this line, which is invalid or too long.
    BadLine(EscapedText),
    /// A line did not fit into its queue.
    QueueFull,
    /// A read or a write of the connection failed.
    LinkFailed,
    /// The first line of a supervised process does not have the name and the key of this bay.
    Foreign,
    /// The moment of a line is too far from the server's.
    Untimely,
    /// The moment of a line is before that of the line before it.
    OutOfOrder,
    /// No whole line came for this number of milliseconds, for which a supervised process may be
    /// silent.
    Silent(u32),
    /// The system's clock has gone on further beyond the steady one than a supervised process may
    /// be silent: the machine has slept, or its clock was set.
    Jumped,
}

impl DisconnectReason {
    /// Returns the number of the reason: 0, 120, or 130 to 134.
    pub fn code(&self) -> u8
        ensures { result ≡ code_of self.now }
    {
        match self {
            DisconnectReason::Ended => 0,
            DisconnectReason::BadLine(_) => 120,
            DisconnectReason::QueueFull => 130,
            DisconnectReason::LinkFailed => 131,
            DisconnectReason::Foreign => 132,
            DisconnectReason::Untimely | DisconnectReason::OutOfOrder => 133,
            DisconnectReason::Silent(_) | DisconnectReason::Jumped => 134,
        }
    }
}

/// An event of the connection.
#[derive(Drop)]
pub enum ConnectionEvent {
    /// It was accepted.
    Opened,
    /// It was closed.
    Closed(DisconnectReason),
}
