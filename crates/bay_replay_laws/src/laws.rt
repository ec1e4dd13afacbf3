// Laws of a report. Each function does nothing, and its contract is the law.
ghost use Rattle.bay_replay_laws.specs.Answered.{CommandsAreAnswered};
ghost use Rattle.bay_replay_laws.specs.Meant.{ScansAreMeant};
ghost use Rattle.bay_replay_laws.specs.ReadBack.{ReadsBudgets, ReadsCommands, ReadsScans, ReadsSends};
ghost use Rattle.bay_replay_laws.specs.Released.{CommandsAreReleased};
ghost use Rattle.bay_replay_laws.specs.Texts.{ScansAreWithinBudget};

/// The line of a load, of a scan, of a command and of sent octets is read back, by a definition
/// that splits a line into words and knows nothing of how it is printed. Numbers are below 2 ^ 64,
/// and ids are as a bay file has them.
pub fn what_is_printed_is_read_back()
    ensures budgets { ReadsBudgets }
    ensures scans { ReadsScans }
    ensures commands { ReadsCommands }
    ensures sends { ReadsSends }
{}

/// In each text that a replay may print, each line of a scan has at most as many steps as the first
/// line allows.
pub fn scans_are_within_the_budget()
    ensures { ScansAreWithinBudget }
{}

/// In each text that a replay may print, each line `ms command id on` (or `off`) follows a line `m
/// scan ..` with `id=x1` (for `off`: `id=1y`), where ms - m is at most the `scan_max_age_ms` of the
/// bay. That line is of the last scan before the command: of the events of the trace between the
/// two, none is a scan that was accepted, and none has changed the process, as a contact, an input
/// or a measurement may; and no line between the two reads as a scan.
pub fn printed_commands_are_released()
    ensures { CommandsAreReleased }
{}

/// In each text that a replay may print, each line of a command is one of the lines for octets of a
/// client. One of the PDUs in these octets requests the operate of this switch; and among the lines
/// for the same line of the trace is one of octets sent on the same association, by their
/// hexadecimal digits, whose PDU, read as the response to that request, has a success as its
/// result. If the switch has a key, the process had last reported before these octets that the key
/// is at remote, and it was not lost since.
pub fn printed_commands_are_answered()
    ensures { CommandsAreAnswered }
{}

/// In each text that a replay may print, each line of a scan is one of the lines for a scan of the
/// trace, at its moment. Its `id=xy` are, switch by switch, the values of EnaOpn and EnaCls by the
/// meaning of the program's text, from the retained variables, positions, inputs and measured
/// values that the device has by then. A value that the program does not name is 0.
pub fn printed_scans_are_meant()
    ensures { ScansAreMeant }
{}
