// Laws of the port of a process. Each function does nothing, and its contract is the law.
ghost use Rattle.std.specs.Prelude.{◌≡◌, ℕ, Bool, false, true, List, None, Option, Some};
ghost use Rattle.std.specs.declared.net.socket_addr.SocketAddrV4.{SocketAddrV4};
ghost use Rattle.bay_device.specs.Device.{State};
ghost use Rattle.bay_process_port.specs.Polling.{Script};
ghost use Rattle.bay_process_port.specs.Examples.{sent_after_a};
ghost use Rattle.bay_process_port.specs.Laws.{IsReadable, ReportsNothing, WritesInOrder};
ghost use Rattle.bay_process_port.specs.Ports.{PortData, empty_port, port_reading};
ghost use Rattle.bay_process_port.specs.Supervision.{AreOfBay, IsLostOrBelieved, IsOfThisBay, IsOnTime};
ghost use Rattle.bay_process_port.specs.ProcessOutput.{ReportedTurn};
ghost use Rattle.bay_process_port.specs.Uses.{IsUpToDate, LosesNoLine, StaysPresent, Use, after_uses};
ghost use Rattle.bay_process_port.specs.Supervised.{SupervisionSettings, WatchData};
ghost use Rattle.bay_process_port.specs.declared.port.Presence.TheVariants.{Absent, Present};
ghost use Rattle.bay_server_turn.specs.Calls.{StreamEnd, Silence};
ghost use Rattle.bay_server_turn.specs.declared.process_input.ProcessEvent.{ProcessEvent};

/// A process that has gone reports nothing. When its connection is closed, the port discards what
/// the process had sent. The next turn begins with the loss of the process, and no other process'
/// line is read before that: until then the link is not called. A turn that no longer believes a
/// process begins with its loss and reads no line of it, and after this turn its connection is
/// closed. A process that has gone while it waited is not accepted.
pub fn a_closed_process_reports_nothing()
    ensures { (t : ReportedTurn) (s : State) (now jump : ℕ) (script : Script) (p : PortData)
        → ReportsNothing t s now jump script p }
{}

/// A turn refuses no line of the port, so that no process can end a server.
pub fn a_process_ends_no_server()
    ensures { (s : State) (now jump : ℕ) (p : PortData) → IsReadable s now jump p }
{}

/// A process receives the reports of turns, in order and without a gap, or a prefix of them if its
/// connection is closed.
pub fn a_process_gets_reports_in_order()
    ensures { (t : ReportedTurn) (s : State) (script : Script) (p : PortData)
        → p.presence ≡ Present → WritesInOrder t s script p }
{}

/// No line of a process is lost, repeated or joined with another. While the process is connected,
/// the octets that the link reads since its acceptance are lines, each with its end, followed by
/// the buffered octets. Turns get these lines in order, except those without an event, whenever
/// turns take lines, and in whatever pieces the octets arrive.
pub fn a_process_loses_no_line()
    ensures { (sends : Bool) (settings : Option SupervisionSettings) (uses : List Use)
        → StaysPresent uses (empty_port sends settings Absent) → LosesNoLine sends settings uses }
{}

/// The beginning of a line that a process has sent is buffered while the process is connected, and
/// dropped with its connection: the run in which nothing more arrives loses no line, and the run in
/// which the connection ends does.
pub fn a_partial_line_ends_with_its_process()
    ensures here { (t : ReportedTurn) (s : State) (from : SocketAddrV4)
        → LosesNoLine false None (sent_after_a Silence t s from) }
    ensures gone { (t : ReportedTurn) (s : State) (from : SocketAddrV4)
        → LosesNoLine false None (sent_after_a StreamEnd t s from) → ⊥ }
{}

/// A process that receives releases knows them: after each turn, while the process is connected,
/// the last line that it was sent for a switch has the release of this switch. The first turn after
/// its acceptance sends all of them.
pub fn a_process_knows_the_releases()
    ensures { (settings : Option SupervisionSettings) (uses : List Use) (t : ReportedTurn)
        (s : State)
        (script : Script) → StaysPresent uses (empty_port true settings Absent)
        → IsUpToDate settings uses t s script }
{}

/// No old word: each event of a supervised process that a turn takes is that of a line which names
/// the moment of the event. This moment is at most the milliseconds for which the process may be
/// silent before or after the turn, and not before the moment of the last line that was taken. The
/// process has introduced itself.
pub fn no_old_message()
    ensures { (s : State) (now jump : ℕ) (p : PortData) (w : WatchData) (event : ProcessEvent)
        → p.watch ≡ Some w → (port_reading s now jump p).event ≡ Some event
        → IsOnTime s now p w event }
{}

/// A supervised process is that of this bay: if a turn takes an event of the process, the first
/// line of its connection has this domain, this revision and this key.
pub fn a_supervised_process_is_of_this_bay()
    ensures { (sends : Bool) (settings : SupervisionSettings) (domain revision : List ℕ)
        (uses : List Use)
        (s : State) (now jump : ℕ) (event : ProcessEvent)
        → StaysPresent uses (empty_port sends (Some settings) Absent)
        → AreOfBay domain revision uses
        → (port_reading s now jump
        (after_uses uses (empty_port sends (Some settings) Absent))).event
        ≡ Some event
        → IsOfThisBay sends settings domain revision uses }
{}

/// A silent process is not believed: a turn begins with the loss of a connected process, unless its
/// last line, or before the first line its acceptance, counts from a moment at most the
/// milliseconds for which it may be silent before this very turn, and the system's clock has gone
/// on by no more than these milliseconds beyond the steady one since the turn before.
pub fn a_silent_process_is_lost()
    ensures { (s : State) (now jump : ℕ) (p : PortData) → IsLostOrBelieved s now jump p }
{}
