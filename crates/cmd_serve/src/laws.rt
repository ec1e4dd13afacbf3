// Laws of a service. Each function does nothing, and its contract is the law.
ghost use Rattle.std.specs.Prelude.{ℕ, List, [], Option, Result, replicate};
ghost use Rattle.bay_device.specs.Device.{State};
ghost use Rattle.bay_device.specs.Fresh.{IsHistory};
ghost use Rattle.bay_io.specs.Watched.{WriterState};
ghost use Rattle.bay_io.specs.declared.outbox.WriteFault.{WriteFault};
ghost use Rattle.bay_device.specs.Load.{IsLoaded, LoadsDevice};
ghost use Rattle.bay_device.specs.Meaning.{Runs};
ghost use Rattle.bay_device.specs.Outcomes.{associations};
ghost use Rattle.bay_load.specs.Loads.{IsCompiled, parsed_bay, parsed_program};
ghost use Rattle.bay_load.specs.declared.load.Form.{Form};
ghost use Rattle.bay_load.specs.declared.load.Form.TheVariants.{Logic};
ghost use Rattle.bay_replay_laws.specs.ReadBack.{HaveIds};
ghost use Rattle.bay_server_turn.specs.Calls.{CountedCall};
ghost use Rattle.bay_server_turn.specs.Recorded.{Recording};
ghost use Rattle.bay_server_turn.specs.Turns.{ServerData};
ghost use Rattle.bay_server.specs.ServeReport.{ServiceState, ServesTurns};
ghost use Rattle.bay_process_port.specs.Supervised.{SupervisionSettings};
ghost use Rattle.cmd_serve.specs.Live.{CommandsLive, IsSupervised};
ghost use Rattle.cmd_serve.specs.SessionRecord.{KeepsRecord};
ghost use Rattle.cmd_serve.specs.Requests.{AreRequested};
ghost use Rattle.cmd_serve.specs.Texts.{ArePrinted};
ghost use Rattle.cmd_serve.specs.Service.{AreTurns, DoneTurn, IsBegun, IsService, turns_in};

use bay_io::calls::Sink;
use bay_server::host::Host;
use bay_server_turn::link::Link;

/// All turns that are served are one run of the device, from load on: the events of the turns, each
/// at its turn's moment, are a history of the device. Each command follows a scan of this history
/// that is not too old, since which the process has not changed. Each command is one that the
/// interlocking releases on a fresh scan, and an operate that a client's octets request and that
/// the octets of the answer accept, backed by a select if its switch must be selected. Each scan of
/// a device that runs a program results in what the program means.
pub fn all_turns_are_one_run<L: Link, H: Host<L>, W: Sink>(_link: &L, _host: &H, _sink: &W)
    ensures run { (turns : ℕ) (before : ServiceState L H) (old new : WriterState W) (host : H)
        (answer : Result ℕ WriteFault)
        (serves : ServesTurns (CountedCall L.does L.failures) H.does W.contents W.does turns before
        old
        host new answer) → IsHistory [] before.held.device
        → IsService before.held
        (turns_in (CountedCall L.does L.failures) H.does W.contents W.does turns
        before old host new answer serves) }
    // A new server of a device that was just loaded meets `IsBegun`, whether its session is
    // recorded or not.
    ensures begins { (bay : List ℕ) (form : Form) (program : List ℕ) (device : State)
        (recording : Option Recording) → LoadsDevice bay form program device
        → IsBegun (record {
          device = device;
          queues = replicate associations [];
          recording = recording;
        }) }
    // A device that was loaded from a program's text runs it.
    ensures runs { (bay program : List ℕ) (device : State) → LoadsDevice bay Logic program device
        → (loaded : IsLoaded (parsed_bay bay) (IsCompiled (parsed_program program)) device)
        × Runs loaded.made.checked device }
{}

/// Each command that a turn reports, and so each line `ms command id on` (or `off`) that is printed
/// for it, is an operate that a client requested, in the octets that the link read for its
/// association in this turn.
///
/// Its success is in octets that the device sent to this association in the turn: the octets that
/// the link takes for the association in the turn, followed by those that its queue then holds, are
/// those that the queue held before, followed by all that the device sent to it; if the association
/// is closed after the turn, the link took a prefix of these.
///
/// The last scan before the command is of an earlier turn and not too old. It left the switch's
/// interlocking value TRUE, and since then the process has not changed: in the turn itself only
/// events of associations come before the octets. If the switch has a key, the process last
/// reported before this turn that the key is at remote, and it was not lost since.
pub fn each_command_is_requested<L: Link, H: Host<L>, W: Sink>(_link: &L, _host: &H, _sink: &W)
    ensures { (turns : ℕ) (before : ServiceState L H) (old new : WriterState W) (host : H)
        (answer : Result ℕ WriteFault)
        (serves : ServesTurns (CountedCall L.does L.failures) H.does W.contents W.does turns before
        old
        host new answer) → IsBegun before.held
        → AreRequested before.held.device before.held []
        (turns_in (CountedCall L.does L.failures) H.does
        W.contents W.does turns before old host new answer serves) }
{}

/// Each line that a server prints for its turns, or sends to its process, and that reads as a
/// command, `ms command id on` (or `off`), is that of a command of this turn, at the turn's moment,
/// to the switch with this id. This command has the client's octets, the success sent to the client
/// and the last scan of the earlier turns that the law above requires.
pub fn printed_commands_are_requested<L: Link, H: Host<L>, W: Sink>(_link: &L, _host: &H, _sink: &W)
    ensures lines { (turns : ℕ) (before : ServiceState L H) (old new : WriterState W) (host : H)
        (answer : Result ℕ WriteFault)
        (serves : ServesTurns (CountedCall L.does L.failures) H.does W.contents W.does turns before
        old
        host new answer) → IsBegun before.held → HaveIds before.held.device.switches
        → ArePrinted before.held.device before.held []
        (turns_in (CountedCall L.does L.failures) H.does
        W.contents W.does turns before old host new answer serves) }
    // The switches of a device that was loaded have ids.
    ensures names { (bay : List ℕ) (form : Form) (program : List ℕ) (device : State)
        → LoadsDevice bay form program device → HaveIds device.switches }
{}

/// No octets that any client sends, in whatever turns, cause a command without the interlocking:
/// whatever the link returns and the process reports, each command of each turn was released by the
/// last scan, which left its interlocking value TRUE, and is an operate that was requested and
/// answered.
pub fn no_octets_command_alone()
    ensures { (begun : ServerData) (turns : List DoneTurn) → IsBegun begun → AreTurns begun turns
        → AreRequested begun.device begun [] turns }
{}

/// Commands need a live process: if a server's process is supervised, and no line of a trace comes
/// before it, then in each turn that reports a command the process is connected, it has introduced
/// itself as the process of this bay, and its last line counts from a moment at most the
/// milliseconds of the supervision before the moment of this very turn; a line counts from no later
/// moment than that of the turn that took it. Since the turn before, the system's clock has gone on
/// by no more than these milliseconds beyond the steady one.
pub fn commands_need_a_live_process<L: Link, H: Host<L>, W: Sink>(_link: &L, _host: &H, _sink: &W)
    ensures { (settings : SupervisionSettings) (turns : ℕ) (before : ServiceState L H)
        (old : WriterState W)
        (host : H)
        (new : WriterState W) (answer : Result ℕ WriteFault)
        (serves : ServesTurns (CountedCall L.does L.failures) H.does W.contents W.does turns before
        old
        host new answer) → IsBegun before.held → IsSupervised settings before
        → CommandsLive (CountedCall L.does L.failures) H.does W.contents W.does settings turns
        before old
        host new answer serves }
{}

/// The record of a session is what happened in it. The file takes, for each turn in order, the lines
/// of all events of the turn, in their order and at the turn's moment, an event of the process with
/// the words of the line that it was read from. Or the record ends: that is logged in this turn, the
/// file takes a prefix of these lines, and nothing from then on.
///
/// So what the file takes in all turns is a prefix of the lines of all their events: all of these if
/// no end is logged, and never more octets than the record may have. If a session isn't recorded,
/// nothing is taken, and no end is logged.
pub fn a_record_is_what_happened<L: Link, H: Host<L>, W: Sink>(_link: &L, _host: &H, _sink: &W)
    ensures { (turns : ℕ) (before : ServiceState L H) (old new : WriterState W) (host : H)
        (answer : Result ℕ WriteFault)
        (serves : ServesTurns (CountedCall L.does L.failures) H.does W.contents W.does turns before
        old
        host new answer) → KeepsRecord before.held
        (turns_in (CountedCall L.does L.failures) H.does W.contents W.does turns
        before old host new answer serves) }
{}
