// Laws of audited rules and diagrams, and of small runs of commands. Each function does nothing,
// and its contract is the law.
ghost use Rattle.std.specs.Prelude.{◌≡◌, ◌+◌, ℕ, true, false, List, [], ◌∷◌, None, Result};
ghost use Rattle.std.specs.List.{Contains};
ghost use Rattle.bay_audit_laws.specs.Examples.{at_all_times};
ghost use Rattle.bay_audit_laws.specs.Laws.{HasWaited, IsAllowed, ScanObeysAt};
ghost use Rattle.bay_audit_rules.specs.declared.rule.RuleKind.TheVariants.{Always, Never};
ghost use Rattle.bay_base.specs.declared.switch.Operation.{Operation};
ghost use Rattle.bay_base.specs.declared.switch.Operation.TheVariants.{Close};
ghost use Rattle.bay_mms_services.specs.declared.answer.Command.{Command};
ghost use Rattle.bay_device.specs.Device.{State};
ghost use Rattle.bay_device.specs.Fresh.{IsSameProcess, PastEvent};
ghost use Rattle.bay_device.specs.declared.event.Step.{Step};
ghost use Rattle.cmd_audit_laws.specs.Guarded.{GuardedCommandsAreHarmless, GuardedCommandsObey};
ghost use Rattle.cmd_audit_laws.specs.Orders.{five_milliseconds, octets_arrived, scanned_at, server_without_clients, contact_past, with_enable_value, lost_past, server_with_client, open_command, octets_refused, scan_past, no_octets, turn_with};
ghost use Rattle.cmd_replay.specs.History.{EachPast};
ghost use Rattle.cmd_audit_laws.specs.Replayed.{ReplayedCommandsObey};
ghost use Rattle.cmd_audit_laws.specs.Served.{ServedCommandsObey};
ghost use Rattle.cmd_audit_laws.specs.PortUses.{TurnsUsePort};
ghost use Rattle.cmd_audit_laws.specs.PrintedHolds.{HoldsAreAudited};
ghost use Rattle.cmd_audit_laws.specs.ScanWaits.{GuardedScansWait, ReplayedScansWait, ServedScansWait};
ghost use Rattle.bay_server_turn.specs.Calls.{CountedCall};
ghost use Rattle.bay_server_turn.specs.Turns.{ServerData};
ghost use Rattle.bay_server_turn.specs.declared.turn_report.Turn.{Turn};
ghost use Rattle.bay_server.specs.ServeReport.{ServesTurns, ServiceState};
ghost use Rattle.bay_io.specs.Watched.{WriterState};
ghost use Rattle.bay_io.specs.declared.outbox.WriteFault.{WriteFault};
ghost use Rattle.bay_process_port.specs.Supervised.{SupervisionSettings};
ghost use Rattle.cmd_serve.specs.Live.{IsSupervised};
ghost use Rattle.cmd_serve.specs.Requests.{AreRequested, ReceivesOctets, IsRequested, IsReleasedBy};
ghost use Rattle.cmd_serve.specs.Service.{DoneTurn, IsBegun, IsTurn};

use bay_files::files::FileSystem;
use bay_io::calls::Sink;
use bay_server::host::Host;
use bay_server_turn::link::Link;

/// The answers of an audit hold for each service of the same bay file and program. Each command
/// that a turn reports, and each line `ms command id on` (or `off`) that is printed or sent to the
/// process, follows octets of a client.
///
/// If the audit answers `holds` for a rule that forbids the command while a condition holds, the
/// condition does not hold by what the process had last reported before these octets. If it
/// answers that a timer establishes a rule with a time, and the rule applies to what the process
/// had last reported, its condition had held for this time at the last scan. After each scan of a
/// turn the interlocking values meet each rule without a time that the audit answers to hold. If it
/// answers that the release of a switch and operation holds by a single line diagram, no such
/// command is a hazard in the diagram for what the process had last reported before these octets.
///
/// An image may come from anyone: it must only be a list of octets. The text of a program may be
/// any.
pub fn served_commands_obey<F: FileSystem, L: Link, H: Host<L>, W: Sink>(
    _files: &F,
    _link: &L,
    _host: &H,
    _sink: &W,
)
    ensures { ServedCommandsObey (CountedCall L.does L.failures) H.does W.contents W.does F.reads
        F.guards }
{}

/// A service that was started with rules obeys them, with no premise on an audit. If it serves a
/// turn, the octets that it read from the file of the rules spell rules of the bay, and its turns
/// obey each of them. After each scan of a turn the interlocking values meet each rule without a
/// time. For each command of a turn, and each line `ms command id on` (or `off`) that is printed or
/// sent to the process, the condition of each rule that forbids it does not hold for what the
/// process had last reported before the octets of the client. If such a rule has a time, and it
/// applies to what the process had last reported, its condition had held for this time at the last
/// scan before the command.
///
/// A service that was started with a diagram obeys it, with no premise on an audit either. If it
/// serves a turn, the octets that it read from the file of the diagram are a single line diagram of
/// the bay. No command of a turn, and no such line, moves a switch of the bay in a way that is a
/// hazard in the diagram for what the process had last reported before the octets of the client.
///
/// An image may come from anyone: it must only be a list of octets. The text of a program may be
/// any.
pub fn guarded_commands_obey<F: FileSystem, L: Link, H: Host<L>, W: Sink>(
    _files: &F,
    _link: &L,
    _host: &H,
    _sink: &W,
)
    ensures rules { GuardedCommandsObey (CountedCall L.does L.failures) H.does W.contents W.does
        F.reads
        F.guards }
    ensures diagram { GuardedCommandsAreHarmless (CountedCall L.does L.failures) H.does W.contents
        W.does F.reads F.guards }
{}

/// The answers of an audit hold for each replay whose scenario has the same bay file and program.
/// If a rule holds that forbids a command while a condition holds, the command is issued by an
/// event before which the condition did not hold for what the process had last reported. The same
/// holds for each line `ms command id on` (or `off`) of the text that names the switch of the rule
/// by its id. If a timer establishes a rule with a time, the commands wait for it; and each scan
/// obeys each rule without a time that holds. If a release holds by a diagram, each command of its
/// switch and operation is issued by an event before which it was no hazard in the diagram, for
/// what the process had last reported; and so for each line that names the switch.
pub fn replayed_commands_obey()
    ensures { ReplayedCommandsObey }
{}

/// Each scan waits for a rule with `until`, that a switch is never released in a direction until a
/// condition has held for a time. An accepted scan that leaves the switch released so, in a state
/// that the rule covers, comes only after the condition was TRUE at this scan, and at each scan
/// before it back to one at least the time ago: for what the process had reported by then.
///
/// This holds of each service and of each replay, if an audit of the same bay file and program
/// answers `holds` for the rule; and of each service that was started with the rule in its file,
/// with no premise on an audit.
///
/// An image may come from anyone: it must only be a list of octets. The text of a program may be
/// any.
pub fn each_release_waits<F: FileSystem, L: Link, H: Host<L>, W: Sink>(
    _files: &F,
    _link: &L,
    _host: &H,
    _sink: &W,
)
    ensures served { ServedScansWait (CountedCall L.does L.failures) H.does W.contents W.does
        F.reads
        F.guards }
    ensures guarded { GuardedScansWait (CountedCall L.does L.failures) H.does W.contents W.does
        F.reads F.guards }
    ensures replayed { ReplayedScansWait }
{}

/// A supervised process of a service is that of its bay. If no line of a trace comes before it,
/// each turn that is given an event of the process, and each turn that reports a command, finds a
/// process whose connection's first line has the domain and the revision of the served device, and
/// the key.
///
/// That is so since the turns use the port of the process as the laws of the port require. If a
/// process is connected, the port that a turn finds is that after the uses since the process was
/// last absent: they begin with an empty port, and a process is connected after each of them. Each
/// turn whose lines could be printed adds two uses, of which the link made the calls. It takes what
/// the port has, at its moment and with the jump of the clocks; then, with its report and the
/// device after it, the process is attended to. No turn changes the domain or the revision of the
/// device.
pub fn a_process_of_a_service_is_of_its_bay<L: Link, H: Host<L>, W: Sink>(
    _link: &L,
    _host: &H,
    _sink: &W,
)
    ensures { (settings : SupervisionSettings) (turns : ℕ) (before : ServiceState L H)
        (old : WriterState W)
        (host : H)
        (new : WriterState W) (answer : Result ℕ WriteFault)
        (serves : ServesTurns (CountedCall L.does L.failures) H.does W.contents W.does turns before
        old
        host new answer) → IsBegun before.held → (supervised : IsSupervised settings before)
        → TurnsUsePort (CountedCall L.does L.failures) H.does W.contents W.does supervised.sends
        settings before.held.device.domain before.held.device.revision [] turns before old host new
        answer serves }
{}

/// Each line `rule LINE ID OPERATION holds ..` of the text of an audit, with a diagram or without,
/// is that of a rule in this line of the text of rules, for this operation of the switch with this
/// id, for which the audit answers that it holds, or that a timer establishes it.
pub fn printed_holds_are_audited()
    ensures { HoldsAreAudited }
{}

/// A scan with the result EnaOpn TRUE releases the command to open until it is too old, also after
/// a contact that changes nothing. A scan with the result FALSE does not, even if an earlier one
/// had TRUE. Nor does a scan if the process was lost since then, or reports something else.
pub fn the_last_scan_releases_a_command()
    ensures released { (s : State) (step : Step) (age : ℕ)
        → IsReleasedBy age age (scan_past (with_enable_value true s) step ∷ [])
        (with_enable_value true s) open_command }
    ensures unchanged { (s t : State) (step : Step) (age : ℕ)
        → IsSameProcess (with_enable_value true s) t
        → IsReleasedBy age age
        (contact_past t step ∷ scan_past (with_enable_value true s) step ∷ []) t open_command }
    ensures unscanned { (s : State) (now age : ℕ) → IsReleasedBy now age [] s open_command → ⊥ }
    ensures blocked { (s t : State) (step : Step) (now age : ℕ)
        → IsReleasedBy now age (scan_past (with_enable_value false s) step ∷ []) t open_command
        → ⊥ }
    ensures earlier { (s t : State) (step : Step) (now age : ℕ)
        → IsReleasedBy now age
        (scan_past (with_enable_value false s) step ∷ scan_past (with_enable_value true s) step
        ∷ []) t open_command → ⊥ }
    ensures old { (s t : State) (step : Step) (age : ℕ)
        → IsReleasedBy (age + 1) age (scan_past s step ∷ []) t open_command → ⊥ }
    ensures lost { (s t : State) (step : Step) (now age : ℕ)
        → IsReleasedBy now age (lost_past t step ∷ scan_past s step ∷ []) t open_command → ⊥ }
    ensures changed { (s t : State) (step : Step) (now age : ℕ) → (IsSameProcess s t → ⊥)
        → IsReleasedBy now age (scan_past s step ∷ []) t open_command → ⊥ }
{}

/// Octets are heard if they arrive on an open association, and not if none is open. No command is
/// ordered by a turn in which no octets arrive, by an octet that only begins a TPKT, or by octets
/// for which memory runs out. None is ordered without a scan, or by a scan that is too old; none on
/// a device whose process is lost, or in a turn with the loss of the process. Turns that report no
/// command are ordered. Turns are not if one of them, here the last, reports a command that is not
/// ordered. No clause has a run that orders a command: a server of bayctl_tests prints one, `3000
/// command QB1 off`, and the contract of a server states that each command that it prints is
/// ordered.
pub fn a_reported_command_needs_each_of_its_parts()
    ensures heard { (s : State) (octet : ℕ) (octets : List ℕ) (reported : Turn)
        → ReceivesOctets (server_with_client s)
        (turn_with (octets_arrived (octet ∷ octets)) reported) }
    ensures closed { (s : State) (octets : List ℕ) (reported : Turn)
        → ReceivesOctets (server_without_clients s) (turn_with (octets_arrived octets) reported)
        → ⊥ }
    ensures silent { (first : State) (h : ServerData) (reported : Turn) (past : List PastEvent)
        (command : Command) → IsRequested first h (turn_with no_octets reported) past command → ⊥ }
    ensures part { (first s : State) (reported : Turn) (past : List PastEvent) (command : Command)
        → IsRequested first (server_with_client s) (turn_with (octets_arrived (3 ∷ [])) reported)
        past
        command → ⊥ }
    ensures refused { (first s : State) (octet : ℕ) (octets : List ℕ) (reported : Turn)
        (past : List PastEvent) (command : Command)
        → IsRequested first (server_with_client s)
        (turn_with (octets_refused (octet ∷ octets)) reported)
        past
        command → ⊥ }
    ensures unscanned { (first : State) (h : ServerData) (t : DoneTurn) (command : Command)
        → IsRequested first h t [] command → ⊥ }
    ensures old { (first s : State) (h : ServerData) (t : DoneTurn) (step : Step)
        (command : Command)
        → IsRequested first h (record t { now = first.scan_max_age_ms + 1 })
        (scan_past s step ∷ []) command → ⊥ }
    ensures lost { (first : State) (h : ServerData) (t : DoneTurn) (past : List PastEvent)
        (command : Command) → h.device.is_lost ≡ true → IsRequested first h t past command → ⊥ }
    ensures told_lost { (first : State) (h : ServerData) (t : DoneTurn) (past : List PastEvent)
        (command : Command) → IsTurn h t → t.given.is_lost ≡ true
        → IsRequested first h t past command → ⊥ }
    ensures quiet { (first : State) (h : ServerData) (t u : DoneTurn) (past : List PastEvent)
        → t.reported.commands ≡ [] → u.reported.commands ≡ []
        → AreRequested first h past (t ∷ u ∷ []) }
    ensures unordered { (first : State) (h : ServerData) (t : DoneTurn) (reported : Turn)
        (past : List PastEvent) (command : Command) → Contains reported.commands command
        → AreRequested first h past (t ∷ turn_with no_octets reported ∷ []) → ⊥ }
{}

/// What obeys a rule, in small runs. The rule that switch 0 is never released for opening is obeyed
/// by a scan that leaves EnaOpn FALSE and not by one that leaves it TRUE, also if a contact
/// follows. The rule that it is always released is obeyed by the second scan and not by the first.
/// The first rule allows no command to open switch 0, and each command of another operation or
/// switch. If the switch must wait until a condition has held for 5 milliseconds, the command is
/// allowed if the condition was TRUE at a scan at moment 0 and the last scan was at moment 5; not
/// if the last scan was at 4, if the condition was FALSE at a scan since, if it was at no scan, or
/// if the device has not scanned.
pub fn a_rule_allows_only_what_obeys_it()
    ensures blocked { (first s : State) (step : Step)
        → EachPast (ScanObeysAt (at_all_times Never)) first
        (scan_past (with_enable_value false s) step ∷ []) }
    ensures released { (first s : State) (step : Step)
        → EachPast (ScanObeysAt (at_all_times Never)) first
        (scan_past (with_enable_value true s) step ∷ []) → ⊥ }
    ensures earlier { (first s t : State) (step : Step)
        → EachPast (ScanObeysAt (at_all_times Never)) first
        (contact_past t step ∷ scan_past (with_enable_value true s) step ∷ []) → ⊥ }
    ensures demanded { (first s : State) (step : Step)
        → EachPast (ScanObeysAt (at_all_times Always)) first
        (scan_past (with_enable_value true s) step ∷ []) }
    ensures lacking { (first s : State) (step : Step)
        → EachPast (ScanObeysAt (at_all_times Always)) first
        (scan_past (with_enable_value false s) step ∷ []) → ⊥ }
    ensures forbidden { (s : State) → IsAllowed (at_all_times Never) s open_command → ⊥ }
    ensures closing { (s : State) (k : ℕ)
        → IsAllowed (at_all_times Never) s (record { switch = k; operation = Close }) }
    ensures of_another { (s : State) (k : ℕ) (operation : Operation)
        → IsAllowed (at_all_times Never) s (record { switch = k + 1; operation = operation }) }
    ensures waited { (s : State)
        → HasWaited (at_all_times Never) five_milliseconds ((0, true) ∷ []) (scanned_at 5 s)
        open_command }
    ensures soon { (s : State)
        → HasWaited (at_all_times Never) five_milliseconds ((0, true) ∷ []) (scanned_at 4 s)
        open_command → ⊥ }
    ensures interrupted { (s : State)
        → HasWaited (at_all_times Never) five_milliseconds ((3, false) ∷ (0, true) ∷ [])
        (scanned_at 5 s) open_command → ⊥ }
    ensures unseen { (s : State)
        → HasWaited (at_all_times Never) five_milliseconds [] (scanned_at 5 s) open_command → ⊥ }
    ensures unscanned { (s : State)
        → HasWaited (at_all_times Never) five_milliseconds ((0, true) ∷ [])
        (record s { last_scan = None }) open_command → ⊥ }
{}
