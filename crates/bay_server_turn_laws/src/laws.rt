// Laws of a turn. Each function does nothing, and its contract is the law.
ghost use Rattle.std.specs.Prelude.{◌≡◌, ℕ, ◌+◌, ◌-◌, ◌^◌, ◌<◌, ◌≤◌, [], true, false, List, Option, None, Some, length, replicate};
ghost use Rattle.bay_device.specs.Device.{State};
ghost use Rattle.bay_device.specs.Outcomes.{associations};
ghost use Rattle.bay_server_turn.specs.Calls.{CountedCall};
ghost use Rattle.bay_server_turn.specs.Recorded.{Recording, WritesRecording};
ghost use Rattle.bay_server_turn.specs.Served.{Serves};
ghost use Rattle.bay_server_turn.specs.Turns.{ServerData, Script, after_turn, turn_calls};
ghost use Rattle.bay_server_turn.specs.declared.process_input.ProcessReport.{ProcessReport};
ghost use Rattle.bay_server_turn.specs.declared.record.RecordEnd.{RecordEnd};
ghost use Rattle.bay_server_turn.specs.declared.turn_report.Turn.{Turn};
ghost use Rattle.bay_server_turn_laws.specs.Causes.{HasItsCause};
ghost use Rattle.bay_server_turn_laws.specs.Events.{ChosenEvent, TurnIsItsEvents, turn_events};
ghost use Rattle.bay_server_turn_laws.specs.Faults.{reports_failure};
ghost use Rattle.bay_server_turn_laws.specs.Flows.{IsInTime, IsTidy, LosesNothing, read_by_calls, received_of};
ghost use Rattle.bay_server_turn_laws.specs.Fullness.{IsOpenIn, IsReportedIfFull};
ghost use Rattle.bay_server_turn_laws.specs.Order.{IsInOrder};
ghost use Rattle.bay_server_turn_laws.specs.Records.{IsWritten, RecordsTurn, TakesLines, lines_of, recorded_all};
ghost use Rattle.bay_server_turn_laws.specs.Room.{AreInRoom};
ghost use Rattle.bay_server_turn_laws.specs.CloseReports.{times_reported};

use bay_server_turn::link::Link;

/// A turn reports a failed connection of an association only if a call of the link failed: the
/// link's count of failures rises in such a turn, unless it is at its maximum.
pub fn a_reported_failure_is_counted<L: Link>(_link: &L)
    ensures { (old new : L) (now : ℕ) (given : ProcessReport) (source : List ℕ)
        (before after : ServerData)
        (turn : Turn)
        →
        Serves (CountedCall L.does L.failures) old new now given source before after turn
        → reports_failure turn.closed ≡ true →
        L.failures old < 2 ^ 64 - 1 → L.failures old < L.failures new }
{}

/// A turn reports the closing of an association at most once: with its reason, or as out of memory.
pub fn an_association_is_reported_once<L: Link>(_link: &L)
    ensures { (old new : L) (now : ℕ) (given : ProcessReport) (source : List ℕ)
        (before after : ServerData)
        (turn : Turn)
        (slot : ℕ) →
        Serves (CountedCall L.does L.failures) old new now given source before after turn
        → times_reported (slot + 1) turn.closed turn.memory ≤ 1 }
{}

/// The reason for which an association was closed in a turn follows from the calls on its link and
/// the device's answers. The turn reports an end exactly if a read brought the end of its client or
/// the device closed it as ended; a fault, exactly if the device closed it with that number; out of
/// memory, exactly if the device closed it for that; and a failed link, exactly if a read or a
/// write of it failed and neither its client nor the device had closed it. It reports a full queue
/// only if nothing else closed it.
pub fn each_closing_has_its_cause()
    ensures { (now : ℕ) (given : ProcessReport) (script : Script) (h : ServerData) → IsTidy h
        → IsInTime now h → length script.readings ≤ associations
        → length script.offers ≡ associations → (slot : ℕ)
        → slot < associations → HasItsCause now given script h (slot + 1) }
{}

/// The device after a turn is the device before it with the turn's events applied, each at the
/// turn's time, and the commands that the turn reports are those of the events' answers, in order.
/// The events are, in this order:
///
/// - if a connection was accepted, the lowest free association is opened;
/// - the loss of the process, if it is lost;
/// - for each association that is open when its turn comes, what its one read brought (its octets
///   arrive, or it is closed, or nothing);
/// - the event of the process, if there is one;
/// - exactly one scan.
///
/// After each of these come the closings of the associations to which a reply did not fit; after
/// the scan also those of associations for which a call failed. There is no other event.
pub fn a_turn_is_its_events()
    ensures events { (now : ℕ) (given : ProcessReport) (script : Script) (h : ServerData)
        → TurnIsItsEvents now given script h }
    ensures order { (now : ℕ) (given : ProcessReport) (script : Script) (h : ServerData)
        → length script.readings ≤ associations → length script.offers ≡ associations
        → IsInOrder now given script h }
{}

/// The octets that the link takes for an association in a turn, followed by those that its queue
/// then holds, are those that the queue held before, followed by those that the device sent to it
/// in the turn. For an association that is closed after the turn, the link took a prefix of these,
/// and its queue is empty. If the turn reports a full queue, more than 262,144 octets were left.
/// The octets that the link reads for an association in a turn are those that the device receives
/// from it in the turn.
pub fn octets_are_neither_lost_nor_repeated()
    ensures octets { (now : ℕ) (given : ProcessReport) (script : Script) (h : ServerData) → IsTidy h
        → IsInTime now h → length script.offers ≡ associations → LosesNothing now given script h }
    ensures received { (now : ℕ) (given : ProcessReport) (script : Script) (h : ServerData)
        → (a : ℕ) → read_by_calls a (turn_calls now given script h)
        ≡ received_of a (turn_events now given script h) }
    // A server is tidy when it is created.
    ensures begins { (device : State) (recording : Option Recording)
        → IsTidy (record {
          device = device;
          queues = replicate associations [];
          recording = recording;
        }) }
{}

/// No queue ever holds more than 262,144 octets: none does when a server is created, and none does
/// after a turn if none did before it.
pub fn queues_stay_in_their_room()
    ensures begins { (device : State) (recording : Option Recording)
        → AreInRoom (record {
          device = device;
          queues = replicate associations [];
          recording = recording;
        }) }
    ensures stays { (now : ℕ) (given : ProcessReport) (script : Script) (h : ServerData)
        → AreInRoom h
        → AreInRoom (after_turn now given script h).server }
{}

/// Whether a reply does not fit follows from the calls on the link and the device's answers. For an
/// association that is open at the beginning of a turn, or that the turn opens, the turn reports a
/// full queue exactly if the link left more than 262,144 octets of what its queue held and the
/// device sent to it, no call for it failed, its client did not end, and the device did not close
/// it.
pub fn a_full_queue_is_reported()
    ensures { (now : ℕ) (given : ProcessReport) (script : Script) (h : ServerData) → IsTidy h
        → IsInTime now h → AreInRoom h → length script.readings ≤ associations
        → length script.offers ≡ associations → (slot : ℕ) → slot < associations
        → IsOpenIn slot script h
        → IsReportedIfFull now given script h slot }
{}

/// In a turn each event of the turn is recorded, in order, if the session is: an event of the
/// process with the line that it was read from.
pub fn a_turn_records_its_events()
    ensures { (now : ℕ) (given : ProcessReport) (script : Script) (h : ServerData)
        → (after_turn now given script h).server.recording
        ≡ recorded_all now script.source (turn_events now given script h) h.recording }
{}

/// In a turn the file takes the lines of all the turn's events, in order, or the turn reports why
/// the record has ended, and the file took a prefix of them; after that it takes nothing.
pub fn a_record_is_a_prefix()
    // A record that has not ended takes all the lines of events and goes on, or takes a prefix of
    // them and ends.
    ensures lines { (now : ℕ) (source : List ℕ) (events : List ChosenEvent) (r : Recording)
        → r.is_over ≡ false → r.end ≡ None
        → TakesLines (lines_of now source events) r
        (recorded_all now source events (Some r)) }
    // A record that has ended stays as it is.
    ensures ended { (now : ℕ) (source : List ℕ) (events : List ChosenEvent) (r : Recording)
        → r.is_over ≡ true → recorded_all now source events (Some r) ≡ Some r }
    // The events of a turn are recorded, and then what waits is written.
    ensures turn { (now : ℕ) (source : List ℕ) (events : List ChosenEvent)
        (old mid new : Option Recording) (took : List ℕ) (answer : Option RecordEnd)
        → IsWritten old → mid ≡ recorded_all now source events old
        → WritesRecording took mid new answer
        → RecordsTurn (lines_of now source events) took old new answer }
{}
