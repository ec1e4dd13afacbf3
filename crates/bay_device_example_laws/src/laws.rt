// Laws of runs. Each function does nothing; its contract is the law.
ghost use Rattle.std.specs.Prelude.{◌≡◌, ◌≢◌, ◌+◌, ℕ, ℤ, Bool, true, false, List, [], ◌∷◌, Ok, Err, Some, None, codes};
ghost use Rattle.std.specs.Borrow.{Bor};
ghost use Rattle.bay_base.specs.declared.point.MeterField.{MeterField};
ghost use Rattle.bay_base.specs.declared.position.Dbpos.{Dbpos};
ghost use Rattle.bay_tree.specs.declared.leaf.Leaf.{Leaf};
ghost use Rattle.bay_tree.specs.declared.row.Row.{Row};
ghost use Rattle.bay_control.specs.Acts.{Closed, Opened, Select, SelectWith};
ghost use Rattle.bay_control.specs.declared.request.Choice.{Choice};
ghost use Rattle.bay_mms_services.specs.Bay.{Bay};
ghost use Rattle.bay_device.specs.Commands.{CommandsReleased};
ghost use Rattle.bay_device.specs.Device.{State};
ghost use Rattle.bay_device.specs.Fresh.{IsHistory, FreshAt, HasScan, IsSameProcess, PastEvent};
ghost use Rattle.bay_device.specs.Meaning.{HaltsAt, MeansAt};
ghost use Rattle.bay_device.specs.Operates.{AllOperate, AreOperates, AreRepliedForEvent};
ghost use Rattle.bay_device.specs.Outcomes.{initial_connection};
ghost use Rattle.bay_device.specs.Remote.{IsAtRemote};
ghost use Rattle.bay_device.specs.declared.event.Event.{Event};
ghost use Rattle.bay_device.specs.declared.event.Event.TheVariants.{BadMeasure, Close, Contact, Input, Lost, Measure, Open, Recv, Scan};
ghost use Rattle.bay_device.specs.declared.event.Step.{Step};
ghost use Rattle.bay_device.specs.declared.fault.StepFault.{StepFault};
ghost use Rattle.bay_device_example_laws.specs.Chains.{AnswersFixStates, OneChain, OneChainOf, OneEnd};
ghost use Rattle.bay_device_example_laws.specs.Commands.{HasOnlyCommand, close_command, interlocked_state, keyed_state, open_command, operating_state, released_state};
ghost use Rattle.bay_device_example_laws.specs.Keys.{input_past, open_switch, refused_input, two_switches};
ghost use Rattle.bay_device_example_laws.specs.Operates.{IsAccepted, IsOther, IsRefused, step_with_commands};
ghost use Rattle.bay_device_example_laws.specs.Scans.{contact_past, halting_device, is_heard_after_loss, lost_past, empty_program, refused_past, scan_past, state_after_reports, with_code, with_slot};
ghost use Rattle.bay_device_example_laws.specs.Selects.{IsBackedAfter, IsMatchedAfter, accepted_entry, cancel_entry, unrelated_entries, operate_entry, refused_select, selected_by, selected_with};

/// A select backs an operate of the same switch by the same association until it expires after two
/// seconds, also if other associations act, requests are refused or another switch is operated in
/// between. An operate without a select is not backed; nor is one whose select is by another
/// association, refused, expired, cancelled, used up by an operate, or followed by the closing or
/// opening of the association or by a granted select by another association or of another switch.
pub fn a_select_backs_its_own_operate()
    ensures backed { (choice : Choice)
        → IsBackedAfter choice 1999 (selected_by 1 ∷ []) }
    ensures left { (choice : Choice)
        → IsBackedAfter choice 1999 (selected_by 1 ∷ unrelated_entries choice) }
    ensures over { (choice : Choice)
        → IsBackedAfter choice 2000 (selected_by 1 ∷ []) → ⊥ }
    ensures missing { (choice : Choice) → IsBackedAfter choice 1999 [] → ⊥ }
    ensures of_another { (choice : Choice)
        → IsBackedAfter choice 1999 (selected_by 2 ∷ []) → ⊥ }
    ensures cancelled { (choice : Choice)
        → IsBackedAfter choice 1999 (selected_by 1 ∷ cancel_entry ∷ []) → ⊥ }
    ensures used { (choice : Choice)
        → IsBackedAfter choice 1999 (selected_by 1 ∷ operate_entry choice ∷ []) → ⊥ }
    ensures refused { (choice : Choice) → IsBackedAfter choice 1999 (refused_select ∷ [])
        → ⊥ }
    ensures closed { (choice : Choice)
        → IsBackedAfter choice 1999 (selected_by 1 ∷ accepted_entry (Closed 1) ∷ []) → ⊥ }
    ensures opened { (choice : Choice)
        → IsBackedAfter choice 1999 (selected_by 1 ∷ accepted_entry (Opened 1) ∷ []) → ⊥ }
    ensures taken { (choice : Choice)
        → IsBackedAfter choice 1999 (selected_by 1 ∷ selected_by 2 ∷ []) → ⊥ }
    ensures moved { (choice : Choice)
        → IsBackedAfter choice 1999 (selected_by 1 ∷ accepted_entry (Select 1 1) ∷ []) → ⊥ }
{}

/// With enhanced security a select with value backs an operate with the same operation and
/// originator. A select for another operation or by another originator does not back it, nor does
/// one by another association, one without value, or one after which another select was granted,
/// also to another association or of another switch.
pub fn a_select_with_value_backs_what_it_requested()
    ensures backed { (choice : Choice) → IsMatchedAfter choice (selected_with choice ∷ []) }
    ensures other { (asked choice : Choice) → asked ≢ choice
        → IsMatchedAfter choice (selected_with asked ∷ []) → ⊥ }
    ensures of_another { (choice : Choice)
        → IsMatchedAfter choice (accepted_entry (SelectWith 2 0 choice) ∷ []) → ⊥ }
    ensures plain { (choice : Choice) → IsMatchedAfter choice (selected_by 1 ∷ []) → ⊥ }
    ensures earlier { (asked choice : Choice) → asked ≢ choice
        → IsMatchedAfter choice (selected_with choice ∷ selected_with asked ∷ []) → ⊥ }
    ensures taken { (choice : Choice)
        → IsMatchedAfter choice
        (selected_with choice ∷ accepted_entry (SelectWith 2 0 choice) ∷ [])
        → ⊥ }
    ensures moved { (choice : Choice)
        → IsMatchedAfter choice
        (selected_with choice ∷ accepted_entry (SelectWith 1 1 choice) ∷ [])
        → ⊥ }
{}

/// A device may issue a command to open after a fresh scan that has released it, with the key of
/// the switch, if it has one, at remote. It may not if one thing differs: there is no scan, the
/// scan is too old or stale, the process is lost, the key is at local, the switch is not released,
/// a switch is operating, or the step sends nothing.
pub fn a_command_needs_each_of_its_parts()
    ensures commanded { (s t : State) (event : Event) (step : Step)
        → HasOnlyCommand open_command step
        → CommandsReleased 5 event (released_state s) (Ok step) t }
    ensures unscanned { (s t : State) (event : Event) (step : Step)
        → HasOnlyCommand open_command step
        → CommandsReleased 5 event (record (released_state s) { last_scan = None }) (Ok step) t
        → ⊥ }
    ensures old { (s t : State) (event : Event) (step : Step) → HasOnlyCommand open_command step
        → CommandsReleased 1006 event (released_state s) (Ok step) t → ⊥ }
    ensures stale { (s t : State) (event : Event) (step : Step) → HasOnlyCommand open_command step
        → CommandsReleased 5 event (record (released_state s) { is_stale = true }) (Ok step) t → ⊥ }
    ensures lost { (s t : State) (event : Event) (step : Step) → HasOnlyCommand open_command step
        → CommandsReleased 5 event (record (released_state s) { is_lost = true }) (Ok step) t → ⊥ }
    ensures remote { (s t : State) (event : Event) (step : Step) → HasOnlyCommand open_command step
        → CommandsReleased 5 event (keyed_state true s) (Ok step) t }
    ensures local { (s t : State) (event : Event) (step : Step) → HasOnlyCommand open_command step
        → CommandsReleased 5 event (keyed_state false s) (Ok step) t → ⊥ }
    ensures blocked { (s t : State) (event : Event) (step : Step) → HasOnlyCommand open_command step
        → CommandsReleased 5 event (record (released_state s) { rows = [] }) (Ok step) t → ⊥ }
    ensures busy { (s t : State) (event : Event) (step : Step) → HasOnlyCommand open_command step
        → CommandsReleased 5 event (operating_state s) (Ok step) t → ⊥ }
    ensures silent { (s t : State) (event : Event) (step : Step) → HasOnlyCommand open_command step
        → CommandsReleased 5 event (released_state s) (Ok (record step { sent = [] })) t → ⊥ }
{}

/// Each operation needs its own value: EnaCls of the switch releases a close whatever the value of
/// EnaOpn, and EnaOpn an open whatever the value of EnaCls. A value that is FALSE releases nothing,
/// and the values of another switch release nothing. CILO1 is the node of switch 0.
pub fn a_close_needs_its_own_release()
    ensures close { (opn : Bool) (s t : State) (event : Event) (step : Step)
        → HasOnlyCommand close_command step
        → CommandsReleased 5 event (interlocked_state (codes "CILO1") opn true s) (Ok step) t }
    ensures open { (cls : Bool) (s t : State) (event : Event) (step : Step)
        → HasOnlyCommand open_command step
        → CommandsReleased 5 event (interlocked_state (codes "CILO1") true cls s) (Ok step) t }
    ensures no_close { (opn : Bool) (s t : State) (event : Event) (step : Step)
        → HasOnlyCommand close_command step
        → CommandsReleased 5 event (interlocked_state (codes "CILO1") opn false s) (Ok step) t → ⊥ }
    ensures no_open { (cls : Bool) (s t : State) (event : Event) (step : Step)
        → HasOnlyCommand open_command step
        → CommandsReleased 5 event (interlocked_state (codes "CILO1") false cls s) (Ok step) t → ⊥ }
    ensures other_close { (s t : State) (event : Event) (step : Step)
        → HasOnlyCommand close_command step
        → CommandsReleased 5 event (interlocked_state (codes "CILO2") true true s) (Ok step) t → ⊥ }
    ensures other_open { (s t : State) (event : Event) (step : Step)
        → HasOnlyCommand open_command step
        → CommandsReleased 5 event (interlocked_state (codes "CILO2") true true s) (Ok step) t → ⊥ }
{}

/// A step has a command if octets on an open association requested it and a response accepts it.
/// The command is neither left out nor doubled, and no other takes its place. No other event has a
/// command. The association is one that has just been opened.
pub fn a_command_is_of_octets_that_requested_it()
    ensures accepted { (now : ℕ) (names : Bay) (octets : Bor (List ℕ)) (step : Step)
        → IsAccepted now names octets step → AreOperates now (Recv 1 octets) names
        (Some (initial_connection 1) ∷ []) (step_with_commands (open_command ∷ []) step) }
    ensures left_out { (now : ℕ) (names : Bay) (octets : Bor (List ℕ)) (step : Step)
        → IsAccepted now names octets step → AreOperates now (Recv 1 octets) names
        (Some (initial_connection 1) ∷ []) (step_with_commands [] step) → ⊥ }
    ensures doubled { (now : ℕ) (names : Bay) (octets : Bor (List ℕ)) (step : Step)
        → IsAccepted now names octets step → AreOperates now (Recv 1 octets) names
        (Some (initial_connection 1) ∷ [])
        (step_with_commands (open_command ∷ open_command ∷ []) step) → ⊥ }
    ensures exchanged { (now : ℕ) (names : Bay) (octets : Bor (List ℕ)) (step : Step)
        → IsAccepted now names octets step → AreOperates now (Recv 1 octets) names
        (Some (initial_connection 1) ∷ []) (step_with_commands (close_command ∷ []) step) → ⊥ }
    ensures silent { (now : ℕ) (names : Bay) (octets : Bor (List ℕ)) (step : Step)
        → AreRepliedForEvent now (Recv 1 octets) names (Some (initial_connection 1) ∷ [])
        (record (step_with_commands (open_command ∷ []) step) { sent = [] }) → ⊥ }
    ensures unasked { (now : ℕ) (names : Bay) (octets : Bor (List ℕ)) (step : Step)
        → octets.now ≡ [] → AreRepliedForEvent now (Recv 1 octets) names
        (Some (initial_connection 1) ∷ []) (step_with_commands (open_command ∷ []) step) → ⊥ }
    ensures refused { (now : ℕ) (names : Bay) (octets : Bor (List ℕ)) (step : Step)
        → IsRefused now names step → AreRepliedForEvent now (Recv 1 octets) names
        (Some (initial_connection 1) ∷ []) (step_with_commands (open_command ∷ []) step) → ⊥ }
    ensures closed { (now : ℕ) (names : Bay) (octets : Bor (List ℕ)) (step : Step)
        → AreRepliedForEvent now (Recv 1 octets) names (None ∷ [])
        (step_with_commands (open_command ∷ []) step) → ⊥ }
    ensures elsewhere { (now : ℕ) (event : Event) (names : Bay) (s : State) (step : Step)
        → IsOther event
        → AreRepliedForEvent now event names s.connections
        (step_with_commands (open_command ∷ []) step)
        → ⊥ }
    ensures nothing { (now : ℕ) (event : Event) (names : Bay) (s : State) (step : Step)
        → IsOther event → AreOperates now event names s.connections (step_with_commands [] step) }
{}

/// In a run, a step has a command for octets of an association that an earlier event opened; not
/// for octets of an association that no event opened, or that was closed since.
pub fn a_command_is_of_an_association_that_was_opened()
    ensures opened { (now : ℕ) (names : Bay) (octets : Bor (List ℕ)) (step : Step)
        → IsAccepted now names octets step
        → AllOperate names (None ∷ []) ((now, Open 1) ∷ (now, Recv 1 octets) ∷ [])
        (Ok (step_with_commands [] step) ∷ Ok (step_with_commands (open_command ∷ []) step) ∷ []) }
    ensures unopened { (now : ℕ) (names : Bay) (octets : Bor (List ℕ)) (step : Step)
        → AllOperate names (None ∷ []) ((now, Scan) ∷ (now, Recv 1 octets) ∷ [])
        (Ok (step_with_commands [] step) ∷ Ok (step_with_commands (open_command ∷ []) step) ∷ [])
        → ⊥ }
    ensures refused { (now : ℕ) (names : Bay) (octets : Bor (List ℕ)) (fault : StepFault)
        (step : Step)
        → AllOperate names (None ∷ []) ((now, Open 1) ∷ (now, Recv 1 octets) ∷ [])
        (Err fault ∷ Ok (step_with_commands (open_command ∷ []) step) ∷ []) → ⊥ }
    ensures closed { (now : ℕ) (names : Bay) (octets : Bor (List ℕ)) (step : Step)
        → AllOperate names (Some (initial_connection 1) ∷ [])
        ((now, Close 1) ∷ (now, Recv 1 octets) ∷ [])
        (Ok (step_with_commands [] step) ∷ Ok (step_with_commands (open_command ∷ []) step) ∷ [])
        → ⊥ }
{}

/// A scan can precede a command up to its maximum age, also after the report of an unchanged
/// position; not beyond this age, and not after a change or a loss. A run without an accepted scan
/// has no such scan.
pub fn a_scan_is_valid_until_something_changes()
    ensures recent { (s : State) (step : Step) (age : ℕ)
        → HasScan age age (scan_past s step ∷ []) }
    ensures old { (s : State) (step : Step) (age : ℕ)
        → HasScan (age + 1) age (scan_past s step ∷ []) → ⊥ }
    ensures missing { (now age : ℕ) → HasScan now age [] → ⊥ }
    ensures other { (s : State) (step : Step) (age : ℕ)
        → HasScan age age (contact_past s step ∷ []) → ⊥ }
    ensures refused { (s : State) (fault : StepFault) (age : ℕ)
        → HasScan age age (refused_past s fault ∷ []) → ⊥ }
    ensures unchanged { (s t : State) (step : Step) (age : ℕ) → IsSameProcess s t
        → HasScan age age (contact_past t step ∷ scan_past s step ∷ []) }
    ensures changed { (s t : State) (step : Step) (age : ℕ) → (IsSameProcess s t → ⊥)
        → HasScan age age (contact_past t step ∷ scan_past s step ∷ []) → ⊥ }
    ensures lost { (s t : State) (step : Step) (age : ℕ)
        → HasScan age age (lost_past t step ∷ scan_past s step ∷ []) → ⊥ }
{}

/// The process is the same while none of its values changes; it is not if a position, an input, a
/// measured value or a quality differs.
pub fn a_process_is_the_same_until_something_changes()
    ensures same { (s : State) → IsSameProcess s s }
    ensures position { (a b quality power doubt : Leaf) (input : Bool) (s : State) → a ≢ b
        → IsSameProcess (state_after_reports a quality input power doubt s)
        (state_after_reports b quality input power doubt s) → ⊥ }
    ensures quality { (a b position power doubt : Leaf) (input : Bool) (s : State) → a ≢ b
        → IsSameProcess (state_after_reports position a input power doubt s)
        (state_after_reports position b input power doubt s) → ⊥ }
    ensures input { (position quality power doubt : Leaf) (a b : Bool) (s : State) → a ≢ b
        → IsSameProcess (state_after_reports position quality a power doubt s)
        (state_after_reports position quality b power doubt s) → ⊥ }
    ensures measure { (a b position quality doubt : Leaf) (input : Bool) (s : State) → a ≢ b
        → IsSameProcess (state_after_reports position quality input a doubt s)
        (state_after_reports position quality input b doubt s) → ⊥ }
    ensures doubt { (a b position quality power : Leaf) (input : Bool) (s : State) → a ≢ b
        → IsSameProcess (state_after_reports position quality input power a s)
        (state_after_reports position quality input power b s) → ⊥ }
{}

/// A lost process is heard again after it reports a position, an input, or a measured value or its
/// invalidity, and the report is accepted; not after a refused event, an event of a client, a scan
/// or another loss.
pub fn a_loss_lasts_until_the_process_is_heard()
    ensures contact { (k : ℕ) (position : Dbpos) (s : State) (step : Step)
        → is_heard_after_loss (Contact k position) (Ok step) s step ≡ true }
    ensures input { (k : ℕ) (value : Bool) (s : State) (step : Step)
        → is_heard_after_loss (Input k value) (Ok step) s step ≡ true }
    ensures measure { (k : ℕ) (field : MeterField) (value : ℤ) (s : State) (step : Step)
        → is_heard_after_loss (Measure k field value) (Ok step) s step ≡ true }
    ensures doubt { (k : ℕ) (field : MeterField) (s : State) (step : Step)
        → is_heard_after_loss (BadMeasure k field) (Ok step) s step ≡ true }
    ensures refused { (event : Event) (fault : StepFault) (s : State) (step : Step)
        → is_heard_after_loss event (Err fault) s step ≡ false }
    ensures client { (a : ℕ) (octets : Bor (List ℕ)) (s : State) (step : Step)
        → is_heard_after_loss (Open a) (Ok step) s step ≡ false
        × is_heard_after_loss (Recv a octets) (Ok step) s step ≡ false
        × is_heard_after_loss (Close a) (Ok step) s step ≡ false }
    ensures scan { (s : State) (step : Step) → is_heard_after_loss Scan (Ok step) s step ≡ false }
    ensures again { (s : State) (step : Step)
        → is_heard_after_loss Lost (Ok step) s step ≡ false }
{}

/// A command to a switch with a key needs an accepted report that its own key is at remote, since
/// the last loss of the process and with no later report that it is at local. Other reports between
/// the two do not matter, and a switch without a key needs none.
pub fn a_command_needs_its_key_at_remote()
    ensures remote { (s : State) (step : Step)
        → IsAtRemote (two_switches s) (input_past 1 true s step ∷ []) (open_switch 0) }
    ensures still { (s : State) (step : Step) → IsAtRemote (two_switches s)
        (input_past 0 false s step ∷ contact_past s step ∷ input_past 1 true s step ∷ [])
        (open_switch 0) }
    ensures again { (s : State) (step : Step) → IsAtRemote (two_switches s)
        (input_past 1 true s step ∷ lost_past s step ∷ input_past 1 true s step ∷ [])
        (open_switch 0) }
    ensures untold { (s : State) → IsAtRemote (two_switches s) [] (open_switch 0) → ⊥ }
    ensures local { (s : State) (step : Step) → IsAtRemote (two_switches s)
        (input_past 1 false s step ∷ input_past 1 true s step ∷ []) (open_switch 0) → ⊥ }
    ensures of_another { (s : State) (step : Step)
        → IsAtRemote (two_switches s) (input_past 0 true s step ∷ []) (open_switch 0) → ⊥ }
    ensures lost { (s : State) (step : Step) → IsAtRemote (two_switches s)
        (contact_past s step ∷ lost_past s step ∷ input_past 1 true s step ∷ []) (open_switch 0)
        → ⊥ }
    ensures refused { (s : State) (fault : StepFault) → IsAtRemote (two_switches s)
        (refused_input 1 true s fault ∷ []) (open_switch 0) → ⊥ }
    ensures keyless { (s : State) (past : List PastEvent)
        → IsAtRemote (two_switches s) past (open_switch 1) }
{}

/// A command of a device implies that such a scan precedes it among the events since load, no older
/// than the device allows; a step without a command, or a refused event, implies nothing. A device
/// that was just loaded has no such command.
pub fn a_command_implies_a_scan_before_it()
    ensures says { (now : ℕ) (event : Event) (s t : State) (step : Step) (past : List PastEvent)
        → HasOnlyCommand open_command step → IsHistory past s → FreshAt now event s (Ok step) t
        → HasScan now s.scan_max_age_ms past }
    ensures silent { (now : ℕ) (event : Event) (s t : State) (step : Step)
        → FreshAt now event s (Ok (step_with_commands [] step)) t }
    ensures refused { (now : ℕ) (event : Event) (s t : State) (fault : StepFault)
        → FreshAt now event s (Err fault) t }
    ensures loaded { (now : ℕ) (event : Event) (s t : State) (step : Step)
        → HasOnlyCommand open_command step → IsHistory [] s → FreshAt now event s (Ok step) t → ⊥ }
{}

/// The scan of a program of HALT alone takes one step, neither none nor two, and is not refused; a
/// scan of a program without HALT does not halt.
pub fn a_program_of_halt_takes_one_step()
    ensures one { (s : State) (step : Step)
        → HaltsAt 0 Scan (halting_device s) (Ok (record step { scan = Some 1 }))
        (halting_device s) }
    ensures none { (s : State) (step : Step)
        → HaltsAt 0 Scan (halting_device s) (Ok (record step { scan = None })) (halting_device s)
        → ⊥ }
    ensures two { (s : State) (step : Step)
        → HaltsAt 0 Scan (halting_device s) (Ok (record step { scan = Some 2 })) (halting_device s)
        → ⊥ }
    ensures refused { (s : State) (fault : StepFault)
        → HaltsAt 0 Scan (halting_device s) (Err fault) (halting_device s) → ⊥ }
    ensures trapped { (s : State) (step : Step)
        → HaltsAt 0 Scan (with_code [] s) (Ok step) (with_code [] s) → ⊥ }
{}

/// After a scan of a program without lines the slots and rows are as before it, and no other device
/// has the values that this program means.
pub fn a_program_of_nothing_changes_nothing()
    ensures same { (s : State) (step : Step)
        → MeansAt empty_program 0 Scan (halting_device s) (Ok step) (halting_device s) }
    ensures slots { (s : State) (step : Step)
        → MeansAt empty_program 0 Scan (halting_device s) (Ok step) (with_slot s) → ⊥ }
    ensures rows { (s : State) (step : Step) (rows : List Row) → rows ≢ s.rows
        → MeansAt empty_program 0 Scan (halting_device s) (Ok step)
        (record (halting_device s) { rows = rows }) → ⊥ }
{}

/// The clauses of `run` speak of one chain of devices. An event, its answer and the device before
/// it determine the device after it, even if an allocation failed. So the same events with the same
/// answers lead from a device to one device. If each clause of a run is true along some chain, one
/// to another device for each event, then all of them are true along one chain.
pub fn clauses_speak_of_one_chain()
    ensures fixed { AnswersFixStates }
    ensures ends { OneEnd }
    ensures one { OneChain }
    ensures means { OneChainOf }
{}
