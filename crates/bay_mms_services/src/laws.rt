// Laws of the bay that clients see. Each function does nothing; its contract is the law.
ghost use Rattle.std.specs.Prelude.{◌≡◌, ◌≢◌, ◌≤◌, ◌<◌, ◌++◌, ℕ, All, Bool, List, None, Some, false, length, true};
ghost use Rattle.std.specs.Str.{bytes_eq};
ghost use Rattle.bay_control.specs.Decisions.{State, selected_switch};
ghost use Rattle.bay_control.specs.TimedCalls.{LeadsControls};
ghost use Rattle.bay_mms.specs.Grammar.{request_in};
ghost use Rattle.bay_mms_initiate.specs.Sizes.{longest_pdu};
ghost use Rattle.bay_nodes.specs.Names.{control_names};
ghost use Rattle.bay_mms_services.specs.ObservedEntries.{AreNamedAlike, observed_in_pdu, first_response, request_may_report};
ghost use Rattle.bay_mms_services.specs.Answers.{pdu_answer};
ghost use Rattle.bay_mms_services.specs.Bay.{Bay, ShowNoSelection, is_selected, client_rows};
ghost use Rattle.bay_mms_services.specs.Entries.{entries_on_pdu, operates_in};
ghost use Rattle.bay_mms_services.specs.Released.{HaveTravelTime, IsReleased, ChangesNoValue};
ghost use Rattle.bay_mms_services.specs.declared.client.ClientContext.{ClientContext};
ghost use Rattle.bay_tree.specs.Rows.{leaf_named, with_leaf_named};
ghost use Rattle.bay_tree.specs.declared.leaf.Leaf.{Leaf};
ghost use Rattle.bay_tree.specs.declared.leaf.Leaf.TheVariants.{Truth};
ghost use Rattle.bay_tree.specs.declared.row.Row.{Row};

/// A tree that has FALSE as each stSeld still does after a write to any row that is not an stSeld.
pub fn a_tree_shows_no_selection()
    ensures { (count : ℕ) (rows : List Row) (name : List ℕ) (value : Leaf)
        → ((k : ℕ) → bytes_eq name (control_names k).selected ≡ false)
        → ShowNoSelection count rows → ShowNoSelection count (with_leaf_named name value rows) }
{}

/// Clients read TRUE as stSeld of the selected switch and FALSE as that of each other switch (IEC
/// 61850-7-3), whatever the tree has there; they read every other value as the tree has it.
pub fn a_read_shows_the_selection()
    ensures shown { (b : Bay) (controls : State) (k : ℕ) → k < length b.switches
        → length b.switches < 18446744073709551616
        → leaf_named (control_names k).selected b.rows ≢ None
        → leaf_named (control_names k).selected (client_rows b controls)
        ≡ Some (Truth (is_selected k (selected_switch controls.selection))) }
    ensures others { (b : Bay) (controls : State) (name : List ℕ)
        → ((k : ℕ) → name ≢ (control_names k).selected)
        → leaf_named name (client_rows b controls) ≡ leaf_named name b.rows }
{}

/// The commands of an answer are exactly those of the operates that it accepts, one for each and in
/// their order. When a command is issued, the process is not lost, the last scan is fresh, the
/// interlocking releases the operation and no switch is operating. There is at most one command if
/// the travel time of each controlled switch is at least 1 ms. No client changes a value of the
/// tree or an execution that has not expired.
pub fn commands_are_released()
    ensures operated { (c : ClientContext) (pdu : List ℕ) (b : Bay)
        → (pdu_answer c pdu b).commands ≡ operates_in (entries_on_pdu c pdu b) }
    ensures released { (c : ClientContext) (pdu : List ℕ) (b : Bay)
        → All (IsReleased c b) (pdu_answer c pdu b).commands }
    ensures single { (c : ClientContext) (pdu : List ℕ) (b : Bay)
        → HaveTravelTime b.controls.controls
        → length (pdu_answer c pdu b).commands ≤ 1 }
    ensures leaves { (c : ClientContext) (pdu : List ℕ) (b : Bay)
        → ChangesNoValue c.now b (pdu_answer c pdu b).after }
{}

/// The requests of a PDU on an open association lead from the controls before the PDU to those
/// after it, with the entries of the PDU. No request opens or closes an association.
pub fn requests_lead()
    ensures { (c : ClientContext) (pdu : List ℕ) (b : Bay) (opens : ℕ → Bool)
        → opens c.association ≡ true
        → LeadsControls (entries_on_pdu c pdu b) opens b.controls opens
        (pdu_answer c pdu b).after.controls }
{}

/// The octets of a PDU and of its response, with the names of a bay's variables, determine the
/// entries of the PDU: a select by a read was accepted if its result is a text that is not empty,
/// any other request if its result is a success. The response is the first PDU of the answer after
/// the reports that precede the response to a write, whatever is sent later.
pub fn answers_show_decisions()
    ensures { (c : ClientContext) (pdu : List ℕ) (named b : Bay) (later : List (List ℕ))
        → c.size ≤ longest_pdu
        → AreNamedAlike named b
        → (observed_in_pdu c.now c.association pdu named
        (first_response (request_may_report (request_in pdu))
        ((pdu_answer c pdu b).sent ++ later)).0
        ≡ entries_on_pdu c pdu b)
        × ((first_response (request_may_report (request_in pdu))
        ((pdu_answer c pdu b).sent ++ later)).1
        ≡ later) }
{}
