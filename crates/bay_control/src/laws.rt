// Laws of the decisions, over whole runs. Each function does nothing; its contract is the law.
ghost use Rattle.std.specs.Prelude.{◌≡◌, ℕ, Bool, true, List, [], ◌++◌, None, is_ok};
ghost use Rattle.bay_control.specs.Acts.{Entry};
ghost use Rattle.bay_control.specs.Backing.{AreBacked};
ghost use Rattle.bay_control.specs.Decisions.{State};
ghost use Rattle.bay_control.specs.TimedCalls.{Call, LeadsControls, act_of, entries_of, is_open_after, is_orderly_call, outcome_of};

/// In every run of controls that starts without a selection, whichever associations are open: each
/// accepted operate of an SBO switch is backed by a select.
pub fn operates_are_backed()
    ensures { (entries : List Entry) (open_before open_after : ℕ → Bool) (before after : State) →
        LeadsControls entries open_before before open_after after → before.selection ≡ None
        → AreBacked before.controls entries }
{}

/// A run consists of calls: no call, one call, or the calls of two runs.
pub fn runs_consist_of_calls()
    ensures none { (is_open : ℕ → Bool) (s : State) → LeadsControls [] is_open s is_open s }
    ensures one { (call : Call) (now : ℕ) (open_before open_after : ℕ → Bool) (s : State)
        → is_orderly_call open_before call ≡ true →
        ((a : ℕ) → open_after a ≡ is_open_after open_before call a) →
        LeadsControls (entries_of now (act_of call) (is_ok (outcome_of call now s).answer))
        open_before s
        open_after (outcome_of call now s).after }
    ensures joined { (first next : List Entry) (open_before open_between open_after : ℕ → Bool)
        (before between after : State) →
        LeadsControls first open_before before open_between between
        → LeadsControls next open_between between open_after after →
        LeadsControls (first ++ next) open_before before open_after after }
{}
