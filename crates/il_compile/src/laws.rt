// Laws of the definitions. Each function does nothing, and its contract is the law.
ghost use Rattle.std.specs.Prelude.{◌≡◌, ℕ, ◌∷◌, List, Some, None, true, false};
ghost use Rattle.il_check.specs.Program.{Checked, ProgramItem, transfer};
ghost use Rattle.il_check.specs.TypedProgram.{IsTyped};
ghost use Rattle.il_check.specs.declared.typed.Transfer.TheVariants as Transfer;
ghost use Rattle.il_text.specs.declared.program.Condition.{Condition};
ghost use Rattle.il_compile.specs.Correct.{HasTypes, HasMeaning};
ghost use Rattle.il_compile.specs.Laws.{items_after_label, meaning_after_label};
ghost use Rattle.il_compile.specs.Meaning.{Memory, State, jump_taken, mean_from};

/// A well-typed program has a meaning at each moment, for all values of its types, and leaves
/// values of its types: it never uses a result that is not set, a missing name, a value of another
/// type than its variable's, or a divisor of 0.
pub fn programs_have_a_meaning()
    ensures { (c : Checked) (now : ℕ) (m : Memory) → IsTyped c → HasTypes c m → HasMeaning c now m }
{}

/// A jump that is taken continues with the items after its label, with the same result and the same
/// memory; a jump that is not taken continues with the next item.
pub fn jumps_go_on()
    ensures taken { (now : ℕ) (condition : Condition) (l : ℕ) (is : List ProgramItem) (s : State)
        → jump_taken condition s.result ≡ Some true →
        mean_from now None (transfer (Transfer.Jump condition l) ∷ is) s
        ≡ meaning_after_label now (items_after_label l is) s }
    ensures not_taken { (now : ℕ) (condition : Condition) (l : ℕ) (is : List ProgramItem)
        (s : State)
        → jump_taken condition s.result ≡ Some false →
        mean_from now None (transfer (Transfer.Jump condition l) ∷ is) s ≡ mean_from now None is s }
{}
