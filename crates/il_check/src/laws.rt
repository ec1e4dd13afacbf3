// Laws of the definitions. Each function does nothing, and its contract is the law.
ghost use Rattle.std.specs.Prelude.{◌≡◌, ◌↔◌, ◌++◌, [], true, List, Ok, Option, Some};
ghost use Rattle.std.specs.List.{list_all};
ghost use Rattle.bay_base.specs.declared.types.ElementaryType.{ElementaryType};
ghost use Rattle.bay_base.specs.declared.point.Point.{Point};
ghost use Rattle.il_text.specs.Grammar.{is_outer};
ghost use Rattle.il_text.specs.Listing as text;
ghost use Rattle.il_check.specs.Checking.{checked_of, initial_progress};
ghost use Rattle.il_check.specs.Declaring.{names_in};
ghost use Rattle.il_check.specs.Faults.{IsLeast, least_fault};
ghost use Rattle.il_check.specs.Keeping.{Preserves};
ghost use Rattle.il_check.specs.Labelling.{Becomes, AreReachedItems, IsWellTyped, Labelling, initial_flow, progress_after_entries, type_after_items};
ghost use Rattle.il_check.specs.OwnDeclarations.{MeanOwnDeclarations};
ghost use Rattle.il_check.specs.Program.{Checked};
ghost use Rattle.il_check.specs.RightProgram.{IsRightProgram};
ghost use Rattle.il_check.specs.WellTyped.{items_faults};
ghost use Rattle.il_check.specs.declared.fault.CheckFault.{CheckFault};

/// The items of a program have no fault exactly if some labelling makes every instruction valid. A
/// labelling gives each label a type of the current result, or leaves it unset, such that each
/// instruction is reached and valid on the result that reaches it, and each path to a label brings
/// the label's type or the label is unset.
pub fn some_labelling()
    ensures { (points : List Point) (program : text.PlainProgram) →
        (items_faults (names_in points program) program.items (initial_progress program) ≡ [])
        ↔ IsWellTyped (names_in points program) program.items }
{}

/// The checks find the least types. Take any labelling under which the first items of a program are
/// valid, and the result that reaches the next item: its type under the labelling is the one that
/// the checks have there, or it is unset under the labelling.
pub fn least_types()
    ensures { (points : List Point) (program : text.PlainProgram) (front more : List text.Entry)
        (labels : Labelling) (t : Option ElementaryType) →
        program.items ≡ front ++ more
        → AreReachedItems (names_in points program) labels front initial_flow
        → type_after_items (names_in points program) labels front initial_flow ≡ Some t →
        Becomes (progress_after_entries (names_in points program) front
        (initial_progress program)).now.kind t }
{}

/// A program passes the checks exactly if its declarations are valid and some labelling makes every
/// instruction valid.
pub fn right_programs_pass()
    ensures { (points : List Point) (program : text.PlainProgram)
        → ((c : Checked) × (checked_of points program ≡ Ok c)) ↔ IsRightProgram points program }
{}

/// The reported fault is one of those found, and none of them is on an earlier line, or on the same
/// line with a lower number.
pub fn answered_fault_is_least()
    ensures { (faults : List CheckFault) (fault : CheckFault) → least_fault faults ≡ Some fault
        → IsLeast fault faults }
{}

/// A name means its own declaration: the name of the n-th external means the n-th external, and
/// likewise for variables and timers; what a name means is declared under that name; and as a
/// label, a name means the number of the label with that name.
pub fn a_name_means_its_own_declaration()
    ensures { (points : List Point) (program : text.PlainProgram) (c : Checked)
        → checked_of points program ≡ Ok c
        → MeanOwnDeclarations (names_in points program) c program.items }
{}

/// A check preserves a program of the grammar: with names in place of slots, timers and label
/// numbers again, the checked program has the program's declarations and items, each in its order,
/// with the same operators, modifiers, operands and nesting. An external is the point of its name.
pub fn a_check_changes_no_right_program()
    ensures { (points : List Point) (program : text.PlainProgram) (c : Checked)
        → checked_of points program ≡ Ok c → list_all is_outer program.items ≡ true
        → Preserves points program c }
{}
