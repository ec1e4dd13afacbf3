// Laws of the definitions. Each function does nothing, and its contract is the law.
ghost use Rattle.std.specs.Prelude.{◌≡◌, ◌↔◌, ℕ, ℤ, Bool, true, IsSome, List, Ok, Option, Some};
ghost use Rattle.std.specs.List.{list_all};
ghost use Rattle.bay_base.specs.declared.types.ElementaryType.{ElementaryType};
ghost use Rattle.bay_base.specs.declared.point.Point.{Point};
ghost use Rattle.il_text.specs.Grammar.{is_outer};
ghost use Rattle.il_text.specs.Listing as text;
ghost use Rattle.il_text.specs.declared.program.Conversion.{Conversion};
ghost use Rattle.il_text.specs.declared.program.Literal.{Literal};
ghost use Rattle.il_text.specs.declared.program.Operator.{Operator};
ghost use Rattle.il_image.specs.Arithmetic.{DividesBy, comparison_holds, computation_of, logic_of, type_of_width, wider_value};
ghost use Rattle.il_image.specs.Values.{number_of};
ghost use Rattle.il_image.specs.declared.arithmetic.Comparison.{Comparison};
ghost use Rattle.il_image.specs.declared.arithmetic.ArithmeticOperation.{ArithmeticOperation};
ghost use Rattle.il_image.specs.declared.arithmetic.Width.{Width};
ghost use Rattle.il_image.specs.declared.opcode.Connective.{Connective};
ghost use Rattle.il_image.specs.declared.timer.TimerState.{TimerState};
ghost use Rattle.il_image.specs.declared.value.Value.{Value};
ghost use Rattle.il_image.specs.declared.value.Value.TheVariants.{Truth};
ghost use Rattle.il_check.specs.Checking.{checked_of};
ghost use Rattle.il_check.specs.Declaring.{literal_value, names_in};
ghost use Rattle.il_check.specs.Program.{Checked};
ghost use Rattle.il_check.specs.Rules.{type_of_result, accepts_type};
ghost use Rattle.il_check.specs.declared.typed.SimpleOperation.TheVariants as SimpleOperation;
ghost use Rattle.il_check.specs.declared.typed.TypedOperand.{TypedOperand};
ghost use Rattle.il_compile.specs.Meaning.{State, inverse, operand_value, state_after, state_after_close};
ghost use Rattle.il_compile.specs.OperatorClasses.{compares, computes, connects, class_of, widening_of};
ghost use Rattle.il_standard_laws.specs.ByNames.{AccessesByName};
ghost use Rattle.il_standard_laws.specs.Instructions.{IsLiteralOf};
ghost use Rattle.il_standard_laws.specs.Integers.{IsApplied, IsConverted, IsInverted, IsOutcome};
ghost use Rattle.il_standard_laws.specs.RightText.{IsRightText};
ghost use Rattle.il_standard_laws.specs.LineEnds.{CommentsMayHaveCrLf, FilesMayHaveCrLf};
ghost use Rattle.il_check.specs.Operators.{result_type};
ghost use Rattle.il_standard_laws.specs.TypedText.{HasTypes};
ghost use Rattle.il_standard_laws.specs.VersionOne.{VersionOneHasNothingNewer, VersionOneIsRead};

/// A program reads and writes by name. Take a memory in which each external, variable and timer has
/// the value that a map from names has for its name. What an instruction reads under a name is then
/// what the map has for this name, and what it writes changes the map at this name only.
pub fn programs_read_and_write_by_name()
    ensures { (points : List Point) (program : text.PlainProgram) (c : Checked)
        (values : List ℕ → Value) (timers : List ℕ → TimerState) →
        checked_of points program ≡ Ok c
        → AccessesByName (names_in points program) c values timers }
{}

/// The checks use the language's tables. The table of an operator has a row with these types
/// exactly if the operator works on the first type, the second is the same, and its result has the
/// new type. A literal fits a variable of a type exactly if it can have this type. A program passes
/// the checks exactly if its declarations are valid and, with some type of the current result, or
/// unset, at each label, each instruction is valid by the tables.
pub fn rules_are_the_tables()
    ensures operators { (operator : Operator) (first second new : ElementaryType) →
        (result_type operator first second ≡ Some new)
        ↔ ((accepts_type operator first ≡ true) × (second ≡ first)
        × (new ≡ type_of_result operator first)) }
    ensures initial_values { (kind : ElementaryType) (l : Literal)
        → IsSome (literal_value kind l) ↔ IsLiteralOf l kind }
    ensures programs { (points : List Point) (program : text.PlainProgram)
        → ((c : Checked) × (checked_of points program ≡ Ok c)) ↔ IsRightText points program }
{}

/// The machine computes as the integers do: the sum, difference or product, the quotient rounded
/// toward zero, or the remainder; and of that the one number of the width that differs from it by a
/// multiple of 2 to the power of the number of bits. Its comparisons are those of the integers, and
/// its connectives are those of FALSE and TRUE.
pub fn arithmetic_is_that_of_the_integers()
    ensures computed { (operator : Operator) (o : ArithmeticOperation) (width : Width) (a b z : ℤ)
        → class_of operator ≡ computes o → DividesBy o b →
        (computation_of o width a b ≡ z) ↔ IsOutcome operator (type_of_width width) a b z }
    ensures compared { (operator : Operator) (c : Comparison) (kind : ElementaryType) (a b : ℤ)
        → class_of operator ≡ compares c
        → IsOutcome operator kind a b (number_of (Truth (comparison_holds c a b))) }
    ensures connected { (operator : Operator) (c : Connective) (kind : ElementaryType) (a b : Bool)
        → class_of operator ≡ connects c →
        IsOutcome operator kind (number_of (Truth a)) (number_of (Truth b))
        (number_of (Truth (logic_of c a b))) }
{}

/// An operator means its arithmetic. An instruction with an operator, or the end of a parenthesis,
/// has a meaning exactly if the operator has a result on the current result and the operand, which
/// is negated first if the instruction is: the operator's table has a row for their types, with the
/// type of the new value, and the number of this value is the operator's result on their numbers.
/// So a division by 0 has no meaning. Only the current result changes. A conversion results in the
/// value of the wider type with the same number, and NOT exchanges FALSE and TRUE.
pub fn an_operator_means_its_arithmetic()
    ensures instructions { (operator : Operator) (kind : ElementaryType) (negated : Bool)
        (x : TypedOperand) (s t : State) →
        (state_after (SimpleOperation.Combine operator kind negated x) s ≡ Some t)
        ↔ (IsApplied operator negated s.result (operand_value x s.memory) t.result
        × (t.memory ≡ s.memory)) }
    ensures parentheses { (operator : Operator) (negated : Bool) (before : Option Value)
        (inner t : State) → (state_after_close operator negated before inner ≡ Some t)
        ↔ (IsApplied operator negated before inner.result t.result × (t.memory ≡ inner.memory)) }
    ensures conversions { (conversion : Conversion) (v w : Value)
        → (wider_value (widening_of conversion) v ≡ Some w) ↔ IsConverted conversion v w }
    ensures negation { (v w : Value) → (inverse v ≡ Some w) ↔ IsInverted v w }
{}

/// A valid program has the types of the language: with some type of the current result, or unset,
/// at each label, each instruction of the text has, by the language's tables, the types that its
/// checked form has. A literal that names a type has it. An untyped number has, in a load, the
/// first of INT, DINT and LINT that it fits; elsewhere the type of the result that it is combined
/// with, or of the input that it is an argument for.
pub fn a_right_program_has_the_languages_types()
    ensures { (points : List Point) (program : text.PlainProgram) (c : Checked)
        → checked_of points program ≡ Ok c → list_all is_outer program.items ≡ true
        → HasTypes program c }
{}

/// Lines may end in CR LF instead of LF. Within a comment, CR LF in place of an LF never changes
/// how a text is read. A text without CR is read in the same way, as the same program or with the
/// same fault, if each of its line ends is CR LF, within comments and outside (IEC 61131-3:2003,
/// 2.1.5).
pub fn line_ends_may_be_cr_lf()
    ensures comments { CommentsMayHaveCrLf }
    ensures files { FilesMayHaveCrLf }
{}

/// An image of version 1 is read as what it represents: its points, its variables with initial
/// values of 4 octets, its timers, which are all TON and have no octet, and its code. This is true
/// of each image without LINT and TOF, and the octets are written out by a table of their own. Only
/// such images are read from octets of version 1.
pub fn version_1_is_read()
    ensures read { VersionOneIsRead }
    ensures only { VersionOneHasNothingNewer }
{}
