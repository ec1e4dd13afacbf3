// The faults of one instruction, of a parenthesis, and of a label.
ghost use Rattle.std.specs.Prelude.{◌≡◌};
ghost use Rattle.il_check.specs.Faults.{first_fault_of};
ghost use Rattle.il_check.specs.WellTyped as spec;

use crate::fault::CheckFault;
use crate::note::note_if;
use crate::rules::{
    combines_wrong, divides, is_unset, is_wrong, jumps_back, jumps_to_undefined_label,
    may_divide_by_zero, uses_undeclared_name, writes_read_only,
};
use crate::source_operand::Resolved;
use bay_base::types::ElementaryType;
use il_text::program::Operator;

// Returns whether no label of a name comes before this one, which has `passed` labels before it.
// `number` is that of the first label with the name.
fn is_first_label(passed: usize, number: Option<usize>) -> bool
    ensures { result ≡ spec.is_first_label passed number }
{
    match number {
        Some(number) => number >= passed,
        None => true,
    }
}

// The maximum number of labels in a program.
const MAX_LABELS: usize = 256;

/// What is known at an instruction: whether it is reachable, how many labels precede it, and how
/// many levels of parentheses may still open there.
#[derive(Clone, Copy)]
pub(crate) struct InstructionContext {
    pub(crate) is_reached: bool,
    pub(crate) passed: usize,
    pub(crate) room: usize,
}

// Returns the fault to report after checking an instruction's names and types, the result it uses,
// and whether it jumps back.
fn note_typing(
    found: Option<CheckFault>,
    context: InstructionContext,
    line: usize,
    resolved: Resolved,
    kind: Option<ElementaryType>,
) -> Option<CheckFault>
    ensures { result ≡ first_fault_of found
        (spec.typing_faults context.is_reached context.passed line resolved kind) }
{
    let is_wrong = context.is_reached && is_wrong(resolved, kind);
    let is_unset = context.is_reached && is_unset(resolved, kind);
    let is_back = jumps_back(context.passed, resolved);
    let found = note_if(
        found,
        uses_undeclared_name(resolved),
        CheckFault::UnknownName { line },
    );
    let found = note_if(found, is_wrong, CheckFault::TypeMismatch { line });
    let found = note_if(found, is_unset, CheckFault::UnsetResult { line });
    note_if(found, is_back, CheckFault::BackwardJump { line })
}

// Returns the fault to report after checking whether an instruction is reachable, and what it
// jumps to, writes and divides by.
fn note_others(
    found: Option<CheckFault>,
    is_reached: bool,
    line: usize,
    resolved: Resolved,
) -> Option<CheckFault>
    ensures { result ≡ first_fault_of found (spec.other_faults is_reached line resolved) }
{
    let is_read_only = writes_read_only(resolved);
    let is_zero = may_divide_by_zero(resolved);
    let found = note_if(
        found,
        jumps_to_undefined_label(resolved),
        CheckFault::UnknownLabel { line },
    );
    let found = note_if(found, !is_reached, CheckFault::Unreachable { line });
    let found = note_if(found, is_read_only, CheckFault::ReadOnly { line });
    note_if(found, is_zero, CheckFault::ZeroDivisor { line })
}

/// Returns the fault to report after an instruction.
pub(crate) fn note_instruction(
    found: Option<CheckFault>,
    context: InstructionContext,
    line: usize,
    resolved: Resolved,
    kind: Option<ElementaryType>,
) -> Option<CheckFault>
    ensures { result ≡ first_fault_of found
        (spec.instruction_faults context.is_reached context.passed line resolved kind) }
{
    let found = note_typing(found, context, line, resolved, kind);
    note_others(found, context.is_reached, line, resolved)
}

/// Returns the fault to report after an operator that opens a parenthesis.
pub(crate) fn note_opening(
    found: Option<CheckFault>,
    is_reached: bool,
    line: usize,
    operator: Operator,
) -> Option<CheckFault>
    ensures { result ≡ first_fault_of found (spec.opening_faults is_reached line operator) }
{
    let found = note_if(found, !is_reached, CheckFault::Unreachable { line });
    note_if(found, divides(operator), CheckFault::ZeroDivisor { line })
}

/// The operator of a parenthesis, and the type of the parenthesis's result.
#[derive(Clone, Copy)]
pub(crate) struct ParenthesisEnd {
    pub(crate) operator: Operator,
    pub(crate) negated: bool,
    pub(crate) inner: Option<ElementaryType>,
}

/// Returns the fault to report after the `)` of a parenthesis.
#[tactic(auto, using(crate::proofs::NotedLemmas::note_rules))]
pub(crate) fn note_closing(
    found: Option<CheckFault>,
    is_reached: bool,
    line: usize,
    closing: ParenthesisEnd,
    kind: Option<ElementaryType>,
) -> Option<CheckFault>
    ensures { result ≡ first_fault_of found
        (spec.closing_faults is_reached line closing.operator closing.negated closing.inner kind) }
{
    let ParenthesisEnd {
        operator,
        negated,
        inner,
    } = closing;
    let is_wrong = is_reached && combines_wrong(operator, negated, inner, kind);
    let is_unset = is_reached && (inner.is_none() || kind.is_none());
    let found = note_if(found, is_wrong, CheckFault::TypeMismatch { line });
    let found = note_if(found, is_unset, CheckFault::UnsetResult { line });
    note_if(found, !is_reached, CheckFault::Unreachable { line })
}

/// Returns the fault to report after a label with `passed` labels before it. `number` is that of
/// the first label with its name.
#[tactic(auto, using(crate::proofs::NotedLemmas::note_rules))]
pub(crate) fn note_label(
    found: Option<CheckFault>,
    line: usize,
    number: Option<usize>,
    passed: usize,
) -> Option<CheckFault>
    ensures { result ≡ first_fault_of found (spec.label_faults line number passed) }
{
    let is_repeated = !is_first_label(passed, number);
    let found = note_if(found, is_repeated, CheckFault::DuplicateName { line });
    note_if(found, passed >= MAX_LABELS, CheckFault::TooMany { line })
}
