// The transfer function of each instruction: the kinds on the stack after it, or its own fault. The
// top is the last element.
ghost use Rattle.std.specs.Prelude.{◌≡◌, ◌≤◌, Some, None, reverse, length, OnOk, OnErr, IfErr, IfSome, IfNone, IsTrue, MatchResult, [], ◌∷◌, ◌⊎◌, ℕ, List};
ghost use Rattle.il_image.specs.Machine as spec_machine;
ghost use Rattle.il_image.specs.Effects.{below, compares, kinds_after, peek_kind, second_kind, replace_two, type_of_kind, widens, with_truth};
ghost use Rattle.il_image.specs.Effects as spec;
ghost use Rattle.il_image.specs.declared.kind.CellKind.{CellKind};
ghost use Rattle.il_image.specs.Machine.{most_cells};
ghost use Rattle.il_verify.specs.Judging.{computes, truth, operand_fault};
ghost use Rattle.il_verify.specs.Judging.{fault_of, is_read_only, kind_fault, missing_fault};
ghost use Rattle.il_verify.specs.Judging as spec_judging;
ghost use Rattle.il_verify.specs.Slots.{types_of};

use crate::fault::VerifyFault;
use crate::frame::{KindStack, MAX_KINDS};
use crate::slots::SlotType;
use bay_base::types::ElementaryType;
use il_image::arithmetic::{ArithmeticOperation, Comparison, Width};
use il_image::instr::Instr;
use il_image::kind::{CellKind, is_within};
use il_image::opcode::{SlotUse, TimerUse, When, Widening};
use il_image::value::Value;

// Pushes a kind.
fn push_kind(kinds: &mut KindStack, kind: CellKind)
    requires { length kinds.old.items ≤ most_cells }
    ensures { reverse kinds.new.items ≡ kind ∷ reverse kinds.old.items }
{
    kinds.push(kind);
}

// Pops the top, which must be within the wanted kind.
fn pop_kind(kinds: &mut KindStack, wanted: CellKind) -> Result<(), VerifyFault>
    ensures ok { OnOk result
        (below wanted (reverse kinds.old.items) ≡ Some (reverse kinds.new.items)) }
    ensures err { IfErr result
        (λ f. (f ≡ VerifyFault.WrongKind) × (below wanted (reverse kinds.old.items) ≡ None)) }
    ensures few { length kinds.new.items ≤ length kinds.old.items }
{
    match kinds.pop() {
        Some(top) if is_within(top, wanted) => Ok(()),
        _ => Err(VerifyFault::WrongKind),
    }
}

// Checks that the top, which stays, is within the wanted kind.
fn check_top(kinds: &[CellKind], wanted: CellKind) -> Result<(), VerifyFault>
    ensures ok { OnOk result (peek_kind wanted (reverse kinds.now) ≡ Some (reverse kinds.now)) }
    ensures err { IfErr result
        (λ f. (f ≡ VerifyFault.WrongKind) × (peek_kind wanted (reverse kinds.now) ≡ None)) }
{
    match kinds.last() {
        Some(top) if is_within(*top, wanted) => Ok(()),
        _ => Err(VerifyFault::WrongKind),
    }
}

// Returns the kind of a value.
fn kind_of(value: Value) -> CellKind
    ensures { result ≡ spec.kind_of value }
{
    match value {
        Value::Short(number) if number != 0 => CellKind::NotZero(Width::Int),
        Value::Long(number) if number != 0 => CellKind::NotZero(Width::Dint),
        Value::Wide(number) if number != 0 => CellKind::NotZero(Width::Lint),
        _ => CellKind::Plain(value.type_of()),
    }
}

// Pops two values and returns them, the top first, or returns `None` if there are fewer.
fn pop_two(kinds: &mut KindStack) -> Option<(CellKind, CellKind)>
    ensures some { IfSome result
        (λ r. reverse kinds.old.items ≡ r.0 ∷ r.1 ∷ reverse kinds.new.items) }
    ensures none { IfNone result
        ((reverse kinds.old.items ≡ []) ⊎ ((k : CellKind) × (reverse kinds.old.items ≡ k ∷ []))) }
    ensures few { length kinds.new.items ≤ length kinds.old.items }
{
    let top = kinds.pop()?;
    let second = kinds.pop()?;
    Some((top, second))
}

// Returns whether an operation needs a divisor that is not zero.
fn divides(operation: ArithmeticOperation) -> bool
    ensures { result ≡ spec_machine.divides operation }
{
    match operation {
        ArithmeticOperation::Div | ArithmeticOperation::Mod => true,
        _ => false,
    }
}

// Replaces two numbers of a width by one. A divisor must be nonzero.
fn compute(
    kinds: &mut KindStack,
    operation: ArithmeticOperation,
    width: Width,
) -> Result<(), VerifyFault>
    requires room { length kinds.old.items ≤ most_cells }
    ensures ok { OnOk result
        (computes operation width (reverse kinds.old.items) ≡ Some (reverse kinds.new.items)) }
    ensures err { IfErr result
        (λ f. operand_fault (computes ArithmeticOperation.Add width (reverse kinds.old.items))
        (computes operation width (reverse kinds.old.items)) ≡ Some f) }
{
    let number = CellKind::Plain(width.elementary());
    match pop_two(kinds) {
        Some((top, second)) if is_within(top, number) && is_within(second, number) => {
            if divides(operation) && !is_within(top, CellKind::NotZero(width)) {
                return Err(VerifyFault::ZeroDivisor);
            }
            push_kind(kinds, number);
            Ok(())
        }
        _ => Err(VerifyFault::WrongKind),
    }
}

// Replaces two BOOLs by one.
fn combine(kinds: &mut KindStack) -> Result<(), VerifyFault>
    requires room { length kinds.old.items ≤ most_cells }
    ensures ok { OnOk result
        (replace_two truth truth truth (reverse kinds.old.items) ≡ Some (reverse kinds.new.items)) }
    ensures err { IfErr result
        (λ f. (f ≡ VerifyFault.WrongKind)
        × (replace_two truth truth truth (reverse kinds.old.items) ≡ None)) }
{
    let truth = CellKind::Plain(ElementaryType::Bool);
    match pop_two(kinds) {
        Some((top, second)) if is_within(top, truth) && is_within(second, truth) => {
            push_kind(kinds, truth);
            Ok(())
        }
        _ => Err(VerifyFault::WrongKind),
    }
}

// Returns the type that a kind determines, or `None` for any value.
fn type_of(kind: CellKind) -> Option<ElementaryType>
    ensures { result ≡ type_of_kind kind }
{
    match kind {
        CellKind::Any => None,
        CellKind::Plain(elementary) => Some(elementary),
        CellKind::NotZero(width) => Some(width.elementary()),
    }
}

// Returns whether a comparison accepts values of these types: of one type, and of BOOL only for =
// and <>.
fn are_compared(comparison: Comparison, first: ElementaryType, second: ElementaryType) -> bool
    ensures { result ≡ spec.are_compared comparison first second }
{
    let equality = match comparison {
        Comparison::Eq | Comparison::Ne => true,
        _ => false,
    };
    first == second && (first != ElementaryType::Bool || equality)
}

// Replaces two values of one known type by a BOOL.
fn compare(kinds: &mut KindStack, comparison: Comparison) -> Result<(), VerifyFault>
    requires room { length kinds.old.items ≤ most_cells }
    ensures ok { OnOk result
        (compares comparison (reverse kinds.old.items) ≡ Some (reverse kinds.new.items)) }
    ensures err { IfErr result (λ f. (f ≡ VerifyFault.WrongKind)
        × (compares comparison (reverse kinds.old.items) ≡ None)) }
{
    let Some((top, second)) = pop_two(kinds) else {
        return Err(VerifyFault::WrongKind);
    };
    match (type_of(top), type_of(second)) {
        (Some(last), Some(first)) if are_compared(comparison, first, last) => {
            push_kind(kinds, CellKind::Plain(ElementaryType::Bool));
            Ok(())
        }
        _ => Err(VerifyFault::WrongKind),
    }
}

// Widens the top. A nonzero number remains nonzero.
fn widen(kinds: &mut KindStack, from: Width, to: Width) -> Result<(), VerifyFault>
    requires room { length kinds.old.items ≤ most_cells }
    ensures ok { OnOk result
        (widens from to (reverse kinds.old.items) ≡ Some (reverse kinds.new.items)) }
    ensures err { IfErr result
        (λ f. (f ≡ VerifyFault.WrongKind) × (widens from to (reverse kinds.old.items) ≡ None)) }
{
    match kinds.pop() {
        Some(top) if is_within(top, CellKind::NotZero(from)) => {
            push_kind(kinds, CellKind::NotZero(to));
            Ok(())
        }
        Some(top) if is_within(top, CellKind::Plain(from.elementary())) => {
            push_kind(kinds, CellKind::Plain(to.elementary()));
            Ok(())
        }
        _ => Err(VerifyFault::WrongKind),
    }
}

// Checks that a slot that is set or reset is a BOOL's, and the top a BOOL.
fn check_bools(slots: &[SlotType], number: u16, kinds: &[CellKind]) -> Result<(), VerifyFault>
    ensures ok { OnOk result
        (with_truth (types_of slots.now) number (reverse kinds.now) ≡ Some (reverse kinds.now)) }
    ensures err { IfErr result
        (λ f. (f ≡ VerifyFault.WrongKind)
        × (with_truth (types_of slots.now) number (reverse kinds.now) ≡ None)) }
{
    match slots.get(usize::from(number)) {
        Some(slot) if slot.elementary == ElementaryType::Bool => {
            check_top(kinds, CellKind::Plain(ElementaryType::Bool))
        }
        _ => Err(VerifyFault::WrongKind),
    }
}

// Applies an instruction that uses a slot.
fn use_slot(
    slots: &[SlotType],
    slot_use: SlotUse,
    number: u16,
    kinds: &mut KindStack,
) -> Result<(), VerifyFault>
    requires room { length kinds.old.items ≤ most_cells }
    ensures ok { OnOk result
        (kinds_after (types_of slots.now) 0 (Instr.Slot slot_use number) (reverse kinds.old.items)
        ≡ Some (reverse kinds.new.items)) }
    ensures err { IfErr result (λ f. (f ≡ VerifyFault.WrongKind)
        × (kinds_after (types_of slots.now) 0 (Instr.Slot slot_use number) (reverse kinds.old.items)
        ≡ None)) }
{
    match slot_use {
        SlotUse::Load => match slots.get(usize::from(number)) {
            Some(slot) => {
                push_kind(kinds, CellKind::Plain(slot.elementary));
                Ok(())
            }
            None => Err(VerifyFault::WrongKind),
        },
        SlotUse::Store => match slots.get(usize::from(number)) {
            Some(slot) => check_top(kinds, CellKind::Plain(slot.elementary)),
            None => Err(VerifyFault::WrongKind),
        },
        SlotUse::SetIf | SlotUse::ResetIf => check_bools(slots, number, kinds),
    }
}

// Applies an instruction that uses a timer. The timer exists.
fn use_timer(timer_use: TimerUse, kinds: &mut KindStack) -> Result<(), VerifyFault>
    requires room { length kinds.old.items ≤ most_cells }
    ensures ok { OnOk result
        (kinds_after [] 1 (Instr.Timer timer_use 0) (reverse kinds.old.items)
        ≡ Some (reverse kinds.new.items)) }
    ensures err { IfErr result (λ f. (f ≡ VerifyFault.WrongKind)
        × (kinds_after [] 1 (Instr.Timer timer_use 0) (reverse kinds.old.items) ≡ None)) }
{
    match timer_use {
        TimerUse::SetInput => pop_kind(kinds, CellKind::Plain(ElementaryType::Bool)),
        TimerUse::SetPreset => pop_kind(kinds, CellKind::Plain(ElementaryType::Time)),
        TimerUse::Run => Ok(()),
        TimerUse::LoadOutput => {
            push_kind(kinds, CellKind::Plain(ElementaryType::Bool));
            Ok(())
        }
        TimerUse::LoadElapsed => {
            push_kind(kinds, CellKind::Plain(ElementaryType::Time));
            Ok(())
        }
    }
}

// Applies an instruction to the kinds, if these are within the kinds that it needs.
fn apply(
    slots: &[SlotType],
    timers: usize,
    instr: Instr,
    kinds: &mut KindStack,
) -> Result<(), VerifyFault>
    requires named { missing_fault (length slots.now) timers instr ≡ None }
    requires room { length kinds.old.items ≤ most_cells }
    ensures ok { OnOk result
        (kinds_after (types_of slots.now) timers instr (reverse kinds.old.items)
        ≡ Some (reverse kinds.new.items)) }
    ensures err { IfErr result
        (λ f. kind_fault slots.now timers instr (reverse kinds.old.items) ≡ Some f) }
{
    match instr {
        Instr::Halt | Instr::Jump(When::Always, _) => Ok(()),
        Instr::Push(value) => {
            push_kind(kinds, kind_of(value));
            Ok(())
        }
        Instr::Drop => pop_kind(kinds, CellKind::Any),
        Instr::Slot(slot_use, number) => use_slot(slots, slot_use, number, kinds),
        Instr::Not => {
            pop_kind(kinds, CellKind::Plain(ElementaryType::Bool))?;
            push_kind(kinds, CellKind::Plain(ElementaryType::Bool));
            Ok(())
        }
        Instr::Combine(_) => combine(kinds),
        Instr::Compute(operation, width) => compute(kinds, operation, width),
        Instr::Compare(comparison) => compare(kinds, comparison),
        Instr::Widen(Widening::IntToDint) => widen(kinds, Width::Int, Width::Dint),
        Instr::Widen(Widening::DintToLint) => widen(kinds, Width::Dint, Width::Lint),
        Instr::Jump(_, _) => check_top(kinds, CellKind::Plain(ElementaryType::Bool)),
        Instr::Timer(timer_use, _) => use_timer(timer_use, kinds),
    }
}

// Checks that the slot or the timer of an instruction exists.
fn check_slot_or_timer(slots: usize, timers: usize, instr: Instr) -> Result<(), VerifyFault>
    ensures { MatchResult result (λ _. missing_fault slots timers instr ≡ None)
        (λ f. missing_fault slots timers instr ≡ Some f) }
{
    match instr {
        Instr::Slot(_, number) if usize::from(number) >= slots => Err(VerifyFault::NoSlot),
        Instr::Timer(_, number) if usize::from(number) >= timers => Err(VerifyFault::NoTimer),
        _ => Ok(()),
    }
}

// Returns the number of values that an instruction pops or reads.
fn operand_count(instr: Instr) -> usize
    ensures { result ≡ spec_judging.operands instr }
{
    match instr {
        Instr::Combine(_) | Instr::Compute(_, _) | Instr::Compare(_) => 2,
        Instr::Halt
        | Instr::Push(_)
        | Instr::Slot(SlotUse::Load, _)
        | Instr::Jump(When::Always, _)
        | Instr::Timer(TimerUse::Run | TimerUse::LoadOutput | TimerUse::LoadElapsed, _) => 0,
        _ => 1,
    }
}

// Returns whether an instruction writes a slot that may only be read.
fn writes_read_only(slots: &[SlotType], instr: Instr) -> bool
    ensures { result ≡ spec_judging.writes_read_only slots.now instr }
{
    match instr {
        Instr::Slot(SlotUse::Store | SlotUse::SetIf | SlotUse::ResetIf, number) => {
            match slots.get(usize::from(number)) {
                Some(slot) => !slot.writable,
                None => false,
            }
        }
        _ => false,
    }
}

/// Applies the transfer function of an instruction: replaces the kinds before it by those after it,
/// or returns its first fault.
#[tactic(auto, unfolding(crate::specs::Judging::fault_of))]
pub(crate) fn apply_instr(
    slots: &[SlotType],
    timers: usize,
    instr: Instr,
    kinds: &mut KindStack,
) -> Result<(), VerifyFault>
    requires room { length kinds.old.items ≤ most_cells }
    ensures ok { OnOk result
        (kinds_after (types_of slots.now) timers instr (reverse kinds.old.items)
        ≡ Some (reverse kinds.new.items)) }
    ensures faultless { OnOk result
        (fault_of slots.now timers instr (reverse kinds.old.items) ≡ None) }
    ensures few { OnOk result (length kinds.new.items ≤ most_cells) }
    ensures err { IfErr result
        (λ f. fault_of slots.now timers instr (reverse kinds.old.items) ≡ Some f) }
{
    check_slot_or_timer(slots.len(), timers, instr)?;
    if kinds.len() < operand_count(instr) {
        return Err(VerifyFault::StackEmpty);
    }
    apply(slots, timers, instr, kinds)?;
    if writes_read_only(slots, instr) {
        return Err(VerifyFault::BadBinding);
    }
    if kinds.len() > MAX_KINDS {
        return Err(VerifyFault::StackFull);
    }
    Ok(())
}
