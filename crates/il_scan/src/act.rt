// The effect of each instruction on the stack, the slots and the timers. An offset counts octets of
// the code from 0.
ghost use Rattle.std.specs.Prelude.{◌≡◌, ◌+◌, ◌^◌, ◌<◌, ◌∷◌, length, slice_set, drop, pos, unsigned_abs, if◌then◌else◌};
ghost use Rattle.std.specs.Ordering.{int_eq};
ghost use Rattle.il_image.specs.Arithmetic.{DividesBy, comparison_holds, computation_of};
ghost use Rattle.il_image.specs.Timers as time;
ghost use Rattle.il_image.specs.Machine.{most_cells};
ghost use Rattle.il_scan.specs.WordEffects as spec;
ghost use Rattle.il_scan.specs.Words.{slot_at};
ghost use Rattle.il_scan.specs.WordEffects.{IsReady, IsSpan, is_not_zero, logic_word, timer_at, word_of, words_after, words};

use crate::stack::OperandStack;
use il_image::arithmetic::{ArithmeticOperation, Comparison, Width, compare, compute};
use il_image::instr::Instr;
use il_image::opcode::{Connective, SlotUse, TimerUse, When};
use il_image::timer::TimerState;

// NOT: negates the top.
#[inline(always)]
fn negate(stack: &mut OperandStack)
    requires some { 0 < length stack.old }
    ensures { stack.new ≡ word_of (int_eq (spec.top stack.old) (pos 0)) ∷ drop 1 stack.old }
{
    let word = stack.top();
    stack.replace_top(i64::from(word == 0));
}

// AND: combines two BOOLs into one.
#[inline(always)]
fn and(stack: &mut OperandStack)
    requires two { 1 < length stack.old }
    ensures { stack.new ≡ logic_word Connective.And (spec.below_top stack.old) (spec.top stack.old)
        ∷ drop 2 stack.old }
{
    let second = stack.pop();
    let first = stack.top();
    stack.replace_top(if first == 0 { 0 } else { second });
}

// OR: combines two BOOLs into one.
#[inline(always)]
fn or(stack: &mut OperandStack)
    requires two { 1 < length stack.old }
    ensures { stack.new ≡ logic_word Connective.Or (spec.below_top stack.old) (spec.top stack.old)
        ∷ drop 2 stack.old }
{
    let second = stack.pop();
    let first = stack.top();
    stack.replace_top(if first == 0 { second } else { 1 });
}

// XOR: combines two BOOLs into one.
#[inline(always)]
fn xor(stack: &mut OperandStack)
    requires two { 1 < length stack.old }
    ensures { stack.new ≡ logic_word Connective.Xor (spec.below_top stack.old) (spec.top stack.old)
        ∷ drop 2 stack.old }
{
    let second = stack.pop();
    let first = stack.top();
    stack.replace_top(i64::from(first != second));
}

// Replaces two BOOLs by the result of AND, OR or XOR.
#[inline(always)]
fn combine(stack: &mut OperandStack, connective: Connective)
    requires two { 1 < length stack.old }
    ensures { stack.new ≡ logic_word connective (spec.below_top stack.old) (spec.top stack.old)
        ∷ drop 2 stack.old }
{
    match connective {
        Connective::And => and(stack),
        Connective::Or => or(stack),
        Connective::Xor => xor(stack),
    }
}

// One of ADD, SUB, MUL, DIV and MOD: combines two numbers of the width into one.
#[inline(always)]
fn calculate(stack: &mut OperandStack, operation: ArithmeticOperation, width: Width)
    requires two { 1 < length stack.old }
    requires divisor { DividesBy operation (spec.top stack.old) }
    ensures { stack.new ≡ computation_of operation width (spec.below_top stack.old)
        (spec.top stack.old)
        ∷ drop 2 stack.old }
{
    let second = stack.pop();
    let first = stack.top();
    stack.replace_top(compute(operation, width, first, second));
}

// Replaces two numbers by the result of ADD, SUB, MUL, DIV or MOD. Each is a separate call, so that
// the compiler knows the operation at each opcode.
#[inline(always)]
fn dispatch_calculate(stack: &mut OperandStack, operation: ArithmeticOperation, width: Width)
    requires two { 1 < length stack.old }
    requires divisor { DividesBy operation (spec.top stack.old) }
    ensures { stack.new ≡ computation_of operation width (spec.below_top stack.old)
        (spec.top stack.old)
        ∷ drop 2 stack.old }
{
    match operation {
        ArithmeticOperation::Add => calculate(stack, ArithmeticOperation::Add, width),
        ArithmeticOperation::Sub => calculate(stack, ArithmeticOperation::Sub, width),
        ArithmeticOperation::Mul => calculate(stack, ArithmeticOperation::Mul, width),
        ArithmeticOperation::Div => calculate(stack, ArithmeticOperation::Div, width),
        ArithmeticOperation::Mod => calculate(stack, ArithmeticOperation::Mod, width),
    }
}

// One of GT, GE, EQ, NE, LE and LT: replaces two values of the same type by a BOOL.
#[inline(always)]
fn relate(stack: &mut OperandStack, comparison: Comparison)
    requires two { 1 < length stack.old }
    ensures { stack.new ≡ word_of
        (comparison_holds comparison (spec.below_top stack.old) (spec.top stack.old))
        ∷ drop 2 stack.old }
{
    let second = stack.pop();
    let first = stack.top();
    stack.replace_top(i64::from(compare(comparison, first, second)));
}

// Replaces two values of the same type by the result of GT, GE, EQ, NE, LE or LT.
#[inline(always)]
fn dispatch_relate(stack: &mut OperandStack, comparison: Comparison)
    requires two { 1 < length stack.old }
    ensures { stack.new ≡ word_of
        (comparison_holds comparison (spec.below_top stack.old) (spec.top stack.old))
        ∷ drop 2 stack.old }
{
    match comparison {
        Comparison::Gt => relate(stack, Comparison::Gt),
        Comparison::Ge => relate(stack, Comparison::Ge),
        Comparison::Eq => relate(stack, Comparison::Eq),
        Comparison::Ne => relate(stack, Comparison::Ne),
        Comparison::Le => relate(stack, Comparison::Le),
        Comparison::Lt => relate(stack, Comparison::Lt),
    }
}

// LOAD: pushes a slot's word.
#[inline(always)]
fn load(stack: &mut OperandStack, slots: &[i64], number: u16)
    requires room { length stack.old < most_cells }
    requires there { number < length slots.now }
    ensures { stack.new ≡ slot_at slots.now number ∷ stack.old }
{
    stack.push(slots[usize::from(number)]);
}

// STORE: copies the top to the slot.
#[inline(always)]
fn store(stack: &OperandStack, slots: &mut [i64], number: u16)
    requires some { 0 < length stack.now }
    requires there { number < length slots.old }
    ensures { slots.new ≡ slice_set slots.old number (spec.top stack.now) }
{
    slots[usize::from(number)] = stack.top();
}

// SETIF, RESETIF: sets the slot to TRUE or FALSE if the top is TRUE.
#[inline(always)]
fn set_if(stack: &OperandStack, slots: &mut [i64], number: u16, word: i64)
    requires some { 0 < length stack.now }
    requires there { number < length slots.old }
    ensures { slots.new ≡ slice_set slots.old number
        (if int_eq (spec.top stack.now) (pos 0) then slot_at slots.old number else word) }
{
    let place = usize::from(number);
    let old = slots[place];
    slots[place] = if stack.top() == 0 { old } else { word };
}

// Returns the offset of the next instruction after a conditional jump: `where_false` if the top is
// FALSE, otherwise `where_true`.
#[inline(always)]
fn choose(stack: &OperandStack, where_false: usize, where_true: usize) -> usize
    requires { 0 < length stack.now }
    ensures { result ≡ (if int_eq (spec.top stack.now) (pos 0) then where_false else where_true) }
{
    if stack.top() == 0 {
        where_false
    } else {
        where_true
    }
}

// SETIN: pops the top as the timer's IN.
#[inline(always)]
fn set_input(stack: &mut OperandStack, timers: &mut [TimerState], number: u16)
    requires some { 0 < length stack.old }
    requires there { number < length timers.old }
    ensures stack { stack.new ≡ drop 1 stack.old }
    ensures timers { timers.new
        ≡ slice_set timers.old number
        (record (timer_at timers.old number) { input = is_not_zero (spec.top stack.old) }) }
{
    let word = stack.pop();
    let timer = &mut timers[usize::from(number)];
    timer.input = word != 0;
}

// SETPT: pops the top as the timer's PT.
#[inline(always)]
fn set_preset(stack: &mut OperandStack, timers: &mut [TimerState], number: u16)
    requires some { 0 < length stack.old }
    requires there { number < length timers.old }
    requires span { IsSpan (spec.top stack.old) }
    ensures stack { stack.new ≡ drop 1 stack.old }
    ensures timers { timers.new
        ≡ slice_set timers.old number
        (record (timer_at timers.old number) { preset = unsigned_abs (spec.top stack.old) }) }
{
    let word = stack.pop();
    let timer = &mut timers[usize::from(number)];
    timer.preset = word as u32;
}

// RUN: calls the timer at this time.
#[inline(always)]
fn run(timers: &mut [TimerState], number: u16, now: u64)
    requires { number < length timers.old }
    ensures { timers.new ≡ slice_set timers.old number
        (time.after_call (timer_at timers.old number) now) }
{
    timers[usize::from(number)].call(now);
}

// LOADQ: pushes Q.
#[inline(always)]
fn load_output(stack: &mut OperandStack, timers: &[TimerState], number: u16)
    requires room { length stack.old < most_cells }
    requires there { number < length timers.now }
    ensures { stack.new ≡ word_of (timer_at timers.now number).output ∷ stack.old }
{
    let timer = timers[usize::from(number)];
    stack.push(i64::from(timer.output));
}

// LOADET: pushes ET.
#[inline(always)]
fn load_elapsed(stack: &mut OperandStack, timers: &[TimerState], number: u16)
    requires room { length stack.old < most_cells }
    requires there { number < length timers.now }
    ensures { stack.new ≡ pos (timer_at timers.now number).elapsed ∷ stack.old }
{
    let timer = timers[usize::from(number)];
    stack.push(i64::from(timer.elapsed));
}

/// Executes an instruction at this time, and returns the offset of the next one, or `None` if there
/// is none. `next` is the offset after the instruction.
#[inline(always)]
pub(crate) fn act(
    now: u64,
    instr: Instr,
    next: usize,
    stack: &mut OperandStack,
    slots: &mut [i64],
    timers: &mut [TimerState],
) -> Option<usize>
    requires next { next < 2 ^ 63 }
    requires ready { IsReady instr (words stack.old slots.old timers.old) }
    ensures to { result ≡ spec.next_offset instr next stack.old }
    ensures words { words stack.new slots.new timers.new
        ≡ words_after now instr (words stack.old slots.old timers.old) }
{
    match instr {
        Instr::Halt => return None,
        Instr::Push(value) => stack.push(value.number()),
        Instr::Drop => {
            stack.pop();
        }
        Instr::Slot(SlotUse::Load, number) => load(stack, slots, number),
        Instr::Slot(SlotUse::Store, number) => store(stack, slots, number),
        Instr::Slot(SlotUse::SetIf, number) => set_if(stack, slots, number, 1),
        Instr::Slot(SlotUse::ResetIf, number) => set_if(stack, slots, number, 0),
        Instr::Not => negate(stack),
        Instr::Combine(connective) => combine(stack, connective),
        Instr::Compute(operation, width) => dispatch_calculate(stack, operation, width),
        Instr::Compare(comparison) => dispatch_relate(stack, comparison),
        // The word of a number is the same at each width.
        Instr::Widen(_) => {}
        Instr::Jump(When::Always, distance) => return Some(next + usize::from(distance)),
        Instr::Jump(When::IfTrue, distance) => {
            return Some(choose(stack, next, next + usize::from(distance)));
        }
        Instr::Jump(When::IfFalse, distance) => {
            return Some(choose(stack, next + usize::from(distance), next));
        }
        Instr::Timer(TimerUse::SetInput, number) => set_input(stack, timers, number),
        Instr::Timer(TimerUse::SetPreset, number) => set_preset(stack, timers, number),
        Instr::Timer(TimerUse::Run, number) => run(timers, number, now),
        Instr::Timer(TimerUse::LoadOutput, number) => load_output(stack, timers, number),
        Instr::Timer(TimerUse::LoadElapsed, number) => load_elapsed(stack, timers, number),
    }
    Some(next)
}

/// Executes two instructions at this time, each with the offset after it; the first leads to the
/// second. Returns the offset of the next one, or `None` if there is none. A LOAD followed by a
/// NOT, an AND or an OR, and a DROP followed by a LOAD, are executed as one, so that nothing is
/// pushed and popped again.
#[inline(always)]
pub(crate) fn act_both(
    now: u64,
    first: (Instr, usize),
    second: (Instr, usize),
    stack: &mut OperandStack,
    slots: &mut [i64],
    timers: &mut [TimerState],
) -> Option<usize>
    requires next { first.1 < 2 ^ 63 }
    requires last { second.1 < 2 ^ 63 }
    requires ready { IsReady first.0 (words stack.old slots.old timers.old)
        × IsReady second.0 (words_after now first.0 (words stack.old slots.old timers.old)) }
    ensures to { result ≡ spec.next_offset second.0 second.1
        (words_after now first.0 (words stack.old slots.old timers.old)).stack }
    ensures words { words stack.new slots.new timers.new ≡ words_after now second.0
        (words_after now first.0 (words stack.old slots.old timers.old)) }
{
    match (first.0, second.0) {
        (Instr::Slot(SlotUse::Load, number), Instr::Not) => {
            stack.push(i64::from(slots[usize::from(number)] == 0));
            Some(second.1)
        }
        (Instr::Slot(SlotUse::Load, number), Instr::Combine(Connective::And)) => {
            let word = if stack.top() == 0 {
                0
            } else {
                slots[usize::from(number)]
            };
            stack.replace_top(word);
            Some(second.1)
        }
        (Instr::Slot(SlotUse::Load, number), Instr::Combine(Connective::Or)) => {
            let word = if stack.top() == 0 {
                slots[usize::from(number)]
            } else {
                1
            };
            stack.replace_top(word);
            Some(second.1)
        }
        (Instr::Drop, Instr::Slot(SlotUse::Load, number)) => {
            stack.replace_top(slots[usize::from(number)]);
            Some(second.1)
        }
        _ => {
            act(now, first.0, first.1, stack, slots, timers);
            act(now, second.0, second.1, stack, slots, timers)
        }
    }
}
