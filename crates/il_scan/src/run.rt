// A run of verified code, from its first instruction to a HALT. An offset counts octets of the code
// from 0.
ghost use Rattle.std.specs.Prelude.{ℕ, ◌≡◌, ◌≤◌, Some};
ghost use Rattle.il_image.specs.declared.instr.Instr.TheVariants.{Drop};
ghost use Rattle.il_image.specs.Reading.{instr_at};
ghost use Rattle.il_scan.specs.MachineStates.{EncodesAt, EncodesMemory, RunsTo};
ghost use Rattle.il_scan.specs.WordEffects.{Steps, words};
ghost use Rattle.il_verify.specs.Verdicts.{IsSafe};

use crate::act::{act, act_both};
use crate::fetch::fetch;
use crate::stack::OperandStack;
use il_image::image::Image;
use il_image::instr::Instr;
use il_image::opcode::SlotUse;
use il_image::timer::TimerState;

// Executes the DROP at an offset, a LOAD if one follows the DROP, and a NOT if one follows the
// LOAD. Returns the offset of the next instruction, or `None` if there is none, and the number of
// instructions executed.
#[inline(always)]
fn execute_drop(
    code: &[u8],
    now: u64,
    offset: usize,
    stack: &mut OperandStack,
    slots: &mut [i64],
    timers: &mut [TimerState],
) -> (Option<usize>, u32)
    requires there { EncodesAt code.now offset (words stack.old slots.old timers.old) }
    requires drops { (next : ℕ) × (instr_at code.now offset ≡ Some (Drop, next)) }
    ensures steps { Steps now code.now result.1 offset (words stack.old slots.old timers.old)
        result.0 (words stack.new slots.new timers.new) }
    ensures few { result.1 ≤ 3 }
{
    let first = fetch(code, offset);
    if code[first.1] != 0x07 {
        return (act(now, first.0, first.1, stack, slots, timers), 1);
    }
    let second = fetch(code, first.1);
    match second.0 {
        Instr::Slot(SlotUse::Load, _) if code[second.1] == 0x0B => {
            let third = fetch(code, second.1);
            act_both(now, first, second, stack, slots, timers);
            (act(now, third.0, third.1, stack, slots, timers), 3)
        }
        _ => (act_both(now, first, second, stack, slots, timers), 2),
    }
}

// Executes the instruction at an offset, and a NOT, an AND or an OR that follows a LOAD. Returns
// the offset of the next instruction, or `None` if there is none, and the number executed. Each
// pair is a call of its own, so that the compiler knows both instructions at their opcodes.
#[inline(always)]
fn execute(
    code: &[u8],
    now: u64,
    offset: usize,
    stack: &mut OperandStack,
    slots: &mut [i64],
    timers: &mut [TimerState],
) -> (Option<usize>, u32)
    requires there { EncodesAt code.now offset (words stack.old slots.old timers.old) }
    ensures steps { Steps now code.now result.1 offset (words stack.old slots.old timers.old)
        result.0 (words stack.new slots.new timers.new) }
    ensures few { result.1 ≤ 3 }
{
    let first = fetch(code, offset);
    match first.0 {
        Instr::Slot(SlotUse::Load, _) => match code[first.1] {
            0x0B => (
                act_both(now, first, fetch(code, first.1), stack, slots, timers),
                2,
            ),
            0x0C => (
                act_both(now, first, fetch(code, first.1), stack, slots, timers),
                2,
            ),
            0x0D => (
                act_both(now, first, fetch(code, first.1), stack, slots, timers),
                2,
            ),
            _ => (act(now, first.0, first.1, stack, slots, timers), 1),
        },
        Instr::Drop => execute_drop(code, now, offset, stack, slots, timers),
        _ => (act(now, first.0, first.1, stack, slots, timers), 1),
    }
}

/// Runs the code on the slots and the timers at this time. Returns the number of instructions
/// executed, including HALT.
pub(crate) fn run(image: &Image, now: u64, slots: &mut [i64], timers: &mut [TimerState]) -> u32
    requires safe { IsSafe image.now }
    requires held { EncodesMemory image.now slots.old timers.old }
    ensures { RunsTo image.now now slots.old timers.old slots.new timers.new result }
{
    let code = image.code();
    let mut stack = OperandStack::new();
    let mut offset = 0;
    let mut steps = 0;
    loop {
        let (to, count) = execute(code, now, offset, &mut stack, slots, timers);
        steps += count;
        match to {
            Some(next) => offset = next,
            None => return steps,
        }
    }
}
