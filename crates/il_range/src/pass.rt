// The pass over the code, from instruction to instruction. An offset counts octets of the code from
// 0.
ghost use Rattle.std.specs.Prelude.{◌≡◌, ◌+◌, ◌<◌, [], List, length, slice_get, slice_set, IfOk, OnOk, Some, None, Vec};
ghost use Rattle.std.specs.Global.{Global};
ghost use Rattle.il_range.specs.Outcomes.{PredictsRun};
ghost use Rattle.il_range.specs.Pending.{JoinsKnown, Branches, CoversSteps, CoversStepsAt, known_view};

use crate::known::{Known, apply, arrive, copy_of, top_of, update_dependencies};
use crate::range::{Range, not_range};
use crate::stop::PassStop;
use il_image::instr::Instr;
use il_image::opcode::When;
use il_image::read::instr_at;
use std::alloc::Global;

// Applies an instruction without a jump, and brings the result to the next instruction.
fn step(
    instr: Instr,
    next: usize,
    here: Known,
    pending: &mut Vec<Option<Known>>,
) -> Result<(), PassStop>
    ensures size { length pending.new.items ≡ length pending.old.items }
    ensures ok { OnOk result
        (CoversSteps instr next (known_view here) pending.old.items pending.new.items) }
{
    let mut here = here;
    apply(&mut here, instr)?;
    update_dependencies(&mut here, instr)?;
    arrive(pending, next, here)
}

// Brings what is known to the offset that is `distance` octets after `next`.
fn jump_past(
    distance: u16,
    next: usize,
    here: Known,
    pending: &mut Vec<Option<Known>>,
) -> Result<(), PassStop>
    ensures size { length pending.new.items ≡ length pending.old.items }
    ensures ok { OnOk result
        (JoinsKnown pending.old.items pending.new.items (next + distance) (known_view here)) }
{
    let Some(to) = next.checked_add(usize::from(distance)) else {
        return Err(PassStop::Undecided);
    };
    arrive(pending, to, here)
}

// Brings what is known to the successors of a jump that is taken if `jumps` is TRUE.
fn branch(
    alloc: Global,
    jumps: Range,
    distance: u16,
    next: usize,
    here: Known,
    pending: &mut Vec<Option<Known>>,
) -> Result<(), PassStop>
    ensures size { length pending.new.items ≡ length pending.old.items }
    ensures ok { OnOk result
        (Branches jumps distance next (known_view here) pending.old.items pending.new.items) }
{
    match jumps {
        Range::Yes => jump_past(distance, next, here, pending),
        Range::No => arrive(pending, next, here),
        _ => {
            let other = copy_of(alloc, &here)?;
            jump_past(distance, next, other, pending)?;
            arrive(pending, next, here)
        }
    }
}

// Applies a jump, which reads the top and leaves it.
fn jump(
    alloc: Global,
    when: When,
    distance: u16,
    next: usize,
    here: Known,
    pending: &mut Vec<Option<Known>>,
) -> Result<(), PassStop>
    ensures size { length pending.new.items ≡ length pending.old.items }
    ensures ok { OnOk result
        (CoversSteps (Instr.Jump when distance) next (known_view here) pending.old.items
        pending.new.items) }
{
    let mut here = here;
    match when {
        When::Always => jump_past(distance, next, here, pending),
        When::IfTrue => {
            let top = top_of(&mut here)?;
            branch(alloc, top, distance, next, here, pending)
        }
        When::IfFalse => {
            let top = top_of(&mut here)?;
            branch(alloc, not_range(top), distance, next, here, pending)
        }
    }
}

// Removes what is pending at an offset, and returns it.
fn take_pending(pending: &mut Vec<Option<Known>>, offset: usize) -> Option<Known>
    requires { offset < length pending.old.items }
    ensures value { slice_get pending.old.items offset ≡ Some result }
    ensures after { pending.new.items ≡ slice_set pending.old.items offset None }
    ensures size { length pending.new.items ≡ length pending.old.items }
{
    pending[offset].take()
}

// Applies the instruction at an offset to what is pending there. The end of the code represents the
// end of a run.
fn visit(
    alloc: Global,
    code: &[u8],
    offset: usize,
    pending: &mut Vec<Option<Known>>,
) -> Result<(), PassStop>
    requires { offset < length pending.old.items }
    ensures size { length pending.new.items ≡ length pending.old.items }
    ensures ok { OnOk result (CoversStepsAt code.now offset pending.old.items pending.new.items) }
{
    let Some(here) = take_pending(pending, offset) else {
        return Ok(());
    };
    let Some((instr, next)) = instr_at(code, offset) else {
        return Err(PassStop::Undecided);
    };
    match instr {
        Instr::Halt => arrive(pending, code.len(), here),
        Instr::Jump(when, distance) => jump(alloc, when, distance, next, here, pending),
        _ => step(instr, next, here, pending),
    }
}

// Returns a list for `count` offsets, with nothing pending at any of them.
fn none_pending(alloc: Global, count: usize) -> Result<Vec<Option<Known>>, PassStop>
    ensures { IfOk result (λ v. length v.items ≡ count) }
{
    let mut pending = Vec::new(alloc);
    for _ in 0..count {
        pending.push(None)?;
    }
    Ok(pending)
}

/// Returns what is known at the end of a run of the code, at any moment, from what is known at its
/// start. Returns `Undecided` if the code is not that of a verified image, and `OutOfMemory` if an
/// allocation fails.
pub(crate) fn run_pass(alloc: Global, code: &[u8], first: Known) -> Result<Known, PassStop>
    requires { first.cells.items ≡ [] }
    ensures { IfOk result
        (λ end. PredictsRun code.now first.timers.items first.slots.items end.timers.items
        end.slots.items) }
{
    let mut pending = none_pending(alloc, code.len() + 1)?;
    arrive(&mut pending, 0, first)?;
    for offset in 0..code.len() {
        visit(alloc, code, offset, &mut pending)?;
    }
    match take_pending(&mut pending, code.len()) {
        Some(end) => Ok(end),
        None => Err(PassStop::Undecided),
    }
}
