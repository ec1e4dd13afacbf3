// What is known of the stack, the slots and the timers before an instruction.
ghost use Rattle.std.specs.Prelude.{◌≡◌, ◌<◌, ◌∷◌, List, length, OnOk, IfOk, Some};
ghost use Rattle.il_range.specs.Effects.{known_after, join_lists};
ghost use Rattle.il_range.specs.Effects as spec;
ghost use Rattle.il_range.specs.Pending.{JoinsKnown, IsJoin, known_view};

use crate::dependencies::Dependencies;
use crate::range::{
    Range, and_ranges, compare_ranges, compute_range, connect_ranges, join, not_range, or_ranges,
    value_range,
};
use crate::stop::PassStop;
use crate::timer::{KnownTimer, join_timer, timer_after_call};
use il_image::arithmetic::{ArithmeticOperation, Comparison, Width};
use il_image::instr::Instr;
use il_image::opcode::{Connective, SlotUse, TimerUse};
use std::alloc::Global;

/// What is known of the stack, the top last, of the slots and of the timers.
#[derive(Drop)]
pub(crate) struct Known {
    pub cells: Vec<Range>,
    pub slots: Vec<Range>,
    pub timers: Vec<KnownTimer>,
    /// What all these depend on. No clause states anything of it.
    pub dependencies: Dependencies,
}

// Returns the index of a slot or a timer, or `Undecided` if it is not below `count`.
fn checked_index(number: u16, count: usize) -> Result<usize, PassStop>
    ensures is { IfOk result (λ place. place ≡ number) }
    ensures there { IfOk result (λ place. place < count) }
{
    let place = usize::from(number);
    if place < count {
        Ok(place)
    } else {
        Err(PassStop::Undecided)
    }
}

// Pushes what is known of a value.
fn push(known: &mut Known, range: Range) -> Result<(), PassStop>
    ensures cells { OnOk result
        ((known_view known.new).cells ≡ range ∷ (known_view known.old).cells) }
    ensures slots { known.new.slots ≡ known.old.slots }
    ensures timers { known.new.timers ≡ known.old.timers }
{
    known.cells.push(range)?;
    Ok(())
}

// Pops what is known of the top.
fn pop(known: &mut Known) -> Result<Range, PassStop>
    ensures cells { IfOk result
        (λ r. (known_view known.old).cells ≡ r ∷ (known_view known.new).cells) }
    ensures slots { known.new.slots ≡ known.old.slots }
    ensures timers { known.new.timers ≡ known.old.timers }
{
    match known.cells.pop() {
        Some(range) => Ok(range),
        None => Err(PassStop::Undecided),
    }
}

/// Returns the top, which stays. The path depends on the top from here on.
pub(crate) fn top_of(known: &mut Known) -> Result<Range, PassStop>
    ensures same { OnOk result (known_view known.new ≡ known_view known.old) }
    ensures top { IfOk result
        (λ r. (below : List Range) × ((known_view known.old).cells ≡ r ∷ below)) }
{
    known.dependencies.branch();
    let top = pop(known)?;
    push(known, top)?;
    Ok(top)
}

// LOAD: pushes what is known of a slot.
fn load(known: &mut Known, n: u16) -> Result<(), PassStop>
    ensures { OnOk result (known_after (Instr.Slot SlotUse.Load n) (known_view known.old)
        ≡ Some (known_view known.new)) }
{
    let n = checked_index(n, known.slots.len())?;
    let range = known.slots[n];
    push(known, range)
}

// STORE: copies what is known of the top to a slot.
fn store(known: &mut Known, n: u16) -> Result<(), PassStop>
    ensures { OnOk result (known_after (Instr.Slot SlotUse.Store n) (known_view known.old)
        ≡ Some (known_view known.new)) }
{
    let n = checked_index(n, known.slots.len())?;
    let top = pop(known)?;
    known.slots[n] = top;
    push(known, top)
}

// SETIF: sets a slot to TRUE if the top is TRUE.
fn set_if(known: &mut Known, n: u16) -> Result<(), PassStop>
    ensures { OnOk result (known_after (Instr.Slot SlotUse.SetIf n) (known_view known.old)
        ≡ Some (known_view known.new)) }
{
    let n = checked_index(n, known.slots.len())?;
    let top = pop(known)?;
    let changed = or_ranges(top, known.slots[n]);
    known.slots[n] = changed;
    push(known, top)
}

// RESETIF: sets a slot to FALSE if the top is TRUE.
fn reset_if(known: &mut Known, n: u16) -> Result<(), PassStop>
    ensures { OnOk result (known_after (Instr.Slot SlotUse.ResetIf n) (known_view known.old)
        ≡ Some (known_view known.new)) }
{
    let n = checked_index(n, known.slots.len())?;
    let top = pop(known)?;
    let changed = and_ranges(not_range(top), known.slots[n]);
    known.slots[n] = changed;
    push(known, top)
}

// Applies an instruction that uses a slot.
fn use_slot(known: &mut Known, slot_use: SlotUse, n: u16) -> Result<(), PassStop>
    ensures { OnOk result (known_after (Instr.Slot slot_use n) (known_view known.old)
        ≡ Some (known_view known.new)) }
{
    match slot_use {
        SlotUse::Load => load(known, n),
        SlotUse::Store => store(known, n),
        SlotUse::SetIf => set_if(known, n),
        SlotUse::ResetIf => reset_if(known, n),
    }
}

// AND, OR, XOR: replaces two BOOLs by one.
fn connect(known: &mut Known, connective: Connective) -> Result<(), PassStop>
    ensures { OnOk result (known_after (Instr.Combine connective) (known_view known.old)
        ≡ Some (known_view known.new)) }
{
    let b = pop(known)?;
    let a = pop(known)?;
    push(known, connect_ranges(connective, a, b))
}

// A comparison: replaces two values by a BOOL.
fn compare(known: &mut Known, comparison: Comparison) -> Result<(), PassStop>
    ensures { OnOk result (known_after (Instr.Compare comparison) (known_view known.old)
        ≡ Some (known_view known.new)) }
{
    let b = pop(known)?;
    let a = pop(known)?;
    push(known, compare_ranges(comparison, a, b))
}

// ADD, SUB, MUL, DIV, MOD: replaces two numbers by one.
fn compute(known: &mut Known, operation: ArithmeticOperation, width: Width) -> Result<(), PassStop>
    ensures { OnOk result (known_after (Instr.Compute operation width) (known_view known.old)
        ≡ Some (known_view known.new)) }
{
    let b = pop(known)?;
    let a = pop(known)?;
    push(known, compute_range(operation, width, a, b))
}

// NOT: negates the top.
fn invert(known: &mut Known) -> Result<(), PassStop>
    ensures { OnOk result (known_after Instr.Not (known_view known.old)
        ≡ Some (known_view known.new)) }
{
    let top = pop(known)?;
    push(known, not_range(top))
}

// DROP: pops the top.
fn drop_top(known: &mut Known) -> Result<(), PassStop>
    ensures { OnOk result (known_after Instr.Drop (known_view known.old)
        ≡ Some (known_view known.new)) }
{
    pop(known)?;
    Ok(())
}

// SETIN: pops the top as the IN of a timer.
fn set_input(known: &mut Known, n: u16) -> Result<(), PassStop>
    ensures { OnOk result (known_after (Instr.Timer TimerUse.SetInput n) (known_view known.old)
        ≡ Some (known_view known.new)) }
{
    let n = checked_index(n, known.timers.len())?;
    let top = pop(known)?;
    let timer = known.timers[n];
    known.timers[n] = KnownTimer {
        input: top,
        ..timer
    };
    Ok(())
}

// SETPT: pops the top as the PT of a timer.
fn set_preset(known: &mut Known, n: u16) -> Result<(), PassStop>
    ensures { OnOk result (known_after (Instr.Timer TimerUse.SetPreset n) (known_view known.old)
        ≡ Some (known_view known.new)) }
{
    let n = checked_index(n, known.timers.len())?;
    let top = pop(known)?;
    let timer = known.timers[n];
    known.timers[n] = KnownTimer {
        preset: top,
        ..timer
    };
    Ok(())
}

// RUN: calls a timer.
fn call(known: &mut Known, n: u16) -> Result<(), PassStop>
    ensures { OnOk result (known_after (Instr.Timer TimerUse.Run n) (known_view known.old)
        ≡ Some (known_view known.new)) }
{
    let n = checked_index(n, known.timers.len())?;
    let timer = timer_after_call(known.timers[n]);
    known.timers[n] = timer;
    Ok(())
}

// LOADQ: pushes what is known of Q.
fn load_output(known: &mut Known, n: u16) -> Result<(), PassStop>
    ensures { OnOk result (known_after (Instr.Timer TimerUse.LoadOutput n) (known_view known.old)
        ≡ Some (known_view known.new)) }
{
    let n = checked_index(n, known.timers.len())?;
    let output = known.timers[n].output;
    push(known, output)
}

// LOADET: pushes what is known of ET.
fn load_elapsed(known: &mut Known, n: u16) -> Result<(), PassStop>
    ensures { OnOk result (known_after (Instr.Timer TimerUse.LoadElapsed n) (known_view known.old)
        ≡ Some (known_view known.new)) }
{
    let n = checked_index(n, known.timers.len())?;
    let elapsed = known.timers[n].elapsed;
    push(known, elapsed)
}

// Applies an instruction that uses a timer.
fn use_timer(known: &mut Known, timer_use: TimerUse, n: u16) -> Result<(), PassStop>
    ensures { OnOk result (known_after (Instr.Timer timer_use n) (known_view known.old)
        ≡ Some (known_view known.new)) }
{
    match timer_use {
        TimerUse::SetInput => set_input(known, n),
        TimerUse::SetPreset => set_preset(known, n),
        TimerUse::Run => call(known, n),
        TimerUse::LoadOutput => load_output(known, n),
        TimerUse::LoadElapsed => load_elapsed(known, n),
    }
}

/// Applies an instruction without a jump. Returns `Undecided` for a jump or a HALT, or if a cell,
/// slot or timer is missing, and `OutOfMemory` if an allocation fails.
pub(crate) fn apply(known: &mut Known, instr: Instr) -> Result<(), PassStop>
    ensures { OnOk result (known_after instr (known_view known.old) ≡ Some (known_view known.new)) }
{
    match instr {
        Instr::Push(value) => push(known, value_range(value)),
        Instr::Slot(slot_use, n) => use_slot(known, slot_use, n),
        Instr::Combine(connective) => connect(known, connective),
        Instr::Compute(operation, width) => compute(known, operation, width),
        Instr::Compare(comparison) => compare(known, comparison),
        Instr::Not => invert(known),
        Instr::Drop => drop_top(known),
        Instr::Widen(_) => Ok(()),
        Instr::Timer(timer_use, n) => use_timer(known, timer_use, n),
        Instr::Jump(_, _) | Instr::Halt => Err(PassStop::Undecided),
    }
}

/// Updates what the values depend on after an instruction.
pub(crate) fn update_dependencies(known: &mut Known, instr: Instr) -> Result<(), PassStop>
    ensures { known_view known.new ≡ known_view known.old }
{
    known.dependencies.step(instr)?;
    known
        .dependencies
        .settle(instr, known.cells.as_slice(), known.slots.as_slice());
    Ok(())
}

// Joins each value with the other at the same index.
fn join_all(ranges: &mut Vec<Range>, others: &[Range])
    requires { length ranges.old.items ≡ length others.now }
    ensures { ranges.new.items ≡ join_lists spec.join ranges.old.items others.now }
{
    for i in 0..others.len() {
        ranges[i] = join(ranges[i], others[i]);
    }
}

// Joins each timer with the other at the same index.
fn join_timers(timers: &mut Vec<KnownTimer>, others: &[KnownTimer])
    requires { length timers.old.items ≡ length others.now }
    ensures { timers.new.items ≡ join_lists spec.join_timer timers.old.items others.now }
{
    for i in 0..others.len() {
        timers[i] = join_timer(timers[i], others[i]);
    }
}

// Joins what is known on two paths.
fn merge_known(one: Known, other: Known) -> Result<Known, PassStop>
    ensures { IfOk result (λ both. IsJoin one other both) }
{
    if one.cells.len() != other.cells.len() || one.slots.len() != other.slots.len() {
        return Err(PassStop::Undecided);
    }
    if one.timers.len() != other.timers.len() {
        return Err(PassStop::Undecided);
    }
    let Known {
        mut cells,
        mut slots,
        mut timers,
        mut dependencies,
    } = one;
    dependencies.join_cells(
        &other.dependencies,
        cells.as_slice(),
        other.cells.as_slice(),
    );
    dependencies.join_slots(
        &other.dependencies,
        slots.as_slice(),
        other.slots.as_slice(),
    );
    dependencies.join_timers(
        &other.dependencies,
        timers.as_slice(),
        other.timers.as_slice(),
    );
    join_all(&mut cells, other.cells.as_slice());
    join_all(&mut slots, other.slots.as_slice());
    join_timers(&mut timers, other.timers.as_slice());
    Ok(Known {
        cells,
        slots,
        timers,
        dependencies,
    })
}

/// Brings a path to an offset in the code: joins what is known with what is pending there. Returns
/// `Undecided` if there is no such offset, or if the two differ in their numbers of cells, slots or
/// timers.
pub(crate) fn arrive(
    pending: &mut Vec<Option<Known>>,
    place: usize,
    known: Known,
) -> Result<(), PassStop>
    ensures size { length pending.new.items ≡ length pending.old.items }
    ensures ok { OnOk result
        (JoinsKnown pending.old.items pending.new.items place (known_view known)) }
{
    if place >= pending.len() {
        return Err(PassStop::Undecided);
    }
    let come = match pending[place].take() {
        None => known,
        Some(other) => merge_known(other, known)?,
    };
    pending[place] = Some(come);
    Ok(())
}

/// Returns a copy of what is known.
pub(crate) fn copy_of(alloc: Global, known: &Known) -> Result<Known, PassStop>
    ensures { IfOk result (λ s. known_view s ≡ known_view known.now) }
{
    let cells = Vec::from_slice(alloc, known.cells.as_slice())?;
    let slots = Vec::from_slice(alloc, known.slots.as_slice())?;
    let timers = Vec::from_slice(alloc, known.timers.as_slice())?;
    let dependencies = known.dependencies.copy(alloc)?;
    Ok(Known {
        cells,
        slots,
        timers,
        dependencies,
    })
}
