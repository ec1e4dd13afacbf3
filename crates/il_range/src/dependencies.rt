// What the values of a run depend on, beside what is known of them. It follows the instructions as
// the pass does, and no clause states anything of it.
use crate::range::Range;
use crate::sources::SourceSet;
use crate::timer::KnownTimer;
use il_image::instr::Instr;
use il_image::opcode::{SlotUse, TimerUse};
use std::alloc::{AllocError, Global};

/// What the cells of the stack, the top last, the slots and the timers depend on, and what the path
/// to here depends on.
#[derive(Drop)]
pub(crate) struct Dependencies {
    pub cells: Vec<SourceSet>,
    pub slots: Vec<SourceSet>,
    pub timers: Vec<SourceSet>,
    pub path: SourceSet,
}

// Returns the set at an index, or the empty set if there is none.
fn at(sets: &[SourceSet], n: usize) -> SourceSet {
    if n < sets.len() {
        sets[n]
    } else {
        SourceSet::new()
    }
}

// Replaces the set at an index, if there is one.
fn put(sets: &mut Vec<SourceSet>, n: usize, set: SourceSet) {
    if n < sets.len() {
        sets[n] = set;
    }
}

// Returns whether the range has one value.
fn is_known(range: Range) -> bool {
    match range {
        Range::No | Range::Yes => true,
        Range::Between(low, high) => low == high,
        Range::Any | Range::Either | Range::Among(_, _) => false,
    }
}

// Reduces the set of what a value depends on by the value's range: to nothing if the range has one
// value; and if the range is one of a switch's positions, to these positions and the slots and
// timers of the set.
fn reduce_set(set: SourceSet, range: Range) -> SourceSet {
    match range {
        Range::Among(switch, positions) => set
            .without_positions()
            .or(SourceSet::of_positions(switch, positions)),
        _ => {
            if is_known(range) {
                SourceSet::new()
            } else {
                set
            }
        }
    }
}

// Joins the sets of two paths, given what is known on each. A set whose value differs between the
// paths gets the dependencies of the path too.
fn join_sets<T: PartialEq>(
    sets: &mut Vec<SourceSet>,
    others: &[SourceSet],
    known: &[T],
    other_known: &[T],
    path: SourceSet,
) {
    for n in 0..sets.len() {
        if n < others.len() && n < known.len() && n < other_known.len() {
            let is_same = sets[n] == others[n] && known[n] == other_known[n];
            if !is_same {
                sets[n] = sets[n].or(others[n]).or(path);
            }
        }
    }
}

// Returns what each slot depends on at the start of a scan.
fn slot_sets(alloc: Global, ranges: &[Range]) -> Result<Vec<SourceSet>, AllocError> {
    let mut sets = Vec::new(alloc);
    for n in 0..ranges.len() {
        sets.push(reduce_set(SourceSet::of_slot(n), ranges[n]))?;
    }
    Ok(sets)
}

// Returns what each timer depends on at the start of a scan.
fn timer_sets(alloc: Global, timers: usize) -> Result<Vec<SourceSet>, AllocError> {
    let mut sets = Vec::new(alloc);
    for n in 0..timers {
        sets.push(SourceSet::of_timer(n))?;
    }
    Ok(sets)
}

impl Dependencies {
    /// Creates the dependencies at the start of a scan, whose slots are in these ranges: each slot,
    /// unless its range has one value, and each timer depends on itself.
    pub(crate) fn new(
        alloc: Global,
        ranges: &[Range],
        timers: usize,
    ) -> Result<Dependencies, AllocError> {
        Ok(Dependencies {
            cells: Vec::new(alloc),
            slots: slot_sets(alloc, ranges)?,
            timers: timer_sets(alloc, timers)?,
            path: SourceSet::new(),
        })
    }

    /// Returns what the top depends on.
    pub(crate) fn top(&self) -> SourceSet {
        match self.cells.last() {
            Some(set) => *set,
            None => SourceSet::new(),
        }
    }

    // Pops what the top depends on.
    fn pop(&mut self) -> SourceSet {
        match self.cells.pop() {
            Some(set) => set,
            None => SourceSet::new(),
        }
    }

    // Pushes what a value depends on.
    fn push(&mut self, set: SourceSet) -> Result<(), AllocError> {
        self.cells.push(set)?;
        Ok(())
    }

    // Replaces two values by one.
    fn combine(&mut self) -> Result<(), AllocError> {
        let second = self.pop();
        let first = self.pop();
        self.push(first.or(second))
    }

    // Applies an instruction that uses a slot.
    fn use_slot(&mut self, slot_use: SlotUse, n: usize) -> Result<(), AllocError> {
        let slot = at(self.slots.as_slice(), n);
        let top = self.top();
        match slot_use {
            SlotUse::Load => return self.push(slot),
            SlotUse::Store => put(&mut self.slots, n, top),
            SlotUse::SetIf | SlotUse::ResetIf => put(&mut self.slots, n, slot.or(top)),
        }
        Ok(())
    }

    // Applies an instruction that uses a timer.
    fn use_timer(&mut self, timer_use: TimerUse, n: usize) -> Result<(), AllocError> {
        let timer = at(self.timers.as_slice(), n);
        match timer_use {
            TimerUse::SetInput | TimerUse::SetPreset => {
                let top = self.pop();
                put(&mut self.timers, n, timer.or(top));
            }
            TimerUse::LoadOutput | TimerUse::LoadElapsed => return self.push(timer),
            TimerUse::Run => {}
        }
        Ok(())
    }

    /// Updates the dependencies after an instruction.
    pub(crate) fn step(&mut self, instr: Instr) -> Result<(), AllocError> {
        match instr {
            Instr::Push(_) => self.push(SourceSet::new()),
            Instr::Drop => {
                self.pop();
                Ok(())
            }
            Instr::Slot(slot_use, n) => self.use_slot(slot_use, usize::from(n)),
            Instr::Combine(_) | Instr::Compute(_, _) | Instr::Compare(_) => self.combine(),
            Instr::Timer(timer_use, n) => self.use_timer(timer_use, usize::from(n)),
            Instr::Halt | Instr::Not | Instr::Widen(_) | Instr::Jump(_, _) => Ok(()),
        }
    }

    /// Updates the dependencies of the top and of a slot that was used, by their ranges.
    pub(crate) fn settle(&mut self, instr: Instr, cells: &[Range], slots: &[Range]) {
        if let Some(top) = cells.last() {
            let set = reduce_set(self.top(), *top);
            put(&mut self.cells, cells.len() - 1, set);
        }
        if let Instr::Slot(_, n) = instr {
            let n = usize::from(n);
            if n < slots.len() {
                let set = reduce_set(at(self.slots.as_slice(), n), slots[n]);
                put(&mut self.slots, n, set);
            }
        }
    }

    /// Makes the path depend on the top.
    pub(crate) fn branch(&mut self) {
        self.path = self.path.or(self.top());
    }

    /// Joins what the cells depend on with another path's, whose cells are in the other ranges.
    pub(crate) fn join_cells(
        &mut self,
        other: &Dependencies,
        ranges: &[Range],
        other_ranges: &[Range],
    ) {
        self.path = self.path.or(other.path);
        let path = self.path;
        join_sets(
            &mut self.cells,
            other.cells.as_slice(),
            ranges,
            other_ranges,
            path,
        );
    }

    /// Joins what the slots depend on with another path's, whose slots are in the other ranges.
    pub(crate) fn join_slots(
        &mut self,
        other: &Dependencies,
        ranges: &[Range],
        other_ranges: &[Range],
    ) {
        self.path = self.path.or(other.path);
        let path = self.path;
        join_sets(
            &mut self.slots,
            other.slots.as_slice(),
            ranges,
            other_ranges,
            path,
        );
    }

    /// Joins what the timers depend on with another path's, given what is known of the timers of
    /// both.
    pub(crate) fn join_timers(
        &mut self,
        other: &Dependencies,
        known: &[KnownTimer],
        other_known: &[KnownTimer],
    ) {
        self.path = self.path.or(other.path);
        let path = self.path;
        join_sets(
            &mut self.timers,
            other.timers.as_slice(),
            known,
            other_known,
            path,
        );
    }

    /// Returns a copy. Fails only if an allocation fails.
    pub(crate) fn copy(&self, alloc: Global) -> Result<Dependencies, AllocError> {
        Ok(Dependencies {
            cells: Vec::from_slice(alloc, self.cells.as_slice())?,
            slots: Vec::from_slice(alloc, self.slots.as_slice())?,
            timers: Vec::from_slice(alloc, self.timers.as_slice())?,
            path: self.path,
        })
    }
}
