// What the ranges of slots depend on. No clause states anything of it: it is a hint where to split
// a case, and no answer is derived from it.
use crate::range::Positions;

// The most slots of a verified image.
const SLOTS: usize = 512;

// The most timers of a verified image.
const TIMERS: usize = 64;

// The most switches of a bay.
const SWITCHES: usize = 32;

// The ways to part the four positions in two, with 0 for none.
const DIVISIONS: usize = 8;

// The words of a set: 512 slots, 64 timers, 32 switches of 8 divisions.
const WORDS: usize = 13;

/// A set of sources: slots and timers at the start of a scan, and sets of positions of switches
/// that are distinguished.
#[derive(Clone, Copy, Debug, PartialEq, Eq)]
pub(crate) struct SourceSet {
    /// A bit for each slot, for each timer, and for each division of the positions of each switch.
    words: [u64; 13],
}

// Returns the number of the division of the positions into those of the set and the others: each of
// both has the same.
fn division_of(positions: Positions) -> usize {
    let first = positions.intermediate != positions.bad;
    let second = positions.off != positions.bad;
    let third = positions.on != positions.bad;
    usize::from(first) + 2 * usize::from(second) + 4 * usize::from(third)
}

// Returns the set of the source with this number, or the empty set if there is no such source.
fn set_with(number: usize) -> SourceSet {
    let mut set = SourceSet::new();
    if number < 64 * WORDS {
        set.words[number / 64] = 1 << (number % 64);
    }
    set
}

impl SourceSet {
    /// Creates the set without a source.
    pub(crate) fn new() -> SourceSet {
        SourceSet { words: [0; 13] }
    }

    /// Returns the set with this slot alone.
    pub(crate) fn of_slot(slot: usize) -> SourceSet {
        if slot < SLOTS {
            set_with(slot)
        } else {
            SourceSet::new()
        }
    }

    /// Returns the set with this timer alone.
    pub(crate) fn of_timer(timer: usize) -> SourceSet {
        if timer < TIMERS {
            set_with(SLOTS + timer)
        } else {
            SourceSet::new()
        }
    }

    /// Returns the set with the division of a switch's positions into these and the others alone.
    pub(crate) fn of_positions(switch: usize, positions: Positions) -> SourceSet {
        if switch < SWITCHES {
            let first = SLOTS + TIMERS + DIVISIONS * switch;
            set_with(first.saturating_add(division_of(positions)))
        } else {
            SourceSet::new()
        }
    }

    /// Returns the slots and timers of the set.
    pub(crate) fn without_positions(self) -> SourceSet {
        let mut set = self;
        for k in 9..WORDS {
            set.words[k] = 0;
        }
        set
    }

    /// Returns the sources of either set.
    pub(crate) fn or(self, other: SourceSet) -> SourceSet {
        let mut both = self;
        for k in 0..WORDS {
            both.words[k] |= other.words[k];
        }
        both
    }

    // Returns whether the sets have a source in common.
    fn meets(self, other: SourceSet) -> bool {
        for k in 0..WORDS {
            if self.words[k] & other.words[k] != 0 {
                return true;
            }
        }
        false
    }
}

/// What the range of each slot depends on after a scan, and then what each timer depends on: a
/// timer counts as a slot after the last one. It may name more sources than necessary, and names
/// none for a range of one value.
#[derive(Drop)]
pub struct SlotSources {
    /// What each slot's range depends on, and then each timer.
    pub(crate) sets: Vec<SourceSet>,
}

impl SlotSources {
    // Returns whether the range of a slot depends on one of these sources.
    fn meets(&self, slot: usize, sources: SourceSet) -> bool {
        slot < self.sets.len() && self.sets[slot].meets(sources)
    }

    /// Returns whether the range of a slot depends on the value of a slot, another or itself, at
    /// the start of the scan.
    pub fn depends_on_slot(&self, slot: usize, other: usize) -> bool {
        self.meets(slot, SourceSet::of_slot(other))
    }

    /// Returns whether the range of a slot depends on whether a switch has one of these positions.
    pub fn depends_on_positions(&self, slot: usize, switch: usize, positions: Positions) -> bool {
        self.meets(slot, SourceSet::of_positions(switch, positions))
    }

    /// Returns whether the range of a slot depends on a timer's state at the start of the scan.
    pub fn depends_on_timer(&self, slot: usize, timer: usize) -> bool {
        self.meets(slot, SourceSet::of_timer(timer))
    }
}
