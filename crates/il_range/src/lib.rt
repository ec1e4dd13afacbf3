// Predicts what a scan of a verified image may leave in its slots, without running it: one pass
// over the code, with ranges in place of values. Its functions are `scan::scan_ranges` and, for the
// ranges to start from, `memory::memory_ranges`.
//
// - `range`: what is known of a value, and of the results of operations.
// - `delay`: what is known of the delay of a timer.
// - `timer`: what is known of a timer, and after a call of it.
// - `known`: what is known of the stack, the slots and the timers before an instruction.
// - `pass`: the pass over the code.
// - `start`: what is known at the start of a scan.
// - `scan`: what is known of the slots after a scan.
// - `memory`: what the slots may hold between scans.
// - `sources`, `dependencies`: what a slot's range depends on.
// - `laws`: what holds of each scan.
#![tactic(auto)]

pub mod delay;
pub(crate) mod dependencies;
pub(crate) mod known;
pub mod laws;
pub mod memory;
pub(crate) mod pass;
pub mod range;
pub mod scan;
pub mod sources;
pub(crate) mod start;
pub(crate) mod stop;
pub(crate) mod timer;
