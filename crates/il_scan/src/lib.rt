// The virtual machine that runs verified images. It does not test what the verifier has
// established: no type, no depth, no divisor, no slot, no timer and no jump target. A value on its
// stack or in a slot is a word of 64 bits, the value's number, without its type.
//
// - `stack`: the operand stack.
// - `fetch`: reads the instruction at an offset in the code.
// - `act`: the effect of each instruction.
// - `run`: a run of the code, from its first instruction to a HALT.
// - `slots`: inputs and outputs, and the initial slots and timers.
// - `span`: a range of the read-only points.
// - `points`: inputs and outputs point by point.
// - `machine`: the machine, and its scans.
// - `laws`: what holds of verified code in any state.
#![tactic(auto)]

pub(crate) mod act;
pub(crate) mod fetch;
pub mod laws;
pub mod machine;
pub mod points;
pub(crate) mod run;
pub(crate) mod slots;
pub mod span;
pub(crate) mod stack;
