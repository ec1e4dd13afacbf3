// The verifier of code images: it accepts exactly the images that fit the bay and whose code can't
// go wrong, whoever made them.
//
// - `fault`: why an image is refused.
// - `points`: whether an image's points are points of the bay.
// - `slots`: the slots that the code uses.
// - `plan`: what the pass looks up: the slots, and where instructions begin.
// - `effect`: the transfer function of each instruction on the kinds on the stack, and its own
// faults.
// - `frame`: the pending frames, those of offsets that the pass has yet to reach, and how frames
// are joined.
// - `visit`: one instruction of the code.
// - `pass`: the pass over the code.
// - `laws`: laws of the definitions that the contracts cite.
// - `verify`: `verify`, and the verified image that it returns.
#![tactic(auto)]

pub(crate) mod effect;
pub mod fault;
pub(crate) mod frame;
pub mod laws;
pub(crate) mod pass;
pub(crate) mod plan;
pub(crate) mod points;
pub mod slots;
pub mod verify;
pub(crate) mod visit;
