// Compiles checked programs of Instruction List to images, whose code does what the text means.
//
// - `fault`: why a program does not compile.
// - `compile`: the image of a program.
// - `continuation`: the items from the last to the first, with the distances of jumps.
// - `emit`: the instructions of operations, parentheses and calls.
// - `laws`: laws of the meaning of programs.
#![tactic(auto)]

pub mod compile;
mod continuation;
mod emit;
pub mod fault;
pub mod laws;
