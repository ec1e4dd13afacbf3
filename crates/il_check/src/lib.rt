// The checks of a program that can be read: its names, its points, its types and its current result
// (IEC 61131-3:2003, 2.4.3 and 3.2). A program without a fault becomes a typed program, whose names
// are resolved.
//
// - `fault`: why a program is refused, with the line.
// - `typed`, `program`: a checked program.
// - `check`: the checks.
// - `declare`: the declarations, and their faults.
// - `names`, `labels`: names, and their meanings.
// - `source_operand`, `resolve`: instructions with their names resolved.
// - `rules`: what instructions require of the current result, and the result after them.
// - `typing`: the typed forms of valid instructions.
// - `reach`: what is known of the current result before an item.
// - `judge`: the faults of one instruction.
// - `walk`: the items of a program, one after another.
// - `laws`: laws of the definitions that the contracts cite.
// - `note`: the fault to report, of all that are found.
#![tactic(auto)]

pub mod check;
mod declare;
pub mod fault;
mod judge;
mod labels;
pub mod laws;
mod names;
mod note;
pub mod program;
pub mod reach;
mod resolve;
mod rules;
pub mod source_operand;
pub mod typed;
mod typing;
mod walk;
