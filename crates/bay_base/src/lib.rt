// What the crates of the language and those of the bay share.
//
// `text` and `listing`: a text and a list, which contracts view as lists. `types`: the elementary
// types (IEC 61131-3:2003, table 10) and the timers. `names`: how Instruction List compares names.
// `decimal`: numbers in decimal digits. `position` and `switch`: the position of a switch, its
// kind, how it is controlled, and its operations. `point`: the points of a bay, through which a
// program reads and writes it. `words`: the reserved words of Instruction List, in one table.
// specs/Exact defines 'exact unless an allocation fails'; specs/Results and Options define how
// definitions of every layer chain steps that may fail.
#![tactic(auto)]

pub mod decimal;
pub mod listing;
pub mod names;
pub mod point;
pub mod position;
pub mod switch;
pub mod text;
pub mod types;
pub mod words;
