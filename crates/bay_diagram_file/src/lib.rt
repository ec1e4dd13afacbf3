// The single line diagram of a diagram file, for the bay of a bay file. A diagram file is TOML:
// each text is either a diagram of the bay or refused with its first fault, in a fixed order. And a
// hazard of the diagram in words, with the names of the file.
//
// - `fault`: why a text is not a diagram of the bay.
// - `keys`: the value at a key of a table.
// - `row`: a table of the sections `node` and `between`; `node_row` and `switch_row` read them.
// - `checks`: what a diagram must be, table by table and as a whole.
// - `check`: the section `check`, the hazards that count only if a diagram selects them.
// - `network`: the nodes, the branches and the names that the tables describe; `diagram` has their
//   type.
// - `read`: `diagram_in` and `read_diagram`, which read all of them.
// - `words`: a hazard in words.
#![tactic(auto)]

mod check;
mod checks;
pub mod diagram;
pub mod fault;
mod keys;
mod network;
mod node_row;
pub mod read;
pub mod row;
mod switch_row;
pub mod words;
