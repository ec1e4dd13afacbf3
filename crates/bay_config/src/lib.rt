// The configuration of a bay: its switches, inputs and meters, the points that its program reads
// and writes, and the rows of the tree that clients browse. A bay file is TOML: each text is either
// a bay or refused with its first fault, in a fixed order. The rows are those of bay_nodes.
//
// - `bay`: the type of a bay: its nameplate, its switches, inputs and meters, its points and its
// rows.
// - `fault`: why a text is not a bay file.
// - `keys`: the value at a key of a table, and the keys that a table may have.
// - `nameplate`: the section `bay`.
// - `lists`: the checks of a section that is a list.
// - `switches`: the section `switch`.
// - `inputs`: the section `input`.
// - `meters`: the section `meter`.
// - `points`: the points of switches, inputs and meters, and their names.
// - `remotes`: the inputs of the switches' keys.
// - `nodes`: the names of the logical nodes.
// - `read`: `read_bay`, which reads all of them.
#![tactic(auto)]

pub mod bay;
pub mod fault;
mod inputs;
mod keys;
mod lists;
mod meters;
mod nameplate;
pub mod nodes;
mod points;
pub mod read;
mod remotes;
mod switches;
