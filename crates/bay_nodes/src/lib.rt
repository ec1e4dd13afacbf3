// The logical nodes of a bay (IEC 61850-7-4): the rows of the device itself, of its switches and of
// its meters, with their initial values, in the order of the tree that clients browse.
//
// It exports `switch`, `meter`, `nameplate` and `profile` (what the rows are made from), `names`
// (the classes of nodes), `paths` (the paths of the rows that are found by name), `rows` (the rows
// of all nodes). Internal: `tables` and `meter_tables` (the rows of each node in each profile),
// `subject` and `initial` (what the rows of a node take from its switch, its meter or its input,
// and their initial values).
#![tactic(auto)]

mod initial;
pub mod meter;
mod meter_tables;
pub mod nameplate;
pub mod names;
pub mod paths;
pub mod profile;
pub mod rows;
mod subject;
pub mod switch;
mod tables;
