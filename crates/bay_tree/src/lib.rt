// The tree of named values that clients browse: rows in the order of their names, each a structure
// or a leaf with a typed value (IEC 61850-8-1, mapping of names to MMS named variables).
//
// It exports `tree` (the tree and its calls), `row` and `leaf` (what a tree is built of), `page` (a
// page of names), `fault`, `search` (whether rows make a tree), `laws` (the effect of a write).
// Internal: `index` (the rows by name), `link` (from a row to the first row below it and to its
// next sibling), `name` (a name's parent and its last word).
#![tactic(auto)]

pub mod fault;
mod index;
pub mod laws;
pub mod leaf;
mod link;
mod name;
pub mod page;
pub mod row;
pub mod search;
pub mod tree;
