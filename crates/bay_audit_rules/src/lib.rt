// The rules of an interlocking: which operations it may never release, and which it must always
// release. They are read from a text; each text is either a list of rules or refused with its first
// fault.
//
// - `rule`: the type of a rule. A condition is a list of items in postfix order.
// - `fault`: why a text is not a list of rules.
// - `pieces`, `numbers`, `token`, `lexer`: a line becomes tokens, with the objects that names
// denote.
// - `draft`, `condition`, `statement`: the tokens of a line become a statement.
// - `read`: `read_rules`, which reads all lines.
// - `laws`: a text has one reading, and the truth of a condition is that of its parts.
#![tactic(auto)]

mod condition;
mod draft;
pub mod fault;
pub mod laws;
mod lexer;
mod numbers;
mod pieces;
pub mod read;
pub mod rule;
mod statement;
mod token;
