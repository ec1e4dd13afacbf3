// Reads a text in Instruction List (IEC 61131-3:2003, 3.2) into a program: its declarations and its
// items, whose names are slices of the text. The text is cut into tokens, each line of tokens has
// one form, and the error is the fault of the first faulty line.
//
// Public modules: `read` (reads a program, or returns the first fault), `program` (its types),
// `fault`, the types that the definitions use in `token` (words and marks), `form` (the end of a
// declaration) and `literal` (why a word is no literal), and `laws` (a text is read in one way, by
// a grammar; how it may be respelled; durations). Private modules: `piece` (where lexemes end),
// `lexeme` (what a lexeme is, with `literal`, `reserved` and `character`), `form` (the forms of
// lines) and `listing` (the program so far, with `declaring`).
#![tactic(auto)]

mod character;
mod declaring;
pub mod fault;
pub mod form;
pub mod laws;
mod lexeme;
mod lexeme_end;
mod listing;
pub mod literal;
pub mod program;
pub mod read;
mod reserved;
pub mod token;
