// The lines that are printed for a device: of its load, and of its events.
//
// `report` has the line of a load, and `output` writes and flushes a text as a whole, with its exit
// status. `log` logs why a file can't be read or written and why a load is refused. `lines` writes
// the lines of an event, and `text_lines` splits a text, such as a trace, into lines.
#![tactic(auto)]

pub mod lines;
pub mod log;
pub mod output;
pub mod report;
pub mod text_lines;
