// Parsing the command line.
//
// `command`: the commands and options for `clap`. `task`: the task to do. `parse`: parses words
// into a task, or into a record of all options.
#![tactic(auto)]

mod command;
pub mod parse;
pub mod task;
