// The audit of a bay's program: reads and loads files, answers rules, judges releases by a single
// line diagram, and prints the answers.
//
// `audit_files` does the whole, `loaded` what follows the line of the load; `written` writes each
// answer when it is known, and `hazards` each release that is judged. `judging`: whether each rule
// of a text holds, and `judging_diagram`: whether each release is harmless in a diagram, for a
// server that serves only then. `judged` has the release that is judged. `state_names` has the
// names of what a program retains from scan to scan, `text` the lines of the answers, `hazard_text`
// those of judged releases, and `refusal` those of files that are refused. `laws`: the names in
// these lines are words, and the lines show which rules hold.
#![tactic(auto)]

pub mod audit_files;
mod hazard_text;
mod hazards;
pub mod judged;
pub mod judging;
pub mod judging_diagram;
pub mod laws;
mod loaded;
mod refusal;
mod state_names;
mod stopped;
mod text;
mod written;
