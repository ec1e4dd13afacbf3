// The consequences of a rule that holds of a program, and of a release that is harmless, for a
// device with this program.
//
// - `laws`: its scans and its commands.
#![tactic(auto)]

pub mod laws;
