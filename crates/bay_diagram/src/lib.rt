// Hazards in a single line diagram: whether an operation of a switch is one, by what is known of
// the switches and sources. A hazard is a truth value over walks through the diagram; an unknown
// switch counts as the worse of open and closed. Where less is known, nothing that was a hazard
// becomes harmless. A hazard is shown by walks, step by step.
//
// - `network`: a diagram: nodes, and the branches between them.
// - `reading`: what is known of switches and sources in a case of what the process reports.
// - `walk`: whether a walk over branches leads from a node to another; `path` has its steps.
// - `hazard`: whether an operation of a switch is a hazard.
// - `show`: a hazard with the walks that show it; `shown` has its type. `moving` has those of
// another
//   disconnector, `ends` where walks begin and end.
// - `laws`: laws of the definitions.
#![tactic(auto)]

mod ends;
pub mod hazard;
pub mod laws;
mod moving;
pub mod network;
mod path;
pub mod reading;
pub mod show;
pub mod shown;
pub mod walk;
