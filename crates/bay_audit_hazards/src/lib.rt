// Whether releases are hazards in a single line diagram: for each release of a bay's program a
// theorem, for all processes and all states that the program can reach, or a case in which the
// switch is released though the operation is a hazard there, and the walks that show it.
//
// - `evaluation`: whether an operation is a hazard in the processes of a case.
// - `split`: the test by which a case is split if the operation is a hazard in some of its
// processes.
// - `sweep`: whether an operation is a hazard in a process of some cases.
// - `judge`: the answer to a release; `answer` has its type.
// - `explain`: the hazard of a case, with the walks that show it.
#![tactic(auto)]

pub mod answer;
mod evaluation;
pub mod explain;
pub mod judge;
mod split;
mod sweep;
