// A scenario (a bay file, an Instruction List program and a trace) becomes its report.
//
// `scenario` splits it into its parts, `answer` applies a line of the trace and prints its answer,
// and `replay` does the whole: it reads the scenario, loads its device and replays the trace.
#![tactic(auto)]

mod answer;
pub mod replay;
mod scenario;
