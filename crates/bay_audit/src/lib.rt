// Which rules a bay's program obeys: for each rule a theorem, for all processes and all states that
// the program can reach from its first values, or a case in which the rule is broken or depends on
// what the program retains.
//
// - `program`: a program on a bay, and what its scans can reach; `start`: what its slots hold
// before the first scan.
// - `case`: a case: tests of the process, each with its answer.
// - `demand`: a demand on each scan; a rule without a time is one demand.
// - `effort`: the passes that an audit may make, and how its answers share them.
// - `truth_set`: the truth values that a rule's condition can have in a case.
// - `verdict`: the verdict of one pass over the code on a demand in a case.
// - `split`: the test by which an undecided case is split.
// - `audit`: the answers, of the types in `answer`; `until` answers rules with a time, `early` has
// the runs that break one, and `release` finds the cases in which each switch is released, also
// while the process is lost.
// - `laws`: a case has exactly the processes that its text allows.
#![tactic(auto)]

pub mod answer;
pub mod audit;
pub mod case;
pub mod demand;
mod early;
pub mod effort;
pub mod laws;
pub mod program;
pub mod release;
mod split;
mod start;
pub mod truth_set;
mod until;
pub mod verdict;
