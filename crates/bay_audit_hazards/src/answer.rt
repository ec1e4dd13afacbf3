// The answer to whether a release is a hazard, and what it is made of.
use bay_audit::case::{Case, Test};

/// The answer to whether a release is a hazard.
#[derive(Drop)]
pub enum HazardAnswer {
    /// While the operation is a hazard, by what the process reports, the program does not release
    /// the switch, in any state that it can reach. The proof needed this number of cases in which
    /// the switch may be released.
    Holds { cases: u32 },
    /// In each process of the case the operation is a hazard, and the program releases the switch,
    /// in each state that it can reach.
    Broken { case: Case },
    /// In each process of the case the operation is a hazard. Whether the program releases the
    /// switch there depends on something that no test of the process decides.
    Open { case: Case },
    /// It is not decided in the allowed passes.
    Undecided,
}

/// Whether an operation is a hazard in the processes of a case.
#[derive(Clone, Copy)]
pub enum Evaluation {
    /// The case has no process.
    Empty,
    /// It is a hazard in none of them.
    Harmless,
    /// It is a hazard in each of them.
    Hazard,
    /// It depends on this test.
    Split(Test),
    /// What the case allows does not decide it, and no test of the diagram's switches splits it.
    Unclear,
}

/// Whether an operation is a hazard in a process of some cases.
#[derive(Drop)]
pub enum Sweep {
    /// It is a hazard in none of them; this number of cases shows it.
    Harmless { cases: u32 },
    /// It is a hazard in each process of this part of one of them.
    Hazard { case: Case },
    /// It is not decided in the allowed passes.
    Undecided,
}
