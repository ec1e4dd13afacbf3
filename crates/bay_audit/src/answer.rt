// The answers to rules, and the verdict of one pass on a rule.
use crate::case::{Case, Test};
use bay_base::switch::Operation;

/// The answer to a rule.
#[derive(Drop)]
pub enum RuleAnswer {
    /// The rule holds; the proof needed this number of cases.
    Holds {
        cases: u32,
    },
    /// Each process of the case breaks the rule, in each state that the program can reach; or, for
    /// a rule with a time, a process of the case breaks it in the first scan or the second from the
    /// program's first values.
    Broken {
        case: Case,
    },
    /// In this case the answer depends on something that no test of the process decides: on
    /// variables or timers that the program retains, or on a calculation that the audit does not
    /// follow. `depends_on` is a hint of what it may depend on.
    Open {
        case: Case,
        depends_on: StateDependencies,
    },
    /// The rule needs more passes than allowed.
    TooMany,
    /// The rule has a time and holds; the proof needed this number of cases. For `never`, the timer
    /// with this index in the image runs only while the rule's condition holds, and has expired
    /// before the switch is released; for `always`, it runs whenever the condition holds, and the
    /// switch is released once it has expired.
    Since {
        timer: usize,
        cases: u32,
    },
}

/// The release of a switch in a case.
#[derive(Drop)]
pub enum CaseRelease {
    /// The program releases it for each process of the case, in each state that the program can
    /// reach.
    Released,
    /// The program does not release it, for each process of the case, in each state that the
    /// program can reach.
    Refused,
    /// It depends on something that no test of the process decides.
    Depends(StateDependencies),
}

/// A case with the release of the switch in it.
#[derive(Drop)]
pub struct ReportedCase {
    pub case: Case,
    pub release: CaseRelease,
}

/// The cases in which a switch is released in a direction. Each process is in exactly one of the
/// cases and of those that are left.
#[derive(Drop)]
pub struct Release {
    /// The index of the switch in the bay.
    pub switch: usize,
    /// The operation that is released or not.
    pub operation: Operation,
    pub cases: Vec<ReportedCase>,
    /// The cases that could not be decided in the allowed passes.
    pub left: Vec<Case>,
    /// The release while the process is lost: each position is bad, and each input FALSE.
    pub lost: CaseRelease,
    /// The release by the first scan after a load, whatever the process reports by then.
    pub start: CaseRelease,
}

/// The answers to rules, and the releases.
#[derive(Drop)]
pub struct Audit {
    /// One answer for each rule, in their order.
    pub answers: Vec<RuleAnswer>,
    /// Opening and closing of each switch, in the order of the bay.
    pub releases: Vec<Release>,
}

/// The retained variables and timers that a release may depend on. A hint: no clause says that the
/// lists are complete or minimal.
#[derive(Drop)]
pub struct StateDependencies {
    /// The slots of writable points and of variables, by their indices in the image.
    pub slots: Vec<usize>,
    /// The timers, by their indices in the image.
    pub timers: Vec<usize>,
}

/// The verdict of a pass on a demand in a case.
#[derive(Drop)]
pub enum Verdict {
    /// Each process of the case obeys it, in each state that the program can reach.
    Obeyed,
    /// Each process of the case breaks it, in each state that the program can reach.
    Broken,
    /// It depends on this test.
    Split(Test),
    /// It depends only on these.
    Open(StateDependencies),
}

/// Whether a rule is obeyed, if the ranges of its condition and its release decide it.
#[derive(Clone, Copy)]
pub enum RuleVerdict {
    /// It is obeyed.
    Obeyed,
    /// It is broken.
    Missed,
    /// Undecided.
    Unknown,
}
