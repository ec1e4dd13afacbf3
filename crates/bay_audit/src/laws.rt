// Laws of the definitions. Each function does nothing; its contract is the law.
ghost use Rattle.bay_audit.specs.Laws.{CasesAreReported, CasesHaveExamples};

/// A process is in a case if and only if the case allows each of its positions, inputs and measured
/// values: those that the case's text names, and any value where it names none. If a case has a
/// process, it has its example, in which each point has the first value that the case allows.
pub fn cases_are_reported()
    ensures reported { CasesAreReported }
    ensures examples { CasesHaveExamples }
{}
