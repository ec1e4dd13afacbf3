// Laws of the definitions. Each function does nothing, and its contract is the law.
ghost use Rattle.il_range.specs.Laws.{DelaysContinue, IsByScan, ReachesByScan};

/// What il_scan's `scan` does is a run as these definitions have it, and it leads from a reached
/// machine to a reached one.
pub fn scans_reach()
    ensures runs { IsByScan }
    ensures reaches { ReachesByScan }
{}

/// A timer's delay that runs after a scan began at the scan's moment, or ran before the scan with
/// the same start.
pub fn delays_continue()
    ensures { DelaysContinue }
{}
