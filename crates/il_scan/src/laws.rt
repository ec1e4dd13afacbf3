// Laws of the definitions. Each function does nothing, and its contract is the law.
ghost use Rattle.il_scan.specs.Laws.{NeverGoesWrong};

/// Verified code never goes wrong, whoever wrote it and in whatever state: from all slots and
/// timers of its types, with all inputs that fit, and at each moment, a run ends at a HALT without
/// a trap, within the budget, with a stack never deeper than the depth, and changes no read-only
/// point.
pub fn verified_code_never_goes_wrong()
    ensures { NeverGoesWrong }
{}
