// The fault to report, as faults are found one after another.
ghost use Rattle.std.specs.Prelude.{◌≡◌};
ghost use Rattle.il_check.specs.Faults as spec;
ghost use Rattle.il_check.specs.Faults.{fault_if, first_fault_of};

use crate::fault::CheckFault;

// Returns whether a fault comes before another: by line, then by number. Out of memory, which has
// no number and is never noted, would come first.
fn is_before(first: CheckFault, second: CheckFault) -> bool
    ensures { result ≡ spec.is_before first second }
{
    let is_lower = first.code().unwrap_or(0) < second.code().unwrap_or(0);
    first.line() < second.line() || (first.line() == second.line() && is_lower)
}

// Returns whichever of two faults comes first.
fn first_of(first: CheckFault, second: CheckFault) -> CheckFault
    ensures { result ≡ spec.first_of first second }
{
    if is_before(second, first) {
        second
    } else {
        first
    }
}

/// Returns the fault to report after one more possible fault, which counts if `test` is true.
pub(crate) fn note_if(
    found: Option<CheckFault>,
    test: bool,
    fault: CheckFault,
) -> Option<CheckFault>
    ensures { result ≡ first_fault_of found (fault_if test fault) }
{
    if !test {
        return found;
    }
    match found {
        Some(first) => Some(first_of(first, fault)),
        None => Some(fault),
    }
}
