// What is known of the current result before an item of a program.
ghost use Rattle.std.specs.Prelude.{◌≡◌};
ghost use Rattle.il_check.specs.WellTyped as spec;

use bay_base::types::ElementaryType;

/// Whether an item is reachable, and the type of the current result before it, if the result is
/// set.
#[derive(Clone, Copy)]
pub struct Reach {
    pub is_reached: bool,
    pub kind: Option<ElementaryType>,
}

/// Returns what is known before an item that no path leads to.
pub(crate) fn unreached() -> Reach
    ensures { result ≡ spec.no_reach }
{
    Reach {
        is_reached: false,
        kind: None,
    }
}

// Returns whether both results are set and have the same type.
fn same_result(first: Option<ElementaryType>, second: Option<ElementaryType>) -> bool
    ensures { result ≡ spec.same_result first second }
{
    match (first, second) {
        (Some(first), Some(second)) => first.is(second),
        _ => false,
    }
}

// Returns the type of a result that has the first type on one path and the second on the other, or
// `None` if they differ or one is unset.
fn join_types(
    first: Option<ElementaryType>,
    second: Option<ElementaryType>,
) -> Option<ElementaryType>
    ensures { result ≡ spec.join_types first second }
{
    if same_result(first, second) {
        first
    } else {
        None
    }
}

/// Joins what two paths bring to the same item.
pub(crate) fn join(first: Reach, second: Reach) -> Reach
    ensures { result ≡ spec.join first second }
{
    if !first.is_reached {
        second
    } else if !second.is_reached {
        first
    } else {
        Reach {
            is_reached: true,
            kind: join_types(first.kind, second.kind),
        }
    }
}
