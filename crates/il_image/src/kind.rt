// What is known of a cell of the operand stack.
ghost use Rattle.std.specs.Prelude.{◌≡◌};
ghost use Rattle.il_image.specs.Kinds as spec;

use crate::arithmetic::Width;
use bay_base::types::ElementaryType;

/// What is known of a value on the operand stack: nothing, its type, or that it is a nonzero number
/// of a width. Each of these includes less than the one before.
#[derive(Clone, Copy, PartialEq, Eq)]
pub enum CellKind {
    /// Any value.
    Any,
    /// A value of the type.
    Plain(ElementaryType),
    /// A nonzero number of the width.
    NotZero(Width),
}

/// The default: nothing is known.
impl Default for CellKind {
    fn default() -> CellKind {
        CellKind::Any
    }
}

/// Returns whether each value of the kind `lower` is also one of the kind `upper`.
pub fn is_within(lower: CellKind, upper: CellKind) -> bool
    ensures { result ≡ spec.is_within lower upper }
{
    match (lower, upper) {
        (_, CellKind::Any) => true,
        (CellKind::Plain(first), CellKind::Plain(second)) => first == second,
        (CellKind::NotZero(width), CellKind::Plain(elementary)) => width.elementary() == elementary,
        (CellKind::NotZero(first), CellKind::NotZero(second)) => first == second,
        _ => false,
    }
}

/// Returns the least kind that includes both.
pub fn join(first: CellKind, second: CellKind) -> CellKind
    ensures { result ≡ spec.join first second }
{
    if is_within(first, second) {
        return second;
    }
    if is_within(second, first) {
        return first;
    }
    CellKind::Any
}
