// What is known of a value.
ghost use Rattle.std.specs.Prelude.{◌≡◌, ◌+ℤ◌, ◌-ℤ◌};
ghost use Rattle.il_range.specs.Effects as spec;
ghost use Rattle.il_range.specs.Ranges.{among};

use il_image::arithmetic::{ArithmeticOperation, Comparison, Width};
use il_image::opcode::Connective;
use il_image::value::Value;

/// A set of positions of a switch (IEC 61850-8-1, Dbpos).
#[derive(Clone, Copy, Debug, PartialEq, Eq)]
pub struct Positions {
    pub intermediate: bool,
    pub off: bool,
    pub on: bool,
    pub bad: bool,
}

impl Positions {
    // Returns the positions that are not in the set.
    fn others(self) -> Self
        ensures { result ≡ spec.other_positions self }
    {
        Positions {
            intermediate: !self.intermediate,
            off: !self.off,
            on: !self.on,
            bad: !self.bad,
        }
    }

    /// Returns whether the sets are the same.
    pub(crate) fn is_same(self, other: Self) -> bool
        ensures { result ≡ spec.same_positions self other }
    {
        self.intermediate == other.intermediate
            && self.off == other.off
            && self.on == other.on
            && self.bad == other.bad
    }

    // Returns the positions that are in both sets.
    fn and(self, other: Self) -> Self
        ensures { result ≡ spec.common_positions self other }
    {
        Positions {
            intermediate: self.intermediate && other.intermediate,
            off: self.off && other.off,
            on: self.on && other.on,
            bad: self.bad && other.bad,
        }
    }
}

/// What is known of a value of an elementary type (IEC 61131-3:2003, table 10).
#[derive(Clone, Copy, Debug, PartialEq, Eq)]
pub enum Range {
    /// Nothing.
    Any,
    /// It is FALSE.
    No,
    /// It is TRUE.
    Yes,
    /// It is FALSE or TRUE.
    Either,
    /// Its number is between these two, both ends included. FALSE has the number 0 and TRUE 1, and
    /// a TIME has its milliseconds.
    Between(i64, i64),
    /// It is TRUE if the switch with this index has one of these positions, and FALSE if it has
    /// another.
    Among(usize, Positions),
}

/// Returns the range of whether a switch has one of these positions.
pub fn among(switch: usize, positions: Positions) -> Range
    ensures { result ≡ among switch positions }
{
    if positions.intermediate && positions.off && positions.on && positions.bad {
        Range::Yes
    } else if positions.intermediate || positions.off || positions.on || positions.bad {
        Range::Among(switch, positions)
    } else {
        Range::No
    }
}

/// Returns the range of this value alone.
pub(crate) fn value_range(value: Value) -> Range
    ensures { result ≡ spec.value_range value }
{
    match value {
        Value::Truth(true) => Range::Yes,
        Value::Truth(false) => Range::No,
        _ => Range::Between(value.number(), value.number()),
    }
}

// Returns the lesser of two numbers.
fn lesser(a: i64, b: i64) -> i64
    ensures { result ≡ spec.lesser a b }
{
    if a <= b { a } else { b }
}

// Returns the greater of two numbers.
fn greater(a: i64, b: i64) -> i64
    ensures { result ≡ spec.greater a b }
{
    if a <= b { b } else { a }
}

/// Returns a range that includes both.
pub(crate) fn join(a: Range, b: Range) -> Range
    ensures { result ≡ spec.join a b }
{
    match (a, b) {
        (Range::Any, _) | (_, Range::Any) => Range::Any,
        (Range::Between(a, b), Range::Between(c, d)) => Range::Between(lesser(a, c), greater(b, d)),
        (Range::Between(_, _), _) | (_, Range::Between(_, _)) => Range::Any,
        (Range::No, Range::No) => Range::No,
        (Range::Yes, Range::Yes) => Range::Yes,
        (Range::Among(j, s), Range::Among(k, t)) if j == k && s.is_same(t) => Range::Among(j, s),
        _ => Range::Either,
    }
}

/// Returns NOT of a range.
pub(crate) fn not_range(a: Range) -> Range
    ensures { result ≡ spec.not_range a }
{
    match a {
        Range::No => Range::Yes,
        Range::Yes => Range::No,
        Range::Among(switch, positions) => Range::Among(switch, positions.others()),
        _ => Range::Either,
    }
}

/// Returns AND of two ranges.
pub(crate) fn and_ranges(a: Range, b: Range) -> Range
    ensures { result ≡ spec.and_ranges a b }
{
    match (a, b) {
        (Range::No, _) | (_, Range::No) => Range::No,
        (Range::Yes, Range::Yes) => Range::Yes,
        (Range::Yes, Range::Among(k, t)) => Range::Among(k, t),
        (Range::Among(j, s), Range::Yes) => Range::Among(j, s),
        (Range::Among(j, s), Range::Among(k, t)) if j == k => among(j, s.and(t)),
        _ => Range::Either,
    }
}

/// Returns OR of two ranges.
pub(crate) fn or_ranges(a: Range, b: Range) -> Range
    ensures { result ≡ spec.or_ranges a b }
{
    not_range(and_ranges(not_range(a), not_range(b)))
}

// Returns XOR of two ranges.
fn xor_ranges(a: Range, b: Range) -> Range
    ensures { result ≡ spec.xor_ranges a b }
{
    match (a, b) {
        (Range::No, Range::No) => Range::No,
        (Range::No, Range::Yes) => Range::Yes,
        (Range::Yes, Range::No) => Range::Yes,
        (Range::Yes, Range::Yes) => Range::No,
        _ => Range::Either,
    }
}

/// Returns a connective of the ranges of two BOOLs (IEC 61131-3:2003, table 26).
pub(crate) fn connect_ranges(connective: Connective, a: Range, b: Range) -> Range
    ensures { result ≡ spec.connect_ranges connective a b }
{
    match connective {
        Connective::And => and_ranges(a, b),
        Connective::Or => or_ranges(a, b),
        Connective::Xor => xor_ranges(a, b),
    }
}

// Returns the least number, if it is known.
fn low_of(a: Range) -> Option<i64>
    ensures { result ≡ spec.low_of a }
{
    match a {
        Range::Any => None,
        Range::No | Range::Either | Range::Among(_, _) => Some(0),
        Range::Yes => Some(1),
        Range::Between(low, _) => Some(low),
    }
}

// Returns the greatest number, if it is known.
fn high_of(a: Range) -> Option<i64>
    ensures { result ≡ spec.high_of a }
{
    match a {
        Range::Any => None,
        Range::No => Some(0),
        Range::Yes | Range::Either | Range::Among(_, _) => Some(1),
        Range::Between(_, high) => Some(high),
    }
}

// Returns whether each number of `a` is known to be less than each of `b`.
fn surely_lt(a: Range, b: Range) -> bool
    ensures { result ≡ spec.surely_lt a b }
{
    match (high_of(a), low_of(b)) {
        (Some(a), Some(b)) => a < b,
        _ => false,
    }
}

// Returns whether no number of `a` is greater than any of `b`, as far as is known.
fn surely_le(a: Range, b: Range) -> bool
    ensures { result ≡ spec.surely_le a b }
{
    match (high_of(a), low_of(b)) {
        (Some(a), Some(b)) => a <= b,
        _ => false,
    }
}

// Returns the range of a BOOL that is known to be TRUE, known to be FALSE, or neither.
fn bool_range(yes: bool, no: bool) -> Range
    ensures { result ≡ spec.bool_range yes no }
{
    if yes {
        Range::Yes
    } else if no {
        Range::No
    } else {
        Range::Either
    }
}

/// Returns the range of a comparison's result (IEC 61131-3:2003, table 28).
pub(crate) fn compare_ranges(comparison: Comparison, a: Range, b: Range) -> Range
    ensures { result ≡ spec.compare_ranges comparison a b }
{
    let lt = surely_lt(a, b);
    let gt = surely_lt(b, a);
    let le = surely_le(a, b);
    let ge = surely_le(b, a);
    match comparison {
        Comparison::Lt => bool_range(lt, ge),
        Comparison::Gt => bool_range(gt, le),
        Comparison::Le => bool_range(le, gt),
        Comparison::Ge => bool_range(ge, lt),
        Comparison::Eq => bool_range(le && ge, lt || gt),
        Comparison::Ne => bool_range(lt || gt, le && ge),
    }
}

// Returns the least number of a width.
fn least_of(width: Width) -> i64
    ensures { result ≡ spec.least_of width }
{
    match width {
        Width::Int => -0x8000,
        Width::Dint => -0x8000_0000,
        Width::Lint => i64::MIN,
    }
}

// Returns the greatest number of a width.
fn greatest_of(width: Width) -> i64
    ensures { result ≡ spec.greatest_of width }
{
    match width {
        Width::Int => 0x7FFF,
        Width::Dint => 0x7FFF_FFFF,
        Width::Lint => i64::MAX,
    }
}

// Returns whether the number is one of the width.
fn fits_in(width: Width, number: i64) -> bool
    ensures { result ≡ spec.fits_in width number }
{
    least_of(width) <= number && number <= greatest_of(width)
}

// Returns the range of the numbers between these two, wrapped to the width; `None` is a number that
// does not fit into 64 bits.
fn wrap_range(width: Width, low: Option<i64>, high: Option<i64>) -> Range
    ensures { result ≡ spec.wrapped_of width low high }
{
    match (low, high) {
        (Some(low), Some(high)) if fits_in(width, low) && fits_in(width, high) => {
            Range::Between(low, high)
        }
        _ => Range::Between(least_of(width), greatest_of(width)),
    }
}

// Returns the range of the sums of numbers of a to b and of c to d.
fn add_ranges(width: Width, a: i64, b: i64, c: i64, d: i64) -> Range
    ensures { result ≡ spec.wrap_range width (a +ℤ c) (b +ℤ d) }
{
    wrap_range(width, a.checked_add(c), b.checked_add(d))
}

// Returns the range of the differences of numbers of a to b and of c to d.
fn subtract_ranges(width: Width, a: i64, b: i64, c: i64, d: i64) -> Range
    ensures { result ≡ spec.wrap_range width (a -ℤ d) (b -ℤ c) }
{
    wrap_range(width, a.checked_sub(d), b.checked_sub(c))
}

/// Returns the range of an arithmetic operation's result (IEC 61131-3:2003, table 24). A sum or a
/// difference that can't wrap is between its ends; any other result may be each number of the
/// width.
pub(crate) fn compute_range(
    operation: ArithmeticOperation,
    width: Width,
    a: Range,
    b: Range,
) -> Range
    ensures { result ≡ spec.compute_range operation width a b }
{
    match (operation, a, b) {
        (ArithmeticOperation::Add, Range::Between(a, b), Range::Between(c, d)) => add_ranges(
            width, a, b, c, d,
        ),
        (ArithmeticOperation::Sub, Range::Between(a, b), Range::Between(c, d)) => {
            subtract_ranges(width, a, b, c, d)
        }
        _ => Range::Between(least_of(width), greatest_of(width)),
    }
}
