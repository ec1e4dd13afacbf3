// What a program's memory may hold between scans.
ghost use Rattle.std.specs.Prelude.{◌≡◌, ◌+◌, ◌++◌, IfOk, length, map};
ghost use Rattle.il_range.specs.Effects.{join_lists};
ghost use Rattle.il_range.specs.Effects as spec;
ghost use Rattle.il_range.specs.Predictions.{IsMemory};
ghost use Rattle.il_range.specs.Outcomes.{PredictsMemory};
ghost use Rattle.il_range.specs.Starts.{range_of_point};

use crate::range::{Range, join, value_range};
use crate::scan::predict;
use crate::start::{free_ranges, start_ranges};
use il_image::image::{Image, ImagePoint};
use il_image::value::Value;
use il_verify::verify::Verified;
use std::alloc::{AllocError, Global};

// A range that still grows after this number of rounds is not known.
const EARLY: usize = 8;

// Returns whether each value of the first range is one of the second.
fn is_within(a: Range, b: Range) -> bool
    ensures { result ≡ spec.is_within a b }
{
    match (a, b) {
        (_, Range::Any) => true,
        (Range::No | Range::Yes | Range::Either | Range::Among(_, _), Range::Either) => true,
        (Range::No, Range::No) | (Range::Yes, Range::Yes) => true,
        (Range::Between(a, b), Range::Between(c, d)) => c <= a && b <= d,
        (Range::Among(j, s), Range::Among(k, t)) => j == k && s.is_same(t),
        _ => false,
    }
}

// Returns a range that includes both: the first if it includes the second; a range that grows late
// is unknown.
fn widen_range(is_late: bool, a: Range, b: Range) -> Range
    ensures { result ≡ spec.widen_range is_late a b }
{
    if is_within(b, a) {
        a
    } else if is_late {
        Range::Any
    } else {
        join(a, b)
    }
}

// Returns whether each range is within the other at the same index.
fn are_within(ranges: &[Range], others: &[Range]) -> bool
    ensures { result ≡ spec.are_within ranges.now others.now }
{
    let mut rest = ranges;
    let mut left = others;
    while let [range, later @ ..] = rest {
        let [other, behind @ ..] = left else {
            return false;
        };
        if !is_within(*range, *other) {
            return false;
        }
        rest = later;
        left = behind;
    }
    left.is_empty()
}

// Widens ranges by those that a scan leaves.
fn widen(ranges: &mut Vec<Range>, left: &[Range], is_late: bool)
    requires { length ranges.old.items ≡ length left.now }
    ensures { ranges.new.items ≡ join_lists (spec.widen_range is_late) ranges.old.items left.now }
{
    for i in 0..left.len() {
        ranges[i] = widen_range(is_late, ranges[i], left[i]);
    }
}

// Returns the ranges of the points' first values.
fn point_ranges(alloc: Global, points: &[ImagePoint]) -> Result<Vec<Range>, AllocError>
    ensures { IfOk result (λ ranges. ranges.items ≡ map range_of_point points.now) }
{
    points
        .iter()
        .map(|point| value_range(Value::default_of(point.elementary)))
        .collect(alloc)
}

// Returns the ranges of the slots' first values.
fn first_ranges(alloc: Global, image: &Image) -> Result<Vec<Range>, AllocError>
    ensures { IfOk result (λ ranges. ranges.items
        ≡ map range_of_point image.now.points ++ map spec.value_range image.now.variables) }
{
    let mut ranges = point_ranges(alloc, image.points())?;
    for variable in image.variables() {
        ranges.push(value_range(*variable))?;
    }
    Ok(ranges)
}

// Returns the ranges that a scan leaves from slots in these ranges, with any inputs.
fn ranges_after(alloc: Global, image: &Image, memory: &[Range]) -> Result<Vec<Range>, AllocError>
    ensures size { IfOk result
        (λ left. length left.items ≡ length image.now.points + length image.now.variables) }
    ensures carries { IfOk result (λ left. PredictsMemory image.now memory.now left.items) }
{
    let free = free_ranges(alloc, image.points().len())?;
    let start = start_ranges(alloc, image.points(), free.as_slice(), memory)?;
    let forecast = predict(alloc, image, &[], start)?;
    Ok(forecast.ranges)
}

/// Returns ranges that a program's slots never leave between scans, whatever the inputs and the
/// moments of its scans are: the points, then the variables. They begin at the first values and
/// grow by what a scan leaves, until a scan leaves nothing else. A range whose ends still grow
/// after eight rounds is `Any`. Fails only if an allocation fails. The time is that of
/// `scan_ranges` for each round; there are at most nine more rounds than slots.
pub fn memory_ranges(alloc: Global, verified: &Verified) -> Result<Vec<Range>, AllocError>
    ensures { IfOk result (λ ranges. IsMemory verified.now ranges.items) }
{
    let image = verified.image();
    let slots = image.points().len() + image.variables().len();
    let mut ranges = first_ranges(alloc, image)?;
    for round in 0..slots.saturating_add(EARLY + 1) {
        let left = ranges_after(alloc, image, ranges.as_slice())?;
        if are_within(left.as_slice(), ranges.as_slice()) {
            return Ok(ranges);
        }
        widen(&mut ranges, left.as_slice(), round >= EARLY);
    }
    free_ranges(alloc, slots)
}
