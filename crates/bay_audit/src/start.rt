// The ranges of a program's slots before its first scan, and the limits of its timers.
ghost use Rattle.std.specs.Prelude.{◌≡◌, ◌++◌, IfOk, map, replicate};
ghost use Rattle.il_range.specs.Effects as spec;
ghost use Rattle.il_range.specs.Starts.{range_of_point};
ghost use Rattle.il_range.specs.declared.delay.KnownDelay.TheVariants.{Below};

use il_image::image::{Image, ImagePoint};
use il_image::value::Value;
use il_range::delay::KnownDelay;
use il_range::range::Range;
use std::alloc::{AllocError, Global};

// Returns the range of this value alone.
fn value_range(value: Value) -> Range
    ensures { result ≡ spec.value_range value }
{
    match value {
        Value::Truth(true) => Range::Yes,
        Value::Truth(false) => Range::No,
        _ => Range::Between(value.number(), value.number()),
    }
}

// Returns the ranges of the points' first values.
fn point_ranges(alloc: Global, points: &[ImagePoint]) -> Result<Vec<Range>, AllocError>
    ensures { IfOk result (λ ranges. ranges.items ≡ map range_of_point points.now) }
{
    points
        .iter()
        .map(|point| value_range(Value::default_of(point.elementary)))
        .collect(alloc)
}

/// Returns the ranges of the slots before the first scan: the points, then the variables. Fails
/// only if an allocation fails.
pub(crate) fn first_ranges(alloc: Global, image: &Image) -> Result<Vec<Range>, AllocError>
    ensures { IfOk result (λ ranges. ranges.items
        ≡ map range_of_point image.now.points ++ map spec.value_range image.now.variables) }
{
    let mut ranges = point_ranges(alloc, image.points())?;
    for variable in image.variables() {
        ranges.push(value_range(*variable))?;
    }
    Ok(ranges)
}

/// Returns the limits of timers of which no delay runs. Fails only if an allocation fails.
pub(crate) fn no_delays(alloc: Global, timers: usize) -> Result<Vec<KnownDelay>, AllocError>
    ensures { IfOk result (λ limits. limits.items ≡ replicate timers (Below 0)) }
{
    let limits = vec![in alloc; KnownDelay::Below(0); timers]?;
    Ok(limits)
}
