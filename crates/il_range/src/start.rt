// What is known at the start of a scan.
ghost use Rattle.std.specs.Prelude.{◌≡◌, IfOk, drop, replicate, if◌then◌else◌};
ghost use Rattle.il_scan.specs.Scans.{first_input, with_inputs};
ghost use Rattle.il_range.specs.declared.range.Range.TheVariants.{Any};
ghost use Rattle.il_range.specs.Starts as spec;

use crate::delay::KnownDelay;
use crate::range::Range;
use crate::timer::KnownTimer;
use bay_base::types::TimerKind;
use il_image::image::ImagePoint;
use std::alloc::{AllocError, Global};

/// Returns `count` ranges of which nothing is known. Fails only if an allocation fails.
pub(crate) fn free_ranges(alloc: Global, count: usize) -> Result<Vec<Range>, AllocError>
    ensures { IfOk result (λ ranges. ranges.items ≡ replicate count Any) }
{
    let mut ranges = Vec::new(alloc);
    for _ in 0..count {
        ranges.push(Range::Any)?;
    }
    Ok(ranges)
}

// Returns what is known of a point's slot: the given range, if the point may only be read.
fn range_at(point: &ImagePoint, given: &[Range], known: Range) -> Range
    ensures { result ≡ if point.now.writable then known else first_input given.now known }
{
    match given {
        [first, ..] if !point.writable => *first,
        _ => known,
    }
}

// Returns the given ranges after that of a point.
fn ranges_after<'a>(point: &ImagePoint, given: &'a [Range]) -> &'a [Range]
    ensures { result.now ≡ if point.now.writable then given.now else drop 1 given.now }
{
    match given {
        [_, later @ ..] if !point.writable => later,
        _ => given,
    }
}

/// Returns what is known of the slots at the start of a scan, given the ranges of the memory and of
/// the inputs. Fails only if an allocation fails.
pub(crate) fn start_ranges(
    alloc: Global,
    points: &[ImagePoint],
    given: &[Range],
    memory: &[Range],
) -> Result<Vec<Range>, AllocError>
    ensures { IfOk result
        (λ ranges. ranges.items ≡ with_inputs points.now given.now memory.now) }
{
    let mut ranges = Vec::new(alloc);
    let mut rest = points;
    let mut left = given;
    let mut known = memory;
    while let [point, others @ ..] = rest {
        let [range, later @ ..] = known else {
            return Ok(ranges);
        };
        ranges.push(range_at(point, left, *range))?;
        left = ranges_after(point, left);
        rest = others;
        known = later;
    }
    ranges.extend_from_slice(known)?;
    Ok(ranges)
}

// Returns what is known of a timer of this kind with this delay.
fn known_of_kind(kind: TimerKind, delay: KnownDelay) -> KnownTimer
    ensures { result ≡ spec.known_of_kind kind delay }
{
    KnownTimer {
        kind: Some(kind),
        input: Range::Either,
        preset: Range::Any,
        output: Range::Either,
        elapsed: Range::Any,
        delay,
    }
}

// Returns what is known of the first delay.
fn first_delay(delays: &[KnownDelay]) -> KnownDelay
    ensures { result ≡ spec.first_delay delays.now }
{
    match delays {
        [first, ..] => *first,
        [] => KnownDelay::Unknown,
    }
}

// Returns the delays after the first.
fn delays_after_first(delays: &[KnownDelay]) -> &[KnownDelay]
    ensures { result.now ≡ drop 1 delays.now }
{
    match delays {
        [_, later @ ..] => later,
        [] => delays,
    }
}

/// Returns what is known of timers of these kinds, and of the delays of the first ones. Fails only
/// if an allocation fails.
pub(crate) fn timers_of(
    alloc: Global,
    kinds: &[TimerKind],
    delays: &[KnownDelay],
) -> Result<Vec<KnownTimer>, AllocError>
    ensures { IfOk result
        (λ timers. timers.items ≡ spec.known_of_kinds kinds.now delays.now) }
{
    let mut timers = Vec::new(alloc);
    let mut rest = kinds;
    let mut left = delays;
    while let [kind, others @ ..] = rest {
        timers.push(known_of_kind(*kind, first_delay(left)))?;
        left = delays_after_first(left);
        rest = others;
    }
    Ok(timers)
}
