// What a scan of a verified image may leave in the slots.
ghost use Rattle.std.specs.Prelude.{◌≡◌, ◌+◌, IfOk, List, [], length, map};
ghost use Rattle.il_range.specs.declared.delay.KnownDelay.{KnownDelay};
ghost use Rattle.il_range.specs.Predictions.{PredictsScans};
ghost use Rattle.il_range.specs.Outcomes.{PredictsReached};
ghost use Rattle.il_range.specs.Starts as spec;

use crate::delay::KnownDelay;
use crate::dependencies::Dependencies;
use crate::known::Known;
use crate::pass::run_pass;
use crate::range::Range;
use crate::sources::SlotSources;
use crate::start::{free_ranges, start_ranges, timers_of};
use crate::stop::PassStop;
use crate::timer::KnownTimer;
use il_image::image::Image;
use il_verify::verify::Verified;
use std::alloc::{AllocError, Global};

/// What a scan may leave in the slots.
#[derive(Drop)]
pub struct ScanPrediction {
    /// The range of each slot: the points, then the variables.
    pub ranges: Vec<Range>,
    /// What is known of the delay of each timer.
    pub delays: Vec<KnownDelay>,
    /// What each slot's range depends on.
    pub sources: SlotSources,
}

// Returns what is known before the first instruction.
fn first_known(
    alloc: Global,
    image: &Image,
    delays: &[KnownDelay],
    slots: Vec<Range>,
) -> Result<Known, AllocError>
    ensures cells { IfOk result (λ first. first.cells.items ≡ []) }
    ensures slots { IfOk result (λ first. first.slots ≡ slots) }
    ensures timers { IfOk result
        (λ first. first.timers.items ≡ spec.known_of_kinds image.now.timers delays.now) }
{
    let timers = timers_of(alloc, image.timers(), delays)?;
    let dependencies = Dependencies::new(alloc, slots.as_slice(), timers.len())?;
    Ok(Known {
        cells: Vec::new(alloc),
        slots,
        timers,
        dependencies,
    })
}

// Returns a prediction in which nothing is known.
fn predict_nothing(alloc: Global, image: &Image) -> Result<ScanPrediction, AllocError>
    ensures size { IfOk result
        (λ f. length f.ranges.items ≡ length image.now.points + length image.now.variables) }
    ensures predicts { (start : List Range) (delays : List KnownDelay)
        → IfOk result (λ f. PredictsReached image.now start delays f.delays.items f.ranges.items) }
{
    let ranges = free_ranges(alloc, image.points().len() + image.variables().len())?;
    Ok(ScanPrediction {
        ranges,
        delays: Vec::new(alloc),
        sources: SlotSources {
            sets: Vec::new(alloc),
        },
    })
}

// Returns what is known of the delays of timers.
fn delays_of(alloc: Global, timers: &[KnownTimer]) -> Result<Vec<KnownDelay>, AllocError>
    ensures { IfOk result (λ delays. delays.items ≡ map (λ u. u.delay) timers.now) }
{
    let mut delays = Vec::new(alloc);
    for timer in timers {
        delays.push(timer.delay)?;
    }
    Ok(delays)
}

// Returns the prediction from what is known at the end of a pass.
fn prediction_at(alloc: Global, end: Known) -> Result<ScanPrediction, AllocError>
    ensures { IfOk result (λ f. (f.ranges ≡ end.slots)
        × (f.delays.items ≡ map (λ u. u.delay) end.timers.items)) }
{
    let delays = delays_of(alloc, end.timers.as_slice())?;
    let ranges = end.slots;
    let dependencies = end.dependencies;
    let mut sets = dependencies.slots;
    sets.extend_from_slice(dependencies.timers.as_slice())?;
    Ok(ScanPrediction {
        ranges,
        delays,
        sources: SlotSources { sets },
    })
}

/// Predicts a scan that starts in these ranges: by the pass, or, if the pass does not decide, with
/// nothing known. Fails only if an allocation fails.
pub(crate) fn predict(
    alloc: Global,
    image: &Image,
    delays: &[KnownDelay],
    start: Vec<Range>,
) -> Result<ScanPrediction, AllocError>
    ensures size { IfOk result
        (λ f. length f.ranges.items ≡ length image.now.points + length image.now.variables) }
    ensures predicts { IfOk result
        (λ f. PredictsReached image.now start.items delays.now f.delays.items f.ranges.items) }
{
    let first = first_known(alloc, image, delays, start)?;
    match run_pass(alloc, image.code(), first) {
        Ok(end) if end.slots.len() == image.points().len() + image.variables().len() => {
            prediction_at(alloc, end)
        }
        Err(PassStop::OutOfMemory) => Err(AllocError),
        _ => predict_nothing(alloc, image),
    }
}

/// Predicts what a scan of a program may leave, from each state that its scans can reach with slots
/// in `memory`, at each moment: one range for each slot, the points, then the variables, in the
/// order of `memory_ranges`. The inputs are in the ranges `given`: one for each read-only point, in
/// the image's order. The delays of the first timers are as `delays` says, before the scan and at
/// its moment; those after the scan are then as the prediction says, with the same mark. A range
/// may be wider than necessary: `Any` or `Either` means that the value is not known. Fails only if
/// an allocation fails. The time is proportional to the length of the code, and for each jump to
/// the number of slots.
pub fn scan_ranges(
    alloc: Global,
    verified: &Verified,
    memory: &[Range],
    delays: &[KnownDelay],
    given: &[Range],
) -> Result<ScanPrediction, AllocError>
    ensures size { IfOk result
        (λ f. length f.ranges.items ≡ length verified.now.points + length verified.now.variables) }
    ensures predicts { IfOk result (λ f. PredictsScans verified.now memory.now delays.now given.now
        f.delays.items f.ranges.items) }
{
    let image = verified.image();
    let start = start_ranges(alloc, image.points(), given, memory)?;
    predict(alloc, image, delays, start)
}
