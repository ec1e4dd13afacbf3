// One pass over the code for a case: whether a demand is met or missed there, or on what that
// depends.
ghost use Rattle.std.specs.Prelude.{◌≡◌, ◌≤◌, IfOk, length, map, position, slice_get};
ghost use Rattle.bay_process.specs.Values as spec_values;
ghost use Rattle.il_scan.specs.Scans.{outputs_of};
ghost use Rattle.bay_audit.specs.Cases as spec_cases;
ghost use Rattle.bay_audit.specs.Conditions as spec_truths;
ghost use Rattle.bay_audit.specs.Rules.{IsDecision, IsVerdict, goal_range};
ghost use Rattle.bay_audit.specs.Rules as spec;

use crate::answer::{RuleVerdict, Verdict};
use crate::case::Case;
use crate::demand::{Demand, Goal};
use crate::program::AuditedProgram;
use crate::split::find_split;
use crate::truth_set::{TruthSet, rule_truths};
use bay_audit_rules::rule::RuleKind;
use bay_base::switch::Operation;
use bay_config::bay::{Source, SwitchPoint};
use bay_process::bind::output_index;
use il_image::image::ImagePoint;
use il_range::delay::KnownDelay;
use il_range::range::Range;
use il_range::scan::ScanPrediction;
use std::alloc::{AllocError, Global};

/// Returns the ranges of the points that the program only reads. Fails only if an allocation fails.
pub(crate) fn input_ranges(
    alloc: Global,
    case: &Case,
    reads: &[Source],
) -> Result<Vec<Range>, AllocError>
    ensures { IfOk result (λ ranges. ranges.items ≡ map (spec_cases.range_of case.now) reads.now) }
{
    reads
        .iter()
        .map(|source| case.range_of(*source))
        .collect(alloc)
}

// Returns the point that releases an operation.
fn releasing_point(operation: Operation) -> SwitchPoint
    ensures { result ≡ spec.releasing_point operation }
{
    match operation {
        Operation::Open => SwitchPoint::EnableOpen,
        Operation::Close => SwitchPoint::EnableClose,
    }
}

/// Returns the index of a release among the writable points; `None` if the program does not name
/// the point.
pub(crate) fn release_index(writes: &[Source], switch: usize, operation: Operation) -> Option<usize>
    ensures { result ≡ position (spec_values.is_point switch (spec.releasing_point operation))
        writes.now }
{
    output_index(writes, switch, releasing_point(operation))
}

// Returns the ranges of the writable points.
fn outputs_of(
    alloc: Global,
    points: &[ImagePoint],
    ranges: &[Range],
) -> Result<Vec<Range>, AllocError>
    requires { length points.now ≤ length ranges.now }
    ensures { IfOk result (λ outputs. outputs.items ≡ outputs_of points.now ranges.now) }
{
    let mut outputs = Vec::new(alloc);
    for (slot, point) in points.iter().enumerate() {
        if point.writable {
            outputs.push(ranges[slot])?;
        }
    }
    Ok(outputs)
}

// Returns the range at an index; that of FALSE if the program does not name the point.
fn range_at(outputs: &[Range], place: Option<usize>) -> Range
    ensures { result ≡ spec.range_at outputs.now place }
{
    match place {
        Some(place) => outputs.get(place).copied().unwrap_or(Range::No),
        None => Range::No,
    }
}

// Returns whether a release in this range obeys the rule for certain, if the rule's condition is
// TRUE.
fn is_surely_obeyed(kind: RuleKind, release: Range) -> bool
    ensures { result ≡ spec.is_surely_obeyed kind release }
{
    match (kind, release) {
        (RuleKind::Never, Range::No) | (RuleKind::Always, Range::Yes) => true,
        _ => false,
    }
}

// Returns whether a release in this range breaks the rule for certain, if the rule's condition is
// TRUE.
fn is_surely_missed(kind: RuleKind, release: Range) -> bool
    ensures { result ≡ spec.is_surely_missed kind release }
{
    match (kind, release) {
        (RuleKind::Never, Range::Yes) | (RuleKind::Always, Range::No) => true,
        _ => false,
    }
}

// Decides a rule from the truth set of its condition and the range of the release.
fn decide(kind: RuleKind, when: TruthSet, release: Range) -> RuleVerdict
    ensures { result ≡ spec.decide kind when release }
{
    if is_surely_obeyed(kind, release) || !when.yes {
        RuleVerdict::Obeyed
    } else if is_surely_missed(kind, release) && !when.no {
        RuleVerdict::Missed
    } else {
        RuleVerdict::Unknown
    }
}

/// Returns the range of a release. Fails only if an allocation fails.
pub(crate) fn release_range(
    alloc: Global,
    program: &AuditedProgram<'_>,
    switch: usize,
    operation: Operation,
    ranges: &[Range],
) -> Result<Range, AllocError>
    requires { length program.now.image.points ≤ length ranges.now }
    ensures { IfOk result (λ r. r ≡ spec.release_range program.now.image.points program.now.writes
        ranges.now switch operation) }
{
    let outputs = outputs_of(alloc, program.image().points(), ranges)?;
    let place = release_index(program.writes(), switch, operation);
    Ok(range_at(outputs.as_slice(), place))
}

// Returns the range of whether no delay of a timer runs, from what is known of its delay; TRUE if
// that is known.
fn idle_range(delay: Option<KnownDelay>) -> Range
    ensures { result ≡ spec.idle_range delay }
{
    match delay {
        Some(KnownDelay::Below(0)) => Range::Yes,
        _ => Range::Either,
    }
}

// Returns the range of whether the delay of a timer has begun.
fn begun_range(delay: Option<KnownDelay>) -> Range
    ensures { result ≡ spec.begun_range delay }
{
    match delay {
        Some(KnownDelay::Begun | KnownDelay::AtLeast(_)) => Range::Yes,
        _ => Range::Either,
    }
}

// Returns the range of whether the delay of a timer began no later than the mark.
fn lasting_range(delay: Option<KnownDelay>) -> Range
    ensures { result ≡ spec.lasting_range delay }
{
    match delay {
        Some(KnownDelay::AtLeast(_)) => Range::Yes,
        _ => Range::Either,
    }
}

// Returns the range of whether a scan reaches a goal.
fn range_of_goal(
    alloc: Global,
    program: &AuditedProgram<'_>,
    goal: Goal,
    prediction: &ScanPrediction,
) -> Result<Range, AllocError>
    requires { length program.now.image.points ≤ length prediction.now.ranges.items }
    ensures { IfOk result (λ r. r ≡ goal_range program.now.image.points program.now.writes
        prediction.now.ranges.items prediction.now.delays.items goal) }
{
    let delays = prediction.delays.as_slice();
    match goal {
        Goal::Release { switch, operation } => {
            release_range(
                alloc,
                program,
                switch,
                operation,
                prediction.ranges.as_slice(),
            )
        }
        Goal::Idle { timer } => Ok(idle_range(delays.get(timer).copied())),
        Goal::Begun { timer } => Ok(begun_range(delays.get(timer).copied())),
        Goal::Lasting { timer } => Ok(lasting_range(delays.get(timer).copied())),
    }
}

/// Returns the verdict of a pass on a demand in a case, and its prediction. `covered` is the truth
/// set of the demand's condition with its exception. Fails only if an allocation fails.
pub(crate) fn run_pass(
    alloc: Global,
    program: &AuditedProgram<'_>,
    demand: &Demand,
    case: &Case,
    covered: TruthSet,
) -> Result<(RuleVerdict, ScanPrediction), AllocError>
    requires { covered ≡ spec_truths.rule_truths case.now demand.now.when demand.now.unless }
    ensures { IfOk result
        (λ found. IsDecision program.now demand.now case.now found.0) }
{
    let input_ranges = input_ranges(alloc, case, program.reads())?;
    let prediction = program.scan(alloc, demand.limits.as_slice(), input_ranges.as_slice())?;
    let range = range_of_goal(alloc, program, demand.goal, &prediction)?;
    Ok((decide(demand.kind, covered, range), prediction))
}

/// Returns the verdict of one pass on a demand in a case. Fails only if an allocation fails.
pub fn find_verdict(
    alloc: Global,
    program: &AuditedProgram<'_>,
    demand: &Demand,
    case: &Case,
) -> Result<Verdict, AllocError>
    ensures { IfOk result (IsVerdict program.now demand.now case.now) }
{
    let covered = rule_truths(
        alloc,
        case,
        demand.when.as_slice(),
        demand.unless.as_slice(),
    )?;
    if !covered.yes {
        return Ok(Verdict::Obeyed);
    }
    let (decision, prediction) = run_pass(alloc, program, demand, case, covered)?;
    match decision {
        RuleVerdict::Obeyed => Ok(Verdict::Obeyed),
        RuleVerdict::Missed => Ok(Verdict::Broken),
        RuleVerdict::Unknown => find_split(alloc, program, demand, case, &prediction),
    }
}
