// What is known of a timer.
ghost use Rattle.std.specs.Prelude.{◌≡◌};
ghost use Rattle.il_range.specs.Effects as spec;

use crate::delay::{KnownDelay, delay_after, has_passed, join_delay};
use crate::range::{Range, join};
use bay_base::types::TimerKind;

/// What is known of a timer (IEC 61131-3:2003, table 38).
#[derive(Clone, Copy, Debug, PartialEq, Eq)]
pub(crate) struct KnownTimer {
    /// Its kind, if that is known.
    pub kind: Option<TimerKind>,
    /// Its IN.
    pub input: Range,
    /// Its PT.
    pub preset: Range,
    /// Its Q.
    pub output: Range,
    /// Its ET.
    pub elapsed: Range,
    /// Its delay.
    pub delay: KnownDelay,
}

// Returns the kind, if both have the same known kind.
fn join_kind(a: Option<TimerKind>, b: Option<TimerKind>) -> Option<TimerKind>
    ensures { result ≡ spec.join_kind a b }
{
    match (a, b) {
        (Some(TimerKind::OnDelay), Some(TimerKind::OnDelay)) => Some(TimerKind::OnDelay),
        (Some(TimerKind::OffDelay), Some(TimerKind::OffDelay)) => Some(TimerKind::OffDelay),
        _ => None,
    }
}

/// Returns what is known of a timer that is one of either.
pub(crate) fn join_timer(a: KnownTimer, b: KnownTimer) -> KnownTimer
    ensures { result ≡ spec.join_timer a b }
{
    KnownTimer {
        kind: join_kind(a.kind, b.kind),
        input: join(a.input, b.input),
        preset: join(a.preset, b.preset),
        output: join(a.output, b.output),
        elapsed: join(a.elapsed, b.elapsed),
        delay: join_delay(a.delay, b.delay),
    }
}

// Returns Q after a call of a timer of the kind with this IN; `passed` is the range of whether PT
// has passed since its delay began.
fn output_after(kind: Option<TimerKind>, input: Range, passed: Range) -> Range
    ensures { result ≡ spec.output_after kind input passed }
{
    match (kind, input, passed) {
        (Some(TimerKind::OnDelay), Range::No, _) => Range::No,
        (Some(TimerKind::OffDelay), Range::Yes, _) => Range::Yes,
        (Some(TimerKind::OnDelay), _, _) => passed,
        (Some(TimerKind::OffDelay), _, Range::Yes) => Range::No,
        _ => Range::Either,
    }
}

// Returns the range of the numbers that are at most PT, if PT is known.
fn up_to(preset: Range) -> Range
    ensures { result ≡ spec.up_to preset }
{
    match preset {
        Range::Between(_, high) => Range::Between(0, high),
        _ => Range::Any,
    }
}

// Returns ET after a call of a timer of the kind with this IN and this PT.
fn elapsed_after(kind: Option<TimerKind>, input: Range, preset: Range) -> Range
    ensures { result ≡ spec.elapsed_after kind input preset }
{
    match (kind, input) {
        (Some(TimerKind::OnDelay), Range::No) => Range::Between(0, 0),
        (Some(TimerKind::OffDelay), Range::Yes) => Range::Between(0, 0),
        _ => up_to(preset),
    }
}

/// Returns what is known of a timer after a call.
pub(crate) fn timer_after_call(timer: KnownTimer) -> KnownTimer
    ensures { result ≡ spec.timer_after_call timer }
{
    let delay = delay_after(timer.kind, timer.input, timer.delay);
    KnownTimer {
        kind: timer.kind,
        input: timer.input,
        preset: timer.preset,
        output: output_after(timer.kind, timer.input, has_passed(delay, timer.preset)),
        elapsed: elapsed_after(timer.kind, timer.input, timer.preset),
        delay,
    }
}
