// What is known of the delay of a timer.
ghost use Rattle.std.specs.Prelude.{◌≡◌};
ghost use Rattle.il_range.specs.Effects as spec;

use crate::range::Range;
use bay_base::types::TimerKind;

/// What is known of the delay of a timer (IEC 61131-3:2003, table 38). The delay of a TON begins
/// as IN becomes TRUE, and that of a TOF as IN becomes FALSE. A TOF whose IN has never been TRUE
/// counts as one whose delay began at moment 0.
#[derive(Clone, Copy, Debug, PartialEq, Eq)]
pub enum KnownDelay {
    /// Nothing.
    Unknown,
    /// If it is running, it began less than this number of milliseconds ago; with 0, no delay is
    /// running.
    Below(u32),
    /// It has begun.
    Begun,
    /// It began no later than a certain moment, the mark, which is at least this number of
    /// milliseconds ago.
    AtLeast(u32),
}

/// Returns what is known of a delay that is one of either.
pub(crate) fn join_delay(a: KnownDelay, b: KnownDelay) -> KnownDelay
    ensures { result ≡ spec.join_delay a b }
{
    match (a, b) {
        (KnownDelay::Below(a), KnownDelay::Below(b)) => KnownDelay::Below(a.max(b)),
        (KnownDelay::AtLeast(a), KnownDelay::AtLeast(b)) => KnownDelay::AtLeast(a.min(b)),
        (KnownDelay::Begun, KnownDelay::Begun | KnownDelay::AtLeast(_)) => KnownDelay::Begun,
        (KnownDelay::AtLeast(_), KnownDelay::Begun) => KnownDelay::Begun,
        _ => KnownDelay::Unknown,
    }
}

// Returns what is known of the delay of a TON after a call with this IN.
fn delay_of_ton(input: Range, delay: KnownDelay) -> KnownDelay
    ensures { result ≡ spec.delay_of_ton input delay }
{
    match delay {
        KnownDelay::Below(below) => match input {
            Range::No => KnownDelay::Below(0),
            _ => KnownDelay::Below(below.max(1)),
        },
        KnownDelay::AtLeast(least) => match input {
            Range::No => KnownDelay::Below(0),
            Range::Yes => KnownDelay::AtLeast(least),
            _ => KnownDelay::Unknown,
        },
        KnownDelay::Unknown | KnownDelay::Begun => match input {
            Range::No => KnownDelay::Below(0),
            Range::Yes => KnownDelay::Begun,
            _ => KnownDelay::Unknown,
        },
    }
}

// Returns what is known of the delay of a TOF after a call with this IN.
fn delay_of_tof(input: Range, delay: KnownDelay) -> KnownDelay
    ensures { result ≡ spec.delay_of_tof input delay }
{
    match (input, delay) {
        (Range::No, KnownDelay::AtLeast(least)) => KnownDelay::AtLeast(least),
        (Range::No, _) => KnownDelay::Begun,
        _ => KnownDelay::Unknown,
    }
}

/// Returns what is known of the delay after a call of a timer of the kind with this IN.
pub(crate) fn delay_after(kind: Option<TimerKind>, input: Range, delay: KnownDelay) -> KnownDelay
    ensures { result ≡ spec.delay_after kind input delay }
{
    match kind {
        Some(TimerKind::OnDelay) => delay_of_ton(input, delay),
        Some(TimerKind::OffDelay) => delay_of_tof(input, delay),
        None => KnownDelay::Unknown,
    }
}

/// Returns the range of whether PT has passed since the delay began.
pub(crate) fn has_passed(delay: KnownDelay, preset: Range) -> Range
    ensures { result ≡ spec.has_passed delay preset }
{
    match (delay, preset) {
        (KnownDelay::Below(below), Range::Between(low, _)) if i64::from(below) <= low => Range::No,
        (KnownDelay::AtLeast(least), Range::Between(_, high)) if high <= i64::from(least) => {
            Range::Yes
        }
        _ => Range::Either,
    }
}
