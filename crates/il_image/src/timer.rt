// Timers (IEC 61131-3:2003, table 38): one call as a function of the timer, its inputs and the
// moment.
ghost use Rattle.std.specs.Prelude.{◌≡◌};
ghost use Rattle.il_image.specs.Timers.{after_call, first_state, phase_after};
ghost use Rattle.il_image.specs.Timers as spec;

use bay_base::types::TimerKind;

/// The phase of a timer's delay.
#[derive(Clone, Copy)]
pub enum TimerPhase {
    /// No delay is running and there is nothing to delay: IN of a TON is FALSE, or IN of a TOF was
    /// never TRUE.
    Idle,
    /// IN of a TOF is TRUE.
    Held,
    /// The delay began at this time, in milliseconds. It may have expired.
    Since(u64),
}

/// A timer: the inputs for its next call, and the outputs of its last call.
#[derive(Clone, Copy)]
pub struct TimerState {
    pub kind: TimerKind,
    /// IN.
    pub input: bool,
    /// PT in milliseconds.
    pub preset: u32,
    pub phase: TimerPhase,
    /// Q.
    pub output: bool,
    /// ET in milliseconds.
    pub elapsed: u32,
}

// Returns the phase of a TON after a call at this moment.
fn on_delay_phase(input: bool, phase: TimerPhase, now: u64) -> TimerPhase
    ensures { result ≡ phase_after TimerKind.OnDelay input phase now }
{
    if !input {
        return TimerPhase::Idle;
    }
    match phase {
        TimerPhase::Idle | TimerPhase::Held => TimerPhase::Since(now),
        TimerPhase::Since(begun) => TimerPhase::Since(begun),
    }
}

// Returns the phase of a TOF after a call at this moment.
fn off_delay_phase(input: bool, phase: TimerPhase, now: u64) -> TimerPhase
    ensures { result ≡ phase_after TimerKind.OffDelay input phase now }
{
    if input {
        return TimerPhase::Held;
    }
    match phase {
        TimerPhase::Idle => TimerPhase::Idle,
        TimerPhase::Held => TimerPhase::Since(now),
        TimerPhase::Since(start) => TimerPhase::Since(start),
    }
}

// Returns Q. For a TON it is TRUE after the delay; for a TOF it is TRUE while IN is TRUE and until
// the delay has expired.
fn output_of(kind: TimerKind, preset: u32, phase: TimerPhase, now: u64) -> bool
    ensures { result ≡ spec.output_of kind preset phase now }
{
    match (kind, phase) {
        (_, TimerPhase::Idle) => false,
        (_, TimerPhase::Held) => true,
        (TimerKind::OnDelay, TimerPhase::Since(start)) => {
            now.saturating_sub(start) >= u64::from(preset)
        }
        (TimerKind::OffDelay, TimerPhase::Since(start)) => {
            now.saturating_sub(start) < u64::from(preset)
        }
    }
}

// Returns ET in milliseconds: how long the delay has run, at most PT.
fn elapsed_of(preset: u32, phase: TimerPhase, now: u64) -> u32
    ensures { result ≡ spec.elapsed_of preset phase now }
{
    match phase {
        TimerPhase::Since(start) => now.saturating_sub(start).min(u64::from(preset)) as u32,
        _ => 0,
    }
}

impl TimerState {
    /// Creates a timer before its first call: IN and Q are FALSE, PT and ET are 0.
    pub fn new(kind: TimerKind) -> TimerState
        ensures { result ≡ first_state kind }
    {
        TimerState {
            kind,
            input: false,
            preset: 0,
            phase: TimerPhase::Idle,
            output: false,
            elapsed: 0,
        }
    }

    /// Calls the timer at a time in milliseconds, with the IN and PT that it holds.
    pub fn call(&mut self, now: u64)
        ensures { self.new ≡ after_call self.old now }
    {
        self.phase = match self.kind {
            TimerKind::OnDelay => on_delay_phase(self.input, self.phase, now),
            TimerKind::OffDelay => off_delay_phase(self.input, self.phase, now),
        };
        self.output = output_of(self.kind, self.preset, self.phase, now);
        self.elapsed = elapsed_of(self.preset, self.phase, now);
    }
}
