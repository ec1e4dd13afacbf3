// The clock of a server: the system's time at its start, carried on by a clock that does not jump.
ghost use Rattle.std.specs.Prelude.{◌≡◌, ◌+◌, ◌-◌, ◌*◌, ◌/◌, ◌^◌, ◌≤◌, ◌<◌, List, min};
ghost use Rattle.bay_server.specs.Clock.{ClockData, KeepsPace, after_reading, max_adjustment, elapsed_time, jump_of, after_readings, shift_of, initial_clock};
ghost use Rattle.bay_server.specs.Clock as spec;

use std::marker::Model;

// The number of milliseconds in which the moment may be adjusted by one.
const PACE: u64 = 100;

// The largest difference between the moment and the system's time that is not logged, in
// milliseconds.
const NEAR: u64 = 1_000;

/// The times of the two clocks of a host, in milliseconds.
#[derive(Clone, Copy)]
pub struct Clocks {
    /// The system's time, since 1970. It may be set, and then it jumps.
    pub system: u64,
    /// The time of a clock that does not jump, since an arbitrary start.
    pub steady: u64,
}

/// The position of the system's time, relative to the server's clock.
#[derive(Clone, Copy, PartialEq, Eq)]
pub enum ClockSide {
    /// At most 1,000 milliseconds away.
    Near,
    /// More than 1,000 milliseconds ahead.
    Ahead,
    /// More than 1,000 milliseconds late.
    Behind,
}

/// A change of the side of the system's time, with its distance in milliseconds.
#[derive(Clone, Copy)]
pub struct ClockShift {
    pub side: ClockSide,
    pub distance: u64,
}

/// A reading of a server's clock.
#[derive(Clone, Copy)]
pub struct ClockReading {
    /// In milliseconds since 1970.
    pub moment: u64,
    /// The change of the side of the system's time since the last reading, if there is one.
    pub shift: Option<ClockShift>,
    /// How many milliseconds the system's clock has gone on beyond the steady one since the last
    /// reading, 0 if it has not. While a machine sleeps the steady clock stops.
    pub jump: u64,
}

/// The clock of a server. It starts at the system's time. From then on it advances as the steady
/// clock does, and is adjusted toward the system's time by at most 1 millisecond in 100: so it
/// follows a system's clock that is a little fast or slow, and does not jump when that clock is
/// set. It also knows how long a turn lasts at least, if that is limited.
#[derive(Drop)]
pub struct ServeClock {
    // The last moment, the latest time of the steady clock, and the last time of the system's.
    moment: u64,
    steady: u64,
    system: u64,
    // What has passed and was not yet enough to be drawn by a millisecond.
    carry: u64,
    side: ClockSide,
    // The least milliseconds that a turn lasts.
    cycle: Option<u32>,
}

impl Model for ServeClock {
    ghost use Rattle.std.specs.Prelude.{◌<◌};
    ghost use Rattle.bay_server.specs.Clock.{ClockData};

    ghost Value = { ClockData };

    ghost view = { λ c. record {
      moment = c.moment;
      steady = c.steady;
      system = c.system;
      carry = c.carry;
      side = c.side;
      cycle = c.cycle;
    } };

    ghost invariant = { λ c. c.carry < 100 };
}

// Returns the side of a system's time, relative to a moment.
fn side_of(moment: u64, system: u64) -> ClockSide
    ensures { result ≡ spec.side_of moment system }
{
    if moment.abs_diff(system) <= NEAR {
        ClockSide::Near
    } else if moment < system {
        ClockSide::Ahead
    } else {
        ClockSide::Behind
    }
}

impl ServeClock {
    /// Starts a clock at the system's time. If `cycle` is given, a turn lasts at least this many
    /// milliseconds.
    pub fn start(clocks: Clocks, cycle: Option<u32>) -> Self
        ensures { result ≡ initial_clock clocks cycle }
    {
        ServeClock {
            moment: clocks.system,
            steady: clocks.steady,
            system: clocks.system,
            carry: 0,
            side: ClockSide::Near,
            cycle,
        }
    }

    /// Returns the time of the steady clock at which a turn may end that began at the last reading,
    /// if turns have a least length.
    pub fn turn_end(&self) -> Option<u64>
        ensures { result ≡ spec.turn_end self.now }
    {
        match self.cycle {
            Some(cycle) => Some(self.steady.saturating_add(u64::from(cycle))),
            None => None,
        }
    }

    /// Reads the clock, given the times of the two clocks of the host. A steady clock that went
    /// back counts as one that has not advanced.
    pub fn read(&mut self, clocks: Clocks) -> ClockReading
        ensures clock { self.new ≡ after_reading clocks self.old }
        ensures moment { result.moment ≡ self.new.moment }
        ensures shift { result.shift ≡ shift_of self.old.side self.new.moment clocks.system }
        ensures jump { result.jump ≡ jump_of clocks self.old }
        // The moment does not go back.
        ensures forward { self.old.moment ≤ result.moment }
        // It advances as far as the steady clock, give or take a millisecond in each hundred.
        ensures least { min (self.old.moment + elapsed_time clocks self.old) (2 ^ 64 - 1)
            ≤ result.moment + max_adjustment clocks self.old }
        ensures most { result.moment
            ≤ self.old.moment + elapsed_time clocks self.old + max_adjustment clocks self.old }
    {
        let elapsed = clocks.steady.saturating_sub(self.steady);
        let jump = clocks
            .system
            .saturating_sub(self.system)
            .saturating_sub(elapsed);
        let carried = self.carry + elapsed % PACE;
        let draw = elapsed / PACE + carried / PACE;
        let least = self.moment.saturating_add(elapsed - draw);
        let most = self.moment.saturating_add(elapsed).saturating_add(draw);
        let moment = clocks.system.max(least).min(most);
        let side = side_of(moment, clocks.system);
        let distance = moment.abs_diff(clocks.system);
        let shift = if side == self.side {
            None
        } else {
            Some(ClockShift { side, distance })
        };
        self.moment = moment;
        self.steady = self.steady.max(clocks.steady);
        self.system = clocks.system;
        self.carry = carried % PACE;
        self.side = side;
        ClockReading {
            moment,
            shift,
            jump,
        }
    }
}

/// Between any two readings the moment does not go back, and it advances as far as the steady
/// clock, give or take a millisecond in each hundred, whatever the times of the two clocks are.
pub fn any_readings_keep_pace()
    ensures { (readings : List Clocks) (c : ClockData) → c.carry < 100
        → c.moment < 2 ^ 64 → KeepsPace c (after_readings readings c) }
{}
