// Supervision of a process: its settings, its state, and how its lines are classified.
ghost use Rattle.std.specs.Prelude.{◌≡◌, ◌≤◌, ◌-◌, false, Some, length, max, nat_le, option_map};
ghost use Rattle.bay_process_port.specs.Supervised.{after_alive_answer, settings_in, active_at, judge_introduction, is_timely, judge_line, judge_plain_line, judge_later_line, judge_moment, initial_watch, event_message};
ghost use Rattle.bay_process_port.specs.Ports as spec_ports;
ghost use Rattle.bay_process_port.specs.Ports.{judge_silence};
ghost use Rattle.bay_process_port.specs.Supervised as spec;
ghost use Rattle.bay_server_turn.specs.Served.{event_in_line};
ghost use Rattle.bay_process_port.specs.Introduction.{introduction_moment};
ghost use Rattle.bay_server_turn.specs.Supervised.{timed_line_of};

use crate::connection_event::DisconnectReason;
use crate::introduction::read_introduction;
use arrayvec::ArrayVec;
use bay_device::device::Device;
use bay_lines::escaped::EscapedText;
use bay_server_turn::process_input::{ProcessEvent, read_process_event};
use bay_server_turn::supervised::read_timed_line;
use std::marker::Model;

/// The maximum number of octets of a key.
pub const KEY: usize = 64;

/// The supervision settings: the longest silence, and the key.
#[derive(Drop)]
pub struct SupervisionSettings {
    limit_ms: u32,
    key: ArrayVec<u8, KEY>,
}

impl Model for SupervisionSettings {
    ghost use Rattle.bay_process_port.specs.Supervised as spec;

    ghost Value = { spec.SupervisionSettings };

    ghost view = { λ d. record { limit = d.limit_ms; key = d.key.items } };
}

impl SupervisionSettings {
    /// Creates settings for a process that may be silent for `limit_ms` milliseconds, whose times
    /// may differ from the server's by as much, and which has this key, of at most 64 octets.
    pub fn new(limit_ms: u32, key: &[u8]) -> Self
        requires { length key.now ≤ 64 }
        ensures { result ≡ record { limit = limit_ms; key = key.now } }
    {
        let mut octets = ArrayVec::new();
        octets.try_extend_from_slice(key).unwrap();
        SupervisionSettings {
            limit_ms,
            key: octets,
        }
    }

    // Returns whether a moment is near enough to the server's.
    fn is_timely(&self, now: u64, moment: u64) -> bool
        ensures { result ≡ is_timely self.now.limit now moment }
    {
        let limit = u64::from(self.limit_ms);
        now.saturating_sub(moment) <= limit && moment.saturating_sub(now) <= limit
    }

    // Returns the message with a moment, or `Untimely` if the moment is too far from the server's.
    fn check_moment(
        &self,
        now: u64,
        moment: u64,
        message: ProcessMessage,
    ) -> Result<TimedMessage, DisconnectReason>
        ensures { result ≡ judge_moment self.now.limit now moment message }
    {
        if self.is_timely(now, moment) {
            Ok(TimedMessage { moment, message })
        } else {
            Err(DisconnectReason::Untimely)
        }
    }

    // Returns the message of the first line, or `Foreign` or `Untimely`.
    fn introduction(
        &self,
        device: &Device,
        now: u64,
        line: &[u8],
    ) -> Result<TimedMessage, DisconnectReason>
        ensures { result ≡ judge_introduction self.now now
            (introduction_moment self.now.key device.now.domain device.now.revision line.now) }
    {
        match read_introduction(
            self.key.as_slice(),
            device.domain(),
            device.revision(),
            line,
        ) {
            Some(moment) => self.check_moment(now, moment, ProcessMessage::Introduces),
            None => Err(DisconnectReason::Foreign),
        }
    }
}

/// The message that a line of a process spells.
#[derive(Clone, Copy)]
pub enum ProcessMessage {
    /// The line is empty.
    Blank,
    /// The process reports this event.
    Reports(ProcessEvent),
    /// The process names its bay and its key.
    Introduces,
    /// The process is alive.
    Lives,
}

impl ProcessMessage {
    // Returns the message of a line of a supervised process with this event, or with none.
    fn of(event: Option<ProcessEvent>) -> Self
        ensures { result ≡ event_message event }
    {
        match event {
            Some(event) => ProcessMessage::Reports(event),
            None => ProcessMessage::Lives,
        }
    }

    /// Returns the event that the message reports; `None` for another message.
    pub(crate) fn event(self) -> Option<ProcessEvent>
        ensures { result ≡ spec.event_in self }
    {
        match self {
            ProcessMessage::Reports(event) => Some(event),
            ProcessMessage::Blank | ProcessMessage::Introduces | ProcessMessage::Lives => None,
        }
    }
}

/// How a line of a process is read, and the moment that the line names, in milliseconds since 1970,
/// or the moment of its turn if the process is not supervised.
#[derive(Clone, Copy)]
pub struct TimedMessage {
    pub moment: u64,
    pub message: ProcessMessage,
}

/// A supervised process.
#[derive(Drop)]
pub struct SupervisedProcess {
    settings: SupervisionSettings,
    introduced: bool,
    heard: u64,
    last: u64,
    lives: bool,
}

impl Model for SupervisedProcess {
    ghost use Rattle.bay_process_port.specs.Supervised as spec;

    ghost Value = { spec.WatchData };

    ghost view = { λ w. record {
      settings = w.settings;
      introduced = w.introduced;
      heard = w.heard;
      last = w.last;
      lives = w.lives;
    } };
}

impl SupervisedProcess {
    /// Creates the state of a supervised process that has not sent anything.
    pub(crate) fn new(settings: SupervisionSettings) -> Self
        ensures { result ≡ initial_watch settings }
    {
        SupervisedProcess {
            settings,
            introduced: false,
            heard: 0,
            last: 0,
            lives: false,
        }
    }

    /// Forgets what is known of the process.
    pub(crate) fn forget(&mut self)
        ensures { self.new ≡ initial_watch self.old.settings }
    {
        self.introduced = false;
        self.heard = 0;
        self.last = 0;
        self.lives = false;
    }

    /// Records that its connection was accepted at a moment.
    pub(crate) fn mark_active(&mut self, moment: u64)
        ensures { self.new ≡ record self.old { heard = moment } }
    {
        self.heard = moment;
    }

    /// Records that a turn at a moment took a line. The line counts from the moment that it names,
    /// but from no later one than that of the turn.
    pub(crate) fn accept_message(&mut self, now: u64, received: TimedMessage)
        ensures { self.new ≡ spec.after_timed_message now received self.old }
    {
        self.heard = now.min(received.moment);
        self.last = received.moment;
        match received.message {
            ProcessMessage::Introduces => self.introduced = true,
            ProcessMessage::Lives => self.lives = true,
            ProcessMessage::Blank | ProcessMessage::Reports(_) => {}
        }
    }

    /// Returns whether the last turn took a line by which the process is alive, and forgets that.
    pub(crate) fn answer(&mut self) -> bool
        ensures lives { result ≡ self.old.lives }
        ensures after { self.new ≡ record self.old { lives = false } }
    {
        let lives = self.lives;
        self.lives = false;
        lives
    }

    /// Returns for how many milliseconds it may be silent.
    pub(crate) fn limit_ms(&self) -> u32
        ensures { result ≡ self.now.settings.limit }
    {
        self.settings.limit_ms
    }

    // Returns how a later line is read.
    fn report(
        &self,
        device: &Device,
        now: u64,
        line: &[u8],
    ) -> Result<TimedMessage, DisconnectReason>
        ensures { result ≡ judge_later_line line.now self.now now
            (timed_line_of device.now line.now) }
    {
        match read_timed_line(device, line) {
            Some(timed) if timed.moment < self.last => Err(DisconnectReason::OutOfOrder),
            Some(timed) => {
                let message = ProcessMessage::of(timed.event);
                self.settings.check_moment(now, timed.moment, message)
            }
            None => Err(DisconnectReason::BadLine(EscapedText::new(line))),
        }
    }

    // Returns the message of a line, or why the connection must be closed.
    fn check_line(
        &self,
        device: &Device,
        now: u64,
        line: &[u8],
    ) -> Result<TimedMessage, DisconnectReason>
        ensures { result ≡ judge_line (Some self.now) device.now now line.now }
    {
        if self.introduced {
            self.report(device, now, line)
        } else {
            self.settings.introduction(device, now, line)
        }
    }
}

// Returns the message of a line of a process that is not supervised, or `BadLine`.
fn check_plain_line(
    device: &Device,
    now: u64,
    line: &[u8],
) -> Result<TimedMessage, DisconnectReason>
    ensures { result ≡ judge_plain_line now line.now (event_in_line device.now line.now) }
{
    let message = match read_process_event(device, line) {
        _ if line.is_empty() => ProcessMessage::Blank,
        Some(event) => ProcessMessage::Reports(event),
        None => return Err(DisconnectReason::BadLine(EscapedText::new(line))),
    };
    Ok(TimedMessage {
        moment: now,
        message,
    })
}

/// Returns the message of a line at a moment, with the moment from which it counts, or why the
/// connection must be closed.
pub(crate) fn check_line(
    watch: &Option<SupervisedProcess>,
    device: &Device,
    now: u64,
    line: &[u8],
) -> Result<TimedMessage, DisconnectReason>
    ensures { result ≡ judge_line watch.now device.now now line.now }
{
    match watch {
        Some(watch) => watch.check_line(device, now, line),
        None => check_plain_line(device, now, line),
    }
}

/// Returns why the connection must be closed if there are too many octets without an end of line.
pub(crate) fn overlong_reason(watch: &Option<SupervisedProcess>, buffer: &[u8]) -> DisconnectReason
    ensures { result ≡ spec.overlong_reason watch.now buffer.now }
{
    match watch {
        Some(watch) if !watch.introduced => DisconnectReason::Foreign,
        _ => DisconnectReason::BadLine(EscapedText::new(buffer)),
    }
}

/// Returns whether the system's clock has gone on further beyond the steady one than a supervised
/// process may be silent.
pub(crate) fn has_jumped(watch: &Option<SupervisedProcess>, jump: u64) -> bool
    ensures { result ≡ spec_ports.has_jumped jump watch.now }
{
    match watch {
        Some(watch) => u64::from(watch.settings.limit_ms) < jump,
        None => false,
    }
}

/// Returns that no line came; or, if a supervised process has been silent for too long, why its
/// connection ends.
pub(crate) fn check_silence(
    watch: &Option<SupervisedProcess>,
    now: u64,
) -> Result<Option<TimedMessage>, DisconnectReason>
    ensures { result ≡ judge_silence now watch.now }
{
    match watch {
        Some(watch) if now.saturating_sub(watch.heard) > u64::from(watch.settings.limit_ms) => {
            Err(DisconnectReason::Silent(watch.settings.limit_ms))
        }
        _ => Ok(None),
    }
}
