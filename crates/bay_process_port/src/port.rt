// The state of the port of a process.
ghost use Rattle.std.specs.Prelude.{◌≡◌, false, None, IfOk, option_map};
ghost use Rattle.bay_server_turn.specs.Calls.{CountedCall};
ghost use Rattle.bay_process_port.specs.Polling.{PerformsPart, IsPartResult, first_part, greet_part, offer_part, read_part, with_report_queued};
ghost use Rattle.bay_process_port.specs.Ports.{StaysBound, initial_port, with_no_data, judge_port, line_reading, reason_in, after_dismissal, shown_line, connected_reading, port_reading, loss_reading};
ghost use Rattle.bay_process_port.specs.Ports as spec;
ghost use Rattle.bay_lines.specs.FirstLines.{first_line_of};
ghost use Rattle.bay_process_port.specs.ProcessOutput.{lives_in, reported_turn};
ghost use Rattle.bay_process_port.specs.Supervised.{after_alive_answer, event_in, active_at, line_in, initial_watch};

use crate::connection_event::DisconnectReason;
use crate::process_output::{ProcessQueue, put_alive, put_expiry, put_greeting, put_turn_report};
use crate::releases::{ReportedReleases, nothing_reported, put_releases};
use crate::supervision::{
    ProcessMessage, SupervisedProcess, SupervisionSettings, TimedMessage, check_line,
    check_silence, has_jumped, overlong_reason,
};
use bay_device::device::Device;
use bay_lines::bounded_buffer::BoundedBuffer;
use bay_lines::escaped::EscapedText;
use bay_lines::first_line::{LineSearch, first_line};
use bay_server_turn::link::{Link, ReadResult};
use bay_server_turn::process_input::ProcessEvent;
use bay_server_turn::turn_report::Turn;
use std::alloc::{AllocError, Global};
use std::marker::Model;
use std::mem;

// The maximum number of octets read at once.
const PIECE: usize = 4096;

// The maximum number of octets that are buffered: a line that is not whole yet, and one read.
const ROOM: usize = 4352;

/// The number of the process in its link.
pub const PROCESS: u16 = 1;

/// The state of the process.
#[derive(Drop)]
pub enum Presence {
    /// It is not connected, and may connect.
    Absent,
    /// It has disconnected, or is supervised and has not connected yet, and no turn has handled its
    /// loss.
    LossPending,
    /// A turn has handled its loss, since it is no longer believed for this reason. Its connection
    /// must still be closed.
    Dismissed(DisconnectReason),
    /// It is connected.
    Present,
}

/// The input of a turn from the port: whether the process is lost, an event, if there is one, and
/// the line that it was read from, escaped.
#[derive(Drop)]
pub struct PortInput {
    pub is_lost: bool,
    pub event: Option<ProcessEvent>,
    pub shown: EscapedText,
}

impl PortInput {
    // Creates an input with no event, or with the loss of the process.
    fn none(is_lost: bool) -> PortInput
        ensures lost { result.is_lost ≡ is_lost }
        ensures event { result.event ≡ None }
        ensures shown { result.shown ≡ shown_line None }
    {
        PortInput {
            is_lost,
            event: None,
            shown: EscapedText::new(b""),
        }
    }

    // Creates an input with the event of a line, if it has one.
    fn of(message: ProcessMessage, line: &[u8]) -> PortInput
        ensures lost { result.is_lost ≡ false }
        ensures event { result.event ≡ event_in message }
        ensures shown { result.shown ≡ shown_line (line_in message line.now) }
    {
        let event = message.event();
        let shown = if event.is_some() {
            EscapedText::new(line)
        } else {
            EscapedText::new(b"")
        };
        PortInput {
            is_lost: false,
            event,
            shown,
        }
    }
}

/// The port of a process: its state, the octets that it has sent and no turn has taken, its queue,
/// the releases that it was sent last, and its supervision, if it is supervised. The end of a line
/// is searched once.
#[derive(Drop)]
pub struct Port {
    presence: Presence,
    buffer: BoundedBuffer<ROOM>,
    found: LineSearch,
    queue: ProcessQueue,
    sent: Option<ReportedReleases>,
    watch: Option<SupervisedProcess>,
}

impl Model for Port {
    ghost use Rattle.bay_process_port.specs.Ports.{PortData};

    ghost Value = { PortData };

    ghost view = { λ p. record {
      presence = p.presence;
      buffer = p.buffer;
      queue = p.queue;
      sent = p.sent;
      watch = p.watch;
    } };

    ghost use Rattle.bay_process_port.specs.Fit.{IsFirstLine};

    ghost invariant = { λ p. IsFirstLine p.buffer p.found };
}

// Returns the initial state of a process: a supervised one counts as lost.
fn initial_presence(settings: &Option<SupervisionSettings>) -> Presence
    ensures { result ≡ spec.initial_presence settings.now }
{
    match settings {
        Some(_) => Presence::LossPending,
        None => Presence::Absent,
    }
}

// Returns the supervision of a process that has not connected yet, if it is supervised.
fn supervision_for(settings: Option<SupervisionSettings>) -> Option<SupervisedProcess>
    ensures { result ≡ option_map initial_watch settings }
{
    match settings {
        Some(settings) => Some(SupervisedProcess::new(settings)),
        None => None,
    }
}

impl Port {
    /// Creates a port to which a process may connect, which receives releases if `sends_releases`
    /// is true, and is supervised if there are settings for it. Allocates its buffer and its queue;
    /// fails only if that fails.
    pub fn new(
        alloc: Global,
        sends_releases: bool,
        settings: Option<SupervisionSettings>,
    ) -> Result<Self, AllocError>
        ensures { IfOk result (λ port. port ≡ initial_port sends_releases settings) }
    {
        let buffer = BoundedBuffer::new(alloc)?;
        let queue = BoundedBuffer::new(alloc)?;
        let presence = initial_presence(&settings);
        Ok(Port {
            presence,
            buffer,
            found: LineSearch::Waiting,
            queue,
            sent: nothing_reported(sends_releases),
            watch: supervision_for(settings),
        })
    }

    /// Returns the state of the process.
    pub fn presence(&self) -> &Presence
        ensures { result.now ≡ self.now.presence }
    {
        &self.presence
    }

    /// Returns how many octets are buffered, and how many are queued.
    pub fn sizes(&self) -> (usize, usize) {
        (self.buffer.as_slice().len(), self.queue.as_slice().len())
    }

    /// Returns whether the process has sent a whole line that no turn has taken.
    pub fn has_line(&self) -> bool
        ensures { result ≡ spec.has_line self.now }
    {
        matches!(self.found, LineSearch::Whole { .. })
    }

    /// Sets the state of the process. Drops all octets that are buffered or queued, and forgets
    /// which releases were sent and what is known of the process.
    pub(crate) fn set_presence(&mut self, presence: Presence)
        ensures { self.new ≡ with_no_data presence self.old }
    {
        self.presence = presence;
        self.buffer.clear();
        self.found = LineSearch::Waiting;
        self.queue.clear();
        self.sent = nothing_reported(self.sent.is_some());
        if let Some(watch) = &mut self.watch {
            watch.forget();
        }
    }

    // Returns what the process reports at a moment, if anything, or why it is believed no more.
    fn check(
        &self,
        device: &Device,
        now: u64,
        jump: u64,
    ) -> Result<Option<TimedMessage>, DisconnectReason>
        ensures { result ≡ judge_port device.now now jump self.now }
    {
        if has_jumped(&self.watch, jump) {
            return Err(DisconnectReason::Jumped);
        }
        match self.found {
            LineSearch::Waiting => check_silence(&self.watch, now),
            LineSearch::Overlong => Err(overlong_reason(&self.watch, self.buffer.as_slice())),
            LineSearch::Whole { line, .. } => {
                match check_line(&self.watch, device, now, &self.buffer.as_slice()[..line]) {
                    Ok(received) => Ok(Some(received)),
                    Err(why) => Err(why),
                }
            }
        }
    }

    // Takes the first line, which was judged to be this message, if there is a whole one.
    fn accept_line(&mut self, now: u64, received: TimedMessage) -> PortInput
        ensures lost { result.is_lost
            ≡ (line_reading now received (first_line_of self.old.buffer) self.old).is_lost }
        ensures event { result.event
            ≡ (line_reading now received (first_line_of self.old.buffer) self.old).event }
        ensures shown { result.shown
            ≡ shown_line (line_reading now received (first_line_of self.old.buffer) self.old).line }
        ensures port { self.new
            ≡ (line_reading now received (first_line_of self.old.buffer) self.old).port }
    {
        match self.found {
            LineSearch::Waiting => PortInput::none(false),
            LineSearch::Overlong => PortInput::none(false),
            LineSearch::Whole { line, end } => {
                let given = PortInput::of(received.message, &self.buffer.as_slice()[..line]);
                self.buffer.remove_first(end);
                self.found = first_line(self.buffer.as_slice());
                if let Some(watch) = &mut self.watch {
                    watch.accept_message(now, received);
                }
                given
            }
        }
    }

    // Takes the next line of a connected process, or that it is believed no more.
    fn take_connected_line(&mut self, device: &Device, now: u64, jump: u64) -> PortInput
        ensures lost { result.is_lost ≡ (connected_reading device.now now jump self.old).is_lost }
        ensures event { result.event ≡ (connected_reading device.now now jump self.old).event }
        ensures shown { result.shown
            ≡ shown_line (connected_reading device.now now jump self.old).line }
        ensures port { self.new ≡ (connected_reading device.now now jump self.old).port }
    {
        match self.check(device, now, jump) {
            Ok(None) => PortInput::none(false),
            Ok(Some(received)) => self.accept_line(now, received),
            Err(why) => {
                self.set_presence(Presence::Dismissed(why));
                PortInput::none(true)
            }
        }
    }

    /// Takes what the port has for a turn at a moment, in milliseconds since 1970: the next line of
    /// a connected process, or that the process is lost. `jump` is how far the system's clock has
    /// gone on beyond the steady one since the turn before, in milliseconds. The process is lost if
    /// it has gone, or if it is believed no more: its line ends the connection, or it is supervised
    /// and silent for longer than it may be, or the system's clock has jumped by more than that.
    pub fn take_line(&mut self, device: &Device, now: u64, jump: u64) -> PortInput
        ensures lost { result.is_lost ≡ (port_reading device.now now jump self.old).is_lost }
        ensures event { result.event ≡ (port_reading device.now now jump self.old).event }
        ensures shown { result.shown ≡ shown_line (port_reading device.now now jump self.old).line }
        ensures port { self.new ≡ (port_reading device.now now jump self.old).port }
    {
        match self.presence {
            Presence::Absent => PortInput::none(false),
            Presence::LossPending => {
                self.set_presence(Presence::Absent);
                PortInput::none(true)
            }
            Presence::Dismissed(_) => PortInput::none(false),
            Presence::Present => self.take_connected_line(device, now, jump),
        }
    }

    /// Takes only that the process is lost, for a turn that has a line of a trace, and leaves the
    /// lines of the process where they are. Returns whether the process is lost.
    pub fn take_loss(&mut self, device: &Device, now: u64, jump: u64) -> bool
        ensures lost { result ≡ (loss_reading device.now now jump self.old).is_lost }
        ensures port { self.new ≡ (loss_reading device.now now jump self.old).port }
    {
        match self.presence {
            Presence::Absent => false,
            Presence::LossPending => {
                self.set_presence(Presence::Absent);
                true
            }
            Presence::Dismissed(_) => false,
            Presence::Present => match self.check(device, now, jump) {
                Ok(_) => false,
                Err(why) => {
                    self.set_presence(Presence::Dismissed(why));
                    true
                }
            },
        }
    }

    /// If a turn has dismissed the process and its connection is still to be closed, returns why,
    /// and sets the presence to `Absent`.
    pub(crate) fn take_dismissal(&mut self) -> Option<DisconnectReason>
        ensures reason { result ≡ reason_in self.old.presence }
        ensures port { self.new ≡ after_dismissal self.old.presence self.old }
    {
        if !matches!(self.presence, Presence::Dismissed(_)) {
            return None;
        }
        let before = mem::replace(&mut self.presence, Presence::Absent);
        self.set_presence(Presence::Absent);
        match before {
            Presence::Dismissed(why) => Some(why),
            _ => None,
        }
    }

    // Returns whether the process must be answered that the server is alive, and forgets that.
    fn answer(&mut self) -> bool
        ensures lives { result ≡ lives_in self.old.watch }
        ensures after { self.new ≡ record self.old { watch = after_alive_answer self.old.watch } }
        ensures bound { StaysBound self.old self.new }
    {
        match &mut self.watch {
            Some(watch) => watch.answer(),
            None => false,
        }
    }

    /// Queues the report of a turn, all of it or none; fails with `QueueFull` if there is not room
    /// for all.
    pub(crate) fn queue_report(
        &mut self,
        device: &Device,
        moment: u64,
        turn: &Turn,
    ) -> Result<(), DisconnectReason>
        ensures leads { IsPartResult
            (with_report_queued (reported_turn moment turn.now device.now) device.now
            self.old).after
            self.new result }
        ensures bound { StaysBound self.old self.new }
    {
        let over = if self.watch.is_some() {
            turn.over
        } else {
            None
        };
        let lives = self.answer();
        if put_expiry(&mut self.queue, device, moment, over)
            && put_turn_report(&mut self.queue, device, moment, turn)
            && put_releases(&mut self.queue, device, &mut self.sent)
            && put_alive(&mut self.queue, moment, lives)
        {
            Ok(())
        } else {
            Err(DisconnectReason::QueueFull)
        }
    }

    /// Queues the greeting of a process that was accepted, if it is supervised; fails with
    /// `QueueFull` if there is not room for it.
    pub(crate) fn greet(&mut self, device: &Device, moment: u64) -> Result<(), DisconnectReason>
        ensures leads { IsPartResult (greet_part moment device.now self.old).after self.new result }
        ensures bound { StaysBound self.old self.new }
    {
        if put_greeting(&mut self.queue, device, moment, &self.watch) {
            self.mark_active(moment);
            Ok(())
        } else {
            Err(DisconnectReason::QueueFull)
        }
    }

    // Records that the process was active at a moment, if it was not active later.
    fn mark_active(&mut self, moment: u64)
        ensures after { self.new ≡ record self.old { watch = active_at moment self.old.watch } }
        ensures bound { StaysBound self.old self.new }
    {
        if let Some(watch) = &mut self.watch {
            watch.mark_active(moment);
        }
    }

    /// Writes the queue once, as much as the link takes, if there is anything in it. Fails with
    /// `LinkFailed`.
    pub(crate) fn offer<L: Link>(&mut self, link: &mut L) -> Result<(), DisconnectReason>
        ensures does { PerformsPart (CountedCall L.does L.failures) offer_part link.old link.new
            self.old
            self.new result }
        ensures bound { StaysBound self.old self.new }
    {
        if self.queue.as_slice().is_empty() {
            return Ok(());
        }
        match link.write(PROCESS, self.queue.as_slice()) {
            Ok(count) => {
                self.queue.remove_first(count);
                Ok(())
            }
            Err(_) => Err(DisconnectReason::LinkFailed),
        }
    }

    /// Reads once, if no whole line is buffered. Fails with `Ended` if the process sends no more,
    /// and with `LinkFailed`.
    pub(crate) fn read<L: Link>(&mut self, link: &mut L) -> Result<(), DisconnectReason>
        ensures does { PerformsPart (CountedCall L.does L.failures) read_part link.old link.new
            self.old self.new
            result }
        ensures bound { StaysBound self.old self.new }
    {
        if self.found != LineSearch::Waiting {
            return Ok(());
        }
        let mut room = [0; PIECE];
        match link.read(PROCESS, &mut room) {
            Ok(ReadResult::Bytes(count)) => {
                self.buffer.put(&room[..count]);
                self.found = first_line(self.buffer.as_slice());
                Ok(())
            }
            Ok(ReadResult::Nothing) => Ok(()),
            Ok(ReadResult::End) => Err(DisconnectReason::Ended),
            Err(_) => Err(DisconnectReason::LinkFailed),
        }
    }

    /// Greets a process that was just accepted, and reads twice: a process that closed while it
    /// waited to be accepted has left its last octets, then the end of the stream.
    pub(crate) fn begin<L: Link>(
        &mut self,
        link: &mut L,
        device: &Device,
        moment: u64,
    ) -> Result<(), DisconnectReason>
        ensures does { PerformsPart (CountedCall L.does L.failures) (first_part moment device.now)
            link.old
            link.new self.old self.new result }
        ensures bound { StaysBound self.old self.new }
    {
        self.greet(device, moment)?;
        self.read(link)?;
        self.read(link)
    }
}
