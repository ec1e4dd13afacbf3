// Logs the process and its switches in a turn.
ghost use Rattle.std.specs.Prelude.{◌≡◌, ◌++◌, false, true, MatchBool};
ghost use Rattle.bay_server_turn.specs.Served.{report_in};
ghost use Rattle.bay_server.specs.Logging.{LogsAll};
ghost use Rattle.bay_server.specs.ChangeLines.{AreSeen, bay_view, commanded_switch, end_log, ends_log, lost_log, operates_in, own_switches, reached_in, switch_view_at, view_log, switch_log, switches_log, word_log};
ghost use Rattle.bay_server.specs.declared.change_lines.Column.TheVariants as column;
ghost use Rattle.bay_server.specs.ChangeLines as spec;

use crate::connection_lines::take_first;
use crate::control_lines::switch_id;
use bay_base::position::Dbpos;
use bay_device::device::Device;
use bay_io::calls::{LinePart, Sink};
use bay_io::writer::WatchedWriter;
use bay_mms_services::answer::Command;
use bay_server_turn::process_input::TurnInput;
use bay_server_turn::turn_report::Turn;

// The maximum number of switches in a bay.
const SWITCHES: usize = 32;

/// The view of a switch: its position, and whether it may be opened and closed.
#[derive(Clone, Copy)]
pub struct SwitchView {
    pub position: Option<Dbpos>,
    pub release: Option<(bool, bool)>,
}

/// What is logged of a switch: its position, or whether it may be opened and closed.
#[derive(Clone, Copy)]
pub enum Column {
    Position,
    Release,
}

/// The view of each switch, how many of them the bay has, and the switch that is operating.
#[derive(Drop)]
pub struct BayView {
    pub switches: [SwitchView; SWITCHES],
    pub count: usize,
    pub operating: Option<usize>,
}

impl BayView {
    // Returns the views of the bay's own switches.
    fn own_switches(&self) -> &[SwitchView]
        ensures { result.now ≡ own_switches self.now }
    {
        take_first(&self.switches, self.count)
    }
}

// The view of a switch that the bay does not have.
const NO_SWITCH: SwitchView = SwitchView {
    position: None,
    release: None,
};

// Returns the view of the switch at an index.
fn view_switch(device: &Device, index: usize) -> SwitchView
    ensures { result ≡ switch_view_at device.now index }
{
    SwitchView {
        position: device.position(index),
        release: device.ena(index),
    }
}

// Returns the view of each switch, and the switch that is operating.
fn view_bay(device: &Device) -> BayView
    ensures { result ≡ bay_view device.now }
{
    let count = device.switch_count();
    let mut switches = [NO_SWITCH; SWITCHES];
    for switch in 0..count.min(SWITCHES) {
        switches[switch] = view_switch(device, switch);
    }
    BayView {
        switches,
        count,
        operating: device.operating(),
    }
}

/// Returns the view of each switch, and the switch that is operating, if lines are logged. If not,
/// nobody compares it with a later one, and it has no switches.
pub fn view_for_log<W>(device: &Device, writer: &WatchedWriter<W>) -> BayView
    ensures { MatchBool writer.now.logs (result ≡ bay_view device.now) (Unit {0}) }
{
    if writer.is_logging() {
        view_bay(device)
    } else {
        BayView {
            switches: [NO_SWITCH; SWITCHES],
            count: 0,
            operating: None,
        }
    }
}

// Returns a position in a word.
fn position_word(position: Option<Dbpos>) -> &'static [u8]
    ensures { result.now ≡ spec.position_word position }
{
    match position {
        None => b"",
        Some(Dbpos::Intermediate) => b" intermediate\n",
        Some(Dbpos::Off) => b" open\n",
        Some(Dbpos::On) => b" closed\n",
        Some(Dbpos::Bad) => b" bad\n",
    }
}

// Returns whether a switch may be opened and closed, in words.
fn release_word(release: Option<(bool, bool)>) -> &'static [u8]
    ensures { result.now ≡ spec.release_word release }
{
    match release {
        None => b"",
        Some((true, true)) => b" open=1 close=1\n",
        Some((true, false)) => b" open=1 close=0\n",
        Some((false, true)) => b" open=0 close=1\n",
        Some((false, false)) => b" open=0 close=0\n",
    }
}

// Logs a word on a switch, if it is another than before.
fn log_word<'a, W: Sink>(
    writer: &mut WatchedWriter<W>,
    moment: u64,
    what: &'a [u8],
    id: &'a [u8],
    before: &[u8],
    after: &'a [u8],
)
    ensures { LogsAll W.contents W.does writer.old
        (word_log moment what.now id.now before.now after.now) writer.new }
{
    if before == after {
        return;
    }
    writer.log(&[
        LinePart::Moment(moment),
        LinePart::Text(what),
        LinePart::Text(id),
        LinePart::Text(after),
    ]);
}

// Logs the position or the release of a switch, if it has changed.
fn log_change<W: Sink>(
    writer: &mut WatchedWriter<W>,
    column: Column,
    moment: u64,
    id: &[u8],
    before: SwitchView,
    after: SwitchView,
)
    ensures { LogsAll W.contents W.does writer.old (view_log column moment id.now before after)
        writer.new }
{
    match column {
        Column::Position => {
            let was = position_word(before.position);
            let is = position_word(after.position);
            log_word(writer, moment, b" position ", id, was, is);
        }
        Column::Release => {
            let was = release_word(before.release);
            let is = release_word(after.release);
            log_word(writer, moment, b" release ", id, was, is);
        }
    }
}

// Logs the position or the release of the switch at an index, if it has changed.
fn log_switch<W: Sink>(
    writer: &mut WatchedWriter<W>,
    column: Column,
    device: &Device,
    moment: u64,
    index: usize,
    before: SwitchView,
)
    ensures { LogsAll W.contents W.does writer.old
        (switch_log column moment device.now index before) writer.new }
{
    log_change(
        writer,
        column,
        moment,
        switch_id(device, index),
        before,
        view_switch(device, index),
    );
}

// Returns whether two positions are the same.
fn is_same_position(one: Option<Dbpos>, other: Option<Dbpos>) -> bool
    ensures { result ≡ true → one ≡ other }
{
    match (one, other) {
        (None, None) => true,
        (Some(Dbpos::Intermediate), Some(Dbpos::Intermediate)) => true,
        (Some(Dbpos::Off), Some(Dbpos::Off)) => true,
        (Some(Dbpos::On), Some(Dbpos::On)) => true,
        (Some(Dbpos::Bad), Some(Dbpos::Bad)) => true,
        _ => false,
    }
}

// Returns whether two releases are the same.
fn is_same_release(one: Option<(bool, bool)>, other: Option<(bool, bool)>) -> bool
    ensures { result ≡ true → one ≡ other }
{
    match (one, other) {
        (None, None) => true,
        (Some((true, true)), Some((true, true))) => true,
        (Some((true, false)), Some((true, false))) => true,
        (Some((false, true)), Some((false, true))) => true,
        (Some((false, false)), Some((false, false))) => true,
        _ => false,
    }
}

// Returns whether two views are the same.
fn is_same(one: SwitchView, other: SwitchView) -> bool
    ensures { result ≡ true → one ≡ other }
{
    is_same_position(one.position, other.position) && is_same_release(one.release, other.release)
}

// Returns whether a switch has another view than before.
fn has_changed(device: &Device, before: &[SwitchView]) -> bool
    ensures { result ≡ false → AreSeen device.now 0 before.now }
{
    for switch in 0..before.len() {
        if !is_same(before[switch], view_switch(device, switch)) {
            return true;
        }
    }
    false
}

// Logs the positions or the releases of the switches that have changed.
fn log_switches<W: Sink>(
    writer: &mut WatchedWriter<W>,
    column: Column,
    device: &Device,
    moment: u64,
    before: &[SwitchView],
)
    ensures { LogsAll W.contents W.does writer.old
        (switches_log column moment device.now 0 before.now) writer.new }
{
    for index in 0..before.len() {
        log_switch(writer, column, device, moment, index, before[index]);
    }
}

/// Logs the positions of the switches that have changed, and then the releases.
pub fn log_changes<W: Sink>(
    writer: &mut WatchedWriter<W>,
    device: &Device,
    moment: u64,
    before: &BayView,
)
    ensures { LogsAll W.contents W.does writer.old
        (switches_log column.Position moment device.now 0 (own_switches before.now)
        ++ switches_log column.Release moment device.now 0 (own_switches before.now)) writer.new }
{
    let before = before.own_switches();
    if has_changed(device, before) {
        log_switches(writer, Column::Position, device, moment, before);
        log_switches(writer, Column::Release, device, moment, before);
    }
}

// Logs why the operate of a switch has ended, if one has.
fn log_end<'a, W: Sink>(
    writer: &mut WatchedWriter<W>,
    device: &'a Device,
    moment: u64,
    why: &'a [u8],
    switch: Option<usize>,
)
    ensures { LogsAll W.contents W.does writer.old (end_log moment device.now why.now switch)
        writer.new }
{
    match switch {
        Some(switch) => writer.log(&[
            LinePart::Moment(moment),
            LinePart::Text(b" operate of "),
            LinePart::Text(switch_id(device, switch)),
            LinePart::Text(why),
        ]),
        None => {}
    }
}

// Returns the switch of the first command.
fn first_commanded(commands: &[Command]) -> Option<usize>
    ensures { result ≡ commanded_switch commands.now }
{
    match commands {
        [] => None,
        [command, ..] => Some(command.switch),
    }
}

// Returns the switch that has reached its position in a turn, if one has: the one that operated, if
// none operates after the turn.
fn reached_switch(before: Option<usize>, after: Option<usize>, turn: &Turn) -> Option<usize>
    ensures { result ≡ reached_in after
        (operates_in turn.now.over before (commanded_switch turn.now.commands)) }
{
    if after.is_some() {
        return None;
    }
    match (turn.over, before) {
        (None, Some(switch)) => Some(switch),
        _ => first_commanded(turn.commands.as_slice()),
    }
}

/// Logs the operates that have ended in a turn, and why.
pub fn log_ends<W: Sink>(
    writer: &mut WatchedWriter<W>,
    device: &Device,
    moment: u64,
    before: &BayView,
    turn: &Turn,
)
    ensures { LogsAll W.contents W.does writer.old
        (ends_log moment before.now device.now turn.now) writer.new }
{
    log_end(writer, device, moment, b" ended: time over\n", turn.over);
    let reached_switch = reached_switch(before.operating, device.operating(), turn);
    log_end(
        writer,
        device,
        moment,
        b" ended: position reached\n",
        reached_switch,
    );
}

/// Logs that the process is lost, if the input of a turn has this.
pub fn log_lost<W: Sink>(writer: &mut WatchedWriter<W>, moment: u64, given: TurnInput)
    ensures { LogsAll W.contents W.does writer.old (lost_log moment (report_in given).is_lost)
        writer.new }
{
    let Ok(reported) = given else {
        return;
    };
    if reported.is_lost {
        writer.log(&[LinePart::Moment(moment), LinePart::Text(b" process lost\n")]);
    }
}
