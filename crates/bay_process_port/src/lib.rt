// The port of a process: the lines that it sends, and those that it receives.
//
// Public: `port` (whether a process is connected, what it has sent and what is queued for it),
// `poll` (serves its connection after a turn), `connection_event` (the events of the connection).
// `supervision` has the supervision settings, and how the lines of a process are classified.
// Private: `introduction` reads its first line, `process_output` queues the lines of a turn, and
// `releases` those of the releases that have changed.
#![tactic(auto)]

pub mod connection_event;
mod introduction;
pub mod laws;
pub mod poll;
pub mod port;
mod process_output;
mod releases;
pub mod supervision;
