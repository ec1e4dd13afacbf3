// A device served to clients over a link that may fail.
//
// Public: `link` (the clients' connections, a trait whose meaning is the calls that were made, with
// their results), `server` (a device with a queue of octets for each client), `process_input`
// (events of the process, and the lines that spell them), `supervised` (the lines of a process that
// is supervised), `turn` (one turn of the server), `turn_report` (what a turn reports),
// `bounded_list` (its lists), `fault` (why a turn is refused), `record` (a file with the device's
// events, as a trace).
//
// Private: `association_state` is the state of an association within a turn, `turn_builder`
// collects what a turn reports, `sending` queues what a step of the device sends, `closing` closes
// associations, `reading` and `offering` handle one association each.
#![tactic(auto)]

mod association_state;
pub mod bounded_list;
mod closing;
pub mod fault;
pub mod link;
mod offering;
pub mod process_input;
mod reading;
pub mod record;
mod sending;
pub mod server;
pub mod supervised;
pub mod turn;
mod turn_builder;
pub mod turn_report;
