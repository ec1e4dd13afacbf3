// The device of one bay: the tree of its values and the program that interlocks it, stepped by
// events.
//
// It exports `device` (`new` of what was loaded, `step`, `run`, the report, the image and the
// look-ups), `load` (a device from a bay file and a program or an image), `event` (the events of a
// device, and their answers), `fault` (the numbers of a refused load, and why an event is refused),
// `laws` (a program reads nothing that the comparison of two processes leaves out).
//
// Internal: `initial` makes the state of a device of a bay and its program. `state` is the state
// that a step changes, apart from the clients; its methods cannot allocate; bay_process and
// bay_mms_services make its parts from a bay and a verified image. `step` applies positions,
// inputs, measured values, scans and time to it, using `process`, and `lost` applies the loss of
// the process. `connections` has the clients' connections, `octets` and `message` handle their
// octets, and `termination` has the reports to a client that its operate ended. `look_ups` has the
// queries, and `table` finds names.
#![tactic(auto)]

mod connections;
pub mod device;
pub mod event;
pub mod fault;
mod initial;
pub mod laws;
pub mod load;
mod look_ups;
mod lost;
mod message;
mod octets;
mod process;
mod state;
mod step;
mod table;
mod termination;

// The parts of a step's answer.
pub use bay_mms_services::answer::{Command, ControlDecision, ControlRequest};
pub use bay_mms_services::target::ControlPart;
