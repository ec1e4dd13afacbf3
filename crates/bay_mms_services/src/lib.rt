// Answers a PDU of MMS from a client, and determines the state of the controls after it (ISO
// 9506-2; IEC 61850-8-1). This crate does not know connections.
//
// `bay` (the bay that clients read and control), `client` (the client and the time of a request),
// `answer` (the answer to a PDU), `target` (which control a row belongs to), `services` (answers a
// PDU, and returns the controls after it), `decisions` (the selection as clients see it, and the
// view of a switch), `laws` (laws of answers). Internal: `invocation` (a confirmed request, until
// it is answered); `reading` and `writing` handle the variables of a read and of a write on a copy
// of the controls, `listing` answers with names, and `reply` limits answers to the agreed size of a
// PDU.
#![tactic(auto)]

pub mod answer;
pub mod bay;
pub mod client;
pub mod decisions;
mod invocation;
pub mod laws;
mod listing;
mod reading;
mod reply;
pub mod services;
pub mod target;
mod writing;
