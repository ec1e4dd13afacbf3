// Reading and writing octets, if any call may fail.
//
// `calls`: a source and a sink of octets, as traits that std's readers and writers implement.
// `reader` and `watched`: a reader and a sink that record whether a call has failed, in fields that
// no other module can write. `input`: all octets of a reader, up to a limit. `writer`: a watched
// sink with a buffer, the `outbox`. `moments`: moments as texts.
#![tactic(auto)]

pub mod calls;
pub mod input;
pub mod moments;
pub mod outbox;
pub mod reader;
mod watched;
pub mod writer;
