// The sockets of the system, on 127.0.0.1.
//
// `tcp` is a link over them, of which no call blocks, and `readiness` waits until one of them is
// ready. No clause can state what a socket holds: tests cover what a contract can't.
#![tactic(auto)]

pub mod readiness;
pub mod tcp;
