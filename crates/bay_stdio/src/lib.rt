// Standard output and standard error, for a program that must not wait for whoever reads them.
//
// `output` is the sink of the program: its octets, and the log beside them. A server puts its
// octets into a `queue`, and lines of the log wait in a `log`; both are written as fast as they are
// read. `descriptor` is a sink over a file descriptor, reached through its writer, which can be set
// to accept only what the descriptor accepts at once; `offer` offers octets to a sink until it
// accepts no more. No clause can state what the system does with the octets of a writer: tests
// cover that.
#![tactic(auto)]

pub mod descriptor;
pub mod log;
pub mod offer;
pub mod output;
pub mod queue;
