// The command `serve`: reads and loads files, opens ports, and serves turns, which are one run of
// the device.
//
// - `serve`: the whole command. `permit`: the verdicts on rules and a diagram, before a port is
//   opened. `sums`: the log lines of the files that are served.
// - `laws`: all turns are one run of the device, each command that is reported was requested by a
//   client and released by the interlocking, and the record of a session is what happened in it.
#![tactic(auto)]

pub mod laws;
pub mod permit;
pub mod serve;
pub mod sums;
