// The controller of one bay: checks, compiles and audits its program, replays scenarios, and serves
// clients.
#![tactic(auto)]

use bay_main::program;
use std::process::ExitCode;

fn main(rt: HostRuntime) -> ExitCode {
    program::run(&rt, rt.stdout(), rt.stderr())
}
