// The commands of the bay controller's program: it checks a bay file with a program, compiles the
// program, replays a scenario, audits a program, or serves clients.
//
// `commands` executes the command that the arguments spell (bay_cli parses arguments, bay_files
// reads files, cmd_replay replays a scenario, cmd_audit audits, and bay_server serves clients),
// `check` is a load alone, `ending` the result of a command, and `program` connects it to the
// system.
#![tactic(auto)]

mod check;
pub mod commands;
pub mod ending;
pub mod program;

// What a command line requests, and what a command works on.
pub use bay_cli::parse;
pub use bay_files::files;
pub use bay_server::{clock, host};
pub use cmd_replay::replay;
// The server of a device over any link.
pub use bay_server_turn::fault::ServeFault;
pub use bay_server_turn::link::{Link, LinkFault, ReadResult};
pub use bay_server_turn::server::Server;
pub use bay_server_turn::turn::serve_turn;
pub use bay_server_turn::turn_report::{CloseReason, Turn};
