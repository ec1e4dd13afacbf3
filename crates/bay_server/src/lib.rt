// Serves a device to clients, turn by turn, and prints what each turn reports.
//
// `host` has ports and two clocks, `clock` a clock that does not jump, `busy` a link that records
// whether its calls left something to do at once, `turns` the lines for a turn, `trace_lines` those
// of a trace, and `process` the process; `log_lines` logs the server, `control_lines` controls,
// `change_lines` switches, and `record_line` a record; `connection_lines` counts what is
// logged of connections; `serving` serves turn by turn.
#![tactic(auto)]

mod busy;
mod change_lines;
pub mod clock;
mod connection_lines;
mod control_lines;
pub mod host;
pub mod log_lines;
pub mod process;
pub mod record_line;
pub mod serving;
mod trace_lines;
mod turns;
