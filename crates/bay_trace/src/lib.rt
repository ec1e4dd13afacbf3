// A line of a trace becomes an event of a device, and an event becomes its line.
//
// `octets` (hexadecimal digits, and a buffer for the octets that they encode), `trace` (reads a
// line), `resolve` (names become indices in a device), `record_lines` (writes the line of an
// event).
#![tactic(auto)]

pub mod octets;
pub mod record_lines;
pub mod resolve;
pub mod trace;
