// Splitting octets that arrive in pieces into lines.
//
// `bounded_buffer`: a buffer of bounded size. `first_line`: finds the first line in octets. `laws`:
// a law about lines, for every way to cut the octets. `escaped`: a line escaped for a log.
#![tactic(auto)]

pub mod bounded_buffer;
pub mod escaped;
pub mod first_line;
pub mod laws;
