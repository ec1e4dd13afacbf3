// What the programs of cases share.
//
// - `sections`: the sections of a text.
// - `words`: the words of a line.
// - `octets`: octets in hexadecimal digits.
// - `case_report`: how many cases there were, and each one whose outcome differs from the expected
//   one.
#![tactic(auto)]

pub mod case_report;
pub mod octets;
pub mod sections;
pub mod words;
