// Laws on the text of a report that a replay prints, as it is read back.
//
// - `laws`: the steps of scans, the scan before each command, and the request and the response of
//   each command.
#![tactic(auto)]

pub mod laws;
