// Small runs that show that the relations of the headline are not trivial: for each relation there
// is a run that it accepts, and the same run with one thing changed, which it does not accept.
//
// - `laws`: for `IsBacked`, `CommandedAt`, `AreOperates`, `AllOperate`, `HasScan`, `HaltsAt` and
// `MeansAt`; and that the clauses of a run speak of one chain of devices.
#![tactic(auto)]

pub mod laws;
