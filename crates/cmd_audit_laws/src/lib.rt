// Laws of audited rules: the commands and scans of a service and of a replay obey them. And the law
// that a supervised process of a service is that of its bay.
//
// - `laws`: the laws.
#![tactic(auto)]

pub mod laws;
