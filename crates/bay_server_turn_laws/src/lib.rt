// Laws of each turn of a server that its definition does not state.
//
// - `laws`: the causes of closings, the events of a turn, and the octets of each association.
#![tactic(auto)]

pub mod laws;
