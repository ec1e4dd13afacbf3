// One client of a server of MMS over TCP: the octets of its connection become PDUs of MMS, and PDUs
// octets, through transport (RFC 1006, X.224 class 0) and association (X.225, ISO 8823-1, ISO
// 8650-1).
//
// `connection`: the connection of a client, for its user. `indication`: the result of feeding a
// piece. `fault`: the words of a fault, by its number. `laws`: laws about the definitions that the
// contracts cite. Within the crate, `stack` has the two layers.
#![tactic(auto)]

pub mod connection;
pub mod fault;
pub mod indication;
pub mod laws;
mod stack;
