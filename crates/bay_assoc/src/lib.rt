// An association of MMS over OSI: session (X.225), presentation (ISO 8823-1) and association
// control (ISO 8650-1), between the TSDUs of the transport and the PDUs of MMS.
//
// `assoc`: an association, for its user. `receive`: the phases of an association, and the meaning
// of a TSDU in each. `fault`: why a TSDU is refused. `laws`: laws about the definitions that the
// contracts cite. Within the crate, `session`, `presentation` (with the `request` that it reads)
// and `acse` read each layer, `text` writes the result, and `data_prefix` the octets before a PDU
// to send.
#![tactic(auto)]

mod acse;
pub mod assoc;
mod data_prefix;
pub mod fault;
pub mod laws;
mod presentation;
pub mod receive;
mod request;
mod session;
mod text;
