// The transport of MMS over TCP: the packets of RFC 1006 (TPKT) and the TPDUs of X.224 class 0, as
// far as a server needs them. A `Transport` is fed the octets of one connection, in pieces of any
// size, and returns what each TPDU completes: the answer to a request for a connection, a TSDU, or
// the end. A call of its own returns the octets of the answer or the TSDU, so that TSDUs can be
// wrapped and sent while a caller reads them.
//
// `transport`: what callers use. `fed`: what feeding returns. `fault`: why octets are refused.
// `laws`: laws about the definitions that the contracts cite.
#![tactic(auto)]

mod assembly;
pub mod fault;
pub mod fed;
mod frame;
pub mod laws;
mod request;
pub mod transport;
mod wrap;
