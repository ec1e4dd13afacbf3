// The Basic Encoding Rules (X.690), as far as MMS over OSI needs them: decoding the tag, length and
// content that octets begin with, and the contents of the simple types; and a writer of the
// canonical encoding. The readers do not allocate; they return slices of their input.
//
// `tag`: tags. `tlv`: the value that octets begin with. `values`: consecutive values. `known`: the
// values with known tags among consecutive values. `content`: integers, bit strings and booleans.
// `writer`: the canonical encoding. `outgoing`: octets to send, with headroom. `fault`: why
// decoding failed. `laws`: laws about the definitions that the contracts cite.
#![tactic(auto)]

pub mod content;
pub mod fault;
pub mod known;
pub mod laws;
pub mod outgoing;
pub mod tag;
pub mod tlv;
pub mod values;
pub mod writer;
