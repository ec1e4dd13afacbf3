// The request that opens an MMS association, and its answer (ISO 9506-2, InitiateRequestPDU and
// InitiateResponsePDU), in the profile of IEC 61850-8-1.
//
// `initiate`: reads a proposal, determines the agreed size of a PDU, and writes the answer.
#![tactic(auto)]

pub mod initiate;
