// The result of feeding a piece of a client's octets.

/// What octets complete.
#[derive(Drop)]
pub enum Indication {
    /// Nothing yet. All octets were consumed.
    Nothing,
    /// A request for a connection or for an association. These octets answer it and must be sent.
    Answer(Vec<u8>),
    /// A PDU of MMS, which `Connection::pdu` returns.
    Mms,
    /// A request for a release. These octets answer it and must be sent. The connection ends.
    Released(Vec<u8>),
    /// The client has ended the connection or aborted the association. The connection ends.
    Ended,
    /// The octets were refused with the fault of this number: 10 to 13 of the transport, 20 to 25
    /// of the association. The connection ends.
    Fault(u8),
}

/// The result of feeding a piece: the first thing that the piece completes.
#[derive(Drop)]
pub struct FeedResult {
    /// The number of octets of the piece that were consumed. The others must be fed again.
    pub used: usize,
    /// What those octets complete.
    pub indication: Indication,
}
