// The result of feeding a piece.

/// What octets complete.
#[derive(Clone, Copy)]
pub enum Got {
    /// Nothing yet. All octets were consumed.
    More,
    /// A request for a connection. The answer must be sent.
    Answer,
    /// A TSDU: the joined data of a group of data TPDUs.
    Tsdu,
    /// The other side has ended the connection (DR or ER).
    Ended,
}

/// The result of feeding a piece: the first thing that the piece completes.
#[derive(Clone, Copy)]
pub struct Fed {
    /// The number of octets of the piece that were consumed. The others must be fed again.
    pub used: usize,
    /// What those octets complete.
    pub got: Got,
}
