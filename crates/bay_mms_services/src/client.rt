// The client that sends a request, and the time of the request.

/// A client that sends a request to a bay.
#[derive(Clone, Copy)]
pub struct ClientContext {
    /// The number of its association.
    pub association: u16,
    /// The agreed size of the largest PDU of MMS in octets, 256 to 65,000.
    pub size: u32,
    /// The time, in milliseconds since 1970.
    pub now: u64,
    /// Whether the process is lost: nothing has been received from it since.
    pub lost: bool,
    /// Whether the last scan is fresh: none of its inputs has changed since, and it is not too old.
    pub fresh: bool,
}
