// The kind of a switch, how it is controlled, and the operation that a command requests.

/// The kind of a switch.
#[derive(Clone, Copy, Debug, PartialEq, Eq)]
pub enum SwitchKind {
    /// A circuit breaker.
    Breaker,
    /// A disconnector.
    Disconnector,
    /// An earthing switch.
    Earthing,
}

/// How a switch is controlled (IEC 61850-7-2, control model).
#[derive(Clone, Copy, Debug, PartialEq, Eq)]
pub enum Control {
    /// Status only.
    Status,
    /// Direct control with normal security.
    Direct,
    /// Select before operate with normal security.
    Sbo,
    /// Select before operate with enhanced security: select with value, and a report when the
    /// control ends.
    SboEnhanced,
}

/// The operation that a command requests (IEC 61850-7-3, DPC: ctlVal; FALSE opens, TRUE closes).
#[derive(Clone, Copy, Debug, PartialEq, Eq)]
pub enum Operation {
    Open,
    Close,
}
