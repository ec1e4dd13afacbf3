// The profile of a bay's model.

/// Which rows the nodes of a bay have.
#[derive(Clone, Copy)]
pub enum Profile {
    /// The positions, the interlocking, the controls and the measured values.
    One,
    /// Also the inputs and the name plates, and other data that IEC 61850-7-4:2010 makes mandatory.
    Two,
}
