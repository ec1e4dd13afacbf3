// The switches of a bay.
use bay_base::switch::{Control, SwitchKind};
use bay_base::text::Text;

/// A switching device (IEC 61850-7-4, XCBR and XSWI) and the way it is controlled.
#[derive(Debug, Drop)]
pub struct Switch {
    /// The name as the file spells it: a letter, then letters, digits and `_`, at most 16
    /// characters.
    pub id: Text,
    pub kind: SwitchKind,
    pub control: Control,
    /// How long a selection lasts, in milliseconds, 1 to 600,000; 0 if `control` has no selection.
    pub sbo_timeout_ms: u32,
    /// How long the switch may travel, in milliseconds, 1 to 600,000; 0 if it is not controlled.
    pub travel_ms: u32,
    /// The name of the input that is TRUE while the key of the switch is at remote, as the file
    /// spells it; `None` if the switch has no key. Clients operate the switch at remote only.
    pub remote: Option<Text>,
    /// Whether an operate to close that requests a synchrocheck is refused.
    pub refuses_synchrocheck: bool,
}
