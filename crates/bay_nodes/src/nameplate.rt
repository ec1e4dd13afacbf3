// The identity of a device, as the bay file gives it.
use crate::profile::Profile;
use bay_base::text::Text;

/// The section `bay` of a bay file: the name and maker of the device, the maximum age of a scan,
/// and the profile of the model.
#[derive(Drop)]
pub struct Nameplate {
    pub domain: Text,
    pub vendor: Text,
    pub model: Text,
    pub revision: Text,
    /// The maximum age of a scan in milliseconds.
    pub scan_max_age_ms: u32,
    /// Which rows the nodes have.
    pub profile: Profile,
}
