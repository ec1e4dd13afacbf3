// The bay that a bay file describes.
use bay_base::listing::Listing;
pub use bay_base::point::{MeterField, Point, Source, SwitchPoint};
pub use bay_base::switch::{Control, SwitchKind};
use bay_base::text::Text;
pub use bay_nodes::meter::Meter;
pub use bay_nodes::profile::Profile;
pub use bay_nodes::switch::Switch;
use bay_tree::row::Row;

/// A bay: one logical device with its switches, inputs and meters.
#[derive(Drop)]
pub struct Bay {
    /// The name of the logical device: a letter, then letters, digits and `_`, at most 32
    /// characters.
    pub domain: Text,
    /// The maker, 1 to 64 characters from space to `~`.
    pub vendor: Text,
    /// The model, 1 to 64 characters from space to `~`.
    pub model: Text,
    /// The software revision, 1 to 64 characters from space to `~`.
    pub revision: Text,
    /// The maximum age of a scan when a switch is operated, in milliseconds, 0 to 600,000.
    pub scan_max_age_ms: u32,
    /// The profile of the model: which rows the nodes have.
    pub profile: Profile,
    /// The rows of the tree in their order, with their initial values.
    pub rows: Listing<Row>,
    /// The points that the program reads and writes: those of each switch, then the inputs, then
    /// those of each meter.
    pub points: Listing<Point>,
    /// The switches, 1 to 32, in the order of the file.
    pub switches: Listing<Switch>,
    /// The names of the inputs, at most 64, in the order of the file.
    pub inputs: Listing<Text>,
    /// The meters, at most 8, in the order of the file.
    pub meters: Listing<Meter>,
}
