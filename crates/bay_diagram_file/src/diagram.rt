// A diagram with the names of its nodes and switches.
use bay_base::listing::Listing;
use bay_base::text::Text;
use bay_diagram::network::Network;

/// A diagram with the names of its nodes and switches.
#[derive(Drop)]
pub struct Diagram {
    pub network: Network,
    /// The names of the tables of the section `node`, by the numbers of the nodes.
    pub nodes: Listing<Text>,
    /// The ids of the switches of the bay and the names of those of other bays, by the numbers of
    /// their branches.
    pub switches: Listing<Text>,
}
