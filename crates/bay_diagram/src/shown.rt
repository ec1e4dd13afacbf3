// A hazard with a walk that shows it.
use bay_base::listing::Listing;

/// Which hazard an operation of a switch is.
#[derive(Clone, Copy, Debug, PartialEq, Eq)]
pub enum HazardKind {
    /// An earthing switch would close onto a node that is not isolated.
    Earths,
    /// Nothing but open breakers would part a live source and an earth.
    Bridges,
    /// A disconnector would make or break a current.
    Breaks,
    /// The switch would make a current through another disconnector, which may be on its way.
    Makes,
    /// The switch would leave a current to another disconnector, which may be on its way.
    Leaves,
    /// A breaker would join two live parts, which are not surely joined.
    Joins,
    /// A coupler would leave its two sides to disconnectors alone.
    Uncouples,
    /// An earthing switch would open while a source may feed it.
    Unearths,
}

/// A step of a walk.
#[derive(Clone, Copy)]
pub struct Step {
    /// The number of the branch that it leads over.
    pub branch: usize,
    /// The number of the node that it leads to.
    pub node: u8,
}

/// A walk from a node over branches.
#[derive(Drop)]
pub struct ShownWalk {
    /// The number of the node where it starts.
    pub start: u8,
    pub steps: Listing<Step>,
}

/// A hazard with a walk that shows it.
#[derive(Drop)]
pub struct ShownHazard {
    pub kind: HazardKind,
    /// The number of the switch's branch.
    pub switch: usize,
    /// The number of the branch of the other disconnector, if the hazard has one.
    pub other: Option<usize>,
    /// The number of the earthing switch that earths, or may earth, the last node of the walk, or
    /// would open there, if the hazard has one.
    pub earth: Option<usize>,
    /// From a source to what is earthed, or to another source; or the way of a current, through the
    /// switch and the other disconnector; or from one side of a coupler to the other.
    pub walk: ShownWalk,
    /// The path beside the other disconnector, through the switch, if the switch would take it
    /// away.
    pub beside: Option<ShownWalk>,
}
