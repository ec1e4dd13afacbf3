// A single line diagram: nodes, and the branches between them.
ghost use Rattle.std.specs.Prelude.{◌≡◌};
ghost use Rattle.bay_diagram.specs.Network as spec;

use bay_base::listing::Listing;
use bay_base::switch::SwitchKind;

/// A single line diagram.
#[derive(Drop)]
pub struct Network {
    /// The nodes, in the order of the file. An earth is no node.
    pub nodes: Listing<Node>,
    /// The branches, in the order of the file.
    pub branches: Listing<Branch>,
    pub checks: Checks,
}

/// The hazards that count only in a diagram that selects them.
#[derive(Clone, Copy)]
pub struct Checks {
    /// Each breaker of the bay that closes between two live parts, which are not surely joined.
    pub live_parts: bool,
    /// Each earthing switch of the bay that opens while a source may feed it.
    pub fed_earths: bool,
}

/// A node: a piece of the primary circuit that no switch parts.
#[derive(Clone, Copy)]
pub struct Node {
    /// Its number, by which branches name it.
    pub number: u8,
    pub kind: NodeKind,
    /// It can be live from outside, whatever the switches of the diagram do.
    pub is_source: bool,
    /// The index of an input that is TRUE only while the source is dead.
    pub dead: Option<usize>,
}

/// The kind of a node.
#[derive(Clone, Copy, Debug, PartialEq, Eq)]
pub enum NodeKind {
    Busbar,
    Line,
    Cable,
    Transformer,
    /// It only joins switches.
    Junction,
}

/// A branch: a switch between two nodes, or between a node and the earth.
#[derive(Clone, Copy)]
pub struct Branch {
    /// Its number: no other branch has it.
    pub number: usize,
    /// The number of the node at its one side; of an earthing switch, the node that it earths.
    pub one: u8,
    /// The number of the node at its other side; of an earthing switch, the node that it earths.
    pub other: u8,
    pub kind: SwitchKind,
    /// While it is open, it is an isolating gap, as each disconnector is. Of breakers only a
    /// disconnecting circuit breaker is (IEC 62271-108).
    pub isolates: bool,
    /// The index of an input that is TRUE only while the breaker may close between two live parts.
    /// Such a breaker may not do so otherwise, whether or not the diagram selects this.
    pub synchro: Option<usize>,
    /// It is a coupler, which may not open while disconnectors alone bridge it.
    pub is_coupler: bool,
    pub device: Device,
}

/// How the position of a switch is known.
#[derive(Clone, Copy)]
pub enum Device {
    /// The switch of the bay at this index.
    Own {
        switch: usize,
    },
    /// A switch of another bay, by the indices of the inputs that are TRUE while it is closed, and
    /// while it is open. If both are TRUE, or neither is, its position is unknown.
    Other {
        closed_input: Option<usize>,
        open_input: Option<usize>,
    },
}

impl NodeKind {
    /// Returns whether nodes of the kind are terminals: a current can enter or leave there.
    pub fn is_terminal(self) -> bool
        ensures { result ≡ spec.is_terminal_kind self }
    {
        match self {
            NodeKind::Busbar | NodeKind::Line | NodeKind::Cable | NodeKind::Transformer => true,
            NodeKind::Junction => false,
        }
    }

    /// Returns whether nodes of the kind are transformers.
    pub fn is_transformer(self) -> bool
        ensures { result ≡ spec.is_transformer_kind self }
    {
        match self {
            NodeKind::Transformer => true,
            NodeKind::Busbar | NodeKind::Line | NodeKind::Cable | NodeKind::Junction => false,
        }
    }
}

impl Branch {
    /// Returns whether the branch is an earthing switch.
    pub fn is_earthing(&self) -> bool
        ensures { result ≡ spec.is_earthing self.now.kind }
    {
        match self.kind {
            SwitchKind::Earthing => true,
            SwitchKind::Breaker | SwitchKind::Disconnector => false,
        }
    }

    /// Returns whether the branch is a disconnector.
    pub fn is_disconnector(&self) -> bool
        ensures { result ≡ spec.is_disconnector self.now.kind }
    {
        match self.kind {
            SwitchKind::Disconnector => true,
            SwitchKind::Breaker | SwitchKind::Earthing => false,
        }
    }

    /// Returns whether the branch is the switch of the bay at this index.
    pub fn is_own(&self, switch: usize) -> bool
        ensures { result ≡ spec.is_own switch self.now.device }
    {
        match self.device {
            Device::Own { switch: index } => index == switch,
            Device::Other { .. } => false,
        }
    }
}

impl Network {
    /// Returns whether the node with this number is a terminal.
    pub fn is_terminal(&self, number: u8) -> bool
        ensures { result ≡ spec.is_terminal self.now number }
    {
        self.nodes
            .as_slice()
            .iter()
            .any(|node| node.number == number && node.kind.is_terminal())
    }

    /// Returns whether the node with this number is a transformer.
    pub fn is_transformer(&self, number: u8) -> bool
        ensures { result ≡ spec.is_transformer self.now number }
    {
        self.nodes
            .as_slice()
            .iter()
            .any(|node| node.number == number && node.kind.is_transformer())
    }

    /// Returns whether the node with this number is a source.
    pub fn is_source(&self, number: u8) -> bool
        ensures { result ≡ spec.is_source self.now number }
    {
        self.nodes
            .as_slice()
            .iter()
            .any(|node| node.number == number && node.is_source)
    }
}
