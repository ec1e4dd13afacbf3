// The tables of a diagram file, each by itself.
use bay_base::switch::SwitchKind;
use bay_base::text::Text;
use bay_diagram::network::NodeKind;

/// What is wrong with a table by itself.
#[derive(Clone, Copy, Debug, PartialEq, Eq)]
pub enum RowFault {
    /// A key is unknown.
    UnknownKey,
    /// A required key is missing.
    MissingKey,
    /// It is no table, or a value has a wrong type or is not one of its words.
    BadValue,
}

/// The kind of a node of a diagram file.
#[derive(Clone, Copy, Debug, PartialEq, Eq)]
pub enum NodeWord {
    /// The earth.
    Earth,
    /// Any other node.
    Kind(NodeKind),
}

/// A table of the section `node`. What is missing or wrong is empty or FALSE.
#[derive(Drop)]
pub struct NodeRow {
    /// What is wrong with the table by itself.
    pub fault: Option<RowFault>,
    pub name: Text,
    pub kind: NodeWord,
    pub is_source: bool,
    /// It has the key `system`.
    pub has_system: bool,
    /// The name of the input that is TRUE only while the source is dead.
    pub dead: Option<Text>,
}

/// A table of the section `between`. What is missing or wrong is empty or FALSE.
#[derive(Drop)]
pub struct SwitchRow {
    /// What is wrong with the table by itself.
    pub fault: Option<RowFault>,
    /// The id of a switch of the bay.
    pub switch: Option<Text>,
    /// The name of a switch of another bay.
    pub name: Option<Text>,
    /// The kind of a switch of another bay.
    pub kind: Option<SwitchKind>,
    /// The names of its two nodes.
    pub one: Text,
    pub other: Text,
    /// The names of the inputs that are TRUE while a switch of another bay is closed, and open.
    pub closed: Option<Text>,
    pub opened: Option<Text>,
    /// It has the key `isolates`, which is TRUE.
    pub isolates: bool,
    /// The name of the input that is TRUE only while a breaker may join two live parts.
    pub synchro: Option<Text>,
    /// It has the key `coupler`, which is TRUE.
    pub is_coupler: bool,
}
