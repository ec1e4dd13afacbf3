// A row of the tree.
use crate::leaf::Leaf;
use bay_base::text::Text;

/// A named value, or the name of a structure.
#[derive(Debug, Drop)]
pub struct Row {
    /// The name. Its words are separated by `$`.
    pub name: Text,
    /// The value; `None` for a structure.
    pub leaf: Option<Leaf>,
}
