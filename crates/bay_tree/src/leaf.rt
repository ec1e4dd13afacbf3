// The values that a leaf may hold.
ghost use Rattle.std.specs.Prelude.{◌≡◌};
ghost use Rattle.bay_tree.specs.LeafTypes.{leaf_type_of};

use bay_base::listing::Listing;
pub use bay_base::position::Dbpos;
use bay_base::text::Text;

/// The validity of a value (IEC 61850-7-3, Quality).
#[derive(Clone, Copy, Debug, PartialEq, Eq)]
pub enum Quality {
    Good,
    Invalid,
}

/// The value of a leaf, of one of the twelve types of this profile.
#[derive(Debug, Drop)]
pub enum Leaf {
    /// A BOOLEAN.
    Truth(bool),
    /// A bit string of two bits: a position, or the checks of a control.
    Dbpos(Dbpos),
    /// A bit string of thirteen bits.
    Quality(Quality),
    Int8(i8),
    Int32(i32),
    Unsigned8(u8),
    Unsigned32(u32),
    /// A floating-point number of 32 bits: the one that is nearest to this whole number.
    Float(i32),
    /// At most 64 octets.
    Octets(Listing<u8>),
    /// An object reference, at most 129 characters.
    Reference(Text),
    /// At most 255 characters.
    Text(Text),
    /// Milliseconds since 1970.
    Utc(u64),
}

/// The type of a leaf's value. It never changes.
#[derive(Clone, Copy, Debug, PartialEq, Eq)]
pub enum LeafType {
    Truth,
    Dbpos,
    Quality,
    Int8,
    Int32,
    Unsigned8,
    Unsigned32,
    Float,
    Octets,
    Reference,
    Text,
    Utc,
}

impl Leaf {
    /// Returns the type of this value.
    #[inline(always)]
    pub fn leaf_type(&self) -> LeafType
        ensures { result ≡ leaf_type_of self.now }
    {
        match self {
            Leaf::Truth(_) => LeafType::Truth,
            Leaf::Dbpos(_) => LeafType::Dbpos,
            Leaf::Quality(_) => LeafType::Quality,
            Leaf::Int8(_) => LeafType::Int8,
            Leaf::Int32(_) => LeafType::Int32,
            Leaf::Unsigned8(_) => LeafType::Unsigned8,
            Leaf::Unsigned32(_) => LeafType::Unsigned32,
            Leaf::Float(_) => LeafType::Float,
            Leaf::Octets(_) => LeafType::Octets,
            Leaf::Reference(_) => LeafType::Reference,
            Leaf::Text(_) => LeafType::Text,
            Leaf::Utc(_) => LeafType::Utc,
        }
    }
}
