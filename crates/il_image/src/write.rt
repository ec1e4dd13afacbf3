// Numbers in octets, the highest first.
ghost use Rattle.std.specs.Prelude.{◌≡◌, ◌++◌, ◌∷◌, [], OnErr, OnOk};
ghost use Rattle.il_image.specs.Growth.{Extends};
ghost use Rattle.il_image.specs.Octets.{number_octets, octet_count, signed_octets, size_of};

use bay_base::types::ElementaryType;
use std::alloc::AllocError;

/// The size of a signed number, in octets.
#[derive(Clone, Copy)]
pub enum Size {
    One,
    Two,
    Four,
    Eight,
}

impl Size {
    /// Returns the size of a type's values as operands.
    pub(crate) fn of(elementary: ElementaryType) -> Size
        ensures { result ≡ size_of elementary }
    {
        match elementary {
            ElementaryType::Bool => Size::One,
            ElementaryType::Int => Size::Two,
            ElementaryType::Dint | ElementaryType::Time => Size::Four,
            ElementaryType::Lint => Size::Eight,
        }
    }

    /// Returns the number of octets.
    pub(crate) fn count(self) -> usize
        ensures { result ≡ octet_count self }
    {
        match self {
            Size::One => 1,
            Size::Two => 2,
            Size::Four => 4,
            Size::Eight => 8,
        }
    }
}

/// Appends an octet.
pub(crate) fn push_octet(octets: &mut Vec<u8>, octet: u8) -> Result<(), AllocError>
    ensures ok { OnOk result (octets.new.items ≡ octets.old.items ++ octet ∷ []) }
    ensures err { OnErr result (Extends octets.old.items octets.new.items) }
{
    octets.push(octet)?;
    Ok(())
}

/// Appends a number of two octets.
pub(crate) fn push_number(octets: &mut Vec<u8>, number: u16) -> Result<(), AllocError>
    ensures ok { OnOk result (octets.new.items ≡ octets.old.items ++ number_octets number) }
    ensures err { OnErr result (Extends octets.old.items octets.new.items) }
{
    octets.extend_from_slice(&number.to_be_bytes())
}

/// Appends the lowest octets of a number in two's complement; `size` is their number.
pub(crate) fn push_signed(octets: &mut Vec<u8>, size: Size, number: i64) -> Result<(), AllocError>
    ensures ok { OnOk result (octets.new.items ≡ octets.old.items ++ signed_octets size number) }
    ensures err { OnErr result (Extends octets.old.items octets.new.items) }
{
    octets.extend_from_slice(&number.to_be_bytes()[8 - size.count()..])
}
