// Why decoding octets failed.
ghost use Rattle.std.specs.Prelude.{◌≡◌};
ghost use Rattle.bay_ber.specs.Code.{code_of};

use thiserror::Error;

/// Why decoding octets failed. No reader allocates.
#[derive(Clone, Copy, Debug, PartialEq, Eq, Error)]
pub enum BerFault {
    /// The octets end before the end of the tag, the length or the content.
    #[error("the octets end too early")]
    Truncated,
    /// The length has the indefinite form (X.690 8.1.3.6).
    #[error("the indefinite length is not read")]
    Indefinite,
    /// The length has more than four octets after its first (X.690 8.1.3.5).
    #[error("the length has too many octets")]
    LengthTooLong,
    /// The tag's number is 128 or more (X.690 8.1.2.4).
    #[error("the number of the tag is too large")]
    TagTooLarge,
    /// The content encodes no value of the expected type.
    #[error("the content spells no value of its type")]
    BadContent,
}

impl BerFault {
    /// Returns the number of the fault, 1 to 5 in the order of the variants.
    pub fn code(self) -> u8
        ensures { result ≡ code_of self }
    {
        match self {
            BerFault::Truncated => 1,
            BerFault::Indefinite => 2,
            BerFault::LengthTooLong => 3,
            BerFault::TagTooLarge => 4,
            BerFault::BadContent => 5,
        }
    }
}
