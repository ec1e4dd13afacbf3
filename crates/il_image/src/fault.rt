// Why an image is refused.
ghost use Rattle.std.specs.Prelude.{◌≡◌};
ghost use Rattle.il_image.specs.Codes.{code_of, words_of};
ghost use Rattle.il_image.specs.declared.fault.ImageFault.TheVariants.{OutOfMemory};

use std::alloc::{AllocError, AllocFailed};
use thiserror::Error;

/// Why octets cannot be decoded as an image: the first fault from the left.
#[derive(Clone, Copy, Debug, PartialEq, Eq, Error)]
#[error("{}", self.words())]
pub enum ImageFault {
    /// The first four octets are not the image mark.
    BadMagic,
    /// The version is neither 1 nor 2.
    BadVersion,
    /// An octet is outside its table, a value is outside its type, or a name does not consist of 1
    /// to 64 upper-case letters, digits and underscores.
    BadOpcode,
    /// The octets or the code end within an item, or octets follow the code.
    Truncated,
    /// Out of memory.
    OutOfMemory,
}

impl ImageFault {
    /// Returns the fault's number, 80 to 83 in the order of the faults, or `None` for out of
    /// memory.
    pub fn code(self) -> Option<u8>
        ensures { result ≡ code_of self }
    {
        match self {
            ImageFault::BadMagic => Some(80),
            ImageFault::BadVersion => Some(81),
            ImageFault::BadOpcode => Some(82),
            ImageFault::Truncated => Some(83),
            ImageFault::OutOfMemory => None,
        }
    }

    /// Returns what the fault is, in words.
    pub fn words(self) -> &'static str
        ensures { result.now ≡ words_of self }
    {
        match self {
            ImageFault::BadMagic => "this is no image",
            ImageFault::BadVersion => "the version of the image is not known",
            ImageFault::BadOpcode => "an octet of the image stands for nothing",
            ImageFault::Truncated => "the image ends too early or too late",
            ImageFault::OutOfMemory => "out of memory",
        }
    }
}

impl From<AllocError> for ImageFault {
    ghost from_gives = { λ _ e. e ≡ OutOfMemory };

    fn from(_error: AllocError) -> ImageFault {
        ImageFault::OutOfMemory
    }
}

impl<T: Drop> From<AllocFailed<T>> for ImageFault {
    ghost from_gives = { λ _ e. e ≡ OutOfMemory };

    fn from(_error: AllocFailed<T>) -> ImageFault {
        ImageFault::OutOfMemory
    }
}
