// Why files are not loaded.
ghost use Rattle.std.specs.Prelude.{◌≡◌};
ghost use Rattle.bay_load.specs.Errors.{bay_error, check_error, code_of, compile_error, image_error, line_of, text_error, verify_error, words_of};
ghost use Rattle.bay_load.specs.Errors as spec;
ghost use Rattle.bay_load.specs.declared.error.LoadError.TheVariants.{OutOfMemory};

use bay_config::fault::BayFault;
use il_check::fault::CheckFault;
use il_compile::fault::CompileFault;
use il_image::fault::ImageFault;
use il_text::fault::TextFault;
use il_verify::fault::VerifyFault;
use std::alloc::{AllocError, AllocFailed};
use std::error::Error;
use std::fmt;

/// Why a bay file and a program or an image are not loaded: the first fault of the bay file, else
/// of the program's text, its checks or its size, or of the image.
#[derive(Clone, Copy, Debug)]
pub enum LoadError {
    Bay(BayFault),
    Text(TextFault),
    Check(CheckFault),
    Compile(CompileFault),
    Image(ImageFault),
    Verify(VerifyFault),
    /// Out of memory. No other variant holds a fault that is out of memory.
    OutOfMemory,
}

impl LoadError {
    /// Returns the number of the fault, 50 to 100; `None` for out of memory.
    pub fn code(self) -> Option<u8>
        ensures { result ≡ code_of self }
    {
        match self {
            LoadError::Bay(fault) => fault.code(),
            LoadError::Text(fault) => fault.code(),
            LoadError::Check(fault) => fault.code(),
            LoadError::Compile(fault) => fault.code(),
            LoadError::Image(fault) => fault.code(),
            LoadError::Verify(fault) => fault.code(),
            LoadError::OutOfMemory => None,
        }
    }

    /// Returns the line of the program that is at fault, counted from 1; 0 for a fault that has no
    /// line.
    pub fn line(self) -> usize
        ensures { result ≡ line_of self }
    {
        match self {
            LoadError::Text(fault) => fault.line(),
            LoadError::Check(fault) => fault.line(),
            LoadError::Bay(_)
            | LoadError::Compile(_)
            | LoadError::Image(_)
            | LoadError::Verify(_)
            | LoadError::OutOfMemory => 0,
        }
    }

    /// Returns what the fault is, in words.
    pub fn words(self) -> &'static str
        ensures { result.now ≡ words_of self }
    {
        match self {
            LoadError::Bay(fault) => fault.words(),
            LoadError::Text(fault) => fault.words(),
            LoadError::Check(fault) => fault.words(),
            LoadError::Compile(fault) => fault.words(),
            LoadError::Image(fault) => fault.words(),
            LoadError::Verify(fault) => fault.words(),
            LoadError::OutOfMemory => "out of memory",
        }
    }
}

impl fmt::Display for LoadError {
    fn fmt<W: fmt::Write>(&self, f: &mut fmt::Formatter<W>) -> fmt::Result {
        write!(f, "{}", self.words())
    }
}

impl Error for LoadError {}

// Returns this error, or `OutOfMemory` for a fault without a number.
fn unless_memory(code: Option<u8>, error: LoadError) -> LoadError
    ensures { result ≡ spec.unless_memory code error }
{
    match code {
        Some(_) => error,
        None => LoadError::OutOfMemory,
    }
}

impl From<BayFault> for LoadError {
    ghost from_gives = { λ fault e. e ≡ bay_error fault };

    fn from(fault: BayFault) -> LoadError {
        unless_memory(fault.code(), LoadError::Bay(fault))
    }
}

impl From<TextFault> for LoadError {
    ghost from_gives = { λ fault e. e ≡ text_error fault };

    fn from(fault: TextFault) -> LoadError {
        unless_memory(fault.code(), LoadError::Text(fault))
    }
}

impl From<CheckFault> for LoadError {
    ghost from_gives = { λ fault e. e ≡ check_error fault };

    fn from(fault: CheckFault) -> LoadError {
        unless_memory(fault.code(), LoadError::Check(fault))
    }
}

impl From<CompileFault> for LoadError {
    ghost from_gives = { λ fault e. e ≡ compile_error fault };

    fn from(fault: CompileFault) -> LoadError {
        unless_memory(fault.code(), LoadError::Compile(fault))
    }
}

impl From<ImageFault> for LoadError {
    ghost from_gives = { λ fault e. e ≡ image_error fault };

    fn from(fault: ImageFault) -> LoadError {
        unless_memory(fault.code(), LoadError::Image(fault))
    }
}

impl From<VerifyFault> for LoadError {
    ghost from_gives = { λ fault e. e ≡ verify_error fault };

    fn from(fault: VerifyFault) -> LoadError {
        unless_memory(fault.code(), LoadError::Verify(fault))
    }
}

impl From<AllocError> for LoadError {
    ghost from_gives = { λ _ e. e ≡ OutOfMemory };

    fn from(_error: AllocError) -> LoadError {
        LoadError::OutOfMemory
    }
}

impl<T: Drop> From<AllocFailed<T>> for LoadError {
    ghost from_gives = { λ _ e. e ≡ OutOfMemory };

    fn from(_error: AllocFailed<T>) -> LoadError {
        LoadError::OutOfMemory
    }
}
