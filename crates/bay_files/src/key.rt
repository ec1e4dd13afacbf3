// Reading a key file.
ghost use Rattle.std.specs.Prelude.{◌≡◌, ◌≤◌, length, option_map, Ok, Err, IfErr, IfOk};
ghost use Rattle.std.specs.Char.{is_ascii_hexdigit};
ghost use Rattle.std.specs.List.{prefix_len};
ghost use Rattle.bay_files.specs.Keys.{ReadsKey, ReadsKeyIfNamed, key_in, key_fault_view};
ghost use Rattle.bay_files.specs.Keys as spec;

use crate::files::{FileSystem, ProtectedFile};
use bay_io::input::ReadFault;
use std::alloc::Global;
use thiserror::Error;

// The fewest and the most digits of a key.
const FEWEST: usize = 32;

const MOST: usize = 64;

/// Why there is no key.
#[derive(Debug, Drop, Error)]
pub enum KeyFault {
    /// The file can't be read.
    #[error("{0}")]
    Unread(ReadFault),
    /// The file's mode permits some access to its group or others.
    #[error("only its owner may read it")]
    Exposed,
    /// The file does not hold 32 to 64 hexadecimal digits, followed by one line end or nothing.
    #[error("a key has 32 to 64 hexadecimal digits")]
    Malformed,
}

/// The name of a key file without a valid key, and why.
#[derive(Drop)]
pub struct KeyFileFault<'a> {
    pub name: &'a str,
    pub fault: KeyFault,
}

// Returns how many hexadecimal digits a text begins with.
fn digit_len(text: &[u8]) -> usize
    ensures len { result ≡ prefix_len is_ascii_hexdigit text.now }
    ensures within { result ≤ length text.now }
{
    text.iter().take_while(|x| x.is_ascii_hexdigit()).count()
}

// Returns whether a text is empty or one line end.
#[tactic(auto, unfolding(crate::specs::Keys::is_key_end))]
fn is_key_end(text: &[u8]) -> bool
    ensures { result ≡ spec.is_key_end text.now }
{
    matches!(text, b"" | b"\n" | b"\r\n")
}

// Returns the number of digits of the key in a text, or `None` if the text holds no valid key.
fn key_length(text: &[u8]) -> Option<usize>
    ensures { result ≡ option_map length (key_in text.now) }
{
    let digits = digit_len(text);
    if is_key_end(&text[digits..]) && digits >= FEWEST && digits <= MOST {
        Some(digits)
    } else {
        None
    }
}

// Reads a key file, and returns the digits of the key.
fn read_digits<F: FileSystem>(alloc: Global, files: &F, name: &str) -> Result<Vec<u8>, KeyFault>
    ensures ok { IfOk result (λ key. ReadsKey F.guards files.now name.now (Ok key.items)) }
    ensures err { IfErr result (λ fault. ReadsKey F.guards files.now name.now (Err fault)) }
{
    let ProtectedFile {
        octets: mut key,
        is_private,
    } = match files.read_guarded(alloc, name) {
        Ok(guarded) => guarded,
        Err(fault) => return Err(KeyFault::Unread(fault)),
    };
    if !is_private {
        return Err(KeyFault::Exposed);
    }
    match key_length(key.as_slice()) {
        Some(digits) => {
            key.truncate(digits);
            Ok(key)
        }
        None => Err(KeyFault::Malformed),
    }
}

/// Reads a key file, which only its owner may use, and returns the 32 to 64 digits of the key.
/// Returns `None` if there is no name. An error has the file's name and the fault: `Unread` if the
/// file can't be read, `Exposed` if its mode permits some access to its group or others,
/// `Malformed` if it holds no key.
pub fn read_key<'a, F: FileSystem>(
    alloc: Global,
    files: &F,
    name: Option<&'a str>,
) -> Result<Option<Vec<u8>>, KeyFileFault<'a>>
    ensures ok { IfOk result
        (λ key. ReadsKeyIfNamed F.guards files.now (option_map (λ n. n.now) name.entry)
        (Ok (option_map (λ digits. digits.items) key))) }
    ensures err { IfErr result
        (λ keyless. ReadsKeyIfNamed F.guards files.now (option_map (λ n. n.now) name.entry)
        (Err (key_fault_view keyless))) }
{
    let Some(name) = name else {
        return Ok(None);
    };
    match read_digits(alloc, files, name) {
        Ok(digits) => Ok(Some(digits)),
        Err(fault) => Err(KeyFileFault { name, fault }),
    }
}
