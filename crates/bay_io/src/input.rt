// All octets of a reader, up to a limit.
ghost use Rattle.std.specs.Prelude.{◌≡◌, ◌+◌, ◌-◌, ◌^◌, ◌<◌, ◌≤◌, ◌++◌, true, is_ok, length, vec_len, IfOk, IfSome};
ghost use Rattle.bay_io.specs.Input.{ReadsAll, is_read_failure};

use crate::calls::OctetSource;
use crate::reader::WatchedReader;
use std::alloc::{AllocError, Global};
use std::io::ErrorKind;
use thiserror::Error;

// The number of octets that one read requests.
const PIECE: usize = 65_536;

/// Why reading the input failed.
#[derive(Debug, Drop, Error)]
pub enum ReadFault {
    /// There are more octets than the limit.
    #[error("there are too many octets")]
    TooLong,
    /// A read failed, with the system's error.
    #[error("a read failed: {0}")]
    Failed(ErrorKind),
    #[error("out of memory")]
    OutOfMemory,
}

// Appends octets to the buffer, if all octets before them were appended.
fn append_octets(
    all: &mut Vec<u8>,
    kept: Result<(), AllocError>,
    octets: &[u8],
) -> Result<(), AllocError>
    ensures { is_ok result ≡ true
        → (is_ok kept ≡ true) × (all.new.items ≡ all.old.items ++ octets.now) }
{
    kept?;
    all.extend_from_slice(octets)
}

/// Reads all remaining octets of the reader, if there are at most `limit`. Makes at most `limit` +
/// 1 reads, and none after a failed read. Fails with `TooLong` if there are more octets than
/// `limit`, with `Failed` if a read fails or had failed before the call, and with `OutOfMemory` if
/// an allocation fails and the octets up to the end are within the limit. If an allocation fails it
/// reads on, since there may be too many octets.
pub fn read_all<R: OctetSource>(
    alloc: Global,
    reader: &mut WatchedReader<R>,
    limit: usize,
) -> Result<Vec<u8>, ReadFault>
    requires { limit < 2 ^ 64 - 1 }
    ensures ok { IfOk result (λ v. IfSome (R.remaining reader.old.inner) (λ xs. v.items ≡ xs)) }
    ensures within { IfOk result (λ v. vec_len v ≤ limit) }
    ensures too_long { result ≡ Err ReadFault.TooLong
        → IfSome (R.remaining reader.old.inner) (λ xs. limit < length xs) }
    ensures memory { result ≡ Err ReadFault.OutOfMemory
        → IfSome (R.remaining reader.old.inner) (λ xs. length xs ≤ limit) }
    ensures failed { reader.new.has_failed ≡ is_read_failure result }
    // The reads that were made, and that the result is all octets that they returned.
    ensures calls_made { ReadsAll R.does (λ v. v.items) limit reader.old.inner reader.old.has_failed
        reader.new.inner reader.new.has_failed result }
{
    if reader.has_failed() {
        return Err(ReadFault::Failed(ErrorKind::Other));
    }
    let mut all = Vec::new(alloc);
    let mut count = 0;
    let mut kept = Ok(());
    let mut piece = [0u8; PIECE];
    for turn in 0..limit + 1 {
        match reader.read(&mut piece) {
            Ok(0) => {
                return match kept {
                    Ok(()) => Ok(all),
                    Err(AllocError) => Err(ReadFault::OutOfMemory),
                };
            }
            Ok(n) => {
                if limit - count < n {
                    return Err(ReadFault::TooLong);
                }
                count += n;
                kept = append_octets(&mut all, kept, &piece[..n]);
            }
            Err(error) => return Err(ReadFault::Failed(error.kind())),
        }
    }
    Err(ReadFault::TooLong)
}
