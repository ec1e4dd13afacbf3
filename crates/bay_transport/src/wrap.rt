// Wraps TSDUs to send into data TPDUs in frames (X.224 13.7).
ghost use Rattle.std.specs.Prelude.{◌≡◌, ◌+◌, ◌<◌, ◌≤◌, ◌++◌, ℕ, List, None, length, IfOk, IfSome, OnOk};
ghost use Rattle.bay_transport.specs.Wrap.{data_frame, tpdus_of, Carries};
ghost use Rattle.bay_transport.specs.Assembly.{IsSize};

use crate::frame::frame_header;
use std::alloc::{AllocError, Global};

// The number of octets before the data of a TPDU in its frame.
const BEFORE_DATA: usize = 7;

// Appends one data TPDU in its frame; its data are `front` followed by `rest`.
fn append(out: &mut Vec<u8>, is_last: bool, front: &[u8], rest: &[u8]) -> Result<(), AllocError>
    requires { length front.now + length rest.now ≤ 65_528 }
    ensures { OnOk result (out.new.items
        ≡ out.old.items ++ data_frame is_last (front.now ++ rest.now)) }
{
    let mark = if is_last { 0x80 } else { 0x00 };
    let [version, reserved, high, low] = frame_header(front.len() + rest.len() + 3);
    out.extend_from_slice(&[version, reserved, high, low, 2, 0xF0, mark])?;
    out.extend_from_slice(front)?;
    out.extend_from_slice(rest)?;
    Ok(())
}

// Appends the data TPDUs of some octets, each of at most this size.
fn append_all(out: &mut Vec<u8>, size: usize, octets: &[u8]) -> Result<(), AllocError>
    requires { IsSize size }
    ensures { OnOk result (out.new.items ≡ out.old.items ++ tpdus_of size octets.now) }
{
    let room = size - 3;
    let mut at = 0;
    while octets.len() - at > room {
        append(out, false, &[], &octets[at..at + room])?;
        at += room;
    }
    append(out, true, &[], &octets[at..])?;
    Ok(())
}

// Returns the length of the frames of `count` octets of data, if a TPDU has room for `room` of
// them.
fn frames_length(room: usize, count: usize) -> usize
    requires { 0 < room }
{
    let full = (count.max(1) - 1) / room;
    count.saturating_add((full + 1).saturating_mul(BEFORE_DATA))
}

/// Returns the header of a TSDU of `count` octets in a single frame; `None` if the TSDU needs
/// several data TPDUs of at most this size.
pub(crate) fn header(size: usize, count: usize) -> Option<[u8; BEFORE_DATA]>
    requires { IsSize size }
    ensures exact { IfSome result (λ header. (tsdu : List ℕ) → length tsdu ≡ count
        → header ++ tsdu ≡ tpdus_of size tsdu) }
    ensures several { result ≡ None → size < count + 3 }
{
    if size - 3 < count {
        return None;
    }
    let [version, reserved, high, low] = frame_header(count + 3);
    Some([version, reserved, high, low, 2, 0xF0, 0x80])
}

/// Returns the data TPDUs of a TSDU, each of at most `size` octets. The TSDU is `front` followed by
/// `rest`. Fails only if the allocation fails.
pub(crate) fn wrap(
    alloc: Global,
    size: usize,
    front: &[u8],
    rest: &[u8],
) -> Result<Vec<u8>, AllocError>
    requires size { IsSize size }
    requires front { length front.now ≤ 125 }
    ensures exact { IfOk result (λ octets. octets.items ≡ tpdus_of size (front.now ++ rest.now)) }
    ensures carries { length front.now + length rest.now ≤ 70_000
        → IfOk result (λ octets. Carries size (front.now ++ rest.now) octets.items) }
{
    let room = size - 3;
    let mut out = Vec::with_capacity(alloc, frames_length(room, front.len() + rest.len()))?;
    let first = room - front.len();
    if rest.len() <= first {
        append(&mut out, true, front, rest)?;
        return Ok(out);
    }
    append(&mut out, false, front, &rest[..first])?;
    append_all(&mut out, size, &rest[first..])?;
    Ok(out)
}
