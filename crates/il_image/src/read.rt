// Readers of one item at the start of octets. Each returns the item and the octets after it, or the
// first fault from the left, and does not allocate. An offset counts octets of the code from 0.
ghost use Rattle.std.specs.Prelude.{◌≡◌, ◌+◌, ◌<◌, ◌≤◌, IfOk, IfSome, length};
ghost use Rattle.bay_base.specs.Results.{Exact};
ghost use Rattle.il_image.specs.Reading.{with_next_offset};
ghost use Rattle.il_image.specs.Reading as spec;

use crate::arithmetic::Width;
use crate::fault::ImageFault;
use crate::instr::Instr;
use crate::opcode::{Opcode, Version, width_of};
use crate::value::Value;
use crate::write::Size;
use bay_base::types::ElementaryType;

/// Reads one octet.
pub(crate) fn octet_at(octets: &[u8]) -> Result<(u8, &[u8]), ImageFault>
    ensures { Exact (λ r. (r.0, r.1.now)) result (spec.octet_at octets.now) }
{
    match octets {
        [octet, rest @ ..] => Ok((*octet, rest)),
        [] => Err(ImageFault::Truncated),
    }
}

/// Reads a number of two octets.
pub(crate) fn number_at(octets: &[u8]) -> Result<(u16, &[u8]), ImageFault>
    ensures { Exact (λ r. (r.0, r.1.now)) result (spec.number_at octets.now) }
{
    match octets {
        [high, low, rest @ ..] => Ok((u16::from_be_bytes([*high, *low]), rest)),
        _ => Err(ImageFault::Truncated),
    }
}

// Reads a number in two's complement.
fn signed_at(size: Size, octets: &[u8]) -> Result<(i64, &[u8]), ImageFault>
    ensures { Exact (λ r. (r.0, r.1.now)) result (spec.signed_at size octets.now) }
{
    match (size, octets) {
        (Size::One, [a, rest @ ..]) => Ok((i64::from(i8::from_be_bytes([*a])), rest)),
        (Size::Two, [a, b, rest @ ..]) => Ok((i64::from(i16::from_be_bytes([*a, *b])), rest)),
        (Size::Four, [a, b, c, d, rest @ ..]) => {
            Ok((i64::from(i32::from_be_bytes([*a, *b, *c, *d])), rest))
        }
        (Size::Eight, [a, b, c, d, e, f, g, h, rest @ ..]) => {
            Ok((i64::from_be_bytes([*a, *b, *c, *d, *e, *f, *g, *h]), rest))
        }
        _ => Err(ImageFault::Truncated),
    }
}

/// Reads a value of a type, encoded as a number of the given size.
pub(crate) fn value_at(
    size: Size,
    elementary: ElementaryType,
    octets: &[u8],
) -> Result<(Value, &[u8]), ImageFault>
    ensures { Exact (λ r. (r.0, r.1.now)) result (spec.value_at size elementary octets.now) }
{
    let (number, rest) = signed_at(size, octets)?;
    match Value::of(elementary, number) {
        Some(value) => Ok((value, rest)),
        None => Err(ImageFault::BadOpcode),
    }
}

// Reads a width of the version.
fn width_at(version: Version, octets: &[u8]) -> Result<(Width, &[u8]), ImageFault>
    ensures { Exact (λ r. (r.0, r.1.now)) result (spec.width_at version octets.now) }
{
    let (octet, rest) = octet_at(octets)?;
    match width_of(version, octet) {
        Some(width) => Ok((width, rest)),
        None => Err(ImageFault::BadOpcode),
    }
}

// Reads the operand of an opcode, and returns the instruction.
fn operand_from(
    version: Version,
    opcode: Opcode,
    octets: &[u8],
) -> Result<(Instr, &[u8]), ImageFault>
    ensures { Exact (λ r. (r.0, r.1.now)) result (spec.operand_from version opcode octets.now) }
{
    match opcode {
        Opcode::Halt => Ok((Instr::Halt, octets)),
        Opcode::Push(elementary) => {
            let (value, rest) = value_at(Size::of(elementary), elementary, octets)?;
            Ok((Instr::Push(value), rest))
        }
        Opcode::Drop => Ok((Instr::Drop, octets)),
        Opcode::Slot(slot_use) => {
            let (number, rest) = number_at(octets)?;
            Ok((Instr::Slot(slot_use, number), rest))
        }
        Opcode::Not => Ok((Instr::Not, octets)),
        Opcode::Combine(connective) => Ok((Instr::Combine(connective), octets)),
        Opcode::Compute(operation) => {
            let (width, rest) = width_at(version, octets)?;
            Ok((Instr::Compute(operation, width), rest))
        }
        Opcode::Compare(comparison) => Ok((Instr::Compare(comparison), octets)),
        Opcode::Widen(widening) => Ok((Instr::Widen(widening), octets)),
        Opcode::Jump(when) => {
            let (distance, rest) = number_at(octets)?;
            Ok((Instr::Jump(when, distance), rest))
        }
        Opcode::Timer(timer_use) => {
            let (number, rest) = number_at(octets)?;
            Ok((Instr::Timer(timer_use, number), rest))
        }
    }
}

/// Reads an instruction of the version.
#[tactic(auto, unfolding(crate::specs::Reading::instr_from))]
pub(crate) fn instr_from(version: Version, octets: &[u8]) -> Result<(Instr, &[u8]), ImageFault>
    ensures { Exact (λ r. (r.0, r.1.now)) result (spec.instr_from version octets.now) }
{
    let (octet, rest) = octet_at(octets)?;
    match Opcode::of(octet) {
        Some(opcode) if opcode.is_known(version) => operand_from(version, opcode, rest),
        _ => Err(ImageFault::BadOpcode),
    }
}

// Returns the instruction at the start of octets, which are the last of code of length `size`, and
// the offset after it, or `None` if the octets spell none.
fn first_instr(size: usize, octets: &[u8]) -> Option<(Instr, usize)>
    requires { length octets.now ≤ size }
    ensures { result ≡ with_next_offset size (spec.instr_from Version.Two octets.now) }
{
    match instr_from(Version::Two, octets) {
        Ok((instr, rest)) => Some((instr, size - rest.len())),
        Err(_) => None,
    }
}

/// Returns the instruction of version 2 at an offset in the code and the offset after it, or `None`
/// if the octets there spell none.
pub fn instr_at(code: &[u8], offset: usize) -> Option<(Instr, usize)>
    ensures value { result ≡ spec.instr_at code.now offset }
    ensures forward { IfSome result (λ r. (offset < r.1) × (r.1 ≤ length code.now)) }
{
    if offset >= code.len() {
        return None;
    }
    first_instr(code.len(), &code[offset..])
}
