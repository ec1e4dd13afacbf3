// Values of BER: what octets encode, and whether the writer encodes it with the same octets.
ghost use Rattle.std.specs.Prelude.{◌<◌};

use anyhow::Result;
use bay_ber::content::{bits_of, bool_of, int_of};
use bay_ber::outgoing::Outgoing;
use bay_ber::tlv::{Tlv, read_tlv};
use bay_ber::writer::Writer;
use std::alloc::{AllocError, Global};

// Writes a value of a kind. Returns `None` if the content is none of this kind.
fn encode_value(alloc: Global, kind: &str, tlv: Tlv<'_>) -> Result<Option<Outgoing>, AllocError>
    requires { tlv.tag.number < 31 }
{
    let mut writer = Writer::new(alloc, 100_000)?;
    match (
        kind,
        int_of(tlv.content),
        bool_of(tlv.content),
        bits_of(tlv.content),
    ) {
        ("int", Ok(number), _, _) => writer.int(tlv.tag, number),
        ("bool", _, Ok(truth), _) => writer.boolean(tlv.tag, truth),
        ("bits", _, _, Ok(bits)) => writer.bits(tlv.tag, bits),
        ("front", _, _, _) => writer.octets(tlv.tag, tlv.content),
        _ => return Ok(None),
    }
    Ok(writer.finish())
}

/// Returns the first value of octets: its tag, or the integer, the truth value or the bits that it
/// encodes; whether the writer encodes it so; and the octets after it, and those of its content.
pub fn value(alloc: Global, kind: &str, octets: &[u8]) -> Result<String> {
    let tlv = match read_tlv(octets) {
        Ok(tlv) => tlv,
        Err(fault) => return Ok(format!(in alloc; "{} {fault}", fault.code())?),
    };
    let mut is_written = false;
    if tlv.tag.number < 31 {
        is_written = encode_value(alloc, kind, tlv)?.is_some_and(|it| octets.starts_with(
            it.as_slice(),
        ));
    }
    let text = match kind {
        "int" => format!(in alloc; "{:?}", int_of(tlv.content)),
        "bool" => format!(in alloc; "{:?}", bool_of(tlv.content)),
        "bits" => format!(in alloc; "{:?}", bits_of(tlv.content)),
        _ => format!(in alloc; "{:?}", tlv.tag),
    }?;
    let (content, rest) = (
        hex::encode(alloc, tlv.content)?,
        hex::encode(alloc, tlv.rest)?,
    );
    Ok(format!(in alloc; "{text} {is_written} {rest}|{content}")?)
}
