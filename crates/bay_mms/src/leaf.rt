// Writing the data and the type of a leaf.
ghost use Rattle.std.specs.Prelude.{[], ◌∷◌, ◌≡◌};
ghost use Rattle.bay_ber.specs.EncoderBuffers.{buffer_with};
ghost use Rattle.bay_mms.specs.Float as float;
ghost use Rattle.bay_mms.specs.Utc as spec;
ghost use Rattle.bay_ber.specs.Tags.{context};
ghost use Rattle.bay_mms.specs.Data.{bits, other, utc, position_octet, quality_octet, datum_text, leaf_datum};
ghost use Rattle.bay_mms.specs.Types.{type_text, leaf_type_spec};

use bay_base::position::Dbpos;
use bay_ber::tag::Tag;
use bay_ber::writer::Writer;
use bay_tree::leaf::{Leaf, Quality};
use std::num::{f32_to_bits_with_nan, nearest_i64_to_f32};

/// Converts a time in milliseconds since 1970 to a utc-time (IEC 61850-8-1, the mapping of
/// TimeStamp): four octets of seconds, three octets of the fraction of a second rounded down, and
/// the quality 2A. The seconds are counted modulo 2^32.
pub(crate) fn utc_octets(ms: u64) -> [u8; 8]
    ensures { result ≡ spec.utc_octets ms }
{
    let seconds = (ms / 1000 % 0x1_0000_0000) as u32;
    let fraction = (ms % 1000 * 0x100_0000 / 1000) as u32;
    let [s1, s2, s3, s4] = seconds.to_be_bytes();
    let [_, f1, f2, f3] = fraction.to_be_bytes();
    [s1, s2, s3, s4, f1, f2, f3, 0x2A]
}

/// Returns the width of the exponent, 8 bits, and the four octets of the float that is nearest to a
/// number (IEEE 754, binary32).
pub(crate) fn float_octets(number: i32) -> [u8; 5]
    ensures { result ≡ float.float_octets number }
{
    let nearest = nearest_i64_to_f32(i64::from(number));
    let [f1, f2, f3, f4] = f32_to_bits_with_nan(nearest).to_be_bytes();
    [8, f1, f2, f3, f4]
}

/// Returns the octet of the two bits of a position.
pub(crate) fn position_octets(position: Dbpos) -> &'static [u8]
    ensures { result.now ≡ position_octet position ∷ [] }
{
    match position {
        Dbpos::Intermediate => &[0x00],
        Dbpos::Off => &[0x40],
        Dbpos::On => &[0x80],
        Dbpos::Bad => &[0xC0],
    }
}

/// Returns the octets of the thirteen bits of a quality.
pub(crate) fn quality_octets(quality: Quality) -> &'static [u8]
    ensures { result.now ≡ quality_octet quality ∷ 0 ∷ [] }
{
    match quality {
        Quality::Good => &[0x00, 0x00],
        Quality::Invalid => &[0x40, 0x00],
    }
}

// Returns the text of a position.
#[tactic(auto, unfolding(bay_ber::specs::Writing::element, bay_ber::specs::Writing::length_octets))]
fn position_text(position: Dbpos) -> &'static [u8]
    ensures { result.now ≡ datum_text (bits (position_octet position ∷ []) 2) }
{
    match position {
        Dbpos::Intermediate => &[0x84, 2, 6, 0x00],
        Dbpos::Off => &[0x84, 2, 6, 0x40],
        Dbpos::On => &[0x84, 2, 6, 0x80],
        Dbpos::Bad => &[0x84, 2, 6, 0xC0],
    }
}

// Returns the text of a quality.
#[tactic(auto, unfolding(bay_ber::specs::Writing::element, bay_ber::specs::Writing::length_octets))]
fn quality_text(quality: Quality) -> &'static [u8]
    ensures { result.now ≡ datum_text (bits (quality_octet quality ∷ 0 ∷ []) 13) }
{
    match quality {
        Quality::Good => &[0x84, 3, 3, 0x00, 0x00],
        Quality::Invalid => &[0x84, 3, 3, 0x40, 0x00],
    }
}

// Returns the text of a moment in milliseconds since 1970.
#[tactic(auto, unfolding(bay_ber::specs::Writing::element, bay_ber::specs::Writing::length_octets))]
fn utc_text(ms: u64) -> [u8; 10]
    ensures { result ≡ datum_text (utc (spec.utc_octets ms)) }
{
    let [s1, s2, s3, s4, f1, f2, f3, quality] = utc_octets(ms);
    [0x91, 8, s1, s2, s3, s4, f1, f2, f3, quality]
}

// Returns the text of the float that is nearest to a number.
#[tactic(auto, unfolding(bay_ber::specs::Writing::element, bay_ber::specs::Writing::length_octets))]
fn float_text(number: i32) -> [u8; 7]
    ensures { result ≡ datum_text (other (context 7) (float.float_octets number)) }
{
    let [width, f1, f2, f3, f4] = float_octets(number);
    [0x87, 5, width, f1, f2, f3, f4]
}

/// Appends the data of a leaf.
pub(crate) fn put_leaf(writer: &mut Writer, leaf: &Leaf)
    ensures { writer.new ≡ buffer_with writer.old (datum_text (leaf_datum leaf.now)) }
{
    match leaf {
        Leaf::Truth(value) => writer.boolean(Tag::context(3), *value),
        Leaf::Dbpos(value) => writer.append(position_text(*value)),
        Leaf::Quality(value) => writer.append(quality_text(*value)),
        Leaf::Int8(value) => writer.int(Tag::context(5), i64::from(*value)),
        Leaf::Int32(value) => writer.int(Tag::context(5), i64::from(*value)),
        Leaf::Unsigned8(value) => writer.int(Tag::context(6), i64::from(*value)),
        Leaf::Unsigned32(value) => writer.int(Tag::context(6), i64::from(*value)),
        Leaf::Float(number) => writer.append(&float_text(*number)),
        Leaf::Octets(value) => writer.octets(Tag::context(9), value.as_slice()),
        Leaf::Reference(value) => writer.text(Tag::context(10), value.as_str()),
        Leaf::Text(value) => writer.text(Tag::context(10), value.as_str()),
        Leaf::Utc(ms) => writer.append(&utc_text(*ms)),
    }
}

/// Appends the type of a leaf.
#[tactic(auto, unfolding(bay_ber::specs::Writing::element, bay_ber::specs::Writing::length_octets))]
pub(crate) fn put_leaf_type(writer: &mut Writer, leaf: &Leaf)
    ensures { writer.new ≡ buffer_with writer.old (type_text (leaf_type_spec leaf.now)) }
{
    match leaf {
        Leaf::Truth(_) => writer.append(&[0x83, 0]),
        Leaf::Dbpos(_) => writer.append(&[0x84, 1, 2]),
        Leaf::Quality(_) => writer.append(&[0x84, 1, 13]),
        Leaf::Int8(_) => writer.append(&[0x85, 1, 8]),
        Leaf::Int32(_) => writer.append(&[0x85, 1, 32]),
        Leaf::Unsigned8(_) => writer.append(&[0x86, 1, 8]),
        Leaf::Unsigned32(_) => writer.append(&[0x86, 1, 32]),
        // 32 bits, of which 8 are the exponent.
        Leaf::Float(_) => writer.append(&[0xA7, 6, 2, 1, 32, 2, 1, 8]),
        // A negative size is a maximum: at most 64, 129 and 255.
        Leaf::Octets(_) => writer.append(&[0x89, 1, 0xC0]),
        Leaf::Reference(_) => writer.append(&[0x8A, 2, 0xFF, 0x7F]),
        Leaf::Text(_) => writer.append(&[0x8A, 2, 0xFF, 0x01]),
        Leaf::Utc(_) => writer.append(&[0x91, 0]),
    }
}
