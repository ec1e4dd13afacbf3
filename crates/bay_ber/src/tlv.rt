// Reading the tag, length and content that octets begin with.
ghost use Rattle.std.specs.Prelude.{◌≡◌, ◌+◌, ◌*◌, ◌^◌, ◌<◌, ◌≤◌, ◌==◌, ◌↔◌, Ok, Err, length, IfOk, IsOkAnd};
ghost use Rattle.bay_ber.specs.Octets as spec_octets;
ghost use Rattle.bay_base.specs.Results.{Exact};
ghost use Rattle.bay_ber.specs.Reading.{TlvData, BeginsWithTlv, HasLargeTag, IsIndefinite, HasLongLength, IsTruncated, tlv_data};
ghost use Rattle.bay_ber.specs.Reading as spec;

use crate::fault::BerFault;
use crate::tag::{Class, Tag};

/// The value that octets begin with, and the octets after it.
#[derive(Clone, Copy)]
pub struct Tlv<'a> {
    /// The tag.
    pub tag: Tag,
    /// The octets of the content.
    pub content: &'a [u8],
    /// The octets after the value.
    pub rest: &'a [u8],
}

// Returns the class of a tag: the two highest bits of its first octet.
fn class_of(first: u8) -> Class
    ensures { result ≡ spec.class_of first }
{
    match first {
        0x00..=0x3F => Class::Universal,
        0x40..=0x7F => Class::Application,
        0x80..=0xBF => Class::ContextSpecific,
        0xC0..=0xFF => Class::Private,
    }
}

// Returns whether a value is constructed: the third highest bit of its first octet.
fn is_constructed(first: u8) -> bool
    ensures { result ≡ spec.is_constructed first }
{
    (first >> 5) & 1 == 1
}

// Returns the number of a tag, or 31 if the number follows in further octets.
fn low_bits(first: u8) -> u8
    ensures { result ≡ spec.low_bits first }
{
    first & 0x1F
}

// Reads the tag that octets begin with, and returns the octets after it (X.690 8.1.2).
#[tactic(auto, unfolding(crate::specs::Reading::tag_at))]
fn tag_at(octets: &[u8]) -> Result<(Tag, &[u8]), BerFault>
    ensures { Exact (λ x. (x.0, x.1.now)) result (spec.tag_at octets.now) }
{
    let (first, rest) = match octets {
        [] => return Err(BerFault::Truncated),
        [first, rest @ ..] => (*first, rest),
    };
    let class = class_of(first);
    let constructed = is_constructed(first);
    let number = low_bits(first);
    if number != 31 {
        return Ok((
            Tag {
                class,
                constructed,
                number,
            },
            rest,
        ));
    }
    match rest {
        [] => Err(BerFault::Truncated),
        [number, rest @ ..] if *number < 128 => Ok((
            Tag {
                class,
                constructed,
                number: *number,
            },
            rest,
        )),
        [_, ..] => Err(BerFault::TagTooLarge),
    }
}

/// Returns the number that the octets encode, the highest octet first.
pub(crate) fn number_of(octets: &[u8]) -> u128
    requires { length octets.now ≤ 9 }
    ensures value { result ≡ spec_octets.number_of octets.now }
    ensures below { result < 256 ^ length octets.now }
{
    let mut number = 0;
    for octet in octets {
        number = number * 256 + u128::from(*octet);
    }
    number
}

// Reads the length that octets begin with, and returns the octets after it (X.690 8.1.3).
#[tactic(auto, unfolding(crate::specs::Reading::length_at))]
fn length_at(octets: &[u8]) -> Result<(usize, &[u8]), BerFault>
    ensures { Exact (λ x. (x.0, x.1.now)) result (spec.length_at octets.now) }
{
    let (first, rest) = match octets {
        [] => return Err(BerFault::Truncated),
        [first, rest @ ..] => (*first, rest),
    };
    if first < 0x80 {
        return Ok((first as usize, rest));
    }
    if first == 0x80 {
        return Err(BerFault::Indefinite);
    }
    if first > 0x84 {
        return Err(BerFault::LengthTooLong);
    }
    let count = (first - 0x80) as usize;
    if rest.len() < count {
        return Err(BerFault::Truncated);
    }
    let (octets, rest) = rest.split_at(count);
    Ok((number_of(octets) as usize, rest))
}

// Reads the value that octets begin with: its tag, its length and its content.
#[tactic(auto, unfolding(crate::specs::Reading::tlv_at))]
fn tlv_at(octets: &[u8]) -> Result<Tlv<'_>, BerFault>
    ensures { Exact tlv_data result (spec.tlv_at octets.now) }
{
    let (tag, rest) = tag_at(octets)?;
    let (length, rest) = length_at(rest)?;
    if rest.len() < length {
        return Err(BerFault::Truncated);
    }
    let (content, rest) = rest.split_at(length);
    Ok(Tlv { tag, content, rest })
}

/// Reads the value that the octets begin with (X.690 8.1); its content and the rest are slices of
/// them. Reads tag numbers up to 127 and lengths of one to five octets. Accepts more than X.690
/// allows: a number below 31 may also use a second tag octet (8.1.2.2 and 8.1.2.4 put it in the
/// first), and a length may have more octets than it needs, which 8.1.3.5 leaves to the sender.
///
/// Fails with `TagTooLarge` if the number of the tag is 128 or more, with `Indefinite` if the
/// length has the indefinite form, with `LengthTooLong` if the length has more than four octets
/// after its first, and with `Truncated` if the octets end before the end of the value.
pub fn read_tlv(octets: &[u8]) -> Result<Tlv<'_>, BerFault>
    // The value read is encoded by a prefix of the octets, and any value so encoded is read.
    ensures ok { IfOk result (λ tlv. BeginsWithTlv octets.now (tlv_data tlv)) }
    ensures only { (r : TlvData) → BeginsWithTlv octets.now r
        → IsOkAnd result (λ tlv. tlv_data tlv ≡ r) }
    ensures shorter { IfOk result
        (λ tlv. length tlv.content.now + length tlv.rest.now + 2 ≤ length octets.now) }
    // Each fault, exactly when it occurs.
    ensures large_tag { (result ≡ Err BerFault.TagTooLarge) ↔ HasLargeTag octets.now }
    ensures indefinite { (result ≡ Err BerFault.Indefinite) ↔ IsIndefinite octets.now }
    ensures long_length { (result ≡ Err BerFault.LengthTooLong) ↔ HasLongLength octets.now }
    ensures truncated { (result ≡ Err BerFault.Truncated) ↔ IsTruncated octets.now }
    // The result as a function that reads from the left.
    ensures exact { Exact tlv_data result (spec.tlv_at octets.now) }
{
    tlv_at(octets)
}
