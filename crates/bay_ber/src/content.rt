// The contents of the simple types (X.690 8.2, 8.3 and 8.6). Other layers also encode them with
// tags of their own.
ghost use Rattle.std.specs.Prelude.{◌≡◌, ◌+◌, ◌*◌, ◌^◌, ◌<◌, ◌≤◌, ℕ, ℤ, Bool, List, pos, Ok, Err, length, IfOk, IfErr, IsOkAnd, option_map};
ghost use Rattle.std.specs.Result.{result_ok};
ghost use Rattle.bay_ber.specs.Content.{IsInteger, HasBits, IsBits, IsTruth, BitString, integer_in, bits_in, truth_in};
ghost use Rattle.bay_ber.specs.Content as spec;

use crate::fault::BerFault;
use crate::tlv::number_of;

/// The bits of a bit string.
#[derive(Clone, Copy, Debug)]
pub struct Bits<'a> {
    /// The octets of the bits, the first bit in bit 8 of the first octet. The last octet may have
    /// up to seven unused bits, of any value.
    pub octets: &'a [u8],
    /// The number of bits.
    pub count: usize,
}

// Returns the number of values of `count` octets.
fn span(count: usize) -> u128
    requires { count ≤ 9 }
    ensures { result ≡ 256 ^ count }
{
    1 << (8 * count)
}

// Returns the number that octets encode in two's complement.
fn signed_of(octets: &[u8]) -> i128
    requires some { 0 < length octets.now }
    requires few { length octets.now ≤ 9 }
    ensures { result ≡ spec.signed_of octets.now }
{
    let number = number_of(octets) as i128;
    if octets[0] < 0x80 {
        number
    } else {
        number - span(octets.len()) as i128
    }
}

// Decodes the content of an integer.
fn integer_of(content: &[u8]) -> Result<i64, BerFault>
    ensures ok { IfOk result (λ value. IsInteger content.now value) }
    ensures only { (value : ℤ) → IsInteger content.now value → result ≡ Ok value }
    ensures err { IfErr result
        (λ fault. (fault ≡ BerFault.BadContent) × ((value : ℤ) → IsInteger content.now value → ⊥)) }
{
    if content.is_empty() || content.len() > 9 {
        return Err(BerFault::BadContent);
    }
    i64::try_from(signed_of(content)).map_err(|_| BerFault::BadContent)
}

/// Decodes the content of an integer (X.690 8.3): two's complement in 1 to 9 octets, the highest
/// first, within 64 bits. Accepts redundant leading octets, which 8.3.2 forbids a sender to write.
/// Fails with `BadContent` if the content encodes no such value.
pub fn int_of(content: &[u8]) -> Result<i64, BerFault>
    ensures ok { IfOk result (λ value. IsInteger content.now value) }
    ensures only { (value : ℤ) → IsInteger content.now value → result ≡ Ok value }
    ensures err { IfErr result
        (λ fault. (fault ≡ BerFault.BadContent) × ((value : ℤ) → IsInteger content.now value → ⊥)) }
    ensures exact { result_ok result ≡ integer_in content.now }
{
    integer_of(content)
}

// Returns the bits of these octets without the unused ones.
fn bits_of_octets(unused: u8, octets: &[u8]) -> Result<Bits<'_>, BerFault>
    ensures ok { IfOk result
        (λ bits. (bits.octets.now ≡ octets.now) × HasBits unused octets.now bits.count) }
    ensures err { IfErr result
        (λ fault. (fault ≡ BerFault.BadContent)
        × ((count : ℕ) → HasBits unused octets.now count → ⊥)) }
{
    if unused > 7 || octets.len() >= 1 << 61 {
        return Err(BerFault::BadContent);
    }
    let count = (8 * octets.len())
        .checked_sub(unused as usize)
        .ok_or(BerFault::BadContent)?;
    Ok(Bits { octets, count })
}

/// Decodes the content of a bit string (X.690 8.6.2): the number of unused bits, then the octets.
/// Ignores the values of the unused bits. Fails with `BadContent` if the content encodes no bits:
/// if it has no octet, more than 7 unused bits, unused bits without octets, or 2^61 octets of bits
/// or more.
pub fn bits_of(content: &[u8]) -> Result<Bits<'_>, BerFault>
    ensures ok { IfOk result (λ bits. IsBits content.now bits.octets.now bits.count) }
    ensures only { (b : BitString) → IsBits content.now b.octets b.count
        → IsOkAnd result (λ bits. spec.bit_string_view bits ≡ b) }
    ensures err { IfErr result
        (λ fault. (fault ≡ BerFault.BadContent)
        × ((octets : List ℕ) (count : ℕ) → IsBits content.now octets count → ⊥)) }
    ensures exact { option_map spec.bit_string_view (result_ok result) ≡ bits_in content.now }
{
    match content {
        [unused, octets @ ..] => bits_of_octets(*unused, octets),
        [] => Err(BerFault::BadContent),
    }
}

/// Decodes the content of a boolean (X.690 8.2): one octet; 0 is false, anything else is true.
/// Fails with `BadContent` for any other number of octets.
pub fn bool_of(content: &[u8]) -> Result<bool, BerFault>
    ensures ok { IfOk result (λ value. IsTruth content.now value) }
    ensures only { (value : Bool) → IsTruth content.now value → result ≡ Ok value }
    ensures err { IfErr result
        (λ fault. (fault ≡ BerFault.BadContent)
        × ((value : Bool) → IsTruth content.now value → ⊥)) }
    ensures exact { result_ok result ≡ truth_in content.now }
{
    match content {
        [octet] => Ok(*octet != 0),
        _ => Err(BerFault::BadContent),
    }
}
