// Numbers in decimal digits.
ghost use Rattle.std.specs.Prelude.{◌≡◌, ℕ, Some};
ghost use Rattle.bay_base.specs.Decimals.{positive_of, negative_of, read_number};
ghost use Rattle.bay_base.specs.Decimals as spec;

// A number below this stays below 2^64 with any one digit appended.
const ROOM_FOR_A_DIGIT: u64 = 1_000_000_000_000_000_000;

/// Appends a decimal digit to a number. Returns `None` if the octet is not a digit or the result is
/// 2^64 or more.
pub fn with_digit(number: u64, octet: u8) -> Option<u64>
    ensures { result ≡ spec.with_digit number octet }
{
    if !octet.is_ascii_digit() {
        return None;
    }
    let digit = u64::from(octet - b'0');
    if number < ROOM_FOR_A_DIGIT {
        return Some(number * 10 + digit);
    }
    number.checked_mul(10)?.checked_add(digit)
}

/// Reads a decimal number below 2^64. Leading zeros are allowed, a sign is not. Returns `None` if
/// the word is empty, if it contains anything but digits, or if the number is 2^64 or more.
pub fn read_decimal(word: &[u8]) -> Option<u64>
    ensures { result ≡ read_number word.now }
{
    if word.is_empty() {
        return None;
    }
    let mut number = 0;
    for octet in word {
        number = with_digit(number, *octet)?;
    }
    Some(number)
}

/// Returns the number as a signed value, or `None` if it is 2^31 or more.
pub fn to_positive(number: u64) -> Option<i32>
    ensures { result ≡ positive_of number }
{
    if number < 2_147_483_648 {
        Some(number as i32)
    } else {
        None
    }
}

/// Returns the negated number, or `None` if it is below -2^31.
pub fn to_negative(number: u64) -> Option<i32>
    ensures { result ≡ negative_of number }
{
    if number <= 2_147_483_648 {
        Some((-(number as i64)) as i32)
    } else {
        None
    }
}
