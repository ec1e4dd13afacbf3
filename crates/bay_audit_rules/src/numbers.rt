// Numbers and times in a line.
ghost use Rattle.std.specs.Prelude.{◌≡◌, ℕ, ◌+◌, ◌^◌, ◌<◌, ◌≤◌, min, length, None, option_map, IfSome, MatchOption};
ghost use Rattle.std.specs.Char.{is_ascii_digit};
ghost use Rattle.std.specs.List.{list_all};
ghost use Rattle.bay_base.specs.Decimals.{digits_in};
ghost use Rattle.bay_audit_rules.specs.Numbers.{number_in, unit_of, time_of, timer_time, time_in};
ghost use Rattle.bay_audit_rules.specs.Pieces.{pieces};
ghost use Rattle.bay_audit_rules.specs.declared.pieces.Cut.TheVariants.{Time};

use crate::pieces::{Cut, split_piece};
use bay_base::decimal::{read_decimal, to_negative, to_positive};
use bay_base::names::same_letters;

// Numbers and times above 2^32 are read as 2^32.
const ENOUGH: u64 = 4_294_967_296;

// Returns a number, or `ENOUGH` if it is larger.
fn cap(number: u64) -> u64
    ensures { result ≡ min (2 ^ 32) number }
{
    if number < ENOUGH { number } else { ENOUGH }
}

// Returns whether each octet is a decimal digit.
fn are_digits(word: &[u8]) -> bool
    ensures { result ≡ list_all is_ascii_digit word.now }
{
    word.iter().all(|octet| octet.is_ascii_digit())
}

// Reads one or more decimal digits; `None` if the word is anything else.
fn read_digits(word: &[u8]) -> Option<u64>
    ensures { result ≡ option_map (min (2 ^ 32)) (digits_in word.now) }
{
    if word.is_empty() || !are_digits(word) {
        return None;
    }
    match read_decimal(word) {
        Some(number) => Some(cap(number)),
        None => Some(ENOUGH),
    }
}

/// Reads a number, with an optional `-` before it; `None` if the word is not a number. A number
/// that does not fit 32 bits with a sign is `Some(None)`.
pub fn read_number(word: &[u8]) -> Option<Option<i32>>
    ensures { result ≡ number_in word.now }
{
    match word {
        [b'-', rest @ ..] => Some(to_negative(read_digits(rest)?)),
        _ => Some(to_positive(read_digits(word)?)),
    }
}

// Returns the length of a unit in milliseconds; `None` if the word is not a unit.
fn unit_milliseconds(word: &[u8]) -> Option<u64>
    ensures { result ≡ unit_of word.now }
{
    if same_letters(word, b"ms") {
        Some(1)
    } else if same_letters(word, b"s") {
        Some(1_000)
    } else if same_letters(word, b"m") {
        Some(60_000)
    } else if same_letters(word, b"h") {
        Some(3_600_000)
    } else if same_letters(word, b"d") {
        Some(86_400_000)
    } else {
        None
    }
}

// Reads a number and its unit, and returns the rest.
fn read_part(word: &[u8]) -> Option<(u64, &[u8])>
    requires { 0 < length word.now }
    ensures read { MatchOption result (time_of (pieces Time word.now) ≡ None)
        (λ part. option_map (min (2 ^ 32)) (time_of (pieces Time word.now))
        ≡ option_map (λ t. min (2 ^ 32) (part.0 + t)) (time_of (pieces Time part.1.now))) }
    ensures less { IfSome result (λ part. length part.1.now < length word.now) }
    ensures few { IfSome result (λ part. part.0 ≤ 2 ^ 32) }
{
    let (number, behind) = split_piece(Cut::Time, word);
    if behind.is_empty() {
        return None;
    }
    let (name, rest) = split_piece(Cut::Time, behind);
    Some((cap(read_digits(number)? * unit_milliseconds(name)?), rest))
}

// Reads a sequence of numbers, each with a unit, as milliseconds.
fn read_milliseconds(word: &[u8]) -> Option<u64>
    ensures { result ≡ option_map (min (2 ^ 32)) (time_of (pieces Time word.now)) }
{
    let mut total = 0;
    let mut rest = word;
    while !rest.is_empty() {
        let (time, behind) = read_part(rest)?;
        total = cap(total + time);
        rest = behind;
    }
    Some(total)
}

// Returns a time that a timer can have; `None` for any other.
fn to_timer_time(time: u64) -> Option<u32>
    ensures { result ≡ timer_time time }
{
    if 0 < time && time < 2_147_483_648 {
        Some(time as u32)
    } else {
        None
    }
}

/// Reads a time, in milliseconds; `None` if the word is not a time. A time that no timer can have
/// is `Some(None)`.
pub fn read_time(word: &[u8]) -> Option<Option<u32>>
    ensures { result ≡ time_in word.now }
{
    Some(to_timer_time(read_milliseconds(word)?))
}
