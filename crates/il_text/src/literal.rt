// Numeric, truth and duration literals.
ghost use Rattle.std.specs.Prelude.{◌≡◌, ◌≤◌, ◌<◌, ◌+◌, ◌*◌, ◌^◌, Option, length, min, option_map, option_and_then, IfSome};
ghost use Rattle.std.specs.Char.{is_ascii_alphabetic};
ghost use Rattle.std.specs.List.{prefix_len};
ghost use Rattle.il_text.specs.Durations.{duration_view, capped_duration, capped_time};
ghost use Rattle.il_text.specs.Literals as spec;
ghost use Rattle.il_text.specs.Runs.{capped_number, capped_signed};

use crate::character::byte_at;
use crate::program::Literal;
use bay_base::names::{same_letters, same_name};
use thiserror::Error;

/// Why a word is not a literal.
#[derive(Clone, Copy, Debug, Error)]
pub enum LiteralFault {
    /// It does not have the form of a literal.
    #[error("a word has not the form of a literal")]
    Malformed,
    /// It has the form of a literal, but its value is outside its type.
    #[error("the value of a literal is outside its type")]
    OutOfRange,
}

// The cap on milliseconds: greater totals count as this one, which no TIME has.
const CAP: u64 = 0x1_0000_0000;

// Reads the number that digits spell, with single underscores allowed between them.
#[tactic(auto, using(crate::proofs::LiteralLemmas::number_rules))]
fn parse_digits(digits: &[u8], radix: u32) -> Option<u64>
    requires low { 2 ≤ radix }
    requires high { radix ≤ 16 }
    ensures { result ≡ capped_number (spec.number radix digits.now) }
{
    let mut value = 0u64;
    let mut wanted = true;
    for byte in digits {
        if !wanted && *byte == b'_' {
            wanted = true;
        } else {
            let digit = char::from(*byte).to_digit(radix)?;
            value = value
                .saturating_mul(u64::from(radix))
                .saturating_add(u64::from(digit));
            wanted = false;
        }
    }
    if wanted { None } else { Some(value) }
}

// Reads the base before `#`: 2, 8 or 16.
#[tactic(auto, unfolding(crate::specs::Literals::base_of))]
fn base_of(word: &str) -> Option<u32>
    ensures value { result ≡ spec.base_of word.now }
    ensures low { IfSome result (λ base. 2 ≤ base) }
    ensures high { IfSome result (λ base. base ≤ 16) }
{
    if same_name(word, "2") {
        return Some(2);
    }
    if same_name(word, "8") {
        return Some(8);
    }
    if same_name(word, "16") {
        return Some(16);
    }
    None
}

/// Reads a decimal number with an optional sign: whether it is negative, and its magnitude.
#[tactic(auto, unfolding(crate::specs::Literals::decimal))]
pub(crate) fn parse_decimal(word: &[u8]) -> Option<(bool, u64)>
    ensures { result ≡ capped_signed (spec.decimal word.now) }
{
    match word {
        [b'-', digits @ ..] => Some((true, parse_digits(digits, 10)?)),
        [b'+', digits @ ..] => Some((false, parse_digits(digits, 10)?)),
        _ => Some((false, parse_digits(word, 10)?)),
    }
}

// Reads a number after its base. It has no sign.
#[tactic(auto, unfolding(crate::specs::Literals::based_integer))]
fn parse_based(base: &str, digits: &str) -> Option<(bool, u64)>
    ensures { result ≡ capped_signed (spec.based_integer base.now digits.now) }
{
    let radix = base_of(base)?;
    Some((false, parse_digits(digits.as_bytes(), radix)?))
}

/// Splits a word at its first `#`.
pub(crate) fn split_at_hash(word: &str) -> Option<(&str, &str)>
    ensures { option_map (λ h. (h.0.now, h.1.now)) result ≡ spec.split_at_hash word.now }
{
    word.split_once('#')
}

// Reads a number with a sign or after a base: whether it is negative, and its magnitude.
#[tactic(auto, using(crate::proofs::LiteralLemmas::integer_some, crate::proofs::LiteralLemmas::integer_none))]
fn parse_integer(word: &str) -> Option<(bool, u64)>
    ensures { result ≡ capped_signed (spec.integer word.now) }
{
    match split_at_hash(word) {
        Some((base, digits)) => parse_based(base, digits),
        None => parse_decimal(word.as_bytes()),
    }
}

// Returns the value of a number, which must fit in 64 bits.
fn number_value(number: Option<(bool, u64)>) -> Result<i64, LiteralFault>
    ensures { result ≡ spec.number_value number }
{
    match number {
        None => Err(LiteralFault::Malformed),
        Some((false, magnitude)) if magnitude <= 0x7FFF_FFFF_FFFF_FFFF => Ok(magnitude as i64),
        Some((true, 0)) => Ok(0),
        Some((true, magnitude)) if magnitude <= 0x8000_0000_0000_0000 => {
            Ok(-1 - (magnitude - 1) as i64)
        }
        _ => Err(LiteralFault::OutOfRange),
    }
}

/// Returns the literal of a number without a type.
#[tactic(auto, unfolding(crate::specs::Literals::plain_literal))]
pub(crate) fn plain_literal(number: Option<(bool, u64)>) -> Result<Literal, LiteralFault>
    ensures { result ≡ spec.plain_literal number }
{
    Ok(Literal::Number(number_value(number)?))
}

// Returns the BOOL of a number, which must be 0 or 1.
fn bool_literal(value: i64) -> Result<Literal, LiteralFault>
    ensures { result ≡ spec.bool_literal value }
{
    match value {
        0 => Ok(Literal::Truth(false)),
        1 => Ok(Literal::Truth(true)),
        _ => Err(LiteralFault::OutOfRange),
    }
}

// Returns the INT of a number.
fn int_literal(value: i64) -> Result<Literal, LiteralFault>
    ensures { result ≡ spec.int_literal value }
{
    if -32_768 <= value && value <= 32_767 {
        Ok(Literal::Int(value as i16))
    } else {
        Err(LiteralFault::OutOfRange)
    }
}

// Returns the DINT of a number.
fn dint_literal(value: i64) -> Result<Literal, LiteralFault>
    ensures { result ≡ spec.dint_literal value }
{
    if -2_147_483_648 <= value && value <= 2_147_483_647 {
        Ok(Literal::Dint(value as i32))
    } else {
        Err(LiteralFault::OutOfRange)
    }
}

// Returns the truth value that a word names, case-insensitively.
fn truth_of(word: &str) -> Option<bool>
    ensures { result ≡ spec.truth_of word.now }
{
    if same_name(word, "TRUE") {
        return Some(true);
    }
    if same_name(word, "FALSE") {
        return Some(false);
    }
    None
}

// Reads the number after a numeric type's `#`. A truth value is outside the type.
#[tactic(auto, using(crate::proofs::LiteralLemmas::signed_capped), unfolding(crate::specs::Literals::typed_number))]
fn typed_number(word: &str) -> Result<i64, LiteralFault>
    ensures { result ≡ spec.typed_number word.now }
{
    match truth_of(word) {
        Some(_) => Err(LiteralFault::OutOfRange),
        None => number_value(parse_integer(word)),
    }
}

// Reads what follows `BOOL#`: TRUE, FALSE, 0 or 1.
#[tactic(auto, using(crate::proofs::LiteralLemmas::signed_capped), unfolding(crate::specs::Literals::typed_bool))]
fn typed_bool(word: &str) -> Result<Literal, LiteralFault>
    ensures { result ≡ spec.typed_bool word.now }
{
    if let Some(value) = truth_of(word) {
        return Ok(Literal::Truth(value));
    }
    bool_literal(number_value(parse_integer(word))?)
}

// Reads what follows `INT#`.
#[tactic(auto, unfolding(crate::specs::Literals::typed_int))]
fn typed_int(word: &str) -> Result<Literal, LiteralFault>
    ensures { result ≡ spec.typed_int word.now }
{
    int_literal(typed_number(word)?)
}

// Reads what follows `DINT#`.
#[tactic(auto, unfolding(crate::specs::Literals::typed_dint))]
fn typed_dint(word: &str) -> Result<Literal, LiteralFault>
    ensures { result ≡ spec.typed_dint word.now }
{
    dint_literal(typed_number(word)?)
}

// Reads what follows `LINT#`.
#[tactic(auto, unfolding(crate::specs::Literals::typed_lint))]
fn typed_lint(word: &str) -> Result<Literal, LiteralFault>
    ensures { result ≡ spec.typed_lint word.now }
{
    Ok(Literal::Lint(typed_number(word)?))
}

/// Reads a literal, given the texts before and after its first `#`.
#[tactic(auto, using(crate::proofs::LiteralLemmas::untyped_capped), unfolding(crate::specs::Literals::prefixed_literal))]
pub(crate) fn parse_prefixed(before: &str, word: &str) -> Result<Literal, LiteralFault>
    ensures { result ≡ spec.prefixed_literal before.now word.now }
{
    if same_name(before, "BOOL") {
        return typed_bool(word);
    }
    if same_name(before, "INT") {
        return typed_int(word);
    }
    if same_name(before, "DINT") {
        return typed_dint(word);
    }
    if same_name(before, "LINT") {
        return typed_lint(word);
    }
    if same_name(before, "T") || same_name(before, "TIME") {
        return typed_time(word.as_bytes());
    }
    plain_literal(parse_based(before, word))
}

// A duration as it is read: the rest of the text, the milliseconds so far, and whether a part was
// read.
#[derive(Clone, Copy)]
struct Duration<'a> {
    rest: &'a [u8],
    total: u64,
    begun: bool,
}

// Counts the digits and `_` at the start of the word.
fn number_len(word: &[u8]) -> usize
    ensures len { result ≡ spec.number_len word.now }
    ensures within { result ≤ length word.now }
{
    word.iter()
        .take_while(|x| x.is_ascii_digit() || **x == b'_')
        .count()
}

// Counts the letters at the start of the word.
fn letter_len(word: &[u8]) -> usize
    ensures len { result ≡ prefix_len is_ascii_alphabetic word.now }
    ensures within { result ≤ length word.now }
{
    word.iter().take_while(|x| x.is_ascii_alphabetic()).count()
}

// Reads the number of a part. After the first part, an `_` may precede it.
fn part_number(digits: &[u8], begun: bool) -> Option<u64>
    ensures { result ≡ capped_number (spec.number_of_part begun digits.now) }
{
    match digits {
        [b'_', rest @ ..] if begun => parse_digits(rest, 10),
        _ => parse_digits(digits, 10),
    }
}

// Adds a number of units, of `factor` milliseconds each, to a total, up to the cap.
fn add_capped(total: u64, number: u64, factor: u64) -> u64
    requires { factor < 2 ^ 31 }
    ensures { result ≡ min (min total (2 ^ 32) + min number (2 ^ 32) * factor) (2 ^ 32) }
{
    (total.min(CAP) + number.min(CAP) * factor).min(CAP)
}

// Reads the part in this unit, if it comes first.
#[tactic(auto, using(crate::proofs::DurationLemmas::part_rules))]
fn parse_part<'a>(duration: Option<Duration<'a>>, unit: &[u8], factor: u64) -> Option<Duration<'a>>
    requires some { 0 < factor }
    requires small { factor < 2 ^ 31 }
    ensures { (before : Option spec.Duration)
        → capped_duration before ≡ option_map duration_view duration.entry
        → capped_duration (option_and_then (spec.part unit.now factor) before)
        ≡ option_map duration_view result }
{
    let duration = duration?;
    let (digits, tail) = duration.rest.split_at(number_len(duration.rest));
    let (letters, rest) = tail.split_at(letter_len(tail));
    if !same_letters(letters, unit) {
        return Some(duration);
    }
    let number = part_number(digits, duration.begun)?;
    Some(Duration {
        rest,
        total: add_capped(duration.total, number, factor),
        begun: true,
    })
}

// Reads the parts of a duration in descending units. A number may exceed one of the next greater
// unit.
fn parse_parts(word: &[u8]) -> Option<Duration<'_>>
    ensures { capped_duration (spec.parts word.now) ≡ option_map duration_view result }
{
    let whole = Duration {
        rest: word,
        total: 0,
        begun: false,
    };
    let days = parse_part(Some(whole), b"d", 86_400_000);
    let hours = parse_part(days, b"h", 3_600_000);
    let minutes = parse_part(hours, b"m", 60_000);
    let seconds = parse_part(minutes, b"s", 1_000);
    parse_part(seconds, b"ms", 1)
}

// Returns the milliseconds of a duration: at least one part, and nothing after the parts.
fn parse_milliseconds(word: &[u8]) -> Option<u64>
    ensures { result ≡ capped_time (spec.milliseconds word.now) }
{
    let Some(last) = parse_parts(word) else {
        return None;
    };
    if last.begun && last.rest.is_empty() {
        Some(last.total)
    } else {
        None
    }
}

// Reads what follows `T#` or `TIME#`.
#[tactic(auto, using(crate::proofs::DurationLemmas::time_capped), unfolding(crate::specs::Literals::typed_time))]
fn typed_time(word: &[u8]) -> Result<Literal, LiteralFault>
    ensures { result ≡ spec.typed_time word.now }
{
    time_literal(parse_milliseconds(word))
}

// Returns the TIME of a number of milliseconds, at most 2,147,483,647.
fn time_literal(milliseconds: Option<u64>) -> Result<Literal, LiteralFault>
    ensures { result ≡ spec.time_literal milliseconds }
{
    match milliseconds {
        None => Err(LiteralFault::Malformed),
        Some(total) if total <= 2_147_483_647 => Ok(Literal::Time(total as u32)),
        Some(_) => Err(LiteralFault::OutOfRange),
    }
}
