// Lexemes: a blank, a line end, a token, or none of these.
ghost use Rattle.std.specs.Prelude.{◌≡◌, ◌<◌, ◌≤◌, ◌-◌, length, slice_index, slice_range, option_map};
ghost use Rattle.il_text.specs.Symbols as spec;
ghost use Rattle.il_text.specs.TokenViews.{lexeme_data, symbol_of};

use crate::character::{begins_name, begins_word, byte_at, is_blank};
use crate::literal::{LiteralFault, parse_decimal, parse_prefixed, plain_literal, split_at_hash};
use crate::program::{Literal, Operator};
use crate::reserved::{combine, reserved_token};
use crate::token::{Mark, Token};
use bay_base::names::same_letters;

/// A lexeme of a text.
#[derive(Clone, Copy)]
pub(crate) enum Lexeme<'a> {
    /// A space or a tab.
    Blank,
    /// LF, or CR LF.
    LineEnd,
    Token(Token<'a>),
    /// No token.
    BadToken,
    /// A literal outside the range of its type.
    BadLiteral,
}

// The maximum length of a name, in characters.
const MAX_NAME: usize = 64;

// Returns the lexeme of a word that was read as a literal, or of the fault found in it.
fn literal_lexeme<'a>(read: Result<Literal, LiteralFault>) -> Lexeme<'a>
    ensures { lexeme_data result ≡ spec.literal_lexeme read }
{
    match read {
        Ok(value) => Lexeme::Token(Token::Literal(value)),
        Err(LiteralFault::Malformed) => Lexeme::BadToken,
        Err(LiteralFault::OutOfRange) => Lexeme::BadLiteral,
    }
}

// Reads a word that begins with a letter or `_` and has no `#`.
#[tactic(auto, unfolding(crate::specs::Symbols::plain_word))]
fn plain_word(word: &str) -> Lexeme<'_>
    ensures { lexeme_data result ≡ spec.plain_word word.now }
{
    if let Some(token) = reserved_token(word) {
        return Lexeme::Token(token);
    }
    if word.len() <= MAX_NAME {
        Lexeme::Token(Token::Name(word))
    } else {
        Lexeme::BadToken
    }
}

// Reads a name, a reserved word or a literal.
#[tactic(auto, using(crate::proofs::LexemeLemmas::word_rules))]
fn word_lexeme(word: &str) -> Lexeme<'_>
    ensures { lexeme_data result ≡ spec.word word.now }
{
    if let Some((before, after)) = split_at_hash(word) {
        return literal_lexeme(parse_prefixed(before, after));
    }
    if begins_name(byte_at(word.as_bytes(), 0)) {
        plain_word(word)
    } else {
        literal_lexeme(plain_literal(parse_decimal(word.as_bytes())))
    }
}

// Returns the token of a mark, or of `&` or `&N`.
#[tactic(auto, unfolding(crate::specs::Symbols::mark_of))]
fn mark_of<'a>(piece: &[u8]) -> Option<Token<'a>>
    ensures { option_map symbol_of result ≡ spec.mark_of piece.now }
{
    match piece {
        b":" => Some(Token::Mark(Mark::Colon)),
        b":=" => Some(Token::Mark(Mark::Assign)),
        b"," => Some(Token::Mark(Mark::Comma)),
        b";" => Some(Token::Mark(Mark::Semicolon)),
        b"." => Some(Token::Mark(Mark::Dot)),
        b"(" => Some(Token::Mark(Mark::Open)),
        b")" => Some(Token::Mark(Mark::Close)),
        b"&" => Some(Token::Mnemonic(combine(Operator::And, false))),
        _ if same_letters(piece, b"&N") => Some(Token::Mnemonic(combine(Operator::And, true))),
        _ => None,
    }
}

// Returns whether a lexeme is LF or CR LF.
fn is_line_end(piece: &[u8]) -> bool
    ensures { result ≡ spec.is_line_end piece.now }
{
    matches!(piece, b"\n" | b"\r\n")
}

/// Returns the lexeme of the text from `start` to `end`.
pub(crate) fn lexeme_at(text: &str, start: usize, end: usize) -> Lexeme<'_>
    requires after { start < end }
    requires within { end ≤ length text.now }
    requires ascii { slice_index text.now start < 128 → slice_index text.now (end - 1) < 128 }
    ensures { lexeme_data result ≡ spec.lexeme_of (slice_range text.now start end) }
{
    let bytes = text.as_bytes();
    let first = bytes[start];
    if is_blank(first) {
        return Lexeme::Blank;
    }
    let piece = &bytes[start..end];
    if is_line_end(piece) {
        return Lexeme::LineEnd;
    }
    if begins_word(first) {
        return word_lexeme(&text[start..end]);
    }
    match mark_of(piece) {
        Some(token) => Lexeme::Token(token),
        None => Lexeme::BadToken,
    }
}
