// The words and signs of rules, and the tokens of a line.
ghost use Rattle.std.specs.Prelude.{◌≡◌, ◌&&◌, ◌||◌, map, find, position, option_copied, option_map, option_and_then, OnOk, IfOk};
ghost use Rattle.std.specs.List.{list_all, before_first};
ghost use Rattle.bay_base.specs.Names.{same_name};
ghost use Rattle.bay_config.specs.Key as key;
ghost use Rattle.bay_audit_rules.specs.Words.{reserved_token, measurand_of, named_in, token_of};
ghost use Rattle.bay_audit_rules.specs.Words as spec;
ghost use Rattle.bay_audit_rules.specs.Meaning.{is_comment, line_tokens};
ghost use Rattle.bay_audit_rules.specs.Meaning as meaning;

use crate::numbers::{read_number, read_time};
use crate::pieces::{Cut, split_piece};
use crate::rule::{Relation, RuleKind};
use crate::token::{Connector, Measurand, NamedObject, RuleToken, TestValue};
use bay_base::names::same_letters;
use bay_base::position::Dbpos;
use bay_config::bay::{Bay, Point, Source, Switch};
use std::alloc::{AllocError, Global};

// All words and signs, in upper case, each once.
const WORDS: [(&[u8], RuleToken); 29] = [
    (b"NEVER", RuleToken::Kind(RuleKind::Never)),
    (b"ALWAYS", RuleToken::Kind(RuleKind::Always)),
    (b"LOOK", RuleToken::Look),
    (b"OPEN", RuleToken::Open),
    (b"CLOSE", RuleToken::Close),
    (b"UNTIL", RuleToken::Since(RuleKind::Never)),
    (b"AFTER", RuleToken::Since(RuleKind::Always)),
    (b"FOR", RuleToken::For),
    (b"WHEN", RuleToken::When),
    (b"AND", RuleToken::Connector(Connector::And)),
    (b"OR", RuleToken::Connector(Connector::Or)),
    (b"NOT", RuleToken::Not),
    (b"IS", RuleToken::Is),
    (
        b"INTERMEDIATE",
        RuleToken::TestValue(TestValue::Position(Dbpos::Intermediate)),
    ),
    (
        b"OFF",
        RuleToken::TestValue(TestValue::Position(Dbpos::Off)),
    ),
    (b"ON", RuleToken::TestValue(TestValue::Position(Dbpos::On))),
    (
        b"CLOSED",
        RuleToken::TestValue(TestValue::Position(Dbpos::On)),
    ),
    (
        b"BAD",
        RuleToken::TestValue(TestValue::Position(Dbpos::Bad)),
    ),
    (b"FALSE", RuleToken::TestValue(TestValue::Truth(false))),
    (b"TRUE", RuleToken::TestValue(TestValue::Truth(true))),
    (b"|", RuleToken::Bar),
    (b"(", RuleToken::Begin),
    (b")", RuleToken::Connector(Connector::End)),
    (b"<", RuleToken::Relation(Relation::Less)),
    (b"<=", RuleToken::Relation(Relation::AtMost)),
    (b"=", RuleToken::Relation(Relation::Equal)),
    (b"<>", RuleToken::Relation(Relation::Unequal)),
    (b">=", RuleToken::Relation(Relation::AtLeast)),
    (b">", RuleToken::Relation(Relation::Greater)),
];

// Returns all words and signs with their spellings.
fn words() -> &'static [(&'static [u8], RuleToken)]
    ensures { map (λ entry. (entry.0.now, entry.1)) result.now ≡ spec.words }
{
    &WORDS
}

// Returns the first entry whose spelling is this word, in letters of either case.
fn entry_of<'a>(
    entries: &'a [(&'static [u8], RuleToken)],
    piece: &[u8],
) -> Option<&'a (&'static [u8], RuleToken)>
    ensures { option_copied result ≡ find (λ entry. same_name piece.now entry.0.now) entries.now }
{
    entries.iter().find(|entry| same_letters(piece, entry.0))
}

// Returns the token of an entry.
fn token_at(entry: Option<&(&'static [u8], RuleToken)>) -> Option<RuleToken>
    ensures { result ≡ option_map (λ one. one.1) (option_copied entry.entry) }
{
    match entry {
        Some(one) => Some(one.1),
        None => None,
    }
}

// Returns the token of a word or a sign, in letters of either case; `None` if there is none.
fn find_reserved(piece: &[u8]) -> Option<RuleToken>
    ensures { result ≡ reserved_token piece.now }
{
    token_at(entry_of(words(), piece))
}

// Returns the input or the measured value of a source; `None` for a point of a switch.
fn measurand(source: Source) -> Option<Measurand>
    ensures { result ≡ measurand_of source }
{
    match source {
        Source::Switch { .. } => None,
        Source::Input { input } => Some(Measurand::Input(input)),
        Source::Meter { meter, field } => Some(Measurand::Measure { meter, field }),
    }
}

// Returns the index of the switch with this id; `None` if there is none.
fn switch_named(switches: &[Switch], name: &[u8]) -> Option<usize>
    ensures { result ≡ position (λ s. same_name name.now s.id) switches.now }
{
    switches
        .iter()
        .position(|switch| same_letters(name, switch.id.as_str().as_bytes()))
}

// Returns the first point with this name; `None` if there is none.
fn point_named<'a>(points: &'a [Point], name: &[u8]) -> Option<&'a Point>
    ensures { option_copied result ≡ find (λ p. same_name name.now p.name) points.now }
{
    points
        .iter()
        .find(|point| same_letters(name, point.name.as_str().as_bytes()))
}

// Returns the input or the measured value of the point with this name; `None` if there is none.
fn measurand_named(points: &[Point], name: &[u8]) -> Option<Measurand>
    ensures { result
        ≡ option_and_then (λ p. measurand_of p.source)
        (find (λ p. same_name name.now p.name) points.now) }
{
    match point_named(points, name) {
        Some(point) => measurand(point.source),
        None => None,
    }
}

// Returns the objects that a name denotes.
fn resolve_name(bay: &Bay, name: &[u8]) -> NamedObject
    ensures { result ≡ named_in bay.now name.now }
{
    NamedObject {
        switch: switch_named(bay.switches.as_slice(), name),
        measurand: measurand_named(bay.points.as_slice(), name),
    }
}

// Returns whether a text begins with a letter.
fn begins_with_letter(text: &[u8]) -> bool
    ensures { result ≡ key.begins_with_letter text.now }
{
    match text {
        [first, ..] => first.is_ascii_alphabetic(),
        [] => false,
    }
}

// Returns whether an octet is a letter, a digit or `_`.
fn is_name_character(octet: u8) -> bool
    ensures { result ≡ key.is_name_character octet }
{
    octet.is_ascii_alphanumeric() || octet == b'_'
}

// Returns whether a text has only letters, digits and `_`.
fn has_name_characters(text: &[u8]) -> bool
    ensures { result ≡ list_all key.is_name_character text.now }
{
    text.iter().all(|octet| is_name_character(*octet))
}

// Returns the token that a piece spells; `None` if it spells none.
fn token_from_piece(bay: &Bay, piece: &[u8]) -> Option<RuleToken>
    ensures { result ≡ token_of bay.now piece.now }
{
    if let Some(token) = find_reserved(piece) {
        return Some(token);
    }
    if let Some(number) = read_number(piece) {
        return Some(RuleToken::TestValue(TestValue::Number(number)));
    }
    if let Some(time) = read_time(piece) {
        return Some(RuleToken::Time(time));
    }
    if begins_with_letter(piece) && has_name_characters(piece) {
        return Some(RuleToken::Name(resolve_name(bay, piece)));
    }
    None
}

// Returns whether a piece is a space, a tab or a carriage return.
fn is_blank(piece: &[u8]) -> bool
    ensures { result ≡ meaning.is_blank_piece piece.now }
{
    matches!(piece, [b' ' | b'\t' | b'\r', ..])
}

// Returns the part of a line before its comment.
fn before_comment(line: &[u8]) -> &[u8]
    ensures { result.now ≡ before_first is_comment line.now }
{
    match line.iter().position(|octet| *octet == b'#') {
        Some(at) => &line[..at],
        None => line,
    }
}

/// Returns the tokens of a line; `None` if a piece of it is not a token. Fails only if an
/// allocation fails.
pub fn tokens_of(
    alloc: Global,
    bay: &Bay,
    line: &[u8],
) -> Result<Option<Vec<RuleToken>>, AllocError>
    ensures { IfOk result (λ tokens. option_map (λ ts. ts.items) tokens
        ≡ line_tokens bay.now line.now) }
{
    let mut tokens = Vec::new(alloc);
    let mut rest = before_comment(line);
    while !rest.is_empty() {
        let (piece, behind) = split_piece(Cut::Line, rest);
        rest = behind;
        if is_blank(piece) {
            continue;
        }
        match token_from_piece(bay, piece) {
            Some(token) => tokens.push(token)?,
            None => return Ok(None),
        }
    }
    Ok(Some(tokens))
}
