// Finds where the lexemes of a text and its comments end.
ghost use Rattle.std.specs.Prelude.{◌≡◌, ◌+◌, ◌-◌, ◌<◌, ◌≤◌, ◌∷◌, true, false, length, drop, slice_index, slice_range};
ghost use Rattle.il_text.specs.Lexemes as spec;
ghost use Rattle.il_text.specs.Runs.{IsRun, IsFirstLexeme};
ghost use Rattle.il_text.specs.Runs as spec_runs;

use crate::character::{byte_at, is_linked};

/// Returns whether a comment begins at the index.
pub(crate) fn opens_comment(bytes: &[u8], at: usize) -> bool
    requires { at < length bytes.now }
    ensures { result ≡ spec.opens_comment (drop at bytes.now) }
{
    bytes[at] == b'(' && byte_at(bytes, at + 1) == b'*'
}

/// Returns whether a comment ends at the index.
pub(crate) fn ends_comment(bytes: &[u8], at: usize) -> bool
    requires { at < length bytes.now }
    ensures { result ≡ spec.ends_comment (drop at bytes.now) }
{
    bytes[at] == b'*' && byte_at(bytes, at + 1) == b')'
}

/// Returns whether a comment ends at the index or later.
#[tactic(auto, using(crate::proofs::PieceLemmas::closes_rules))]
pub(crate) fn ends_later(bytes: &[u8], at: usize) -> bool
    ensures { result ≡ spec.ends_later (drop at bytes.now) }
{
    for i in at..bytes.len() {
        if ends_comment(bytes, i) {
            return true;
        }
    }
    false
}

// Returns the end of the longest run in which each character is linked to the one before it.
#[tactic(auto, using(crate::proofs::PieceLemmas::run_rules))]
fn run_end(bytes: &[u8], start: usize) -> usize
    requires { start < length bytes.now }
    ensures { IsRun bytes.now start result }
{
    for end in start + 1..bytes.len() {
        if !is_linked(bytes[end - 1], bytes[end]) {
            return end;
        }
    }
    bytes.len()
}

// Returns whether `&N` is at the index and no letter, digit, `_` or `#` follows it.
#[tactic(auto, unfolding(crate::specs::Runs::is_negated_and))]
fn is_negated_and(bytes: &[u8], at: usize) -> bool
    requires { at < length bytes.now }
    ensures { result ≡ spec_runs.is_negated_and bytes.now at }
{
    bytes[at] == b'&'
        && byte_at(bytes, at + 1).to_ascii_uppercase() == b'N'
        && !is_linked(byte_at(bytes, at + 1), byte_at(bytes, at + 2))
}

/// Returns the end of the lexeme that begins at `start`. No comment may begin there.
#[tactic(auto, using(crate::proofs::CutLemmas::piece_rules))]
pub(crate) fn lexeme_end(bytes: &[u8], start: usize) -> usize
    requires within { start < length bytes.now }
    requires plain { spec.opens_comment (drop start bytes.now) ≡ false }
    ensures after { start < result }
    ensures within { result ≤ length bytes.now }
    ensures ascii { slice_index bytes.now start < 128 → slice_index bytes.now (result - 1) < 128 }
    ensures piece { IsFirstLexeme bytes.now start result }
{
    if is_negated_and(bytes, start) {
        return start + 2;
    }
    run_end(bytes, start)
}
