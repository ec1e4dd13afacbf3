// The characters of tokens.
ghost use Rattle.std.specs.Prelude.{◌≡◌, ◌<◌, true, slice_index};
ghost use Rattle.il_text.specs.Characters as spec;

/// Returns whether a character is a space or a tab.
pub(crate) fn is_blank(x: u8) -> bool
    ensures { result ≡ spec.is_blank x }
{
    x == b' ' || x == b'\t'
}

/// Returns whether a character is `+` or `-`, the sign of a number.
pub(crate) fn is_sign(x: u8) -> bool
    ensures { result ≡ spec.is_sign x }
{
    x == b'+' || x == b'-'
}

/// Returns whether a character is a letter, a digit, `_` or `#`.
pub(crate) fn is_word(x: u8) -> bool
    ensures { result ≡ spec.is_word x }
{
    x.is_ascii_alphanumeric() || (x == b'_' || x == b'#')
}

/// Returns whether a character may begin a word: a word character or a sign.
pub(crate) fn begins_word(x: u8) -> bool
    ensures value { result ≡ spec.begins_word x }
    ensures ascii { result ≡ true → x < 128 }
{
    is_word(x) || is_sign(x)
}

/// Returns whether a character may begin a name: a letter or `_`.
pub(crate) fn begins_name(x: u8) -> bool
    ensures { result ≡ spec.begins_name x }
{
    x.is_ascii_alphabetic() || x == b'_'
}

/// Returns whether two adjacent characters belong to one token.
#[tactic(auto, unfolding(crate::specs::Characters::are_linked))]
pub(crate) fn is_linked(x: u8, y: u8) -> bool
    ensures { result ≡ spec.are_linked x y }
{
    ((is_word(y) || (is_sign(y) && x == b'#')) && is_word(x))
        || (y.is_ascii_digit() && is_sign(x))
        || (y == b'=' && x == b':')
        || (y == b'\n' && x == b'\r')
}

/// Returns the octet at an index, or 0 past the end.
pub(crate) fn byte_at(bytes: &[u8], index: usize) -> u8
    ensures { result ≡ slice_index bytes.now index }
{
    bytes.get(index).copied().unwrap_or(0)
}
