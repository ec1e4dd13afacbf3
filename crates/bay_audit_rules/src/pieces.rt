// The pieces of a line, and the parts of a time.
ghost use Rattle.std.specs.Prelude.{◌≡◌, ◌∷◌, ◌<◌, length};
ghost use Rattle.bay_audit_rules.specs.Pieces as spec;

/// The kind of text that is split into pieces.
#[derive(Clone, Copy)]
pub enum Cut {
    /// A line, into words, relations and single signs.
    Line,
    /// A time, into numbers and units.
    Time,
}

// Returns whether an octet is a letter, a digit, `_` or `-`.
fn is_word_octet(octet: u8) -> bool
    ensures { result ≡ spec.is_word_octet octet }
{
    octet.is_ascii_alphanumeric() || octet == b'_' || octet == b'-'
}

// Returns whether an octet is `<`, `=` or `>`.
fn is_relation_octet(octet: u8) -> bool
    ensures { result ≡ spec.is_relation_octet octet }
{
    b'<' <= octet && octet <= b'>'
}

// Returns whether two adjacent octets belong to one piece.
fn joins(cut: Cut, a: u8, b: u8) -> bool
    ensures { result ≡ spec.joins cut a b }
{
    match cut {
        Cut::Line => {
            (is_word_octet(a) && is_word_octet(b)) || (is_relation_octet(a) && is_relation_octet(b))
        }
        Cut::Time => a.is_ascii_digit() == b.is_ascii_digit(),
    }
}

/// Returns the first piece, and the rest.
pub fn split_piece(cut: Cut, text: &[u8]) -> (&[u8], &[u8])
    requires { 0 < length text.now }
    ensures cut { spec.pieces cut text.now ≡ result.0.now ∷ spec.pieces cut result.1.now }
    ensures some { 0 < length result.0.now }
    ensures less { length result.1.now < length text.now }
{
    let mut end = 1;
    while end < text.len() && joins(cut, text[end - 1], text[end]) {
        end += 1;
    }
    (&text[..end], &text[end..])
}
