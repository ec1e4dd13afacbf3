// Splits a text into lines.
ghost use Rattle.std.specs.Prelude.{◌≡◌, ◌∷◌, [], ◌<◌, length};
ghost use Rattle.bay_report.specs.TextLines.{without_end, CutsLine};

use memchr::memchr_iter;

// Removes the CR that may precede the LF of a line.
fn strip_return(line: &[u8]) -> &[u8]
    ensures { result.now ≡ without_end (13 ∷ []) line.now }
{
    match line.strip_suffix(b"\r") {
        Some(line) => line,
        None => line,
    }
}

/// Returns the first line of a text without its end, which is LF or CR LF, and the text after it.
/// The text must not be empty.
#[inline(always)]
pub fn split_line(text: &[u8]) -> (&[u8], &[u8])
    requires { 0 < length text.now }
    ensures cuts { CutsLine text.now result.0.now result.1.now }
    ensures shorter { length result.1.now < length text.now }
{
    // The iterator searches the next 32 octets first, and lines are short.
    match memchr_iter(b'\n', text).next() {
        Some(at) => (strip_return(&text[..at]), &text[at + 1..]),
        None => (text, &text[text.len()..]),
    }
}
