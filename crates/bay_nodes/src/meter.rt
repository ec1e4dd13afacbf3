// The meters of a bay.
use bay_base::text::Text;

/// A meter (IEC 61850-7-4, MMXU).
#[derive(Debug, Drop)]
pub struct Meter {
    /// The name as the file spells it: a letter, then letters, digits and `_`, at most 16
    /// characters.
    pub id: Text,
    /// The power of ten by which the values of the meter are multiplied, -6 to 6: they are in units
    /// of 10^scale of W, VAr, Hz and A. `None` if the file does not say it.
    pub scale: Option<i8>,
}
