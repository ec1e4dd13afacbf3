// The sections of a text of cases. A section begins with a line `== HEAD`; its body follows, up to
// the next such line.
use anyhow::{Context, Result};

/// The text that separates sections.
pub const BETWEEN: &str = "\n== ";

/// Returns the sections of a text, without the first `== ` and with `BETWEEN` between them. Fails
/// if the text does not begin with `== `.
pub fn sections_of(text: &str) -> Result<&str> {
    let sections = text.strip_prefix("== ").context("no section")?;
    Ok(sections.strip_suffix("\n").unwrap_or(sections))
}

/// Returns the head and the body of a section.
pub fn head_and_body(section: &str) -> (&str, &str) {
    section.split_once("\n").unwrap_or((section, ""))
}
