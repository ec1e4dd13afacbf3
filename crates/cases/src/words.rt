// The words of a line. Single spaces separate them.
use anyhow::Result;
use std::alloc::Global;

/// Returns the first word of a line, and the rest.
pub fn first_word(line: &str) -> (&str, &str) {
    line.split_once(" ").unwrap_or((line, ""))
}

/// Returns the words of a line.
pub fn words_of(alloc: Global, line: &str) -> Result<Vec<&str>> {
    Ok(line.split(" ").collect(alloc)?)
}

/// Returns whether a line is a case: neither empty nor a remark that starts with `#`.
pub fn is_case(line: &str) -> bool {
    !line.is_empty() && !line.starts_with("#")
}
