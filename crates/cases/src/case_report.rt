// The report on cases: each case whose outcome differs from the expected one, and how many differ.
use anyhow::{Result, bail};
use std::alloc::Global;

/// Fails if the condition of a case does not hold.
pub fn check(holds: bool) -> Result<()> {
    if !holds {
        bail!("it is otherwise");
    }
    Ok(())
}

/// Fails if a text isn't the expected one, and names the text found.
pub fn check_text(found: &str, wanted: &str) -> Result<()> {
    if found != wanted {
        bail!("it is {found}");
    }
    Ok(())
}

/// Fails if the lines of a text aren't the expected ones, and names the first line that differs or
/// is missing.
pub fn check_lines(found: &str, wanted: &str) -> Result<()> {
    let mut lines = wanted.lines();
    for line in found.lines() {
        check_text(line, lines.next().unwrap_or(""))?;
    }
    if let Some(line) = lines.next() {
        bail!("there is no {line}");
    }
    Ok(())
}

/// The number of cases, the number of cases whose outcome differs, and a line for each of those.
#[derive(Drop)]
pub struct CaseReport {
    cases: u32,
    differing: u32,
    text: String,
}

impl CaseReport {
    /// Creates a report on no case yet.
    pub fn new(alloc: Global) -> CaseReport {
        CaseReport {
            cases: 0,
            differing: 0,
            text: String::new(alloc),
        }
    }

    /// Records the outcome of a case; `line` spells the case. An outcome that is an error means
    /// that the case does not hold. Fails only if the report can't be extended.
    pub fn record_case(&mut self, line: &str, outcome: Result<()>) -> Result<()> {
        self.cases = self.cases.saturating_add(1);
        if let Err(error) = outcome {
            self.differing = self.differing.saturating_add(1);
            writeln!(self.text, "not so: {line}\n    {error}")?;
        }
        Ok(())
    }

    /// Returns a text of two lines for each case that differs, and a last line with their number.
    /// Fails if there was no case at all.
    pub fn finish(self) -> Result<String> {
        let CaseReport {
            cases,
            differing,
            mut text,
        } = self;
        if cases == 0 {
            bail!("there is no case");
        }
        writeln!(text, "{differing} differ")?;
        Ok(text)
    }
}
