// A trace and its expected report.
use crate::texts::{Texts, check_trace};
use anyhow::Result;
use std::alloc::{AllocError, Global};

/// A trace and its expected report.
#[derive(Drop)]
pub struct Exchange {
    pub trace: String,
    pub report: String,
}

impl Exchange {
    /// Creates an empty trace with an empty report.
    pub fn new(alloc: Global) -> Exchange {
        Exchange {
            trace: String::new(alloc),
            report: String::new(alloc),
        }
    }

    /// Appends octets that an association sends at a time, all at once or one by one.
    pub fn push_octets(
        &mut self,
        moment: u64,
        association: u16,
        digits: &str,
        whole: bool,
    ) -> Result<(), AllocError> {
        if whole {
            return writeln!(self.trace, "{moment} recv {association} {digits}");
        }
        for at in 0..digits.len() / 2 {
            let begin = at.saturating_mul(2);
            let octet = digits.get(begin..begin.saturating_add(2)).unwrap_or("");
            writeln!(self.trace, "{moment} recv {association} {octet}")?;
        }
        Ok(())
    }

    /// Checks that the trace on the device of the texts has this report.
    pub fn check(&self, alloc: Global, texts: &Texts) -> Result<()> {
        check_trace(alloc, texts, self.trace.as_str(), self.report.as_str())
    }
}
