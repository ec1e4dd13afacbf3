// The texts of scenarios, and their reports.
use anyhow::{Context, Result, bail};
use bay_main::replay::replay_run;
use cases::case_report::check_lines;
use std::alloc::{AllocError, Global};

/// The texts of the next cases.
#[derive(Drop)]
pub struct Texts<'a> {
    pub bay: &'a str,
    pub frame: &'a str,
    pub logic: &'a str,
    pub trace: &'a str,
}

impl Texts<'_> {
    /// Returns the scenario of these texts with another trace, each line of which has its line end.
    pub fn scenario(&self, alloc: Global, trace: &str) -> Result<String, AllocError> {
        let (bay, frame, logic) = (self.bay, self.frame, self.logic);
        format!(in alloc; "{bay}\n%%\n{frame}\n{logic}\n%%\n{trace}")
    }
}

/// Expands a trace, in which `{OCTETS*TIMES}` denotes octets repeated this number of times, and
/// appends the line end of its last line.
pub fn expand_trace(alloc: Global, trace: &str) -> Result<String> {
    let mut text = String::new(alloc);
    for piece in trace.split("{") {
        let (octets, rest) = piece.split_once("}").unwrap_or(("", piece));
        let (octets, times) = octets.split_once("*").unwrap_or(("", "0"));
        for _ in 0..times.parse::<u32>()? {
            text.push_str(octets)?;
        }
        text.push_str(rest)?;
    }
    text.push_str("\n")?;
    Ok(text)
}

/// Returns the report of a trace on the device of the texts, without the line of the load. Fails if
/// its status is not 0.
pub fn replay_trace<'r>(
    alloc: Global,
    texts: &Texts,
    trace: &str,
    report: &'r mut Vec<u8>,
) -> Result<&'r str> {
    let scenario = texts.scenario(alloc, trace)?;
    let status = replay_run(alloc, scenario.as_bytes(), &mut *report);
    if status.ok() != Some(0) {
        bail!("it is refused");
    }
    let (_, lines) = str::from_utf8(report.as_slice())?
        .split_once("\n")
        .context("no report")?;
    Ok(lines)
}

/// Checks the report of a trace on the device of the texts.
pub fn check_trace(alloc: Global, texts: &Texts, trace: &str, wanted: &str) -> Result<()> {
    let mut report = Vec::new(alloc);
    check_lines(replay_trace(alloc, texts, trace, &mut report)?, wanted)
}
