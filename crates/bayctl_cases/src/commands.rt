// Runs commands, with their input and with files in the program's own folder.
use crate::texts::{Texts, expand_trace};
use anyhow::{Context, Result, bail};
use bay_io::reader::WatchedReader;
use bay_io::writer::WatchedWriter;
use bay_main::commands::obey;
use bay_main::files::SystemFiles;
use bay_main::host::SystemHost;
use bay_main::parse::{WordsFault, job_of};
use cases::case_report::{check, check_lines, check_text};
use cases::octets::{check_octets, octets_of};
use cases::words::{first_word, words_of};
use std::alloc::Global;
use std::fs;

// Checks that the command of a line ends with this status and prints this text; the line end after
// its last line is not in the text. Returns its error message.
fn check_run(
    rt: &HostRuntime,
    line: &str,
    input: &[u8],
    status: &str,
    wanted: &str,
) -> Result<String> {
    let words: Vec<&str> = line
        .split(" ")
        .filter(|word| !word.is_empty())
        .collect(rt.alloc())?;
    let mut printed = Vec::new(rt.alloc());
    let ended = obey(
        rt.alloc(),
        words.as_slice(),
        &mut SystemFiles::new(rt),
        &mut SystemHost::new(rt),
        &mut WatchedReader::new(input),
        &mut WatchedWriter::new(&mut printed),
    );
    if ended.status() != status.parse::<u8>()? {
        bail!("it ends with {}", ended.status());
    }
    let found = str::from_utf8(printed.as_slice())?;
    check_lines(found, wanted)?;
    let is_so = found.strip_suffix("\n").unwrap_or("") == wanted;
    check(is_so && found.is_empty() == wanted.is_empty())?;
    Ok(String::from_str(rt.alloc(), ended.error_message())?)
}

/// The input of the next commands, and the error message of the last command.
#[derive(Drop)]
pub struct Commands<'a> {
    rt: &'a HostRuntime,
    input: Vec<u8>,
    error_message: String,
}

impl<'a> Commands<'a> {
    /// Creates commands with no input and no error message.
    pub fn new(rt: &'a HostRuntime) -> Commands<'a> {
        Commands {
            rt,
            input: Vec::new(rt.alloc()),
            error_message: String::new(rt.alloc()),
        }
    }

    // Sets the input of the next commands, or creates a file.
    fn make(&mut self, name: &str, content: Vec<u8>) -> Result<()> {
        if name.is_empty() {
            self.input = content;
            return Ok(());
        }
        Ok(fs::write(self.rt, name, content)?)
    }

    // Runs a command.
    fn run(&mut self, rest: &str, wanted: &str) -> Result<()> {
        let (status, line) = first_word(rest);
        self.error_message = check_run(self.rt, line, self.input.as_slice(), status, wanted)?;
        Ok(())
    }

    // Replays the scenario of the texts.
    fn report(&self, texts: &Texts, rest: &str, wanted: &str) -> Result<()> {
        let trace = expand_trace(self.rt.alloc(), texts.trace)?;
        let scenario = texts.scenario(self.rt.alloc(), trace.as_str())?;
        let (status, _) = first_word(rest);
        check_run(self.rt, "replay", scenario.as_bytes(), status, wanted)?;
        Ok(())
    }

    /// Checks the report for the bay file of the texts with one part replaced, and a program
    /// without instructions: `OLD|NEW -> REPORT`.
    pub fn check_bay(&self, bay: &str, line: &str) -> Result<()> {
        let (change, wanted) = line.split_once(" -> ").context("no answer")?;
        let (old, new) = change.split_once("|").context("no change")?;
        let (front, back) = bay.split_once(old).context("no such part")?;
        let status = if wanted.starts_with("load") { "1" } else { "0" };
        let scenario = format!(in self.rt.alloc();
            "{front}{new}{back}\n%%\nPROGRAM P\nEND_PROGRAM\n%%\n"
        )?;
        check_run(self.rt, "replay", scenario.as_bytes(), status, wanted)?;
        Ok(())
    }

    /// Checks the case of a section.
    pub fn check(&mut self, texts: &Texts, kind: &str, rest: &str, body: &str) -> Result<()> {
        let alloc = self.rt.alloc();
        match kind {
            "report" => self.report(texts, rest, body),
            "run" => self.run(rest, body),
            "input" => self.make(rest, format!(in alloc; "{body}\n")?.into_bytes()),
            "octets" => self.make(rest, octets_of(alloc, body)?),
            "complaint" => check_text(self.error_message.as_str().trim_end(), body),
            "holds" => check_octets(alloc, fs::read(self.rt, rest)?.as_slice(), body),
            "gone" => check(fs::open(self.rt, rest).is_err()),
            _ => bail!("there is no such section"),
        }
    }
}

/// Checks the job that arguments spell, as `{:?}` of Rust prints it, or `refused`: `WORDS -> JOB`.
pub fn check_job(alloc: Global, line: &str) -> Result<()> {
    let (words, wanted) = line.split_once(" -> ").context("no answer")?;
    match job_of(alloc, words_of(alloc, words)?.as_slice()) {
        Ok(job) => check_text(format!(in alloc; "{job:?}")?.as_str(), wanted),
        Err(WordsFault::Refused(_text)) => check_text("refused", wanted),
        Err(WordsFault::OutOfMemory) => bail!("out of memory"),
    }
}
