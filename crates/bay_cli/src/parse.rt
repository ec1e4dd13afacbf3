// Parses the words of a command line.
ghost use Rattle.std.specs.Prelude.{◌≡◌, ◌⊎◌, codes, map, Some, None, IfOk, IfErr, option_and_then, option_map};
ghost use Rattle.std.specs.Str.{bytes_eq};
ghost use Rattle.clap.specs.Words.{first_of, rows_of, found_of, kind_of, subcommand_rows_of};
ghost use Rattle.bay_cli.specs.Jobs.{parsed_words, task_in};
ghost use Rattle.bay_cli.specs.Jobs as spec;
ghost use Rattle.bay_cli.specs.JobView.{invoked_view, job_view, options_view, program_view, task_view};

use crate::command::clap_command;
use crate::task::{Invocation, ProgramFile, ServeOptions, ServeTask, Task};
use clap::error::ErrorKind;
use clap::{ArgMatches, Error};
use std::alloc::{AllocError, Global};
use thiserror::Error;

/// The command of a job.
#[derive(Clone, Copy, Debug)]
pub enum Verb {
    /// Loads a bay with a program or an image and reports the result.
    Check,
    /// Replays a scenario.
    Replay,
    /// Serves clients.
    Serve,
    /// Compiles a program to an image.
    Compile,
    /// Audits rules and a diagram.
    Audit,
}

/// The options of a command line: the verb, the names of files, and the numbers. `None`: not given.
#[derive(Clone, Copy, Debug)]
pub struct Job<'a> {
    pub verb: Verb,
    /// The bay file.
    pub bay: Option<&'a str>,
    /// The program in Instruction List.
    pub logic: Option<&'a str>,
    /// The compiled program, instead of the program in Instruction List.
    pub image: Option<&'a str>,
    /// The file that the compiled program is written to.
    pub out: Option<&'a str>,
    /// The trace of the process, of which serving reads one line per turn.
    pub trace: Option<&'a str>,
    /// The rules to audit; for `serve`, those that must hold.
    pub rules: Option<&'a str>,
    /// The single line diagram to audit; for `serve`, that in which no release may be a hazard.
    pub diagram: Option<&'a str>,
    /// The port of 127.0.0.1 on which clients are served, 1 to 65,535.
    pub port: Option<u16>,
    /// The number of turns to serve.
    pub turns: Option<u32>,
    /// The port of 127.0.0.1 on which the controller listens to the process, 1 to 65,535.
    pub process: Option<u16>,
    /// What else is reported to the process: `releases`.
    pub tell: Option<&'a str>,
    /// The longest silence of a supervised process, 100 to 60,000 milliseconds.
    pub supervise: Option<u32>,
    /// The file with the key that a supervised process must know.
    pub key: Option<&'a str>,
    /// The new file in which the session is recorded.
    pub record_file: Option<&'a str>,
    /// The most octets of that file, 1 to 16,777,216.
    pub record_most: Option<u32>,
    /// The most seconds for which a client may send nothing, from 10 to 3,600.
    pub idle: Option<u32>,
    /// The least milliseconds that a turn lasts, 1 to 100.
    pub cycle: Option<u32>,
    /// The millions of octets of code that an audit looks at, 1 to 100,000.
    pub effort: Option<u32>,
    /// Whether the log is written.
    pub log: bool,
}

/// Why words spell no task.
#[derive(Debug, Drop, Error)]
pub enum WordsFault {
    /// The words are wrong, and the text explains why; or they request help, and the text is the
    /// help.
    #[error("{0}")]
    Refused(String),
    #[error("out of memory")]
    OutOfMemory,
}

// Returns the first value of an option.
fn value_of<'a>(found: &ArgMatches<'a>, id: &str) -> Option<&'a str>
    ensures { option_map (λ s. s.now) result ≡ first_of id.now (rows_of (found_of found.now)) }
{
    found.get_str(id)
}

// Returns the port given with an option, 1 to 65,535.
fn port_in(found: &ArgMatches<'_>, id: &str) -> Option<u16>
    ensures { result ≡ spec.number_in id.now 1 65535 (rows_of (found_of found.now)) }
{
    let port = value_of(found, id)?.parse::<u16>().ok()?;
    if port == 0 { None } else { Some(port) }
}

// Returns the number given with an option, from the least to the greatest.
fn number_in(found: &ArgMatches<'_>, id: &str, least: u32, greatest: u32) -> Option<u32>
    ensures { result ≡ spec.number_in id.now least greatest (rows_of (found_of found.now)) }
{
    let number = value_of(found, id)?.parse::<u32>().ok()?;
    if number < least {
        return None;
    }
    if number > greatest {
        return None;
    }
    Some(number)
}

// Returns whether the log is requested.
fn is_log_requested(found: &ArgMatches<'_>) -> bool
    ensures { result ≡ spec.logs (rows_of (found_of found.now)) }
{
    matches!(value_of(found, "log"), Some("true"))
}

// Reads all options of a command.
fn job_in<'a>(found: &ArgMatches<'a>, verb: Verb) -> Job<'a>
    ensures { job_view result ≡ spec.job_with (rows_of (found_of found.now)) verb }
{
    Job {
        verb,
        bay: value_of(found, "bay"),
        logic: value_of(found, "logic"),
        image: value_of(found, "image"),
        out: value_of(found, "out"),
        trace: value_of(found, "trace"),
        rules: value_of(found, "rules"),
        diagram: value_of(found, "diagram"),
        port: port_in(found, "port"),
        turns: number_in(found, "turns", 0, 4_294_967_295),
        process: port_in(found, "process"),
        tell: value_of(found, "tell"),
        supervise: number_in(found, "supervise", 100, 60_000),
        key: value_of(found, "key"),
        record_file: value_of(found, "record"),
        record_most: number_in(found, "record-most", 1, 16_777_216),
        idle: number_in(found, "idle", 10, 3_600),
        cycle: number_in(found, "cycle", 1, 100),
        effort: number_in(found, "effort", 1, 100_000),
        log: is_log_requested(found),
    }
}

// Returns the verb of a subcommand.
fn verb_named(name: &str) -> Option<Verb>
    ensures { result ≡ spec.verb_named name.now }
{
    match name {
        "check" => Some(Verb::Check),
        "replay" => Some(Verb::Replay),
        "serve" => Some(Verb::Serve),
        "compile" => Some(Verb::Compile),
        "audit" => Some(Verb::Audit),
        _ => None,
    }
}

// Returns all options of the parsed words.
fn job_from<'a>(matches: &ArgMatches<'a>) -> Option<Job<'a>>
    ensures { option_map job_view result ≡ spec.entered_job (subcommand_rows_of matches.now) }
{
    let (name, found) = matches.subcommand()?;
    let verb = verb_named(name)?;
    Some(job_in(found, verb))
}

// Returns the program or the image that was named, if exactly one of the two was.
fn program_of<'a>(job: &Job<'a>) -> Option<ProgramFile<&'a str>>
    ensures { option_map program_view result ≡ spec.program_of (job_view job.now) }
{
    match (job.logic, job.image) {
        (Some(logic), None) => Some(ProgramFile::Logic(logic)),
        (None, Some(image)) => Some(ProgramFile::Image(image)),
        (Some(_), Some(_)) => None,
        (None, None) => None,
    }
}

// Returns the task of `check` with these options.
fn check_task<'a>(job: &Job<'a>) -> Option<Task<&'a str>>
    ensures { option_map task_view result ≡ spec.check_task (job_view job.now) }
{
    let bay = job.bay?;
    let program = program_of(job)?;
    Some(Task::Check { bay, program })
}

// Returns whether the port of the process, if there is one, differs from that of the clients.
fn ports_differ(port: u16, process: Option<u16>) -> bool
    ensures { result ≡ spec.ports_differ port process }
{
    match process {
        Some(process) => process != port,
        None => true,
    }
}

// Returns whether a word is `releases`.
fn is_releases(word: &str) -> bool
    ensures { result ≡ bytes_eq word.now (codes "releases") }
{
    match word {
        "releases" => true,
        _ => false,
    }
}

// Returns whether releases are reported to the process. Returns `None` if the word requests
// anything else, or if there is no process.
fn reports_releases(process: Option<u16>, word: Option<&str>) -> Option<bool>
    ensures { result ≡ spec.sends_releases process (option_map (λ s. s.now) word.entry) }
{
    match word {
        Some(word) => {
            if process.is_some() && is_releases(word) {
                Some(true)
            } else {
                None
            }
        }
        None => Some(false),
    }
}

// Returns the options of `serve` that may be left out.
fn options_of<'a>(job: &Job<'a>) -> ServeOptions<&'a str>
    ensures { options_view result ≡ spec.options_of (job_view job.now) }
{
    ServeOptions {
        trace: job.trace,
        process: job.process,
        limit_ms: job.supervise,
        key: job.key,
        record_file: job.record_file,
        record_most: job.record_most,
        idle_s: job.idle,
        cycle_ms: job.cycle,
        rules: job.rules,
        diagram: job.diagram,
    }
}

// Returns whether the options of a supervised process are given with those that they need, and not
// with a trace.
fn is_supervisable(options: &ServeOptions<&str>) -> bool
    ensures { result ≡ spec.is_supervisable (options_view options.now) }
{
    match options.limit_ms {
        Some(_) => options.process.is_some() && options.trace.is_none(),
        None => options.key.is_none(),
    }
}

// Returns the task of `serve` with these options.
fn serve_task<'a>(job: &Job<'a>) -> Option<Task<&'a str>>
    ensures { option_map task_view result ≡ spec.serve_task (job_view job.now) }
{
    let options = options_of(job);
    let bay = job.bay?;
    let program = program_of(job)?;
    let port = job.port?;
    let turns = job.turns?;
    let sends_releases = reports_releases(options.process, job.tell)?;
    if !ports_differ(port, options.process)
        || !is_supervisable(&options)
        || options.record_file.is_none() && options.record_most.is_some()
    {
        return None;
    }
    Some(Task::Serve(ServeTask {
        bay,
        program,
        port,
        turns,
        sends_releases,
        options,
    }))
}

// Returns the task of `audit` with these options.
fn audit_task<'a>(job: &Job<'a>) -> Option<Task<&'a str>>
    ensures { option_map task_view result ≡ spec.audit_task (job_view job.now) }
{
    let bay = job.bay?;
    let program = program_of(job)?;
    let (rules, diagram) = (job.rules, job.diagram);
    if rules.is_none() && diagram.is_none() {
        return None;
    }
    Some(Task::Audit {
        bay,
        program,
        rules,
        diagram,
        effort: job.effort,
    })
}

// Returns the task of `compile` with these options.
fn compile_task<'a>(job: &Job<'a>) -> Option<Task<&'a str>>
    ensures { option_map task_view result ≡ spec.compile_task (job_view job.now) }
{
    let bay = job.bay?;
    let logic = job.logic?;
    let out = job.out?;
    Some(Task::Compile { bay, logic, out })
}

// Returns the task of a command line with these options.
fn task_for<'a>(job: &Job<'a>) -> Option<Task<&'a str>>
    ensures { option_map task_view result ≡ spec.task_for (job_view job.now) }
{
    match job.verb {
        Verb::Check => check_task(job),
        Verb::Replay => Some(Task::Replay),
        Verb::Serve => serve_task(job),
        Verb::Compile => compile_task(job),
        Verb::Audit => audit_task(job),
    }
}

// Returns the usage of a command that requires either a program or an image.
fn usage_of(verb: Verb) -> &'static str {
    match verb {
        Verb::Serve => {
            "bayctl serve --bay <F> <--logic <F>|--image <F>> --port <N> --turns <N> [--trace <F>] [--process <P>] [--tell <WHAT>] [--supervise <MS>] [--key <F>] [--record <F>] [--record-most <OCTETS>] [--idle <S>] [--cycle <MS>] [--rules <F>] [--diagram <F>] [--log]"
        }
        Verb::Audit => {
            "bayctl audit --bay <F> <--logic <F>|--image <F>> [--rules <F>] [--diagram <F>] [--effort <N>] [--log]"
        }
        _ => "bayctl check --bay <F> <--logic <F>|--image <F>> [--log]",
    }
}

// Returns what is wrong with the options of a command, if `clap` accepts each of them: both or
// neither of a program and an image, an audit of nothing, one port for both the clients and the
// process, a report other than `releases`, supervision or a report without a process, a key without
// supervision, supervision after a trace, or a size without a record.
fn wrong_options(job: &Job<'_>) -> &'static str {
    if program_of(job).is_none() {
        "exactly one of --logic and --image is needed"
    } else if matches!(job.verb, Verb::Audit) {
        "--rules or --diagram, or both, are needed"
    } else if matches!(job.tell, Some(word) if !is_releases(word)) {
        "invalid value for '--tell <WHAT>'\n  [possible values: releases]"
    } else if job.process.is_none() && (job.tell.is_some() || job.supervise.is_some()) {
        "the following required arguments were not provided:\n  --process <P>"
    } else if job.supervise.is_none() && job.key.is_some() {
        "the following required arguments were not provided:\n  --supervise <MS>"
    } else if job.supervise.is_some() && job.trace.is_some() {
        "the argument '--trace <F>' cannot be used with '--supervise <MS>'"
    } else if job.record_most.is_some() && job.record_file.is_none() {
        "the following required arguments were not provided:\n  --record <F>"
    } else {
        "--process wants another port than --port"
    }
}

// Makes the refusal of a command whose options `clap` accepts one by one.
fn refused_options(alloc: Global, wrong: &str, usage: &str) -> WordsFault {
    match format!(in alloc;
        "error: {wrong}\n\nUsage: {usage}\n\nFor more information, try '--help'.\n"
    ) {
        Ok(text) => WordsFault::Refused(text),
        Err(AllocError) => WordsFault::OutOfMemory,
    }
}

// Makes the refusal of words that `clap` refuses, with its message.
fn refused_by(alloc: Global, error: &Error) -> WordsFault
    ensures { kind_of error.now ≡ ErrorKind.OutOfMemory → result ≡ WordsFault.OutOfMemory }
{
    if error.kind() == ErrorKind::OutOfMemory {
        return WordsFault::OutOfMemory;
    }
    match format!(in alloc; "{error}") {
        Ok(text) => WordsFault::Refused(text),
        Err(AllocError) => WordsFault::OutOfMemory,
    }
}

// Parses words with `clap`.
fn matches_of<'a>(alloc: Global, words: &'a [&'a str]) -> Result<ArgMatches<'a>, WordsFault>
    ensures ok { IfOk result
        (λ m. parsed_words (map (λ w. w.now) words.entry.now) ≡ subcommand_rows_of m) }
    ensures refused { IfErr result
        (λ e. (e ≡ WordsFault.OutOfMemory)
        ⊎ (parsed_words (map (λ w. w.now) words.entry.now) ≡ None)) }
{
    let command = match clap_command(alloc) {
        Ok(command) => command,
        Err(AllocError) => return Err(WordsFault::OutOfMemory),
    };
    match command.try_get_matches_from(words) {
        Ok(matches) => Ok(matches),
        Err(error) => Err(refused_by(alloc, &error)),
    }
}

// Returns all options that words spell, and the task of them.
fn read_words<'a>(
    alloc: Global,
    words: &'a [&'a str],
) -> Result<(Job<'a>, Task<&'a str>), WordsFault>
    ensures ok { IfOk result (λ r. spec.read_words (map (λ w. w.now) words.entry.now)
        ≡ Some (job_view r.0, task_view r.1)) }
    ensures refused { IfErr result (λ e. (e ≡ WordsFault.OutOfMemory)
        ⊎ (spec.read_words (map (λ w. w.now) words.entry.now) ≡ None)) }
{
    let matches = matches_of(alloc, words)?;
    let Some(job) = job_from(&matches) else {
        return Err(refused_options(alloc, "a command is needed", "bayctl <COMMAND>"));
    };
    match task_for(&job) {
        Some(task) => Ok((job, task)),
        None => Err(refused_options(alloc, wrong_options(&job), usage_of(job.verb))),
    }
}

/// Returns the task that the words after the program's name spell. `check` takes a bay file and
/// either a program or an image; `replay` takes nothing. `serve` takes what `check` takes, a port
/// and a number of turns. It may have a trace, and a process on another port, to which releases may
/// be reported. Without a trace, the process may be supervised, with a key or without one. The
/// session may be recorded, in a file of limited size. It may have rules and a diagram. `compile`
/// takes a bay file, a program and the file for the image; `audit` takes what `check` takes, and
/// rules, a diagram or both, and may have an effort. Each may request the log. Fails with `Refused`
/// if the words spell no task or request help, and with `OutOfMemory`.
pub fn task_of<'a>(alloc: Global, words: &'a [&'a str]) -> Result<Invocation<&'a str>, WordsFault>
    ensures ok { IfOk result
        (λ t. task_in (map (λ w. w.now) words.entry.now) ≡ Some (invoked_view t)) }
    ensures refused { IfErr result
        (λ e. (e ≡ WordsFault.OutOfMemory) ⊎ (task_in (map (λ w. w.now) words.entry.now) ≡ None)) }
{
    let (job, task) = read_words(alloc, words)?;
    Ok(Invocation { task, log: job.log })
}

/// Like `task_of`, but returns a record of all options.
pub fn job_of<'a>(alloc: Global, words: &'a [&'a str]) -> Result<Job<'a>, WordsFault>
    ensures ok { IfOk result
        (λ j. spec.job_in (map (λ w. w.now) words.entry.now) ≡ Some (job_view j)) }
    ensures refused { IfErr result
        (λ e. (e ≡ WordsFault.OutOfMemory)
        ⊎ (spec.job_in (map (λ w. w.now) words.entry.now) ≡ None)) }
{
    let (job, _task) = read_words(alloc, words)?;
    Ok(job)
}
