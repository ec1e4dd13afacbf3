// Runs the cases of the program on standard input, and prints each with another result than it
// requires, and the number of these. The cases are scenarios with their reports, and command lines
// with what they print and write.
//
// The cases are sections, each with a head `== NAME`; `note` is no case. Octets are in hexadecimal
// digits.
//
// - `bay`, `frame`, `logic` and `trace` are texts, which are valid until the next one of their
//   name; the logic follows the frame, and in the trace `{OCTETS*TIMES}` denotes octets repeated
//   this number of times. `report STATUS [NAME]` is a case: the scenario of these texts ends with
//   this status and this report.
// - In `bays` each line is a case, `OLD|NEW -> REPORT`: the report for the bay file with one part
//   replaced.
// - `eight` is an exchange with eight associations at once, each answered as one alone, whole and
//   octet by octet; `fronts` are messages, of which each prefix has the effect of what is complete
//   in it; `hostile` are octets of a client, each replaced by each other value (the files `eight`,
//   `fronts` and `hostile` have the details).
// - `input` and `octets` are the input of the next commands, and `input NAME` and `octets NAME`
//   create a file, of a text or of octets. `run STATUS WORDS` is a case: the command of these
//   arguments prints this text, and ends with this status. After it, `complaint` is the text that
//   the last command writes to standard error, `holds NAME` the content of a file, in octets, and
//   `gone NAME` a file that does not exist.
// - In `jobs` each line is a case, `WORDS -> JOB`: the job of a command line.
//
// The sections after `== note examples` are those of examples/, as `dev/examples_stdin` makes
// them from the files of the examples.
#![tactic(auto)]

mod commands;
mod eight;
mod exchange;
mod fronts;
mod hostile;
mod texts;

use anyhow::Result;
use cases::case_report::CaseReport;
use cases::sections::{BETWEEN, head_and_body, sections_of};
use cases::words::first_word;
use commands::{Commands, check_job};
use eight::check_eight;
use fronts::check_fronts;
use hostile::Hostile;
use std::alloc::Global;
use std::io::Read;
use texts::Texts;

// Checks the cases of a section in which each line is a case.
fn check_case_lines(
    alloc: Global,
    report: &mut CaseReport,
    texts: &Texts,
    commands: &Commands,
    kind: &str,
    body: &str,
) -> Result<()> {
    let mut hostile = Hostile::new();
    for line in body.lines() {
        let outcome = match kind {
            "bays" => commands.check_bay(texts.bay, line),
            "jobs" => check_job(alloc, line),
            _ => hostile.check(alloc, texts, line),
        };
        report.record_case(line, outcome)?;
    }
    Ok(())
}

// Runs the cases of all sections, and returns the report on them.
fn run(rt: &HostRuntime, text: &str) -> Result<String> {
    let alloc = rt.alloc();
    let mut texts = Texts {
        bay: "",
        frame: "",
        logic: "",
        trace: "",
    };
    let mut commands = Commands::new(rt);
    let mut report = CaseReport::new(alloc);
    for section in sections_of(text)?.split(BETWEEN) {
        let (head, body) = head_and_body(section);
        let (kind, rest) = first_word(head);
        match kind {
            "note" => {}
            "bay" => texts.bay = body,
            "frame" => texts.frame = body,
            "logic" => texts.logic = body,
            "trace" => texts.trace = body,
            "bays" | "jobs" | "hostile" => {
                check_case_lines(alloc, &mut report, &texts, &commands, kind, body)?
            }
            "eight" => report.record_case(head, check_eight(alloc, &texts, body))?,
            "fronts" => report.record_case(head, check_fronts(alloc, &texts, body))?,
            _ => report.record_case(head, commands.check(&texts, kind, rest, body))?,
        }
    }
    report.finish()
}

fn main(rt: HostRuntime) -> Result<()> {
    let mut text = String::new(rt.alloc());
    rt.reader().read_to_string(&mut text)?;
    let report = run(&rt, text.as_str())?;
    print!(&rt; "{report}")?;
    Ok(())
}
