// Runs the cases of the layers below the device on standard input. Prints each case whose result is
// not the expected one, and the number of these cases.
//
// The cases are sections, each with a head `== NAME`. Most lines are cases, `ASKED -> ANSWER`;
// others are a part of the next cases, or a note after `#`. Octets are in hexadecimal digits, `-`
// for none; before ` -> `, and after the last `|` of an answer, `07*9` is nine times 07, and `+`
// joins. A fault is its number and its message, and a value is printed by `{:?}` of Rust.
//
// - `ber`: `front OCTETS` is the first value of octets: its tag, whether the writer encodes it so,
//   the octets after it, and its content. `int`, `bool` and `bits` have what the content encodes in
//   place of the tag.
// - `transport`: `stream OCTETS ASSOCIATION` is the results of the octets of a connection, in
//   pieces of 1, 3, 100 and 65,536 octets, and of one octet after them; `shown PIECE ..` is what
//   can be read of a connection after each of these pieces; `wrap OCTETS TSDU` is a TSDU in frames
//   after a request.
// - `association`: `tsdus OCTETS ..` is the results of TSDUs, one after the other.
// - `requests`: `request OCTETS` is the request, after its invoke id. `operate OCTETS` and `cancel
//   OCTETS` are the first value of a write, as an operate or a cancel of a control.
// - `tree`: `row NAME KIND VALUE` is a row, and `bay` denotes those of the bay; `tree` is whether
//   they form a tree, which the next lines use. `value NAME` and `type NAME` are a row's data and
//   type, as trees and in octets; `names COUNT NAME` is the number of names in the page after a
//   name, or in the first page without a name, the first of them, the last, and whether there are
//   more; `page ID SIZE NAME` is the same page for PDUs of a size, in octets, with the name in
//   octets.
// - `texts`: `text`, `body`, `local` and `external` are the number and the line of a refusal, or `0
//   0` if the text is valid: a whole text, the lines of a body, a declaration of either kind.
//   `reads` is the declarations and the first instruction of a body, or the message of its refusal.
// - `programs`: `= TEXT` is the declarations of the next programs; `check LINES` is the number, the
//   line and the message of the fault that the checks find, or `0 0`; line 1 is that of PROGRAM,
//   and the declarations begin at line 2. `octets LINES` is the image of a program as text and in
//   octets, `decode_image OCTETS` that of an image. `report LINES` and `image OCTETS` are the
//   instructions, the depth and the budget of a program and of an image, or the number, the offset
//   and the message of its fault; the next scans run it. `scan MS INPUTS` is the steps and the
//   outputs of a scan, with commas between the numbers of the inputs. `changed OCTETS` counts
//   the results for an image with each octet changed to each other value: an image, or refused with
//   80, 81, 82 or 83.
// - `controls`: calls of a bay's controls (the file `controls` has their forms), which `start`
//   creates again.
//
// `bay` is a bay file, whose points the next programs name. In `fields`, `points` and `rows` the
// body is what this file spells.
#![tactic(auto)]

mod bay;
mod ber;
mod connection;
mod controls;
mod programs;
mod requests;
mod texts;
mod tree;

use anyhow::{Context, Result, bail};
use bay::bay_text;
use cases::case_report::{CaseReport, check_lines, check_text};
use cases::octets::octets_of;
use cases::sections::{BETWEEN, head_and_body, sections_of};
use cases::words::{first_word, is_case};
use controls::ControlSession;
use programs::Programs;
use std::alloc::Global;
use std::io::Read;
use tree::Rows;

// The state of a section, which answers its lines.
#[derive(Drop)]
enum Section<'a> {
    Programs(Programs<'a>),
    Controls(ControlSession),
    Tree(Rows),
    // Lines that do not depend on each other.
    Lines,
}

// Returns the answer to a line that does not depend on those before it.
fn answer(alloc: Global, kind: &str, words: &str) -> Result<String> {
    match kind {
        "tsdus" => return connection::association(alloc, words),
        "shown" => return connection::shown_after(alloc, words),
        "text" | "body" | "local" | "external" | "reads" => {
            return texts::reading(alloc, kind, words);
        }
        _ => {}
    }
    let (first, rest) = first_word(words);
    let octets = octets_of(alloc, first)?;
    match kind {
        "front" | "int" | "bool" | "bits" => ber::value(alloc, kind, octets.as_slice()),
        "stream" => connection::stream(alloc, rest, octets.as_slice()),
        "wrap" => connection::wrap_tsdu(alloc, rest, octets.as_slice()),
        "request" | "operate" | "cancel" => requests::request(alloc, kind, octets.as_slice()),
        _ => bail!("what is this: {kind}"),
    }
}

// Fails unless the result is the expected text, in which octets after a last `|` may be repeated.
fn check_found(alloc: Global, found: &str, wanted: &str) -> Result<()> {
    match wanted.rsplit_once("|") {
        Some((front, octets)) if octets.contains("*") => {
            let octets = hex::encode(alloc, octets_of(alloc, octets)?.as_slice())?;
            check_text(found, format!(in alloc; "{front}|{octets}")?.as_str())
        }
        _ => check_text(found, wanted),
    }
}

impl<'a> Section<'a> {
    // Creates the state of a section with this head.
    fn new(alloc: Global, head: &str, bay: &str) -> Result<Section<'a>> {
        Ok(match head {
            "programs" => Section::Programs(Programs::new(alloc, bay)?),
            "controls" => Section::Controls(ControlSession::new(alloc, bay)?),
            "tree" => Section::Tree(Rows::new(alloc)),
            _ => Section::Lines,
        })
    }

    // Runs a case, or reads a line that is a part of the next ones.
    fn check(&mut self, alloc: Global, bay: &str, line: &'a str) -> Result<()> {
        let Some((asked, wanted)) = line.split_once(" -> ") else {
            return match self {
                Section::Programs(programs) => programs.take(line),
                Section::Controls(session) => session.take(line),
                Section::Tree(rows) => rows.take(bay, line),
                Section::Lines => bail!("no answer"),
            };
        };
        let (kind, words) = first_word(asked);
        let found = match self {
            Section::Programs(programs) => programs.answer(kind, words),
            Section::Controls(session) => session.answer(asked),
            Section::Tree(rows) => rows.answer(kind, words),
            Section::Lines => answer(alloc, kind, words),
        }?;
        check_found(alloc, found.trim_end(), wanted)
    }
}

// Runs the cases of a section, with the last bay file.
fn check_section(
    alloc: Global,
    report: &mut CaseReport,
    bay: &str,
    head: &str,
    body: &str,
) -> Result<()> {
    if let "fields" | "points" | "rows" = head {
        let found = bay_text(alloc, bay, head)?;
        return report.record_case(head, check_lines(found.as_str(), body));
    }
    let mut section = Section::new(alloc, head, bay)?;
    for line in body.lines() {
        if is_case(line) {
            report.record_case(line, section.check(alloc, bay, line))?;
        }
    }
    Ok(())
}

// The bay file of the last section that has one.
#[derive(Drop)]
struct Before<'a> {
    bay: &'a str,
}

// Runs the cases of all sections, and returns the report on them.
fn run(alloc: Global, text: &str) -> Result<String> {
    let mut before = Before { bay: "" };
    let mut report = CaseReport::new(alloc);
    for section in sections_of(text)?.split(BETWEEN) {
        let (head, body) = head_and_body(section);
        match head {
            "bay" => before.bay = body,
            _ => check_section(alloc, &mut report, before.bay, head, body).context(head)?,
        }
    }
    report.finish()
}

fn main(rt: HostRuntime) -> Result<()> {
    let mut text = String::new(rt.alloc());
    rt.reader().read_to_string(&mut text)?;
    let report = run(rt.alloc(), text.as_str())?;
    print!(&rt; "{report}")?;
    Ok(())
}
