// Octets of a client, each replaced by each other value.
//
// `front OCTETS` are the octets that open an association, or none. `asked OCTETS -> OCTETS` is a
// request of association 2, which the `front` before it opens, and its answer. `behind OCTETS` is a
// message of association 1, which the last `front` opens: each octet is replaced by each other
// value, and each such message must be answered, leave the association waiting for more, or end it,
// while association 2 gets its answer. After ` -> ` are the counts of the first effects, if they
// are checked: answers, ends, waits, and faults by their numbers. The octets are hexadecimal
// digits.
use crate::texts::{Texts, replay_trace};
use anyhow::{Context, Result, bail};
use cases::case_report::{check, check_text};
use cases::words::first_word;
use std::alloc::{AllocError, Global};

// The number of milliseconds after which everything that a client has selected or operated has
// expired.
const PASSED: u64 = 10_000;

// The counts of the first effects of messages: an answer, a wait for more, an end, and each fault.
const ANSWERS: usize = 0;

const WAITS: usize = 1;

const CLOSED: usize = 2;

type Counts = [u32; 29];

// Returns the counts as text, those of faults with their numbers.
fn counts_text(alloc: Global, counts: &Counts) -> Result<String, AllocError> {
    let (answers, ends, waits) = (counts[ANSWERS], counts[CLOSED], counts[WAITS]);
    let mut text = format!(in alloc; "answers={answers} ends={ends} waits={waits}")?;
    for (number, count) in counts[CLOSED..].iter().enumerate().skip(1) {
        if *count > 0 {
            write!(text, " {number}={count}")?;
        }
    }
    Ok(text)
}

// Returns the index of the count for an effect, as it is printed.
fn count_index(told: &str) -> Result<usize> {
    match told.split_once(" 1 ") {
        Some(("closed", number)) => Ok(CLOSED.saturating_add(number.parse::<usize>()?)),
        Some(_) => Ok(ANSWERS),
        None => Ok(WAITS),
    }
}

// Checks the lines after the scan before a message: the message is answered, waited for, or ends
// the association, which then can't be closed, and the other association is answered. The last
// digit of a line's time shows which event it belongs to: 1 the message, 2 the request of the other
// association, 3 the close. Returns the index of its count.
fn check_frame(lines: &str, answer: &str) -> Result<usize> {
    let (mut first, mut closed, mut refused, mut served) = (None, false, false, 0u32);
    for line in lines.lines().skip(1) {
        match line.split_once(" ") {
            Some((moment, told)) if moment.ends_with("1") => {
                if first.is_none() {
                    first = Some(count_index(told)?);
                }
                closed = closed || told.starts_with("closed 1 ");
            }
            Some((moment, told)) if moment.ends_with("2") => {
                check_text(told, answer)?;
                served = served.saturating_add(1);
            }
            Some((moment, told)) if moment.ends_with("3") => {
                check_text(told, "refused 111")?;
                refused = true;
            }
            // the lines of its opening, and the time of the next scan
            _ => {}
        }
    }
    check(closed == refused && served == 1)?;
    Ok(first.unwrap_or(WAITS))
}

/// The octets that open association 1 and association 2, and the request of association 2 with its
/// answer.
#[derive(Drop)]
pub struct Hostile<'a> {
    first: &'a str,
    front: &'a str,
    asked: &'a str,
    answer: &'a str,
}

impl<'a> Hostile<'a> {
    /// Creates a state without octets.
    pub fn new() -> Hostile<'a> {
        Hostile {
            first: "",
            front: "",
            asked: "",
            answer: "",
        }
    }

    // Returns the trace of the messages with the octet between two parts replaced by each other
    // value. At its beginning switch 1 and association 2 are opened.
    fn trace_of(
        &self,
        alloc: Global,
        front: &str,
        octet: u8,
        back: &str,
    ) -> Result<String, AllocError> {
        let (first, asked) = (self.first, self.asked);
        let mut trace = format!(in alloc; "0 contact QA1 1\n0 open 2\n0 recv 2 {first}\n")?;
        // a position that is reported again changes nothing
        let (verb, opening) = match self.front {
            "" => ("contact QA1 1", ""),
            octets => ("recv 1 ", octets),
        };
        for more in 1..=255u8 {
            let value = octet.wrapping_add(more);
            let now = PASSED.saturating_mul(more as u64);
            let (at, next) = (now.saturating_add(1), now.saturating_add(2));
            let last = now.saturating_add(3);
            write!(
                trace,
                "{now} scan\n{now} open 1\n{now} {verb}{opening}\n\
                {at} recv 1 {front}{value:02x}{back}\n{next} recv 2 {asked}\n{last} close 1\n"
            )?;
        }
        Ok(trace)
    }

    // Checks and counts the messages with one octet replaced: after the lines for opening the other
    // association, there is a scan before each.
    fn count_octet(
        &self,
        alloc: Global,
        texts: &Texts,
        trace: &str,
        counts: &mut Counts,
    ) -> Result<()> {
        let answer = format!(in alloc; "send 2 {}", self.answer)?;
        let mut report = Vec::new(alloc);
        let mut frames = 0u32;
        for lines in replay_trace(alloc, texts, trace, &mut report)?
            .split(" scan ")
            .skip(1)
        {
            let place = check_frame(lines, answer.as_str())?;
            let count = counts.get_mut(place).context("there is no such fault")?;
            *count = count.saturating_add(1);
            frames = frames.saturating_add(1);
        }
        check(frames == 255)
    }

    // Checks the messages with each octet replaced, and their counts, if these are given.
    fn check_all(&self, alloc: Global, texts: &Texts, digits: &str, told: &str) -> Result<()> {
        let mut counts = [0; 29];
        for at in 0..digits.len() / 2 {
            let begin = at.saturating_mul(2);
            let (front, rest) = digits.split_at_checked(begin).unwrap_or((digits, ""));
            let (octet, back) = rest.split_at_checked(2).unwrap_or((rest, ""));
            let octet = u8::from_str_radix(octet, 16)?;
            let trace = self.trace_of(alloc, front, octet, back)?;
            self.count_octet(alloc, texts, trace.as_str(), &mut counts)?;
        }
        if told.is_empty() {
            return Ok(());
        }
        check_text(counts_text(alloc, &counts)?.as_str(), told)
    }

    /// Processes a line: keeps its octets, or checks the messages.
    pub fn check(&mut self, alloc: Global, texts: &Texts, line: &'a str) -> Result<()> {
        let (kind, words) = first_word(line);
        let (octets, told) = words.split_once(" -> ").unwrap_or((words, ""));
        match kind {
            "front" => self.front = octets,
            "asked" => {
                self.first = self.front;
                self.asked = octets;
                self.answer = told;
            }
            "behind" => return self.check_all(alloc, texts, octets, told),
            _ => bail!("what is this: {kind}"),
        }
        Ok(())
    }
}
