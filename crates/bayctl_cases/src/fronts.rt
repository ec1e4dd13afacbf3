// Every prefix of a client's octets has exactly the effect of the messages that are complete in it,
// and all octets have the same effect one by one.
//
// A line is a message in hexadecimal digits, and after ` -> ` its effect, if it has one:
// `send:OCTETS`, or `closed:WHY`, with which the association ends.
use crate::exchange::Exchange;
use crate::texts::Texts;
use anyhow::Result;
use std::alloc::{AllocError, Global};

// Appends the effect of a message at a time. Returns whether the association ends.
fn push_effect(exchange: &mut Exchange, moment: u64, words: &str) -> Result<bool, AllocError> {
    let mut ends = false;
    for word in words.split(" ") {
        if let Some((kind, what)) = word.split_once(":") {
            writeln!(exchange.report, "{moment} {kind} 1 {what}")?;
            ends = kind == "closed";
        }
    }
    Ok(ends)
}

// Appends the effects of the messages that are complete in `count` octets. If the association ends,
// appends a refusal for each piece of octets after that, and one for the close.
fn put_report(
    exchange: &mut Exchange,
    moment: u64,
    body: &str,
    count: usize,
    whole: bool,
) -> Result<(), AllocError> {
    let mut end = 0usize;
    for line in body.lines() {
        let (message, words) = line.split_once(" -> ").unwrap_or((line, ""));
        end = end.saturating_add(message.len() / 2);
        if end > count {
            return Ok(());
        }
        if push_effect(exchange, moment, words)? {
            let behind = if whole { 0 } else { count - end };
            for _ in 0..=behind {
                writeln!(exchange.report, "{moment} refused 111")?;
            }
            return Ok(());
        }
    }
    Ok(())
}

// Appends a connection at a time, on which these octets arrive.
fn put_front(
    exchange: &mut Exchange,
    moment: u64,
    body: &str,
    digits: &str,
    whole: bool,
) -> Result<(), AllocError> {
    writeln!(exchange.trace, "{moment} open 1")?;
    if !digits.is_empty() {
        exchange.push_octets(moment, 1, digits, whole)?;
    }
    writeln!(exchange.trace, "{moment} close 1")?;
    put_report(exchange, moment, body, digits.len() / 2, whole)
}

/// Checks that every prefix of the messages has the effect that their lines have, and so have all
/// octets one by one.
pub fn check_fronts(alloc: Global, texts: &Texts, body: &str) -> Result<()> {
    let (mut exchange, mut digits) = (Exchange::new(alloc), String::new(alloc));
    for line in body.lines() {
        digits.push_str(line.split_once(" -> ").unwrap_or((line, "")).0)?;
    }
    let (count, digits) = (digits.len() / 2, digits.as_str());
    for end in 0..=count {
        let front = digits.get(..end.saturating_mul(2)).unwrap_or("");
        put_front(&mut exchange, end as u64, body, front, true)?;
    }
    put_front(&mut exchange, count as u64, body, digits, false)?;
    exchange.check(alloc, texts)
}
