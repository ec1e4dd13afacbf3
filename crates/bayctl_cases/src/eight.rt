// An exchange with eight associations that take turns; each must be answered as one association
// alone.
//
// The exchange consists of blocks, with an empty line between them. One association after the other
// does a block. `AFTER recv OCTETS` is what a client sends AFTER milliseconds after the beginning
// of the block; `AFTER contact ..` and `AFTER scan` are events of the process. After these are the
// lines that must be printed, which begin with `> `: `> AFTER send OCTETS` and `> AFTER closed WHY`
// without the association, whose number `#` denotes in the octets, and others as they are.
use crate::exchange::Exchange;
use crate::texts::Texts;
use anyhow::{Context, Result};
use cases::words::first_word;
use std::alloc::{AllocError, Global};

// Appends a line to the expected report, at a time.
fn push_expected(
    exchange: &mut Exchange,
    moment: u64,
    association: u16,
    told: &str,
) -> Result<(), AllocError> {
    match first_word(told) {
        ("send", octets) => match octets.split_once("#") {
            Some((front, back)) => writeln!(
                exchange.report,
                "{moment} send {association} {front}{association:04x}{back}"
            ),
            None => writeln!(exchange.report, "{moment} send {association} {octets}"),
        },
        ("closed", why) => writeln!(exchange.report, "{moment} closed {association} {why}"),
        _ => writeln!(exchange.report, "{moment} {told}"),
    }
}

// Appends a block for an association, from a time on. Returns the last time.
fn put_block(
    exchange: &mut Exchange,
    begin: u64,
    association: u16,
    block: &str,
    whole: bool,
) -> Result<u64> {
    let mut moment = begin;
    for line in block.lines() {
        let (is_told, line) = match line.strip_prefix("> ") {
            Some(told) => (true, told),
            None => (false, line),
        };
        let (after, what) = first_word(line);
        moment = begin.saturating_add(after.parse::<u64>().context("no moment")?);
        match first_word(what) {
            _ if is_told => push_expected(exchange, moment, association, what),
            ("recv", digits) => exchange.push_octets(moment, association, digits, whole),
            _ => writeln!(exchange.trace, "{moment} {what}"),
        }?;
    }
    Ok(moment)
}

// Checks that an exchange with `count` associations at once, whole or octet by octet, is answered
// as its lines require.
fn check_by(alloc: Global, texts: &Texts, body: &str, count: u16, whole: bool) -> Result<()> {
    let (mut exchange, mut now) = (Exchange::new(alloc), 0);
    for association in 1..=count {
        writeln!(exchange.trace, "0 open {association}")?;
    }
    for block in body.split("\n\n") {
        for association in 1..=count {
            now = put_block(&mut exchange, now, association, block, whole)?;
        }
    }
    exchange.check(alloc, texts)
}

/// Checks that an exchange is answered as its lines require: with one association alone and whole
/// messages, and with eight at once, both whole and octet by octet.
pub fn check_eight(alloc: Global, texts: &Texts, body: &str) -> Result<()> {
    check_by(alloc, texts, body, 1, true)?;
    check_by(alloc, texts, body, 8, true)?;
    check_by(alloc, texts, body, 8, false)
}
