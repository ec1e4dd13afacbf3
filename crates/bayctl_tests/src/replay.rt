// Readers and writers that transfer a few octets at a time, and that fail.
use crate::session::{BAY, LOGIC};
use bay_main::replay::replay_run;
use std::alloc::Global;
use std::io;
use std::io::{ErrorKind, Read, Write};
use std::process::Abort;
use std::test::Fail;

// Counts a call, and fails if it is the one that fails.
fn call(calls: &mut u64, fails_at: u64) -> io::Result<()> {
    *calls = calls.saturating_add(1);
    if *calls == fails_at {
        return Err(io::Error::from(ErrorKind::Other));
    }
    Ok(())
}

// A reader over octets in memory that returns at most `most` octets at a read, at least one, and
// may fail at one of its reads.
#[derive(Drop)]
struct SlowReader<'a> {
    rest: &'a [u8],
    most: usize,
    reads: u64,
    fails_at: u64,
}

impl Read for SlowReader<'_> {
    fn read(&mut self, buf: &mut [u8]) -> io::Result<usize> {
        call(&mut self.reads, self.fails_at)?;
        let some = buf.len().min(self.most.max(1));
        self.rest.read(&mut buf[..some])
    }
}

// A writer that takes at most `most` octets at a write, and may fail at one of its calls: a write,
// or the flush after the writes.
#[derive(Drop)]
struct SlowWriter {
    taken: Vec<u8>,
    most: usize,
    calls: u64,
    fails_at: u64,
}

impl Write for SlowWriter {
    fn write(&mut self, buf: &[u8]) -> io::Result<usize> {
        call(&mut self.calls, self.fails_at)?;
        let some = buf.len().min(self.most);
        self.taken.write(&buf[..some])
    }

    fn flush(&mut self) -> io::Result<()> {
        call(&mut self.calls, self.fails_at)
    }
}

// The output of the replay of a scenario, its status (255 for a failed write), and the number of
// calls of its reader and its writer.
#[derive(Drop)]
struct Outcome {
    report: Vec<u8>,
    status: u8,
    reads: u64,
    writes: u64,
}

// The calls of a replay: the maximum number of octets of each, and the numbers of the read and the
// write that fail, or 0.
#[derive(Clone, Copy)]
struct Calls {
    most: usize,
    read: u64,
    write: u64,
}

// Replays a scenario with such calls.
fn outcome_of(alloc: Global, scenario: &[u8], calls: Calls) -> Outcome {
    let mut given = SlowReader {
        rest: scenario,
        most: calls.most,
        reads: 0,
        fails_at: calls.read,
    };
    let mut narrow = SlowWriter {
        taken: Vec::new(alloc),
        most: calls.most,
        calls: 0,
        fails_at: calls.write,
    };
    let status = replay_run(alloc, &mut given, &mut narrow).unwrap_or(255);
    let SlowWriter { taken, calls, .. } = narrow;
    Outcome {
        report: taken,
        status,
        reads: given.reads,
        writes: calls,
    }
}

// The report of two switches, the first of which is closed and then open, with a scan after each.
const REPORT: &[u8] = b"instructions=6 depth=1 budget=6
1000 scan steps=6 QA1=00 QB1=00
1500 scan steps=6 QA1=00 QB1=11
";

// If the Nth read fails, the replay prints `fault 121` alone; if the Nth write fails, it prints a
// prefix of its report, and ends with a failed write. Nothing is called after that.
fn check_failing(rt: &impl Abort, alloc: Global, scenario: &[u8], calls: Calls) {
    let found = outcome_of(alloc, scenario, calls);
    let report = found.report.as_slice();
    let is_told = if calls.read > 0 {
        (report, found.status, found.reads) == (b"fault 121\n".as_slice(), 3, calls.read)
    } else {
        REPORT.starts_with(report) && (found.status, found.writes) == (255, calls.write)
    };
    assert!(rt;
        is_told,
        "{} octets, read {}, write {}",
        calls.most, calls.read, calls.write
    );
}

// Replays the scenario with calls of which none fails, and then fails each in turn.
fn check_each(rt: &impl Abort, alloc: Global, scenario: &[u8], most: usize) {
    let none = Calls {
        most,
        read: 0,
        write: 0,
    };
    let whole = outcome_of(alloc, scenario, none);
    assert!(rt; whole.report.as_slice() == REPORT && whole.status == 0);
    // if a call transfers one octet, there is a call for each octet, and one for the end or the
    // flush
    assert!(rt; most > 1 || whole.reads == scenario.len() as u64 + 1);
    assert!(rt; most > 1 || whole.writes == REPORT.len() as u64 + 1);
    for number in 1..=whole.reads.saturating_add(whole.writes) {
        let read = if number > whole.reads { 0 } else { number };
        let write = number.saturating_sub(whole.reads);
        check_failing(rt, alloc, scenario, Calls { most, read, write });
    }
}

// Calls that transfer one octet, a few, or all.
// Shows P-098, P-100, P-101, P-103, P-104.
#[test]
fn each_call_may_fail(rt: HostRuntime) -> Result<(), Fail> {
    let scenario = format!(in rt.alloc();
        "{BAY}%%\n{LOGIC}%%\n1000 contact QA1 2\n1000 scan\n1500 contact QA1 1\n1500 scan\n"
    )?;
    for most in [1, 7, 1000] {
        check_each(&rt, rt.alloc(), scenario.as_bytes(), most);
    }
    Ok(())
}
