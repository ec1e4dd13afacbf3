// Turns of a server over clients in memory.
use crate::memory_link::MemoryLink;
use crate::session::{CONFIRM, CONNECT, CONNECTED, IDENTIFY, IDENTITY, REQUEST, octets_of, server};
use bay_base::position::Dbpos;
use bay_server_turn::server::Server;
use bay_server_turn::turn::serve_turn;
use bay_server_turn::turn_report::CloseReason;
use std::alloc::Global;
use std::cell::RefCell;
use std::process::Abort;
use std::test::Fail;

// Returns the octets of a client that sends `asked` identify requests.
fn session(alloc: Global, asked: usize) -> Result<Vec<u8>, Fail> {
    let mut octets = octets_of(alloc, &[REQUEST, CONNECT])?;
    let identify = octets_of(alloc, &[IDENTIFY])?;
    for _ in 0..asked {
        octets.extend_from_slice(identify.as_slice())?;
    }
    Ok(octets)
}

// Serves turns one millisecond apart, and returns the closings that they report.
fn serve_and_collect(
    alloc: Global,
    link: &mut MemoryLink<'_>,
    turns: u64,
) -> Result<Vec<(u16, CloseReason)>, Fail> {
    let mut server = server(alloc)?;
    let mut closed = Vec::new(alloc);
    for now in 0..turns {
        let turn = serve_turn(&mut server, link, now, None)?;
        closed.extend_from_slice(turn.closed.as_slice())?;
    }
    Ok(closed)
}

// Clients that each send a number of identify requests, and take a maximum number of octets at a
// write, with the number of octets that they take and why they are closed.
struct ClientRow {
    clients: usize,
    asked: usize,
    per_write: usize,
    turns: u64,
    taken: usize,
    closed: &'static [(u16, CloseReason)],
}

// A connection request and a request for an association that arrive together are answered in the
// same turn. With one octet at a write the result is the same; nine clients are served one after
// the other, each of which ends in the turn in which the next one connects; a client that never
// reads is closed.
const CLIENT_ROWS: [ClientRow; 4] = [
    ClientRow {
        clients: 1,
        asked: 0,
        per_write: 200,
        turns: 1,
        taken: 22 + 139,
        closed: &[],
    },
    ClientRow {
        clients: 1,
        asked: 1,
        per_write: 1,
        turns: 3,
        taken: 204,
        closed: &[(1, CloseReason::Ended)],
    },
    ClientRow {
        clients: 9,
        asked: 1,
        per_write: 50,
        turns: 20,
        taken: 9 * 204,
        closed: &[
            (1, CloseReason::Ended),
            (2, CloseReason::Ended),
            (1, CloseReason::Ended),
            (2, CloseReason::Ended),
            (1, CloseReason::Ended),
            (2, CloseReason::Ended),
            (1, CloseReason::Ended),
            (2, CloseReason::Ended),
            (1, CloseReason::Ended),
        ],
    },
    ClientRow {
        clients: 1,
        asked: 8000,
        per_write: 0,
        turns: 60,
        taken: 0,
        closed: &[(1, CloseReason::QueueFull)],
    },
];

// Shows P-122, P-123, P-125, P-126, P-129, P-130.
#[test]
fn clients_are_answered_and_closed(rt: HostRuntime) -> Result<(), Fail> {
    let whole = octets_of(rt.alloc(), &[CONFIRM, CONNECTED, IDENTITY])?;
    for row in CLIENT_ROWS.iter() {
        let asked = session(rt.alloc(), row.asked)?;
        let taken = RefCell::new(Vec::new(rt.alloc()));
        let mut link = MemoryLink::new(row.clients, asked, &taken);
        link.per_write = row.per_write;
        let closed = serve_and_collect(rt.alloc(), &mut link, row.turns)?;
        assert!(rt; closed.as_slice() == row.closed && link.closed == closed.len() as u64);
        drop(link);
        let taken = taken.into_inner();
        assert_eq!(rt; taken.len(), row.taken);
        assert!(rt; row.clients > 1 || whole.as_slice().starts_with(taken.as_slice()));
    }
    Ok(())
}

// Runs a session in which call number `fails_at` of the link fails, or none if it is 0. Asserts
// that the client received everything, or a prefix and the turn reports that its connection failed.
// Returns the number of calls.
fn check_session_with_failing_call(
    rt: &impl Abort,
    alloc: Global,
    fails_at: u64,
) -> Result<u64, Fail> {
    let asked = session(alloc, 1)?;
    let whole = octets_of(alloc, &[CONFIRM, CONNECTED, IDENTITY])?;
    let taken = RefCell::new(Vec::new(alloc));
    let mut link = MemoryLink::new(1, asked, &taken);
    link.ends = false;
    link.per_write = 50;
    link.fails_at = fails_at;
    let closed = serve_and_collect(alloc, &mut link, 3)?;
    let (calls, failures) = (link.calls, link.failures);
    drop(link);
    let taken = taken.into_inner();
    let is_closed = closed.as_slice() == [(1, CloseReason::LinkFailed)].as_slice();
    let is_whole = closed.is_empty() && taken.len() == whole.len();
    let is_told = is_whole || is_closed && fails_at > 0;
    assert!(rt;
        whole.as_slice().starts_with(taken.as_slice()) && is_told,
        "call {fails_at}"
    );
    assert_eq!(rt; failures, (fails_at > 0) as u64);
    Ok(calls)
}

// Shows P-125, P-127, P-129.
#[test]
fn each_call_may_fail(rt: HostRuntime) -> Result<(), Fail> {
    for fails_at in 1..=check_session_with_failing_call(&rt, rt.alloc(), 0)? {
        check_session_with_failing_call(&rt, rt.alloc(), fails_at)?;
    }
    Ok(())
}

// Turns that are refused: the line, the clock and the number of the fault. If both are wrong, the
// fault is that of the line.
const REFUSED: [(Option<&str>, u64, u8); 6] = [
    (Some("9 scan"), 5, 120),
    (Some("9 contact QA1 4"), 5, 120),
    (Some(""), 5, 120),
    (Some("9 scan"), 4_294_967_296_000, 120),
    (Some("9 contact QA1 1"), 4_294_967_296_000, 114),
    (None, 4_294_967_296_000, 114),
];

// Asserts that a server has this moment, and whether its first association is open and its first
// switch is in this position.
fn check_device(rt: &impl Abort, server: &Server, moment: u64, is_open: bool, position: Dbpos) {
    let device = server.device();
    assert!(rt; device.moment() == moment && device.is_open(1) == is_open);
    assert!(rt; device.position(0) == Some(position));
}

// A turn whose clock is before the moment of the device has this moment.
// Shows P-122, P-123.
#[test]
fn a_refused_turn_changes_nothing(rt: HostRuntime) -> Result<(), Fail> {
    let taken = RefCell::new(Vec::new(rt.alloc()));
    let mut link = MemoryLink::new(1, session(rt.alloc(), 0)?, &taken);
    let mut server = server(rt.alloc())?;
    for (line, clock, code) in REFUSED {
        let found = match serve_turn(&mut server, &mut link, clock, line) {
            Ok(_) => 0,
            Err(fault) => fault.code(),
        };
        assert!(rt; found == code && link.calls == 0);
        check_device(&rt, &server, 0, false, Dbpos::Intermediate);
    }
    let _turn = serve_turn(&mut server, &mut link, 5, Some("9 contact QA1 1"))?;
    check_device(&rt, &server, 5, true, Dbpos::Off);
    let _turn = serve_turn(&mut server, &mut link, 3, None)?;
    assert_eq!(rt; server.device().moment(), 5);
    drop(link);
    assert_eq!(rt; taken.into_inner().len(), CLIENT_ROWS[0].taken);
    Ok(())
}
