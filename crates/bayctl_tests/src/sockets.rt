// A link over the sockets of the system, call by call, and a client and the server in turn, on
// 127.0.0.1.
use crate::session::{CONFIRM, CONNECT, CONNECTED, IDENTIFY, IDENTITY, REQUEST, octets_of, server};
use bay_net::readiness::Readiness;
use bay_net::tcp::TcpLink;
use bay_server_turn::link::{Link, ReadResult};
use bay_server_turn::turn::serve_turn;
use std::cell::Cell;
use std::io::{ErrorKind, Read, Write};
use std::net::{Ipv4Addr, SocketAddr, TcpStream};
use std::rt::Clock;
use std::test::Fail;
use std::time::{Duration, Instant};
use std::{io, thread};

// A clock that is set by hand, in seconds.
#[derive(Drop)]
struct SetClock {
    seconds: Cell<u64>,
}

impl Clock for SetClock {
    fn monotonic(&self) -> io::Result<Duration> {
        Ok(Duration::from_secs(self.seconds.get()))
    }

    fn since_1970(&self) -> io::Result<Duration> {
        Ok(Duration::from_secs(self.seconds.get()))
    }
}

// Connects a client to a link. Its calls do not block.
fn client_of<C: Clock>(rt: &HostRuntime, link: &TcpLink<'_, C>) -> Result<TcpStream, Fail> {
    let address = SocketAddr::from((Ipv4Addr::LOCALHOST, link.port()?));
    let stream = TcpStream::connect(rt, address)?;
    stream.set_nonblocking(true)?;
    Ok(stream)
}

// Appends the octets that a client can read now to those that it has received.
fn read_some(stream: &TcpStream, answer: &mut Vec<u8>) -> Result<(), Fail> {
    let mut room = [0; 4096];
    match (&mut &*stream).read(&mut room) {
        Ok(more) => Ok(answer.extend_from_slice(&room[..more])?),
        Err(error) if error.kind() == ErrorKind::WouldBlock => Ok(()),
        Err(error) => Err(Fail::from(error)),
    }
}

// Returns how many octets a client receives: it waits for `count` octets, at most some seconds, and
// reads what follows them.
fn count_received(rt: &HostRuntime, stream: &TcpStream, count: usize) -> Result<usize, Fail> {
    let mut octets = Vec::new(rt.alloc());
    let mut idle = 0u32;
    for _ in 0..u32::MAX {
        let before = octets.len();
        read_some(stream, &mut octets)?;
        if octets.len() == before {
            if before >= count || idle == 3000 {
                break;
            }
            idle = idle.saturating_add(1);
            thread::sleep(rt, Duration::from_millis(1));
        }
    }
    Ok(octets.len())
}

// As many octets as are written at once.
const PIECE: [u8; 65_536] = [7; 65_536];

// Sends octets to client 1, which reads none, until the link takes none. Returns how many the link
// took, or `None` if a write fails or the link always takes more.
fn fill_link<C: Clock>(link: &mut TcpLink<'_, C>) -> Option<usize> {
    let mut written = 0usize;
    for _ in 0..4000 {
        match link.write(1, &PIECE) {
            Ok(0) => return Some(written),
            Ok(count) => written = written.saturating_add(count),
            Err(_) => return None,
        }
    }
    None
}

// Returns how many milliseconds a wait takes.
fn wait_time(rt: &HostRuntime, readiness: &mut Readiness, most: u64) -> io::Result<u128> {
    let begun = Instant::now(rt)?;
    readiness.wait(Duration::from_millis(most))?;
    Ok(begun.elapsed(rt)?.as_millis())
}

// A wait ends when a socket is ready, and not before. The read of a client fails if it sends
// nothing for ten seconds after its connection was accepted, but not once it has sent an octet.
// Octets that the system does not take are not counted as sent, and the end of one client does not
// affect another.
#[test]
fn clients_of_a_link(rt: HostRuntime) -> Result<(), Fail> {
    let clock = SetClock {
        seconds: Cell::new(100),
    };
    let mut readiness = Readiness::new(&rt, rt.alloc())?;
    let mut link = TcpLink::bind(&rt, &clock, &mut readiness, 0, None)?;
    let other = SocketAddr::from((Ipv4Addr::new(127, 0, 0, 2), link.port()?));
    assert!(rt; TcpStream::connect(&rt, other).is_err());
    assert_eq!(rt; link.accept(1), Ok(None));
    assert!(rt; matches!(wait_time(&rt, &mut readiness, 50), Ok(45..)));
    assert_eq!(rt; link.accept(1), Ok(None));
    let mut streams = Vec::new(rt.alloc());
    for place in 0..2u16 {
        streams.push(client_of(&rt, &link)?)?;
        assert!(rt; matches!(wait_time(&rt, &mut readiness, 30_000), Ok(..15_000)));
        assert!(rt; matches!(link.accept(place + 1), Ok(Some(_))));
        // the new connection becomes writable, which ends one more wait
        assert!(rt; wait_time(&rt, &mut readiness, 50).is_ok());
        assert!(rt; matches!(wait_time(&rt, &mut readiness, 50), Ok(45..)));
    }
    let [first, second] = streams.as_slice() else {
        return Err(Fail::from("two clients connect"));
    };
    (&mut &*first).write_all(b"a")?;
    assert!(rt; matches!(wait_time(&rt, &mut readiness, 30_000), Ok(..15_000)));
    clock.seconds.set(109);
    assert_eq!(rt; link.read(1, &mut [0; 16]), Ok(ReadResult::Bytes(1)));
    assert_eq!(rt; link.read(2, &mut [0; 16]), Ok(ReadResult::Nothing));
    clock.seconds.set(110);
    assert_eq!(rt; link.read(1, &mut [0; 16]), Ok(ReadResult::Nothing));
    assert_eq!(rt; link.failures(), 0);
    assert!(rt; link.read(2, &mut [0; 16]).is_err() && link.failures() == 1);
    link.close(2);
    assert!(rt; link.write(2, b"a").is_err());
    let written = fill_link(&mut link).unwrap_or(0);
    assert!(rt; written > 0 && count_received(&rt, first, written)? == written);
    assert_eq!(rt; count_received(&rt, second, 0)?, 0);
    Ok(())
}

// Of a link with a limit of 60 seconds a client fails that has sent nothing for 60 seconds since
// its last octets, and not one that has sent some.
#[test]
fn idle_clients_of_a_link(rt: HostRuntime) -> Result<(), Fail> {
    let clock = SetClock {
        seconds: Cell::new(100),
    };
    let mut readiness = Readiness::new(&rt, rt.alloc())?;
    let mut link = TcpLink::bind(&rt, &clock, &mut readiness, 0, Some(60))?;
    let stream = client_of(&rt, &link)?;
    assert!(rt; matches!(wait_time(&rt, &mut readiness, 30_000), Ok(..15_000)));
    assert!(rt; matches!(link.accept(1), Ok(Some(_))));
    for seconds in [105, 164, 223] {
        (&mut &stream).write_all(b"a")?;
        assert!(rt; matches!(wait_time(&rt, &mut readiness, 30_000), Ok(..15_000)));
        clock.seconds.set(seconds);
        assert_eq!(rt; link.read(1, &mut [0; 16]), Ok(ReadResult::Bytes(1)));
    }
    clock.seconds.set(282);
    assert_eq!(rt; link.read(1, &mut [0; 16]), Ok(ReadResult::Nothing));
    clock.seconds.set(283);
    assert!(rt; link.read(1, &mut [0; 16]).is_err() && link.failures() == 1);
    Ok(())
}

// Shows P-122.
#[test]
fn a_client_and_the_server_in_turn(rt: HostRuntime) -> Result<(), Fail> {
    let mut readiness = Readiness::new(&rt, rt.alloc())?;
    let mut link = TcpLink::bind(&rt, &rt, &mut readiness, 0, None)?;
    let stream = client_of(&rt, &link)?;
    let mut server = server(rt.alloc())?;
    let (mut taken, mut due) = (Vec::new(rt.alloc()), 0);
    let mut questions = [(REQUEST, 22), (CONNECT, 161), (IDENTIFY, 204)].into_iter();
    for now in 0..6000 {
        read_some(&stream, &mut taken)?;
        if taken.len() >= due {
            let Some((question, count)) = questions.next() else {
                break;
            };
            (&mut &stream).write_all(octets_of(rt.alloc(), &[question])?.as_slice())?;
            due = count;
        }
        serve_turn(&mut server, &mut link, now, None)?;
        thread::sleep(&rt, Duration::from_millis(1));
    }
    let answers = octets_of(rt.alloc(), &[CONFIRM, CONNECTED, IDENTITY])?;
    assert!(rt; taken.as_slice() == answers.as_slice());
    Ok(())
}
