// Output whose readers read nothing for a while.
use bay_io::calls::{LinePart, Sink};
use bay_stdio::output::Output;
use bay_stdio::queue::OutputQueue;
use std::cell::{Cell, RefCell};
use std::io;
use std::io::{ErrorKind, Write};
use std::test::Fail;

// A reader that reads what is written while it is open.
#[derive(Clone, Copy)]
struct Reader<'a> {
    is_open: &'a Cell<bool>,
    taken: &'a RefCell<Vec<u8>>,
}

impl Write for Reader<'_> {
    fn write(&mut self, buf: &[u8]) -> io::Result<usize> {
        if !self.is_open.get() {
            return Ok(0);
        }
        self.taken.try_borrow_mut()?.extend_from_slice(buf)?;
        Ok(buf.len())
    }

    fn flush(&mut self) -> io::Result<()> {
        Ok(())
    }
}

// 65,536 octets, the most that are written at once.
const PIECE: [u8; 65_536] = [b'a'; 65_536];

// A queue that is full refuses further output, and later outputs all that it accepted. Lines of a
// log that nobody reads are dropped and counted.
// Shows P-101, P-102.
#[test]
fn readers_that_wait(rt: HostRuntime) -> Result<(), Fail> {
    let (is_open, taken) = (Cell::new(false), RefCell::new(Vec::new(rt.alloc())));
    let (reader, queue) = (
        Reader {
            is_open: &is_open,
            taken: &taken,
        },
        OutputQueue::new(rt.alloc())?,
    );
    let mut output = Output::new(reader, reader, Some(queue));
    for _ in 0..16 {
        assert!(rt; output.write_octets(&PIECE)? == 65_536);
    }
    assert!(rt; output.write_octets(b"b").is_err());
    is_open.set(true);
    assert!(rt; output.write_octets(b"b")? == 1);
    output.flush_octets()?;
    is_open.set(false);
    output.log_line(&[
        LinePart::Text(b"first "),
        LinePart::Number(1),
        LinePart::Text(b"\n"),
    ]);
    output.log_line(&[LinePart::Text(&PIECE)]);
    output.log_line(&[LinePart::Text(&PIECE)]);
    is_open.set(true);
    output.log_line(&[LinePart::Text(b"last\n")]);
    drop(output);
    let all = taken.into_inner();
    let last = all.as_slice().get(1_048_576..).unwrap_or(&[]);
    assert!(rt; last == b"bfirst 1\n2 lines of the log were lost\nlast\n".as_slice());
    Ok(())
}

// A reader that reads this number of octets, and whose calls then fail; and how often it was
// called.
#[derive(Clone, Copy)]
struct FailingReader<'a> {
    room: &'a Cell<usize>,
    taken: &'a RefCell<Vec<u8>>,
    writes: &'a Cell<u32>,
    flushes: &'a Cell<u32>,
}

impl Write for FailingReader<'_> {
    fn write(&mut self, buf: &[u8]) -> io::Result<usize> {
        self.writes.set(self.writes.get().saturating_add(1));
        let room = self.room.get();
        let count = room.min(buf.len());
        if count == 0 {
            return Err(io::Error::from(ErrorKind::BrokenPipe));
        }
        self.taken
            .try_borrow_mut()?
            .extend_from_slice(&buf[..count])?;
        self.room.set(room.saturating_sub(count));
        Ok(count)
    }

    fn flush(&mut self) -> io::Result<()> {
        self.flushes.set(self.flushes.get().saturating_add(1));
        Ok(())
    }
}

// If the reader of a full queue fails, a write puts nothing into the queue, and a flush stops at the
// call that fails. Without a queue, a write is one write, and a flush one flush.
// Shows P-102.
#[test]
fn readers_that_fail(rt: HostRuntime) -> Result<(), Fail> {
    let (room, writes, flushes) = (Cell::new(0usize), Cell::new(0u32), Cell::new(0u32));
    let taken = RefCell::new(Vec::new(rt.alloc()));
    let reader = FailingReader {
        room: &room,
        taken: &taken,
        writes: &writes,
        flushes: &flushes,
    };
    let mut output = Output::new(reader, reader, Some(OutputQueue::new(rt.alloc())?));
    for _ in 0..16 {
        assert!(rt; output.write_octets(&PIECE)? == 65_536);
    }
    assert!(rt; writes.get() == 0);
    room.set(3);
    assert!(rt; output.write_octets(b"b").is_err() && writes.get() == 2);
    room.set(70_000);
    assert!(rt; output.flush_octets().is_err() && writes.get() == 4);
    assert!(rt; output.write_octets(b"c")? == 1 && writes.get() == 4);
    room.set(2_000_000);
    output.flush_octets()?;
    assert!(rt; writes.get() == 5);
    let mut plain = Output::new(reader, reader, None);
    room.set(2);
    assert!(rt; plain.write_octets(b"def")? == 2 && writes.get() == 6);
    assert!(rt; plain.write_octets(b"f").is_err() && writes.get() == 7);
    plain.flush_octets()?;
    assert!(rt; flushes.get() == 1);
    drop(output);
    drop(plain);
    let all = taken.into_inner();
    let (first, last) = all
        .as_slice()
        .split_at_checked(1_048_576)
        .unwrap_or((&[], &[]));
    assert!(rt; first.len() == 1_048_576 && first.iter().all(|it| *it == b'a'));
    assert!(rt; last == b"cde".as_slice());
    Ok(())
}
