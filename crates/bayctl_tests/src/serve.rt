// A command over links, a host and files in memory: what it prints, what it logs, what it sends to
// the process, and its status.
use crate::memory_host::{Ports, Recorder, Texts};
use crate::memory_link::MemoryLink;
use crate::session::{CONNECT, REQUEST, octets_of};
use bay_io::reader::WatchedReader;
use bay_io::writer::WatchedWriter;
use bay_main::commands::obey;
use std::alloc::Global;
use std::cell::RefCell;
use std::process::Abort;
use std::test::Fail;

/// The clients and processes of a command, with what it must print, log and send, and its status.
#[derive(Clone, Copy)]
pub struct ServedCase {
    pub words: &'static str,
    // the content of the file `trace`, and of standard input
    pub trace: &'static str,
    // the number of clients; `None` if their port can't be opened
    pub clients: Option<usize>,
    // the octets that each client sends; clients that send nothing end
    pub asked: &'static [&'static str],
    // the number of processes, which connect one after the other; their port can't be opened if
    // there is none
    pub processes: usize,
    // the lines that each process sends, and how many octets are read at a time
    pub lines: &'static str,
    pub per_read: usize,
    // whether the process stays connected after its lines; otherwise it ends
    pub stays: bool,
    // the number of the call of the process's link that fails, or 0
    pub fails_at: u64,
    // the time of the clocks before they are first read, by how much they advance, and by how much
    // the clock of the system jumps for a while
    pub now: u64,
    pub step: u64,
    pub jump: u64,
    pub status: u8,
    // the lines that the process receives
    pub received: &'static str,
    // what is printed, and what is logged, each line after `| `
    pub wanted: &'static str,
}

// One client, which ends at once.
const ENDING: ServedCase = ServedCase {
    words: "serve --log --bay bay --logic logic --port 7 --turns 4 --trace trace",
    trace: "",
    clients: Some(1),
    asked: &[],
    processes: 0,
    lines: "",
    per_read: 1000,
    stays: false,
    fails_at: 0,
    now: 0,
    step: 1000,
    jump: 0,
    status: 3,
    received: "",
    wanted: "",
};

/// No client, and a process.
pub const HEARD: ServedCase = ServedCase {
    words: "serve --log --bay bay --logic logic --port 7 --turns 8 --process 9",
    clients: Some(0),
    status: 0,
    ..ENDING
};

// A read of CSWI1$CO$Pos$SBO.
const SELECT: &str =
    "0300003d02f080010001006130302e020103a029a027020102a422a120a01e301ca01aa1181a04424159311a10435357493124434f24506f732453424f";

// ON to CSWI1$CO$Pos$Oper, with orCat 2, orIdent OPERATOR and ctlNum 7.
const CLOSE: &str =
    "0300006602f0800100010061593057020103a052a050020103a54ba01f301da01ba1191a04424159311a11435357493124434f24506f73244f706572a028a2268301ffa20d85010289084f50455241544f528601079108000000000000002a83010084020600";

// OFF to CSWI2$CO$Pos$Oper, with orCat -3, no orIdent and ctlNum 0.
const OPEN: &str =
    "0300005e02f080010001006151304f020103a04aa048020104a543a01f301da01ba1191a04424159311a11435357493224434f24506f73244f706572a020a21e830100a2058501fd89008601009108000000000000002a83010084020600";

// A cancel of CSWI1$CO$Pos$Cancel, with an orIdent of A and the octet 1, and ctlNum 255.
const CANCEL: &str =
    "0300005f02f0800100010061523050020103a04ba049020105a544a021301fa01da11b1a04424159311a13435357493124434f24506f732443616e63656ca01fa21d8301ffa20785010289024101860200ff9108000000000000002a830100";

const ROWS: [ServedCase; 22] = [
    ServedCase {
        trace: "\n9 contact X 1\r\n\n9 contact Q 1\n",
        status: 0,
        wanted: "instructions=2 depth=1 budget=2
| 1970-01-01T00:00:01.000Z clients on 127.0.0.1:7
| 1970-01-01T00:00:01.000Z bay SHA-256 039109cc180841997e6c30d729870d020103592c027cddd03bd60221d0cb410f
| 1970-01-01T00:00:01.000Z program SHA-256 191643a54f5dd1f9a729a29e20b4c496ac41c7d182285acc1f461dd8a2d01fee
| 1970-01-01T00:00:02.000Z association 1 open from 127.0.0.1:40000
| 1970-01-01T00:00:02.000Z refused 113: 9 contact X 1
| 1970-01-01T00:00:02.000Z association 1 closed 0: its client ended it
2000 refused 113
2000 closed 1 0
| 1970-01-01T00:00:03.000Z position Q open
| 1970-01-01T00:00:05.000Z all turns are served
",
        ..ENDING
    },
    ServedCase {
        trace: "9 contact Q 1\n\n9 scan\n",
        wanted: "instructions=2 depth=1 budget=2
| 1970-01-01T00:00:01.000Z clients on 127.0.0.1:7
| 1970-01-01T00:00:01.000Z bay SHA-256 039109cc180841997e6c30d729870d020103592c027cddd03bd60221d0cb410f
| 1970-01-01T00:00:01.000Z program SHA-256 191643a54f5dd1f9a729a29e20b4c496ac41c7d182285acc1f461dd8a2d01fee
| 1970-01-01T00:00:02.000Z association 1 open from 127.0.0.1:40000
| 1970-01-01T00:00:02.000Z association 1 closed 0: its client ended it
| 1970-01-01T00:00:02.000Z position Q open
2000 closed 1 0
| bayctl: fault 120 line 3: 9 scan
fault 120 line 3
",
        ..ENDING
    },
    ServedCase {
        trace: "9 contact Q 1\n\n9 open 1\n",
        wanted: "instructions=2 depth=1 budget=2
| 1970-01-01T00:00:01.000Z clients on 127.0.0.1:7
| 1970-01-01T00:00:01.000Z bay SHA-256 039109cc180841997e6c30d729870d020103592c027cddd03bd60221d0cb410f
| 1970-01-01T00:00:01.000Z program SHA-256 191643a54f5dd1f9a729a29e20b4c496ac41c7d182285acc1f461dd8a2d01fee
| 1970-01-01T00:00:02.000Z association 1 open from 127.0.0.1:40000
| 1970-01-01T00:00:02.000Z association 1 closed 0: its client ended it
| 1970-01-01T00:00:02.000Z position Q open
2000 closed 1 0
| bayctl: fault 120 line 3: 9 open 1
fault 120 line 3
",
        ..ENDING
    },
    ServedCase {
        now: 4_294_967_294_000,
        wanted: "instructions=2 depth=1 budget=2
| 2106-02-07T06:28:15.000Z clients on 127.0.0.1:7
| 2106-02-07T06:28:15.000Z bay SHA-256 039109cc180841997e6c30d729870d020103592c027cddd03bd60221d0cb410f
| 2106-02-07T06:28:15.000Z program SHA-256 191643a54f5dd1f9a729a29e20b4c496ac41c7d182285acc1f461dd8a2d01fee
| bayctl: fault 114: the clock is past the last moment
fault 114
",
        ..ENDING
    },
    // Seven clients come and go: the sixth has no lines in the log, which counts them.
    ServedCase {
        words: "serve --log --bay bay --logic logic --port 7 --turns 7",
        clients: Some(7),
        now: 1_800,
        step: 150,
        status: 0,
        wanted: "instructions=2 depth=1 budget=2
| 1970-01-01T00:00:01.950Z clients on 127.0.0.1:7
| 1970-01-01T00:00:01.950Z bay SHA-256 039109cc180841997e6c30d729870d020103592c027cddd03bd60221d0cb410f
| 1970-01-01T00:00:01.950Z program SHA-256 191643a54f5dd1f9a729a29e20b4c496ac41c7d182285acc1f461dd8a2d01fee
| 1970-01-01T00:00:02.100Z association 1 open from 127.0.0.1:40000
| 1970-01-01T00:00:02.100Z association 1 closed 0: its client ended it
2100 closed 1 0
| 1970-01-01T00:00:02.250Z association 1 open from 127.0.0.1:40000
| 1970-01-01T00:00:02.250Z association 1 closed 0: its client ended it
2250 closed 1 0
| 1970-01-01T00:00:02.400Z association 1 open from 127.0.0.1:40000
| 1970-01-01T00:00:02.400Z association 1 closed 0: its client ended it
2400 closed 1 0
| 1970-01-01T00:00:02.550Z association 1 open from 127.0.0.1:40000
| 1970-01-01T00:00:02.550Z association 1 closed 0: its client ended it
2550 closed 1 0
| 1970-01-01T00:00:02.700Z association 1 open from 127.0.0.1:40000
| 1970-01-01T00:00:02.700Z association 1 closed 0: its client ended it
2700 closed 1 0
2850 closed 1 0
| 1970-01-01T00:00:03.000Z 2 lines of connections left out
| 1970-01-01T00:00:03.000Z association 1 open from 127.0.0.1:40000
| 1970-01-01T00:00:03.000Z association 1 closed 0: its client ended it
3000 closed 1 0
| 1970-01-01T00:00:03.000Z all turns are served
",
        ..ENDING
    },
    ServedCase {
        words: "serve --log --bay bay --logic logic --port 7 --turns 6",
        clients: Some(0),
        jump: 3_600_000,
        status: 0,
        wanted: "instructions=2 depth=1 budget=2
| 1970-01-01T00:00:01.000Z clients on 127.0.0.1:7
| 1970-01-01T00:00:01.000Z bay SHA-256 039109cc180841997e6c30d729870d020103592c027cddd03bd60221d0cb410f
| 1970-01-01T00:00:01.000Z program SHA-256 191643a54f5dd1f9a729a29e20b4c496ac41c7d182285acc1f461dd8a2d01fee
| 1970-01-01T00:00:03.010Z the system's clock is 3599990 ms ahead
| 1970-01-01T00:00:06.020Z the system's clock agrees again
| 1970-01-01T00:00:07.010Z all turns are served
",
        ..ENDING
    },
    ServedCase {
        words: "serve --log --bay bay --logic logic --port 7 --turns 4 --process 9 --supervise 500 --key others",
        wanted: "fault 121
| bayctl: fault 121: others: only its owner may read it
",
        ..ENDING
    },
    ServedCase {
        words: "serve --log --bay bay --logic logic --port 7 --turns 4 --process 9 --supervise 500 --key bay",
        wanted: "fault 121
| bayctl: fault 121: bay: a key has 32 to 64 hexadecimal digits
",
        ..ENDING
    },
    ServedCase {
        clients: None,
        wanted: "instructions=2 depth=1 budget=2
fault 121
| bayctl: fault 121: port 7: another program uses it
",
        ..ENDING
    },
    ServedCase {
        words: "serve --log --bay bay --logic logic --port 7 --turns 4 --trace none",
        wanted: "fault 121
| bayctl: fault 121: none: there is no such file
",
        ..ENDING
    },
    ServedCase {
        words: "serve --log --bay none --logic logic --port 7 --turns 4",
        wanted: "fault 121
| bayctl: fault 121: none: there is no such file
",
        ..ENDING
    },
    ServedCase {
        words: "serve --log --bay trace --logic logic --port 7 --turns 4",
        trace: "x",
        status: 1,
        wanted: "load refused 50
| bayctl: load refused 50: the text is not a TOML document, or is too long
",
        ..ENDING
    },
    ServedCase {
        words: "replay --log",
        trace: "x\n%%\ny\n%%\n",
        status: 1,
        wanted: "load refused 50
| bayctl: load refused 50: the text is not a TOML document, or is too long
",
        ..ENDING
    },
    ServedCase {
        words: "replay --log",
        trace: "x",
        wanted: "fault 120 line 0
| bayctl: fault 120 line 0: a line %% is missing
",
        ..ENDING
    },
    ServedCase {
        words: "replay --log",
        trace: "bay = { domain = \"B\", vendor = \"V\", model = \"M\", revision = \"1\", scan_max_age_ms = 0 }
switch = [{ id = \"Q\", kind = \"breaker\", control = \"status\" }]
%%
PROGRAM P
END_PROGRAM
%%
9 contact Q 1
9 skan\x1b
",
        wanted: "instructions=2 depth=1 budget=2
fault 120 line 2
| bayctl: fault 120 line 2: 9 skan\\x1b
",
        ..ENDING
    },
    ServedCase {
        words: "serve --log --bay two --logic free --port 7 --turns 2 --trace trace",
        trace: "0 contact QA1 1\n",
        clients: Some(2),
        asked: &[REQUEST, CONNECT, SELECT, CLOSE, OPEN, CANCEL],
        status: 0,
        wanted: "instructions=6 depth=1 budget=6
| 1970-01-01T00:00:01.000Z clients on 127.0.0.1:7
| 1970-01-01T00:00:01.000Z bay SHA-256 7c05d1c6048fc64c501c8ebe5001d84c6f4fb5d5ec45095d2f515894f33f4698
| 1970-01-01T00:00:01.000Z program SHA-256 24bb2302144b494979e04d97fbdd36d58709795c22ddc55f12e9ac21d424731f
| 1970-01-01T00:00:02.000Z association 1 open from 127.0.0.1:40000
| 1970-01-01T00:00:02.000Z association 1 select QA1: done
| 1970-01-01T00:00:02.000Z association 1 operate QA1 close orCat=2 orIdent=OPERATOR ctlNum=7: refused 10: the interlocking does not release the operation
| 1970-01-01T00:00:02.000Z association 1 operate QB1 open orCat=-3 orIdent= ctlNum=0: refused 10: the interlocking does not release the operation
| 1970-01-01T00:00:02.000Z association 1 cancel QA1 close orCat=2 orIdent=A\\x01 ctlNum=255: refused 18: the association has not selected the switch for this
| 1970-01-01T00:00:02.000Z position QA1 open
| 1970-01-01T00:00:02.000Z release QB1 open=1 close=1
| 1970-01-01T00:00:03.000Z association 2 open from 127.0.0.1:40000
| 1970-01-01T00:00:03.000Z association 2 select QA1: done
| 1970-01-01T00:00:03.000Z association 2 operate QA1 close orCat=2 orIdent=OPERATOR ctlNum=7: refused 10: the interlocking does not release the operation
| 1970-01-01T00:00:03.000Z association 2 operate QB1 open orCat=-3 orIdent= ctlNum=0: done
| 1970-01-01T00:00:03.000Z association 2 cancel QA1 close orCat=2 orIdent=A\\x01 ctlNum=255: refused 18: the association has not selected the switch for this
3000 command QB1 off
| 1970-01-01T00:00:03.000Z all turns are served
",
        ..ENDING
    },
    ServedCase {
        processes: 1,
        lines: "0 contact Q 1\n0 contact X 2\r\n",
        per_read: 19,
        received: "4000 refused 113\n",
        wanted: "instructions=2 depth=1 budget=2
| 1970-01-01T00:00:01.000Z clients on 127.0.0.1:7, process on 127.0.0.1:9
| 1970-01-01T00:00:01.000Z bay SHA-256 039109cc180841997e6c30d729870d020103592c027cddd03bd60221d0cb410f
| 1970-01-01T00:00:01.000Z program SHA-256 191643a54f5dd1f9a729a29e20b4c496ac41c7d182285acc1f461dd8a2d01fee
| 1970-01-01T00:00:02.000Z process open
2000 process open
| 1970-01-01T00:00:03.000Z position Q open
| 1970-01-01T00:00:04.000Z refused 113: 0 contact X 2
4000 refused 113
| 1970-01-01T00:00:04.000Z process closed 0: it ended its connection
4000 process closed 0
| 1970-01-01T00:00:05.000Z process lost
| 1970-01-01T00:00:05.000Z position Q bad
| 1970-01-01T00:00:09.000Z all turns are served
",
        ..HEARD
    },
    ServedCase {
        processes: 1,
        lines: "0 contact X 1\n",
        fails_at: 3,
        wanted: "instructions=2 depth=1 budget=2
| 1970-01-01T00:00:01.000Z clients on 127.0.0.1:7, process on 127.0.0.1:9
| 1970-01-01T00:00:01.000Z bay SHA-256 039109cc180841997e6c30d729870d020103592c027cddd03bd60221d0cb410f
| 1970-01-01T00:00:01.000Z program SHA-256 191643a54f5dd1f9a729a29e20b4c496ac41c7d182285acc1f461dd8a2d01fee
| 1970-01-01T00:00:02.000Z process open
2000 process open
| 1970-01-01T00:00:03.000Z refused 113: 0 contact X 1
3000 refused 113
| 1970-01-01T00:00:03.000Z process closed 131: its connection failed, or it sent nothing for 10 seconds
3000 process closed 131
| 1970-01-01T00:00:04.000Z process lost
| 1970-01-01T00:00:04.000Z position Q bad
| 1970-01-01T00:00:09.000Z all turns are served
",
        ..HEARD
    },
    ServedCase {
        processes: 1,
        lines: "0 contact Q 1\n\n0 scan\x1b\n",
        per_read: 14,
        wanted: "instructions=2 depth=1 budget=2
| 1970-01-01T00:00:01.000Z clients on 127.0.0.1:7, process on 127.0.0.1:9
| 1970-01-01T00:00:01.000Z bay SHA-256 039109cc180841997e6c30d729870d020103592c027cddd03bd60221d0cb410f
| 1970-01-01T00:00:01.000Z program SHA-256 191643a54f5dd1f9a729a29e20b4c496ac41c7d182285acc1f461dd8a2d01fee
| 1970-01-01T00:00:02.000Z process open
2000 process open
| 1970-01-01T00:00:03.000Z position Q open
| 1970-01-01T00:00:05.000Z process lost
| 1970-01-01T00:00:05.000Z position Q bad
| 1970-01-01T00:00:05.000Z process closed 120: 0 scan\\x1b
5000 process closed 120
| 1970-01-01T00:00:09.000Z all turns are served
",
        ..HEARD
    },
    ServedCase {
        processes: 1,
        lines: "0 contact Q 1\n\n0 contact Q 4\n",
        per_read: 14,
        wanted: "instructions=2 depth=1 budget=2
| 1970-01-01T00:00:01.000Z clients on 127.0.0.1:7, process on 127.0.0.1:9
| 1970-01-01T00:00:01.000Z bay SHA-256 039109cc180841997e6c30d729870d020103592c027cddd03bd60221d0cb410f
| 1970-01-01T00:00:01.000Z program SHA-256 191643a54f5dd1f9a729a29e20b4c496ac41c7d182285acc1f461dd8a2d01fee
| 1970-01-01T00:00:02.000Z process open
2000 process open
| 1970-01-01T00:00:03.000Z position Q open
| 1970-01-01T00:00:05.000Z process lost
| 1970-01-01T00:00:05.000Z position Q bad
| 1970-01-01T00:00:05.000Z process closed 120: 0 contact Q 4
5000 process closed 120
| 1970-01-01T00:00:09.000Z all turns are served
",
        ..HEARD
    },
    // Another process connects after the turn with the loss, one turn after the closing.
    ServedCase {
        processes: 2,
        lines: "0 contact Q 1\n",
        wanted: "instructions=2 depth=1 budget=2
| 1970-01-01T00:00:01.000Z clients on 127.0.0.1:7, process on 127.0.0.1:9
| 1970-01-01T00:00:01.000Z bay SHA-256 039109cc180841997e6c30d729870d020103592c027cddd03bd60221d0cb410f
| 1970-01-01T00:00:01.000Z program SHA-256 191643a54f5dd1f9a729a29e20b4c496ac41c7d182285acc1f461dd8a2d01fee
| 1970-01-01T00:00:02.000Z process open
2000 process open
| 1970-01-01T00:00:03.000Z position Q open
| 1970-01-01T00:00:03.000Z process closed 0: it ended its connection
3000 process closed 0
| 1970-01-01T00:00:04.000Z process lost
| 1970-01-01T00:00:04.000Z position Q bad
| 1970-01-01T00:00:04.000Z process open
4000 process open
| 1970-01-01T00:00:05.000Z position Q open
| 1970-01-01T00:00:05.000Z process closed 0: it ended its connection
5000 process closed 0
| 1970-01-01T00:00:06.000Z process lost
| 1970-01-01T00:00:06.000Z position Q bad
| 1970-01-01T00:00:09.000Z all turns are served
",
        ..HEARD
    },
    ServedCase {
        status: 3,
        wanted: "instructions=2 depth=1 budget=2
fault 121
| bayctl: fault 121: port 9: permission denied
",
        ..HEARD
    },
];

/// Checks that a command has the results of its row.
pub fn check(rt: &impl Abort, alloc: Global, row: &ServedCase) -> Result<(), Fail> {
    let (text, received) = (RefCell::new(Vec::new(alloc)), RefCell::new(Vec::new(alloc)));
    let words: Vec<&str> = row.words.split(" ").collect(alloc)?;
    let mut clients = MemoryLink::new(
        row.clients.unwrap_or(0),
        octets_of(alloc, row.asked)?,
        &received,
    );
    clients.ends = row.asked.is_empty();
    let mut process = MemoryLink::new(
        row.processes,
        row.lines.as_bytes().to_vec(alloc)?,
        &received,
    );
    process.per_read = row.per_read;
    process.ends = !row.stays;
    process.fails_at = row.fails_at;
    let mut host = Ports {
        clients: row.clients.is_some().then_some(clients),
        process: (row.processes > 0).then_some(process),
        now: row.now,
        step: row.step,
        readings: 0,
        jump: row.jump,
    };
    let ended = obey(
        alloc,
        words.as_slice(),
        &mut Texts { trace: row.trace },
        &mut host,
        &mut WatchedReader::new(row.trace.as_bytes()),
        &mut WatchedWriter::new(Recorder { text: &text }),
    );
    assert_eq!(rt; ended.status(), row.status, "{}", row.words);
    drop(host);
    assert_eq!(rt; str::from_utf8(text.into_inner().as_slice())?, row.wanted);
    let received = received.into_inner();
    assert!(rt;
        row.processes == 0 || received.as_slice() == row.received.as_bytes(),
        "{}",
        row.lines
    );
    Ok(())
}

// Shows P-026, P-109, P-112, P-113, P-114, P-115, P-120, P-121, P-123, P-132, P-139.
#[test]
fn commands_over_memory(rt: HostRuntime) -> Result<(), Fail> {
    for row in ROWS.iter() {
        check(&rt, rt.alloc(), row)?;
    }
    Ok(())
}
