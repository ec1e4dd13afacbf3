// Serving a process that is supervised, in memory.
use crate::serve::{HEARD, ServedCase, check};
use std::test::Fail;

// A process that is supervised, and must send a line within 1,500 ms.
const SUPERVISED: ServedCase = ServedCase {
    words: "serve --log --bay bay --logic logic --port 7 --turns 4 --process 9 --supervise 1500",
    processes: 1,
    received: "2000 process 1500 B 1\n",
    ..HEARD
};

// A process that names another bay, or another revision, has another key, or reports before it
// names any: it is closed before anything is written to it.
const STRANGER: ServedCase = ServedCase {
    received: "",
    wanted: "instructions=2 depth=1 budget=2
| 1970-01-01T00:00:01.000Z clients on 127.0.0.1:7, process on 127.0.0.1:9
| 1970-01-01T00:00:01.000Z bay SHA-256 039109cc180841997e6c30d729870d020103592c027cddd03bd60221d0cb410f
| 1970-01-01T00:00:01.000Z program SHA-256 191643a54f5dd1f9a729a29e20b4c496ac41c7d182285acc1f461dd8a2d01fee
| 1970-01-01T00:00:02.000Z process lost
| 1970-01-01T00:00:02.000Z position Q bad
| 1970-01-01T00:00:02.000Z process open
2000 process open
| 1970-01-01T00:00:03.000Z process lost
| 1970-01-01T00:00:03.000Z process closed 132: it is not the process of this bay, or has another key
3000 process closed 132
| 1970-01-01T00:00:05.000Z all turns are served
",
    ..SUPERVISED
};

const ROWS: [ServedCase; 15] = [
    // With a cycle, 100 ms and one reading of the clock are between the starts of two turns.
    ServedCase {
        words: "serve --log --bay bay --logic logic --port 7 --turns 3 --cycle 100",
        clients: Some(3),
        step: 10,
        status: 0,
        wanted: "instructions=2 depth=1 budget=2
| 1970-01-01T00:00:00.010Z clients on 127.0.0.1:7
| 1970-01-01T00:00:00.010Z bay SHA-256 039109cc180841997e6c30d729870d020103592c027cddd03bd60221d0cb410f
| 1970-01-01T00:00:00.010Z program SHA-256 191643a54f5dd1f9a729a29e20b4c496ac41c7d182285acc1f461dd8a2d01fee
| 1970-01-01T00:00:00.020Z association 1 open from 127.0.0.1:40000
| 1970-01-01T00:00:00.020Z association 1 closed 0: its client ended it
20 closed 1 0
| 1970-01-01T00:00:00.130Z association 1 open from 127.0.0.1:40000
| 1970-01-01T00:00:00.130Z association 1 closed 0: its client ended it
130 closed 1 0
| 1970-01-01T00:00:00.240Z association 1 open from 127.0.0.1:40000
| 1970-01-01T00:00:00.240Z association 1 closed 0: its client ended it
240 closed 1 0
| 1970-01-01T00:00:00.240Z all turns are served
",
        ..HEARD
    },
    // Lines of the process that wait are taken at once, in turns that skip their reads: only after
    // the last of them does the server wait for the end of the turn.
    ServedCase {
        words: "serve --log --bay bay --logic logic --port 7 --turns 5 --process 9 --cycle 100",
        processes: 1,
        lines: "0 contact Q 1\n0 contact Q 2\n0 contact Q 1\n",
        step: 10,
        wanted: "instructions=2 depth=1 budget=2
| 1970-01-01T00:00:00.010Z clients on 127.0.0.1:7, process on 127.0.0.1:9
| 1970-01-01T00:00:00.010Z bay SHA-256 039109cc180841997e6c30d729870d020103592c027cddd03bd60221d0cb410f
| 1970-01-01T00:00:00.010Z program SHA-256 191643a54f5dd1f9a729a29e20b4c496ac41c7d182285acc1f461dd8a2d01fee
| 1970-01-01T00:00:00.020Z process open
20 process open
| 1970-01-01T00:00:00.030Z position Q open
| 1970-01-01T00:00:00.040Z position Q closed
| 1970-01-01T00:00:00.050Z position Q open
| 1970-01-01T00:00:00.050Z process closed 0: it ended its connection
50 process closed 0
| 1970-01-01T00:00:00.160Z process lost
| 1970-01-01T00:00:00.160Z position Q bad
| 1970-01-01T00:00:00.160Z all turns are served
",
        ..HEARD
    },
    // At most 63 turns in a row skip their reads: the second client, which the second turn accepts,
    // is read in turn 65, while lines of the process still wait.
    ServedCase {
        words: "serve --log --bay bay --logic logic --port 7 --turns 66 --process 9",
        clients: Some(2),
        processes: 1,
        lines: "\n\n\n\n\n\n\n\n\n\n\n\n\n\n\n\n\n\n\n\n\n\n\n\n\n\n\n\n\n\n\n\n\n\n\n\
            \n\n\n\n\n\n\n\n\n\n\n\n\n\n\n\n\n\n\n\n\n\n\n\n\n\n\n\n\n\n\n\n\n\n\n",
        step: 1,
        wanted: "instructions=2 depth=1 budget=2
| 1970-01-01T00:00:00.001Z clients on 127.0.0.1:7, process on 127.0.0.1:9
| 1970-01-01T00:00:00.001Z bay SHA-256 039109cc180841997e6c30d729870d020103592c027cddd03bd60221d0cb410f
| 1970-01-01T00:00:00.001Z program SHA-256 191643a54f5dd1f9a729a29e20b4c496ac41c7d182285acc1f461dd8a2d01fee
| 1970-01-01T00:00:00.002Z association 1 open from 127.0.0.1:40000
| 1970-01-01T00:00:00.002Z association 1 closed 0: its client ended it
2 closed 1 0
| 1970-01-01T00:00:00.002Z process open
2 process open
| 1970-01-01T00:00:00.003Z association 1 open from 127.0.0.1:40000
| 1970-01-01T00:00:00.066Z association 1 closed 0: its client ended it
66 closed 1 0
| 1970-01-01T00:00:00.067Z all turns are served
",
        ..HEARD
    },
    // The process names this bay, reports a position, and is answered that the server is alive.
    ServedCase {
        lines: "2000 bay - B 1\n3000 contact Q 1\n4000 alive\n",
        received: "2000 process 1500 B 1\n5000 alive\n",
        wanted: "instructions=2 depth=1 budget=2
| 1970-01-01T00:00:01.000Z clients on 127.0.0.1:7, process on 127.0.0.1:9
| 1970-01-01T00:00:01.000Z bay SHA-256 039109cc180841997e6c30d729870d020103592c027cddd03bd60221d0cb410f
| 1970-01-01T00:00:01.000Z program SHA-256 191643a54f5dd1f9a729a29e20b4c496ac41c7d182285acc1f461dd8a2d01fee
| 1970-01-01T00:00:02.000Z process lost
| 1970-01-01T00:00:02.000Z position Q bad
| 1970-01-01T00:00:02.000Z process open
2000 process open
| 1970-01-01T00:00:04.000Z position Q open
| 1970-01-01T00:00:05.000Z process closed 0: it ended its connection
5000 process closed 0
| 1970-01-01T00:00:05.000Z all turns are served
",
        ..SUPERVISED
    },
    // It names another bay, or another revision, or reports before it names any.
    ServedCase {
        lines: "2000 bay - C 1\n",
        ..STRANGER
    },
    ServedCase {
        lines: "2000 bay - B 2\n",
        ..STRANGER
    },
    ServedCase {
        lines: "2000 contact Q 1\n",
        ..STRANGER
    },
    // It has another key, then the right one.
    ServedCase {
        lines: "2000 bay - B 1\n",
        words: "serve --log --bay bay --logic logic --port 7 --turns 4 --process 9 --supervise 1500 --key key",
        ..STRANGER
    },
    ServedCase {
        lines: "2000 bay 0123456789abcdefABCDEF0123456789 B 1\n",
        words: "serve --log --bay bay --logic logic --port 7 --turns 4 --process 9 --supervise 1500 --key key",
        wanted: "instructions=2 depth=1 budget=2
| 1970-01-01T00:00:01.000Z clients on 127.0.0.1:7, process on 127.0.0.1:9
| 1970-01-01T00:00:01.000Z bay SHA-256 039109cc180841997e6c30d729870d020103592c027cddd03bd60221d0cb410f
| 1970-01-01T00:00:01.000Z program SHA-256 191643a54f5dd1f9a729a29e20b4c496ac41c7d182285acc1f461dd8a2d01fee
| 1970-01-01T00:00:02.000Z process lost
| 1970-01-01T00:00:02.000Z position Q bad
| 1970-01-01T00:00:02.000Z process open
2000 process open
| 1970-01-01T00:00:03.000Z process closed 0: it ended its connection
3000 process closed 0
| 1970-01-01T00:00:04.000Z process lost
| 1970-01-01T00:00:05.000Z all turns are served
",
        ..SUPERVISED
    },
    // Its line is too old when a turn reads it; and a line has a time in the future.
    ServedCase {
        lines: "2000 bay - B 1\n2000 contact Q 1\n",
        wanted: "instructions=2 depth=1 budget=2
| 1970-01-01T00:00:01.000Z clients on 127.0.0.1:7, process on 127.0.0.1:9
| 1970-01-01T00:00:01.000Z bay SHA-256 039109cc180841997e6c30d729870d020103592c027cddd03bd60221d0cb410f
| 1970-01-01T00:00:01.000Z program SHA-256 191643a54f5dd1f9a729a29e20b4c496ac41c7d182285acc1f461dd8a2d01fee
| 1970-01-01T00:00:02.000Z process lost
| 1970-01-01T00:00:02.000Z position Q bad
| 1970-01-01T00:00:02.000Z process open
2000 process open
| 1970-01-01T00:00:04.000Z process lost
| 1970-01-01T00:00:04.000Z process closed 133: its time is too far from the server's
4000 process closed 133
| 1970-01-01T00:00:05.000Z all turns are served
",
        ..SUPERVISED
    },
    ServedCase {
        lines: "2000 bay - B 1\n9000 contact Q 1\n",
        wanted: "instructions=2 depth=1 budget=2
| 1970-01-01T00:00:01.000Z clients on 127.0.0.1:7, process on 127.0.0.1:9
| 1970-01-01T00:00:01.000Z bay SHA-256 039109cc180841997e6c30d729870d020103592c027cddd03bd60221d0cb410f
| 1970-01-01T00:00:01.000Z program SHA-256 191643a54f5dd1f9a729a29e20b4c496ac41c7d182285acc1f461dd8a2d01fee
| 1970-01-01T00:00:02.000Z process lost
| 1970-01-01T00:00:02.000Z position Q bad
| 1970-01-01T00:00:02.000Z process open
2000 process open
| 1970-01-01T00:00:04.000Z process lost
| 1970-01-01T00:00:04.000Z process closed 133: its time is too far from the server's
4000 process closed 133
| 1970-01-01T00:00:05.000Z all turns are served
",
        ..SUPERVISED
    },
    // It sends nothing more.
    ServedCase {
        lines: "2000 bay - B 1\n",
        stays: true,
        wanted: "instructions=2 depth=1 budget=2
| 1970-01-01T00:00:01.000Z clients on 127.0.0.1:7, process on 127.0.0.1:9
| 1970-01-01T00:00:01.000Z bay SHA-256 039109cc180841997e6c30d729870d020103592c027cddd03bd60221d0cb410f
| 1970-01-01T00:00:01.000Z program SHA-256 191643a54f5dd1f9a729a29e20b4c496ac41c7d182285acc1f461dd8a2d01fee
| 1970-01-01T00:00:02.000Z process lost
| 1970-01-01T00:00:02.000Z position Q bad
| 1970-01-01T00:00:02.000Z process open
2000 process open
| 1970-01-01T00:00:04.000Z process lost
| 1970-01-01T00:00:04.000Z process closed 134: no line for 1500 ms
4000 process closed 134
| 1970-01-01T00:00:05.000Z all turns are served
",
        ..SUPERVISED
    },
    // It sends nothing more after its last line, whose time is before the turn that read it.
    ServedCase {
        lines: "2000 bay - B 1\n2900 alive\n",
        stays: true,
        words: "serve --log --bay bay --logic logic --port 7 --turns 4 --process 9 --supervise 2000",
        received: "2000 process 2000 B 1\n4000 alive\n",
        wanted: "instructions=2 depth=1 budget=2
| 1970-01-01T00:00:01.000Z clients on 127.0.0.1:7, process on 127.0.0.1:9
| 1970-01-01T00:00:01.000Z bay SHA-256 039109cc180841997e6c30d729870d020103592c027cddd03bd60221d0cb410f
| 1970-01-01T00:00:01.000Z program SHA-256 191643a54f5dd1f9a729a29e20b4c496ac41c7d182285acc1f461dd8a2d01fee
| 1970-01-01T00:00:02.000Z process lost
| 1970-01-01T00:00:02.000Z position Q bad
| 1970-01-01T00:00:02.000Z process open
2000 process open
| 1970-01-01T00:00:05.000Z process lost
| 1970-01-01T00:00:05.000Z process closed 134: no line for 2000 ms
5000 process closed 134
| 1970-01-01T00:00:05.000Z all turns are served
",
        ..SUPERVISED
    },
    // The time of a line is before that of the line before it.
    ServedCase {
        lines: "2000 bay - B 1\n1999 alive\n",
        words: "serve --log --bay bay --logic logic --port 7 --turns 4 --process 9 --supervise 2500",
        received: "2000 process 2500 B 1\n",
        wanted: "instructions=2 depth=1 budget=2
| 1970-01-01T00:00:01.000Z clients on 127.0.0.1:7, process on 127.0.0.1:9
| 1970-01-01T00:00:01.000Z bay SHA-256 039109cc180841997e6c30d729870d020103592c027cddd03bd60221d0cb410f
| 1970-01-01T00:00:01.000Z program SHA-256 191643a54f5dd1f9a729a29e20b4c496ac41c7d182285acc1f461dd8a2d01fee
| 1970-01-01T00:00:02.000Z process lost
| 1970-01-01T00:00:02.000Z position Q bad
| 1970-01-01T00:00:02.000Z process open
2000 process open
| 1970-01-01T00:00:04.000Z process lost
| 1970-01-01T00:00:04.000Z process closed 133: its time is before that of the line before
4000 process closed 133
| 1970-01-01T00:00:05.000Z all turns are served
",
        ..SUPERVISED
    },
    // The system's clock goes on by an hour more than the steady one, as it does if the machine
    // sleeps.
    ServedCase {
        lines: "2000 bay - B 1\n",
        received: "",
        stays: true,
        jump: 3_600_000,
        wanted: "instructions=2 depth=1 budget=2
| 1970-01-01T00:00:01.000Z clients on 127.0.0.1:7, process on 127.0.0.1:9
| 1970-01-01T00:00:01.000Z bay SHA-256 039109cc180841997e6c30d729870d020103592c027cddd03bd60221d0cb410f
| 1970-01-01T00:00:01.000Z program SHA-256 191643a54f5dd1f9a729a29e20b4c496ac41c7d182285acc1f461dd8a2d01fee
| 1970-01-01T00:00:02.000Z process lost
| 1970-01-01T00:00:02.000Z position Q bad
| 1970-01-01T00:00:02.000Z process open
2000 process open
| 1970-01-01T00:00:03.010Z the system's clock is 3599990 ms ahead
| 1970-01-01T00:00:03.010Z process lost
| 1970-01-01T00:00:03.010Z process closed 134: the clock has jumped
3010 process closed 134
| 1970-01-01T00:00:05.030Z all turns are served
",
        ..SUPERVISED
    },
];

// Shows P-115, P-117, P-121, P-122, P-133.
#[test]
fn rules_over_memory(rt: HostRuntime) -> Result<(), Fail> {
    for row in ROWS.iter() {
        check(&rt, rt.alloc(), row)?;
    }
    Ok(())
}
