// The tasks of the program.

/// The file of a program in Instruction List, or of a compiled one.
#[derive(Clone, Copy)]
pub enum ProgramFile<T> {
    Logic(T),
    Image(T),
}

/// What a command line requests.
#[derive(Drop)]
pub struct Invocation<T> {
    pub task: Task<T>,
    /// Whether the log is written.
    pub log: bool,
}

/// The options of `serve` that may be left out.
#[derive(Clone, Copy, Debug)]
pub struct ServeOptions<T> {
    /// The trace of the process, which is read line by line before the process is listened to.
    pub trace: Option<T>,
    /// The port of 127.0.0.1 on which the controller listens to the process, 1 to 65,535.
    pub process: Option<u16>,
    /// The longest silence of a supervised process, 100 to 60,000 milliseconds.
    pub limit_ms: Option<u32>,
    /// The file with the key that a supervised process must know.
    pub key: Option<T>,
    /// The new file in which the session is recorded: what the device is given.
    pub record_file: Option<T>,
    /// The most octets of that file, 1 to 16,777,216.
    pub record_most: Option<u32>,
    /// The most seconds for which a client may send nothing, 10 to 3,600.
    pub idle_s: Option<u32>,
    /// The least milliseconds that a turn lasts, 1 to 100.
    pub cycle_ms: Option<u32>,
    /// The rules of an audit; for `serve`, those that must hold.
    pub rules: Option<T>,
    /// The single line diagram of an audit; for `serve`, that in which no release may be a hazard.
    pub diagram: Option<T>,
}

/// What `serve` does: the bay file, the program, the port of 127.0.0.1 on which clients are served,
/// from 1 on, the number of turns, whether releases are sent to the process, and the other options.
#[derive(Clone, Copy)]
pub struct ServeTask<T> {
    pub bay: T,
    pub program: ProgramFile<T>,
    pub port: u16,
    pub turns: u32,
    pub sends_releases: bool,
    pub options: ServeOptions<T>,
}

/// A task, with the names of its files and its numbers.
#[derive(Drop)]
pub enum Task<T> {
    /// Loads a bay with a program and reports the result.
    Check {
        bay: T,
        program: ProgramFile<T>,
    },
    /// Replays a scenario.
    Replay,
    /// Serves clients. A trace comes before the process, and a supervised process has none. Nothing
    /// is served unless each of the rules holds, and no release is a hazard in the diagram.
    Serve(ServeTask<T>),
    /// Audits rules, a diagram, or both, for a bay with a program, with an effort from 1 to
    /// 100,000, if it is given: the millions of octets of code that the audit looks at for each of
    /// the two.
    Audit {
        bay: T,
        program: ProgramFile<T>,
        rules: Option<T>,
        diagram: Option<T>,
        effort: Option<u32>,
    },
    /// Compiles a program to a file.
    Compile {
        bay: T,
        logic: T,
        out: T,
    },
}
