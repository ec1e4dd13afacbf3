// The connection of the program to its system: arguments, files, standard input, standard output,
// standard error and the exit status.
ghost use Rattle.std.specs.Prelude.{◌≡◌, map, IfOk};
ghost use Rattle.std.specs.Process.{exit_status};
ghost use Rattle.bay_stdio.specs.Descriptor.{accepted_octets};
ghost use Rattle.bay_server_turn.specs.Calls.{CountedCall};
ghost use Rattle.bay_main.specs.Ending.{status_of};
ghost use Rattle.bay_main.specs.Program.{RunsFresh, OutputDrained, RunsProgram, fresh_output, names_serve};

use crate::commands::obey;
use crate::ending::CommandResult;
use bay_files::files::{FileSystem, SystemFiles};
use bay_io::calls::{LinePart, OctetSource, Sink};
use bay_io::reader::WatchedReader;
use bay_io::writer::WatchedWriter;
use bay_net::tcp::TcpLink;
use bay_report::output::{NO_MEMORY, Status, write_text};
use bay_server::host::{Host, SystemHost};
use bay_server_turn::link::Link;
use bay_stdio::descriptor::Descriptor;
use bay_stdio::output::Output;
use bay_stdio::queue::OutputQueue;
use std::alloc::{AllocError, Global};
use std::fs::File;
use std::io::{ErrorKind, Write};
use std::net::{Net, TcpListener, TcpStream};
use std::os::fd::AsRawFd;
use std::process::ExitCode;
use std::rt::Runtime;
use std::{env, io};

// The output of the program, over its standard output and its standard error.
type SystemOutput<'a, R, O, E> = Output<Descriptor<'a, R, O>, Descriptor<'a, R, E>>;

// Why reading the program's arguments failed.
#[derive(Drop)]
enum ArgumentFault {
    /// An argument is not UTF-8 text.
    NoText,
    OutOfMemory,
}

impl From<AllocError> for ArgumentFault {
    fn from(_: AllocError) -> ArgumentFault {
        ArgumentFault::OutOfMemory
    }
}

impl From<io::Error> for ArgumentFault {
    fn from(error: io::Error) -> ArgumentFault {
        if error.kind() == ErrorKind::OutOfMemory {
            ArgumentFault::OutOfMemory
        } else {
            ArgumentFault::NoText
        }
    }
}

// Returns the arguments after the program's name.
fn read_arguments<R: Runtime<A = Global>>(rt: &R) -> Result<Vec<String>, ArgumentFault> {
    let words = env::args(rt)?.skip(1).collect(rt.alloc())?;
    Ok(words)
}

// Returns whether the first argument is `serve`.
fn is_serving(words: &[&str]) -> bool
    ensures { result ≡ names_serve (map (λ w. w.now) words.now) }
{
    matches!(words.first(), Some(word) if *word == "serve")
}

// Creates the output of a command. A slow reader of standard output does not block a server, and
// one of standard error blocks no command.
fn make_output<'a, R: AllocGlobal, O: Drop, E: Drop>(
    rt: &'a R,
    out: O,
    err: E,
    is_serving: bool,
) -> Result<SystemOutput<'a, R, O, E>, AllocError>
    ensures { IfOk result (λ output. output ≡ fresh_output is_serving out err) }
{
    let mut out = Descriptor::new(rt, out);
    let mut err = Descriptor::new(rt, err);
    err.stop_waiting();
    if !is_serving {
        return Ok(Output::new(out, err, None));
    }
    out.stop_waiting();
    let queue = OutputQueue::new(rt.alloc())?;
    Ok(Output::new(out, err, Some(queue)))
}

// Executes the command, writes what is still queued of its output, and returns the exit status.
fn obey_with<
    F: FileSystem,
    L: Link + Drop,
    H: Host<L>,
    S: OctetSource,
    R: Runtime<A = Global> + Net,
    O: Write + AsRawFd + Drop,
    E: Write + AsRawFd + Drop,
>(
    rt: &R,
    words: &[&str],
    files: &mut F,
    host: &mut H,
    reader: &mut WatchedReader<S>,
    mut writer: WatchedWriter<SystemOutput<'_, R, O, E>>,
) -> ExitCode
    ensures { RunsProgram F.reads F.guards F.writes F.same (CountedCall L.does L.failures) H.does
        S.remaining
        O.contents E.contents (map (λ w. w.now) words.now)
        (record { files = files.old; host = host.old; reader = reader.old; writer = writer.entry })
        (exit_status result) }
{
    let ended = obey(rt.alloc(), words, files, host, reader, &mut writer);
    let mut output = writer.into_inner();
    let ended = drain_output(&mut output, ended);
    if matches!(&ended, CommandResult::WriteFailed) {
        output.log_line(&[LinePart::Text(ended.error_message().as_bytes())]);
        return ExitCode::from(ended.status());
    }
    conclude(rt, &ended)
}

// Executes the command over the files, the sockets and the standard input of the program.
fn obey_words<
    'a,
    R: Runtime<A = Global, File = File> + Net<Listener = TcpListener, Stream = TcpStream>,
    O: Write + AsRawFd + Drop,
    E: Write + AsRawFd + Drop,
>(rt: &'a R, out: O, err: E, words: &[&str]) -> Result<ExitCode, AllocError>
    ensures { IfOk result (λ code. RunsFresh
        ⟦<SystemFiles<'a, R> as FileSystem>⟧.reads
        ⟦<SystemFiles<'a, R> as FileSystem>⟧.guards
        ⟦<SystemFiles<'a, R> as FileSystem>⟧.writes
        ⟦<SystemFiles<'a, R> as FileSystem>⟧.same
        (CountedCall ⟦<TcpLink<'a, R> as Link>⟧.does ⟦<TcpLink<'a, R> as Link>⟧.failures)
        ⟦<SystemHost<'a, R> as Host<TcpLink<'a, R>>>⟧.does
        ⟦<R::Reader as OctetSource>⟧.remaining
        O.contents E.contents (map (λ w. w.now) words.now) out err (exit_status code)) }
{
    let output = make_output(rt, out, err, is_serving(words))?;
    let mut files = SystemFiles::new(rt);
    let mut host = SystemHost::new(rt);
    let mut reader = WatchedReader::new(rt.reader());
    let writer = WatchedWriter::new(output);
    Ok(obey_with(rt, words, &mut files, &mut host, &mut reader, writer))
}

// Executes the command of the program's arguments, and returns the exit status.
fn obey_program<
    R: Runtime<A = Global, File = File> + Net<Listener = TcpListener, Stream = TcpStream>,
    O: Write + AsRawFd + Drop,
    E: Write + AsRawFd + Drop,
>(rt: &R, out: O, err: E) -> Result<ExitCode, ArgumentFault> {
    let words = read_arguments(rt)?;
    let texts: Vec<&str> = words.iter().map(|word| word.as_str()).collect(rt.alloc())?;
    Ok(obey_words(rt, out, err, texts.as_slice())?)
}

// Returns the result if reading the arguments failed.
fn refuse_arguments<R: Runtime<A = Global>>(rt: &R, why: ArgumentFault) -> CommandResult {
    let text = match why {
        ArgumentFault::NoText => {
            String::from_str(rt.alloc(), "error: a word of the command line is no text\n")
        }
        ArgumentFault::OutOfMemory => Err(AllocError),
    };
    match text {
        Ok(text) => CommandResult::Refused(text),
        Err(AllocError) => {
            let mut writer = WatchedWriter::new(io::writer(rt));
            CommandResult::of(write_text(&mut writer, NO_MEMORY, Status::Fault))
        }
    }
}

// Writes what is queued in the output, and returns the result of the program: the same as before,
// or a failed write if some of the output is left. After a failed write nothing more is written.
fn drain_output<R: Net + AllocGlobal, O: Write + AsRawFd, E: Write + AsRawFd>(
    output: &mut SystemOutput<'_, R, O, E>,
    ended: CommandResult,
) -> CommandResult
    ensures { OutputDrained (accepted_octets O.contents) (accepted_octets E.contents) output.old
        ended output.new
        result }
{
    match ended {
        CommandResult::WriteFailed => CommandResult::WriteFailed,
        ended => match output.drain() {
            Ok(()) => ended,
            Err(_) => CommandResult::WriteFailed,
        },
    }
}

// Writes the error message to standard error, and returns the exit status.
fn conclude<R: Runtime<A = Global>>(rt: &R, ended: &CommandResult) -> ExitCode
    ensures { exit_status result ≡ status_of ended.now }
{
    let _ = eprint!(rt; "{}", ended.error_message());
    ExitCode::from(ended.status())
}

/// Executes the command of the program's arguments: reads files or standard input, writes the
/// output to `out`, the program's standard output, logs to `err`, its standard error, if the
/// command has this option, and returns the exit status. The messages of `clap` on invalid
/// arguments go to standard error with the status 2, and `fault 122` for a failed write with the
/// status 3.
pub fn run<
    R: Runtime<A = Global, File = File> + Net<Listener = TcpListener, Stream = TcpStream>,
    O: Write + AsRawFd + Drop,
    E: Write + AsRawFd + Drop,
>(rt: &R, out: O, err: E) -> ExitCode {
    match obey_program(rt, out, err) {
        Ok(code) => code,
        Err(why) => conclude(rt, &refuse_arguments(rt, why)),
    }
}
