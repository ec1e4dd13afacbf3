// Executes a command, over files by their names, a reader and a writer.
ghost use Rattle.std.specs.Prelude.{◌≡◌, map, Result, Ok};
ghost use Rattle.bay_server_turn.specs.Calls.{CountedCall};
ghost use Rattle.bay_main.specs.Commands.{Checks, Compiles, CompilesImage, CompilesOctets, DoesTask, Obeys, Unwritten, WritesImage, logging, unprinted_line};
ghost use Rattle.bay_report.specs.LogLines.{LogsIfAny};
ghost use Rattle.bay_cli.specs.JobView.{task_view};

use crate::check::check_octets;
use crate::ending::CommandResult;
use bay_cli::parse::{WordsFault, task_of};
use bay_cli::task::{Invocation, Task};
use bay_files::files::{BothFiles, FileFault, FileSystem, read_files, write_atomically};
use bay_io::calls::{OctetSource, Sink};
use bay_io::outbox::WriteFault;
use bay_io::reader::WatchedReader;
use bay_io::writer::WatchedWriter;
use bay_load::load::{Form, load_files};
use bay_load::loaded::Loaded;
use bay_report::log::{log_unwritten, report_load_refusal, report_unread};
use bay_report::output::{NO_MEMORY, Status, write_report, write_text};
use bay_server::host::Host;
use bay_server_turn::link::Link;
use cmd_audit::audit_files::{AuditedFiles, audit_files};
use cmd_replay::replay::replay_reader;
use cmd_serve::serve::{form_of, serve};
use il_image::encode::encode;
use il_image::image::Image;
use std::alloc::{AllocError, Global};
use std::io::ErrorKind;

// Checks a bay file and a program or an image, by their names.
fn check<F: FileSystem, W: Sink>(
    alloc: Global,
    form: Form,
    bay: &str,
    program: &str,
    files: &F,
    writer: &mut WatchedWriter<W>,
) -> Result<u8, WriteFault>
    ensures { Checks F.reads W.contents W.does form bay.now program.now files.now writer.old
        writer.new
        result }
{
    match read_files(alloc, files, bay, program) {
        Ok(both) => check_octets(
            alloc,
            both.bay.as_slice(),
            form,
            both.program.as_slice(),
            writer,
        ),
        Err(unread) => report_unread(writer, unread.name, unread.fault),
    }
}

// Logs that a file can't be written, and why, and fails.
fn fail_unwritten<W: Sink>(
    writer: &mut WatchedWriter<W>,
    out: &str,
    kind: ErrorKind,
) -> Result<u8, WriteFault>
    ensures { Unwritten W.contents W.does out.now kind writer.old writer.new result }
{
    log_unwritten(writer, out, kind);
    Err(WriteFault)
}

// Writes an image to the file with this name.
fn write_image<F: FileSystem, W: Sink>(
    alloc: Global,
    image: &Image,
    out: &str,
    files: &mut F,
    writer: &mut WatchedWriter<W>,
) -> Result<u8, WriteFault>
    ensures { WritesImage F.writes W.contents W.does out.now image.now files.old files.new
        writer.old
        writer.new result }
{
    let octets = match encode(alloc, image) {
        Ok(octets) => octets,
        Err(AllocError) => return write_text(writer, NO_MEMORY, Status::Fault),
    };
    match write_atomically(alloc, files, out, octets.as_slice()) {
        Ok(()) => Ok(Status::Clean.code()),
        Err(FileFault::OutOfMemory) => write_text(writer, NO_MEMORY, Status::Fault),
        Err(FileFault::Failed(kind)) => fail_unwritten(writer, out, kind),
    }
}

// Writes the line of a load, and then the image to the file with this name.
fn compile_loaded<F: FileSystem, W: Sink>(
    alloc: Global,
    loaded: &Loaded,
    out: &str,
    files: &mut F,
    writer: &mut WatchedWriter<W>,
) -> Result<u8, WriteFault>
    ensures { CompilesImage F.writes W.contents W.does out.now loaded.now.image files.old files.new
        writer.old
        writer.new result }
{
    write_report(writer, loaded.report())?;
    write_image(alloc, loaded.verified().image(), out, files, writer)
}

// Compiles the contents of a bay file and a program to the file with this name.
fn compile_files<F: FileSystem, W: Sink>(
    alloc: Global,
    both: &BothFiles,
    out: &str,
    files: &mut F,
    writer: &mut WatchedWriter<W>,
) -> Result<u8, WriteFault>
    ensures { CompilesOctets F.writes W.contents W.does out.now
        (record { bay = both.now.bay.items; program = both.now.program.items }) files.old
        files.new writer.old writer.new result }
{
    match load_files(
        alloc,
        both.bay.as_slice(),
        Form::Logic,
        both.program.as_slice(),
    ) {
        Ok(loaded) => compile_loaded(alloc, &loaded, out, files, writer),
        Err(error) => report_load_refusal(writer, error),
    }
}

// Compiles a bay file and a program to a file, by their names.
fn compile<F: FileSystem, W: Sink>(
    alloc: Global,
    bay: &str,
    logic: &str,
    out: &str,
    files: &mut F,
    writer: &mut WatchedWriter<W>,
) -> Result<u8, WriteFault>
    ensures { Compiles F.reads F.writes F.same W.contents W.does bay.now logic.now out.now files.old
        files.new writer.old writer.new result }
{
    if files.is_same(alloc, out, bay) || files.is_same(alloc, out, logic) {
        return fail_unwritten(writer, out, ErrorKind::InvalidInput);
    }
    match read_files(alloc, files, bay, logic) {
        Ok(both) => compile_files(alloc, &both, out, files, writer),
        Err(unread) => report_unread(writer, unread.name, unread.fault),
    }
}

// Executes a task.
fn do_task<F: FileSystem, L: Link + Drop, H: Host<L>, R: OctetSource, W: Sink>(
    alloc: Global,
    task: Task<&str>,
    files: &mut F,
    host: &mut H,
    reader: &mut WatchedReader<R>,
    writer: &mut WatchedWriter<W>,
) -> Result<u8, WriteFault>
    ensures { DoesTask F.reads F.guards F.writes F.same (CountedCall L.does L.failures) H.does
        R.remaining W.contents W.does (task_view task.entry)
        (record { files = files.old; host = host.old; reader = reader.old; writer = writer.old })
        (record { files = files.new; host = host.new; reader = reader.new; writer = writer.new })
        result }
{
    match task {
        Task::Check { bay, program } => {
            let (form, program) = form_of(program);
            check(alloc, form, bay, program, files, writer)
        }
        Task::Replay => replay_reader(alloc, reader, writer),
        Task::Serve(task) => serve(alloc, task, files, host, writer),
        Task::Compile { bay, logic, out } => compile(alloc, bay, logic, out, files, writer),
        Task::Audit {
            bay,
            program,
            rules,
            diagram,
            effort,
        } => {
            let (form, program) = form_of(program);
            let named = AuditedFiles {
                bay,
                form,
                program,
                rules,
                diagram,
            };
            audit_files(alloc, named, effort, files, writer)
        }
    }
}

// Starts the log, if the command has this option.
fn start_log_if<W>(writer: &mut WatchedWriter<W>, log: bool)
    ensures { writer.new ≡ logging log writer.old }
{
    if log {
        writer.start_log();
    }
}

// Logs that standard output can't be written, if a write of it has failed.
fn log_unprinted<W: Sink>(writer: &mut WatchedWriter<W>)
    ensures { LogsIfAny W.contents W.does writer.old (unprinted_line writer.old) writer.new }
{
    if writer.has_failed() {
        log_unwritten(writer, "standard output", ErrorKind::Other);
    }
}

/// Executes the command that the arguments after the name of the program spell. A check, a
/// compilation and an audit read files by their names, a replay reads from the reader, and a
/// compilation writes a file. Serving reads files, may create one for its record, and uses the
/// ports and the clock of the host. The output goes to the writer, and so does the log, if the
/// command has this option.
pub fn obey<F: FileSystem, L: Link + Drop, H: Host<L>, R: OctetSource, W: Sink>(
    alloc: Global,
    words: &[&str],
    files: &mut F,
    host: &mut H,
    reader: &mut WatchedReader<R>,
    writer: &mut WatchedWriter<W>,
) -> CommandResult
    ensures { Obeys F.reads F.guards F.writes F.same (CountedCall L.does L.failures) H.does
        R.remaining
        W.contents W.does
        (map (λ w. w.now) words.now)
        (record { files = files.old; host = host.old; reader = reader.old; writer = writer.old })
        (record { files = files.new; host = host.new; reader = reader.new; writer = writer.new })
        result }
{
    match task_of(alloc, words) {
        Ok(Invocation { task, log }) => {
            start_log_if(writer, log);
            let answer = do_task(alloc, task, files, host, reader, writer);
            log_unprinted(writer);
            CommandResult::of(answer)
        }
        Err(WordsFault::OutOfMemory) => CommandResult::of(write_text(
            writer,
            NO_MEMORY,
            Status::Fault,
        )),
        Err(WordsFault::Refused(text)) => CommandResult::Refused(text),
    }
}
