// Reads, loads and serves files.
ghost use Rattle.std.specs.Prelude.{◌≡◌, None, Some, Ok, Err, false, replicate, IfErr, IfOk, OnOk, ◌≤◌, length, option_map};
ghost use Rattle.bay_cli.specs.JobView.{options_view, program_view, serve_view};
ghost use Rattle.bay_device.specs.Load.{device_of};
ghost use Rattle.bay_device.specs.Outcomes.{associations};
ghost use Rattle.bay_report.specs.LogLines.{PrintsLogs};
ghost use Rattle.cmd_serve.specs.Serve.{BindsPorts, BindsProcess, EndsUnserved, IsBound, IsRecordFault, KeylessReport, LoadsFiles, ServesBound, ServesFiles, ServesLoaded, ServesPorts, Unrecorded, UnservedReport, is_recorded, key_of, name_of, new_server, recording_of, settings_of, state_of};
ghost use Rattle.cmd_serve.specs.Serve as spec;
ghost use Rattle.cmd_serve.specs.declared.serve.ServeStartFault.TheVariants as unserved;
ghost use Rattle.bay_replay_laws.specs.ReadBack.{HaveIds};
ghost use Rattle.bay_server_turn.specs.Calls.{CountedCall};
ghost use Rattle.bay_server_turn.specs.Turns.{with_recording};
ghost use Rattle.cmd_serve.specs.Service.{IsBegun};

use crate::permit::{Permit, prove_diagram, prove_rules};
use crate::sums::{HeldCounts, ServedFiles, log_sums};
use bay_base::listing::Listing;
use bay_cli::task::{ProgramFile, ServeOptions, ServeTask};
use bay_device::device::Device;
use bay_files::files::{BothFiles, FileFault, FileSystem, UnreadFile, read_files, read_optional};
use bay_files::key::{KeyFault, KeyFileFault, read_key};
use bay_io::calls::{LinePart, Sink};
use bay_io::outbox::WriteFault;
use bay_io::writer::WatchedWriter;
use bay_load::error::LoadError;
use bay_load::load::{Form, load_files};
use bay_load::loaded::Loaded;
use bay_process_port::port::Port;
use bay_process_port::supervision::SupervisionSettings;
use bay_report::log::{
    log_unwritten, report_load_refusal, report_unread, write_and_log, write_out_of_memory,
};
use bay_report::output::{Status, write_report, write_text};
use bay_server::clock::ServeClock;
use bay_server::host::{BindFault, Host};
use bay_server::log_lines::{log_ports, log_unbound};
use bay_server::process::Process;
use bay_server::record_line::log_room;
use bay_server::serving::serve_turns;
use bay_server_turn::link::Link;
use bay_server_turn::record::Record;
use bay_server_turn::server::Server;
use cmd_audit::audit_files::read_named;
use std::alloc::{AllocError, AllocFailed, Global};
use std::io::ErrorKind;

// The maximum number of octets of a record, unless the command has another: with the bay file and
// the program such a record is a scenario that can be replayed.
const MOST: u32 = 16_000_000;

/// The contents of the files: a bay file and a program or an image, what was loaded of them, a
/// trace, and a key, rules and a diagram, if there are some.
#[derive(Drop)]
pub struct LoadedFiles {
    form: Form,
    both: BothFiles,
    rules: Option<Listing<u8>>,
    diagram: Option<Listing<u8>>,
    load: Loaded,
    trace: Vec<u8>,
    key: Option<Vec<u8>>,
}

/// A server of a device, the link of its clients, and the process, if there is one.
#[derive(Drop)]
pub struct BoundServer<L> {
    server: Server,
    link: L,
    process: Option<Process<L>>,
}

/// Why no turn is served.
#[derive(Drop)]
pub enum ServeStartFault<'a> {
    /// A file can't be read.
    Unread(UnreadFile<'a>),
    /// The file of the key can't be read, users other than its owner may read it, or it has no key.
    KeyFileFault(KeyFileFault<'a>),
    /// The load is refused.
    Refused(LoadError),
    /// This port can't be opened.
    Unbound(u16, BindFault),
    /// The file with this name can't be created for the record.
    Unrecorded(&'a str, ErrorKind),
    OutOfMemory,
}

impl<'a> From<UnreadFile<'a>> for ServeStartFault<'a> {
    ghost from_gives = { λ unread why. why ≡ unserved.Unread unread };

    fn from(unread: UnreadFile<'a>) -> Self {
        ServeStartFault::Unread(unread)
    }
}

impl<'a> From<KeyFileFault<'a>> for ServeStartFault<'a> {
    ghost from_gives = { λ keyless why. why ≡ unserved.KeyFileFault keyless };

    fn from(keyless: KeyFileFault<'a>) -> Self {
        ServeStartFault::KeyFileFault(keyless)
    }
}

impl From<LoadError> for ServeStartFault<'_> {
    ghost from_gives = { λ error why. why ≡ unserved.Refused error };

    fn from(error: LoadError) -> Self {
        ServeStartFault::Refused(error)
    }
}

impl From<AllocError> for ServeStartFault<'_> {
    ghost from_gives = { λ _ why. why ≡ unserved.OutOfMemory };

    fn from(_: AllocError) -> Self {
        ServeStartFault::OutOfMemory
    }
}

/// Returns the form of a program and the name of its file.
pub fn form_of<'a>(program: ProgramFile<&'a str>) -> (Form, &'a str)
    ensures form { result.0 ≡ spec.form_of (program_view program.entry) }
    ensures name { result.1.now ≡ name_of (program_view program.entry) }
{
    match program {
        ProgramFile::Logic(name) => (Form::Logic, name),
        ProgramFile::Image(name) => (Form::Image, name),
    }
}

// Writes the fault of a port that can't be opened, and then logs why.
fn report_unbound<W: Sink>(
    writer: &mut WatchedWriter<W>,
    port: u16,
    fault: BindFault,
) -> Result<u8, WriteFault>
    ensures { PrintsLogs W.contents W.does (UnservedReport (unserved.Unbound port fault)) writer.old
        writer.new result }
{
    let status = write_text(writer, b"fault 121\n", Status::Fault)?;
    log_unbound(writer, port, fault);
    Ok(status)
}

// Writes the fault of a file without a key, and then logs why.
fn report_keyless<W: Sink>(
    writer: &mut WatchedWriter<W>,
    name: &str,
    fault: KeyFault,
) -> Result<u8, WriteFault>
    ensures { PrintsLogs W.contents W.does (KeylessReport name.now fault) writer.old writer.new
        result }
{
    let start = LinePart::Text(b"bayctl: fault 121: ");
    let what = LinePart::Text(name.as_bytes());
    match fault {
        KeyFault::Unread(fault) => report_unread(writer, name, fault),
        KeyFault::Exposed => {
            let why = LinePart::Text(b": only its owner may read it\n");
            write_and_log(writer, b"fault 121\n", Status::Fault, &[start, what, why])
        }
        KeyFault::Malformed => {
            let why = LinePart::Text(b": a key has 32 to 64 hexadecimal digits\n");
            write_and_log(writer, b"fault 121\n", Status::Fault, &[start, what, why])
        }
    }
}

// Logs that the file of the record can't be created, and fails.
fn report_unrecorded<W: Sink>(
    writer: &mut WatchedWriter<W>,
    name: &str,
    kind: ErrorKind,
) -> Result<u8, WriteFault>
    ensures { Unrecorded W.contents W.does name.now kind writer.old writer.new result }
{
    log_unwritten(writer, name, kind);
    Err(WriteFault)
}

// Writes why no turn is served, and then logs it.
fn report_unserved<W: Sink>(
    writer: &mut WatchedWriter<W>,
    why: ServeStartFault<'_>,
) -> Result<u8, WriteFault>
    ensures { EndsUnserved W.contents W.does why.entry writer.old writer.new result }
{
    match why {
        ServeStartFault::Unread(UnreadFile { name, fault }) => report_unread(writer, name, fault),
        ServeStartFault::KeyFileFault(KeyFileFault { name, fault }) => report_keyless(
            writer, name, fault,
        ),
        ServeStartFault::Refused(fault) => report_load_refusal(writer, fault),
        ServeStartFault::Unbound(port, fault) => report_unbound(writer, port, fault),
        ServeStartFault::Unrecorded(name, kind) => report_unrecorded(writer, name, kind),
        ServeStartFault::OutOfMemory => write_out_of_memory(writer),
    }
}

// Reads the bay, then the program or the image, then the trace, the key, the rules and the diagram,
// if they are named, and loads them.
fn read_and_load<'a, F: FileSystem>(
    alloc: Global,
    task: ServeTask<&'a str>,
    form: Form,
    program: &'a str,
    files: &F,
) -> Result<LoadedFiles, ServeStartFault<'a>>
    ensures ok { IfOk result (λ loaded. LoadsFiles F.reads F.guards files.now form program.now
        (serve_view task.entry) (Ok loaded)) }
    ensures err { IfErr result (λ why. LoadsFiles F.reads F.guards files.now form program.now
        (serve_view task.entry) (Err why)) }
    ensures begun { IfOk result
        (λ loaded. IsBegun (new_server (recording_of (serve_view task.entry).options)
        (state_of loaded))) }
    ensures named { IfOk result (λ loaded. HaveIds loaded.load.bay.switches) }
    ensures short { IfOk result
        (λ loaded. length (key_of (option_map (λ digits. digits.items) loaded.key)) ≤ 64) }
{
    let both = read_files(alloc, files, task.bay, program)?;
    let trace = read_optional(alloc, files, task.options.trace)?;
    let key = read_key(alloc, files, task.options.key)?;
    let rules = read_named(alloc, files, task.options.rules)?;
    let diagram = read_named(alloc, files, task.options.diagram)?;
    let load = load_files(alloc, both.bay.as_slice(), form, both.program.as_slice())?;
    Ok(LoadedFiles {
        form,
        both,
        rules,
        diagram,
        load,
        trace,
        key,
    })
}

// Returns the octets of a key; a dash if there is none.
fn key_octets(key: &Option<Vec<u8>>) -> &[u8]
    ensures { result.now ≡ key_of (option_map (λ digits. digits.items) key.now) }
{
    match key {
        Some(key) => key.as_slice(),
        None => b"-",
    }
}

// Returns the supervision settings, if the process is supervised.
fn make_settings(limit_ms: Option<u32>, key: &[u8]) -> Option<SupervisionSettings>
    requires { length key.now ≤ 64 }
    ensures { result ≡ settings_of limit_ms key.now }
{
    match limit_ms {
        Some(limit_ms) => Some(SupervisionSettings::new(limit_ms, key)),
        None => None,
    }
}

// Returns the most octets of a record, if one is named.
fn record_room(options: ServeOptions<&str>) -> Option<u32>
    ensures { result ≡ spec.record_room (options_view options.entry) }
{
    match options.record_file {
        Some(_) => Some(options.record_most.unwrap_or(MOST)),
        None => None,
    }
}

// Starts a server's record in a new file, if the session is recorded, with the room that the
// options give it.
fn start_record<'a, F: FileSystem>(
    alloc: Global,
    options: ServeOptions<&'a str>,
    files: &mut F,
    server: &mut Server,
) -> Result<(), ServeStartFault<'a>>
    requires unrecorded { server.old.recording ≡ None }
    ensures server { OnOk result
        (server.new ≡ with_recording (recording_of (options_view options.entry)) server.old) }
    ensures files { is_recorded (options_view options.entry) ≡ false → files.new ≡ files.old }
    ensures fault { IfErr result
        (λ why. IsRecordFault (is_recorded (options_view options.entry)) why) }
{
    let Some(name) = options.record_file else {
        return Ok(());
    };
    let file = match files.create(name) {
        Ok(file) => file,
        Err(FileFault::OutOfMemory) => return Err(ServeStartFault::OutOfMemory),
        Err(FileFault::Failed(kind)) => {
            return Err(ServeStartFault::Unrecorded(name, kind));
        }
    };
    match Record::new(alloc, file, options.record_most.unwrap_or(MOST)) {
        Ok(record) => {
            server.start_record(record);
            Ok(())
        }
        Err(AllocError) => Err(ServeStartFault::OutOfMemory),
    }
}

// Creates a server of a device, with the link of its clients and the process, and starts its
// record.
fn make_bound_server<'a, F: FileSystem, L: Drop>(
    alloc: Global,
    device: Device,
    link: L,
    process: Option<Process<L>>,
    options: ServeOptions<&'a str>,
    files: &mut F,
) -> Result<BoundServer<L>, ServeStartFault<'a>>
    requires closed { device.connections ≡ replicate associations None }
    ensures bound { IsBound (options_view options.entry) device link process result }
    ensures server { IfOk result (λ bound. bound.server
        ≡ new_server (recording_of (options_view options.entry)) device) }
    ensures files { is_recorded (options_view options.entry) ≡ false → files.new ≡ files.old }
{
    let mut server = match Server::new(alloc, device) {
        Ok(server) => server,
        Err(AllocFailed { value: _ }) => return Err(ServeStartFault::OutOfMemory),
    };
    match start_record(alloc, options, files, &mut server) {
        Ok(()) => Ok(BoundServer {
            server,
            link,
            process,
        }),
        Err(why) => Err(why),
    }
}

// Opens the port of the process, if there is one, after that of the clients, and starts the record.
fn bind_process<'a, F: FileSystem, L: Link + Drop, H: Host<L>>(
    alloc: Global,
    device: Device,
    link: L,
    host: &mut H,
    task: ServeTask<&'a str>,
    settings: Option<SupervisionSettings>,
    files: &mut F,
) -> Result<BoundServer<L>, ServeStartFault<'a>>
    requires closed { device.connections ≡ replicate associations None }
    ensures binds { BindsProcess H.does (serve_view task.entry) settings device link
        (serve_view task.entry).options.process host.old host.new result }
    ensures server { IfOk result (λ bound. bound.server
        ≡ new_server (recording_of (serve_view task.entry).options) device) }
    ensures files { is_recorded (serve_view task.entry).options ≡ false → files.new ≡ files.old }
{
    let Some(port) = task.options.process else {
        return make_bound_server(alloc, device, link, None, task.options, files);
    };
    match host.bind(port, None) {
        Ok(had) => {
            let port = Port::new(alloc, task.sends_releases, settings)?;
            let process = Some(Process::new(had, port));
            make_bound_server(alloc, device, link, process, task.options, files)
        }
        Err(fault) => Err(ServeStartFault::Unbound(port, fault)),
    }
}

// Makes the device, opens the port of the clients, and then that of the process, if there is one,
// and starts the record.
fn bind_ports<'a, F: FileSystem, L: Link + Drop, H: Host<L>>(
    alloc: Global,
    load: Loaded,
    host: &mut H,
    task: ServeTask<&'a str>,
    settings: Option<SupervisionSettings>,
    files: &mut F,
) -> Result<BoundServer<L>, ServeStartFault<'a>>
    ensures binds { BindsPorts H.does (serve_view task.entry) settings (device_of load) host.old
        host.new result }
    ensures server { IfOk result (λ bound. bound.server
        ≡ new_server (recording_of (serve_view task.entry).options) (device_of load)) }
    ensures files { is_recorded (serve_view task.entry).options ≡ false → files.new ≡ files.old }
{
    let device = Device::new(alloc, load)?;
    match host.bind(task.port, task.options.idle_s) {
        Ok(link) => bind_process(alloc, device, link, host, task, settings, files),
        Err(fault) => Err(ServeStartFault::Unbound(task.port, fault)),
    }
}

// Starts the server's clock, logs the ports, the record's room and the sums of the files, and
// serves the given number of turns.
fn serve_bound<L: Link + Drop, H: Host<L>, W: Sink>(
    bound: BoundServer<L>,
    served: ServedFiles,
    trace: &[u8],
    host: &mut H,
    task: ServeTask<&str>,
    writer: &mut WatchedWriter<W>,
) -> Result<u8, WriteFault>
    requires begun { IsBegun bound.server }
    requires named { HaveIds bound.server.device.switches }
    ensures { ServesBound (CountedCall L.does L.failures) H.does W.contents W.does
        (serve_view task.entry) served bound trace.now host.old host.new writer.old writer.new
        result }
{
    let clocks = host.clocks();
    log_ports(writer, clocks.system, task.port, task.options.process);
    log_room(writer, clocks.system, record_room(task.options));
    log_sums(writer, clocks.system, &served);
    drop(served);
    let BoundServer {
        server,
        link,
        process,
    } = bound;
    let clock = ServeClock::start(clocks, task.options.cycle_ms);
    serve_turns(
        server, clock, link, process, host, trace, task.turns, writer,
    )
}

// Opens the ports, starts the record, and serves, with these numbers of rules and releases that
// hold.
fn serve_ports<F: FileSystem, L: Link + Drop, H: Host<L>, W: Sink>(
    alloc: Global,
    loaded: LoadedFiles,
    held: HeldCounts,
    files: &mut F,
    host: &mut H,
    task: ServeTask<&str>,
    writer: &mut WatchedWriter<W>,
) -> Result<u8, WriteFault>
    requires begun { IsBegun (new_server (recording_of (serve_view task).options)
        (state_of loaded)) }
    requires named { HaveIds loaded.load.bay.switches }
    requires short { length (key_of (option_map (λ digits. digits.items) loaded.key)) ≤ 64 }
    ensures serves { ServesPorts (CountedCall L.does L.failures) H.does W.contents W.does
        (serve_view task.entry) loaded
        held host.old host.new writer.old writer.new result }
    ensures files { is_recorded (serve_view task.entry).options ≡ false → files.new ≡ files.old }
{
    let LoadedFiles {
        form,
        both,
        rules,
        diagram,
        load,
        trace,
        key,
    } = loaded;
    let served = ServedFiles {
        form,
        both,
        rules,
        diagram,
        held,
    };
    let settings = make_settings(task.options.limit_ms, key_octets(&key));
    match bind_ports(alloc, load, host, task, settings, files) {
        Ok(bound) => serve_bound(bound, served, trace.as_slice(), host, task, writer),
        Err(why) => report_unserved(writer, why),
    }
}

// Writes the line of a load, judges the rules and then the diagram, if there are some, opens the
// ports, starts the record, and serves; only if each rule and each release holds.
fn serve_loaded<F: FileSystem, L: Link + Drop, H: Host<L>, W: Sink>(
    alloc: Global,
    loaded: LoadedFiles,
    files: &mut F,
    host: &mut H,
    task: ServeTask<&str>,
    writer: &mut WatchedWriter<W>,
) -> Result<u8, WriteFault>
    requires begun { IsBegun (new_server (recording_of (serve_view task).options)
        (state_of loaded)) }
    requires named { HaveIds loaded.load.bay.switches }
    requires short { length (key_of (option_map (λ digits. digits.items) loaded.key)) ≤ 64 }
    ensures serves { ServesLoaded (CountedCall L.does L.failures) H.does W.contents W.does
        (serve_view task.entry) loaded
        host.old host.new writer.old writer.new result }
    ensures files { is_recorded (serve_view task.entry).options ≡ false → files.new ≡ files.old }
{
    write_report(writer, loaded.load.report())?;
    let permit = prove_rules(alloc, &loaded.load, &loaded.rules, writer)?;
    let rules = match permit {
        Permit::Granted(count) => count,
        Permit::Denied(status) => return Ok(status),
    };
    let drawn = prove_diagram(alloc, &loaded.load, &loaded.diagram, writer)?;
    let releases = match drawn {
        Permit::Granted(count) => count,
        Permit::Denied(status) => return Ok(status),
    };
    let held = HeldCounts { rules, releases };
    serve_ports(alloc, loaded, held, files, host, task, writer)
}

/// Serves files by their names. Reads the bay, then the program or the image, then the trace, the
/// key, the rules and the diagram; loads them and writes the line of the load; judges the rules, if
/// there are some, for the program that the device runs, and writes `rules COUNT`; judges each
/// release by the diagram, if there is one, and writes `diagram COUNT`; opens the port for clients,
/// and then that of the process, if there is one; creates the file of the record, if the session is
/// recorded; and serves the given number of turns. Opens no port if a rule does not hold, or a
/// release is not proved harmless. Logs the ports, the record's room and the SHA-256 of each file
/// that is served, or why no turn is served. Returns the exit status: 0 after the last turn, 1 if
/// the load, the rules or the diagram are refused, 4 if a rule or a release does not hold, and 3
/// for any other fault. Fails if a write or a flush fails, or if the file of the record can't be
/// created.
///
/// All turns are one run of the device, from load on. For each command that a turn reports, and so
/// for each line that is printed, or sent to the process, and is read as a command: the octets of a
/// client requested it, success is sent to this client, and the last scan before, of an earlier
/// turn, left the switch's interlocking value TRUE, and no contact or input has changed since that
/// scan. If the process is supervised, it is connected in this turn, it has introduced itself as
/// the process of this bay, and its last line counts from a moment at most the milliseconds of the
/// supervision before the moment of this turn.
///
/// If the session is recorded, the file of the record takes the lines of all events of all turns, in
/// their order, up to the end of the record, which is logged; they are at most as many octets as the
/// options say.
pub fn serve<F: FileSystem, L: Link + Drop, H: Host<L>, W: Sink>(
    alloc: Global,
    task: ServeTask<&str>,
    files: &mut F,
    host: &mut H,
    writer: &mut WatchedWriter<W>,
) -> Result<u8, WriteFault>
    ensures serves { ServesFiles (CountedCall L.does L.failures) H.does W.contents W.does F.reads
        F.guards files.old (serve_view task.entry) host.old host.new writer.old writer.new result }
    ensures files { is_recorded (serve_view task.entry).options ≡ false → files.new ≡ files.old }
{
    let (form, program) = form_of(task.program);
    match read_and_load(alloc, task, form, program, files) {
        Ok(loaded) => serve_loaded(alloc, loaded, files, host, task, writer),
        Err(why) => report_unserved(writer, why),
    }
}
