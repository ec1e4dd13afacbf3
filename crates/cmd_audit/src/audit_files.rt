// Reads and loads files, answers rules, and judges releases.
ghost use Rattle.std.specs.Prelude.{option_map, Ok, Err, IfErr, IfOk};
ghost use Rattle.bay_files.specs.Files.{unread_view};
ghost use Rattle.bay_report.specs.LogLines.{PrintsLogs};
ghost use Rattle.cmd_audit.specs.Auditing.{AuditReport, Audits, LoadedReport, ReadsAll, ReadsOptional, names_of, octets_of};

use crate::loaded::{AuditTexts, write_rest};
use crate::refusal::log_refused;
use bay_audit::effort::EFFORT;
use bay_base::listing::Listing;
use bay_files::files::{BothFiles, FileSystem, UnreadFile, read_file, read_files};
use bay_io::calls::Sink;
use bay_io::outbox::WriteFault;
use bay_io::writer::WatchedWriter;
use bay_load::load::{Form, load_files};
use bay_load::loaded::Loaded;
use bay_report::log::{report_load_refusal, report_unread};
use bay_report::output::finish;
use bay_report::report::put_report;
use std::alloc::Global;

/// The names of the files of an audit: the bay, a program or an image, and rules and a diagram, if
/// they are named.
#[derive(Clone, Copy)]
pub struct AuditedFiles<'a> {
    pub bay: &'a str,
    pub form: Form,
    pub program: &'a str,
    pub rules: Option<&'a str>,
    pub diagram: Option<&'a str>,
}

/// The contents of the files of an audit.
#[derive(Drop)]
pub(crate) struct AuditContents {
    pub both: BothFiles,
    pub texts: AuditTexts,
}

/// Reads the file with this name, if there is one. An error has the file's name and the fault.
pub fn read_named<'a, F: FileSystem>(
    alloc: Global,
    files: &F,
    name: Option<&'a str>,
) -> Result<Option<Listing<u8>>, UnreadFile<'a>>
    ensures ok { IfOk result
        (λ octets. ReadsOptional F.reads files.now (option_map (λ n. n.now) name.entry)
        (Ok octets)) }
    ensures err { IfErr result
        (λ unread. ReadsOptional F.reads files.now (option_map (λ n. n.now) name.entry)
        (Err (unread_view unread))) }
{
    match name {
        Some(name) => Ok(Some(Listing::new(read_file(alloc, files, name)?))),
        None => Ok(None),
    }
}

// Reads the files of an audit: the bay, then the program or the image, then the rules and the
// diagram, if they are named.
fn read_all<'a, F: FileSystem>(
    alloc: Global,
    named: AuditedFiles<'a>,
    files: &F,
) -> Result<AuditContents, UnreadFile<'a>>
    ensures ok { IfOk result
        (λ contents. ReadsAll F.reads files.now (names_of named.entry) (Ok (octets_of contents))) }
    ensures err { IfErr result
        (λ unread. ReadsAll F.reads files.now (names_of named.entry) (Err (unread_view unread))) }
{
    let both = read_files(alloc, files, named.bay, named.program)?;
    let rules = read_named(alloc, files, named.rules)?;
    let diagram = read_named(alloc, files, named.diagram)?;
    Ok(AuditContents {
        both,
        texts: AuditTexts { rules, diagram },
    })
}

// Writes the line of a load and the text after it, then logs why rules or a diagram are refused, if
// they are.
fn write_loaded<W: Sink>(
    alloc: Global,
    writer: &mut WatchedWriter<W>,
    loaded: &Loaded,
    texts: &AuditTexts,
    effort: u32,
) -> Result<u8, WriteFault>
    ensures { PrintsLogs W.contents W.does
        (LoadedReport loaded.now texts.now.rules texts.now.diagram) writer.old
        writer.new result }
{
    put_report(writer, loaded.report());
    let _ = writer.finish();
    let end = write_rest(alloc, writer, loaded, texts, effort);
    let status = finish(writer, end.status)?;
    log_refused(writer, end.refused);
    Ok(status)
}

// Loads and audits the contents of files.
fn audit_contents<W: Sink>(
    alloc: Global,
    form: Form,
    contents: &AuditContents,
    effort: u32,
    writer: &mut WatchedWriter<W>,
) -> Result<u8, WriteFault>
    ensures { PrintsLogs W.contents W.does (AuditReport form (octets_of contents.now)) writer.old
        writer.new result }
{
    let bay = contents.both.bay.as_slice();
    let program = contents.both.program.as_slice();
    match load_files(alloc, bay, form, program) {
        Ok(loaded) => write_loaded(alloc, writer, &loaded, &contents.texts, effort),
        Err(error) => report_load_refusal(writer, error),
    }
}

/// Answers a text of rules, and judges the releases by a diagram, as far as the two are named, for
/// a bay file and a program or an image, by the names of their files. Writes the line of the load,
/// a line for each rule and the lines of the releases, and a line for each release that is judged,
/// each as soon as it is known. The effort is in millions of octets of code, for rules and a
/// diagram each; `None` is the default. Returns the exit status: 0 if each rule and each release
/// that is judged holds, 4 if not, 1 if the load, the rules or the diagram are refused, and 3 if a
/// file can't be read, or memory runs out outside the load. Fails if a write or a flush fails.
pub fn audit_files<F: FileSystem, W: Sink>(
    alloc: Global,
    named: AuditedFiles<'_>,
    effort: Option<u32>,
    files: &F,
    writer: &mut WatchedWriter<W>,
) -> Result<u8, WriteFault>
    ensures { Audits F.reads W.contents W.does (names_of named.entry) files.now writer.old
        writer.new
        result }
{
    let contents = match read_all(alloc, named, files) {
        Ok(contents) => contents,
        Err(unread) => return report_unread(writer, unread.name, unread.fault),
    };
    let effort = effort.unwrap_or(EFFORT);
    audit_contents(alloc, named.form, &contents, effort, writer)
}
