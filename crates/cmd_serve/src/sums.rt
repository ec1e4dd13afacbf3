// The log lines of the files that are served, with the SHA-256 of each.
ghost use Rattle.std.specs.Prelude.{◌≡◌, Some, codes};
ghost use Rattle.hex.specs.Hex.{encode_lower};
ghost use Rattle.sha2.specs.Sha256.{sha256};
ghost use Rattle.bay_io.specs.Sent.{Logs};
ghost use Rattle.bay_server.specs.Logging.{LogsAll};
ghost use Rattle.cmd_serve.specs.Sums.{held_log, program_words, sum_line, sums_log};

use bay_base::listing::Listing;
use bay_files::files::BothFiles;
use bay_io::calls::{LinePart, Sink};
use bay_io::writer::WatchedWriter;
use bay_load::load::Form;
use sha2::{Digest, Sha256};

/// How many rules and how many releases hold: 0 of what is not named.
#[derive(Clone, Copy)]
pub struct HeldCounts {
    pub rules: usize,
    pub releases: usize,
}

/// The octets of the files that are served: a bay file, a program or an image, and rules and a
/// diagram, if there are some, with the numbers of the rules and of the releases that hold.
#[derive(Drop)]
pub struct ServedFiles {
    pub form: Form,
    pub both: BothFiles,
    pub rules: Option<Listing<u8>>,
    pub diagram: Option<Listing<u8>>,
    pub held: HeldCounts,
}

// Returns the SHA-256 of octets in hexadecimal digits.
fn sum_digits(octets: &[u8]) -> [u8; 64]
    ensures { result ≡ encode_lower (sha256 octets.now) }
{
    let digest: [u8; 32] = Sha256::digest(octets);
    let mut digits = [0u8; 64];
    let _ = hex::encode_to_slice(&digest, &mut digits);
    digits
}

// Logs the sum of a bay file.
fn log_bay<W: Sink>(writer: &mut WatchedWriter<W>, moment: u64, octets: &[u8])
    ensures { Logs W.contents W.does writer.old
        (sum_line moment (codes " bay SHA-256 ") octets.now) writer.new }
{
    let digits = sum_digits(octets);
    writer.log(&[
        LinePart::Moment(moment),
        LinePart::Text(b" bay SHA-256 "),
        LinePart::Text(&digits),
        LinePart::Text(b"\n"),
    ]);
}

// Logs the sum of a program or an image.
fn log_program<W: Sink>(writer: &mut WatchedWriter<W>, moment: u64, form: Form, octets: &[u8])
    ensures { Logs W.contents W.does writer.old
        (sum_line moment (program_words form) octets.now) writer.new }
{
    let digits = sum_digits(octets);
    match form {
        Form::Logic => writer.log(&[
            LinePart::Moment(moment),
            LinePart::Text(b" program SHA-256 "),
            LinePart::Text(&digits),
            LinePart::Text(b"\n"),
        ]),
        Form::Image => writer.log(&[
            LinePart::Moment(moment),
            LinePart::Text(b" image SHA-256 "),
            LinePart::Text(&digits),
            LinePart::Text(b"\n"),
        ]),
    }
}

// Logs the sum of the rules and their number, if there are rules.
fn log_rules<W: Sink>(
    writer: &mut WatchedWriter<W>,
    moment: u64,
    rules: &Option<Listing<u8>>,
    count: usize,
)
    ensures { LogsAll W.contents W.does writer.old
        (held_log moment (codes " rules SHA-256 ") rules.now count) writer.new }
{
    let Some(rules) = rules else {
        return;
    };
    let digits = sum_digits(rules.as_slice());
    writer.log(&[
        LinePart::Moment(moment),
        LinePart::Text(b" rules SHA-256 "),
        LinePart::Text(&digits),
        LinePart::Text(b", "),
        LinePart::Number(count as u64),
        LinePart::Text(b" hold\n"),
    ]);
}

// Logs the sum of the diagram and the number of the releases, if there is a diagram.
fn log_diagram<W: Sink>(
    writer: &mut WatchedWriter<W>,
    moment: u64,
    diagram: &Option<Listing<u8>>,
    count: usize,
)
    ensures { LogsAll W.contents W.does writer.old
        (held_log moment (codes " diagram SHA-256 ") diagram.now count) writer.new }
{
    let Some(diagram) = diagram else {
        return;
    };
    let digits = sum_digits(diagram.as_slice());
    writer.log(&[
        LinePart::Moment(moment),
        LinePart::Text(b" diagram SHA-256 "),
        LinePart::Text(&digits),
        LinePart::Text(b", "),
        LinePart::Number(count as u64),
        LinePart::Text(b" hold\n"),
    ]);
}

/// Logs the SHA-256 of each file that is served, and the numbers of the rules and of the releases
/// that hold, if there are rules and a diagram.
pub fn log_sums<W: Sink>(writer: &mut WatchedWriter<W>, moment: u64, served: &ServedFiles)
    ensures { LogsAll W.contents W.does writer.old (sums_log moment served.now) writer.new }
{
    log_bay(writer, moment, served.both.bay.as_slice());
    log_program(writer, moment, served.form, served.both.program.as_slice());
    log_rules(writer, moment, &served.rules, served.held.rules);
    log_diagram(writer, moment, &served.diagram, served.held.releases);
}
