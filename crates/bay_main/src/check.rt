// Checks a load: prints its line, or why it is refused.
ghost use Rattle.bay_main.specs.Check.{ChecksOctets};

use bay_io::calls::Sink;
use bay_io::outbox::WriteFault;
use bay_io::writer::WatchedWriter;
use bay_load::load::{Form, load_files};
use bay_report::log::report_load_refusal;
use bay_report::output::write_report;
use std::alloc::Global;

/// Loads the octets of a bay file and of a program or an image, and writes the line of the load.
/// Logs why it is refused. Returns the exit status: 0, or 1 if the load is refused. Fails if a
/// write or a flush fails.
pub fn check_octets<W: Sink>(
    alloc: Global,
    bay: &[u8],
    form: Form,
    program: &[u8],
    writer: &mut WatchedWriter<W>,
) -> Result<u8, WriteFault>
    ensures { ChecksOctets W.contents W.does bay.now form program.now writer.old writer.new result }
{
    match load_files(alloc, bay, form, program) {
        Ok(loaded) => write_report(writer, loaded.report()),
        Err(error) => report_load_refusal(writer, error),
    }
}
