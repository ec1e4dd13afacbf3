// Octets that wait for a sink, up to a limit.
ghost use Rattle.std.specs.Prelude.{is_ok};
ghost use Rattle.bay_stdio.specs.Offers.{OffersQueue};

use crate::offer::{WriteProgress, write_available};
use bay_io::calls::Sink;
use bay_lines::bounded_buffer::BoundedBuffer;
use std::io;

// The maximum number of octets in a queue.
const ROOM: usize = 1_048_576;

/// A queue of at most 1,048,576 octets. It allocates its buffer when it is created.
pub type OutputQueue = BoundedBuffer<ROOM>;

/// Writes the queue in order, as far as the sink accepts it. Fails if a write fails; the octets
/// accepted before it are removed.
pub fn send_waiting<S: Sink>(queue: &mut OutputQueue, sink: &mut S) -> io::Result<()>
    ensures { OffersQueue S.contents S.does queue.old sink.old queue.new sink.new
        (is_ok result) }
{
    let WriteProgress { taken, failed } = write_available(sink, queue.as_slice());
    queue.remove_first(taken);
    match failed {
        Some(error) => Err(error),
        None => Ok(()),
    }
}
