// Finishing a text.
ghost use Rattle.bay_base.specs.Exact.{ExactOr};
ghost use Rattle.bay_ber.specs.EncoderBuffers.{message};
ghost use Rattle.bay_mms.specs.Writing.{or_too_long};

use crate::fault::EncodeFault;
use bay_ber::outgoing::Outgoing;
use bay_ber::writer::Writer;

/// Returns the message of a writer. Fails with `TooLong` if it got longer than the limit.
pub(crate) fn finish(writer: Writer) -> Result<Outgoing, EncodeFault>
    ensures { ExactOr EncodeFault.OutOfMemory (λ octets. octets) result
        (or_too_long (message writer)) }
{
    match writer.finish() {
        Some(octets) => Ok(octets),
        None => Err(EncodeFault::TooLong),
    }
}
