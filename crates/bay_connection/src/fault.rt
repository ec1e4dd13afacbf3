// The faults of a client's octets.
ghost use Rattle.std.specs.Prelude.{◌≡◌};
ghost use Rattle.bay_connection.specs.Faults as spec;

use bay_assoc::fault::AssocFault;
use bay_transport::fault::TransportFault;

/// Returns what the fault with this number is, in words: the fault of the transport or of the
/// association with this number; `octets that can't be read` if neither has one.
pub fn fault_words(code: u8) -> &'static str
    ensures { result.now ≡ spec.fault_words code }
{
    match (TransportFault::with_code(code), AssocFault::with_code(code)) {
        (Some(fault), _) => fault.words(),
        (None, Some(fault)) => fault.words(),
        (None, None) => "octets that can't be read",
    }
}
