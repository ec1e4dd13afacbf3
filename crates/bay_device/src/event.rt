// The events of a device, and their answers.
ghost use Rattle.std.specs.Prelude.{◌≡◌, ◌<◌, IfSome};
ghost use Rattle.bay_device.specs.Outcomes as spec;
ghost use Rattle.bay_device.specs.Outcomes.{associations};

use bay_base::listing::Listing;
use bay_base::position::Dbpos;
use bay_ber::outgoing::Outgoing;
use bay_config::bay::MeterField;
use bay_mms_services::answer::{Command, ControlDecision};

/// The latest time that an event may have, in milliseconds since 1970: the end of the last second
/// that a time stamp with 32 bits of seconds can hold (IEC 61850-8-1, UtcTime).
pub const LAST_MOMENT: u64 = 4_294_967_295_999;

/// The maximum number of open associations. Their numbers are 1 to this.
pub const ASSOCIATIONS: usize = 8;

/// An event of a device. Associations have the numbers 1 to 8.
#[derive(Clone, Copy)]
pub enum Event<'a> {
    /// A client connects. Its association has this number until it is closed.
    Open {
        association: u16,
    },
    /// Octets of a client arrive.
    Recv {
        association: u16,
        octets: &'a [u8],
    },
    /// A client has closed its connection.
    Close {
        association: u16,
    },
    /// The process reports the position of the switch at this index, counted from 0.
    Contact {
        switch: usize,
        position: Dbpos,
    },
    /// The process reports the value of the input at this index, counted from 0.
    Input {
        input: usize,
        value: bool,
    },
    /// The process reports the value of a field of the meter at this index, counted from 0, in
    /// whole units.
    Measure {
        meter: usize,
        field: MeterField,
        value: i32,
    },
    /// The process reports that a field of the meter at this index, counted from 0, is invalid; its
    /// value stays.
    BadMeasure {
        meter: usize,
        field: MeterField,
    },
    /// The process is lost: each position becomes bad, each input FALSE and each measured value
    /// invalid. The process stays lost until it reports something again.
    Lost,
    /// The program runs once.
    Scan,
}

/// Returns the slot of an association, its number less 1; `None` if the number is not 1 to 8.
pub fn association_slot(association: u16) -> Option<usize>
    ensures value { result ≡ spec.slot_of association }
    ensures within { IfSome result (λ slot. slot < associations) }
{
    if 0 < association && usize::from(association) < ASSOCIATIONS + 1 {
        Some(usize::from(association - 1))
    } else {
        None
    }
}

/// Octets to send to a client.
#[derive(Drop)]
pub struct Sent {
    /// The number of its association.
    pub association: u16,
    pub octets: Outgoing,
}

/// Why the device closes an association.
#[derive(Clone, Copy, Debug, PartialEq, Eq)]
pub enum Why {
    /// Its client has ended or released it.
    Ended,
    /// Its octets have the fault with this number: 10 to 13 of the transport, 20 to 25 of the
    /// association.
    Fault(u8),
    /// An allocation failed. The PDU in which it failed had no effect.
    Memory,
}

// Returns the report that the device has closed an association, if it has.
pub(crate) fn closed_by(association: u16, why: Option<Why>) -> Option<(u16, Why)>
    ensures { result ≡ spec.closed_by association why }
{
    Some((association, why?))
}

/// The result of an accepted scan.
#[derive(Drop)]
pub struct ScanResult {
    /// The report that an operate ended, for the client that requested it with enhanced security.
    pub ended: Option<Sent>,
    /// The number of instructions that the program executed, including HALT.
    pub steps: u32,
}

/// The result of an accepted event.
#[derive(Drop)]
pub struct Step {
    /// The report that an operate ended, for the client that requested it with enhanced security.
    pub ended: Option<Sent>,
    /// The octets to send to the client whose octets arrived, one entry for each PDU, in order.
    pub sent: Listing<Sent>,
    /// The operations that the switches must carry out.
    pub commands: Listing<Command>,
    /// The decisions on the control requests of the client whose octets arrived, in order.
    pub decisions: Listing<ControlDecision>,
    /// The association that the device has closed, and why.
    pub closed: Option<(u16, Why)>,
    /// For a scan, the number of instructions that the program executed, including HALT.
    pub scan: Option<u32>,
}
