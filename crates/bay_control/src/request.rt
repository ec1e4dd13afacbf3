// A client's request, and the view of a switch on which a decision depends.
ghost use Rattle.std.specs.Prelude.{◌≡◌, ◌≤◌, length};
ghost use Rattle.bay_control.specs.Requests.{requested_choice, same_choice, same_origin};
ghost use Rattle.bay_control.specs.Requests as spec;

use arrayvec::ArrayVec;
use bay_base::position::Dbpos;
use bay_base::switch::Operation;
use std::marker::Model;

/// The identity of an originator, at most 64 octets (IEC 61850-7-3, orIdent). Contracts see it as
/// its octets.
#[derive(Debug, Drop)]
pub struct Identity {
    octets: ArrayVec<u8, 64>,
}

impl Model for Identity {
    ghost use Rattle.std.specs.Prelude.{List, ℕ};

    ghost Value = { List ℕ };

    ghost view = { λ i. i.octets.items };
}

impl Identity {
    /// Makes an identity from its octets.
    pub fn new(octets: &[u8]) -> Self
        requires { length octets.now ≤ 64 }
        ensures { result ≡ octets.now }
    {
        let mut all = ArrayVec::new();
        let _ = all.try_extend_from_slice(octets);
        Identity { octets: all }
    }

    /// Returns the octets.
    pub fn as_slice(&self) -> &[u8]
        ensures { result.now ≡ self.now }
    {
        self.octets.as_slice()
    }
}

/// The originator of a control (IEC 61850-7-3, Originator), as a selection stores it. bay_mms has
/// the one that borrows from a request.
#[derive(Debug, Drop)]
pub struct Originator {
    /// The category (orCat).
    pub cat: i8,
    pub ident: Identity,
}

impl Originator {
    /// Returns whether two originators are the same.
    pub(crate) fn is_same(&self, other: &Originator) -> bool
        ensures { result ≡ same_origin self.now other.now }
    {
        self.cat == other.cat && self.ident.as_slice() == other.ident.as_slice()
    }
}

/// The request for which a select with value was granted: the operation and the originator.
#[derive(Debug, Drop)]
pub struct Choice {
    /// The requested operation (ctlVal).
    pub operation: Operation,
    pub origin: Originator,
}

impl Choice {
    /// Returns whether a request is for this operation, by this originator.
    pub(crate) fn is_for(&self, ask: &Ask) -> bool
        ensures { result ≡ same_choice (requested_choice ask.now) self.now }
    {
        ask.operation == self.operation && ask.origin.is_same(&self.origin)
    }

    // Returns a copy. Does not allocate.
    pub(crate) fn duplicate(&self) -> Self
        ensures { result ≡ self.now }
    {
        let ident = Identity::new(self.origin.ident.octets.as_slice());
        let cat = self.origin.cat;
        Choice {
            operation: self.operation,
            origin: Originator { cat, ident },
        }
    }
}

/// A request to operate a switch, or to select it with value (IEC 61850-7-2, 20: Oper and SBOw).
#[derive(Debug, Drop)]
pub struct Ask {
    /// The requested operation (ctlVal).
    pub operation: Operation,
    /// Whether the request is a test, which moves nothing (Test).
    pub test: bool,
    /// Whether a synchrocheck is requested (Check).
    pub synchrocheck: bool,
    pub origin: Originator,
}

/// The view of a switch on which a decision depends.
#[derive(Clone, Copy, Debug)]
pub struct View {
    /// The position.
    pub pos: Dbpos,
    /// Whether the process is lost: nothing has been received from it since.
    pub lost: bool,
    /// Whether the key of the switch is at local: the switch has a key, whose input is FALSE.
    pub local: bool,
    /// Whether the last scan is fresh: no input has changed since, and it is not too old.
    pub fresh: bool,
    /// Whether the interlocking releases opening (IEC 61850-7-4, CILO: EnaOpn).
    pub ena_opn: bool,
    /// Whether the interlocking releases closing (EnaCls).
    pub ena_cls: bool,
}

impl Ask {
    /// Returns whether the request is to close the switch with a synchrocheck.
    pub(crate) fn closes_checked(&self) -> bool
        ensures { result ≡ spec.closes_checked self.now }
    {
        self.synchrocheck && matches!(self.operation, Operation::Close)
    }
}

impl View {
    /// Returns whether the interlocking releases the operation.
    pub(crate) fn is_released(self, operation: Operation) -> bool
        ensures { result ≡ spec.is_released operation self }
    {
        match operation {
            Operation::Open => self.ena_opn,
            Operation::Close => self.ena_cls,
        }
    }
}

/// Returns whether the operation leads to this position.
pub(crate) fn is_reached(operation: Operation, position: Dbpos) -> bool
    ensures { result ≡ spec.is_reached operation position }
{
    matches!(
        (operation, position),
        (Operation::Open, Dbpos::Off) | (Operation::Close, Dbpos::On)
    )
}
