// An association, for its user.
ghost use Rattle.std.specs.Prelude.{◌≡◌, ◌<◌, ◌^◌, ◌++◌, ◌↔◌, Ok, length, IfOk, IfSome, IsErrOf, IsSome, IsTrue};
ghost use Rattle.bay_mms_initiate.specs.Sizes.{IsPduSize};
ghost use Rattle.bay_assoc.specs.TsduMeanings.{mms, tsdu_meaning};
ghost use Rattle.bay_assoc.specs.Receives.{association_terms, ReceivesTsdu, IsLastPart, IsOpenFor};
ghost use Rattle.bay_assoc.specs.Session.{spdu_in};
ghost use Rattle.bay_assoc.specs.Sized.{IsShort};
ghost use Rattle.bay_assoc.specs.Allocating.{MayAllocate};
ghost use Rattle.bay_assoc.specs.Texts.{user_text, transfer_text};

use crate::data_prefix::data_prefix;
use crate::fault::AssocFault;
use crate::receive::{Heard, Phase, receive};
use arrayvec::ArrayVec;
use std::alloc::Global;
use std::marker::Model;

/// One association, which contracts view as its phase.
#[derive(Drop)]
pub struct Assoc {
    alloc: Global,
    phase: Phase,
}

impl Model for Assoc {
    ghost use Rattle.bay_assoc.specs.declared.receive.Phase.{Phase};
    ghost use Rattle.bay_assoc.specs.Sized.{IsSized};

    ghost Value = { Phase };

    ghost view = { λ a. a.phase };

    ghost invariant = { λ a. IsSized a.phase };
}

impl Assoc {
    /// Creates an association that has received nothing.
    pub fn new(alloc: Global) -> Assoc
        ensures { result ≡ Phase.Idle }
    {
        Assoc {
            alloc,
            phase: Phase::Idle,
        }
    }

    /// Handles a TSDU, and returns its meaning: a request for an association or for a release, with
    /// its answer; a PDU of MMS, which is a slice of the TSDU; or an abort. Stores nothing of a
    /// TSDU except the agreed contexts and size.
    ///
    /// A fault is final: later calls fail with `Failed`, also after an allocation failed. After a
    /// release or an abort, the next TSDU fails with `OutOfPhase`.
    pub fn on_tsdu<'a>(&mut self, tsdu: &'a [u8]) -> Result<Heard<'a>, AssocFault>
        ensures heard { ReceivesTsdu self.old tsdu.now result self.new }
        // An allocation can fail only if an answer is due: not for a request of another mode.
        ensures memory { IsErrOf result AssocFault.OutOfMemory
            → MayAllocate self.old (spdu_in tsdu.now) }
        // An answer has at most 1,000 octets. A PDU of MMS is the last part of its TSDU, and is
        // returned only if the association is open.
        ensures short { IfOk result IsShort }
        ensures last { IfOk result (IsLastPart tsdu.now) }
        ensures open { IfOk result (λ heard. IsOpenFor heard self.new) }
    {
        let phase = self.phase;
        self.phase = Phase::Failed;
        let (heard, next) = receive(self.alloc, phase, tsdu)?;
        self.phase = next;
        Ok(heard)
    }

    /// Returns whether the association is open.
    pub fn is_open(&self) -> bool
        ensures { IsTrue result ↔ IsSome (association_terms self.now) }
    {
        matches!(self.phase, Phase::Open(_))
    }

    /// Ends the association from this side. Later TSDUs are refused as after an abort.
    pub fn end(&mut self)
        ensures { self.new ≡ Phase.Over }
    {
        self.phase = Phase::Over;
    }

    /// Returns the agreed size of the largest PDU of MMS in octets, 256 to 65,000. The association
    /// must be open.
    pub fn pdu_size(&self) -> u32
        requires { IsSome (association_terms self.now) }
        ensures size { IfSome (association_terms self.now) (λ terms. result ≡ terms.size) }
        ensures sized { IsPduSize result }
    {
        match self.phase {
            Phase::Open(terms) => terms.size,
            Phase::Idle | Phase::Over | Phase::Failed => unreachable!(),
        }
    }

    /// Returns the octets before a PDU of MMS in its TSDU, at most 27. The TSDU consists of these
    /// octets followed by the PDU. The association must be open.
    pub fn data_prefix(&self, pdu: &[u8]) -> ArrayVec<u8, 27>
        requires { IsSome (association_terms self.now) }
        ensures exact { IfSome (association_terms self.now)
            (λ terms. result.items ++ pdu.now
            ≡ transfer_text (user_text terms.contexts.mms pdu.now)) }
        // A receiver in the same phase reads the TSDU as this PDU.
        ensures heard { length pdu.now < 2 ^ 31
            → tsdu_meaning self.now (result.items ++ pdu.now) ≡ Ok (mms pdu.now, self.now) }
    {
        match self.phase {
            Phase::Open(terms) => data_prefix(terms.contexts.mms, pdu),
            Phase::Idle | Phase::Over | Phase::Failed => unreachable!(),
        }
    }
}
