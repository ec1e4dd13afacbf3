// The layers of a connection: the transport assembles octets into TSDUs, and the association reads
// TSDUs.
ghost use Rattle.std.specs.Prelude.{◌≡◌, ◌<◌, ◌≤◌, [], Some, IfOk, IsSome, OnErr, OnOk, length, take};
ghost use Rattle.bay_transport.specs.Doings.{Delivers};
ghost use Rattle.bay_transport.specs.Feeding.{AcceptsOctets, size_agreed, doing_of_result};
ghost use Rattle.bay_connection.specs.ConnectionStates.{answers, ended_state, data_tpdus, connection_after};
ghost use Rattle.bay_connection.specs.Feeding.{Feeds, indication_of, IsOpenFor, IsEmptyUnlessMms};
ghost use Rattle.bay_connection.specs.Stack.{connection_state_of, pdu_of, client_of, IsConsistent, IsReady, MayAllocate, Indicates, IndicatesIfSome};

use crate::indication::{FeedResult, Indication};
use bay_assoc::assoc::Assoc;
use bay_assoc::fault::AssocFault;
use bay_assoc::receive;
use bay_transport::fault::TransportFault;
use bay_transport::fed::Got;
use bay_transport::transport::Transport;
use std::alloc::{AllocError, Global};

/// The two layers, and the length of the PDU that was received last.
#[derive(Drop)]
pub struct Stack {
    pub(crate) alloc: Global,
    pub(crate) transport: Transport,
    pub(crate) assoc: Assoc,
    // The number of octets of the PDU of MMS, which is the last part of the TSDU that the transport
    // shows; 0 if there is none.
    pub(crate) pdu: usize,
}

impl Stack {
    /// Closes both layers: accepts no more octets, and frees the buffers.
    pub(crate) fn close(&mut self)
        ensures kept { IsConsistent self.new }
        ensures closed { connection_state_of self.new ≡ ended_state self.old.transport.stream }
        ensures nothing { pdu_of self.new ≡ [] }
    {
        self.pdu = 0;
        self.transport.end();
        self.assoc.end();
    }

    // Returns the TPDUs of the association's answer to a request.
    fn wrap_tsdu(&self, tsdu: &[u8]) -> Result<Vec<u8>, AllocError>
        requires { IsSome (size_agreed self.now.transport.stream) }
        ensures { IfOk result (λ octets. octets.items
            ≡ data_tpdus (size_agreed self.now.transport.stream) tsdu.now) }
    {
        self.transport.wrap(&[], tsdu)
    }

    // Passes the TSDU that the transport shows to the association, and returns its indication.
    fn handle_tsdu(&mut self) -> Result<Indication, AllocError>
        requires agreed { IsSome (size_agreed self.old.transport.stream) }
        requires nothing { self.old.pdu ≡ 0 }
        ensures kept { OnOk result (IsConsistent self.new) }
        ensures told { IfOk result
            (λ indication. Indicates (connection_state_of self.old) (Delivers self.old.transport.shown)
            (indication_of indication (client_of self.new)) (connection_state_of self.new)) }
        ensures number { self.new.transport.stream.number ≡ self.old.transport.stream.number }
        ensures open { IfOk result (λ indication. IsOpenFor indication self.new.assoc) }
        ensures lent { IfOk result (λ indication. IsEmptyUnlessMms indication (pdu_of self.new)) }
    {
        let tsdu = self.transport.shown();
        match self.assoc.on_tsdu(tsdu) {
            Ok(receive::Heard::Answer(octets)) => {
                let frames = self.wrap_tsdu(octets.as_slice())?;
                Ok(Indication::Answer(frames))
            }
            Ok(receive::Heard::Mms(pdu)) => {
                self.pdu = pdu.len();
                Ok(Indication::Mms)
            }
            Ok(receive::Heard::Released(octets)) => {
                let frames = self.wrap_tsdu(octets.as_slice())?;
                self.close();
                Ok(Indication::Released(frames))
            }
            Ok(receive::Heard::Aborted) => {
                self.close();
                Ok(Indication::Ended)
            }
            Err(AssocFault::OutOfMemory) => Err(AllocError),
            Err(fault) => {
                let Some(code) = fault.code() else {
                    unreachable!();
                };
                self.close();
                Ok(Indication::Fault(code))
            }
        }
    }

    // Returns the transport's answer to a request for a connection.
    fn answer(&self) -> Result<Indication, AllocError>
        requires { self.now.pdu ≡ 0 }
        ensures answer { IfOk result (λ indication. indication_of indication (client_of self.now)
            ≡ Some (answers self.now.transport.shown)) }
        ensures lent { IfOk result (λ indication. IsEmptyUnlessMms indication (pdu_of self.now)) }
    {
        let octets = self.transport.shown().to_vec(self.alloc)?;
        Ok(Indication::Answer(octets))
    }

    // Returns the indication of what the transport completed.
    fn indication_for(&mut self, got: Got) -> Result<Indication, AllocError>
        requires ready { IsReady got (connection_state_of self.old) }
        requires nothing { self.old.pdu ≡ 0 }
        ensures kept { OnOk result (IsConsistent self.new) }
        ensures told { IfOk result
            (λ indication. IndicatesIfSome (connection_state_of self.old)
            (doing_of_result got self.old.transport)
            (indication_of indication (client_of self.new)) (connection_state_of self.new)) }
        ensures memory { OnErr result (MayAllocate got) }
        ensures number { self.new.transport.stream.number ≡ self.old.transport.stream.number }
        ensures open { IfOk result (λ indication. IsOpenFor indication self.new.assoc) }
        ensures lent { IfOk result (λ indication. IsEmptyUnlessMms indication (pdu_of self.new)) }
    {
        match got {
            Got::More => Ok(Indication::Nothing),
            Got::Answer => self.answer(),
            Got::Tsdu => self.handle_tsdu(),
            Got::Ended => {
                self.close();
                Ok(Indication::Ended)
            }
        }
    }

    /// Consumes octets of the piece up to the end of the first thing that they complete, or all of
    /// them.
    pub(crate) fn feed(&mut self, piece: &[u8]) -> Result<FeedResult, AllocError>
        requires { IsConsistent self.old }
        ensures kept { OnOk result (IsConsistent self.new) }
        ensures within { IfOk result (λ fed. fed.used ≤ length piece.now) }
        ensures fed { IfOk result
            (λ fed. Feeds (connection_state_of self.old) piece.now fed.used
            (indication_of fed.indication (client_of self.new))) }
        ensures left { IfOk result
            (λ fed. connection_state_of self.new
            ≡ connection_after (connection_state_of self.old) (take fed.used piece.now)) }
        ensures memory { OnErr result
            (AcceptsOctets self.old.transport.stream.state × (0 < length piece.now)) }
        ensures number { self.new.transport.stream.number ≡ self.old.transport.stream.number }
        ensures open { IfOk result (λ fed. IsOpenFor fed.indication self.new.assoc) }
        ensures lent { IfOk result (λ fed. IsEmptyUnlessMms fed.indication (pdu_of self.new)) }
    {
        self.pdu = 0;
        match self.transport.feed(piece) {
            Ok(fed) => {
                let indication = self.indication_for(fed.got)?;
                Ok(FeedResult {
                    used: fed.used,
                    indication,
                })
            }
            Err(TransportFault::OutOfMemory) => Err(AllocError),
            Err(fault) => {
                let Some(code) = fault.code() else {
                    unreachable!();
                };
                self.close();
                Ok(FeedResult {
                    used: piece.len(),
                    indication: Indication::Fault(code),
                })
            }
        }
    }
}
