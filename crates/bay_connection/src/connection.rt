// The connection of one client, for its user.
ghost use Rattle.std.specs.Prelude.{◌≡◌, ◌<◌, ◌≤◌, ◌↔◌, [], IfOk, IfSome, IsSome, IsTrue, OnErr, length, take};
ghost use Rattle.bay_transport.specs.Doings.{stream_start};
ghost use Rattle.bay_transport.specs.Feeding.{AcceptsOctets, size_agreed};
ghost use Rattle.bay_mms_initiate.specs.Sizes.{IsPduSize};
ghost use Rattle.bay_assoc.specs.Receives.{association_terms};
ghost use Rattle.bay_connection.specs.ConnectionStates.{ended_state, terms_of, data_tpdus, connection_after, octets_to_send};
ghost use Rattle.bay_connection.specs.Feeding.{Feeds, indication_of, IsOpenFor, IsEmptyUnlessMms};

use crate::indication::FeedResult;
use crate::stack::Stack;
use bay_assoc::assoc::Assoc;
use bay_assoc::receive::Phase;
use bay_ber::outgoing::Outgoing;
use bay_transport::transport::Transport;
use std::alloc::{AllocError, Global};
use std::marker::Model;

/// The connection of one client, whose association has a number. Contracts view it as its state (of
/// the stream, and the phase of the association) and the PDU of MMS that was received last.
#[derive(Drop)]
pub struct Connection {
    stack: Stack,
}

impl Model for Connection {
    ghost use Rattle.bay_connection.specs.Feeding.{ConnectionData};
    ghost use Rattle.bay_connection.specs.Stack.{client_of, IsConsistent};

    ghost Value = { ConnectionData };

    ghost view = { λ c. client_of c.stack };

    ghost invariant = { λ c. IsConsistent c.stack };
}

impl Connection {
    /// Creates a connection before its first octet. The number is the number of the association,
    /// sent as the reference of this side (X.224 13.4).
    pub fn new(alloc: Global, number: u16) -> Connection
        ensures { result ≡ record {
          state = record {
            stream = record { number = number; state = stream_start };
            phase = Phase.Idle;
          };
          pdu = [];
        } }
    {
        Connection {
            stack: Stack {
                alloc,
                transport: Transport::new(alloc, number),
                assoc: Assoc::new(alloc),
                pdu: 0,
            },
        }
    }

    /// Consumes octets of the piece up to the end of the first message that they complete, and
    /// returns what it is. The caller feeds the remaining octets again. If the octets complete
    /// nothing, consumes all of them. Fails only if an allocation fails.
    ///
    /// A release, an end, an abort, a fault and a failed allocation are final: the buffers are
    /// freed, and from then on the connection consumes no octet and returns `Ended`. Until then it
    /// buffers at most 70,000 octets of an unfinished TSDU, an unfinished frame, and 70,000 octets
    /// of the last complete TSDU.
    pub fn feed(&mut self, piece: &[u8]) -> Result<FeedResult, AllocError>
        ensures within { IfOk result (λ fed. fed.used ≤ length piece.now) }
        // The result is the first indication of the piece, and the new state is the one after the
        // consumed octets.
        ensures fed { IfOk result
            (λ fed. Feeds self.old.state piece.now fed.used (indication_of fed.indication self.new)) }
        ensures left { IfOk result
            (λ fed. self.new.state ≡ connection_after self.old.state (take fed.used piece.now)) }
        // A PDU is returned only if the association is open, so that it can be answered.
        ensures open { IfOk result (λ fed. IsOpenFor fed.indication self.new.state.phase) }
        ensures lent { IfOk result (λ fed. IsEmptyUnlessMms fed.indication self.new.pdu) }
        // An allocation fails only if octets are still accepted and the piece has some, and then
        // the connection ends.
        ensures memory { OnErr result
            (AcceptsOctets self.old.state.stream.state × (0 < length piece.now)) }
        ensures over { OnErr result (self.new.state ≡ ended_state self.old.state.stream) }
    {
        match self.stack.feed(piece) {
            Ok(fed) => Ok(fed),
            Err(error) => {
                self.stack.close();
                Err(error)
            }
        }
    }

    /// Returns the PDU of MMS that the last `feed` completed; empty if it completed none.
    pub fn pdu(&self) -> &[u8]
        ensures { result.now ≡ self.now.pdu }
    {
        let tsdu = self.stack.transport.shown();
        &tsdu[tsdu.len() - self.stack.pdu..]
    }

    /// Returns whether the association is open, so that PDUs of MMS can be sent.
    pub fn is_open(&self) -> bool
        ensures { IsTrue result ↔ IsSome (association_terms self.now.state.phase) }
    {
        self.stack.assoc.is_open()
    }

    /// Returns the agreed size of the largest PDU of MMS in octets, 256 to 65,000. The association
    /// must be open.
    pub fn pdu_size(&self) -> u32
        requires { IsSome (association_terms self.now.state.phase) }
        ensures size { IfSome (association_terms self.now.state.phase)
            (λ terms. result ≡ terms.size) }
        ensures sized { IsPduSize result }
    {
        self.stack.assoc.pdu_size()
    }

    // Returns the frames of a TSDU. If one frame holds it and there is headroom, writes the header
    // before it.
    fn frames(&self, mut tsdu: Outgoing) -> Result<Outgoing, AllocError>
        requires { IsSome (size_agreed self.now.state.stream) }
        ensures { IfOk result (λ octets. octets
            ≡ data_tpdus (size_agreed self.now.state.stream) tsdu) }
    {
        if let Some(header) = self.stack.transport.header(tsdu.as_slice().len()) {
            if tsdu.front(&header) {
                return Ok(tsdu);
            }
        }
        let octets = self.stack.transport.wrap(&[], tsdu.as_slice())?;
        Ok(Outgoing::new(octets))
    }

    /// Returns the octets to send for a PDU of MMS: a TSDU in the context of MMS, in data TPDUs of
    /// the agreed size. Copies nothing if one TPDU holds the TSDU and the PDU has enough headroom.
    /// The association must be open. Fails only if an allocation fails.
    pub fn send(&self, mut pdu: Outgoing) -> Result<Outgoing, AllocError>
        requires { IsSome (association_terms self.now.state.phase) }
        ensures { IfOk result (λ octets. octets ≡ octets_to_send (terms_of self.now.state) pdu) }
    {
        let front = self.stack.assoc.data_prefix(pdu.as_slice());
        if pdu.front(front.as_slice()) {
            return self.frames(pdu);
        }
        let octets = self.stack.transport.wrap(front.as_slice(), pdu.as_slice())?;
        Ok(Outgoing::new(octets))
    }
}
