// A transport connection, for its user.
ghost use Rattle.std.specs.Prelude.{◌≡◌, ◌+◌, ◌<◌, ◌≤◌, ◌++◌, [], ℕ, List, None, IfOk, IfErr, OnErr, IsSome, IfSome, length, take};
ghost use Rattle.bay_transport.specs.Assembly.{IsSize, KeepsShown};
ghost use Rattle.bay_transport.specs.Doings.{stream_start, after};
ghost use Rattle.bay_transport.specs.Feeding.{Feeds, RefusesPiece, IsWithinLimits, size_agreed, end_of_stream, broken, doing_of_result};
ghost use Rattle.bay_transport.specs.Wrap.{tpdus_of, Carries};

use crate::assembly::Assembly;
use crate::fault::TransportFault;
use crate::fed::{Fed, Got};
use crate::wrap::{header, wrap};
use std::alloc::{AllocError, Global};
use std::marker::Model;

/// Whether a transport accepts more octets.
#[derive(Clone, Copy)]
pub enum TransportState {
    /// It accepts more octets.
    Open,
    /// The connection has ended.
    Closed,
    /// Octets were refused, or an allocation failed.
    Refused,
}

/// One connection, of the association with a number. Contracts view it as the state of its stream,
/// and the octets of the answer or TSDU that was completed last.
#[derive(Drop)]
pub struct Transport {
    state: TransportState,
    assembly: Assembly,
}

impl Model for Transport {
    ghost use Rattle.bay_transport.specs.Feeding.{TransportData, IsConsistent, received_of};

    ghost Value = { TransportData };

    ghost view = { λ t. received_of t.state t.assembly };

    ghost invariant = { λ t. IsConsistent t.state t.assembly };
}

impl Transport {
    /// Creates a connection before its first octet. The number is the number of the association,
    /// sent as the reference of this side (X.224 13.4).
    pub fn new(alloc: Global, number: u16) -> Transport
        ensures { result ≡ record {
          stream = record { number = number; state = stream_start };
          shown = [];
        } }
    {
        Transport {
            state: TransportState::Open,
            assembly: Assembly::new(alloc, number),
        }
    }

    /// Consumes octets of the piece up to the end of the first TPDU that completes something, and
    /// returns what it completes: an answer to a request for a connection, a TSDU, or the end of
    /// the connection. `shown` returns the octets of the answer or the TSDU. The caller feeds the
    /// remaining octets again. If the octets complete nothing, consumes all of them. After the end
    /// of the connection it consumes no octet and returns `Ended` again.
    ///
    /// A fault is final: later calls fail with `Failed`, also after an allocation failed. A piece
    /// without octets does not allocate. Buffers at most 70,000 octets of an unfinished TSDU, an
    /// unfinished frame (less than 65,535 octets), and 70,000 octets of what `shown` returns. Frees
    /// the buffers after an end or a fault.
    pub fn feed(&mut self, piece: &[u8]) -> Result<Fed, TransportFault>
        ensures within { IfOk result (λ fed. fed.used ≤ length piece.now) }
        // The result is the first doing of the piece; a fault is its only doing.
        ensures fed { IfOk result
            (λ fed. Feeds self.old.stream piece.now fed.used (doing_of_result fed.got self.new)) }
        ensures refused { IfErr result (λ fault. RefusesPiece self.old.stream piece.now fault) }
        // The new state is the one after the consumed octets; after a fault the stream is broken.
        ensures after { IfOk result
            (λ fed. self.new.stream ≡ after self.old.stream (take fed.used piece.now)) }
        ensures broken { OnErr result (self.new.stream ≡ broken self.old.stream) }
        // If nothing is completed, `shown` does not change.
        ensures shown { IfOk result (λ fed. KeepsShown fed.got self.old.shown self.new.shown) }
        ensures limits { IsWithinLimits self.new }
    {
        match self.state {
            TransportState::Refused => return Err(TransportFault::Failed),
            TransportState::Closed => {
                return Ok(Fed {
                    used: 0,
                    got: Got::Ended,
                });
            }
            TransportState::Open => {}
        }
        match self.assembly.advance(piece) {
            Ok((used, got)) => {
                if let Got::Ended = got {
                    self.end();
                }
                Ok(Fed { used, got })
            }
            Err(fault) => {
                self.state = TransportState::Refused;
                self.assembly.release();
                Err(fault)
            }
        }
    }

    /// Returns the octets that were completed last: the answer to a request for a connection, which
    /// must be sent, or a TSDU. Empty before the first, and after an end or a fault.
    pub fn shown(&self) -> &[u8]
        ensures { result.now ≡ self.now.shown }
    {
        self.assembly.shown.as_slice()
    }

    /// Ends the connection from this side: accepts no more octets, and frees the buffers.
    pub fn end(&mut self)
        ensures { self.new ≡ record { stream = end_of_stream self.old.stream; shown = [] } }
    {
        self.state = TransportState::Closed;
        self.assembly.release();
    }

    /// Returns the agreed size of a TPDU in octets; `None` before a request for a connection, and
    /// after the connection has ended or failed.
    pub fn agreed_size(&self) -> Option<usize>
        ensures agreed { result ≡ size_agreed self.now.stream }
        ensures sized { IfSome result IsSize }
    {
        match self.state {
            TransportState::Open => self.assembly.size,
            TransportState::Closed | TransportState::Refused => None,
        }
    }

    /// Returns the header of a TSDU of `count` octets if one data TPDU of the agreed size holds the
    /// TSDU; `None` if several are needed. The header followed by the TSDU is what `wrap` returns.
    pub fn header(&self, count: usize) -> Option<[u8; 7]>
        requires { IsSome (size_agreed self.now.stream) }
        ensures exact { IfSome result (λ header. (tsdu : List ℕ) → length tsdu ≡ count
            → IfSome (size_agreed self.now.stream) (λ size. header ++ tsdu ≡ tpdus_of size tsdu)) }
        ensures several { result ≡ None
            → IfSome (size_agreed self.now.stream) (λ size. size < count + 3) }
    {
        match self.agreed_size() {
            Some(size) => header(size, count),
            None => unreachable!(),
        }
    }

    /// Returns the data TPDUs of a TSDU, each in its frame and of at most the agreed size. An empty
    /// TSDU takes one of them (X.224 13.7). The TSDU is `front` followed by `rest`, so that a layer
    /// above need not join its header with the octets of its user: each octet is copied once. Fails
    /// only if the allocation fails.
    ///
    /// `front` has at most 125 octets, which fit in the smallest data TPDU.
    pub fn wrap(&self, front: &[u8], rest: &[u8]) -> Result<Vec<u8>, AllocError>
        requires agreed { IsSome (size_agreed self.now.stream) }
        requires front { length front.now ≤ 125 }
        ensures exact { IfOk result
            (λ octets. IfSome (size_agreed self.now.stream)
            (λ size. octets.items ≡ tpdus_of size (front.now ++ rest.now))) }
        // The other side receives this TSDU, if it is not too long.
        ensures carries { length front.now + length rest.now ≤ 70_000 → IfOk result
            (λ octets. IfSome (size_agreed self.now.stream)
            (λ size. Carries size (front.now ++ rest.now) octets.items)) }
    {
        match self.agreed_size() {
            Some(size) => wrap(self.assembly.alloc, size, front, rest),
            None => unreachable!(),
        }
    }
}
