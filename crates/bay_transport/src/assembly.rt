// Assembles the octets of a stream into frames, and the data of frames into TSDUs.
ghost use Rattle.std.specs.Prelude.{◌≡◌, ◌+◌, ◌-◌, ◌<◌, ◌≤◌, Ok, Err, [], ◌∷◌, length, take, drop, ◌++◌, IfOk, IfErr, OnErr, OnOk, IfSome, is_some};
ghost use Rattle.bay_transport.specs.Frame.{missing_count};
ghost use Rattle.bay_transport.specs.Connect as spec;
ghost use Rattle.bay_transport.specs.Doings.{Fails, Refuses, effect_of, data_effect, connect_effect, single_frame_run, run_of};
ghost use Rattle.bay_transport.specs.Assembly.{connection_of, rest_of, stream_state_of, body_of, IsSound, HoldsFrame, HasNoRoom, run_of_result, FaultImplies, KeepsShown, StepConsumes, AdvanceConsumes};

use crate::fault::TransportFault;
use crate::fed::Got;
use crate::frame::{FramePrefix, Tpdu, frame_prefix, missing_octets, tpdu_of};
use crate::request::answer_request;
use std::alloc::{AllocError, Global};
use std::mem;

// The number of octets before the data of a data TPDU's frame.
const DATA_AT: usize = 7;
// The longest TSDU, in octets.
const TSDU_MAX: usize = 70_000;

/// The data of an unfinished group of data TPDUs, the octets of an unfinished frame, and what the
/// last TPDU completed.
#[derive(Drop)]
pub struct Assembly {
    pub(crate) alloc: Global,
    pub(crate) number: u16,
    // The agreed size of a TPDU in octets; `None` before a request for a connection.
    pub(crate) size: Option<usize>,
    // The joined data of the group, followed by the octets of the frame.
    buffer: Vec<u8>,
    // The number of octets of the group.
    group: usize,
    // The answer to a request, or the TSDU, that was completed last.
    pub(crate) shown: Vec<u8>,
}

// Removes `count` octets from index `at` on.
fn cut_out(octets: &mut Vec<u8>, at: usize, count: usize)
    requires { at + count ≤ length octets.old.items }
    ensures { octets.new.items ≡ take at octets.old.items ++ drop (at + count) octets.old.items }
{
    let left = octets.len() - count;
    octets.copy_within(at + count.., at);
    octets.truncate(left);
}

impl Assembly {
    /// Creates an assembly that has received nothing.
    pub(crate) fn new(alloc: Global, number: u16) -> Assembly
        ensures sound { IsSound result }
        ensures number { result.number ≡ number }
        ensures size { result.size ≡ None }
        ensures empty { result.buffer.items ≡ [] }
        ensures nothing { result.shown.items ≡ [] }
    {
        Assembly {
            alloc,
            number,
            size: None,
            buffer: Vec::new(alloc),
            group: 0,
            shown: Vec::new(alloc),
        }
    }

    /// Forgets what was received and frees the buffers.
    pub(crate) fn release(&mut self)
        ensures sound { IsSound self.new }
        ensures number { self.new.number ≡ self.old.number }
        ensures roomless { HasNoRoom self.new }
    {
        self.size = None;
        self.group = 0;
        self.buffer = Vec::new(self.alloc);
        self.shown = Vec::new(self.alloc);
    }

    // Handles a request for a connection, given its length indicator; its octets after the code are
    // in the buffer.
    fn connect(&mut self, indicator: u8) -> Result<Got, TransportFault>
        requires { HoldsFrame self.old }
        ensures sound { OnOk result (IsSound self.new) }
        ensures number { self.new.number ≡ self.old.number }
        ensures ok { IfOk result
            (λ kind. single_frame_run (connect_effect
            (spec.connect self.old.number (is_some self.old.size) indicator (body_of self.old)))
            (connection_of self.old) ≡ run_of_result kind self.new) }
        ensures shown { IfOk result
            (λ kind. KeepsShown kind self.old.shown.items self.new.shown.items) }
        ensures err { IfErr result
            (λ fault. FaultImplies fault
            (spec.connect self.old.number (is_some self.old.size) indicator (body_of self.old)
            ≡ Err fault)) }
    {
        let body = &self.buffer[self.group + 6..];
        let size = answer_request(
            &mut self.shown,
            self.number,
            self.size.is_some(),
            indicator,
            body,
        )?;
        self.size = Some(size);
        self.buffer.truncate(self.group);
        Ok(Got::Answer)
    }

    // Handles a data TPDU, given its length indicator; its octets after the code are in the buffer.
    fn join(&mut self, indicator: u8) -> Result<Got, TransportFault>
        requires { HoldsFrame self.old }
        ensures sound { OnOk result (IsSound self.new) }
        ensures number { self.new.number ≡ self.old.number }
        ensures ok { IfOk result
            (λ kind. single_frame_run
            (data_effect (connection_of self.old) indicator (body_of self.old))
            (connection_of self.old) ≡ run_of_result kind self.new) }
        ensures shown { IfOk result
            (λ kind. KeepsShown kind self.old.shown.items self.new.shown.items) }
        ensures err { IfErr result
            (λ fault. FaultImplies fault
            (data_effect (connection_of self.old) indicator (body_of self.old) ≡ Refuses fault)) }
    {
        if indicator != 2 || self.size.is_none() {
            return Err(TransportFault::BadCotp);
        }
        if self.buffer.len() - DATA_AT > TSDU_MAX {
            return Err(TransportFault::TsduTooLong);
        }
        let is_last = (self.buffer[self.group + 6] >> 7) & 1 == 1;
        cut_out(&mut self.buffer, self.group, DATA_AT);
        if !is_last {
            self.group = self.buffer.len();
            return Ok(Got::More);
        }
        mem::swap(&mut self.buffer, &mut self.shown);
        self.buffer.clear();
        self.group = 0;
        Ok(Got::Tsdu)
    }

    // Handles the complete frame in the buffer.
    fn on_frame(&mut self) -> Result<Got, TransportFault>
        requires { HoldsFrame self.old }
        ensures sound { OnOk result (IsSound self.new) }
        ensures number { self.new.number ≡ self.old.number }
        ensures ok { IfOk result
            (λ kind. single_frame_run
            (effect_of self.old.number (connection_of self.old) (rest_of self.old))
            (connection_of self.old) ≡ run_of_result kind self.new) }
        ensures shown { IfOk result
            (λ kind. KeepsShown kind self.old.shown.items self.new.shown.items) }
        ensures err { IfErr result
            (λ fault. FaultImplies fault
            (effect_of self.old.number (connection_of self.old) (rest_of self.old)
            ≡ Refuses fault)) }
    {
        let indicator = self.buffer[self.group + 4];
        match tpdu_of(self.buffer[self.group + 5]) {
            Tpdu::Request => self.connect(indicator),
            Tpdu::Data => self.join(indicator),
            Tpdu::Release => {
                self.buffer.truncate(self.group);
                Ok(Got::Ended)
            }
            Tpdu::Unknown => Err(TransportFault::BadCotp),
        }
    }

    // Consumes octets of the piece, at most up to the end of the frame, and returns how many.
    fn extend(&mut self, piece: &[u8]) -> Result<usize, AllocError>
        requires { IsSound self.old }
        ensures within { IfOk result (λ taken. taken ≤ length piece.now) }
        ensures moves { IfOk result (λ taken. 0 < length piece.now → 0 < taken) }
        ensures few { IfOk result (λ taken. taken ≤ missing_count (rest_of self.old)) }
        ensures rest { IfOk result
            (λ taken. rest_of self.new ≡ rest_of self.old ++ take taken piece.now) }
        ensures connection { connection_of self.new ≡ connection_of self.old }
        ensures number { self.new.number ≡ self.old.number }
        ensures group { self.new.group ≡ self.old.group }
        ensures bounds { self.new.group ≤ length self.new.buffer.items }
        ensures shown { self.new.shown.items ≡ self.old.shown.items }
    {
        let taken = missing_octets(&self.buffer[self.group..]).min(piece.len());
        self.buffer.extend_from_slice(&piece[..taken])?;
        Ok(taken)
    }

    // Consumes octets of the piece, at most up to the end of the frame, and handles the frame if
    // they complete it. Returns how many were consumed, and what they completed.
    fn step(&mut self, piece: &[u8]) -> Result<(usize, Got), TransportFault>
        requires { IsSound self.old }
        ensures sound { OnOk result (IsSound self.new) }
        ensures number { self.new.number ≡ self.old.number }
        ensures ok { IfOk result
            (λ taken. StepConsumes self.old piece.now taken.0 taken.1 self.new) }
        ensures shown { IfOk result
            (λ taken. KeepsShown taken.1 self.old.shown.items self.new.shown.items) }
        ensures err { IfErr result
            (λ fault. FaultImplies fault
            ((run_of self.old.number (stream_state_of self.old) piece.now).doings
            ≡ Fails fault ∷ [])) }
    {
        let taken = self.extend(piece)?;
        match frame_prefix(&self.buffer[self.group..]) {
            FramePrefix::Begun => Ok((taken, Got::More)),
            FramePrefix::NoFrame => Err(TransportFault::BadTpkt),
            FramePrefix::Whole(_) => {
                let kind = self.on_frame()?;
                Ok((taken, kind))
            }
        }
    }

    /// Consumes octets of the piece up to the end of the first TPDU that completes something, or
    /// all of them. Returns how many were consumed, and what they completed.
    pub(crate) fn advance(&mut self, piece: &[u8]) -> Result<(usize, Got), TransportFault>
        requires { IsSound self.old }
        ensures sound { OnOk result (IsSound self.new) }
        ensures number { self.new.number ≡ self.old.number }
        ensures ok { IfOk result
            (λ taken. AdvanceConsumes self.old piece.now taken.0 taken.1 self.new) }
        ensures shown { IfOk result
            (λ taken. KeepsShown taken.1 self.old.shown.items self.new.shown.items) }
        ensures err { IfErr result
            (λ fault. FaultImplies fault
            ((run_of self.old.number (stream_state_of self.old) piece.now).doings
            ≡ Fails fault ∷ [])) }
        ensures some { OnErr result (0 < length piece.now) }
    {
        let mut used = 0;
        while used < piece.len() {
            let (taken, kind) = self.step(&piece[used..])?;
            used += taken;
            match kind {
                Got::More => {}
                kind => return Ok((used, kind)),
            }
        }
        Ok((used, Got::More))
    }
}
