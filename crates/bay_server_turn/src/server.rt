// A device with a queue of octets for each of its clients.
ghost use Rattle.std.specs.Prelude.{◌≡◌, ℕ, ◌+◌, ◌<◌, ◌≤◌, ◌++◌, [], None, Some, length, drop, replicate, IfSome, IfOk, IfErr, if◌then◌else◌};
ghost use Rattle.bay_device.specs.Commands.{IsSingle};
ghost use Rattle.bay_device.specs.Outcomes.{associations, outcome};
ghost use Rattle.bay_device.specs.Steps.{IsOutcome, IsWithoutOctets, Steps};
ghost use Rattle.bay_server_turn.specs.Recorded.{recorded};
ghost use Rattle.bay_server_turn.specs.Turns.{WritesRecord, has_room, has_open, put_queue, server_queue};
ghost use Rattle.bay_server_turn.specs.Turns as spec;

use crate::record::{Record, RecordEnd};
use bay_device::device::Device;
use bay_device::event::{ASSOCIATIONS, Event, Step};
use bay_device::fault::StepFault;
use bay_lines::bounded_buffer::BoundedBuffer;
use std::alloc::{AllocError, AllocFailed, Global};
use std::fs::File;
use std::marker::Model;

// The maximum number of octets in a queue.
const ROOM: usize = 262_144;

// The octets that are still to be sent to one client.
type Queue = BoundedBuffer<ROOM>;

// The parts of a server.
#[derive(Drop)]
struct Parts {
    device: Device,
    queues: Vec<Queue>,
    record: Option<Record<File>>,
}

/// A device, and for each association a queue of at most 262,144 octets that are still to be sent.
/// The queues are allocated when the server is created. The events of the device may be recorded.
/// Everything is in one box, so that a server is dropped in one call.
#[derive(Drop)]
pub struct Server {
    parts: Box<Parts>,
}

impl Model for Server {
    ghost use Rattle.bay_server_turn.specs.Turns.{ServerData};
    ghost use Rattle.std.specs.Coded.{codes};
    ghost use Rattle.std.specs.Prelude.{◌≡◌, length, option_map};
    ghost use Rattle.bay_device.specs.Outcomes.{associations};

    ghost Value = { ServerData };

    ghost coded = { Prim.hlevel codes };

    ghost view = { λ s. record {
      device = s.parts.value.device;
      queues = s.parts.value.queues.items;
      recording = option_map (λ r. r.recording) s.parts.value.record;
    } };

    ghost invariant = { λ s. length s.parts.value.queues.items ≡ associations };
}

// Creates eight empty queues.
fn make_queues(alloc: Global) -> Result<Vec<Queue>, AllocError>
    ensures { IfOk result (λ queues. queues.items ≡ replicate associations []) }
{
    let mut queues = Vec::with_capacity(alloc, ASSOCIATIONS)?;
    for i in 0..ASSOCIATIONS {
        queues.push(Queue::new(alloc)?)?;
    }
    Ok(queues)
}

impl Server {
    /// Creates a server of a device with no open association. Allocates eight queues; if an
    /// allocation fails, returns the device in the error.
    pub fn new(alloc: Global, device: Device) -> Result<Self, AllocFailed<Device>>
        requires closed { device.connections ≡ replicate associations None }
        ensures ok { IfOk result
            (λ server. server ≡ record {
              device = device;
              queues = replicate associations [];
              recording = None;
            }) }
        ensures err { IfErr result (λ refused. refused.value ≡ device) }
    {
        let queues = match make_queues(alloc) {
            Ok(queues) => queues,
            Err(AllocError) => return Err(AllocFailed { value: device }),
        };
        let parts = Parts {
            device,
            queues,
            record: None,
        };
        match Box::new(alloc, parts) {
            Ok(parts) => Ok(Server { parts }),
            Err(AllocFailed { value: parts }) => Err(AllocFailed {
                value: parts.device,
            }),
        }
    }

    /// Returns the device, read-only.
    pub fn device(&self) -> &Device
        ensures { result.now ≡ self.now.device }
    {
        &self.parts.device
    }

    /// Returns whether the association at an index is open.
    pub(crate) fn is_open(&self, slot: usize) -> bool
        requires { slot < associations }
        ensures { result ≡ has_open slot self.now }
    {
        self.parts.device.is_open(slot as u16 + 1)
    }

    /// Returns the index of the lowest free association; `None` if none is free.
    pub(crate) fn lowest_free_association(&self) -> Option<usize>
        ensures lowest { result ≡ spec.lowest_free_association self.now }
        ensures within { IfSome result (λ slot. slot < associations) }
    {
        let association = self.parts.device.free_association()?;
        Some(usize::from(association - 1))
    }

    /// Records the device's events from now on.
    pub fn start_record(&mut self, kept: Record<File>)
        ensures { self.new ≡ record self.old { recording = Some kept.recording } }
    {
        self.parts.record = Some(kept);
    }

    /// Writes what was recorded and not written yet. Returns once why the record has ended;
    /// otherwise `None`.
    pub fn write_record(&mut self) -> Option<RecordEnd>
        ensures { WritesRecord self.old self.new result }
    {
        self.parts.record.as_mut()?.write()
    }

    /// Applies one event to the device, after recording it; `source_line` is the line it was read
    /// from, if it is one of the process. Returns what the device sends and reports; fails as
    /// `Device::step` does, with the device unchanged.
    pub(crate) fn step(
        &mut self,
        now: u64,
        event: Event<'_>,
        source_line: &[u8],
    ) -> Result<Step, StepFault>
        ensures steps { Steps now event.entry self.old.device result self.new.device }
        ensures sure { IsWithoutOctets event.entry
            → IsOutcome (outcome None now event.entry self.old.device) result self.new.device }
        ensures single { IsSingle result }
        ensures queues { self.new.queues ≡ self.old.queues }
        ensures recording { self.new.recording
            ≡ recorded now source_line.now event.entry self.old.recording }
    {
        if let Some(record) = &mut self.parts.record {
            record.put(now, event, source_line);
        }
        self.parts.device.step(now, event)
    }

    /// Returns the queue of the association at an index.
    pub(crate) fn queue(&self, slot: usize) -> &[u8]
        requires { slot < associations }
        ensures { result.now ≡ server_queue slot self.now }
    {
        self.parts.queues[slot].as_slice()
    }

    /// Appends octets to the queue of the association at an index, if there is room for all of
    /// them. Returns false, with the queue unchanged, if there is not.
    pub(crate) fn put(&mut self, slot: usize, octets: &[u8]) -> bool
        requires { slot < associations }
        ensures fits { result ≡ has_room (server_queue slot self.old) octets.now }
        ensures after { self.new
            ≡ (if result then put_queue slot (server_queue slot self.old ++ octets.now) self.old
            else self.old) }
    {
        self.parts.queues[slot].put(octets)
    }

    /// Removes the first `count` octets of the queue of the association at an index.
    pub(crate) fn remove_first(&mut self, slot: usize, count: usize)
        requires slot { slot < associations }
        requires count { count ≤ length (server_queue slot self.old) }
        ensures { self.new ≡ put_queue slot (drop count (server_queue slot self.old)) self.old }
    {
        self.parts.queues[slot].remove_first(count);
    }

    /// Empties the queue of the association at an index.
    pub(crate) fn clear(&mut self, slot: usize)
        requires { slot < associations }
        ensures { self.new ≡ put_queue slot [] self.old }
    {
        self.parts.queues[slot].clear();
    }
}
