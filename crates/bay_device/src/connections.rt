// The connections of a device's eight associations, each in its slot.
ghost use Rattle.std.specs.Prelude.{◌≡◌, ◌<◌, None, IfSome, is_none, is_some, length, position, replicate, slice_get, slice_index_or, slice_set, unwrap_or};
ghost use Rattle.bay_transport.specs.Feeding.{AcceptsOctets};
ghost use Rattle.bay_device.specs.Connections.{state_without_pdu};
ghost use Rattle.bay_device.specs.Outcomes.{associations};

use crate::event::ASSOCIATIONS;
use bay_connection::connection::Connection;
use std::marker::Model;

/// The connections of the open associations. All of them accept octets. Contracts see the state of
/// each connection.
#[derive(Drop)]
pub struct Connections {
    slots: [Option<Connection>; ASSOCIATIONS],
}

impl Model for Connections {
    ghost use Rattle.std.specs.Prelude.{List, Option};
    ghost use Rattle.bay_connection.specs.ConnectionStates.{ConnectionState};
    ghost use Rattle.bay_device.specs.Connections.{connection_states, AreEight};

    ghost Value = { List (Option ConnectionState) };

    ghost view = { λ c. connection_states c.slots };

    ghost invariant = { λ c. AreEight (connection_states c.slots) };
}

// Returns the lowest slot without a connection; `None` if there is none.
fn free_slot_in(slots: &[Option<Connection>; ASSOCIATIONS]) -> Option<usize>
    ensures lowest { result ≡ position is_none slots.now }
    ensures within { IfSome result (λ slot. slot < associations) }
{
    slots.iter().position(|slot| slot.is_none())
}

// Removes and returns the connection in a slot.
fn take_at(slots: &mut [Option<Connection>; ASSOCIATIONS], slot: usize) -> Option<Connection>
    requires { slot < associations }
    ensures value { result ≡ slice_index_or slots.old slot None }
    ensures rest { slots.new ≡ slice_set slots.old slot None }
{
    slots[slot].take()
}

// Puts a connection, or none, into a slot.
fn put_at(
    slots: &mut [Option<Connection>; ASSOCIATIONS],
    slot: usize,
    connection: Option<Connection>,
)
    requires { slot < associations }
    ensures { slots.new ≡ slice_set slots.old slot connection }
{
    slots[slot] = connection;
}

impl Connections {
    /// Creates the connections with no association open.
    pub fn new() -> Self
        ensures { result ≡ replicate associations None }
    {
        Connections {
            slots: [None, None, None, None, None, None, None, None],
        }
    }

    /// States that there are eight slots. Has no effect; callers use its contract.
    pub fn are_eight(&self)
        ensures { length self.now ≡ associations }
    {
        let _ = &self.slots;
    }

    /// Returns whether the association with this slot is open.
    pub fn is_open(&self, slot: usize) -> bool
        requires { slot < associations }
        ensures { result ≡ is_some (unwrap_or (slice_get self.now slot) None) }
    {
        self.slots[slot].is_some()
    }

    /// Returns the lowest slot without an open association; `None` if all are open.
    pub fn free_slot(&self) -> Option<usize>
        ensures lowest { result ≡ position is_none self.now }
        ensures within { IfSome result (λ slot. slot < associations) }
    {
        free_slot_in(&self.slots)
    }

    /// Removes and returns the connection in a slot; its association is then not open.
    pub fn take(&mut self, slot: usize) -> Option<Connection>
        requires { slot < associations }
        ensures value { state_without_pdu result ≡ unwrap_or (slice_get self.old slot) None }
        ensures rest { self.new ≡ slice_set self.old slot None }
        ensures going { IfSome result (λ c. AcceptsOctets c.state.stream.state) }
    {
        take_at(&mut self.slots, slot)
    }

    /// Puts a connection, or none, into a slot.
    pub fn put(&mut self, slot: usize, connection: Option<Connection>)
        requires within { slot < associations }
        requires going { IfSome connection (λ c. AcceptsOctets c.state.stream.state) }
        ensures { self.new ≡ slice_set self.old slot (state_without_pdu connection) }
    {
        put_at(&mut self.slots, slot, connection);
    }
}
