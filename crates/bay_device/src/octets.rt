// Handles the octets of a client, PDU by PDU.
ghost use Rattle.std.specs.Prelude.{◌≡◌, ◌≢◌, ◌<◌, ◌≤◌, ◌++◌, ◌∷◌, [], List, Option, None, Some, IfOk, IfErr, OnOk, OnErr, drop, length, take};
ghost use Rattle.bay_transport.specs.Feeding.{AcceptsOctets};
ghost use Rattle.bay_connection.specs.ConnectionStates.{ConnectionState, connection_after};
ghost use Rattle.bay_connection.specs.Feeding.{IsOpenFor, indication_of};
ghost use Rattle.bay_device.specs.Receiving.{StepState, ReceiveResult as ReceiveData, sent_on};
ghost use Rattle.bay_device.specs.ReceivingViews.{step_state, on_indication_if, ResultsIn, IsContinuedIf, AdvancesTo};
ghost use Rattle.bay_device.specs.StateView.{state_view};
ghost use Rattle.bay_device.specs.declared.event.Why.TheVariants.{Memory};

use crate::event::{Sent, Why};
use crate::message::{EventEffects, handle_pdu};
use crate::state::DeviceState;
use bay_ber::outgoing::Outgoing;
use bay_connection::connection::Connection;
use bay_connection::indication::Indication;
use std::alloc::{AllocError, Global};

impl From<AllocError> for Why {
    ghost from_gives = { λ _ why. why ≡ Memory };

    fn from(_error: AllocError) -> Why {
        Why::Memory
    }
}

// Adds octets to what is sent on an association.
fn send(association: u16, octets: Vec<u8>, effects: &mut EventEffects) -> Result<(), AllocError>
    ensures ok { OnOk result
        (effects.new.sent.items ≡ effects.old.sent.items ++ sent_on association octets.items ∷ []) }
    ensures err { OnErr result (effects.new.sent.items ≡ effects.old.sent.items) }
    ensures commands { effects.new.commands.items ≡ effects.old.commands.items }
    ensures decisions { effects.new.decisions.items ≡ effects.old.decisions.items }
{
    let octets = Outgoing::new(octets);
    effects.sent.push(Sent {
        association,
        octets,
    })?;
    Ok(())
}

// Handles an indication of an association. An error says why the association must be closed.
fn handle_indication(
    alloc: Global,
    now: u64,
    association: u16,
    state: &mut DeviceState,
    connection: &Connection,
    indication: Indication,
    effects: &mut EventEffects,
) -> Result<(), Why>
    requires { IsOpenFor indication connection.now.state.phase }
    ensures ok { OnOk result
        ((connections : List (Option ConnectionState)) (later : StepState → ReceiveData)
        → on_indication_if now association (indication_of indication connection.now)
        (step_state (state_view connections state.old) effects.old) later
        ≡ later (step_state (state_view connections state.new) effects.new)) }
    ensures goes { OnOk result (IsContinuedIf (indication_of indication connection.now)) }
    ensures memory { IfErr result
        (λ why. why ≡ Memory → (connections : List (Option ConnectionState))
        → step_state (state_view connections state.new) effects.new
        ≡ step_state (state_view connections state.old) effects.old) }
    ensures stops { IfErr result (λ why. why ≢ Memory
        → (connections : List (Option ConnectionState)) (later : StepState → ReceiveData)
        → on_indication_if now association (indication_of indication connection.now)
        (step_state (state_view connections state.old) effects.old) later
        ≡ record {
          done = step_state (state_view connections state.new) effects.new;
          why = Some why;
        }) }
{
    match indication {
        Indication::Nothing => Ok(()),
        Indication::Answer(octets) => {
            send(association, octets, effects)?;
            Ok(())
        }
        Indication::Mms => {
            handle_pdu(alloc, now, association, state, connection, effects)?;
            Ok(())
        }
        Indication::Released(octets) => {
            send(association, octets, effects)?;
            Err(Why::Ended)
        }
        Indication::Ended => Err(Why::Ended),
        Indication::Fault(code) => Err(Why::Fault(code)),
    }
}

// Consumes octets up to the end of the first message they complete, and handles it; consumes all of
// them if they complete none. Returns how many were consumed. An error says why the association
// must be closed.
fn feed_once(
    alloc: Global,
    now: u64,
    association: u16,
    state: &mut DeviceState,
    connection: &mut Connection,
    rest: &[u8],
    effects: &mut EventEffects,
) -> Result<usize, Why>
    requires going { AcceptsOctets connection.old.state.stream.state }
    requires some { 0 < length rest.now }
    ensures within { IfOk result (λ used. used ≤ length rest.now) }
    ensures moves { IfOk result (λ used. 0 < used) }
    ensures left { IfOk result
        (λ used. connection.new.state ≡ connection_after connection.old.state (take used rest.now)) }
    ensures going { OnOk result (AcceptsOctets connection.new.state.stream.state) }
    ensures ok { IfOk result (λ used. (connections : List (Option ConnectionState))
        → AdvancesTo now association connection.old.state rest.now
        (step_state (state_view connections state.old) effects.old) connection.new.state
        (drop used rest.now) (step_state (state_view connections state.new) effects.new)) }
    ensures err { IfErr result (λ why. (connections : List (Option ConnectionState))
        → ResultsIn now association connection.old.state rest.now
        (step_state (state_view connections state.old) effects.old) (Some why)
        (step_state (state_view connections state.new) effects.new)) }
{
    let fed = connection.feed(rest)?;
    handle_indication(
        alloc,
        now,
        association,
        state,
        connection,
        fed.indication,
        effects,
    )?;
    Ok(fed.used)
}

/// Handles the messages that the octets of an association complete, in order, up to one that closes
/// it. An error says why the association must be closed.
pub fn handle_octets(
    alloc: Global,
    now: u64,
    association: u16,
    state: &mut DeviceState,
    connection: &mut Connection,
    octets: &[u8],
    effects: &mut EventEffects,
) -> Result<(), Why>
    requires going { AcceptsOctets connection.old.state.stream.state }
    requires some { 0 < length octets.now }
    ensures left { OnOk result
        (connection.new.state ≡ connection_after connection.old.state octets.now) }
    ensures going { OnOk result (AcceptsOctets connection.new.state.stream.state) }
    ensures ok { OnOk result ((connections : List (Option ConnectionState))
        → ResultsIn now association connection.old.state octets.now
        (step_state (state_view connections state.old) effects.old) None
        (step_state (state_view connections state.new) effects.new)) }
    ensures err { IfErr result (λ why. (connections : List (Option ConnectionState))
        → ResultsIn now association connection.old.state octets.now
        (step_state (state_view connections state.old) effects.old) (Some why)
        (step_state (state_view connections state.new) effects.new)) }
{
    let mut at = 0;
    while at < octets.len() {
        at += feed_once(
            alloc,
            now,
            association,
            state,
            connection,
            &octets[at..],
            effects,
        )?;
    }
    Ok(())
}
