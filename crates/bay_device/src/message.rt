// Answers a PDU of a client. Its effects take place once the whole answer is built.
ghost use Rattle.std.specs.Prelude.{◌≡◌, ◌≤◌, ◌++◌, List, Option, [], All, IfOk, IfSome, IsSome, OnErr, OnOk, length, map, take};
ghost use Rattle.bay_assoc.specs.Receives.{association_terms};
ghost use Rattle.bay_connection.specs.ConnectionStates.{ConnectionState, octets_to_send, terms_of};
ghost use Rattle.bay_mms_initiate.specs.Sizes.{IsPduSize};
ghost use Rattle.bay_mms_services.specs.Answers.{pdu_answer};
ghost use Rattle.bay_device.specs.Device.{bay_of};
ghost use Rattle.bay_device.specs.Receiving.{answered_with, later_pending, after_pdu, sending_if, sent_on};
ghost use Rattle.bay_device.specs.Receiving as spec;
ghost use Rattle.bay_device.specs.ReceivingViews.{step_state, with_effect};
ghost use Rattle.bay_device.specs.StateView.{state_view};

use crate::event::Sent;
use crate::state::DeviceState;
use crate::termination::PendingTermination;
use bay_ber::outgoing::Outgoing;
use bay_connection::connection::Connection;
use bay_control::controls::Controls;
use bay_mms_services::answer::{Command, ControlDecision, PduAnswer, TerminationReports};
use bay_mms_services::client::ClientContext;
use std::alloc::{AllocError, Global};

/// The effects of an event so far: octets to send, commands to issue, and decisions on controls.
#[derive(Drop)]
pub struct EventEffects {
    pub sent: Vec<Sent>,
    pub commands: Vec<Command>,
    pub decisions: Vec<ControlDecision>,
}

impl EventEffects {
    /// Makes the effects of an event that has had none yet.
    pub fn new(alloc: Global) -> EventEffects
        ensures sent { result.sent.items ≡ [] }
        ensures commands { result.commands.items ≡ [] }
        ensures decisions { result.decisions.items ≡ [] }
    {
        EventEffects {
            sent: Vec::new(alloc),
            commands: Vec::new(alloc),
            decisions: Vec::new(alloc),
        }
    }
}

// Returns the octets that carry a report, if there is one.
fn wrap_report(
    connection: &Connection,
    report: Option<Outgoing>,
) -> Result<Option<Outgoing>, AllocError>
    requires { IsSome (association_terms connection.now.state.phase) }
    ensures { IfOk result (λ octets. octets ≡ sending_if (terms_of connection.now.state) report) }
{
    match report {
        Some(pdu) => {
            let octets = connection.send(pdu)?;
            Ok(Some(octets))
        }
        None => Ok(None),
    }
}

// Returns the octets that will report to an association that its operate ended.
fn wrap_termination(
    connection: &Connection,
    association: u16,
    termination: TerminationReports,
) -> Result<PendingTermination, AllocError>
    requires { IsSome (association_terms connection.now.state.phase) }
    ensures { IfOk result (λ pending. pending
        ≡ spec.pending_of association (terms_of connection.now.state) termination) }
{
    let positive = wrap_report(connection, termination.positive)?;
    let negative = wrap_report(connection, termination.negative)?;
    Ok(PendingTermination {
        association,
        positive,
        negative,
    })
}

// Like `wrap_termination`; `None` if there are no reports.
fn wrap_termination_if(
    connection: &Connection,
    association: u16,
    termination: Option<TerminationReports>,
) -> Result<Option<PendingTermination>, AllocError>
    requires { IsSome (association_terms connection.now.state.phase) }
    ensures { IfOk result (λ pending. pending
        ≡ spec.pending_if association (terms_of connection.now.state) termination) }
{
    match termination {
        Some(termination) => {
            let pending = wrap_termination(connection, association, termination)?;
            Ok(Some(pending))
        }
        None => Ok(None),
    }
}

// Replaces the pending reports by those of a new execution, if there are any.
fn replace_termination(pending: &mut Option<PendingTermination>, new: Option<PendingTermination>)
    ensures { pending.new ≡ later_pending pending.old new }
{
    if new.is_some() {
        *pending = new;
    }
}

// Adds these PDUs to what is sent on an association.
fn send_all(
    connection: &Connection,
    association: u16,
    pdus: Vec<Outgoing>,
    sent: &mut Vec<Sent>,
) -> Result<(), AllocError>
    requires { IsSome (association_terms connection.now.state.phase) }
    ensures ok { OnOk result
        (sent.new.items ≡ sent.old.items
        ++ map (λ pdu. sent_on association (octets_to_send (terms_of connection.now.state) pdu))
        pdus.items) }
    ensures kept { take (length sent.old.items) sent.new.items ≡ sent.old.items }
{
    for pdu in pdus {
        let octets = connection.send(pdu)?;
        sent.push(Sent {
            association,
            octets,
        })?;
    }
    Ok(())
}

// Adds the PDUs of an answer to what is sent, and its commands and its decisions to the others.
// Returns the pending reports for the end of its operate. If an allocation fails, more may have
// been added.
fn record_answer(
    connection: &Connection,
    association: u16,
    answer: PduAnswer,
    effects: &mut EventEffects,
) -> Result<Option<PendingTermination>, AllocError>
    requires { IsSome (association_terms connection.now.state.phase) }
    ensures pending { IfOk result
        (λ pending. pending ≡ spec.pending_if association (terms_of connection.now.state)
        answer.termination) }
    ensures sent { OnOk result
        (effects.new.sent.items ≡ effects.old.sent.items
        ++ map (λ pdu. sent_on association (octets_to_send (terms_of connection.now.state) pdu))
        answer.sent.items) }
    ensures commands { OnOk result
        (effects.new.commands.items ≡ effects.old.commands.items ++ answer.commands.items) }
    ensures decisions { OnOk result
        (effects.new.decisions.items ≡ effects.old.decisions.items ++ answer.decisions.items) }
    ensures sent_before { take (length effects.old.sent.items) effects.new.sent.items
        ≡ effects.old.sent.items }
    ensures commands_before { take (length effects.old.commands.items) effects.new.commands.items
        ≡ effects.old.commands.items }
    ensures decisions_before { take (length effects.old.decisions.items) effects.new.decisions.items
        ≡ effects.old.decisions.items }
{
    send_all(connection, association, answer.sent, &mut effects.sent)?;
    effects
        .commands
        .extend_from_slice(answer.commands.as_slice())?;
    let mut decisions = answer.decisions;
    effects.decisions.append(&mut decisions)?;
    wrap_termination_if(connection, association, answer.termination)
}

// Answers a PDU. `controls` becomes the controls after the PDU. Changes nothing else but `effects`;
// if an allocation fails, more may have been added to it.
fn answer(
    alloc: Global,
    state: &DeviceState,
    client: ClientContext,
    connection: &Connection,
    controls: &mut Controls,
    effects: &mut EventEffects,
) -> Result<Option<PendingTermination>, AllocError>
    requires open { IsSome (association_terms connection.now.state.phase) }
    requires sized { IsPduSize client.size }
    ensures ok { IfOk result (λ pending. (connections : List (Option ConnectionState))
        → step_state (with_effect controls.new pending (state_view connections state.now))
        effects.new
        ≡ answered_with client.association (terms_of connection.now.state)
        (pdu_answer client connection.now.pdu (bay_of (state_view connections state.now)))
        (step_state (state_view connections state.now) effects.old)) }
    ensures sent { take (length effects.old.sent.items) effects.new.sent.items
        ≡ effects.old.sent.items }
    ensures commands { take (length effects.old.commands.items) effects.new.commands.items
        ≡ effects.old.commands.items }
    ensures decisions { take (length effects.old.decisions.items) effects.new.decisions.items
        ≡ effects.old.decisions.items }
{
    let answer = state.bay.answer(
        alloc,
        client,
        &state.input_values,
        connection.pdu(),
        controls,
    )?;
    record_answer(connection, client.association, answer, effects)
}

// Stores the effects of an answered PDU: the controls after it, and the pending reports of a new
// execution.
fn store_effects(state: &mut DeviceState, controls: Controls, pending: Option<PendingTermination>)
    ensures { (connections : List (Option ConnectionState))
        → state_view connections state.new
        ≡ with_effect controls pending (state_view connections state.old) }
{
    state.bay.controls = controls;
    replace_termination(&mut state.pending, pending);
}

/// Answers a PDU of an association and carries it out. If an allocation fails, changes nothing.
pub fn handle_pdu(
    alloc: Global,
    now: u64,
    association: u16,
    state: &mut DeviceState,
    connection: &Connection,
    effects: &mut EventEffects,
) -> Result<(), AllocError>
    requires { IsSome (association_terms connection.now.state.phase) }
    ensures ok { OnOk result
        ((connections : List (Option ConnectionState))
        → step_state (state_view connections state.new) effects.new
        ≡ after_pdu now association (terms_of connection.now.state) connection.now.pdu
        (step_state (state_view connections state.old) effects.old)) }
    ensures err { OnErr result
        ((connections : List (Option ConnectionState))
        → step_state (state_view connections state.new) effects.new
        ≡ step_state (state_view connections state.old) effects.old) }
{
    let client = ClientContext {
        association,
        size: connection.pdu_size(),
        now,
        lost: state.is_lost,
        fresh: state.is_fresh(now),
    };
    let sent = effects.sent.len();
    let commands = effects.commands.len();
    let decisions = effects.decisions.len();
    let mut controls = Controls::new();
    match answer(alloc, state, client, connection, &mut controls, effects) {
        Ok(pending) => {
            store_effects(state, controls, pending);
            Ok(())
        }
        Err(fault) => {
            effects.sent.truncate(sent);
            effects.commands.truncate(commands);
            effects.decisions.truncate(decisions);
            Err(fault)
        }
    }
}
