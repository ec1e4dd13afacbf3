// Collects what a turn reports.
ghost use Rattle.std.specs.Prelude.{◌≡◌, ◌+◌, ◌<◌, ◌++◌, ◌∷◌, [], Some, true, length, IfSome};
ghost use Rattle.bay_server_turn.specs.AssociationStates.{after_full, is_draining};
ghost use Rattle.bay_server_turn.specs.Turns.{with_decisions, mark_closed, start_closing, start_closing_if_closed, nothing_noted, noted_state, with_state};
ghost use Rattle.bay_server_turn.specs.Turns as spec;
ghost use Rattle.bay_server_turn.specs.declared.association_state.AssociationState.TheVariants.{Closed};
ghost use Rattle.bay_device.specs.Outcomes.{associations};

use crate::association_state::AssociationState;
use crate::bounded_list::BoundedList;
use crate::turn_report::{CloseReason, Turn};
use bay_base::listing::Listing;
use bay_base::switch::Operation;
use bay_device::event::{ASSOCIATIONS, Why};
use bay_mms_services::answer::{Command, ControlDecision};
use std::marker::Model;
use std::net::SocketAddrV4;

/// The state of each association in a turn, and what the turn will report: at most one closing for
/// each association, and one command and the decisions of one read for each association read.
#[derive(Drop)]
pub struct TurnBuilder {
    states: [AssociationState; ASSOCIATIONS],
    refused: Option<u8>,
    commands: BoundedList<Command>,
    decisions: [Option<Listing<ControlDecision>>; ASSOCIATIONS],
    closed: BoundedList<(u16, CloseReason)>,
    memory: BoundedList<u16>,
}

impl Model for TurnBuilder {
    ghost use Rattle.bay_server_turn.specs.Turns.{TurnData};
    ghost use Rattle.bay_server_turn.specs.Room.{HasEntries};

    ghost Value = { TurnData };

    ghost view = { λ n. record {
      states = n.states;
      refused = n.refused;
      commands = n.commands;
      decisions = n.decisions;
      closed = n.closed;
      memory = n.memory;
    } };

    ghost invariant = { λ n. HasEntries n.states n.closed n.memory };
}

impl TurnBuilder {
    /// Creates a builder with no association closed and nothing to report.
    pub fn new() -> Self
        ensures { result ≡ nothing_noted }
    {
        TurnBuilder {
            states: [AssociationState::Steady; ASSOCIATIONS],
            refused: None,
            commands: BoundedList::new(Command {
                switch: 0,
                operation: Operation::Open,
            }),
            decisions: [None, None, None, None, None, None, None, None],
            closed: BoundedList::new((0, CloseReason::Ended)),
            memory: BoundedList::new(0),
        }
    }

    /// Returns the state of the association at an index.
    pub fn association_state(&self, slot: usize) -> AssociationState
        requires { slot < associations }
        ensures { result ≡ noted_state slot self.now }
    {
        self.states[slot]
    }

    /// Returns the index of the lowest association to which a reply did not fit; `None` if there is
    /// none.
    pub fn first_full(&self) -> Option<usize>
        ensures lowest { result ≡ spec.first_full self.now }
        ensures within { IfSome result (λ slot. slot < associations) }
    {
        self.states
            .iter()
            .position(|association_state| association_state.is_full())
    }

    /// Records that a reply to the association at an index did not fit its queue.
    pub fn mark_full(&mut self, slot: usize)
        requires { slot < associations }
        ensures { self.new ≡ with_state slot (after_full (noted_state slot self.old)) self.old }
    {
        self.states[slot] = self.states[slot].with_full_queue();
    }

    /// Records that the device or the client closed the association at an index, for this reason.
    /// Its queue will be offered once more.
    pub fn start_closing(&mut self, slot: usize, why: Why)
        requires { slot < associations }
        ensures { self.new ≡ start_closing slot why self.old }
    {
        if !self.states[slot].is_close_reported() {
            match why {
                Why::Ended => self.closed.push((slot as u16 + 1, CloseReason::Ended)),
                Why::Fault(code) => self
                    .closed
                    .push((slot as u16 + 1, CloseReason::Fault(code))),
                Why::Memory => self.memory.push(slot as u16 + 1),
            }
        }
        self.states[slot] = AssociationState::Draining;
    }

    /// Records that the device closed the association at an index, if it closed one.
    pub fn start_closing_if_closed(&mut self, slot: usize, closed: Option<(u16, Why)>)
        requires { slot < associations }
        ensures { self.new ≡ start_closing_if_closed slot closed self.old }
    {
        if let Some((_, why)) = closed {
            self.start_closing(slot, why);
        }
    }

    /// Records that the association at an index was closed with nothing left to send.
    pub fn mark_closed(&mut self, slot: usize, closing: CloseReason)
        requires { slot < associations }
        ensures { self.new ≡ mark_closed slot closing self.old }
    {
        if !self.states[slot].is_close_reported() {
            self.closed.push((slot as u16 + 1, closing));
        }
        self.states[slot] = AssociationState::Closed;
    }

    /// Records that the remaining queue of a closed association was offered to the link.
    pub fn finish_closing(&mut self, slot: usize)
        requires slot { slot < associations }
        requires leaving { is_draining (noted_state slot self.old) ≡ true }
        ensures { self.new ≡ with_state slot Closed self.old }
    {
        self.states[slot] = AssociationState::Closed;
    }

    /// Reports that the device refused the event of the process, with this number.
    pub fn report_refusal(&mut self, code: u8)
        ensures { self.new ≡ record self.old { refused = Some code } }
    {
        self.refused = Some(code);
    }

    /// Reports a command to operate a switch.
    pub fn report_command(&mut self, command: Command)
        requires { length self.old.commands < associations }
        ensures { self.new ≡ record self.old { commands = self.old.commands ++ command ∷ [] } }
    {
        self.commands.push(command);
    }

    /// Reports what was decided on the controls that the client of the association at an index
    /// requested.
    pub fn report_decisions(&mut self, slot: usize, decisions: Listing<ControlDecision>)
        requires { slot < associations }
        ensures { self.new ≡ with_decisions slot decisions self.old }
    {
        self.decisions[slot] = Some(decisions);
    }

    /// Returns the report of the turn, given the association that it opened, and the switch whose
    /// execution expired in it.
    pub fn into_turn(self, opened: Option<(u16, SocketAddrV4)>, over: Option<usize>) -> Turn
        ensures { result ≡ record {
          opened = opened;
          over = over;
          refused = self.refused;
          commands = self.commands;
          decisions = self.decisions;
          closed = self.closed;
          memory = self.memory;
        } }
    {
        let TurnBuilder {
            states: _,
            refused,
            commands,
            decisions,
            closed,
            memory,
        } = self;
        Turn {
            opened,
            over,
            refused,
            commands,
            decisions,
            closed,
            memory,
        }
    }
}
