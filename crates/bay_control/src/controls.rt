// The selection and the execution in one bay, and the decisions on requests.
ghost use Rattle.std.specs.Prelude.{◌≡◌, [], if◌then◌else◌, None};
ghost use Rattle.bay_control.specs.Decisions.{controls_at, answer_of, cancel_outcome, execution_at, operate_outcome, rows_of_operate, expired_switch, select_outcome, shared_select_rows, select_with_outcome, selected_switch, selection_at, selection_without, state_of};
ghost use Rattle.bay_control.specs.Decisions as spec;
ghost use Rattle.bay_control.specs.Requests.{requested_choice};

use crate::cause::AddCause;
use crate::control::{ControlTable, has_passed};
use crate::request::{Ask, Choice, View, is_reached};
use crate::selection::{Execution, Selection};
use bay_base::position::Dbpos;
use bay_base::switch::Control;

/// The selected and the operating switch of a bay, at most one each. Contracts join it with the
/// table of the switches' controls to the state of the bay's controls.
///
/// A switch is its index in the bay file, from 0; an index without a switch has no control. Times
/// are in milliseconds since 1970. A selection expires after `sbo_timeout_ms`, an execution after
/// `travel_ms`; at that time it counts as ended. Each request first ends what has expired, as
/// `advance` does.
#[derive(Drop)]
pub struct Controls {
    /// The selected switch, and the association that selected it.
    pub selection: Option<Selection>,
    /// The operating switch.
    pub execution: Option<Execution>,
}

impl Controls {
    /// Returns the initial state: no selection and no execution.
    pub fn new() -> Self
        ensures { result ≡ record { selection = None; execution = None } }
    {
        Controls {
            selection: None,
            execution: None,
        }
    }

    /// Returns a copy on which a request can be tried. Does not allocate.
    pub fn duplicate(&self) -> Self
        ensures { result ≡ self.now }
    {
        Controls {
            selection: self.selection.as_ref().map(|held| held.duplicate()),
            execution: self.execution,
        }
    }

    // Returns whether the association has selected the switch.
    fn is_selected_by(&self, association: u16, switch: usize) -> bool
        ensures { result ≡ spec.is_selected_by association switch self.now.selection }
    {
        self.selection
            .as_ref()
            .is_some_and(|s| s.association == association && s.switch == switch)
    }

    // Returns whether a select with value was granted for the operation and the originator of a
    // request.
    fn is_chosen(&self, ask: &Ask) -> bool
        ensures { result ≡ spec.is_chosen (requested_choice ask.now) self.now.selection }
    {
        match &self.selection {
            Some(
                Selection {
                    choice: Some(choice),
                    ..
                },
            ) => choice.is_for(ask),
            _ => false,
        }
    }

    // Returns whether the switch is operating.
    fn is_executing(&self, switch: usize) -> bool
        ensures { result ≡ spec.is_executing switch self.now.execution }
    {
        self.execution.is_some_and(|e| e.switch == switch)
    }

    // Returns whether the selection has expired.
    fn is_selection_expired(&self, table: &ControlTable, now: u64) -> bool
        ensures { (if result then None else self.now.selection)
            ≡ selection_at now table.now self.now.selection }
    {
        match &self.selection {
            Some(selection) => {
                let timeout = table.of(selection.switch).sbo_timeout_ms;
                has_passed(selection.since, timeout, now)
            }
            None => false,
        }
    }

    // Returns the execution if it has not expired.
    fn lasting_execution(&self, table: &ControlTable, now: u64) -> Option<Execution>
        ensures { result ≡ execution_at now table.now self.now.execution }
    {
        let execution = self.execution?;
        let travel = table.of(execution.switch).travel_ms;
        if has_passed(execution.start, travel, now) {
            None
        } else {
            Some(execution)
        }
    }

    /// Ends what has expired, and returns the switch whose execution has expired; `None` if none
    /// has. Returns at once in the usual case that there is no selection and no execution.
    #[inline(always)]
    pub fn advance(&mut self, table: &ControlTable, now: u64) -> Option<usize>
        ensures expired_switch { result ≡ expired_switch now table.now self.old.execution }
        ensures after { state_of table.now self.new
            ≡ controls_at now (state_of table.now self.old) }
    {
        if self.selection.is_none() && self.execution.is_none() {
            return None;
        }
        self.end(table, now)
    }

    // Ends what has expired, and returns the switch whose execution has expired.
    #[inline(never)]
    fn end(&mut self, table: &ControlTable, now: u64) -> Option<usize>
        ensures expired_switch { result ≡ expired_switch now table.now self.old.execution }
        ensures after { state_of table.now self.new
            ≡ controls_at now (state_of table.now self.old) }
    {
        if self.is_selection_expired(table, now) {
            self.selection = None;
        }
        let before = self.execution;
        self.execution = self.lasting_execution(table, now);
        match (before, self.execution) {
            (Some(ended), None) => Some(ended.switch),
            _ => None,
        }
    }

    // Refuses a select, with value or without, that the current state of the controls does not
    // allow.
    fn check_select(
        &self,
        is_supported: bool,
        association: u16,
        switch: usize,
    ) -> Result<(), AddCause>
        ensures { result
            ≡ answer_of (shared_select_rows is_supported association switch
            (state_of [] self.now) []) }
    {
        if !is_supported {
            return Err(AddCause::NotSupported);
        }
        if self.is_executing(switch) {
            return Err(AddCause::CommandAlreadyInExecution);
        }
        match &self.selection {
            Some(held) if held.switch != switch => Err(AddCause::OneOfNControl),
            Some(held) if held.association != association => Err(AddCause::SelectFailed),
            _ => Ok(()),
        }
    }

    /// Selects a switch whose control has normal security (Select). If the association has already
    /// selected the switch, the time of the selection starts again.
    ///
    /// Returns the first of these causes that applies: the switch has no such control, 1; it is
    /// operating, 12; another association has selected it, 3; another switch is selected, 14. A
    /// refused select does not change the selection, unless it has expired.
    pub fn select(
        &mut self,
        table: &ControlTable,
        association: u16,
        switch: usize,
        now: u64,
    ) -> Result<(), AddCause>
        ensures answer { result
            ≡ (select_outcome association switch now (state_of table.now self.old)).answer }
        ensures after { state_of table.now self.new
            ≡ (select_outcome association switch now (state_of table.now self.old)).after }
    {
        self.advance(table, now);
        let is_supported = matches!(table.of(switch).model, Control::Sbo);
        self.check_select(is_supported, association, switch)?;
        self.selection = Some(Selection {
            switch,
            association,
            since: now,
            choice: None,
        });
        Ok(())
    }

    /// Selects a switch whose control has enhanced security, for the requested operation and
    /// originator (SelectWithValue). If the association has already selected the switch, the time
    /// of the selection starts again, for the new request.
    ///
    /// Returns the first of the causes of `select` that applies, and then 8 if the request is a
    /// test.
    pub fn select_with(
        &mut self,
        table: &ControlTable,
        association: u16,
        switch: usize,
        ask: Ask,
        now: u64,
    ) -> Result<(), AddCause>
        ensures answer { result
            ≡ (select_with_outcome association switch ask now (state_of table.now self.old)).answer }
        ensures after { state_of table.now self.new
            ≡ (select_with_outcome association switch ask now (state_of table.now self.old)).after }
    {
        self.advance(table, now);
        let is_supported = matches!(table.of(switch).model, Control::SboEnhanced);
        self.check_select(is_supported, association, switch)?;
        if ask.test {
            return Err(AddCause::BlockedByMode);
        }
        self.selection = Some(Selection {
            switch,
            association,
            since: now,
            choice: Some(Choice {
                operation: ask.operation,
                origin: ask.origin,
            }),
        });
        Ok(())
    }

    // Refuses an operate that the current state of the controls or the view does not allow.
    fn check_operate(
        &self,
        table: &ControlTable,
        association: u16,
        switch: usize,
        ask: &Ask,
        view: View,
    ) -> Result<(), AddCause>
        ensures { result ≡ answer_of (rows_of_operate association switch ask.now view
            (state_of table.now self.now)) }
    {
        let control = table.of(switch);
        if matches!(control.model, Control::Status) {
            return Err(AddCause::NotSupported);
        }
        let is_selected = self.is_selected_by(association, switch)
            && (!matches!(control.model, Control::SboEnhanced) || self.is_chosen(ask));
        if control.is_sbo() && !is_selected {
            return Err(AddCause::ObjectNotSelected);
        }
        if ask.test {
            return Err(AddCause::BlockedByMode);
        }
        if self.is_executing(switch) {
            return Err(AddCause::CommandAlreadyInExecution);
        }
        if self.execution.is_some() {
            return Err(AddCause::OneOfNControl);
        }
        if is_reached(ask.operation, view.pos) {
            return Err(AddCause::PositionReached);
        }
        if view.lost {
            return Err(AddCause::BlockedByProcess);
        }
        if view.local {
            return Err(AddCause::BlockedBySwitchingHierarchy);
        }
        if !view.fresh || !view.is_released(ask.operation) {
            return Err(AddCause::BlockedByInterlocking);
        }
        if control.refuses_synchrocheck && ask.closes_checked() {
            return Err(AddCause::BlockedBySynchrocheck);
        }
        Ok(())
    }

    /// Operates a switch if the view allows it (Operate). An operate by the association that has
    /// selected the switch ends the selection, whether accepted or not. An accepted operate starts
    /// the execution.
    ///
    /// Returns the first of these causes that applies: the switch has no control, 1; it must be
    /// selected first, and the association has not selected it, or has selected it with enhanced
    /// security for another operation or originator, 18; the request is a test, 8; the switch is
    /// operating, 12; another switch is operating, 14; the position is reached, 5; the process is
    /// lost, 9; the key of the switch is at local, 2; the scan is not fresh, or the interlocking
    /// does not release the operation, 10; the request is to close with a synchrocheck, which the
    /// switch refuses, 11.
    pub fn operate(
        &mut self,
        table: &ControlTable,
        association: u16,
        switch: usize,
        ask: Ask,
        view: View,
        now: u64,
    ) -> Result<(), AddCause>
        ensures answer { result
            ≡ (operate_outcome association switch ask view now (state_of table.now self.old)).answer }
        ensures after { state_of table.now self.new
            ≡ (operate_outcome association switch ask view now (state_of table.now self.old)).after }
    {
        self.advance(table, now);
        let answer = self.check_operate(table, association, switch, &ask, view);
        if self.is_selected_by(association, switch) {
            self.selection = None;
        }
        answer?;
        self.execution = Some(Execution {
            switch,
            start: now,
            operation: ask.operation,
        });
        Ok(())
    }

    /// Ends the association's selection of a switch (Cancel).
    ///
    /// Returns the first of these causes that applies: the switch need not be selected before it is
    /// operated, 1; it is operating, 12; the association has not selected it, 18. A refused cancel
    /// does not change the selection, unless it has expired.
    pub fn cancel(
        &mut self,
        table: &ControlTable,
        association: u16,
        switch: usize,
        now: u64,
    ) -> Result<(), AddCause>
        ensures answer { result
            ≡ (cancel_outcome association switch now (state_of table.now self.old)).answer }
        ensures after { state_of table.now self.new
            ≡ (cancel_outcome association switch now (state_of table.now self.old)).after }
    {
        self.advance(table, now);
        if !table.of(switch).is_sbo() {
            return Err(AddCause::NotSupported);
        }
        if self.is_executing(switch) {
            return Err(AddCause::CommandAlreadyInExecution);
        }
        if !self.is_selected_by(association, switch) {
            return Err(AddCause::ObjectNotSelected);
        }
        self.selection = None;
        Ok(())
    }

    /// Ends the selection of a closed association, if it has one.
    pub fn drop_owner(&mut self, association: u16)
        ensures { self.new ≡ record self.old {
          selection = selection_without association self.old.selection;
        } }
    {
        if self
            .selection
            .as_ref()
            .is_some_and(|s| s.association == association)
        {
            self.selection = None;
        }
    }

    /// Applies the reported position of a switch. Returns whether this ends the execution of the
    /// switch.
    pub fn contact(&mut self, switch: usize, position: Dbpos) -> bool
        ensures ended { result ≡ spec.is_done switch position self.old.execution }
        ensures after { self.new ≡ record self.old {
          execution = if result then None else self.old.execution;
        } }
    {
        let is_ended = self.execution.is_some_and(|e| e.switch == switch
            && is_reached(e.operation, position));
        if is_ended {
            self.execution = None;
        }
        is_ended
    }

    /// Returns the selected switch, as of the last `advance` (IEC 61850-7-3, stSeld); `None` if
    /// there is none.
    pub fn selected(&self) -> Option<usize>
        ensures { result ≡ selected_switch self.now.selection }
    {
        self.selection.as_ref().map(|s| s.switch)
    }
}
