// The variables of a write, one after the other.
ghost use Rattle.std.specs.Prelude.{◌≡◌, ◌≤◌, ◌<◌, ◌++◌, ◌∷◌, [], Some, Ok, Err, map, length, IfOk, OnOk};
ghost use Rattle.bay_mms.specs.ControlViews.{cancel_view, operate_view};
ghost use Rattle.bay_mms.specs.Controls.{cancel_or_error, operate_or_error};
ghost use Rattle.bay_tree.specs.Rows.{IsHandle, name_at};
ghost use Rattle.bay_mms.specs.ControlViews.{origin_view};
ghost use Rattle.bay_mms_services.specs.Controls.{termination_reports, accepted_termination, object_of, refusal_reports, written_decision};
ghost use Rattle.bay_mms_services.specs.Controls as spec_controls;
ghost use Rattle.bay_mms_services.specs.Writes.{write_cancel, operate_commands, decision_result, later_ending, write_operate, write_select_with};
ghost use Rattle.bay_mms_services.specs.Writes as spec;
ghost use Rattle.bay_mms.specs.RequestViews.{object_name_view};
ghost use Rattle.bay_mms.specs.Responses.{failure_result};
ghost use Rattle.bay_mms.specs.declared.fault.DataAccessError.TheVariants.{ObjectAccessDenied};
ghost use Rattle.bay_mms.specs.Views.{data_in, datum_of};
ghost use Rattle.bay_mms_services.specs.Views.{bay_of, bay_view, write_state_view};

use crate::answer::{Command, ControlDecision, ControlRequest, TerminationReports};
use crate::bay::ServedBay;
use crate::client::ClientContext;
use crate::invocation::Invocation;
use crate::reply::pdu_if_fits;
use crate::target::{ControlPart, Target};
use bay_base::switch::Operation;
use bay_base::text::Text;
use bay_ber::outgoing::Outgoing;
use bay_control::cause::AddCause;
use bay_control::controls::Controls;
use bay_control::request::{Ask, Identity, Originator};
use bay_mms::control::{CancelData, OperateData, Origin, cancel_of, operate_of};
use bay_mms::data::Data;
use bay_mms::fault::DataAccessError;
use bay_mms::report::{
    LastApplError, write_failed_termination, write_last_appl_error, write_termination,
};
use bay_mms::request::ObjectName;
use bay_mms::results::WriteResponse;
use bay_tree::tree::Handle;
use std::alloc::{AllocError, Global};

// The error of a write to anything but a whole SBOw, Oper or Cancel, and of a refused request.
const DENIED: DataAccessError = DataAccessError::ObjectAccessDenied;

// The switch of a part of a control, and the row of the part.
#[derive(Clone, Copy)]
struct SwitchRow {
    /// The index of the switch in the bay file, from 0.
    switch: usize,
    row: Handle,
}

/// The results so far of a write, apart from its effects on the controls.
#[derive(Drop)]
pub struct WriteResults {
    /// The results of the variables.
    pub response: WriteResponse,
    /// The reports of refused controls.
    pub reports: Vec<Outgoing>,
    pub commands: Vec<Command>,
    /// The decisions on controls.
    pub decisions: Vec<ControlDecision>,
    pub termination: Option<TerminationReports>,
}

// Returns the operation that a ctlVal requests.
fn operation_of(ctl_val: bool) -> Operation
    ensures { result ≡ spec_controls.operation_of ctl_val }
{
    if ctl_val {
        Operation::Close
    } else {
        Operation::Open
    }
}

// Returns the originator of a request.
fn origin_of(origin: &Origin<'_>) -> Originator
    requires { length origin.now.or_ident.now ≤ 64 }
    ensures { result ≡ spec_controls.origin_of (origin_view origin.now) }
{
    Originator {
        cat: origin.or_cat,
        ident: Identity::new(origin.or_ident),
    }
}

// Returns the request to the controls.
fn control_request_of(operate: &OperateData<'_>) -> Ask
    requires { length operate.now.control.origin.or_ident.now ≤ 64 }
    ensures { result ≡ spec_controls.control_request_of (operate_view operate.now) }
{
    let control = &operate.control;
    Ask {
        operation: operation_of(control.ctl_val),
        test: control.test,
        synchrocheck: operate.check.synchrocheck,
        origin: origin_of(&control.origin),
    }
}

// Records the decision on a control that was written.
fn record_written(
    client: ClientContext,
    switch: usize,
    part: ControlPart,
    control: &CancelData<'_>,
    answer: Result<(), AddCause>,
    decisions: &mut Vec<ControlDecision>,
) -> Result<(), AllocError>
    requires { length control.now.origin.or_ident.now ≤ 64 }
    ensures { OnOk result (decisions.new.items ≡ decisions.old.items
        ++ written_decision client switch part (cancel_view control.now) answer ∷ []) }
{
    decisions.push(ControlDecision {
        association: client.association,
        switch,
        part,
        request: Some(ControlRequest {
            operation: operation_of(control.ctl_val),
            origin: origin_of(&control.origin),
            ctl_num: control.ctl_num,
        }),
        answer,
    })?;
    Ok(())
}

impl ServedBay {
    /// Returns the object reference of a row, by which reports name a control: its domain, `/` and
    /// its item. Fails only if an allocation fails.
    pub(crate) fn object(&self, alloc: Global, row: Handle) -> Result<Text, AllocError>
        requires { IsHandle self.now.tree row }
        ensures { IfOk result (λ object. object
            ≡ object_of (bay_view self.now) (name_at self.now.tree row)) }
    {
        let domain = self.domain.as_str();
        let item = self.tree.name(row);
        Ok(Text::new(format!(in alloc; "{domain}/{item}")?))
    }

    // Returns whether clients receive reports of refusals and of the end of an operate of a switch.
    fn has_reports(&self, switch: usize) -> bool
        ensures { result ≡ spec_controls.has_reports (bay_view self.now) switch }
    {
        self.control_table.is_enhanced(switch)
    }
}

impl Invocation<'_> {
    // Adds the report of a refusal, if the switch has reports.
    fn report_refusal(
        &self,
        part: SwitchRow,
        control: &CancelData<'_>,
        why: AddCause,
        reports: &mut Vec<Outgoing>,
    ) -> Result<(), AllocError>
        requires { IsHandle self.now.bay.now.tree part.row }
        ensures { OnOk result (reports.new.items
            ≡ reports.old.items ++ refusal_reports self.now.client part.switch
            (name_at self.now.bay.now.tree part.row) (cancel_view control.now)
            (bay_of self.now) (Err why)) }
    {
        if !self.bay.has_reports(part.switch) {
            return Ok(());
        }
        let object = self.bay.object(self.alloc, part.row)?;
        let error = LastApplError {
            object: object.as_str(),
            origin: control.origin,
            ctl_num: control.ctl_num,
            add_cause: why.code(),
        };
        if let Some(report) = pdu_if_fits(write_last_appl_error(
            self.alloc,
            &error,
            self.client.size,
        ))? {
            reports.push(report)?;
        }
        Ok(())
    }

    // Records a refused control: its result, and its report.
    fn refuse(
        &self,
        part: SwitchRow,
        control: &CancelData<'_>,
        why: AddCause,
        written: &mut WriteResults,
    ) -> Result<(), AllocError>
        requires { IsHandle self.now.bay.now.tree part.row }
        ensures response { OnOk result
            (written.new.response ≡ written.old.response ++ failure_result ObjectAccessDenied) }
        ensures reports { OnOk result (written.new.reports.items
            ≡ written.old.reports.items ++ refusal_reports self.now.client part.switch
            (name_at self.now.bay.now.tree part.row) (cancel_view control.now) (bay_of self.now)
            (Err why)) }
        ensures commands { written.new.commands ≡ written.old.commands }
        ensures decisions { written.new.decisions ≡ written.old.decisions }
        ensures termination { written.new.termination ≡ written.old.termination }
    {
        written.response.failure(DENIED)?;
        self.report_refusal(part, control, why, &mut written.reports)
    }

    // Records a decision, and its result in the response.
    fn put_decision(
        &self,
        part: SwitchRow,
        written_to: ControlPart,
        control: &CancelData<'_>,
        answer: Result<(), AddCause>,
        written: &mut WriteResults,
    ) -> Result<(), AllocError>
        requires there { IsHandle self.now.bay.now.tree part.row }
        requires ident { length control.now.origin.or_ident.now ≤ 64 }
        ensures response { OnOk result
            (written.new.response ≡ written.old.response ++ decision_result answer) }
        ensures reports { OnOk result (written.new.reports.items
            ≡ written.old.reports.items ++ refusal_reports self.now.client part.switch
            (name_at self.now.bay.now.tree part.row) (cancel_view control.now)
            (bay_of self.now) answer) }
        ensures decisions { OnOk result (written.new.decisions.items
            ≡ written.old.decisions.items ++ written_decision self.now.client part.switch written_to
            (cancel_view control.now) answer ∷ []) }
        ensures commands { written.new.commands ≡ written.old.commands }
        ensures termination { written.new.termination ≡ written.old.termination }
    {
        let client = self.client;
        let decisions = &mut written.decisions;
        record_written(client, part.switch, written_to, control, answer, decisions)?;
        match answer {
            Ok(()) => written.response.success(),
            Err(why) => self.refuse(part, control, why, written),
        }
    }

    // Carries out a write to SBOw.
    fn write_select_with(
        &self,
        part: SwitchRow,
        given: &Data<'_>,
        controls: &mut Controls,
        written: &mut WriteResults,
    ) -> Result<(), AllocError>
        requires { IsHandle self.now.bay.now.tree part.row }
        ensures { OnOk result (write_state_view self.now.bay.now controls.new written.new
            ≡ write_select_with self.now.client (bay_of self.now) part.switch
            (name_at self.now.bay.now.tree part.row)
            (write_state_view self.now.bay.now controls.old written.old)
            (operate_or_error (datum_of given.now))) }
    {
        let operate = match operate_of(given) {
            Ok(operate) => operate,
            Err(error) => return written.response.failure(error),
        };
        let answer = controls.select_with(
            &self.bay.control_table,
            self.client.association,
            part.switch,
            control_request_of(&operate),
            self.client.now,
        );
        let to = ControlPart::SelectWith;
        self.put_decision(part, to, &operate.control, answer, written)
    }

    // Carries out a write to Cancel.
    fn write_cancel(
        &self,
        part: SwitchRow,
        given: &Data<'_>,
        controls: &mut Controls,
        written: &mut WriteResults,
    ) -> Result<(), AllocError>
        requires { IsHandle self.now.bay.now.tree part.row }
        ensures { OnOk result
            (write_state_view self.now.bay.now controls.new written.new
            ≡ write_cancel self.now.client (bay_of self.now) part.switch
            (name_at self.now.bay.now.tree part.row)
            (write_state_view self.now.bay.now controls.old written.old)
            (cancel_or_error (datum_of given.now))) }
    {
        let cancel = match cancel_of(given) {
            Ok(cancel) => cancel,
            Err(error) => return written.response.failure(error),
        };
        let table = &self.bay.control_table;
        let client = self.client;
        let answer = controls.cancel(table, client.association, part.switch, client.now);
        let to = ControlPart::Cancel;
        self.put_decision(part, to, &cancel, answer, written)
    }

    // Returns the reports for the end of an operate.
    fn termination(
        &self,
        row: Handle,
        operate: &OperateData<'_>,
    ) -> Result<TerminationReports, AllocError>
        requires { IsHandle self.now.bay.now.tree row }
        ensures { IfOk result (λ termination. termination
            ≡ termination_reports self.now.client (name_at self.now.bay.now.tree row)
            (operate_view operate.now)
            (bay_of self.now)) }
    {
        let (alloc, size) = (self.alloc, self.client.size);
        let domain = self.bay.domain.as_str();
        let item = self.bay.tree.name(row);
        let object = self.bay.object(alloc, row)?;
        let error = LastApplError {
            object: object.as_str(),
            origin: operate.control.origin,
            ctl_num: operate.control.ctl_num,
            add_cause: AddCause::TimeLimitOver.code(),
        };
        let positive = write_termination(alloc, domain, item, operate, size);
        let negative = write_failed_termination(alloc, &error, domain, item, operate, size);
        Ok(TerminationReports {
            positive: pdu_if_fits(positive)?,
            negative: pdu_if_fits(negative)?,
        })
    }

    // If an operate is accepted, adds its command and the reports for its end.
    fn accept(
        &self,
        switch: usize,
        row: Handle,
        operate: &OperateData<'_>,
        answer: Result<(), AddCause>,
        written: &mut WriteResults,
    ) -> Result<(), AllocError>
        requires { IsHandle self.now.bay.now.tree row }
        ensures response { written.new.response ≡ written.old.response }
        ensures reports { written.new.reports ≡ written.old.reports }
        ensures decisions { written.new.decisions ≡ written.old.decisions }
        ensures commands { OnOk result
            (written.new.commands.items
            ≡ written.old.commands.items
            ++ operate_commands switch (operate_view operate.now) answer) }
        ensures termination { OnOk result (written.new.termination
            ≡ later_ending written.old.termination
            (accepted_termination self.now.client switch (name_at self.now.bay.now.tree row)
            (operate_view operate.now) (bay_of self.now) answer)) }
    {
        if let Err(_) = answer {
            return Ok(());
        }
        written.commands.push(Command {
            switch,
            operation: operation_of(operate.control.ctl_val),
        })?;
        if self.bay.has_reports(switch) {
            let termination = self.termination(row, operate)?;
            written.termination = Some(termination);
        }
        Ok(())
    }

    // Carries out a write to Oper.
    fn write_operate(
        &self,
        part: SwitchRow,
        given: &Data<'_>,
        controls: &mut Controls,
        written: &mut WriteResults,
    ) -> Result<(), AllocError>
        requires there { IsHandle self.now.bay.now.tree part.row }
        requires switch { part.switch < length self.now.bay.now.switches }
        ensures { OnOk result
            (write_state_view self.now.bay.now controls.new written.new
            ≡ write_operate self.now.client (bay_of self.now) part.switch
            (name_at self.now.bay.now.tree part.row)
            (write_state_view self.now.bay.now controls.old written.old)
            (operate_or_error (datum_of given.now))) }
    {
        let operate = match operate_of(given) {
            Ok(operate) => operate,
            Err(error) => return written.response.failure(error),
        };
        let SwitchRow { switch, row } = part;
        let answer = controls.operate(
            &self.bay.control_table,
            self.client.association,
            switch,
            control_request_of(&operate),
            self.bay.view(self.inputs, self.client, switch),
            self.client.now,
        );
        let to = ControlPart::Operate;
        self.put_decision(part, to, &operate.control, answer, written)?;
        self.accept(switch, row, &operate, answer, written)
    }

    // Writes a variable; an error if it does not exist, or if it is not a whole SBOw, Oper or
    // Cancel.
    fn write_one(
        &self,
        name: &ObjectName<'_>,
        given: &Data<'_>,
        controls: &mut Controls,
        written: &mut WriteResults,
    ) -> Result<(), AllocError>
        ensures { OnOk result
            (write_state_view self.now.bay.now controls.new written.new
            ≡ spec.write_one self.now.client (bay_of self.now) (object_name_view name.now)
            (datum_of given.now)
            (write_state_view self.now.bay.now controls.old written.old)) }
    {
        let Some(row) = self.bay.row_named(name) else {
            return written.response.failure(DataAccessError::ObjectNonExistent);
        };
        let Some(Target { switch, part }) = self.bay.target(row) else {
            return written.response.failure(DENIED);
        };
        let place = SwitchRow { switch, row };
        match part {
            ControlPart::Select => written.response.failure(DENIED),
            ControlPart::SelectWith => self.write_select_with(place, given, controls, written),
            ControlPart::Operate => self.write_operate(place, given, controls, written),
            ControlPart::Cancel => self.write_cancel(place, given, controls, written),
        }
    }

    /// Writes variables in order. Each write sees the effects of those before it. Fails only if an
    /// allocation fails.
    pub(crate) fn write_all(
        &self,
        names: &[ObjectName<'_>],
        values: &[Data<'_>],
        controls: &mut Controls,
        written: &mut WriteResults,
    ) -> Result<(), AllocError>
        ensures { OnOk result
            (write_state_view self.now.bay.now controls.new written.new
            ≡ spec.write_all self.now.client (bay_of self.now) (map object_name_view names.now)
            (data_in values.now)
            (write_state_view self.now.bay.now controls.old written.old)) }
    {
        for i in 0..names.len().min(values.len()) {
            self.write_one(&names[i], &values[i], controls, written)?;
        }
        Ok(())
    }
}
