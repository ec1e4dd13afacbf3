// The variables of a read, one after the other.
ghost use Rattle.std.specs.Prelude.{◌≡◌, ◌≤◌, ◌<◌, ◌++◌, ◌∷◌, [], Some, map, length, IfErr, IfSome, OnOk};
ghost use Rattle.bay_mms.specs.RequestViews.{object_name_view};
ghost use Rattle.bay_mms.specs.declared.fault.EncodeFault.TheVariants.{TooLong};
ghost use Rattle.bay_control.specs.Decisions.{select_outcome};
ghost use Rattle.bay_tree.specs.Rows.{IsHandle, name_at};
ghost use Rattle.bay_mms_services.specs.Controls.{read_decision};
ghost use Rattle.bay_mms_services.specs.RowParts.{IsFirstNamed};
ghost use Rattle.bay_mms_services.specs.Reads.{read_after_select};
ghost use Rattle.bay_mms_services.specs.Reads as spec;
ghost use Rattle.bay_mms_services.specs.Rows as spec_rows;
ghost use Rattle.bay_mms_services.specs.Targets.{target_of};
ghost use Rattle.bay_mms_services.specs.Views.{bay_of, bay_view, controls_view, read_state_view};

use crate::answer::ControlDecision;
use crate::bay::ServedBay;
use crate::client::ClientContext;
use crate::invocation::Invocation;
use crate::target::{ControlPart, Target, control_index, part_of_row};
use bay_control::cause::AddCause;
use bay_control::controls::Controls;
use bay_mms::fault::{DataAccessError, EncodeFault};
use bay_mms::request::ObjectName;
use bay_mms::results::ReadResponse;
use bay_tree::tree::Handle;
use std::alloc::AllocError;

// Records the decision on a select.
fn put_select(
    client: ClientContext,
    switch: usize,
    answer: Result<(), AddCause>,
    decisions: &mut Vec<ControlDecision>,
) -> Result<(), AllocError>
    ensures { OnOk result
        (decisions.new.items ≡ decisions.old.items ++ read_decision client switch answer ∷ []) }
{
    decisions.push(ControlDecision {
        association: client.association,
        switch,
        part: ControlPart::Select,
        request: None,
        answer,
    })?;
    Ok(())
}

impl ServedBay {
    /// Returns the row of the variable with this name; `None` if it is not a variable of the bay's
    /// domain.
    pub(crate) fn row_named(&self, name: &ObjectName<'_>) -> Option<Handle>
        ensures row { result ≡ spec_rows.row_named (bay_view self.now) (object_name_view name.now) }
        ensures found { IfSome result (IsFirstNamed self.now.tree) }
    {
        match name {
            ObjectName::Domain { domain, item } => {
                if *domain == self.domain.as_str().as_bytes() {
                    self.tree.find_octets(item).ok()
                } else {
                    None
                }
            }
            ObjectName::Vmd(_) | ObjectName::Association(_) => None,
        }
    }

    /// Returns the part of a control that a row is; `None` if it is none.
    pub(crate) fn target(&self, row: Handle) -> Option<Target>
        requires { IsFirstNamed self.now.tree row }
        ensures target { result
            ≡ target_of (length (bay_view self.now).switches) (name_at self.now.tree row) }
        ensures there { IfSome result (λ target. target.switch < length self.now.switches) }
    {
        let rows = self.control_rows.as_slice();
        let switch = control_index(self.tree.name(row).as_bytes())?;
        let part = part_of_row(rows.get(switch)?, row)?;
        Some(Target { switch, part })
    }
}

impl Invocation<'_> {
    // Selects a switch by a read of its SBO. The result is the name of the control, or an empty
    // text if the select is refused.
    fn read_select(
        &self,
        switch: usize,
        row: Handle,
        controls: &mut Controls,
        decisions: &mut Vec<ControlDecision>,
        response: &mut ReadResponse,
    ) -> Result<(), EncodeFault>
        requires { IsHandle self.now.bay.now.tree row }
        ensures ok { OnOk result
            (read_state_view self.now.bay.now controls.new decisions.new.items response.new.octets
            ≡ read_after_select self.now.client (bay_of self.now) switch
            (name_at self.now.bay.now.tree row)
            (read_state_view self.now.bay.now controls.old decisions.old.items response.old.octets)
            (select_outcome self.now.client.association switch self.now.client.now
            (controls_view self.now.bay.now controls.old))) }
        ensures long { IfErr result (λ fault. fault ≡ TooLong
            → response.old.size < length (read_after_select self.now.client (bay_of self.now) switch
            (name_at self.now.bay.now.tree row)
            (read_state_view self.now.bay.now controls.old decisions.old.items response.old.octets)
            (select_outcome self.now.client.association switch self.now.client.now
            (controls_view self.now.bay.now controls.old))).results) }
        ensures size { response.new.size ≡ response.old.size }
    {
        let table = &self.bay.control_table;
        let client = self.client;
        let answer = controls.select(table, client.association, switch, client.now);
        put_select(client, switch, answer, decisions)?;
        match answer {
            Ok(()) => {
                let object = self.bay.object(self.alloc, row)?;
                response.text(object.as_str())
            }
            Err(_) => response.text(""),
        }
    }

    // Reads a variable that exists.
    fn read_row(
        &self,
        row: Handle,
        controls: &mut Controls,
        decisions: &mut Vec<ControlDecision>,
        response: &mut ReadResponse,
    ) -> Result<(), EncodeFault>
        requires { IsFirstNamed self.now.bay.now.tree row }
        ensures ok { OnOk result
            (read_state_view self.now.bay.now controls.new decisions.new.items response.new.octets
            ≡ spec.read_row self.now.client (bay_of self.now)
            (read_state_view self.now.bay.now controls.old decisions.old.items response.old.octets)
            (Some row)) }
        ensures long { IfErr result
            (λ fault. fault ≡ TooLong
            → response.old.size < length
            (spec.read_row self.now.client (bay_of self.now)
            (read_state_view self.now.bay.now controls.old decisions.old.items response.old.octets)
            (Some row)).results) }
        ensures size { response.new.size ≡ response.old.size }
    {
        match self.bay.target(row) {
            Some(
                Target {
                    switch,
                    part: ControlPart::Select,
                },
            ) => self.read_select(switch, row, controls, decisions, response),
            _ => response.value(&self.bay.tree_view(controls), row),
        }
    }

    // Reads a variable; an error if it does not exist.
    fn read_one(
        &self,
        name: &ObjectName<'_>,
        controls: &mut Controls,
        decisions: &mut Vec<ControlDecision>,
        response: &mut ReadResponse,
    ) -> Result<(), EncodeFault>
        ensures ok { OnOk result
            (read_state_view self.now.bay.now controls.new decisions.new.items response.new.octets
            ≡ spec.read_one self.now.client (bay_of self.now) (object_name_view name.now)
            (read_state_view self.now.bay.now controls.old decisions.old.items response.old.octets)) }
        ensures long { IfErr result
            (λ fault. fault ≡ TooLong
            → response.old.size < length (spec.read_one self.now.client (bay_of self.now)
            (object_name_view name.now)
            (read_state_view self.now.bay.now controls.old decisions.old.items
            response.old.octets)).results) }
        ensures size { response.new.size ≡ response.old.size }
    {
        match self.bay.row_named(name) {
            Some(row) => self.read_row(row, controls, decisions, response),
            None => response.failure(DataAccessError::ObjectNonExistent),
        }
    }

    /// Reads variables in order. Each read sees the effects of those before it. `TooLong` if the
    /// response has more octets than agreed, `OutOfMemory` if an allocation fails.
    pub(crate) fn read_all(
        &self,
        names: &[ObjectName<'_>],
        controls: &mut Controls,
        decisions: &mut Vec<ControlDecision>,
        response: &mut ReadResponse,
    ) -> Result<(), EncodeFault>
        ensures ok { OnOk result
            (read_state_view self.now.bay.now controls.new decisions.new.items response.new.octets
            ≡ spec.read_all self.now.client (bay_of self.now) (map object_name_view names.now)
            (read_state_view self.now.bay.now controls.old decisions.old.items response.old.octets)) }
        ensures long { IfErr result
            (λ fault. fault ≡ TooLong
            → response.old.size < length (spec.read_all self.now.client (bay_of self.now)
            (map object_name_view names.now)
            (read_state_view self.now.bay.now controls.old decisions.old.items
            response.old.octets)).results) }
        ensures size { response.new.size ≡ response.old.size }
    {
        for name in names {
            self.read_one(name, controls, decisions, response)?;
        }
        Ok(())
    }
}
