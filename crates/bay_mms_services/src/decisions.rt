// The selection as clients see it, and the view on which a decision depends.
ghost use Rattle.std.specs.Prelude.{◌≡◌, ◌<◌, length};
ghost use Rattle.bay_process.specs.Controls.{AreAllControlRows};
ghost use Rattle.bay_process.specs.Layout.{layout_of};
ghost use Rattle.bay_mms_services.specs.Bay.{rows_with_selection, client_rows};
ghost use Rattle.bay_control.specs.Requests.{control_of};
ghost use Rattle.bay_control.specs.Requests as spec_requests;
ghost use Rattle.bay_mms_services.specs.Controls.{decision_view};
ghost use Rattle.bay_mms_services.specs.RowParts.{marked_row};
ghost use Rattle.bay_mms_services.specs.Views.{bay_view, bay_with, controls_view};

use crate::bay::ServedBay;
use crate::client::ClientContext;
use bay_control::controls::Controls;
use bay_control::request::View;
use bay_mms::client_view::ClientView;
use bay_process::controls::ControlRows;
use bay_process::rows::{is_truth, position_at, put};
use bay_process::values::InputValues;
use bay_tree::leaf::Leaf;
use bay_tree::tree::{Handle, Tree};

/// Stores FALSE as stSeld of each switch (IEC 61850-7-3), in a tree that is about to be served.
pub fn clear_selected_rows(tree: &mut Tree, rows: &[ControlRows])
    requires { AreAllControlRows tree.old rows.now }
    ensures rows { tree.new ≡ rows_with_selection None (length rows.now) tree.old }
    ensures layout { layout_of tree.new ≡ layout_of tree.old }
{
    for switch in 0..rows.len() {
        put(tree, rows[switch].selected, Leaf::Truth(false));
    }
}

impl ServedBay {
    // Returns the row stSeld of the selected switch; `None` if there is none.
    fn mark(&self, selected: Option<usize>) -> Option<Handle>
        ensures row { result ≡ marked_row self.now.control_rows selected }
        ensures few { length self.now.control_rows < 18_446_744_073_709_551_616 }
    {
        let rows = self.control_rows.as_slice();
        Some(rows.get(selected?)?.selected)
    }

    /// Returns the tree as clients see it under these controls, with TRUE as stSeld of the selected
    /// switch (IEC 61850-7-3).
    pub(crate) fn tree_view(&self, controls: &Controls) -> ClientView<'_>
        ensures rows { result ≡ client_rows (bay_view self.now)
            (controls_view self.now controls.now) }
        ensures handles { length result ≡ length self.now.tree }
    {
        self.tree.are_a_tree();
        ClientView::new(&self.tree, self.mark(controls.selected()))
    }

    // Returns whether the key of a switch is at local, with these values of the inputs.
    fn is_local(&self, inputs: &InputValues, switch: usize) -> bool
        ensures { result
            ≡ spec_requests.is_local (control_of self.now.control_table switch).key inputs.now }
    {
        match self.control_table.key(switch) {
            Some(input) => !inputs.get(input).unwrap_or(false),
            None => false,
        }
    }

    /// Returns the view of a switch on which a decision depends, with these values of the inputs.
    pub(crate) fn view(&self, inputs: &InputValues, client: ClientContext, switch: usize) -> View
        requires { switch < length self.now.switches }
        ensures { result ≡ decision_view client switch (bay_with inputs.now self.now) }
    {
        let rows = &self.switches.as_slice()[switch].rows;
        View {
            pos: position_at(&self.tree, rows.position.value),
            lost: client.lost,
            local: self.is_local(inputs, switch),
            fresh: client.fresh,
            ena_opn: is_truth(&self.tree, rows.ena_opn.value, true),
            ena_cls: is_truth(&self.tree, rows.ena_cls.value, true),
        }
    }
}
