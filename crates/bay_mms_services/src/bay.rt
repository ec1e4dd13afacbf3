// The bay that clients read and control.
ghost use Rattle.std.specs.Prelude.{◌≡◌, length};
ghost use Rattle.bay_mms.specs.Pages.{encoded_names};
ghost use Rattle.bay_process.specs.Controls.{AreAllControlRows};
ghost use Rattle.bay_process.specs.Layout.{layout_of, switches_of};
ghost use Rattle.bay_mms_services.specs.Bay.{ShowNoSelection};
ghost use Rattle.bay_mms_services.specs.RowParts.{AreBoundByName};
ghost use Rattle.bay_mms_services.specs.Released.{HaveTravelTime};

use bay_base::listing::Listing;
use bay_base::text::Text;
use bay_control::control::ControlTable;
use bay_control::controls::Controls;
use bay_mms::names::NameTexts;
use bay_process::controls::ControlRows;
use bay_process::switch::BoundSwitch;
use bay_tree::tree::Tree;

/// A bay as its clients see it: its name and its nameplate, the tree of its values, its switches
/// and their controls. The tree itself has FALSE as stSeld of every switch: the value that clients
/// read follows from the controls.
#[derive(Drop)]
pub struct ServedBay {
    /// The name of the logical device.
    pub domain: Text,
    pub vendor: Text,
    pub model: Text,
    pub revision: Text,
    pub tree: Tree,
    /// The encoded names of the tree's rows. They never change.
    pub names: NameTexts,
    /// The switches, in the order of the bay file.
    pub switches: Listing<BoundSwitch>,
    /// The handles of the rows of their controls, in the same order.
    pub control_rows: Listing<ControlRows>,
    /// The settings of their controls, from the bay file.
    pub control_table: ControlTable,
    pub controls: Controls,
    ghost listed: { names ≡ encoded_names (layout_of tree).names },
    ghost placed: { AreBoundByName (layout_of tree) switches },
    ghost controlled: { AreAllControlRows tree control_rows },
    ghost sized: { length control_rows ≡ length (switches_of switches) },
    ghost timed: { HaveTravelTime control_table },
    ghost quiet: { ShowNoSelection (length (switches_of switches)) tree },
}
