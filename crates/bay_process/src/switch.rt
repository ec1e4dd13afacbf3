// A switch of the bay, with its rows and outputs.
use crate::rows::SwitchRows;
use bay_config::bay::Switch;

/// The indices of a switch's interlocking values among the outputs of a scan; `None` if the program
/// does not name the point.
#[derive(Clone, Copy, Debug)]
pub struct SwitchOutputs {
    pub ena_opn: Option<usize>,
    pub ena_cls: Option<usize>,
}

/// Whether a switch may be opened and closed (IEC 61850-7-4, CILO: EnaOpn and EnaCls).
#[derive(Clone, Copy)]
pub struct SwitchEnables {
    pub may_open: bool,
    pub may_close: bool,
}

/// A switch, with the handles of its values in the tree, and the indices of its interlocking values
/// among the outputs of a scan.
#[derive(Drop)]
pub struct BoundSwitch {
    pub switch: Switch,
    pub rows: SwitchRows,
    pub outputs: SwitchOutputs,
}
