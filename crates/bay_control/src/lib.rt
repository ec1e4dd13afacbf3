// The controls of a bay's switches: select, operate and cancel (IEC 61850-7-2, 20). A decision
// depends on the settings of each switch in the bay file, on the selected and the operating switch,
// and on a view of the switch. Nothing here allocates.
//
// - `cause`: why a control is refused.
// - `control`: the settings of the switches' controls, from the bay file.
// - `request`: a client's request, and the view of the switch on which a decision depends.
// - `selection`: the selected switch, and the operating switch.
// - `controls`: the selection and the execution in one bay, and the requests that change them.
// - `laws`: laws of whole runs.
#![tactic(auto)]

pub mod cause;
pub mod control;
pub mod controls;
pub mod laws;
pub mod request;
pub mod selection;
