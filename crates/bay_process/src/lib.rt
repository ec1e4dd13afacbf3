// Applies positions, inputs, measured values and the outputs of scans to the values of a bay: the
// rows of its tree, the values of its inputs, and the last EnaOpn and EnaCls written.
//
// `rows` (the handles of a switch's rows, and how to read and write them), `switch` and `meter` (a
// switch and a meter with their rows), `values` (a list of truth values), `releases` (the last
// EnaOpn and EnaCls written, as the text that is printed). `contact` and `meter` apply a position
// and a measured value, `model` what profile 2 has beside them; `scan` reads the inputs of a scan
// and writes its outputs. `nodes`, `meters`, `bind_model` and `controls` find rows by the names of
// logical nodes, `bind` finds the sources of the points of a verified image, and `parts` combines
// these. Only what makes these parts, when a device is loaded, allocates.
#![tactic(auto)]

pub mod bind;
pub mod bind_model;
pub mod contact;
pub mod controls;
pub mod meter;
pub mod meters;
pub mod model;
pub mod nodes;
pub mod parts;
pub mod releases;
pub mod rows;
pub mod scan;
pub mod switch;
pub mod values;
