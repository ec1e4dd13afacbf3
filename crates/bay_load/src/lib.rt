// The load of a bay: from the octets of a bay file and of a program or an image to the bay, the
// names of the program and its verified image.
//
// `load` reads, checks, compiles and verifies (`load_files`), `loaded` is the result. `error`: the
// first fault of the files, with its number, its line and its words. `names`: the names that a
// program declares. `report`: the size of a program, and the maximum cost of a scan. `laws`: the
// image of a checked program fits its points, and its code can't go wrong.
#![tactic(auto)]

pub mod error;
pub mod laws;
pub mod load;
pub mod loaded;
pub mod names;
pub mod report;
