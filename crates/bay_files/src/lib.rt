// The files that a command reads and writes.
//
// `files`: files by name, in any file system or in the system's. `key`: reads a key file, which
// only its owner may use.
#![tactic(auto)]

pub mod files;
pub mod key;
