// Laws of the checks and the meaning of programs together, and laws that compare their definitions
// with the language's tables.
//
// - `laws`: a program reads and writes by name; the checks use the language's tables, operators
//   mean the arithmetic of the integers, and a valid program has the language's types. Lines may
//   end in CR LF, and images of version 1 are read.
#![tactic(auto)]

pub mod laws;
