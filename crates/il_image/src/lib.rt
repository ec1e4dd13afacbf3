// Images of code: values and their arithmetic, timers, instructions and their spelling in octets,
// and the images that hold a compiled program. `specs` also defines the machine that runs an image,
// and when code agrees with a table of kinds; the compiler, the verifier and the machine share
// these definitions.
#![tactic(auto)]

pub mod arithmetic;
pub mod decode;
pub mod encode;
pub mod fault;
pub mod image;
pub mod instr;
pub mod kind;
pub mod laws;
pub mod opcode;
pub mod read;
pub mod timer;
pub mod value;
pub mod write;
