// Tests of what can't be a line of cases: a device that is called as a library, readers, writers
// and links that fail, serving in memory, and the sockets of the system. They use public calls
// alone, and have a crate of their own, since a crate with tests is proved a second time for them.
//
// - `device`: a device that is called as a library.
// - `image`: instructions and arithmetic.
// - `replay`: readers and writers that transfer a few octets at a time, and that fail.
// - `output`: output whose readers read nothing for a while.
// - `memory_link`: clients in memory.
// - `memory_host`: a host in memory, with its files, ports and clocks.
// - `turns`: turns of a server over these clients, with calls that fail.
// - `serve`: a command over links, a host and files in memory, and what it prints, logs and sends
//   to the process.
// - `supervised`: the same, with a process that is supervised.
// - `sockets`: a link over sockets, and a client and the server in turn, on 127.0.0.1.
// - `session`: messages of a client, with their answers.
// - `dropped`: what the tests drop.
#![tactic(auto)]

#[cfg(test)]
mod device;
pub mod dropped;
#[cfg(test)]
mod image;
#[cfg(test)]
mod memory_host;
#[cfg(test)]
mod memory_link;
#[cfg(test)]
mod output;
#[cfg(test)]
mod replay;
#[cfg(test)]
mod serve;
#[cfg(test)]
mod session;
#[cfg(test)]
mod sockets;
#[cfg(test)]
mod supervised;
#[cfg(test)]
mod turns;
