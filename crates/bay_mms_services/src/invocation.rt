// A confirmed request of a client, until it is answered.
use crate::bay::ServedBay;
use crate::client::ClientContext;
use bay_process::values::InputValues;
use std::alloc::Global;

/// A confirmed request that a client sends to a bay (ISO 9506-2).
#[derive(Clone, Copy)]
pub struct Invocation<'a> {
    pub bay: &'a ServedBay,
    /// The values of the bay's inputs.
    pub inputs: &'a InputValues,
    pub client: ClientContext,
    /// Its invoke id.
    pub id: u32,
    /// The allocator of its answer.
    pub alloc: Global,
}
