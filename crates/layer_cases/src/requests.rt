// The requests that octets encode.
use anyhow::Result;
use bay_mms::control::{cancel_of, operate_of};
use bay_mms::request::{Call, Request, read_request};
use std::alloc::{AllocError, Global};

// Returns the text of a request with its invoke id.
fn call_text(alloc: Global, id: u32, call: &Call<'_>) -> Result<String, AllocError> {
    match call {
        Call::Identify => format!(in alloc; "{id} identify"),
        Call::Names {
            class,
            scope,
            after,
        } => format!(in alloc; "{id} names {class} {scope:?} {after:?}"),
        Call::Attributes(name) => format!(in alloc; "{id} attributes {name:?}"),
        Call::Read(names) => format!(in alloc; "{id} read {names:?}"),
        Call::Write { names, values } => format!(in alloc; "{id} write {names:?} {values:?}"),
    }
}

// Returns the first value of a write, read as an operate or as a cancel of a control.
fn control_text(alloc: Global, kind: &str, call: &Call<'_>) -> Result<String, AllocError> {
    let Call::Write { values, .. } = call else {
        return format!(in alloc; "no write");
    };
    let [first, ..] = values.as_slice() else {
        return format!(in alloc; "nothing is written");
    };
    let error = match (kind, operate_of(first), cancel_of(first)) {
        ("operate", Ok(operate), _) => return format!(in alloc; "{operate:?}"),
        ("cancel", _, Ok(cancel)) => return format!(in alloc; "{cancel:?}"),
        ("operate", Err(error), _) | (_, _, Err(error)) => error,
        _ => return format!(in alloc; "neither an operate nor a cancel"),
    };
    format!(in alloc; "{} {error}", error.code())
}

/// Returns the request that octets encode, or the operate or the cancel that it writes.
pub fn request(alloc: Global, kind: &str, octets: &[u8]) -> Result<String> {
    Ok(match read_request(alloc, octets) {
        Ok(Request::Initiate(proposal)) => format!(in alloc; "{proposal:?}"),
        Ok(Request::Conclude) => format!(in alloc; "conclude"),
        Ok(Request::Confirmed { id, call }) => match kind {
            "request" => call_text(alloc, id, &call),
            _ => control_text(alloc, kind, &call),
        },
        Err(fault) => { format!(in alloc; "{} {fault:?}: {fault}", fault.code().unwrap_or(0)) }
    }?)
}
