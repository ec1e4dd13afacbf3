// The results of the octets of a connection, and of the TSDUs of an association.
ghost use Rattle.std.specs.Prelude.{◌≤◌, length, IfOk};

use anyhow::{Result, bail};
use bay_assoc::assoc::Assoc;
use bay_assoc::receive::Heard;
use bay_transport::fed::{Fed, Got};
use bay_transport::transport::Transport;
use cases::octets::octets_of;
use std::alloc::{AllocError, Global};

// Appends a word and octets.
fn put(alloc: Global, text: &mut String, word: &str, octets: &[u8]) -> Result<(), AllocError> {
    write!(text, "{word}|{} ", hex::encode(alloc, octets)?)
}

// Feeds octets once and appends the result. Returns how many were consumed, or 0 if the connection
// has ended.
fn feed(
    alloc: Global,
    transport: &mut Transport,
    piece: &[u8],
    text: &mut String,
) -> Result<usize, AllocError>
    ensures { IfOk result (λ used. used ≤ length piece.now) }
{
    match transport.feed(piece) {
        Ok(
            Fed {
                used,
                got: Got::More,
            },
        ) => return Ok(used),
        Ok(
            Fed {
                used,
                got: Got::Answer,
            },
        ) => {
            put(alloc, text, "answer", transport.shown())?;
            return Ok(used);
        }
        Ok(
            Fed {
                used,
                got: Got::Tsdu,
            },
        ) => {
            put(alloc, text, "tsdu", transport.shown())?;
            return Ok(used);
        }
        Ok(
            Fed {
                got: Got::Ended,
                ..
            },
        ) => text.push_str("ended ")?,
        Err(fault) => write!(text, "{} {fault} ", fault.code().unwrap_or(0))?,
    }
    Ok(0)
}

// Returns the results of octets in pieces of at most `size`, and of one octet after them.
fn stream_in(alloc: Global, number: u16, octets: &[u8], size: usize) -> Result<String, AllocError> {
    let mut transport = Transport::new(alloc, number);
    let mut text = String::new(alloc);
    let mut rest = octets;
    for _ in 0..octets.len() {
        let end = size.min(rest.len());
        match feed(alloc, &mut transport, &rest[..end], &mut text)? {
            0 => break,
            used => rest = &rest[used..],
        }
    }
    feed(alloc, &mut transport, &[3], &mut text)?;
    Ok(text)
}

/// Returns the results of the octets of a connection. Fails if they depend on how the octets are
/// split into pieces.
pub fn stream(alloc: Global, number: &str, octets: &[u8]) -> Result<String> {
    let number = number.parse::<u16>()?;
    let whole = stream_in(alloc, number, octets, 65_536)?;
    for size in [1, 3, 100] {
        let cut = stream_in(alloc, number, octets, size)?;
        if cut.as_str() != whole.as_str() {
            bail!("in pieces of {size} it is {cut}");
        }
    }
    Ok(whole)
}

/// Feeds pieces of octets, each once. Returns for each the number of its fault, if it has one, and
/// what can be read after it.
pub fn shown_after(alloc: Global, pieces: &str) -> Result<String> {
    let mut transport = Transport::new(alloc, 1);
    let mut text = String::new(alloc);
    for word in pieces.split(" ") {
        let piece = octets_of(alloc, word)?;
        if let Err(fault) = transport.feed(piece.as_slice()) {
            let Some(code) = fault.code() else {
                return Err(fault.into());
            };
            write!(text, "{code} ")?;
        }
        write!(text, "|{} ", hex::encode(alloc, transport.shown())?)?;
    }
    Ok(text)
}

/// Returns the frames of a TSDU after a request.
pub fn wrap_tsdu(alloc: Global, tsdu: &str, request: &[u8]) -> Result<String> {
    let tsdu = octets_of(alloc, tsdu)?;
    let mut transport = Transport::new(alloc, 1);
    transport.feed(request)?;
    if transport.agreed_size().is_none() {
        bail!("no request");
    }
    let frames = transport.wrap(&[], tsdu.as_slice())?;
    Ok(format!(in alloc; "|{}", hex::encode(alloc, frames.as_slice())?)?)
}

/// Returns the results of TSDUs, one after the other.
pub fn association(alloc: Global, tsdus: &str) -> Result<String> {
    let mut assoc = Assoc::new(alloc);
    let mut text = String::new(alloc);
    for word in tsdus.split(" ") {
        let tsdu = octets_of(alloc, word)?;
        match assoc.on_tsdu(tsdu.as_slice()) {
            Ok(Heard::Answer(octets)) => put(alloc, &mut text, "answer", octets.as_slice()),
            Ok(Heard::Mms(pdu)) => put(alloc, &mut text, "mms", pdu),
            Ok(Heard::Released(octets)) => put(alloc, &mut text, "released", octets.as_slice()),
            Ok(Heard::Aborted) => text.push_str("aborted "),
            Err(fault) => write!(text, "{} {fault} ", fault.code().unwrap_or(0)),
        }?;
    }
    Ok(text)
}
