// The request for a connection, and its answer (X.224 13.3 and 13.4).
ghost use Rattle.std.specs.Prelude.{◌≡◌, ◌+◌, ◌/◌, ◌%◌, ◌≤◌, ◌<◌, [], ◌∷◌, ◌++◌, Ok, Err, Some, None, length, IfOk, IfErr, IfSome, OnOk};
ghost use Rattle.std.specs.Option.{option_copied, option_map};
ghost use Rattle.bay_transport.specs.Connect.{parameters_of, optional_parameter, size_value, confirm_head, with_parameters, connect};
ghost use Rattle.bay_transport.specs.Connect as spec;
ghost use Rattle.bay_transport.specs.Found.{HaveValues, parameters_of_answer};
ghost use Rattle.bay_transport.specs.Found as spec_found;
ghost use Rattle.bay_transport.specs.Assembly.{IsSize, FaultImplies};

use crate::fault::TransportFault;
use crate::frame::frame_header;
use std::alloc::AllocError;

// The codes of the parameters that are read.
const SIZE: u8 = 0xC0;

const CALLING: u8 = 0xC1;

const CALLED: u8 = 0xC2;

// The values of the parameters that are read: of each code the value of the last parameter, if
// there is one.
#[derive(Clone, Copy)]
struct ParameterValues<'a> {
    size: Option<&'a [u8]>,
    called: Option<&'a [u8]>,
    calling: Option<&'a [u8]>,
}

// Returns the value found so far for the code `wanted`, after a parameter with `code` and `value`.
fn found_then<'a>(
    wanted: u8,
    code: u8,
    value: &'a [u8],
    found: Option<&'a [u8]>,
) -> Option<&'a [u8]>
    ensures { option_copied result
        ≡ spec_found.found_then wanted code value.now (option_copied found.entry) }
{
    if code == wanted { Some(value) } else { found }
}

// Returns the values of the parameters in these octets. Fails with `BadCotp` if the octets are no
// parameters.
fn values_of(octets: &[u8]) -> Result<ParameterValues<'_>, TransportFault>
    ensures ok { IfOk result (λ values. HaveValues octets.now values) }
    ensures err { IfErr result
        (λ fault. (fault ≡ TransportFault.BadCotp) × (parameters_of octets.now ≡ None)) }
{
    let mut values = ParameterValues {
        size: None,
        called: None,
        calling: None,
    };
    let mut at = 0;
    while at < octets.len() {
        if octets.len() - at < 2 {
            return Err(TransportFault::BadCotp);
        }
        let count = octets[at + 1] as usize;
        if octets.len() - at - 2 < count {
            return Err(TransportFault::BadCotp);
        }
        let code = octets[at];
        let value = &octets[at + 2..at + 2 + count];
        values = ParameterValues {
            size: found_then(SIZE, code, value, values.size),
            called: found_then(CALLED, code, value, values.called),
            calling: found_then(CALLING, code, value, values.calling),
        };
        at += 2 + count;
    }
    Ok(values)
}

// Returns the power of the size parameter, at most 13, and the size in octets. Fails with `BadCotp`
// if the value is no size.
fn size_of(value: Option<&[u8]>) -> Result<(Option<u8>, usize), TransportFault>
    ensures ok { IfOk result (λ size. spec.size_of (option_copied value.entry) ≡ Some size) }
    ensures size { IfOk result (λ size. IsSize size.1) }
    ensures err { IfErr result
        (λ fault. (fault ≡ TransportFault.BadCotp)
        × (spec.size_of (option_copied value.entry) ≡ None)) }
{
    match value {
        None => Ok((None, 65_531)),
        Some([power]) if *power >= 7 => {
            let power = (*power).min(13);
            Ok((Some(power), 1 << power))
        }
        Some(_) => Err(TransportFault::BadCotp),
    }
}

// Returns how many octets the parameter takes; 0 if it is absent.
fn length_of(value: Option<&[u8]>) -> usize
    ensures { result ≡ length (optional_parameter 0 (option_copied value.entry)) }
{
    match value {
        None => 0,
        Some(octets) => octets.len() + 2,
    }
}

// Appends a parameter, if it is present.
fn append(out: &mut Vec<u8>, code: u8, value: Option<&[u8]>) -> Result<(), AllocError>
    requires { IfSome value (λ octets. length octets.now < 256) }
    ensures { OnOk result (out.new.items
        ≡ out.old.items ++ optional_parameter code (option_copied value.entry)) }
{
    if let Some(octets) = value {
        out.push(code)?;
        out.push(octets.len() as u8)?;
        out.extend_from_slice(octets)?;
    }
    Ok(())
}

// Appends the size parameter, if there is one.
fn append_size(out: &mut Vec<u8>, power: Option<u8>) -> Result<(), AllocError>
    ensures { OnOk result (out.new.items
        ≡ out.old.items ++ optional_parameter 0xC0 (size_value power)) }
{
    if let Some(power) = power {
        out.extend_from_slice(&[SIZE, 1, power])?;
    }
    Ok(())
}

// Writes the frame of a confirmation up to its parameters, which take `parameters` octets.
fn write_confirm_head(
    reply: &mut Vec<u8>,
    number: u16,
    high: u8,
    low: u8,
    parameters: usize,
) -> Result<(), AllocError>
    requires { parameters ≤ 249 }
    ensures { OnOk result (reply.new.items
        ≡ spec.frame_header (parameters + 7) ++ confirm_head number high low parameters) }
{
    let [number_high, number_low] = number.to_be_bytes();
    reply.clear();
    reply.extend_from_slice(&frame_header(parameters + 7))?;
    reply.extend_from_slice(&[
        (parameters + 6) as u8,
        0xD0,
        high,
        low,
        number_high,
        number_low,
        0,
    ])?;
    Ok(())
}

// The contents of a request that the answer repeats.
#[derive(Clone, Copy)]
struct ConnectRequest<'a> {
    // The reference of the calling side, high octet and low octet.
    high: u8,
    low: u8,
    // The power of the agreed size, if the request had a size.
    power: Option<u8>,
    called: Option<&'a [u8]>,
    calling: Option<&'a [u8]>,
}

// Writes the confirmation.
fn confirm(reply: &mut Vec<u8>, number: u16, request: ConnectRequest<'_>) -> Result<(), AllocError>
    requires { length (parameters_of_answer request) ≤ 249 }
    ensures reply { OnOk result
        (reply.new.items ≡ spec.confirm number request.entry.high request.entry.low
        (parameters_of_answer request.entry)) }
    ensures short { OnOk result (length reply.new.items ≤ 260) }
{
    let size = if request.power.is_some() { 3 } else { 0 };
    let parameters = size + length_of(request.called) + length_of(request.calling);
    write_confirm_head(reply, number, request.high, request.low, parameters)?;
    append_size(reply, request.power)?;
    append(reply, CALLED, request.called)?;
    append(reply, CALLING, request.calling)?;
    Ok(())
}

// Writes the answer to a request with these parameters, and returns the agreed size in octets.
fn respond(
    reply: &mut Vec<u8>,
    number: u16,
    high: u8,
    low: u8,
    parameters: &[u8],
) -> Result<usize, TransportFault>
    requires { length parameters.now ≤ 249 }
    ensures ok { IfOk result
        (λ size. with_parameters number high low (parameters_of parameters.now)
        ≡ Ok (record { size = size; reply = reply.new.items })) }
    ensures size { IfOk result IsSize }
    ensures short { OnOk result (length reply.new.items ≤ 260) }
    ensures err { IfErr result
        (λ fault. FaultImplies fault
        (with_parameters number high low (parameters_of parameters.now) ≡ Err fault)) }
{
    let values = values_of(parameters)?;
    let (power, size) = size_of(values.size)?;
    let request = ConnectRequest {
        high,
        low,
        power,
        called: values.called,
        calling: values.calling,
    };
    confirm(reply, number, request)?;
    Ok(size)
}

/// Writes the answer to a request on the association with this number, and returns the agreed size
/// in octets. `body` has the octets after the code of the request; `again` means that the
/// connection already had a request.
///
/// Fails with `BadCotp` if the length indicator is wrong, the parameters or the size are malformed,
/// or it is a second request; with `ClassRefused` if the class is not 0.
pub(crate) fn answer_request(
    reply: &mut Vec<u8>,
    number: u16,
    again: bool,
    indicator: u8,
    body: &[u8],
) -> Result<usize, TransportFault>
    ensures ok { IfOk result
        (λ size. connect number again indicator body.now
        ≡ Ok (record { size = size; reply = reply.new.items })) }
    ensures size { IfOk result IsSize }
    ensures short { OnOk result (length reply.new.items ≤ 260) }
    ensures err { IfErr result
        (λ fault. FaultImplies fault (connect number again indicator body.now ≡ Err fault)) }
{
    match body {
        [_, _, high, low, class, parameters @ ..] => {
            if indicator == 255 || indicator as usize != parameters.len() + 6 || again {
                return Err(TransportFault::BadCotp);
            }
            if *class / 16 != 0 {
                return Err(TransportFault::ClassRefused);
            }
            respond(reply, number, *high, *low, parameters)
        }
        _ => Err(TransportFault::BadCotp),
    }
}
