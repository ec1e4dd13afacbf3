// Reading requests of clients.
ghost use Rattle.std.specs.Prelude.{◌≡◌, IsSome, IsErrOf, map, option_map};
ghost use Rattle.bay_base.specs.Exact.{ExactOr};
ghost use Rattle.bay_ber.specs.Forms.{try_map_form, one};
ghost use Rattle.bay_ber.specs.Forms as forms;
ghost use Rattle.bay_ber.specs.Reading.{tlv_at};
ghost use Rattle.bay_ber.specs.Values.{part_of};
ghost use Rattle.bay_mms.specs.RequestResults.{IsRequestOrFault, needs_list, list_service_parts, list_service_pdu};
ghost use Rattle.bay_mms.specs.Grammar.{service_request, invoke_id, confirmed_parts, request_with_id, pdu, leading_id, request_or_fault};
ghost use Rattle.bay_mms.specs.Grammar as spec;
ghost use Rattle.bay_mms.specs.RequestViews.{request_view};

use crate::data::Data;
use crate::fault::{MmsFault, Refusal};
use crate::service::service_from_value;
use bay_ber::content::int_of;
use bay_ber::tag::Tag;
use bay_ber::tlv::read_tlv;
use bay_ber::values::{Value, few_values, whole_value};
use bay_mms_initiate::initiate::{Proposal, parse_proposal};
use std::alloc::Global;

/// The name of an object (ISO 9506-2, ObjectName), in arbitrary octets.
#[derive(Clone, Copy, Debug)]
pub enum ObjectName<'a> {
    /// A name in the VMD, the device itself.
    Vmd(&'a [u8]),
    /// An item of a domain.
    Domain { domain: &'a [u8], item: &'a [u8] },
    /// A name in the association.
    Association(&'a [u8]),
}

/// The scope whose names are requested (ISO 9506-2, GetNameList, objectScope).
#[derive(Clone, Copy, Debug)]
pub enum Scope<'a> {
    Vmd,
    Domain(&'a [u8]),
    Association,
}

/// A request for a confirmed service.
#[derive(Drop)]
pub enum Call<'a> {
    /// The vendor, model and revision of the device.
    Identify,
    /// The names of the objects of a class, after a name if one is given.
    Names {
        class: i64,
        scope: Scope<'a>,
        after: Option<&'a [u8]>,
    },
    /// The type of a variable.
    Attributes(ObjectName<'a>),
    /// The values of at most 32 variables.
    Read(Vec<ObjectName<'a>>),
    /// Values for at most 32 variables, one for each variable.
    Write {
        names: Vec<ObjectName<'a>>,
        values: Vec<Data<'a>>,
    },
}

/// A request from a client.
#[derive(Drop)]
pub enum Request<'a> {
    /// Opens an association.
    Initiate(Proposal),
    /// Closes the association.
    Conclude,
    /// Requests a confirmed service, with an invoke id.
    Confirmed { id: u32, call: Call<'a> },
}

// Returns the invoke id with this number: 32 bits without a sign.
fn id_from_number(number: i64) -> Option<u32>
    ensures { result ≡ spec.id_of number }
{
    u32::try_from(number).ok()
}

// Reads a value as an invoke id.
#[tactic(auto, unfolding(crate::specs::Grammar::invoke_id))]
fn id_from_value(value: &Value<'_>) -> Option<u32>
    ensures { result ≡ invoke_id.reads (part_of value.now) }
{
    let number = int_of(value.content_with_tag(Tag::universal(2))?).ok()?;
    id_from_number(number)
}

// Reads the value that octets begin with.
fn first_value(octets: &[u8]) -> Option<Value<'_>>
    ensures { option_map part_of result ≡ forms.first_value_part (tlv_at octets.now) }
{
    let tlv = read_tlv(octets).ok()?;
    Some(Value {
        tag: tlv.tag,
        content: tlv.content,
    })
}

// Reads the invoke id of a confirmed request that octets begin with, if it can be read.
#[tactic(auto, unfolding(crate::specs::Grammar::leading_id))]
fn parse_id(octets: &[u8]) -> Option<u32>
    ensures { result ≡ leading_id.reads octets.now }
{
    let pdu = first_value(octets)?;
    let id = first_value(pdu.content_with_tag(Tag::context_constructed(0))?)?;
    id_from_value(&id)
}

// Returns the fault of octets that are no request.
fn bad_pdu(octets: &[u8]) -> MmsFault
    ensures { result ≡ MmsFault.BadPdu (leading_id.reads octets.now) }
{
    MmsFault::BadPdu(parse_id(octets))
}

// Reads the request for a service with this invoke id.
fn service_with_id<'a>(
    alloc: Global,
    octets: &[u8],
    id: u32,
    service: &Value<'a>,
) -> Result<Request<'a>, MmsFault>
    ensures requested { ExactOr MmsFault.OutOfMemory request_view result
        (request_or_fault (leading_id.reads octets.now)
        ((try_map_form (request_with_id id) service_request).reads (part_of service.now))) }
    ensures memory { IsErrOf result MmsFault.OutOfMemory
        → IsSome (needs_list (part_of service.now)) }
{
    match service_from_value(alloc, service) {
        Ok(call) => Ok(Request::Confirmed { id, call }),
        Err(Refusal::Bad) => Err(bad_pdu(octets)),
        Err(Refusal::Unknown) => Err(MmsFault::UnknownService(id)),
        Err(Refusal::Many) => Err(MmsFault::TooMany(id)),
        Err(Refusal::OutOfMemory) => Err(MmsFault::OutOfMemory),
    }
}

// Reads the parts of a confirmed request.
#[tactic(auto, unfolding(crate::specs::Grammar::confirmed_parts, crate::specs::RequestResults::list_service_parts))]
fn confirmed_from_parts<'a>(
    alloc: Global,
    octets: &[u8],
    parts: &[Value<'a>],
) -> Result<Request<'a>, MmsFault>
    ensures requested { ExactOr MmsFault.OutOfMemory request_view result
        (request_or_fault (leading_id.reads octets.now)
        ((try_map_form (λ x. request_with_id x.0 x.1.0) confirmed_parts).reads
        (map part_of parts.now))) }
    ensures memory { IsErrOf result MmsFault.OutOfMemory
        → IsSome (list_service_parts.reads (map part_of parts.now)) }
{
    match parts {
        [id, service] => {
            let id = id_from_value(id).ok_or_else(|| bad_pdu(octets))?;
            service_with_id(alloc, octets, id, service)
        }
        _ => Err(bad_pdu(octets)),
    }
}

// Reads a PDU as a request, by its tag: confirmed, initiate or conclude.
#[tactic(auto, unfolding(crate::specs::Grammar::pdu, crate::specs::RequestResults::list_service_pdu))]
fn pdu_from_value<'a>(
    alloc: Global,
    octets: &[u8],
    value: &Value<'a>,
) -> Result<Request<'a>, MmsFault>
    ensures requested { ExactOr MmsFault.OutOfMemory request_view result
        (request_or_fault (leading_id.reads octets.now) (pdu.reads (part_of value.now))) }
    ensures memory { IsErrOf result MmsFault.OutOfMemory
        → IsSome (list_service_pdu.reads (part_of value.now)) }
{
    if value.tag.is(Tag::context_constructed(0)) {
        let parts = few_values(value.content).ok_or_else(|| bad_pdu(octets))?;
        confirmed_from_parts(alloc, octets, parts.as_slice())
    } else if value.tag.is(Tag::context_constructed(8)) {
        match parse_proposal(value.content) {
            Some(proposal) => Ok(Request::Initiate(proposal)),
            None => Err(bad_pdu(octets)),
        }
    } else if value.tag.is(Tag::context(11)) && value.content.is_empty() {
        Ok(Request::Conclude)
    } else {
        Err(bad_pdu(octets))
    }
}

// Reads octets as a request.
#[tactic(auto, unfolding(crate::specs::Grammar::request, crate::specs::Grammar::request_in))]
fn parse_request<'a>(alloc: Global, octets: &'a [u8]) -> Result<Request<'a>, MmsFault>
    ensures requested { ExactOr MmsFault.OutOfMemory request_view result
        (spec.request_in octets.now) }
    ensures memory { IsErrOf result MmsFault.OutOfMemory
        → IsSome ((one list_service_pdu).reads octets.now) }
{
    let value = whole_value(octets).ok_or_else(|| bad_pdu(octets))?;
    pdu_from_value(alloc, octets, &value)
}

/// Reads octets as a request (ISO 9506-2, in the profile of IEC 61850-8-1). Its names, texts and
/// data are slices of the octets. Data may nest at most 10 deep.
///
/// Fails with `BadPdu` if the octets encode no request, with the invoke id if they begin with one;
/// with `UnknownService` for a service that is not served, for alternate access and for a named
/// list; with `TooMany` for more than 32 variables in a request that is otherwise well formed; and
/// with `OutOfMemory`. Allocates only for a read or a write, and not for one of no variables.
pub fn read_request<'a>(alloc: Global, octets: &'a [u8]) -> Result<Request<'a>, MmsFault>
    ensures { IsRequestOrFault octets.now result }
{
    parse_request(alloc, octets)
}
