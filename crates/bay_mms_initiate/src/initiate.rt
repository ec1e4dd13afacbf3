// The request that opens an association, and its answer (ISO 9506-2, InitiateRequestPDU and
// InitiateResponsePDU).
ghost use Rattle.std.specs.Prelude.{◌≡◌, ◌≤◌, ◌<◌, length, map, option_map, pos, IfOk, IfSome};
ghost use Rattle.bay_ber.specs.Content.{bit_string_view};
ghost use Rattle.bay_ber.specs.EncoderBuffers.{buffer_with};
ghost use Rattle.bay_ber.specs.Forms.{tagged, value_then, done};
ghost use Rattle.bay_ber.specs.Tags.{context, constructed};
ghost use Rattle.bay_ber.specs.Values.{part_of};
ghost use Rattle.bay_ber.specs.Writing.{element, integer_octets};
ghost use Rattle.bay_mms_initiate.specs.InitiateResponse.{initiate_response_text, detail_text, limits_text, nesting_text, parameters_text, services_text};
ghost use Rattle.bay_mms_initiate.specs.Initiate.{parameters, services, detail_parts, detail, outstanding, nested_parts, outstanding_parts, proposal_parts, proposal_from_fields, initiate_in};
ghost use Rattle.bay_mms_initiate.specs.Initiate as spec;
ghost use Rattle.bay_mms_initiate.specs.Sizes.{IsPduSize};
ghost use Rattle.bay_mms_initiate.specs.Sizes as sizes;

use bay_ber::content::{Bits, bits_of, int_of};
use bay_ber::known::known_values;
use bay_ber::outgoing::Outgoing;
use bay_ber::tag::Tag;
use bay_ber::values::{Value, few_values, whole_value};
use bay_ber::writer::Writer;
use std::alloc::{AllocError, Global};

/// The proposal for an association (ISO 9506-2, InitiateRequestPDU).
#[derive(Clone, Copy, Debug)]
pub struct Proposal {
    /// The size of the largest PDU in octets, if it is proposed.
    pub size: Option<i64>,
    /// The most outstanding requests of the calling side, 1 or more
    /// (proposedMaxServOutstandingCalling).
    pub calling: i64,
    /// The most outstanding requests of the called side, 1 or more
    /// (proposedMaxServOutstandingCalled).
    pub called: i64,
    /// The deepest nesting of data, if it is proposed.
    pub nesting: Option<i64>,
    /// The first three parameter conformance blocks, in the three highest bits; the others are 0.
    pub parameters: u8,
}

// Returns the number if it is 1 or more.
fn at_least_one(number: i64) -> Option<i64>
    ensures { result ≡ spec.at_least_one number }
{
    if number > 0 { Some(number) } else { None }
}

// Reads the number of outstanding requests.
#[tactic(auto, unfolding(crate::specs::Initiate::outstanding, bay_ber::specs::Values::integer_under))]
fn outstanding_from_value(number: u8, value: &Value<'_>) -> Option<i64>
    ensures { result ≡ (outstanding number).reads (part_of value.now) }
{
    at_least_one(value.integer_with_tag(Tag::context(number))?)
}

// Returns the first three bits, if there are that many.
fn parameters_from_bits(bits: Bits<'_>) -> Option<u8>
    ensures { result ≡ spec.parameters_of (bit_string_view bits.entry) }
{
    if bits.count < 3 {
        return None;
    }
    match bits.octets {
        [first, ..] => Some(first / 32 * 32),
        [] => None,
    }
}

// Reads the first three parameter conformance blocks.
#[tactic(auto, unfolding(crate::specs::Initiate::parameters))]
fn parameters_from_value(value: &Value<'_>) -> Option<u8>
    ensures { result ≡ parameters.reads (part_of value.now) }
{
    let bits = bits_of(value.content_with_tag(Tag::context(1))?).ok()?;
    parameters_from_bits(bits)
}

// Reads the services that the calling side supports.
#[tactic(auto, unfolding(crate::specs::Initiate::services))]
fn services_from_value<'a>(value: &Value<'a>) -> Option<Bits<'a>>
    ensures { option_map bit_string_view result ≡ services.reads (part_of value.now) }
{
    bits_of(value.content_with_tag(Tag::context(2))?).ok()
}

// Reads the three parts of an InitRequestDetail, and returns the parameters.
#[tactic(auto, unfolding(crate::specs::Initiate::detail_parts, bay_ber::specs::Values::integer_under))]
fn detail_from_parts(parts: &[Value<'_>]) -> Option<u8>
    ensures { result ≡ option_map (λ x. x.1.0) (detail_parts.reads (map part_of parts.now)) }
{
    match parts {
        [version, parameters, services] => {
            version.integer_with_tag(Tag::context(0))?;
            let first = parameters_from_value(parameters)?;
            services_from_value(services)?;
            Some(first)
        }
        _ => None,
    }
}

// Reads the version, the parameters and the services (ISO 9506-2, InitRequestDetail), which may be
// among other fields, and returns the parameters.
#[tactic(auto, unfolding(crate::specs::Initiate::detail))]
fn parse_detail(octets: &[u8]) -> Option<u8>
    ensures { result ≡ detail.reads octets.now }
{
    let tags = [Tag::context(0), Tag::context(1), Tag::context(2)];
    let known = known_values(octets, &tags)?;
    detail_from_parts(known.as_slice())
}

// Reads the detail, which must be the last value, and returns its parameters.
fn last_detail(parts: &[Value<'_>]) -> Option<u8>
    ensures { result ≡ option_map (λ x. x.0)
        ((value_then (tagged (constructed 4) detail) done).reads (map part_of parts.now)) }
{
    match parts {
        [detail] => parse_detail(detail.content_with_tag(Tag::context_constructed(4))?),
        _ => None,
    }
}

// Reads the nesting, if it is proposed, and the parameters.
#[tactic(auto, unfolding(crate::specs::Initiate::nested_parts))]
fn nested_from_parts(parts: &[Value<'_>]) -> Option<(Option<i64>, u8)>
    ensures { result ≡ option_map (λ x. (x.0, x.1.0)) (nested_parts.reads (map part_of parts.now)) }
{
    match parts {
        [nesting, parts @ ..] if nesting.tag.is(Tag::context(3)) => {
            let nesting = int_of(nesting.content).ok()?;
            Some((Some(nesting), last_detail(parts)?))
        }
        _ => Some((None, last_detail(parts)?)),
    }
}

// Reads the values after the size of a PDU as a proposal.
#[tactic(auto, unfolding(crate::specs::Initiate::outstanding_parts))]
fn proposal_from_parts(size: Option<i64>, parts: &[Value<'_>]) -> Option<Proposal>
    ensures { result ≡ option_map (λ x. proposal_from_fields (size, x))
        (outstanding_parts.reads (map part_of parts.now)) }
{
    match parts {
        [calling, called, parts @ ..] => {
            let calling = outstanding_from_value(1, calling)?;
            let called = outstanding_from_value(2, called)?;
            let (nesting, parameters) = nested_from_parts(parts)?;
            Some(Proposal {
                size,
                calling,
                called,
                nesting,
                parameters,
            })
        }
        _ => None,
    }
}

// Reads the values of an initiate as a proposal.
#[tactic(auto, unfolding(crate::specs::Initiate::proposal_parts))]
fn initiate_from_parts(parts: &[Value<'_>]) -> Option<Proposal>
    ensures { result ≡ option_map proposal_from_fields
        (proposal_parts.reads (map part_of parts.now)) }
{
    match parts {
        [size, parts @ ..] if size.tag.is(Tag::context(0)) => {
            let size = int_of(size.content).ok()?;
            proposal_from_parts(Some(size), parts)
        }
        _ => proposal_from_parts(None, parts),
    }
}

/// Reads the content of an initiate, and returns its proposal. Returns `None` if the content is
/// malformed.
#[tactic(auto, unfolding(crate::specs::Initiate::proposal))]
pub fn parse_proposal(content: &[u8]) -> Option<Proposal>
    ensures { result ≡ spec.proposal.reads content.now }
{
    let parts = few_values(content)?;
    initiate_from_parts(parts.as_slice())
}

/// Reads octets as an initiate, and returns its proposal (ISO 9506-2, InitiateRequestPDU). Returns
/// `None` if they are no initiate. Does not allocate.
#[tactic(auto, unfolding(crate::specs::Initiate::initiate))]
pub fn read_initiate(octets: &[u8]) -> Option<Proposal>
    ensures { result ≡ initiate_in octets.now }
{
    let value = whole_value(octets)?;
    parse_proposal(value.content_with_tag(Tag::context_constructed(8))?)
}

// The size of the longest PDU in octets.
const LONGEST_PDU: i64 = 65_000;

/// Returns the agreed size of the largest PDU in octets, from the proposed one: the proposed size,
/// but at most 65,000, and 65,000 if none is proposed. Returns `None` if the proposed size is below
/// 256.
pub fn agreed_size(proposed: Option<i64>) -> Option<u32>
    ensures size { result ≡ sizes.agreed_size proposed }
    ensures sized { IfSome result IsPduSize }
{
    let size = proposed.unwrap_or(LONGEST_PDU).min(LONGEST_PDU);
    if size < 256 { None } else { Some(size as u32) }
}

/// The agreed limits of an association (ISO 9506-2, InitiateResponsePDU), in version 1 of the
/// protocol.
#[derive(Clone, Copy)]
pub struct AgreedLimits {
    /// The size of the largest PDU in octets.
    pub size: u32,
    /// The most outstanding requests of the calling side; `called` is that of the called side.
    pub calling: u32,
    pub called: u32,
    /// The deepest nesting of data, if it was proposed.
    pub nesting: Option<i64>,
    /// The first three parameter conformance blocks, in the three highest bits. The other bits are
    /// ignored.
    pub parameters: u8,
}

/// Appends a number with a context-specific tag.
pub fn put_number(writer: &mut Writer, number: u8, value: u32)
    requires { number < 31 }
    ensures { writer.new ≡ buffer_with writer.old
        (element (context number) (integer_octets (pos value))) }
{
    writer.int(Tag::context(number), i64::from(value));
}

// Appends the agreed nesting, if one was proposed.
#[tactic(auto, using(bay_ber::proofs::SheetLemmas::put_nil))]
fn put_nesting(writer: &mut Writer, nesting: Option<i64>)
    ensures { writer.new ≡ buffer_with writer.old (nesting_text nesting) }
{
    if let Some(nesting) = nesting {
        writer.int(Tag::context(3), nesting);
    }
}

// Appends the first three parameter conformance blocks, of eleven.
#[tactic(auto, unfolding(bay_ber::specs::Writing::element, bay_ber::specs::Writing::length_octets))]
fn put_parameters(writer: &mut Writer, parameters: u8)
    ensures { writer.new ≡ buffer_with writer.old (parameters_text parameters) }
{
    writer.append(&[0x81, 3, 5, parameters / 32 * 32, 0]);
}

// Appends the supported services.
#[tactic(auto, unfolding(bay_ber::specs::Writing::element, bay_ber::specs::Writing::length_octets))]
fn put_services(writer: &mut Writer)
    ensures { writer.new ≡ buffer_with writer.old services_text }
{
    writer.append(&[0x82, 12, 3, 0x6E, 0, 0, 0, 0, 0, 0, 0, 0, 0x01, 0x10]);
}

// Appends the agreed size, the most outstanding requests of both sides, and the nesting.
#[tactic(auto, using(bay_ber::proofs::SheetLemmas::sheet_rules))]
fn put_limits(writer: &mut Writer, agreed: AgreedLimits)
    ensures { writer.new ≡ buffer_with writer.old (limits_text agreed) }
{
    put_number(writer, 0, agreed.size);
    put_number(writer, 1, agreed.calling);
    put_number(writer, 2, agreed.called);
    put_nesting(writer, agreed.nesting);
}

// Appends the version, the parameters and the services (ISO 9506-2, InitResponseDetail).
#[tactic(auto, using(bay_ber::proofs::SheetLemmas::sheet_rules))]
fn put_detail(writer: &mut Writer, parameters: u8)
    ensures { writer.new ≡ buffer_with writer.old (detail_text parameters) }
{
    put_number(writer, 0, 1);
    put_parameters(writer, parameters);
    put_services(writer);
}

/// Appends the answer to an initiate (ISO 9506-2, InitiateResponsePDU).
#[tactic(auto, using(bay_ber::proofs::SheetLemmas::sheet_rules))]
pub fn put_initiate_response(writer: &mut Writer, agreed: AgreedLimits)
    ensures { writer.new ≡ buffer_with writer.old (initiate_response_text agreed) }
{
    let start = writer.open(Tag::context_constructed(9));
    put_limits(writer, agreed);
    let inner = writer.open(Tag::context_constructed(4));
    put_detail(writer, agreed.parameters);
    writer.close(inner);
    writer.close(start);
}

/// Returns the answer to an initiate (ISO 9506-2, InitiateResponsePDU) in its one canonical
/// encoding, at most 200 octets. Fails only if the allocation fails.
#[tactic(auto, using(bay_ber::proofs::SheetLemmas::message_put, crate::proofs::AgreedLemmas::agreed_short, crate::proofs::AgreedLemmas::agreed_within))]
pub fn write_initiate_response(alloc: Global, agreed: AgreedLimits) -> Result<Outgoing, AllocError>
    ensures text { IfOk result (λ octets. octets ≡ initiate_response_text agreed) }
    ensures few { IfOk result (λ octets. length octets ≤ 200) }
{
    let mut writer = Writer::new(alloc, 200)?;
    put_initiate_response(&mut writer, agreed);
    Ok(writer.finish_untruncated())
}
