// Writing responses in their canonical texts.
ghost use Rattle.std.specs.Prelude.{◌≡◌, ◌≤◌, ◌<◌, ◌++◌, false, length, pos, IfOk, IfSome};
ghost use Rattle.bay_base.specs.Exact.{ExactOr};
ghost use Rattle.bay_ber.specs.EncoderBuffers.{buffer_with};
ghost use Rattle.bay_ber.specs.Writing.{element, integer_octets, truth_octets};
ghost use Rattle.bay_tree.specs.Rows.{IsHandle};
ghost use Rattle.bay_ber.specs.Tags.{context, constructed, int_tag};
ghost use Rattle.bay_mms.specs.Types.{type_text};
ghost use Rattle.bay_mms.specs.Nodes.{type_at};
ghost use Rattle.bay_mms.specs.Responses.{confirmed_response, error_text, identity_text, names_text, listing_text, class_text, id_text, reason_text, reject_text, conclude_response_text, service_text, IsOfTree};
ghost use Rattle.bay_mms.specs.Writing.{text_within};

use crate::fault::EncodeFault;
use crate::put::finish;
use crate::value::write_type;
use bay_base::text::Text;
use bay_ber::outgoing::Outgoing;
use bay_ber::tag::Tag;
use bay_ber::writer::Writer;
use bay_mms_initiate::initiate::put_number;
use bay_tree::tree::{Handle, Tree};
use std::alloc::{AllocError, Global};

/// The error that answers a request (ISO 9506-2, ServiceError).
#[derive(Clone, Copy)]
pub enum ErrorClass {
    /// No such object: error 2 of the class access.
    NoSuchObject,
    /// Too few resources: error 0 of the class resource.
    Resource,
}

/// Why a request is rejected (ISO 9506-2, RejectPDU).
#[derive(Clone, Copy)]
pub enum RejectReason {
    /// The service of a confirmed request is unknown.
    UnrecognizedService,
    /// The request is not a PDU that is read here.
    InvalidPdu,
}

/// The answer to a confirmed request other than a read or a write, which `results` answers.
#[derive(Clone, Copy)]
pub enum Service<'a> {
    /// The vendor, the model and the revision of the device.
    Identify {
        vendor: &'a str,
        model: &'a str,
        revision: &'a str,
    },
    /// Names, and whether more follow.
    Names {
        names: &'a [Text],
        more: bool,
    },
    /// The type of a row.
    Attributes {
        tree: &'a Tree,
        handle: Handle,
    },
}

/// The response to a confirmed request.
#[derive(Clone, Copy)]
pub struct Response<'a> {
    /// The invoke id.
    pub id: u32,
    pub service: Service<'a>,
}

// Appends the vendor, the model and the revision of the device (ISO 9506-2, Identify).
#[tactic(auto, using(bay_ber::proofs::SheetLemmas::sheet_rules))]
fn put_identity(writer: &mut Writer, vendor: &str, model: &str, revision: &str)
    ensures { writer.new ≡ buffer_with writer.old
        (element (constructed 2) (identity_text vendor.now model.now revision.now)) }
{
    let start = writer.open(Tag::context_constructed(2));
    writer.text(Tag::context(0), vendor);
    writer.text(Tag::context(1), model);
    writer.text(Tag::context(2), revision);
    writer.close(start);
}

// Appends names, one after another.
fn put_names(writer: &mut Writer, names: &[Text])
    ensures { writer.new ≡ buffer_with writer.old (names_text names.now) }
{
    for name in names {
        writer.text(Tag::universal(26), name.as_str());
    }
}

// Appends names, and whether more follow (ISO 9506-2, GetNameList).
#[tactic(auto, using(bay_ber::proofs::SheetLemmas::sheet_rules))]
fn put_listing(writer: &mut Writer, names: &[Text], more: bool)
    ensures { writer.new ≡ buffer_with writer.old
        (element (constructed 1) (listing_text names.now more)) }
{
    let start = writer.open(Tag::context_constructed(1));
    let list = writer.open(Tag::context_constructed(0));
    put_names(writer, names);
    writer.close(list);
    writer.boolean(Tag::context(1), more);
    writer.close(start);
}

// Appends that a variable can't be deleted, and its type (ISO 9506-2, GetVariableAccessAttributes).
#[tactic(auto, using(bay_ber::proofs::SheetLemmas::sheet_rules))]
fn put_attributes(writer: &mut Writer, tree: &Tree, handle: &Handle)
    requires { IsHandle tree.now handle.now }
    ensures { writer.new ≡ buffer_with writer.old
        (element (constructed 6)
        (element (context 0) (truth_octets false)
        ++ element (constructed 2) (type_text (type_at tree.now handle.now)))) }
{
    let start = writer.open(Tag::context_constructed(6));
    writer.boolean(Tag::context(0), false);
    let inner = writer.open(Tag::context_constructed(2));
    write_type(writer, tree, *handle);
    writer.close(inner);
    writer.close(start);
}

/// Appends an invoke id.
pub(crate) fn put_id(writer: &mut Writer, id: u32)
    ensures { writer.new ≡ buffer_with writer.old (element int_tag (integer_octets (pos id))) }
{
    writer.int(Tag::universal(2), i64::from(id));
}

// Appends the answer to a confirmed request.
fn put_service(writer: &mut Writer, service: &Service<'_>)
    requires { IsOfTree service.now }
    ensures { writer.new ≡ buffer_with writer.old (service_text service.now) }
{
    match service {
        Service::Identify {
            vendor,
            model,
            revision,
        } => put_identity(writer, vendor, model, revision),
        Service::Names { names, more } => put_listing(writer, names, *more),
        Service::Attributes { tree, handle } => put_attributes(writer, tree, handle),
    }
}

// Appends the PDU of the response to a confirmed request.
#[tactic(auto, using(bay_ber::proofs::SheetLemmas::sheet_rules))]
fn put_confirmed(writer: &mut Writer, id: u32, service: &Service<'_>)
    requires { IsOfTree service.now }
    ensures { writer.new ≡ buffer_with writer.old
        (confirmed_response id (service_text service.now)) }
{
    let start = writer.open(Tag::context_constructed(1));
    put_id(writer, id);
    put_service(writer, service);
    writer.close(start);
}

// Returns the class of an error and the error's number, encoded.
#[tactic(auto, unfolding(bay_ber::specs::Writing::element, bay_ber::specs::Writing::length_octets))]
fn error_octets(class: ErrorClass) -> &'static [u8]
    ensures { result.now ≡ element (constructed 0) (class_text class) }
{
    match class {
        ErrorClass::NoSuchObject => &[0xA0, 0x03, 0x87, 0x01, 0x02],
        ErrorClass::Resource => &[0xA0, 0x03, 0x83, 0x01, 0x00],
    }
}

// Appends the PDU of an error.
#[tactic(auto, using(bay_ber::proofs::SheetLemmas::sheet_rules))]
fn put_error(writer: &mut Writer, id: u32, class: ErrorClass)
    ensures { writer.new ≡ buffer_with writer.old (error_text id class) }
{
    let start = writer.open(Tag::context_constructed(2));
    put_number(writer, 0, id);
    writer.nest(Tag::context_constructed(2), error_octets(class));
    writer.close(start);
}

// Appends an invoke id, if it is known.
#[tactic(auto, using(bay_ber::proofs::SheetLemmas::put_nil))]
fn put_known(writer: &mut Writer, id: Option<u32>)
    ensures { writer.new ≡ buffer_with writer.old (id_text id) }
{
    if let Some(id) = id {
        put_number(writer, 0, id);
    }
}

// Appends the reason of a reject.
#[tactic(auto, unfolding(bay_ber::specs::Writing::element, bay_ber::specs::Writing::length_octets))]
fn put_reason(writer: &mut Writer, reason: RejectReason)
    ensures { writer.new ≡ buffer_with writer.old (reason_text reason) }
{
    match reason {
        RejectReason::UnrecognizedService => writer.append(&[0x81, 1, 1]),
        RejectReason::InvalidPdu => writer.append(&[0x85, 1, 1]),
    }
}

// Appends the PDU of a reject, with the invoke id if it is known.
#[tactic(auto, using(bay_ber::proofs::SheetLemmas::sheet_rules))]
fn put_reject(writer: &mut Writer, id: Option<u32>, reason: RejectReason)
    ensures { writer.new ≡ buffer_with writer.old (reject_text id reason) }
{
    let start = writer.open(Tag::context_constructed(4));
    put_known(writer, id);
    put_reason(writer, reason);
    writer.close(start);
}

// Appends the PDU that answers a conclude.
#[tactic(auto, unfolding(bay_ber::specs::Writing::element, bay_ber::specs::Writing::length_octets))]
fn put_conclude_response(writer: &mut Writer)
    ensures { writer.new ≡ buffer_with writer.old conclude_response_text }
{
    writer.append(&[0x8C, 0]);
}

/// Returns a response in its one canonical encoding (ISO 9506-2). Fails with `TooLong` if it has
/// more than `size` octets. A handle must be of its tree.
#[tactic(auto, using(bay_ber::proofs::SheetLemmas::message_put))]
pub fn write_response(
    alloc: Global,
    response: &Response<'_>,
    size: u32,
) -> Result<Outgoing, EncodeFault>
    requires { IsOfTree response.now.service }
    ensures { ExactOr EncodeFault.OutOfMemory (λ octets. octets) result (text_within size
        (confirmed_response response.now.id (service_text response.now.service))) }
{
    let mut writer = Writer::new(alloc, size)?;
    put_confirmed(&mut writer, response.id, &response.service);
    finish(writer)
}

/// Returns a confirmed error with an invoke id (ISO 9506-2, Confirmed-ErrorPDU), at most 60 octets.
/// Fails only if the allocation fails.
#[tactic(auto, using(bay_ber::proofs::SheetLemmas::message_put, crate::proofs::ShortLemmas::error_short, crate::proofs::ShortLemmas::error_within))]
pub fn write_error(alloc: Global, id: u32, class: ErrorClass) -> Result<Outgoing, AllocError>
    ensures text { IfOk result (λ octets. octets ≡ error_text id class) }
    ensures few { IfOk result (λ octets. length octets ≤ 60) }
{
    let mut writer = Writer::new(alloc, 60)?;
    put_error(&mut writer, id, class);
    Ok(writer.finish_untruncated())
}

/// Returns a reject, with the invoke id if it was read (ISO 9506-2, RejectPDU), at most 60 octets.
/// Fails only if the allocation fails.
#[tactic(auto, using(bay_ber::proofs::SheetLemmas::message_put, crate::proofs::ShortLemmas::reject_short, crate::proofs::ShortLemmas::reject_within))]
pub fn write_reject(
    alloc: Global,
    id: Option<u32>,
    reason: RejectReason,
) -> Result<Outgoing, AllocError>
    ensures text { IfOk result (λ octets. octets ≡ reject_text id reason) }
    ensures few { IfOk result (λ octets. length octets ≤ 60) }
{
    let mut writer = Writer::new(alloc, 60)?;
    put_reject(&mut writer, id, reason);
    Ok(writer.finish_untruncated())
}

/// Returns the answer to a conclude (ISO 9506-2, Conclude-ResponsePDU), two octets. Fails only if
/// the allocation fails.
#[tactic(auto, using(bay_ber::proofs::SheetLemmas::message_put, crate::proofs::ShortLemmas::concluded_within))]
pub fn write_conclude(alloc: Global) -> Result<Outgoing, AllocError>
    ensures { IfOk result (λ octets. octets ≡ conclude_response_text) }
{
    let mut writer = Writer::new(alloc, 2)?;
    put_conclude_response(&mut writer);
    Ok(writer.finish_untruncated())
}
