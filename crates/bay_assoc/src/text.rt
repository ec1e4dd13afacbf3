// Writes the canonical texts of each layer.
ghost use Rattle.std.specs.Prelude.{◌≡◌, ◌+◌, ◌<◌, ◌≤◌, ◌++◌, length, option_map, OnOk, IfOk};
ghost use Rattle.std.specs.Option.{ForSome};
ghost use Rattle.bay_ber.specs.EncoderBuffers.{buffer_with};
ghost use Rattle.bay_ber.specs.Writing.{element};
ghost use Rattle.bay_ber.specs.Tags.{constructed};
ghost use Rattle.bay_assoc.specs.Tags.{oid_tag, external_tag, mms_application};
ghost use Rattle.bay_assoc.specs.Texts.{size_text, unit_text, accept_text, disconnect_text, transfer_text, context_value_text, user_text, result_text, results_text, selector_text, cpa_text, aare_text, rlre_text};

use crate::presentation::Context;
use crate::receive::ContextIds;
use bay_ber::outgoing::Outgoing;
use bay_ber::tag::Tag;
use bay_ber::writer::Writer;
use std::alloc::{AllocError, Global};

// The first parameters of an ACCEPT: the protocol options and the version as one group, and the
// functional units.
const ACCEPT: [u8; 12] = [
    0x05, 0x06, 0x13, 0x01, 0x00, 0x16, 0x01, 0x02, 0x14, 0x02, 0x00, 0x02,
];

// Appends a length.
fn append_size(out: &mut Vec<u8>, size: usize) -> Result<(), AllocError>
    requires { size < 65_536 }
    ensures text { OnOk result (out.new.items ≡ out.old.items ++ size_text size) }
    ensures few { OnOk result (length out.new.items ≤ length out.old.items + 3) }
{
    if size < 255 {
        out.push(size as u8)?;
    } else {
        out.extend_from_slice(&[255, (size / 256) as u8, (size % 256) as u8])?;
    }
    Ok(())
}

// Appends an SPDU or a parameter.
fn append_unit(out: &mut Vec<u8>, identifier: u8, content: &[u8]) -> Result<(), AllocError>
    requires { length content.now < 65_536 }
    ensures text { OnOk result (out.new.items ≡ out.old.items ++ unit_text identifier content.now) }
    ensures few { OnOk result
        (length out.new.items ≤ length out.old.items + length content.now + 4) }
{
    out.push(identifier)?;
    append_size(out, content.len())?;
    out.extend_from_slice(content)?;
    Ok(())
}

/// Writes an ACCEPT with user data.
pub(crate) fn accept(alloc: Global, user: &[u8]) -> Result<Vec<u8>, AllocError>
    requires { length user.now < 65_500 }
    ensures text { IfOk result (λ octets. octets.items ≡ accept_text user.now) }
    ensures few { IfOk result (λ octets. length octets.items ≤ length user.now + 20) }
{
    let mut content = Vec::new(alloc);
    content.extend_from_slice(&ACCEPT)?;
    append_unit(&mut content, 0xC1, user)?;
    let mut out = Vec::new(alloc);
    append_unit(&mut out, 0x0E, content.as_slice())?;
    Ok(out)
}

// Writes a DISCONNECT with user data.
fn write_disconnect(alloc: Global, user: &[u8]) -> Result<Vec<u8>, AllocError>
    requires { length user.now < 65_500 }
    ensures text { IfOk result (λ octets. octets.items ≡ disconnect_text user.now) }
    ensures few { IfOk result (λ octets. length octets.items ≤ length user.now + 8) }
{
    let mut content = Vec::new(alloc);
    append_unit(&mut content, 0xC1, user)?;
    let mut out = Vec::new(alloc);
    append_unit(&mut out, 0x0A, content.as_slice())?;
    Ok(out)
}

// Appends a value in a context.
#[tactic(auto, using(bay_ber::proofs::SheetLemmas::sheet_rules))]
fn put_context_value(writer: &mut Writer, tag: Tag, id: u16, value: &[u8])
    requires { tag.number < 31 }
    ensures { writer.new ≡ buffer_with writer.old (context_value_text tag id value.now) }
{
    let start = writer.open(tag);
    writer.int(Tag::universal(2), i64::from(id));
    writer.octets(Tag::context_constructed(0), value);
    writer.close(start);
}

// Appends fully encoded user data.
#[tactic(auto, using(bay_ber::proofs::SheetLemmas::sheet_rules))]
fn put_user(writer: &mut Writer, id: u16, value: &[u8])
    ensures { writer.new ≡ buffer_with writer.old (user_text id value.now) }
{
    let start = writer.open(Tag::application_constructed(1));
    put_context_value(writer, Tag::sequence(), id, value);
    writer.close(start);
}

// Appends the result for one offered context: accepted or rejected.
fn put_result(writer: &mut Writer, accepted: ContextIds, context: &Context)
    ensures { writer.new ≡ buffer_with writer.old (result_text accepted context.now) }
{
    if context.id == accepted.acse || context.id == accepted.mms {
        writer.octets(Tag::sequence(), &[0x80, 0x01, 0x00, 0x81, 0x02, 0x51, 0x01]);
    } else {
        writer.octets(Tag::sequence(), &[0x80, 0x01, 0x02]);
    }
}

// Appends the result for each offered context.
fn put_each(writer: &mut Writer, accepted: ContextIds, contexts: &[Context])
    ensures { writer.new ≡ buffer_with writer.old (results_text accepted contexts.now) }
{
    for context in contexts {
        put_result(writer, accepted, context);
    }
}

// Appends the list of the results, one for each offered context.
#[tactic(auto, using(bay_ber::proofs::SheetLemmas::sheet_rules))]
fn put_results(writer: &mut Writer, accepted: ContextIds, contexts: &[Context])
    ensures { writer.new ≡ buffer_with writer.old
        (element (constructed 5) (results_text accepted contexts.now)) }
{
    let start = writer.open(Tag::context_constructed(5));
    put_each(writer, accepted, contexts);
    writer.close(start);
}

// Appends the responding selector, which repeats the called one, if there is one.
#[tactic(auto, using(bay_ber::proofs::SheetLemmas::put_nil))]
fn put_selector(writer: &mut Writer, called: Option<&[u8]>)
    ensures { writer.new ≡ buffer_with writer.old
        (selector_text (option_map (λ octets. octets.now) called.entry)) }
{
    if let Some(octets) = called {
        writer.octets(Tag::context(3), octets);
    }
}

// Appends the parameters of the normal mode, with a value of ACSE.
#[tactic(auto, using(bay_ber::proofs::SheetLemmas::sheet_rules))]
fn put_normal(
    writer: &mut Writer,
    called: Option<&[u8]>,
    contexts: &[Context],
    accepted: ContextIds,
    value: &[u8],
)
    ensures { writer.new ≡ buffer_with writer.old
        (element (constructed 2) (selector_text (option_map (λ octets. octets.now) called.entry)
        ++ (element (constructed 5) (results_text accepted contexts.now)
        ++ user_text accepted.acse value.now))) }
{
    let start = writer.open(Tag::context_constructed(2));
    put_selector(writer, called);
    put_results(writer, accepted, contexts);
    put_user(writer, accepted.acse, value);
    writer.close(start);
}

// Appends the answer to a request for a connection.
#[tactic(auto, using(bay_ber::proofs::SheetLemmas::sheet_rules))]
fn put_cpa(
    writer: &mut Writer,
    called: Option<&[u8]>,
    contexts: &[Context],
    accepted: ContextIds,
    value: &[u8],
)
    ensures { writer.new ≡ buffer_with writer.old
        (cpa_text (option_map (λ octets. octets.now) called.entry) contexts.now accepted
        value.now) }
{
    let start = writer.open(Tag::universal_constructed(17));
    writer.octets(Tag::context_constructed(0), &[0x80, 0x01, 0x01]);
    put_normal(writer, called, contexts, accepted, value);
    writer.close(start);
}

/// Writes the answer to a request for a connection (CPA), with a value of ACSE.
#[tactic(auto, using(bay_ber::proofs::SheetLemmas::message_put, crate::proofs::TextLemmas::connected_short, crate::proofs::TextLemmas::connected_within))]
pub(crate) fn write_cpa(
    alloc: Global,
    called: Option<&[u8]>,
    contexts: &[Context],
    accepted: ContextIds,
    value: &[u8],
) -> Result<Outgoing, AllocError>
    requires selector { ForSome called (λ octets. length octets.now ≤ 16) }
    requires contexts { length contexts.now ≤ 16 }
    requires short { length value.now ≤ 271 }
    ensures text { IfOk result
        (λ octets. octets
        ≡ cpa_text (option_map (λ octets. octets.now) called.entry) contexts.now accepted
        value.now) }
    ensures few { IfOk result (λ octets. length octets ≤ 560) }
{
    let mut writer = Writer::new(alloc, 560)?;
    put_cpa(&mut writer, called, contexts, accepted, value);
    Ok(writer.finish_untruncated())
}

// Returns the object identifier of the application context of MMS, encoded.
#[tactic(auto, unfolding(bay_ber::specs::Writing::element, bay_ber::specs::Writing::length_octets))]
fn application_context() -> &'static [u8]
    ensures { result.now ≡ element oid_tag mms_application }
{
    &[0x06, 0x05, 0x28, 0xCA, 0x22, 0x02, 0x03]
}

// Appends the user information, which is one EXTERNAL.
#[tactic(auto, using(bay_ber::proofs::SheetLemmas::sheet_rules))]
fn put_user_information(writer: &mut Writer, mms: u16, pdu: &[u8])
    ensures { writer.new ≡ buffer_with writer.old
        (element (constructed 30) (context_value_text external_tag mms pdu.now)) }
{
    let start = writer.open(Tag::context_constructed(30));
    put_context_value(writer, Tag::universal_constructed(8), mms, pdu);
    writer.close(start);
}

// Appends the answer to a request for an association.
#[tactic(auto, using(bay_ber::proofs::SheetLemmas::sheet_rules))]
fn put_aare(writer: &mut Writer, mms: u16, pdu: &[u8])
    ensures { writer.new ≡ buffer_with writer.old (aare_text mms pdu.now) }
{
    let start = writer.open(Tag::application_constructed(1));
    writer.octets(Tag::context_constructed(1), application_context());
    writer.octets(Tag::context_constructed(2), &[0x02, 0x01, 0x00]);
    writer.octets(Tag::context_constructed(3), &[0xA1, 0x03, 0x02, 0x01, 0x00]);
    put_user_information(writer, mms, pdu);
    writer.close(start);
}

/// Writes the answer to a request for an association (AARE), with a PDU of MMS.
#[tactic(auto, using(bay_ber::proofs::SheetLemmas::message_put, crate::proofs::TextLemmas::associated_short, crate::proofs::TextLemmas::associated_within))]
pub(crate) fn write_aare(alloc: Global, mms: u16, pdu: &[u8]) -> Result<Outgoing, AllocError>
    requires { length pdu.now ≤ 200 }
    ensures text { IfOk result (λ octets. octets ≡ aare_text mms pdu.now) }
    ensures few { IfOk result (λ octets. length octets ≤ 271) }
{
    let mut writer = Writer::new(alloc, 271)?;
    put_aare(&mut writer, mms, pdu);
    Ok(writer.finish_untruncated())
}

// Returns the encoded RLRE.
#[tactic(auto, unfolding(bay_ber::specs::Writing::element, bay_ber::specs::Writing::length_octets))]
fn rlre_octets() -> &'static [u8]
    ensures { result.now ≡ rlre_text }
{
    &[0x63, 0x03, 0x80, 0x01, 0x00]
}

// Writes the RLRE in the context of ACSE, as user data.
#[tactic(auto, using(bay_ber::proofs::SheetLemmas::message_put, crate::proofs::TextLemmas::released_short, crate::proofs::TextLemmas::released_within))]
fn rlre_user_data(alloc: Global, acse: u16) -> Result<Outgoing, AllocError>
    ensures text { IfOk result (λ octets. octets ≡ user_text acse rlre_text) }
    ensures few { IfOk result (λ octets. length octets ≤ 41) }
{
    let mut writer = Writer::new(alloc, 41)?;
    put_user(&mut writer, acse, rlre_octets());
    Ok(writer.finish_untruncated())
}

/// Writes the DISCONNECT that answers a request for a release, with its RLRE.
pub(crate) fn write_release_response(alloc: Global, acse: u16) -> Result<Vec<u8>, AllocError>
    ensures text { IfOk result
        (λ octets. octets.items ≡ disconnect_text (user_text acse rlre_text)) }
    ensures few { IfOk result (λ octets. length octets.items ≤ 100) }
{
    let user = rlre_user_data(alloc, acse)?;
    write_disconnect(alloc, user.as_slice())
}
