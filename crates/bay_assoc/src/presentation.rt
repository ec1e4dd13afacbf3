// Reads presentation protocol data units (ISO 8823-1 8.2).
ghost use Rattle.std.specs.Prelude.{◌≡◌, ◌≤◌, ◌++◌, ◌∷◌, ◌&&◌, ◌||◌, [], length, map, option_map, OnOk, IfOk, IfSome, IsErrOf, IsSome};
ghost use Rattle.bay_base.specs.Exact.{ExactOr};
ghost use Rattle.bay_ber.specs.Forms.{octets as any_content, one, tagged, each, whole};
ghost use Rattle.bay_ber.specs.Values.{part_of};
ghost use Rattle.bay_assoc.specs.declared.fault.AssocFault.TheVariants.{BadPresentation};
ghost use Rattle.bay_ber.specs.Judged.{or_fault};
ghost use Rattle.bay_assoc.specs.Presentation.{transfer_syntax, transfer_syntaxes, context_parts, definition, definition_list, context_value_parts, pdv_list, user_part, user_data, connect_parts, normal_parts, normal, mode, mode_parts, request, request_mode};
ghost use Rattle.bay_assoc.specs.Presentation as spec;
ghost use Rattle.bay_assoc.specs.Views.{context_value_view, connect_view};

use crate::fault::AssocFault;
use crate::request::Connect;
use bay_ber::content::int_of;
use bay_ber::known::known_values;
use bay_ber::tag::Tag;
use bay_ber::values::{Value, Values, few_values, whole_value};
use std::alloc::{AllocError, Global};

// The abstract syntaxes of ACSE, 2.2.1.0.1, and of MMS, 1.0.9506.2.1.
const ACSE: &[u8] = &[0x52, 0x01, 0x00, 0x01];

const MMS: &[u8] = &[0x28, 0xCA, 0x22, 0x02, 0x01];

// The Basic Encoding Rules as a transfer syntax, 2.1.1.
const BER: &[u8] = &[0x51, 0x01];

// The most contexts that a request may offer, and the most octets of its selector.
const CONTEXTS_MAX: usize = 16;

const SELECTOR_MAX: usize = 16;

/// An offered presentation context: its identifier, and whether it offers ACSE or MMS with the
/// Basic Encoding Rules.
#[derive(Clone, Copy)]
pub struct Context {
    pub id: u16,
    pub is_acse: bool,
    pub is_mms: bool,
}

/// A value and the identifier of its context.
#[derive(Clone, Copy)]
pub struct ContextValue<'a> {
    pub id: i64,
    pub value: &'a [u8],
}

/// Reads octets as exactly one value, and returns its content if it has this tag.
pub(crate) fn parse_content_with_tag<'a>(octets: &'a [u8], tag: Tag) -> Option<&'a [u8]>
    ensures { option_map (λ o. o.now) result ≡ (one (tagged tag any_content)).reads octets.now }
{
    let value = whole_value(octets)?;
    value.content_with_tag(tag)
}

// Returns whether a transfer syntax is the Basic Encoding Rules; `None` if the value is no transfer
// syntax.
#[tactic(auto, unfolding(crate::specs::Presentation::transfer_syntax))]
fn is_ber(value: &Value<'_>) -> Option<bool>
    ensures { result ≡ transfer_syntax.reads (part_of value.now) }
{
    let name = value.content_with_tag(Tag::universal(6))?;
    Some(name == BER)
}

// Returns `first && second`. A call, so that the proof of a caller need not split into cases.
fn both(first: bool, second: bool) -> bool
    ensures { result ≡ (first && second) }
{
    first && second
}

// Returns `first || second`. A call, so that the proof of a caller need not split into cases.
fn either(first: bool, second: bool) -> bool
    ensures { result ≡ (first || second) }
{
    first || second
}

// Returns whether one of the transfer syntaxes in octets is the Basic Encoding Rules.
fn offers_ber(octets: &[u8]) -> Option<bool>
    ensures { result ≡ transfer_syntaxes.reads octets.now }
{
    let mut found = false;
    let mut values = Values::new(octets);
    loop {
        match values.next_value() {
            Ok(Some(value)) => {
                match is_ber(&value) {
                    Some(one) => found = either(found, one),
                    None => return None,
                }
            }
            Ok(None) => return Some(found),
            Err(_) => return None,
        }
    }
}

// Returns the identifier of a presentation context, if the number is one: 1 to 32,767.
fn context_id(number: i64) -> Option<u16>
    ensures { result ≡ spec.context_id number }
{
    if number > 0 && number < 32_768 {
        Some(number as u16)
    } else {
        None
    }
}

// Reads a context from its identifier, its abstract syntax and its list of transfer syntaxes.
#[tactic(auto, unfolding(crate::specs::Presentation::context_parts, bay_ber::specs::Values::integer_under))]
fn context_with(id: &Value<'_>, syntax: &Value<'_>, transfers: &Value<'_>) -> Option<Context>
    ensures { result ≡ context_parts.reads
        (part_of id.now ∷ part_of syntax.now ∷ part_of transfers.now ∷ []) }
{
    let id = context_id(id.integer_with_tag(Tag::universal(2))?)?;
    let name = syntax.content_with_tag(Tag::universal(6))?;
    let list = transfers.content_with_tag(Tag::sequence())?;
    let ber = offers_ber(list)?;
    Some(Context {
        id,
        is_acse: both(ber, name == ACSE),
        is_mms: both(ber, name == MMS),
    })
}

// Reads a context from its three parts.
#[tactic(auto, unfolding(crate::specs::Presentation::context_parts))]
fn context_from_parts(parts: &[Value<'_>]) -> Option<Context>
    ensures { result ≡ context_parts.reads (map part_of parts.now) }
{
    match parts {
        [id, syntax, transfers] => context_with(id, syntax, transfers),
        _ => None,
    }
}

// Reads an offered context.
#[tactic(auto, unfolding(crate::specs::Presentation::definition))]
fn context_from_value(value: &Value<'_>) -> Option<Context>
    ensures { result ≡ definition.reads (part_of value.now) }
{
    let parts = few_values(value.content_with_tag(Tag::sequence())?)?;
    context_from_parts(parts.as_slice())
}

// Reads consecutive offered contexts.
fn read_contexts(alloc: Global, octets: &[u8]) -> Result<Vec<Context>, AssocFault>
    ensures { ExactOr AssocFault.OutOfMemory (λ v. v.items) result
        (or_fault BadPresentation ((each definition).reads octets.now)) }
{
    let mut contexts = Vec::new(alloc);
    let mut values = Values::new(octets);
    loop {
        match values.next_value() {
            Ok(Some(value)) => {
                match context_from_value(&value) {
                    Some(one) => push_context(&mut contexts, one)?,
                    None => return Err(AssocFault::BadPresentation),
                }
            }
            Ok(None) => return Ok(contexts),
            Err(_) => return Err(AssocFault::BadPresentation),
        }
    }
}

// Appends a context.
fn push_context(contexts: &mut Vec<Context>, one: Context) -> Result<(), AllocError>
    ensures { OnOk result (contexts.new.items ≡ contexts.old.items ++ one ∷ []) }
{
    contexts.push(one)?;
    Ok(())
}

// Returns whether one of the contexts has this identifier.
fn has_id(id: u16, contexts: &[Context]) -> bool
    ensures { result ≡ spec.has_id id contexts.now }
{
    contexts.iter().any(|context| context.id == id)
}

// Returns whether no two contexts have the same identifier.
fn are_distinct(contexts: &[Context]) -> bool
    ensures { result ≡ spec.are_distinct contexts.now }
{
    for (at, context) in contexts.iter().enumerate() {
        let id = context.id;
        if has_id(id, &contexts[at + 1..]) {
            return false;
        }
    }
    true
}

// Reads the offered contexts: at most 16, with distinct identifiers.
#[tactic(auto, unfolding(crate::specs::Presentation::definition_list))]
fn parse_contexts(alloc: Global, octets: &[u8]) -> Result<Vec<Context>, AssocFault>
    ensures exact { ExactOr AssocFault.OutOfMemory (λ v. v.items) result
        (or_fault BadPresentation (definition_list.reads octets.now)) }
    ensures few { IfOk result (λ v. length v.items ≤ 16) }
{
    let contexts = read_contexts(alloc, octets)?;
    if contexts.len() > CONTEXTS_MAX || !are_distinct(contexts.as_slice()) {
        return Err(AssocFault::BadPresentation);
    }
    Ok(contexts)
}

// Reads the identifier of a context, and the value in it, a single ASN.1 type.
#[tactic(auto, unfolding(crate::specs::Presentation::context_value_parts, bay_ber::specs::Values::integer_under))]
fn context_value_from_values<'a>(id: &Value<'_>, value: &Value<'a>) -> Option<ContextValue<'a>>
    ensures { option_map context_value_view result
        ≡ context_value_parts.reads (part_of id.now ∷ part_of value.now ∷ []) }
{
    let id = id.integer_with_tag(Tag::universal(2))?;
    let value = value.content_with_tag(Tag::context_constructed(0))?;
    Some(ContextValue { id, value })
}

/// Reads a value and its context from the parts of a PDV-list or an EXTERNAL.
#[tactic(auto, unfolding(crate::specs::Presentation::context_value_parts))]
pub(crate) fn context_value_from_parts<'a>(parts: &[Value<'a>]) -> Option<ContextValue<'a>>
    ensures { option_map context_value_view result
        ≡ context_value_parts.reads (map part_of parts.now) }
{
    match parts {
        [id, value] => context_value_from_values(id, value),
        [name, id, value] if name.tag.is(Tag::universal(6)) => context_value_from_values(id, value),
        _ => None,
    }
}

// Reads the one value of fully encoded user data.
#[tactic(auto, unfolding(crate::specs::Presentation::pdv_list))]
fn parse_context_value(octets: &[u8]) -> Option<ContextValue<'_>>
    ensures { option_map context_value_view result ≡ (one pdv_list).reads octets.now }
{
    let parts = few_values(parse_content_with_tag(octets, Tag::sequence())?)?;
    context_value_from_parts(parts.as_slice())
}

// Reads the one value of user data, with their tag.
#[tactic(auto, unfolding(crate::specs::Presentation::user_part))]
fn context_value_from_value<'a>(value: &Value<'a>) -> Option<ContextValue<'a>>
    ensures { option_map context_value_view result ≡ user_part.reads (part_of value.now) }
{
    parse_context_value(value.content_with_tag(Tag::application_constructed(1))?)
}

/// Reads the user data of the session as one value and its context.
#[tactic(auto, unfolding(crate::specs::Presentation::user_data))]
pub(crate) fn parse_user_data(octets: &[u8]) -> Option<ContextValue<'_>>
    ensures { option_map context_value_view result ≡ user_data.reads octets.now }
{
    let value = whole_value(octets)?;
    context_value_from_value(&value)
}

// Returns a selector, if it has at most 16 octets.
fn selector_of(octets: &[u8]) -> Option<&[u8]>
    ensures exact { option_map (λ o. o.now) result ≡ spec.selector_of octets.now }
    ensures short { IfSome result (λ o. length o.now ≤ 16) }
{
    if octets.len() > SELECTOR_MAX {
        None
    } else {
        Some(octets)
    }
}

// Reads the parts of a request for a connection after its calling selector.
#[tactic(auto, unfolding(crate::specs::Presentation::connect_parts))]
fn connect_from_parts<'a>(alloc: Global, parts: &[Value<'a>]) -> Result<Connect<'a>, AssocFault>
    ensures { ExactOr AssocFault.OutOfMemory connect_view result
        (or_fault BadPresentation (connect_parts.reads (map part_of parts.now))) }
{
    let (called, list, user) = match parts {
        [list, user] => (None, list, user),
        [called, list, user] => {
            let octets = called
                .content_with_tag(Tag::context(2))
                .ok_or(AssocFault::BadPresentation)?;
            let selector = selector_of(octets).ok_or(AssocFault::BadPresentation)?;
            (Some(selector), list, user)
        }
        _ => return Err(AssocFault::BadPresentation),
    };
    let octets = list
        .content_with_tag(Tag::context_constructed(4))
        .ok_or(AssocFault::BadPresentation)?;
    let user = context_value_from_value(user).ok_or(AssocFault::BadPresentation)?;
    let contexts = parse_contexts(alloc, octets)?;
    Ok(Connect {
        called,
        contexts,
        user,
    })
}

// Reads the parts of a request for a connection, and ignores its calling selector, if it has one.
#[tactic(auto, unfolding(crate::specs::Presentation::normal_parts))]
fn normal_from_parts<'a>(alloc: Global, parts: &[Value<'a>]) -> Result<Connect<'a>, AssocFault>
    ensures { ExactOr AssocFault.OutOfMemory connect_view result
        (or_fault BadPresentation (normal_parts.reads (map part_of parts.now))) }
{
    match parts {
        [calling, parts @ ..] if calling.tag.is(Tag::context(1)) => connect_from_parts(
            alloc, parts,
        ),
        _ => connect_from_parts(alloc, parts),
    }
}

// Reads the parameters of the normal mode, with their tag, and ignores other fields.
#[tactic(auto, unfolding(crate::specs::Presentation::normal))]
fn normal_from_value<'a>(alloc: Global, value: &Value<'a>) -> Result<Connect<'a>, AssocFault>
    ensures { ExactOr AssocFault.OutOfMemory connect_view result
        (or_fault BadPresentation (normal.reads (part_of value.now))) }
{
    let octets = value
        .content_with_tag(Tag::context_constructed(2))
        .ok_or(AssocFault::BadPresentation)?;
    let tags = [
        Tag::context(1),
        Tag::context(2),
        Tag::context_constructed(4),
        Tag::application_constructed(1),
    ];
    let known = known_values(octets, &tags).ok_or(AssocFault::BadPresentation)?;
    normal_from_parts(alloc, known.as_slice())
}

// Returns the number of the mode if it is the normal mode, 1.
fn mode_from_number(number: i64) -> Option<i64>
    ensures { result ≡ spec.mode_of number }
{
    if number == 1 { Some(number) } else { None }
}

// Reads the mode, which must be the normal mode.
#[tactic(auto, unfolding(crate::specs::Presentation::mode))]
fn mode_from_value(value: &Value<'_>) -> Option<i64>
    ensures { result ≡ mode.reads (part_of value.now) }
{
    let mode = value.content_with_tag(Tag::context_constructed(0))?;
    let number = parse_content_with_tag(mode, Tag::context(0))?;
    mode_from_number(int_of(number).ok()?)
}

// Reads the mode and the parameters, in either order.
#[tactic(auto, unfolding(crate::specs::Presentation::mode_parts))]
fn request_from_parts<'a>(alloc: Global, parts: &[Value<'a>]) -> Result<Connect<'a>, AssocFault>
    ensures request { ExactOr AssocFault.OutOfMemory connect_view result
        (or_fault BadPresentation ((mode_parts normal).reads (map part_of parts.now))) }
    ensures memory { IsErrOf result AssocFault.OutOfMemory
        → IsSome ((mode_parts whole).reads (map part_of parts.now)) }
    ensures mode { IfOk result (λ r. IsSome ((mode_parts whole).reads (map part_of parts.now))) }
{
    let (selector, parameters) = match parts {
        [first, second] if first.tag.is(Tag::context_constructed(0)) => (first, second),
        [first, second] => (second, first),
        _ => return Err(AssocFault::BadPresentation),
    };
    mode_from_value(selector).ok_or(AssocFault::BadPresentation)?;
    normal_from_value(alloc, parameters)
}

/// Reads octets as a request for a connection (CP), and ignores other fields. Fails with
/// `BadPresentation` if they are none.
#[tactic(auto, unfolding(crate::specs::Presentation::cp))]
pub(crate) fn parse_connect_request(alloc: Global, octets: &[u8]) -> Result<Connect<'_>, AssocFault>
    ensures request { ExactOr AssocFault.OutOfMemory connect_view result
        (or_fault BadPresentation (request.reads octets.now)) }
    ensures memory { IsErrOf result AssocFault.OutOfMemory
        → IsSome (request_mode.reads octets.now) }
    ensures mode { IfOk result (λ r. IsSome (request_mode.reads octets.now)) }
{
    let content = parse_content_with_tag(octets, Tag::universal_constructed(17)).ok_or(
        AssocFault::BadPresentation,
    )?;
    let tags = [Tag::context_constructed(0), Tag::context_constructed(2)];
    let known = known_values(content, &tags).ok_or(AssocFault::BadPresentation)?;
    request_from_parts(alloc, known.as_slice())
}
