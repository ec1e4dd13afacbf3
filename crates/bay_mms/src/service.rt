// Reading the requested service (ISO 9506-2, ConfirmedServiceRequest).
ghost use Rattle.std.specs.Prelude.{◌≡◌, false, [], ◌∷◌, IsSome, IsErrOf, map, option_map};
ghost use Rattle.bay_base.specs.Exact.{ExactOr};
ghost use Rattle.bay_ber.specs.Forms.{form_result, map_form, try_map_form, empty, one, whole, tagged};
ghost use Rattle.bay_ber.specs.Tags.{constructed};
ghost use Rattle.bay_ber.specs.Values.{part_of};
ghost use Rattle.bay_mms.specs.RequestResults.{has_no_variables, needs_list};
ghost use Rattle.bay_mms.specs.Requests as requested;
ghost use Rattle.bay_mms.specs.Grammar.{access, scope, class_part, scope_part, names_from_parts, get_name_list_parts, attributes_request, read_service, read_parts, write_service, write_parts, service_request};
ghost use Rattle.bay_mms.specs.Grammar as spec;
ghost use Rattle.bay_mms.specs.RequestViews.{scope_view, call_view};

use crate::access::{names_from_value, parse_name};
use crate::data_parser::read_data;
use crate::fault::Refusal;
use crate::request::{Call, Scope};
use bay_ber::tag::{Class, Tag};
use bay_ber::values::{Value, few_values, whole_value};
use std::alloc::Global;

// The deepest nesting of data.
const DEPTH_MAX: u8 = 10;

// Returns the one value inside a value with this tag.
fn inner_value<'a>(tag: Tag, value: &Value<'a>) -> Option<Value<'a>>
    ensures { option_map part_of result ≡ (tagged tag (one whole)).reads (part_of value.now) }
{
    whole_value(value.content_with_tag(tag)?)
}

// Reads the scope of names, by its tag: the device (VMD), a domain, or the association.
#[tactic(auto, unfolding(crate::specs::Grammar::scope))]
fn scope_from_value<'a>(value: &Value<'a>) -> Option<Scope<'a>>
    ensures { option_map scope_view result ≡ scope.reads (part_of value.now) }
{
    if value.tag.is(Tag::context(0)) {
        if value.content.is_empty() {
            Some(Scope::Vmd)
        } else {
            None
        }
    } else if value.tag.is(Tag::context(1)) {
        Some(Scope::Domain(value.content))
    } else if value.tag.is(Tag::context(2)) {
        if value.content.is_empty() {
            Some(Scope::Association)
        } else {
            None
        }
    } else {
        None
    }
}

// Reads the number of the class of objects whose names are requested.
#[tactic(auto, unfolding(crate::specs::Grammar::class_part, bay_ber::specs::Values::integer_under))]
fn class_from_part(value: &Value<'_>) -> Option<i64>
    ensures { result ≡ class_part.reads (part_of value.now) }
{
    let class = inner_value(Tag::context_constructed(0), value)?;
    class.integer_with_tag(Tag::context(0))
}

// Reads the scope of names, inside its outer tag.
#[tactic(auto, unfolding(crate::specs::Grammar::scope_part))]
fn scope_from_part<'a>(value: &Value<'a>) -> Option<Scope<'a>>
    ensures { option_map scope_view result ≡ scope_part.reads (part_of value.now) }
{
    let scope = inner_value(Tag::context_constructed(1), value)?;
    scope_from_value(&scope)
}

// Reads the parts of a request for names (ISO 9506-2, GetNameList).
#[tactic(auto, unfolding(crate::specs::Grammar::get_name_list_parts))]
fn name_list_from_parts<'a>(parts: &[Value<'a>]) -> Option<Call<'a>>
    ensures { option_map call_view result
        ≡ option_map names_from_parts (get_name_list_parts.reads (map part_of parts.now)) }
{
    let (class, scope, after) = match parts {
        [class, scope] => (class, scope, None),
        [class, scope, after] => (class, scope, Some(after.content_with_tag(Tag::context(2))?)),
        _ => return None,
    };
    let class = class_from_part(class)?;
    let scope = scope_from_part(scope)?;
    Some(Call::Names {
        class,
        scope,
        after,
    })
}

// Reads the name of the variable whose type is requested (ISO 9506-2, GetVariableAccessAttributes).
#[tactic(auto, unfolding(crate::specs::Grammar::attributes_request))]
fn attributes_from_value<'a>(value: &Value<'a>) -> Result<Call<'a>, Refusal>
    ensures requested { ExactOr Refusal.OutOfMemory call_view result
        (form_result Refusal.Bad attributes_request (part_of value.now)) }
    ensures memory { IsErrOf result Refusal.OutOfMemory → ⊥ }
{
    match parse_name(value.content) {
        Some(name) if value.tag.is(Tag::context_constructed(0)) => Ok(Call::Attributes(name)),
        Some(_) if value.tag.is(Tag::context_constructed(1)) => Err(Refusal::Unknown),
        _ => Err(Refusal::Bad),
    }
}

// Reads the access specification of a read.
#[tactic(auto, unfolding(crate::specs::Grammar::read_service))]
fn read_from_value<'a>(alloc: Global, value: &Value<'a>) -> Result<Call<'a>, Refusal>
    ensures requested { ExactOr Refusal.OutOfMemory call_view result
        (form_result Refusal.Bad (map_form read_service (tagged (constructed 1) (one access)))
        (part_of value.now)) }
    ensures memory { IsErrOf result Refusal.OutOfMemory
        → has_no_variables (form_result Refusal.Bad
        (map_form read_service (tagged (constructed 1) (one access)))
        (part_of value.now)) ≡ false }
{
    let spec = inner_value(Tag::context_constructed(1), value).ok_or(Refusal::Bad)?;
    let names = names_from_value(alloc, None, &spec)?;
    Ok(Call::Read(names))
}

// Reads the parts of a read.
#[tactic(auto, unfolding(crate::specs::Grammar::read_parts))]
fn read_from_parts<'a>(alloc: Global, parts: &[Value<'a>]) -> Result<Call<'a>, Refusal>
    ensures requested { ExactOr Refusal.OutOfMemory call_view result
        (form_result Refusal.Bad (map_form (λ x. read_service x.1.0) read_parts)
        (map part_of parts.now)) }
    ensures memory { IsErrOf result Refusal.OutOfMemory
        → has_no_variables (form_result Refusal.Bad (map_form (λ x. read_service x.1.0) read_parts)
        (map part_of parts.now)) ≡ false }
{
    match parts {
        [spec] => read_from_value(alloc, spec),
        [flag, spec] if flag.tag.is(Tag::context(0)) => read_from_value(alloc, spec),
        _ => Err(Refusal::Bad),
    }
}

// Reads the access specification of a write, and its data, one for each variable.
#[tactic(auto, unfolding(crate::specs::Grammar::write_parts, crate::specs::Grammar::write_service))]
fn write_from_values<'a>(
    alloc: Global,
    spec: &Value<'a>,
    list: &Value<'a>,
) -> Result<Call<'a>, Refusal>
    ensures requested { ExactOr Refusal.OutOfMemory call_view result (form_result Refusal.Bad
        (map_form write_service write_parts) (part_of spec.now ∷ part_of list.now ∷ [])) }
    ensures memory { IsErrOf result Refusal.OutOfMemory → has_no_variables (form_result Refusal.Bad
        (map_form write_service write_parts) (part_of spec.now ∷ part_of list.now ∷ [])) ≡ false }
{
    let octets = list
        .content_with_tag(Tag::context_constructed(0))
        .ok_or(Refusal::Bad)?;
    let values = read_data(alloc, octets, DEPTH_MAX)?;
    let names = names_from_value(alloc, Some(values.len()), spec)?;
    Ok(Call::Write { names, values })
}

// Reads the parts of a write.
#[tactic(auto, unfolding(crate::specs::Grammar::write_parts))]
fn write_from_parts<'a>(alloc: Global, parts: &[Value<'a>]) -> Result<Call<'a>, Refusal>
    ensures requested { ExactOr Refusal.OutOfMemory call_view result
        (form_result Refusal.Bad (map_form write_service write_parts) (map part_of parts.now)) }
    ensures memory { IsErrOf result Refusal.OutOfMemory
        → has_no_variables (form_result Refusal.Bad (map_form write_service write_parts)
        (map part_of parts.now))
        ≡ false }
{
    match parts {
        [spec, list] => write_from_values(alloc, spec, list),
        _ => Err(Refusal::Bad),
    }
}

// Returns whether this is the tag of a service other than those that are read here.
fn is_unlisted(tag: Tag) -> bool
    ensures { result ≡ spec.is_unlisted tag }
{
    match tag.class {
        Class::ContextSpecific => !matches!(tag.number, 1 | 2 | 4 | 5 | 6),
        Class::Universal | Class::Application | Class::Private => false,
    }
}

// Refuses a value that is none of the services read here: as `Unknown` if it has the tag of another
// service, and else as `Bad`.
fn other_from_value<'a>(value: &Value<'a>) -> Result<Call<'a>, Refusal>
    ensures requested { ExactOr Refusal.OutOfMemory call_view result
        (form_result Refusal.Bad (try_map_form spec.refuse_unlisted whole) (part_of value.now)) }
    ensures memory { IsErrOf result Refusal.OutOfMemory → ⊥ }
{
    if is_unlisted(value.tag) {
        Err(Refusal::Unknown)
    } else {
        Err(Refusal::Bad)
    }
}

// Reads an identify, which has no content.
fn parse_identify(content: &[u8]) -> Option<Call<'_>>
    ensures { option_map call_view result
        ≡ (map_form (λ x. requested.identify) empty).reads content.now }
{
    if content.is_empty() {
        Some(Call::Identify)
    } else {
        None
    }
}

// Reads the content of a request for names.
#[tactic(auto, unfolding(crate::specs::Grammar::get_name_list))]
fn parse_get_name_list(content: &[u8]) -> Option<Call<'_>>
    ensures { option_map call_view result ≡ spec.get_name_list.reads content.now }
{
    let parts = few_values(content)?;
    name_list_from_parts(parts.as_slice())
}

/// Reads the service that a value requests. Allocates only for a read or a write, and not for one
/// of no variables.
#[tactic(auto, unfolding(crate::specs::Grammar::service_request))]
pub(crate) fn service_from_value<'a>(alloc: Global, value: &Value<'a>) -> Result<Call<'a>, Refusal>
    ensures requested { ExactOr Refusal.OutOfMemory call_view result
        (form_result Refusal.Bad service_request (part_of value.now)) }
    ensures memory { IsErrOf result Refusal.OutOfMemory → IsSome (needs_list (part_of value.now)) }
{
    if value.tag.is(Tag::context_constructed(1)) {
        parse_get_name_list(value.content).ok_or(Refusal::Bad)
    } else if value.tag.is(Tag::context(2)) {
        parse_identify(value.content).ok_or(Refusal::Bad)
    } else if value.tag.is(Tag::context_constructed(4)) {
        let parts = few_values(value.content).ok_or(Refusal::Bad)?;
        read_from_parts(alloc, parts.as_slice())
    } else if value.tag.is(Tag::context_constructed(5)) {
        let parts = few_values(value.content).ok_or(Refusal::Bad)?;
        write_from_parts(alloc, parts.as_slice())
    } else if value.tag.is(Tag::context_constructed(6)) {
        let spec = whole_value(value.content).ok_or(Refusal::Bad)?;
        attributes_from_value(&spec)
    } else {
        other_from_value(value)
    }
}
