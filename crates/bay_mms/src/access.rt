// Reading the names and the variables of requests (ISO 9506-2, ObjectName and
// VariableAccessSpecification).
ghost use Rattle.std.specs.Prelude.{◌≡◌, false, [], ◌∷◌, ◌++◌, map, option_map, IsErrOf, OnOk};
ghost use Rattle.bay_base.specs.Exact.{ExactOr};
ghost use Rattle.bay_base.specs.Results.{Exact};
ghost use Rattle.bay_ber.specs.Forms.{form_result, map_form, one, each};
ghost use Rattle.bay_ber.specs.Values.{part_of};
ghost use Rattle.bay_mms.specs.RequestResults.{has_no_names};
ghost use Rattle.bay_mms.specs.Grammar as spec;
ghost use Rattle.bay_mms.specs.Grammar.{domain_parts, name, specification_from_parts, variable_parts, variable, access, requested_names};
ghost use Rattle.bay_mms.specs.Requests.{domain, variables};
ghost use Rattle.bay_mms.specs.RequestViews.{object_name_view, variable_view as view};

use crate::fault::Refusal;
use crate::request::ObjectName;
use bay_ber::tag::Tag;
use bay_ber::values::{Value, Values, few_values, whole_value};
use std::alloc::{AllocError, Global};

// The most variables of a request.
const VARIABLES_MAX: usize = 32;

/// A named variable, and whether only a part of it is requested, by alternate access.
#[derive(Clone, Copy)]
pub struct VariableSpecification<'a> {
    pub name: ObjectName<'a>,
    pub is_alternate: bool,
}

// Reads the two parts of a name of an item in a domain.
#[tactic(auto, unfolding(crate::specs::Grammar::domain_parts))]
fn domain_name<'a>(parts: &[Value<'a>]) -> Option<ObjectName<'a>>
    ensures { option_map object_name_view result
        ≡ option_map (λ x. domain x.0 x.1.0) (domain_parts.reads (map part_of parts.now)) }
{
    match parts {
        [domain, item] => {
            let domain = domain.content_with_tag(Tag::universal(26))?;
            let item = item.content_with_tag(Tag::universal(26))?;
            Some(ObjectName::Domain { domain, item })
        }
        _ => None,
    }
}

// Reads a value as a name.
#[tactic(auto, unfolding(crate::specs::Grammar::name))]
fn name_from_value<'a>(value: &Value<'a>) -> Option<ObjectName<'a>>
    ensures { option_map object_name_view result ≡ name.reads (part_of value.now) }
{
    if value.tag.is(Tag::context(0)) {
        Some(ObjectName::Vmd(value.content))
    } else if value.tag.is(Tag::context_constructed(1)) {
        let parts = few_values(value.content)?;
        domain_name(parts.as_slice())
    } else if value.tag.is(Tag::context(2)) {
        Some(ObjectName::Association(value.content))
    } else {
        None
    }
}

/// Reads octets as a name.
pub(crate) fn parse_name(octets: &[u8]) -> Option<ObjectName<'_>>
    ensures { option_map object_name_view result ≡ (one name).reads octets.now }
{
    let value = whole_value(octets)?;
    name_from_value(&value)
}

// Reads the parts of a variable: its name, and an alternate access, which is optional.
#[tactic(auto, unfolding(crate::specs::Grammar::variable_parts))]
fn variable_from_parts<'a>(parts: &[Value<'a>]) -> Option<VariableSpecification<'a>>
    ensures { option_map view result
        ≡ option_map specification_from_parts (variable_parts.reads (map part_of parts.now)) }
{
    let (name, is_alternate) = match parts {
        [name] => (name, false),
        [name, access] => {
            access.content_with_tag(Tag::context_constructed(5))?;
            (name, true)
        }
        _ => return None,
    };
    let name = parse_name(name.content_with_tag(Tag::context_constructed(0))?)?;
    Some(VariableSpecification { name, is_alternate })
}

// Reads a value as a variable of a list.
#[tactic(auto, unfolding(crate::specs::Grammar::variable))]
fn variable_from_value<'a>(value: &Value<'a>) -> Option<VariableSpecification<'a>>
    ensures { option_map view result ≡ variable.reads (part_of value.now) }
{
    let parts = few_values(value.content_with_tag(Tag::sequence())?)?;
    variable_from_parts(parts.as_slice())
}

// Appends a name; with the first one, allocates room for the most names that are served.
fn push_name<'a>(names: &mut Vec<ObjectName<'a>>, name: ObjectName<'a>) -> Result<(), AllocError>
    ensures { OnOk result (map object_name_view names.new.items
        ≡ map object_name_view names.old.items ++ object_name_view name.entry ∷ []) }
{
    if names.is_empty() {
        names.reserve(VARIABLES_MAX)?;
    }
    names.push(name)?;
    Ok(())
}

// Returns whether a number is the given count; true if no count is given.
fn has_count(count: Option<usize>, number: usize) -> bool
    ensures { result ≡ spec.has_count count number }
{
    match count {
        None => true,
        Some(count) => number == count,
    }
}

// Returns the names if the request is served. Fails with `Bad` if there are not `count` names, if a
// count is given; with `Unknown` if only a part of a variable is requested; with `Many` if there
// are more than the limit.
#[tactic(auto, using(crate::proofs::RequestLemmas::counted_is))]
fn check_variables<'a>(
    count: Option<usize>,
    names: Vec<ObjectName<'a>>,
    is_alternate: bool,
) -> Result<Vec<ObjectName<'a>>, Refusal>
    ensures { Exact (λ v. map object_name_view v.items) result
        (spec.counted_names count (map object_name_view names.entry.items) is_alternate) }
{
    if !has_count(count, names.len()) {
        Err(Refusal::Bad)
    } else if is_alternate {
        Err(Refusal::Unknown)
    } else if names.len() > VARIABLES_MAX {
        Err(Refusal::Many)
    } else {
        Ok(names)
    }
}

// Reads consecutive variables, and returns their names.
fn parse_variables<'a>(
    alloc: Global,
    count: Option<usize>,
    octets: &'a [u8],
) -> Result<Vec<ObjectName<'a>>, Refusal>
    ensures requested { ExactOr Refusal.OutOfMemory (λ v. map object_name_view v.items) result
        (form_result Refusal.Bad
        (map_form (λ vs. requested_names count (variables vs)) (each variable))
        octets.now) }
    ensures memory { IsErrOf result Refusal.OutOfMemory
        → has_no_names (form_result Refusal.Bad
        (map_form (λ vs. requested_names count (variables vs)) (each variable)) octets.now)
        ≡ false }
{
    let mut names = Vec::new(alloc);
    let mut is_alternate = false;
    let mut values = Values::new(octets);
    loop {
        match values.next_value() {
            Ok(Some(value)) => {
                let Some(one) = variable_from_value(&value) else {
                    return Err(Refusal::Bad);
                };
                is_alternate |= one.is_alternate;
                push_name(&mut names, one.name)?;
            }
            Ok(None) => return check_variables(count, names, is_alternate),
            Err(_) => return Err(Refusal::Bad),
        }
    }
}

/// Reads the names of the variables of an access specification. There must be `count` of them if
/// `count` is given. Does not allocate for no variables.
#[tactic(auto, unfolding(crate::specs::Grammar::access))]
pub(crate) fn names_from_value<'a>(
    alloc: Global,
    count: Option<usize>,
    value: &Value<'a>,
) -> Result<Vec<ObjectName<'a>>, Refusal>
    ensures requested { ExactOr Refusal.OutOfMemory (λ v. map object_name_view v.items) result
        (form_result Refusal.Bad (map_form (requested_names count) access) (part_of value.now)) }
    ensures memory { IsErrOf result Refusal.OutOfMemory
        → has_no_names (form_result Refusal.Bad (map_form (requested_names count) access)
        (part_of value.now))
        ≡ false }
{
    if value.tag.is(Tag::context_constructed(0)) {
        parse_variables(alloc, count, value.content)
    } else if value.tag.is(Tag::context_constructed(1)) {
        match parse_name(value.content) {
            Some(_) => Err(Refusal::Unknown),
            None => Err(Refusal::Bad),
        }
    } else {
        Err(Refusal::Bad)
    }
}
