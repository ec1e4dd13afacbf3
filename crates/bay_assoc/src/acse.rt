// Reads the APDUs of association control (ISO 8650-1 9).
ghost use Rattle.std.specs.Prelude.{◌≡◌, map, option_map};
ghost use Rattle.bay_ber.specs.Values.{part_of};
ghost use Rattle.bay_assoc.specs.Acse as spec;
ghost use Rattle.bay_assoc.specs.Acse.{application_context, information, associate_parts, associate, release};
ghost use Rattle.bay_assoc.specs.Views.{context_value_view};

use crate::presentation::{ContextValue, context_value_from_parts, parse_content_with_tag};
use bay_ber::known::known_values;
use bay_ber::tag::Tag;
use bay_ber::values::{Value, few_values};

// The application context of MMS, 1.0.9506.2.3.
const MMS_APPLICATION: &[u8] = &[0x28, 0xCA, 0x22, 0x02, 0x03];

// Returns the name of an application context if it is that of MMS.
fn application_from_name(name: &[u8]) -> Option<&[u8]>
    ensures { option_map (λ o. o.now) result ≡ spec.application_of name.now }
{
    if name == MMS_APPLICATION {
        Some(name)
    } else {
        None
    }
}

// Reads the application context, which must be that of MMS.
#[tactic(auto, unfolding(crate::specs::Acse::application_context))]
fn application_from_value<'a>(value: &Value<'a>) -> Option<&'a [u8]>
    ensures { option_map (λ o. o.now) result ≡ application_context.reads (part_of value.now) }
{
    let name = value.content_with_tag(Tag::context_constructed(1))?;
    application_from_name(parse_content_with_tag(name, Tag::universal(6))?)
}

// Reads the user information, which must be one EXTERNAL.
#[tactic(auto, unfolding(crate::specs::Acse::information))]
fn information_from_value<'a>(value: &Value<'a>) -> Option<ContextValue<'a>>
    ensures { option_map context_value_view result ≡ information.reads (part_of value.now) }
{
    let external = value.content_with_tag(Tag::context_constructed(30))?;
    let parts = few_values(parse_content_with_tag(external, Tag::universal_constructed(8))?)?;
    context_value_from_parts(parts.as_slice())
}

// Reads the two parts of a request for an association, its application context and its user
// information, and returns the latter.
#[tactic(auto, unfolding(crate::specs::Acse::associate_parts))]
fn associate_from_parts<'a>(parts: &[Value<'a>]) -> Option<ContextValue<'a>>
    ensures { option_map context_value_view result ≡ associate_parts.reads (map part_of parts.now) }
{
    match parts {
        [name, information] => {
            application_from_value(name)?;
            information_from_value(information)
        }
        _ => None,
    }
}

/// Reads octets as a request for an association (AARQ), and returns its user information; `None` if
/// they are none.
#[tactic(auto, unfolding(crate::specs::Acse::associate))]
pub(crate) fn parse_aarq(octets: &[u8]) -> Option<ContextValue<'_>>
    ensures { option_map context_value_view result ≡ associate.reads octets.now }
{
    let content = parse_content_with_tag(octets, Tag::application_constructed(0))?;
    let tags = [Tag::context_constructed(1), Tag::context_constructed(30)];
    let known = known_values(content, &tags)?;
    associate_from_parts(known.as_slice())
}

/// Reads octets as a request for a release (RLRQ), and returns its content; `None` if they are
/// none.
#[tactic(auto, unfolding(crate::specs::Acse::release))]
pub(crate) fn parse_rlrq(octets: &[u8]) -> Option<&[u8]>
    ensures { option_map (λ o. o.now) result ≡ release.reads octets.now }
{
    parse_content_with_tag(octets, Tag::application_constructed(2))
}
