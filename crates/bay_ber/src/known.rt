// Selecting the values with known tags from consecutive values.
ghost use Rattle.std.specs.Prelude.{◌≡◌, ◌≤◌, true, length, OnSome, IfNone};
ghost use Rattle.bay_ber.specs.Values.{part_of, append_if_tagged, values_with_tags};
ghost use Rattle.bay_ber.specs.Values as spec;

use crate::tag::Tag;
use crate::values::{FewValues, Value, Values};

// Returns whether a value has one of these tags.
fn has_tag_among(value: &Value<'_>, tags: &[Tag]) -> bool
    ensures { result ≡ spec.has_tag_among tags.now (part_of value.now) }
{
    tags.iter().any(|tag| value.tag.is(*tag))
}

// Appends a value to the known ones, if it has one of these tags. Returns `None` if there are
// already five.
fn add_known<'a>(known: &mut FewValues<'a>, value: Value<'a>, tags: &[Tag]) -> Option<()>
    requires { length known.old ≤ 5 }
    ensures some { OnSome result
        ((known.new ≡ append_if_tagged tags.now known.old (part_of value.entry))
        × (length known.new ≤ 5)) }
    ensures none { IfNone result
        ((spec.has_tag_among tags.now (part_of value.entry) ≡ true) × (5 ≤ length known.old)) }
{
    if has_tag_among(&value, tags) {
        known.push(value)?;
    }
    Some(())
}

/// Returns those of the consecutive values in the octets whose tags are in `tags`, in order. The
/// other values may have any tags (X.690 8.11). Returns `None` if the octets are not consecutive
/// values, or if more than five values have one of the tags.
pub fn known_values<'a>(octets: &'a [u8], tags: &[Tag]) -> Option<FewValues<'a>>
    ensures { result ≡ values_with_tags tags.now octets.now }
{
    let mut known = FewValues::new();
    let mut values = Values::new(octets);
    loop {
        match values.next_value() {
            Ok(Some(value)) => {
                match add_known(&mut known, value, tags) {
                    Some(()) => {}
                    None => return None,
                }
            }
            Ok(None) => return Some(known),
            Err(_) => return None,
        }
    }
}
