// Reading data (ISO 9506-2, Data).
ghost use Rattle.std.specs.Prelude.{◌≡◌, ◌<◌, [], option_map, length, Some, None, IfSome, IfNone, IsErrOf};
ghost use Rattle.bay_base.specs.Exact.{ExactOr};
ghost use Rattle.bay_ber.specs.Forms.{each};
ghost use Rattle.bay_ber.specs.Judged.{or_fault};
ghost use Rattle.bay_ber.specs.Values.{part_of};
ghost use Rattle.bay_mms.specs.Views.{datum_of, data_in};
ghost use Rattle.bay_mms.specs.Grammar.{moment, string, simple, datum_at};

use crate::data::{Data, push_data};
use crate::fault::Refusal;
use bay_ber::content::{bits_of, bool_of, int_of};
use bay_ber::tag::Tag;
use bay_ber::values::{Value, Values};
use std::alloc::Global;

// Returns the octets as an array, if there are eight.
fn eight_octets(octets: &[u8]) -> Option<[u8; 8]>
    ensures some { IfSome result (λ found. found ≡ octets.now) }
    ensures none { IfNone result (length octets.now ≡ 8 → ⊥) }
{
    if octets.len() != 8 {
        return None;
    }
    let mut found = [0; 8];
    found.copy_from_slice(octets);
    Some(found)
}

// Reads a utc-time; if it has not eight octets, returns it as data of another kind.
fn moment_of<'a>(content: &'a [u8]) -> Data<'a>
    ensures { datum_of result ≡ moment content.now }
{
    match eight_octets(content) {
        Some(octets) => Data::Utc(octets),
        None => Data::Other(Value {
            tag: Tag::context(17),
            content,
        }),
    }
}

// Reads data whose content needs no decoding.
#[tactic(auto, unfolding(crate::specs::Grammar::string))]
fn string_from_value<'a>(value: &Value<'a>) -> Data<'a>
    ensures { string.reads (part_of value.now) ≡ Some (datum_of result) }
{
    if value.tag.is(Tag::context(9)) {
        Data::Octets(value.content)
    } else if value.tag.is(Tag::context(10)) {
        Data::Text(value.content)
    } else if value.tag.is(Tag::context(17)) {
        moment_of(value.content)
    } else {
        Data::Other(*value)
    }
}

// Reads data that is no structure.
#[tactic(auto, unfolding(crate::specs::Grammar::simple))]
fn simple_from_value<'a>(value: &Value<'a>) -> Option<Data<'a>>
    ensures { option_map datum_of result ≡ simple.reads (part_of value.now) }
{
    if value.tag.is(Tag::context(3)) {
        let truth = bool_of(value.content).ok()?;
        Some(Data::Truth(truth))
    } else if value.tag.is(Tag::context(4)) {
        let bits = bits_of(value.content).ok()?;
        Some(Data::Bits(bits))
    } else if value.tag.is(Tag::context(5)) {
        let number = int_of(value.content).ok()?;
        Some(Data::Integer(number))
    } else if value.tag.is(Tag::context(6)) {
        let number = int_of(value.content).ok()?;
        Some(Data::Unsigned(number))
    } else {
        Some(string_from_value(value))
    }
}

// Reads data nested at most `depth` deep.
#[cycle(received)]
fn read_datum<'a>(alloc: Global, value: &Value<'a>, depth: u8) -> Result<Data<'a>, Refusal>
    ensures { ExactOr Refusal.OutOfMemory datum_of result
        (or_fault Refusal.Bad ((datum_at depth).reads (part_of value.now))) }
{
    if depth == 0 {
        return Err(Refusal::Bad);
    }
    if value.tag.is(Tag::context_constructed(2)) {
        let parts = read_data(alloc, value.content, depth - 1)?;
        Ok(Data::Structure(parts))
    } else {
        simple_from_value(value).ok_or(Refusal::Bad)
    }
}

/// Reads octets as consecutive data, each nested at most `depth` deep.
#[cycle(received)]
pub(crate) fn read_data<'a>(
    alloc: Global,
    octets: &'a [u8],
    depth: u8,
) -> Result<Vec<Data<'a>>, Refusal>
    ensures requested { ExactOr Refusal.OutOfMemory (λ v. data_in v.items) result
        (or_fault Refusal.Bad ((each (datum_at depth)).reads octets.now)) }
    ensures memory { IsErrOf result Refusal.OutOfMemory
        → (each (datum_at depth)).reads octets.now ≡ Some [] → ⊥ }
{
    let mut parts = Vec::new(alloc);
    let mut values = Values::new(octets);
    loop {
        match values.next_value() {
            Ok(Some(value)) => {
                let part = read_datum(alloc, &value, depth)?;
                push_data(&mut parts, part)?;
            }
            Ok(None) => return Ok(parts),
            Err(_) => return Err(Refusal::Bad),
        }
    }
}
