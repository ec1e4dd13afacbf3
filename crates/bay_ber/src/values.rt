// Reading consecutive values, and octets that are exactly one value.
ghost use Rattle.std.specs.Prelude.{◌≡◌, ◌+◌, ◌≤◌, [], ◌∷◌, ◌++◌, length, map, List, ℕ, IfSome, IfOk, IsSomeAnd, OnSome, IfNone, option_map};
ghost use Rattle.bay_ber.specs.Spelling.{Spells};
ghost use Rattle.bay_ber.specs.Values.{Part, part_of, NextValue, NextByFunction, value_in, few_in};
ghost use Rattle.bay_ber.specs.Values as spec;
ghost use Rattle.bay_ber.specs.declared.tag.Tag.{Tag};

use crate::content::int_of;
use crate::fault::BerFault;
use crate::tag::Tag;
use crate::tlv::read_tlv;
use std::marker::Model;

/// A value: its tag and the octets of its content.
#[derive(Clone, Copy, Debug, PartialEq, Eq)]
pub struct Value<'a> {
    /// The tag.
    pub tag: Tag,
    /// The octets of the content.
    pub content: &'a [u8],
}

impl<'a> Value<'a> {
    /// Returns the content if the value has this tag, and else `None`.
    pub fn content_with_tag(&self, tag: Tag) -> Option<&'a [u8]>
        ensures { option_map (λ content. content.now) result
            ≡ spec.content_with_tag tag (part_of self.now) }
    {
        if self.tag.is(tag) {
            Some(self.content)
        } else {
            None
        }
    }

    /// Returns the integer if the value has this tag and its content encodes one (X.690 8.3), and
    /// else `None`.
    #[tactic(auto, unfolding(crate::specs::Values::integer_under))]
    pub fn integer_with_tag(&self, tag: Tag) -> Option<i64>
        ensures { result ≡ spec.integer_under tag (part_of self.now) }
    {
        int_of(self.content_with_tag(tag)?).ok()
    }
}

/// Reads octets that are exactly one value (X.690 8.1). Returns `None` if they do not begin with a
/// value, or if octets follow it.
pub fn whole_value(octets: &[u8]) -> Option<Value<'_>>
    ensures some { IfSome result (λ value. Spells octets.now value.tag value.content.now) }
    ensures only { (tag : Tag) (content : List ℕ) → Spells octets.now tag content
        → IsSomeAnd result (λ value. part_of value ≡ record { tag = tag; content = content }) }
    ensures exact { option_map part_of result ≡ value_in octets.now }
{
    match read_tlv(octets) {
        Ok(tlv) => {
            if tlv.rest.is_empty() {
                Some(Value {
                    tag: tlv.tag,
                    content: tlv.content,
                })
            } else {
                None
            }
        }
        Err(_) => None,
    }
}

/// An iterator over consecutive values in octets (X.690 8.9.2, 8.10.2), which contracts view as the
/// octets not yet read.
#[derive(Drop)]
pub struct Values<'a> {
    rest: &'a [u8],
}

impl<'a> Model for Values<'a> {
    ghost use Rattle.std.specs.Prelude.{ℕ, List};

    ghost Value = { List ℕ };

    ghost view = { λ v. v.rest.now };
}

impl<'a> Values<'a> {
    /// Starts at the first of these octets.
    pub fn new(octets: &'a [u8]) -> Values<'a>
        ensures { result ≡ octets.now }
    {
        Values { rest: octets }
    }

    /// Reads the next value; returns `None` if no octet is left. Fails like `read_tlv` if no value
    /// comes next, and then does not advance.
    pub fn next_value(&mut self) -> Result<Option<Value<'a>>, BerFault>
        ensures next { NextValue self.old result self.new }
        ensures exact { NextByFunction self.old result self.new }
        ensures shorter { IfOk result
            (λ next. IfSome next (λ value. length value.content.now + length self.new + 2
            ≤ length self.old)) }
    {
        if self.rest.is_empty() {
            return Ok(None);
        }
        let tlv = read_tlv(self.rest)?;
        self.rest = tlv.rest;
        Ok(Some(Value {
            tag: tlv.tag,
            content: tlv.content,
        }))
    }
}

/// At most five values, which contracts view as a list of tags and contents.
#[derive(Drop)]
pub struct FewValues<'a> {
    values: [Value<'a>; 5],
    count: usize,
}

impl<'a> Model for FewValues<'a> {
    ghost use Rattle.std.specs.Prelude.{List, ◌≡◌, ◌≤◌, length, map, take};
    ghost use Rattle.bay_ber.specs.Values.{Part, part_of};

    ghost Value = { List Part };

    ghost view = { λ f. map part_of (take f.count f.values) };

    ghost invariant = { λ f. (f.count ≤ 5) × (length f.values ≡ 5) };
}

impl<'a> FewValues<'a> {
    /// Creates an empty list.
    pub fn new() -> FewValues<'a>
        ensures { result ≡ [] }
    {
        let value = Value {
            tag: Tag::universal(0),
            content: &[],
        };
        FewValues {
            values: [value; 5],
            count: 0,
        }
    }

    /// Appends a value. Returns `None` if there are already five, and then appends nothing.
    pub fn push(&mut self, value: Value<'a>) -> Option<()>
        ensures some { OnSome result
            ((self.new ≡ self.old ++ part_of value.entry ∷ []) × (length self.old + 1 ≤ 5)) }
        ensures none { IfNone result (5 ≤ length self.old) }
    {
        if self.count == 5 {
            return None;
        }
        self.values[self.count] = value;
        self.count += 1;
        Some(())
    }

    /// Returns the values.
    pub fn as_slice(&self) -> &[Value<'a>]
        ensures { map part_of result.now ≡ self.now }
    {
        &self.values[..self.count]
    }
}

/// Reads octets that are consecutive values (X.690 8.9.2). Returns `None` if they are not, or if
/// there are more than five values.
pub fn few_values(octets: &[u8]) -> Option<FewValues<'_>>
    ensures { result ≡ few_in octets.now }
{
    let mut few = FewValues::new();
    let mut values = Values::new(octets);
    loop {
        match values.next_value() {
            Ok(Some(value)) => few.push(value)?,
            Ok(None) => return Some(few),
            Err(_) => return None,
        }
    }
}
