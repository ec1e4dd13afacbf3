// A writer of the canonical encoding, into a buffer that is allocated once.
ghost use Rattle.std.specs.Prelude.{◌≡◌, ◌+◌, ◌*◌, ◌<◌, ◌≤◌, ◌++◌, ◌∷◌, [], length, take, drop, false, Some, is_none, vec_len, vec_capacity, pos, IfOk, IfSome, OnOk};
ghost use Rattle.std.specs.Option.{option_map};
ghost use Rattle.bay_ber.specs.Spelling.{octet_of};
ghost use Rattle.bay_ber.specs.Writing.{length_octets, element, truth_octets, integer_octets, bit_string_octets};
ghost use Rattle.bay_ber.specs.Writing as spec;
ghost use Rattle.bay_ber.specs.EncoderBuffers.{empty_buffer, buffer_with, close_value, message, value_around, IsTextEnd, IsOpen};

use crate::content::Bits;
use crate::outgoing::Outgoing;
use crate::tag::Tag;
use std::alloc::{AllocError, Global};
use std::marker::Model;

/// The number of octets reserved for headers before the text.
pub const HEADROOM: usize = 64;

/// Returns how many octets a length from 128 to 2^32 - 1 needs after its first octet (X.690
/// 8.1.3.5).
pub fn octets_needed(length: usize) -> usize
    ensures needed { result ≡ spec.octets_needed length }
    ensures some { 1 ≤ result }
    ensures few { result ≤ 4 }
{
    match length {
        0..=0xFF => 1,
        0x100..=0xFFFF => 2,
        0x1_0000..=0xFF_FFFF => 3,
        _ => 4,
    }
}

// Appends octets that fit into the capacity.
fn extend(octets: &mut Vec<u8>, more: &[u8])
    requires { length octets.old.items + length more.now ≤ vec_capacity octets.old }
    ensures items { octets.new.items ≡ octets.old.items ++ more.now }
    ensures capacity { vec_capacity octets.old ≤ vec_capacity octets.new }
{
    match octets.extend_from_slice(more) {
        Ok(()) => {}
        Err(_) => unreachable!(),
    }
}

// Overwrites the octets from an index on.
fn overwrite(octets: &mut Vec<u8>, place: usize, more: &[u8])
    requires { place + length more.now ≤ length octets.old.items }
    ensures items { octets.new.items ≡ take place octets.old.items
        ++ (more.now ++ drop (place + length more.now) octets.old.items) }
    ensures capacity { vec_capacity octets.old ≤ vec_capacity octets.new }
{
    octets[place..place + more.len()].copy_from_slice(more);
}

// Inserts octets that fit into the capacity at an index. A function of its own, so that `close`
// saves no registers if a length takes one octet.
#[inline(never)]
fn insert(octets: &mut Vec<u8>, place: usize, more: &[u8])
    requires place { place ≤ length octets.old.items }
    requires room { length octets.old.items + length more.now ≤ vec_capacity octets.old }
    ensures items { octets.new.items
        ≡ take place octets.old.items ++ (more.now ++ drop place octets.old.items) }
    ensures capacity { vec_capacity octets.old ≤ vec_capacity octets.new }
{
    let end = octets.len();
    extend(octets, more);
    octets.copy_within(place..end, place + more.len());
    overwrite(octets, place, more);
}

// Returns how many octets the shortest length has after its first.
#[tactic(auto, unfolding(crate::specs::Writing::length_octets))]
fn octets_more(count: u32) -> usize
    ensures more { result + 1 ≡ length (length_octets count) }
    ensures few { result ≤ 4 }
{
    match count {
        0..=0x7F => 0,
        _ => octets_needed(count as usize),
    }
}

// Replaces the octet at an index by the shortest encoding of a length, which fits into the
// capacity.
#[tactic(auto, unfolding(crate::specs::Writing::length_octets))]
fn write_length(octets: &mut Vec<u8>, place: usize, size: u32)
    requires place { place < length octets.old.items }
    requires room { length octets.old.items + length (length_octets size)
        ≤ vec_capacity octets.old + 1 }
    ensures items { octets.new.items
        ≡ take place octets.old.items
        ++ (length_octets size ++ drop (place + 1) octets.old.items) }
    ensures capacity { vec_capacity octets.old ≤ vec_capacity octets.new }
{
    if size < 0x80 {
        octets[place] = size as u8;
        return;
    }
    let needed = octets_needed(size as usize);
    octets[place] = 0x80 + needed as u8;
    insert(octets, place + 1, &size.to_be_bytes()[4 - needed..]);
}

// Returns whether the first of two octets only repeats the sign of the second.
fn is_needless(first: u8, second: u8) -> bool
    ensures { result ≡ spec.is_needless first second }
{
    if second < 0x80 {
        first == 0x00
    } else {
        first == 0xFF
    }
}

// Returns the octets without needless leading ones.
fn without_needless(octets: &[u8]) -> &[u8]
    requires { 0 < length octets.now }
    ensures octets { result.now ≡ spec.without_needless octets.now }
    ensures few { length result.now ≤ length octets.now }
{
    let last = octets.len() - 1;
    for start in 0..last {
        if !is_needless(octets[start], octets[start + 1]) {
            return &octets[start..];
        }
    }
    &octets[last..]
}

// Returns the number if it is 0 to 127.
fn small_of(value: i64) -> Option<u8>
    ensures { IfSome result (λ small. (value ≡ pos small) × (small < 128)) }
{
    if value >= 0 && value < 128 {
        Some(value as u8)
    } else {
        None
    }
}

/// Returns the number of octets in the content of an integer.
pub fn integer_length(value: i64) -> usize
    ensures value { result ≡ length (integer_octets value) }
    ensures few { result ≤ 8 }
{
    without_needless(&value.to_be_bytes()).len()
}

/// Returns the number of octets of an encoded value whose content has `count` octets, with a tag of
/// one octet.
pub fn element_length(count: u32) -> u64
    ensures { result ≡ spec.element_length count }
{
    let header = if count < 0x80 {
        2
    } else {
        2 + octets_needed(count as usize) as u64
    };
    u64::from(count) + header
}

// Appends the shortest encoding of a length.
#[tactic(auto, unfolding(crate::specs::Writing::length_octets))]
fn push_length(octets: &mut Vec<u8>, count: usize) -> Result<(), AllocError>
    ensures { OnOk result (octets.new.items ≡ octets.old.items ++ length_octets count) }
{
    if count < 0x80 {
        octets.push(count as u8)?;
        return Ok(());
    }
    let needed = octets_needed(count);
    octets.push(0x80 + needed as u8)?;
    octets.extend_from_slice(&count.to_be_bytes()[8 - needed..])
}

/// Appends a value with this content to a vector, which grows. Fails only if an allocation fails.
#[tactic(auto, unfolding(crate::specs::Writing::element))]
pub fn push_value(octets: &mut Vec<u8>, tag: Tag, content: &[u8]) -> Result<(), AllocError>
    requires { tag.number < 31 }
    ensures { OnOk result (octets.new.items ≡ octets.old.items ++ element tag content.now) }
{
    octets.push(tag.octet())?;
    push_length(octets, content.len())?;
    octets.extend_from_slice(content)
}

/// A writer of a text, with headers before it, which contracts view as an `EncoderBuffer`.
/// Allocates once, when it is created. If the text gets longer than the limit, the writer drops it
/// and stays over the limit until it is cleared.
#[derive(Drop)]
pub struct Writer {
    // The headroom, with the headers at its end, followed by the text.
    octets: Vec<u8>,
    // The index of the first octet of the headers.
    first: usize,
    limit: usize,
    over: bool,
}

impl Model for Writer {
    ghost use Rattle.std.specs.Prelude.{length, vec_capacity};
    ghost use Rattle.bay_ber.specs.EncoderBuffers.{EncoderBuffer, IsSound, encoder_buffer_of};

    ghost Value = { EncoderBuffer };

    ghost view = { λ w. encoder_buffer_of w.limit w.first w.over w.octets.items };

    ghost invariant = { λ w. IsSound (length w.octets.items) (vec_capacity w.octets) w.first w.limit };
}

impl Writer {
    /// Creates a writer for a text of at most `limit` octets. Allocates the whole buffer; fails
    /// only if the allocation fails.
    pub fn new(alloc: Global, limit: u32) -> Result<Self, AllocError>
        ensures { IfOk result (λ writer. writer ≡ empty_buffer limit) }
    {
        let limit = limit as usize;
        let mut octets = Vec::with_capacity(alloc, HEADROOM + limit)?;
        extend(&mut octets, &[0; HEADROOM]);
        Ok(Writer {
            octets,
            first: HEADROOM,
            limit,
            over: false,
        })
    }

    /// Resets the writer to an empty text without headers.
    pub fn clear(&mut self)
        ensures { self.new ≡ empty_buffer self.old.limit }
    {
        self.octets.truncate(HEADROOM);
        self.first = HEADROOM;
        self.over = false;
    }

    /// Appends octets to the text.
    pub fn append(&mut self, octets: &[u8])
        ensures { self.new ≡ buffer_with self.old octets.now }
    {
        if self.over {
            return;
        }
        if HEADROOM + self.limit - self.octets.len() < octets.len() {
            self.over = true;
            return;
        }
        extend(&mut self.octets, octets);
    }

    /// Begins a constructed value (X.690 8.9) and returns its position in the text. All octets
    /// appended until `close` are its content.
    pub fn open(&mut self, tag: Tag) -> usize
        requires { tag.number < 31 }
        ensures start { IsTextEnd result self.old }
        ensures tag { self.new ≡ buffer_with self.old (octet_of tag ∷ 0 ∷ []) }
    {
        let start = self.octets.len() - HEADROOM;
        self.append(&[tag.octet(), 0]);
        start
    }

    /// Ends the value that begins at position `start`: writes its length in the fewest octets.
    pub fn close(&mut self, start: usize)
        requires { IsOpen start self.old }
        ensures { self.new ≡ close_value self.old start }
    {
        if self.over {
            return;
        }
        let count = (self.octets.len() - (HEADROOM + start + 2)) as u32;
        if HEADROOM + self.limit - self.octets.len() < octets_more(count) {
            self.over = true;
            return;
        }
        write_length(&mut self.octets, HEADROOM + start + 1, count);
    }

    /// Appends an octet string (X.690 8.7), or any value with this content.
    pub fn octets(&mut self, tag: Tag, content: &[u8])
        requires { tag.number < 31 }
        ensures { self.new ≡ buffer_with self.old (element tag content.now) }
    {
        if content.len() < 0x80 {
            self.append(&[tag.octet(), content.len() as u8]);
            self.append(content);
            return;
        }
        let start = self.open(tag);
        self.append(content);
        self.close(start);
    }

    /// Appends a value with the octets of a string as its content.
    pub fn text(&mut self, tag: Tag, text: &str)
        requires { tag.number < 31 }
        ensures { self.new ≡ buffer_with self.old (element tag text.now) }
    {
        self.octets(tag, text.as_bytes());
    }

    /// Appends a constructed value with an encoded content (X.690 8.9).
    pub fn nest(&mut self, tag: Tag, inner: &[u8])
        requires { tag.number < 31 }
        ensures { self.new ≡ buffer_with self.old (element tag inner.now) }
    {
        self.octets(tag, inner);
    }

    // Appends the number of unused bits, and the octets of the bits, with 0 in the unused bits.
    #[tactic(auto, using(crate::proofs::SheetLemmas::sheet_rules))]
    fn append_bits(&mut self, bits: Bits<'_>)
        requires { bits.count ≤ 8 * length bits.octets.now }
        ensures { self.new ≡ buffer_with self.old
            (bit_string_octets bits.entry.octets.now bits.entry.count) }
    {
        let (whole, left) = (bits.count / 8, bits.count % 8);
        if left == 0 {
            self.append(&[0]);
            self.append(&bits.octets[..whole]);
            return;
        }
        let unused = 8 - left as u8;
        self.append(&[unused]);
        self.append(&bits.octets[..whole]);
        self.append(&[bits.octets[whole] >> unused << unused]);
    }

    /// Appends a bit string (X.690 8.6): the octets of its bits, with 0 in the unused bits of the
    /// last.
    #[tactic(auto, using(crate::proofs::SheetLemmas::sheet_rules))]
    pub fn bits(&mut self, tag: Tag, bits: Bits<'_>)
        requires tag { tag.number < 31 }
        requires held { bits.count ≤ 8 * length bits.octets.now }
        ensures { self.new ≡ buffer_with self.old
            (element tag (bit_string_octets bits.entry.octets.now bits.entry.count)) }
    {
        let start = self.open(tag);
        self.append_bits(bits);
        self.close(start);
    }

    /// Appends an integer in the fewest octets (X.690 8.3).
    #[tactic(auto, using(crate::proofs::SmallLemmas::small_is))]
    pub fn int(&mut self, tag: Tag, value: i64)
        requires { tag.number < 31 }
        ensures { self.new ≡ buffer_with self.old (element tag (integer_octets value)) }
    {
        match small_of(value) {
            Some(small) => self.append(&[tag.octet(), 1, small]),
            None => self.octets(tag, without_needless(&value.to_be_bytes())),
        }
    }

    /// Appends a boolean (X.690 8.2). TRUE is FF.
    #[tactic(auto, unfolding(crate::specs::Writing::element, crate::specs::Writing::length_octets))]
    pub fn boolean(&mut self, tag: Tag, value: bool)
        requires { tag.number < 31 }
        ensures { self.new ≡ buffer_with self.old (element tag (truth_octets value)) }
    {
        let octet = if value { 0xFF } else { 0x00 };
        self.append(&[tag.octet(), 1, octet]);
    }

    /// Returns whether the text got longer than the limit.
    pub fn is_over(&self) -> bool
        ensures { result ≡ is_none self.now.text }
    {
        self.over
    }

    /// Writes a header before the text and the headers already written.
    pub fn front(&mut self, head: &[u8])
        requires { length head.now + length self.old.headers ≤ HEADROOM }
        ensures { self.new ≡ record self.old { headers = head.now ++ self.old.headers } }
    {
        self.first -= head.len();
        overwrite(&mut self.octets, self.first, head);
    }

    // Writes a tag and the shortest length before the message, as a header.
    fn head(&mut self, tag: Tag, count: u32)
        requires tag { tag.number < 31 }
        requires room { length self.old.headers + 6 ≤ HEADROOM }
        ensures { self.new ≡ record self.old
            { headers = (octet_of tag ∷ length_octets count) ++ self.old.headers } }
    {
        if count < 0x80 {
            self.front(&[tag.octet(), count as u8]);
            return;
        }
        let needed = octets_needed(count as usize);
        self.front(&count.to_be_bytes()[4 - needed..]);
        self.front(&[tag.octet(), 0x80 + needed as u8]);
    }

    /// Makes the message the content of a value: writes the header of that value before it. If the
    /// message, its headers included, is then longer than the limit, the writer drops it.
    pub fn wrap(&mut self, tag: Tag)
        requires tag { tag.number < 31 }
        requires room { length self.old.headers + 6 ≤ HEADROOM }
        ensures limit { self.new.limit ≡ self.old.limit }
        ensures message { message self.new ≡ value_around tag self.old.limit (message self.old) }
        ensures few { length self.new.headers ≤ length self.old.headers + 6 }
    {
        let Some(octets) = self.message() else {
            return;
        };
        let size = octets.len();
        if self.limit < size {
            self.over = true;
            return;
        }
        let count = size as u32;
        if self.limit - size < 2 + octets_more(count) {
            self.over = true;
            return;
        }
        self.head(tag, count);
    }

    // Writes a value before the message, as a header.
    fn front_value(&mut self, tag: Tag, content: &[u8])
        requires tag { tag.number < 31 }
        requires room { length content.now + length self.old.headers + 6 ≤ HEADROOM }
        ensures { self.new ≡ record self.old
            { headers = element tag content.now ++ self.old.headers } }
    {
        self.front(content);
        self.head(tag, content.len() as u32);
    }

    /// Writes an integer before the message, as a header.
    pub fn prepend_int(&mut self, tag: Tag, value: i64)
        requires tag { tag.number < 31 }
        requires room { length self.old.headers + 14 ≤ HEADROOM }
        ensures { self.new ≡ record self.old
            { headers = element tag (integer_octets value) ++ self.old.headers } }
    {
        self.front_value(tag, without_needless(&value.to_be_bytes()));
    }

    /// Returns the message: the headers followed by the text. Returns `None` if it got longer than
    /// the limit.
    pub fn message(&self) -> Option<&[u8]>
        ensures { option_map (λ octets. octets.now) result ≡ message self.now }
    {
        if self.over {
            return None;
        }
        Some(&self.octets[self.first..])
    }

    /// Returns the message, with the headroom left before it, and frees the rest of the buffer.
    /// Returns `None` if it got longer than the limit.
    pub fn finish(self) -> Option<Outgoing>
        ensures { result ≡ message self }
    {
        let Writer {
            mut octets,
            first,
            limit: _,
            over,
        } = self;
        if over {
            return None;
        }
        octets.shrink_to_fit();
        Some(Outgoing::behind(octets, first))
    }

    /// Returns the message, which must not be over the limit.
    pub fn finish_untruncated(self) -> Outgoing
        requires { is_none (message self) ≡ false }
        ensures { Some result ≡ message self }
    {
        match self.finish() {
            Some(octets) => octets,
            None => unreachable!(),
        }
    }
}
