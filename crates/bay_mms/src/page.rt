// Pages of names (ISO 9506-2, GetNameList).
ghost use Rattle.std.specs.Prelude.{Err, ◌≡◌, ◌^◌, ◌+◌, ◌<◌, ◌≤◌, ◌↔◌, List, ℕ, drop, pos, IsTrue, IfOk, length, take, nat_lt};
ghost use Rattle.std.specs.Option.{option_copied};
ghost use Rattle.bay_ber.specs.EncoderBuffers.{buffer_with};
ghost use Rattle.bay_ber.specs.Writing.{integer_octets};
ghost use Rattle.bay_ber.specs.Writing as ber;
ghost use Rattle.bay_tree.specs.Page.{rows_after, IsUnknown};
ghost use Rattle.bay_tree.specs.Rows.{names_of};
ghost use Rattle.bay_mms.specs.Pages.{names_on_page, first_page, encoded_names};
ghost use Rattle.bay_mms.specs.Pages as spec;

use crate::names::NameTexts;
use crate::response::put_id;
use bay_ber::outgoing::Outgoing;
use bay_ber::tag::Tag;
use bay_ber::writer::{Writer, element_length, integer_length};
use bay_tree::fault::NamesFault;
use bay_tree::tree::Tree;
use std::alloc::Global;

// The most names of a page.
const NAMES_MAX: usize = 100;

// Returns the number of octets of an encoded invoke id.
fn id_length(id: u32) -> u32
    ensures value { result ≡ ber.element_length (length (integer_octets (pos id))) }
    ensures few { result ≤ 10 }
{
    element_length(integer_length(i64::from(id)) as u32) as u32
}

// Returns the number of octets of a response whose invoke id takes `id` octets and whose names take
// `names` octets.
fn page_length(id: u32, names: u32) -> u64
    requires id { id ≤ 10 }
    requires names { names < 2 ^ 31 }
    ensures { result ≡ spec.length_of_page id names }
{
    let list = element_length(names);
    let service = element_length((list + 3) as u32);
    element_length(id + service as u32)
}

// Returns whether names of `names` octets fit into a page of `size` octets, if the invoke id takes
// `id` octets.
fn has_room(id: u32, names: usize, size: u32) -> bool
    requires id { id ≤ 10 }
    requires size { size < 2 ^ 31 }
    ensures { IsTrue result ↔ (spec.length_of_page id names ≤ size) }
{
    names <= size as usize && page_length(id, names as u32) <= u64::from(size)
}

// Returns how many of the names from index `start` on a page has.
fn count_fitting(names: &NameTexts, start: usize, id: u32, size: u32) -> usize
    requires size { size < 2 ^ 31 }
    requires within { start ≤ length names.now.ends }
    ensures within { start + result ≤ length names.now.ends }
    ensures count { (texts : List (List ℕ)) → names.now ≡ encoded_names texts
        → result ≡ names_on_page id size (drop start texts) }
{
    let head = id_length(id);
    let most = (names.count() - start).min(NAMES_MAX);
    if has_room(head, names.size(start, most), size) {
        return most;
    }
    let mut count = 0;
    while count < most {
        if !has_room(head, names.size(start, count + 1), size) {
            return count;
        }
        count += 1;
    }
    count
}

// Appends the response that lists the names with these texts.
#[tactic(auto, using(bay_ber::proofs::SheetLemmas::sheet_rules))]
fn put_page(writer: &mut Writer, id: u32, texts: &[u8], more: bool)
    ensures { writer.new ≡ buffer_with writer.old (spec.response_of_texts id texts.now more) }
{
    let start = writer.open(Tag::context_constructed(1));
    put_id(writer, id);
    let service = writer.open(Tag::context_constructed(1));
    let list = writer.open(Tag::context_constructed(0));
    writer.append(texts);
    writer.close(list);
    writer.boolean(Tag::context(1), more);
    writer.close(service);
    writer.close(start);
}

/// Returns the response, with an invoke id, that lists the names after a name, or all names from
/// the first on if `after` is `None`. It lists as many as fit into a PDU of `size` octets, at most
/// 100, and whether more follow. Fails with `NoSuchName` if no row has the name `after`, and with
/// `OutOfMemory`. `names` must be the texts of the tree's names.
pub fn write_page(
    alloc: Global,
    id: u32,
    tree: &Tree,
    names: &NameTexts,
    after: Option<&[u8]>,
    size: u32,
) -> Result<Outgoing, NamesFault>
    requires some { 256 ≤ size }
    requires size { size < 2 ^ 31 }
    requires texts { names.now ≡ encoded_names (names_of tree.now) }
    ensures page { IfOk result
        (λ octets. octets
        ≡ first_page id size (names_of (rows_after tree.now (option_copied after.entry)))) }
    ensures unknown { (result ≡ Err NamesFault.NoSuchName)
        ↔ IsUnknown tree.now (option_copied after.entry) }
    ensures short { IfOk result (λ octets. length octets ≤ size) }
{
    let start = tree.index_after(after)?;
    let mut writer = Writer::new(alloc, size)?;
    let count = count_fitting(names, start, id, size);
    let more = count < names.count() - start;
    put_page(&mut writer, id, names.texts(start, count), more);
    Ok(writer.finish_untruncated())
}
