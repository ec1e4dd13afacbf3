// The links between rows: from a row to its first child and to its next sibling.
ghost use Rattle.std.specs.Prelude.{◌≡◌, ◌<◌, IfOk, length, option_and_then, if◌then◌else◌, ◌==◌, Some, ℕ};
ghost use Rattle.std.specs.Option.{option_copied};
ghost use Rattle.bay_tree.specs.Arena.{IsIndex, IsLinked, link_at};
ghost use Rattle.bay_tree.specs.Rows.{IsTree, row_index};

use crate::index::Index;
use crate::name::split_name;
use crate::row::Row;
use std::alloc::{AllocError, Global};

/// The links of a row. `word` is the offset, in octets, of the last word of its name.
#[derive(Clone, Copy, Debug)]
pub struct RowLink {
    pub word: usize,
    /// The index of the first row below this one.
    pub below: Option<usize>,
    /// The index of the next row with the same parent.
    pub beside: Option<usize>,
}

// Returns the index of the first row with a name, if one is given. Tries `last` first, since rows
// with the same parent are close together.
fn index_near(rows: &[Row], index: &Index, name: Option<&str>, last: usize) -> Option<usize>
    requires tree { IsTree rows.now }
    requires indexed { IsIndex rows.now index.now }
    requires within { last < length rows.now }
    ensures { result ≡ option_and_then (row_index rows.now) (option_copied name.entry) }
{
    let name = name?;
    if rows[last].name.as_str() == name {
        return Some(last);
    }
    index.find(rows, name.as_bytes())
}

// Makes the row at `place` the first one below the row at `above`.
fn put_below(links: &mut [RowLink], place: usize, above: usize)
    requires place { place < length links.old }
    requires above { above < length links.old }
    ensures long { length links.new ≡ length links.old }
    ensures word { (k : ℕ) → k < length links.old
        → (link_at links.new k).word ≡ (link_at links.old k).word }
    ensures below { (k : ℕ) → k < length links.old
        → (link_at links.new k).below
        ≡ (if above == k then Some place else (link_at links.old k).below) }
    ensures beside { (k : ℕ) → k < length links.old
        → (link_at links.new k).beside
        ≡ (if place == k then (link_at links.old above).below else (link_at links.old k).beside) }
{
    links[place].beside = links[above].below;
    links[above].below = Some(place);
}

/// Returns the links of the rows of a tree. Goes from the last row to the first. Fails only if an
/// allocation fails.
pub fn build_links(alloc: Global, rows: &[Row], index: &Index) -> Result<Vec<RowLink>, AllocError>
    requires tree { IsTree rows.now }
    requires indexed { IsIndex rows.now index.now }
    ensures { IfOk result (λ links. IsLinked rows.now links.items) }
{
    let unlinked = RowLink {
        word: 0,
        below: None,
        beside: None,
    };
    let mut links = vec![in alloc; unlinked; rows.len()]?;
    let mut last = 0;
    for place in (0..rows.len()).rev() {
        let parts = split_name(rows[place].name.as_str());
        links[place].word = parts.word;
        if let Some(above) = index_near(rows, index, parts.parent, last) {
            put_below(&mut links, place, above);
            last = above;
        }
    }
    Ok(links)
}
