// The check that rows make a tree.
ghost use Rattle.std.specs.Prelude.{◌≡◌, ◌<◌, ◌↔◌, Some, length, IfOk, IsTrue};
ghost use Rattle.bay_tree.specs.Arena.{IsIndex};
ghost use Rattle.bay_tree.specs.Rows.{IsTree, IsBelowStructure, name_at, row_index};

use crate::index::{Index, build_index};
use crate::name::split_name;
use crate::row::Row;
use std::alloc::{AllocError, Global};

// Returns whether the row at `place` is the first with its name.
fn is_first(rows: &[Row], index: &Index, place: usize) -> bool
    requires within { place < length rows.now }
    requires indexed { IsIndex rows.now index.now }
    ensures { IsTrue result ↔ (row_index rows.now (name_at rows.now place) ≡ Some place) }
{
    match index.find(rows, rows[place].name.as_str().as_bytes()) {
        Some(first) => first == place,
        None => false,
    }
}

// Returns whether the name of a row has no parent, or its parent is a structure before the row.
fn is_below_structure(rows: &[Row], index: &Index, place: usize) -> bool
    requires within { place < length rows.now }
    requires indexed { IsIndex rows.now index.now }
    ensures { IsTrue result ↔ IsBelowStructure rows.now place }
{
    let above = match split_name(rows[place].name.as_str()).parent {
        Some(parent) => index.find(rows, parent.as_bytes()),
        None => return true,
    };
    match above {
        Some(above) => above < place && rows[above].leaf.is_none(),
        None => false,
    }
}

/// Returns whether rows make a tree: their names are distinct, and the parent of each name is a
/// structure before it. Allocates an index of the names, and fails only if an allocation fails.
pub fn is_tree(alloc: Global, rows: &[Row]) -> Result<bool, AllocError>
    ensures { IfOk result (λ is. IsTrue is ↔ IsTree rows.now) }
{
    let index = build_index(alloc, rows)?;
    for place in 0..rows.len() {
        if !is_first(rows, &index, place) || !is_below_structure(rows, &index, place) {
            return Ok(false);
        }
    }
    Ok(true)
}
