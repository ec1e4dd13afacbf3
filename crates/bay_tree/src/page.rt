// Pages of names.
ghost use Rattle.std.specs.Prelude.{◌≡◌, take, IfOk};
ghost use Rattle.bay_tree.specs.Rows.{names_of};

use crate::row::Row;
use bay_base::listing::Listing;
use bay_base::text::Text;
use std::alloc::{AllocError, Global};

/// The first names after a name, and whether there are more.
#[derive(Debug, Drop)]
pub struct NamesPage {
    /// Copies of the names, in order.
    pub names: Listing<Text>,
    pub more: bool,
}

// Returns the first `count` rows, or all if there are fewer.
fn first_rows(rows: &[Row], count: usize) -> &[Row]
    ensures { result.now ≡ take count rows.now }
{
    if count < rows.len() {
        &rows[..count]
    } else {
        rows
    }
}

/// Copies the names of the first `count` rows, or of all if there are fewer. Fails only if an
/// allocation fails.
pub(crate) fn first_names(
    alloc: Global,
    rows: &[Row],
    count: usize,
) -> Result<Vec<Text>, AllocError>
    ensures { IfOk result (λ names. names.items ≡ names_of (take count rows.now)) }
{
    let first = first_rows(rows, count);
    let mut names = Vec::with_capacity(alloc, first.len())?;
    for row in first {
        names.push(Text::from_str(alloc, row.name.as_str())?)?;
    }
    Ok(names)
}
