// Rows of a tree, their data and types, and pages of their names.
use anyhow::{Context, Result, bail};
use bay_base::listing::Listing;
use bay_base::position::Dbpos;
use bay_base::text::Text;
use bay_ber::writer::Writer;
use bay_config::read::read_bay;
use bay_mms::client_view::ClientView;
use bay_mms::data::{data_of, type_spec_of};
use bay_mms::names::NameTexts;
use bay_mms::page::write_page;
use bay_mms::value::{write_type, write_value};
use bay_tree::leaf::{Leaf, Quality};
use bay_tree::row::Row;
use bay_tree::search::is_tree;
use bay_tree::tree::Tree;
use cases::case_report::check_text;
use cases::octets::octets_of;
use cases::words::{first_word, words_of};
use std::alloc::Global;

// The maximum number of octets of data and of types.
const SIZE: u32 = 100_000;

/// Returns the position with this name; `Bad` for any name but those of the others.
pub fn position_of(word: &str) -> Dbpos {
    match word {
        "intermediate" => Dbpos::Intermediate,
        "off" => Dbpos::Off,
        "on" => Dbpos::On,
        _ => Dbpos::Bad,
    }
}

// Returns the leaf of this kind and value, or `None` for any other kind: such a row is a structure.
fn leaf_of(alloc: Global, kind: &str, value: &str) -> Result<Option<Leaf>> {
    Ok(Some(match kind {
        "truth" => Leaf::Truth(value == "true"),
        "dbpos" => Leaf::Dbpos(position_of(value)),
        "good" => Leaf::Quality(Quality::Good),
        "invalid" => Leaf::Quality(Quality::Invalid),
        "int8" => Leaf::Int8(value.parse::<i8>()?),
        "int32" => Leaf::Int32(value.parse::<i32>()?),
        "unsigned8" => Leaf::Unsigned8(value.parse::<u8>()?),
        "unsigned32" => Leaf::Unsigned32(value.parse::<u32>()?),
        "float" => Leaf::Float(value.parse::<i32>()?),
        "octets" => Leaf::Octets(Listing::new(octets_of(alloc, value)?)),
        "reference" => Leaf::Reference(Text::from_str(alloc, value)?),
        "text" => Leaf::Text(Text::from_str(alloc, value)?),
        "utc" => Leaf::Utc(value.parse::<u64>()?),
        _ => return Ok(None),
    }))
}

// Returns a row's data or its type, as a tree and in octets.
fn row_text(alloc: Global, tree: &Tree, kind: &str, name: &str) -> Result<String> {
    let handle = tree.find(name)?;
    let mut writer = Writer::new(alloc, SIZE)?;
    let text = if kind == "value" {
        write_value(&mut writer, &ClientView::new(tree, None), handle);
        format!(in alloc; "{:?}", data_of(alloc, tree, handle)?)?
    } else {
        write_type(&mut writer, tree, handle);
        format!(in alloc; "{:?}", type_spec_of(alloc, tree, handle)?)?
    };
    let octets = writer.finish().context("too long")?;
    Ok(format!(in alloc; "{text} |{}", hex::encode(alloc, octets.as_slice())?)?)
}

// Returns the number of names after a name, or of the first names, at most `count`; the first and
// the last of them; and whether there are more.
fn names_text(alloc: Global, tree: &Tree, count: usize, after: Option<&str>) -> Result<String> {
    let page = tree.names_after(alloc, after, count)?;
    let (first, last) = match page.names.as_slice() {
        [first, .., last] => (first.as_str(), last.as_str()),
        [only] => (only.as_str(), only.as_str()),
        [] => ("", ""),
    };
    Ok(format!(in alloc;
        "{} {first} {last} {}",
        page.names.as_slice().len(),
        page.more
    )?)
}

// Returns the response with an invoke id that has the page after a name in octets, or the first
// page, for PDUs of a size.
fn page_text(alloc: Global, tree: &Tree, words: &[&str]) -> Result<String> {
    let [id, size, after @ ..] = words else {
        bail!("no page");
    };
    let (id, size) = (
        id.parse::<u32>()?,
        size.parse::<u32>()?.clamp(256, 1_000_000),
    );
    let octets = octets_of(alloc, after.first().unwrap_or(&"-"))?;
    let after = after.first().map(|_| octets.as_slice());
    let names = NameTexts::of_tree(alloc, tree)?;
    Ok(match write_page(alloc, id, tree, &names, after, size) {
        Ok(encode_value) => format!(in alloc; "|{}", hex::encode(alloc, encode_value.as_slice())?),
        Err(fault) => format!(in alloc; "{} {fault}", fault.code().unwrap_or(0)),
    }?)
}

// Writes a value to a row. Returns 0, or the number of the fault and what it is.
fn set_text(alloc: Global, tree: &mut Tree, words: &[&str]) -> Result<String> {
    let [name, kind, value] = words else {
        bail!("no value");
    };
    let leaf = leaf_of(alloc, kind, value)?.context("no leaf")?;
    let handle = tree.find(name)?;
    Ok(match tree.set(handle, leaf) {
        Ok(()) => format!(in alloc; "0"),
        Err(fault) => format!(in alloc; "{} {fault}", fault.code()),
    }?)
}

/// Rows, and their tree.
#[derive(Drop)]
pub struct Rows {
    alloc: Global,
    rows: Vec<Row>,
    tree: Option<Tree>,
}

impl Rows {
    /// Creates the state with no rows and no tree.
    pub fn new(alloc: Global) -> Rows {
        Rows {
            alloc,
            rows: Vec::new(alloc),
            tree: None,
        }
    }

    /// Reads a line that is no case: the rows of the bay, or a row, with its name, its kind and its
    /// value.
    pub fn take(&mut self, bay: &str, line: &str) -> Result<()> {
        let Some(row) = line.strip_prefix("row ") else {
            check_text(line, "bay")?;
            self.rows = read_bay(self.alloc, bay)?.rows.into_vec();
            return Ok(());
        };
        let (name, rest) = first_word(row);
        let (kind, value) = first_word(rest);
        let leaf = leaf_of(self.alloc, kind, value)?;
        let name = Text::from_str(self.alloc, name)?;
        Ok(self.rows.push(Row { name, leaf })?)
    }

    // Returns whether the rows form a tree; if so, the next lines use it.
    fn build(&mut self) -> Result<String> {
        let rows = std::mem::replace(&mut self.rows, Vec::new(self.alloc));
        let is = is_tree(self.alloc, rows.as_slice())?;
        if is {
            self.tree = Some(Tree::build(self.alloc, rows)?);
        }
        Ok(format!(in self.alloc; "{is}")?)
    }

    /// Returns the answer to a line.
    pub fn answer(&mut self, kind: &str, words: &str) -> Result<String> {
        let alloc = self.alloc;
        if kind == "tree" {
            return self.build();
        }
        let tree = self.tree.as_mut().context("no tree")?;
        let parts = words_of(alloc, words)?;
        match (kind, parts.as_slice()) {
            ("set", parts) => set_text(alloc, tree, parts),
            ("names", [count]) => names_text(alloc, tree, count.parse::<usize>()?, None),
            ("names", [count, after]) => {
                names_text(alloc, tree, count.parse::<usize>()?, Some(after))
            }
            ("page", parts) => page_text(alloc, tree, parts),
            _ => row_text(alloc, tree, kind, words),
        }
    }
}
