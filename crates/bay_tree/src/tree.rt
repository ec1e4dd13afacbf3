// The tree as a list of rows.
ghost use Rattle.std.specs.Prelude.{ℕ, ◌+◌, ◌≡◌, ◌≢◌, ◌<◌, All, ◌≤◌, ◌↔◌, length, drop, map, Some, Ok, Err, IfOk, IsOk, OnOk, OnErr, IfErr, IfSome, IsTrue};
ghost use Rattle.std.specs.Option.{ok_or, option_copied};
ghost use Rattle.bay_tree.specs.Names.{IsNamed, parent_of, word_of};
ghost use Rattle.bay_tree.specs.Rows.{IsTree, IsHandle, row_index, name_at, leaf_at, leaf_named, leaf_type_at, names_of, leaf_types_of, with_leaf, with_leaf_named, first_below_from, first_below, next_beside, indices_below, indices_after, indices_since};
ghost use Rattle.bay_tree.specs.LeafTypes.{leaf_type_of};
ghost use Rattle.bay_tree.specs.Order.{index_if};
ghost use Rattle.bay_tree.specs.Page.{page_after, rows_after, IsUnknown};

use crate::fault::{NamesFault, TreeFault};
use crate::index::{Index, build_index};
use crate::leaf::{Leaf, LeafType};
use crate::link::{RowLink, build_links};
use crate::page::{NamesPage, first_names};
use crate::row::Row;
use bay_base::listing::Listing;
use std::alloc::{AllocError, Global};
use std::marker::Model;

/// Identifies a row of the tree that returned it, by the index of the row.
#[derive(Clone, Copy, Debug, PartialEq, Eq)]
pub struct Handle {
    index: usize,
}

impl Model for Handle {
    ghost use Rattle.std.specs.Prelude.{ℕ};

    ghost Value = { ℕ };

    ghost view = { λ h. h.index };

    ghost inverse = { λ n. record { index = n } };
}

/// The tree of named values of one logical device, which contracts see as the list of its rows.
#[derive(Debug, Drop)]
pub struct Tree {
    rows: Vec<Row>,
    index: Index,
    links: Vec<RowLink>,
}

impl Model for Tree {
    ghost use Rattle.std.specs.Prelude.{List};
    ghost use Rattle.bay_tree.specs.declared.row.Row.{Row};
    ghost use Rattle.bay_tree.specs.Arena.{IsArena};

    ghost Value = { List Row };

    ghost view = { λ t. t.rows.items };

    ghost invariant = { λ t. IsArena t.rows.items t.index t.links.items };
}

// Stores a value in a row. A plain value overwrites a value of its own type in place, which saves
// moving a whole leaf.
#[inline(always)]
fn put_leaf(place: &mut Option<Leaf>, leaf: Leaf)
    ensures { place.new ≡ Some leaf }
{
    match leaf {
        Leaf::Truth(new) => match place {
            Some(Leaf::Truth(old)) => *old = new,
            _ => *place = Some(Leaf::Truth(new)),
        },
        Leaf::Dbpos(new) => match place {
            Some(Leaf::Dbpos(old)) => *old = new,
            _ => *place = Some(Leaf::Dbpos(new)),
        },
        Leaf::Quality(new) => match place {
            Some(Leaf::Quality(old)) => *old = new,
            _ => *place = Some(Leaf::Quality(new)),
        },
        Leaf::Int32(new) => match place {
            Some(Leaf::Int32(old)) => *old = new,
            _ => *place = Some(Leaf::Int32(new)),
        },
        Leaf::Float(new) => match place {
            Some(Leaf::Float(old)) => *old = new,
            _ => *place = Some(Leaf::Float(new)),
        },
        Leaf::Utc(new) => match place {
            Some(Leaf::Utc(old)) => *old = new,
            _ => *place = Some(Leaf::Utc(new)),
        },
        leaf => *place = Some(leaf),
    }
}

// Returns the octets of a name, if one is given.
fn octets_of(name: Option<&str>) -> Option<&[u8]>
    ensures { option_copied result ≡ option_copied name.entry }
{
    match name {
        Some(name) => Some(name.as_bytes()),
        None => None,
    }
}

impl Tree {
    /// Builds the tree of these rows, in their order. Fails only if an allocation fails.
    pub fn build(alloc: Global, rows: Vec<Row>) -> Result<Self, AllocError>
        requires { IsTree rows.items }
        ensures { IfOk result (λ tree. tree ≡ rows.items) }
    {
        let index = build_index(alloc, rows.as_slice())?;
        let links = build_links(alloc, rows.as_slice(), &index)?;
        Ok(Tree { rows, index, links })
    }

    /// States that the rows are a tree: their names are distinct, and each name's parent is a
    /// structure before it. Has no effect; callers use its contract.
    pub fn are_a_tree(&self)
        ensures { IsTree self.now }
    {
        let _ = &self.rows;
    }

    /// Returns the handle of the row with this name; `NoSuchName` if no row has it.
    pub fn find(&self, name: &str) -> Result<Handle, TreeFault>
        ensures place { result ≡ ok_or (row_index self.now name.now) TreeFault.NoSuchName }
        ensures found { IfOk result
            (λ handle. IsHandle self.now handle × (name_at self.now handle ≡ name.now)) }
        ensures value { IfOk result
            (λ handle. leaf_at self.now handle ≡ leaf_named name.now self.now) }
        ensures unknown { (result ≡ Err TreeFault.NoSuchName)
            ↔ All (λ row. row.name ≢ name.now) self.now }
    {
        self.find_octets(name.as_bytes())
    }

    /// Returns the handle of the row with this name, given as octets; `NoSuchName` if no row has
    /// it. Octets that are not valid UTF-8 name no row.
    pub fn find_octets(&self, name: &[u8]) -> Result<Handle, TreeFault>
        ensures place { result ≡ ok_or (row_index self.now name.now) TreeFault.NoSuchName }
        ensures found { IfOk result
            (λ handle. IsHandle self.now handle × (name_at self.now handle ≡ name.now)) }
        ensures value { IfOk result
            (λ handle. leaf_at self.now handle ≡ leaf_named name.now self.now) }
        ensures unknown { (result ≡ Err TreeFault.NoSuchName)
            ↔ All (λ row. row.name ≢ name.now) self.now }
    {
        match self.index.find(&self.rows, name) {
            Some(index) => Ok(Handle { index }),
            None => Err(TreeFault::NoSuchName),
        }
    }

    /// Returns the value of a row; `None` for a structure.
    #[inline(always)]
    pub fn get(&self, handle: Handle) -> Option<&Leaf>
        requires { IsHandle self.now handle }
        ensures value { option_copied result ≡ leaf_at self.now handle }
        ensures named { option_copied result ≡ leaf_named (name_at self.now handle) self.now }
    {
        self.rows[handle.index].leaf.as_ref()
    }

    // Returns whether a row has a value of this type.
    #[inline(always)]
    fn has_leaf_type(&self, handle: Handle, leaf_type: LeafType) -> bool
        requires { IsHandle self.now handle }
        ensures { IsTrue result ↔ (leaf_type_at self.now handle ≡ Some leaf_type) }
    {
        match self.get(handle) {
            Some(leaf) => leaf.leaf_type() == leaf_type,
            None => false,
        }
    }

    /// Writes a new value of the same type to a row. Returns `WrongType` if the row is a structure
    /// or its value has another type; the tree is then unchanged.
    #[inline(always)]
    pub fn set(&mut self, handle: Handle, leaf: Leaf) -> Result<(), TreeFault>
        requires { IsHandle self.old handle }
        ensures accepted { IsOk result ↔ (leaf_type_at self.old handle ≡ Some (leaf_type_of leaf)) }
        ensures ok { OnOk result (self.new ≡ with_leaf self.old handle leaf) }
        ensures named { OnOk result
            (self.new ≡ with_leaf_named (name_at self.old handle) leaf self.old) }
        ensures err { IfErr result
            (λ fault. (fault ≡ TreeFault.WrongType) × (self.new ≡ self.old)) }

        // Handles stay valid: each row keeps its index, its name and the type of its value.
        ensures good { (row : ℕ) → IsHandle self.old row → IsHandle self.new row }
        ensures handles { length self.new ≡ length self.old }
        ensures names { names_of self.new ≡ names_of self.old }
        ensures leaf_types { leaf_types_of self.new ≡ leaf_types_of self.old }
    {
        if !self.has_leaf_type(handle, leaf.leaf_type()) {
            return Err(TreeFault::WrongType);
        }
        put_leaf(&mut self.rows[handle.index].leaf, leaf);
        Ok(())
    }

    /// Returns the first row below a structure; `None` for a leaf, and for a structure with no rows
    /// below it.
    pub fn below(&self, handle: Handle) -> Option<Handle>
        requires { IsHandle self.now handle }
        ensures first { result ≡ first_below self.now handle }
        ensures rows { indices_below self.now (name_at self.now handle)
            ≡ indices_since self.now (name_at self.now handle) result }
        ensures after { IfSome result (λ row. (handle < row) × IsHandle self.now row) }
    {
        let index = self.links[handle.index].below?;
        Some(Handle { index })
    }

    /// Returns the next row with the same parent; `None` for a row with a name of one word, and
    /// after the parent's last row.
    pub fn beside(&self, handle: Handle) -> Option<Handle>
        requires { IsHandle self.now handle }
        ensures next { result ≡ next_beside self.now handle }
        ensures rows { IfSome (parent_of (name_at self.now handle))
            (λ parent. indices_after self.now parent handle ≡ indices_since self.now parent result) }
        ensures after { IfSome result (λ row. (handle < row) × IsHandle self.now row) }
    {
        let index = self.links[handle.index].beside?;
        Some(Handle { index })
    }

    /// Returns the first row of the tree; `None` if there is none.
    pub fn first(&self) -> Option<Handle>
        ensures place { result ≡ index_if self.now 0 }
        ensures there { IfSome result (IsHandle self.now) }
    {
        if self.rows.is_empty() {
            None
        } else {
            Some(Handle { index: 0 })
        }
    }

    /// Returns the next row in the order of all rows; `None` after the last.
    pub fn next(&self, handle: Handle) -> Option<Handle>
        requires { IsHandle self.now handle }
        ensures place { result ≡ index_if self.now (handle + 1) }
        ensures there { IfSome result (IsHandle self.now) }
    {
        if self.rows.len() - handle.index > 1 {
            Some(Handle {
                index: handle.index + 1,
            })
        } else {
            None
        }
    }

    /// Returns the name of a row.
    pub fn name(&self, handle: Handle) -> &str
        requires { IsHandle self.now handle }
        ensures { result.now ≡ name_at self.now handle }
    {
        self.rows[handle.index].name.as_str()
    }

    /// Returns the last word of a row's name.
    pub fn word(&self, handle: Handle) -> &str
        requires { IsHandle self.now handle }
        ensures word { result.now ≡ word_of (name_at self.now handle) }
        ensures named { IsNamed (parent_of (name_at self.now handle)) result.now
            (name_at self.now handle) }
    {
        &self.name(handle)[self.links[handle.index].word..]
    }

    /// Returns the first `count` names after the row with a name, or the first of all if no name is
    /// given, and whether there are more. `NoSuchName` if no row has the name, `OutOfMemory` if an
    /// allocation fails.
    pub fn names_after(
        &self,
        alloc: Global,
        after: Option<&str>,
        count: usize,
    ) -> Result<NamesPage, NamesFault>
        ensures page { IfOk result
            (λ page. page ≡ page_after self.now (option_copied after.entry) count) }
        ensures unknown { (result ≡ Err NamesFault.NoSuchName)
            ↔ IsUnknown self.now (option_copied after.entry) }
    {
        let start = self.index_after(octets_of(after))?;
        let rest = &self.rows.as_slice()[start..];
        let names = first_names(alloc, rest, count)?;
        Ok(NamesPage {
            names: Listing::new(names),
            more: count < rest.len(),
        })
    }

    /// Returns the index of the first row after the row with a name, given as octets; without a
    /// name, 0. `NoSuchName` if no row has the name.
    pub fn index_after(&self, after: Option<&[u8]>) -> Result<usize, NamesFault>
        ensures rows { IfOk result
            (λ start. drop start self.now ≡ rows_after self.now (option_copied after.entry)) }
        ensures within { IfOk result (λ start. start ≤ length self.now) }
        ensures unknown { (result ≡ Err NamesFault.NoSuchName)
            ↔ IsUnknown self.now (option_copied after.entry) }
    {
        let name = match after {
            None => return Ok(0),
            Some(name) => name,
        };
        // The number of rows is bounded by the tree's fields.
        let _ = &self.rows;
        match self.find_octets(name) {
            Ok(row) => Ok(row.index + 1),
            Err(_) => Err(NamesFault::NoSuchName),
        }
    }
}
