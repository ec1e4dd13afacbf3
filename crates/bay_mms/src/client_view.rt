// The rows of a tree as clients see them.
ghost use Rattle.std.specs.Prelude.{◌≡◌, ◌<◌, IfSome, length};
ghost use Rattle.std.specs.Option.{option_copied};
ghost use Rattle.bay_tree.specs.Rows.{IsHandle, leaf_at, names_of, first_below, next_beside};
ghost use Rattle.bay_mms.specs.Marks.{rows_marked};

use bay_tree::leaf::Leaf;
use bay_tree::tree::{Handle, Tree};
use std::marker::Model;

/// The client view: the rows of a tree, with TRUE at the marked row, if there is one. The marked
/// row is the one that shows that a switch is selected (IEC 61850-7-3, DPC: stSeld). The tree's
/// handles are valid here. A mark past the last row marks nothing.
#[derive(Drop)]
pub struct ClientView<'a> {
    tree: &'a Tree,
    marked: Option<Handle>,
    // TRUE, the value of the marked row.
    truth: Leaf,
}

impl<'a> Model for ClientView<'a> {
    ghost use Rattle.std.specs.Prelude.{◌≡◌, true, List};
    ghost use Rattle.bay_tree.specs.declared.row.Row.{Row};
    ghost use Rattle.bay_tree.specs.declared.leaf.Leaf.TheVariants as leaf;
    ghost use Rattle.bay_mms.specs.Marks.{rows_marked};

    ghost Value = { List Row };

    ghost view = { λ s. rows_marked s.marked s.tree.now };

    ghost invariant = { λ s. s.truth ≡ leaf.Truth true };
}

impl<'a> ClientView<'a> {
    /// Creates the view of a tree, with TRUE at the marked row.
    #[inline(always)]
    pub fn new(tree: &'a Tree, marked: Option<Handle>) -> Self
        ensures rows { result ≡ rows_marked marked tree.now }

        // The view has as many rows as the tree, with the same names, so the tree's handles are
        // valid.
        ensures handles { length result ≡ length tree.now }
        ensures names { names_of result ≡ names_of tree.now }
    {
        ClientView {
            tree,
            marked,
            truth: Leaf::Truth(true),
        }
    }

    /// Returns the value of a row; `None` for a structure.
    #[inline(always)]
    pub fn get(&self, handle: Handle) -> Option<&Leaf>
        requires { IsHandle self.now handle }
        ensures { option_copied result ≡ leaf_at self.now handle }
    {
        match self.marked {
            Some(marked) if marked == handle => Some(&self.truth),
            _ => self.tree.get(handle),
        }
    }

    /// Returns the first row below a structure; `None` for a leaf and for a structure without rows.
    #[inline(always)]
    pub fn below(&self, handle: Handle) -> Option<Handle>
        requires { IsHandle self.now handle }
        ensures first { result ≡ first_below self.now handle }
        ensures after { IfSome result (λ row. (handle < row) × IsHandle self.now row) }
    {
        self.tree.below(handle)
    }

    /// Returns the next row below the same parent; `None` for a row of one word, and after the
    /// parent's last row.
    #[inline(always)]
    pub fn beside(&self, handle: Handle) -> Option<Handle>
        requires { IsHandle self.now handle }
        ensures next { result ≡ next_beside self.now handle }
        ensures after { IfSome result (λ row. (handle < row) × IsHandle self.now row) }
    {
        self.tree.beside(handle)
    }
}
