// Laws of the rows. Each function does nothing; its contract is the law.
ghost use Rattle.std.specs.Prelude.{◌≡◌, ◌≢◌, ◌↔◌, ℕ, Some, List, All};
ghost use Rattle.bay_tree.specs.declared.leaf.Leaf.{Leaf};
ghost use Rattle.bay_tree.specs.declared.row.Row.{Row};
ghost use Rattle.bay_tree.specs.Rows.{IsTree, IsHandle, leaf_at, leaves_at, name_at, names_of, row_index, with_leaf};

/// Writing a value to a row gives that row the value and leaves all other rows as they were. So all
/// other rows keep their values. No name changes.
pub fn a_write_is_to_one_row()
    ensures own { (rows : List Row) (row : ℕ) (leaf : Leaf) → IsHandle rows row
        → leaf_at (with_leaf rows row leaf) row ≡ Some leaf }
    ensures other { (rows : List Row) (row other : ℕ) (leaf : Leaf) → other ≢ row
        → leaf_at (with_leaf rows row leaf) other ≡ leaf_at rows other }
    ensures others { (rows : List Row) (row : ℕ) (leaf : Leaf) (others : List ℕ)
        → All (λ other. other ≢ row) others
        → leaves_at (with_leaf rows row leaf) others ≡ leaves_at rows others }
    ensures names { (rows : List Row) (row other : ℕ) (leaf : Leaf) → IsHandle rows row
        → name_at (with_leaf rows row leaf) other ≡ name_at rows other }
{}

/// The handle of a name is a row exactly if the row has that name. The handle of a name depends
/// only on the names of the rows, so it stays the same when values change.
pub fn a_row_is_found_by_its_name()
    ensures named { (rows : List Row) (row : ℕ) (name : List ℕ) → IsTree rows → IsHandle rows row
        → (row_index rows name ≡ Some row) ↔ (name_at rows row ≡ name) }
    ensures stays { (before after : List Row) (name : List ℕ) → names_of before ≡ names_of after
        → row_index before name ≡ row_index after name }
{}
