// Finds names without a search of the whole list.
ghost use Rattle.std.specs.Prelude.{◌≡◌, ◌<◌, length, map, position};
ghost use Rattle.bay_base.specs.Names.{same_name};
ghost use Rattle.bay_device.specs.Table.{IsTable, AreTables, with_index_of};
ghost use Rattle.bay_device.specs.Table as spec;

use bay_base::names::same_name;
use bay_base::text::Text;
use bay_process::meter::BoundMeter;
use bay_process::switch::BoundSwitch;

// The number of keys.
const KEYS: usize = 64;

/// An item with a name.
pub trait Named {
    ghost use Rattle.std.specs.Prelude.{List, ℕ};

    ghost name: { Self → List ℕ };

    /// Returns the name.
    fn name(&self) -> &str
        ensures { result.now ≡ name self.now };
}

impl Named for Text {
    ghost name = { λ text. text };

    fn name(&self) -> &str {
        self.as_str()
    }
}

impl Named for BoundSwitch {
    ghost name = { λ bound. bound.switch.id };

    fn name(&self) -> &str {
        self.switch.id.as_str()
    }
}

impl Named for BoundMeter {
    ghost name = { λ bound. bound.id };

    fn name(&self) -> &str {
        self.id.as_str()
    }
}

// Returns the key of a name, which does not depend on the case of its letters.
fn key_of(name: &str) -> usize
    ensures key { result ≡ spec.key_of name.now }
    ensures within { result < 64 }
{
    let mut key = 0;
    for octet in name.as_bytes() {
        key = (key * 31 + usize::from(octet % 32)) % KEYS;
    }
    key
}

// Returns whether two names are equal, ignoring the case of their letters. Compares the spelling
// first, which is the usual case and fast.
fn is_named(own: &str, name: &str) -> bool
    ensures { result ≡ same_name own.now name.now }
{
    own == name || same_name(own, name)
}

/// For each key, an index before which no name has that key.
#[derive(Drop)]
pub struct NameTable {
    pub firsts: [usize; KEYS],
}

impl NameTable {
    // Records that the name at an index has this key.
    fn note(&mut self, key: usize, index: usize)
        requires { key < 64 }
        ensures { self.new.firsts ≡ with_index_of key index self.old.firsts }
    {
        if index < self.firsts[key] {
            self.firsts[key] = index;
        }
    }

    /// Makes the table of the names of these items.
    pub fn new<T: Named>(items: &[T]) -> Self
        ensures { IsTable (map T.name items.now) result.firsts }
    {
        let mut table = NameTable {
            firsts: [items.len(); KEYS],
        };
        for index in 0..items.len() {
            table.note(key_of(items[index].name()), index);
        }
        table
    }

    /// Returns the index of the first of these items with this name, ignoring the case of its
    /// letters; `None` if there is none.
    pub fn index_of<T: Named>(&self, items: &[T], name: &str) -> Option<usize>
        requires { IsTable (map T.name items.now) self.now.firsts }
        ensures { result ≡ position (λ item. same_name (T.name item) name.now) items.now }
    {
        for index in self.firsts[key_of(name)]..items.len() {
            if is_named(items[index].name(), name) {
                return Some(index);
            }
        }
        None
    }
}

/// The tables of a device's names.
#[derive(Drop)]
pub struct NameTables {
    pub switches: NameTable,
    pub inputs: NameTable,
    pub meters: NameTable,
}

/// Makes the tables of the ids of these switches, the names of these inputs, and the ids of these
/// meters.
pub fn build_tables(switches: &[BoundSwitch], inputs: &[Text], meters: &[BoundMeter]) -> NameTables
    ensures { AreTables switches.now inputs.now meters.now result }
{
    NameTables {
        switches: NameTable::new(switches),
        inputs: NameTable::new(inputs),
        meters: NameTable::new(meters),
    }
}
