// Names of words separated by `$`.
ghost use Rattle.std.specs.Prelude.{◌≡◌};
ghost use Rattle.std.specs.Option.{option_copied};
ghost use Rattle.bay_tree.specs.Names.{IsNamed, IsWordAt, parent_of, word_of};

/// The parent of a name, which is the text before the last `$`, and the offset of its last word in
/// octets. A name of one word has no parent.
#[derive(Clone, Copy)]
pub struct NameParts<'a> {
    pub parent: Option<&'a str>,
    pub word: usize,
}

// Returns the offset of the last word of a name.
fn word_start(name: &str, word: &str) -> usize
    requires last { word.now ≡ word_of name.now }
    requires named { IsNamed (parent_of name.now) word.now name.now }
    ensures { IsWordAt name.now result }
{
    name.len() - word.len()
}

/// Splits a name at its last `$`.
pub fn split_name(name: &str) -> NameParts<'_>
    ensures parent { option_copied result.parent ≡ parent_of name.now }
    ensures word { IsWordAt name.now result.word }
{
    match name.rsplit_once('$') {
        Some((parent, word)) => NameParts {
            parent: Some(parent),
            word: word_start(name, word),
        },
        None => NameParts {
            parent: None,
            word: word_start(name, name),
        },
    }
}
