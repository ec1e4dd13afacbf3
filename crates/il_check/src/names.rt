// The names of a program, and their meanings (IEC 61131-3:2003, 2.1.2 and 2.4.3).
ghost use Rattle.std.specs.Prelude.{◌≡◌, ℕ, List, is_some, IfOk, OnOk, string_bytes};
ghost use Rattle.std.specs.BTreeMap.{get_by_text};
ghost use Rattle.bay_base.specs.Names as base;
ghost use Rattle.il_check.specs.NamesView.{names_of, with_value};

use crate::source_operand::Meaning;
use std::alloc::{AllocError, Global};
use std::collections::BTreeMap;

/// The meanings of variables' and timers' names, and the numbers of labels, by names in upper case.
#[derive(Drop)]
pub(crate) struct ProgramNames {
    pub(crate) meanings: BTreeMap<String, Meaning>,
    pub(crate) labels: BTreeMap<String, usize>,
}

/// Returns a copy of a name in upper case.
pub(crate) fn upper_case(alloc: Global, name: &str) -> Result<String, AllocError>
    ensures { IfOk result (λ copy. string_bytes copy ≡ base.upper name.now) }
{
    let mut copy = String::from_str(alloc, name)?;
    copy.make_ascii_uppercase();
    Ok(copy)
}

// Replaces the contents of the buffer by a name in upper case.
fn put_upper(buffer: &mut String, name: &str) -> Result<(), AllocError>
    ensures { OnOk result (string_bytes buffer.new ≡ base.upper name.now) }
{
    buffer.clear();
    buffer.push_str(name)?;
    buffer.make_ascii_uppercase();
    Ok(())
}

/// Adds the meaning of a name, unless the name has one. Returns whether it already had one.
pub(crate) fn add_meaning(
    meanings: &mut BTreeMap<String, Meaning>,
    name: String,
    meaning: Meaning,
) -> Result<bool, AllocError>
    ensures known { IfOk result
        (λ known. known ≡ is_some (get_by_text meanings.old (string_bytes name))) }
    ensures meanings { OnOk result
        ((other : List ℕ) → get_by_text meanings.new other
        ≡ with_value (λ q. get_by_text meanings.old q) (string_bytes name) meaning other) }
{
    if meanings.contains_key(name.as_str()) {
        return Ok(true);
    }
    meanings.insert(name, meaning)?;
    Ok(false)
}

/// Adds the number of a label, unless the label's name has one.
pub(crate) fn add_label(
    labels: &mut BTreeMap<String, usize>,
    name: String,
    number: usize,
) -> Result<(), AllocError>
    ensures { OnOk result ((other : List ℕ)
        → get_by_text labels.new other
        ≡ with_value (λ q. get_by_text labels.old q) (string_bytes name) number other) }
{
    if labels.contains_key(name.as_str()) {
        return Ok(());
    }
    labels.insert(name, number)?;
    Ok(())
}

impl ProgramNames {
    /// Returns the meaning of a name, or `None` if it is not declared.
    pub(crate) fn meaning(
        &self,
        buffer: &mut String,
        name: &str,
    ) -> Result<Option<Meaning>, AllocError>
        ensures { IfOk result (λ found. found ≡ (names_of self.now).meaning name.now) }
    {
        put_upper(buffer, name)?;
        Ok(self.meanings.get(buffer.as_str()).copied())
    }

    /// Returns the number of the first label of a name, or `None` if there is none.
    pub(crate) fn find_label(
        &self,
        buffer: &mut String,
        name: &str,
    ) -> Result<Option<usize>, AllocError>
        ensures { IfOk result (λ found. found ≡ (names_of self.now).label name.now) }
    {
        put_upper(buffer, name)?;
        Ok(self.labels.get(buffer.as_str()).copied())
    }
}
