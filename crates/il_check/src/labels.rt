// The labels of a program.
ghost use Rattle.std.specs.Prelude.{[], ◌∷◌, length, map, vec_len, ◌<◌, IfErr, IfOk, OnOk};
ghost use Rattle.bay_base.specs.Names as names;
ghost use Rattle.il_text.specs.Views.{entry_of};
ghost use Rattle.il_check.specs.Declaring.{labels_from};
ghost use Rattle.il_check.specs.LabelsView.{label_in, AreLabels, AddsLabels};

use crate::names::{add_label, upper_case};
use crate::reach::{Reach, unreached};
use il_text::program::Item;
use std::alloc::{AllocError, Global};
use std::collections::BTreeMap;

/// The number of the first label of each name, in upper case, and for each label what jumps bring
/// to it: nothing, as no jump has been read.
#[derive(Drop)]
pub(crate) struct Labels {
    pub(crate) numbers: BTreeMap<String, usize>,
    pub(crate) arrivals: Vec<Reach>,
}

impl Labels {
    // Adds a label with this name and the next number.
    fn add(&mut self, alloc: Global, name: &str) -> Result<(), AllocError>
        ensures { OnOk result (AddsLabels ((names.upper name.now, vec_len self.old.arrivals) ∷ [])
            self.old self.new) }
    {
        let number = self.arrivals.len();
        let name = upper_case(alloc, name)?;
        add_label(&mut self.numbers, name, number)?;
        self.arrivals.push(unreached())?;
        Ok(())
    }

    // Adds the label if the item is one. A label inside a parenthesis does not count.
    #[tactic(auto, using(crate::proofs::EntryLemmas::entry_rules))]
    fn add_item(&mut self, alloc: Global, item: &Item<'_>) -> Result<(), AllocError>
        ensures { OnOk result (AddsLabels (label_in (vec_len self.old.arrivals) (entry_of item.now))
            self.old self.new) }
    {
        match item {
            Item::Label { name, .. } => self.add(alloc, name),
            Item::Instruction { .. } | Item::Block { .. } => Ok(()),
        }
    }
}

/// Collects all labels of a program. Fails only if an allocation fails, and never if there are no
/// items.
pub(crate) fn all_labels(alloc: Global, items: &[Item<'_>]) -> Result<Labels, AllocError>
    ensures ok { IfOk result (λ l. AreLabels (labels_from 0 (map entry_of items.now)) l) }
    ensures memory { IfErr result (λ e. 0 < length items.now) }
{
    let mut labels = Labels {
        numbers: BTreeMap::new(alloc),
        arrivals: Vec::new(alloc),
    };
    for item in items {
        labels.add_item(alloc, item)?;
    }
    Ok(labels)
}
