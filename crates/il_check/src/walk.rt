// The items of a program, one after another: their faults, and their typed forms.
ghost use Rattle.std.specs.Prelude.{◌≡◌, ◌<◌, ◌++◌, ◌∷◌, [], List, None, map, option_map, length, slice_get, IfErr, IfOk, OnOk};
ghost use Rattle.std.specs.Option.{option_to_list};
ghost use Rattle.il_text.specs.Listing as text;
ghost use Rattle.il_text.specs.Views.{entry_of, action_of};
ghost use Rattle.il_check.specs.Faults.{first_fault_of};
ghost use Rattle.il_check.specs.NamesView.{names_of};
ghost use Rattle.il_check.specs.ProgramViews.{entry_view, item_view};
ghost use Rattle.il_check.specs.Program as plain;
ghost use Rattle.il_check.specs.SourceOperands.{resolution_of};
ghost use Rattle.il_check.specs.Typing as typing;
ghost use Rattle.il_check.specs.WalkView.{progress_of};
ghost use Rattle.il_check.specs.WellTyped as spec;
ghost use Rattle.il_check.specs.Limits.{most_nested};

use crate::fault::CheckFault;
use crate::judge::{
    InstructionContext, ParenthesisEnd, note_closing, note_instruction, note_label, note_opening,
};
use crate::names::ProgramNames;
use crate::note::note_if;
use crate::reach::{Reach, join, unreached};
use crate::rules::{falls_through, target_of, type_after, type_after_operator};
use crate::source_operand::Resolved;
use crate::typed::{TypedEntry, TypedItem};
use crate::typing::{typed_operation, typed_transfer};
use bay_base::types::ElementaryType;
use il_text::program::{Instruction, Item, Operator};
use std::alloc::{AllocError, Global};

// The maximum nesting depth of parentheses.
const MAX_DEPTH: usize = 16;

/// The state of the walk from item to item: the fault to report, if any so far, and a buffer for
/// looking up names.
#[derive(Drop)]
pub(crate) struct Checker {
    pub(crate) alloc: Global,
    pub(crate) buffer: String,
    pub(crate) found: Option<CheckFault>,
}

// The operator of a parenthesis, and the lines of its opening and its closing.
#[derive(Clone, Copy)]
struct Parenthesis {
    line: usize,
    operator: Operator,
    negated: bool,
    end: usize,
}

// The typed form of one entry, if it has one, and the type of the result after it.
#[derive(Drop)]
struct CheckedEntry {
    entry: Option<TypedEntry>,
    kind: Option<ElementaryType>,
}

// The typed forms of entries, and the type of the result after them.
#[derive(Drop)]
struct CheckedEntries {
    entries: Vec<TypedEntry>,
    kind: Option<ElementaryType>,
}

impl Checker {
    // Resolves the names of an instruction and notes its faults.
    fn check_instruction(
        &mut self,
        names: &ProgramNames,
        context: InstructionContext,
        line: usize,
        instruction: Instruction<'_>,
        kind: Option<ElementaryType>,
    ) -> Result<Resolved, AllocError>
        ensures resolved { IfOk result
            (λ r. r ≡ resolution_of (names_of names.now) (action_of instruction.entry)) }
        ensures found { OnOk result (self.new.found
            ≡ first_fault_of self.old.found
            (spec.instruction_faults context.is_reached context.passed line
            (resolution_of (names_of names.now) (action_of instruction.entry)) kind)) }
    {
        let resolved = names.resolve(&mut self.buffer, instruction)?;
        self.found = note_instruction(self.found, context, line, resolved, kind);
        Ok(resolved)
    }

    // Checks an instruction in a parenthesis, on a result of this type, or `None` if it is not
    // set.
    fn check_inner_action(
        &mut self,
        names: &ProgramNames,
        context: InstructionContext,
        line: usize,
        instruction: Instruction<'_>,
        kind: Option<ElementaryType>,
    ) -> Result<CheckedEntry, AllocError>
        ensures kind { IfOk result
            (λ l. l.kind ≡ spec.type_after_entry (names_of names.now)
            (text.action line (action_of instruction.entry)) kind) }
        ensures left { IfOk result
            (λ l. option_map entry_view l.entry
            ≡ spec.typed_entry_of (names_of names.now) context.room
            (text.action line (action_of instruction.entry)) kind) }
        ensures found { OnOk result (self.new.found
            ≡ first_fault_of self.old.found
            (spec.entry_faults (names_of names.now) context.room context.is_reached context.passed
            (text.action line (action_of instruction.entry)) kind)) }
    {
        let resolved = self.check_instruction(names, context, line, instruction, kind)?;
        Ok(CheckedEntry {
            entry: action_entry(resolved, kind),
            kind: type_after(resolved, kind),
        })
    }

    // Checks the entries of a parenthesis.
    #[cycle(entries)]
    fn check_entries(
        &mut self,
        names: &ProgramNames,
        context: InstructionContext,
        items: &[Item<'_>],
    ) -> Result<CheckedEntries, AllocError>
        ensures kind { IfOk result
            (λ p. p.kind ≡ spec.type_after_entries (names_of names.now)
            (text.entries_of (map entry_of items.now)) None) }
        ensures left { IfOk result
            (λ p. plain.entries_of (map entry_view p.entries.items)
            ≡ spec.typed_entries_of (names_of names.now) context.room
            (text.entries_of (map entry_of items.now)) None) }
        ensures found { OnOk result (self.new.found
            ≡ first_fault_of self.old.found
            (spec.entries_faults (names_of names.now) context.room context.is_reached context.passed
            (text.entries_of (map entry_of items.now)) None)) }
    {
        let mut passed = CheckedEntries {
            entries: Vec::new(self.alloc),
            kind: None,
        };
        for item in items {
            let left = self.check_entry(names, context, item, passed.kind)?;
            passed.add(left)?;
        }
        Ok(passed)
    }

    // Checks one entry, on a result of this type, or `None` if it is not set.
    #[cycle(entries)]
    #[tactic(auto, using(crate::proofs::EntryLemmas::entry_rules))]
    fn check_entry(
        &mut self,
        names: &ProgramNames,
        context: InstructionContext,
        item: &Item<'_>,
        kind: Option<ElementaryType>,
    ) -> Result<CheckedEntry, AllocError>
        ensures kind { IfOk result
            (λ l. l.kind ≡ spec.type_after_entry (names_of names.now) (entry_of item.now) kind) }
        ensures left { IfOk result
            (λ l. option_map entry_view l.entry
            ≡ spec.typed_entry_of (names_of names.now) context.room (entry_of item.now) kind) }
        ensures found { OnOk result (self.new.found
            ≡ first_fault_of self.old.found
            (spec.entry_faults (names_of names.now) context.room context.is_reached context.passed
            (entry_of item.now) kind)) }
    {
        match item {
            Item::Label { .. } => Ok(CheckedEntry { entry: None, kind }),
            Item::Instruction { line, instruction } => {
                self.check_inner_action(names, context, *line, *instruction, kind)
            }
            Item::Block {
                line,
                operator,
                negated,
                items,
                end,
            } => {
                let parenthesis = Parenthesis {
                    line: *line,
                    operator: *operator,
                    negated: *negated,
                    end: *end,
                };
                let entry = self.check_parenthesis(
                    names,
                    context,
                    parenthesis,
                    items.as_slice(),
                    kind,
                )?;
                Ok(CheckedEntry {
                    entry,
                    kind: type_after_operator(*operator, kind),
                })
            }
        }
    }

    // Checks a parenthesis on a result of this type, or `None` if it is not set, and returns its
    // typed form. The contents of one nested too deep are not checked.
    #[cycle(entries)]
    fn check_parenthesis(
        &mut self,
        names: &ProgramNames,
        context: InstructionContext,
        parenthesis: Parenthesis,
        items: &[Item<'_>],
        kind: Option<ElementaryType>,
    ) -> Result<Option<TypedEntry>, AllocError>
        ensures left { IfOk result (λ b. option_map entry_view b
            ≡ spec.typed_entry_of (names_of names.now) context.room
            (text.block parenthesis.line parenthesis.operator parenthesis.negated
            (text.entries_of (map entry_of items.now)) parenthesis.end) kind) }
        ensures found { OnOk result (self.new.found
            ≡ first_fault_of self.old.found
            (spec.entry_faults (names_of names.now) context.room context.is_reached context.passed
            (text.block parenthesis.line parenthesis.operator parenthesis.negated
            (text.entries_of (map entry_of items.now)) parenthesis.end) kind)) }
    {
        let Parenthesis {
            line,
            operator,
            negated,
            end,
        } = parenthesis;
        self.found = note_opening(self.found, context.is_reached, line, operator);
        if context.room == 0 {
            self.found = note_if(self.found, true, CheckFault::TooMany { line });
            return Ok(typed_block(operator, negated, Vec::new(self.alloc), kind));
        }
        let within = InstructionContext {
            is_reached: context.is_reached,
            passed: context.passed,
            room: context.room - 1,
        };
        let inner = self.check_entries(names, within, items)?;
        let closing = ParenthesisEnd {
            operator,
            negated,
            inner: inner.kind,
        };
        self.found = note_closing(self.found, context.is_reached, end, closing, kind);
        Ok(typed_block(operator, negated, inner.entries, kind))
    }
}

// Returns a parenthesis whose operator works on a result of this type.
#[tactic(auto, using(crate::proofs::ViewLemmas::view_rules))]
fn typed_block(
    operator: Operator,
    negated: bool,
    entries: Vec<TypedEntry>,
    kind: Option<ElementaryType>,
) -> Option<TypedEntry>
    ensures { option_map entry_view result
        ≡ typing.typed_block operator negated (plain.entries_of (map entry_view entries.items))
        kind }
{
    match kind {
        Some(kind) => Some(TypedEntry::Block {
            operator,
            kind,
            negated,
            entries,
        }),
        None => None,
    }
}

// Returns the typed form of an instruction as an entry.
#[tactic(auto, using(crate::proofs::ViewLemmas::view_rules))]
fn action_entry(resolved: Resolved, kind: Option<ElementaryType>) -> Option<TypedEntry>
    ensures { option_map entry_view result ≡ typing.action_entry resolved kind }
{
    match typed_operation(resolved, kind) {
        Some(operation) => Some(TypedEntry::Operation(operation)),
        None => None,
    }
}

// Returns the typed form of an instruction as an item.
fn action_item(resolved: Resolved, kind: Option<ElementaryType>) -> Option<TypedItem>
    ensures { option_map item_view result ≡ typing.action_item resolved kind }
{
    if let Some(transfer) = typed_transfer(resolved) {
        return Some(TypedItem::Transfer(transfer));
    }
    match action_entry(resolved, kind) {
        Some(entry) => Some(TypedItem::Entry(entry)),
        None => None,
    }
}

impl CheckedEntries {
    // Appends one entry, if it has a typed form.
    #[tactic(auto, using(crate::proofs::ViewLemmas::view_rules))]
    fn add(&mut self, left: CheckedEntry) -> Result<(), AllocError>
        ensures kind { OnOk result (self.new.kind ≡ left.kind) }
        ensures left { OnOk result (map entry_view self.new.entries.items
            ≡ map entry_view self.old.entries.items
            ++ option_to_list (option_map entry_view left.entry)) }
    {
        let CheckedEntry { entry, kind } = left;
        if let Some(entry) = entry {
            self.entries.push(entry)?;
        }
        self.kind = kind;
        Ok(())
    }
}

/// The typed items of a program so far, and the state before the next one.
#[derive(Drop)]
pub(crate) struct Walk {
    pub(crate) reach: Reach,
    pub(crate) arrivals: Vec<Reach>,
    pub(crate) passed: usize,
    pub(crate) items: Vec<TypedItem>,
}

impl Walk {
    // Returns the context of the next item, which is in no parenthesis.
    fn context(&self) -> InstructionContext
        ensures { result ≡ record
            { is_reached = self.now.reach.is_reached; passed = self.now.passed; room = most_nested } }
    {
        InstructionContext {
            is_reached: self.reach.is_reached,
            passed: self.passed,
            room: MAX_DEPTH,
        }
    }

    // Returns what the jumps read so far bring to the label with this number.
    fn arrival(&self, label: usize) -> Reach
        ensures { result ≡ spec.arrival (slice_get self.now.arrivals.items label) }
    {
        match self.arrivals.as_slice().get(label) {
            Some(reach) => *reach,
            None => unreached(),
        }
    }

    // Records what a jump brings to its label.
    fn record_arrival(&mut self, label: Option<usize>)
        ensures arrivals { self.new.arrivals.items
            ≡ spec.arrival_at label self.old.reach self.old.arrivals.items }
        ensures reach { self.new.reach ≡ self.old.reach }
        ensures passed { self.new.passed ≡ self.old.passed }
        ensures items { self.new.items ≡ self.old.items }
    {
        if let Some(label) = label {
            let reach = join(self.arrival(label), self.reach);
            if label < self.arrivals.len() {
                self.arrivals[label] = reach;
            }
        }
    }

    // Updates the state after an instruction.
    fn follow(&mut self, resolved: Resolved)
        ensures progress { progress_of self.new
            ≡ spec.progress_after_action resolved (progress_of self.old) }
        ensures items { self.new.items ≡ self.old.items }
    {
        self.record_arrival(target_of(resolved));
        self.reach = Reach {
            is_reached: self.reach.is_reached && falls_through(resolved),
            kind: type_after(resolved, self.reach.kind),
        };
    }

    // Updates the state after a label.
    fn enter_label(&mut self)
        requires { self.old.passed < usize.MAX }
        ensures progress { progress_of self.new ≡ spec.progress_after_label (progress_of self.old) }
        ensures items { self.new.items ≡ self.old.items }
    {
        self.reach = join(self.reach, self.arrival(self.passed));
        self.passed += 1;
    }

    // Appends one item, if there is one.
    #[tactic(auto, using(crate::proofs::ViewLemmas::view_rules))]
    fn add(&mut self, item: Option<TypedItem>) -> Result<(), AllocError>
        ensures items { OnOk result (map item_view self.new.items.items
            ≡ map item_view self.old.items.items ++ option_to_list (option_map item_view item)) }
        ensures progress { OnOk result (progress_of self.new ≡ progress_of self.old) }
    {
        if let Some(item) = item {
            self.items.push(item)?;
        }
        Ok(())
    }

    // Leaves the typed items unchanged, or clears them once a fault is found: a program with a
    // fault has none.
    fn clear_if_faulty(&mut self, found: Option<CheckFault>)
        ensures items { found ≡ None → self.new.items ≡ self.old.items }
        ensures progress { progress_of self.new ≡ progress_of self.old }
    {
        if found.is_some() {
            self.items.clear();
        }
    }

    // Appends the typed form of an instruction, if it has one.
    fn add_instruction(&mut self, resolved: Resolved) -> Result<(), AllocError>
        ensures items { OnOk result (map item_view self.new.items.items
            ≡ map item_view self.old.items.items
            ++ option_to_list (typing.action_item resolved self.old.reach.kind)) }
        ensures progress { OnOk result (progress_of self.new ≡ progress_of self.old) }
    {
        self.add(action_item(resolved, self.reach.kind))
    }

    // Appends a label, by its number.
    fn add_label(&mut self) -> Result<(), AllocError>
        requires { self.old.passed < usize.MAX }
        ensures items { OnOk result
            (map item_view self.new.items.items
            ≡ map item_view self.old.items.items ++ plain.label self.old.passed ∷ []) }
        ensures progress { OnOk result
            (progress_of self.new ≡ spec.progress_after_label (progress_of self.old)) }
    {
        self.items.push(TypedItem::Label(self.passed))?;
        self.enter_label();
        Ok(())
    }

    // Appends a parenthesis, if it has a typed form.
    #[tactic(auto, using(crate::proofs::ViewLemmas::view_rules))]
    fn add_block(&mut self, left: CheckedEntry) -> Result<(), AllocError>
        ensures items { OnOk result (map item_view self.new.items.items
            ≡ map item_view self.old.items.items
            ++ option_to_list (option_map (λ e. plain.plain (entry_view e)) left.entry)) }
        ensures progress { OnOk result (progress_of self.new
            ≡ record {
              now = record { is_reached = self.old.reach.is_reached; kind = left.kind };
              arrivals = self.old.arrivals.items;
              passed = self.old.passed;
            }) }
    {
        let CheckedEntry { entry, kind } = left;
        if let Some(entry) = entry {
            self.items.push(TypedItem::Entry(entry))?;
        }
        self.reach.kind = kind;
        Ok(())
    }
}

impl Checker {
    // Checks a label.
    fn check_label(
        &mut self,
        names: &ProgramNames,
        line: usize,
        name: &str,
        walk: &mut Walk,
    ) -> Result<(), AllocError>
        requires { walk.old.passed < usize.MAX }
        ensures progress { OnOk result
            (progress_of walk.new ≡ spec.progress_after_entry (names_of names.now)
            (text.label line name.now)
            (progress_of walk.old)) }
        ensures items { OnOk result
            (map item_view walk.new.items.items
            ≡ map item_view walk.old.items.items ++ plain.label walk.old.passed ∷ []) }
        ensures found { OnOk result
            (self.new.found ≡ first_fault_of self.old.found
            (spec.item_faults (names_of names.now) (text.label line name.now)
            (progress_of walk.old))) }
    {
        let number = names.find_label(&mut self.buffer, name)?;
        self.found = note_label(self.found, line, number, walk.passed);
        walk.add_label()
    }

    // Checks an instruction outside parentheses.
    fn check_action(
        &mut self,
        names: &ProgramNames,
        line: usize,
        instruction: Instruction<'_>,
        walk: &mut Walk,
    ) -> Result<(), AllocError>
        ensures progress { OnOk result
            (progress_of walk.new ≡ spec.progress_after_entry (names_of names.now)
            (text.action line (action_of instruction.entry)) (progress_of walk.old)) }
        ensures items { OnOk result (map item_view walk.new.items.items
            ≡ map item_view walk.old.items.items
            ++ option_to_list (spec.typed_item_of (names_of names.now)
            (text.action line (action_of instruction.entry)) (progress_of walk.old))) }
        ensures found { OnOk result (self.new.found
            ≡ first_fault_of self.old.found
            (spec.item_faults (names_of names.now)
            (text.action line (action_of instruction.entry)) (progress_of walk.old))) }
    {
        let resolved = self.check_instruction(
            names,
            walk.context(),
            line,
            instruction,
            walk.reach.kind,
        )?;
        walk.add_instruction(resolved)?;
        walk.follow(resolved);
        Ok(())
    }

    // Checks a parenthesis that is not inside another.
    fn check_block(
        &mut self,
        names: &ProgramNames,
        item: &Item<'_>,
        walk: &mut Walk,
    ) -> Result<(), AllocError>
        ensures progress { OnOk result (progress_of walk.new
            ≡ record {
              now = record {
                is_reached = walk.old.reach.is_reached;
                kind = spec.type_after_entry (names_of names.now) (entry_of item.now)
                    walk.old.reach.kind;
              };
              arrivals = walk.old.arrivals.items;
              passed = walk.old.passed;
            }) }
        ensures items { OnOk result (map item_view walk.new.items.items
            ≡ map item_view walk.old.items.items
            ++ option_to_list (option_map plain.plain
            (spec.typed_entry_of (names_of names.now) most_nested (entry_of item.now)
            walk.old.reach.kind))) }
        ensures found { OnOk result (self.new.found
            ≡ first_fault_of self.old.found
            (spec.entry_faults (names_of names.now) most_nested walk.old.reach.is_reached
            walk.old.passed
            (entry_of item.now) walk.old.reach.kind)) }
    {
        let left = self.check_entry(names, walk.context(), item, walk.reach.kind)?;
        walk.add_block(left)
    }

    // Checks one item.
    #[tactic(auto, using(crate::proofs::EntryLemmas::entry_rules))]
    fn check_item(
        &mut self,
        names: &ProgramNames,
        item: &Item<'_>,
        walk: &mut Walk,
    ) -> Result<(), AllocError>
        requires { walk.old.passed < usize.MAX }
        ensures progress { OnOk result
            (progress_of walk.new ≡ spec.progress_after_entry (names_of names.now)
            (entry_of item.now)
            (progress_of walk.old)) }
        ensures items { OnOk result (map item_view walk.new.items.items
            ≡ map item_view walk.old.items.items
            ++ option_to_list (spec.typed_item_of (names_of names.now) (entry_of item.now)
            (progress_of walk.old))) }
        ensures found { OnOk result
            (self.new.found ≡ first_fault_of self.old.found
            (spec.item_faults (names_of names.now) (entry_of item.now) (progress_of walk.old))) }
    {
        match item {
            Item::Label { line, name } => self.check_label(names, *line, name, walk),
            Item::Instruction { line, instruction } => {
                self.check_action(names, *line, *instruction, walk)
            }
            Item::Block { .. } => self.check_block(names, item, walk),
        }
    }

    /// Checks all items of a program and returns their typed forms, none if a fault was found.
    /// Fails only if an allocation fails, and never if there are no items.
    pub(crate) fn check_items(
        &mut self,
        names: &ProgramNames,
        items: &[Item<'_>],
        arrivals: Vec<Reach>,
    ) -> Result<Vec<TypedItem>, AllocError>
        ensures left { IfOk result (λ left. self.new.found ≡ None
            → map item_view left.items
            ≡ spec.typed_items_of (names_of names.now) (map entry_of items.now)
            (spec.start_progress arrivals.items)) }
        ensures found { OnOk result (self.new.found
            ≡ first_fault_of self.old.found
            (spec.items_faults (names_of names.now) (map entry_of items.now)
            (spec.start_progress arrivals.items))) }
        ensures memory { IfErr result (λ e. 0 < length items.now) }
    {
        let mut walk = Walk {
            reach: Reach {
                is_reached: true,
                kind: None,
            },
            arrivals,
            passed: 0,
            items: Vec::new(self.alloc),
        };
        for item in items {
            self.check_item(names, item, &mut walk)?;
            walk.clear_if_faulty(self.found);
        }
        let Walk { items, .. } = walk;
        Ok(items)
    }
}
