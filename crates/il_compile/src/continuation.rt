// Compiles the items of a program from the last to the first: the distance of a jump is known when
// the code that it skips is.
ghost use Rattle.std.specs.Prelude.{◌≡◌, ℕ, List, ◌+◌, ◌≤◌, ◌∷◌, [], ◌++◌, length, map, min, reverse, IfOk, OnOk};
ghost use Rattle.il_image.specs.Spelling.{spelling};
ghost use Rattle.il_check.specs.Program.{ProgramItem, label, plain, transfer};
ghost use Rattle.il_check.specs.ProgramViews.{entry_view, item_view};
ghost use Rattle.il_compile.specs.Continuation.{AreSpellable, IsContinuation, HasNoPending, IsSpellable, IsSpellableEntry, octets_bound};
ghost use Rattle.il_compile.specs.Code as spec;

use crate::emit::{put, put_call, put_entry, when_of};
use bay_base::types::ElementaryType;
use il_check::typed::{Transfer, TypedArguments, TypedEntry, TypedItem};
use il_image::instr::Instr;
use il_text::program::Condition;
use std::alloc::{AllocError, Global};
use std::collections::HashMap;

// The octets are counted up to this number.
const BOUND: u32 = 0x1_0000;

/// What is known of the continuation, the items after the current one.
#[derive(Drop)]
pub(crate) struct Continuation {
    /// The instructions of these items, the last first.
    pub(crate) instrs: Vec<Instr>,
    /// The number of octets of these instructions, counted up to 65,536.
    pub(crate) octets: u32,
    /// For each label, the number of octets after it.
    pub(crate) label_octets: HashMap<usize, u32>,
    /// The pending instructions of the item before them, in order, until they are moved there.
    pub(crate) pending: Vec<Instr>,
}

// Returns the number of octets of an instruction.
fn octets_of(instr: Instr) -> u32
    ensures { result ≡ length (spelling instr) }
{
    match instr {
        Instr::Push(value) => match value.type_of() {
            ElementaryType::Bool => 2,
            ElementaryType::Int => 3,
            ElementaryType::Dint => 5,
            ElementaryType::Lint => 9,
            ElementaryType::Time => 5,
        },
        Instr::Slot(_, _) => 3,
        Instr::Compute(_, _) => 2,
        Instr::Jump(_, _) => 3,
        Instr::Timer(_, _) => 3,
        _ => 1,
    }
}

// Returns the sum of two numbers of octets, counted up to 65,536.
fn bounded_sum(a: u32, b: u32) -> u32
    requires left { a ≤ octets_bound }
    requires right { b ≤ octets_bound }
    ensures { result ≡ min (a + b) octets_bound }
{
    let sum = a + b;
    if sum < BOUND { sum } else { BOUND }
}

// Prepends instructions to those of the continuation, which are stored with the last first. Returns
// the number of octets of all of them.
fn put_before(
    continuation: &mut Vec<Instr>,
    octets: u32,
    pending: &mut Vec<Instr>,
) -> Result<u32, AllocError>
    requires { octets ≤ octets_bound }
    ensures counted { IfOk result
        (λ all. all ≡ min (octets + spec.octets pending.old.items) octets_bound) }
    ensures before { OnOk result
        (reverse continuation.new.items ≡ pending.old.items ++ reverse continuation.old.items) }
    ensures empty { OnOk result (pending.new.items ≡ []) }
{
    let mut all = octets;
    while let Some(instr) = pending.pop() {
        all = bounded_sum(all, octets_of(instr));
        continuation.push(instr)?;
    }
    Ok(all)
}

impl Continuation {
    // Creates the state after the last item, where nothing follows.
    fn new(alloc: Global) -> Continuation
        ensures { (externals : ℕ) → HasNoPending externals [] result }
    {
        Continuation {
            instrs: Vec::new(alloc),
            octets: 0,
            label_octets: HashMap::new(alloc),
            pending: Vec::new(alloc),
        }
    }

    // Prepends the pending instructions to the continuation's code.
    fn prepend_pending(&mut self) -> Result<(), AllocError>
        requires { self.old.octets ≤ octets_bound }
        ensures counted { OnOk result
            (self.new.octets
            ≡ min (self.old.octets + spec.octets self.old.pending.items) octets_bound) }
        ensures before { OnOk result
            (reverse self.new.instrs.items
            ≡ self.old.pending.items ++ reverse self.old.instrs.items) }
        ensures empty { OnOk result (self.new.pending.items ≡ []) }
        ensures label_octets { OnOk result (self.new.label_octets ≡ self.old.label_octets) }
    {
        self.octets = put_before(&mut self.instrs, self.octets, &mut self.pending)?;
        Ok(())
    }

    // Prepends a label, which is where the continuation's code begins.
    fn put_label(&mut self, number: usize) -> Result<(), AllocError>
        ensures { (externals : ℕ) (is : List ProgramItem) → HasNoPending externals is self.old
            → OnOk result (HasNoPending externals (label number ∷ is) self.new) }
    {
        self.label_octets.insert(number, self.octets)?;
        Ok(())
    }

    // Prepends the instructions of an operation or a parenthesis.
    fn put_plain(&mut self, externals: usize, entry: &TypedEntry) -> Result<(), AllocError>
        requires bounded { self.old.octets ≤ octets_bound }
        requires spellable { IsSpellableEntry externals (entry_view entry.now) }
        ensures { (is : List ProgramItem) → HasNoPending externals is self.old
            → OnOk result (HasNoPending externals (plain (entry_view entry.now) ∷ is) self.new) }
    {
        put_entry(&mut self.pending, externals, entry)?;
        self.prepend_pending()
    }

    // Prepends a jump over the octets before its label.
    fn put_jump(&mut self, condition: Condition, label: usize) -> Result<(), AllocError>
        requires { self.old.octets ≤ octets_bound }
        ensures { (externals : ℕ) (is : List ProgramItem) → HasNoPending externals is self.old
            → OnOk result (HasNoPending externals (transfer (Transfer.Jump condition label) ∷ is)
            self.new) }
    {
        let place = self.label_octets.get(&label).copied().unwrap_or(0);
        let distance = self.octets.saturating_sub(place).min(0xFFFF) as u16;
        put(&mut self.pending, Instr::Jump(when_of(condition), distance))?;
        self.prepend_pending()
    }

    // Prepends a jump over the continuation's code.
    fn put_return(&mut self, condition: Condition) -> Result<(), AllocError>
        requires { self.old.octets ≤ octets_bound }
        ensures { (externals : ℕ) (is : List ProgramItem) → HasNoPending externals is self.old
            → OnOk result (HasNoPending externals (transfer (Transfer.Return condition) ∷ is)
            self.new) }
    {
        let distance = self.octets.min(0xFFFF) as u16;
        put(&mut self.pending, Instr::Jump(when_of(condition), distance))?;
        self.prepend_pending()
    }

    // Prepends a call of a timer.
    fn put_timer(
        &mut self,
        externals: usize,
        timer: usize,
        arguments: TypedArguments,
    ) -> Result<(), AllocError>
        requires bounded { self.old.octets ≤ octets_bound }
        requires spellable { IsSpellable externals (transfer (Transfer.Call timer arguments)) }
        ensures { (is : List ProgramItem) → HasNoPending externals is self.old
            → OnOk result (HasNoPending externals (transfer (Transfer.Call timer arguments) ∷ is)
            self.new) }
    {
        put_call(&mut self.pending, externals, timer as u16, arguments)?;
        self.prepend_pending()
    }

    // Prepends an item.
    fn put_item(&mut self, externals: usize, item: &TypedItem) -> Result<(), AllocError>
        requires bounded { self.old.octets ≤ octets_bound }
        requires spellable { IsSpellable externals (item_view item.now) }
        ensures { (is : List ProgramItem) → HasNoPending externals is self.old
            → OnOk result (HasNoPending externals (item_view item.now ∷ is) self.new) }
    {
        match item {
            TypedItem::Label(number) => self.put_label(*number),
            TypedItem::Entry(entry) => self.put_plain(externals, entry),
            TypedItem::Transfer(Transfer::Jump { condition, label }) => self.put_jump(
                *condition, *label,
            ),
            TypedItem::Transfer(Transfer::Return(condition)) => self.put_return(*condition),
            TypedItem::Transfer(Transfer::Call { timer, arguments }) => self.put_timer(
                externals, *timer, *arguments,
            ),
        }
    }
}

/// Compiles all items, from the last to the first. Fails only if an allocation fails.
pub(crate) fn compile_all(
    alloc: Global,
    externals: usize,
    items: &[TypedItem],
) -> Result<Continuation, AllocError>
    requires { AreSpellable externals (map item_view items.now) }
    ensures { IfOk result (λ continuation. HasNoPending externals (map item_view items.now)
        continuation) }
{
    let mut continuation = Continuation::new(alloc);
    let mut at = items.len();
    while at > 0 {
        at -= 1;
        continuation.put_item(externals, &items[at])?;
    }
    Ok(continuation)
}
