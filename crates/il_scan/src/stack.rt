// The operand stack: words, which contracts see with the top first.
ghost use Rattle.std.specs.Prelude.{◌≡◌, ◌<◌, ◌∷◌, [], drop, length};
ghost use Rattle.il_image.specs.Machine.{most_cells};
ghost use Rattle.il_scan.specs.WordEffects as spec;

use arrayvec::ArrayVec;
use std::marker::Model;

// The number of words that the stack has room for.
const ROOM: usize = 32;

/// The operand stack. Verified code always leaves room for a pushed word and has a word to pop, so
/// neither is checked.
#[derive(Drop)]
pub(crate) struct OperandStack {
    words: ArrayVec<i64, ROOM>,
}

impl Model for OperandStack {
    ghost use Rattle.std.specs.Prelude.{◌≤◌, ℤ, List, length, reverse};
    ghost use Rattle.il_image.specs.Machine.{most_cells};

    ghost Value = { List ℤ };

    ghost view = { λ s. reverse s.words.items };

    ghost invariant = { λ s. length s.words.items ≤ most_cells };
}

impl OperandStack {
    /// Creates an empty stack.
    #[inline(always)]
    pub(crate) fn new() -> OperandStack
        ensures { result ≡ [] }
    {
        OperandStack {
            words: ArrayVec::new(),
        }
    }

    /// Pops the top.
    #[inline(always)]
    pub(crate) fn pop(&mut self) -> i64
        requires { 0 < length self.old }
        ensures is { self.old ≡ result ∷ self.new }
        ensures room { length self.new < most_cells }
    {
        self.words.swap_remove(self.words.len() - 1)
    }

    /// Pushes a word.
    #[inline(always)]
    pub(crate) fn push(&mut self, word: i64)
        requires { length self.old < most_cells }
        ensures { self.new ≡ word ∷ self.old }
    {
        self.words.push(word);
    }

    /// Returns the top.
    #[inline(always)]
    pub(crate) fn top(&self) -> i64
        requires { 0 < length self.now }
        ensures { result ≡ spec.top self.now }
    {
        let words = self.words.as_slice();
        words[words.len() - 1]
    }

    /// Replaces the top by a word.
    #[inline(always)]
    pub(crate) fn replace_top(&mut self, word: i64)
        requires { 0 < length self.old }
        ensures { self.new ≡ word ∷ drop 1 self.old }
    {
        let words = self.words.as_mut_slice();
        let last = words.len() - 1;
        words[last] = word;
    }
}
