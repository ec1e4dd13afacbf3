// A list of truth values whose length never changes.
ghost use Rattle.std.specs.Prelude.{◌≡◌, ◌<◌, false, length, map, position, slice_get, slice_set};

use std::marker::Model;

/// The values of the inputs.
#[derive(Drop)]
pub struct InputValues {
    values: Vec<bool>,
}

impl Model for InputValues {
    ghost use Rattle.std.specs.Prelude.{List, Bool};

    ghost Value = { List Bool };

    ghost view = { λ v. v.values.items };
}

impl InputValues {
    /// Makes the list of these values. Does not allocate.
    pub fn new(values: Vec<bool>) -> Self
        ensures { result ≡ values.items }
    {
        InputValues { values }
    }

    /// Returns the number of values.
    pub fn count(&self) -> usize
        ensures { result ≡ length self.now }
    {
        self.values.len()
    }

    /// Returns the value at an index; `None` if there is none.
    pub fn get(&self, index: usize) -> Option<bool>
        ensures { result ≡ slice_get self.now index }
    {
        self.values.as_slice().get(index).copied()
    }

    /// Returns the index of the first value that is TRUE; `None` if none is.
    pub fn first_true(&self) -> Option<usize>
        ensures { result ≡ position (λ value. value) self.now }
    {
        self.values.iter().position(|value| *value)
    }

    /// Sets the value at an index.
    pub fn set(&mut self, index: usize, value: bool)
        requires { index < length self.old }
        ensures { self.new ≡ slice_set self.old index value }
    {
        self.values[index] = value;
    }

    /// Sets each value to FALSE.
    pub fn clear(&mut self)
        ensures { self.new ≡ map (λ _. false) self.old }
    {
        for index in 0..self.values.len() {
            self.values[index] = false;
        }
    }
}
