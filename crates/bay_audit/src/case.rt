// A case: some tests of the process with their answers, and the values that they allow.
ghost use Rattle.std.specs.Prelude.{◌≡◌, IfOk, IfSome, ◌++◌, ◌∷◌, [], Some};
ghost use Rattle.bay_audit.specs.Cases as spec;
ghost use Rattle.bay_audit.specs.Process.{process_value};
ghost use Rattle.il_range.specs.Ranges.{has_position};

use bay_base::position::Dbpos;
use bay_config::bay::{MeterField, Source, SwitchPoint};
use bay_process::scan::value_at_position;
use il_image::value::Value;
use il_range::range::{Positions, Range, among};
use std::alloc::{AllocError, Global};
use std::marker::Model;

/// Returns the set of a position alone.
pub(crate) fn only(position: Dbpos) -> Positions
    ensures { result ≡ spec.only position }
{
    Positions {
        intermediate: position == Dbpos::Intermediate,
        off: position == Dbpos::Off,
        on: position == Dbpos::On,
        bad: position == Dbpos::Bad,
    }
}

/// Returns whether a position is in a set.
pub(crate) fn has_position(positions: Positions, position: Dbpos) -> bool
    ensures { result ≡ has_position positions position }
{
    match position {
        Dbpos::Intermediate => positions.intermediate,
        Dbpos::Off => positions.off,
        Dbpos::On => positions.on,
        Dbpos::Bad => positions.bad,
    }
}

/// A test of the values that the process reports.
#[derive(Clone, Copy)]
pub enum Test {
    /// The switch at this index, counted from 0, has one of these positions.
    Position {
        switch: usize,
        positions: Positions,
    },
    /// The input at this index is TRUE.
    Input {
        input: usize,
    },
    /// The measured value of a field of the meter at this index is at most this number.
    AtMost {
        meter: usize,
        field: MeterField,
        most: i32,
    },
}

/// A test with its answer.
#[derive(Clone, Copy)]
pub struct TestAnswer {
    pub test: Test,
    pub value: bool,
}

impl TestAnswer {
    // Returns whether the switch may have the position.
    fn allows_position(self, switch: usize, position: Dbpos) -> bool
        ensures { result ≡ spec.allows_position switch position self }
    {
        match self.test {
            Test::Position {
                switch: at,
                positions,
            } => at != switch || has_position(positions, position) == self.value,
            Test::Input { .. } | Test::AtMost { .. } => true,
        }
    }

    // Returns whether the input may have the value.
    fn allows_input(self, input: usize, wanted: bool) -> bool
        ensures { result ≡ spec.allows_input input wanted self }
    {
        match self.test {
            Test::Input { input: at } => at != input || wanted == self.value,
            Test::Position { .. } | Test::AtMost { .. } => true,
        }
    }

    // Returns the least number that a measured value may have, if it was at least `low`.
    fn low_after(self, meter: usize, field: MeterField, low: i64) -> i64
        ensures { result ≡ spec.low_after meter field low self }
    {
        match self.test {
            Test::AtMost {
                meter: at,
                field: which,
                most,
            } => {
                if at == meter && which == field && !self.value {
                    greater(low, i64::from(most) + 1)
                } else {
                    low
                }
            }
            Test::Position { .. } | Test::Input { .. } => low,
        }
    }

    // Returns the greatest number that a measured value may have, if it was at most `high`.
    fn high_after(self, meter: usize, field: MeterField, high: i64) -> i64
        ensures { result ≡ spec.high_after meter field high self }
    {
        match self.test {
            Test::AtMost {
                meter: at,
                field: which,
                most,
            } => {
                if at == meter && which == field && self.value {
                    lesser(high, i64::from(most))
                } else {
                    high
                }
            }
            Test::Position { .. } | Test::Input { .. } => high,
        }
    }
}

// Returns the greater of two numbers.
fn greater(low: i64, other: i64) -> i64
    ensures { result ≡ spec.greater_int low other }
{
    if low < other { other } else { low }
}

// Returns the lesser of two numbers.
fn lesser(high: i64, other: i64) -> i64
    ensures { result ≡ spec.lesser_int high other }
{
    if other < high { other } else { high }
}

// Returns the first position that a switch may have.
fn first_position(intermediate: bool, off: bool, on: bool) -> Dbpos
    ensures { result ≡ spec.first_position intermediate off on }
{
    if intermediate {
        Dbpos::Intermediate
    } else if off {
        Dbpos::Off
    } else if on {
        Dbpos::On
    } else {
        Dbpos::Bad
    }
}

// Returns the range of a truth value that may be TRUE (`yes`) and may be FALSE (`no`).
fn truth_range(yes: bool, no: bool) -> Range
    ensures { result ≡ spec.truth_range yes no }
{
    match (yes, no) {
        (true, false) => Range::Yes,
        (false, true) => Range::No,
        _ => Range::Either,
    }
}

// Returns the number of the first position that a switch may have.
fn least_position(intermediate: bool, off: bool, on: bool) -> i64
    ensures { result ≡ spec.least_position intermediate off on }
{
    if intermediate {
        0
    } else if off {
        1
    } else if on {
        2
    } else {
        3
    }
}

// Returns the number of the last position that a switch may have.
fn greatest_position(off: bool, on: bool, bad: bool) -> i64
    ensures { result ≡ spec.greatest_position off on bad }
{
    if bad {
        3
    } else if on {
        2
    } else if off {
        1
    } else {
        0
    }
}

// Returns whether a switch has the position `which`, for one that has the position `at` if it may,
// and else the first that it may have.
fn has_at(which: Dbpos, first: Dbpos, may: bool, at: Dbpos) -> bool
    ensures { result ≡ spec.has_at which first may at }
{
    if may { which == at } else { which == first }
}

// Returns the set of the position `which`, for a switch that may have these positions: each other
// position counts as the first that it may have.
fn distinguished_positions(
    which: Dbpos,
    intermediate: bool,
    off: bool,
    on: bool,
    bad: bool,
) -> Positions
    ensures { result ≡ spec.distinguished_positions which intermediate off on bad }
{
    let first = first_position(intermediate, off, on);
    Positions {
        intermediate: has_at(which, first, intermediate, Dbpos::Intermediate),
        off: has_at(which, first, off, Dbpos::Off),
        on: has_at(which, first, on, Dbpos::On),
        bad: has_at(which, first, bad, Dbpos::Bad),
    }
}

// Returns the range of a point of a switch that may have these positions.
fn position_range(
    switch: usize,
    point: SwitchPoint,
    intermediate: bool,
    off: bool,
    on: bool,
    bad: bool,
) -> Range
    ensures { result ≡ spec.position_range switch point intermediate off on bad }
{
    match point {
        SwitchPoint::Position => Range::Between(
            least_position(intermediate, off, on),
            greatest_position(off, on, bad),
        ),
        SwitchPoint::Open => among(
            switch,
            distinguished_positions(Dbpos::Off, intermediate, off, on, bad),
        ),
        SwitchPoint::Closed => among(
            switch,
            distinguished_positions(Dbpos::On, intermediate, off, on, bad),
        ),
        SwitchPoint::EnableOpen | SwitchPoint::EnableClose => Range::No,
    }
}

/// A case: tests of the process, each with its answer. A process is in the case if it gives these
/// answers.
#[derive(Drop)]
pub struct Case {
    literals: Vec<TestAnswer>,
}

impl Model for Case {
    ghost use Rattle.std.specs.Prelude.{List};
    ghost use Rattle.bay_audit.specs.declared.case.TestAnswer.{TestAnswer};

    ghost Value = { List TestAnswer };

    ghost view = { λ c. c.literals.items };
}

impl Case {
    /// Makes the case of all processes. Does not allocate.
    pub fn new(alloc: Global) -> Self
        ensures { result ≡ [] }
    {
        Case {
            literals: Vec::new(alloc),
        }
    }

    /// Returns a list with only the case of all processes. Fails only if an allocation fails.
    pub fn all(alloc: Global) -> Result<Vec<Case>, AllocError>
        ensures { IfOk result (λ cases. cases.items ≡ [] ∷ []) }
    {
        let mut cases = Vec::new(alloc);
        cases.push(Case::new(alloc))?;
        Ok(cases)
    }

    /// Makes the case of a process that is lost: each of the first `switches` switches has a bad
    /// position, and each of the first `inputs` inputs is FALSE. Fails only if an allocation fails.
    pub fn lost(alloc: Global, switches: usize, inputs: usize) -> Result<Self, AllocError>
        ensures { IfOk result (λ case. case ≡ spec.lost_case switches inputs) }
    {
        let mut literals = Vec::new(alloc);
        for switch in 0..switches {
            let test = Test::Position {
                switch,
                positions: only(Dbpos::Bad),
            };
            literals.push(TestAnswer { test, value: true })?;
        }
        for input in 0..inputs {
            let test = Test::Input { input };
            literals.push(TestAnswer { test, value: false })?;
        }
        Ok(Case { literals })
    }

    /// Returns the part of the case in which a test has this answer. Fails only if an allocation
    /// fails.
    pub fn with(&self, alloc: Global, test: Test, value: bool) -> Result<Case, AllocError>
        ensures { IfOk result (λ case. case ≡ self.now
            ++ record { test = test; value = value } ∷ []) }
    {
        let mut literals = Vec::from_slice(alloc, self.literals.as_slice())?;
        literals.push(TestAnswer { test, value })?;
        Ok(Case { literals })
    }

    /// Returns whether the switch at an index may have a position.
    pub fn may_be(&self, switch: usize, position: Dbpos) -> bool
        ensures { result ≡ spec.may_be self.now switch position }
    {
        self.literals
            .iter()
            .all(|literal| literal.allows_position(switch, position))
    }

    /// Returns whether the input at an index may have a value.
    pub fn input_may(&self, input: usize, wanted: bool) -> bool
        ensures { result ≡ spec.input_may self.now input wanted }
    {
        self.literals
            .iter()
            .all(|literal| literal.allows_input(input, wanted))
    }

    /// Returns the least number that a field of a meter may have.
    pub fn low_of(&self, meter: usize, field: MeterField) -> i64
        ensures { result ≡ spec.low_of self.now meter field }
    {
        let mut low = i64::from(i32::MIN);
        for literal in self.literals.as_slice() {
            low = literal.low_after(meter, field, low);
        }
        low
    }

    /// Returns the greatest number that a field of a meter may have.
    pub fn high_of(&self, meter: usize, field: MeterField) -> i64
        ensures { result ≡ spec.high_of self.now meter field }
    {
        let mut high = i64::from(i32::MAX);
        for literal in self.literals.as_slice() {
            high = literal.high_after(meter, field, high);
        }
        high
    }

    // Returns the first position that a switch may have.
    fn example_position(&self, switch: usize) -> Dbpos
        ensures { result ≡ (spec.example_of self.now).position switch }
    {
        first_position(
            self.may_be(switch, Dbpos::Intermediate),
            self.may_be(switch, Dbpos::Off),
            self.may_be(switch, Dbpos::On),
        )
    }

    // Returns the first number that a field of a meter may have.
    fn example_measure(&self, meter: usize, field: MeterField) -> i64
        ensures { result ≡ (spec.example_of self.now).measure meter field }
    {
        lesser(i64::from(i32::MAX), self.low_of(meter, field))
    }

    /// Returns the value of a source in the example of the case, where each point has the first
    /// value that it may have; `None` if a measured value does not fit 32 bits.
    pub fn example_value(&self, source: Source) -> Option<Value>
        ensures { IfSome result (λ v. v ≡ process_value (spec.example_of self.now) source) }
    {
        match source {
            Source::Switch { switch, point } => {
                Some(value_at_position(point, self.example_position(switch)))
            }
            Source::Input { input } => Some(Value::Truth(self.input_may(input, true))),
            Source::Meter { meter, field } => {
                match i32::try_from(self.example_measure(meter, field)) {
                    Ok(number) => Some(Value::Long(number)),
                    Err(_) => None,
                }
            }
        }
    }

    // Returns the answer of the example of the case to a test.
    fn answer_of(&self, test: Test) -> bool
        ensures { result ≡ spec.answer_of (spec.example_of self.now) test }
    {
        match test {
            Test::Position { switch, positions } => {
                has_position(positions, self.example_position(switch))
            }
            Test::Input { input } => self.input_may(input, true),
            Test::AtMost { meter, field, most } => {
                self.example_measure(meter, field) <= i64::from(most)
            }
        }
    }

    /// Returns whether the example of the case is in the case.
    pub fn has_example(&self) -> bool
        ensures { result ≡ spec.is_in self.now (spec.example_of self.now) }
    {
        self.literals
            .iter()
            .all(|literal| self.answer_of(literal.test) == literal.value)
    }

    /// Returns the range of the values that a source may have in the case.
    pub fn range_of(&self, source: Source) -> Range
        ensures { result ≡ spec.range_of self.now source }
    {
        match source {
            Source::Switch { switch, point } => position_range(
                switch,
                point,
                self.may_be(switch, Dbpos::Intermediate),
                self.may_be(switch, Dbpos::Off),
                self.may_be(switch, Dbpos::On),
                self.may_be(switch, Dbpos::Bad),
            ),
            Source::Input { input } => {
                truth_range(self.input_may(input, true), self.input_may(input, false))
            }
            Source::Meter { meter, field } => {
                Range::Between(self.low_of(meter, field), self.high_of(meter, field))
            }
        }
    }
}
