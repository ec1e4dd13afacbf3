// Inputs and outputs, and the initial slots and timers.
ghost use Rattle.std.specs.Prelude.{ℕ, ◌≡◌, ◌+◌, ◌<◌, ◌≤◌, ◌++◌, IfErr, IfOk, IsSome, OnOk, Some, drop, if◌then◌else◌, length, map, pos, slice_set};
ghost use Rattle.il_image.specs.Timers.{first_state};
ghost use Rattle.il_image.specs.Values as values;
ghost use Rattle.il_scan.specs.PointIndices as indices;
ghost use Rattle.il_scan.specs.PointIndices.{writable_count};
ghost use Rattle.il_scan.specs.Scans.{IsOutside};
ghost use Rattle.il_scan.specs.MachineStates.{AreWords};
ghost use Rattle.il_scan.specs.OutputValues as spec;
ghost use Rattle.il_scan.specs.PointIndices.{AllBelow, IsPut, IsRising, read_indices, with_words, write_indices};
ghost use Rattle.il_scan.specs.Words.{AreTyped, slot_at, value_at, words_of};

use crate::points::Inputs;
use crate::span::Span;
use bay_base::types::{ElementaryType, TimerKind};
use il_image::image::{Image, ImagePoint};
use il_image::timer::TimerState;
use il_image::value::Value;
use std::alloc::{AllocError, Global};

// Returns whether the value is one of the type.
fn is_of(elementary: ElementaryType, value: Value) -> bool
    ensures { result ≡ indices.is_of elementary value }
{
    value.type_of() == elementary && Value::of(elementary, value.number()).is_some()
}

// Returns whether there is a first input and it is of the type.
fn begins_with(elementary: ElementaryType, inputs: &[Value]) -> bool
    ensures { result ≡ indices.begins_with elementary inputs.now }
{
    match inputs {
        [input, ..] => is_of(elementary, *input),
        [] => false,
    }
}

// Returns the inputs after the first.
fn inputs_after_first(inputs: &[Value]) -> &[Value]
    ensures { result.now ≡ drop 1 inputs.now }
{
    match inputs {
        [_, later @ ..] => later,
        [] => inputs,
    }
}

/// Returns whether there is one input for each read-only point, in order, of the point's type.
pub(crate) fn are_inputs(points: &[ImagePoint], inputs: &[Value]) -> bool
    ensures { result ≡ indices.are_inputs points.now inputs.now }
{
    let mut rest = points;
    let mut left = inputs;
    while let [point, others @ ..] = rest {
        if !point.writable {
            if !begins_with(point.elementary, left) {
                return false;
            }
            left = inputs_after_first(left);
        }
        rest = others;
    }
    left.len() == 0
}

/// The indices of the points that are inputs, and of those that are outputs.
#[derive(Drop)]
pub(crate) struct PointIndices {
    /// The indices of the read-only points.
    pub reads: Vec<usize>,
    /// The indices of the writable points.
    pub writes: Vec<usize>,
}

/// Returns the indices of the read-only points and of the writable points.
pub(crate) fn point_indices(
    alloc: Global,
    points: &[ImagePoint],
) -> Result<PointIndices, AllocError>
    ensures reads { IfOk result (λ indices. indices.reads.items ≡ read_indices 0 points.now) }
    ensures writes { IfOk result (λ indices. indices.writes.items ≡ write_indices 0 points.now) }
    ensures memory { IfErr result (λ e. 0 < length points.now) }
{
    let mut reads = Vec::new(alloc);
    let mut writes = Vec::new(alloc);
    for place in 0..points.len() {
        if points[place].writable {
            writes.push(place)?;
        } else {
            reads.push(place)?;
        }
    }
    Ok(PointIndices { reads, writes })
}

// Writes an input to the slot at an index.
#[inline(always)]
fn write_input(slots: &mut [i64], place: usize, input: Value)
    requires { place < length slots.old }
    ensures { slots.new ≡ slice_set slots.old place (values.number_of input) }
{
    slots[place] = input.number();
}

/// Writes the inputs of a span to the slots of their points. The slots already hold the other
/// inputs, so they then hold all of them.
#[inline(always)]
pub(crate) fn read_inputs<I: Inputs>(reads: &[usize], inputs: &I, span: Span, slots: &mut [i64])
    requires within { AllBelow (length slots.old) reads.now }
    requires rising { IsRising reads.now }
    requires sized { length (I.types inputs.now) ≡ length reads.now }
    requires put { (k : ℕ) → IsOutside span k
        → IsPut reads.now (I.types inputs.now) (I.values inputs.now) slots.old k }
    ensures slots { slots.new ≡ with_words reads.now (words_of (I.values inputs.now)) slots.old }
    ensures typed { AreTyped (I.types inputs.now) (I.values inputs.now) }
{
    let count = reads.len();
    let to = if span.to < count { span.to } else { count };
    for k in span.from..to {
        write_input(slots, reads[k], inputs.input(k));
    }
}

// Returns the value that a word encodes, for a type.
#[inline(always)]
fn value_of(elementary: ElementaryType, word: i64) -> Value
    requires { IsSome (values.value_of elementary word) }
    ensures { result ≡ value_at elementary word }
{
    match Value::of(elementary, word) {
        Some(value) => value,
        None => unreachable!(),
    }
}

/// Returns the value of the point at an index.
#[inline(always)]
pub(crate) fn output_value(points: &[ImagePoint], slots: &[i64], place: usize) -> Value
    requires words { AreWords points.now slots.now }
    requires within { place < length points.now }
    ensures { result ≡ spec.output_value points.now slots.now place }
{
    value_of(points[place].elementary, slots[place])
}

// Returns whether a word of this type encodes TRUE.
#[inline(always)]
fn is_true_word(elementary: ElementaryType, word: i64) -> bool
    ensures { result ≡ spec.is_true (Some (value_at elementary word)) }
{
    match elementary {
        ElementaryType::Bool => word == 1,
        _ => false,
    }
}

/// Returns whether the value of the point at an index is TRUE.
#[inline(always)]
pub(crate) fn is_output_true(points: &[ImagePoint], slots: &[i64], place: usize) -> bool
    requires words { AreWords points.now slots.now }
    requires within { place < length points.now }
    ensures { result ≡ spec.is_true (Some (spec.output_value points.now slots.now place)) }
{
    is_true_word(points[place].elementary, slots[place])
}

/// Copies the values of the points at these indices to the outputs, one for each.
pub(crate) fn copy_outputs(
    points: &[ImagePoint],
    writes: &[usize],
    slots: &[i64],
    outputs: &mut [Value],
)
    requires words { AreWords points.now slots.now }
    requires within { AllBelow (length points.now) writes.now }
    requires room { length outputs.old ≡ length writes.now }
    ensures { outputs.new ≡ map (spec.output_value points.now slots.now) writes.now }
{
    for k in 0..writes.len() {
        outputs[k] = output_value(points, slots, writes[k]);
    }
}

// Appends a 0 word for each point.
fn push_zeros(slots: &mut Vec<i64>, points: &[ImagePoint]) -> Result<(), AllocError>
    ensures ok { OnOk result (slots.new.items ≡ slots.old.items ++ map (λ _. pos 0) points.now) }
    ensures memory { IfErr result (λ e. 0 < length points.now) }
{
    for _ in points {
        slots.push(0)?;
    }
    Ok(())
}

// Appends the word of each variable's initial value.
fn push_numbers(slots: &mut Vec<i64>, variables: &[Value]) -> Result<(), AllocError>
    ensures ok { OnOk result (slots.new.items ≡ slots.old.items ++ words_of variables.now) }
    ensures memory { IfErr result (λ e. 0 < length variables.now) }
{
    for variable in variables {
        slots.push(variable.number())?;
    }
    Ok(())
}

/// Returns the initial words of the slots: FALSE or 0 for each point, and the variables' initial
/// values.
pub(crate) fn first_slots(alloc: Global, image: &Image) -> Result<Vec<i64>, AllocError>
    ensures ok { IfOk result
        (λ slots. slots.items ≡ map (λ _. pos 0) image.now.points ++ words_of image.now.variables) }
    ensures memory { IfErr result (λ e. 0 < length image.now.points + length image.now.variables) }
{
    let mut slots = Vec::new(alloc);
    push_zeros(&mut slots, image.points())?;
    push_numbers(&mut slots, image.variables())?;
    Ok(slots)
}

/// Returns the initial timers.
pub(crate) fn first_timers(
    alloc: Global,
    kinds: &[TimerKind],
) -> Result<Vec<TimerState>, AllocError>
    ensures ok { IfOk result (λ timers. timers.items ≡ map first_state kinds.now) }
    ensures memory { IfErr result (λ e. 0 < length kinds.now) }
{
    let mut timers = Vec::new(alloc);
    for kind in kinds {
        timers.push(TimerState::new(*kind))?;
    }
    Ok(timers)
}

/// Returns room for the outputs: a value for each writable point.
pub(crate) fn room_for_outputs(
    alloc: Global,
    points: &[ImagePoint],
) -> Result<Vec<Value>, AllocError>
    ensures ok { IfOk result (λ outputs. length outputs.items ≡ writable_count points.now) }
    ensures memory { IfErr result (λ e. 0 < length points.now) }
{
    let mut outputs = Vec::new(alloc);
    let mut rest = points;
    while let [point, others @ ..] = rest {
        if point.writable {
            outputs.push(Value::Truth(false))?;
        }
        rest = others;
    }
    Ok(outputs)
}
