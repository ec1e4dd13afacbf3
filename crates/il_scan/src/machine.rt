// The machine, which runs a verified image scan by scan.
ghost use Rattle.std.specs.Prelude.{◌≡◌, ◌↔◌, IfErr, IfOk, IsTrue, map};
ghost use Rattle.std.specs.Borrow.{sem};
ghost use Rattle.il_scan.specs.PointIndices.{read_indices};
ghost use Rattle.il_scan.specs.Scans.{AreHeld, AreInputs, Scans, Allocates, first_machine, inputs_in, outputs_of, read_only, type_of_point};
ghost use Rattle.il_scan.specs.MachineStates.{EncodesMemory, IsContentOf};
ghost use Rattle.il_scan.specs.Scans.{machine_data};
ghost use Rattle.il_scan.specs.Words.{values_of};
ghost use Rattle.il_image.specs.Tables.{slot_types};
ghost use Rattle.il_verify.specs.Verdicts.{IsSafe};

use crate::points::{InputList, Inputs, Outputs};
use crate::run::run;
use crate::slots::{
    PointIndices, are_inputs, copy_outputs, first_slots, first_timers, point_indices, read_inputs,
    room_for_outputs,
};
use crate::span::Span;
use il_image::image::Image;
use il_image::timer::TimerState;
use il_image::value::Value;
use il_verify::verify::Verified;
use std::alloc::{AllocError, AllocFailed, Global};
use std::marker::Model;

/// A machine with a verified image, its slots and its timers. Contracts see the slots as typed
/// values.
#[derive(Drop)]
pub struct Machine {
    verified: Verified,
    slots: Vec<i64>,
    timers: Vec<TimerState>,
    indices: PointIndices,
    outputs: Vec<Value>,
}

impl Model for Machine {
    ghost use Rattle.il_scan.specs.Scans.{MachineData};
    ghost use Rattle.il_scan.specs.MachineStates.{IsContentOf};
    ghost use Rattle.il_scan.specs.Scans.{machine_data};

    ghost Value = { MachineData };

    ghost view = { λ m. machine_data m.verified m.slots.items m.timers.items };

    ghost invariant = { λ m. IsContentOf m.verified m.slots.items m.timers.items m.indices.reads.items
        m.indices.writes.items m.outputs.items };
}

/// The result of a scan.
#[derive(Drop)]
pub struct Scan<'a> {
    /// The number of instructions executed, including HALT.
    pub steps: u32,
    /// The values of the writable points, in the image's order.
    pub outputs: &'a [Value],
}

// The slots and timers of a machine, the indices of its read-only and of its writable points, and
// room for the outputs.
#[derive(Drop)]
struct Memory {
    slots: Vec<i64>,
    timers: Vec<TimerState>,
    indices: PointIndices,
    outputs: Vec<Value>,
}

// Creates the initial memory of a machine.
fn memory_of(alloc: Global, image: &Image) -> Result<Memory, AllocError>
    ensures first { IfOk result
        (λ m. machine_data image.now m.slots.items m.timers.items ≡ first_machine image.now) }
    ensures kept { IfOk result
        (λ m. IsContentOf image.now m.slots.items m.timers.items m.indices.reads.items
        m.indices.writes.items m.outputs.items) }
    ensures memory { IfErr result (λ e. Allocates image.now) }
{
    let slots = first_slots(alloc, image)?;
    let timers = first_timers(alloc, image.timers())?;
    let indices = point_indices(alloc, image.points())?;
    let outputs = room_for_outputs(alloc, image.points())?;
    Ok(Memory {
        slots,
        timers,
        indices,
        outputs,
    })
}

// Runs a scan over words: reads the inputs of a span, since the slots hold the others, and runs the
// code.
fn run_points<I: Inputs>(
    image: &Image,
    inputs: &I,
    span: Span,
    now: u64,
    slots: &mut [i64],
    timers: &mut [TimerState],
    reads: &[usize],
) -> u32
    requires safe { IsSafe image.now }
    requires types { I.types inputs.now ≡ map type_of_point (read_only image.now.points) }
    requires held { EncodesMemory image.now slots.old timers.old }
    requires read { reads.now ≡ read_indices 0 image.now.points }
    requires hold { AreHeld span (I.values inputs.now)
        (inputs_in image.now.points (values_of (slot_types image.now) slots.old)) }
    ensures scans { Scans (machine_data image.now slots.old timers.old) (I.values inputs.now) now
        (machine_data image.now slots.new timers.new) result
        (outputs_of image.now.points (values_of (slot_types image.now) slots.new)) }
    ensures held { EncodesMemory image.now slots.new timers.new }
    ensures kept { inputs_in image.now.points (values_of (slot_types image.now) slots.new)
        ≡ I.values inputs.now }
{
    read_inputs(reads, inputs, span, slots);
    run(image, now, slots, timers)
}

// Runs a scan over words with lists of inputs and outputs.
fn run_once(
    image: &Image,
    inputs: &[Value],
    now: u64,
    slots: &mut [i64],
    timers: &mut [TimerState],
    indices: &PointIndices,
    outputs: &mut [Value],
) -> u32
    requires safe { IsSafe image.now }
    requires inputs { AreInputs image.now.points inputs.now }
    requires kept { IsContentOf image.now slots.old timers.old indices.now.reads.items
        indices.now.writes.items outputs.old }
    ensures scans { Scans (machine_data image.now slots.old timers.old) inputs.now now
        (machine_data image.now slots.new timers.new) result outputs.new }
    ensures kept { IsContentOf image.now slots.new timers.new indices.now.reads.items
        indices.now.writes.items outputs.new }
{
    let inputs = InputList { values: inputs };
    let reads = indices.reads.as_slice();
    let all = Span {
        from: 0,
        to: reads.len(),
    };
    let steps = run_points(image, &inputs, all, now, slots, timers, reads);
    copy_outputs(image.points(), indices.writes.as_slice(), slots, outputs);
    steps
}

impl Machine {
    ghost use Rattle.il_scan.specs.Loan.{LendsOutputs};

    /// Creates a machine whose variables have their initial values, whose points are FALSE or 0,
    /// and whose timers were never called. If an allocation fails, the error has the verified
    /// image; this is possible only if the image has a slot or a timer.
    pub fn new(alloc: Global, verified: Verified) -> Result<Machine, AllocFailed<Verified>>
        ensures ok { IfOk result (λ m. m ≡ first_machine verified) }
        ensures back { IfErr result (λ refused. refused.value ≡ verified) }
        ensures memory { IfErr result (λ _. Allocates verified) }
    {
        match memory_of(alloc, verified.image()) {
            Ok(
                Memory {
                    slots,
                    timers,
                    indices,
                    outputs,
                },
            ) => Ok(Machine {
                verified,
                slots,
                timers,
                indices,
                outputs,
            }),
            Err(AllocError) => Err(AllocFailed { value: verified }),
        }
    }

    /// Returns the verified image that the machine runs.
    pub fn verified(&self) -> &Verified
        ensures { result.now ≡ self.now.image }
    {
        &self.verified
    }

    /// Returns whether a scan accepts these inputs: one for each read-only point, in the image's
    /// order, of the point's type.
    pub fn fits(&self, inputs: &[Value]) -> bool
        ensures { IsTrue result ↔ AreInputs self.now.image.points inputs.now }
    {
        are_inputs(self.verified.image().points(), inputs)
    }

    /// Runs one scan. The inputs are written to the read-only points, one for each in the image's
    /// order, of the point's type. The code runs once from its first instruction to a HALT, at time
    /// `now` in milliseconds. The writable points are the outputs, which `outputs` returns. Returns
    /// the number of instructions executed, including HALT. Never fails and does not allocate. If a
    /// timer's start is after `now`, no time counts as passed.
    pub fn scan_points<I: Inputs>(&mut self, inputs: &I, now: u64) -> u32
        requires { I.types inputs.now ≡ map type_of_point (read_only self.old.image.points) }
        ensures { Scans self.old (I.values inputs.now) now self.new result
            (outputs_of self.new.image.points self.new.slots) }
    {
        let all = Span {
            from: 0,
            to: self.indices.reads.len(),
        };
        self.scan_changed(inputs, all, now)
    }

    /// Runs one scan as `scan_points` does, but reads only the inputs of a span. The slots of the
    /// other read-only points must hold their inputs, as an earlier scan left them.
    pub fn scan_changed<I: Inputs>(&mut self, inputs: &I, changed: Span, now: u64) -> u32
        requires types { I.types inputs.now ≡ map type_of_point (read_only self.old.image.points) }
        requires hold { AreHeld changed (I.values inputs.now)
            (inputs_in self.old.image.points self.old.slots) }
        ensures scans { Scans self.old (I.values inputs.now) now self.new result
            (outputs_of self.new.image.points self.new.slots) }
        ensures kept { inputs_in self.new.image.points self.new.slots ≡ I.values inputs.now }
    {
        run_points(
            self.verified.image(),
            inputs,
            changed,
            now,
            self.slots.as_mut_slice(),
            self.timers.as_mut_slice(),
            self.indices.reads.as_slice(),
        )
    }

    /// Returns the current values of the writable points.
    #[inline(always)]
    pub fn outputs(&self) -> Outputs<'_>
        ensures { result ≡ outputs_of self.now.image.points self.now.slots }
    {
        Outputs::new(
            self.verified.image().points(),
            self.indices.writes.as_slice(),
            self.slots.as_slice(),
        )
    }

    /// Runs one scan as `scan_points` does, with lists of inputs and outputs.
    pub fn scan(&mut self, inputs: &[Value], now: u64) -> Scan<'_>
        requires { AreInputs self.old.image.points inputs.now }
        ensures* after { sem 𝓛 (LendsOutputs self.entry inputs.now now result.steps result.outputs.now) }
    {
        let steps = run_once(
            self.verified.image(),
            inputs,
            now,
            self.slots.as_mut_slice(),
            self.timers.as_mut_slice(),
            &self.indices,
            self.outputs.as_mut_slice(),
        );
        Scan {
            steps,
            outputs: self.outputs.as_slice(),
        }
    }
}
