// Runs that release a switch too early: one scan or two from the program's first values.
ghost use Rattle.std.specs.Prelude.{◌≡◌, IfOk, IfSome, true, map};
ghost use Rattle.bay_process.specs.Values.{output_at};
ghost use Rattle.il_scan.specs.OutputValues.{is_true};
ghost use Rattle.il_scan.specs.PointIndices.{AreValues};
ghost use Rattle.il_scan.specs.Scans.{AreInputs, outputs_of};
ghost use Rattle.bay_audit.specs.Cases.{example_of};
ghost use Rattle.bay_audit.specs.Process.{process_value};
ghost use Rattle.bay_audit.specs.Rules.{IsEarlyBy, IsEarlyIn, ScansTo};

use crate::answer::Verdict;
use crate::audit::{plain_demand, split};
use crate::case::Case;
use crate::program::AuditedProgram;
use crate::truth_set::condition_truths_of;
use crate::verdict::{find_verdict, release_index};
use bay_audit_rules::rule::Rule;
use il_image::value::Value;
use il_scan::machine::Machine;
use il_scan::points::Inputs;
use std::alloc::{AllocError, Global};

// The inputs of a scan, as a list.
#[derive(Drop)]
struct InputList<'a> {
    pub values: &'a [Value],
    ghost are: { AreValues values.now },
}

impl<'a> Inputs for InputList<'a> {
    ghost use Rattle.std.specs.Prelude.{map};
    ghost use Rattle.std.proofs.Common.{sym};
    ghost use Rattle.std.proofs.lemmas.List.{length-map};
    ghost use Rattle.il_image.specs.Values.{type_of};

    ghost types = { λ inputs. map type_of inputs.values.now };

    ghost values = { λ inputs. inputs.values.now };

    fn input(&self, place: usize) -> Value {
        self.values[place]
    }

    ghost sized = { λ inputs. sym (length-map inputs.values.now type_of) };
}

// Returns the values that a program reads in the example of a case.
fn values_of(
    alloc: Global,
    program: &AuditedProgram<'_>,
    case: &Case,
) -> Result<Option<Vec<Value>>, AllocError>
    ensures { IfOk result (λ found. IfSome found (λ values. values.items
        ≡ map (process_value (example_of case.now)) program.now.reads)) }
{
    let mut values = Vec::new(alloc);
    for source in program.reads() {
        let Some(value) = case.example_value(*source) else {
            return Ok(None);
        };
        values.push(value)?;
    }
    Ok(Some(values))
}

// Runs one scan.
fn scan_once(machine: &mut Machine, inputs: &[Value], now: u64)
    requires { AreInputs machine.old.image.points inputs.now }
    ensures { ScansTo inputs.now machine.old now machine.new }
{
    machine.scan_points(&InputList { values: inputs }, now);
}

// Returns whether the last scan released the operation with this index among the writable points.
fn is_released(machine: &Machine, place: Option<usize>) -> bool
    ensures { result ≡ is_true (output_at place
        (outputs_of machine.now.image.points machine.now.slots)) }
{
    match place {
        Some(place) => machine.outputs().is_true(place),
        None => false,
    }
}

// Returns whether one scan or two with these inputs, from the program's first values, release the
// operation with this index among the writable points. The second scan comes less than `time` after
// the first.
fn releases_early(machine: Machine, inputs: &[Value], place: Option<usize>, time: u32) -> bool
    ensures { result ≡ true → IsEarlyBy inputs.now machine place time }
{
    let mut machine = machine;
    if time == 0 || !machine.fits(inputs) {
        return false;
    }
    scan_once(&mut machine, inputs, 0);
    if is_released(&machine, place) {
        return true;
    }
    scan_once(&mut machine, inputs, u64::from(time - 1));
    is_released(&machine, place)
}

// Returns whether the example of a case is a process for which a switch is released before a
// condition can have held for a time.
fn is_early(
    alloc: Global,
    program: &AuditedProgram<'_>,
    rule: &Rule,
    time: u32,
    case: &Case,
) -> Result<bool, AllocError>
    ensures { IfOk result (λ shown. shown ≡ true → IsEarlyIn program.now rule.now time case.now) }
{
    let covered = condition_truths_of(alloc, case, rule.when.as_slice())?;
    if covered.no || !case.has_example() {
        return Ok(false);
    }
    let Some(machine) = program.machine(alloc)? else {
        return Ok(false);
    };
    let Some(inputs) = values_of(alloc, program, case)? else {
        return Ok(false);
    };
    let place = release_index(program.writes(), rule.switch, rule.operation);
    Ok(releases_early(machine, inputs.as_slice(), place, time))
}

/// Returns a case with a process for which a switch is released before a condition can have held
/// for a time; `None` if none is found in at most `passes` passes. Subtracts the passes that it
/// needed. Fails only if an allocation fails.
pub(crate) fn early_case(
    alloc: Global,
    program: &AuditedProgram<'_>,
    rule: &Rule,
    time: u32,
    passes: &mut u32,
) -> Result<Option<Case>, AllocError>
    ensures { IfOk result (λ found. IfSome found (IsEarlyIn program.now rule.now time)) }
{
    let demand = plain_demand(alloc, rule)?;
    let mut left = Case::all(alloc)?;
    for _ in 0..*passes {
        let Some(case) = left.pop() else {
            break;
        };
        *passes = passes.saturating_sub(1);
        match find_verdict(alloc, program, &demand, &case)? {
            Verdict::Obeyed => {}
            Verdict::Split(test) => split(alloc, &mut left, &case, test)?,
            Verdict::Broken | Verdict::Open(_) => {
                if is_early(alloc, program, rule, time, &case)? {
                    return Ok(Some(case));
                }
            }
        }
    }
    Ok(None)
}
