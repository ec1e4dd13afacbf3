// The checks of a program: the typed program, or the fault to report.
ghost use Rattle.std.specs.Prelude.{◌≢◌, IfErr, IfOk, IsErrOf};
ghost use Rattle.il_text.specs.Views.{plain_program};
ghost use Rattle.bay_base.specs.Exact.{ExactOr};
ghost use Rattle.il_check.specs.Checking.{Allocates, checked_of, faults_of};
ghost use Rattle.il_check.specs.Faults.{IsLeast};
ghost use Rattle.il_check.specs.RightProgram.{IsRightProgram};
ghost use Rattle.il_check.specs.ProgramViews.{checked_view};
ghost use Rattle.il_check.specs.declared.fault.CheckFault.TheVariants.{OutOfMemory};

use crate::declare::{Declarations, declare_all};
use crate::fault::CheckFault;
use crate::labels::{Labels, all_labels};
use crate::names::ProgramNames;
use crate::program::{Parts, Typed};
use crate::walk::Checker;
use bay_base::point::Point;
use il_text::program::Program;
use std::alloc::Global;

/// Checks a program against the bay's points and resolves its names.
///
/// For each declaration: an external's name is a point's (70), no name is declared twice (71), an
/// external has its point's type and an initial literal fits its variable (72), and at most 512
/// externals and variables and 64 timers are declared (79). For each instruction: its names are
/// declared (70), its names mean what the instruction needs and every type is the required one
/// (72), the current result is set where it is used (73), a jump goes to a label (75) below it
/// (74), the instruction is reachable (76), its target is writable (77), and a divisor is a literal
/// other than 0 (78). No two labels have the same name (71), and there are at most 256 labels (79).
/// Parentheses nest at most 16 deep: the 17th is 79, and its contents are not checked. Where paths
/// with different types of the result meet, the result is not set. Types and the result are not
/// checked in an unreachable instruction. Names are case-insensitive.
///
/// A program that was not read from a text may have a typed literal whose number is outside its
/// type, which fits nothing (72), or an external whose name does not consist of 1 to 64 letters,
/// digits and underscores, which is no point's (70).
///
/// Returns the typed program, or the fault with the lowest number on the first faulty line (IEC
/// 61131-3:2003, 2.4.3 and 3.2). Returns `OutOfMemory` if an allocation fails, which is possible
/// only if the program declares something or has an item.
pub fn check(alloc: Global, program: &Program<'_>, points: &[Point]) -> Result<Typed, CheckFault>
    // The checked program, or the fault of the first faulty line with the lowest number, unless an
    // allocation fails.
    ensures checked { ExactOr OutOfMemory checked_view result
        (checked_of points.now (plain_program program.now)) }
    // It passes exactly if its declarations are valid and some labelling makes every instruction
    // valid.
    ensures right { IfOk result (λ typed. IsRightProgram points.now (plain_program program.now)) }
    ensures wrong { IfErr result
        (λ fault. fault ≢ OutOfMemory → IsRightProgram points.now (plain_program program.now) → ⊥) }
    // No fault comes before the one that is returned.
    ensures first { IfErr result
        (λ fault. fault ≢ OutOfMemory
        → IsLeast fault (faults_of points.now (plain_program program.now))) }
    ensures memory { IsErrOf result OutOfMemory → Allocates (plain_program program.now) }
{
    let typed = check_program(alloc, program, points)?;
    Ok(typed)
}

// Returns the typed program, or the fault to report; `check` states what holds of each.
fn check_program(
    alloc: Global,
    program: &Program<'_>,
    points: &[Point],
) -> Result<Typed, CheckFault>
    ensures checked { ExactOr OutOfMemory checked_view result
        (checked_of points.now (plain_program program.now)) }
    ensures memory { IsErrOf result OutOfMemory → Allocates (plain_program program.now) }
{
    let declared = declare_all(alloc, points, program.declarations.as_slice())?;
    let labels = all_labels(alloc, program.items.as_slice())?;
    let Declarations {
        meanings,
        externals,
        variables,
        timers,
        found,
        ..
    } = declared;
    let Labels { numbers, arrivals } = labels;
    let names = ProgramNames {
        meanings,
        labels: numbers,
    };
    let mut judge = Checker {
        alloc,
        buffer: String::new(alloc),
        found,
    };
    let items = judge.check_items(&names, program.items.as_slice(), arrivals)?;
    match judge.found {
        Some(fault) => Err(fault),
        None => Ok(Typed::of_parts(Parts {
            externals,
            variables,
            timers,
            items,
        })),
    }
}
