// Compiles a checked program to an image.
ghost use Rattle.std.specs.Prelude.{◌≡◌, ◌+◌, ◌*◌, ◌≤◌, ◌++◌, [], ◌∷◌, Ok, length, map, min, reverse, IfOk, OnOk};
ghost use Rattle.bay_base.specs.Exact.{ExactOr};
ghost use Rattle.il_image.specs.Images.{Each, all_spelled};
ghost use Rattle.il_image.specs.Tables.{HasTable};
ghost use Rattle.il_image.specs.Machine.{most_slots};
ghost use Rattle.il_check.specs.Program.{Checked};
ghost use Rattle.il_check.specs.ProgramViews.{checked_view, item_view};
ghost use Rattle.il_check.specs.TypedProgram.{HasName, IsTyped};
ghost use Rattle.il_compile.specs.Code as spec;
ghost use Rattle.il_compile.specs.Compiled.{compiled_of, image_of, image_size, points_octets};
ghost use Rattle.il_compile.specs.Compiled as spec_compiled;
ghost use Rattle.il_compile.specs.Correct.{ImplementsText};
ghost use Rattle.il_compile.specs.declared.fault.CompileFault.TheVariants.{OutOfMemory};

use crate::continuation::{Continuation, compile_all};
use crate::fault::CompileFault;
use bay_base::listing::Listing;
use bay_base::text::Text;
use bay_base::types::TimerKind;
use il_check::program::Typed;
use il_check::typed::{External, Timer, Variable};
use il_image::image::{Image, ImagePoint};
use il_image::instr::Instr;
use il_image::value::Value;
use std::alloc::{AllocError, Global};

// The maximum number of octets in an image.
const MAX_OCTETS: usize = 65_535;

// Returns the point of an external variable.
fn point_of(alloc: Global, external: &External) -> Result<ImagePoint, AllocError>
    ensures { IfOk result (λ point. point ≡ spec_compiled.point_of external.now) }
{
    Ok(ImagePoint {
        name: Text::from_str(alloc, external.name.as_str())?,
        elementary: external.kind,
        writable: external.writable,
    })
}

// Returns the points of the external variables, in order.
fn points_of(alloc: Global, externals: &[External]) -> Result<Vec<ImagePoint>, AllocError>
    ensures { IfOk result (λ points. points.items ≡ map spec_compiled.point_of externals.now) }
{
    let mut points = Vec::new(alloc);
    for external in externals {
        points.push(point_of(alloc, external)?)?;
    }
    Ok(points)
}

// Returns the initial values of the variables, in order.
fn values_of(alloc: Global, variables: &[Variable]) -> Result<Vec<Value>, AllocError>
    ensures { IfOk result (λ values. values.items ≡ map (λ v. v.initial) variables.now) }
{
    let mut values = Vec::new(alloc);
    for variable in variables {
        values.push(variable.initial)?;
    }
    Ok(values)
}

// Returns the kinds of the timers, in order.
fn kinds_of(alloc: Global, timers: &[Timer]) -> Result<Vec<TimerKind>, AllocError>
    ensures { IfOk result (λ kinds. kinds.items ≡ map (λ t. t.kind) timers.now) }
{
    let mut kinds = Vec::new(alloc);
    for timer in timers {
        kinds.push(timer.kind)?;
    }
    Ok(kinds)
}

// Returns the number of octets of the externals' points in an image.
fn points_size(externals: &[External]) -> usize
    requires few { length externals.now ≤ most_slots }
    requires names { Each HasName externals.now }
    ensures value { result ≡ points_octets externals.now }
    ensures bounded { result ≤ 34_304 }
{
    let mut size = 0;
    for external in externals {
        size += 3 + external.name.as_str().len();
    }
    size
}

// Returns the octets of a program's code: a cell for the current result, the instructions of the
// items, passed with the last first, and HALT.
fn spell_all(alloc: Global, continuation: Vec<Instr>) -> Result<Vec<u8>, AllocError>
    ensures { IfOk result (λ code. code.items
        ≡ all_spelled (spec.push_unset ∷ reverse continuation.items ++ Instr.Halt ∷ [])) }
{
    let mut continuation = continuation;
    let mut code = Vec::new(alloc);
    Instr::Push(Value::Truth(false)).spell(&mut code)?;
    while let Some(instr) = continuation.pop() {
        instr.spell(&mut code)?;
    }
    Instr::Halt.spell(&mut code)?;
    Ok(code)
}

// Returns the number of octets of an image without those of its code, in version 2 of the format:
// the mark and the version, the four counts, and the items counted.
fn head_size(program: &Typed) -> usize
    requires { IsTyped (checked_view program.now) }
    ensures value { result ≡ 13 + points_octets program.now.externals
        + 9 * length program.now.variables + length program.now.timers }
    ensures bounded { result ≤ 40_000 }
{
    13 + points_size(program.externals()) + 9 * program.variables().len() + program.timers().len()
}

// Returns the image of a program, or `CodeTooLong` if it would have more than 65,535 octets.
fn compile_image(alloc: Global, program: &Typed) -> Result<Image, CompileFault>
    ensures image { ExactOr OutOfMemory (λ image. image) result
        (compiled_of (checked_view program.now)) }
    ensures typed { IsTyped (checked_view program.now) }
{
    let continuation = compile_all(alloc, program.externals().len(), program.items())?;
    let size = head_size(program) + 3 + continuation.octets as usize;
    if size > MAX_OCTETS {
        return Err(CompileFault::CodeTooLong);
    }
    let points = points_of(alloc, program.externals())?;
    let variables = values_of(alloc, program.variables())?;
    let timers = kinds_of(alloc, program.timers())?;
    let code = spell_all(alloc, continuation.instrs)?;
    Ok(Image::new(
        Listing::new(points),
        Listing::new(variables),
        Listing::new(timers),
        Listing::new(code),
    ))
}

/// Compiles a checked program. The image has the externals as points, the variables with their
/// initial values, the timers, and the code. The slots are the externals and then the variables, in
/// the order of their declarations; a timer's number is its index among the timers.
///
/// The code begins with a cell for the current result. Each instruction acts on the topmost cell
/// (IEC 61131-3:2003, table 52), and a parenthesis has a cell of its own. The code ends with HALT.
///
/// Besides out of memory, the only fault is `CodeTooLong`, exactly if the encoded image would have
/// more than 65,535 octets. Compiling always allocates for the code, so only test cases show that
/// out of memory is returned only after a failed allocation.
pub fn compile(alloc: Global, program: &Typed) -> Result<Image, CompileFault>
    // The image of the program, or that it is too long, unless an allocation fails.
    ensures image { ExactOr OutOfMemory (λ image. image) result
        (compiled_of (checked_view program.now)) }
    // From all values of the program's types, at each moment, the machine runs the code without a
    // trap to HALT, in no more steps than the code has octets, and leaves in slots and timers what
    // the program means.
    ensures follows { IfOk result (λ image. ImplementsText (checked_view program.now) image.code) }
    // A table of kinds agrees with the code: each instruction is reached, and is allowed on the
    // kinds on the stack before it.
    ensures tabled { IfOk result (λ image. HasTable image) }
{
    let image = compile_image(alloc, program)?;
    Ok(image)
}
