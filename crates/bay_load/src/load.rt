// Loads a bay file with a program or an image.
ghost use Rattle.std.specs.Prelude.{◌≡◌, ◌≢◌, ℕ, Ok, Err, IfOk, IfErr};
ghost use Rattle.bay_base.specs.Exact.{ExactOr};
ghost use Rattle.il_text.specs.Listing.{PlainProgram};
ghost use Rattle.il_text.specs.Views.{plain_program};
ghost use Rattle.il_text.specs.declared.fault.TextFault.TheVariants as text_fault;
ghost use Rattle.il_check.specs.Checking.{checked_of};
ghost use Rattle.il_check.specs.ProgramViews.{checked_view};
ghost use Rattle.il_image.specs.Decoding.{decoded_image};
ghost use Rattle.il_compile.specs.Compiled.{compiled_of};
ghost use Rattle.il_verify.specs.Refusals.{IsRefusal};
ghost use Rattle.il_verify.specs.Verdicts.{IsVerified};
ghost use Rattle.il_verify.specs.declared.fault.VerifyFault.{VerifyFault};
ghost use Rattle.bay_load.specs.Errors.{verify_error};
ghost use Rattle.bay_load.specs.Loads.{IsDescribed, LoadsDecoded, LoadsTo, MayLoadTo, parsed_bay, load_of_compiled, load_of_program, parsed_program};
ghost use Rattle.bay_load.specs.declared.error.LoadError.TheVariants.{OutOfMemory};

use crate::error::LoadError;
use crate::loaded::Loaded;
use crate::names::{DeclaredNames, names_of};
use bay_config::bay::Bay;
use bay_config::fault::BayFault;
use bay_config::read::read_bay;
use il_check::check::check;
use il_check::program::Typed;
use il_compile::compile::compile;
use il_image::decode::decode;
use il_image::image::Image;
use il_text::fault::TextFault;
use il_text::program::Program;
use il_text::read::read_program;
use il_verify::verify::verify;
use std::alloc::Global;

/// The form of the program that is loaded with a bay file.
#[derive(Clone, Copy)]
pub enum Form {
    /// A program in Instruction List.
    Logic,
    /// An image.
    Image,
}

// Verifies an image for the points of a bay.
fn load_decoded(
    alloc: Global,
    bay: Box<Bay>,
    names: DeclaredNames,
    image: Image,
) -> Result<Loaded, LoadError>
    requires { IsDescribed bay.value }
    ensures ok { IfOk result
        (λ loaded. loaded ≡ record { bay = bay.value; names = names; image = image }) }
    ensures accepted { IfOk result (λ loaded. IsVerified bay.value.points image) }
    ensures refused { IfErr result
        (λ e. e ≢ OutOfMemory → (fault : VerifyFault) × (place : ℕ)
        × IsRefusal bay.value.points image fault place × (e ≡ verify_error fault)) }
    ensures exact { IfErr result (λ e. e ≢ OutOfMemory → IsVerified bay.value.points image → ⊥) }
{
    match verify(alloc, image, bay.points.as_slice()) {
        Ok(verified) => Ok(Loaded {
            bay,
            names,
            verified,
        }),
        Err(refused) => Err(LoadError::from(refused.fault)),
    }
}

// Compiles a program that was checked for the points of a bay.
fn load_checked(
    alloc: Global,
    bay: Box<Bay>,
    names: DeclaredNames,
    typed: Typed,
) -> Result<Loaded, LoadError>
    requires read { IsDescribed bay.value }
    requires checked { (program : PlainProgram)
        × (checked_of bay.value.points program ≡ Ok (checked_view typed)) }
    ensures { ExactOr OutOfMemory (λ loaded. loaded) result
        (load_of_compiled bay.value names (compiled_of (checked_view typed))) }
{
    let image = compile(alloc, &typed)?;
    load_decoded(alloc, bay, names, image)
}

// Checks and compiles a program for the points of a bay.
fn load_program(alloc: Global, bay: Box<Bay>, program: &Program<'_>) -> Result<Loaded, LoadError>
    requires { IsDescribed bay.value }
    ensures { ExactOr OutOfMemory (λ loaded. loaded) result
        (load_of_program bay.value (Ok (plain_program program.now))) }
{
    let typed = check(alloc, program, bay.points.as_slice())?;
    let names = names_of(alloc, program.declarations.as_slice())?;
    load_checked(alloc, bay, names, typed)
}

// Parses the program in the octets of a text. Each text has exactly one program or one fault.
fn parse_program<'a>(alloc: Global, logic: &'a [u8]) -> Result<Program<'a>, TextFault>
    ensures ok { IfOk result (λ program. parsed_program logic.now ≡ Ok (plain_program program)) }
    ensures refused { IfErr result
        (λ fault. fault ≢ text_fault.OutOfMemory → parsed_program logic.now ≡ Err fault) }
{
    match std::str::from_utf8(logic) {
        Ok(text) => read_program(alloc, text),
        Err(_) => Err(TextFault::BadToken { line: 1 }),
    }
}

// Loads the octets of a program's text for a bay.
fn load_logic(alloc: Global, bay: Box<Bay>, logic: &[u8]) -> Result<Loaded, LoadError>
    requires { IsDescribed bay.value }
    ensures { ExactOr OutOfMemory (λ loaded. loaded) result
        (load_of_program bay.value (parsed_program logic.now)) }
{
    let program = parse_program(alloc, logic)?;
    load_program(alloc, bay, &program)
}

// Loads the octets of an image for a bay.
fn load_image(alloc: Global, bay: Box<Bay>, image: &[u8]) -> Result<Loaded, LoadError>
    requires { IsDescribed bay.value }
    ensures ok { IfOk result
        (λ loaded. LoadsDecoded bay.value (decoded_image image.now) (Ok loaded)) }
    ensures refused { IfErr result
        (λ e. e ≢ OutOfMemory → LoadsDecoded bay.value (decoded_image image.now) (Err e)) }
{
    let image = decode(alloc, image)?;
    load_decoded(alloc, bay, DeclaredNames::none(alloc), image)
}

// Reads the bay in the octets of a bay file.
fn parse_bay(alloc: Global, file: &[u8]) -> Result<Bay, BayFault>
    ensures file { ExactOr BayFault.OutOfMemory (λ bay. bay) result (parsed_bay file.now) }
    ensures read { IfOk result IsDescribed }
{
    match std::str::from_utf8(file) {
        Ok(text) => read_bay(alloc, text),
        Err(_) => Err(BayFault::BadToml),
    }
}

/// Loads the octets of a bay file and of a program or an image. A bay file that is not UTF-8 is not
/// TOML; a program that is not UTF-8 has a bad token in its first line. Returns the first error: of
/// the bay file (50 to 55), then of the program's text (60 to 64), of its checks (70 to 79), and
/// that its image would be too long (85); or of the octets of the image (80 to 83), and of the
/// image (90 to 100). Returns `OutOfMemory` if an allocation fails.
pub fn load_files(
    alloc: Global,
    bay: &[u8],
    form: Form,
    program: &[u8],
) -> Result<Loaded, LoadError>
    ensures ok { IfOk result (λ loaded. LoadsTo bay.now form program.now (Ok loaded)) }
    ensures refused { IfErr result (λ e. MayLoadTo bay.now form program.now (Err e)) }
{
    let bay = parse_bay(alloc, bay)?;
    let boxed = Box::new(alloc, bay)?;
    match form {
        Form::Logic => load_logic(alloc, boxed, program),
        Form::Image => load_image(alloc, boxed, program),
    }
}
