// The lines of an audit for a single line diagram.
ghost use Rattle.std.specs.Prelude.{◌≡◌, ◌++◌, OnOk};
ghost use Rattle.cmd_audit.specs.HazardText as spec;

use crate::judged::{JudgedRelease, is_safe};
use crate::text::{put_case, put_holds, put_switch_operation};
use bay_audit::case::Case;
use bay_audit_hazards::answer::HazardAnswer;
use bay_config::bay::Bay;
use bay_diagram::shown::ShownHazard;
use bay_diagram_file::diagram::Diagram;
use bay_diagram_file::words::put_hazard;
use std::alloc::AllocError;

// Adds a hazard in words, if one is shown.
fn put_shown(
    text: &mut Vec<u8>,
    diagram: &Diagram,
    shown: &Option<ShownHazard>,
) -> Result<(), AllocError>
    ensures { OnOk result
        (text.new.items ≡ text.old.items ++ spec.shown_text diagram.now shown.now) }
{
    match shown {
        Some(shown) => {
            text.extend_from_slice(b": ")?;
            put_hazard(text, diagram, shown)
        }
        None => Ok(()),
    }
}

// Adds a word, a case in which an operation is a hazard, and this hazard.
fn put_hazard_case(
    text: &mut Vec<u8>,
    bay: &Bay,
    diagram: &Diagram,
    word: &[u8],
    case: &Case,
    shown: &Option<ShownHazard>,
) -> Result<(), AllocError>
    ensures { OnOk result (text.new.items ≡ text.old.items
        ++ spec.hazard_case_text bay.now diagram.now word.now case.now shown.now) }
{
    text.extend_from_slice(word)?;
    put_case(text, bay, case)?;
    put_shown(text, diagram, shown)
}

// Adds the answer to a release.
fn put_hazard_answer(
    text: &mut Vec<u8>,
    bay: &Bay,
    diagram: &Diagram,
    release: &JudgedRelease,
) -> Result<(), AllocError>
    ensures { OnOk result (text.new.items ≡ text.old.items
        ++ spec.hazard_answer_text bay.now diagram.now release.now.answer release.now.shown) }
{
    match &release.answer {
        HazardAnswer::Holds { cases } => put_holds(text, *cases),
        HazardAnswer::Broken { case } => {
            put_hazard_case(text, bay, diagram, b" broken", case, &release.shown)
        }
        HazardAnswer::Open { case } => {
            put_hazard_case(text, bay, diagram, b" open", case, &release.shown)
        }
        HazardAnswer::Undecided => text.extend_from_slice(b" many"),
    }
}

/// Adds the line of a release. Fails only if an allocation fails.
pub(crate) fn put_hazard_line(
    text: &mut Vec<u8>,
    bay: &Bay,
    diagram: &Diagram,
    release: &JudgedRelease,
) -> Result<(), AllocError>
    ensures { OnOk result
        (text.new.items ≡ text.old.items ++ spec.hazard_line bay.now diagram.now release.now) }
{
    put_switch_operation(text, bay, b"diagram ", release.switch, release.operation)?;
    put_hazard_answer(text, bay, diagram, release)?;
    text.extend_from_slice(b"\n")
}

/// Adds the line of a release, unless it holds. Fails only if an allocation fails.
pub(crate) fn put_unsafe(
    text: &mut Vec<u8>,
    bay: &Bay,
    diagram: &Diagram,
    release: &JudgedRelease,
) -> Result<(), AllocError>
    ensures { OnOk result
        (text.new.items ≡ text.old.items ++ spec.unsafe_line bay.now diagram.now release.now) }
{
    if is_safe(release) {
        return Ok(());
    }
    put_hazard_line(text, bay, diagram, release)
}
