// A hazard in words.
ghost use Rattle.std.specs.Prelude.{◌≡◌, ◌++◌, OnOk};
ghost use Rattle.std.specs.List.{flat_map};
ghost use Rattle.bay_diagram_file.specs.Words as spec;

use crate::diagram::Diagram;
use bay_base::listing::Listing;
use bay_base::text::Text;
use bay_diagram::shown::{HazardKind, ShownHazard, ShownWalk, Step};
use std::alloc::AllocError;

// Adds the name with a number; nothing if there is none.
fn put_name(text: &mut Vec<u8>, names: &Listing<Text>, number: usize) -> Result<(), AllocError>
    ensures { OnOk result (text.new.items ≡ text.old.items ++ spec.name_at names.now number) }
{
    match names.as_slice().get(number) {
        Some(name) => text.extend_from_slice(name.as_str().as_bytes()),
        None => Ok(()),
    }
}

// Adds ` - SWITCH`, if there is one.
fn put_switch(
    text: &mut Vec<u8>,
    diagram: &Diagram,
    number: Option<usize>,
) -> Result<(), AllocError>
    ensures { OnOk result (text.new.items ≡ text.old.items ++ spec.switch_text diagram.now number) }
{
    match number {
        Some(number) => {
            text.extend_from_slice(b" - ")?;
            put_name(text, &diagram.switches, number)
        }
        None => Ok(()),
    }
}

// Adds ` - SWITCH - NODE`.
fn put_step(text: &mut Vec<u8>, diagram: &Diagram, step: &Step) -> Result<(), AllocError>
    ensures { OnOk result (text.new.items ≡ text.old.items ++ spec.step_text diagram.now step.now) }
{
    put_switch(text, diagram, Some(step.branch))?;
    text.extend_from_slice(b" - ")?;
    put_name(text, &diagram.nodes, usize::from(step.node))
}

// Adds the steps of a walk.
fn put_steps(text: &mut Vec<u8>, diagram: &Diagram, steps: &[Step]) -> Result<(), AllocError>
    ensures { OnOk result (text.new.items
        ≡ text.old.items ++ flat_map (spec.step_text diagram.now) steps.now) }
{
    for step in steps {
        put_step(text, diagram, step)?;
    }
    Ok(())
}

// Adds a walk: `NODE - SWITCH - NODE`, and so on.
fn put_walk(text: &mut Vec<u8>, diagram: &Diagram, walk: &ShownWalk) -> Result<(), AllocError>
    ensures { OnOk result (text.new.items ≡ text.old.items ++ spec.walk_text diagram.now walk.now) }
{
    put_name(text, &diagram.nodes, usize::from(walk.start))?;
    put_steps(text, diagram, walk.steps.as_slice())
}

// Adds the path beside a disconnector, if there is one.
fn put_beside(
    text: &mut Vec<u8>,
    diagram: &Diagram,
    beside: &Option<ShownWalk>,
) -> Result<(), AllocError>
    ensures { OnOk result
        (text.new.items ≡ text.old.items ++ spec.beside_text diagram.now beside.now) }
{
    match beside {
        Some(walk) => {
            text.extend_from_slice(b", beside ")?;
            put_walk(text, diagram, walk)
        }
        None => Ok(()),
    }
}

// Adds the name of the other disconnector, if there is one.
fn put_other(text: &mut Vec<u8>, diagram: &Diagram, other: Option<usize>) -> Result<(), AllocError>
    ensures { OnOk result (text.new.items ≡ text.old.items ++ spec.other_text diagram.now other) }
{
    match other {
        Some(number) => put_name(text, &diagram.switches, number),
        None => Ok(()),
    }
}

// Adds what the operation would do to another disconnector, which may be on its way.
fn put_moving(
    text: &mut Vec<u8>,
    diagram: &Diagram,
    effect: &[u8],
    other: Option<usize>,
) -> Result<(), AllocError>
    ensures { OnOk result (text.new.items
        ≡ text.old.items ++ spec.moving_text diagram.now effect.now other) }
{
    text.extend_from_slice(effect)?;
    put_other(text, diagram, other)?;
    text.extend_from_slice(b", which may be on its way")
}

// Adds that the operation would open an earth, and the source that may feed it.
fn put_fed_earth(text: &mut Vec<u8>, diagram: &Diagram, source: usize) -> Result<(), AllocError>
    ensures { OnOk result
        (text.new.items ≡ text.old.items ++ spec.fed_earth_text diagram.now source) }
{
    text.extend_from_slice(b"opens an earth that ")?;
    put_name(text, &diagram.nodes, source)?;
    text.extend_from_slice(b" may feed")
}

// Adds what the operation would do.
fn put_effect(text: &mut Vec<u8>, diagram: &Diagram, shown: &ShownHazard) -> Result<(), AllocError>
    ensures { OnOk result (text.new.items
        ≡ text.old.items ++ spec.effect_text diagram.now shown.now shown.now.kind) }
{
    let start = usize::from(shown.walk.start);
    match shown.kind {
        HazardKind::Earths => {
            text.extend_from_slice(b"earths ")?;
            put_name(text, &diagram.nodes, start)?;
            text.extend_from_slice(b", which is not isolated")
        }
        HazardKind::Bridges => {
            text.extend_from_slice(b"joins ")?;
            put_name(text, &diagram.nodes, start)?;
            text.extend_from_slice(b" to earth")
        }
        HazardKind::Breaks => text.extend_from_slice(b"makes or breaks a current"),
        HazardKind::Makes => put_moving(text, diagram, b"makes a current through ", shown.other),
        HazardKind::Leaves => put_moving(text, diagram, b"leaves a current to ", shown.other),
        HazardKind::Joins => {
            text.extend_from_slice(b"joins two live parts that may be out of phase")
        }
        HazardKind::Uncouples => {
            text.extend_from_slice(b"leaves disconnectors alone to join its two sides")
        }
        HazardKind::Unearths => put_fed_earth(text, diagram, start),
    }
}

/// Adds a hazard in words: what the operation would do, and the walks that show it, as
/// `joins LINE to earth: LINE - QB9 - N2 - QC2`. Fails only if an allocation fails.
pub fn put_hazard(
    text: &mut Vec<u8>,
    diagram: &Diagram,
    shown: &ShownHazard,
) -> Result<(), AllocError>
    ensures { OnOk result
        (text.new.items ≡ text.old.items ++ spec.hazard_text diagram.now shown.now) }
{
    put_effect(text, diagram, shown)?;
    text.extend_from_slice(b": ")?;
    put_walk(text, diagram, &shown.walk)?;
    put_switch(text, diagram, shown.earth)?;
    put_beside(text, diagram, &shown.beside)
}
