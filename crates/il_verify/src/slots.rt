// The slots that the code uses.
ghost use Rattle.std.specs.Prelude.{◌≡◌, ◌++◌, IfOk, OnOk, map};
ghost use Rattle.il_verify.specs.Slots.{point_slot, variable_slot};
ghost use Rattle.il_verify.specs.Slots as spec;

use bay_base::types::ElementaryType;
use il_image::image::{Image, ImagePoint};
use il_image::value::Value;
use std::alloc::{AllocError, Global};

/// The type of a slot, and whether the code may write it.
#[derive(Clone, Copy)]
pub struct SlotType {
    pub elementary: ElementaryType,
    pub writable: bool,
}

// Appends the slot of each point.
fn push_points(slots: &mut Vec<SlotType>, points: &[ImagePoint]) -> Result<(), AllocError>
    ensures { OnOk result (slots.new.items ≡ slots.old.items ++ map point_slot points.now) }
{
    for point in points {
        slots.push(SlotType {
            elementary: point.elementary,
            writable: point.writable,
        })?;
    }
    Ok(())
}

// Appends the slot of each variable, which may be written.
fn push_variables(slots: &mut Vec<SlotType>, variables: &[Value]) -> Result<(), AllocError>
    ensures { OnOk result (slots.new.items ≡ slots.old.items ++ map variable_slot variables.now) }
{
    for variable in variables {
        slots.push(SlotType {
            elementary: variable.type_of(),
            writable: true,
        })?;
    }
    Ok(())
}

/// Returns the slots of the points, then those of the variables.
#[tactic(auto, unfolding(crate::specs::Slots::slots_of))]
pub(crate) fn slots_of(alloc: Global, image: &Image) -> Result<Vec<SlotType>, AllocError>
    ensures { IfOk result (λ slots. slots.items ≡ spec.slots_of image.now) }
{
    let mut slots = Vec::new(alloc);
    push_points(&mut slots, image.points())?;
    push_variables(&mut slots, image.variables())?;
    Ok(slots)
}
