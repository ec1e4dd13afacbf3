// What the pass over the code looks up.
ghost use Rattle.std.specs.Prelude.{◌≡◌, ◌≤◌, ◌↔◌, IfOk, IsTrue, Some, slice_get, true, length};
ghost use Rattle.il_image.specs.Images.{IsCode};
ghost use Rattle.il_verify.specs.Frames.{IsPlan, MarksInstrs};
ghost use Rattle.il_verify.specs.Sizes.{size_of_opcode};

use crate::slots::{SlotType, slots_of};
use bay_base::types::ElementaryType;
use il_image::image::Image;
use il_image::opcode::Opcode;
use std::alloc::{AllocError, Global};

/// The slots, the number of timers, and for each octet of the code whether an instruction begins
/// there.
#[derive(Drop)]
pub(crate) struct Plan {
    pub slots: Vec<SlotType>,
    pub timers: usize,
    pub starts: Vec<bool>,
}

// Returns the number of octets of an instruction with this opcode.
fn size_of(opcode: Opcode) -> usize
    ensures value { result ≡ size_of_opcode opcode }
    ensures few { result ≤ 9 }
{
    match opcode {
        Opcode::Compute(_) | Opcode::Push(ElementaryType::Bool) => 2,
        Opcode::Slot(_) | Opcode::Jump(_) | Opcode::Timer(_) | Opcode::Push(ElementaryType::Int) =>
            3,
        Opcode::Push(ElementaryType::Dint | ElementaryType::Time) => 5,
        Opcode::Push(ElementaryType::Lint) => 9,
        _ => 1,
    }
}

// Returns for each octet of the code whether an instruction begins there.
fn starts_of(alloc: Global, code: &[u8]) -> Result<Vec<bool>, AllocError>
    requires { IsCode code.now }
    ensures marks { IfOk result (λ starts. MarksInstrs code.now starts.items) }
    ensures size { IfOk result (λ starts. length starts.items ≡ length code.now) }
{
    let mut starts = vec![in alloc; false; code.len()]?;
    let mut place = 0;
    while place < code.len() {
        starts[place] = true;
        match Opcode::of(code[place]) {
            Some(opcode) => place += size_of(opcode),
            None => unreachable!(),
        }
    }
    Ok(starts)
}

/// Returns whether an instruction begins at this offset in the code.
pub(crate) fn begins_instr(starts: &[bool], place: usize) -> bool
    ensures { IsTrue result ↔ (slice_get starts.now place ≡ Some true) }
{
    match starts.get(place) {
        Some(start) => *start,
        None => false,
    }
}

/// Returns what an image's instructions are checked against: its slots, its timers, and where its
/// instructions begin.
pub(crate) fn plan_of(alloc: Global, image: &Image) -> Result<Plan, AllocError>
    ensures { IfOk result (λ plan. IsPlan image.now plan) }
{
    let slots = slots_of(alloc, image)?;
    let starts = starts_of(alloc, image.code())?;
    Ok(Plan {
        slots,
        timers: image.timers().len(),
        starts,
    })
}
