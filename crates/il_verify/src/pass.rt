// The pass over the code, from instruction to instruction. An offset counts octets of the code from
// 0.
ghost use Rattle.std.specs.Prelude.{◌≡◌, ◌<◌, ◌≤◌, ◌↔◌, ℕ, None, IfErr, IfOk, IsTrue, length, max};
ghost use Rattle.il_image.specs.Images.{IsImage};
ghost use Rattle.il_verify.specs.Frames.{IsPlan, plain_frames};
ghost use Rattle.il_verify.specs.Passing as spec;
ghost use Rattle.il_verify.specs.Refusals.{FailsAt};
ghost use Rattle.il_verify.specs.Verdicts.{IsMeasured};

use crate::fault::VerifyFault;
use crate::frame::Frame;
use crate::plan::Plan;
use crate::visit::visit;
use arrayvec::ArrayVec;
use il_image::image::Image;
use il_image::instr::Instr;
use il_image::read::instr_at;

/// The measures of code without a fault.
#[derive(Drop)]
pub(crate) struct Measures {
    /// The number of instructions on a longest path to a HALT.
    pub budget: u32,
    /// The maximum number of values on the stack before an instruction.
    pub depth: u32,
}

/// A fault and the offset of its instruction.
#[derive(Drop)]
pub(crate) struct PlacedFault {
    pub fault: VerifyFault,
    pub place: usize,
}

// Returns whether a run ends at this instruction.
fn is_halt(instr: Instr) -> bool
    ensures { IsTrue result ↔ (instr ≡ Instr.Halt) }
{
    match instr {
        Instr::Halt => true,
        _ => false,
    }
}

// Returns the budget after an instruction, raised if the instruction is HALT.
fn raise_budget(halts: bool, longest: u32, budget: u32) -> u32
    ensures { result ≡ spec.raised_budget halts longest budget }
{
    if halts { longest.max(budget) } else { budget }
}

/// Goes through the instructions in order, with room for a frame at each offset, and returns the
/// measures, or the first fault with its offset. A frame moves to the next instruction; it is
/// copied only for a jump.
pub(crate) fn pass(
    image: &Image,
    plan: &Plan,
    pending: Vec<Option<Frame>>,
) -> Result<Measures, PlacedFault>
    requires plan { IsPlan image.now plan.now }
    requires some { 0 < length image.now.code }
    requires format { IsImage image.now }
    requires room { length image.now.code ≤ length pending.items }
    requires none { (q : ℕ) → plain_frames pending.items q ≡ None }
    ensures ok { IfOk result (λ m. IsMeasured image.now m.budget m.depth) }
    ensures err { IfErr result (λ s. FailsAt image.now s.fault s.place) }
{
    let code = image.code();
    let mut pending = pending;
    let mut frame = Some(Frame {
        kinds: ArrayVec::new(),
        longest: 1,
    });
    let mut place = 0;
    let mut budget = 0;
    let mut depth = 0;
    while place < code.len() {
        let Some(here) = frame else {
            return Err(PlacedFault {
                fault: VerifyFault::Unreachable,
                place,
            });
        };
        let Some((instr, next)) = instr_at(code, place) else {
            unreachable!();
        };
        depth = (here.kinds.len() as u32).max(depth);
        budget = raise_budget(is_halt(instr), here.longest, budget);
        frame = match visit(image, plan, instr, next, here, &mut pending) {
            Ok(behind) => behind,
            Err(fault) => return Err(PlacedFault { fault, place }),
        };
        place = next;
    }
    Ok(Measures { budget, depth })
}
