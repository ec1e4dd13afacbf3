// One instruction of the code: its effect on the frame before it, and what it brings to the offsets
// that it leads to. An offset counts octets of the code from 0.
ghost use Rattle.std.specs.Prelude.{◌≡◌, ◌<◌, ◌≤◌, ◌-◌, ◌^◌, ℕ, length, IfErr, IfOk, OnOk, option_map};
ghost use Rattle.std.specs.Bool.{OnFalse, OnTrue};
ghost use Rattle.il_image.specs.Tables.{InstrBegins};
ghost use Rattle.il_image.specs.Machine.{most_cells};
ghost use Rattle.il_verify.specs.Frames.{FailsVisit, IsPlan, JumpsToNoInstr, LeadsToInstrs, HasTargetFault, MarksInstrs, Visits, with_value_at, plain_frame, plain_frames};
ghost use Rattle.il_verify.specs.Refusals.{JumpsTo};

use crate::effect::apply_instr;
use crate::fault::VerifyFault;
use crate::frame::{Frame, falls_through, follow_jump, next_frame};
use crate::plan::{Plan, begins_instr};
use il_image::image::Image;
use il_image::instr::Instr;

// Returns whether an instruction, if it is a jump, jumps to an instruction.
fn jumps_right(code: &[u8], starts: &[bool], instr: Instr, next: usize) -> bool
    requires marks { MarksInstrs code.now starts.now }
    requires fits { next < 2 ^ 63 }
    ensures right { OnTrue result ((to : ℕ) → JumpsTo instr next to → InstrBegins code.now to) }
    ensures wrong { OnFalse result (JumpsToNoInstr code.now instr next) }
{
    match instr {
        Instr::Jump(_, distance) => begins_instr(starts, next + usize::from(distance)),
        _ => true,
    }
}

// Checks that an instruction leads only to instructions.
fn check_targets(code: &[u8], starts: &[bool], instr: Instr, next: usize) -> Result<(), VerifyFault>
    requires marks { MarksInstrs code.now starts.now }
    requires fits { next < 2 ^ 63 }
    ensures ok { OnOk result (LeadsToInstrs code.now instr next) }
    ensures err { IfErr result (λ f. HasTargetFault code.now instr next f) }
{
    if !jumps_right(code, starts, instr, next) {
        return Err(VerifyFault::BadTarget);
    }
    if falls_through(instr) && next >= code.len() {
        return Err(VerifyFault::NoHalt);
    }
    Ok(())
}

/// Applies an instruction to the frame before it, and returns the frame at the next offset, or
/// `None` if no path leads there. Returns the first fault of the instruction, if it has one.
pub(crate) fn visit(
    image: &Image,
    plan: &Plan,
    instr: Instr,
    next: usize,
    frame: Frame,
    pending: &mut Vec<Option<Frame>>,
) -> Result<Option<Frame>, VerifyFault>
    requires plan { IsPlan image.now plan.now }
    requires fits { next < 2 ^ 63 }
    requires short { frame.longest < 2 ^ 32 - 1 }
    requires few { length frame.kinds.items ≤ most_cells }
    requires room { length image.now.code ≤ length pending.old.items }
    ensures size { length pending.new.items ≡ length pending.old.items }
    ensures ok { IfOk result
        (λ behind. Visits image.now instr next (plain_frame frame) (plain_frames pending.old.items)
        (with_value_at next (option_map plain_frame behind) (plain_frames pending.new.items))) }
    ensures err { IfErr result
        (λ f. FailsVisit image.now instr next (plain_frame frame) (plain_frames pending.old.items)
        f) }
{
    let Frame { kinds, longest } = frame;
    let mut kinds = kinds;
    match apply_instr(plan.slots.as_slice(), plan.timers, instr, &mut kinds) {
        Ok(()) => {}
        Err(fault) => return Err(fault),
    }
    match check_targets(image.code(), plan.starts.as_slice(), instr, next) {
        Ok(()) => {}
        Err(fault) => return Err(fault),
    }
    let longest = longest + 1;
    match follow_jump(instr, next, kinds.as_slice(), longest, pending) {
        Ok(()) => {}
        Err(fault) => return Err(fault),
    }
    match next_frame(instr, next, Frame { kinds, longest }, pending) {
        Ok(behind) => Ok(behind),
        Err(fault) => return Err(fault),
    }
}
