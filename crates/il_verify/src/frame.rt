// The pending frames, those of offsets that the pass has yet to reach, and how frames are joined.
// An offset counts octets of the code from 0.
ghost use Rattle.std.specs.Prelude.{ℕ, ◌-◌, ◌≡◌, ◌≢◌, ◌+◌, ◌<◌, ◌≤◌, ◌^◌, [], Some, None, length, reverse, OnOk, IfOk, IfErr, IfSome, IsSome, option_map, true};
ghost use Rattle.il_verify.specs.declared.frame.Frame.{Frame};
ghost use Rattle.il_verify.specs.Frames.{HasOtherDepth, Falls, JoinsFrame, JumpClash, Jumps, PlainFrame, JoinsFrameAt, with_value_at, frame_at, join_all, plain_frame, plain_frames};
ghost use Rattle.il_verify.specs.Frames as spec;
ghost use Rattle.il_verify.specs.Refusals.{JumpsTo};
ghost use Rattle.il_image.specs.Machine.{most_cells};

use crate::fault::VerifyFault;
use arrayvec::ArrayVec;
use il_image::instr::Instr;
use il_image::kind::{CellKind, join};
use il_image::opcode::When;
use std::alloc::{AllocError, Global};

/// The most kinds on a stack.
pub(crate) const MAX_KINDS: usize = 32;

// The room of a kind stack: one kind more, which an instruction pushes before it is refused.
const ROOM: usize = MAX_KINDS + 1;

/// The kinds on a stack, the top last. It has room for one more than the stack may have.
pub(crate) type KindStack = ArrayVec<CellKind, ROOM>;

/// What is known of the stack before an instruction, and the length of the longest path to it.
#[derive(Drop)]
pub(crate) struct Frame {
    /// The kinds on the stack.
    pub kinds: KindStack,
    /// The number of offsets on a longest path from offset 0 to this one.
    pub longest: u32,
}

// Returns a copy of the kinds on a stack.
fn copy_of(kinds: &[CellKind]) -> KindStack
    requires { length kinds.now ≤ most_cells }
    ensures { result.items ≡ kinds.now }
{
    let mut copy = ArrayVec::new();
    match copy.try_extend_from_slice(kinds) {
        Ok(()) => {}
        Err(_) => unreachable!(),
    }
    copy
}

// Joins each kind with the other at the same index: the least kind that includes both.
fn join_all(kinds: &mut KindStack, others: &[CellKind])
    requires { length kinds.old.items ≡ length others.now }
    ensures { kinds.new.items ≡ join_all kinds.old.items others.now }
{
    for i in 0..others.len() {
        kinds[i] = join(kinds[i], others[i]);
    }
}

// Joins a frame with what another path brings to the same offset. If the depths differ, returns
// `DepthClash` and leaves the frame unchanged.
fn join_frame(frame: &mut Frame, kinds: &[CellKind], longest: u32) -> Result<(), VerifyFault>
    ensures ok { OnOk result
        (JoinsFrame (record { kinds = reverse kinds.now; longest = longest })
        (Some (plain_frame frame.old)) (plain_frame frame.new)) }
    ensures err { IfErr result
        (λ f. (f ≡ VerifyFault.DepthClash) × (length frame.old.kinds.items ≢ length kinds.now)) }
{
    if frame.kinds.len() != kinds.len() {
        return Err(VerifyFault::DepthClash);
    }
    join_all(&mut frame.kinds, kinds);
    frame.longest = frame.longest.max(longest);
    Ok(())
}

/// Extends the pending frames up to an offset, with nothing pending at the new offsets.
pub(crate) fn extend_pending(
    pending: &mut Vec<Option<Frame>>,
    place: usize,
) -> Result<(), AllocError>
    requires { place < 2 ^ 64 - 1 }
    ensures room { OnOk result (place < length pending.new.items) }
    ensures same { OnOk result
        ((q : ℕ) → plain_frames pending.new.items q ≡ plain_frames pending.old.items q) }
{
    for _ in pending.len()..place + 1 {
        pending.push(None)?;
    }
    Ok(())
}

// Brings a path to an offset, at which a frame may be pending.
fn join_at(slot: &mut Option<Frame>, kinds: &[CellKind], longest: u32) -> Result<(), VerifyFault>
    requires { length kinds.now ≤ most_cells }
    ensures ok { OnOk result
        ((frame : Frame) × (slot.new ≡ Some frame)
        × JoinsFrame (record { kinds = reverse kinds.now; longest = longest })
        (option_map plain_frame slot.old) (plain_frame frame)) }
    ensures err { IfErr result
        (λ f. (f ≡ VerifyFault.DepthClash)
        × HasOtherDepth (option_map plain_frame slot.old) (reverse kinds.now)) }
{
    if let Some(frame) = slot {
        return join_frame(frame, kinds, longest);
    }
    *slot = Some(Frame {
        kinds: copy_of(kinds),
        longest,
    });
    Ok(())
}

// Brings a path to the target of a jump.
fn join_pending(
    pending: &mut Vec<Option<Frame>>,
    place: usize,
    kinds: &[CellKind],
    longest: u32,
) -> Result<(), VerifyFault>
    requires few { length kinds.now ≤ most_cells }
    requires room { place < length pending.old.items }
    ensures size { length pending.new.items ≡ length pending.old.items }
    ensures ok { OnOk result
        (JoinsFrameAt (plain_frames pending.old.items) (plain_frames pending.new.items) place
        (record { kinds = reverse kinds.now; longest = longest })) }
    ensures err { IfErr result
        (λ f. (f ≡ VerifyFault.DepthClash)
        × HasOtherDepth (plain_frames pending.old.items place) (reverse kinds.now)) }
{
    join_at(&mut pending[place], kinds, longest)
}

/// Brings a path to the target of an instruction, if it is a jump. Returns `DepthClash` if the
/// frame pending there has another depth.
pub(crate) fn follow_jump(
    instr: Instr,
    next: usize,
    kinds: &[CellKind],
    longest: u32,
    pending: &mut Vec<Option<Frame>>,
) -> Result<(), VerifyFault>
    requires fits { next < 2 ^ 63 }
    requires few { length kinds.now ≤ most_cells }
    requires room { (to : ℕ) → JumpsTo instr next to → to < length pending.old.items }
    ensures size { length pending.new.items ≡ length pending.old.items }
    ensures ok { OnOk result
        (Jumps instr next (record { kinds = reverse kinds.now; longest = longest })
        (plain_frames pending.old.items) (plain_frames pending.new.items)) }
    ensures err { IfErr result
        (λ f. (f ≡ VerifyFault.DepthClash)
        × JumpClash instr next (plain_frames pending.old.items) (reverse kinds.now)) }
{
    match instr {
        Instr::Jump(_, distance) => {
            join_pending(pending, next + usize::from(distance), kinds, longest)
        }
        _ => Ok(()),
    }
}

/// Returns whether the next instruction may run after this one.
pub(crate) fn falls_through(instr: Instr) -> bool
    ensures { result ≡ spec.falls_through instr }
{
    match instr {
        Instr::Halt | Instr::Jump(When::Always, _) => false,
        _ => true,
    }
}

// Removes the frame pending at an offset and returns it, if there is one.
fn take_pending(pending: &mut Vec<Option<Frame>>, place: usize) -> Option<Frame>
    ensures value { result ≡ frame_at pending.old.items place }
    ensures size { length pending.new.items ≡ length pending.old.items }
    ensures others { (q : ℕ) → (q ≡ place → ⊥)
        → plain_frames pending.new.items q ≡ plain_frames pending.old.items q }
{
    if place < pending.len() {
        pending[place].take()
    } else {
        None
    }
}

/// Returns the frame at the next offset: the frame pending there, joined with this one if the
/// instruction falls through, or `None` if no path leads there. Returns `DepthClash` if the two
/// have different depths.
pub(crate) fn next_frame(
    instr: Instr,
    next: usize,
    frame: Frame,
    pending: &mut Vec<Option<Frame>>,
) -> Result<Option<Frame>, VerifyFault>
    ensures size { length pending.new.items ≡ length pending.old.items }
    ensures ok { IfOk result
        (λ behind. Falls instr next (plain_frame frame) (plain_frames pending.old.items)
        (with_value_at next (option_map plain_frame behind) (plain_frames pending.new.items))) }
    ensures err { IfErr result
        (λ f. (f ≡ VerifyFault.DepthClash)
        × ((spec.falls_through instr ≡ true)
        × HasOtherDepth (plain_frames pending.old.items next) (plain_frame frame).kinds)) }
{
    let old = take_pending(pending, next);
    if !falls_through(instr) {
        return Ok(old);
    }
    match old {
        None => Ok(Some(frame)),
        Some(mut other) => match join_frame(&mut other, frame.kinds.as_slice(), frame.longest) {
            Ok(()) => Ok(Some(other)),
            Err(fault) => return Err(fault),
        },
    }
}
