// The passes that an audit may make, and how its answers share them.
ghost use Rattle.std.specs.Prelude.{◌≡◌};
ghost use Rattle.bay_audit.specs.Effort as spec;

use il_image::image::Image;
use il_image::instr::Instr;
use il_image::read::instr_at;

/// The default effort of an audit, in millions of octets of code.
pub const EFFORT: u32 = 60;

// The work of a pass beside its code, in octets of code.
const PASS: u64 = 100;

// The work of a pass for each slot and timer, in octets of code.
const SLOT: u64 = 2;

// The slots and timers that a jump copies in the time of one octet of code.
const COPIED: u64 = 16;

/// The passes that an audit may still make, and the number of answers that share them.
#[derive(Clone, Copy)]
pub struct PassBudget {
    pub passes: u32,
    pub answers: u32,
}

// Returns the number of jumps of a code.
fn jump_count(code: &[u8]) -> u64 {
    let mut next = 0;
    let mut jumps: u64 = 0;
    for place in 0..code.len() {
        if place == next {
            let Some((instr, after)) = instr_at(code, place) else {
                return jumps;
            };
            next = after;
            if matches!(instr, Instr::Jump(_, _)) {
                jumps = jumps.saturating_add(1);
            }
        }
    }
    jumps
}

// Returns the work of a pass, in octets of code: the code, what each jump copies of the slots and
// timers, and what a pass takes beside that.
fn pass_work(image: &Image) -> u64 {
    let slots = (image.points().len() as u64)
        .saturating_add(image.variables().len() as u64)
        .saturating_add(image.timers().len() as u64);
    let copied = jump_count(image.code()).saturating_mul(slots / COPIED);
    (image.code().len() as u64)
        .saturating_add(copied)
        .saturating_add(slots.saturating_mul(SLOT))
        .saturating_add(PASS)
}

impl PassBudget {
    /// Returns the passes over a program that an effort allows, for this number of answers. The
    /// effort is in millions of octets of code.
    pub fn new(image: &Image, effort: u32, answers: usize) -> Self {
        let octets = u64::from(effort) * 1_000_000;
        PassBudget {
            passes: u32::try_from(octets / pass_work(image).max(1)).unwrap_or(u32::MAX),
            answers: u32::try_from(answers).unwrap_or(u32::MAX),
        }
    }

    /// Returns the maximum number of passes of the next answer: the passes that are left, divided
    /// by the answers that are left, and one more.
    pub fn share(self) -> u32
        ensures { result ≡ spec.share_of self }
    {
        let share = match self.answers {
            0 => self.passes,
            answers => self.passes / answers,
        };
        if share < self.passes {
            share + 1
        } else {
            share
        }
    }

    /// Leaves the passes that an answer did not make to the answers after it.
    pub fn spend(&mut self, passes: u32)
        ensures { self.new ≡ spec.budget_after passes self.old }
    {
        self.passes = self.passes.saturating_sub(passes);
        self.answers = self.answers.saturating_sub(1);
    }
}
