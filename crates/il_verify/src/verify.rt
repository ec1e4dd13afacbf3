// `verify`, and the verified image that it returns.
ghost use Rattle.std.specs.Prelude.{◌≡◌, ◌≢◌, ◌<◌, IfErr, IfOk, length, true};
ghost use Rattle.il_verify.specs.Binding.{fits};
ghost use Rattle.il_verify.specs.Refusals.{IsRefusal, Allocates};
ghost use Rattle.il_verify.specs.Verdicts.{IsMeasured, IsSafe, IsVerified};

use crate::fault::VerifyFault;
use crate::frame::extend_pending;
use crate::pass::{Measures, PlacedFault, pass};
use crate::plan::plan_of;
use crate::points::fits;
use bay_base::point::Point;
use il_image::image::Image;
use std::alloc::{AllocError, Global};
use std::marker::Model;

/// An image whose code cannot go wrong: a table of kinds agrees with it, and it writes no read-only
/// point.
#[derive(Drop)]
pub struct Verified {
    image: Image,
    budget: u32,
    depth: u32,
}

impl Model for Verified {
    ghost use Rattle.il_image.specs.Images.{Image};
    ghost use Rattle.il_verify.specs.Verdicts.{IsMeasured};

    ghost Value = { Image };

    ghost view = { λ v. v.image };

    ghost invariant = { λ v. IsMeasured v.image v.budget v.depth };
}

impl Verified {
    ghost use Rattle.il_image.specs.Images.{IsImage};
    ghost use Rattle.il_verify.specs.Verdicts.{IsBudget, IsDepth, IsSafe};

    /// Returns the verified image.
    pub fn image(&self) -> &Image
        ensures value { result.now ≡ self.now }
        ensures safe { IsSafe self.now }
    {
        &self.image
    }

    /// Returns the maximum number of instructions in a run: those of a longest path to a HALT,
    /// including the HALT.
    pub fn budget(&self) -> u32
        ensures { IsBudget self.now.code result }
    {
        self.budget
    }

    /// Returns the maximum number of values on the stack before an instruction: the length of the
    /// longest list in an agreeing table, 0 to 32.
    pub fn depth(&self) -> u32
        ensures { IsDepth self.now result }
    {
        self.depth
    }
}

/// A refused image with its first fault and the fault's offset: the octet of the code at which the
/// instruction begins, counted from 0. The offset is 0 if the image does not fit the bay or has no
/// code, and for out of memory.
#[derive(Drop)]
pub struct Refused {
    pub image: Image,
    pub fault: VerifyFault,
    pub place: usize,
}

// Does the work of `verify` on a borrowed image.
fn check(alloc: Global, image: &Image, points: &[Point]) -> Result<Measures, PlacedFault>
    ensures fits { IfOk result (λ m. fits points.now image.now ≡ true) }
    ensures ok { IfOk result (λ m. IsMeasured image.now m.budget m.depth) }
    ensures err { IfErr result
        (λ s. s.fault ≢ VerifyFault.OutOfMemory → IsRefusal points.now image.now s.fault s.place) }
    ensures memory { IfErr result
        (λ s. s.fault ≡ VerifyFault.OutOfMemory → (s.place ≡ 0) × Allocates points.now image.now) }
{
    if !fits(points, image) {
        return Err(PlacedFault {
            fault: VerifyFault::BadBinding,
            place: 0,
        });
    }
    if image.code().len() == 0 {
        return Err(PlacedFault {
            fault: VerifyFault::NoHalt,
            place: 0,
        });
    }
    let plan = match plan_of(alloc, image) {
        Ok(plan) => plan,
        Err(AllocError) => {
            return Err(PlacedFault {
                fault: VerifyFault::OutOfMemory,
                place: 0,
            });
        }
    };
    let mut pending = Vec::new(alloc);
    match extend_pending(&mut pending, image.code().len()) {
        Ok(()) => {}
        Err(AllocError) => {
            return Err(PlacedFault {
                fault: VerifyFault::OutOfMemory,
                place: 0,
            });
        }
    }
    match pass(image, &plan, pending) {
        Ok(measures) => Ok(measures),
        Err(stop) => return Err(stop),
    }
}

/// Accepts an image exactly if it fits the bay with these points, a table of kinds agrees with its
/// code, and no instruction writes a read-only point, unless an allocation fails. Otherwise refuses
/// it with its first fault in the format's order: that it does not fit the bay, or else that there
/// is no code, or else the first fault of the first instruction that has one. A refused image is
/// returned unchanged. Out of memory is possible only if the image fits the bay and has code. All
/// memory is allocated before an instruction is checked: room for a frame for each octet of the
/// code. The time of the pass is proportional to the length of the code.
pub fn verify(alloc: Global, image: Image, points: &[Point]) -> Result<Verified, Refused>
    ensures same { IfOk result (λ v. v ≡ image) }
    ensures accepted { IfOk result (λ v. IsVerified points.now image) }

    ensures back { IfErr result (λ r. r.image ≡ image) }
    ensures refused { IfErr result
        (λ r. r.fault ≢ VerifyFault.OutOfMemory → IsRefusal points.now image r.fault r.place) }
    ensures exact { IfErr result
        (λ r. r.fault ≢ VerifyFault.OutOfMemory → IsVerified points.now image → ⊥) }
    ensures memory { IfErr result
        (λ r. r.fault ≡ VerifyFault.OutOfMemory → (r.place ≡ 0) × Allocates points.now image) }
{
    match check(alloc, &image, points) {
        Ok(Measures { budget, depth }) => Ok(Verified {
            image,
            budget,
            depth,
        }),
        Err(stop) => Err(Refused {
            image,
            fault: stop.fault,
            place: stop.place,
        }),
    }
}
