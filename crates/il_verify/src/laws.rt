// Laws of the definitions. Each function does nothing, and its contract is the law.
ghost use Rattle.std.specs.Prelude.{◌≡◌, ℕ, List};
ghost use Rattle.bay_base.specs.declared.point.Point.{Point};
ghost use Rattle.il_image.specs.Images.{Image};
ghost use Rattle.il_verify.specs.Refusals.{IsRefusal};
ghost use Rattle.il_verify.specs.Verdicts.{IsVerified};
ghost use Rattle.il_verify.specs.declared.fault.VerifyFault.{VerifyFault};

/// An image has at most one first fault, at one offset.
pub fn one_refusal()
    ensures { (points : List Point) (image : Image) (f g : VerifyFault) (p q : ℕ)
        → IsRefusal points image f p → IsRefusal points image g q → (f ≡ g) × (p ≡ q) }
{}

/// An image with a first fault is not verified.
pub fn refused_or_verified()
    ensures { (points : List Point) (image : Image) (fault : VerifyFault) (place : ℕ)
        → IsRefusal points image fault place → IsVerified points image → ⊥ }
{}
