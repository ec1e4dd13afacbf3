// Inputs and outputs that are read point by point, without a list of either.
ghost use Rattle.std.specs.Prelude.{◌≡◌, ◌<◌, Some, length, map, slice_get};
ghost use Rattle.il_image.specs.Images.{IsValue};
ghost use Rattle.il_image.specs.Values.{type_of};
ghost use Rattle.il_scan.specs.OutputValues.{output_value};
ghost use Rattle.il_scan.specs.OutputValues as spec;
ghost use Rattle.il_scan.specs.PointIndices.{AllBelow};
ghost use Rattle.il_scan.specs.PointIndices.{AreValues};
ghost use Rattle.il_scan.specs.MachineStates.{AreWords};

use crate::slots::is_output_true;
use il_image::image::ImagePoint;
use il_image::value::Value;
use std::marker::Model;

/// A source of a scan's inputs: a value for each read-only point, in the image's order.
pub trait Inputs {
    ghost use Rattle.std.specs.Prelude.{◌≡◌, List, length};
    ghost use Rattle.bay_base.specs.declared.types.ElementaryType.{ElementaryType};
    ghost use Rattle.il_image.specs.declared.value.Value.{Value as ImageValue};

    // The types of all inputs.
    ghost types: { Self → List ElementaryType };

    // All inputs.
    ghost values: { Self → List ImageValue };

    /// Returns the input of the point at this index among the read-only points.
    fn input(&self, place: usize) -> Value
        requires within { place < length (types self.now) }
        ensures value { slice_get (values self.now) place ≡ Some result }
        ensures typed { slice_get (types self.now) place ≡ Some (type_of result) }
        ensures is_value { IsValue result };

    // There are as many values as types.
    ghost sized: { (inputs : Self) → length (values inputs) ≡ length (types inputs) };
}

/// Inputs from a list.
#[derive(Drop)]
pub(crate) struct InputList<'a> {
    pub values: &'a [Value],
    ghost are: { AreValues values.now },
}

impl<'a> Inputs for InputList<'a> {
    ghost use Rattle.std.specs.Prelude.{map};
    ghost use Rattle.std.proofs.Common.{sym};
    ghost use Rattle.std.proofs.lemmas.List.{length-map};
    ghost use Rattle.il_image.specs.Values.{type_of};

    ghost types = { λ inputs. map type_of inputs.values.now };

    ghost values = { λ inputs. inputs.values.now };

    fn input(&self, place: usize) -> Value {
        self.values[place]
    }

    ghost sized = { λ inputs. sym (length-map inputs.values.now type_of) };
}

/// The values of the writable points, in the image's order, after a scan.
#[derive(Drop)]
pub struct Outputs<'a> {
    points: &'a [ImagePoint],
    writes: &'a [usize],
    slots: &'a [i64],
}

impl<'a> Model for Outputs<'a> {
    ghost use Rattle.std.specs.Prelude.{List, length, map};
    ghost use Rattle.il_image.specs.declared.value.Value.{Value as ImageValue};
    ghost use Rattle.il_scan.specs.OutputValues.{output_value};
    ghost use Rattle.il_scan.specs.PointIndices.{AllBelow};
    ghost use Rattle.il_scan.specs.MachineStates.{AreWords};

    ghost Value = { List ImageValue };

    ghost view = { λ o. map (output_value o.points.now o.slots.now) o.writes.now };

    ghost invariant = { λ o. AreWords o.points.now o.slots.now × AllBelow (length o.points.now) o.writes.now };
}

impl<'a> Outputs<'a> {
    /// Creates the values of the points at these indices.
    #[inline(always)]
    pub(crate) fn new(points: &'a [ImagePoint], writes: &'a [usize], slots: &'a [i64]) -> Self
        requires words { AreWords points.now slots.now }
        requires within { AllBelow (length points.now) writes.now }
        ensures { result ≡ map (output_value points.now slots.now) writes.now }
    {
        Outputs {
            points,
            writes,
            slots,
        }
    }

    /// Returns whether there is a writable point at this index among the writable points and its
    /// value is TRUE.
    #[inline(always)]
    pub fn is_true(&self, place: usize) -> bool
        ensures { result ≡ spec.is_true (slice_get self.now place) }
    {
        if place < self.writes.len() {
            is_output_true(self.points, self.slots, self.writes[place])
        } else {
            false
        }
    }
}
