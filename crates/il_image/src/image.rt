// Images: compiled code with the points, variables and timers that it uses.
ghost use Rattle.std.specs.Prelude.{◌≡◌};

use crate::value::Value;
use bay_base::listing::Listing;
use bay_base::text::Text;
use bay_base::types::{ElementaryType, TimerKind};
use std::marker::Model;

/// A point that the code reads, or reads and writes.
#[derive(Drop)]
pub struct ImagePoint {
    /// The name in upper case: 1 to 64 letters, digits and underscores.
    pub name: Text,
    pub elementary: ElementaryType,
    /// Whether the code may write the point.
    pub writable: bool,
}

/// A program's code in octets, and what the code uses. The slots are the points and then the
/// variables, in order. An image holds only what its format can represent: at most 65,535 points,
/// variables, timers and octets of code; valid names; values of their types; and code that is a
/// sequence of instructions.
#[derive(Drop)]
pub struct Image {
    points: Listing<ImagePoint>,
    variables: Listing<Value>,
    timers: Listing<TimerKind>,
    code: Listing<u8>,
}

impl Model for Image {
    ghost use Rattle.il_image.specs.Images.{Image, IsImage};

    ghost Value = { Image };

    ghost view = { λ i. record {
      points = i.points;
      variables = i.variables;
      timers = i.timers;
      code = i.code;
    } };

    ghost invariant = { λ i. IsImage
        (record { points = i.points; variables = i.variables; timers = i.timers; code = i.code }) };
}

impl Image {
    ghost use Rattle.il_image.specs.Images.{IsImage};

    /// Creates the image of these parts. The format must be able to represent them.
    pub fn new(
        points: Listing<ImagePoint>,
        variables: Listing<Value>,
        timers: Listing<TimerKind>,
        code: Listing<u8>,
    ) -> Self
        requires { IsImage
            (record { points = points; variables = variables; timers = timers; code = code }) }
        ensures { result ≡ record
            { points = points; variables = variables; timers = timers; code = code } }
    {
        Image {
            points,
            variables,
            timers,
            code,
        }
    }

    /// Returns the points. Their slots come first.
    pub fn points(&self) -> &[ImagePoint]
        ensures value { result.now ≡ self.now.points }
        ensures kept { IsImage self.now }
    {
        self.points.as_slice()
    }

    /// Returns the initial values of the variables.
    pub fn variables(&self) -> &[Value]
        ensures value { result.now ≡ self.now.variables }
        ensures kept { IsImage self.now }
    {
        self.variables.as_slice()
    }

    /// Returns the kinds of the timers.
    pub fn timers(&self) -> &[TimerKind]
        ensures value { result.now ≡ self.now.timers }
        ensures kept { IsImage self.now }
    {
        self.timers.as_slice()
    }

    /// Returns the octets of the code.
    pub fn code(&self) -> &[u8]
        ensures value { result.now ≡ self.now.code }
        ensures kept { IsImage self.now }
    {
        self.code.as_slice()
    }
}
