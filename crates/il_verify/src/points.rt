// Whether an image fits a bay.
ghost use Rattle.std.specs.Prelude.{◌≡◌};
ghost use Rattle.std.specs.List.{list_any};
ghost use Rattle.std.specs.Str.{bytes_eq};
ghost use Rattle.il_verify.specs.Binding as spec;

use bay_base::names::same_name;
use bay_base::point::Point;
use il_image::image::{Image, ImagePoint};

// The most slots of an image: its points and variables.
const MAX_SLOTS: usize = 512;

// The most timers of an image.
const MAX_TIMERS: usize = 64;

// Returns whether an image's point is this point of the bay.
fn is_point(point: &ImagePoint, other: &Point) -> bool
    ensures { result ≡ spec.is_point point.now other.now }
{
    same_name(point.name.as_str(), other.name.as_str())
        && point.elementary == other.kind
        && point.writable == other.writable
}

// Returns whether the point is one of the bay's.
fn is_of_bay(bay: &[Point], point: &ImagePoint) -> bool
    ensures { result ≡ list_any (λ b. spec.is_point point.now b) bay.now }
{
    bay.iter().any(|other| is_point(point, other))
}

// Returns whether one of the points has the name.
fn has_name(points: &[ImagePoint], name: &str) -> bool
    ensures { result ≡ list_any (λ q. bytes_eq q.name name.now) points.now }
{
    points.iter().any(|point| point.name.as_str() == name)
}

// Returns whether each point is one of the bay's, and none occurs twice.
fn are_points(bay: &[Point], points: &[ImagePoint]) -> bool
    ensures { result ≡ spec.are_points bay.now points.now }
{
    let mut rest = points;
    while let [point, others @ ..] = rest {
        if !is_of_bay(bay, point) || has_name(others, point.name.as_str()) {
            return false;
        }
        rest = others;
    }
    true
}

/// Returns whether the image's points are the bay's, and its slots and timers are not too many.
#[tactic(auto, unfolding(crate::specs::Binding::fits))]
pub(crate) fn fits(bay: &[Point], image: &Image) -> bool
    ensures { result ≡ spec.fits bay.now image.now }
{
    image.points().len() + image.variables().len() <= MAX_SLOTS
        && image.timers().len() <= MAX_TIMERS
        && are_points(bay, image.points())
}
