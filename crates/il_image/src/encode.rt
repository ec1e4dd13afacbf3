// Encodes images.
ghost use Rattle.std.specs.Prelude.{◌≡◌, ◌++◌, ◌≤◌, IfOk, OnOk, length};
ghost use Rattle.il_image.specs.Images.{Each, HasName, count_and_items, image_octets, point_octets, timer_octets, variable_octets};
ghost use Rattle.il_image.specs.Images as spec;
ghost use Rattle.il_image.specs.Octets.{most_counted};

use crate::image::{Image, ImagePoint};
use crate::opcode::Version;
use crate::value::Value;
use crate::write::{Size, push_number, push_octet, push_signed};
use bay_base::types::{ElementaryType, TimerKind};
use std::alloc::{AllocError, Global};

// Returns the octet of a type.
fn type_octet(elementary: ElementaryType) -> u8
    ensures { result ≡ spec.type_octet elementary }
{
    match elementary {
        ElementaryType::Bool => 0x01,
        ElementaryType::Int => 0x02,
        ElementaryType::Dint => 0x03,
        ElementaryType::Time => 0x04,
        ElementaryType::Lint => 0x05,
    }
}

// Appends a point: its type, whether code may write it, the length of its name, and its name.
fn push_point(octets: &mut Vec<u8>, point: &ImagePoint) -> Result<(), AllocError>
    requires { HasName point.now }
    ensures { OnOk result (octets.new.items ≡ octets.old.items ++ point_octets point.now) }
{
    let name = point.name.as_str().as_bytes();
    push_octet(octets, type_octet(point.elementary))?;
    push_octet(octets, u8::from(point.writable))?;
    push_octet(octets, name.len() as u8)?;
    octets.extend_from_slice(name)
}

// Appends the points after their count.
fn push_points(octets: &mut Vec<u8>, points: &[ImagePoint]) -> Result<(), AllocError>
    requires few { length points.now ≤ most_counted }
    requires names { Each HasName points.now }
    ensures { OnOk result (octets.new.items
        ≡ octets.old.items ++ count_and_items point_octets points.now) }
{
    push_number(octets, points.len() as u16)?;
    for point in points {
        push_point(octets, point)?;
    }
    Ok(())
}

// Appends a variable: its type and its initial value.
fn push_variable(octets: &mut Vec<u8>, value: Value) -> Result<(), AllocError>
    ensures { OnOk result (octets.new.items ≡ octets.old.items ++ variable_octets Version.Two value) }
{
    push_octet(octets, type_octet(value.type_of()))?;
    push_signed(octets, Size::Eight, value.number())
}

// Appends the variables after their count.
fn push_variables(octets: &mut Vec<u8>, values: &[Value]) -> Result<(), AllocError>
    requires { length values.now ≤ most_counted }
    ensures { OnOk result (octets.new.items
        ≡ octets.old.items ++ count_and_items (variable_octets Version.Two) values.now) }
{
    push_number(octets, values.len() as u16)?;
    for value in values {
        push_variable(octets, *value)?;
    }
    Ok(())
}

// Appends a timer's kind.
fn push_timer(octets: &mut Vec<u8>, kind: TimerKind) -> Result<(), AllocError>
    ensures { OnOk result (octets.new.items ≡ octets.old.items ++ timer_octets Version.Two kind) }
{
    match kind {
        TimerKind::OnDelay => push_octet(octets, 0x01),
        TimerKind::OffDelay => push_octet(octets, 0x02),
    }
}

// Appends the timers after their count.
fn push_timers(octets: &mut Vec<u8>, kinds: &[TimerKind]) -> Result<(), AllocError>
    requires { length kinds.now ≤ most_counted }
    ensures { OnOk result (octets.new.items
        ≡ octets.old.items ++ count_and_items (timer_octets Version.Two) kinds.now) }
{
    push_number(octets, kinds.len() as u16)?;
    for kind in kinds {
        push_timer(octets, *kind)?;
    }
    Ok(())
}

/// Encodes an image in version 2 of the format. Fails only if an allocation fails.
#[tactic(auto, unfolding(crate::specs::Images::image_octets))]
pub fn encode(alloc: Global, image: &Image) -> Result<Vec<u8>, AllocError>
    ensures { IfOk result (λ octets. octets.items ≡ image_octets Version.Two image.now) }
{
    let mut octets = Vec::from_slice(alloc, &[0x49, 0x4C, 0x42, 0x43, 0x02])?;
    push_points(&mut octets, image.points())?;
    push_variables(&mut octets, image.variables())?;
    push_timers(&mut octets, image.timers())?;
    let code = image.code();
    push_number(&mut octets, code.len() as u16)?;
    octets.extend_from_slice(code)?;
    Ok(octets)
}
