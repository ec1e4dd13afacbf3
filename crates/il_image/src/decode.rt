// Decodes images, from the left up to the first fault.
ghost use Rattle.std.specs.Prelude.{◌≡◌, ◌≤◌, ◌^◌, ◌<◌, length, IsErrOf, IsTrue, MatchResult, None, Some};
ghost use Rattle.std.specs.List.{list_all};
ghost use Rattle.bay_base.specs.Exact.{ExactOr};
ghost use Rattle.bay_base.specs.Results.{Exact};
ghost use Rattle.il_image.specs.Decoding.{Allocates, access_of, octets_after_prefix, code_fault, counted_at, decoded_image, kind_of_octet};
ghost use Rattle.il_image.specs.Decoding as spec;
ghost use Rattle.il_image.specs.Images.{mark};
ghost use Rattle.il_image.specs.Images as spec_images;

use crate::fault::ImageFault;
use crate::image::{Image, ImagePoint};
use crate::opcode::Version;
use crate::read::{instr_from, number_at, octet_at, value_at};
use crate::value::Value;
use crate::write::Size;
use bay_base::listing::Listing;
use bay_base::text::Text;
use bay_base::types::{ElementaryType, TimerKind};
use std::alloc::Global;

// Returns the octets after the mark.
fn octets_after_mark(octets: &[u8]) -> Result<&[u8], ImageFault>
    ensures { Exact (λ r. r.now) result (octets_after_prefix mark octets.now) }
{
    match octets {
        [0x49, 0x4C, 0x42, 0x43, rest @ ..] => Ok(rest),
        [] | [0x49] | [0x49, 0x4C] | [0x49, 0x4C, 0x42] => Err(ImageFault::Truncated),
        _ => Err(ImageFault::BadMagic),
    }
}

// Reads the version of the format.
fn version_at(octets: &[u8]) -> Result<(Version, &[u8]), ImageFault>
    ensures { Exact (λ r. (r.0, r.1.now)) result (spec.version_at octets.now) }
{
    match octets {
        [0x01, rest @ ..] => Ok((Version::One, rest)),
        [0x02, rest @ ..] => Ok((Version::Two, rest)),
        [_, ..] => Err(ImageFault::BadVersion),
        [] => Err(ImageFault::Truncated),
    }
}

// Returns the type that an octet encodes in a version, or `None` if there is none.
fn type_of_octet(version: Version, octet: u8) -> Option<ElementaryType>
    ensures { result ≡ spec.type_of_octet version octet }
{
    match octet {
        0x01 => Some(ElementaryType::Bool),
        0x02 => Some(ElementaryType::Int),
        0x03 => Some(ElementaryType::Dint),
        0x04 => Some(ElementaryType::Time),
        0x05 if version == Version::Two => Some(ElementaryType::Lint),
        _ => None,
    }
}

// Reads a type.
fn type_at(version: Version, octets: &[u8]) -> Result<(ElementaryType, &[u8]), ImageFault>
    ensures { Exact (λ r. (r.0, r.1.now)) result (spec.type_at version octets.now) }
{
    let (octet, rest) = octet_at(octets)?;
    match type_of_octet(version, octet) {
        Some(elementary) => Ok((elementary, rest)),
        None => Err(ImageFault::BadOpcode),
    }
}

// Reads whether code may write a point.
fn access_at(octets: &[u8]) -> Result<(bool, &[u8]), ImageFault>
    ensures { Exact (λ r. (r.0, r.1.now)) result (spec.access_at octets.now) }
{
    let (octet, rest) = octet_at(octets)?;
    match octet {
        0x00 => Ok((false, rest)),
        0x01 => Ok((true, rest)),
        _ => Err(ImageFault::BadOpcode),
    }
}

// Returns whether a name may have this octet: a capital letter, a digit or `_`.
fn is_name_octet(octet: u8) -> bool
    ensures { result ≡ spec_images.is_name_octet octet }
{
    matches!(octet, b'A'..=b'Z' | b'0'..=b'9' | b'_')
}

// Returns whether a name may have each of these octets.
fn is_name(octets: &[u8]) -> bool
    ensures { result ≡ list_all spec_images.is_name_octet octets.now }
{
    octets.iter().all(|octet| is_name_octet(*octet))
}

// Returns the octets of a name as text.
fn text_of(octets: &[u8]) -> &str
    requires { IsTrue (list_all spec_images.is_name_octet octets.now) }
    ensures { result.now ≡ octets.now }
{
    match str::from_utf8(octets) {
        Ok(text) => text,
        Err(_) => unreachable!(),
    }
}

// Reads a name of this length.
fn name_of_length(count: usize, octets: &[u8]) -> Result<(&str, &[u8]), ImageFault>
    ensures { Exact (λ r. (r.0.now, r.1.now)) result (spec.name_of_length count octets.now) }
{
    if octets.len() < count {
        if is_name(octets) {
            return Err(ImageFault::Truncated);
        }
        return Err(ImageFault::BadOpcode);
    }
    let (name, rest) = octets.split_at(count);
    if !is_name(name) {
        return Err(ImageFault::BadOpcode);
    }
    Ok((text_of(name), rest))
}

// Reads a name after the octet of its length, which is 1 to 64.
fn name_at(octets: &[u8]) -> Result<(&str, &[u8]), ImageFault>
    ensures { Exact (λ r. (r.0.now, r.1.now)) result (spec.name_at octets.now) }
{
    let (count, rest) = octet_at(octets)?;
    if count == 0 || count > 64 {
        return Err(ImageFault::BadOpcode);
    }
    name_of_length(usize::from(count), rest)
}

// Reads a point: its type, whether code may write it, and its name.
#[tactic(auto, unfolding(crate::specs::Decoding::point_at))]
fn point_at(
    alloc: Global,
    version: Version,
    octets: &[u8],
) -> Result<(ImagePoint, &[u8]), ImageFault>
    ensures { ExactOr ImageFault.OutOfMemory (λ r. (r.0, r.1.now)) result
        (spec.point_at version octets.now) }
{
    let (elementary, rest) = type_at(version, octets)?;
    let (writable, rest) = access_at(rest)?;
    let (name, rest) = name_at(rest)?;
    let name = Text::from_str(alloc, name)?;
    Ok((
        ImagePoint {
            name,
            elementary,
            writable,
        },
        rest,
    ))
}

// Returns the size of initial values in a version.
fn value_size(version: Version) -> Size
    ensures { result ≡ spec_images.value_size version }
{
    match version {
        Version::One => Size::Four,
        Version::Two => Size::Eight,
    }
}

// An item of a list in an image.
trait ListItem: Sized {
    ghost use Rattle.std.specs.Prelude.{List, ℕ, Result};
    ghost use Rattle.il_image.specs.declared.opcode.Version.{Version};
    ghost use Rattle.il_image.specs.declared.fault.ImageFault.{ImageFault};

    ghost at: { Version → List ℕ → Result (Self × List ℕ) ImageFault };

    // Reads the item at the start of the octets. Returns the item and the octets after it.
    fn read(version: Version, octets: &[u8]) -> Result<(Self, &[u8]), ImageFault>
        ensures { Exact (λ r. (r.0, r.1.now)) result (at version octets.now) };
}

// A variable: its type and its initial value.
impl ListItem for Value {
    ghost at = { spec.variable_at };

    #[tactic(auto, unfolding(crate::specs::Decoding::variable_at))]
    fn read(version: Version, octets: &[u8]) -> Result<(Value, &[u8]), ImageFault> {
        let (elementary, rest) = type_at(version, octets)?;
        value_at(value_size(version), elementary, rest)
    }
}

// A timer's kind. Version 1 has no octet for it, since all its timers are TON.
impl ListItem for TimerKind {
    ghost at = { spec.timer_at };

    #[tactic(auto, unfolding(crate::specs::Decoding::timer_at))]
    fn read(version: Version, octets: &[u8]) -> Result<(TimerKind, &[u8]), ImageFault> {
        if version == Version::One {
            return Ok((TimerKind::OnDelay, octets));
        }
        let (octet, rest) = octet_at(octets)?;
        match octet {
            0x01 => Ok((TimerKind::OnDelay, rest)),
            0x02 => Ok((TimerKind::OffDelay, rest)),
            _ => Err(ImageFault::BadOpcode),
        }
    }
}

// Reads the points after their count.
fn points_at(
    alloc: Global,
    version: Version,
    octets: &[u8],
) -> Result<(Listing<ImagePoint>, &[u8]), ImageFault>
    ensures read { ExactOr ImageFault.OutOfMemory (λ r. (r.0, r.1.now)) result
        (counted_at (spec.point_at version) octets.now) }
    ensures memory { IsErrOf result ImageFault.OutOfMemory → 2 ≤ length octets.now }
{
    let (count, mut rest) = number_at(octets)?;
    let mut points = Vec::new(alloc);
    'items: for _ in 0..count {
        let (point, behind) = point_at(alloc, version, rest)?;
        points.push(point)?;
        rest = behind;
    }
    Ok((Listing::new(points), rest))
}

// Reads the variables, or the timers, after their count.
fn items_at<T: ListItem + Drop>(
    alloc: Global,
    version: Version,
    octets: &[u8],
) -> Result<(Listing<T>, &[u8]), ImageFault>
    ensures { ExactOr ImageFault.OutOfMemory (λ r. (r.0, r.1.now)) result
        (counted_at (T.at version) octets.now) }
{
    let (count, mut rest) = number_at(octets)?;
    let mut items = Vec::new(alloc);
    'items: for _ in 0..count {
        let (item, behind) = T::read(version, rest)?;
        items.push(item)?;
        rest = behind;
    }
    Ok((Listing::new(items), rest))
}

// Refuses octets that are not a sequence of instructions.
fn check_code(version: Version, code: &[u8]) -> Result<(), ImageFault>
    ensures { MatchResult result (λ _. code_fault version (length code.now) code.now ≡ None)
        (λ fault. code_fault version (length code.now) code.now ≡ Some fault) }
{
    let mut rest = code;
    while rest.len() > 0 {
        let (_, behind) = instr_from(version, rest)?;
        rest = behind;
    }
    Ok(())
}

// Reads the octets of the code after their count. No octets may follow them.
#[tactic(auto, unfolding(crate::specs::Decoding::code_at))]
fn code_at(alloc: Global, version: Version, octets: &[u8]) -> Result<Listing<u8>, ImageFault>
    ensures { ExactOr ImageFault.OutOfMemory (λ c. c) result (spec.code_at version octets.now) }
{
    let (count, code) = number_at(octets)?;
    let count = usize::from(count);
    let (front, _) = code.split_at(count.min(code.len()));
    check_code(version, front)?;
    if code.len() == count {
        return Ok(Listing::new(Vec::from_slice(alloc, code)?));
    }
    Err(ImageFault::Truncated)
}

/// Decodes the image that octets spell, in version 1 or 2 of the format, or returns their first
/// fault from the left. Returns `OutOfMemory` if an allocation fails, which is possible only if the
/// octets begin with the mark, a version and the number of points. The memory used is a few times
/// the number of octets, plus one octet for each timer of version 1, of which there are at most
/// 65,535.
#[tactic(auto, unfolding(crate::specs::Decoding::decoded_image))]
pub fn decode(alloc: Global, octets: &[u8]) -> Result<Image, ImageFault>
    ensures image { ExactOr ImageFault.OutOfMemory (λ i. i) result (decoded_image octets.now) }
    ensures memory { IsErrOf result ImageFault.OutOfMemory → Allocates octets.now }
{
    let rest = octets_after_mark(octets)?;
    let (version, rest) = version_at(rest)?;
    let (points, rest) = points_at(alloc, version, rest)?;
    let (variables, rest) = items_at::<Value>(alloc, version, rest)?;
    let (timers, rest) = items_at::<TimerKind>(alloc, version, rest)?;
    let code = code_at(alloc, version, rest)?;
    Ok(Image::new(points, variables, timers, code))
}
