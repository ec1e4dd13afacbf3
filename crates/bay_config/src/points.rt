// The points of switches, inputs and meters, and their names.
ghost use Rattle.std.specs.Prelude.{◌≡◌, ◌∷◌, [], ◌++◌, map, is_some, IfOk};
ghost use Rattle.std.specs.List.{list_any};
ghost use Rattle.std.specs.Str.{bytes_eq, str_to_ascii_uppercase};
ghost use Rattle.bay_base.specs.Exact.{unless_refused};
ghost use Rattle.bay_config.specs.Point.{position_points, enable_points, points_from, inputs_from, field_point, meter_points, meters_from, bay_points, names_refusal};
ghost use Rattle.bay_config.specs.Point as spec;
ghost use Rattle.bay_base.specs.Words.{reserved_of};

use crate::bay::{Meter, MeterField, Point, Source, Switch, SwitchPoint};
use crate::fault::BayFault;
use bay_base::listing::Listing;
use bay_base::text::Text;
use bay_base::types::ElementaryType;
use bay_base::words::reserved_word;
use std::alloc::{AllocError, Global};

// Adds a point. Its name is `id` in upper case followed by `ending`.
fn push_point(
    alloc: Global,
    points: &mut Vec<Point>,
    id: &str,
    ending: &str,
    kind: ElementaryType,
    writable: bool,
    source: Source,
) -> Result<(), AllocError>
    ensures { IfOk result (λ _. points.new.items ≡ points.old.items
        ++ record {
          name = str_to_ascii_uppercase id.now ++ ending.now;
          kind = kind;
          writable = writable;
          source = source;
        } ∷ []) }
{
    let mut name = String::from_str(alloc, id)?;
    name.make_ascii_uppercase();
    name.push_str(ending)?;
    points.push(Point {
        name: Text::new(name),
        kind,
        writable,
        source,
    })?;
    Ok(())
}

// Adds the points with the position of a switch; the program reads them.
fn push_position(
    alloc: Global,
    points: &mut Vec<Point>,
    switch: usize,
    id: &str,
) -> Result<(), AllocError>
    ensures { IfOk result (λ _. points.new.items
        ≡ points.old.items ++ position_points switch id.now) }
{
    let position = Source::Switch {
        switch,
        point: SwitchPoint::Position,
    };
    let open = Source::Switch {
        switch,
        point: SwitchPoint::Open,
    };
    let closed = Source::Switch {
        switch,
        point: SwitchPoint::Closed,
    };
    push_point(
        alloc,
        points,
        id,
        "_POS",
        ElementaryType::Int,
        false,
        position,
    )?;
    push_point(
        alloc,
        points,
        id,
        "_OPEN",
        ElementaryType::Bool,
        false,
        open,
    )?;
    push_point(
        alloc,
        points,
        id,
        "_CLOSED",
        ElementaryType::Bool,
        false,
        closed,
    )?;
    Ok(())
}

// Adds the points that release the opening and the closing of a switch; the program writes them.
fn push_enables(
    alloc: Global,
    points: &mut Vec<Point>,
    switch: usize,
    id: &str,
) -> Result<(), AllocError>
    ensures { IfOk result (λ _. points.new.items ≡ points.old.items ++ enable_points switch id.now) }
{
    let opens = Source::Switch {
        switch,
        point: SwitchPoint::EnableOpen,
    };
    let closes = Source::Switch {
        switch,
        point: SwitchPoint::EnableClose,
    };
    push_point(
        alloc,
        points,
        id,
        "_ENA_OPN",
        ElementaryType::Bool,
        true,
        opens,
    )?;
    push_point(
        alloc,
        points,
        id,
        "_ENA_CLS",
        ElementaryType::Bool,
        true,
        closes,
    )?;
    Ok(())
}

// Adds the points of the switch at an index.
fn push_points(
    alloc: Global,
    points: &mut Vec<Point>,
    index: usize,
    switch: &Switch,
) -> Result<(), AllocError>
    ensures { IfOk result (λ _. points.new.items
        ≡ points.old.items ++ spec.points_of index switch.now) }
{
    let id = switch.id.as_str();
    push_position(alloc, points, index, id)?;
    push_enables(alloc, points, index, id)?;
    Ok(())
}

// Adds the points of the switches, in their order.
fn push_switches(
    alloc: Global,
    points: &mut Vec<Point>,
    switches: &[Switch],
) -> Result<(), AllocError>
    ensures { IfOk result (λ _. points.new.items ≡ points.old.items ++ points_from 0 switches.now) }
{
    for index in 0..switches.len() {
        push_points(alloc, points, index, &switches[index])?;
    }
    Ok(())
}

// Adds the points of the inputs; the program reads them.
fn push_inputs(alloc: Global, points: &mut Vec<Point>, inputs: &[Text]) -> Result<(), AllocError>
    ensures { IfOk result (λ _. points.new.items ≡ points.old.items ++ inputs_from 0 inputs.now) }
{
    for input in 0..inputs.len() {
        push_point(
            alloc,
            points,
            inputs[input].as_str(),
            "",
            ElementaryType::Bool,
            false,
            Source::Input { input },
        )?;
    }
    Ok(())
}

// Adds the point of one field of a meter.
fn push_field(
    alloc: Global,
    points: &mut Vec<Point>,
    meter: usize,
    id: &str,
    ending: &str,
    field: MeterField,
) -> Result<(), AllocError>
    ensures { IfOk result (λ _. points.new.items
        ≡ points.old.items ++ field_point meter id.now ending.now field ∷ []) }
{
    let source = Source::Meter { meter, field };
    push_point(
        alloc,
        points,
        id,
        ending,
        ElementaryType::Dint,
        false,
        source,
    )
}

// Adds the points of the meter at an index; the program reads them.
fn push_meter(
    alloc: Global,
    points: &mut Vec<Point>,
    meter: usize,
    id: &str,
) -> Result<(), AllocError>
    ensures { IfOk result (λ _. points.new.items ≡ points.old.items ++ meter_points meter id.now) }
{
    push_field(alloc, points, meter, id, "_TOTW", MeterField::TotW)?;
    push_field(alloc, points, meter, id, "_TOTVAR", MeterField::TotVAr)?;
    push_field(alloc, points, meter, id, "_HZ", MeterField::Hz)?;
    push_field(alloc, points, meter, id, "_AA", MeterField::PhaseA)?;
    push_field(alloc, points, meter, id, "_AB", MeterField::PhaseB)?;
    push_field(alloc, points, meter, id, "_AC", MeterField::PhaseC)?;
    Ok(())
}

// Adds the points of the meters, in their order.
fn push_meters(alloc: Global, points: &mut Vec<Point>, meters: &[Meter]) -> Result<(), AllocError>
    ensures { IfOk result (λ _. points.new.items ≡ points.old.items ++ meters_from 0 meters.now) }
{
    for meter in 0..meters.len() {
        push_meter(alloc, points, meter, meters[meter].id.as_str())?;
    }
    Ok(())
}

/// Returns the points of the switches, the inputs and the meters, in their order. Fails only if an
/// allocation fails.
pub fn points_of(
    alloc: Global,
    switches: &[Switch],
    inputs: &[Text],
    meters: &[Meter],
) -> Result<Listing<Point>, AllocError>
    ensures { IfOk result (λ points. points ≡ bay_points switches.now inputs.now meters.now) }
{
    let mut points = Vec::new(alloc);
    push_switches(alloc, &mut points, switches)?;
    push_inputs(alloc, &mut points, inputs)?;
    push_meters(alloc, &mut points, meters)?;
    Ok(Listing::new(points))
}

// Returns whether a point has this name.
fn has_name(points: &[Point], name: &str) -> bool
    ensures { result ≡ list_any (λ p. bytes_eq name.now p.name) points.now }
{
    points.iter().any(|point| name == point.name.as_str())
}

// Returns whether two points have the same name.
fn has_twin(points: &[Point]) -> bool
    ensures { result ≡ spec.has_twin (map (λ p. p.name) points.now) }
{
    let mut rest = points;
    while let Some((point, later)) = rest.split_first() {
        if has_name(later, point.name.as_str()) {
            return true;
        }
        rest = later;
    }
    false
}

// Returns whether a point has the name of a reserved word.
fn has_reserved_name(points: &[Point]) -> bool
    ensures { result ≡ list_any (λ p. is_some (reserved_of p.name)) points.now }
{
    points
        .iter()
        .any(|point| reserved_word(point.name.as_str()).is_some())
}

/// Checks the names of the points: `DuplicateName` if two points have the same name, then
/// `BadValue` if the name of a point is a reserved word.
pub fn check_names(points: &[Point]) -> Result<(), BayFault>
    ensures { result ≡ unless_refused (names_refusal points.now) tt }
{
    if has_twin(points) {
        return Err(BayFault::DuplicateName);
    }
    if has_reserved_name(points) {
        return Err(BayFault::BadValue);
    }
    Ok(())
}
