// Finds the bay's points for the points of a verified image.
ghost use Rattle.std.specs.Prelude.{◌≡◌, false, length, map, option_map, position, find, IfOk};
ghost use Rattle.il_verify.specs.Binding.{is_point as is_image_point};
ghost use Rattle.bay_process.specs.Values as spec;
ghost use Rattle.bay_process.specs.Layout.{bound_from};
ghost use Rattle.bay_process.specs.Layout as spec_layout;
ghost use Rattle.bay_process.specs.Scans.{AreSpanned, HasPoints};
ghost use Rattle.bay_process.specs.Sources as spec_sources;

use crate::rows::SwitchRows;
use crate::switch::{BoundSwitch, SwitchOutputs};
use crate::values::InputValues;
use bay_base::names::same_name;
use bay_base::text::Text;
use bay_config::bay::{Point, Source, Switch, SwitchPoint};
use il_image::image::ImagePoint;
use il_scan::span::Span;
use std::alloc::{AllocError, Global};

// Returns whether a point of an image is this point of the bay: same name, type and writability.
fn is_same(point: &ImagePoint, other: &Point) -> bool
    ensures { result ≡ is_image_point point.now other.now }
{
    same_name(point.name.as_str(), other.name.as_str())
        && point.elementary == other.kind
        && point.writable == other.writable
}

// Returns the source of a point of an image, if the bay has the point.
fn source_of(bay: &[Point], point: &ImagePoint) -> Option<Source>
    ensures { result ≡ spec_sources.source_of bay.now point.now }
{
    let found = bay.iter().find(|other| is_same(point, other))?;
    Some(found.source)
}

/// Returns the sources of the points of an image, in the order of the points: of the writable ones
/// or, if `writable` is false, of the others. Leaves out a point that the bay does not have. Fails
/// only if an allocation fails.
pub fn sources_of(
    alloc: Global,
    writable: bool,
    bay: &[Point],
    points: &[ImagePoint],
) -> Result<Vec<Source>, AllocError>
    ensures { IfOk result (λ sources. sources.items
        ≡ spec_sources.sources_of writable bay.now points.now) }
{
    let mut sources = Vec::new(alloc);
    for point in points {
        if point.writable == writable {
            if let Some(source) = source_of(bay, point) {
                sources.push(source)?;
            }
        }
    }
    Ok(sources)
}

// Returns whether a source is this point of the switch at an index.
fn is_point(source: Source, switch: usize, point: SwitchPoint) -> bool
    ensures { result ≡ spec.is_point switch point source }
{
    match source {
        Source::Switch {
            switch: at,
            point: which,
        } => at == switch && which == point,
        Source::Input { .. } | Source::Meter { .. } => false,
    }
}

/// Returns the index of a point of a switch among the sources of the writable points; `None` if it
/// is not there.
pub fn output_index(writes: &[Source], switch: usize, point: SwitchPoint) -> Option<usize>
    ensures { result ≡ position (spec.is_point switch point) writes.now }
{
    writes
        .iter()
        .position(|source| is_point(*source, switch, point))
}

// Returns the indices of the interlocking values of a switch among the writable points.
fn outputs_at(writes: &[Source], switch: usize) -> SwitchOutputs
    ensures { result ≡ spec_layout.outputs_at writes.now switch }
{
    SwitchOutputs {
        ena_opn: output_index(writes, switch, SwitchPoint::EnableOpen),
        ena_cls: output_index(writes, switch, SwitchPoint::EnableClose),
    }
}

/// Binds the switches of a bay to their rows and to the indices of their interlocking values. Fails
/// only if an allocation fails.
pub fn bind_switches(
    alloc: Global,
    switches: Vec<Switch>,
    rows: &[SwitchRows],
    writes: &[Source],
) -> Result<Vec<BoundSwitch>, AllocError>
    requires { length rows.now ≡ length switches.items }
    ensures { IfOk result (λ bound. bound.items ≡ bound_from writes.now 0 switches.items rows.now) }
{
    let mut bound = Vec::new(alloc);
    for switch in switches {
        let k = bound.len();
        bound.push(BoundSwitch {
            switch,
            rows: rows[k],
            outputs: outputs_at(writes, k),
        })?;
    }
    Ok(bound)
}

// Returns a span of `reads` that has all points of the switch at an index.
fn span_of(reads: &[Source], switch: usize) -> Span
    ensures { HasPoints reads.now switch result }
{
    let mut span = Span {
        from: usize::MAX,
        to: 0,
    };
    for index in 0..reads.len() {
        if let Source::Switch { switch: at, .. } = reads[index] {
            if at == switch {
                span = span.with(Span {
                    from: index,
                    to: index + 1,
                });
            }
        }
    }
    span
}

/// Returns, for each of `count` switches, a span of `reads`, the sources of the read-only points,
/// that has all points of the switch. Fails only if an allocation fails.
pub fn spans_of(alloc: Global, reads: &[Source], count: usize) -> Result<Vec<Span>, AllocError>
    ensures sized { IfOk result (λ spans. length spans.items ≡ count) }
    ensures spanned { IfOk result (λ spans. AreSpanned reads.now spans.items) }
{
    let mut spans = Vec::new(alloc);
    for switch in 0..count {
        spans.push(span_of(reads, switch))?;
    }
    Ok(spans)
}

/// Returns the value FALSE for each input. Fails only if an allocation fails.
pub fn all_false(alloc: Global, inputs: &[Text]) -> Result<InputValues, AllocError>
    ensures { IfOk result (λ values. values ≡ map (λ _. false) inputs.now) }
{
    let mut values = Vec::new(alloc);
    for _input in inputs {
        values.push(false)?;
    }
    Ok(InputValues::new(values))
}
