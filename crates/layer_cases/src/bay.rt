// The bay that a file spells, line by line: its fields, the points of its program, and the rows of
// its tree.
use anyhow::Result;
use bay_config::bay::Bay;
use bay_config::read::read_bay;
use std::alloc::{AllocError, Global};

// Appends the fields of a bay, without points and rows.
fn put_fields(text: &mut String, bay: &Bay) -> Result<(), AllocError> {
    let (domain, vendor) = (bay.domain.as_str(), bay.vendor.as_str());
    let (model, revision) = (bay.model.as_str(), bay.revision.as_str());
    let (age, switches) = (bay.scan_max_age_ms, &bay.switches);
    let (inputs, meters) = (&bay.inputs, &bay.meters);
    writeln!(text, "{domain} {vendor} {model} {revision} {age}")?;
    writeln!(text, "{switches:?}\n{inputs:?}\n{meters:?}")
}

// Appends the points: name, type, whether they are writable, and their sources.
fn put_points(text: &mut String, bay: &Bay) -> Result<(), AllocError> {
    for point in bay.points.as_slice() {
        let (name, kind) = (point.name.as_str(), point.kind);
        writeln!(
            text,
            "{name} {kind:?} {} {:?}",
            point.writable, point.source
        )?;
    }
    Ok(())
}

// Appends the rows: name and value.
fn put_rows(text: &mut String, bay: &Bay) -> Result<(), AllocError> {
    for row in bay.rows.as_slice() {
        writeln!(text, "{} {:?}", row.name.as_str(), row.leaf)?;
    }
    Ok(())
}

/// Returns the fields, the points or the rows of a bay file's bay, one per line, or the fault of
/// the file.
pub fn bay_text(alloc: Global, bay: &str, head: &str) -> Result<String> {
    let bay = match read_bay(alloc, bay) {
        Ok(bay) => bay,
        Err(fault) => {
            return Ok(format!(in alloc; "{} {fault}", fault.code().unwrap_or(0))?);
        }
    };
    let mut text = String::new(alloc);
    match head {
        "fields" => put_fields(&mut text, &bay),
        "points" => put_points(&mut text, &bay),
        _ => put_rows(&mut text, &bay),
    }?;
    Ok(text)
}
