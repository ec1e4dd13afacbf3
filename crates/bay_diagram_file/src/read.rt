// Reads a diagram from the text of its file.
ghost use Rattle.std.specs.Prelude.{◌≡◌, IfOk, Ok};
ghost use Rattle.std.specs.Option.{ok_or};
ghost use Rattle.toml.specs.Data.{get_member};
ghost use Rattle.toml.specs.View.{table_view};
ghost use Rattle.bay_base.specs.Exact.{ExactOr};
ghost use Rattle.bay_config.specs.Bay.{document_of};
ghost use Rattle.bay_diagram_file.specs.Code.{out_of_memory};
ghost use Rattle.bay_diagram_file.specs.Diagram as spec;
ghost use Rattle.bay_diagram_file.specs.declared.fault.FaultKind.TheVariants.{BadToml};

use crate::check::{check_refusal, checks_in, file_fault};
use crate::checks::{first_refusal, tables_refusal};
use crate::diagram::Diagram;
use crate::fault::{DiagramFault, FaultKind};
use crate::keys::{find, has_unknown_key, values_at};
use crate::network::diagram_of;
use crate::node_row::node_rows;
use crate::switch_row::switch_rows;
use bay_config::bay::Bay;
use bay_diagram::network::Network;
use std::alloc::Global;
use toml::Table;

// The maximum length of a diagram file, in octets.
const MAX_OCTETS: usize = 262_144;

// The maximum number of tables of a section.
const MAX_TABLES: usize = 64;

// Returns the refusal of a section that is unknown.
fn keys_refusal(file: &Table) -> Option<DiagramFault>
    ensures { result ≡ spec.keys_refusal (table_view file.now) }
{
    if has_unknown_key(file, &["node", "between", "check"]) {
        Some(file_fault(FaultKind::UnknownKey))
    } else {
        None
    }
}

// Returns the refusal of a section with this number of values.
fn count_refusal(count: usize) -> Option<DiagramFault>
    ensures { result ≡ spec.count_refusal count }
{
    if count < 1 {
        Some(file_fault(FaultKind::MissingKey))
    } else if MAX_TABLES < count {
        Some(file_fault(FaultKind::TooMany))
    } else {
        None
    }
}

// Returns the refusal of a section: it must be a list of 1 to 64 values.
fn section_refusal(file: &Table, name: &str) -> Option<DiagramFault>
    ensures { result ≡ spec.section_refusal (get_member name.now (table_view file.now)) }
{
    match find(file, name) {
        Some(value) => match value.as_array() {
            Some(values) => count_refusal(values.as_slice().len()),
            None => Some(file_fault(FaultKind::BadValue)),
        },
        None => Some(file_fault(FaultKind::MissingKey)),
    }
}

// Returns the refusal of the sections of a file.
fn sections_refusal(file: &Table) -> Option<DiagramFault>
    ensures { result ≡ spec.sections_refusal (table_view file.now) }
{
    let nodes = section_refusal(file, "node");
    let switches = section_refusal(file, "between");
    let check = check_refusal(file);
    first_refusal(
        keys_refusal(file),
        first_refusal(nodes, first_refusal(switches, check)),
    )
}

// Reads the diagram in the table of a file.
fn diagram_from(alloc: Global, bay: &Bay, file: &Table) -> Result<Diagram, DiagramFault>
    ensures { ExactOr out_of_memory (λ x. x) result (spec.named_in bay.now (table_view file.now)) }
{
    if let Some(fault) = sections_refusal(file) {
        return Err(fault);
    }
    let nodes = node_rows(alloc, values_at(file, "node"))?;
    let switches = switch_rows(alloc, values_at(file, "between"))?;
    if let Some(fault) = tables_refusal(bay, nodes.as_slice(), switches.as_slice()) {
        return Err(fault);
    }
    let checks = checks_in(file);
    Ok(diagram_of(alloc, bay, checks, nodes.as_slice(), switches.as_slice())?)
}

// Parses a diagram file into its table. Does not parse a text that is too long.
#[tactic(auto, unfolding(bay_config::specs::Bay::document_of))]
fn document_at(alloc: Global, text: &str) -> Result<Table, DiagramFault>
    ensures { ExactOr out_of_memory table_view result
        (ok_or (document_of text.now) (spec.file_fault BadToml)) }
{
    if text.len() > MAX_OCTETS {
        return Err(file_fault(FaultKind::BadToml));
    }
    match toml::table_from_str(alloc, text) {
        Ok(file) => Ok(file),
        Err(error) => {
            if error.is_memory() {
                Err(file_fault(FaultKind::OutOfMemory))
            } else {
                Err(file_fault(FaultKind::BadToml))
            }
        }
    }
}

// Reads the diagram of a bay from the text of its file, with its names.
fn named_diagram(alloc: Global, bay: &Bay, text: &str) -> Result<Diagram, DiagramFault>
    ensures { ExactOr out_of_memory (λ x. x) result (spec.named_diagram_of bay.now text.now) }
{
    let file = document_at(alloc, text)?;
    diagram_from(alloc, bay, &file)
}

/// Reads the diagram of a bay from the text of its file, or returns the first fault of the text.
pub fn read_diagram(alloc: Global, bay: &Bay, text: &str) -> Result<Network, DiagramFault>
    // The diagram that the text describes for the bay, or its first refusal; `OutOfMemory` if an
    // allocation fails.
    ensures { ExactOr out_of_memory (λ x. x) result (spec.diagram_of bay.now text.now) }
{
    match named_diagram(alloc, bay, text) {
        Ok(diagram) => Ok(diagram.network),
        Err(fault) => Err(fault),
    }
}

/// Reads the diagram of a bay, with the names of its nodes and switches, from the octets of its
/// file, or returns the first fault of the file. Octets that are not UTF-8 are not TOML.
pub fn diagram_in(alloc: Global, bay: &Bay, octets: &[u8]) -> Result<Diagram, DiagramFault>
    // The diagram that the file describes for the bay, or its first refusal; `OutOfMemory` if an
    // allocation fails;
    ensures file { ExactOr out_of_memory (λ x. x) result (spec.diagram_of_file bay.now octets.now) }
    // its network is that of `diagram_of`.
    ensures network { IfOk result
        (λ diagram. spec.diagram_of bay.now octets.now ≡ Ok diagram.network) }
{
    match std::str::from_utf8(octets) {
        Ok(text) => named_diagram(alloc, bay, text),
        Err(_) => Err(file_fault(FaultKind::BadToml)),
    }
}
