// Reads a bay from the text of its file.
ghost use Rattle.std.specs.Prelude.{◌≡◌, ◌∷◌, [], map, IfOk};
ghost use Rattle.std.specs.Option.{ok_or};
ghost use Rattle.toml.specs.View.{table_view};
ghost use Rattle.bay_config.specs.Bay.{bay_table, bay_of_table, bay_of, document_of, inputs_in, meters_in, nameplate_in, profile_in, sections, switches_in};
ghost use Rattle.bay_config.specs.declared.fault.BayFault.TheVariants.{BadToml, OutOfMemory};
ghost use Rattle.bay_base.specs.Exact.{ExactOr, unless_refused};
ghost use Rattle.bay_config.specs.Key.{first_fault, unknown_refusal};
ghost use Rattle.bay_config.specs.Laws.{IsBay};
ghost use Rattle.bay_nodes.specs.Node.{bay_rows};
ghost use Rattle.bay_config.specs.Point.{names_refusal, bay_points};
ghost use Rattle.bay_config.specs.Remote.{remotes_refusal};
ghost use Rattle.bay_config.specs.Section.{section_refusal};

use crate::bay::{Bay, Meter, Point, Switch};
use crate::fault::BayFault;
use crate::inputs::read_input_section;
use crate::keys::check_keys;
use crate::meters::read_meter_section;
use crate::nameplate::read_nameplate;
use crate::points::{check_names, points_of};
use crate::remotes::check_remotes;
use crate::switches::read_switch_section;
use bay_base::listing::Listing;
use bay_base::text::Text;
use bay_nodes::nameplate::Nameplate;
use bay_nodes::rows::rows_of;
use bay_tree::row::Row;
use std::alloc::Global;
use toml::Table;

// The contents of the sections of a file.
#[derive(Drop)]
struct Sections {
    nameplate: Nameplate,
    switches: Listing<Switch>,
    inputs: Listing<Text>,
    meters: Listing<Meter>,
}

// Reads the sections of a file, in their order.
fn read_sections(alloc: Global, file: &Table) -> Result<Sections, BayFault>
    ensures { let f = table_view file.now in
        ExactOr OutOfMemory (λ x. x) result
        (unless_refused
        (first_fault (unknown_refusal (map (λ s. s.name) (sections (profile_in f))) f
        ∷ map (section_refusal f) (sections (profile_in f))))
        (record {
          nameplate = nameplate_in (bay_table f);
          switches = switches_in f;
          inputs = inputs_in f;
          meters = meters_in f;
        })) }
{
    check_keys(file, &["bay", "switch", "input", "meter"])?;
    let nameplate = read_nameplate(alloc, file)?;
    let switches = read_switch_section(alloc, file)?;
    let inputs = read_input_section(alloc, file)?;
    let meters = read_meter_section(alloc, file, nameplate.profile)?;
    Ok(Sections {
        nameplate,
        switches,
        inputs,
        meters,
    })
}

// The lists derived from the sections: the points of the program and the rows of the tree.
#[derive(Drop)]
struct Lists {
    points: Listing<Point>,
    rows: Listing<Row>,
}

// Returns the points and the rows. Refuses two points with the same name, then a point with the
// name of a reserved word, then a switch whose key is not an input.
fn derive_lists(alloc: Global, sections: &Sections) -> Result<Lists, BayFault>
    ensures { let s = sections.now in let points = bay_points s.switches s.inputs s.meters in
        ExactOr OutOfMemory (λ x. x) result
        (unless_refused
        (first_fault (names_refusal points ∷ remotes_refusal s.inputs s.switches ∷ []))
        (record { points = points; rows = bay_rows s.nameplate s.switches s.inputs s.meters })) }
{
    let switches = sections.switches.as_slice();
    let meters = sections.meters.as_slice();
    let inputs = sections.inputs.as_slice();
    let points = points_of(alloc, switches, inputs, meters)?;
    check_names(points.as_slice())?;
    check_remotes(inputs, switches)?;
    let rows = rows_of(alloc, &sections.nameplate, switches, inputs, meters)?;
    Ok(Lists { points, rows })
}

// Makes a bay from its sections and its lists.
fn bay_with(sections: Sections, lists: Lists) -> Bay
    ensures { let n = sections.nameplate in result ≡ record {
      domain = n.domain;
      vendor = n.vendor;
      model = n.model;
      revision = n.revision;
      scan_max_age_ms = n.scan_max_age_ms;
      profile = n.profile;
      rows = lists.rows;
      points = lists.points;
      switches = sections.switches;
      inputs = sections.inputs;
      meters = sections.meters;
    } }
{
    let Sections {
        nameplate,
        switches,
        inputs,
        meters,
    } = sections;
    Bay {
        domain: nameplate.domain,
        vendor: nameplate.vendor,
        model: nameplate.model,
        revision: nameplate.revision,
        scan_max_age_ms: nameplate.scan_max_age_ms,
        profile: nameplate.profile,
        rows: lists.rows,
        points: lists.points,
        switches,
        inputs,
        meters,
    }
}

// Reads the bay from the table of a file.
fn read_bay_table(alloc: Global, file: &Table) -> Result<Bay, BayFault>
    ensures read { ExactOr OutOfMemory (λ x. x) result (bay_of_table (table_view file.now)) }
    ensures sound { IfOk result IsBay }
{
    let sections = read_sections(alloc, file)?;
    let lists = derive_lists(alloc, &sections)?;
    Ok(bay_with(sections, lists))
}

// The maximum length of a bay file, in octets.
const MAX_OCTETS: usize = 262_144;

// Parses a bay file into its table. Does not parse a text that is too long.
#[tactic(auto, unfolding(crate::specs::Bay::document_of))]
fn parse_table(alloc: Global, text: &str) -> Result<Table, BayFault>
    ensures { ExactOr OutOfMemory table_view result (ok_or (document_of text.now) BadToml) }
{
    if text.len() > MAX_OCTETS {
        return Err(BayFault::BadToml);
    }
    match toml::table_from_str(alloc, text) {
        Ok(file) => Ok(file),
        Err(error) => {
            if error.is_memory() {
                Err(BayFault::OutOfMemory)
            } else {
                Err(BayFault::BadToml)
            }
        }
    }
}

/// Reads a bay from the text of its file, or returns the first fault of the text.
pub fn read_bay(alloc: Global, text: &str) -> Result<Bay, BayFault>
    // The bay that the text describes, or its first refusal; `OutOfMemory` if an allocation fails.
    // A text of more than 262,144 octets is refused, whatever its contents.
    ensures read { ExactOr OutOfMemory (λ x. x) result (bay_of text.now) }
    ensures sound { IfOk result IsBay }
{
    let file = parse_table(alloc, text)?;
    let bay = read_bay_table(alloc, &file)?;
    Ok(bay)
}
