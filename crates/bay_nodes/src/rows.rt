// The rows of a bay's logical nodes, with their initial values.
ghost use Rattle.std.specs.Borrow.{Bor};
ghost use Rattle.std.specs.Prelude.{◌≡◌, ℕ, ◌<◌, ◌^◌, List, length, ◌++◌, ◌∷◌, [], codes, map, None, IfOk};
ghost use Rattle.std.specs.List.{flat_map};
ghost use Rattle.bay_tree.specs.Rows.{IsTree};
ghost use Rattle.bay_tree.specs.declared.row.Row as declared;
ghost use Rattle.bay_nodes.specs.Node.{row, node_rows, operate_part, cancel_part, device_node, physical_node, position_node, position_nodes, control_node, control_nodes, interlocking_node, interlocking_nodes, meter_node, meter_nodes, input_nodes, bay_rows};
ghost use Rattle.bay_nodes.specs.Node as spec;
ghost use Rattle.bay_nodes.specs.NodeRows.{line_row, row_of_node, table_rows, group_rows, command_rows, object_rows};
ghost use Rattle.bay_nodes.specs.declared.subject.Subject.TheVariants as subjects;

use crate::initial::{InitialValue, initial_leaf};
use crate::meter::Meter;
use crate::nameplate::Nameplate;
use crate::names::{
    CONTROL, INTERLOCKING, METER, class_of, is_breaker, is_in_group, node_name, row_name,
};
use crate::profile::Profile;
use crate::subject::Subject;
use crate::switch::Switch;
use crate::{meter_tables as meter_tables, tables as tables};
use bay_base::listing::Listing;
use bay_base::switch::Control;
use bay_base::text::Text;
use bay_tree::leaf::Leaf;
use bay_tree::row::Row;
use std::alloc::{AllocError, Global};

// Adds a row of a node. Its name is the node's name followed by the path of the row within the
// node.
fn push_row(
    alloc: Global,
    rows: &mut Vec<Row>,
    node: &str,
    path: &str,
    leaf: Option<Leaf>,
) -> Result<(), AllocError>
    ensures { IfOk result (λ _. rows.new.items
        ≡ rows.old.items ++ row (node.now ++ path.now) leaf ∷ []) }
{
    let name = row_name(alloc, node, path)?;
    rows.push(Row { name, leaf })?;
    Ok(())
}

// Adds the rows of a table to a node.
fn push_table(
    alloc: Global,
    rows: &mut Vec<Row>,
    nameplate: &Nameplate,
    subject: Subject,
    node: &str,
    table: &[(&str, InitialValue)],
) -> Result<(), AllocError>
    ensures { IfOk result (λ _. rows.new.items
        ≡ rows.old.items ++ table_rows nameplate.now subject.entry node.now table.now) }
{
    for (path, start) in table {
        let leaf = initial_leaf(alloc, nameplate, subject, *start)?;
        push_row(alloc, rows, node, path, leaf)?;
    }
    Ok(())
}

// Adds a node with the rows of a table.
fn push_node(
    alloc: Global,
    rows: &mut Vec<Row>,
    nameplate: &Nameplate,
    subject: Subject,
    node: &str,
    table: &[(&str, InitialValue)],
) -> Result<(), AllocError>
    ensures { IfOk result (λ _. rows.new.items ≡ rows.old.items
        ++ row node.now None ∷ table_rows nameplate.now subject.entry node.now table.now) }
{
    push_row(alloc, rows, node, "", None)?;
    push_table(alloc, rows, nameplate, subject, node, table)?;
    Ok(())
}

// Adds the nodes of the device itself (IEC 61850-7-4, LLN0 and LPHD).
fn push_device(alloc: Global, rows: &mut Vec<Row>, nameplate: &Nameplate) -> Result<(), AllocError>
    ensures { IfOk result (λ _. rows.new.items
        ≡ rows.old.items ++ flat_map node_rows
        (device_node nameplate.now ∷ physical_node nameplate.now ∷ [])) }
{
    let device = tables::device_table(nameplate.profile);
    let physical = tables::physical_table();
    push_node(alloc, rows, nameplate, Subject::Device, "LLN0", device)?;
    push_node(alloc, rows, nameplate, Subject::Device, "LPHD1", physical)?;
    Ok(())
}

// Adds the control rows (`$CO`) of a switch. The table `select` has the rows that select it.
fn push_selection(
    alloc: Global,
    rows: &mut Vec<Row>,
    nameplate: &Nameplate,
    subject: Subject,
    node: &str,
    select: &[(&str, InitialValue)],
) -> Result<(), AllocError>
    ensures { let operate = spec.rows_of (codes "$CO$Pos") (operate_part (codes "Oper")) in
        let cancel = spec.rows_of (codes "$CO$Pos") cancel_part in
        IfOk result (λ _. rows.new.items
        ≡ rows.old.items ++ map (row_of_node node.now)
        (group_rows
        ++ (map (line_row nameplate.now subject.entry) select.now ++ (operate ++ cancel)))) }
{
    push_table(alloc, rows, nameplate, subject, node, tables::group_table())?;
    push_table(alloc, rows, nameplate, subject, node, select)?;
    push_table(
        alloc,
        rows,
        nameplate,
        subject,
        node,
        tables::operate_table(),
    )?;
    push_table(
        alloc,
        rows,
        nameplate,
        subject,
        node,
        tables::cancel_table(),
    )?;
    Ok(())
}

// Adds the control rows (`$CO`) of a switch with this kind of control.
fn push_commands(
    alloc: Global,
    rows: &mut Vec<Row>,
    nameplate: &Nameplate,
    subject: Subject,
    node: &str,
    control: Control,
) -> Result<(), AllocError>
    ensures { IfOk result (λ _. rows.new.items
        ≡ rows.old.items ++ map (row_of_node node.now) (command_rows control)) }
{
    let group = tables::group_table();
    let operate = tables::operate_table();
    match control {
        Control::Status => Ok(()),
        Control::Direct => {
            push_table(alloc, rows, nameplate, subject, node, group)?;
            push_table(alloc, rows, nameplate, subject, node, operate)?;
            Ok(())
        }
        Control::Sbo => push_selection(
            alloc,
            rows,
            nameplate,
            subject,
            node,
            tables::select_table(),
        ),
        Control::SboEnhanced => push_selection(
            alloc,
            rows,
            nameplate,
            subject,
            node,
            tables::select_with_value_table(),
        ),
    }
}

// Adds the node of the switch with this number.
fn push_position(
    alloc: Global,
    rows: &mut Vec<Row>,
    nameplate: &Nameplate,
    number: usize,
    switch: &Switch,
) -> Result<(), AllocError>
    ensures { IfOk result (λ _. rows.new.items ≡ rows.old.items
        ++ node_rows (position_node nameplate.now (number, switch.now))) }
{
    let node = node_name(alloc, class_of(switch.kind), number)?;
    let table = tables::position_table(nameplate.profile, is_breaker(switch.kind));
    push_node(
        alloc,
        rows,
        nameplate,
        Subject::Switch(switch),
        node.as_str(),
        table,
    )?;
    Ok(())
}

// Adds the node of the control with this number (IEC 61850-7-4, CSWI).
fn push_control(
    alloc: Global,
    rows: &mut Vec<Row>,
    nameplate: &Nameplate,
    number: usize,
    switch: &Switch,
) -> Result<(), AllocError>
    ensures { IfOk result (λ _. rows.new.items ≡ rows.old.items
        ++ node_rows (control_node nameplate.now (number, switch.now))) }
{
    let name = node_name(alloc, CONTROL, number)?;
    let node = name.as_str();
    let subject = Subject::Switch(switch);
    let first = tables::control_table(nameplate.profile);
    let last = tables::control_settings_table(nameplate.profile);
    push_node(alloc, rows, nameplate, subject, node, first)?;
    push_commands(alloc, rows, nameplate, subject, node, switch.control)?;
    push_table(alloc, rows, nameplate, subject, node, last)?;
    Ok(())
}

// Adds the node of the interlocking with this number (IEC 61850-7-4, CILO).
fn push_interlocking(
    alloc: Global,
    rows: &mut Vec<Row>,
    nameplate: &Nameplate,
    number: usize,
    switch: &Switch,
) -> Result<(), AllocError>
    ensures { IfOk result (λ _. rows.new.items ≡ rows.old.items
        ++ node_rows (interlocking_node nameplate.now (number, switch.now))) }
{
    let node = node_name(alloc, INTERLOCKING, number)?;
    let table = tables::interlocking_table(nameplate.profile);
    push_node(
        alloc,
        rows,
        nameplate,
        Subject::Switch(switch),
        node.as_str(),
        table,
    )?;
    Ok(())
}

// Adds the node of the meter with this number (IEC 61850-7-4, MMXU).
fn push_meter(
    alloc: Global,
    rows: &mut Vec<Row>,
    nameplate: &Nameplate,
    number: usize,
    meter: &Meter,
) -> Result<(), AllocError>
    ensures { IfOk result (λ _. rows.new.items ≡ rows.old.items
        ++ node_rows (meter_node nameplate.now (number, meter.now))) }
{
    let name = node_name(alloc, METER, number)?;
    let node = name.as_str();
    let subject = Subject::Meter(meter);
    let scaled = meter.scale.is_some();
    let first = meter_tables::meter_table(nameplate.profile, scaled);
    let last = meter_tables::meter_settings_table(nameplate.profile, scaled);
    push_node(alloc, rows, nameplate, subject, node, first)?;
    push_table(alloc, rows, nameplate, subject, node, last)?;
    Ok(())
}

// Adds the nodes of the breakers, or of the other switches, numbered from 1.
fn push_positions(
    alloc: Global,
    rows: &mut Vec<Row>,
    nameplate: &Nameplate,
    switches: &[Switch],
    breakers: bool,
) -> Result<(), AllocError>
    ensures { IfOk result (λ _. rows.new.items ≡ rows.old.items
        ++ flat_map node_rows (position_nodes nameplate.now breakers switches.now)) }
{
    let mut number = 1usize;
    for switch in switches {
        if is_in_group(breakers, switch) {
            push_position(alloc, rows, nameplate, number, switch)?;
            number += 1;
        }
    }
    Ok(())
}

// Adds the nodes of the controls, numbered from 1.
fn push_controls(
    alloc: Global,
    rows: &mut Vec<Row>,
    nameplate: &Nameplate,
    switches: &[Switch],
) -> Result<(), AllocError>
    ensures { IfOk result (λ _. rows.new.items ≡ rows.old.items
        ++ flat_map node_rows (control_nodes nameplate.now switches.now)) }
{
    for i in 0..switches.len() {
        push_control(alloc, rows, nameplate, i + 1, &switches[i])?;
    }
    Ok(())
}

// Adds the nodes of the interlocking, numbered from 1.
fn push_interlockings(
    alloc: Global,
    rows: &mut Vec<Row>,
    nameplate: &Nameplate,
    switches: &[Switch],
) -> Result<(), AllocError>
    ensures { IfOk result (λ _. rows.new.items ≡ rows.old.items
        ++ flat_map node_rows (interlocking_nodes nameplate.now switches.now)) }
{
    for i in 0..switches.len() {
        push_interlocking(alloc, rows, nameplate, i + 1, &switches[i])?;
    }
    Ok(())
}

// Adds the nodes of the meters, numbered from 1.
fn push_meters(
    alloc: Global,
    rows: &mut Vec<Row>,
    nameplate: &Nameplate,
    meters: &[Meter],
) -> Result<(), AllocError>
    ensures { IfOk result (λ _. rows.new.items ≡ rows.old.items
        ++ flat_map node_rows (meter_nodes nameplate.now meters.now)) }
{
    for i in 0..meters.len() {
        push_meter(alloc, rows, nameplate, i + 1, &meters[i])?;
    }
    Ok(())
}

// Adds the data objects of the inputs in one group of the node of the inputs, numbered from 1. The
// names of the objects begin with `object`.
fn push_input_objects(
    alloc: Global,
    rows: &mut Vec<Row>,
    nameplate: &Nameplate,
    inputs: &[Text],
    object: &str,
    table: &[(&str, InitialValue)],
) -> Result<(), AllocError>
    ensures { (object_table : List ℕ → List declared.Row)
        → ((name : Bor (List ℕ)) → map (line_row nameplate.now (subjects.Input name)) table.now
        ≡ object_table name.now)
        → IfOk result (λ _. rows.new.items
        ≡ rows.old.items ++ object_rows object.now object_table 1 inputs.now) }
{
    for i in 0..inputs.len() {
        let name = node_name(alloc, object, i + 1)?;
        let subject = Subject::Input(inputs[i].as_str());
        push_table(alloc, rows, nameplate, subject, name.as_str(), table)?;
    }
    Ok(())
}

// Adds the node of the inputs (IEC 61850-7-4, GGIO).
fn push_inputs(
    alloc: Global,
    rows: &mut Vec<Row>,
    nameplate: &Nameplate,
    inputs: &[Text],
) -> Result<(), AllocError>
    ensures { IfOk result (λ _. rows.new.items
        ≡ rows.old.items ++ node_rows (spec.input_node nameplate.now inputs.now)) }
{
    let device = Subject::Device;
    let first = tables::inputs_table();
    let value = tables::input_table();
    let plate = tables::inputs_plate_table();
    let text = tables::input_description_table();
    push_node(alloc, rows, nameplate, device, "GGIO1", first)?;
    push_input_objects(alloc, rows, nameplate, inputs, "GGIO1$ST$Ind", value)?;
    push_table(alloc, rows, nameplate, device, "GGIO1", plate)?;
    push_input_objects(alloc, rows, nameplate, inputs, "GGIO1$DC$Ind", text)?;
    Ok(())
}

// Adds the node of the inputs: in profile 2, if there are inputs.
fn push_input_node(
    alloc: Global,
    rows: &mut Vec<Row>,
    nameplate: &Nameplate,
    inputs: &[Text],
) -> Result<(), AllocError>
    ensures { IfOk result (λ _. rows.new.items ≡ rows.old.items
        ++ flat_map node_rows (input_nodes nameplate.now.profile nameplate.now inputs.now)) }
{
    match nameplate.profile {
        Profile::One => Ok(()),
        Profile::Two => match inputs {
            [] => Ok(()),
            _ => push_inputs(alloc, rows, nameplate, inputs),
        },
    }
}

// The approximate number of rows of a switch, and of a meter: a hint for the capacity.
const ROWS_OF_SWITCH: usize = 64;

const ROWS_OF_METER: usize = 40;

/// Returns the rows of a bay's nodes with their initial values: those of the device, the breakers,
/// the other switches, the controls, the interlocking, and the meters; in profile 2 also that of
/// the inputs, if there are inputs. Fails only if an allocation fails.
pub fn rows_of(
    alloc: Global,
    nameplate: &Nameplate,
    switches: &[Switch],
    inputs: &[Text],
    meters: &[Meter],
) -> Result<Listing<Row>, AllocError>
    ensures rows { IfOk result (λ rows. rows
        ≡ bay_rows nameplate.now switches.now inputs.now meters.now) }

    // Their names are distinct, and each row's parent is a structure before it.
    ensures tree { length switches.now < 2 ^ 32 → length inputs.now < 2 ^ 32
        → length meters.now < 2 ^ 32 → IfOk result IsTree }
{
    let of_switches = switches.len().saturating_mul(ROWS_OF_SWITCH);
    let of_meters = meters.len().saturating_mul(ROWS_OF_METER);
    let mut rows = Vec::with_capacity(alloc, of_switches.saturating_add(of_meters))?;
    push_device(alloc, &mut rows, nameplate)?;
    push_positions(alloc, &mut rows, nameplate, switches, true)?;
    push_positions(alloc, &mut rows, nameplate, switches, false)?;
    push_controls(alloc, &mut rows, nameplate, switches)?;
    push_interlockings(alloc, &mut rows, nameplate, switches)?;
    push_meters(alloc, &mut rows, nameplate, meters)?;
    push_input_node(alloc, &mut rows, nameplate, inputs)?;
    Ok(Listing::new(rows))
}
