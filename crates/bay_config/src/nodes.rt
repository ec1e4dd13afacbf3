// The names of a bay's logical nodes.
ghost use Rattle.std.specs.Prelude.{◌≡◌, ◌<◌, ◌≤◌, filter, length, IfOk};
ghost use Rattle.bay_nodes.specs.Node.{is_in_group};
ghost use Rattle.bay_config.specs.Laws.{IsBay, HasHealth, HasInputs, NamesPosition, NamesControl, NamesInterlocking, NamesMeter};
ghost use Rattle.bay_config.specs.declared.bay.Bay as declared;

use crate::bay::{Bay, Switch};
use bay_base::text::Text;
use bay_nodes::names as names;
use bay_nodes::names::{CONTROL, INTERLOCKING, METER, class_of, is_breaker, is_in_group};
use std::alloc::{AllocError, Global};

// Counts the switches that are breakers, or if `breakers` is false those that are not.
fn count_of(switches: &[Switch], breakers: bool) -> usize
    ensures counted { result ≡ length (filter (is_in_group breakers) switches.now) }
    ensures bounded { result ≤ length switches.now }
{
    switches
        .iter()
        .filter(|switch| is_in_group(breakers, switch))
        .count()
}

/// Returns the name of the logical node of the switch at an index of the bay's switches, from 0:
/// XCBR for a breaker or XSWI for any other switch, followed by its number among those, from 1 (IEC
/// 61850-7-4). Fails only if an allocation fails.
pub fn node_name(alloc: Global, bay: &Bay, index: usize) -> Result<Text, AllocError>
    requires { index < length bay.now.switches }
    ensures { IfOk result (NamesPosition bay.now index) }
{
    let switches = bay.switches.as_slice();
    let kind = switches[index].kind;
    let number = count_of(&switches[..index], is_breaker(kind)) + 1;
    let name = names::node_name(alloc, class_of(kind), number)?;
    Ok(name)
}

/// Returns the name of the logical node of the interlocking of the switch at an index of the bay's
/// switches, from 0: CILO and the number of the switch, from 1 (IEC 61850-7-4). Fails only if an
/// allocation fails.
pub fn interlocking_name(alloc: Global, bay: &Bay, index: usize) -> Result<Text, AllocError>
    requires { index < length bay.now.switches }
    ensures { IfOk result (NamesInterlocking bay.now index) }
{
    let earlier = &bay.switches.as_slice()[..index];
    let name = names::node_name(alloc, INTERLOCKING, earlier.len() + 1)?;
    Ok(name)
}

/// Returns the name of the logical node of the control of the switch at an index of the bay's
/// switches, from 0: CSWI and the number of the switch, from 1 (IEC 61850-7-4). Fails only if an
/// allocation fails.
pub fn control_name(alloc: Global, bay: &Bay, index: usize) -> Result<Text, AllocError>
    requires { index < length bay.now.switches }
    ensures { IfOk result (NamesControl bay.now index) }
{
    let earlier = &bay.switches.as_slice()[..index];
    let name = names::node_name(alloc, CONTROL, earlier.len() + 1)?;
    Ok(name)
}

/// Returns the name of the logical node of the meter at an index of the bay's meters, from 0: MMXU
/// and the number of the meter, from 1 (IEC 61850-7-4). Fails only if an allocation fails.
pub fn meter_name(alloc: Global, bay: &Bay, index: usize) -> Result<Text, AllocError>
    requires { index < length bay.now.meters }
    ensures { IfOk result (NamesMeter bay.now index) }
{
    let earlier = &bay.meters.as_slice()[..index];
    let name = names::node_name(alloc, METER, earlier.len() + 1)?;
    Ok(name)
}

/// The rows of a bay have the health of the device, and in profile 2 the value of each input. Does
/// nothing; its contract is the law.
pub fn model_rows_exist()
    ensures { (bay : declared.Bay) → IsBay bay → HasHealth bay.rows
        × HasInputs bay.profile bay.rows (length bay.inputs) }
{}
