// The classes of nodes (IEC 61850-7-4), and their names.
ghost use Rattle.std.specs.Prelude.{◌≡◌, ◌++◌, IfOk};
ghost use Rattle.bay_nodes.specs.Node as spec;

use crate::switch::Switch;
use bay_base::switch::SwitchKind;
use bay_base::text::Text;
use std::alloc::{AllocError, Global};

/// The class of a switch's control.
pub const CONTROL: &str = "CSWI";

/// The class of a switch's interlocking.
pub const INTERLOCKING: &str = "CILO";

/// The class of a meter.
pub const METER: &str = "MMXU";

/// The node of the device.
pub const DEVICE: &str = "LLN0";

/// The node of the physical device.
pub const PHYSICAL_DEVICE: &str = "LPHD1";

/// The name of the data object of an input's value, before the number of the input.
pub const INDICATION: &str = "GGIO1$ST$Ind";

/// Returns whether a switch of this kind is a circuit breaker.
pub fn is_breaker(kind: SwitchKind) -> bool
    ensures { result ≡ spec.is_breaker kind }
{
    kind == SwitchKind::Breaker
}

/// Returns whether the switch is a breaker; if `breakers` is false, whether it is not a breaker.
pub fn is_in_group(breakers: bool, switch: &Switch) -> bool
    ensures { result ≡ spec.is_in_group breakers switch.now }
{
    if breakers {
        is_breaker(switch.kind)
    } else {
        !is_breaker(switch.kind)
    }
}

/// Returns the class of a switch's node: XCBR for a breaker, XSWI for any other switch (IEC
/// 61850-7-4).
pub fn class_of(kind: SwitchKind) -> &'static str
    ensures { result.now ≡ spec.class_of kind }
{
    match kind {
        SwitchKind::Breaker => "XCBR",
        SwitchKind::Disconnector | SwitchKind::Earthing => "XSWI",
    }
}

/// Returns the name of a node: its class and its number. Fails only if an allocation fails.
pub fn node_name(alloc: Global, class: &str, number: usize) -> Result<Text, AllocError>
    ensures { IfOk result (λ name. name ≡ spec.node_name class.now number) }
{
    Ok(Text::new(format!(in alloc; "{class}{number}")?))
}

/// Returns the name of a row: the node's name followed by the path of the row within the node.
/// Fails only if an allocation fails.
pub fn row_name(alloc: Global, node: &str, path: &str) -> Result<Text, AllocError>
    ensures { IfOk result (λ name. name ≡ node.now ++ path.now) }
{
    let mut name = String::with_capacity(alloc, node.len().saturating_add(path.len()))?;
    name.push_str(node)?;
    name.push_str(path)?;
    Ok(Text::new(name))
}
