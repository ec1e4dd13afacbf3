// The initial values of rows.
ghost use Rattle.std.specs.Prelude.{◌≡◌, IfOk};
ghost use Rattle.bay_nodes.specs.Node as node;
ghost use Rattle.bay_nodes.specs.NodeRows as spec;

use crate::nameplate::Nameplate;
use crate::subject::{
    Subject, control_model, description, is_keyed, multiplier, select_timeout, switch_type,
};
use bay_base::listing::Listing;
use bay_base::position::Dbpos;
use bay_base::text::Text;
use bay_tree::leaf::{Leaf, Quality};
use std::alloc::{AllocError, Global};

/// The initial value of a row.
#[derive(Clone, Copy)]
pub enum InitialValue {
    /// No value: the row is a structure.
    Structure,
    /// FALSE.
    False,
    /// The intermediate position, or no checks set.
    Intermediate,
    Good,
    Invalid,
    Int8(i8),
    /// A count or a measured value of 0.
    Int32,
    /// The number of a control, 0.
    Unsigned8,
    /// A measured value of 0 as a float.
    Float,
    /// No octets.
    Octets,
    /// The empty reference.
    Reference,
    /// Time 0.
    Moment,
    /// The maker from the nameplate.
    Vendor,
    /// The revision from the nameplate.
    Revision,
    /// The name space of the classes of nodes.
    NameSpace,
    /// The description of the subject.
    Description,
    /// TRUE for a switch with a key.
    Local,
    /// Invalid for a switch with a key, else good.
    LocalQuality,
    /// The type of the switch.
    SwitchType,
    /// The control model of the switch.
    ControlModel,
    /// How long a selection of the switch lasts.
    SelectTimeout,
    /// The power of ten by which the values of the meter are multiplied.
    Multiplier,
}

// The name space of the classes of nodes (IEC 61850-7-3, ldNs).
const NAME_SPACE: &str = "IEC 61850-7-4:2007B";

// Returns the quality of whether a switch accepts local commands only.
fn key_quality(keyed: bool) -> Quality
    ensures { result ≡ node.key_quality keyed }
{
    if keyed {
        Quality::Invalid
    } else {
        Quality::Good
    }
}

/// Returns the initial value of a row; `None` for a structure. Fails only if an allocation fails.
pub fn initial_leaf(
    alloc: Global,
    nameplate: &Nameplate,
    subject: Subject,
    start: InitialValue,
) -> Result<Option<Leaf>, AllocError>
    ensures { IfOk result (λ leaf. leaf ≡ spec.initial_leaf nameplate.now subject.entry start) }
{
    let leaf = match start {
        InitialValue::Structure => return Ok(None),
        InitialValue::False => Leaf::Truth(false),
        InitialValue::Intermediate => Leaf::Dbpos(Dbpos::Intermediate),
        InitialValue::Good => Leaf::Quality(Quality::Good),
        InitialValue::Invalid => Leaf::Quality(Quality::Invalid),
        InitialValue::Int8(number) => Leaf::Int8(number),
        InitialValue::Int32 => Leaf::Int32(0),
        InitialValue::Unsigned8 => Leaf::Unsigned8(0),
        InitialValue::Float => Leaf::Float(0),
        InitialValue::Octets => Leaf::Octets(Listing::new(Vec::new(alloc))),
        InitialValue::Reference => Leaf::Reference(Text::new(String::new(alloc))),
        InitialValue::Moment => Leaf::Utc(0),
        InitialValue::Vendor => Leaf::Text(Text::from_str(alloc, nameplate.vendor.as_str())?),
        InitialValue::Revision => Leaf::Text(Text::from_str(alloc, nameplate.revision.as_str())?),
        InitialValue::NameSpace => Leaf::Text(Text::from_str(alloc, NAME_SPACE)?),
        InitialValue::Description => {
            Leaf::Text(Text::from_str(alloc, description(nameplate, subject))?)
        }
        InitialValue::Local => Leaf::Truth(is_keyed(subject)),
        InitialValue::LocalQuality => Leaf::Quality(key_quality(is_keyed(subject))),
        InitialValue::SwitchType => Leaf::Int8(switch_type(subject)),
        InitialValue::ControlModel => Leaf::Int8(control_model(subject)),
        InitialValue::SelectTimeout => Leaf::Unsigned32(select_timeout(subject)),
        InitialValue::Multiplier => Leaf::Int8(multiplier(subject)),
    };
    Ok(Some(leaf))
}
