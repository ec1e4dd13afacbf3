// Data and types as trees.
ghost use Rattle.std.specs.Prelude.{◌≡◌, [], ◌∷◌, ◌++◌, IfOk, OnOk};
ghost use Rattle.bay_tree.specs.Rows.{IsHandle};
ghost use Rattle.bay_mms.specs.Data.{leaf_datum};
ghost use Rattle.bay_mms.specs.Types as spec;
ghost use Rattle.bay_mms.specs.Nodes.{data_at, type_at};
ghost use Rattle.bay_mms.specs.Views.{datum_of, data_in, type_of, components_in};

use crate::leaf::{float_octets, position_octets, quality_octets, utc_octets};
use bay_ber::content::Bits;
use bay_ber::values::Value;
use bay_tree::leaf::Leaf;
use bay_tree::tree::{Handle, Tree};
use std::alloc::{AllocError, Global};

/// Data (ISO 9506-2, Data). Its octets and texts are borrowed.
#[derive(Debug, Drop)]
pub enum Data<'a> {
    /// The data of the parts, in order.
    Structure(Vec<Data<'a>>),
    Truth(bool),
    Bits(Bits<'a>),
    Integer(i64),
    Unsigned(i64),
    /// The width of the exponent, 8 bits, and the four octets of a float.
    Float([u8; 5]),
    Octets(&'a [u8]),
    Text(&'a [u8]),
    /// The eight octets of a utc-time.
    Utc([u8; 8]),
    /// Data of another kind, as received.
    Other(Value<'a>),
}

// Returns the data of a leaf.
fn leaf_data(leaf: &Leaf) -> Data<'_>
    ensures { datum_of result ≡ leaf_datum leaf.now }
{
    match leaf {
        Leaf::Truth(value) => Data::Truth(*value),
        Leaf::Dbpos(value) => Data::Bits(Bits {
            octets: position_octets(*value),
            count: 2,
        }),
        Leaf::Quality(value) => Data::Bits(Bits {
            octets: quality_octets(*value),
            count: 13,
        }),
        Leaf::Int8(value) => Data::Integer(i64::from(*value)),
        Leaf::Int32(value) => Data::Integer(i64::from(*value)),
        Leaf::Unsigned8(value) => Data::Unsigned(i64::from(*value)),
        Leaf::Unsigned32(value) => Data::Unsigned(i64::from(*value)),
        Leaf::Float(number) => Data::Float(float_octets(*number)),
        Leaf::Octets(value) => Data::Octets(value.as_slice()),
        Leaf::Reference(value) => Data::Text(value.as_str().as_bytes()),
        Leaf::Text(value) => Data::Text(value.as_str().as_bytes()),
        Leaf::Utc(ms) => Data::Utc(utc_octets(*ms)),
    }
}

/// Appends data.
pub(crate) fn push_data<'a>(parts: &mut Vec<Data<'a>>, part: Data<'a>) -> Result<(), AllocError>
    ensures { OnOk result (data_in parts.new.items
        ≡ data_in parts.old.items ++ datum_of part.entry ∷ []) }
{
    parts.push(part)?;
    Ok(())
}

/// Returns the data of a row (IEC 61850-8-1, the mapping of values to MMS data): the value of a
/// leaf, or the data of the rows below a structure. Fails only if an allocation fails.
pub fn data_of<'a>(alloc: Global, tree: &'a Tree, handle: Handle) -> Result<Data<'a>, AllocError>
    requires { IsHandle tree.now handle }
    ensures { IfOk result (λ found. datum_of found ≡ data_at tree.now handle) }
{
    match tree.get(handle) {
        Some(leaf) => Ok(leaf_data(leaf)),
        None => {
            let mut parts = Vec::new(alloc);
            let mut next = tree.below(handle);
            while let Some(part) = next {
                let found = data_of(alloc, tree, part)?;
                push_data(&mut parts, found)?;
                next = tree.beside(part);
            }
            Ok(Data::Structure(parts))
        }
    }
}

/// A type (ISO 9506-2, TypeSpecification).
#[derive(Debug, Drop)]
pub enum TypeSpec<'a> {
    /// The names and types of the components, in order.
    Structure(Vec<(&'a str, TypeSpec<'a>)>),
    /// A simple type without a size, by the number of its tag.
    Plain(u8),
    /// A simple type with a size: the number of its tag, and its size in bits, octets or
    /// characters. A negative size is a maximum.
    Sized(u8, i16),
    /// A floating-point number: its width and that of its exponent, in bits.
    Float(u8, u8),
}

// Returns the type of a leaf: the number of its tag, and its size if it has one.
fn leaf_type_spec(leaf: &Leaf) -> TypeSpec<'_>
    ensures { type_of result ≡ spec.leaf_type_spec leaf.now }
{
    match leaf {
        Leaf::Truth(_) => TypeSpec::Plain(3),
        Leaf::Dbpos(_) => TypeSpec::Sized(4, 2),
        Leaf::Quality(_) => TypeSpec::Sized(4, 13),
        Leaf::Int8(_) => TypeSpec::Sized(5, 8),
        Leaf::Int32(_) => TypeSpec::Sized(5, 32),
        Leaf::Unsigned8(_) => TypeSpec::Sized(6, 8),
        Leaf::Unsigned32(_) => TypeSpec::Sized(6, 32),
        Leaf::Float(_) => TypeSpec::Float(32, 8),
        Leaf::Octets(_) => TypeSpec::Sized(9, -64),
        Leaf::Reference(_) => TypeSpec::Sized(10, -129),
        Leaf::Text(_) => TypeSpec::Sized(10, -255),
        Leaf::Utc(_) => TypeSpec::Plain(17),
    }
}

// Appends a component.
fn push_component<'a>(
    parts: &mut Vec<(&'a str, TypeSpec<'a>)>,
    name: &'a str,
    part: TypeSpec<'a>,
) -> Result<(), AllocError>
    ensures { OnOk result (components_in parts.new.items
        ≡ components_in parts.old.items ++ (name.now, type_of part.entry) ∷ []) }
{
    parts.push((name, part))?;
    Ok(())
}

/// Returns the type of a row (IEC 61850-8-1): the type of a leaf, or a structure of the types of
/// the rows below it, each named by the last word of its name. Fails only if an allocation fails.
pub fn type_spec_of<'a>(
    alloc: Global,
    tree: &'a Tree,
    handle: Handle,
) -> Result<TypeSpec<'a>, AllocError>
    requires { IsHandle tree.now handle }
    ensures { IfOk result (λ found. type_of found ≡ type_at tree.now handle) }
{
    match tree.get(handle) {
        Some(leaf) => Ok(leaf_type_spec(leaf)),
        None => {
            let mut parts = Vec::new(alloc);
            let mut next = tree.below(handle);
            while let Some(part) = next {
                let found = type_spec_of(alloc, tree, part)?;
                push_component(&mut parts, tree.word(part), found)?;
                next = tree.beside(part);
            }
            Ok(TypeSpec::Structure(parts))
        }
    }
}
