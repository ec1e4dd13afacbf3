// Reading the shape of a control from data, with numbers in any range.
ghost use Rattle.std.specs.Prelude.{◌≡◌, option_map, Some, None};
ghost use Rattle.bay_mms.specs.Views.{datum_of, data_in};
ghost use Rattle.bay_mms.specs.Controls.{Operate};
ghost use Rattle.bay_mms.specs.Controls as spec;
ghost use Rattle.bay_mms.specs.ControlViews.{shape_view};

use crate::control::Check;
use crate::data::Data;

/// A control with numbers in any range and an identity of any length.
#[derive(Clone, Copy)]
pub struct Shape<'a> {
    pub ctl_val: bool,
    pub or_cat: i64,
    pub or_ident: &'a [u8],
    pub ctl_num: i64,
    pub t: [u8; 8],
    pub test: bool,
}

// Returns the value if the data are a boolean.
fn truth_from_data(given: &Data<'_>) -> Option<bool>
    ensures { result ≡ spec.truth_from_data (datum_of given.now) }
{
    match given {
        Data::Truth(value) => Some(*value),
        _ => None,
    }
}

// Returns the number if the data are an integer.
fn integer_from_data(given: &Data<'_>) -> Option<i64>
    ensures { result ≡ spec.integer_from_data (datum_of given.now) }
{
    match given {
        Data::Integer(value) => Some(*value),
        _ => None,
    }
}

// Returns the number if the data are an unsigned number.
fn unsigned_from_data(given: &Data<'_>) -> Option<i64>
    ensures { result ≡ spec.unsigned_from_data (datum_of given.now) }
{
    match given {
        Data::Unsigned(value) => Some(*value),
        _ => None,
    }
}

// Returns the octets if the data are an octet string.
fn octets_from_data<'a>(given: &Data<'a>) -> Option<&'a [u8]>
    ensures { option_map (λ octets. octets.now) result
        ≡ spec.octets_from_data (datum_of given.now) }
{
    match given {
        Data::Octets(value) => Some(value),
        _ => None,
    }
}

// Returns the eight octets if the data are a utc-time.
fn moment_from_data(given: &Data<'_>) -> Option<[u8; 8]>
    ensures { result ≡ spec.moment_from_data (datum_of given.now) }
{
    match given {
        Data::Utc(value) => Some(*value),
        _ => None,
    }
}

// Returns the checks in the two highest bits of an octet.
fn check_from_octet(octet: u8) -> Check
    ensures { Some result ≡ spec.check_from_octet octet }
{
    Check {
        synchrocheck: octet >= 0x80,
        interlock_check: octet / 0x40 % 2 == 1,
    }
}

// Returns the checks if the data are two bits (IEC 61850-8-1, Check).
fn check_from_data(given: &Data<'_>) -> Option<Check>
    ensures { result ≡ spec.check_from_data (datum_of given.now) }
{
    match given {
        Data::Bits(bits) if bits.count == 2 => Some(check_from_octet(*bits.octets.first()?)),
        _ => None,
    }
}

// Returns the components if the data are a structure.
fn parts_from_data<'b, 'a>(given: &'b Data<'a>) -> Option<&'b [Data<'a>]>
    ensures { option_map (λ parts. data_in parts.now) result
        ≡ spec.parts_from_data (datum_of given.now) }
{
    match given {
        Data::Structure(parts) => Some(parts.as_slice()),
        _ => None,
    }
}

// Returns the category and the identity of an originator from its components.
fn origin_from_parts<'a>(parts: &[Data<'a>]) -> Option<(i64, &'a [u8])>
    ensures { option_map (λ origin. record { or_cat = origin.0; or_ident = origin.1.now }) result
        ≡ spec.origin_from_parts (data_in parts.now) }
{
    match parts {
        [category, identity] => {
            let category = integer_from_data(category)?;
            let identity = octets_from_data(identity)?;
            Some((category, identity))
        }
        _ => None,
    }
}

// Returns the category and the identity of an originator if the data are a structure of the two.
#[tactic(auto, unfolding(crate::specs::Controls::origin_from_data))]
fn origin_from_data<'a>(given: &Data<'a>) -> Option<(i64, &'a [u8])>
    ensures { option_map (λ origin. record { or_cat = origin.0; or_ident = origin.1.now }) result
        ≡ spec.origin_from_data (datum_of given.now) }
{
    origin_from_parts(parts_from_data(given)?)
}

// Returns a control from its value, its originator, its number, its moment and whether it is a
// test.
#[tactic(auto, unfolding(crate::specs::Controls::control_from_parts))]
fn control_from_parts<'a>(
    value: &Data<'a>,
    origin: &Data<'a>,
    number: &Data<'a>,
    moment: &Data<'a>,
    test: &Data<'a>,
) -> Option<Shape<'a>>
    ensures { option_map shape_view result
        ≡ spec.control_from_parts (datum_of value.now) (datum_of origin.now) (datum_of number.now)
        (datum_of moment.now) (datum_of test.now) }
{
    let ctl_val = truth_from_data(value)?;
    let (or_cat, or_ident) = origin_from_data(origin)?;
    let ctl_num = unsigned_from_data(number)?;
    let t = moment_from_data(moment)?;
    let test = truth_from_data(test)?;
    Some(Shape {
        ctl_val,
        or_cat,
        or_ident,
        ctl_num,
        t,
        test,
    })
}

// Returns the control of a Cancel, which has these five components in this order.
fn cancel_from_parts<'a>(parts: &[Data<'a>]) -> Option<Shape<'a>>
    ensures { option_map shape_view result ≡ spec.cancel_from_parts (data_in parts.now) }
{
    match parts {
        [value, origin, number, moment, test] => control_from_parts(
            value, origin, number, moment, test,
        ),
        _ => None,
    }
}

// Returns the control of an Oper, which has the five components of a Cancel, followed by its
// checks.
fn operate_from_parts<'a>(parts: &[Data<'a>]) -> Option<(Shape<'a>, Check)>
    ensures { option_map (λ found. record { control = shape_view found.0; check = found.1 }) result
        ≡ spec.operate_from_parts (data_in parts.now) }
{
    match parts {
        [value, origin, number, moment, test, check] => {
            let control = control_from_parts(value, origin, number, moment, test)?;
            let check = check_from_data(check)?;
            Some((control, check))
        }
        _ => None,
    }
}

/// Reads the control in data with the shape of a Cancel.
#[tactic(auto, unfolding(crate::specs::Controls::cancel_from_data))]
pub(crate) fn cancel_from_data<'a>(given: &Data<'a>) -> Option<Shape<'a>>
    ensures { option_map shape_view result ≡ spec.cancel_from_data (datum_of given.now) }
{
    cancel_from_parts(parts_from_data(given)?)
}

/// Reads the control and its checks in data with the shape of an Oper.
#[tactic(auto, unfolding(crate::specs::Controls::operate_from_data))]
pub(crate) fn operate_from_data<'a>(given: &Data<'a>) -> Option<(Shape<'a>, Check)>
    ensures { option_map (λ found. record { control = shape_view found.0; check = found.1 }) result
        ≡ spec.operate_from_data (datum_of given.now) }
{
    operate_from_parts(parts_from_data(given)?)
}
