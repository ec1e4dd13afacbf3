// Reading a control from the data that a client writes (IEC 61850-8-1, SBOw, Oper and Cancel).
ghost use Rattle.std.specs.Prelude.{◌≡◌, option_map, Some, None, if◌then◌else◌};
ghost use Rattle.bay_mms.specs.Views.{datum_of};
ghost use Rattle.bay_mms.specs.Controls.{is_in_range, operate_or_error, cancel_or_error};
ghost use Rattle.bay_mms.specs.ControlViews.{cancel_view, operate_view, shape_view, result_view};

use crate::data::Data;
use crate::fault::DataAccessError;
use crate::shape::{Shape, cancel_from_data, operate_from_data};

// The most octets of an originator's identity.
const IDENTITY_MAX: usize = 64;

/// The originator of a control (IEC 61850-7-3, Originator).
#[derive(Clone, Copy, Debug)]
pub struct Origin<'a> {
    /// The category.
    pub or_cat: i8,
    /// The identity, at most 64 octets if it was read from data.
    pub or_ident: &'a [u8],
}

/// The parameters of a select with value or an operate (IEC 61850-8-1, SBOw and Oper).
#[derive(Clone, Copy, Debug)]
pub struct OperateData<'a> {
    /// The parameters that a cancel has, too.
    pub control: CancelData<'a>,
    pub check: Check,
}

/// The checks that are requested before the switch moves (IEC 61850-7-2, Check).
#[derive(Clone, Copy, Debug)]
pub struct Check {
    pub synchrocheck: bool,
    pub interlock_check: bool,
}

/// The parameters of a cancel (IEC 61850-8-1, Cancel).
#[derive(Clone, Copy, Debug)]
pub struct CancelData<'a> {
    /// On or off; in a cancel, as in the request that is cancelled.
    pub ctl_val: bool,
    pub origin: Origin<'a>,
    pub ctl_num: u8,
    /// The eight octets of a utc-time.
    pub t: [u8; 8],
    pub test: bool,
}

// Returns the control with this shape, if its numbers and its identity are in range.
fn in_range<'a>(shape: &Shape<'a>) -> Option<CancelData<'a>>
    ensures { option_map cancel_view result
        ≡ (if is_in_range (shape_view shape.now) then Some (shape_view shape.now) else None) }
{
    let ctl_num = u8::try_from(shape.ctl_num).ok()?;
    let or_cat = i8::try_from(shape.or_cat).ok()?;
    if shape.or_ident.len() > IDENTITY_MAX {
        return None;
    }
    Some(CancelData {
        ctl_val: shape.ctl_val,
        origin: Origin {
            or_cat,
            or_ident: shape.or_ident,
        },
        ctl_num,
        t: shape.t,
        test: shape.test,
    })
}

/// Reads data as an operate or a select with value. Fails with `TypeInconsistent` if the data have
/// another shape: not six parts, a part of another kind, a T without eight octets, or a Check
/// without two bits. Otherwise fails with `ObjectValueInvalid` if ctlNum is outside 0 to 255, orCat
/// is outside -128 to 127, or orIdent is longer than 64 octets.
pub fn operate_of<'a>(given: &Data<'a>) -> Result<OperateData<'a>, DataAccessError>
    ensures { result_view operate_view result ≡ operate_or_error (datum_of given.now) }
{
    let (shape, check) = operate_from_data(given).ok_or(DataAccessError::TypeInconsistent)?;
    let control = in_range(&shape).ok_or(DataAccessError::ObjectValueInvalid)?;
    Ok(OperateData { control, check })
}

/// Reads data as a cancel. Fails like `operate_of`. A cancel has five parts, because it has no
/// Check.
pub fn cancel_of<'a>(given: &Data<'a>) -> Result<CancelData<'a>, DataAccessError>
    ensures { result_view cancel_view result ≡ cancel_or_error (datum_of given.now) }
{
    let shape = cancel_from_data(given).ok_or(DataAccessError::TypeInconsistent)?;
    in_range(&shape).ok_or(DataAccessError::ObjectValueInvalid)
}
