// Arithmetic and comparisons of values (IEC 61131-3:2003, tables 24 and 28).
ghost use Rattle.std.specs.Prelude.{◌≡◌};
ghost use Rattle.il_image.specs.declared.arithmetic.Width.{Width};
ghost use Rattle.il_image.specs.Arithmetic.{DividesBy, comparison_holds, computation_of, type_of_width, wrap_to};

use bay_base::types::ElementaryType;

/// The type of both operands of an arithmetic operation and of its result.
#[derive(Clone, Copy, PartialEq, Eq)]
pub enum Width {
    /// 16 bits.
    Int,
    /// 32 bits.
    Dint,
    /// 64 bits.
    Lint,
}

/// An arithmetic operation. Results wrap at the width.
#[derive(Clone, Copy, PartialEq, Eq)]
pub enum ArithmeticOperation {
    Add,
    Sub,
    Mul,
    /// The quotient, rounded toward zero.
    Div,
    /// The remainder of the division. It has the sign of the first operand.
    Mod,
}

/// A comparison of two values of one type.
#[derive(Clone, Copy, PartialEq, Eq)]
pub enum Comparison {
    Gt,
    Ge,
    Eq,
    Ne,
    Le,
    Lt,
}

impl Width {
    /// Returns the elementary type of this width.
    pub fn elementary(self) -> ElementaryType
        ensures { result ≡ type_of_width self }
    {
        match self {
            Width::Int => ElementaryType::Int,
            Width::Dint => ElementaryType::Dint,
            Width::Lint => ElementaryType::Lint,
        }
    }
}

/// Returns the number that the lowest bits of `number` encode at this width, in two's complement.
pub fn wrap(width: Width, number: i64) -> i64
    ensures { result ≡ wrap_to width number }
{
    let bits = number.cast_unsigned();
    match width {
        Width::Int => i64::from(((bits % 0x1_0000) as u16).cast_signed()),
        Width::Dint => i64::from(((bits % 0x1_0000_0000) as u32).cast_signed()),
        Width::Lint => number,
    }
}

// Returns the result of an operation in 64 bits. Wrapped to a width, it is the result at that
// width.
fn compute_wide(operation: ArithmeticOperation, first: i64, second: i64) -> i64
    requires { DividesBy operation second }
    ensures { (width : Width) → wrap_to width result ≡ computation_of operation width first second }
{
    match operation {
        ArithmeticOperation::Add => first.wrapping_add(second),
        ArithmeticOperation::Sub => first.wrapping_sub(second),
        ArithmeticOperation::Mul => first.wrapping_mul(second),
        ArithmeticOperation::Div => first.wrapping_div(second),
        ArithmeticOperation::Mod => first.wrapping_rem(second),
    }
}

/// Returns the result of an operation on two numbers: the exact integer, wrapped to the width. A
/// divisor must not be 0.
pub fn compute(operation: ArithmeticOperation, width: Width, first: i64, second: i64) -> i64
    requires { DividesBy operation second }
    ensures { result ≡ computation_of operation width first second }
{
    wrap(width, compute_wide(operation, first, second))
}

/// Returns whether a comparison of two numbers holds.
pub fn compare(comparison: Comparison, first: i64, second: i64) -> bool
    ensures { result ≡ comparison_holds comparison first second }
{
    match comparison {
        Comparison::Gt => first > second,
        Comparison::Ge => first >= second,
        Comparison::Eq => first == second,
        Comparison::Ne => first != second,
        Comparison::Le => first <= second,
        Comparison::Lt => first < second,
    }
}
