// Values of the elementary types, and their numbers.
ghost use Rattle.std.specs.Prelude.{◌≡◌};
ghost use Rattle.il_image.specs.Values.{default_value, number_of, value_of};
ghost use Rattle.il_image.specs.Values as spec;

use bay_base::types::ElementaryType;

/// A value of an elementary type.
#[derive(Clone, Copy, Debug, PartialEq, Eq)]
pub enum Value {
    /// A BOOL.
    Truth(bool),
    /// An INT.
    Short(i16),
    /// A DINT.
    Long(i32),
    /// A LINT.
    Wide(i64),
    /// A TIME in milliseconds. Only numbers up to 2,147,483,647 are values of TIME.
    Span(u32),
}

impl Value {
    /// Returns the type of this value.
    pub fn type_of(self) -> ElementaryType
        ensures { result ≡ spec.type_of self }
    {
        match self {
            Value::Truth(_) => ElementaryType::Bool,
            Value::Short(_) => ElementaryType::Int,
            Value::Long(_) => ElementaryType::Dint,
            Value::Wide(_) => ElementaryType::Lint,
            Value::Span(_) => ElementaryType::Time,
        }
    }

    /// Returns the value as a number: FALSE is 0, TRUE is 1, and a TIME is its milliseconds.
    pub fn number(self) -> i64
        ensures { result ≡ number_of self }
    {
        match self {
            Value::Truth(truth) => i64::from(truth),
            Value::Short(number) => i64::from(number),
            Value::Long(number) => i64::from(number),
            Value::Wide(number) => number,
            Value::Span(milliseconds) => i64::from(milliseconds),
        }
    }

    /// Returns the default value of a type: FALSE, 0 or `T#0ms` (IEC 61131-3:2003, table 13).
    pub fn default_of(elementary: ElementaryType) -> Value
        ensures { result ≡ default_value elementary }
    {
        match elementary {
            ElementaryType::Bool => Value::Truth(false),
            ElementaryType::Int => Value::Short(0),
            ElementaryType::Dint => Value::Long(0),
            ElementaryType::Lint => Value::Wide(0),
            ElementaryType::Time => Value::Span(0),
        }
    }

    /// Returns the value of a type with this number, or `None` if there is none.
    pub fn of(elementary: ElementaryType, number: i64) -> Option<Value>
        ensures { result ≡ value_of elementary number }
    {
        match elementary {
            ElementaryType::Bool => match number {
                0 => Some(Value::Truth(false)),
                1 => Some(Value::Truth(true)),
                _ => None,
            },
            ElementaryType::Int if -32_768 <= number && number <= 32_767 => {
                Some(Value::Short(number as i16))
            }
            ElementaryType::Dint if -2_147_483_648 <= number && number <= 2_147_483_647 => {
                Some(Value::Long(number as i32))
            }
            ElementaryType::Lint => Some(Value::Wide(number)),
            ElementaryType::Time if 0 <= number && number <= 2_147_483_647 => {
                Some(Value::Span(number as u32))
            }
            _ => None,
        }
    }
}
