// Instructions with their names resolved.
ghost use Rattle.std.specs.Prelude.{◌≡◌};

use crate::typed::{Slot, TypedOperand};
use bay_base::types::ElementaryType;
use il_text::program::{Condition, Conversion, Input, Operator, StoreKind};

/// The meaning of a declared name.
#[derive(Clone, Copy)]
pub enum Meaning {
    /// A variable: its slot, its type, and whether the program may write it.
    Variable {
        slot: Slot,
        kind: ElementaryType,
        writable: bool,
    },
    /// The timer at this index.
    Timer(usize),
}

/// An operand that has a type, and whether the program may write it.
#[derive(Clone, Copy)]
pub struct KnownOperand {
    pub operand: TypedOperand,
    pub kind: ElementaryType,
    pub writable: bool,
}

/// An operand or a target of the text, with its name resolved.
#[derive(Clone, Copy)]
pub enum SourceOperand {
    /// An undeclared name.
    Missing,
    /// A timer's name used as a variable, a variable's name used as a timer, or a literal whose
    /// number is outside its type.
    Misused,
    /// An operand that has a type.
    Known(KnownOperand),
    /// A number without a type.
    Number(i64),
}

/// The timer that a call names.
#[derive(Clone, Copy)]
pub enum CalledTimer {
    /// An undeclared name.
    Missing,
    /// The name of a variable.
    Misused,
    /// The timer at this index.
    Timer(usize),
}

/// An argument of a call: an input and its operand.
#[derive(Clone, Copy)]
pub struct SourceArgument {
    pub input: Input,
    pub operand: SourceOperand,
}

/// The arguments of a call, in the order of the text.
#[derive(Clone, Copy)]
pub enum SourceArguments {
    None,
    One(SourceArgument),
    Two(SourceArgument, SourceArgument),
}

/// An instruction with its names resolved (IEC 61131-3:2003, table 52).
#[derive(Clone, Copy)]
pub enum Resolved {
    Load {
        negated: bool,
        operand: SourceOperand,
    },
    Store {
        kind: StoreKind,
        target: SourceOperand,
    },
    /// An operator with its operand, and whether the operand is a literal other than 0.
    Combine {
        operator: Operator,
        negated: bool,
        operand: SourceOperand,
        is_nonzero: bool,
    },
    Not,
    Convert(Conversion),
    /// A jump to the first label of its name, given by the label's number, or `None` if there is no
    /// such label.
    Jump {
        condition: Condition,
        label: Option<usize>,
    },
    Return(Condition),
    Call {
        called: CalledTimer,
        arguments: SourceArguments,
    },
}
