// A checked program: each name is resolved, and each literal has its type.
ghost use Rattle.std.specs.Prelude.{◌≡◌};

use bay_base::point::Source;
use bay_base::text::Text;
use bay_base::types::{ElementaryType, TimerKind};
use il_image::value::Value;
use il_text::program::{Condition, Conversion, Input, Operator, StoreKind, TimerOutput};

/// A variable provided to the program (IEC 61131-3:2003, 2.4.3, VAR_EXTERNAL): a point of the bay.
#[derive(Drop)]
pub struct External {
    /// Its name, in upper case.
    pub name: Text,
    pub kind: ElementaryType,
    /// Whether the program may write it.
    pub writable: bool,
    /// The source of its point.
    pub source: Source,
}

/// A variable of the program (IEC 61131-3:2003, 2.4.3, VAR).
#[derive(Drop)]
pub struct Variable {
    /// Its name, in upper case.
    pub name: Text,
    /// The initial value, which also determines the type.
    pub initial: Value,
}

/// A timer of the program (IEC 61131-3:2003, 2.5.2.3.4).
#[derive(Drop)]
pub struct Timer {
    /// Its name, in upper case.
    pub name: Text,
    pub kind: TimerKind,
}

/// A slot: the external or the variable at this index in the order of the declarations.
#[derive(Clone, Copy, PartialEq, Eq)]
pub enum Slot {
    External(usize),
    Variable(usize),
}

/// The operand that an instruction reads.
#[derive(Clone, Copy, PartialEq, Eq)]
pub enum TypedOperand {
    Literal(Value),
    Slot(Slot),
    /// An output of the timer at this index.
    TimerOutput { timer: usize, output: TimerOutput },
}

/// An operation, which may be in a parenthesis (IEC 61131-3:2003, table 52).
#[derive(Clone, Copy, PartialEq, Eq)]
pub enum SimpleOperation {
    /// `LD`, `LDN`
    Load {
        negated: bool,
        operand: TypedOperand,
    },
    /// `ST`, `STN`, `S`, `R`
    Store {
        kind: StoreKind,
        slot: Slot,
    },
    /// An operator on the result and an operand, both of type `kind`.
    Combine {
        operator: Operator,
        kind: ElementaryType,
        negated: bool,
        operand: TypedOperand,
    },
    /// `NOT`
    Not,
    /// `INT_TO_DINT`, `DINT_TO_LINT`
    Convert(Conversion),
}

/// An operation or a parenthesis. The operator of a parenthesis works on the current result and the
/// result of its entries, both of type `kind`.
#[derive(Drop)]
pub enum TypedEntry {
    Operation(SimpleOperation),
    Block {
        operator: Operator,
        kind: ElementaryType,
        negated: bool,
        entries: Vec<TypedEntry>,
    },
}

/// An argument of a call: an input of a timer and its operand.
#[derive(Clone, Copy, PartialEq, Eq)]
pub struct TypedArgument {
    pub input: Input,
    pub operand: TypedOperand,
}

/// The arguments of a call, in the order of the text.
#[derive(Clone, Copy, PartialEq, Eq)]
pub enum TypedArguments {
    None,
    One(TypedArgument),
    Two(TypedArgument, TypedArgument),
}

/// A jump, a return or a call (IEC 61131-3:2003, table 52).
#[derive(Clone, Copy, PartialEq, Eq)]
pub enum Transfer {
    /// A jump to the label with this number, which is below.
    Jump {
        condition: Condition,
        label: usize,
    },
    /// A return, which ends the run of the program.
    Return(Condition),
    /// `CAL` of the timer at this index.
    Call {
        timer: usize,
        arguments: TypedArguments,
    },
}

/// An item of a program. Labels are numbered from 0 in the order of the text.
#[derive(Drop)]
pub enum TypedItem {
    Label(usize),
    Transfer(Transfer),
    Entry(TypedEntry),
}
