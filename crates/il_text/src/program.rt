// A program, whose names are slices of its text.
ghost use Rattle.std.specs.Prelude.{◌≡◌, map, true};
ghost use Rattle.il_text.specs.Grammar.{rises, item_lines};
ghost use Rattle.il_text.specs.ItemViews.{entry_of};

use bay_base::types::{ElementaryType, TimerKind};

/// A program: its name, its declarations, and its items in the order of the text. The line numbers
/// of the items never decrease.
#[derive(Drop)]
pub struct Program<'a> {
    pub name: &'a str,
    pub declarations: Vec<Declaration<'a>>,
    pub items: Vec<Item<'a>>,
    ghost rising: { rises 0 (item_lines (map entry_of items.items)) ≡ true },
}

/// One declared name, with its line counted from 1.
#[derive(Clone, Copy, Debug)]
pub struct Declaration<'a> {
    pub line: usize,
    pub scope: VariableScope,
    pub name: &'a str,
    pub kind: DeclaredType,
    /// The initial value, if the text has one; an external and a timer have none.
    pub initial: Option<Literal>,
}

/// The scope of a declared variable (IEC 61131-3:2003, 2.4.3).
#[derive(Clone, Copy, Debug)]
pub enum VariableScope {
    /// `VAR`: a variable of the program.
    Local,
    /// `VAR_EXTERNAL`: a variable provided from outside the program.
    External,
}

/// The type of a declared name.
#[derive(Clone, Copy, Debug)]
pub enum DeclaredType {
    /// A variable of an elementary type.
    Elementary(ElementaryType),
    /// A timer instance.
    Timer(TimerKind),
}

/// A literal: its type, if it has one, and its value (IEC 61131-3:2003, 2.2).
#[derive(Clone, Copy, Debug)]
pub enum Literal {
    /// `TRUE`, `FALSE`, or a typed BOOL.
    Truth(bool),
    /// A number without a type.
    Number(i64),
    /// A typed INT.
    Int(i16),
    /// A typed DINT.
    Dint(i32),
    /// A typed LINT.
    Lint(i64),
    /// A TIME of 0 to 2,147,483,647 milliseconds.
    Time(u32),
}

/// An output of a timer (IEC 61131-3:2003, table 38).
#[derive(Clone, Copy, Debug, PartialEq, Eq)]
pub enum TimerOutput {
    /// `.Q`, a BOOL.
    Q,
    /// `.ET`, the elapsed time.
    Et,
}

/// The variable that an instruction reads or writes, spelled as in the text.
#[derive(Clone, Copy, Debug)]
pub enum SymbolicVariable<'a> {
    /// A name.
    Name(&'a str),
    /// A timer's name and one of its outputs.
    TimerOutput { timer: &'a str, output: TimerOutput },
}

/// The operand that an instruction reads.
#[derive(Clone, Copy, Debug)]
pub enum Operand<'a> {
    Literal(Literal),
    Variable(SymbolicVariable<'a>),
}

/// An operator that combines the current result with an operand (IEC 61131-3:2003, table 52).
#[derive(Clone, Copy, Debug, PartialEq, Eq)]
pub enum Operator {
    And,
    Or,
    Xor,
    Add,
    Sub,
    Mul,
    Div,
    Mod,
    Gt,
    Ge,
    Eq,
    Ne,
    Le,
    Lt,
}

/// How a store writes the current result (IEC 61131-3:2003, table 52).
#[derive(Clone, Copy, Debug, PartialEq, Eq)]
pub enum StoreKind {
    /// `ST`: writes the result.
    Plain,
    /// `STN`: writes the negated result.
    Negated,
    /// `S`: writes TRUE if the result is TRUE.
    Set,
    /// `R`: writes FALSE if the result is TRUE.
    Reset,
}

/// When a jump or a return is taken (IEC 61131-3:2003, table 52).
#[derive(Clone, Copy, Debug, PartialEq, Eq)]
pub enum Condition {
    /// `JMP`, `RET`
    Always,
    /// `JMPC`, `RETC`: if the result is TRUE.
    IfTrue,
    /// `JMPCN`, `RETCN`: if the result is FALSE.
    IfFalse,
}

/// A conversion of the current result to a wider type.
#[derive(Clone, Copy, Debug, PartialEq, Eq)]
pub enum Conversion {
    IntToDint,
    DintToLint,
}

/// An input of a timer (IEC 61131-3:2003, table 38).
#[derive(Clone, Copy, Debug, PartialEq, Eq)]
pub enum Input {
    /// `IN`, a BOOL.
    In,
    /// `PT`, the preset time.
    Pt,
}

/// An argument of a call: an input and its operand.
#[derive(Clone, Copy, Debug)]
pub struct Argument<'a> {
    pub input: Input,
    pub operand: Operand<'a>,
}

/// The arguments of a call in the order of the text, no two for the same input.
#[derive(Clone, Copy, Debug)]
pub enum Arguments<'a> {
    None,
    One(Argument<'a>),
    Two(Argument<'a>, Argument<'a>),
}

/// An instruction (IEC 61131-3:2003, 3.2 and table 52).
#[derive(Clone, Copy, Debug)]
pub enum Instruction<'a> {
    /// `LD`, or negated `LDN`: makes the operand the current result.
    Load {
        negated: bool,
        operand: Operand<'a>,
    },
    /// `ST`, `STN`, `S`, `R`: stores the current result.
    Store {
        kind: StoreKind,
        target: SymbolicVariable<'a>,
    },
    /// An operator: combines the current result with the operand, which is negated first if
    /// `negated`.
    Combine {
        operator: Operator,
        negated: bool,
        operand: Operand<'a>,
    },
    /// `NOT`: negates the current result.
    Not,
    /// `INT_TO_DINT`, `DINT_TO_LINT`: widens the current result.
    Convert(Conversion),
    /// A jump to a label.
    Jump {
        condition: Condition,
        label: &'a str,
    },
    /// A return, which ends the run of the program.
    Return(Condition),
    /// `CAL`: runs a timer.
    Call {
        timer: &'a str,
        arguments: Arguments<'a>,
    },
}

/// A label, an instruction, or a parenthesis. Lines are counted from 1.
#[derive(Drop)]
pub enum Item<'a> {
    /// A label; the instruction after it may be on the same line.
    Label {
        line: usize,
        name: &'a str,
    },
    Instruction {
        line: usize,
        instruction: Instruction<'a>,
    },
    /// The line of `operator(`, the items of the parenthesis, and the line of its `)`. The result
    /// of the items is negated first if `negated`. An operand after the `(` is the first item: a
    /// load of the operand on the same line.
    Block {
        line: usize,
        operator: Operator,
        negated: bool,
        items: Vec<Item<'a>>,
        end: usize,
    },
}
