// The tokens of a text.
use crate::program::{Condition, Conversion, DeclaredType, Literal, Operator, StoreKind};

/// A keyword of a program's structure.
#[derive(Clone, Copy)]
pub enum Keyword {
    Program,
    EndProgram,
    Var,
    VarExternal,
    EndVar,
}

/// An operator of a line (IEC 61131-3:2003, table 52).
#[derive(Clone, Copy)]
pub enum Mnemonic {
    Load { negated: bool },
    Store(StoreKind),
    Combine { operator: Operator, negated: bool },
    Not,
    Convert(Conversion),
    Return(Condition),
    Jump(Condition),
    Call,
}

/// A punctuation mark of a line.
#[derive(Clone, Copy, PartialEq, Eq)]
pub enum Mark {
    Colon,
    Assign,
    Comma,
    Semicolon,
    Dot,
    Open,
    Close,
}

/// A token. A name is a slice of the text.
#[derive(Clone, Copy)]
pub(crate) enum Token<'a> {
    Name(&'a str),
    Keyword(Keyword),
    Type(DeclaredType),
    Literal(Literal),
    Mnemonic(Mnemonic),
    Mark(Mark),
}
