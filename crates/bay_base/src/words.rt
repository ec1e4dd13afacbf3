// The reserved words of Instruction List.
ghost use Rattle.std.specs.Prelude.{◌≡◌, map, find, option_copied, option_map};
ghost use Rattle.bay_base.specs.Names.{same_name};
ghost use Rattle.bay_base.specs.Words.{reserved_of};
ghost use Rattle.bay_base.specs.Words as spec;

use crate::names::same_name;

/// A reserved word: an operator that is spelled as a name (IEC 61131-3:2003, table 52), a keyword
/// of programs and declarations, a type, or a truth value. A name must not be spelled like a
/// reserved word.
#[derive(Clone, Copy, Debug, PartialEq, Eq)]
pub enum ReservedWord {
    Ld,
    Ldn,
    St,
    Stn,
    S,
    R,
    And,
    Andn,
    Or,
    Orn,
    Xor,
    Xorn,
    Not,
    Add,
    Sub,
    Mul,
    Div,
    Mod,
    Gt,
    Ge,
    Eq,
    Ne,
    Le,
    Lt,
    Jmp,
    Jmpc,
    Jmpcn,
    Cal,
    Ret,
    Retc,
    Retcn,
    IntToDint,
    DintToLint,
    Program,
    EndProgram,
    Var,
    VarExternal,
    EndVar,
    Bool,
    Int,
    Dint,
    Lint,
    Time,
    Ton,
    Tof,
    True,
    False,
}

// All reserved words in upper case, each once.
const RESERVED_WORDS: [(&str, ReservedWord); 47] = [
    ("LD", ReservedWord::Ld),
    ("LDN", ReservedWord::Ldn),
    ("ST", ReservedWord::St),
    ("STN", ReservedWord::Stn),
    ("S", ReservedWord::S),
    ("R", ReservedWord::R),
    ("AND", ReservedWord::And),
    ("ANDN", ReservedWord::Andn),
    ("OR", ReservedWord::Or),
    ("ORN", ReservedWord::Orn),
    ("XOR", ReservedWord::Xor),
    ("XORN", ReservedWord::Xorn),
    ("NOT", ReservedWord::Not),
    ("ADD", ReservedWord::Add),
    ("SUB", ReservedWord::Sub),
    ("MUL", ReservedWord::Mul),
    ("DIV", ReservedWord::Div),
    ("MOD", ReservedWord::Mod),
    ("GT", ReservedWord::Gt),
    ("GE", ReservedWord::Ge),
    ("EQ", ReservedWord::Eq),
    ("NE", ReservedWord::Ne),
    ("LE", ReservedWord::Le),
    ("LT", ReservedWord::Lt),
    ("JMP", ReservedWord::Jmp),
    ("JMPC", ReservedWord::Jmpc),
    ("JMPCN", ReservedWord::Jmpcn),
    ("CAL", ReservedWord::Cal),
    ("RET", ReservedWord::Ret),
    ("RETC", ReservedWord::Retc),
    ("RETCN", ReservedWord::Retcn),
    ("INT_TO_DINT", ReservedWord::IntToDint),
    ("DINT_TO_LINT", ReservedWord::DintToLint),
    ("PROGRAM", ReservedWord::Program),
    ("END_PROGRAM", ReservedWord::EndProgram),
    ("VAR", ReservedWord::Var),
    ("VAR_EXTERNAL", ReservedWord::VarExternal),
    ("END_VAR", ReservedWord::EndVar),
    ("BOOL", ReservedWord::Bool),
    ("INT", ReservedWord::Int),
    ("DINT", ReservedWord::Dint),
    ("LINT", ReservedWord::Lint),
    ("TIME", ReservedWord::Time),
    ("TON", ReservedWord::Ton),
    ("TOF", ReservedWord::Tof),
    ("TRUE", ReservedWord::True),
    ("FALSE", ReservedWord::False),
];

// Returns all reserved words with their spellings.
fn reserved_words() -> &'static [(&'static str, ReservedWord)]
    ensures { map (λ entry. (entry.0.now, entry.1)) result.now ≡ spec.reserved_words }
{
    &RESERVED_WORDS
}

// Returns the first entry whose spelling is the given word.
fn entry_of<'a>(
    entries: &'a [(&'static str, ReservedWord)],
    text: &str,
) -> Option<&'a (&'static str, ReservedWord)>
    ensures { option_copied result ≡ find (λ entry. same_name text.now entry.0.now) entries.now }
{
    entries.iter().find(|entry| same_name(text, entry.0))
}

// Returns the reserved word of an entry.
fn word_of(entry: Option<&(&'static str, ReservedWord)>) -> Option<ReservedWord>
    ensures { result ≡ option_map (λ one. one.1) (option_copied entry.entry) }
{
    match entry {
        Some(one) => Some(one.1),
        None => None,
    }
}

/// Returns the reserved word that a text spells, in letters of either case, or `None` if it spells
/// none.
pub fn reserved_word(text: &str) -> Option<ReservedWord>
    ensures { result ≡ reserved_of text.now }
{
    word_of(entry_of(reserved_words(), text))
}
