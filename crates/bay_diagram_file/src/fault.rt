// Why a text is not a diagram of a bay.
ghost use Rattle.std.specs.Prelude.{◌≡◌};
ghost use Rattle.bay_diagram_file.specs.Code.{code_of, out_of_memory, words_of};

use std::alloc::{AllocError, AllocFailed};
use thiserror::Error;

/// Where a fault is. Indices count from 0.
#[derive(Clone, Copy, Debug, PartialEq, Eq)]
pub enum Place {
    /// The file, or a section as a whole.
    File,
    /// The table of the section `node` at this index.
    Node(usize),
    /// The table of the section `between` at this index.
    Between(usize),
    /// The switch of the bay at this index.
    Switch(usize),
}

/// What is wrong with a text that is no diagram of a bay.
#[derive(Clone, Copy, Debug, PartialEq, Eq, Error)]
#[error("{}", self.words())]
pub enum FaultKind {
    /// The text is not a TOML document, or has more than 262,144 octets.
    BadToml,
    /// A section or a key is unknown.
    UnknownKey,
    /// A section or a required key is missing.
    MissingKey,
    /// The section `check` is no table, another is no list of tables, or a value has a wrong type
    /// or is none of its words.
    BadValue,
    /// A section has more than 64 tables.
    TooMany,
    /// Another table of the section has the same name.
    DuplicateName,
    /// A name of no node of the diagram, or of no switch or input of the bay.
    UnknownName,
    /// A junction or an earth is a source, or another node has a key of sources.
    #[error("only a busbar, a line, a cable or a transformer may be a source, and only a source \
             may have the keys `dead` and `system`: leave the keys out, or change the kind")]
    BadSource,
    /// The keys of a switch are neither those of a switch of the bay nor those of another bay's, or
    /// it has keys of a breaker of the bay, and is none.
    #[error("a switch of the bay has the keys `switch` and `nodes`, one of another bay `name`, \
             `kind` and `nodes`, and only a breaker of the bay `synchro` and `coupler`: leave the \
             others out")]
    BadKeys,
    /// The nodes of a switch do not fit its kind.
    #[error("a switch leads to two nodes, an earthing switch to a node and to an earth, and no \
             other switch to an earth: change its nodes or its kind")]
    BadNodes,
    /// A switch of the bay is in no table, or too few switches lead to a node, or no node is a
    /// source.
    Incomplete,
    /// Out of memory.
    OutOfMemory,
}

impl FaultKind {
    /// Returns the number of the fault, 146 to 155; `None` for `OutOfMemory`.
    pub fn code(self) -> Option<u8>
        ensures { result ≡ code_of self }
    {
        match self {
            FaultKind::BadToml => Some(146),
            FaultKind::UnknownKey => Some(147),
            FaultKind::MissingKey => Some(148),
            FaultKind::BadValue => Some(149),
            FaultKind::TooMany => Some(150),
            FaultKind::DuplicateName => Some(151),
            FaultKind::UnknownName => Some(152),
            FaultKind::BadSource => Some(153),
            FaultKind::BadKeys | FaultKind::BadNodes => Some(154),
            FaultKind::Incomplete => Some(155),
            FaultKind::OutOfMemory => None,
        }
    }

    /// Returns what the fault is, in words.
    pub fn words(self) -> &'static str
        ensures { result.now ≡ words_of self }
    {
        match self {
            FaultKind::BadToml => {
                "the text is not a TOML document, or is too long: mend it, or shorten it"
            }
            FaultKind::UnknownKey => {
                "a section or a key is unknown: leave it out, or write the one that is meant"
            }
            FaultKind::MissingKey => "a section or a key is missing: add it",
            FaultKind::BadValue => {
                "a value has a wrong type, or is none of the words of its key: write one of them"
            }
            FaultKind::TooMany => {
                "a section has more than 64 tables: leave out what no switch of the bay can reach"
            }
            FaultKind::DuplicateName => "two tables have one name: give each its own",
            FaultKind::UnknownName => {
                "a name is unknown: write that of a node, or of a switch or an input of the bay file"
            }
            FaultKind::BadSource => {
                "only a busbar, a line, a cable or a transformer may be a source, and only a source may have the keys `dead` and `system`: leave the keys out, or change the kind"
            }
            FaultKind::BadKeys => {
                "a switch of the bay has the keys `switch` and `nodes`, one of another bay `name`, `kind` and `nodes`, and only a breaker of the bay `synchro` and `coupler`: leave the others out"
            }
            FaultKind::BadNodes => {
                "a switch leads to two nodes, an earthing switch to a node and to an earth, and no other switch to an earth: change its nodes or its kind"
            }
            FaultKind::Incomplete => {
                "a switch of the bay, a switch at a node, or a source is missing: add it"
            }
            FaultKind::OutOfMemory => "out of memory",
        }
    }
}

/// The first fault of a text that is no diagram of a bay.
#[derive(Clone, Copy, Debug)]
pub struct DiagramFault {
    pub kind: FaultKind,
    pub place: Place,
}

impl From<AllocError> for DiagramFault {
    ghost from_gives = { λ _ e. e ≡ out_of_memory };

    fn from(_e: AllocError) -> DiagramFault {
        DiagramFault {
            kind: FaultKind::OutOfMemory,
            place: Place::File,
        }
    }
}

impl<T: Drop> From<AllocFailed<T>> for DiagramFault {
    ghost from_gives = { λ _ e. e ≡ out_of_memory };

    fn from(_e: AllocFailed<T>) -> DiagramFault {
        DiagramFault {
            kind: FaultKind::OutOfMemory,
            place: Place::File,
        }
    }
}
