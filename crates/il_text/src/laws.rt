// Laws of the definitions. Each function does nothing, and its contract is the law.
ghost use Rattle.il_text.specs.DurationGrammar.{DurationsAreRead};
ghost use Rattle.il_text.specs.Forms.{LinesAreProduced};
ghost use Rattle.il_text.specs.Grammar.{OneProgram};
ghost use Rattle.il_text.specs.LetterCase.{LettersMayBeRespelled};
ghost use Rattle.il_text.specs.Respelling.{BlanksMayBeRespelled, LineEndsMayBeRespelled};
ghost use Rattle.il_text.specs.Texts.{OneReading, ProgramIsRead};

/// At most one program is derived from the parts of the lines (IEC 61131-3:2003, 2.5.3 and annex
/// B).
pub fn one_program_is_derived()
    ensures { OneProgram }
{}

/// Reading a line of tokens returns the parts that the line spells by its grammar, and none if it
/// spells none (IEC 61131-3:2003, annexes B.1.4.3, B.1.5.3 and B.2).
pub fn lines_are_produced()
    ensures { LinesAreProduced }
{}

/// A text has at most one reading: one program or one fault.
pub fn one_reading()
    ensures { OneReading }
{}

/// The reader's line-by-line definition and the grammar agree on every text: the definition results
/// in a program exactly if the text reads as that program, and in a fault exactly if the text has
/// that fault.
pub fn program_is_read()
    ensures { ProgramIsRead }
{}

/// Blanks and whole comments between two parts of a line may be replaced by other blanks and
/// comments: the text has the same program or the same fault (IEC 61131-3:2003, 2.1.4 and 2.1.5).
pub fn blanks_may_be_respelled()
    ensures { BlanksMayBeRespelled }
{}

/// A line may end in CR LF instead of LF, outside of comments: the text reads the same.
pub fn line_ends_may_be_respelled()
    ensures { LineEndsMayBeRespelled }
{}

/// Letters may be written in either case: a text in upper case reads as the original does, with its
/// names in upper case, and has the same fault (IEC 61131-3:2003, 2.1.1).
pub fn letters_may_be_respelled()
    ensures { LettersMayBeRespelled }
{}

/// A duration is a sequence of numbers with units in descending order, and its milliseconds are
/// their sum; anything spelled otherwise is not a duration (IEC 61131-3:2003, 2.2.3.1 and annex
/// B.1.2.3.1).
pub fn durations_are_read()
    ensures { DurationsAreRead }
{}
