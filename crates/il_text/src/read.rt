// Reads a program from a text.
ghost use Rattle.std.specs.Prelude.{◌≡◌, ◌≢◌, ◌<◌, ◌≤◌, ◌+◌, true, false, drop, length, Ok, Err, OnOk, IfOk, IfErr, IsErrOf};
ghost use Rattle.il_text.specs.Grammar.{rises, item_lines};
ghost use Rattle.il_text.specs.ListingViews.{draft_data};
ghost use Rattle.il_text.specs.Lexemes.{opens_comment as starts_comment};
ghost use Rattle.il_text.specs.Reading.{draft_program, program_of};
ghost use Rattle.il_text.specs.Texts.{ReadsAs};
ghost use Rattle.il_text.specs.Views.{plain_program};
ghost use Rattle.il_text.specs.declared.fault.TextFault.TheVariants.{OutOfMemory};
ghost use Rattle.il_text.specs.Places.{last_line};

use crate::fault::TextFault;
use crate::form::begins_no_line;
use crate::lexeme::{Lexeme, lexeme_at};
use crate::lexeme_end::{ends_comment, ends_later, lexeme_end, opens_comment};
use crate::listing::{Draft, Position, Stage};
use crate::program::Program;
use crate::token::Token;
use std::alloc::Global;

// A text, how far it has been read, and the program so far.
#[derive(Drop)]
struct Reader<'a> {
    text: &'a str,
    at: usize,
    line: usize,
    last: usize,
    in_comment: bool,
    /// The tokens of the line so far. No more are stored once no line begins with them.
    tokens: Vec<Token<'a>>,
    listing: Draft<'a>,
    ghost within: { at ≤ length text.now },
    ghost line_within: { line ≤ at + 1 },
}

/// Reads a program in Instruction List (IEC 61131-3:2003, 3.2 and annex B.2.1), or returns the
/// fault of the first faulty line. Within a line the order is: the leftmost bad token or bad
/// literal, a bad line, parentheses too deep, too many lines. A text that ends early is a bad line
/// at its last line. Returns `OutOfMemory` if an allocation fails; an empty text needs none. The
/// line numbers of the items never decrease.
pub fn read_program<'a>(alloc: Global, text: &'a str) -> Result<Program<'a>, TextFault>
    ensures ok { IfOk result (λ program. ReadsAs text.now (Ok (plain_program program))) }
    ensures refused { IfErr result (λ fault. fault ≢ OutOfMemory → ReadsAs text.now (Err fault)) }
    ensures lines { IfOk result
        (λ program. rises 0 (item_lines (plain_program program).items) ≡ true) }
    ensures memory { IsErrOf result OutOfMemory → 0 < length text.now }
{
    if text.is_empty() {
        return Err(TextFault::BadLine { line: 1 });
    }
    let program = read_lines(alloc, text)?;
    Ok(program)
}

// Reads the lines of a text from the first to the last.
fn read_lines<'a>(alloc: Global, text: &'a str) -> Result<Program<'a>, TextFault>
    ensures ok { IfOk result (λ program. program_of text.now ≡ Ok (plain_program program)) }
    ensures refused { IfErr result
        (λ fault. fault ≢ OutOfMemory → program_of text.now ≡ Err fault) }
{
    let mut reader = Reader {
        text,
        at: 0,
        line: 1,
        last: last_line_of(text),
        in_comment: false,
        tokens: Vec::new(alloc),
        listing: Draft::new(alloc),
    };
    while reader.at < text.len() {
        reader.step()?;
    }
    reader.finish()?;
    let Reader {
        text: _,
        at: _,
        line: _,
        last: _,
        in_comment: _,
        tokens: _,
        listing,
    } = reader;
    let Draft {
        alloc: _,
        stage: _,
        instructions: _,
        name,
        declarations,
        items,
        parentheses: _,
    } = listing;
    Ok(Program {
        name,
        declarations,
        items,
    })
}

// Returns the number of the last line. What follows the last line end is a line only if it is not
// empty.
#[tactic(auto, using(crate::proofs::PlaceLemmas::line_rules))]
fn last_line_of(text: &str) -> usize
    ensures { result ≡ last_line text.now }
{
    let bytes = text.as_bytes();
    let mut line = 1;
    for i in 0..bytes.len() {
        if bytes[i] == b'\n' && i < bytes.len() - 1 {
            line += 1;
        }
    }
    line
}

impl<'a> Reader<'a> {
    ghost use Rattle.il_text.specs.ReaderViews.{result_from, result_at_line_end, result_at_text_end};

    // Reads one lexeme, or a step of a comment: its opening, one character or its closing.
    #[tactic(auto, using(crate::proofs::ReadLemmas::step_rules))]
    fn step(&mut self) -> Result<(), TextFault>
        requires { self.old.at < length self.old.text.now }
        ensures text { OnOk result (self.new.text.now ≡ self.old.text.now) }
        ensures progress { OnOk result (self.old.at < self.new.at) }
        ensures ok { OnOk result (result_from self.new ≡ result_from self.old) }
        ensures refused { IfErr result (λ e. e ≢ OutOfMemory → result_from self.old ≡ Err e) }
    {
        if self.in_comment {
            return self.comment_step();
        }
        if opens_comment(self.text.as_bytes(), self.at) {
            return self.open_comment();
        }
        self.piece_step()
    }

    // Reads one lexeme outside comments.
    #[tactic(auto, using(crate::proofs::ReadLemmas::piece_rules))]
    fn piece_step(&mut self) -> Result<(), TextFault>
        requires within { self.old.at < length self.old.text.now }
        requires outside { self.old.in_comment ≡ false }
        requires plain { starts_comment (drop self.old.at self.old.text.now) ≡ false }
        ensures text { OnOk result (self.new.text.now ≡ self.old.text.now) }
        ensures progress { OnOk result (self.old.at < self.new.at) }
        ensures ok { OnOk result (result_from self.new ≡ result_from self.old) }
        ensures refused { IfErr result (λ e. e ≢ OutOfMemory → result_from self.old ≡ Err e) }
    {
        let end = lexeme_end(self.text.as_bytes(), self.at);
        let lexeme = lexeme_at(self.text, self.at, end);
        self.at = end;
        match lexeme {
            Lexeme::Blank => Ok(()),
            Lexeme::LineEnd => self.end_line(),
            Lexeme::Token(token) => {
                if !begins_no_line(self.tokens.as_slice()) {
                    self.tokens.push(token)?;
                }
                Ok(())
            }
            Lexeme::BadToken => Err(TextFault::BadToken { line: self.line }),
            Lexeme::BadLiteral => Err(TextFault::BadLiteral { line: self.line }),
        }
    }

    // Reads the opening of a comment, which must be closed.
    #[tactic(auto, using(crate::proofs::ReadLemmas::opening_rules))]
    fn open_comment(&mut self) -> Result<(), TextFault>
        requires outside { self.old.in_comment ≡ false }
        requires opening { starts_comment (drop self.old.at self.old.text.now) ≡ true }
        ensures text { OnOk result (self.new.text.now ≡ self.old.text.now) }
        ensures progress { OnOk result (self.old.at < self.new.at) }
        ensures ok { OnOk result (result_from self.new ≡ result_from self.old) }
        ensures refused { IfErr result (λ e. e ≢ OutOfMemory → result_from self.old ≡ Err e) }
    {
        if !ends_later(self.text.as_bytes(), self.at + 2) {
            return Err(TextFault::BadToken { line: self.line });
        }
        self.at += 2;
        self.in_comment = true;
        Ok(())
    }

    // Reads one character of a comment, or its closing.
    #[tactic(auto, using(crate::proofs::ReadLemmas::comment_rules))]
    fn comment_step(&mut self) -> Result<(), TextFault>
        requires within { self.old.at < length self.old.text.now }
        requires inside { self.old.in_comment ≡ true }
        ensures text { OnOk result (self.new.text.now ≡ self.old.text.now) }
        ensures progress { OnOk result (self.old.at < self.new.at) }
        ensures ok { OnOk result (result_from self.new ≡ result_from self.old) }
        ensures refused { IfErr result (λ e. e ≢ OutOfMemory → result_from self.old ≡ Err e) }
    {
        if ends_comment(self.text.as_bytes(), self.at) {
            self.at += 2;
            self.in_comment = false;
            return Ok(());
        }
        let byte = self.text.as_bytes()[self.at];
        self.at += 1;
        if byte != b'\n' {
            return Ok(());
        }
        self.end_line()
    }

    // Reads the line that ends here.
    fn end_line(&mut self) -> Result<(), TextFault>
        requires { self.old.line ≤ self.old.at }
        ensures text { OnOk result (self.new.text.now ≡ self.old.text.now) }
        ensures stage { OnOk result (self.new.at ≡ self.old.at) }
        ensures ok { OnOk result (result_from self.new ≡ result_at_line_end self.old) }
        ensures refused { IfErr result
            (λ e. e ≢ OutOfMemory → result_at_line_end self.old ≡ Err e) }
    {
        let position = Position {
            line: self.line,
            last: self.last,
        };
        self.listing.take_line(self.tokens.as_slice(), position)?;
        self.tokens.clear();
        self.line += 1;
        Ok(())
    }

    // Reads the last line, after which the program must be complete.
    fn finish(&mut self) -> Result<(), TextFault>
        ensures ok { OnOk result
            (result_at_text_end self.old ≡ Ok (draft_program (draft_data self.new.listing))) }
        ensures refused { IfErr result
            (λ e. e ≢ OutOfMemory → result_at_text_end self.old ≡ Err e) }
    {
        let position = Position {
            line: self.line,
            last: self.last,
        };
        self.listing.take_line(self.tokens.as_slice(), position)?;
        match self.listing.stage {
            Stage::Finished => Ok(()),
            _ => Err(TextFault::BadLine { line: self.last }),
        }
    }
}
