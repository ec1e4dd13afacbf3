// A program as it is read, line by line.
ghost use Rattle.std.specs.Prelude.{◌≡◌, ◌≢◌, List, ◌∷◌, map, reverse, option_and_then, Some, None, Ok, Err, OnOk, IfErr};
ghost use Rattle.il_text.specs.Forms.{declared_names};
ghost use Rattle.il_text.specs.FormViews.{line_parts, opened_parts, statement_parts};
ghost use Rattle.il_text.specs.Grammar as grammar;
ghost use Rattle.il_text.specs.ListingViews.{parenthesis_of, draft_data, progress_of};
ghost use Rattle.il_text.specs.Parts.{LineContent, program_start, block_start, block_end, label_part, action_part, parenthesis_start, parenthesis_end, program_end};
ghost use Rattle.il_text.specs.Reading as spec;
ghost use Rattle.il_text.specs.Steps as rules;
ghost use Rattle.il_text.specs.Steps.{step, steps};
ghost use Rattle.il_text.specs.TokenViews.{symbols_of};
ghost use Rattle.il_text.specs.Views.{action_of, entry_of};
ghost use Rattle.il_text.specs.declared.fault.TextFault.TheVariants.{BadLine, OutOfMemory};

use crate::declaring::{Declaring, declare};
use crate::fault::TextFault;
use crate::form::{Line, Statement, Tail, line_of};
use crate::program::{Declaration, Instruction, Item, Literal, Operand, Operator, VariableScope};
use crate::token::Token;
use std::alloc::Global;
use std::mem;

// The maximum number of lines that hold an instruction or `)`.
const MAX_INSTRUCTIONS: usize = 4_000;

// The maximum number of open parentheses.
const MAX_OPEN: usize = 16;

/// The stage of the program that the lines so far have reached.
#[derive(Clone, Copy)]
pub enum Stage {
    /// Before the PROGRAM line.
    Start,
    /// Between declaration blocks.
    Declarations,
    /// In a declaration block.
    Block(VariableScope),
    /// After the first line of the body.
    Body,
    /// After END_PROGRAM.
    Finished,
}

/// An open parenthesis: its operator with its line, and the items before it.
#[derive(Drop)]
pub(crate) struct Open<'a> {
    pub(crate) line: usize,
    pub(crate) operator: Operator,
    pub(crate) negated: bool,
    pub(crate) outer: Vec<Item<'a>>,
}

/// What has been read of a program so far, and the stage of the next line.
#[derive(Drop)]
pub(crate) struct Draft<'a> {
    pub(crate) alloc: Global,
    pub(crate) stage: Stage,
    /// The number of lines so far that hold an instruction or `)`.
    pub(crate) instructions: usize,
    pub(crate) name: &'a str,
    pub(crate) declarations: Vec<Declaration<'a>>,
    /// The items of the innermost open parenthesis, or of the body.
    pub(crate) items: Vec<Item<'a>>,
    /// The open parentheses, the innermost last.
    pub(crate) parentheses: Vec<Open<'a>>,
}

/// The number of a line, and the number of the last line of the text.
#[derive(Clone, Copy)]
pub(crate) struct Position {
    pub(crate) line: usize,
    pub(crate) last: usize,
}

// Returns whether an instruction may be in a parenthesis: any but a jump, a return or a call.
fn is_plain(instruction: Instruction<'_>) -> bool
    ensures { result ≡ grammar.is_plain (action_of instruction.entry) }
{
    match instruction {
        Instruction::Load { .. }
        | Instruction::Store { .. }
        | Instruction::Combine { .. }
        | Instruction::Not
        | Instruction::Convert(_) => true,
        Instruction::Jump { .. } | Instruction::Return(_) | Instruction::Call { .. } => false,
    }
}

// Returns whether an instruction is LD or LDN, with which a parenthesis begins.
fn is_load(instruction: Instruction<'_>) -> bool
    ensures { result ≡ rules.is_load (action_of instruction.entry) }
{
    matches!(instruction, Instruction::Load { .. })
}

// Returns whether the PROGRAM line comes next.
fn is_start(stage: Stage) -> bool
    ensures { result ≡ rules.is_start stage }
{
    matches!(stage, Stage::Start)
}

// Returns whether a declaration block may begin here.
fn is_between_blocks(stage: Stage) -> bool
    ensures { result ≡ rules.is_between_blocks stage }
{
    matches!(stage, Stage::Declarations)
}

// Returns the scope of the open declaration block, or `None` if none is open.
fn block_scope(stage: Stage) -> Option<VariableScope>
    ensures { result ≡ rules.block_scope stage }
{
    match stage {
        Stage::Block(scope) => Some(scope),
        _ => None,
    }
}

// Returns whether a line of the body may come here, the first one or a later one.
fn is_body(stage: Stage) -> bool
    ensures { result ≡ rules.is_body stage }
{
    matches!(stage, Stage::Declarations | Stage::Body)
}

// Returns whether a variable of the scope may have this initial value: an external has none.
fn may_begin_with(scope: VariableScope, initial: Option<Literal>) -> bool
    ensures { result ≡ rules.may_begin_with scope initial }
{
    match (scope, initial) {
        (VariableScope::Local, _) | (VariableScope::External, None) => true,
        (VariableScope::External, Some(_)) => false,
    }
}

// Returns whether a line counts towards the line limit: it holds an instruction or `)`.
fn has_instruction(line: Line<'_, '_>) -> bool
    ensures { (ps : List LineContent) → line_parts line.entry ≡ Some ps
        → result ≡ spec.has_instruction ps }
{
    match line {
        Line::Labelled(_, _) | Line::Statement(_) | Line::Leaving => true,
        Line::Heading(_)
        | Line::Opening(_)
        | Line::Declaration { .. }
        | Line::Closing
        | Line::Label(_)
        | Line::Ending => false,
    }
}

// Returns the fault of a line past a limit. On the last line of the text it is a bad line, because
// the text also ends early there and that fault comes first.
fn past_limit(position: Position, fault: TextFault) -> TextFault
    ensures { result ≡ spec.past_limit position.line position.last fault }
{
    let line = position.line;
    if line == position.last {
        TextFault::BadLine { line }
    } else {
        fault
    }
}

impl<'a> Draft<'a> {
    /// Creates a draft of which no line has been read.
    pub(crate) fn new(alloc: Global) -> Self
        ensures { progress_of result ≡ spec.no_progress }
    {
        Draft {
            alloc,
            stage: Stage::Start,
            instructions: 0,
            name: "",
            declarations: Vec::new(alloc),
            items: Vec::new(alloc),
            parentheses: Vec::new(alloc),
        }
    }

    /// Reads one line. Returns the fault of the line, or `OutOfMemory` if an allocation fails.
    #[tactic(auto, using(crate::proofs::ListingLemmas::blank_line))]
    pub(crate) fn take_line(
        &mut self,
        tokens: &[Token<'a>],
        position: Position,
    ) -> Result<(), TextFault>
        ensures ok { OnOk result
            (spec.after_line position.line position.last (progress_of self.old)
            (symbols_of tokens.now)
            ≡ Ok (progress_of self.new)) }
        ensures refused { IfErr result
            (λ e. e ≢ OutOfMemory → spec.after_line position.line position.last
            (progress_of self.old)
            (symbols_of tokens.now) ≡ Err e) }
    {
        let line = position.line;
        if tokens.is_empty() {
            return Ok(());
        }
        let Some(form) = line_of(tokens) else {
            return Err(TextFault::BadLine { line });
        };
        self.take_form(form, line)?;
        if has_instruction(form) {
            self.count(position)?;
        }
        Ok(())
    }

    // Counts a line that holds an instruction or `)`.
    #[tactic(auto, using(crate::proofs::ListingLemmas::length_opened), unfolding(crate::specs::Reading::after_instruction))]
    fn count(&mut self, position: Position) -> Result<(), TextFault>
        ensures ok { OnOk result
            (spec.after_instruction position.line position.last self.old.instructions
            (draft_data self.old)
            ≡ Ok (progress_of self.new)) }
        ensures refused { IfErr result
            (λ e. spec.after_instruction position.line position.last self.old.instructions
            (draft_data self.old) ≡ Err e) }
    {
        let line = position.line;
        if self.parentheses.len() > MAX_OPEN {
            return Err(past_limit(position, TextFault::TooDeep { line }));
        }
        if self.instructions >= MAX_INSTRUCTIONS {
            return Err(past_limit(position, TextFault::TooLong { line }));
        }
        self.instructions += 1;
        Ok(())
    }

    // Reads the parts of a line, given by its form.
    #[tactic(auto, using(crate::proofs::ListingLemmas::steps_rules))]
    fn take_form(&mut self, form: Line<'_, 'a>, line: usize) -> Result<(), TextFault>
        ensures ok { OnOk result
            (option_and_then (steps line (draft_data self.old)) (line_parts form.entry)
            ≡ Some (draft_data self.new)) }
        ensures count { OnOk result (self.new.instructions ≡ self.old.instructions) }
        ensures bad { IfErr result (λ e. e ≢ OutOfMemory → e ≡ BadLine line) }
        ensures none { IfErr result
            (λ e. e ≢ OutOfMemory → option_and_then (steps line (draft_data self.old))
            (line_parts form.entry) ≡ None) }
    {
        match form {
            Line::Heading(name) => self.take_program_start(name, line),
            Line::Opening(scope) => self.take_block_start(scope, line),
            Line::Declaration { names, tail } => self.take_declaration(names, tail, line),
            Line::Closing => self.take_block_end(line),
            Line::Label(name) => self.take_label(name, line),
            Line::Labelled(name, statement) => self.take_labelled(name, statement, line),
            Line::Statement(statement) => self.take_statement(statement, line),
            Line::Leaving => self.take_parenthesis_end(line),
            Line::Ending => self.take_program_end(line),
        }
    }

    // Returns whether a line of the body may come here, outside parentheses.
    #[tactic(auto, unfolding(crate::specs::Steps::may_follow))]
    fn may_follow(&self) -> bool
        ensures { result ≡ rules.may_follow (draft_data self.now) }
    {
        is_body(self.stage) && is_outside(self.parentheses.as_slice())
    }

    // Returns whether an instruction may come here. In a parenthesis the first instruction is a
    // load, and none leaves the program.
    #[tactic(auto, unfolding(crate::specs::Steps::may_have_instruction))]
    fn may_have_instruction(&self, instruction: Instruction<'a>) -> bool
        ensures { result ≡ rules.may_have_instruction (draft_data self.now)
            (action_of instruction.entry) }
    {
        let inside = is_plain(instruction)
            && (has_items(self.items.as_slice()) || is_load(instruction));
        is_body(self.stage) && (is_outside(self.parentheses.as_slice()) || inside)
    }

    // Returns whether a parenthesis may open here.
    #[tactic(auto, unfolding(crate::specs::Steps::may_enter))]
    fn may_enter(&self) -> bool
        ensures { result ≡ rules.may_enter (draft_data self.now) }
    {
        is_body(self.stage)
            && (is_outside(self.parentheses.as_slice()) || has_items(self.items.as_slice()))
    }

    // Returns whether the innermost parenthesis may close here.
    #[tactic(auto, unfolding(crate::specs::Steps::may_leave))]
    fn may_leave(&self) -> bool
        ensures { result ≡ rules.may_leave (draft_data self.now) }
    {
        is_body(self.stage) && has_items(self.items.as_slice())
    }

    // Reads the PROGRAM line.
    #[tactic(auto, unfolding(crate::specs::Steps::step))]
    fn take_program_start(&mut self, name: &'a str, line: usize) -> Result<(), TextFault>
        ensures ok { OnOk result
            (step line (draft_data self.old) (program_start name.now) ≡ Some (draft_data self.new)) }
        ensures count { OnOk result (self.new.instructions ≡ self.old.instructions) }
        ensures bad { IfErr result (λ e. e ≡ BadLine line) }
        ensures none { IfErr result
            (λ e. step line (draft_data self.old) (program_start name.now) ≡ None) }
    {
        if !is_start(self.stage) {
            return Err(TextFault::BadLine { line });
        }
        self.name = name;
        self.stage = Stage::Declarations;
        Ok(())
    }

    // Reads VAR or VAR_EXTERNAL.
    #[tactic(auto, unfolding(crate::specs::Steps::step))]
    fn take_block_start(&mut self, scope: VariableScope, line: usize) -> Result<(), TextFault>
        ensures ok { OnOk result
            (step line (draft_data self.old) (block_start scope) ≡ Some (draft_data self.new)) }
        ensures count { OnOk result (self.new.instructions ≡ self.old.instructions) }
        ensures bad { IfErr result (λ e. e ≡ BadLine line) }
        ensures none { IfErr result
            (λ e. step line (draft_data self.old) (block_start scope) ≡ None) }
    {
        if !is_between_blocks(self.stage) {
            return Err(TextFault::BadLine { line });
        }
        self.stage = Stage::Block(scope);
        Ok(())
    }

    // Reads END_VAR.
    #[tactic(auto, unfolding(crate::specs::Steps::step))]
    fn take_block_end(&mut self, line: usize) -> Result<(), TextFault>
        ensures ok { OnOk result
            (step line (draft_data self.old) block_end ≡ Some (draft_data self.new)) }
        ensures count { OnOk result (self.new.instructions ≡ self.old.instructions) }
        ensures bad { IfErr result (λ e. e ≡ BadLine line) }
        ensures none { IfErr result (λ e. step line (draft_data self.old) block_end ≡ None) }
    {
        let Some(_) = block_scope(self.stage) else {
            return Err(TextFault::BadLine { line });
        };
        self.stage = Stage::Declarations;
        Ok(())
    }

    // Reads a declaration, and checks its names.
    fn take_declaration(
        &mut self,
        names: &[Token<'a>],
        tail: Tail,
        line: usize,
    ) -> Result<(), TextFault>
        ensures ok { OnOk result
            (option_and_then (steps line (draft_data self.old))
            (declared_names tail (symbols_of names.now)) ≡ Some (draft_data self.new)) }
        ensures count { OnOk result (self.new.instructions ≡ self.old.instructions) }
        ensures bad { IfErr result (λ e. e ≢ OutOfMemory → e ≡ BadLine line) }
        ensures none { IfErr result
            (λ e. e ≢ OutOfMemory → option_and_then (steps line (draft_data self.old))
            (declared_names tail (symbols_of names.now)) ≡ None) }
    {
        let Some(scope) = block_scope(self.stage) else {
            return Err(TextFault::BadLine { line });
        };
        if !may_begin_with(scope, tail.initial) {
            return Err(TextFault::BadLine { line });
        }
        let declaring = Declaring { line, scope, tail };
        declare(&mut self.declarations, names, declaring)?;
        Ok(())
    }

    // Reads a label.
    #[tactic(auto, unfolding(crate::specs::Steps::step))]
    fn take_label(&mut self, name: &'a str, line: usize) -> Result<(), TextFault>
        ensures ok { OnOk result
            (step line (draft_data self.old) (label_part name.now) ≡ Some (draft_data self.new)) }
        ensures count { OnOk result (self.new.instructions ≡ self.old.instructions) }
        ensures bad { IfErr result (λ e. e ≢ OutOfMemory → e ≡ BadLine line) }
        ensures none { IfErr result
            (λ e. e ≢ OutOfMemory → step line (draft_data self.old) (label_part name.now) ≡ None) }
    {
        if !self.may_follow() {
            return Err(TextFault::BadLine { line });
        }
        self.items.push(Item::Label { line, name })?;
        self.stage = Stage::Body;
        Ok(())
    }

    // Reads an instruction. The first one in a parenthesis is a load, and none in it leaves the
    // parenthesis.
    #[tactic(auto, unfolding(crate::specs::Steps::step))]
    fn take_instruction(
        &mut self,
        instruction: Instruction<'a>,
        line: usize,
    ) -> Result<(), TextFault>
        ensures ok { OnOk result
            (step line (draft_data self.old) (action_part (action_of instruction.entry))
            ≡ Some (draft_data self.new)) }
        ensures count { OnOk result (self.new.instructions ≡ self.old.instructions) }
        ensures bad { IfErr result (λ e. e ≢ OutOfMemory → e ≡ BadLine line) }
        ensures none { IfErr result
            (λ e. e ≢ OutOfMemory → step line (draft_data self.old)
            (action_part (action_of instruction.entry)) ≡ None) }
    {
        if !self.may_have_instruction(instruction) {
            return Err(TextFault::BadLine { line });
        }
        self.items.push(Item::Instruction { line, instruction })?;
        self.stage = Stage::Body;
        Ok(())
    }

    // Reads an operator with `(`.
    #[tactic(auto, unfolding(crate::specs::Steps::step))]
    fn take_parenthesis_start(
        &mut self,
        operator: Operator,
        negated: bool,
        line: usize,
    ) -> Result<(), TextFault>
        ensures ok { OnOk result
            (step line (draft_data self.old) (parenthesis_start operator negated)
            ≡ Some (draft_data self.new)) }
        ensures count { OnOk result (self.new.instructions ≡ self.old.instructions) }
        ensures bad { IfErr result (λ e. e ≢ OutOfMemory → e ≡ BadLine line) }
        ensures none { IfErr result
            (λ e. e ≢ OutOfMemory → step line (draft_data self.old)
            (parenthesis_start operator negated)
            ≡ None) }
    {
        if !self.may_enter() {
            return Err(TextFault::BadLine { line });
        }
        let outer = mem::replace(&mut self.items, Vec::new(self.alloc));
        self.parentheses.push(Open {
            line,
            operator,
            negated,
            outer,
        })?;
        self.stage = Stage::Body;
        Ok(())
    }

    // Reads a `)`. The parenthesis must not be empty.
    #[tactic(auto, unfolding(crate::specs::Steps::step))]
    fn take_parenthesis_end(&mut self, line: usize) -> Result<(), TextFault>
        ensures ok { OnOk result
            (step line (draft_data self.old) parenthesis_end ≡ Some (draft_data self.new)) }
        ensures count { OnOk result (self.new.instructions ≡ self.old.instructions) }
        ensures bad { IfErr result (λ e. e ≢ OutOfMemory → e ≡ BadLine line) }
        ensures none { IfErr result
            (λ e. e ≢ OutOfMemory → step line (draft_data self.old) parenthesis_end ≡ None) }
    {
        if !self.may_leave() {
            return Err(TextFault::BadLine { line });
        }
        let Some(opened) = self.parentheses.pop() else {
            return Err(TextFault::BadLine { line });
        };
        let Open {
            line: begin,
            operator,
            negated,
            outer,
        } = opened;
        let items = mem::replace(&mut self.items, outer);
        self.items.push(Item::Block {
            line: begin,
            operator,
            negated,
            items,
            end: line,
        })?;
        self.stage = Stage::Body;
        Ok(())
    }

    // Reads END_PROGRAM.
    #[tactic(auto, unfolding(crate::specs::Steps::step))]
    fn take_program_end(&mut self, line: usize) -> Result<(), TextFault>
        ensures ok { OnOk result
            (step line (draft_data self.old) program_end ≡ Some (draft_data self.new)) }
        ensures count { OnOk result (self.new.instructions ≡ self.old.instructions) }
        ensures bad { IfErr result (λ e. e ≡ BadLine line) }
        ensures none { IfErr result (λ e. step line (draft_data self.old) program_end ≡ None) }
    {
        if !self.may_follow() {
            return Err(TextFault::BadLine { line });
        }
        self.stage = Stage::Finished;
        Ok(())
    }

    // Reads an instruction, or an operator with `(` and its operand.
    #[tactic(auto, using(crate::proofs::ListingLemmas::steps_rules))]
    fn take_statement(&mut self, statement: Statement<'a>, line: usize) -> Result<(), TextFault>
        ensures ok { OnOk result
            (steps line (draft_data self.old) (statement_parts statement.entry)
            ≡ Some (draft_data self.new)) }
        ensures count { OnOk result (self.new.instructions ≡ self.old.instructions) }
        ensures bad { IfErr result (λ e. e ≢ OutOfMemory → e ≡ BadLine line) }
        ensures none { IfErr result
            (λ e. e ≢ OutOfMemory → steps line (draft_data self.old)
            (statement_parts statement.entry) ≡ None) }
    {
        match statement {
            Statement::Plain(instruction) => self.take_instruction(instruction, line),
            Statement::Open {
                operator,
                negated,
                operand: None,
            } => self.take_parenthesis_start(operator, negated, line),
            Statement::Open {
                operator,
                negated,
                operand: Some(operand),
            } => self.take_parenthesis_load(operator, negated, operand, line),
        }
    }

    // Reads an operator with `(` and the operand after it.
    #[tactic(auto, using(crate::proofs::ListingLemmas::steps_rules))]
    fn take_parenthesis_load(
        &mut self,
        operator: Operator,
        negated: bool,
        operand: Operand<'a>,
        line: usize,
    ) -> Result<(), TextFault>
        ensures ok { OnOk result
            (steps line (draft_data self.old) (opened_parts operator negated (Some operand.entry))
            ≡ Some (draft_data self.new)) }
        ensures count { OnOk result (self.new.instructions ≡ self.old.instructions) }
        ensures bad { IfErr result (λ e. e ≢ OutOfMemory → e ≡ BadLine line) }
        ensures none { IfErr result
            (λ e. e ≢ OutOfMemory → steps line (draft_data self.old)
            (opened_parts operator negated (Some operand.entry)) ≡ None) }
    {
        self.take_parenthesis_start(operator, negated, line)?;
        let load = Instruction::Load {
            negated: false,
            operand,
        };
        self.take_instruction(load, line)?;
        Ok(())
    }

    // Reads a label and the instruction after it.
    #[tactic(auto, using(crate::proofs::ListingLemmas::steps_rules))]
    fn take_labelled(
        &mut self,
        name: &'a str,
        statement: Statement<'a>,
        line: usize,
    ) -> Result<(), TextFault>
        ensures ok { OnOk result
            (steps line (draft_data self.old)
            (label_part name.now ∷ statement_parts statement.entry)
            ≡ Some (draft_data self.new)) }
        ensures count { OnOk result (self.new.instructions ≡ self.old.instructions) }
        ensures bad { IfErr result (λ e. e ≢ OutOfMemory → e ≡ BadLine line) }
        ensures none { IfErr result
            (λ e. e ≢ OutOfMemory → steps line (draft_data self.old)
            (label_part name.now ∷ statement_parts statement.entry) ≡ None) }
    {
        self.take_label(name, line)?;
        self.take_statement(statement, line)?;
        Ok(())
    }
}

// Returns whether no parenthesis is open.
#[tactic(auto, using(crate::proofs::ListingLemmas::outside_rules))]
fn is_outside(parentheses: &[Open<'_>]) -> bool
    ensures { result ≡ rules.is_outside (reverse (map parenthesis_of parentheses.now)) }
{
    parentheses.is_empty()
}

// Returns whether there are any items.
#[tactic(auto, using(crate::proofs::ListingLemmas::some_rules))]
fn has_items(items: &[Item<'_>]) -> bool
    ensures { result ≡ rules.has_entries (map entry_of items.now) }
{
    !items.is_empty()
}
