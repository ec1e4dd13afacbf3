// The instructions of operands, operators, operations, parentheses and calls.
ghost use Rattle.std.specs.Prelude.{◌≡◌, ◌<◌, ◌^◌, [], ◌∷◌, ◌++◌, OnOk};
ghost use Rattle.il_image.specs.Images.{Each};
ghost use Rattle.il_image.specs.Spelling.{IsInstr};
ghost use Rattle.il_check.specs.ProgramViews.{entry_view};
ghost use Rattle.il_compile.specs.Continuation.{IsSpellableEntry};
ghost use Rattle.il_compile.specs.Code as spec;
ghost use Rattle.il_compile.specs.OperatorClasses as senses;

use bay_base::types::ElementaryType;
use il_check::typed::{
    SimpleOperation, Slot, TypedArgument, TypedArguments, TypedEntry, TypedOperand,
};
use il_image::arithmetic::{ArithmeticOperation, Comparison, Width};
use il_image::instr::Instr;
use il_image::opcode::{Connective, SlotUse, TimerUse, When, Widening};
use il_image::value::Value;
use il_text::program::{Condition, Conversion, Input, Operator, StoreKind, TimerOutput};
use std::alloc::AllocError;

// Returns the number of a slot: the externals come first, then the variables.
fn slot_number(externals: usize, slot: Slot) -> u16
    requires { spec.slot_number externals slot < 2 ^ 16 }
    ensures { result ≡ spec.slot_number externals slot }
{
    match slot {
        Slot::External(n) => n as u16,
        Slot::Variable(n) => (externals + n) as u16,
    }
}

// Returns the instruction that pushes an operand.
fn push_operand(externals: usize, operand: TypedOperand) -> Instr
    requires { IsInstr (spec.push_operand externals operand) }
    ensures { result ≡ spec.push_operand externals operand }
{
    match operand {
        TypedOperand::Literal(value) => Instr::Push(value),
        TypedOperand::Slot(slot) => Instr::Slot(SlotUse::Load, slot_number(externals, slot)),
        TypedOperand::TimerOutput { timer, output } => match output {
            TimerOutput::Q => Instr::Timer(TimerUse::LoadOutput, timer as u16),
            TimerOutput::Et => Instr::Timer(TimerUse::LoadElapsed, timer as u16),
        },
    }
}

// Returns the width of an operation on numbers of a type.
fn width_of(kind: ElementaryType) -> Width
    ensures { result ≡ spec.width_of kind }
{
    match kind {
        ElementaryType::Dint => Width::Dint,
        ElementaryType::Lint => Width::Lint,
        _ => Width::Int,
    }
}

// Returns the instruction of an operator on two values of a type.
fn operator_instr(operator: Operator, kind: ElementaryType) -> Instr
    ensures { result ≡ spec.class_instr (senses.class_of operator) kind }
{
    match operator {
        Operator::And => Instr::Combine(Connective::And),
        Operator::Or => Instr::Combine(Connective::Or),
        Operator::Xor => Instr::Combine(Connective::Xor),
        Operator::Add => Instr::Compute(ArithmeticOperation::Add, width_of(kind)),
        Operator::Sub => Instr::Compute(ArithmeticOperation::Sub, width_of(kind)),
        Operator::Mul => Instr::Compute(ArithmeticOperation::Mul, width_of(kind)),
        Operator::Div => Instr::Compute(ArithmeticOperation::Div, width_of(kind)),
        Operator::Mod => Instr::Compute(ArithmeticOperation::Mod, width_of(kind)),
        Operator::Gt => Instr::Compare(Comparison::Gt),
        Operator::Ge => Instr::Compare(Comparison::Ge),
        Operator::Eq => Instr::Compare(Comparison::Eq),
        Operator::Ne => Instr::Compare(Comparison::Ne),
        Operator::Le => Instr::Compare(Comparison::Le),
        Operator::Lt => Instr::Compare(Comparison::Lt),
    }
}

// Returns the machine's conversion for one of Instruction List.
fn widening_of(conversion: Conversion) -> Widening
    ensures { result ≡ senses.widening_of conversion }
{
    match conversion {
        Conversion::IntToDint => Widening::IntToDint,
        Conversion::DintToLint => Widening::DintToLint,
    }
}

/// Returns when a jump is taken.
pub(crate) fn when_of(condition: Condition) -> When
    ensures { result ≡ senses.when_of condition }
{
    match condition {
        Condition::Always => When::Always,
        Condition::IfTrue => When::IfTrue,
        Condition::IfFalse => When::IfFalse,
    }
}

// Returns the use of a timer that pops an input.
fn input_use(input: Input) -> TimerUse
    ensures { result ≡ spec.input_use input }
{
    match input {
        Input::In => TimerUse::SetInput,
        Input::Pt => TimerUse::SetPreset,
    }
}

/// Appends an instruction.
pub(crate) fn put(code: &mut Vec<Instr>, instr: Instr) -> Result<(), AllocError>
    ensures { OnOk result (code.new.items ≡ code.old.items ++ instr ∷ []) }
{
    code.push(instr)?;
    Ok(())
}

// Appends a NOT if the operand is negated.
fn put_negation(code: &mut Vec<Instr>, negated: bool) -> Result<(), AllocError>
    ensures { OnOk result (code.new.items ≡ code.old.items ++ spec.negation_code negated) }
{
    if negated {
        put(code, Instr::Not)?;
    }
    Ok(())
}

// Appends what follows an operand or a parenthesis: a NOT if it is negated, and the operator.
fn put_operator(
    code: &mut Vec<Instr>,
    operator: Operator,
    kind: ElementaryType,
    negated: bool,
) -> Result<(), AllocError>
    ensures { OnOk result (code.new.items
        ≡ code.old.items ++ spec.operator_code operator kind negated) }
{
    put_negation(code, negated)?;
    put(code, operator_instr(operator, kind))
}

// Appends a store of the result, which stays on the stack.
fn put_store(code: &mut Vec<Instr>, kind: StoreKind, slot: u16) -> Result<(), AllocError>
    ensures { OnOk result (code.new.items ≡ code.old.items ++ spec.store_code kind slot) }
{
    match kind {
        StoreKind::Plain => put(code, Instr::Slot(SlotUse::Store, slot)),
        StoreKind::Negated => {
            put(code, Instr::Not)?;
            put(code, Instr::Slot(SlotUse::Store, slot))?;
            put(code, Instr::Not)
        }
        StoreKind::Set => put(code, Instr::Slot(SlotUse::SetIf, slot)),
        StoreKind::Reset => put(code, Instr::Slot(SlotUse::ResetIf, slot)),
    }
}

// Appends the instructions of an operation.
fn put_operation(
    code: &mut Vec<Instr>,
    externals: usize,
    operation: SimpleOperation,
) -> Result<(), AllocError>
    requires { Each IsInstr (spec.operation_code externals operation) }
    ensures { OnOk result (code.new.items
        ≡ code.old.items ++ spec.operation_code externals operation) }
{
    match operation {
        SimpleOperation::Load { negated, operand } => {
            put(code, Instr::Drop)?;
            put(code, push_operand(externals, operand))?;
            put_negation(code, negated)
        }
        SimpleOperation::Store { kind, slot } => put_store(
            code,
            kind,
            slot_number(externals, slot),
        ),
        SimpleOperation::Combine {
            operator,
            kind,
            negated,
            operand,
        } => {
            put(code, push_operand(externals, operand))?;
            put_operator(code, operator, kind, negated)
        }
        SimpleOperation::Not => put(code, Instr::Not),
        SimpleOperation::Convert(conversion) => put(code, Instr::Widen(widening_of(conversion))),
    }
}

/// Appends an operation or a parenthesis. A parenthesis begins with a cell for a result that is not
/// set.
pub(crate) fn put_entry(
    code: &mut Vec<Instr>,
    externals: usize,
    entry: &TypedEntry,
) -> Result<(), AllocError>
    requires { IsSpellableEntry externals (entry_view entry.now) }
    ensures { OnOk result (code.new.items
        ≡ code.old.items ++ spec.entry_code externals (entry_view entry.now)) }
{
    match entry {
        TypedEntry::Operation(operation) => put_operation(code, externals, *operation),
        TypedEntry::Block {
            operator,
            kind,
            negated,
            entries,
        } => {
            put(code, Instr::Push(Value::Truth(false)))?;
            for inner in entries {
                put_entry(code, externals, inner)?;
            }
            put_operator(code, *operator, *kind, *negated)
        }
    }
}

// Appends an argument of a call: its operand, and its input.
fn put_argument(
    code: &mut Vec<Instr>,
    externals: usize,
    timer: u16,
    argument: TypedArgument,
) -> Result<(), AllocError>
    requires { Each IsInstr (spec.argument_code externals timer argument) }
    ensures { OnOk result (code.new.items
        ≡ code.old.items ++ spec.argument_code externals timer argument) }
{
    put(code, push_operand(externals, argument.operand))?;
    put(code, Instr::Timer(input_use(argument.input), timer))
}

/// Appends a call: the arguments in the order of the text, then the run of the timer.
pub(crate) fn put_call(
    code: &mut Vec<Instr>,
    externals: usize,
    timer: u16,
    arguments: TypedArguments,
) -> Result<(), AllocError>
    requires { Each IsInstr (spec.arguments_code externals timer arguments) }
    ensures { OnOk result (code.new.items
        ≡ code.old.items ++ (spec.arguments_code externals timer arguments
        ++ Instr.Timer TimerUse.Run timer ∷ [])) }
{
    match arguments {
        TypedArguments::None => {}
        TypedArguments::One(argument) => put_argument(code, externals, timer, argument)?,
        TypedArguments::Two(first, second) => {
            put_argument(code, externals, timer, first)?;
            put_argument(code, externals, timer, second)?;
        }
    }
    put(code, Instr::Timer(TimerUse::Run, timer))
}
