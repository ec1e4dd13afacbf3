// Resolves the names of instructions.
ghost use Rattle.std.specs.Prelude.{◌≡◌, IfOk, OnOk, string_bytes, option_map};
ghost use Rattle.bay_base.specs.Names as base;
ghost use Rattle.il_text.specs.Views.{variable_data, operand_data, argument_of, arguments_of, action_of};
ghost use Rattle.il_text.specs.Listing as text;
ghost use Rattle.il_check.specs.SourceOperands as spec;
ghost use Rattle.il_check.specs.NamesView.{names_of};

use crate::names::ProgramNames;
use crate::source_operand::{
    CalledTimer, KnownOperand, Meaning, Resolved, SourceArgument, SourceArguments, SourceOperand,
};
use crate::typed::TypedOperand;
use bay_base::types::ElementaryType;
use il_image::value::Value;
use il_text::program::{
    Argument, Arguments, Instruction, Literal, Operand, SymbolicVariable, TimerOutput,
};
use std::alloc::AllocError;

/// Returns the value of a typed literal, or `None` if its number is outside its type. A TIME is at
/// most 2,147,483,647 ms.
pub(crate) fn typed_value(literal: Literal) -> Option<Value>
    ensures { result ≡ spec.typed_value literal }
{
    match literal {
        Literal::Truth(truth) => Some(Value::Truth(truth)),
        Literal::Number(_) => None,
        Literal::Int(number) => Value::of(ElementaryType::Int, i64::from(number)),
        Literal::Dint(number) => Value::of(ElementaryType::Dint, i64::from(number)),
        Literal::Lint(number) => Value::of(ElementaryType::Lint, number),
        Literal::Time(milliseconds) => Value::of(ElementaryType::Time, i64::from(milliseconds)),
    }
}

// Returns a literal's value as a read-only operand. A number outside its type is `Misused`.
fn known_operand(value: Option<Value>) -> SourceOperand
    ensures { result ≡ spec.source_operand value }
{
    match value {
        Some(value) => SourceOperand::Known(KnownOperand {
            operand: TypedOperand::Literal(value),
            kind: value.type_of(),
            writable: false,
        }),
        None => SourceOperand::Misused,
    }
}

// Returns an untyped number as an operand; it must be in the range of LINT.
fn number_operand(number: i64) -> SourceOperand
    ensures { result ≡ spec.number_operand number }
{
    if Value::of(ElementaryType::Lint, number).is_some() {
        SourceOperand::Number(number)
    } else {
        SourceOperand::Misused
    }
}

// Returns a literal as an operand.
fn literal_operand(literal: Literal) -> SourceOperand
    ensures { result ≡ spec.literal_operand literal }
{
    match literal {
        Literal::Number(number) => number_operand(number),
        _ => known_operand(typed_value(literal)),
    }
}

// Returns a name, by its meaning, as a variable.
fn resolve_variable(meaning: Option<Meaning>) -> SourceOperand
    ensures { result ≡ spec.resolve_variable meaning }
{
    match meaning {
        None => SourceOperand::Missing,
        Some(
            Meaning::Variable {
                slot,
                kind,
                writable,
            },
        ) => SourceOperand::Known(KnownOperand {
            operand: TypedOperand::Slot(slot),
            kind,
            writable,
        }),
        Some(Meaning::Timer(_)) => SourceOperand::Misused,
    }
}

// Returns the type of a timer's output.
fn output_type(output: TimerOutput) -> ElementaryType
    ensures { result ≡ spec.output_type output }
{
    match output {
        TimerOutput::Q => ElementaryType::Bool,
        TimerOutput::Et => ElementaryType::Time,
    }
}

// Returns the output of the timer of a name, by the meaning of the name.
fn resolve_output(meaning: Option<Meaning>, output: TimerOutput) -> SourceOperand
    ensures { result ≡ spec.resolve_output meaning output }
{
    match meaning {
        None => SourceOperand::Missing,
        Some(Meaning::Variable { .. }) => SourceOperand::Misused,
        Some(Meaning::Timer(timer)) => SourceOperand::Known(KnownOperand {
            operand: TypedOperand::TimerOutput { timer, output },
            kind: output_type(output),
            writable: false,
        }),
    }
}

// Returns whether a literal is neither 0 nor FALSE.
fn is_nonzero_literal(literal: Literal) -> bool
    ensures { result ≡ spec.is_nonzero_literal literal }
{
    match literal {
        Literal::Truth(truth) => truth,
        Literal::Number(number) => number != 0,
        Literal::Int(number) => number != 0,
        Literal::Dint(number) => number != 0,
        Literal::Lint(number) => number != 0,
        Literal::Time(milliseconds) => milliseconds != 0,
    }
}

// Returns whether an operand is a literal other than 0 and FALSE.
fn is_nonzero(operand: Operand<'_>) -> bool
    ensures { result ≡ spec.is_nonzero (operand_data operand.entry) }
{
    match operand {
        Operand::Literal(literal) => is_nonzero_literal(literal),
        Operand::Variable(_) => false,
    }
}

// Returns a name, by its meaning, as the timer of a call.
fn called_of(meaning: Option<Meaning>) -> CalledTimer
    ensures { result ≡ spec.called_of meaning }
{
    match meaning {
        None => CalledTimer::Missing,
        Some(Meaning::Variable { .. }) => CalledTimer::Misused,
        Some(Meaning::Timer(timer)) => CalledTimer::Timer(timer),
    }
}

impl ProgramNames {
    // Resolves a symbolic variable: a variable, or an output of a timer.
    fn resolve_symbolic_variable(
        &self,
        buffer: &mut String,
        variable: SymbolicVariable<'_>,
    ) -> Result<SourceOperand, AllocError>
        ensures { IfOk result (λ resolved. resolved
            ≡ spec.resolve_variable_or_output (names_of self.now) (variable_data variable.entry)) }
    {
        match variable {
            SymbolicVariable::Name(name) => Ok(resolve_variable(self.meaning(buffer, name)?)),
            SymbolicVariable::TimerOutput { timer, output } => {
                Ok(resolve_output(self.meaning(buffer, timer)?, output))
            }
        }
    }

    // Resolves an operand.
    fn resolve_operand(
        &self,
        buffer: &mut String,
        operand: Operand<'_>,
    ) -> Result<SourceOperand, AllocError>
        ensures { IfOk result (λ resolved. resolved
            ≡ spec.resolve_operand (names_of self.now) (operand_data operand.entry)) }
    {
        match operand {
            Operand::Literal(literal) => Ok(literal_operand(literal)),
            Operand::Variable(variable) => self.resolve_symbolic_variable(buffer, variable),
        }
    }

    // Resolves an argument of a call.
    fn resolve_argument(
        &self,
        buffer: &mut String,
        argument: Argument<'_>,
    ) -> Result<SourceArgument, AllocError>
        ensures { IfOk result (λ resolved. resolved
            ≡ spec.resolve_argument (names_of self.now) (argument_of argument.entry)) }
    {
        Ok(SourceArgument {
            input: argument.input,
            operand: self.resolve_operand(buffer, argument.operand)?,
        })
    }

    // Resolves the arguments of a call.
    fn resolve_arguments(
        &self,
        buffer: &mut String,
        arguments: Arguments<'_>,
    ) -> Result<SourceArguments, AllocError>
        ensures { IfOk result (λ resolved. resolved
            ≡ spec.resolve_arguments (names_of self.now) (arguments_of arguments.entry)) }
    {
        match arguments {
            Arguments::None => Ok(SourceArguments::None),
            Arguments::One(first) => Ok(SourceArguments::One(self.resolve_argument(
                buffer, first,
            )?)),
            Arguments::Two(first, second) => {
                let first = self.resolve_argument(buffer, first)?;
                let second = self.resolve_argument(buffer, second)?;
                Ok(SourceArguments::Two(first, second))
            }
        }
    }

    // Resolves the names of a call.
    fn resolve_call(
        &self,
        buffer: &mut String,
        timer: &str,
        arguments: Arguments<'_>,
    ) -> Result<Resolved, AllocError>
        ensures { IfOk result (λ r. r
            ≡ spec.resolution_of (names_of self.now)
            (text.call timer.now (arguments_of arguments.entry))) }
    {
        let called = called_of(self.meaning(buffer, timer)?);
        let arguments = self.resolve_arguments(buffer, arguments)?;
        Ok(Resolved::Call { called, arguments })
    }

    /// Resolves the names of an instruction. Fails only if the buffer, which holds one name in
    /// upper case, can't grow.
    pub(crate) fn resolve(
        &self,
        buffer: &mut String,
        instruction: Instruction<'_>,
    ) -> Result<Resolved, AllocError>
        ensures { IfOk result (λ r. r
            ≡ spec.resolution_of (names_of self.now) (action_of instruction.entry)) }
    {
        match instruction {
            Instruction::Load { negated, operand } => {
                let operand = self.resolve_operand(buffer, operand)?;
                Ok(Resolved::Load { negated, operand })
            }
            Instruction::Store { kind, target } => {
                let target = self.resolve_symbolic_variable(buffer, target)?;
                Ok(Resolved::Store { kind, target })
            }
            Instruction::Combine {
                operator,
                negated,
                operand,
            } => {
                let is_nonzero = is_nonzero(operand);
                let operand = self.resolve_operand(buffer, operand)?;
                Ok(Resolved::Combine {
                    operator,
                    negated,
                    operand,
                    is_nonzero,
                })
            }
            Instruction::Not => Ok(Resolved::Not),
            Instruction::Convert(conversion) => Ok(Resolved::Convert(conversion)),
            Instruction::Jump { condition, label } => {
                let label = self.find_label(buffer, label)?;
                Ok(Resolved::Jump { condition, label })
            }
            Instruction::Return(condition) => Ok(Resolved::Return(condition)),
            Instruction::Call { timer, arguments } => self.resolve_call(buffer, timer, arguments),
        }
    }
}
