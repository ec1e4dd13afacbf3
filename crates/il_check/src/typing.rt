// The typed forms of valid instructions: their operands have the type that they work on.
ghost use Rattle.std.specs.Prelude.{◌≡◌};
ghost use Rattle.il_check.specs.Typing as spec;

use crate::rules::{input_type, load_type, typed_operand};
use crate::source_operand::{
    CalledTimer, Resolved, SourceArgument, SourceArguments, SourceOperand,
};
use crate::typed::{SimpleOperation, Slot, Transfer, TypedArgument, TypedArguments, TypedOperand};
use bay_base::types::ElementaryType;
use il_text::program::{Operator, StoreKind};

// Returns a load of the operand as one of this type.
fn typed_load(
    negated: bool,
    operand: SourceOperand,
    kind: Option<ElementaryType>,
) -> Option<SimpleOperation>
    ensures { result ≡ spec.typed_load negated operand kind }
{
    let operand = typed_operand(kind?, operand)?;
    Some(SimpleOperation::Load { negated, operand })
}

// Returns the slot of a target that is a variable.
fn target_slot(target: SourceOperand) -> Option<Slot>
    ensures { result ≡ spec.target_slot target }
{
    match target {
        SourceOperand::Known(source) => match source.operand {
            TypedOperand::Slot(slot) => Some(slot),
            TypedOperand::Literal(_) | TypedOperand::TimerOutput { .. } => None,
        },
        SourceOperand::Missing | SourceOperand::Misused | SourceOperand::Number(_) => None,
    }
}

// Returns a store into the slot, or `None` without a slot.
fn typed_store(kind: StoreKind, slot: Option<Slot>) -> Option<SimpleOperation>
    ensures { result ≡ spec.store_operation kind slot }
{
    let slot = slot?;
    Some(SimpleOperation::Store { kind, slot })
}

// Returns an operator on a result of this type, with the operand as one of the type.
fn typed_combine(
    operator: Operator,
    negated: bool,
    operand: SourceOperand,
    kind: Option<ElementaryType>,
) -> Option<SimpleOperation>
    ensures { result ≡ spec.typed_combine operator negated operand kind }
{
    let kind = kind?;
    let operand = typed_operand(kind, operand)?;
    Some(SimpleOperation::Combine {
        operator,
        kind,
        negated,
        operand,
    })
}

/// Returns the operation on a result of this type.
pub(crate) fn typed_operation(
    resolved: Resolved,
    kind: Option<ElementaryType>,
) -> Option<SimpleOperation>
    ensures { result ≡ spec.typed_operation resolved kind }
{
    match resolved {
        Resolved::Load { negated, operand } => typed_load(negated, operand, load_type(operand)),
        Resolved::Store { kind: how, target } => typed_store(how, target_slot(target)),
        Resolved::Combine {
            operator,
            negated,
            operand,
            ..
        } => typed_combine(operator, negated, operand, kind),
        Resolved::Not => Some(SimpleOperation::Not),
        Resolved::Convert(conversion) => Some(SimpleOperation::Convert(conversion)),
        Resolved::Jump { .. } | Resolved::Return(_) | Resolved::Call { .. } => None,
    }
}

// Returns an argument with its input's type.
fn typed_argument(argument: SourceArgument) -> Option<TypedArgument>
    ensures { result ≡ spec.typed_argument argument }
{
    match typed_operand(input_type(argument.input), argument.operand) {
        Some(operand) => Some(TypedArgument {
            input: argument.input,
            operand,
        }),
        None => None,
    }
}

// Returns the arguments, or `None` if one does not have its input's type.
fn typed_arguments(arguments: SourceArguments) -> Option<TypedArguments>
    ensures { result ≡ spec.typed_arguments arguments }
{
    match arguments {
        SourceArguments::None => Some(TypedArguments::None),
        SourceArguments::One(first) => Some(TypedArguments::One(typed_argument(first)?)),
        SourceArguments::Two(first, second) => {
            match (typed_argument(first), typed_argument(second)) {
                (Some(first), Some(second)) => Some(TypedArguments::Two(first, second)),
                _ => None,
            }
        }
    }
}

// Returns a call, or `None` if no timer is called or an argument does not have its input's type.
fn typed_call(called: CalledTimer, arguments: Option<TypedArguments>) -> Option<Transfer>
    ensures { result ≡ spec.typed_call called arguments }
{
    match called {
        CalledTimer::Timer(timer) => match arguments {
            Some(arguments) => Some(Transfer::Call { timer, arguments }),
            None => None,
        },
        CalledTimer::Missing | CalledTimer::Misused => None,
    }
}

/// Returns the jump, return or call of an instruction, or `None` if it is none.
pub(crate) fn typed_transfer(resolved: Resolved) -> Option<Transfer>
    ensures { result ≡ spec.typed_transfer resolved }
{
    match resolved {
        Resolved::Jump { condition, label } => match label {
            Some(label) => Some(Transfer::Jump { condition, label }),
            None => None,
        },
        Resolved::Return(condition) => Some(Transfer::Return(condition)),
        Resolved::Call { called, arguments } => typed_call(called, typed_arguments(arguments)),
        Resolved::Load { .. }
        | Resolved::Store { .. }
        | Resolved::Combine { .. }
        | Resolved::Not
        | Resolved::Convert(_) => None,
    }
}
