// What instructions require of the current result, and the result after them (IEC 61131-3:2003,
// 3.2.2 and table 52).
ghost use Rattle.std.specs.Prelude.{◌≡◌, option_map};
ghost use Rattle.il_check.specs.Rules as spec;

use crate::source_operand::{
    CalledTimer, Resolved, SourceArgument, SourceArguments, SourceOperand,
};
use crate::typed::TypedOperand;
use bay_base::types::ElementaryType;
use il_image::value::Value;
use il_text::program::{Condition, Conversion, Input, Operator, StoreKind};

/// Returns the value of this type that an untyped number denotes, or `None` if there is none. No
/// number is a TIME.
pub(crate) fn typed_number(kind: ElementaryType, number: i64) -> Option<Value>
    ensures { result ≡ spec.typed_number kind number }
{
    match kind {
        ElementaryType::Time => None,
        _ => Value::of(kind, number),
    }
}

/// Returns the operand as one of this type, or `None` if it cannot be one.
pub(crate) fn typed_operand(kind: ElementaryType, operand: SourceOperand) -> Option<TypedOperand>
    ensures { result ≡ spec.typed_operand kind operand }
{
    match operand {
        SourceOperand::Missing | SourceOperand::Misused => None,
        SourceOperand::Known(source) => {
            if source.kind.is(kind) {
                Some(source.operand)
            } else {
                None
            }
        }
        SourceOperand::Number(number) => match typed_number(kind, number) {
            Some(value) => Some(TypedOperand::Literal(value)),
            None => None,
        },
    }
}

// Returns whether the operand can be of the type.
fn operand_fits(kind: ElementaryType, operand: SourceOperand) -> bool
    ensures { result ≡ spec.operand_fits kind operand }
{
    typed_operand(kind, operand).is_some()
}

// Returns the type of an untyped number when it is loaded: the first of INT, DINT and LINT that
// holds it.
fn own_type(number: i64) -> ElementaryType
    ensures { result ≡ spec.own_type number }
{
    if typed_number(ElementaryType::Int, number).is_some() {
        ElementaryType::Int
    } else if typed_number(ElementaryType::Dint, number).is_some() {
        ElementaryType::Dint
    } else {
        ElementaryType::Lint
    }
}

/// Returns the type of the result of a load, or `None` for a name or literal that can't be loaded.
pub(crate) fn load_type(operand: SourceOperand) -> Option<ElementaryType>
    ensures { result ≡ spec.load_type operand }
{
    match operand {
        SourceOperand::Missing | SourceOperand::Misused => None,
        SourceOperand::Known(source) => Some(source.kind),
        SourceOperand::Number(number) => Some(own_type(number)),
    }
}

// Returns whether this is BOOL, the only type that can be negated or tested.
fn is_boolean(kind: ElementaryType) -> bool
    ensures { result ≡ spec.is_boolean kind }
{
    ElementaryType::Bool.is(kind)
}

// Returns whether this is INT, DINT or LINT.
fn is_number(kind: ElementaryType) -> bool
    ensures { result ≡ spec.is_number kind }
{
    match kind {
        ElementaryType::Bool | ElementaryType::Time => false,
        ElementaryType::Int | ElementaryType::Dint | ElementaryType::Lint => true,
    }
}

// Returns whether an operator accepts a type on both sides.
fn accepts_type(operator: Operator, kind: ElementaryType) -> bool
    ensures { result ≡ spec.accepts_type operator kind }
{
    match operator {
        Operator::And | Operator::Or | Operator::Xor => is_boolean(kind),
        Operator::Add | Operator::Sub | Operator::Mul | Operator::Div | Operator::Mod => {
            is_number(kind)
        }
        Operator::Gt | Operator::Ge | Operator::Le | Operator::Lt => !is_boolean(kind),
        Operator::Eq | Operator::Ne => true,
    }
}

// Returns the type of an operator's result.
fn type_of_result(operator: Operator, kind: ElementaryType) -> ElementaryType
    ensures { result ≡ spec.type_of_result operator kind }
{
    match operator {
        Operator::And
        | Operator::Or
        | Operator::Xor
        | Operator::Add
        | Operator::Sub
        | Operator::Mul
        | Operator::Div
        | Operator::Mod => kind,
        Operator::Gt | Operator::Ge | Operator::Eq | Operator::Ne | Operator::Le | Operator::Lt =>
            ElementaryType::Bool,
    }
}

/// Returns the type of the current result after an operator.
pub(crate) fn type_after_operator(
    operator: Operator,
    result_type: Option<ElementaryType>,
) -> Option<ElementaryType>
    ensures { result ≡ option_map (spec.type_of_result operator) result_type }
{
    match result_type {
        Some(kind) => Some(type_of_result(operator, kind)),
        None => None,
    }
}

/// Returns whether the operator divides by its operand.
pub(crate) fn divides(operator: Operator) -> bool
    ensures { result ≡ spec.divides operator }
{
    match operator {
        Operator::Div | Operator::Mod => true,
        _ => false,
    }
}

// Returns whether a negation, if there is one, is allowed for the type: only a BOOL may be negated.
fn may_negate(negated: bool, kind: ElementaryType) -> bool
    ensures { result ≡ spec.may_negate negated kind }
{
    !negated || is_boolean(kind)
}

// Returns whether the operator, with its operand negated or not, works on the type.
fn works(operator: Operator, negated: bool, kind: ElementaryType) -> bool
    ensures { result ≡ spec.works operator negated kind }
{
    accepts_type(operator, kind) && may_negate(negated, kind)
}

// Returns whether a store writes the result unchanged.
fn is_plain(kind: StoreKind) -> bool
    ensures { result ≡ spec.is_plain kind }
{
    match kind {
        StoreKind::Plain => true,
        StoreKind::Negated | StoreKind::Set | StoreKind::Reset => false,
    }
}

// Returns whether a jump or a return depends on the current result.
fn is_conditional(condition: Condition) -> bool
    ensures { result ≡ spec.is_conditional condition }
{
    match condition {
        Condition::Always => false,
        Condition::IfTrue | Condition::IfFalse => true,
    }
}

// Returns the type that a conversion converts.
fn converted_from(conversion: Conversion) -> ElementaryType
    ensures { result ≡ spec.converted_from conversion }
{
    match conversion {
        Conversion::IntToDint => ElementaryType::Int,
        Conversion::DintToLint => ElementaryType::Dint,
    }
}

// Returns the type that a conversion results in.
fn converted_to(conversion: Conversion) -> ElementaryType
    ensures { result ≡ spec.converted_to conversion }
{
    match conversion {
        Conversion::IntToDint => ElementaryType::Dint,
        Conversion::DintToLint => ElementaryType::Lint,
    }
}

/// Returns the type of a timer's input.
pub(crate) fn input_type(input: Input) -> ElementaryType
    ensures { result ≡ spec.input_type input }
{
    match input {
        Input::In => ElementaryType::Bool,
        Input::Pt => ElementaryType::Time,
    }
}

// Returns whether an argument fits its input's type.
fn argument_fits(argument: SourceArgument) -> bool
    ensures { result ≡ spec.argument_fits argument }
{
    operand_fits(input_type(argument.input), argument.operand)
}

// Returns whether each argument fits its input's type.
fn arguments_fit(arguments: SourceArguments) -> bool
    ensures { result ≡ spec.arguments_fit arguments }
{
    match arguments {
        SourceArguments::None => true,
        SourceArguments::One(first) => argument_fits(first),
        SourceArguments::Two(first, second) => argument_fits(first) && argument_fits(second),
    }
}

// Returns whether the called name is a timer's.
fn is_timer(called: CalledTimer) -> bool
    ensures { result ≡ spec.is_timer called }
{
    match called {
        CalledTimer::Missing | CalledTimer::Misused => false,
        CalledTimer::Timer(_) => true,
    }
}

// Returns whether a value of this type may be loaded, negated or not; false without a type.
fn may_load(negated: bool, kind: Option<ElementaryType>) -> bool
    ensures { result ≡ spec.may_load negated kind }
{
    match kind {
        None => false,
        Some(kind) => may_negate(negated, kind),
    }
}

// Returns whether the instruction is valid if the current result has this type.
fn is_valid_on(resolved: Resolved, kind: ElementaryType) -> bool
    ensures { result ≡ spec.is_valid_on resolved kind }
{
    match resolved {
        Resolved::Load { negated, operand } => may_load(negated, load_type(operand)),
        Resolved::Store { kind: how, target } => {
            operand_fits(kind, target) && may_negate(!is_plain(how), kind)
        }
        Resolved::Combine {
            operator,
            negated,
            operand,
            ..
        } => works(operator, negated, kind) && operand_fits(kind, operand),
        Resolved::Not => is_boolean(kind),
        Resolved::Convert(conversion) => kind.is(converted_from(conversion)),
        Resolved::Jump { condition, .. } | Resolved::Return(condition) => {
            may_negate(is_conditional(condition), kind)
        }
        Resolved::Call { called, arguments } => is_timer(called) && arguments_fit(arguments),
    }
}

// Returns whether the instruction uses the current result.
fn uses_result(resolved: Resolved) -> bool
    ensures { result ≡ spec.uses_result resolved }
{
    match resolved {
        Resolved::Load { .. } | Resolved::Call { .. } => false,
        Resolved::Store { .. } | Resolved::Combine { .. } | Resolved::Not | Resolved::Convert(_) =>
            true,
        Resolved::Jump { condition, .. } | Resolved::Return(condition) => is_conditional(condition),
    }
}

/// Returns whether the instruction is wrong for every type that the current result may have.
pub(crate) fn is_wrong(resolved: Resolved, kind: Option<ElementaryType>) -> bool
    ensures { result ≡ spec.is_wrong resolved kind }
{
    match kind {
        Some(kind) => !is_valid_on(resolved, kind),
        None => {
            !(is_valid_on(resolved, ElementaryType::Bool)
                || is_valid_on(resolved, ElementaryType::Int)
                || is_valid_on(resolved, ElementaryType::Dint)
                || is_valid_on(resolved, ElementaryType::Lint)
                || is_valid_on(resolved, ElementaryType::Time))
        }
    }
}

/// Returns whether the instruction uses a current result that is not set.
pub(crate) fn is_unset(resolved: Resolved, kind: Option<ElementaryType>) -> bool
    ensures { result ≡ spec.is_unset resolved kind }
{
    uses_result(resolved) && kind.is_none()
}

/// Returns the type of the current result after the instruction, or `None` if it is not set there.
pub(crate) fn type_after(resolved: Resolved, kind: Option<ElementaryType>) -> Option<ElementaryType>
    ensures { result ≡ spec.type_after resolved kind }
{
    match resolved {
        Resolved::Load { operand, .. } => load_type(operand),
        Resolved::Combine { operator, .. } => type_after_operator(operator, kind),
        Resolved::Convert(conversion) => Some(converted_to(conversion)),
        Resolved::Store { .. } | Resolved::Not | Resolved::Jump { .. } | Resolved::Return(_) =>
            kind,
        Resolved::Call { .. } => None,
    }
}

// Returns whether the result of a parenthesis may have this type.
fn may_have_type(kind: ElementaryType, inner: Option<ElementaryType>) -> bool
    ensures { result ≡ spec.may_have_type kind inner }
{
    match inner {
        None => true,
        Some(inner) => inner.is(kind),
    }
}

// Returns whether the operator of a parenthesis is valid on a current result of this type.
fn combines(
    operator: Operator,
    negated: bool,
    inner: Option<ElementaryType>,
    kind: ElementaryType,
) -> bool
    ensures { result ≡ spec.combines operator negated inner kind }
{
    works(operator, negated, kind) && may_have_type(kind, inner)
}

/// Returns whether the operator of a parenthesis is wrong for every type that the current result
/// may have.
pub(crate) fn combines_wrong(
    operator: Operator,
    negated: bool,
    inner: Option<ElementaryType>,
    kind: Option<ElementaryType>,
) -> bool
    ensures { result ≡ spec.combines_wrong operator negated inner kind }
{
    match kind {
        Some(kind) => !combines(operator, negated, inner, kind),
        None => {
            !(combines(operator, negated, inner, ElementaryType::Bool)
                || combines(operator, negated, inner, ElementaryType::Int)
                || combines(operator, negated, inner, ElementaryType::Dint)
                || combines(operator, negated, inner, ElementaryType::Lint)
                || combines(operator, negated, inner, ElementaryType::Time))
        }
    }
}

// Returns whether the operand is an undeclared name.
fn is_undeclared(operand: SourceOperand) -> bool
    ensures { result ≡ spec.is_undeclared operand }
{
    match operand {
        SourceOperand::Missing => true,
        SourceOperand::Misused | SourceOperand::Known(_) | SourceOperand::Number(_) => false,
    }
}

// Returns whether an argument is an undeclared name.
fn has_undeclared_argument(arguments: SourceArguments) -> bool
    ensures { result ≡ spec.has_undeclared_argument arguments }
{
    match arguments {
        SourceArguments::None => false,
        SourceArguments::One(first) => is_undeclared(first.operand),
        SourceArguments::Two(first, second) => is_undeclared(first.operand)
            || is_undeclared(second.operand),
    }
}

// Returns whether the called name is not declared.
fn is_undeclared_timer(called: CalledTimer) -> bool
    ensures { result ≡ spec.is_undeclared_timer called }
{
    match called {
        CalledTimer::Missing => true,
        CalledTimer::Misused | CalledTimer::Timer(_) => false,
    }
}

/// Returns whether the instruction uses an undeclared name.
pub(crate) fn uses_undeclared_name(resolved: Resolved) -> bool
    ensures { result ≡ spec.uses_undeclared_name resolved }
{
    match resolved {
        Resolved::Load { operand, .. } | Resolved::Combine { operand, .. } => is_undeclared(
            operand,
        ),
        Resolved::Store { target, .. } => is_undeclared(target),
        Resolved::Call { called, arguments } => is_undeclared_timer(called)
            || has_undeclared_argument(arguments),
        Resolved::Not | Resolved::Convert(_) | Resolved::Jump { .. } | Resolved::Return(_) => false,
    }
}

/// Returns whether the instruction jumps to a label above it; `passed` labels precede the
/// instruction.
pub(crate) fn jumps_back(passed: usize, resolved: Resolved) -> bool
    ensures { result ≡ spec.jumps_back passed resolved }
{
    match resolved {
        Resolved::Jump {
            label: Some(label),
            ..
        } => label < passed,
        _ => false,
    }
}

/// Returns whether the instruction jumps to a label that does not exist.
pub(crate) fn jumps_to_undefined_label(resolved: Resolved) -> bool
    ensures { result ≡ spec.jumps_to_undefined_label resolved }
{
    match resolved {
        Resolved::Jump { label, .. } => label.is_none(),
        _ => false,
    }
}

// Returns whether the target is read-only.
fn is_read_only(operand: SourceOperand) -> bool
    ensures { result ≡ spec.is_read_only operand }
{
    match operand {
        SourceOperand::Known(source) => !source.writable,
        SourceOperand::Missing | SourceOperand::Misused | SourceOperand::Number(_) => false,
    }
}

/// Returns whether the instruction writes something read-only.
pub(crate) fn writes_read_only(resolved: Resolved) -> bool
    ensures { result ≡ spec.writes_read_only resolved }
{
    match resolved {
        Resolved::Store { target, .. } => is_read_only(target),
        _ => false,
    }
}

/// Returns whether the instruction divides by anything but a literal other than 0.
pub(crate) fn may_divide_by_zero(resolved: Resolved) -> bool
    ensures { result ≡ spec.may_divide_by_zero resolved }
{
    match resolved {
        Resolved::Combine {
            operator,
            is_nonzero,
            ..
        } => divides(operator) && !is_nonzero,
        _ => false,
    }
}

/// Returns whether the next item of the text can be reached from the instruction.
pub(crate) fn falls_through(resolved: Resolved) -> bool
    ensures { result ≡ spec.falls_through resolved }
{
    match resolved {
        Resolved::Jump { condition, .. } | Resolved::Return(condition) => is_conditional(condition),
        _ => true,
    }
}

/// Returns the label that a jump goes to, or `None` if there is none.
pub(crate) fn target_of(resolved: Resolved) -> Option<usize>
    ensures { result ≡ spec.target_of resolved }
{
    match resolved {
        Resolved::Jump { label, .. } => label,
        _ => None,
    }
}
