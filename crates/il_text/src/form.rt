// The forms of lines.
ghost use Rattle.std.specs.Prelude.{◌≡◌, [], ◌∷◌, ◌<◌, ◌≤◌, length, option_map, option_and_then};
ghost use Rattle.std.specs.List.{position_or_len};
ghost use Rattle.il_text.specs.FormViews.{halves_of, line_parts, statement_parts};
ghost use Rattle.il_text.specs.Forms as spec;
ghost use Rattle.il_text.specs.Listing as text;
ghost use Rattle.il_text.specs.Parts.{action_part};
ghost use Rattle.il_text.specs.TokenForms.{no_token_of};
ghost use Rattle.il_text.specs.Tokens.{mark_symbol, name as text_name};
ghost use Rattle.il_text.specs.TokenViews.{symbol_of, symbols_of};
ghost use Rattle.il_text.specs.Views.{action_of, argument_of, arguments_of, variable_data, operand_data};

use crate::program::{
    Argument, Arguments, Condition, DeclaredType, Input, Instruction, Literal, Operand, Operator,
    StoreKind, SymbolicVariable, TimerOutput, VariableScope,
};
use crate::token::{Keyword, Mark, Mnemonic, Token};
use bay_base::names::same_name;

/// An instruction, or an operator that opens a parenthesis.
#[derive(Clone, Copy)]
pub(crate) enum Statement<'a> {
    Plain(Instruction<'a>),
    Open {
        operator: Operator,
        negated: bool,
        operand: Option<Operand<'a>>,
    },
}

/// The part of a declaration after its names: the type and the initial value.
#[derive(Clone, Copy)]
pub struct Tail {
    pub kind: DeclaredType,
    pub initial: Option<Literal>,
}

/// The form of a line. The names of a declaration are not checked yet.
#[derive(Clone, Copy)]
pub(crate) enum Line<'t, 'a> {
    /// `PROGRAM name`.
    Heading(&'a str),
    /// `VAR` or `VAR_EXTERNAL`.
    Opening(VariableScope),
    /// The names, the type and the initial value of variables or timers.
    Declaration { names: &'t [Token<'a>], tail: Tail },
    /// `END_VAR`.
    Closing,
    /// A label alone.
    Label(&'a str),
    /// A label, and the instruction after it.
    Labelled(&'a str, Statement<'a>),
    /// An instruction, or an operator that opens a parenthesis.
    Statement(Statement<'a>),
    /// `)`.
    Leaving,
    /// `END_PROGRAM`.
    Ending,
}

// The tokens before and after a mark.
#[derive(Clone, Copy)]
struct Halves<'t, 'a> {
    front: &'t [Token<'a>],
    rest: &'t [Token<'a>],
}

/// Returns the name if the token is one.
pub(crate) fn name_of(token: Token<'_>) -> Option<&str>
    ensures { option_map (λ n. n.now) result ≡ spec.name_of (symbol_of token.entry) }
{
    match token {
        Token::Name(name) => Some(name),
        _ => None,
    }
}

// Returns the literal if the token is one.
fn literal_of(token: Token<'_>) -> Option<Literal>
    ensures { result ≡ spec.literal_of (symbol_of token.entry) }
{
    match token {
        Token::Literal(value) => Some(value),
        _ => None,
    }
}

// Returns the type if the token is one.
fn type_of(token: Token<'_>) -> Option<DeclaredType>
    ensures { result ≡ spec.type_of (symbol_of token.entry) }
{
    match token {
        Token::Type(kind) => Some(kind),
        _ => None,
    }
}

// Returns the elementary type if the token is one, and `None` for a timer type: a timer has no
// initial value.
fn elementary_of(token: Token<'_>) -> Option<DeclaredType>
    ensures { result ≡ spec.elementary_of (symbol_of token.entry) }
{
    match token {
        Token::Type(DeclaredType::Elementary(kind)) => Some(DeclaredType::Elementary(kind)),
        _ => None,
    }
}

// Returns whether a token is an operator.
fn is_mnemonic(token: Token<'_>) -> bool
    ensures { result ≡ spec.is_mnemonic (symbol_of token.entry) }
{
    matches!(token, Token::Mnemonic(_))
}

/// Returns whether a token is the given mark.
pub(crate) fn is_mark(token: Token<'_>, mark: Mark) -> bool
    ensures { result ≡ spec.is_mark mark (symbol_of token.entry) }
{
    matches!(token, Token::Mark(found) if found == mark)
}

// Reads exactly one name.
fn only_name<'a>(tokens: &[Token<'a>]) -> Option<&'a str>
    ensures { option_map (λ n. n.now) result ≡ spec.only_name (symbols_of tokens.now) }
{
    match tokens {
        [only] => name_of(*only),
        _ => None,
    }
}

// Returns the timer output that a word names, case-insensitively.
#[tactic(auto, unfolding(crate::specs::Forms::output_named))]
fn output_named(word: &str) -> Option<TimerOutput>
    ensures { result ≡ spec.output_named word.now }
{
    if same_name(word, "Q") {
        return Some(TimerOutput::Q);
    }
    if same_name(word, "ET") {
        return Some(TimerOutput::Et);
    }
    None
}

// Reads the output of a timer from the tokens of both names.
fn output_by<'a>(timer: Token<'a>, output: Token<'a>) -> Option<SymbolicVariable<'a>>
    ensures { option_map variable_data result
        ≡ option_and_then
        (λ t. option_map (text.output t) (spec.output_of (symbol_of output.entry)))
        (spec.name_of (symbol_of timer.entry)) }
{
    let timer = name_of(timer)?;
    let output = output_named(name_of(output)?)?;
    Some(SymbolicVariable::TimerOutput { timer, output })
}

// Reads a name, or a name with `.Q` or `.ET`.
#[tactic(auto, unfolding(crate::specs::Forms::symbolic_variable))]
fn parse_variable<'a>(tokens: &[Token<'a>]) -> Option<SymbolicVariable<'a>>
    ensures { option_map variable_data result
        ≡ spec.symbolic_variable.reads (symbols_of tokens.now) }
{
    match tokens {
        [only] => name_of(*only).map(SymbolicVariable::Name),
        [timer, dot, output] if is_mark(*dot, Mark::Dot) => output_by(*timer, *output),
        _ => None,
    }
}

// Reads exactly one literal.
fn only_literal(tokens: &[Token<'_>]) -> Option<Literal>
    ensures { result ≡ spec.only_literal (symbols_of tokens.now) }
{
    match tokens {
        [only] => literal_of(*only),
        _ => None,
    }
}

// Reads a literal, a name, or a name with `.Q` or `.ET`.
#[tactic(auto, unfolding(crate::specs::Forms::operand))]
fn parse_operand<'a>(tokens: &[Token<'a>]) -> Option<Operand<'a>>
    ensures { option_map operand_data result ≡ spec.operand.reads (symbols_of tokens.now) }
{
    match only_literal(tokens) {
        Some(value) => Some(Operand::Literal(value)),
        None => parse_variable(tokens).map(Operand::Variable),
    }
}

// Returns the timer input that a word names, case-insensitively.
#[tactic(auto, unfolding(crate::specs::Forms::input_named))]
fn input_named(word: &str) -> Option<Input>
    ensures { result ≡ spec.input_named word.now }
{
    if same_name(word, "IN") {
        return Some(Input::In);
    }
    if same_name(word, "PT") {
        return Some(Input::Pt);
    }
    None
}

// Reads one argument of a call: an input and its operand.
#[tactic(auto, unfolding(crate::specs::Forms::argument))]
fn parse_argument<'a>(tokens: &[Token<'a>]) -> Option<Argument<'a>>
    ensures { option_map argument_of result ≡ spec.argument.reads (symbols_of tokens.now) }
{
    match tokens {
        [name, assign, rest @ ..] if is_mark(*assign, Mark::Assign) => {
            let input = input_named(name_of(*name)?)?;
            let operand = parse_operand(rest)?;
            Some(Argument { input, operand })
        }
        _ => None,
    }
}

// Returns two arguments, or `None` if both are for the same input.
fn pair_arguments<'a>(first: Argument<'a>, second: Argument<'a>) -> Option<Arguments<'a>>
    ensures { option_map arguments_of result
        ≡ spec.two_arguments (argument_of first.entry) (argument_of second.entry) }
{
    if first.input == second.input {
        None
    } else {
        Some(Arguments::Two(first, second))
    }
}

// Counts the tokens before the first of this mark, or all tokens if there is none.
fn mark_at(tokens: &[Token<'_>], mark: Mark) -> usize
    ensures place { result ≡ position_or_len (λ t. spec.is_mark mark (symbol_of t)) tokens.now }
    ensures within { result ≤ length tokens.now }
{
    tokens
        .iter()
        .take_while(|token| !is_mark(**token, mark))
        .count()
}

// Returns the tokens before and after the first one of this mark.
#[tactic(auto, using(crate::proofs::FormLemmas::split_rules))]
fn split_at_first<'t, 'a>(tokens: &'t [Token<'a>], mark: Mark) -> Option<Halves<'t, 'a>>
    ensures { option_map halves_of result ≡ spec.split_at_mark mark (symbols_of tokens.now) }
{
    let (front, back) = tokens.split_at(mark_at(tokens, mark));
    let (_, rest) = back.split_first()?;
    Some(Halves { front, rest })
}

// Reads one argument or two.
#[tactic(auto, unfolding(crate::specs::Forms::argument_list))]
fn argument_list<'a>(tokens: &[Token<'a>]) -> Option<Arguments<'a>>
    ensures { option_map arguments_of result
        ≡ spec.argument_list.reads (symbols_of tokens.now) }
{
    match split_at_first(tokens, Mark::Comma) {
        None => parse_argument(tokens).map(Arguments::One),
        Some(halves) => {
            let second = parse_argument(halves.rest)?;
            let first = parse_argument(halves.front)?;
            pair_arguments(first, second)
        }
    }
}

// Reads the arguments of a call: none, one or two.
#[tactic(auto, unfolding(crate::specs::Forms::arguments))]
fn parse_arguments<'a>(tokens: &[Token<'a>]) -> Option<Arguments<'a>>
    ensures { option_map arguments_of result ≡ spec.arguments.reads (symbols_of tokens.now) }
{
    match tokens {
        [] => Some(Arguments::None),
        _ => argument_list(tokens),
    }
}

// Reads the arguments of a call and the `)` after them.
#[tactic(auto, unfolding(crate::specs::Forms::closed_arguments))]
fn closed_arguments<'a>(tokens: &[Token<'a>]) -> Option<Arguments<'a>>
    ensures { option_map arguments_of result ≡ spec.closed_arguments.reads (symbols_of tokens.now) }
{
    let halves = split_at_first(tokens, Mark::Close)?;
    match halves.rest {
        [] => parse_arguments(halves.front),
        _ => None,
    }
}

// Reads the call of a timer.
#[tactic(auto, unfolding(crate::specs::Forms::call_action))]
fn timer_call<'a>(tokens: &[Token<'a>]) -> Option<Instruction<'a>>
    ensures { option_map action_of result ≡ spec.call_action.reads (symbols_of tokens.now) }
{
    match tokens {
        [timer, open, rest @ ..] if is_mark(*open, Mark::Open) => {
            let timer = name_of(*timer)?;
            let arguments = closed_arguments(rest)?;
            Some(Instruction::Call { timer, arguments })
        }
        _ => None,
    }
}

// Returns the instruction if no token follows its operator.
fn parse_bare<'a>(instruction: Instruction<'a>, tokens: &[Token<'a>]) -> Option<Statement<'a>>
    ensures { option_map statement_parts result
        ≡ no_token_of (action_part (action_of instruction.entry) ∷ []) (symbols_of tokens.now) }
{
    if tokens.is_empty() {
        Some(Statement::Plain(instruction))
    } else {
        None
    }
}

// Reads what follows the `(` of an operator: an operand or nothing.
#[tactic(auto, unfolding(crate::specs::Forms::parenthesis))]
fn parse_parenthesis<'a>(
    operator: Operator,
    negated: bool,
    tokens: &[Token<'a>],
) -> Option<Statement<'a>>
    ensures { option_map statement_parts result
        ≡ (spec.parenthesis operator negated).reads (symbols_of tokens.now) }
{
    let operand = match tokens {
        [] => None,
        _ => Some(parse_operand(tokens)?),
    };
    Some(Statement::Open {
        operator,
        negated,
        operand,
    })
}

// Reads what follows an operator that combines the current result with an operand.
#[tactic(auto, unfolding(crate::specs::Forms::operator_parts))]
fn parse_combine<'a>(
    operator: Operator,
    negated: bool,
    tokens: &[Token<'a>],
) -> Option<Statement<'a>>
    ensures { option_map statement_parts result
        ≡ (spec.operator_parts operator negated).reads (symbols_of tokens.now) }
{
    match tokens {
        [first, rest @ ..] if is_mark(*first, Mark::Open) => parse_parenthesis(
            operator, negated, rest,
        ),
        _ => {
            let operand = parse_operand(tokens)?;
            Some(Statement::Plain(Instruction::Combine {
                operator,
                negated,
                operand,
            }))
        }
    }
}

// Reads the operand of `LD` or `LDN`.
fn parse_load<'a>(negated: bool, tokens: &[Token<'a>]) -> Option<Instruction<'a>>
    ensures { option_map action_of result
        ≡ option_map (text.load negated) (spec.operand.reads (symbols_of tokens.now)) }
{
    let operand = parse_operand(tokens)?;
    Some(Instruction::Load { negated, operand })
}

// Reads the variable that a store writes.
fn parse_store<'a>(kind: StoreKind, tokens: &[Token<'a>]) -> Option<Instruction<'a>>
    ensures { option_map action_of result
        ≡ option_map (text.store kind) (spec.symbolic_variable.reads (symbols_of tokens.now)) }
{
    let target = parse_variable(tokens)?;
    Some(Instruction::Store { kind, target })
}

// Reads the label of a jump.
fn parse_jump<'a>(condition: Condition, tokens: &[Token<'a>]) -> Option<Instruction<'a>>
    ensures { option_map action_of result
        ≡ option_map (text.jump condition) (spec.only_name (symbols_of tokens.now)) }
{
    let label = only_name(tokens)?;
    Some(Instruction::Jump { condition, label })
}

// Reads the tokens after an operator.
#[tactic(auto, unfolding(crate::specs::Forms::statement))]
fn parse_statement<'a>(mnemonic: Mnemonic, tokens: &[Token<'a>]) -> Option<Statement<'a>>
    ensures { option_map statement_parts result
        ≡ (spec.statement mnemonic).reads (symbols_of tokens.now) }
{
    match mnemonic {
        Mnemonic::Load { negated } => parse_load(negated, tokens).map(Statement::Plain),
        Mnemonic::Store(kind) => parse_store(kind, tokens).map(Statement::Plain),
        Mnemonic::Combine { operator, negated } => parse_combine(operator, negated, tokens),
        Mnemonic::Not => parse_bare(Instruction::Not, tokens),
        Mnemonic::Convert(conversion) => parse_bare(Instruction::Convert(conversion), tokens),
        Mnemonic::Return(condition) => parse_bare(Instruction::Return(condition), tokens),
        Mnemonic::Jump(condition) => parse_jump(condition, tokens).map(Statement::Plain),
        Mnemonic::Call => timer_call(tokens).map(Statement::Plain),
    }
}

// Reads `type ;` or `type := literal ;`. A timer type takes no literal.
#[tactic(auto, unfolding(crate::specs::Forms::tail))]
fn parse_tail(tokens: &[Token<'_>]) -> Option<Tail>
    ensures { result ≡ spec.tail.reads (symbols_of tokens.now) }
{
    match tokens {
        [kind, end] if is_mark(*end, Mark::Semicolon) => Some(Tail {
            kind: type_of(*kind)?,
            initial: None,
        }),
        [kind, assign, value, end]
            if is_mark(*assign, Mark::Assign) && is_mark(*end, Mark::Semicolon) => {
            let kind = elementary_of(*kind)?;
            let value = literal_of(*value)?;
            Some(Tail {
                kind,
                initial: Some(value),
            })
        }
        _ => None,
    }
}

// Reads a declaration. Its names are not checked yet.
#[tactic(auto, unfolding(crate::specs::Forms::declaration))]
fn parse_declaration<'t, 'a>(tokens: &'t [Token<'a>]) -> Option<Line<'t, 'a>>
    ensures { option_and_then line_parts result ≡ spec.declaration.reads (symbols_of tokens.now) }
{
    let halves = split_at_first(tokens, Mark::Colon)?;
    let tail = parse_tail(halves.rest)?;
    Some(Line::Declaration {
        names: halves.front,
        tail,
    })
}

// Returns whether these tokens may follow a label: none, or tokens that begin with an operator.
#[tactic(auto, unfolding(crate::specs::Forms::may_follow_label))]
fn may_follow_label(tokens: &[Token<'_>]) -> bool
    ensures { result ≡ spec.may_follow_label (symbols_of tokens.now) }
{
    match tokens {
        [] => true,
        [first, ..] => is_mnemonic(*first),
    }
}

// Reads an instruction: its operator, given as a token, and the tokens after it.
#[tactic(auto, unfolding(crate::specs::Forms::instruction))]
fn parse_instruction<'a>(first: Token<'a>, tokens: &[Token<'a>]) -> Option<Statement<'a>>
    ensures { option_map statement_parts result
        ≡ spec.instruction.reads (symbol_of first.entry ∷ symbols_of tokens.now) }
{
    match first {
        Token::Mnemonic(mnemonic) => parse_statement(mnemonic, tokens),
        _ => None,
    }
}

// Reads a label and the instruction that may follow it.
#[tactic(auto, unfolding(crate::specs::Forms::label_parts))]
fn parse_labelled<'t, 'a>(label: &'a str, tokens: &'t [Token<'a>]) -> Option<Line<'t, 'a>>
    ensures { option_and_then line_parts result
        ≡ (spec.label_parts label.now).reads (symbols_of tokens.now) }
{
    match tokens {
        [] => Some(Line::Label(label)),
        [first, rest @ ..] => {
            let statement = parse_instruction(*first, rest)?;
            Some(Line::Labelled(label, statement))
        }
    }
}

// Reads a line that begins with a keyword.
#[tactic(auto, unfolding(crate::specs::Forms::keyword_line))]
fn keyword_line<'t, 'a>(word: Keyword, tokens: &'t [Token<'a>]) -> Option<Line<'t, 'a>>
    ensures { option_and_then line_parts result
        ≡ (spec.keyword_line word).reads (symbols_of tokens.now) }
{
    let line = match word {
        Keyword::Program => return only_name(tokens).map(Line::Heading),
        Keyword::EndProgram => Line::Ending,
        Keyword::Var => Line::Opening(VariableScope::Local),
        Keyword::VarExternal => Line::Opening(VariableScope::External),
        Keyword::EndVar => Line::Closing,
    };
    if tokens.is_empty() { Some(line) } else { None }
}

// Reads a line that begins with a name: a label or a declaration.
#[tactic(auto, unfolding(crate::specs::Forms::named_line))]
fn named_line<'t, 'a>(
    name: &'a str,
    rest: &'t [Token<'a>],
    tokens: &'t [Token<'a>],
) -> Option<Line<'t, 'a>>
    requires { symbols_of tokens.now ≡ text_name name.now ∷ symbols_of rest.now }
    ensures { option_and_then line_parts result ≡ spec.named_line.reads (symbols_of tokens.now) }
{
    match rest {
        [colon, behind @ ..] if is_mark(*colon, Mark::Colon) && may_follow_label(behind) => {
            parse_labelled(name, behind)
        }
        _ => parse_declaration(tokens),
    }
}

/// Returns the form of a line that is not blank, or `None` if it has none.
#[tactic(auto, unfolding(crate::specs::Forms::whole_line, crate::specs::Forms::other_line))]
pub(crate) fn line_of<'t, 'a>(tokens: &'t [Token<'a>]) -> Option<Line<'t, 'a>>
    requires { 0 < length tokens.now }
    ensures { option_and_then line_parts result ≡ spec.parts_of (symbols_of tokens.now) }
{
    let [first, rest @ ..] = tokens else {
        unreachable!();
    };
    match *first {
        Token::Name(name) => named_line(name, rest, tokens),
        Token::Keyword(word) => keyword_line(word, rest),
        Token::Mnemonic(mnemonic) => parse_statement(mnemonic, rest).map(Line::Statement),
        Token::Mark(Mark::Close) if rest.is_empty() => Some(Line::Leaving),
        Token::Mark(_) | Token::Type(_) | Token::Literal(_) => None,
    }
}

// Returns whether a line that begins with this token has no other token.
fn is_single(token: Token<'_>) -> bool
    ensures { result ≡ spec.is_single (symbol_of token.entry) }
{
    matches!(token, Token::Type(_) | Token::Literal(_) | Token::Mark(_))
}

// Returns whether the second token cannot follow the first, if the first begins a line.
fn is_misplaced(first: Token<'_>, second: Token<'_>) -> bool
    ensures { result ≡ spec.is_misplaced (symbol_of first.entry) (symbol_of second.entry) }
{
    match first {
        Token::Name(_) => !(is_mark(second, Mark::Colon) || is_mark(second, Mark::Comma)),
        _ => is_single(first),
    }
}

/// Returns whether the first two tokens show that no line begins with these tokens. The rest of the
/// line then need not be stored.
pub(crate) fn begins_no_line(tokens: &[Token<'_>]) -> bool
    ensures { result ≡ spec.begins_no_line (symbols_of tokens.now) }
{
    match tokens {
        [first, second, ..] => is_misplaced(*first, *second),
        _ => false,
    }
}
