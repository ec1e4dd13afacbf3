// The reserved words as tokens.
ghost use Rattle.std.specs.Prelude.{◌≡◌, option_map};
ghost use Rattle.il_text.specs.TokenViews.{symbol_of};
ghost use Rattle.il_text.specs.Words as spec;
ghost use Rattle.il_text.specs.declared.token.Mnemonic.TheVariants.{Combine};

use crate::program::{Condition, Conversion, DeclaredType, Literal, Operator, StoreKind};
use crate::token::{Keyword, Mnemonic, Token};
use bay_base::types::{ElementaryType, TimerKind};
use bay_base::words::{ReservedWord, reserved_word};

/// Returns the mnemonic of an operator that combines the current result with an operand.
pub(crate) fn combine(operator: Operator, negated: bool) -> Mnemonic
    ensures { result ≡ Combine operator negated }
{
    Mnemonic::Combine { operator, negated }
}

// Returns the token of a reserved word.
fn token_of<'a>(word: ReservedWord) -> Token<'a>
    ensures { symbol_of result ≡ spec.symbol_of_word word }
{
    match word {
        ReservedWord::Ld => Token::Mnemonic(Mnemonic::Load { negated: false }),
        ReservedWord::Ldn => Token::Mnemonic(Mnemonic::Load { negated: true }),
        ReservedWord::St => Token::Mnemonic(Mnemonic::Store(StoreKind::Plain)),
        ReservedWord::Stn => Token::Mnemonic(Mnemonic::Store(StoreKind::Negated)),
        ReservedWord::S => Token::Mnemonic(Mnemonic::Store(StoreKind::Set)),
        ReservedWord::R => Token::Mnemonic(Mnemonic::Store(StoreKind::Reset)),
        ReservedWord::And => Token::Mnemonic(combine(Operator::And, false)),
        ReservedWord::Andn => Token::Mnemonic(combine(Operator::And, true)),
        ReservedWord::Or => Token::Mnemonic(combine(Operator::Or, false)),
        ReservedWord::Orn => Token::Mnemonic(combine(Operator::Or, true)),
        ReservedWord::Xor => Token::Mnemonic(combine(Operator::Xor, false)),
        ReservedWord::Xorn => Token::Mnemonic(combine(Operator::Xor, true)),
        ReservedWord::Not => Token::Mnemonic(Mnemonic::Not),
        ReservedWord::Add => Token::Mnemonic(combine(Operator::Add, false)),
        ReservedWord::Sub => Token::Mnemonic(combine(Operator::Sub, false)),
        ReservedWord::Mul => Token::Mnemonic(combine(Operator::Mul, false)),
        ReservedWord::Div => Token::Mnemonic(combine(Operator::Div, false)),
        ReservedWord::Mod => Token::Mnemonic(combine(Operator::Mod, false)),
        ReservedWord::Gt => Token::Mnemonic(combine(Operator::Gt, false)),
        ReservedWord::Ge => Token::Mnemonic(combine(Operator::Ge, false)),
        ReservedWord::Eq => Token::Mnemonic(combine(Operator::Eq, false)),
        ReservedWord::Ne => Token::Mnemonic(combine(Operator::Ne, false)),
        ReservedWord::Le => Token::Mnemonic(combine(Operator::Le, false)),
        ReservedWord::Lt => Token::Mnemonic(combine(Operator::Lt, false)),
        ReservedWord::Jmp => Token::Mnemonic(Mnemonic::Jump(Condition::Always)),
        ReservedWord::Jmpc => Token::Mnemonic(Mnemonic::Jump(Condition::IfTrue)),
        ReservedWord::Jmpcn => Token::Mnemonic(Mnemonic::Jump(Condition::IfFalse)),
        ReservedWord::Cal => Token::Mnemonic(Mnemonic::Call),
        ReservedWord::Ret => Token::Mnemonic(Mnemonic::Return(Condition::Always)),
        ReservedWord::Retc => Token::Mnemonic(Mnemonic::Return(Condition::IfTrue)),
        ReservedWord::Retcn => Token::Mnemonic(Mnemonic::Return(Condition::IfFalse)),
        ReservedWord::IntToDint => Token::Mnemonic(Mnemonic::Convert(Conversion::IntToDint)),
        ReservedWord::DintToLint => Token::Mnemonic(Mnemonic::Convert(Conversion::DintToLint)),
        ReservedWord::Program => Token::Keyword(Keyword::Program),
        ReservedWord::EndProgram => Token::Keyword(Keyword::EndProgram),
        ReservedWord::Var => Token::Keyword(Keyword::Var),
        ReservedWord::VarExternal => Token::Keyword(Keyword::VarExternal),
        ReservedWord::EndVar => Token::Keyword(Keyword::EndVar),
        ReservedWord::Bool => Token::Type(DeclaredType::Elementary(ElementaryType::Bool)),
        ReservedWord::Int => Token::Type(DeclaredType::Elementary(ElementaryType::Int)),
        ReservedWord::Dint => Token::Type(DeclaredType::Elementary(ElementaryType::Dint)),
        ReservedWord::Lint => Token::Type(DeclaredType::Elementary(ElementaryType::Lint)),
        ReservedWord::Time => Token::Type(DeclaredType::Elementary(ElementaryType::Time)),
        ReservedWord::Ton => Token::Type(DeclaredType::Timer(TimerKind::OnDelay)),
        ReservedWord::Tof => Token::Type(DeclaredType::Timer(TimerKind::OffDelay)),
        ReservedWord::True => Token::Literal(Literal::Truth(true)),
        ReservedWord::False => Token::Literal(Literal::Truth(false)),
    }
}

/// Returns the token of a word, or `None` if the word is not reserved.
#[tactic(auto, unfolding(crate::specs::Words::reserved_symbol))]
pub(crate) fn reserved_token<'a>(word: &str) -> Option<Token<'a>>
    ensures { option_map symbol_of result ≡ spec.reserved_symbol word.now }
{
    match reserved_word(word) {
        Some(found) => Some(token_of(found)),
        None => None,
    }
}
