// Declares the names of a declaration line.
ghost use Rattle.std.specs.Prelude.{◌≡◌, ◌≢◌, List, ◌∷◌, map, false, Some, None, OnOk, IfOk, IfErr};
ghost use Rattle.il_text.specs.Declaring.{declared_from};
ghost use Rattle.il_text.specs.TokenViews.{symbol_of, symbols_of};
ghost use Rattle.il_text.specs.Tokens.{Symbol};
ghost use Rattle.il_text.specs.Views.{declared_name};
ghost use Rattle.il_text.specs.declared.fault.TextFault.TheVariants.{BadLine, OutOfMemory};

use crate::fault::TextFault;
use crate::form::{Tail, is_mark, name_of};
use crate::program::{Declaration, VariableScope};
use crate::token::{Mark, Token};

/// What one declaration line declares each of its names with.
#[derive(Clone, Copy)]
pub(crate) struct Declaring {
    pub(crate) line: usize,
    pub(crate) scope: VariableScope,
    pub(crate) tail: Tail,
}

/// Declares the names of a list, `name {"," name}`. Returns `BadLine` if the tokens are no such
/// list, and `OutOfMemory` if an allocation fails.
pub(crate) fn declare<'a>(
    declarations: &mut Vec<Declaration<'a>>,
    names: &[Token<'a>],
    declaring: Declaring,
) -> Result<(), TextFault>
    ensures ok { OnOk result (declared_from declaring.line declaring.scope declaring.tail
        (map declared_name declarations.old.items) false (symbols_of names.now)
        ≡ Some (map declared_name declarations.new.items)) }
    ensures bad { IfErr result (λ e. e ≢ OutOfMemory → e ≡ BadLine declaring.line) }
    ensures none { IfErr result (λ e. e ≢ OutOfMemory
        → declared_from declaring.line declaring.scope declaring.tail
        (map declared_name declarations.old.items) false (symbols_of names.now) ≡ None) }
{
    let mut after_name = false;
    for token in names {
        after_name = declare_token(declarations, *token, after_name, declaring)?;
    }
    if after_name {
        Ok(())
    } else {
        Err(TextFault::BadLine {
            line: declaring.line,
        })
    }
}

// Reads one token of a list of names, and returns whether it was a name.
#[tactic(auto, using(crate::proofs::ListingLemmas::declare_rules))]
fn declare_token<'a>(
    declarations: &mut Vec<Declaration<'a>>,
    token: Token<'a>,
    after_name: bool,
    declaring: Declaring,
) -> Result<bool, TextFault>
    ensures ok { IfOk result (λ after. (ss : List Symbol)
        → declared_from declaring.line declaring.scope declaring.tail
        (map declared_name declarations.old.items) after_name (symbol_of token.entry ∷ ss)
        ≡ declared_from declaring.line declaring.scope declaring.tail
        (map declared_name declarations.new.items) after ss) }
    ensures bad { IfErr result (λ e. e ≢ OutOfMemory → e ≡ BadLine declaring.line) }
    ensures none { IfErr result (λ e. e ≢ OutOfMemory → (ss : List Symbol)
        → declared_from declaring.line declaring.scope declaring.tail
        (map declared_name declarations.old.items) after_name (symbol_of token.entry ∷ ss) ≡ None) }
{
    let line = declaring.line;
    if after_name {
        if is_mark(token, Mark::Comma) {
            return Ok(false);
        }
        return Err(TextFault::BadLine { line });
    }
    let Some(name) = name_of(token) else {
        return Err(TextFault::BadLine { line });
    };
    declarations.push(Declaration {
        line,
        scope: declaring.scope,
        name,
        kind: declaring.tail.kind,
        initial: declaring.tail.initial,
    })?;
    Ok(true)
}
