//! Formulas as texts.
ghost use Rattle.std.specs.Prelude.{◌≡◌, ◌++◌, ◌∷◌, [], IfOk, OnOk, Ok, string_bytes};
ghost use Rattle.postfix_rules.specs.Reading.{formula_of};
ghost use Rattle.postfix_rules.specs.Tokens as Tokens;
ghost use Rattle.postfix_rules.specs.Tokens.{formula_text, token_text};

use crate::{Formula, Operator, Token};
use std::alloc::{AllocError, Global};

fn operator_text(operator: Operator) -> &'static str
    ensures { result.now ≡ Tokens.operator_text operator }
{
    match operator {
        Operator::Plus => "+",
        Operator::Minus => "-",
        Operator::Times => "*",
        Operator::Over => "/",
    }
}

// A token and its bar.
fn token_piece(alloc: Global, token: Token) -> Result<String, AllocError>
    ensures { IfOk result (λ s. string_bytes s ≡ token_text token ++ 124 ∷ []) }
{
    match token {
        Token::Constant(n) => format!(in alloc; "{n}|"),
        Token::Native(i) => format!(in alloc; "N{i}|"),
        Token::Operator(operator) => format!(in alloc; "{}|", operator_text(operator)),
    }
}

/// The text of a formula: its tokens in order, each followed by `|`, with numbers in decimal without leading zeros.
///
/// The text reads as the formula over as many native events.
pub fn write_formula(alloc: Global, f: &Formula) -> Result<String, AllocError>
    ensures text { IfOk result (λ s. string_bytes s ≡ formula_text f.now.tokens) }
    ensures back { IfOk result (λ s. formula_of f.now.natives (string_bytes s) ≡ Ok f.now) }
{
    let _natives = f.natives();
    tokens_text(alloc, f.tokens())
}

fn tokens_text(alloc: Global, tokens: &[Token]) -> Result<String, AllocError>
    ensures { IfOk result (λ s. string_bytes s ≡ formula_text tokens.now) }
{
    let mut text = String::new(alloc);
    for token in tokens {
        let piece = token_piece(alloc, *token)?;
        text.push_str(piece.as_str())?;
    }
    Ok(text)
}
