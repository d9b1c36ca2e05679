//! Whether a part of a text in infix order may stand where it does.
ghost use Rattle.std.specs.Prelude.{◌≡◌, Some};
ghost use Rattle.postfix_rules.specs.InfixFaults as InfixFaults;
ghost use Rattle.postfix_rules.specs.InfixJudged.{JudgesPart, ReadsPart};
ghost use Rattle.postfix_rules.specs.InfixTokens.{InfixPart};

use crate::limits::MOST_OPEN_PARENTHESES;
use crate::{FormulaCause, InfixToken, Token};

fn operand_cause(must: bool) -> Option<FormulaCause>
    ensures { result ≡ InfixFaults.place_of_operand must }
{
    if must {
        None
    } else {
        Some(FormulaCause::OperandsLeft)
    }
}

// The cause of `(` inside n others.
fn open_cause(must: bool, open: usize) -> Option<FormulaCause>
    ensures { result ≡ InfixFaults.open_cause must «open» }
{
    if !must {
        Some(FormulaCause::OperandsLeft)
    } else if open >= MOST_OPEN_PARENTHESES {
        Some(FormulaCause::TooDeep)
    } else {
        None
    }
}

// The cause of `)` inside n open parentheses.
fn close_cause(must: bool, open: usize) -> Option<FormulaCause>
    ensures { result ≡ InfixFaults.close_cause must «open» }
{
    if must {
        Some(FormulaCause::OperandMissing)
    } else if open == 0 {
        Some(FormulaCause::Unbalanced)
    } else {
        None
    }
}

// The cause of a token, if a factor must begin or may not, inside n open parentheses.
#[tactic(auto, unfolding(crate::specs::InfixFaults::infix_cause))]
fn token_cause(natives: u32, must: bool, open: usize, token: InfixToken) -> Option<FormulaCause>
    ensures { result ≡ InfixFaults.infix_cause natives must «open» (Some token) }
{
    match token {
        InfixToken::Open => open_cause(must, open),
        InfixToken::Close => close_cause(must, open),
        InfixToken::Token(Token::Constant(n)) if n >= 1 << 63 => {
            Some(FormulaCause::ConstantTooLarge)
        }
        InfixToken::Token(Token::Constant(_)) => operand_cause(must),
        InfixToken::Token(Token::Native(i)) if i >= natives => Some(FormulaCause::NativeRange),
        InfixToken::Token(Token::Native(_)) => operand_cause(must),
        InfixToken::Token(Token::Operator(_)) if must => Some(FormulaCause::OperandMissing),
        InfixToken::Token(Token::Operator(_)) => None,
    }
}

/// The token that a part is, if it may stand, or its cause.
pub(crate) fn judge_part(
    natives: u32,
    must: bool,
    open: usize,
    part: Result<InfixToken, FormulaCause>,
) -> Result<InfixToken, FormulaCause>
    ensures { (p : InfixPart) → ReadsPart part p → JudgesPart result natives must «open» p }
{
    let token = part?;
    match token_cause(natives, must, open, token) {
        Some(cause) => Err(cause),
        None => Ok(token),
    }
}
