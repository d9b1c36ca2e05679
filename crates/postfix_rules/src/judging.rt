//! One token of a formula's text, and whether it may stand where it does.
ghost use Rattle.std.specs.Prelude.{◌≡◌, ◌∷◌, ◌≤◌, true, Some};
ghost use Rattle.papi_base.specs.Numerals as Numerals;
ghost use Rattle.postfix_rules.specs.declared.limits.TheConstants.{MOST_OPERANDS};
ghost use Rattle.postfix_rules.specs.Faults as Faults;
ghost use Rattle.postfix_rules.specs.Judged.{JudgesToken, ReadsToken};
ghost use Rattle.postfix_rules.specs.Tokens as Tokens;

use crate::limits::MOST_OPERANDS;
use crate::{FormulaCause, Operator, Token};
use table_rows::{is_numeral, numeral_value};

/// The constant of some digits.
pub(crate) fn constant_of(digits: &[u8]) -> Result<Token, FormulaCause>
    requires { Numerals.is_numeral digits.now ≡ true }
    ensures { ReadsToken result (Tokens.constant_part digits.now) }
{
    match numeral_value(digits) {
        Some(n) => Ok(Token::Constant(n)),
        None => Err(FormulaCause::ConstantTooLarge),
    }
}

/// The native event of what is after `N`.
pub(crate) fn native_of(digits: &[u8]) -> Result<Token, FormulaCause>
    ensures { ReadsToken result (Tokens.native_part digits.now) }
{
    if !is_numeral(digits) {
        return Err(FormulaCause::UnknownToken);
    }
    match numeral_value(digits) {
        Some(i) if i < 1 << 32 => Ok(Token::Native(i as u32)),
        _ => Err(FormulaCause::NativeRange),
    }
}

/// The operator that a piece is.
pub(crate) fn operator_of(piece: &[u8]) -> Option<Operator>
    ensures { result ≡ Tokens.operator_of piece.now }
{
    if piece.len() != 1 {
        return None;
    }
    match piece[0] {
        b'+' => Some(Operator::Plus),
        b'-' => Some(Operator::Minus),
        b'*' => Some(Operator::Times),
        b'/' => Some(Operator::Over),
        _ => None,
    }
}

// The token of a letter and what follows it.
fn after_letter(letter: u8, digits: &[u8]) -> Result<Token, FormulaCause>
    ensures { ReadsToken result (Tokens.lettered_part (letter ∷ digits.now)) }
{
    if letter == b'N' {
        native_of(digits)
    } else {
        Err(FormulaCause::UnknownToken)
    }
}

// The token of a piece that is not an operator.
fn operand_of(piece: &[u8]) -> Result<Token, FormulaCause>
    ensures { ReadsToken result (Tokens.operand_part piece.now) }
{
    if is_numeral(piece) {
        return constant_of(piece);
    }
    match piece.split_first() {
        Some((letter, digits)) => after_letter(*letter, digits),
        None => Err(FormulaCause::UnknownToken),
    }
}

// The token that a piece is, or the cause that it has wherever it stands.
fn token_of(piece: &[u8]) -> Result<Token, FormulaCause>
    ensures { ReadsToken result (Tokens.part_of piece.now) }
{
    match operator_of(piece) {
        Some(operator) => Ok(Token::Operator(operator)),
        None => operand_of(piece),
    }
}

fn operand_cause(height: usize) -> Option<FormulaCause>
    ensures { result ≡ Faults.operand_cause height }
{
    if height >= MOST_OPERANDS {
        Some(FormulaCause::TooDeep)
    } else {
        None
    }
}

/// The cause of a token after n operands.
#[tactic(auto, unfolding(crate::specs::Faults::token_cause))]
pub(crate) fn token_cause(natives: u32, height: usize, token: Token) -> Option<FormulaCause>
    ensures { result ≡ Faults.token_cause natives height (Some token) }
{
    match token {
        Token::Constant(n) if n >= 1 << 63 => Some(FormulaCause::ConstantTooLarge),
        Token::Constant(_) => operand_cause(height),
        Token::Native(i) if i >= natives => Some(FormulaCause::NativeRange),
        Token::Native(_) => operand_cause(height),
        Token::Operator(_) if height < 2 => Some(FormulaCause::OperandMissing),
        Token::Operator(_) => None,
    }
}

/// The token that a piece is after k operands of a formula over n native events, or its cause.
pub(crate) fn judge(natives: u32, height: usize, piece: &[u8]) -> Result<Token, FormulaCause>
    ensures { JudgesToken result natives height (Tokens.part_of piece.now) }
{
    let token = token_of(piece)?;
    match token_cause(natives, height, token) {
        Some(cause) => Err(cause),
        None => Ok(token),
    }
}

/// The number of operands after a token.
pub(crate) fn height_after(height: usize, token: Token) -> usize
    requires { height ≤ MOST_OPERANDS }
    ensures { result ≡ Faults.height_after height (Some token) }
{
    match token {
        Token::Operator(_) => height.saturating_sub(1),
        Token::Constant(_) => height + 1,
        Token::Native(_) => height + 1,
    }
}

/// The cause at the end of the text, after n operands.
#[tactic(auto, unfolding(crate::specs::Faults::end_cause))]
pub(crate) fn end_cause(height: usize) -> Option<FormulaCause>
    ensures { result ≡ Faults.end_cause height }
{
    if height == 0 {
        Some(FormulaCause::OperandMissing)
    } else if height == 1 {
        None
    } else {
        Some(FormulaCause::OperandsLeft)
    }
}
