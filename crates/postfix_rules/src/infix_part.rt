//! The parts of a text in infix order, one by one.
ghost use Rattle.std.specs.Prelude.{◌≡◌, ◌<◌, ◌+◌, false, true, IfSome, length, slice_index};
ghost use Rattle.std.specs.List.{prefix_len, take_while};
ghost use Rattle.papi_base.specs.Numerals as Numerals;
ghost use Rattle.table_rows.specs.Texts as Texts;
ghost use Rattle.postfix_rules.specs.InfixJudged.{Begins, BeginsPart, ReadsPart};
ghost use Rattle.postfix_rules.specs.InfixTokens.{in_infix, infix_from, infix_parts, sign_part};
ghost use Rattle.postfix_rules.specs.Faults.{Part};
ghost use Rattle.postfix_rules.specs.Judged.{ReadsToken};

use crate::judging::{constant_of, native_of, operator_of};
use crate::{FormulaCause, InfixToken, Token};
use table_rows::is_blank;

fn is_digit(b: u8) -> bool
    ensures { result ≡ Numerals.is_digit b }
{
    48 <= b && b <= 57
}

// How many digits a text begins with.
fn digits_in(text: &[u8]) -> usize
    ensures { result ≡ prefix_len Numerals.is_digit text.now }
{
    for i in 0..text.len() {
        if !is_digit(text[i]) {
            return i;
        }
    }
    text.len()
}

// A token that formulas in postfix order have too, or its cause.
fn in_infix_order(token: Result<Token, FormulaCause>) -> Result<InfixToken, FormulaCause>
    ensures { (part : Part) → ReadsToken token part → ReadsPart result (in_infix part) }
{
    match token {
        Ok(token) => Ok(InfixToken::Token(token)),
        Err(cause) => Err(cause),
    }
}

// An operator or a parenthesis.
fn sign_of(sign: &[u8]) -> Result<InfixToken, FormulaCause>
    requires { length sign.now ≡ 1 }
    ensures { ReadsPart result (sign_part (slice_index sign.now 0)) }
{
    if sign[0] == b'(' {
        return Ok(InfixToken::Open);
    }
    if sign[0] == b')' {
        return Ok(InfixToken::Close);
    }
    match operator_of(sign) {
        Some(operator) => Ok(InfixToken::Token(Token::Operator(operator))),
        None => Err(FormulaCause::UnknownToken),
    }
}

// The digits that a text begins with, and the text after them.
fn split_digits(text: &[u8]) -> (&[u8], &[u8])
    ensures digits { result.0.now ≡ take_while Numerals.is_digit text.now }
    ensures after { infix_from false result.1.now ≡ infix_from true text.now }
    ensures whole { length result.0.now + length result.1.now ≡ length text.now }
{
    let digits = digits_in(text);
    text.split_at(digits)
}

// The part that a text without a blank at its start begins with, and the text after it.
fn first_part(text: &[u8]) -> (Result<InfixToken, FormulaCause>, &[u8])
    requires some { 0 < length text.now }
    requires begins { Texts.is_blank (slice_index text.now 0) ≡ false }
    ensures part { BeginsPart (infix_parts text.now) result }
    ensures shorter { length result.1.now < length text.now }
{
    if is_digit(text[0]) {
        let (digits, after) = split_digits(text);
        return (in_infix_order(constant_of(digits)), after);
    }
    let (sign, after) = text.split_at(1);
    let (digits, after_digits) = split_digits(after);
    if text[0] == b'N' && digits.len() > 0 {
        return (in_infix_order(native_of(digits)), after_digits);
    }
    (sign_of(sign), after)
}

/// The first part of a text and the text after it, and `None` if the text has no part.
pub(crate) fn next_part(text: &[u8]) -> Option<(Result<InfixToken, FormulaCause>, &[u8])>
    ensures begins { Begins (infix_parts text.now) result }
    ensures shorter { IfSome result (λ p. length p.1.now < length text.now) }
{
    for i in 0..text.len() {
        if !is_blank(text[i]) {
            let (_blanks, text) = text.split_at(i);
            return Some(first_part(text));
        }
    }
    None
}
