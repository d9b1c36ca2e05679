//! The tokens of formulas in infix order.
use crate::Token;

/// A token of a formula in infix order: one that formulas in postfix order have too, or a parenthesis.
#[derive(Clone, Copy)]
pub enum InfixToken {
    Token(Token),
    Open,
    Close,
}
