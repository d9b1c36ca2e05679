//! Why a text is not a formula.
ghost use Rattle.std.specs.Prelude.{◌≡◌};
ghost use Rattle.postfix_rules.specs.declared.fault.FormulaFault.TheVariants.{Memory};

use std::alloc::{AllocError, AllocFailed};
use thiserror::Error;

/// Why a text is not a formula at a token. Causes are tried in this order, but in infix order `TooDeep` is the last.
#[derive(Clone, Copy, Debug, PartialEq, Eq, Error)]
pub enum FormulaCause {
    /// It is not a token.
    #[error("unknown token")]
    UnknownToken,
    /// It is a constant above 2^63 - 1.
    #[error("constant too large")]
    ConstantTooLarge,
    /// It is a native event that is not there.
    #[error("no such native event")]
    NativeRange,
    /// In postfix order an operator with fewer than two operands before it, in infix order an operator, `)` or the end
    /// where an operand must begin, and the end of a text without tokens.
    #[error("operand missing")]
    OperandMissing,
    /// In postfix order an operand after a stack of 16, in infix order a `(` inside 16 others, or the end of a formula
    /// that needs a larger stack.
    #[error("too deep")]
    TooDeep,
    /// In postfix order the end, if several operands are left, in infix order an operand or `(` after an operand.
    #[error("operands left")]
    OperandsLeft,
    /// In infix order a `)` that closes nothing, or the end inside an open `(`.
    #[error("unbalanced parentheses")]
    Unbalanced,
}

/// Why a text is not a formula: its first fault, by the number of the token from 1; or memory ran out.
///
/// A fault at the end of the text has the place one past the last token.
#[derive(Clone, Copy, Debug, PartialEq, Eq, Error)]
pub enum FormulaFault {
    #[error("token {place}: {cause}")]
    At { place: u64, cause: FormulaCause },
    #[error("out of memory")]
    Memory,
}

impl From<AllocError> for FormulaFault {
    ghost from_gives = { λ _ fault. fault ≡ Memory };

    fn from(_error: AllocError) -> FormulaFault {
        FormulaFault::Memory
    }
}

impl<T: Drop> From<AllocFailed<T>> for FormulaFault {
    ghost from_gives = { λ _ fault. fault ≡ Memory };

    fn from(_error: AllocFailed<T>) -> FormulaFault {
        FormulaFault::Memory
    }
}
