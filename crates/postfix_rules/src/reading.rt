//! Formulas from their texts.
ghost use Rattle.std.specs.Prelude.{◌≡◌, ◌+◌, ◌<◌, ◌^◌, IfErr, IfOk};
ghost use Rattle.postfix_rules.specs.Reading.{IsTextFault, IsTreeText, ReadsFormula};
ghost use Rattle.postfix_rules.specs.declared.fault.FormulaFault.TheVariants.{At};

use crate::judging::{end_cause, height_after, judge};
use crate::piece::next_piece;
use crate::{Formula, FormulaCause, FormulaFault};
use std::alloc::Global;

/// The fault of the token after n others.
pub(crate) fn fault_after(tokens: usize, cause: FormulaCause) -> FormulaFault
    requires { tokens < 2 ^ 63 }
    ensures { result ≡ At (tokens + 1) cause }
{
    FormulaFault::At {
        place: tokens as u64 + 1,
        cause,
    }
}

// The formula of a text, or its first fault, found by the height of the stack alone.
fn formula_in(alloc: Global, text: &str, natives: u32) -> Result<Formula, FormulaFault>
    ensures read { ReadsFormula result natives text.now }
    ensures natives { IfOk result (λ f. f.natives ≡ natives) }
{
    let mut tokens = Vec::new(alloc);
    let mut height = 0;
    let mut rest = text.as_bytes();
    while let Some((piece, after)) = next_piece(rest) {
        match judge(natives, height, piece) {
            Ok(token) => {
                height = height_after(height, token);
                tokens.push(token)?;
            }
            Err(cause) => return Err(fault_after(tokens.len(), cause)),
        }
        rest = after;
    }
    match end_cause(height) {
        Some(cause) => Err(fault_after(tokens.len(), cause)),
        None => Ok(Formula::new(tokens, natives)),
    }
}

/// The formula that a text writes over n native events, or the text's first fault.
///
/// Tokens are ended by `|`, the last one perhaps by nothing, with spaces and tabs round them: a constant in decimal, `N`
/// and the number of a native event, or one of `+ - * /`. Source: papi_events.csv; the stack has 16 places, and a
/// constant is at most 2^63 - 1.
#[tactic(auto, using(crate::proofs::Refusals::answer_tree, crate::proofs::Refusals::answer_fault))]
pub fn read_postfix(alloc: Global, text: &str, natives: u32) -> Result<Formula, FormulaFault>
    ensures read { ReadsFormula result natives text.now }
    ensures natives { IfOk result (λ f. f.natives ≡ natives) }
    ensures tree { IfOk result (λ f. IsTreeText text.now f.tokens) }
    ensures fault { IfErr result (λ fault. IsTextFault natives text.now fault) }
{
    formula_in(alloc, text, natives)
}
