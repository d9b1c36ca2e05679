//! Formulas from their texts in infix order.
ghost use Rattle.std.specs.Prelude.{◌≡◌, ◌<◌, ◌≤◌, ◌^◌, [], IfOk, IsTrue, ◌↔◌};
ghost use Rattle.postfix_rules.specs.Faults.{IsFormula};
ghost use Rattle.postfix_rules.specs.InfixFaults.{ReadsInfix};
ghost use Rattle.postfix_rules.specs.InfixReading.{AnswersInfix, infix_ended, infix_of};

use crate::infix_judging::judge_part;
use crate::infix_part::next_part;
use crate::judging::{end_cause, height_after, token_cause};
use crate::postfix_order::PostfixOrder;
use crate::reading::fault_after;
use crate::{Formula, FormulaCause, FormulaFault, Token};
use std::alloc::Global;

// Whether the tokens are a formula over n native events.
fn is_formula(natives: u32, tokens: &[Token]) -> bool
    ensures { IsTrue result ↔ IsFormula natives tokens.now }
{
    let mut height = 0;
    for i in 0..tokens.len() {
        let token = tokens[i];
        if token_cause(natives, height, token).is_some() {
            return false;
        }
        height = height_after(height, token);
    }
    end_cause(height).is_none()
}

// The formula at the end of a text of n tokens, or the fault there.
fn end_formula(order: PostfixOrder, natives: u32, tokens: usize) -> Result<Formula, FormulaFault>
    requires { tokens < 2 ^ 63 }
    ensures { AnswersInfix result (infix_ended natives tokens order []) }
{
    if order.must_begin() {
        return Err(fault_after(tokens, FormulaCause::OperandMissing));
    }
    if order.open() > 0 {
        return Err(fault_after(tokens, FormulaCause::Unbalanced));
    }
    let postfix = order.into_tokens()?;
    if is_formula(natives, postfix.as_slice()) {
        Ok(Formula::new(postfix, natives))
    } else {
        Err(fault_after(tokens, FormulaCause::TooDeep))
    }
}

// The formula of a text, or its first fault.
fn formula_in(alloc: Global, text: &str, natives: u32) -> Result<Formula, FormulaFault>
    ensures { AnswersInfix result (infix_of natives text.now) }
{
    let mut order = PostfixOrder::new(alloc);
    let mut tokens = 0;
    let mut rest = text.as_bytes();
    while let Some((part, after)) = next_part(rest) {
        match judge_part(natives, order.must_begin(), order.open(), part) {
            Ok(token) => order.take(token)?,
            Err(cause) => return Err(fault_after(tokens, cause)),
        }
        tokens += 1;
        rest = after;
    }
    end_formula(order, natives, tokens)
}

/// The formula that a text in infix order writes over n native events, or the text's first fault.
///
/// A token is a constant in decimal, `N` and the number of a native event, one of `+ - * /`, or a parenthesis, with spaces
/// and tabs between them. `*` and `/` bind more tightly than `+` and `-`, and operators of one rank group to the left.
/// Parentheses lie at most 16 deep. Source: papi_events.csv; the stack has 16 places, and a constant is at most 2^63 - 1.
#[tactic(auto, using(crate::proofs::InfixSound::answer_natives, crate::proofs::InfixSound::answer_infix))]
pub fn read_infix(alloc: Global, text: &str, natives: u32) -> Result<Formula, FormulaFault>
    ensures read { AnswersInfix result (infix_of natives text.now) }
    ensures natives { IfOk result (λ f. f.natives ≡ natives) }
    ensures tree { ReadsInfix result natives text.now }
{
    formula_in(alloc, text, natives)
}
