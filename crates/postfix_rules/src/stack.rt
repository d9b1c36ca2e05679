//! The value of a formula on a stack of numbers.
ghost use Rattle.std.specs.Prelude.{◌≡◌, ◌≤◌, length, map, Some, None};
ghost use Rattle.postfix_rules.specs.declared.limits.TheConstants.{MOST_OPERANDS};
ghost use Rattle.postfix_rules.specs.Faults.{IsFormula, height_after, token_cause};
ghost use Rattle.postfix_rules.specs.Stack.{pile, stepped};
ghost use Rattle.postfix_rules.specs.Values.{IsTreeValue, applied, formula_value};

use crate::limits::MOST_OPERANDS;
use crate::{Formula, Operator, Token};

/// The value of an operator at two numbers.
#[tactic(auto, unfolding(crate::specs::Values::divided))]
pub fn apply(operator: Operator, x: i64, y: i64) -> i64
    ensures { result ≡ applied operator x y }
{
    match operator {
        Operator::Plus => x.wrapping_add(y),
        Operator::Minus => x.wrapping_sub(y),
        Operator::Times => x.wrapping_mul(y),
        Operator::Over => { if y == 0 { 0 } else { x.wrapping_div(y) } }
    }
}

/// Works a token that has no cause on the stack, and gives the stack's new height.
fn step(counts: &[i64], token: Token, stack: &mut [i64; MOST_OPERANDS], height: usize) -> usize
    requires clear { token_cause (length counts.now) height (Some token) ≡ None }
    requires few { height ≤ MOST_OPERANDS }
    ensures height { result ≡ height_after height (Some token) }
    ensures stack { pile stack.new result ≡ stepped counts.now token (pile stack.old height) }
{
    match token {
        Token::Constant(n) => {
            stack[height] = n as i64;
            height + 1
        }
        Token::Native(k) => {
            stack[height] = counts[k as usize];
            height + 1
        }
        Token::Operator(operator) => {
            let y = stack[height - 1];
            let x = stack[height - 2];
            stack[height - 2] = apply(operator, x, y);
            height - 1
        }
    }
}

/// The value of the tree that the tokens spell.
fn value_on_stack(tokens: &[Token], counts: &[i64]) -> i64
    requires { IsFormula (length counts.now) tokens.now }
    ensures { result ≡ formula_value counts.now tokens.now }
{
    let mut stack = [0; MOST_OPERANDS];
    let mut height = 0;
    for i in 0..tokens.len() {
        height = step(counts, tokens[i], &mut stack, height);
    }
    stack[0]
}

/// The value of a formula at the counts of its native events, in signed 64 bits that wrap.
///
/// It is the value of the tree that the formula's tokens spell.
pub fn eval(f: &Formula, counts: &[i64]) -> i64
    requires counts { length counts.now ≡ f.now.natives }
    ensures value { result ≡ formula_value counts.now f.now.tokens }
    ensures tree { IsTreeValue counts.now f.now.tokens result }
{
    value_on_stack(f.tokens(), counts)
}
