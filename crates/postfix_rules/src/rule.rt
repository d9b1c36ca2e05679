//! Rules of derived events.
ghost use Rattle.std.specs.Prelude.{◌≡◌, ◌<◌, length, drop};
ghost use Rattle.std.specs.Int.{w64};
ghost use Rattle.postfix_rules.specs.Rules.{TakesCounts, rule_value};
ghost use Rattle.postfix_rules.specs.Values.{signed_sum, wrapped};

use crate::Formula;
use crate::stack::eval;

/// How an event's value comes from the counts of its native events: the count itself, their sum, the first less the
/// others, or a formula. Source: papi_events.csv.
#[derive(Drop)]
pub enum Rule {
    Plain,
    Sum,
    Sub,
    Postfix(Formula),
}

/// The sum in signed 64 bits that wrap.
fn sum_of(counts: &[i64]) -> i64
    ensures { result ≡ wrapped (signed_sum counts.now) }
{
    let mut sum: i64 = 0;
    for x in counts {
        sum = sum.wrapping_add(*x);
    }
    sum
}

/// The value that a rule gives of the counts of its native events, in signed 64 bits that wrap.
pub fn value_of(r: &Rule, counts: &[i64]) -> i64
    requires some { 0 < length counts.now }
    requires fits { TakesCounts r.now (length counts.now) }
    ensures value { result ≡ rule_value r.now counts.now }
{
    match r {
        Rule::Plain => counts[0],
        Rule::Sum => sum_of(counts),
        Rule::Sub => counts[0].wrapping_sub(sum_of(&counts[1..])),
        Rule::Postfix(f) => eval(f, counts),
    }
}
