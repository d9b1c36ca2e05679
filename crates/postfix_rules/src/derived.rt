//! Derived events.
ghost use Rattle.std.specs.Prelude.{◌≡◌, ◌<◌, ◌↔◌, IsTrue, length};
ghost use Rattle.postfix_rules.specs.Rules.{CanBeOver, IsDerived, OfOneComponent};

use crate::Rule;
use papi_base::Natives;
use std::marker::Model;

/// How many native events a derived event has at most.
pub const MOST_NATIVES: u32 = 8;

/// An event that is derived from 1 to [`MOST_NATIVES`] native events of one component by a rule. A plain rule has
/// one native event, and a formula is over as many as there are. Source: papi_events.csv.
#[derive(Drop)]
pub struct Derived {
    natives: Natives,
    rule: Rule,
}

impl Model for Derived {
    ghost use Rattle.postfix_rules.specs.Rules.{DerivedView, IsDerived};

    ghost Value = { DerivedView };

    ghost view = { λ d. record { natives = d.natives; rule = d.rule } };

    ghost invariant = { λ d. IsDerived (record { natives = d.natives; rule = d.rule }) };
}

// Whether the native events are of one component.
fn are_of_one_component(natives: &Natives) -> bool
    requires { 0 < length natives.now }
    ensures { IsTrue result ↔ OfOneComponent natives.now }
{
    let comp = natives.at(0).comp;
    for i in 0..natives.len() {
        if natives.at(i).comp != comp {
            return false;
        }
    }
    true
}

// Whether the rule can be over n native events.
fn is_over(rule: &Rule, natives: u32) -> bool
    ensures { IsTrue result ↔ CanBeOver rule.now natives }
{
    match rule {
        Rule::Plain => natives == 1,
        Rule::Sum => true,
        Rule::Sub => true,
        Rule::Postfix(f) => f.natives() == natives,
    }
}

/// Whether native events and a rule make a derived event: there are from 1 to [`MOST_NATIVES`] of one component, a
/// plain rule has one, and a formula was read with this number.
pub fn is_derived(natives: &Natives, rule: &Rule) -> bool
    ensures { IsTrue result ↔ IsDerived (record { natives = natives.now; rule = rule.now }) }
{
    let count = natives.len();
    if count == 0 || count > MOST_NATIVES {
        return false;
    }
    are_of_one_component(natives) && is_over(rule, count)
}

impl Derived {
    /// What the rule derives from the native events.
    pub fn new(natives: Natives, rule: Rule) -> Derived
        requires { IsDerived (record { natives = natives; rule = rule }) }
        ensures { result ≡ record { natives = natives; rule = rule } }
    {
        Derived { natives, rule }
    }

    /// The native events in the rule's order.
    pub fn natives(&self) -> &Natives
        ensures natives { result.now ≡ self.now.natives }
        ensures derived { IsDerived self.now }
    {
        &self.natives
    }

    /// The rule.
    pub fn rule(&self) -> &Rule
        ensures rule { result.now ≡ self.now.rule }
        ensures derived { IsDerived self.now }
    {
        &self.rule
    }
}
