//! Laws of the definitions, each the contract of a function that does nothing.
ghost use Rattle.postfix_rules.specs.Infix.{OneTree};
ghost use Rattle.postfix_rules.specs.InfixLaws.{FirstInfixFaults, FromOneInfix, SameTree};
ghost use Rattle.postfix_rules.specs.Laws.{EachIsAmong, EarlierStay, FormulasSpell, NoneTwice, OneMoreJoins, SameEvents, SameNatives, TreesValued};
ghost use Rattle.postfix_rules.specs.Reading.{FirstFaults, FromOne, SameTokens, WrittenBytes, WrittenRead};

/// The tests for equal events mean equality.
#[tactic(auto, using(crate::proofs::Equal::same_natives, crate::proofs::Equal::same_events))]
pub fn sameness_laws()
    ensures natives { SameNatives }
    ensures events { SameEvents }
{}

/// The native events of a list of events: first mentions, in order.
#[tactic(auto, using(crate::proofs::Joined::one_more_joins, crate::proofs::Joined::earlier_stay, crate::proofs::Joined::each_is_among, crate::proofs::Joined::none_twice))]
pub fn natives_laws()
    ensures joins { OneMoreJoins }
    ensures stay { EarlierStay }
    ensures among { EachIsAmong }
    ensures once { NoneTwice }
{}

/// The tokens of a formula spell a tree, and their value is that of every tree that they spell.
#[tactic(auto, using(crate::proofs::Spelled::formulas_spell, crate::proofs::TreeValues::trees_valued))]
pub fn formula_laws()
    ensures spell { FormulasSpell }
    ensures valued { TreesValued }
{}

/// A text is a formula exactly if its parts are the formula's tokens, and is refused exactly at its first fault, which
/// is the least place where the parts before it are a pile of at most 16 trees and the part there has a cause.
pub fn reading_laws()
    ensures tokens { SameTokens }
    ensures faults { FirstFaults }
    ensures places { FromOne }
{}

/// The written text of a formula reads as that formula, and has digits, `N`, `|` and operators alone.
pub fn writing_laws()
    ensures read { WrittenRead }
    ensures bytes { WrittenBytes }
{}

/// Tokens in infix order write one tree at most. A text reads as a formula exactly if it writes a tree by the grammar,
/// which the formula's tokens spell, and is refused exactly at its first fault.
pub fn infix_laws()
    ensures one { OneTree }
    ensures tree { SameTree }
    ensures faults { FirstInfixFaults }
    ensures places { FromOneInfix }
{}
