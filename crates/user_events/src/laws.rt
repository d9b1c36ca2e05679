//! Laws of the definitions, each the contract of a function that does nothing.
ghost use Rattle.user_events.specs.Alike.{ReadsAsPresets};
ghost use Rattle.user_events.specs.Grammar.{EntriesAreByGrammar};

use postfix_rules::laws::infix_laws;

/// In a file without EVENT rows and formulas in infix order the presets are those that
/// [`read_presets`](preset_csv::read_presets) reads, and there are no user events.
pub fn alike_law()
    ensures { ReadsAsPresets }
{}

/// A row with a formula in infix order gives an entry exactly if the formula writes a tree by the grammar, and the entry's tokens spell
/// that tree. It is refused exactly for the cause of the formula's first fault.
pub fn grammar_law()
    ensures { EntriesAreByGrammar }
{
    infix_laws();
}
