//! The entry of a formula in infix order.

ghost use Rattle.std.specs.Prelude.{◌≡◌};
ghost use Rattle.user_events.specs.Entries as Entries;

use postfix_rules::read_infix;
use preset_csv::{Def, Entry, Judgement, Kind, RowJudge, formula_refusal};
use std::alloc::Global;

// Whether a formula has a `#`.
fn has_rate(formula: &[u8]) -> bool
    ensures { result ≡ Entries.has_rate formula.now }
{
    formula.iter().any(|&b| b == b'#')
}

/// The formulas of a preset file with user events.
pub struct EventJudge;

impl RowJudge for EventJudge {
    ghost infix_judged = { Entries.infix_entry };

    fn infix_entry(alloc: Global, formula: &str, natives: Vec<String>) -> Judgement {
        if has_rate(formula.as_bytes()) {
            return Ok(Entry::Uncomputed);
        }
        match read_infix(alloc, formula, natives.len() as u32) {
            Ok(formula) => Ok(Entry::Def(Def::new(Kind::Postfix, Some(formula), natives))),
            Err(fault) => Err(formula_refusal(fault)),
        }
    }
}
