//! `papi_event_chooser`: lists the events that can be added to given ones.
ghost use Rattle.std.specs.Prelude.{◌≡◌, IfOk, Ok};
ghost use Rattle.papi_tools.specs.Openings.{Answers, ToolSays};
ghost use Rattle.papi_tools.specs.Looking.{FilesSeen, IsTextual, LookedBy, StaysHeld, StopsByFile};
ghost use Rattle.papi_tools.specs.Choosing as Choosing;
ghost use Rattle.papi_tools.specs.Choosing.{chooser_verdict, choice_said};

use crate::tables::read_catalog;
use crate::{Said, ToolResult};
use component_table::Catalog;
use papi_base::{Files, Text};
use std::alloc::Global;
use tool_output::{Candidates, choose};
use tool_words::{ChooserWords, EventKind};

// The candidates of a kind.
fn candidates_of(kind: EventKind) -> Candidates
    ensures { result ≡ Choosing.candidates_of kind }
{
    match kind {
        EventKind::Native => Candidates::Native,
        EventKind::Preset => Candidates::Preset,
    }
}

// What is said of the given events.
fn said_of(alloc: Global, catalog: &Catalog, kind: EventKind, events: &[Text]) -> ToolResult
    ensures said { Answers result (Ok (choice_said catalog.now kind events.now)) }
    ensures textual { IfOk result (λ said. IsTextual (Unit {0}) said.outcome) }
    ensures cause { (before after : FilesSeen) → StopsByFile result before after }
{
    let choice = choose(alloc, catalog, candidates_of(kind), events)?;
    Ok(Said::text(alloc, choice.all_taken, choice.text))
}

/// `papi_event_chooser`: reads the unit, and the presets if they are asked for, and lists the events that can be added to
/// the given ones, or says which of these is refused, and how.
pub fn choose_events<F: Files>(alloc: Global, files: &mut F, words: &ChooserWords) -> ToolResult
    ensures said { ToolSays (F.held files.old) result chooser_verdict words.now }
    ensures textual { IfOk result (λ said. IsTextual (Unit {0}) said.outcome) }
    ensures looked { LookedBy F.held F.misses F.faults F.lent result 0 files.old files.new }
    ensures held { StaysHeld (F.held files.old) (F.held files.new) }
{
    let catalog = read_catalog(alloc, files, &words.unit, words.presets.as_ref())?;
    said_of(alloc, &catalog, words.kind, words.events.as_slice())
}
