//! `papi_avail`: lists the presets and user events of a cpu, or says what one of them is.
ghost use Rattle.std.specs.Prelude.{IfOk, IsSome, Ok};
ghost use Rattle.papi_tools.specs.Openings.{Answers, ToolSays};
ghost use Rattle.papi_tools.specs.Looking.{FilesSeen, IsTextual, LookedBy, StaysHeld, StopsByFile};
ghost use Rattle.papi_tools.specs.PresetListing.{avail_verdict, presets_said};

use crate::tables::read_catalog;
use crate::{Said, ToolResult};
use component_table::Catalog;
use papi_base::{Bytes, Files, Text};
use std::alloc::Global;
use tool_output::{avail_event, avail_list};
use tool_words::AvailWords;

// What is said of the presets and user events of a catalog.
fn said_of(alloc: Global, catalog: &Catalog, available: bool, event: &Option<Text>) -> ToolResult
    ensures said { Answers result (Ok (presets_said catalog.now available event.now)) }
    ensures textual { IfOk result (λ said. IsTextual (IsSome event.now) said.outcome) }
    ensures cause { (before after : FilesSeen) → StopsByFile result before after }
{
    match event {
        None => {
            let list = avail_list(alloc, catalog, available)?;
            Ok(Said::text(alloc, true, Bytes::new(list.into_bytes())))
        }
        Some(name) => {
            let event = avail_event(alloc, catalog, name.as_str())?;
            Ok(Said::text(alloc, event.known, Bytes::new(event.text.into_bytes())))
        }
    }
}

/// `papi_avail`: reads the unit and the preset file, and lists the presets of a cpu, all of them or the available ones alone,
/// or says what the event of a name is.
pub fn list_presets<F: Files>(alloc: Global, files: &mut F, words: &AvailWords) -> ToolResult
    ensures said { ToolSays (F.held files.old) result avail_verdict words.now }
    ensures textual { IfOk result (λ said. IsTextual (IsSome words.now.event) said.outcome) }
    ensures looked { LookedBy F.held F.misses F.faults F.lent result 0 files.old files.new }
    ensures held { StaysHeld (F.held files.old) (F.held files.new) }
{
    let catalog = read_catalog(alloc, files, &words.unit, Some(&words.presets))?;
    said_of(alloc, &catalog, words.available, &words.event)
}
