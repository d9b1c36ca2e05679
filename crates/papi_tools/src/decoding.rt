//! `papi_decode`: gives the presets and user events of a cpu.
ghost use Rattle.std.specs.Prelude.{IfOk, Ok};
ghost use Rattle.papi_tools.specs.Openings.{Answers, ToolSays};
ghost use Rattle.papi_tools.specs.Looking.{FilesSeen, IsTextual, LookedBy, StaysHeld, StopsByFile};
ghost use Rattle.papi_tools.specs.Decoding.{decode_verdict, decoded_said, shown_in};

use crate::contents::read_file;
use crate::limits::TABLE_BYTES;
use crate::preset_file::{presets_in, read_preset_bytes};
use crate::{Said, Stop, ToolResult};
use component_table::Catalog;
use event_tables::Tables;
use papi_base::{Bytes, Files};
use std::alloc::Global;
use tool_words::DecodeWords;
use user_events::{Extended, write_extended};

// The presets and user events that are shown, out of the bytes of the preset file.
#[tactic(auto, unfolding(crate::specs::Decoding::shown_in))]
fn shown_of(
    alloc: Global,
    words: &DecodeWords,
    tables: Tables,
    bytes: &[u8],
) -> Result<Extended, Stop>
    ensures told { Answers result (shown_in words.now tables bytes.now) }
    ensures cause { (before after : FilesSeen) → StopsByFile result before after }
{
    let presets = presets_in(alloc, &words.presets, bytes)?;
    if !words.available {
        return Ok(presets);
    }
    let again = presets_in(alloc, &words.presets, bytes)?;
    let catalog = Catalog::build(alloc, tables, Some(again))?;
    let shown = catalog.only_available(alloc, presets)?;
    Ok(shown)
}

// What is said of presets and user events.
fn said_of(alloc: Global, presets: &Extended) -> ToolResult
    ensures said { Answers result (Ok (decoded_said presets.now)) }
    ensures textual { IfOk result (λ said. IsTextual ⊥ said.outcome) }
    ensures cause { (before after : FilesSeen) → StopsByFile result before after }
{
    let text = write_extended(alloc, presets)?;
    Ok(Said::text(alloc, true, Bytes::new(text)))
}

/// `papi_decode`: reads the unit and the preset file, and gives the presets and user events of a cpu as a preset file, all
/// of them or the available ones alone.
pub fn decode_presets<F: Files>(alloc: Global, files: &mut F, words: &DecodeWords) -> ToolResult
    ensures said { ToolSays (F.held files.old) result decode_verdict words.now }
    ensures textual { IfOk result (λ said. IsTextual ⊥ said.outcome) }
    ensures looked { LookedBy F.held F.misses F.faults F.lent result 0 files.old files.new }
    ensures held { StaysHeld (F.held files.old) (F.held files.new) }
{
    let tables: Tables = read_file(alloc, files, words.unit.as_str(), TABLE_BYTES)?;
    let bytes = read_preset_bytes(alloc, files, &words.presets)?;
    let presets = shown_of(alloc, words, tables, bytes.as_slice())?;
    said_of(alloc, &presets)
}
