//! `papi_native_avail`: lists the native events of a unit, or says what one of them is.
ghost use Rattle.std.specs.Prelude.{◌≡◌, IfOk, IsSome, Ok, option_map};
ghost use Rattle.papi_tools.specs.Openings.{Answers, ToolSays};
ghost use Rattle.papi_tools.specs.Looking.{FilesSeen, IsTextual, LookedBy, StaysHeld, StopsByFile};
ghost use Rattle.papi_tools.specs.NativeListing.{native_avail_verdict, natives_said};

use crate::contents::read_file;
use crate::limits::TABLE_BYTES;
use crate::{Said, ToolResult};
use event_tables::Tables;
use papi_base::{Bytes, Files, Text};
use std::alloc::Global;
use tool_output::{native_event, native_list};
use tool_words::NativeAvailWords;

// The text, if it is there.
fn str_of(text: &Option<Text>) -> Option<&str>
    ensures { option_map (λ s. s.now) result ≡ text.now }
{
    match text {
        Some(text) => Some(text.as_str()),
        None => None,
    }
}

// What is said of the native events of a unit.
fn said_of(alloc: Global, tables: &Tables, words: &NativeAvailWords) -> ToolResult
    ensures said { Answers result (Ok (natives_said tables.now words.now words.now.event)) }
    ensures textual { IfOk result (λ said. IsTextual (IsSome words.now.event) said.outcome) }
    ensures cause { (before after : FilesSeen) → StopsByFile result before after }
{
    match &words.event {
        None => {
            let included = str_of(&words.included);
            let excluded = str_of(&words.excluded);
            let list = native_list(alloc, tables, included, excluded, words.umasks)?;
            Ok(Said::text(alloc, true, Bytes::new(list.into_bytes())))
        }
        Some(name) => {
            let event = native_event(alloc, tables, name.as_str())?;
            Ok(Said::text(alloc, event.known, Bytes::new(event.text.into_bytes())))
        }
    }
}

/// `papi_native_avail`: reads the unit, and lists those of its native events that the words choose, or says what the event of a
/// name is.
pub fn list_natives<F: Files>(alloc: Global, files: &mut F, words: &NativeAvailWords) -> ToolResult
    ensures said { ToolSays (F.held files.old) result native_avail_verdict words.now }
    ensures textual { IfOk result (λ said. IsTextual (IsSome words.now.event) said.outcome) }
    ensures looked { LookedBy F.held F.misses F.faults F.lent result 0 files.old files.new }
    ensures held { StaysHeld (F.held files.old) (F.held files.new) }
{
    let tables: Tables = read_file(alloc, files, words.unit.as_str(), TABLE_BYTES)?;
    said_of(alloc, &tables, words)
}
