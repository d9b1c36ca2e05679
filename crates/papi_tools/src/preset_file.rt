//! Preset files by name.
ghost use Rattle.std.specs.Option.{option_copied};
ghost use Rattle.papi_tools.specs.Openings.{Answers, Is, Leads, file_bytes, opened};
ghost use Rattle.papi_tools.specs.Contents.{after_presets, presets_asked, presets_of};
ghost use Rattle.papi_tools.specs.Looking.{FilesSeen, LookedBy, StaysHeld, StopsByFile};

use crate::contents::faulty;
use crate::limits::TABLE_BYTES;
use crate::opening::whole_file;
use crate::{FileCause, Stop};
use papi_base::{Bytes, Files};
use preset_csv::PresetFault;
use std::alloc::Global;
use tool_words::PresetWords;
use user_events::{Extended, read_extended};

/// The presets and user events for the asked cpu in the bytes of a preset file, or its first fault.
#[tactic(auto, unfolding(crate::specs::Contents::presets_of))]
pub fn presets_in(alloc: Global, words: &PresetWords, bytes: &[u8]) -> Result<Extended, Stop>
    ensures told { Answers result (presets_of words.now bytes.now) }
    ensures cause { (before after : FilesSeen) → StopsByFile result before after }
{
    match read_extended(alloc, bytes, words.cpu.as_str()) {
        Ok(presets) => Ok(presets),
        Err(PresetFault::Row { row, cause }) => {
            faulty(alloc, words.file.as_str(), row, FileCause::PresetRow(cause))
        }
        Err(PresetFault::Memory) => Err(Stop::Memory),
    }
}

/// Reads a preset file whole, or says why not.
pub fn read_preset_bytes<F: Files>(
    alloc: Global,
    files: &mut F,
    words: &PresetWords,
) -> Result<Bytes, Stop>
    ensures found { Leads Is result
        (λ openings. file_bytes TABLE_BYTES openings words.now.file) opened (F.held files.old)
        (F.held files.new) }
    ensures looked { LookedBy F.held F.misses F.faults F.lent result 0 files.old files.new }
    ensures held { StaysHeld (F.held files.old) (F.held files.new) }
{
    whole_file(alloc, files, words.file.as_str(), TABLE_BYTES)
}

/// Reads the presets and user events if they are asked for, or says why not.
pub fn read_presets_asked<F: Files>(
    alloc: Global,
    files: &mut F,
    words: Option<&PresetWords>,
) -> Result<Option<Extended>, Stop>
    ensures found { Leads Is result (λ openings. presets_asked openings (option_copied words.entry))
        (after_presets (option_copied words.entry)) (F.held files.old) (F.held files.new) }
    ensures looked { LookedBy F.held F.misses F.faults F.lent result 0 files.old files.new }
    ensures held { StaysHeld (F.held files.old) (F.held files.new) }
{
    match words {
        Some(words) => {
            let bytes = read_preset_bytes(alloc, files, words)?;
            let presets = presets_in(alloc, words, bytes.as_slice())?;
            Ok(Some(presets))
        }
        None => Ok(None),
    }
}
