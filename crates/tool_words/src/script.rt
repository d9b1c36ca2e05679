//! What the words of every tool over a script ask for: `-U UNIT [-P PRESETS -C CPU] [--workers N] SCRIPT [STREAM..]`.

ghost use Rattle.clap.specs.Words.{found_of, rows_of};
ghost use Rattle.tool_words.specs.ScriptForm.{script_words_in};
ghost use Rattle.tool_words.specs.Words.{Answers};

use crate::count::count_asked;
use crate::fault::WordsFault;
use crate::matches::text_needed;
use crate::presets::{PresetWords, presets_asked};
use crate::streams::{StreamNames, streams_asked};
use crate::workers::Workers;
use clap::ArgMatches;
use papi_base::Text;
use std::alloc::Global;

// The name of the unit file, the presets if they are asked for, how many workers, the name of the script, and the names of
// the streams.
#[derive(Drop)]
pub(crate) struct ScriptWords {
    pub(crate) unit: Text,
    pub(crate) presets: Option<PresetWords>,
    pub(crate) workers: Workers,
    pub(crate) script: Text,
    pub(crate) streams: StreamNames,
}

// What the matches of the words ask for.
#[tactic(auto, unfolding(crate::specs::ScriptForm::script_words_in))]
pub(crate) fn script_asked(
    alloc: Global,
    matches: &ArgMatches<'_>,
) -> Result<ScriptWords, WordsFault>
    ensures { Answers result (script_words_in (rows_of (found_of matches.now))) }
{
    Ok(ScriptWords {
        unit: text_needed(alloc, matches, "unit")?,
        presets: presets_asked(alloc, matches)?,
        workers: count_asked(matches, "workers")?,
        script: text_needed(alloc, matches, "script")?,
        streams: streams_asked(alloc, matches)?,
    })
}
