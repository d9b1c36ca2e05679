//! The words of `papi_run`: `-U UNIT [-P PRESETS -C CPU] [--workers N] [--notes] SCRIPT [STREAM..]`.
#![tactic(auto, unfolding(crate::specs::RunForm::run_form))]

ghost use Rattle.tool_words.specs.RunForm.{run_form};

use crate::argument::Argument::{self, Cpu, Notes, Presets, Script, Streams, Unit, WorkerCount};
use crate::fault::WordsFault;
use crate::matches::is_set;
use crate::presets::PresetWords;
use crate::script::script_asked;
use crate::streams::StreamNames;
use crate::tool::ToolWords;
use crate::workers::Workers;
use clap::ArgMatches;
use papi_base::Text;
use std::alloc::Global;

/// What the words of `papi_run` ask for: the name of the unit file, the presets if they are asked for, how many workers,
/// whether the notes are asked for, the name of the script, and the names of the streams.
#[derive(Drop)]
pub struct RunWords {
    pub unit: Text,
    pub presets: Option<PresetWords>,
    pub workers: Workers,
    pub notes: bool,
    pub script: Text,
    pub streams: StreamNames,
}

impl ToolWords for RunWords {
    ghost form = { run_form };

    fn arguments() -> &'static [Argument] {
        &[Unit, Presets, Cpu, WorkerCount, Notes, Script, Streams]
    }

    fn asked_by(alloc: Global, matches: &ArgMatches<'_>) -> Result<RunWords, WordsFault> {
        let asked = script_asked(alloc, matches)?;
        Ok(RunWords {
            unit: asked.unit,
            presets: asked.presets,
            workers: asked.workers,
            notes: is_set(matches, "notes"),
            script: asked.script,
            streams: asked.streams,
        })
    }
}
