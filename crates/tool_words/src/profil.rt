//! The words of `papi_profil`:
//! `-U UNIT -M MAP [-P PRESETS -C CPU] [--thread T] [--set S] [--index I] [--workers N] SCRIPT [STREAM..]`.
#![tactic(auto, unfolding(crate::specs::ProfilForm::profil_form))]

ghost use Rattle.tool_words.specs.ProfilForm.{profil_form};

use crate::argument::Argument::{
    self, Cpu, Index, Map, Presets, Script, Set, Streams, Thread, Unit, WorkerCount,
};
use crate::fault::WordsFault;
use crate::matches::{number_of, text_needed};
use crate::presets::PresetWords;
use crate::script::script_asked;
use crate::streams::StreamNames;
use crate::tool::ToolWords;
use crate::workers::Workers;
use clap::ArgMatches;
use papi_base::{MOST_SET_EVENTS, MOST_SETS, THREADS, Text};
use std::alloc::Global;

/// The greatest number of a thread whose notes are counted.
pub const LAST_THREAD: u32 = THREADS - 1;

/// The greatest number of a set whose notes are counted.
pub const LAST_SET: u32 = MOST_SETS as u32 - 1;

/// The greatest index of an event whose notes are counted.
pub const LAST_INDEX: u32 = MOST_SET_EVENTS as u32 - 1;

/// What the words of `papi_profil` ask for: the names of the unit file and of the map, the presets if they are asked for,
/// whose notes are counted (those of a thread, of one of its sets, and of the event of this index in it, each counted from
/// 0), how many workers, the name of the script, and the names of the streams.
#[derive(Drop)]
pub struct ProfilWords {
    pub unit: Text,
    pub map: Text,
    pub presets: Option<PresetWords>,
    pub thread: u32,
    pub set: u32,
    pub index: u32,
    pub workers: Workers,
    pub script: Text,
    pub streams: StreamNames,
}

impl ToolWords for ProfilWords {
    ghost form = { profil_form };

    fn arguments() -> &'static [Argument] {
        &[
            Unit,
            Map,
            Presets,
            Cpu,
            Thread,
            Set,
            Index,
            WorkerCount,
            Script,
            Streams,
        ]
    }

    fn asked_by(alloc: Global, matches: &ArgMatches<'_>) -> Result<ProfilWords, WordsFault> {
        let asked = script_asked(alloc, matches)?;
        Ok(ProfilWords {
            unit: asked.unit,
            map: text_needed(alloc, matches, "map")?,
            presets: asked.presets,
            thread: number_of(matches, "thread").ok_or(WordsFault::BadWords)?,
            set: number_of(matches, "set").ok_or(WordsFault::BadWords)?,
            index: number_of(matches, "index").ok_or(WordsFault::BadWords)?,
            workers: asked.workers,
            script: asked.script,
            streams: asked.streams,
        })
    }
}
