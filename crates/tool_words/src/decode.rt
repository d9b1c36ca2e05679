//! The words of `papi_decode`: `-U UNIT -P PRESETS -C CPU [-a]`.
#![tactic(auto, unfolding(crate::specs::DecodeForm::decode_form))]

ghost use Rattle.tool_words.specs.DecodeForm.{decode_form};

use crate::argument::Argument::{self, Available, NeededCpu, NeededPresets, Unit};
use crate::fault::WordsFault;
use crate::matches::{is_set, text_needed};
use crate::presets::{PresetWords, presets_needed};
use crate::tool::ToolWords;
use clap::ArgMatches;
use papi_base::Text;
use std::alloc::Global;

/// What the words of `papi_decode` ask for: the name of the unit file, the presets, and whether the available presets
/// alone are asked for.
#[derive(Drop)]
pub struct DecodeWords {
    pub unit: Text,
    pub presets: PresetWords,
    pub available: bool,
}

impl ToolWords for DecodeWords {
    ghost form = { decode_form };

    fn arguments() -> &'static [Argument] {
        &[Unit, NeededPresets, NeededCpu, Available]
    }

    fn asked_by(alloc: Global, matches: &ArgMatches<'_>) -> Result<DecodeWords, WordsFault> {
        Ok(DecodeWords {
            unit: text_needed(alloc, matches, "unit")?,
            presets: presets_needed(alloc, matches)?,
            available: is_set(matches, "available"),
        })
    }
}
