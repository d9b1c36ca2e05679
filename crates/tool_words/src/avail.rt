//! The words of `papi_avail`: `-U UNIT -P PRESETS -C CPU [-a] [-e NAME]`.
#![tactic(auto, unfolding(crate::specs::AvailForm::avail_form))]

ghost use Rattle.tool_words.specs.AvailForm.{avail_form};

use crate::argument::Argument::{self, Available, Event, NeededCpu, NeededPresets, Unit};
use crate::fault::WordsFault;
use crate::matches::{is_set, text_asked, text_needed};
use crate::presets::{PresetWords, presets_needed};
use crate::tool::ToolWords;
use clap::ArgMatches;
use papi_base::Text;
use std::alloc::Global;

/// What the words of `papi_avail` ask for: the name of the unit file, the presets, whether the available presets alone are
/// asked for, and the name of an event, if one is asked for.
#[derive(Drop)]
pub struct AvailWords {
    pub unit: Text,
    pub presets: PresetWords,
    pub available: bool,
    pub event: Option<Text>,
}

impl ToolWords for AvailWords {
    ghost form = { avail_form };

    fn arguments() -> &'static [Argument] {
        &[Unit, NeededPresets, NeededCpu, Available, Event]
    }

    fn asked_by(alloc: Global, matches: &ArgMatches<'_>) -> Result<AvailWords, WordsFault> {
        Ok(AvailWords {
            unit: text_needed(alloc, matches, "unit")?,
            presets: presets_needed(alloc, matches)?,
            available: is_set(matches, "available"),
            event: text_asked(alloc, matches, "event")?,
        })
    }
}
