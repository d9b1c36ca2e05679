//! The words of `papi_native_avail`: `-U UNIT [-e NAME] [-i STR] [-x STR] [--noumasks]`.
#![tactic(auto, unfolding(crate::specs::NativeAvailForm::native_avail_form))]

ghost use Rattle.tool_words.specs.NativeAvailForm.{native_avail_form};

use crate::argument::Argument::{self, Event, Excluded, Included, NoUmasks, Unit};
use crate::fault::WordsFault;
use crate::matches::{is_set, text_asked, text_needed};
use crate::tool::ToolWords;
use clap::ArgMatches;
use papi_base::Text;
use std::alloc::Global;

/// What the words of `papi_native_avail` ask for: the name of the unit file, the name of an event, if one is asked for,
/// the texts that the names of the listed events have and do not have, if they are given, and whether umasks are listed.
#[derive(Drop)]
pub struct NativeAvailWords {
    pub unit: Text,
    pub event: Option<Text>,
    pub included: Option<Text>,
    pub excluded: Option<Text>,
    pub umasks: bool,
}

impl ToolWords for NativeAvailWords {
    ghost form = { native_avail_form };

    fn arguments() -> &'static [Argument] {
        &[Unit, Event, Included, Excluded, NoUmasks]
    }

    fn asked_by(alloc: Global, matches: &ArgMatches<'_>) -> Result<NativeAvailWords, WordsFault> {
        Ok(NativeAvailWords {
            unit: text_needed(alloc, matches, "unit")?,
            event: text_asked(alloc, matches, "event")?,
            included: text_asked(alloc, matches, "included")?,
            excluded: text_asked(alloc, matches, "excluded")?,
            umasks: !is_set(matches, "noumasks"),
        })
    }
}
