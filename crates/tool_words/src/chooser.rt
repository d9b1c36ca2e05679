//! The words of `papi_event_chooser`: `-U UNIT [-P PRESETS -C CPU] NATIVE EVENT..`, or `PRESET` in place of `NATIVE`.
#![tactic(auto, unfolding(crate::specs::ChooserForm::chooser_form))]

ghost use Rattle.std.specs.Prelude.{codes, option_and_then};
ghost use Rattle.clap.specs.Words.{all_of, first_of, found_of, rows_of};
ghost use Rattle.tool_words.specs.ChooserForm as ChooserForm;
ghost use Rattle.tool_words.specs.ChooserForm.{chooser_form, few_events};
ghost use Rattle.tool_words.specs.Words.{Answers};

use crate::argument::Argument::{self, Cpu, Events, Kind, Presets, Unit};
use crate::fault::WordsFault;
use crate::matches::{copied, text_needed, text_of, texts_of};
use crate::presets::{PresetWords, presets_asked};
use crate::texts::Texts;
use crate::tool::ToolWords;
use clap::ArgMatches;
use papi_base::{MOST_SET_EVENTS, Text};
use std::alloc::Global;

/// Which events are listed.
#[derive(Clone, Copy)]
pub enum EventKind {
    /// `NATIVE`.
    Native,
    /// `PRESET`.
    Preset,
}

/// What the words of `papi_event_chooser` ask for: the name of the unit file, the presets if they are asked for, which
/// events are listed, and the texts of the events that are given, from 1 to [`MOST_SET_EVENTS`], as many as a set has.
#[derive(Drop)]
pub struct ChooserWords {
    pub unit: Text,
    pub presets: Option<PresetWords>,
    pub kind: EventKind,
    pub events: Texts,
}

// ---- the values

// Which events are listed.
fn kind_asked(matches: &ArgMatches<'_>) -> Result<EventKind, WordsFault>
    ensures { Answers result
        (option_and_then ChooserForm.kind_of
        (first_of (codes "kind") (rows_of (found_of matches.now)))) }
{
    match text_of(matches, "kind") {
        Some("NATIVE") => Ok(EventKind::Native),
        Some("PRESET") => Ok(EventKind::Preset),
        _ => Err(WordsFault::BadWords),
    }
}

// The texts of the events that are given.
fn events_asked(alloc: Global, matches: &ArgMatches<'_>) -> Result<Texts, WordsFault>
    ensures { Answers result
        (option_and_then few_events (all_of (codes "events") (rows_of (found_of matches.now)))) }
{
    let events = texts_of(matches, "events").ok_or(WordsFault::BadWords)?;
    if events.len() > MOST_SET_EVENTS {
        return Err(WordsFault::BadWords);
    }
    Ok(copied(alloc, events)?)
}

// ---- the tool

impl ToolWords for ChooserWords {
    ghost form = { chooser_form };

    fn arguments() -> &'static [Argument] {
        &[Unit, Presets, Cpu, Kind, Events]
    }

    fn asked_by(alloc: Global, matches: &ArgMatches<'_>) -> Result<ChooserWords, WordsFault> {
        Ok(ChooserWords {
            unit: text_needed(alloc, matches, "unit")?,
            presets: presets_asked(alloc, matches)?,
            kind: kind_asked(matches)?,
            events: events_asked(alloc, matches)?,
        })
    }
}
