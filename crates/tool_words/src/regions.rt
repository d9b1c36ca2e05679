//! The words of `papi_regions`:
//! `-U UNIT [-P PRESETS -C CPU] --events LIST [--workers N] REGIONS [STREAM..]`.
#![tactic(auto, unfolding(crate::specs::RegionsForm::regions_form))]

ghost use Rattle.std.specs.Prelude.{◌≡◌, ◌≤◌, IfOk, codes, length, map, option_and_then};
ghost use Rattle.std.specs.List.{list_all};
ghost use Rattle.clap.specs.Words.{first_of, found_of, rows_of};
ghost use Rattle.tool_words.specs.EventList as EventList;
ghost use Rattle.tool_words.specs.EventList.{AreEvents, events_among, events_of};
ghost use Rattle.tool_words.specs.RegionsForm.{regions_form};
ghost use Rattle.tool_words.specs.Words.{Answers};

use crate::argument::Argument::{
    self, Cpu, EventList, Presets, Script, Streams, Unit, WorkerCount,
};
use crate::fault::WordsFault;
use crate::matches::{copied, text_of};
use crate::presets::PresetWords;
use crate::script::script_asked;
use crate::streams::StreamNames;
use crate::texts::Texts;
use crate::tool::ToolWords;
use crate::workers::Workers;
use clap::ArgMatches;
use papi_base::{MOST_SET_EVENTS, Text};
use std::alloc::{AllocError, Global};
use std::marker::Model;

/// The texts of the events that are counted, in order: from 1 to [`MOST_SET_EVENTS`], each of one or more characters from `!` to `~`.
/// Contracts see the list of the texts.
#[derive(Drop)]
pub struct EventTexts {
    events: Texts,
}

impl Model for EventTexts {
    ghost use Rattle.std.specs.Prelude.{List, ℕ};
    ghost use Rattle.tool_words.specs.EventList.{AreEvents};

    ghost Value = { List (List ℕ) };

    ghost view = { λ e. e.events };

    ghost invariant = { λ e. AreEvents e.events };
}

impl EventTexts {
    // A copy of these texts, if each is an event and a set can have as many.
    fn copy_of(alloc: Global, parts: &[&str]) -> Result<EventTexts, WordsFault>
        requires { 1 ≤ length parts.now }
        ensures { Answers result (events_among (map (λ s. s.now) parts.now)) }
    {
        if parts.len() > MOST_SET_EVENTS || !are_events(parts) {
            return Err(WordsFault::BadWords);
        }
        Ok(EventTexts {
            events: copied(alloc, parts)?,
        })
    }

    /// The texts as a slice.
    pub fn as_slice(&self) -> &[Text]
        ensures texts { result.now ≡ self.now }
        ensures events { AreEvents self.now }
    {
        self.events.as_slice()
    }
}

/// What the words of `papi_regions` ask for: the name of the unit file, the presets if they are asked for, the events that are
/// counted, how many workers, the name of the region script, and the names of the streams.
#[derive(Drop)]
pub struct RegionsWords {
    pub unit: Text,
    pub presets: Option<PresetWords>,
    pub events: EventTexts,
    pub workers: Workers,
    pub script: Text,
    pub streams: StreamNames,
}

// ---- the values

// Whether a byte may stand in an event's text.
fn is_event_character(b: u8) -> bool
    ensures { result ≡ EventList.is_event_character b }
{
    b'!' <= b && b <= b'~'
}

fn are_event_characters(bytes: &[u8]) -> bool
    ensures { result ≡ list_all EventList.is_event_character bytes.now }
{
    bytes.iter().all(|&b| is_event_character(b))
}

fn is_event(text: &str) -> bool
    ensures { result ≡ EventList.is_event text.now }
{
    text.len() > 0 && are_event_characters(text.as_bytes())
}

fn are_events(texts: &[&str]) -> bool
    ensures { result ≡ list_all EventList.is_event (map (λ s. s.now) texts.now) }
{
    for text in texts {
        if !is_event(*text) {
            return false;
        }
    }
    true
}

// The texts between the commas of a list.
#[tactic(auto, unfolding(crate::specs::EventList::parts_of))]
fn parts_of<'a>(alloc: Global, list: &'a str) -> Result<Vec<&'a str>, AllocError>
    ensures { IfOk result (λ parts. map (λ s. s.now) parts.items ≡ EventList.parts_of list.now) }
{
    list.split(',').collect(alloc)
}

// The events of a list.
fn events_asked(alloc: Global, matches: &ArgMatches<'_>) -> Result<EventTexts, WordsFault>
    ensures { Answers result
        (option_and_then events_of (first_of (codes "events") (rows_of (found_of matches.now)))) }
{
    let list = text_of(matches, "events").ok_or(WordsFault::BadWords)?;
    let parts = parts_of(alloc, list)?;
    EventTexts::copy_of(alloc, parts.as_slice())
}

// ---- the tool

impl ToolWords for RegionsWords {
    ghost form = { regions_form };

    fn arguments() -> &'static [Argument] {
        &[Unit, Presets, Cpu, EventList, WorkerCount, Script, Streams]
    }

    fn asked_by(alloc: Global, matches: &ArgMatches<'_>) -> Result<RegionsWords, WordsFault> {
        let events = events_asked(alloc, matches)?;
        let asked = script_asked(alloc, matches)?;
        Ok(RegionsWords {
            unit: asked.unit,
            presets: asked.presets,
            events,
            workers: asked.workers,
            script: asked.script,
            streams: asked.streams,
        })
    }
}
