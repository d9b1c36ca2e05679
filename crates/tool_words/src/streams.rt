//! The streams that the words of a tool name: `STREAM..`, none or more.

ghost use Rattle.std.specs.Prelude.{◌≡◌, ◌≤◌, [], codes, length, map};
ghost use Rattle.clap.specs.Words.{all_of, found_of, rows_of};
ghost use Rattle.tool_words.specs.Streams as Streams;
ghost use Rattle.tool_words.specs.Words.{Answers};

use crate::fault::WordsFault;
use crate::matches::{copied, texts_of};
use crate::texts::Texts;
use clap::ArgMatches;
use papi_base::{THREADS, Text};
use std::alloc::Global;
use std::marker::Model;

/// The names of streams in the order of their threads, of which there are at most [`THREADS`]. Contracts see the list of
/// the names.
#[derive(Drop)]
pub struct StreamNames {
    names: Texts,
}

impl Model for StreamNames {
    ghost use Rattle.std.specs.Prelude.{◌≤◌, List, ℕ, length};
    ghost use Rattle.papi_base.specs.declared.limits.TheConstants.{THREADS};

    ghost Value = { List (List ℕ) };

    ghost view = { λ s. s.names };

    ghost invariant = { λ s. length s.names ≤ THREADS };
}

impl StreamNames {
    // No names.
    fn none(alloc: Global) -> StreamNames
        ensures { result ≡ [] }
    {
        StreamNames {
            names: Texts::new(Vec::new(alloc)),
        }
    }

    // A copy of these names.
    fn copy_of(alloc: Global, names: &[&str]) -> Result<StreamNames, WordsFault>
        ensures { Answers result (Streams.streams_of (map (λ s. s.now) names.now)) }
    {
        if names.len() > THREADS as usize {
            return Err(WordsFault::BadWords);
        }
        Ok(StreamNames {
            names: copied(alloc, names)?,
        })
    }

    /// The names as a slice.
    pub fn as_slice(&self) -> &[Text]
        ensures names { result.now ≡ self.now }
        ensures few { length self.now ≤ THREADS }
    {
        self.names.as_slice()
    }
}

// The streams that are named.
pub(crate) fn streams_asked(
    alloc: Global,
    matches: &ArgMatches<'_>,
) -> Result<StreamNames, WordsFault>
    ensures { Answers result
        (Streams.streams_asked (all_of (codes "streams") (rows_of (found_of matches.now)))) }
{
    match texts_of(matches, "streams") {
        None => Ok(StreamNames::none(alloc)),
        Some(names) => StreamNames::copy_of(alloc, names),
    }
}
