//! The presets that the words of a tool ask for: `-P PRESETS -C CPU`.

ghost use Rattle.std.specs.Prelude.{◌≡◌};
ghost use Rattle.std.specs.List.{list_all};
ghost use Rattle.clap.specs.Words.{found_of, rows_of};
ghost use Rattle.tool_words.specs.Presets as Presets;
ghost use Rattle.tool_words.specs.Words.{Answers};

use crate::fault::WordsFault;
use crate::matches::text_of;
use clap::ArgMatches;
use papi_base::Text;
use std::alloc::Global;

/// How many characters the name of a cpu has at most.
pub const LONGEST_CPU: usize = 64;

/// The presets of a cpu: the name of the preset file, and that of the cpu, which has 1 to [`LONGEST_CPU`] characters from a space to `~`,
/// none a comma, and no space at either end.
#[derive(Drop)]
pub struct PresetWords {
    pub file: Text,
    pub cpu: Text,
}

// Whether a byte may stand in a cpu's name.
fn is_cpu_character(b: u8) -> bool
    ensures { result ≡ Presets.is_cpu_character b }
{
    b' ' <= b && b <= b'~' && b != b','
}

fn are_cpu_characters(bytes: &[u8]) -> bool
    ensures { result ≡ list_all Presets.is_cpu_character bytes.now }
{
    bytes.iter().all(|&b| is_cpu_character(b))
}

// Whether a text is the name of a cpu.
#[tactic(auto, unfolding(crate::specs::Presets::is_cpu))]
fn is_cpu(name: &str) -> bool
    ensures { result ≡ Presets.is_cpu name.now }
{
    let bytes = name.as_bytes();
    let count = bytes.len();
    if count < 1 || count > LONGEST_CPU {
        return false;
    }
    if bytes[0] == b' ' || bytes[count - 1] == b' ' {
        return false;
    }
    are_cpu_characters(bytes)
}

// The presets of a cpu, by a file.
fn presets_of(alloc: Global, file: &str, cpu: &str) -> Result<PresetWords, WordsFault>
    ensures { Answers result (Presets.presets_of file.now cpu.now) }
{
    if !is_cpu(cpu) {
        return Err(WordsFault::BadWords);
    }
    Ok(PresetWords {
        file: Text::copy_of(alloc, file)?,
        cpu: Text::copy_of(alloc, cpu)?,
    })
}

// The presets that are asked for, if they are.
pub(crate) fn presets_asked(
    alloc: Global,
    matches: &ArgMatches<'_>,
) -> Result<Option<PresetWords>, WordsFault>
    ensures { Answers result (Presets.presets_asked_in (rows_of (found_of matches.now))) }
{
    match (text_of(matches, "presets"), text_of(matches, "cpu")) {
        (None, None) => Ok(None),
        (Some(file), Some(cpu)) => Ok(Some(presets_of(alloc, file, cpu)?)),
        _ => Err(WordsFault::BadWords),
    }
}

// The presets of a tool that needs them.
pub(crate) fn presets_needed(
    alloc: Global,
    matches: &ArgMatches<'_>,
) -> Result<PresetWords, WordsFault>
    ensures { Answers result (Presets.presets_needed_in (rows_of (found_of matches.now))) }
{
    presets_asked(alloc, matches)?.ok_or(WordsFault::BadWords)
}
