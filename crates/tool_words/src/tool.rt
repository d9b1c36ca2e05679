//! How the words of a tool are read, whichever tool it is.

ghost use Rattle.std.specs.Prelude.{◌≡◌, map, string_bytes};
ghost use Rattle.clap.specs.Words.{found_of, rows_of};
ghost use Rattle.tool_words.specs.Words.{Answers, ToolForm, read_by};

use crate::argument::{Argument, made_of};
use crate::fault::WordsFault;
use crate::matches::{command_with, matches_in};
use clap::ArgMatches;
use std::alloc::Global;

// What the words of a tool ask for.
pub(crate) trait ToolWords {
    // The tool's arguments, and what their matches ask for.
    ghost form: { ToolForm Self };

    // The arguments, in order.
    fn arguments() -> &'static [Argument]
        ensures { result.now ≡ form.arguments };

    // What the matches of the words ask for.
    fn asked_by(alloc: Global, matches: &ArgMatches<'_>) -> Result<Self, WordsFault>
        ensures { Answers result (form.asked (rows_of (found_of matches.now))) };
}

// What the words of a tool ask for, of which the first is the tool's name.
pub(crate) fn read_tool<T: ToolWords>(alloc: Global, words: &[String]) -> Result<T, WordsFault>
    ensures { Answers result (read_by T.form (map string_bytes words.now)) }
{
    let arguments = made_of(alloc, T::arguments())?;
    let command = command_with(alloc, arguments)?;
    let matches = matches_in(command, words)?;
    T::asked_by(alloc, &matches)
}
