//! The words as `clap` matches them, and the values of their arguments.

ghost use Rattle.std.specs.Prelude.{◌≡◌, IfOk, map, option_map, string_bytes, true};
ghost use Rattle.clap.specs.Words.{all_of, app_of, first_of, found_of, is_simple_and_free, rows_of, rule_of};
ghost use Rattle.tool_words.specs.Arguments as Arguments;
ghost use Rattle.tool_words.specs.Numbers as Numbers;
ghost use Rattle.tool_words.specs.Words.{Answers, AreMatches, app_with};

use crate::fault::{WordsFault, fault_by};
use crate::texts::Texts;
use clap::{Arg, ArgMatches};
use papi_base::Text;
use std::alloc::{AllocError, Global};

// The command with these arguments.
pub(crate) fn command_with<'a>(
    alloc: Global,
    arguments: Vec<Arg<'a>>,
) -> Result<clap::Command<'a>, AllocError>
    requires { is_simple_and_free (app_with (map rule_of arguments.items)) ≡ true }
    ensures { IfOk result (λ command.
        app_of command ≡ app_with (map rule_of arguments.entry.items)) }
{
    clap::Command::new(alloc, "papi").args(arguments)
}

// The matches of the words, of which the first is the tool's name.
pub(crate) fn matches_in<'a>(
    command: clap::Command<'a>,
    words: &'a [String],
) -> Result<ArgMatches<'a>, WordsFault>
    requires { is_simple_and_free (app_of command) ≡ true }
    ensures { AreMatches result (app_of command.entry) (map string_bytes words.now) }
{
    match command.try_get_matches_from(words) {
        Ok(matches) => Ok(matches),
        Err(error) => Err(fault_by(error.kind())),
    }
}

// The first value of an argument.
pub(crate) fn text_of<'a>(matches: &ArgMatches<'a>, id: &str) -> Option<&'a str>
    ensures { option_map (λ s. s.now) result ≡ first_of id.now (rows_of (found_of matches.now)) }
{
    matches.get_str(id)
}

// Whether the value of a flag is there, and set.
pub(crate) fn is_set(matches: &ArgMatches<'_>, id: &str) -> bool
    ensures { result ≡ Arguments.is_set (first_of id.now (rows_of (found_of matches.now))) }
{
    match text_of(matches, id) {
        Some(value) => value == "true",
        None => false,
    }
}

// The number that is an argument's value.
pub(crate) fn number_of(matches: &ArgMatches<'_>, id: &str) -> Option<u32>
    ensures { result ≡ Numbers.number_of id.now (rows_of (found_of matches.now)) }
{
    matches.get_one::<u32>(id)
}

// All values of an argument.
pub(crate) fn texts_of<'m, 'a>(matches: &'m ArgMatches<'a>, id: &str) -> Option<&'m [&'a str]>
    ensures { option_map (λ s. map (λ v. v.now) s.now) result
        ≡ all_of id.now (rows_of (found_of matches.now)) }
{
    matches.get_strs(id)
}

// A copy of the first value of an argument that has one.
pub(crate) fn text_needed(
    alloc: Global,
    matches: &ArgMatches<'_>,
    id: &str,
) -> Result<Text, WordsFault>
    ensures { Answers result (first_of id.now (rows_of (found_of matches.now))) }
{
    let text = text_of(matches, id).ok_or(WordsFault::BadWords)?;
    Ok(Text::copy_of(alloc, text)?)
}

// A copy of the first value of an argument, if it has one.
pub(crate) fn text_asked(
    alloc: Global,
    matches: &ArgMatches<'_>,
    id: &str,
) -> Result<Option<Text>, AllocError>
    ensures { IfOk result (λ text. text ≡ first_of id.now (rows_of (found_of matches.now))) }
{
    match text_of(matches, id) {
        Some(text) => Ok(Some(Text::copy_of(alloc, text)?)),
        None => Ok(None),
    }
}

// The texts, copied.
pub(crate) fn copied(alloc: Global, texts: &[&str]) -> Result<Texts, AllocError>
    ensures { IfOk result (λ all. all ≡ map (λ s. s.now) texts.now) }
{
    let mut all = Vec::new(alloc);
    for text in texts {
        all.push(Text::copy_of(alloc, *text)?)?;
    }
    Ok(Texts::new(all))
}
