//! The arguments that the tools have.

ghost use Rattle.std.specs.Prelude.{◌≡◌, IfOk, map};
ghost use Rattle.clap.specs.Words.{rule_of};
ghost use Rattle.tool_words.specs.Arguments as Arguments;
ghost use Rattle.tool_words.specs.Arguments.{rule};

use crate::profil::{LAST_INDEX, LAST_SET, LAST_THREAD};
use crate::soak::MOST_ROUNDS;
use crate::workers::MOST_WORKERS;
use clap::{Arg, ArgAction, value_parser};
use std::alloc::{AllocError, Global};

/// An argument that tools have.
#[derive(Clone, Copy)]
pub(crate) enum Argument {
    /// `-U UNIT`, the unit file, which every tool over files needs.
    Unit,
    /// `-P PRESETS`, a preset file.
    Presets,
    /// `-C CPU`, the cpu whose presets are read.
    Cpu,
    /// `-P PRESETS`, of a tool that needs it.
    NeededPresets,
    /// `-C CPU`, of a tool that needs it.
    NeededCpu,
    /// `-a`, the available presets alone.
    Available,
    /// `-e NAME`, one event in place of the list.
    Event,
    /// `-i STR`, the events with this text in their names.
    Included,
    /// `-x STR`, the events without this text in their names.
    Excluded,
    /// `--noumasks`, the events without their umasks.
    NoUmasks,
    /// `NATIVE` or `PRESET`.
    Kind,
    /// `EVENT..`, one or more.
    Events,
    /// `NAME..`, the texts of the native events to encode, one or more.
    Names,
    /// `--workers N`, from 1 to [`MOST_WORKERS`], by default 1.
    WorkerCount,
    /// `N`, a number of rounds from 1 to [`MOST_ROUNDS`].
    RoundCount,
    /// `--notes`: the notes of overflows are printed after the replies.
    Notes,
    /// `--events LIST`, the events that are counted.
    EventList,
    /// `-M MAP`, the map of program counters.
    Map,
    /// `--thread T`, the thread whose notes are counted.
    Thread,
    /// `--set S`, a set of that thread.
    Set,
    /// `--index I`, the place of an event in that set, from 0.
    Index,
    /// `SCRIPT`, the file with the calls that are run.
    Script,
    /// `STREAM..`, none or more.
    Streams,
}

// `-C VALUE`, by its character.
fn option<'a>(alloc: Global, id: &'a str, short: char) -> Arg<'a>
    ensures { rule_of result ≡ Arguments.option id.now short }
{
    Arg::new(alloc, id).short(short)
}

// `--NAME`, which takes no value.
fn switch<'a>(alloc: Global, name: &'a str) -> Arg<'a>
    ensures { rule_of result ≡ Arguments.switch name.now }
{
    Arg::new(alloc, name).long(name).action(ArgAction::SetTrue)
}

// `NAME..`, as many as are asked for at least, between which options may stand.
fn list<'a>(alloc: Global, id: &'a str, least: usize) -> Arg<'a>
    ensures { rule_of result ≡ Arguments.list id.now least }
{
    Arg::new(alloc, id)
        .action(ArgAction::Append)
        .num_args(least..)
}

// `N`, from the least to the greatest.
fn number<'a>(alloc: Global, id: &'a str, least: u32, greatest: u32) -> Arg<'a>
    ensures { rule_of result ≡ Arguments.number id.now least greatest }
{
    Arg::new(alloc, id).value_parser(value_parser!(u32).range(
        i64::from(least)..=i64::from(greatest),
    ))
}

// `--NAME N`, from 0 to the greatest, by default 0.
fn place<'a>(alloc: Global, name: &'a str, greatest: u32) -> Arg<'a>
    ensures { rule_of result ≡ Arguments.place name.now greatest }
{
    number(alloc, name, 0, greatest)
        .long(name)
        .default_value("0")
}

impl Argument {
    // The argument, as `clap` has it.
    #[tactic(auto, unfolding(crate::specs::Arguments::rule))]
    fn made<'a>(self, alloc: Global) -> Arg<'a>
        ensures { rule_of result ≡ rule self }
    {
        match self {
            Argument::Unit => option(alloc, "unit", 'U').required(true),
            Argument::Presets => option(alloc, "presets", 'P'),
            Argument::Cpu => option(alloc, "cpu", 'C'),
            Argument::NeededPresets => option(alloc, "presets", 'P').required(true),
            Argument::NeededCpu => option(alloc, "cpu", 'C').required(true),
            Argument::Available => option(alloc, "available", 'a').action(ArgAction::SetTrue),
            Argument::Event => option(alloc, "event", 'e'),
            Argument::Included => option(alloc, "included", 'i'),
            Argument::Excluded => option(alloc, "excluded", 'x'),
            Argument::NoUmasks => switch(alloc, "noumasks"),
            Argument::Kind => Arg::new(alloc, "kind").required(true),
            Argument::Events => list(alloc, "events", 1).required(true),
            Argument::Names => list(alloc, "names", 1).required(true),
            Argument::WorkerCount => number(alloc, "workers", 1, MOST_WORKERS)
                .long("workers")
                .default_value("1"),
            Argument::RoundCount => number(alloc, "rounds", 1, MOST_ROUNDS).required(true),
            Argument::Notes => switch(alloc, "notes"),
            Argument::EventList => Arg::new(alloc, "events").long("events").required(true),
            Argument::Map => option(alloc, "map", 'M').required(true),
            Argument::Thread => place(alloc, "thread", LAST_THREAD),
            Argument::Set => place(alloc, "set", LAST_SET),
            Argument::Index => place(alloc, "index", LAST_INDEX),
            Argument::Script => Arg::new(alloc, "script").required(true),
            Argument::Streams => list(alloc, "streams", 0),
        }
    }
}

// These arguments in order, as `clap` has them.
pub(crate) fn made_of<'a>(alloc: Global, arguments: &[Argument]) -> Result<Vec<Arg<'a>>, AllocError>
    ensures { IfOk result (λ made. map rule_of made.items ≡ map rule arguments.now) }
{
    let mut made = Vec::new(alloc);
    for argument in arguments {
        made.push(argument.made(alloc))?;
    }
    Ok(made)
}
