//! Numbers of things of which there is at least one.

ghost use Rattle.std.specs.Prelude.{◌≡◌, ◌≤◌, option_and_then};
ghost use Rattle.clap.specs.Words.{found_of, rows_of};
ghost use Rattle.tool_words.specs.Numbers as Numbers;
ghost use Rattle.tool_words.specs.Words.{Answers};

use crate::fault::WordsFault;
use crate::matches::number_of;
use clap::ArgMatches;
use std::marker::Model;

/// A number from 1 to `MOST`. Contracts see the number.
#[derive(Clone, Copy)]
pub struct Count<const MOST: u32> {
    count: u32,
}

impl<const MOST: u32> Model for Count<MOST> {
    ghost use Rattle.std.specs.Prelude.{ℕ, ◌≤◌};

    ghost Value = { ℕ };

    ghost view = { λ c. c.count };

    ghost invariant = { λ c. (1 ≤ c.count) × (c.count ≤ MOST) };

    ghost inverse = { λ n. record { count = n } };
}

impl<const MOST: u32> Count<MOST> {
    /// The number of this value, or `None` if it is not from 1 to `MOST`.
    pub fn new(count: u32) -> Option<Count<MOST>>
        ensures { result ≡ Numbers.count_of MOST count }
    {
        if 1 <= count && count <= MOST {
            Some(Count { count })
        } else {
            None
        }
    }

    /// The number.
    pub fn get(self) -> u32
        ensures number { result ≡ self.entry }
        ensures range { (1 ≤ result) × (result ≤ MOST) }
    {
        self.count
    }
}

// The number that is an argument's value, if it is from 1 to the most.
pub(crate) fn count_asked<const MOST: u32>(
    matches: &ArgMatches<'_>,
    id: &str,
) -> Result<Count<MOST>, WordsFault>
    ensures { Answers result (option_and_then (Numbers.count_of MOST)
        (Numbers.number_of id.now (rows_of (found_of matches.now)))) }
{
    let count = number_of(matches, id).ok_or(WordsFault::BadWords)?;
    Count::new(count).ok_or(WordsFault::BadWords)
}
