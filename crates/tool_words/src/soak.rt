//! The words of `papi_soak`: `N [--workers N]`.
#![tactic(auto, unfolding(crate::specs::SoakForm::soak_form))]

ghost use Rattle.tool_words.specs.SoakForm.{soak_form};

use crate::argument::Argument::{self, RoundCount, WorkerCount};
use crate::count::{Count, count_asked};
use crate::fault::WordsFault;
use crate::tool::ToolWords;
use crate::workers::Workers;
use clap::ArgMatches;
use std::alloc::Global;

/// How many rounds there are at most: docs/FORMATS.md.
pub const MOST_ROUNDS: u32 = 1_000;

/// A number of rounds, from 1 to [`MOST_ROUNDS`].
pub type Rounds = Count<MOST_ROUNDS>;

/// What the words of `papi_soak` ask for: how many rounds, and how many workers.
#[derive(Clone, Copy)]
pub struct SoakWords {
    pub rounds: Rounds,
    pub workers: Workers,
}

impl ToolWords for SoakWords {
    ghost form = { soak_form };

    fn arguments() -> &'static [Argument] {
        &[WorkerCount, RoundCount]
    }

    fn asked_by(_alloc: Global, matches: &ArgMatches<'_>) -> Result<SoakWords, WordsFault> {
        Ok(SoakWords {
            rounds: count_asked(matches, "rounds")?,
            workers: count_asked(matches, "workers")?,
        })
    }
}
