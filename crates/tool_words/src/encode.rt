//! The words of `papi_encode`: `-U UNIT NAME..`.
#![tactic(auto, unfolding(crate::specs::EncodeForm::encode_form))]

ghost use Rattle.tool_words.specs.EncodeForm.{encode_form};

use crate::argument::Argument::{self, Names, Unit};
use crate::fault::WordsFault;
use crate::matches::{copied, text_needed, texts_of};
use crate::texts::Texts;
use crate::tool::ToolWords;
use clap::ArgMatches;
use papi_base::Text;
use std::alloc::Global;

/// What the words of `papi_encode` ask for: the name of the unit file, and the names of events in their order, of which
/// there is at least one.
#[derive(Drop)]
pub struct EncodeWords {
    pub unit: Text,
    pub names: Texts,
}

impl ToolWords for EncodeWords {
    ghost form = { encode_form };

    fn arguments() -> &'static [Argument] {
        &[Unit, Names]
    }

    fn asked_by(alloc: Global, matches: &ArgMatches<'_>) -> Result<EncodeWords, WordsFault> {
        let names = texts_of(matches, "names").ok_or(WordsFault::BadWords)?;
        Ok(EncodeWords {
            unit: text_needed(alloc, matches, "unit")?,
            names: copied(alloc, names)?,
        })
    }
}
