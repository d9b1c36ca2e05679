//! What a call is to write, and how it ends then.
ghost use Rattle.std.specs.Prelude.{◌≡◌};
ghost use Rattle.papi_tools.specs.Looking.{IsTextual};
ghost use Rattle.papi_tools.specs.Texts.{text_said};

use crate::{Outcome, Output, Stop};
use papi_base::Bytes;
use std::alloc::Global;

/// What a call is to write, and how it ends then: the output, and the lines on standard error.
#[derive(Drop)]
pub struct Said {
    pub outcome: Outcome,
    pub out: Output,
    pub err: Bytes,
}

/// What a tool's steps come to: what is said, or why they stop.
pub type ToolResult = Result<Said, Stop>;

impl Said {
    /// The text of a tool that looks at files alone, which says yes or no.
    pub fn text(alloc: Global, is_yes: bool, text: Bytes) -> Said
        ensures said { result ≡ text_said is_yes text }
        ensures textual { IsTextual (Unit {0}) result.outcome }
    {
        let outcome = if is_yes { Outcome::Whole } else { Outcome::No };
        Said {
            outcome,
            out: Output::text(text),
            err: Bytes::new(Vec::new(alloc)),
        }
    }
}
