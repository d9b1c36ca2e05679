//! Why words are refused.

ghost use Rattle.std.specs.Prelude.{◌≡◌};
ghost use Rattle.clap.specs.declared.error.kind.ErrorKind.{ErrorKind};
ghost use Rattle.tool_words.specs.Words as Words;
ghost use Rattle.tool_words.specs.declared.fault.WordsFault.TheVariants.{Memory};

use clap::error::ErrorKind;
use std::alloc::{AllocError, AllocFailed};
use thiserror::Error;

/// Why words are refused.
#[derive(Debug, Drop, Error)]
pub enum WordsFault {
    /// The words are outside the tool's form.
    #[error("bad words")]
    BadWords,
    /// Memory ran out.
    #[error("out of memory")]
    Memory,
}

impl From<AllocError> for WordsFault {
    ghost from_gives = { λ _ fault. fault ≡ Memory };

    fn from(_error: AllocError) -> WordsFault {
        WordsFault::Memory
    }
}

// The fault of words at which `clap` answers with an error of this kind.
pub(crate) fn fault_by(kind: ErrorKind) -> WordsFault
    ensures { result ≡ Words.fault_by kind }
{
    match kind {
        ErrorKind::OutOfMemory => WordsFault::Memory,
        _ => WordsFault::BadWords,
    }
}
