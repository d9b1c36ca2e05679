//! What a reader gives.
use papi_base::{LineCause, Occ};

/// The answer of a reader.
#[derive(Clone, Copy, Debug, PartialEq, Eq)]
pub enum Next {
    Occ(Occ),
    /// The stream has ended, or was given up before.
    End,
    /// The line with this number, from 1, is not an occurrence, for this cause.
    Bad { line: u64, cause: LineCause },
    /// The source failed.
    ReadFault,
}
