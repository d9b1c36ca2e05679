//! The workers that the words of a tool ask for: `--workers N`.

use crate::count::Count;

/// How many workers there are at most: docs/FORMATS.md.
pub const MOST_WORKERS: u32 = 64;

/// A number of workers, from 1 to [`MOST_WORKERS`].
pub type Workers = Count<MOST_WORKERS>;
