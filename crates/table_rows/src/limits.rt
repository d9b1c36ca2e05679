//! How long a name may be: docs/FORMATS.md.

/// How many characters a name has at most.
pub const LONGEST_NAME: usize = 64;
