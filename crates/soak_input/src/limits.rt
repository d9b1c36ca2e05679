//! The sizes of a soak: docs/FORMATS.md.

/// How many threads a soak has.
pub const SOAK_THREADS: u32 = 4;

/// How many bytes a line of a stream has at most, with its newline.
pub const LINE_BYTES: usize = 24;
