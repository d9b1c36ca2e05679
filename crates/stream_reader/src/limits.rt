//! The limits of a stream and of its reader: docs/FORMATS.md.

/// The most bytes of a line, without its newline.
pub const LONGEST_LINE: usize = 128;

/// The most bytes of a stream.
pub const LARGEST_STREAM: u64 = 67_108_864;

/// How many bytes a reader asks its source for at a time.
pub const PIECE: usize = 4096;

/// How many bytes a reader keeps: a piece, and before it what is left of the line that the last piece cut.
pub const READER_BYTES: usize = LONGEST_LINE + PIECE;

/// How many hexadecimal digits a number of 64 bits has at most.
pub const MOST_HEX_DIGITS: usize = 16;
