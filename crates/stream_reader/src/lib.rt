//! Streams of occurrences, read piece by piece: two versions of a text format, with the line and the cause of the first bad line.
#![tactic(auto)]

mod byte_tables;
mod common_line;
mod digit_vector;
mod field;
mod limits;
mod line;
mod newline;
mod next;
mod occurrence;
mod piece;
mod reader;

pub use limits::{LARGEST_STREAM, LONGEST_LINE, READER_BYTES};
pub use line::{Judgement, LineStart};
pub use next::Next;
pub use reader::StreamReader;
