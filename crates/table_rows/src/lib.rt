//! Rows of a table of comma-separated fields, and what its fields say: names, numbers and printable texts.
//!
//! Unit files, preset files and maps are such tables. Fields have no quotes, a line that begins with `#` is not a row,
//! and a field is taken without the spaces and tabs at its ends.
#![tactic(auto)]

mod fault;
mod field;
mod limits;
mod number;
mod row_reader;
mod table;
mod word;

pub use crate::fault::{RowFault, RowRefusal};
pub use crate::field::{is_blank, is_skipped, text_at, trimmed};
pub use crate::limits::LONGEST_NAME;
pub use crate::number::{decimal_in, hex_in, is_decimal, is_numeral, numeral_value};
pub use crate::row_reader::RowReader;
pub use crate::table::{TableKind, read_table};
pub use crate::word::{is_name, is_printable, name_text, printable_text};
pub use csv::ByteRecord;
