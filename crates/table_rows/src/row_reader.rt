//! The rows of a table, one at a time.

ghost use Rattle.std.specs.Prelude.{◌≡◌, ◌≤◌, [], length, not, IfOk, OnErr};
ghost use Rattle.csv.specs.Records.{fields_of};
ghost use Rattle.table_rows.specs.Reader.{IsAtRow, IsBetweenRows, ReadsRow, bytes_left, rows_left};
ghost use Rattle.table_rows.specs.Rows.{rows_of};

use csv::{ByteRecord, Reader, ReaderBuilder};
use std::alloc::{AllocError, Global};
use std::marker::Model;

/// Reads the rows of a table in order, those that are to be skipped too; the first is row 1.
///
/// Rows are the records of RFC 4180 as the crate `csv` reads them, with no quotes and with `#` as the mark of a
/// comment. Contracts see the list of the rows that are left.
#[derive(Drop)]
pub struct RowReader<'t> {
    reader: Reader<&'t [u8]>,
    ended: bool,
}

impl<'t> Model for RowReader<'t> {
    ghost use Rattle.std.specs.Prelude.{ℕ, List};

    ghost Value = { List (List (List ℕ)) };

    ghost use Rattle.table_rows.specs.Reader.{IsAtRow, rows_left};

    ghost view = { λ r. rows_left r.ended r.reader };

    ghost invariant = { λ r. IsAtRow r.ended r.reader };
}

// A reader that stands before the first row.
fn reader_of(alloc: Global, bytes: &[u8]) -> Reader<&[u8]>
    ensures first { IsBetweenRows result }
    ensures all { bytes_left result ≡ rows_of bytes.now }
{
    ReaderBuilder::new()
        .has_headers(false)
        .quoting(false)
        .flexible(true)
        .comment(Some(b'#'))
        .from_reader(alloc, bytes)
}

// The next row, and whether there was one.
fn read_next(reader: &mut Reader<&[u8]>, row: &mut ByteRecord) -> Result<bool, AllocError>
    requires { IsBetweenRows reader.old }
    ensures next { IfOk result
        (λ found. ReadsRow found (bytes_left reader.old) (fields_of row.new)
        (rows_left (not found) reader.new)) }
    ensures place { IfOk result (λ found. IsAtRow (not found) reader.new) }
{
    let Ok(found) = reader.read_byte_record(row) else {
        return Err(AllocError);
    };
    Ok(found)
}

impl<'t> RowReader<'t> {
    /// All rows of these bytes, which are no more than the bytes.
    pub fn new(alloc: Global, bytes: &'t [u8]) -> RowReader<'t>
        ensures all { result ≡ rows_of bytes.now }
        ensures few { length (rows_of bytes.now) ≤ length bytes.now }
    {
        RowReader {
            reader: reader_of(alloc, bytes),
            ended: false,
        }
    }

    /// The next row into `row`, and whether there was one. After an error no row is left.
    ///
    /// Any error of `csv` over bytes in memory is out of memory.
    pub fn read_row(&mut self, row: &mut ByteRecord) -> Result<bool, AllocError>
        ensures next { IfOk result (λ found. ReadsRow found self.old (fields_of row.new) self.new) }
        ensures failed { OnErr result (self.new ≡ []) }
    {
        if self.ended {
            return Ok(false);
        }
        self.ended = true;
        let found = read_next(&mut self.reader, row)?;
        self.ended = !found;
        Ok(found)
    }
}
