//! Tables that are read row by row, whichever kind of table it is.

ghost use Rattle.std.specs.Prelude.{◌∷◌, ◌++◌, [], IfOk, List, Option, map};
ghost use Rattle.csv.specs.Records.{fields_of};
ghost use Rattle.table_rows.specs.Rows.{IsReadRow, rows_of};
ghost use Rattle.table_rows.specs.Tables.{ReadsTable, TakesRow, first_fault};
ghost use Rattle.table_rows.specs.Texts.{Text};

use crate::fault::{RowFault, RowRefusal};
use crate::row_reader::RowReader;
use csv::ByteRecord;
use std::alloc::{AllocError, Global};

/// A kind of table: what its rows give, and why a row is refused in view of the rows above it.
pub trait TableKind {
    /// What the rows give.
    type Read: Drop;

    /// Why a row is refused.
    type Cause: Copy;

    // What a row says by itself, and what the fields of a row say.
    ghost Line: { Type 0 };

    ghost line_of: { List Text → Line };

    // Why a row is refused below these rows, if it is.
    ghost cause: { Self → List Line → Line → Option Self.Cause };

    // Rows that have no cause give this.
    ghost gives: { Self → List Line → Self.Read → Type 0 };

    /// What no rows give.
    fn no_rows(&self, alloc: Global) -> Result<Self::Read, AllocError>
        ensures { IfOk result (gives self.now []) };

    /// Takes a row below the others.
    fn take_row(
        &self,
        alloc: Global,
        read: &mut Self::Read,
        row: &ByteRecord,
    ) -> Result<(), RowRefusal<Self::Cause>>
        requires plain { IsReadRow (fields_of row.now) }
        requires given { (above : List Line) × gives self.now above read.old }
        ensures { (above : List Line) → gives self.now above read.old
            → TakesRow (cause self.now above (line_of (fields_of row.now)))
            (gives self.now (above ++ line_of (fields_of row.now) ∷ []) read.new) result };
}

/// What the rows of a table give, or its first faulty row with that row's first cause.
pub fn read_table<T: TableKind>(
    alloc: Global,
    bytes: &[u8],
    table: &T,
) -> Result<T::Read, RowFault<T::Cause>>
    ensures { ReadsTable (first_fault (T.cause table.now) [] (map T.line_of (rows_of bytes.now)))
        (T.gives table.now (map T.line_of (rows_of bytes.now))) result }
{
    let mut read = table.no_rows(alloc)?;
    let mut reader = RowReader::new(alloc, bytes);
    let mut row = ByteRecord::new(alloc);
    let mut place = 0;
    while reader.read_row(&mut row)? {
        match table.take_row(alloc, &mut read, &row) {
            Ok(()) => place += 1,
            Err(refusal) => return Err(refusal.at(place)),
        }
    }
    Ok(read)
}
