//! The ranges of a map, row by row.

ghost use Rattle.std.specs.Prelude.{◌≡◌, map};
ghost use Rattle.table_rows.specs.Tables.{TakesRow};
ghost use Rattle.profil_hist.specs.Lines.{Line, line_of, row_line};
ghost use Rattle.profil_hist.specs.Maps.{cause_in, row_cause};
ghost use Rattle.profil_hist.specs.Ranges.{IsMap};
ghost use Rattle.profil_hist.specs.Steps.{GiveRanges, with_line};
ghost use Rattle.profil_hist.specs.Views.{range_text};

use crate::cause::range_cause;
use crate::fault::MapCause;
use crate::range::MapRange;
use crate::row::{Row, row_of};
use std::alloc::{AllocError, Global};
use table_rows::{ByteRecord, RowRefusal, TableKind};

/// The rows of a map.
pub struct MapRows;

impl TableKind for MapRows {
    type Read = Vec<MapRange>;

    type Cause = MapCause;

    ghost Line = { Line };

    ghost line_of = { line_of };

    ghost cause = { λ _ above line. row_cause above line };

    ghost gives = { λ _ lines ranges. GiveRanges lines (map range_text ranges.items) };

    fn no_rows(&self, alloc: Global) -> Result<Vec<MapRange>, AllocError> {
        Ok(Vec::new(alloc))
    }

    fn take_row(
        &self,
        alloc: Global,
        ranges: &mut Vec<MapRange>,
        row: &ByteRecord,
    ) -> Result<(), RowRefusal<MapCause>> {
        add_row(alloc, ranges, row_of(row))
    }
}

// Adds a row below the others.
fn add_row(
    alloc: Global,
    ranges: &mut Vec<MapRange>,
    row: Row<'_>,
) -> Result<(), RowRefusal<MapCause>>
    requires kept { IsMap (map range_text ranges.old.items) }
    ensures { TakesRow (cause_in (map range_text ranges.old.items) (row_line row.entry))
        (map range_text ranges.new.items
        ≡ with_line (map range_text ranges.old.items) (row_line row.entry)) result }
{
    match row {
        Row::Skipped => Ok(()),
        Row::Bad => Err(RowRefusal::Cause(MapCause::BadRow)),
        Row::Range {
            name,
            start,
            width,
            buckets,
        } => {
            let name = String::from_str(alloc, name)?;
            let range = MapRange {
                name,
                start,
                width,
                buckets,
            };
            if let Some(cause) = range_cause(ranges.as_slice(), &range) {
                return Err(RowRefusal::Cause(cause));
            }
            ranges.push(range)?;
            Ok(())
        }
    }
}
