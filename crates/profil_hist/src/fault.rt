//! Why a map is refused.

ghost use Rattle.std.specs.Prelude.{◌≡◌};
ghost use Rattle.profil_hist.specs.Maps as Maps;

use table_rows::RowFault;
use thiserror::Error;

/// Why a row is refused, in the order in which the causes are tried.
#[derive(Clone, Copy, Debug, PartialEq, Eq, Error)]
#[error("{}", cause_text(*self))]
pub enum MapCause {
    /// It does not have the form of a range, or its end is above 2^64.
    BadRow,
    /// A 1,025th range, or more than 65,536 buckets in all.
    OverLimit,
    /// The exact name of an earlier range.
    RepeatedName,
    /// An address of an earlier range.
    Overlap,
}

/// Why a map is refused: its first faulty row, numbered from 1, with the row's first cause, or out of memory.
pub type MapFault = RowFault<MapCause>;

/// A cause as it is written on the line that names it.
pub fn cause_text(cause: MapCause) -> &'static str
    ensures { result.now ≡ Maps.cause_text cause }
{
    match cause {
        MapCause::BadRow => "bad row",
        MapCause::OverLimit => "over a limit",
        MapCause::RepeatedName => "repeated name",
        MapCause::Overlap => "ranges overlap",
    }
}
