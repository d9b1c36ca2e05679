//! Why a unit file is refused.

ghost use Rattle.std.specs.Prelude.{◌≡◌};
ghost use Rattle.event_tables.specs.Unit as Unit;

use table_rows::RowFault;
use thiserror::Error;

/// Why a row is refused, in the order in which the causes are tried.
#[derive(Clone, Copy, Debug, PartialEq, Eq, Error)]
#[error("{}", cause_text(*self))]
pub enum RowCause {
    /// It has none of the forms, belongs to nothing, or is a second default umask.
    BadRow,
    /// One component, counter, event or umask too many.
    OverLimit,
    /// A name that stands above already, or a umask with a modifier's name.
    RepeatedName,
    /// A width that is not from 16 to 48.
    BadWidth,
    /// A counter that the component does not have above this row.
    UnknownCounter,
}

/// Why a unit file is refused: its first faulty row, numbered from 1, with the row's first cause, or out of memory.
pub type TableFault = RowFault<RowCause>;

/// A cause as it is written on the line that names it.
pub fn cause_text(cause: RowCause) -> &'static str
    ensures { result.now ≡ Unit.cause_text cause }
{
    match cause {
        RowCause::BadRow => "bad row",
        RowCause::OverLimit => "over a limit",
        RowCause::RepeatedName => "repeated name",
        RowCause::BadWidth => "width out of range",
        RowCause::UnknownCounter => "unknown counter",
    }
}
