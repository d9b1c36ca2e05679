//! Why a row is not taken, and why a table is refused.

ghost use Rattle.std.specs.Prelude.{◌≡◌, ◌<◌, ◌-◌, ◌^◌};
ghost use Rattle.table_rows.specs.Tables as Tables;
ghost use Rattle.table_rows.specs.declared.fault.RowRefusal.TheVariants as refusal;
ghost use Rattle.table_rows.specs.declared.fault.RowFault.TheVariants as fault;

use std::alloc::{AllocError, AllocFailed};
use std::error::Error;
use std::fmt;

/// Why a row is not taken: its first cause, or out of memory.
#[derive(Clone, Copy)]
pub enum RowRefusal<C> {
    Cause(C),
    Memory,
}

impl<C> From<AllocError> for RowRefusal<C> {
    ghost from_gives = { λ _ e. e ≡ refusal.Memory };

    fn from(_e: AllocError) -> RowRefusal<C> {
        RowRefusal::Memory
    }
}

impl<C, T: Drop> From<AllocFailed<T>> for RowRefusal<C> {
    ghost from_gives = { λ _ e. e ≡ refusal.Memory };

    fn from(_e: AllocFailed<T>) -> RowRefusal<C> {
        RowRefusal::Memory
    }
}

/// Why a table is refused: its first faulty row, numbered from 1, with the row's first cause, or out of memory.
#[derive(Clone, Copy, Debug, PartialEq, Eq)]
pub enum RowFault<C> {
    Row { row: u64, cause: C },
    Memory,
}

impl<C: fmt::Display + Copy> fmt::Display for RowFault<C> {
    fn fmt<W: fmt::Write>(&self, f: &mut fmt::Formatter<W>) -> fmt::Result {
        match self {
            RowFault::Row { row, cause } => write!(f, "row {row}: {cause}"),
            RowFault::Memory => f.write_str("out of memory"),
        }
    }
}

impl<C: fmt::Display + fmt::Debug + Copy> Error for RowFault<C> {}

impl<C> From<AllocError> for RowFault<C> {
    ghost from_gives = { λ _ e. e ≡ fault.Memory };

    fn from(_e: AllocError) -> RowFault<C> {
        RowFault::Memory
    }
}

impl<C: Copy> RowRefusal<C> {
    /// The fault of a refused row, whose place is from 0.
    pub(crate) fn at(self, place: usize) -> RowFault<C>
        requires { place < 2 ^ 64 - 1 }
        ensures { result ≡ Tables.fault_at place self }
    {
        match self {
            RowRefusal::Cause(cause) => RowFault::Row {
                row: place as u64 + 1,
                cause,
            },
            RowRefusal::Memory => RowFault::Memory,
        }
    }
}
