//! A whole unit file.

ghost use Rattle.event_tables.specs.Unit.{ReadsUnit};

use crate::adding::UnitRows;
use crate::fault::TableFault;
use crate::tables::Tables;
use std::alloc::Global;
use table_rows::read_table;

/// The tables of a unit file, or its first faulty row with that row's first cause.
///
/// The file format is this project's own; its fields are those of libpfm4's and PAPI's event tables.
#[tactic(auto, unfolding(crate::specs::Unit::unit_fault, crate::specs::Unit::unit_tables))]
pub fn read_unit(alloc: Global, bytes: &[u8]) -> Result<Tables, TableFault>
    ensures { ReadsUnit result bytes.now }
{
    Ok(Tables::new(read_table(alloc, bytes, &UnitRows)?))
}
