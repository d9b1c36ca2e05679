//! A whole map.

ghost use Rattle.profil_hist.specs.Maps.{ReadsMap};

use crate::adding::MapRows;
use crate::fault::MapFault;
use crate::map::Map;
use std::alloc::Global;
use table_rows::read_table;

/// The map of a file, or its first faulty row with that row's first cause.
///
/// The file format is this project's own; a range is what PAPI_sprofil(3) calls a region.
#[tactic(auto, unfolding(crate::specs::Maps::map_fault, crate::specs::Maps::map_ranges))]
pub fn read_map(alloc: Global, bytes: &[u8]) -> Result<Map, MapFault>
    ensures { ReadsMap result bytes.now }
{
    Ok(Map::new(read_table(alloc, bytes, &MapRows)?))
}
