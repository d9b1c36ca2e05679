//! The catalog of a unit, with the presets and user events for a cpu or without any, from the bytes of their files.
ghost use Rattle.std.specs.Prelude.{◌≡◌, ◌≢◌, IfErr, IfOk, OnOk, None};
ghost use Rattle.component_table.specs.Catalogs as Catalogs;
ghost use Rattle.event_tables.specs.Unit.{unit_fault, unit_tables};
ghost use Rattle.papi_c.specs.Opened.{AreFaultless, IsOpenedBy, IsWhy, table_of};
ghost use Rattle.user_events.specs.Rows.{extended_fault};

use component_table::Catalog;
use event_tables::{TableFault, Tables, read_unit};
use papi_calls::Library;
use preset_csv::PresetFault;
use std::alloc::{AllocError, Global};
use user_events::{Extended, read_extended};

/// Why a library is not opened: a file is faulty, or memory is refused.
#[derive(Clone, Copy)]
pub(crate) enum OpenFault {
    Faulty,
    Memory,
}

fn tables_of(alloc: Global, unit: &[u8]) -> Result<Tables, OpenFault>
    ensures faultless { OnOk result (unit_fault unit.now ≡ None) }
    ensures tables { IfOk result (λ t. t ≡ unit_tables unit.now) }
    ensures faulty { IfErr result (IsWhy (unit_fault unit.now ≢ None)) }
{
    match read_unit(alloc, unit) {
        Ok(tables) => Ok(tables),
        Err(TableFault::Memory) => Err(OpenFault::Memory),
        Err(TableFault::Row { .. }) => Err(OpenFault::Faulty),
    }
}

// The presets and user events for a cpu, and none if there is no text of them.
fn presets_of(alloc: Global, presets: &[u8], cpu: &str) -> Result<Option<Extended>, OpenFault>
    ensures faultless { OnOk result (extended_fault cpu.now presets.now ≡ None) }
    ensures presets { IfOk result (λ t. t ≡ table_of presets.now cpu.now) }
    ensures faulty { IfErr result (IsWhy (extended_fault cpu.now presets.now ≢ None)) }
{
    if presets.is_empty() {
        return Ok(None);
    }
    match read_extended(alloc, presets, cpu) {
        Ok(extended) => Ok(Some(extended)),
        Err(PresetFault::Memory) => Err(OpenFault::Memory),
        Err(PresetFault::Row { .. }) => Err(OpenFault::Faulty),
    }
}

fn catalog_of(alloc: Global, unit: &[u8], presets: &[u8], cpu: &str) -> Result<Catalog, OpenFault>
    ensures faultless { OnOk result (AreFaultless unit.now presets.now cpu.now) }
    ensures catalog { IfOk result
        (λ c. c ≡ Catalogs.catalog_of (unit_tables unit.now) (table_of presets.now cpu.now)) }
    ensures faulty { IfErr result (IsWhy (¬ (AreFaultless unit.now presets.now cpu.now))) }
{
    let tables = tables_of(alloc, unit)?;
    let presets = presets_of(alloc, presets, cpu)?;
    Catalog::build(alloc, tables, presets).map_err(|_error| OpenFault::Memory)
}

fn copied(alloc: Global, stream: &[u8]) -> Result<Vec<u8>, AllocError>
    ensures same { IfOk result (λ bytes. bytes.items ≡ stream.now) }
{
    let mut bytes = Vec::new(alloc);
    bytes.extend_from_slice(stream)?;
    Ok(bytes)
}

/// The library of a thread, before any call.
pub(crate) fn open(
    alloc: Global,
    unit: &[u8],
    presets: &[u8],
    cpu: &str,
    thread: u32,
    stream: &[u8],
) -> Result<Library, OpenFault>
    ensures opened { IfOk result (IsOpenedBy unit.now presets.now cpu.now thread stream.now) }
    ensures faulty { IfErr result (IsWhy (¬ (AreFaultless unit.now presets.now cpu.now))) }
{
    let catalog = catalog_of(alloc, unit, presets, cpu)?;
    let Ok(stream) = copied(alloc, stream) else {
        return Err(OpenFault::Memory);
    };
    match Library::open(alloc, catalog, thread, stream) {
        Ok(library) => Ok(library),
        Err(_) => Err(OpenFault::Memory),
    }
}
