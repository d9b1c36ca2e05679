//! The tables of a tool: the unit, and then the presets and user events if they are asked for.
ghost use Rattle.std.specs.Option.{option_copied};
ghost use Rattle.papi_tools.specs.Looking.{LookedBy, StaysHeld};
ghost use Rattle.papi_tools.specs.Openings.{Is, Leads};
ghost use Rattle.papi_tools.specs.Contents.{after_tables, catalog_under};

use crate::Stop;
use crate::contents::read_file;
use crate::limits::TABLE_BYTES;
use crate::preset_file::read_presets_asked;
use component_table::Catalog;
use event_tables::Tables;
use papi_base::{Files, Text};
use std::alloc::Global;
use tool_words::PresetWords;

/// Reads the unit of this name, and then the presets if they are asked for, or says why not.
pub fn read_catalog<F: Files>(
    alloc: Global,
    files: &mut F,
    unit: &Text,
    presets: Option<&PresetWords>,
) -> Result<Catalog, Stop>
    ensures found { Leads Is result
        (λ openings. catalog_under openings unit.now (option_copied presets.entry))
        (after_tables (option_copied presets.entry)) (F.held files.old) (F.held files.new) }
    ensures looked { LookedBy F.held F.misses F.faults F.lent result 0 files.old files.new }
    ensures held { StaysHeld (F.held files.old) (F.held files.new) }
{
    let tables: Tables = read_file(alloc, files, unit.as_str(), TABLE_BYTES)?;
    let presets = read_presets_asked(alloc, files, presets)?;
    let catalog = Catalog::build(alloc, tables, presets)?;
    Ok(catalog)
}
