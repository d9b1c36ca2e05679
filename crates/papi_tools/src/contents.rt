//! What files by name hold: units, maps, scripts and region scripts.
ghost use Rattle.std.specs.Prelude.{◌≡◌, ℕ, Err, IfOk, List, Ok, Result};
ghost use Rattle.papi_tools.specs.Openings.{Answers, Is, Leads, opened};
ghost use Rattle.papi_tools.specs.Contents.{content_under, map_of, regions_in, script_in, unit_of};
ghost use Rattle.papi_tools.specs.Looking.{FilesSeen, LookedBy, StaysHeld, StopsByFile};
ghost use Rattle.papi_tools.specs.declared.refusal.Refusal.{Refusal};
ghost use Rattle.papi_tools.specs.declared.refusal.Refusal.TheVariants.{Faulty};

use crate::opening::whole_file;
use crate::{FileCause, Refusal, Stop};
use event_tables::{TableFault, Tables, read_unit};
use papi_base::{Files, Text};
use profil_hist::{Map, MapFault, read_map};
use region_report::{RegionFault, Regions, read_regions};
use script_lines::{Script, ScriptFault, read_script};
use std::alloc::Global;

/// What a file by name holds.
pub(crate) trait FileContent: Drop {
    // What the bytes of a file of this name are.
    ghost content: { List ℕ → List ℕ → Result Self Refusal };

    /// What the bytes of a file of this name are, or its first fault.
    fn parse(alloc: Global, name: &str, bytes: &[u8]) -> Result<Self, Stop>
        ensures told { Answers result (content name.now bytes.now) }
        ensures cause { (before after : FilesSeen) → StopsByFile result before after };
}

/// The end of a call at the first faulty row or line of a file.
pub(crate) fn faulty<T: Drop>(
    alloc: Global,
    name: &str,
    number: u64,
    cause: FileCause,
) -> Result<T, Stop>
    ensures told { Answers result (Err (Faulty name.now number cause)) }
    ensures cause { (before after : FilesSeen) → StopsByFile result before after }
{
    let name = Text::copy_of(alloc, name)?;
    Err(Stop::Refused(Refusal::Faulty {
        name,
        number,
        cause,
    }))
}

/// Reads a file of at most `limit` bytes whole, and gives what it holds, or says why not.
pub(crate) fn read_file<T: FileContent, F: Files>(
    alloc: Global,
    files: &mut F,
    name: &str,
    limit: usize,
) -> Result<T, Stop>
    ensures found { Leads Is result (λ openings. content_under limit T.content openings name.now)
        opened (F.held files.old) (F.held files.new) }
    ensures read { IfOk result (λ value. (bytes : List ℕ) × (T.content name.now bytes ≡ Ok value)) }
    ensures looked { LookedBy F.held F.misses F.faults F.lent result 0 files.old files.new }
    ensures held { StaysHeld (F.held files.old) (F.held files.new) }
{
    let bytes = whole_file(alloc, files, name, limit)?;
    T::parse(alloc, name, bytes.as_slice())
}

impl FileContent for Tables {
    ghost content = { unit_of };

    #[tactic(auto, unfolding(crate::specs::Contents::unit_of))]
    fn parse(alloc: Global, name: &str, bytes: &[u8]) -> Result<Tables, Stop> {
        match read_unit(alloc, bytes) {
            Ok(tables) => Ok(tables),
            Err(TableFault::Row { row, cause }) => faulty(alloc, name, row, FileCause::Row(cause)),
            Err(TableFault::Memory) => Err(Stop::Memory),
        }
    }
}

impl FileContent for Map {
    ghost content = { map_of };

    #[tactic(auto, unfolding(crate::specs::Contents::map_of))]
    fn parse(alloc: Global, name: &str, bytes: &[u8]) -> Result<Map, Stop> {
        match read_map(alloc, bytes) {
            Ok(map) => Ok(map),
            Err(MapFault::Row { row, cause }) => faulty(alloc, name, row, FileCause::MapRow(cause)),
            Err(MapFault::Memory) => Err(Stop::Memory),
        }
    }
}

impl FileContent for Script {
    ghost content = { script_in };

    fn parse(alloc: Global, name: &str, bytes: &[u8]) -> Result<Script, Stop> {
        match read_script(alloc, bytes) {
            Ok(script) => Ok(script),
            Err(ScriptFault::Line { line, cause }) => faulty(
                alloc,
                name,
                line,
                FileCause::Line(cause),
            ),
            Err(ScriptFault::Memory) => Err(Stop::Memory),
        }
    }
}

impl FileContent for Regions {
    ghost content = { regions_in };

    fn parse(alloc: Global, name: &str, bytes: &[u8]) -> Result<Regions, Stop> {
        match read_regions(alloc, bytes) {
            Ok(regions) => Ok(regions),
            Err(RegionFault::Line { line, cause }) => faulty(
                alloc,
                name,
                line,
                FileCause::RegionLine(cause),
            ),
            Err(RegionFault::Memory) => Err(Stop::Memory),
        }
    }
}
