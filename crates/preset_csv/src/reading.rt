//! A whole preset file.

ghost use Rattle.std.specs.Prelude.{◌≡◌, ◌<◌, IfOk, length, replicate, set};
ghost use Rattle.csv.specs.Records.{fields_of};
ghost use Rattle.table_rows.specs.Rows.{IsReadRow};
ghost use Rattle.table_rows.specs.Tables.{TakesRow};
ghost use Rattle.preset_csv.specs.declared.symbols.TheConstants.{PRESETS};
ghost use Rattle.preset_csv.specs.Entries.{judged, judged_by};
ghost use Rattle.preset_csv.specs.Lines.{Line, derivation_of, line_of, row_line};
ghost use Rattle.preset_csv.specs.Presets.{ReadsPresets, line_cause};
ghost use Rattle.preset_csv.specs.Reading.{GivePresets};
ghost use Rattle.preset_csv.specs.Steps.{IsMore, IsPlainRow, cause_more, entries_with, read_cause};
ghost use Rattle.preset_csv.specs.declared.entry.Entry.TheVariants as entry;

use crate::entry::Entry;
use crate::fault::{PresetCause, PresetFault};
use crate::group::Group;
use crate::judging::{PresetJudge, RowJudge, judge};
use crate::row::{Row, row_of};
use crate::symbols::{PRESETS, symbol_row};
use crate::table::PresetTable;
use std::alloc::{AllocError, Global};
use table_rows::{ByteRecord, RowRefusal, TableKind, read_table, text_at};

/// A missing entry for each row of the preset table.
pub fn all_missing(alloc: Global) -> Result<Vec<Entry>, AllocError>
    ensures { IfOk result (λ v. v.items ≡ replicate PRESETS entry.Missing) }
{
    let mut entries = Vec::new(alloc);
    for _ in 0..PRESETS {
        entries.push(Entry::Missing)?;
    }
    Ok(entries)
}

// Puts an entry into its row.
fn put(entries: &mut Vec<Entry>, row: u32, entry: Entry)
    requires { row < length entries.old.items }
    ensures { entries.new.items ≡ set entries.old.items row entry }
{
    entries[row as usize] = entry;
}

/// Takes what a PRESET row derives, if its group holds the asked cpu.
pub fn take_preset<J: RowJudge>(
    alloc: Global,
    row: &ByteRecord,
    holds: bool,
    entries: &mut Vec<Entry>,
) -> Result<(), RowRefusal<PresetCause>>
    requires plain { IsReadRow (fields_of row.now) }
    requires all { length entries.old.items ≡ PRESETS }
    ensures { TakesRow
        (read_cause (judged_by J.infix_judged) holds (derivation_of (fields_of row.now)))
        (entries.new.items ≡ entries_with (judged_by J.infix_judged) holds entries.old.items
        (derivation_of (fields_of row.now))) result }
{
    if !holds {
        return Ok(());
    }
    if let Some(place) = symbol_row(text_at(row, 1)) {
        put(entries, place, judge::<J>(alloc, row)?);
    }
    Ok(())
}

/// What the rows so far gave: the group of CPU rows at their end, and the entries.
#[derive(Drop)]
pub struct Taken {
    pub group: Group,
    pub entries: Vec<Entry>,
}

/// Takes a row below the others, for a cpu. What an EVENT row says is left to the caller.
pub fn take_line<J: RowJudge>(
    alloc: Global,
    cpu: &str,
    row: Row<'_>,
    taken: &mut Taken,
) -> Result<(), RowRefusal<PresetCause>>
    requires plain { IsPlainRow row }
    requires all { length taken.old.entries.items ≡ PRESETS }
    ensures { TakesRow (cause_more (judged_by J.infix_judged) taken.old.group (row_line row.entry))
        (IsMore (judged_by J.infix_judged) cpu.now (row_line row.entry)
        taken.old.group taken.old.entries.items taken.new.group taken.new.entries.items) result }
{
    match row {
        Row::Other => Ok(()),
        Row::Cpu(name) => {
            taken.group = taken.group.with_cpu(cpu.as_bytes() == name);
            Ok(())
        }
        Row::Preset(row) => {
            if !taken.group.begun {
                return Err(RowRefusal::Cause(PresetCause::NoCpu));
            }
            taken.group = taken.group.with_preset();
            take_preset::<J>(alloc, row, taken.group.holds, &mut taken.entries)
        }
        Row::Event(_) => {
            if taken.group.begun {
                taken.group = taken.group.with_preset();
                Ok(())
            } else {
                Err(RowRefusal::Cause(PresetCause::NoCpu))
            }
        }
    }
}

// The rows of a preset file, read for a cpu.
#[derive(Clone, Copy)]
struct PresetRows<'c> {
    cpu: &'c str,
}

impl<'c> TableKind for PresetRows<'c> {
    type Read = Taken;

    type Cause = PresetCause;

    ghost Line = { Line };

    ghost line_of = { line_of };

    ghost cause = { λ p above line. line_cause judged p.cpu.now above line };

    ghost gives = { λ p lines taken. GivePresets judged p.cpu.now lines taken.group taken.entries.items };

    fn no_rows(&self, alloc: Global) -> Result<Taken, AllocError> {
        Ok(Taken {
            group: Group::new(),
            entries: all_missing(alloc)?,
        })
    }

    fn take_row(
        &self,
        alloc: Global,
        taken: &mut Taken,
        row: &ByteRecord,
    ) -> Result<(), RowRefusal<PresetCause>> {
        take_line::<PresetJudge>(alloc, self.cpu, row_of(row), taken)
    }
}

/// The presets for a cpu of a preset file, or its first faulty row with that row's first cause.
///
/// Names of cpus, symbols and derived types are compared exactly. The last row of a symbol gives its entry. Source:
/// papi_events.csv.
pub fn read_presets(alloc: Global, bytes: &[u8], cpu: &str) -> Result<PresetTable, PresetFault>
    ensures { ReadsPresets result bytes.now cpu.now }
{
    let taken = read_table(alloc, bytes, &PresetRows { cpu })?;
    Ok(PresetTable::new(String::from_str(alloc, cpu)?, taken.entries))
}
