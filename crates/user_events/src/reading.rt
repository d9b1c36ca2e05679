//! A whole preset file with user events.

ghost use Rattle.std.specs.Prelude.{◌≡◌, length, map};
ghost use Rattle.csv.specs.Records.{fields_of};
ghost use Rattle.table_rows.specs.Rows.{IsReadRow};
ghost use Rattle.table_rows.specs.Tables.{TakesRow};
ghost use Rattle.preset_csv.specs.declared.symbols.TheConstants.{PRESETS};
ghost use Rattle.preset_csv.specs.Lines.{Line, derivation_of, row_line};
ghost use Rattle.preset_csv.specs.Steps.{IsPlainRow};
ghost use Rattle.user_events.specs.Events.{event_view, names_of};
ghost use Rattle.user_events.specs.Lines.{line_of};
ghost use Rattle.user_events.specs.Reading.{GivePresetsAndEvents, taking};
ghost use Rattle.user_events.specs.Rows as Rows;
ghost use Rattle.user_events.specs.Rows.{ReadsExtended};
ghost use Rattle.user_events.specs.Steps.{IsMore, IsOverLimit, cause_more, event_cause, events_with};

use crate::event::{MOST_USER_EVENTS, UserEvent, is_event_name, place_of, put_event};
use crate::extended::Extended;
use crate::judging::EventJudge;
use preset_csv::{
    Group, Judgement, PresetCause, PresetFault, PresetTable, Row, Taken, all_missing, judge,
    row_of, take_line,
};
use std::alloc::{AllocError, Global};
use table_rows::{ByteRecord, RowRefusal, TableKind, printable_text, read_table, text_at};

/// What a record is, by its first field, without regard to ASCII case.
#[tactic(auto, unfolding(crate::specs::Lines::line_of))]
fn event_row_of(row: &ByteRecord) -> Row<'_>
    ensures line { row_line result ≡ line_of (fields_of row.now) }
    ensures plain { IsReadRow (fields_of row.now) → IsPlainRow result }
{
    if text_at(row, 0).eq_ignore_ascii_case(b"EVENT") {
        Row::Event(row)
    } else {
        row_of(row)
    }
}

// Whether a name is new, and there are as many as there may be.
fn is_too_many(events: &[UserEvent], name: &str) -> bool
    ensures { result ≡ Rows.is_too_many (names_of (map event_view events.now)) name.now }
{
    place_of(events, name).is_none() && events.len() >= MOST_USER_EVENTS
}

// The refusal of a row that would add one name too many.
fn over_limit(judged: Judgement) -> RowRefusal<PresetCause>
    ensures { IsOverLimit judged result }
{
    match judged {
        Ok(_) => RowRefusal::Cause(PresetCause::OverLimit),
        Err(RowRefusal::Cause(PresetCause::BadFormula(_))) => RowRefusal::Cause(
            PresetCause::OverLimit,
        ),
        Err(refusal) => refusal,
    }
}

// Takes what an EVENT row derives, if its group holds the asked cpu.
fn take_event(
    alloc: Global,
    row: &ByteRecord,
    holds: bool,
    events: &mut Vec<UserEvent>,
) -> Result<(), RowRefusal<PresetCause>>
    requires plain { IsReadRow (fields_of row.now) }
    ensures { TakesRow (event_cause holds (map event_view events.old.items)
        (derivation_of (fields_of row.now)))
        (map event_view events.new.items
        ≡ events_with holds (map event_view events.old.items) (derivation_of (fields_of row.now)))
        result }
{
    if !holds {
        return Ok(());
    }
    let name = text_at(row, 1);
    if !is_event_name(name) {
        return Err(RowRefusal::Cause(PresetCause::BadField));
    }
    let Some(name) = printable_text(name) else {
        return Err(RowRefusal::Cause(PresetCause::BadField));
    };
    let judged = judge::<EventJudge>(alloc, row);
    if is_too_many(events.as_slice(), name) {
        return Err(over_limit(judged));
    }
    put_event(alloc, events, name, judged?)?;
    Ok(())
}

// What the rows so far gave: what a file of presets alone gives, and the user events.
#[derive(Drop)]
struct WithEvents {
    presets: Taken,
    events: Vec<UserEvent>,
}

// Takes a row below the others, for a cpu.
fn take_any_line(
    alloc: Global,
    cpu: &str,
    row: Row<'_>,
    taken: &mut WithEvents,
) -> Result<(), RowRefusal<PresetCause>>
    requires plain { IsPlainRow row }
    requires all { length taken.old.presets.entries.items ≡ PRESETS }
    ensures { TakesRow (cause_more taken.old.presets.group (map event_view taken.old.events.items)
        (row_line row.entry))
        (IsMore cpu.now (row_line row.entry) (taking taken.old) (taking taken.new)) result }
{
    take_line::<EventJudge>(alloc, cpu, row, &mut taken.presets)?;
    match row {
        Row::Event(row) => take_event(alloc, row, taken.presets.group.holds, &mut taken.events),
        _ => Ok(()),
    }
}

// The rows of a preset file with user events, read for a cpu.
#[derive(Clone, Copy)]
struct EventRows<'c> {
    cpu: &'c str,
}

impl<'c> TableKind for EventRows<'c> {
    type Read = WithEvents;

    type Cause = PresetCause;

    ghost Line = { Line };

    ghost line_of = { line_of };

    ghost cause = { λ p above line. Rows.line_cause p.cpu.now above line };

    ghost gives = { λ p lines taken. GivePresetsAndEvents p.cpu.now lines (taking taken) };

    fn no_rows(&self, alloc: Global) -> Result<WithEvents, AllocError> {
        Ok(WithEvents {
            presets: Taken {
                group: Group::new(),
                entries: all_missing(alloc)?,
            },
            events: Vec::new(alloc),
        })
    }

    fn take_row(
        &self,
        alloc: Global,
        taken: &mut WithEvents,
        row: &ByteRecord,
    ) -> Result<(), RowRefusal<PresetCause>> {
        take_any_line(alloc, self.cpu, event_row_of(row), taken)
    }
}

/// The presets and user events for a cpu of a preset file, or its first faulty row with that row's first cause.
///
/// Names of cpus, symbols, user events and derived types are compared exactly. The last row of a symbol or a name gives its
/// entry, and the first row of a name its rank. Source: papi_events.csv.
pub fn read_extended(alloc: Global, bytes: &[u8], cpu: &str) -> Result<Extended, PresetFault>
    ensures { ReadsExtended result bytes.now cpu.now }
{
    let taken = read_table(alloc, bytes, &EventRows { cpu })?;
    let presets = PresetTable::new(String::from_str(alloc, cpu)?, taken.presets.entries);
    Ok(Extended::new(presets, taken.events))
}
