//! The tables, row by row.

ghost use Rattle.std.specs.Prelude.{◌≡◌, ◌<◌, ◌≤◌, false, [], Some, None, map, OnOk, IfOk, length, vec_len, if◌then◌else◌};
ghost use Rattle.std.specs.HashMap.{get_by_text};
ghost use Rattle.std.specs.List.{AllByRecursion, list_any};
ghost use Rattle.std.specs.Map.{update};
ghost use Rattle.std.specs.Str.{bytes_eq, str_to_ascii_lowercase};
ghost use Rattle.table_rows.specs.Texts.{Text, is_empty};
ghost use Rattle.table_rows.specs.Tables.{TakesRow};
ghost use Rattle.event_tables.specs.Index.{AreKept, GiveComponents, IsIndexed};
ghost use Rattle.event_tables.specs.Kept.{IsLine};
ghost use Rattle.event_tables.specs.Tables.{same_name};
ghost use Rattle.papi_base.specs.declared.limits.TheConstants.{MOST_COUNTERS};
ghost use Rattle.event_tables.specs.declared.limits.TheConstants.{MOST_COMPONENT_EVENTS};
ghost use Rattle.event_tables.specs.Lines as Lines;
ghost use Rattle.event_tables.specs.Lines.{Line, line_of, row_line, words_of};
ghost use Rattle.event_tables.specs.Steps as Steps;
ghost use Rattle.event_tables.specs.Steps.{CanGrow, HasMask};
ghost use Rattle.event_tables.specs.Unit as Unit;
ghost use Rattle.event_tables.specs.Views.{component_text, counter_text, event_text, mask_text};

use crate::cause::cause_of;
use crate::component::{Component, Counter, EventRow, FixedMods, UmaskRow};
use crate::counter_bits::bits_of;
use crate::fault::RowCause;
use crate::row::{Flags, Row, row_of};
use std::alloc::{AllocError, Global};
use std::collections::HashMap;
use table_rows::{ByteRecord, RowRefusal, TableKind};

// An event that the counters of these bits can count.
fn event_of(
    alloc: Global,
    name: &str,
    select: u8,
    allowed: u32,
    text: &str,
) -> Result<EventRow, AllocError>
    ensures { IfOk result (λ e.
        event_text e ≡ record {
          name = name.now;
          select = select;
          allowed = allowed;
          text = text.now;
          masks = [];
        }) }
{
    Ok(EventRow {
        name: String::from_str(alloc, name)?,
        select,
        allowed,
        text: String::from_str(alloc, text)?,
        masks: Vec::new(alloc),
    })
}

fn mask_of(
    alloc: Global,
    name: &str,
    bits: u8,
    flags: Flags,
    text: &str,
) -> Result<UmaskRow, AllocError>
    ensures { IfOk result (λ m. mask_text m ≡ Lines.mask_of name.now bits flags text.now) }
{
    Ok(UmaskRow {
        name: String::from_str(alloc, name)?,
        bits,
        preset_choice: flags.preset_choice,
        alone: flags.alone,
        text: String::from_str(alloc, text)?,
        counters: None,
        fixed: None,
    })
}

// A counter at the end.
fn add_counter(
    alloc: Global,
    component: &mut Component,
    name: &str,
    width: Option<u8>,
    fixed: bool,
) -> Result<(), AllocError>
    requires { IsIndexed component.old }
    ensures counter { OnOk result
        (component_text component.new
        ≡ Steps.with_counter (Unit.counter_row name.now width fixed)
        (component_text component.old)) }
    ensures indexed { OnOk result (IsIndexed component.new) }
{
    let name = String::from_str(alloc, name)?;
    let width = width.unwrap_or(0);
    component.counters.push(Counter { name, width, fixed })?;
    Ok(())
}

// Notes the row of a new event under its name.
fn note_row(
    alloc: Global,
    rows: &mut HashMap<String, u32>,
    name: &str,
    row: u32,
) -> Result<(), AllocError>
    ensures { OnOk result ((lower : Text)
        → get_by_text rows.new lower
        ≡ update bytes_eq (get_by_text rows.old) (str_to_ascii_lowercase name.now)
        (Some row) lower) }
{
    let mut lower = String::from_str(alloc, name)?;
    lower.make_ascii_lowercase();
    rows.insert(lower, row)?;
    Ok(())
}

// An event whose name is new, for the counters of these names.
fn add_event(
    alloc: Global,
    component: &mut Component,
    name: &str,
    select: u8,
    names: &[u8],
    text: &str,
) -> Result<(), AllocError>
    requires few_counters { vec_len component.old.counters ≤ MOST_COUNTERS }
    requires few_events { vec_len component.old.events ≤ MOST_COMPONENT_EVENTS }
    requires indexed { IsIndexed component.old }
    requires fresh { list_any
        (λ e. same_name e.name name.now) (map event_text component.old.events.items) ≡ false }
    ensures event { OnOk result (component_text component.new ≡ Steps.with_event
        (Unit.event_row (map counter_text component.old.counters.items) name.now select
        (words_of names.now) text.now []) (component_text component.old)) }
    ensures indexed { OnOk result (IsIndexed component.new) }
{
    let row = component.events.len() as u32;
    note_row(alloc, &mut component.rows, name, row)?;
    let allowed = bits_of(component.counters.as_slice(), names);
    let event = event_of(alloc, name, select, allowed, text)?;
    component.events.push(event)?;
    Ok(())
}

// A umask at the end of the last event.
fn add_mask(
    alloc: Global,
    component: &mut Component,
    name: &str,
    bits: u8,
    flags: Flags,
    text: &str,
) -> Result<(), AllocError>
    requires filled { 0 < vec_len component.old.events }
    requires indexed { IsIndexed component.old }
    ensures mask { OnOk result (component_text component.new ≡ Steps.with_inner_mask
        (Lines.mask_of name.now bits flags text.now) (component_text component.old)) }
    ensures indexed { OnOk result (IsIndexed component.new) }
{
    let mask = mask_of(alloc, name, bits, flags, text)?;
    let last = component.events.len() - 1;
    component.events[last].masks.push(mask)?;
    Ok(())
}

// The last umask can be counted by the counters of these bits alone.
fn restrict_mask(masks: &mut Vec<UmaskRow>, bits: u32)
    requires { 0 < vec_len masks.old }
    ensures { map mask_text masks.new.items
        ≡ Unit.on_last (Unit.restricted bits) (map mask_text masks.old.items) }
{
    let last = masks.len() - 1;
    masks[last].counters = Some(bits);
}

// The last umask fixes these modifiers.
fn fix_mask(masks: &mut Vec<UmaskRow>, fixed: FixedMods)
    requires { 0 < vec_len masks.old }
    ensures { map mask_text masks.new.items
        ≡ Unit.on_last (Unit.fixing fixed) (map mask_text masks.old.items) }
{
    let last = masks.len() - 1;
    masks[last].fixed = Some(fixed);
}

// The last umask of the last event can be counted by the counters of these names alone.
fn add_mask_counters(component: &mut Component, names: &[u8])
    requires few_counters { vec_len component.old.counters ≤ MOST_COUNTERS }
    requires filled { HasMask (component_text component.old) }
    requires indexed { IsIndexed component.old }
    ensures counters { component_text component.new ≡ Steps.with_last_mask
        (Unit.restricted (Unit.bits_of (map counter_text component.old.counters.items)
        (words_of names.now))) (component_text component.old) }
    ensures indexed { IsIndexed component.new }
{
    let bits = bits_of(component.counters.as_slice(), names);
    let last = component.events.len() - 1;
    restrict_mask(&mut component.events[last].masks, bits);
}

// The last umask of the last event fixes these modifiers.
fn add_mask_modifiers(component: &mut Component, fixed: FixedMods)
    requires filled { HasMask (component_text component.old) }
    requires indexed { IsIndexed component.old }
    ensures modifiers { component_text component.new
        ≡ Steps.with_last_mask (Unit.fixing fixed) (component_text component.old) }
    ensures indexed { IsIndexed component.new }
{
    let last = component.events.len() - 1;
    fix_mask(&mut component.events[last].masks, fixed);
}

// Adds a row of its own to a component.
fn grow(alloc: Global, component: &mut Component, row: Row<'_>) -> Result<(), AllocError>
    requires few_counters { vec_len component.old.counters ≤ MOST_COUNTERS }
    requires few_events { vec_len component.old.events ≤ MOST_COMPONENT_EVENTS }
    requires indexed { IsIndexed component.old }
    requires owned { CanGrow (row_line row) (component_text component.old) }
    ensures grown { OnOk result
        (component_text component.new
        ≡ Steps.grown (row_line row.entry) (component_text component.old)) }
    ensures indexed { OnOk result (IsIndexed component.new) }
{
    match row {
        Row::Counter { name, width, fixed } => add_counter(alloc, component, name, width, fixed),
        Row::Event {
            name,
            select,
            counters,
            text,
        } => add_event(alloc, component, name, select, counters, text),
        Row::Umask {
            name,
            bits,
            flags,
            text,
        } => add_mask(alloc, component, name, bits, flags, text),
        Row::UmaskCounters { counters } => {
            add_mask_counters(component, counters);
            Ok(())
        }
        Row::UmaskModifiers { fixed } => {
            add_mask_modifiers(component, fixed);
            Ok(())
        }
        Row::Skipped => Ok(()),
        Row::Bad => Ok(()),
        Row::Component { name: _, pmu: _ } => Ok(()),
    }
}

#[tactic(auto, unfolding(crate::specs::Unit::counters_in, crate::specs::Unit::events_in))]
fn component_of(alloc: Global, name: &str, pmu: &str) -> Result<Component, AllocError>
    ensures component { IfOk result
        (λ c. component_text c ≡ Unit.component_of name.now pmu.now []) }
    ensures indexed { IfOk result IsIndexed }
{
    Ok(Component {
        name: String::from_str(alloc, name)?,
        pmu: String::from_str(alloc, pmu)?,
        counters: Vec::new(alloc),
        events: Vec::new(alloc),
        rows: HashMap::new(alloc),
    })
}

// Adds a row with no cause below the others.
fn put_row(alloc: Global, components: &mut Vec<Component>, row: Row<'_>) -> Result<(), AllocError>
    requires kept { AreKept components.old.items }
    requires faultless { Unit.cause_in (map component_text components.old.items) (row_line row)
        ≡ None }
    ensures put { OnOk result
        (map component_text components.new.items
        ≡ Steps.with_line (map component_text components.old.items) (row_line row.entry)) }
    ensures indexed { OnOk result (AllByRecursion IsIndexed components.new.items) }
{
    if let Row::Component { name, pmu } = row {
        components.push(component_of(alloc, name, pmu)?)?;
        return Ok(());
    }
    match components.last_mut() {
        Some(last) => grow(alloc, last, row),
        None => Ok(()),
    }
}

// Adds a row below the others.
fn add_row(
    alloc: Global,
    components: &mut Vec<Component>,
    row: Row<'_>,
) -> Result<(), RowRefusal<RowCause>>
    requires kept { AreKept components.old.items }
    requires line { IsLine (row_line row) }
    ensures adds { TakesRow (Unit.cause_in (map component_text components.old.items)
        (row_line row.entry))
        (map component_text components.new.items
        ≡ Steps.with_line (map component_text components.old.items) (row_line row.entry)) result }
    ensures indexed { OnOk result (AllByRecursion IsIndexed components.new.items) }
{
    if let Some(cause) = cause_of(components.as_slice(), &row) {
        return Err(RowRefusal::Cause(cause));
    }
    put_row(alloc, components, row)?;
    Ok(())
}

/// The rows of a unit file.
pub struct UnitRows;

impl TableKind for UnitRows {
    type Read = Vec<Component>;

    type Cause = RowCause;

    ghost Line = { Line };

    ghost line_of = { line_of };

    ghost cause = { λ _ above line. Unit.row_cause above line };

    ghost gives = { λ _ lines components. GiveComponents lines components.items };

    fn no_rows(&self, alloc: Global) -> Result<Vec<Component>, AllocError> {
        Ok(Vec::new(alloc))
    }

    fn take_row(
        &self,
        alloc: Global,
        components: &mut Vec<Component>,
        row: &ByteRecord,
    ) -> Result<(), RowRefusal<RowCause>> {
        add_row(alloc, components, row_of(row))
    }
}
