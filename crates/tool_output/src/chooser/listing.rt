//! The candidates that a set would take.

ghost use Rattle.std.specs.Prelude.{◌≡◌, ◌++◌, ◌∷◌, [], IfOk, OnOk, Some, filter, slice_get};
ghost use Rattle.tool_output.specs.Candidates.{found, natives_at, natives_of_event, preset_in};
ghost use Rattle.tool_output.specs.Choosing.{taken, takes};
ghost use Rattle.tool_output.specs.Open.{IsOpen, IsOver};
ghost use Rattle.component_table.specs.Catalogs.{shape_of};
ghost use Rattle.postfix_rules.specs.Fitting.{EventFits, IsHeld};
ghost use Rattle.event_tables.specs.Kept.{IsTables};
ghost use Rattle.event_tables.specs.Tables.{event_at};
ghost use Rattle.event_tables.specs.Views.{component_text, event_text};
ghost use Rattle.postfix_rules.specs.Presets.{component_of_event};

use crate::chooser::candidates::Candidates;
use crate::chooser::native::{with_umask, without_umask};
use crate::chooser::opening::{opened, would_take};
use component_table::Catalog;
use counter_alloc::Matching;
use event_sets::EventSet;
use event_tables::{Component, EventRow};
use papi_base::EventRef;
use std::alloc::{AllocError, Global};

// Appends an event, if the set would take it.
fn keep(
    events: &mut Vec<EventRef>,
    catalog: &Catalog,
    set: &EventSet,
    matching: &Matching,
    event: EventRef,
) -> Result<(), AllocError>
    requires held { IsHeld catalog.now.book event }
    requires fits { EventFits (shape_of catalog.now.tables) event }
    requires open { IsOpen catalog.now set.now matching.now
        (component_of_event catalog.now.book event) }
    ensures { OnOk result (events.new.items
        ≡ events.old.items ++ filter (takes catalog.now set.now.rest) (event ∷ [])) }
{
    if would_take(catalog, set, matching, &event) {
        events.push(event)?;
    }
    Ok(())
}

// Appends those native events of an event in a row of a component that the set would take.
fn keep_natives(
    events: &mut Vec<EventRef>,
    catalog: &Catalog,
    set: &EventSet,
    matching: &Matching,
    comp: u32,
    row: u32,
    component: &Component,
    event: &EventRow,
) -> Result<(), AllocError>
    requires kept { IsTables catalog.now.tables }
    requires among { slice_get catalog.now.tables comp ≡ Some (component_text component.now) }
    requires here { event_at catalog.now.tables comp row ≡ Some (event_text event.now) }
    requires open { IsOpen catalog.now set.now matching.now (Some comp) }
    ensures { OnOk result (events.new.items
        ≡ events.old.items ++ filter (takes catalog.now set.now.rest)
        (natives_of_event
        (found comp row (component_text component.now) (event_text event.now)))) }
{
    if event.masks.is_empty() {
        let native = without_umask(comp, row, event);
        return keep(events, catalog, set, matching, EventRef::Native(native));
    }
    for umask in 0..event.masks.len() {
        let native = with_umask(comp, row, component, event, umask);
        keep(events, catalog, set, matching, EventRef::Native(native))?;
    }
    Ok(())
}

// Appends those native events of a component that the set would take.
fn keep_component(
    events: &mut Vec<EventRef>,
    catalog: &Catalog,
    set: &EventSet,
    comp: u32,
) -> Result<(), AllocError>
    requires kept { IsTables catalog.now.tables }
    requires over { IsOver catalog.now set.now }
    ensures { OnOk result (events.new.items
        ≡ events.old.items ++ filter (takes catalog.now set.now.rest)
        (natives_at catalog.now.tables comp)) }
{
    let Some(component) = catalog.tables().component(comp) else {
        return Ok(());
    };
    let Some(matching) = opened(catalog, set, comp) else {
        return Ok(());
    };
    for row in 0..component.events.len() {
        let event = &component.events[row];
        keep_natives(
            events, catalog, set, &matching, comp, row as u32, component, event,
        )?;
    }
    Ok(())
}

// Appends the preset or user event of a row, if it is available and the set would take it.
fn keep_preset(
    events: &mut Vec<EventRef>,
    catalog: &Catalog,
    set: &EventSet,
    row: u32,
) -> Result<(), AllocError>
    requires over { IsOver catalog.now set.now }
    ensures { OnOk result (events.new.items
        ≡ events.old.items ++ filter (takes catalog.now set.now.rest)
        (preset_in catalog.now.book row)) }
{
    if let Some(derived) = catalog.book().get(row)
        && let Some(matching) = opened(catalog, set, derived.natives().at(0).comp)
    {
        keep(events, catalog, set, &matching, EventRef::Preset(row))?;
    }
    Ok(())
}

/// The candidates that the set would take, in the order of the tables. User events come after the presets.
pub fn taken_by(
    alloc: Global,
    catalog: &Catalog,
    candidates: Candidates,
    set: &EventSet,
) -> Result<Vec<EventRef>, AllocError>
    requires over { IsOver catalog.now set.now }
    ensures { IfOk result (λ events. events.items ≡ taken catalog.now set.now.rest candidates) }
{
    let mut events = Vec::new(alloc);
    match candidates {
        Candidates::Native => {
            for comp in 0..catalog.tables().components() {
                keep_component(&mut events, catalog, set, comp)?;
            }
        }
        Candidates::Preset => {
            for row in 0..catalog.rows() {
                keep_preset(&mut events, catalog, set, row)?;
            }
        }
    }
    Ok(events)
}
