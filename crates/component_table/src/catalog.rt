//! A unit's events, and the presets and user events over them.

ghost use Rattle.std.specs.Prelude.{◌≡◌, ◌<◌, ◌≤◌, ◌+◌, ◌++◌, IfOk, OnOk, length, map, string_bytes};
ghost use Rattle.component_table.specs.Books as Books;
ghost use Rattle.component_table.specs.Books.{available_from, available_only, events_from, is_derived, kept_if, rows_in};
ghost use Rattle.component_table.specs.Catalogs.{catalog_of, row_count};
ghost use Rattle.event_tables.specs.Tables.{shape_of};
ghost use Rattle.postfix_rules.specs.Fitting.{BookFits};
ghost use Rattle.preset_csv.specs.declared.symbols.TheConstants.{PRESETS};
ghost use Rattle.user_events.specs.Events.{IsExtended, event_view, names_of};
ghost use Rattle.user_events.specs.declared.event.TheConstants.{MOST_USER_EVENTS};

use crate::derivation::book_of;
use event_tables::Tables;
use papi_base::Shape;
use postfix_rules::{PresetBook, Rule};
use preset_csv::{Entry, PresetTable, preset_count};
use std::alloc::{AllocError, Global};
use std::marker::Model;
use user_events::{Extended, UserEvent};

/// The tables of a unit, and the presets and user events over them: what is derived in each row, if the event is available, and the
/// names of the user events. There is a row for each preset and below them one for each user event, in the order of the ranks.
#[derive(Drop)]
pub struct Catalog {
    pub(crate) tables: Tables,
    pub(crate) book: PresetBook,
    pub(crate) names: Vec<String>,
}

impl Model for Catalog {
    ghost use Rattle.std.specs.Prelude.{map, string_bytes};
    ghost use Rattle.component_table.specs.Catalogs.{CatalogView, IsCatalog};

    ghost Value = { CatalogView };

    ghost view = { λ c. record { tables = c.tables; book = c.book; names = map string_bytes c.names.items } };

    ghost invariant = { λ c. IsCatalog (record { tables = c.tables; book = c.book; names = map string_bytes c.names.items }) };
}

// The entries of all rows, and the names of the user events.
fn taken_apart(alloc: Global, x: Extended) -> Result<(Vec<Entry>, Vec<String>), AllocError>
    ensures entries { IfOk result (λ r. r.0.items ≡ rows_in x) }
    ensures names { IfOk result (λ r. map string_bytes r.1.items ≡ names_of x.events) }
    ensures kept { IsExtended x }
{
    let (presets, events) = x.into_parts();
    let mut entries = presets.into_rows();
    let mut names = Vec::new(alloc);
    for event in events {
        let UserEvent { name, entry } = event;
        entries.push(entry)?;
        names.push(name)?;
    }
    Ok((entries, names))
}

// The catalog of a unit, with the presets and user events for a cpu.
fn catalog_with(alloc: Global, tables: Tables, x: Extended) -> Result<Catalog, AllocError>
    ensures { IfOk result (λ c. c ≡ catalog_of tables (Some x)) }
{
    let (entries, names) = taken_apart(alloc, x)?;
    let book = book_of(alloc, &tables, entries)?;
    Ok(Catalog {
        tables,
        book,
        names,
    })
}

// The catalog of a unit alone.
fn catalog_without(alloc: Global, tables: Tables) -> Result<Catalog, AllocError>
    ensures { IfOk result (λ c. c ≡ catalog_of tables None) }
{
    let book = book_of(alloc, &tables, Vec::new(alloc))?;
    Ok(Catalog {
        tables,
        book,
        names: Vec::new(alloc),
    })
}

// Whether what is derived in a row is known.
fn is_available(book: &PresetBook, row: u32) -> bool
    ensures { result ≡ Books.is_available book.now row }
{
    book.get(row).is_some()
}

// A table of presets with a missing entry in place of each that is not available.
fn available_presets(book: &PresetBook, presets: PresetTable) -> PresetTable
    ensures { result ≡ record { cpu = presets.cpu; rows = available_from book.now 0 presets.rows } }
{
    let mut presets = presets;
    let _rows = presets.rows();
    for row in 0..preset_count() {
        if !is_available(book, row) {
            presets.set_missing(row);
        }
    }
    presets
}

// Keeps a user event if it is available.
fn keep_if(kept: &mut Vec<UserEvent>, event: UserEvent, available: bool) -> Result<(), AllocError>
    ensures { OnOk result (map event_view kept.new.items ≡ map event_view kept.old.items
        ++ kept_if available (event_view event)) }
{
    if available {
        kept.push(event)?;
    }
    Ok(())
}

// The user events that are available.
fn available_events(
    alloc: Global,
    book: &PresetBook,
    events: Vec<UserEvent>,
) -> Result<Vec<UserEvent>, AllocError>
    requires few { length events.items ≤ MOST_USER_EVENTS }
    ensures { IfOk result (λ kept. map event_view kept.items
        ≡ events_from book.now PRESETS (map event_view events.items)) }
{
    let mut kept = Vec::new(alloc);
    let mut row = preset_count();
    for event in events {
        keep_if(&mut kept, event, is_available(book, row))?;
        row += 1;
    }
    Ok(kept)
}

impl Catalog {
    /// The catalog of a unit, with the presets and user events for a cpu or without any.
    pub fn build(
        alloc: Global,
        tables: Tables,
        presets: Option<Extended>,
    ) -> Result<Catalog, AllocError>
        ensures catalog { IfOk result (λ c. c ≡ catalog_of tables presets) }
    {
        match presets {
            Some(presets) => catalog_with(alloc, tables, presets),
            None => catalog_without(alloc, tables),
        }
    }

    /// The tables of the unit.
    pub fn tables(&self) -> &Tables
        ensures tables { result.now ≡ self.now.tables }
    {
        &self.tables
    }

    /// What is derived in each row, if the event is available.
    pub fn book(&self) -> &PresetBook
        ensures book { result.now ≡ self.now.book }
        ensures fits { BookFits (shape_of self.now.tables) self.now.book }
    {
        &self.book
    }

    /// How many rows there are: one for each preset, and one for each user event.
    pub fn rows(&self) -> u32
        ensures rows { result ≡ row_count self.now }
        ensures few { row_count self.now ≤ PRESETS + MOST_USER_EVENTS }
    {
        preset_count() + self.names.len() as u32
    }

    /// Whether the event in a row is available.
    pub fn available(&self, row: u32) -> bool
        requires { row < row_count self.now }
        ensures available { result ≡ Books.is_available self.now.book row }
    {
        is_available(&self.book, row)
    }

    /// Whether the event in a row is available, and of another kind than `NotDerived`.
    pub fn derived(&self, row: u32) -> bool
        requires { row < row_count self.now }
        ensures derived { result ≡ is_derived self.now.book row }
    {
        match self.book.get(row) {
            Some(derived) => !matches!(derived.rule(), Rule::Plain),
            None => false,
        }
    }

    /// The presets and user events that are available: a missing entry stands in place of each other preset, and no other user event
    /// stays.
    pub fn only_available(&self, alloc: Global, x: Extended) -> Result<Extended, AllocError>
        ensures available { IfOk result (λ kept. kept ≡ available_only self.now.book x) }
    {
        let (presets, events) = x.into_parts();
        let presets = available_presets(&self.book, presets);
        let events = available_events(alloc, &self.book, events)?;
        Ok(Extended::new(presets, events))
    }

    /// The components' counters and their widths.
    pub fn shape(&self) -> Shape
        ensures shape { result ≡ shape_of self.now.tables }
    {
        self.tables.shape()
    }
}
