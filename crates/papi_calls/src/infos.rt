//! What is told of events: PAPI_get_event_info(3).
ghost use Rattle.std.specs.Prelude.{◌≡◌, IfOk, string_bytes};
ghost use Rattle.std.specs.Option.{option_copied};
ghost use Rattle.papi_calls.specs.Codes.{event_coded, map_ok};
ghost use Rattle.papi_calls.specs.Infos as Infos;
ghost use Rattle.papi_calls.specs.Infos.{derived_in, info_of};

use crate::library::Library;
use component_table::{Catalog, kind_of};
use event_tables::Tables;
use name_encoder::write_name;
use papi_base::{Code, EventRef, Native};
use postfix_rules::{Derived, Rule, write_formula};
use preset_csv::{kind_text, preset_count, preset_text};
use std::alloc::{AllocError, Global};

/// A part of what PAPI_get_event_info(3) tells: the name; the description; and of an available preset or user event the derived type,
/// the formula and the native events by their places.
#[derive(Clone, Copy)]
pub enum InfoPart {
    Name,
    Description,
    DerivedType,
    Formula,
    Native(u32),
}

// The formula of a rule that has one.
fn formula_text(alloc: Global, rule: &Rule) -> Result<String, AllocError>
    ensures { IfOk result (λ text. string_bytes text ≡ Infos.rule_formula rule.now) }
{
    match rule {
        Rule::Plain | Rule::Sum | Rule::Sub => Ok(String::new(alloc)),
        Rule::Postfix(formula) => write_formula(alloc, formula),
    }
}

// The canonical name of a native event, if there is one.
fn native_text(alloc: Global, tables: &Tables, native: Option<Native>) -> Result<String, AllocError>
    ensures { IfOk result (λ text. string_bytes text ≡ Infos.native_name tables.now native) }
{
    match native {
        Some(native) => write_name(alloc, tables, &native),
        None => Ok(String::new(alloc)),
    }
}

// The description in a row of the preset table.
fn preset_description(row: u32) -> &'static str
    ensures { result.now ≡ Infos.row_description row }
{
    if row < preset_count() {
        preset_text(row)
    } else {
        ""
    }
}

// The description of a native event's row.
fn native_description<'t>(tables: &'t Tables, native: &Native) -> &'t str
    ensures { result.now ≡ Infos.native_description tables.now native.now }
{
    match tables.event(native.comp, native.event) {
        Some(event) => event.text.as_str(),
        None => "",
    }
}

// The description of an event.
fn description<'c>(catalog: &'c Catalog, event: &EventRef) -> &'c str
    ensures { result.now ≡ Infos.description catalog.now event.now }
{
    match event {
        EventRef::Preset(row) => preset_description(*row),
        EventRef::Native(native) => native_description(catalog.tables(), native),
    }
}

// What an available preset or user event derives.
fn derived_of<'c>(catalog: &'c Catalog, event: &EventRef) -> Option<&'c Derived>
    ensures { option_copied result ≡ derived_in catalog.now.book event.now }
{
    match event {
        EventRef::Preset(row) => catalog.book().get(*row),
        EventRef::Native(_) => None,
    }
}

// The derived type, the formula or a native event of what is derived.
fn derived_part(
    alloc: Global,
    tables: &Tables,
    derived: &Derived,
    part: InfoPart,
) -> Result<String, AllocError>
    ensures { IfOk result (λ text.
        string_bytes text ≡ Infos.derived_part tables.now part derived.now) }
{
    match part {
        InfoPart::DerivedType => String::from_str(alloc, kind_text(kind_of(derived.rule()))),
        InfoPart::Formula => formula_text(alloc, derived.rule()),
        InfoPart::Native(place) => native_text(alloc, tables, derived.natives().get(place)),
        InfoPart::Name | InfoPart::Description => Ok(String::new(alloc)),
    }
}

// A part of what is told of an event.
fn info(
    alloc: Global,
    catalog: &Catalog,
    event: &EventRef,
    part: InfoPart,
) -> Result<String, AllocError>
    ensures { IfOk result (λ text. string_bytes text ≡ info_of catalog.now part event.now) }
{
    match part {
        InfoPart::Name => catalog.event_name(alloc, event),
        InfoPart::Description => String::from_str(alloc, description(catalog, event)),
        _ => match derived_of(catalog, event) {
            Some(derived) => derived_part(alloc, catalog.tables(), derived, part),
            None => Ok(String::new(alloc)),
        },
    }
}

impl Library {
    /// A part of what PAPI_get_event_info(3) tells of the event of a code; an empty text if there is no such part. ENOEVNT if it is
    /// the code of no event. The outer `Err` is that memory ran out.
    pub fn info(
        &self,
        alloc: Global,
        code: u32,
        part: InfoPart,
    ) -> Result<Result<String, Code>, AllocError>
        ensures text { IfOk result (λ text.
            map_ok string_bytes text
            ≡ map_ok (info_of self.now.catalog part)
            (event_coded self.now.catalog self.now.mentioned code)) }
    {
        match self.event_of(code) {
            Ok(event) => Ok(Ok(info(alloc, &self.catalog, &event, part)?)),
            Err(code) => Ok(Err(code)),
        }
    }
}
