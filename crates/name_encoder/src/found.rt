//! The event that a text names.

ghost use Rattle.std.specs.Prelude.{◌≡◌, ◌&&◌, option_map, slice_get};
ghost use Rattle.std.specs.Option.{option_and_then};
ghost use Rattle.std.specs.Str.{str_to_ascii_lowercase};
ghost use Rattle.event_tables.specs.Kept.{IsTables};
ghost use Rattle.event_tables.specs.Views.{component_text};
ghost use Rattle.name_encoder.specs.Names as Names;
ghost use Rattle.name_encoder.specs.Views.{found_text, parts_split, text_of};

use crate::attribute::is_word;
use crate::parts::Parts;
use event_tables::{Component, EventRow, LowerName, Tables};

/// An event of a table, with its places.
#[derive(Clone, Copy)]
pub struct Found<'t> {
    pub comp: u32,
    pub row: u32,
    pub component: &'t Component,
    pub event: &'t EventRow,
}

fn agrees(prefix: Option<&[u8]>, name: &str) -> bool
    ensures { result ≡ Names.agrees (text_of prefix.entry) name.now }
{
    match prefix {
        Some(prefix) => is_word(name.as_bytes(), prefix),
        None => true,
    }
}

// Whether a component agrees with the prefixes.
fn is_meant(parts: &Parts<'_>, component: &Component) -> bool
    ensures { result ≡ (Names.agrees (parts_split parts.now).comp
        (component_text component.now).name
        && Names.agrees (parts_split parts.now).pmu (component_text component.now).pmu) }
{
    agrees(parts.comp, component.name.as_str()) && agrees(parts.pmu, component.pmu.as_str())
}

// The event of this name in the component in this place, if that is there and agrees with the prefixes.
fn found_at<'t>(
    tables: &'t Tables,
    comp: u32,
    parts: &Parts<'_>,
    name: &LowerName,
) -> Option<Found<'t>>
    requires { name.now ≡ str_to_ascii_lowercase parts.now.event.now }
    ensures { option_map found_text result
        ≡ option_and_then (Names.choice (parts_split parts.now) comp) (slice_get tables.now comp) }
{
    let component = tables.component(comp)?;
    if !is_meant(parts, component) {
        return None;
    }
    let row = tables.find_event(comp, name)?;
    let event = tables.event(comp, row)?;
    Some(Found {
        comp,
        row,
        component,
        event,
    })
}

/// The event in the first component that agrees with the prefixes and has it.
pub fn find<'t>(tables: &'t Tables, parts: &Parts<'_>) -> Option<Found<'t>>
    ensures found { option_map found_text result
        ≡ Names.found_from (parts_split parts.now) 0 tables.now }
    ensures kept { IsTables tables.now }
{
    let components = tables.components();
    let name = LowerName::of(parts.event)?;
    for comp in 0..components {
        if let Some(found) = found_at(tables, comp, parts, &name) {
            return Some(found);
        }
    }
    None
}
