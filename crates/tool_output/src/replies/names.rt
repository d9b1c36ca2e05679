//! The names of events and counters.

ghost use Rattle.std.specs.Prelude.{◌≡◌, ◌++◌, ◌∷◌, OnOk, string_bytes};
ghost use Rattle.component_table.specs.EventNames.{event_name};
ghost use Rattle.tool_output.specs.Replies as Replies;

use crate::replies::numbers::push_word;
use component_table::Catalog;
use papi_base::{EventRef, Native};
use std::alloc::AllocError;
use std::fmt::Write;

/// Appends a space and the name of an event: a preset's symbol, a user event's name, or a native event's canonical name.
pub(crate) fn push_event(
    text: &mut String,
    catalog: &Catalog,
    event: &EventRef,
) -> Result<(), AllocError>
    ensures { OnOk result (string_bytes text.new
        ≡ string_bytes text.old ++ 32 ∷ event_name catalog.now event.now) }
{
    let name = catalog.event_name(*text.allocator(), event)?;
    push_word(text, name.as_str())
}

/// The name of a counter of a component, and an empty text if there is none.
pub(crate) fn counter_name(catalog: &Catalog, comp: u32, counter: u32) -> &str
    ensures { result.now ≡ Replies.counter_text catalog.now comp counter }
{
    match catalog.tables().counter(comp, counter) {
        Some(counter) => counter.name.as_str(),
        None => "",
    }
}

/// Appends a space, a native event and the counter that it is on, as `NAME=COUNTER`.
pub(crate) fn push_assigned(
    text: &mut String,
    catalog: &Catalog,
    native: &Native,
    counter: u32,
) -> Result<(), AllocError>
    ensures { OnOk result (string_bytes text.new
        ≡ string_bytes text.old ++ 32 ∷ Replies.assigned_text catalog.now (native.now, counter)) }
{
    push_event(text, catalog, &EventRef::Native(*native))?;
    let counter = counter_name(catalog, native.comp, counter);
    write!(text, "={counter}")
}
