//! The text of a listing.

ghost use Rattle.std.specs.Prelude.{◌≡◌, ◌++◌, ◌∷◌, [], IfOk, OnOk, string_bytes};
ghost use Rattle.component_table.specs.EventNames.{event_name};
ghost use Rattle.tool_output.specs.Choosing as Choosing;
ghost use Rattle.tool_output.specs.Choosing.{all_taken, chooser_text};

use crate::chooser::candidates::Candidates;
use crate::chooser::given::given_set;
use crate::chooser::listing::taken_by;
use crate::chooser::refused::refused_text;
use component_table::Catalog;
use papi_base::{Bytes, EventRef, Text};
use std::alloc::{AllocError, Global};
use std::fmt::Write;

/// What is said of given events.
#[derive(Drop)]
pub struct Choice {
    /// A line for each candidate that the set takes, and their number; or the first given text that was refused, and how.
    pub text: Bytes,
    /// Whether none of the given texts was refused.
    pub all_taken: bool,
}

// Appends the name of an event and a newline.
fn push_name(text: &mut String, catalog: &Catalog, event: &EventRef) -> Result<(), AllocError>
    ensures { OnOk result (string_bytes text.new
        ≡ string_bytes text.old ++ (event_name catalog.now event.now ++ 10 ∷ [])) }
{
    let name = catalog.event_name(*text.allocator(), event)?;
    writeln!(text, "{name}")
}

// The names of events, and how many there are.
fn list_text(alloc: Global, catalog: &Catalog, events: &[EventRef]) -> Result<String, AllocError>
    ensures { IfOk result
        (λ text. string_bytes text ≡ Choosing.list_text catalog.now events.now) }
{
    let mut text = String::new(alloc);
    for event in events {
        push_name(&mut text, catalog, event)?;
    }
    let total = events.len();
    writeln!(text, "Total events: {total}")?;
    Ok(text)
}

/// What can be added to a new set, once the events that some texts name are added to it in order.
///
/// The text has a line for each candidate that the set would take, the events that it has being free to move to other
/// counters, and the line `Total events: N`. If a text is refused, it has the first such text, a colon and the refusal
/// as a reply has it (docs/FORMATS.md). Source: papi_event_chooser(1), PAPI_add_event(3).
pub fn choose(
    alloc: Global,
    catalog: &Catalog,
    candidates: Candidates,
    texts: &[Text],
) -> Result<Choice, AllocError>
    ensures text { IfOk result (λ c. c.text ≡ chooser_text catalog.now candidates texts.now) }
    ensures taken { IfOk result (λ c. c.all_taken ≡ all_taken catalog.now texts.now) }
{
    match given_set(catalog, texts) {
        Ok(set) => {
            let events = taken_by(alloc, catalog, candidates, &set)?;
            let text = list_text(alloc, catalog, events.as_slice())?;
            Ok(Choice {
                text: Bytes::new(text.into_bytes()),
                all_taken: true,
            })
        }
        Err(refused) => {
            let text = refused_text(alloc, catalog, refused)?;
            Ok(Choice {
                text: Bytes::new(text.into_bytes()),
                all_taken: false,
            })
        }
    }
}
