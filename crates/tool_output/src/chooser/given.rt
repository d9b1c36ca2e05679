//! The set of given events.

ghost use Rattle.std.specs.Prelude.{◌≡◌, ℕ, IfErr, IfOk, List, Ok, OnOk};
ghost use Rattle.tool_output.specs.Choosing as Choosing;
ghost use Rattle.tool_output.specs.Open.{IsOver};
ghost use Rattle.component_table.specs.Catalogs.{shape_of};
ghost use Rattle.postfix_rules.specs.Fitting.{IsNamed};

use component_table::Catalog;
use event_sets::{EventSet, Refusal};
use papi_base::{Code, EventRef, Shape, Text};

/// A text that was refused, and how.
#[derive(Drop)]
pub struct RefusedEvent<'a> {
    pub text: &'a str,
    pub refusal: Refusal,
}

// Adds the event of a text that was looked up to a set.
fn add(
    catalog: &Catalog,
    shape: &Shape,
    set: &mut EventSet,
    named: Result<EventRef, Code>,
) -> Result<(), Refusal>
    requires shape { shape.now ≡ shape_of catalog.now.tables }
    requires over { IsOver catalog.now set.old }
    requires good { IsNamed catalog.now.book (shape_of catalog.now.tables) named }
    ensures added { (text : List ℕ)
        → OnOk result (Choosing.with_named catalog.now text set.old.rest named ≡ Ok set.new.rest) }
    ensures over { OnOk result (IsOver catalog.now set.new) }
    ensures refused { (text : List ℕ)
        → IfErr result (λ r. Choosing.with_named catalog.now text set.old.rest named
        ≡ Choosing.refused_by text r) }
{
    match named {
        Ok(event) => set.add(catalog.book(), shape, &event),
        Err(code) => Err(Refusal::Plain(code)),
    }
}

/// A new set with the events that some texts name, or the first text that is refused.
pub fn given_set<'a>(catalog: &Catalog, texts: &'a [Text]) -> Result<EventSet, RefusedEvent<'a>>
    ensures given { IfOk result (λ set. Choosing.given_set catalog.now texts.now ≡ Ok set.rest) }
    ensures over { IfOk result (IsOver catalog.now) }
    ensures refused { IfErr result
        (λ r. Choosing.given_set catalog.now texts.now ≡ Choosing.refused_by r.text.now r.refusal) }
{
    let shape = catalog.shape();
    let mut set = EventSet::new();
    for text in texts {
        let text = text.as_str();
        if let Err(refusal) = add(catalog, &shape, &mut set, catalog.lookup(text)) {
            return Err(RefusedEvent { text, refusal });
        }
    }
    Ok(set)
}
