//! One preset, or one user event.

ghost use Rattle.std.specs.Prelude.{◌≡◌, ◌<◌, ◌++◌, IfOk, OnOk, is_some, string_bytes};
ghost use Rattle.std.specs.Option.{option_copied};
ghost use Rattle.component_table.specs.Catalogs.{row_count, row_named};
ghost use Rattle.postfix_rules.specs.Presets.{entry};
ghost use Rattle.tool_output.specs.PresetEvents as PresetEvents;

use crate::listings::lines::push_name_and_code;
use crate::listings::named_event::NamedEvent;
use component_table::{Catalog, kind_of};
use event_tables::Tables;
use name_encoder::write_name;
use papi_base::Natives;
use postfix_rules::{Derived, Rule, write_formula};
use preset_csv::kind_text;
use std::alloc::{AllocError, Global};
use std::fmt::Write;

// Appends the line of a formula, if the rule has one.
fn push_formula(text: &mut String, rule: &Rule) -> Result<(), AllocError>
    ensures { OnOk result (string_bytes text.new
        ≡ string_bytes text.old ++ PresetEvents.formula_line rule.now) }
{
    match rule {
        Rule::Plain | Rule::Sum | Rule::Sub => Ok(()),
        Rule::Postfix(formula) => {
            let formula = write_formula(*text.allocator(), formula)?;
            writeln!(text, "Formula: {formula}")
        }
    }
}

fn push_natives(text: &mut String, tables: &Tables, natives: &Natives) -> Result<(), AllocError>
    ensures { OnOk result (string_bytes text.new
        ≡ string_bytes text.old ++ PresetEvents.native_lines tables.now natives.now) }
{
    for place in 0..natives.len() {
        let name = write_name(*text.allocator(), tables, &natives.at(place))?;
        writeln!(text, "Native {place}: {name}")?;
    }
    Ok(())
}

// Appends what an available event derives.
fn push_derived(text: &mut String, tables: &Tables, derived: &Derived) -> Result<(), AllocError>
    ensures { OnOk result (string_bytes text.new
        ≡ string_bytes text.old ++ PresetEvents.derived_lines tables.now derived.now) }
{
    let derived_type = kind_text(kind_of(derived.rule()));
    writeln!(text, "Available: Yes\nDerived: {derived_type}")?;
    push_formula(text, derived.rule())?;
    push_natives(text, tables, derived.natives())?;
    Ok(())
}

// Appends whether the event in a row of the catalog is available, and what it derives if it is.
fn push_availability(text: &mut String, catalog: &Catalog, row: u32) -> Result<(), AllocError>
    ensures { OnOk result (string_bytes text.new
        ≡ string_bytes text.old ++ PresetEvents.availability_lines catalog.now.tables
        (entry catalog.now.book row)) }
{
    match catalog.book().get(row) {
        Some(derived) => push_derived(text, catalog.tables(), derived),
        None => text.push_str("Available: No\n"),
    }
}

// The text of the event in a row of the catalog.
fn row_text(alloc: Global, catalog: &Catalog, row: u32) -> Result<String, AllocError>
    requires { row < row_count catalog.now }
    ensures { IfOk result (λ text. string_bytes text ≡ PresetEvents.row_lines catalog.now row) }
{
    let mut text = String::new(alloc);
    let code = catalog.code(row);
    push_name_and_code(&mut text, catalog.name(row), u64::from(code))?;
    push_availability(&mut text, catalog, row)?;
    Ok(text)
}

/// What papi_avail(1) prints of the preset of a symbol, or of the user event of a name: its name, its code, whether it is
/// available, and then its type, its formula if it has one, and its native events by their canonical names.
///
/// A name is compared exactly. Of one that is neither a symbol of the preset table nor a user event's it says that there is no
/// such event.
#[tactic(auto, unfolding(crate::specs::PresetEvents::preset_event))]
pub fn avail_event(alloc: Global, catalog: &Catalog, name: &str) -> Result<NamedEvent, AllocError>
    ensures text { IfOk result
        (λ event. string_bytes event.text ≡ PresetEvents.preset_event catalog.now name.now) }
    ensures known { IfOk result (λ event. event.known ≡ is_some (row_named catalog.now name.now)) }
{
    match catalog.row_named(name) {
        Some(row) => Ok(NamedEvent {
            text: row_text(alloc, catalog, row)?,
            known: true,
        }),
        None => Ok(NamedEvent {
            text: format!(in alloc; "No such event: {name}\n")?,
            known: false,
        }),
    }
}
