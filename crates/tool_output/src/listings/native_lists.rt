//! The list of a unit's native events.

ghost use Rattle.std.specs.Prelude.{◌≡◌, ◌≤◌, ◌++◌, ◌∷◌, IfOk, OnOk, length, map, string_bytes};
ghost use Rattle.std.specs.Option.{option_copied};
ghost use Rattle.event_tables.specs.Views.{component_text, event_text, mask_text};
ghost use Rattle.tool_output.specs.NativeLists as NativeLists;

use event_tables::{Component, EventRow, Tables, UmaskRow};
use std::alloc::{AllocError, Global};
use std::fmt::Write;

// Whether a name contains a text.
fn contains(name: &str, part: &str) -> bool
    ensures { result ≡ NativeLists.stands_in part.now name.now }
{
    name.contains(part)
}

// Which events are listed: those whose name contains the one text, if it is given, and does not contain the other, if that
// is given; and whether their umasks are.
#[derive(Drop)]
struct Selection<'a> {
    included: Option<&'a str>,
    excluded: Option<&'a str>,
    umasks: bool,
}

// Whether an event of this name is listed.
fn is_chosen(name: &str, selection: &Selection) -> bool
    ensures { result ≡ NativeLists.is_chosen (option_copied selection.now.included)
        (option_copied selection.now.excluded) name.now }
{
    let is_included = match selection.included {
        Some(part) => contains(name, part),
        None => true,
    };
    let is_excluded = match selection.excluded {
        Some(part) => contains(name, part),
        None => false,
    };
    is_included && !is_excluded
}

fn default_mark(is_default: bool) -> &'static str
    ensures { result.now ≡ NativeLists.default_mark is_default }
{
    if is_default { " [default]" } else { "" }
}

fn push_umask(text: &mut String, umask: &UmaskRow) -> Result<(), AllocError>
    ensures { OnOk result (string_bytes text.new
        ≡ string_bytes text.old ++ NativeLists.umask_line (mask_text umask.now)) }
{
    let mark = default_mark(umask.preset_choice);
    writeln!(text, "  :{}  {}{mark}", umask.name, umask.text)
}

fn push_umasks(text: &mut String, umasks: bool, masks: &[UmaskRow]) -> Result<(), AllocError>
    ensures { OnOk result (string_bytes text.new
        ≡ string_bytes text.old ++ NativeLists.umask_lines umasks (map mask_text masks.now)) }
{
    if umasks {
        for umask in masks {
            push_umask(text, umask)?;
        }
    }
    Ok(())
}

// Appends an event and, if they are listed, its umasks.
fn push_event(
    text: &mut String,
    name: &str,
    event: &EventRow,
    umasks: bool,
) -> Result<(), AllocError>
    ensures { OnOk result (string_bytes text.new
        ≡ string_bytes text.old ++ NativeLists.named_lines umasks name.now (event_text event.now)) }
{
    writeln!(text, "{name}  {}", event.text)?;
    push_umasks(text, umasks, event.masks.as_slice())
}

// Appends a component with its events that are listed, and gives their number.
fn push_component(
    text: &mut String,
    component: &Component,
    selection: &Selection,
) -> Result<usize, AllocError>
    ensures text { OnOk result (string_bytes text.new ≡ string_bytes text.old
        ++ NativeLists.component_lines (option_copied selection.now.included)
        (option_copied selection.now.excluded)
        selection.now.umasks (component_text component.now)) }
    ensures count { IfOk result (λ count.
        count ≡ length (NativeLists.listed_events (option_copied selection.now.included)
        (option_copied selection.now.excluded)
        (component_text component.now))) }
{
    let counters = component.counters.len();
    let Component { name, pmu, .. } = component;
    writeln!(text, "Component {name}: pmu {pmu}, {counters} counters")?;
    let mut listed = 0;
    for event in component.events.as_slice() {
        let name = format!(in *text.allocator(); "{pmu}::{}", event.name)?;
        if is_chosen(name.as_str(), selection) {
            push_event(text, name.as_str(), event, selection.umasks)?;
            listed += 1;
        }
    }
    Ok(listed)
}

/// The list of the native events of a unit, as papi_native_avail(1) prints it: each component with its events and, if they
/// are asked for, their umasks, and how many events are listed.
///
/// An event is listed if its name, `PMU::EVENT` as the tables spell it, contains the one text, if that is given, and
/// does not contain the other, if that is given. The default umask is marked.
#[tactic(auto, unfolding(crate::specs::NativeLists::native_list))]
pub fn native_list(
    alloc: Global,
    tables: &Tables,
    included: Option<&str>,
    excluded: Option<&str>,
    umasks: bool,
) -> Result<String, AllocError>
    ensures text { IfOk result (λ text.
        string_bytes text ≡ NativeLists.native_list tables.now (option_copied included.entry)
        (option_copied excluded.entry) umasks) }
{
    let selection = Selection {
        included,
        excluded,
        umasks,
    };
    let mut text = String::new(alloc);
    let mut total = 0;
    for place in 0..tables.components() {
        if let Some(component) = tables.component(place) {
            total += push_component(&mut text, component, &selection)?;
        }
    }
    writeln!(text, "Total events: {total}")?;
    Ok(text)
}
