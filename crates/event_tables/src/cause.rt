//! Why a row is refused, in view of the tables of the rows above it.

ghost use Rattle.std.specs.Prelude.{◌≡◌, ◌≤◌, ◌||◌, true, length, map, is_some, string_bytes, vec_len};
ghost use Rattle.std.specs.List.{AllByRecursion, list_all, list_any};
ghost use Rattle.table_rows.specs.Texts.{is_name};
ghost use Rattle.event_tables.specs.Index.{IsIndexed};
ghost use Rattle.event_tables.specs.Kept.{IsLine, IsTables};
ghost use Rattle.papi_base.specs.declared.limits.TheConstants.{MOST_COUNTERS};
ghost use Rattle.event_tables.specs.Lines.{row_line, words_of, mask_of};
ghost use Rattle.event_tables.specs.Tables as Tables;
ghost use Rattle.event_tables.specs.Unit as Unit;
ghost use Rattle.event_tables.specs.Views.{component_text, counter_text, event_text, mask_text};
ghost use Rattle.std.specs.Str.{bytes_eq};

use crate::component::{Component, Counter, EventRow, UmaskRow};
use crate::counter_bits::{bits_of, counter_place};
use crate::fault::RowCause;
use crate::limits::{MOST_COMPONENT_EVENTS, MOST_UMASKS};
use crate::lower_name::LowerName;
use crate::row::{Flags, Row};
use papi_base::{MOST_COMPONENTS, MOST_COUNTERS};

fn same_name(a: &str, b: &str) -> bool
    ensures { result ≡ Tables.same_name a.now b.now }
{
    a.eq_ignore_ascii_case(b)
}

// Whether a component has this name or this pmu.
fn has_component(above: &[Component], name: &str, pmu: &str) -> bool
    ensures { result ≡ list_any
        (λ c. Tables.same_name c.name name.now || Tables.same_name c.pmu pmu.now)
        (map component_text above.now) }
{
    above.iter().any(|c| same_name(c.name.as_str(), name) || same_name(c.pmu.as_str(), pmu))
}

fn has_counter(above: &[Counter], name: &str) -> bool
    ensures { result ≡ list_any (λ k. bytes_eq k.name name.now) (map counter_text above.now) }
{
    above.iter().any(|k| k.name.as_str() == name)
}

fn has_event(above: &Component, name: &str) -> bool
    requires indexed { IsIndexed above.now }
    requires named { is_name name.now ≡ true }
    ensures { result ≡ list_any
        (λ e. Tables.same_name e.name name.now) (map event_text above.now.events.items) }
{
    let lower = LowerName::of_name(name);
    above.rows.contains_key(lower.as_str())
}

fn has_mask(above: &[UmaskRow], name: &str) -> bool
    ensures { result ≡ list_any (λ o. Tables.same_name o.name name.now) (map mask_text above.now) }
{
    above.iter().any(|m| same_name(m.name.as_str(), name))
}

fn has_default(above: &[UmaskRow]) -> bool
    ensures { result ≡ list_any (λ o. o.preset_choice) (map mask_text above.now) }
{
    above.iter().any(|m| m.preset_choice)
}

// Whether a name is one of the modifiers of event names.
fn is_modifier(name: &str) -> bool
    ensures { result ≡ Unit.is_modifier name.now }
{
    same_name(name, "u")
        || same_name(name, "k")
        || same_name(name, "e")
        || same_name(name, "i")
        || same_name(name, "c")
}

// Whether the component has all of these counters.
fn knows_all(counters: &[Counter], names: &[u8]) -> bool
    ensures { result ≡ list_all
        (λ n. is_some (Unit.counter_place (map counter_text counters.now) n)) (words_of names.now) }
{
    names.split(|&b| b == b' ').all(|name| name.is_empty()
        || counter_place(counters, name).is_some())
}

fn component_cause(above: &[Component], name: &str, pmu: &str) -> Option<RowCause>
    ensures { result ≡ Unit.component_cause (map component_text above.now) name.now pmu.now }
{
    if above.len() >= MOST_COMPONENTS {
        return Some(RowCause::OverLimit);
    }
    if has_component(above, name, pmu) {
        return Some(RowCause::RepeatedName);
    }
    None
}

fn counter_cause(above: &[Counter], name: &str, width: Option<u8>) -> Option<RowCause>
    ensures { result ≡ Unit.counter_cause (map counter_text above.now) name.now width }
{
    if above.len() >= MOST_COUNTERS {
        return Some(RowCause::OverLimit);
    }
    if has_counter(above, name) {
        return Some(RowCause::RepeatedName);
    }
    match width {
        Some(_) => None,
        None => Some(RowCause::BadWidth),
    }
}

fn event_cause(above: &Component, name: &str, counters: &[u8]) -> Option<RowCause>
    requires indexed { IsIndexed above.now }
    requires named { is_name name.now ≡ true }
    ensures { result ≡ Unit.event_cause (component_text above.now) name.now
        (words_of counters.now) }
{
    if above.events.len() >= MOST_COMPONENT_EVENTS {
        return Some(RowCause::OverLimit);
    }
    if has_event(above, name) {
        return Some(RowCause::RepeatedName);
    }
    if knows_all(above.counters.as_slice(), counters) {
        None
    } else {
        Some(RowCause::UnknownCounter)
    }
}

fn mask_cause(above: &[UmaskRow], name: &str, preset_choice: bool) -> Option<RowCause>
    ensures { result ≡ Unit.mask_cause (map mask_text above.now) name.now preset_choice }
{
    if preset_choice && has_default(above) {
        return Some(RowCause::BadRow);
    }
    if above.len() >= MOST_UMASKS {
        return Some(RowCause::OverLimit);
    }
    if is_modifier(name) || has_mask(above, name) {
        return Some(RowCause::RepeatedName);
    }
    None
}

fn inner_mask_cause(above: &Component, name: &str, preset_choice: bool) -> Option<RowCause>
    ensures { result ≡ Unit.inner_mask_cause (component_text above.now) name.now preset_choice }
{
    match above.events.last() {
        None => Some(RowCause::BadRow),
        Some(e) => mask_cause(e.masks.as_slice(), name, preset_choice),
    }
}

// Whether each of these bits is one of the others.
fn within(bits: u32, others: u32) -> bool
    ensures { result ≡ Unit.within bits others }
{
    bits | others == others
}

// The first cause of a row of counters of the last umask of an event.
fn mask_counters_cause(counters: &[Counter], event: &EventRow, names: &[u8]) -> Option<RowCause>
    requires { length counters.now ≤ MOST_COUNTERS }
    ensures { result ≡ Unit.mask_counters_cause (map counter_text counters.now)
        (event_text event.now) (words_of names.now) }
{
    let Some(mask) = event.masks.last() else {
        return Some(RowCause::BadRow);
    };
    if mask.counters.is_some() {
        return Some(RowCause::BadRow);
    }
    if knows_all(counters, names) && within(bits_of(counters, names), event.allowed) {
        None
    } else {
        Some(RowCause::UnknownCounter)
    }
}

// The first cause of a row of modifiers of the last umask of an event.
fn mask_modifiers_cause(event: &EventRow) -> Option<RowCause>
    ensures { result ≡ Unit.mask_modifiers_cause (event_text event.now) }
{
    let Some(mask) = event.masks.last() else {
        return Some(RowCause::BadRow);
    };
    if mask.fixed.is_some() {
        Some(RowCause::BadRow)
    } else {
        None
    }
}

fn inner_counters_cause(above: &Component, names: &[u8]) -> Option<RowCause>
    requires { vec_len above.now.counters ≤ MOST_COUNTERS }
    ensures { result ≡ Unit.inner_counters_cause (component_text above.now) (words_of names.now) }
{
    match above.events.last() {
        None => Some(RowCause::BadRow),
        Some(e) => mask_counters_cause(above.counters.as_slice(), e, names),
    }
}

fn inner_modifiers_cause(above: &Component) -> Option<RowCause>
    ensures { result ≡ Unit.inner_modifiers_cause (component_text above.now) }
{
    match above.events.last() {
        None => Some(RowCause::BadRow),
        Some(e) => mask_modifiers_cause(e),
    }
}

// The first cause of a row in the component to which it belongs, and `None` if it has none.
fn inner_cause(above: &Component, row: &Row<'_>) -> Option<RowCause>
    requires few { vec_len above.now.counters ≤ MOST_COUNTERS }
    requires indexed { IsIndexed above.now }
    requires line { IsLine (row_line row.now) }
    ensures { result ≡ Unit.inner_cause (component_text above.now) (row_line row.now) }
{
    match row {
        Row::Counter {
            name,
            width,
            fixed: _,
        } => counter_cause(above.counters.as_slice(), *name, *width),
        Row::Event {
            name,
            select: _,
            counters,
            text: _,
        } => event_cause(above, *name, *counters),
        Row::Umask {
            name,
            bits: _,
            flags,
            text: _,
        } => inner_mask_cause(above, *name, flags.preset_choice),
        Row::UmaskCounters { counters } => inner_counters_cause(above, *counters),
        Row::UmaskModifiers { fixed: _ } => inner_modifiers_cause(above),
        _ => None,
    }
}

/// The first cause of a row, and `None` if it has none.
pub fn cause_of(above: &[Component], row: &Row<'_>) -> Option<RowCause>
    requires tables { IsTables (map component_text above.now) }
    requires indexed { AllByRecursion IsIndexed above.now }
    requires line { IsLine (row_line row.now) }
    ensures { result ≡ Unit.cause_in (map component_text above.now) (row_line row.now) }
{
    match row {
        Row::Skipped => None,
        Row::Bad => Some(RowCause::BadRow),
        Row::Component { name, pmu } => component_cause(above, *name, *pmu),
        inner => match above.last() {
            Some(component) => inner_cause(component, inner),
            None => Some(RowCause::BadRow),
        },
    }
}
