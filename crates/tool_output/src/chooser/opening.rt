//! What a set would take.

ghost use Rattle.std.specs.Prelude.{◌≡◌, ◌<◌, ◌≤◌, ◌^◌, ◌++◌, ◌&&◌, All, IfNone, IfSome, Some, true, length, nat_le};
ghost use Rattle.papi_base.specs.declared.limits.TheConstants.{MOST_COUNTERS, MOST_SET_NATIVES};
ghost use Rattle.counter_alloc.specs.Listing.{is_assignable};
ghost use Rattle.counter_alloc.specs.Masks.{masks_of};
ghost use Rattle.tool_output.specs.Choosing.{takes};
ghost use Rattle.tool_output.specs.Open.{IsOpen, IsOver};
ghost use Rattle.component_table.specs.Catalogs.{shape_of};
ghost use Rattle.postfix_rules.specs.Fitting.{EventFits, IsHeld};
ghost use Rattle.event_sets.specs.AtRest.{is_other};
ghost use Rattle.postfix_rules.specs.Presets.{component_of_event};

use crate::chooser::joining::{joining, masks};
use component_table::Catalog;
use counter_alloc::Matching;
use event_sets::{EventSet, has_event, natives_of};
use papi_base::{EventRef, MOST_SET_EVENTS, MOST_SET_NATIVES, Natives};

// Whether the set has another component.
fn has_other(set: &EventSet, comp: u32) -> bool
    ensures { result ≡ is_other set.now.rest.component (Some comp) }
{
    match set.component() {
        None => false,
        Some(component) => component != comp,
    }
}

/// The set's native events on the counters of a component; none if the set has another component.
pub fn opened(catalog: &Catalog, set: &EventSet, comp: u32) -> Option<Matching>
    requires there { comp < length catalog.now.tables }
    requires over { IsOver catalog.now set.now }
    ensures open { IfSome result (λ m. IsOpen catalog.now set.now m (Some comp)) }
    ensures other { IfNone result (is_other set.now.rest.component (Some comp) ≡ true) }
{
    if has_other(set, comp) {
        return None;
    }
    let mut matching = Matching::empty(catalog.shape().comp(comp).counters());
    let natives = set.natives();
    for i in 0..natives.len() {
        let added = matching.add(natives.at(i).allowed).is_ok();
        prove!(added);
    }
    Some(matching)
}

// Whether there is room and counters for further native events beside those that the matching is of.
fn fits(matching: &Matching, natives: &Natives, further: &Natives) -> bool
    requires few { matching.now.counters ≤ MOST_COUNTERS }
    requires before { matching.now.allowed ≡ masks_of natives.now }
    requires in_range { All (λ n. n.allowed < 2 ^ matching.now.counters)
        (natives.now ++ further.now) }
    ensures { result ≡ (nat_le (length (natives.now ++ further.now)) MOST_SET_NATIVES
        && is_assignable (masks_of (natives.now ++ further.now))) }
{
    natives.len() + further.len() <= MOST_SET_NATIVES as u32
        && matching.would_fit(&masks(further)[..further.len() as usize])
}

/// Whether the set would take an event of the component whose counters its native events are on.
pub fn would_take(catalog: &Catalog, set: &EventSet, matching: &Matching, event: &EventRef) -> bool
    requires held { IsHeld catalog.now.book event.now }
    requires fits { EventFits (shape_of catalog.now.tables) event.now }
    requires open { IsOpen catalog.now set.now matching.now
        (component_of_event catalog.now.book event.now) }
    ensures { result ≡ takes catalog.now set.now.rest event.now }
{
    let events = set.events();
    if events.len() >= MOST_SET_EVENTS as u32 || has_event(events, event) {
        return false;
    }
    let natives = set.natives();
    let further = joining(natives, &natives_of(catalog.book(), event));
    fits(matching, natives, &further)
}
