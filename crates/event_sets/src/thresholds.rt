//! Thresholds of events: PAPI_overflow(3).
ghost use Rattle.std.specs.Prelude.{◌≡◌, ◌≤◌, ◌^◌, ◌&&◌, not, nat_lt};
ghost use Rattle.std.specs.List.{list_any};
ghost use Rattle.papi_base.specs.declared.limits.TheConstants.{MOST_WIDTH};
ghost use Rattle.postfix_rules.specs.Presets.{rule_of_event};
ghost use Rattle.postfix_rules.specs.Sameness.{same_event};
ghost use Rattle.event_sets.specs.AtRest.{armed_elsewhere, is_bad_threshold as is_bad, is_plain as is_plain_rule};
ghost use Rattle.event_sets.specs.AtRest.{leads as leads_in, least_width as least_of, shares_native as shares, widths_at};

use crate::EventSet;
use crate::joining::natives_of;
use crate::sameness::{is_same, is_same_event};
use papi_base::{CompShape, Counts, EventRef, LEAST_THRESHOLD, Native, Shape};
use postfix_rules::{PresetBook, Rule};

/// Whether some event has a threshold.
pub fn is_armed(thresholds: &Counts) -> bool
    ensures { result ≡ list_any (λ t. nat_lt 0 t) thresholds.now }
{
    for i in 0..thresholds.len() {
        if thresholds.at(i) != 0 {
            return true;
        }
    }
    false
}

/// Whether the event is not derived: a native event, or a preset with a plain rule.
pub fn is_plain(book: &PresetBook, e: &EventRef) -> bool
    ensures { result ≡ is_plain_rule (rule_of_event book.now e.now) }
{
    match e {
        EventRef::Preset(row) => match book.get(*row) {
            Some(derived) => matches!(derived.rule(), Rule::Plain),
            None => true,
        },
        EventRef::Native(_) => true,
    }
}

/// The least width of the component's counters, and 0 if it has none.
fn least_width(comp: &CompShape) -> u8
    ensures least { result ≡ least_of comp.now }
    ensures high { result ≤ MOST_WIDTH }
{
    let mut least = 0;
    for c in 0..comp.counters() {
        let width = comp.width(c);
        if c == 0 || width < least {
            least = width;
        }
    }
    least
}

/// How many values each register of the component can have: 1 if there is no such component.
fn room(shape: &Shape, component: Option<u32>) -> u64
    ensures { result ≡ 2 ^ least_of (widths_at shape.now component) }
{
    let width = match component {
        Some(comp) if comp < shape.comps() => least_width(shape.comp(comp)),
        _ => 0,
    };
    1 << width
}

/// Whether the threshold is neither 0 nor from 256 to the last value of each register of the set's component.
pub fn is_bad_threshold(set: &EventSet, shape: &Shape, t: u64) -> bool
    ensures { result ≡ is_bad shape.now t set.now.rest }
{
    t != 0 && (t < LEAST_THRESHOLD || t >= room(shape, set.component()))
}

/// Whether the native event is the event's first.
pub fn leads(book: &PresetBook, n: &Native, e: &EventRef) -> bool
    ensures { result ≡ leads_in book.now n.now e.now }
{
    match natives_of(book, e).get(0) {
        Some(first) => is_same(n, &first),
        None => false,
    }
}

/// Whether this is another event, and has a threshold on the native event.
fn is_armed_on(
    book: &PresetBook,
    e: &EventRef,
    n: &Native,
    other: &EventRef,
    threshold: u64,
) -> bool
    ensures { result ≡ (not (same_event e.now other.now) && nat_lt 0 threshold
        && leads_in book.now n.now other.now) }
{
    !is_same_event(e, other) && threshold != 0 && leads(book, n, other)
}

/// Whether another event of the set has a threshold on the native event.
fn is_armed_elsewhere(book: &PresetBook, set: &EventSet, e: &EventRef, n: &Native) -> bool
    ensures { result ≡ armed_elsewhere book.now e.now n.now set.now.rest.events
        set.now.rest.thresholds }
{
    let events = set.events();
    for i in 0..events.len() {
        if is_armed_on(book, e, n, &events.at(i), set.threshold(i)) {
            return true;
        }
    }
    false
}

/// Whether another event of the set has a threshold on the same native event, which matters to a threshold above 0.
pub fn shares_native(book: &PresetBook, set: &EventSet, e: &EventRef, t: u64) -> bool
    ensures { result ≡ shares book.now e.now t set.now.rest }
{
    if t == 0 {
        return false;
    }
    match natives_of(book, e).get(0) {
        Some(n) => is_armed_elsewhere(book, set, e, &n),
        None => false,
    }
}
