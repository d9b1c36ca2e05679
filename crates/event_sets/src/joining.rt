//! The native events of an event, and those of a set with them.
ghost use Rattle.std.specs.Prelude.{◌≡◌, ◌<◌, ◌≤◌, length, IfSome, IfNone};
ghost use Rattle.papi_base.specs.declared.limits.TheConstants.{MOST_SET_NATIVES};
ghost use Rattle.postfix_rules.specs.Presets.{natives_of as natives_of_events, natives_of_event};
ghost use Rattle.postfix_rules.specs.Sameness.{joined_by};

use crate::sameness::has_native;
use papi_base::{EventRef, Events, MOST_SET_NATIVES, Natives};
use postfix_rules::PresetBook;

/// The native events of an event, in the preset's order; none of a preset that the book does not hold.
pub fn natives_of(book: &PresetBook, e: &EventRef) -> Natives
    ensures { result ≡ natives_of_event book.now e.now }
{
    match e {
        EventRef::Preset(row) => match book.get(*row) {
            Some(derived) => derived.natives().copy(),
            None => Natives::new(),
        },
        EventRef::Native(n) => {
            let mut natives = Natives::new();
            natives.push(*n);
            natives
        }
    }
}

/// The native events with those of `more` that are new, and none if these would be more than a set has.
pub fn joined(natives: &Natives, more: &Natives) -> Option<Natives>
    requires { length natives.now ≤ MOST_SET_NATIVES }
    ensures few { IfSome result (λ all. length all ≤ MOST_SET_NATIVES) }
    ensures some { IfSome result (λ all. all ≡ joined_by natives.now more.now) }
    ensures none { IfNone result (MOST_SET_NATIVES < length (joined_by natives.now more.now)) }
{
    let mut all = natives.copy();
    for i in 0..more.len() {
        let n = more.at(i);
        if !has_native(&all, &n) {
            if all.len() >= MOST_SET_NATIVES as u32 {
                return None;
            }
            all.push(n);
        }
    }
    Some(all)
}

/// Joins those of `more` that are new, if there is room for them.
fn join(natives: &mut Natives, more: &Natives)
    requires { length (joined_by natives.old more.now) ≤ MOST_SET_NATIVES }
    ensures { natives.new ≡ joined_by natives.old more.now }
{
    for i in 0..more.len() {
        let n = more.at(i);
        if !has_native(natives, &n) {
            natives.push(n);
        }
    }
}

/// The native events of the events in order, without later repeats.
pub fn natives_of_all(book: &PresetBook, events: &Events) -> Natives
    requires { length (natives_of_events book.now events.now) ≤ MOST_SET_NATIVES }
    ensures { result ≡ natives_of_events book.now events.now }
{
    let mut natives = Natives::new();
    for i in 0..events.len() {
        join(&mut natives, &natives_of(book, &events.at(i)));
    }
    natives
}
