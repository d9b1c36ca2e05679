//! Bodies of replies, as they were before they were kept.
ghost use Rattle.std.specs.Prelude.{◌≡◌, map};
ghost use Rattle.reply_lists.specs.Parts.{IsPart, part};
ghost use Rattle.reply_lists.specs.Bodies as Bodies;
ghost use Rattle.reply_lists.specs.Bodies.{HasParts, native_in};

use crate::events::EventList;
use crate::kept::{Kept, Span, Store};
use event_sets::Clash;
use papi_base::{EventRef, Events, Native, Natives, ShortList};
use session_model::{Assigned, Body};

/// The items of a part.
fn items_of<T: Copy + Default>(all: &[T], span: Span) -> ShortList<T>
    requires part { IsPart span all.now }
    ensures items { result ≡ part span all.now }
{
    let mut items = ShortList::new();
    for i in 0..span.len {
        items.push(all[span.from + i as usize]);
    }
    items
}

/// The events of a part.
fn events_of(all: &EventList, span: Span) -> Events
    requires part { IsPart span all.now }
    ensures events { result ≡ part span all.now }
{
    let mut events = Events::new();
    let _len = all.len();
    for i in 0..span.len {
        events.push(all.at(span.from + i as usize));
    }
    events
}

/// The native event that an event is.
fn native_of(event: EventRef) -> Native
    ensures { result ≡ native_in event }
{
    match event {
        EventRef::Native(native) => native,
        EventRef::Preset(_) => Native::default(),
    }
}

/// The native events of a part.
fn natives_of(all: &EventList, span: Span) -> Natives
    requires part { IsPart span all.now }
    ensures natives { result ≡ map native_in (part span all.now) }
{
    let mut natives = Natives::new();
    let _len = all.len();
    for i in 0..span.len {
        natives.push(native_of(all.at(span.from + i as usize)));
    }
    natives
}

/// The body that was kept.
pub(crate) fn body_of(store: &Store, kept: &Kept) -> Body
    requires parts { HasParts store.now kept.now }
    ensures body { result ≡ Bodies.body_of store.now kept.now }
{
    match *kept {
        Kept::Nothing => Body::Nothing,
        Kept::SetNumber(number) => Body::SetNumber(number),
        Kept::Values(span) => Body::Values(items_of(store.values.as_slice(), span)),
        Kept::State(bits) => Body::State(bits),
        Kept::Events(span) => Body::Events(events_of(&store.events, span)),
        Kept::Assigned { natives, counters } => Body::Assigned(Assigned {
            natives: natives_of(&store.events, natives),
            counters: items_of(store.counters.as_slice(), counters),
        }),
        Kept::Clash { natives, counters } => Body::Clash(Clash {
            natives: natives_of(&store.events, natives),
            counters,
        }),
        Kept::Register(value) => Body::Register(value),
        Kept::Ran(ran) => Body::Ran(ran),
        Kept::EventCode(code) => Body::EventCode(code),
        Kept::EventName(event) => Body::EventName(event),
        Kept::Threads(threads) => Body::Threads(threads),
    }
}
