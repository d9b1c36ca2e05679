//! Bodies of replies, as they are kept.
ghost use Rattle.std.specs.Prelude.{◌≡◌, ◌++◌, List, IfOk, map};
ghost use Rattle.papi_base.specs.declared.native.EventRef.TheVariants as event;
ghost use Rattle.reply_lists.specs.Parts.{HoldsAt};
ghost use Rattle.reply_lists.specs.Bodies.{Grew, IsKeptAs};

use crate::events::EventList;
use crate::kept::{Kept, Span, Store};
use papi_base::{EventRef, Events, Natives, ShortList};
use session_model::Body;
use std::alloc::AllocError;

/// Appends the items, and says where they stand.
fn keep_items<T: Copy>(items: &ShortList<T>, all: &mut Vec<T>) -> Result<Span, AllocError>
    ensures span { IfOk result (λ s. HoldsAt s all.new.items items.now) }
    ensures grown { (more : List T) × (all.new.items ≡ all.old.items ++ more) }
{
    let from = all.len();
    for i in 0..items.len() {
        all.push(items.at(i))?;
    }
    Ok(Span {
        from,
        len: items.len(),
    })
}

/// Appends the events, and says where they stand.
fn keep_events(events: &Events, all: &mut EventList) -> Result<Span, AllocError>
    ensures span { IfOk result (λ s. HoldsAt s all.new events.now) }
    ensures grown { (more : List EventRef) × (all.new ≡ all.old ++ more) }
{
    let from = all.len();
    for i in 0..events.len() {
        all.push(events.at(i))?;
    }
    Ok(Span {
        from,
        len: events.len(),
    })
}

/// Appends the native events, and says where they stand.
fn keep_natives(natives: &Natives, all: &mut EventList) -> Result<Span, AllocError>
    ensures span { IfOk result (λ s. HoldsAt s all.new (map (λ n. event.Native n) natives.now)) }
    ensures grown { (more : List EventRef) × (all.new ≡ all.old ++ more) }
{
    let from = all.len();
    for i in 0..natives.len() {
        all.push(EventRef::Native(natives.at(i)))?;
    }
    Ok(Span {
        from,
        len: natives.len(),
    })
}

/// Keeps a body.
pub(crate) fn keep(body: &Body, store: &mut Store) -> Result<Kept, AllocError>
    ensures kept { IfOk result (λ k. IsKeptAs store.new k body.now) }
    ensures grown { Grew store.old store.new }
{
    match body {
        Body::Nothing => Ok(Kept::Nothing),
        Body::SetNumber(number) => Ok(Kept::SetNumber(*number)),
        Body::Values(values) => Ok(Kept::Values(keep_items(values, &mut store.values)?)),
        Body::State(bits) => Ok(Kept::State(*bits)),
        Body::Events(events) => Ok(Kept::Events(keep_events(events, &mut store.events)?)),
        Body::Assigned(assigned) => {
            let natives = keep_natives(&assigned.natives, &mut store.events)?;
            let counters = keep_items(&assigned.counters, &mut store.counters)?;
            Ok(Kept::Assigned { natives, counters })
        }
        Body::Clash(clash) => {
            let natives = keep_natives(&clash.natives, &mut store.events)?;
            let counters = clash.counters;
            Ok(Kept::Clash { natives, counters })
        }
        Body::Register(value) => Ok(Kept::Register(*value)),
        Body::Ran(ran) => Ok(Kept::Ran(*ran)),
        Body::EventCode(code) => Ok(Kept::EventCode(*code)),
        Body::EventName(event) => Ok(Kept::EventName(*event)),
        Body::Threads(threads) => Ok(Kept::Threads(*threads)),
    }
}
