//! The results of a reply, which follow its code.

ghost use Rattle.std.specs.Prelude.{◌≡◌, ◌<◌, ◌==◌, ◌++◌, ◌∷◌, [], OnOk, codes, decimal, map, string_bytes, zip};
ghost use Rattle.std.specs.Int.{bit_at};
ghost use Rattle.papi_base.specs.declared.limits.TheConstants.{MOST_COUNTERS, THREADS};
ghost use Rattle.component_table.specs.EventNames.{event_name};
ghost use Rattle.name_encoder.specs.Canonical.{canonical};
ghost use Rattle.tool_output.specs.Replies as Replies;
ghost use Rattle.tool_output.specs.Replies.{spaced};

use crate::replies::hexadecimal::push_hex;
use crate::replies::names::{counter_name, push_assigned, push_event};
use crate::replies::numbers::{push_number, push_word};
use crate::replies::values::push_values;
use component_table::Catalog;
use event_sets::Clash;
use papi_base::{EventRef, Events, MOST_COUNTERS, Natives, THREADS};
use session_model::{Assigned, Body, Ran};
use std::alloc::AllocError;

// Whether a bit of a number is set.
fn has(set: u64, k: u32) -> bool
    requires { k < THREADS }
    ensures { result ≡ (bit_at set k == 1) }
{
    (set >> k) & 1 == 1
}

#[tactic(auto, using(crate::proofs::Texts::pushed_none))]
fn push_events(text: &mut String, catalog: &Catalog, events: &Events) -> Result<(), AllocError>
    ensures { OnOk result (string_bytes text.new
        ≡ string_bytes text.old ++ spaced (map (event_name catalog.now) events.now)) }
{
    for i in 0..events.len() {
        push_event(text, catalog, &events.at(i))?;
    }
    Ok(())
}

#[tactic(auto, using(crate::proofs::Texts::pushed_none))]
fn push_natives(text: &mut String, catalog: &Catalog, natives: &Natives) -> Result<(), AllocError>
    ensures { OnOk result (string_bytes text.new
        ≡ string_bytes text.old ++ spaced (map (canonical catalog.now.tables) natives.now)) }
{
    for i in 0..natives.len() {
        push_event(text, catalog, &EventRef::Native(natives.at(i)))?;
    }
    Ok(())
}

// The native events of a set with their counters.
fn push_assignment(
    text: &mut String,
    catalog: &Catalog,
    assigned: &Assigned,
) -> Result<(), AllocError>
    ensures { OnOk result (string_bytes text.new ≡ string_bytes text.old
        ++ spaced (map (Replies.assigned_text catalog.now)
        (zip assigned.now.natives assigned.now.counters))) }
{
    for i in 0..assigned.natives.len().min(assigned.counters.len()) {
        let native = assigned.natives.at(i);
        let counter = u32::from(assigned.counters.at(i));
        push_assigned(text, catalog, &native, counter)?;
    }
    Ok(())
}

// The counters of a component whose bits are set.
#[tactic(auto, using(crate::proofs::Texts::no_member_pushed))]
fn push_counters(
    text: &mut String,
    catalog: &Catalog,
    comp: u32,
    counters: u32,
) -> Result<(), AllocError>
    ensures { OnOk result (string_bytes text.new ≡ string_bytes text.old
        ++ spaced (map (Replies.counter_text catalog.now comp)
        (Replies.members_below MOST_COUNTERS counters))) }
{
    for counter in 0..MOST_COUNTERS as u32 {
        if has(u64::from(counters), counter) {
            push_word(text, counter_name(catalog, comp, counter))?;
        }
    }
    Ok(())
}

// The component of native events, and 0 if there are none.
fn component_of(natives: &Natives) -> u32
    ensures { result ≡ Replies.component_of natives.now }
{
    match natives.get(0) {
        Some(native) => native.comp,
        None => 0,
    }
}

fn push_clash(text: &mut String, catalog: &Catalog, clash: &Clash) -> Result<(), AllocError>
    ensures { OnOk result (string_bytes text.new
        ≡ string_bytes text.old ++ spaced (Replies.clash_texts catalog.now clash.now)) }
{
    push_natives(text, catalog, &clash.natives)?;
    text.push_str(" /")?;
    push_counters(text, catalog, component_of(&clash.natives), clash.counters)?;
    Ok(())
}

// The threads whose bits are set.
#[tactic(auto, using(crate::proofs::Texts::no_member_pushed))]
fn push_threads(text: &mut String, threads: u64) -> Result<(), AllocError>
    ensures { OnOk result (string_bytes text.new
        ≡ string_bytes text.old ++ spaced (map decimal (Replies.members_below THREADS threads))) }
{
    for thread in 0..THREADS {
        if has(threads, thread) {
            push_number(text, thread)?;
        }
    }
    Ok(())
}

fn push_ran(text: &mut String, ran: &Ran) -> Result<(), AllocError>
    ensures { OnOk result (string_bytes text.new ≡ string_bytes text.old
        ++ 32 ∷ (decimal ran.now.consumed ++ 32 ∷ decimal ran.now.notes)) }
{
    push_number(text, ran.consumed)?;
    push_number(text, ran.notes)
}

/// Appends the results of a reply, each after a space.
#[tactic(auto, using(std::proofs::lemmas::Grind::common_steps), unfolding(crate::specs::Replies::spaced))]
pub(crate) fn push_results(
    text: &mut String,
    catalog: &Catalog,
    body: &Body,
) -> Result<(), AllocError>
    ensures { OnOk result (string_bytes text.new
        ≡ string_bytes text.old ++ spaced (Replies.results_of catalog.now body.now)) }
{
    match body {
        Body::Nothing => Ok(()),
        Body::SetNumber(number) => push_number(text, *number),
        Body::Values(values) => push_values(text, values),
        Body::State(bits) => push_hex(text, 2, *bits),
        Body::Events(events) => push_events(text, catalog, events),
        Body::Assigned(assigned) => push_assignment(text, catalog, assigned),
        Body::Clash(clash) => push_clash(text, catalog, clash),
        Body::Register(value) => push_number(text, *value),
        Body::Ran(ran) => push_ran(text, ran),
        Body::EventCode(code) => push_hex(text, 8, *code),
        Body::EventName(event) => push_event(text, catalog, event),
        Body::Threads(threads) => push_threads(text, *threads),
    }
}
