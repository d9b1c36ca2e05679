//! What starts with a set (PAPI_start(3)).
ghost use Rattle.std.specs.Prelude.{◌≡◌, ℕ, ◌-◌, ◌<◌, ◌++◌, length, replicate, slice_get, slice_set, None, Some};
ghost use Rattle.papi_base.specs.Widths.{AreWidths};
ghost use Rattle.papi_base.specs.declared.limits.TheConstants.{MOST_SET_EVENTS};
ghost use Rattle.counter_alloc.specs.Masks.{masks_of};
ghost use Rattle.event_sets.specs.AtRest.{leads, set_natives};
ghost use Rattle.session_model.specs.Registers.{threshold_among};
ghost use Rattle.thread_slots.specs.Pinned.{ArePinned, armed_from, pins_from, place_of_lead, programs};
ghost use Rattle.thread_slots.specs.Starting.{IsArmable, IsStartable, begun, begun_by};
ghost use Rattle.counter_unit.specs.Counting.{UnitView};
ghost use Rattle.event_sets.specs.Assigning.{counters_for};
ghost use Rattle.multiplex.specs.Groups.{groups};
ghost use Rattle.thread_slots.specs.Slots.{rotation_of};
ghost use Rattle.thread_slots.specs.declared.slot.Counting.TheVariants as counting;

use crate::event_places::EventPlaces;
use crate::pins::{Pin, Pins};
use crate::places::place_of;
use crate::slot::{Counting, Slot};
use counter_unit::Unit;
use event_sets::{EventSet, leads, natives_of};
use multiplex::Rotation;
use overflow_dispatch::Thresholds;
use papi_base::{Counts, Domain, EventRef, Native, Natives, Places};
use postfix_rules::PresetBook;

/// The place of an event's first native event.
fn lead_place(book: &PresetBook, natives: &Natives, e: &EventRef) -> u32
    ensures { result ≡ place_of_lead book.now natives.now e.now }
{
    match natives_of(book, e).get(0) {
        Some(first) => place_of(natives, &first),
        None => natives.len(),
    }
}

/// The threshold that an event of the set has on the native event, or 0.
fn threshold_on(book: &PresetBook, set: &EventSet, n: &Native) -> u64
    ensures { result ≡ threshold_among book.now n.now set.now.rest.events set.now.rest.thresholds }
{
    let events = set.events();
    for i in 0..events.len() {
        let threshold = set.threshold(i);
        if threshold != 0 && leads(book, n, &events.at(i)) {
            return threshold;
        }
    }
    0
}

/// The native events of the set on these counters.
fn pins_on(book: &PresetBook, set: &EventSet, counters: &Places) -> Pins
    requires { length counters.now ≡ length set.now.natives }
    ensures { result ≡ pins_from book.now set.now.rest set.now.natives counters.now }
{
    let mut pins = Pins::new();
    let natives = set.natives();
    for i in 0..natives.len() {
        let native = natives.at(i);
        pins.push(Pin {
            native,
            counter: u32::from(counters.at(i)),
            threshold: threshold_on(book, set, &native),
        });
    }
    pins
}

/// The events with thresholds, each with its counter.
fn armed_on(book: &PresetBook, set: &EventSet, counters: &Places) -> Thresholds
    requires { IsArmable book.now set.now.natives counters.now set.now.rest.events
        set.now.rest.thresholds }
    ensures { let armed = armed_from book.now set.now.natives counters.now set.now.rest.events
        set.now.rest.thresholds
        in result ≡ armed ++ replicate (MOST_SET_EVENTS - length set.now.rest.events) None }
{
    let mut armed = Thresholds::new();
    let events = set.events();
    for i in 0..events.len() {
        if set.threshold(i) != 0 {
            let place = lead_place(book, set.natives(), &events.at(i));
            armed.arm(u32::from(counters.at(place)), i);
        }
    }
    armed
}

/// Programs each pin on its counter.
#[tactic(auto, using(crate::proofs::Beginning::programs_more))]
pub fn program_all(unit: &mut Unit, pins: &Pins, domain: Domain)
    requires pinned { ArePinned unit.old.widths pins.now }
    requires widths { AreWidths unit.old.widths }
    ensures { unit.new ≡ record
        unit.old {
          registers = programs unit.old.widths domain
              (λ n. 0) pins.now unit.old.registers;
        } }
{
    for i in 0..pins.len() {
        let pin = pins.at(i);
        unit.program(pin.counter, pin.native, domain, pin.threshold);
    }
}

impl Slot {
    /// It begins on the unit, its native events on these counters.
    fn begin_on(&mut self, unit: &mut Unit, book: &PresetBook, counters: &Places)
        requires startable { IsStartable book.now unit.old self.old }
        requires plain { self.old.set.rest.slice ≡ None }
        requires counters { counters.now ≡ counters_for (set_natives book.now self.old.set.rest) }
        ensures unit { unit.new ≡ (begun_by book.now 0 unit.old self.old None).unit }
        ensures slot { self.new ≡ (begun_by book.now 0 unit.old self.old None).slot }
    {
        let pins = pins_on(book, &self.set, counters);
        let armed = armed_on(book, &self.set, counters);
        program_all(unit, &pins, self.set.domain());
        let places = EventPlaces::of(book, &self.set);
        self.counting = Counting::OnUnit {
            pins,
            armed,
            places,
        };
    }

    /// It begins at this time, its native events taking turns of n ticks.
    fn begin_in_turns(&mut self, counters: u32, slice: u32, now: u64)
        requires some { 0 < length self.old.set.natives }
        requires counters { self.old.set.counters ≡ counters }
        requires slice { self.old.set.rest.slice ≡ Some slice }
        ensures { self.new ≡ record self.old {
          counting = counting.InTurns (rotation_of (groups (masks_of self.old.set.natives)) slice)
              now (replicate (length self.old.set.natives) 0);
        } }
    {
        let natives = self.set.natives();
        let kept = Counts::repeated(0, natives.len());
        let rotation = Rotation::make(natives, counters, slice);
        self.counting = Counting::InTurns {
            rotation,
            begun: now,
            kept,
        };
    }

    /// It begins at this time, on the unit of its component.
    fn begin_with(&mut self, unit: &mut Unit, book: &PresetBook, now: u64)
        requires { IsStartable book.now unit.old self.old }
        ensures unit { unit.new ≡ (begun book.now now unit.old self.old).unit }
        ensures slot { self.new ≡ (begun book.now now unit.old self.old).slot }
    {
        match self.set.slice() {
            Some(slice) => self.begin_in_turns(unit.shape().counters(), slice, now),
            None => {
                if let Some(counters) = self.set.assignment() {
                    self.begin_on(unit, book, &counters);
                }
            }
        }
    }

    /// It begins at this time in ticks, on the unit of its component: PAPI_start(3).
    pub fn begin(&mut self, units: &mut [Unit], book: &PresetBook, now: u64)
        requires has_unit { (comp : ℕ) → self.old.set.rest.component ≡ Some comp
            → comp < length units.old }
        requires startable { (comp : ℕ) (unit : UnitView)
            → self.old.set.rest.component ≡ Some comp → slice_get units.old comp ≡ Some unit
            → IsStartable book.now unit self.old }
        ensures units { (comp : ℕ) (unit : UnitView)
            → self.old.set.rest.component ≡ Some comp → slice_get units.old comp ≡ Some unit
            → units.new ≡ slice_set units.old comp (begun book.now now unit self.old).unit }
        ensures slot { (comp : ℕ) (unit : UnitView)
            → self.old.set.rest.component ≡ Some comp → slice_get units.old comp ≡ Some unit
            → self.new ≡ (begun book.now now unit self.old).slot }

        // If the component is not fixed, nothing begins.
        ensures same_units { self.old.set.rest.component ≡ None → units.new ≡ units.old }
        ensures same_slot { self.old.set.rest.component ≡ None → self.new ≡ self.old }
    {
        if let Some(comp) = self.set.component() {
            self.begin_with(&mut units[comp as usize], book, now);
        }
    }
}
