//! What one occurrence does to the sets and the units.
ghost use Rattle.std.specs.Prelude.{◌≡◌, ℕ, ◌^◌, ◌<◌, ◌≤◌, ◌==◌, List, if◌then◌else◌, map, length, All, None, Some};
ghost use Rattle.std.specs.Option.{option_copied, option_map};
ghost use Rattle.papi_base.specs.declared.limits.TheConstants.{MOST_SETS};
ghost use Rattle.thread_slots.specs.declared.slot.Slot.{Slot};
ghost use Rattle.thread_slots.specs.declared.values.TheConstants.{NUMBER_BITS};
ghost use Rattle.thread_slots.specs.Countable.{AreCountable, IsCountable};
ghost use Rattle.multiplex.specs.Rotations.{IsSpanOf};
ghost use Rattle.thread_slots.specs.Coded.{AreCoded};
ghost use Rattle.thread_slots.specs.Counted.{counted_all, counted_place, with_turn};
ghost use Rattle.thread_slots.specs.Slots.{face_of_slot};
ghost use Rattle.thread_slots.specs.Units.{owner_from};

use crate::slot::{Counting, Slot};
use counter_unit::Unit;
use multiplex::Span;
use overflow_dispatch::Passed;
use papi_base::{Counts, Domain, Native, Natives, Occ, weight};

/// The events whose thresholds one occurrence passed, by their indexes, and the number of their set, 0 if there are
/// none: PAPI_overflow(3).
#[derive(Drop)]
pub struct Taken {
    pub set: u32,
    pub passed: Passed,
}

/// The places to look at if the occurrence has this select code: the one whose native event has it, the first one if none
/// has it, and all if several have it.
// So there is mostly one, whether or not the occurrence counts, which a processor cannot foresee.
#[inline(always)]
fn coded_places(natives: &Natives, places: Span, select: u8) -> Span
    requires rises { places.first ≤ places.end }
    requires within { places.end ≤ length natives.now }
    ensures { AreCoded natives.now select places.first places.end result.first result.end }
{
    // The sum speaks of how many there are at most.
    let _count = natives.len();
    let mut place = places.first;
    let mut found = 0u32;
    for i in places.first..places.end {
        if natives.at(i).select == select {
            place = i;
            found += 1;
        }
    }
    if found > 1 {
        return places;
    }
    Span {
        first: place,
        end: places.end.min(place + 1),
    }
}

/// Counts one occurrence in the native events at these places, those of the group that runs.
#[inline(always)]
fn count_turn(
    counts: &mut Counts,
    natives: &Natives,
    domain: Domain,
    places: Span,
    before: Option<&Occ>,
    o: &Occ,
)
    requires same_length { length counts.old ≡ length natives.now }
    requires room { All (λ t. t < 2 ^ NUMBER_BITS) counts.old }
    requires rises { places.first ≤ places.end }
    requires within { places.end ≤ length natives.now }
    ensures { (numbers : List ℕ) (group : ℕ) → length numbers ≡ length natives.now
        → IsSpanOf numbers group places.first places.end
        → counts.new ≡ with_turn domain (option_copied before.entry) o.now
        group natives.now numbers counts.old }
{
    let coded = coded_places(natives, places, o.select);
    for i in coded.first..coded.end {
        let w = weight(&natives.at(i), domain, before, o);
        let count = counts.at(i);
        counts.put(i, count + u64::from(w));
    }
}

/// Counts one occurrence for what is under a number, a running set on the unit of its component, and gives the events
/// whose thresholds it passes.
#[inline(always)]
#[tactic(auto, using(crate::proofs::Carries::passed_none))]
fn count_place(unit: &mut Unit, place: &mut Option<Slot>, before: Option<&Occ>, o: &Occ) -> Passed
    requires { (slot : Slot) → place.old ≡ Some slot → IsCountable slot }
    ensures unit { let after = counted_place (option_copied before.entry) o.now unit.old place.old
        in unit.new ≡ after.unit }
    ensures place { let after = counted_place (option_copied before.entry) o.now unit.old place.old
        in place.new ≡ after.place }
    ensures passed { let after = counted_place (option_copied before.entry) o.now unit.old place.old
        in result ≡ after.passed }
{
    let Some(slot) = place else {
        return Passed::new();
    };
    match &mut slot.counting {
        Counting::OnUnit { armed, .. } => {
            let carry = unit.step(before, o);
            if carry == 0 {
                return Passed::new();
            }
            armed.passed(carry)
        }
        Counting::InTurns {
            rotation,
            begun,
            kept,
        } => {
            let places = rotation.running_places(o.stamp.saturating_sub(*begun));
            let domain = slot.set.domain();
            count_turn(kept, slot.set.natives(), domain, places, before, o);
            Passed::new()
        }
        Counting::Stopped { .. } => Passed::new(),
    }
}

/// The number of the set whose events passed their thresholds, and 0 if none did.
#[inline(always)]
fn noting_set(passed: &Passed, number: u32) -> u32
    ensures { result ≡ (if length passed.now == 0 then 0 else number) }
{
    if passed.len() == 0 { 0 } else { number }
}

/// Counts one occurrence for the set that runs on its component, the runner, if one does.
#[inline(always)]
pub fn count_all(
    units: &mut Vec<Unit>,
    slots: &mut Vec<Option<Slot>>,
    before: Option<&Occ>,
    o: &Occ,
    runner: Option<u32>,
) -> Taken
    requires places { length slots.old.items ≡ MOST_SETS }
    requires runner { let faces = map (option_map face_of_slot) slots.old.items
        in runner ≡ owner_from o.now.comp 0 faces }
    requires countable { (k : ℕ)
        → owner_from o.now.comp 0 (map (option_map face_of_slot) slots.old.items) ≡ Some k
        → AreCountable units.old.items slots.old.items o.now.comp k }
    ensures units { let after = counted_all (option_copied before.entry) o.now units.old.items
        slots.old.items
        in units.new.items ≡ after.units }
    ensures slots { let after = counted_all (option_copied before.entry) o.now units.old.items
        slots.old.items
        in slots.new.items ≡ after.slots }
    ensures set { let after = counted_all (option_copied before.entry) o.now units.old.items
        slots.old.items
        in result.set ≡ after.set }
    ensures passed { let after = counted_all (option_copied before.entry) o.now units.old.items
        slots.old.items
        in result.passed ≡ after.passed }
{
    let comp = u32::from(o.comp);
    match runner {
        Some(number) => {
            let passed = count_place(
                &mut units[comp as usize],
                &mut slots[number as usize],
                before,
                o,
            );
            Taken {
                set: noting_set(&passed, number),
                passed,
            }
        }
        None => Taken {
            set: 0,
            passed: Passed::new(),
        },
    }
}
