//! What stands in the way of native events that are added to a set.
ghost use Rattle.std.specs.Prelude.{◌≡◌, ℕ, ◌≤◌, ◌<◌, ◌^◌, ◌==◌, None, length, take, drop, find, All, IfErr, IsNone, OnErr, OnOk};
ghost use Rattle.std.specs.Int.{bit_at};
ghost use Rattle.papi_base.specs.declared.limits.TheConstants.{MOST_COUNTERS, MOST_SET_NATIVES};
ghost use Rattle.counter_alloc.specs.Assignments.{Assignable};
ghost use Rattle.counter_alloc.specs.Blames.{IsBlame};
ghost use Rattle.counter_alloc.specs.Masks.{masks_of};
ghost use Rattle.event_sets.specs.Assigning.{clash_of, members_from};

use crate::Clash;
use counter_alloc::{Blame, Matching};
use papi_base::{Native, Natives};

/// Whether the place is a member of the set of places.
fn is_member(places: u32, place: u32) -> bool
    requires { place < MOST_SET_NATIVES }
    ensures { result ≡ (bit_at places place == 1) }
{
    (places >> place) & 1 == 1
}

/// The native events whose places are members of the set.
fn members(natives: &Natives, places: u32) -> Natives
    ensures { result ≡ members_from places 0 natives.now }
{
    let mut members = Natives::new();
    for i in 0..natives.len() {
        if is_member(places, i) {
            members.push(natives.at(i));
        }
    }
    members
}

/// The first native event from the place on that is allowed no counter.
fn without_counter(natives: &Natives, from: u32) -> Option<Native>
    requires { from ≤ length natives.now }
    ensures { result ≡ find (λ n. n.allowed == 0) (drop from natives.now) }
{
    for i in from..natives.len() {
        let n = natives.at(i);
        if n.allowed == 0 {
            return Some(n);
        }
    }
    None
}

/// Gives counters to the native events from the place on. The matching is of those before it.
pub fn give_counters(matching: &mut Matching, natives: &Natives, from: u32) -> Result<(), Blame>
    requires from { from ≤ length natives.now }
    requires few { matching.old.counters ≤ MOST_COUNTERS }
    requires in_range { All (λ n. n.allowed < 2 ^ matching.old.counters) natives.now }
    requires before { matching.old.allowed ≡ masks_of (take from natives.now) }
    requires assignable { Assignable matching.old.allowed }
    ensures given { OnOk result
        (matching.new ≡ record matching.old { allowed = masks_of natives.now }) }
    ensures assignable { OnOk result (Assignable (masks_of natives.now)) }
    ensures not_assignable { OnErr result (Assignable (masks_of natives.now) → ⊥) }
    ensures blame { IfErr result (IsBlame (masks_of natives.now)) }
{
    for i in from..natives.len() {
        matching.add(natives.at(i).allowed)?;
    }
    Ok(())
}

/// What stands in the way of the native events, of which those from the place on are new. Not multiplexed, they need
/// counters of their own; multiplexed, each new one needs an allowed counter.
pub fn clash(
    slice: Option<u32>,
    matching: &mut Matching,
    natives: &Natives,
    from: u32,
) -> Option<Clash>
    requires from { from ≤ length natives.now }
    requires few { matching.old.counters ≤ MOST_COUNTERS }
    requires in_range { All (λ n. n.allowed < 2 ^ matching.old.counters) natives.now }
    requires before { slice ≡ None → matching.old.allowed ≡ masks_of (take from natives.now) }
    requires assignable { slice ≡ None → Assignable matching.old.allowed }
    ensures clash { result ≡ clash_of slice from natives.now }
    ensures counters { IsNone result → matching.new.counters ≡ matching.old.counters }
    ensures given { slice ≡ None → IsNone result → matching.new.allowed ≡ masks_of natives.now }
    ensures assignable { slice ≡ None → IsNone result → Assignable (masks_of natives.now) }
{
    if slice.is_some() {
        return match without_counter(natives, from) {
            Some(n) => {
                let mut natives = Natives::new();
                natives.push(n);
                Some(Clash {
                    natives,
                    counters: 0,
                })
            }
            None => None,
        };
    }
    match give_counters(matching, natives, from) {
        Ok(()) => None,
        Err(blame) => Some(Clash {
            natives: members(natives, blame.members),
            counters: blame.counters,
        }),
    }
}
