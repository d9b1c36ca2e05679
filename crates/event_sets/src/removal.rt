//! What is left of a set without one of its events: PAPI_remove_event(3).
ghost use Rattle.std.specs.Prelude.{◌≡◌, ◌≤◌, ◌<◌, ◌^◌, All, None, remove};
ghost use Rattle.papi_base.specs.declared.limits.TheConstants.{MOST_COUNTERS};
ghost use Rattle.counter_alloc.specs.Assignments.{Assignable};
ghost use Rattle.counter_alloc.specs.Masks.{masks_of};

use crate::clashes::give_counters;
use counter_alloc::Matching;
use papi_base::{Natives, ShortList};

/// The items without the one at the place.
pub fn without<T: Copy + Default>(items: &ShortList<T>, place: u32) -> ShortList<T>
    ensures { result ≡ remove items.now place }
{
    let mut left = ShortList::new();
    for i in 0..items.len() {
        if i != place {
            left.push(items.at(i));
        }
    }
    left
}

/// A new matching over n counters, of the native events unless they take turns.
pub fn matched(slice: Option<u32>, counters: u32, natives: &Natives) -> Matching
    requires few { counters ≤ MOST_COUNTERS }
    requires in_range { All (λ n. n.allowed < 2 ^ counters) natives.now }
    requires assignable { slice ≡ None → Assignable (masks_of natives.now) }
    ensures counters { result.counters ≡ counters }
    ensures natives { slice ≡ None → result.allowed ≡ masks_of natives.now }
{
    let mut matching = Matching::empty(counters);
    if slice.is_some() {
        return matching;
    }
    let given = give_counters(&mut matching, natives, 0);
    let fits = given.is_ok();
    prove!(fits);
    matching
}
