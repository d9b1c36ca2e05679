//! The assignment that comes first.
ghost use Rattle.std.specs.Prelude.{◌≡◌, ◌<◌, ◌≤◌, length};
ghost use Rattle.papi_base.specs.declared.limits.TheConstants.{MOST_SET_NATIVES};
ghost use Rattle.counter_alloc.specs.Assignments.{IsAssignment, IsLeast};
ghost use Rattle.counter_alloc.specs.Settling.{Settles};

use crate::augment::{augment, has};
use papi_base::MOST_COUNTERS;

/// Gives the place the lowest counter that leaves the others assignable, and allows it no other from then on.
fn settle(allowed: &mut [u32], chosen: &mut [u8], place: usize)
    requires few { length allowed.old ≤ MOST_SET_NATIVES }
    requires place { place < length allowed.old }
    requires assigned { IsAssignment allowed.old chosen.old }
    ensures { Settles allowed.old allowed.new chosen.new place }
{
    let wanted = allowed[place];
    for counter in 0..MOST_COUNTERS as u8 {
        if has(wanted, counter as usize) {
            allowed[place] = 1 << counter;
            if augment(allowed, chosen, place).is_ok() {
                return;
            }
        }
    }
}

/// Moves the places, first to last, to the lowest counters that leave the later ones assignable.
pub fn settle_all(allowed: &mut [u32], chosen: &mut [u8])
    requires few { length allowed.old ≤ MOST_SET_NATIVES }
    requires assigned { IsAssignment allowed.old chosen.old }
    ensures { IsLeast allowed.old chosen.new }
{
    for place in 0..allowed.len() {
        settle(allowed, chosen, place);
    }
}
