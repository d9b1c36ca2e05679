//! What is left of a set that stops (PAPI_stop(3)).
ghost use Rattle.std.specs.Prelude.{◌≡◌, ℕ, ◌<◌, List, slice_get, slice_set, length, None, Some};
ghost use Rattle.thread_slots.specs.Units.{empty_unit};
ghost use Rattle.thread_slots.specs.Changed.{rested};
ghost use Rattle.thread_slots.specs.Shown.{IsMeasurable, numbers_shown};

use crate::slot::{Counting, Slot};
use counter_unit::Unit;
use papi_base::Shape;

/// Nothing is programmed on the unit of a component any more.
fn empty_unit_of(units: &mut [Unit], shape: &Shape, comp: u32)
    requires unit { comp < length units.old }
    requires shape { comp < length shape.now }
    ensures { (widths : List ℕ) → slice_get shape.now comp ≡ Some widths
        → units.new ≡ slice_set units.old comp (empty_unit widths) }
{
    units[comp as usize] = Unit::new(shape.comp(comp));
}

impl Slot {
    /// It stops at this time, in ticks, and keeps its counts or estimates; nothing is programmed on the unit of its component
    /// any more: PAPI_stop(3).
    pub fn stop(&mut self, units: &mut [Unit], shape: &Shape, time: u64)
        requires has_unit { (comp : ℕ) → self.old.set.rest.component ≡ Some comp
            → comp < length units.old }
        requires has_widths { (comp : ℕ) → self.old.set.rest.component ≡ Some comp
            → comp < length shape.now }
        requires measurable { IsMeasurable units.old self.old time }
        ensures units { (comp : ℕ) (widths : List ℕ)
            → self.old.set.rest.component ≡ Some comp → slice_get shape.now comp ≡ Some widths
            → units.new ≡ slice_set units.old comp (empty_unit widths) }
        ensures same_units { self.old.set.rest.component ≡ None → units.new ≡ units.old }
        ensures slot { self.new ≡ rested (numbers_shown units.old time self.old) self.old }
    {
        let kept = self.numbers(units, time);
        self.counting = Counting::Stopped { kept };
        if let Some(comp) = self.set.component() {
            empty_unit_of(units, shape, comp);
        }
    }
}
