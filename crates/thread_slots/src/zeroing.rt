//! Sets whose counts are zeroed (PAPI_reset(3)).
ghost use Rattle.std.specs.Prelude.{◌≡◌, ℕ, ◌<◌, List, length, Some};
ghost use Rattle.thread_slots.specs.Pinned.{AreAlone, IsAlone};
ghost use Rattle.thread_slots.specs.declared.pins.Pin.{Pin};
ghost use Rattle.thread_slots.specs.Zeroed.{zeroed_on, zeroed_slot, zeroed_units};

use crate::slot::{Counting, Slot};
use counter_unit::Unit;
use event_sets::EventSet;
use papi_base::Counts;

/// The registers of the set's unit are at their beginning again: those of its pins, if nothing else is programmed.
fn restart_unit(units: &mut [Unit], set: &EventSet)
    requires { (comp : ℕ) → set.now.rest.component ≡ Some comp → comp < length units.old }
    ensures { (pins : List Pin)
        → AreAlone units.old set.now.rest.component set.now.rest.domain pins
        → units.new ≡ zeroed_on set.now.rest.domain pins units.old set.now.rest.component }
{
    if let Some(comp) = set.component() {
        units[comp as usize].restart();
    }
}

impl Slot {
    /// Its counts are zeroed at this time, in ticks, at which its turns begin again: PAPI_reset(3).
    pub fn zero(&mut self, units: &mut [Unit], now: u64)
        requires { IsAlone units.old self.old }
        ensures units { units.new ≡ zeroed_units self.old units.old }
        ensures slot { self.new ≡ zeroed_slot now self.old }
    {
        let natives = self.set.natives().len();
        match &mut self.counting {
            Counting::Stopped { kept } => *kept = Counts::repeated(0, natives),
            Counting::OnUnit { .. } => restart_unit(units, &self.set),
            Counting::InTurns { begun, kept, .. } => {
                *begun = now;
                *kept = Counts::repeated(0, natives);
            }
        }
    }
}
