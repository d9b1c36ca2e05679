//! The register of a counter of a running set.
ghost use Rattle.std.specs.Prelude.{◌≡◌, Some};
ghost use Rattle.thread_slots.specs.RawRegister.{register_on, register_shown};
ghost use Rattle.thread_slots.specs.Slots.{face_of_slot};

use crate::slot::Slot;
use counter_unit::Unit;
use papi_base::Code;

/// The register of a counter of the unit, for a set with this slice of time.
fn register_on(unit: &Unit, slice: Option<u32>, c: u32) -> Result<u64, Code>
    ensures { result ≡ register_on slice (Some unit.now) c }
{
    if unit.shape().counters() <= c {
        return Err(Code::Einval);
    }
    if slice.is_some() {
        return Err(Code::Ecombo);
    }
    match unit.register(c) {
        Some(value) => Ok(value),
        None => Err(Code::Einval),
    }
}

impl Slot {
    /// The register of a counter: ENOTRUN if the set does not run, EINVAL if its component lacks the counter or none of
    /// its native events is on it, ECOMBO if they take turns.
    pub fn register(&self, units: &[Unit], c: u32) -> Result<u64, Code>
        ensures { result ≡ register_shown units.now (face_of_slot self.now) c }
    {
        if !self.is_running() {
            return Err(Code::Enotrun);
        }
        match self.set.component() {
            Some(comp) => match units.get(comp as usize) {
                Some(unit) => register_on(unit, self.set.slice(), c),
                None => Err(Code::Einval),
            },
            None => Err(Code::Einval),
        }
    }
}
