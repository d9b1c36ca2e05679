//! Values that are added to the caller's (PAPI_accum(3)).
ghost use Rattle.std.specs.Prelude.{◌≡◌, ◌≤◌, ◌++◌, drop, length};
ghost use Rattle.std.specs.Int.{int_wrapping_add, w64};
ghost use Rattle.papi_base.specs.declared.limits.TheConstants.{MOST_ITEMS};
ghost use Rattle.session_model.specs.Values.{sums};

use crate::slot::Slot;
use papi_base::Values;

/// The sum, wrapped to signed 64 bits.
#[inline(always)]
fn wrapped_sum(value: i64, more: i64) -> i64
    ensures { result ≡ int_wrapping_add w64 value more }
{
    value.wrapping_add(more)
}

/// Adds the first values of an array, one to each, and writes the sums in their places.
#[inline(always)]
fn add(values: &mut Values, more: &mut [i64])
    requires room { length values.old ≤ length more.old }
    ensures sums { values.new ≡ sums values.old more.old }
    ensures given { more.new ≡ values.new ++ drop (length values.old) more.old }
{
    for i in 0..values.len() {
        let sum = wrapped_sum(values.at(i), more[i as usize]);
        values.put(i, sum);
        more[i as usize] = sum;
    }
}

impl Slot {
    ghost use Rattle.thread_slots.specs.Accumulated.{slot_with_sums};

    /// Adds the first values of an array to the caller's, one to each, writes the sums in their places, and gives their number.
    pub fn accumulate_into(&mut self, more: &mut [i64]) -> u32
        requires room { MOST_ITEMS ≤ length more.old }
        ensures slot { self.new ≡ slot_with_sums more.old self.old }
        ensures sums { more.new
            ≡ sums self.old.values more.old ++ drop (length self.old.values) more.old }
        ensures count { result ≡ length self.old.values }
        ensures few { result ≤ MOST_ITEMS }
    {
        let count = self.values.len();
        add(&mut self.values, more);
        count
    }
}
