//! What each native event of a set counted, or is estimated to have.
ghost use Rattle.std.specs.Prelude.{◌≡◌, ℕ, ◌*◌, ◌^◌, ◌<◌, ◌≤◌, length, slice_index};
ghost use Rattle.papi_base.specs.declared.limits.TheConstants.{LARGEST_AMOUNT};
ghost use Rattle.multiplex.specs.Turns.{active};
ghost use Rattle.thread_slots.specs.Pinned.{ArePinned};
ghost use Rattle.thread_slots.specs.Shown.{IsMeasurable, numbers_shown, pin_numbers, turn_numbers};

use crate::pins::Pins;
use crate::slot::{Counting, Slot};
use counter_unit::Unit;
use multiplex::{Rotation, estimate};
use papi_base::Counts;

/// What the native event of each pin has counted.
#[inline(always)]
fn numbers_on_unit(unit: &Unit, pins: &Pins) -> Counts
    requires { ArePinned unit.now.widths pins.now }
    ensures { result ≡ pin_numbers unit.now pins.now }
{
    let mut numbers = Counts::new();
    for i in 0..pins.len() {
        numbers.push(unit.count(pins.at(i).counter));
    }
    numbers
}

/// What each native event would have counted, had its group always run.
fn numbers_in_turns(rotation: &Rotation, total: u64, counts: &Counts) -> Counts
    requires same_length { length counts.now ≡ length rotation.now.numbers }
    requires total { total < 2 ^ 32 }
    requires counts { (k : ℕ) → k < length counts.now
        → slice_index counts.now k
        ≤ LARGEST_AMOUNT * active rotation.now.turns (slice_index rotation.now.numbers k) total }
    ensures { result ≡ turn_numbers rotation.now.turns total rotation.now.numbers counts.now }
{
    let mut numbers = Counts::new();
    for i in 0..counts.len() {
        let count = counts.at(i);
        let active = rotation.active(rotation.group_of(i), total);
        numbers.push(estimate(count, total, active));
    }
    numbers
}

impl Slot {
    /// What each native event of the set counted, or is estimated to have, at this time in ticks.
    #[inline(always)]
    pub(crate) fn numbers(&self, units: &[Unit], time: u64) -> Counts
        requires { IsMeasurable units.now self.now time }
        ensures { result ≡ numbers_shown units.now time self.now }
    {
        match &self.counting {
            Counting::Stopped { kept } => kept.copy(),
            Counting::OnUnit { pins, .. } => match self.set.component() {
                Some(comp) => numbers_on_unit(&units[comp as usize], pins),
                None => Counts::new(),
            },
            Counting::InTurns {
                rotation,
                begun,
                kept,
            } => numbers_in_turns(rotation, time - *begun, kept),
        }
    }
}
