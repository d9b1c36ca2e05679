//! Where the numbers of a set's native events are found when they are shown.
ghost use Rattle.std.specs.Prelude.{◌≡◌, slice_index};
ghost use Rattle.thread_slots.specs.Numbers.{AreReadable, numbers_at};
ghost use Rattle.thread_slots.specs.Pinned.{ArePinned};
ghost use Rattle.thread_slots.specs.Shown.{pin_numbers};

use crate::pins::Pins;
use counter_unit::Unit;
use papi_base::Counts;

/// The numbers of native events: a list of them, or the counters that have them.
#[derive(Clone, Copy)]
pub(crate) enum Numbers<'a> {
    Listed(&'a Counts),
    Counted(&'a Unit, &'a Pins),
}

/// What the native event at a place has counted, and 0 if there is no such place.
#[inline(always)]
fn count_at(unit: &Unit, pins: &Pins, place: u32) -> u64
    requires { ArePinned unit.now.widths pins.now }
    ensures { result ≡ slice_index (pin_numbers unit.now pins.now) place }
{
    if place < pins.len() {
        unit.count(pins.at(place).counter)
    } else {
        0
    }
}

/// The number at a place, and 0 if there is no such place.
#[inline(always)]
pub(crate) fn number_at(numbers: Numbers<'_>, place: u8) -> u64
    requires { AreReadable numbers }
    ensures { result ≡ slice_index (numbers_at numbers.entry) place }
{
    let place = u32::from(place);
    match numbers {
        Numbers::Listed(counts) => {
            if place < counts.len() {
                counts.at(place)
            } else {
                0
            }
        }
        Numbers::Counted(unit, pins) => count_at(unit, pins, place),
    }
}
