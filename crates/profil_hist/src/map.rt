//! A map of program counters.

ghost use Rattle.std.specs.Prelude.{◌≡◌, map, length, slice_get, option_map, IfOk};
ghost use Rattle.profil_hist.specs.Counts.{counts_text, no_counts};
ghost use Rattle.profil_hist.specs.Places.{IsOrder, IsPlaceOf};
ghost use Rattle.profil_hist.specs.Ranges.{IsMap};
ghost use Rattle.profil_hist.specs.Views.{range_text};

use crate::counts::{RangeCounts, zeros_of};
use crate::placing::{Place, RangeStart, order_of, place_in};
use crate::range::MapRange;
use std::alloc::{AllocError, Global};
use std::marker::Model;

/// Ranges of program counters, in the order of their file.
///
/// Contracts see them as a list, with their names as texts. The limits hold, names have the form of a name and are
/// not repeated, each range ends at 2^64 or below, and no address is in two ranges.
#[derive(Drop)]
pub struct Map {
    ranges: Vec<MapRange>,
}

impl Model for Map {
    ghost use Rattle.std.specs.Prelude.{List, map};
    ghost use Rattle.profil_hist.specs.Ranges.{RangeText, IsMap};

    ghost Value = { List RangeText };

    ghost use Rattle.profil_hist.specs.Views.{range_text};

    ghost view = { λ m. map range_text m.ranges.items };

    ghost invariant = { λ m. IsMap (map range_text m.ranges.items) };
}

impl Map {
    /// These ranges, which keep what a map keeps.
    pub(crate) fn new(ranges: Vec<MapRange>) -> Map
        requires { IsMap (map range_text ranges.items) }
        ensures { result ≡ map range_text ranges.items }
    {
        Map { ranges }
    }

    /// How many ranges there are, at most 1,024.
    pub fn ranges(&self) -> u32
        ensures count { result ≡ length self.now }
        ensures kept { IsMap self.now }
    {
        self.ranges.len() as u32
    }

    /// The range in a place from 0, and `None` if there is none.
    pub fn range(&self, i: u32) -> Option<&MapRange>
        ensures { option_map (λ r. range_text r.now) result ≡ slice_get self.now i }
    {
        self.ranges.as_slice().get(i as usize)
    }

    /// The ranges in the order of their addresses.
    pub(crate) fn order(&self, alloc: Global) -> Result<Vec<RangeStart>, AllocError>
        ensures { IfOk result (λ places. IsOrder self.now places.items) }
    {
        order_of(alloc, self.ranges.as_slice())
    }

    /// No range was met yet.
    pub(crate) fn zeros(&self, alloc: Global) -> Result<Vec<RangeCounts>, AllocError>
        ensures rows { IfOk result (λ rows. map counts_text rows.items ≡ no_counts self.now) }
        ensures kept { IsMap self.now }
    {
        zeros_of(alloc, self.ranges.as_slice())
    }

    /// The range and the bucket that hold an address, and `None` if it is in no range.
    pub(crate) fn place_of(&self, order: &[RangeStart], pc: u64) -> Option<Place>
        requires { IsOrder self.now order.now }
        ensures { IsPlaceOf self.now pc result }
    {
        place_in(self.ranges.as_slice(), order, pc)
    }
}
