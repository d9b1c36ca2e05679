//! The ranges of a map in the order of their addresses, and where an address falls.

ghost use Rattle.std.specs.Prelude.{◌≡◌, ◌<◌, ◌≤◌, ◌&&◌, true, map, length, nat_lt, IfOk};
ghost use Rattle.std.specs.List.Sorted.{IsNonDecreasingBy, IsPartitionPoint};
ghost use Rattle.profil_hist.specs.Places.{ArePlacesOf, IsOrder, IsPlaceOf, IsRangeOf};
ghost use Rattle.profil_hist.specs.Ranges.{IsMap, in_bucket, in_range};
ghost use Rattle.profil_hist.specs.Views.{range_text};

use crate::range::MapRange;
use std::alloc::{AllocError, Global};

/// A range of a map, by its place in the file, with its first address.
#[derive(Clone, Copy, Drop)]
pub struct RangeStart {
    pub start: u64,
    pub range: usize,
}

/// A bucket of a range of a map, each by its place from 0.
#[derive(Clone, Copy)]
pub struct Place {
    pub range: usize,
    pub bucket: usize,
}

// The ranges in the order of the file.
fn in_file_order(alloc: Global, ranges: &[MapRange]) -> Result<Vec<RangeStart>, AllocError>
    ensures { IfOk result (λ places.
        ArePlacesOf (map range_text ranges.now) (length ranges.now) places.items) }
{
    let mut places = Vec::new(alloc);
    for range in 0..ranges.len() {
        let start = ranges[range].start;
        places.push(RangeStart { start, range })?;
    }
    Ok(places)
}

/// The ranges in the order of their addresses.
pub fn order_of(alloc: Global, ranges: &[MapRange]) -> Result<Vec<RangeStart>, AllocError>
    ensures { IfOk result (λ places. IsOrder (map range_text ranges.now) places.items) }
{
    let mut places = in_file_order(alloc, ranges)?;
    places.sort_by_key(|p| p.start)?;
    Ok(places)
}

// How many ranges start at an address or below it.
fn count_below(order: &[RangeStart], pc: u64) -> usize
    requires { IsNonDecreasingBy (λ p. p.start) order.now }
    ensures point { IsPartitionPoint (λ p. p.start ≤ pc) (λ p. pc < p.start) order.now result }
    ensures bound { result ≤ length order.now }
{
    order.partition_point(|p| p.start <= pc)
}

// The range that holds an address.
fn range_of(ranges: &[MapRange], order: &[RangeStart], pc: u64) -> Option<usize>
    requires kept { IsMap (map range_text ranges.now) }
    requires ordered { IsOrder (map range_text ranges.now) order.now }
    ensures { IsRangeOf (map range_text ranges.now) pc result }
{
    let below = count_below(order, pc);
    if below == 0 {
        return None;
    }
    let range = order[below - 1].range;
    if ranges[range].holds(pc) {
        Some(range)
    } else {
        None
    }
}

// The bucket of a range that holds an address.
fn bucket_of(range: &MapRange, pc: u64) -> usize
    requires wide { 1 ≤ range.now.width }
    requires inside { in_range (range_text range.now) pc ≡ true }
    ensures bucket { in_bucket (range_text range.now) result pc ≡ true }
    ensures there { result < range.now.buckets }
{
    ((pc - range.start) / range.width as u64) as usize
}

/// The range and the bucket that hold an address, and `None` if it is in no range.
pub fn place_in(ranges: &[MapRange], order: &[RangeStart], pc: u64) -> Option<Place>
    requires kept { IsMap (map range_text ranges.now) }
    requires ordered { IsOrder (map range_text ranges.now) order.now }
    ensures { IsPlaceOf (map range_text ranges.now) pc result }
{
    let range = range_of(ranges, order, pc)?;
    let bucket = bucket_of(&ranges[range], pc);
    Some(Place { range, bucket })
}
