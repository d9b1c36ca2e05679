//! How often the ranges of a map were met.

ghost use Rattle.std.specs.Prelude.{◌≡◌, ◌<◌, ◌^◌, map, length, slice_index, sum_by, vec_len, IfOk};
ghost use Rattle.profil_hist.specs.Counts as Counts;
ghost use Rattle.profil_hist.specs.Counts.{counts_text, met};
ghost use Rattle.profil_hist.specs.Views.{range_text};

use crate::placing::Place;
use crate::range::MapRange;
use std::alloc::{AllocError, Global};

/// How often a range was met, and each of its buckets.
#[derive(Drop)]
pub struct RangeCounts {
    pub hits: u64,
    pub buckets: Vec<u64>,
}

impl RangeCounts {
    fn zeros(alloc: Global, buckets: u32) -> Result<RangeCounts, AllocError>
        ensures { IfOk result (λ c. counts_text c ≡ Counts.no_hits buckets) }
    {
        let buckets = vec![in alloc; 0u64; buckets as usize]?;
        Ok(RangeCounts { hits: 0, buckets })
    }

    fn add(&mut self, bucket: usize)
        requires there { bucket < vec_len self.old.buckets }
        requires hits_room { self.old.hits < 2 ^ 63 }
        requires bucket_room { slice_index self.old.buckets.items bucket < 2 ^ 63 }
        ensures { counts_text self.new ≡ Counts.with_hit bucket (counts_text self.old) }
    {
        self.hits += 1;
        self.buckets[bucket] += 1;
    }
}

/// No range was met yet.
pub fn zeros_of(alloc: Global, ranges: &[MapRange]) -> Result<Vec<RangeCounts>, AllocError>
    ensures { IfOk result (λ rows. map counts_text rows.items
        ≡ Counts.no_counts (map range_text ranges.now)) }
{
    let mut rows = Vec::new(alloc);
    for r in ranges {
        rows.push(RangeCounts::zeros(alloc, r.buckets)?)?;
    }
    Ok(rows)
}

/// Counts one address more, in this bucket.
pub fn add_at(rows: &mut Vec<RangeCounts>, place: Place)
    requires there { Counts.IsThere place (map counts_text rows.old.items) }
    requires hits_room { sum_by (λ row. row.hits) (map counts_text rows.old.items) < 2 ^ 63 }
    requires bucket_room { met (map counts_text rows.old.items) < 2 ^ 63 }
    ensures { map counts_text rows.new.items
        ≡ Counts.with_note place (map counts_text rows.old.items) }
{
    rows[place.range].add(place.bucket);
}

/// How often a bucket was met, and `None` if there is no such bucket.
pub fn bucket_in(rows: &[RangeCounts], range: u32, i: u32) -> Option<u64>
    ensures { result ≡ Counts.bucket_in (map counts_text rows.now) range i }
{
    match rows.get(range as usize) {
        Some(row) => row.buckets.as_slice().get(i as usize).copied(),
        None => None,
    }
}
