//! A histogram of program counters.

ghost use Rattle.std.specs.Prelude.{◌≡◌, ◌+◌, ◌<◌, ◌^◌, [], ◌∷◌, ◌++◌, List, ℕ, IfOk, is_some};
ghost use Rattle.profil_hist.specs.Counts.{met};
ghost use Rattle.profil_hist.specs.Histograms as Histograms;
ghost use Rattle.profil_hist.specs.Histograms.{IsHistogram};

use crate::counts::{RangeCounts, add_at, bucket_in};
use crate::map::Map;
use crate::placing::RangeStart;
use std::alloc::{AllocError, Global};
use std::marker::Model;

/// How often the buckets of a map were met by program counters.
///
/// The counting is that of PAPI_profil(3): each program counter counts in the one bucket that holds it, or outside.
#[derive(Drop)]
pub struct Hist {
    map: Map,
    order: Vec<RangeStart>,
    rows: Vec<RangeCounts>,
    outside: u64,
    total: u64,
}

impl Model for Hist {
    ghost use Rattle.profil_hist.specs.Histograms.{HistText, IsHist, hist_text};

    ghost Value = { HistText };

    ghost use Rattle.profil_hist.specs.Counts.{rows_text};
    ghost use Rattle.profil_hist.specs.Places.{IsOrder};

    ghost view = { λ h. hist_text h.map (rows_text h.rows.items) h.outside h.total };

    ghost invariant = { λ h. IsHist (hist_text h.map (rows_text h.rows.items) h.outside h.total) × IsOrder h.map h.order.items };
}

impl Hist {
    /// The histogram of no program counters.
    pub fn new(alloc: Global, map: Map) -> Result<Hist, AllocError>
        ensures map { IfOk result (λ h. h.map ≡ map) }
        ensures empty { IfOk result (λ h. IsHistogram h []) }
    {
        let order = map.order(alloc)?;
        let rows = map.zeros(alloc)?;
        Ok(Hist {
            map,
            order,
            rows,
            outside: 0,
            total: 0,
        })
    }

    /// The map that was handed in.
    pub fn map(&self) -> &Map
        ensures { result.now ≡ self.now.map }
    {
        &self.map
    }

    /// Counts one program counter more.
    pub fn add(&mut self, pc: u64)
        requires { self.old.total < 2 ^ 63 }
        ensures map { self.new.map ≡ self.old.map }
        ensures total { self.new.total ≡ self.old.total + 1 }
        ensures counts { (pcs : List ℕ) → IsHistogram self.old pcs
            → IsHistogram self.new (pcs ++ pc ∷ []) }
    {
        self.total += 1;
        match self.map.place_of(self.order.as_slice(), pc) {
            Some(place) => add_at(&mut self.rows, place),
            None => self.outside += 1,
        }
    }

    /// How often a bucket of a range was met, each by its place from 0, and `None` if there is no such bucket.
    pub fn bucket(&self, range: u32, i: u32) -> Option<u64>
        ensures count { result ≡ Histograms.bucket_at self.now range i }
        ensures there { is_some result ≡ Histograms.has_bucket self.now.map range i }
    {
        bucket_in(self.rows.as_slice(), range, i)
    }

    /// How often a range was met, by its place from 0, and `None` if there is no such range.
    pub fn hits(&self, range: u32) -> Option<u64>
        ensures count { result ≡ Histograms.hits_at self.now range }
        ensures there { is_some result ≡ Histograms.has_range self.now.map range }
    {
        Some(self.rows.as_slice().get(range as usize)?.hits)
    }

    /// How many program counters were in no range.
    pub fn outside(&self) -> u64
        ensures { result ≡ self.now.outside }
    {
        self.outside
    }

    /// How many program counters there were: those of all buckets and those outside.
    pub fn total(&self) -> u64
        ensures total { result ≡ self.now.total }
        ensures whole { met self.now.rows + self.now.outside ≡ result }
    {
        self.total
    }
}
