//! The ranges of a map.

ghost use Rattle.std.specs.Prelude.{◌≡◌, ◌*◌, nat_lt};
ghost use Rattle.profil_hist.specs.Ranges as Ranges;
ghost use Rattle.profil_hist.specs.Views.{range_text};

/// A range of program counters: buckets of `width` addresses each, from `start` on.
#[derive(Drop)]
pub struct MapRange {
    pub name: String,
    pub start: u64,
    pub width: u32,
    pub buckets: u32,
}

impl MapRange {
    /// How many addresses it has.
    pub fn span(&self) -> u64
        ensures { result ≡ self.now.width * self.now.buckets }
    {
        self.width as u64 * self.buckets as u64
    }

    // Whether an address is below the end, which may be 2^64.
    fn ends_above(&self, pc: u64) -> bool
        ensures { result ≡ nat_lt pc (Ranges.end_of (range_text self.now)) }
    {
        pc < self.start || pc - self.start < self.span()
    }

    /// Whether an address is in the range.
    pub fn holds(&self, pc: u64) -> bool
        ensures { result ≡ Ranges.in_range (range_text self.now) pc }
    {
        self.start <= pc && self.ends_above(pc)
    }

    /// Whether some address is in both ranges.
    pub(crate) fn overlaps(&self, other: &MapRange) -> bool
        ensures { result ≡ Ranges.overlaps (range_text self.now) (range_text other.now) }
    {
        other.ends_above(self.start) && self.ends_above(other.start)
    }
}
