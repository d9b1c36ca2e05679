//! Why a row is refused, in view of the ranges above it.

ghost use Rattle.std.specs.Prelude.{◌≡◌, ◌≤◌, map, sum_by};
ghost use Rattle.std.specs.List.{list_any};
ghost use Rattle.std.specs.Str.{bytes_eq};
ghost use Rattle.profil_hist.specs.Maps as Maps;
ghost use Rattle.profil_hist.specs.Ranges as Ranges;
ghost use Rattle.profil_hist.specs.Ranges.{IsMap};
ghost use Rattle.profil_hist.specs.Views.{range_text};
ghost use Rattle.profil_hist.specs.declared.limits.TheConstants.{MOST_BUCKETS};

use crate::fault::MapCause;
use crate::limits::{MOST_BUCKETS, MOST_RANGES};
use crate::range::MapRange;

fn buckets_of(above: &[MapRange]) -> u32
    requires { sum_by (λ r. r.buckets) above.now ≤ MOST_BUCKETS }
    ensures { result ≡ sum_by (λ r. r.buckets) above.now }
{
    above.iter().map(|r| r.buckets).sum()
}

fn has_name(above: &[MapRange], name: &str) -> bool
    ensures { result ≡ list_any (λ o. bytes_eq o.name name.now) (map range_text above.now) }
{
    above.iter().any(|r| r.name.as_str() == name)
}

fn has_overlap(above: &[MapRange], range: &MapRange) -> bool
    ensures { result ≡ list_any
        (λ o. Ranges.overlaps o (range_text range.now)) (map range_text above.now) }
{
    above.iter().any(|r| r.overlaps(range))
}

/// The first cause of a range, and `None` if it has none.
pub fn range_cause(above: &[MapRange], range: &MapRange) -> Option<MapCause>
    requires kept { IsMap (map range_text above.now) }
    ensures { result ≡ Maps.range_cause (map range_text above.now) (range_text range.now) }
{
    if above.len() >= MOST_RANGES || range.buckets > MOST_BUCKETS - buckets_of(above) {
        return Some(MapCause::OverLimit);
    }
    if has_name(above, range.name.as_str()) {
        return Some(MapCause::RepeatedName);
    }
    if has_overlap(above, range) {
        return Some(MapCause::Overlap);
    }
    None
}
