//! The text of a histogram.

ghost use Rattle.std.specs.Prelude.{◌≡◌, ◌<◌, ◌++◌, ℕ, List, Some, IfOk, OnOk, string_bytes, slice_get};
ghost use Rattle.profil_hist.specs.Histograms.{IsHistogram};
ghost use Rattle.profil_hist.specs.Profiles as Profiles;
ghost use Rattle.profil_hist.specs.Profiles.{bucket_line, bucket_lines, count_or_none, hist_lines, last_lines, lines_at};
ghost use Rattle.profil_hist.specs.Ranges.{IsRange};
ghost use Rattle.profil_hist.specs.Views.{range_text};

use crate::hist::Hist;
use crate::range::MapRange;
use std::alloc::{AllocError, Global};
use std::fmt::Write;

// Appends the line of a bucket, if it was met.
fn push_bucket(text: &mut String, range: &MapRange, i: u32, count: u64) -> Result<(), AllocError>
    requires kept { IsRange (range_text range.now) }
    requires there { i < range.now.buckets }
    ensures { OnOk result (string_bytes text.new
        ≡ string_bytes text.old ++ bucket_line (range_text range.now) i count) }
{
    if count == 0 {
        return Ok(());
    }
    let lowest = range.start + u64::from(i) * u64::from(range.width);
    writeln!(text, "0x{lowest:x} {count}")
}

// Appends the lines of the buckets of the range in place k.
fn push_buckets(text: &mut String, hist: &Hist, k: u32, range: &MapRange) -> Result<(), AllocError>
    requires kept { IsRange (range_text range.now) }
    ensures { OnOk result (string_bytes text.new
        ≡ string_bytes text.old ++ bucket_lines (range_text range.now) (count_or_none hist.now k)) }
{
    for i in 0..range.buckets {
        let count = hist.bucket(k, i).unwrap_or(0);
        push_bucket(text, range, i, count)?;
    }
    Ok(())
}

// Appends the lines of the range in place k.
fn push_range(text: &mut String, hist: &Hist, k: u32, range: &MapRange) -> Result<(), AllocError>
    requires kept { IsRange (range_text range.now) }
    requires there { slice_get hist.now.map k ≡ Some (range_text range.now) }
    ensures { OnOk result (string_bytes text.new ≡ string_bytes text.old ++ lines_at hist.now k) }
{
    let name = range.name.as_str();
    let hits = hist.hits(k).unwrap_or(0);
    writeln!(text, "range {name} {hits}")?;
    push_buckets(text, hist, k, range)
}

// Appends how many program counters were in no range, and how many there were.
fn push_last(text: &mut String, hist: &Hist) -> Result<(), AllocError>
    ensures { OnOk result (string_bytes text.new
        ≡ string_bytes text.old ++ last_lines hist.now.outside hist.now.total) }
{
    let outside = hist.outside();
    let total = hist.total();
    writeln!(text, "outside {outside}\ntotal {total}")
}

// The text by what the histogram has.
fn lines_of(alloc: Global, hist: &Hist) -> Result<String, AllocError>
    ensures { IfOk result (λ text. string_bytes text ≡ hist_lines hist.now) }
{
    let mut text = String::new(alloc);
    for k in 0..hist.map().ranges() {
        if let Some(range) = hist.map().range(k) {
            push_range(&mut text, hist, k, range)?;
        }
    }
    push_last(&mut text, hist)?;
    Ok(text)
}

/// The text of a histogram, a line for each range in the order of the map, with how often it was met, each followed by the
/// lines of its buckets that were met, with their lowest addresses; then how many program counters were in no range, and
/// how many there were.
pub fn profile_text(alloc: Global, hist: &Hist) -> Result<String, AllocError>
    ensures profile { (pcs : List ℕ) → IsHistogram hist.now pcs
        → IfOk result (λ text. string_bytes text ≡ Profiles.profile_text hist.now.map pcs) }
    // Whatever it counts:
    ensures lines { IfOk result (λ text. string_bytes text ≡ hist_lines hist.now) }
{
    lines_of(alloc, hist)
}
