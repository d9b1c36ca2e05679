//! What was counted in a region from its begin on.

ghost use Rattle.std.specs.Prelude.{◌≡◌, ◌++◌, length, map, IfOk, OnOk};
ghost use Rattle.region_report.specs.Spans as Spans;
ghost use Rattle.region_report.specs.Spans.{reading_values, span_text, spans_from};

use crate::pairing::{Difference, pairwise};
use crate::regions::RegionLine;
use crate::reports::Reading;
use papi_base::Values;
use std::alloc::{AllocError, Global};

// A line that reads the counters, with what was counted in its region from its begin on.
#[derive(Drop)]
pub(crate) struct LineSpan<'a> {
    pub(crate) line: &'a RegionLine,
    pub(crate) values: Values,
}

// The values of the reading of a number, from 0.
fn values_at(readings: &[Reading], i: usize) -> Values
    ensures { result ≡ Spans.values_at (reading_values readings.now) i }
{
    match readings.get(i) {
        Some(reading) => reading.values.copy(),
        None => Values::new(),
    }
}

// What was counted at a line that has the reading of this number.
fn values_since(readings: &[Reading], i: usize, line: &RegionLine) -> Values
    ensures { result ≡ Spans.difference (Spans.values_at (reading_values readings.now) i)
        (Spans.values_at (reading_values readings.now) line.now.begun) }
{
    pairwise::<Difference>(&values_at(readings, i), &values_at(readings, line.begun))
}

// One line more, if it reads the counters.
fn push_span<'a>(
    spans: &mut Vec<LineSpan<'a>>,
    readings: &[Reading],
    line: &'a RegionLine,
) -> Result<(), AllocError>
    ensures { OnOk result (map span_text spans.new.items ≡ map span_text spans.old.items
        ++ Spans.spans_at (reading_values readings.now) (length spans.old.items) line.entry.now) }
{
    if line.is_reading() {
        let values = values_since(readings, spans.len(), line);
        spans.push(LineSpan { line, values })?;
    }
    Ok(())
}

// The lines that read the counters, each with what was counted in its region from its begin on.
pub(crate) fn spans_of<'a>(
    alloc: Global,
    lines: &'a [RegionLine],
    readings: &[Reading],
) -> Result<Vec<LineSpan<'a>>, AllocError>
    ensures { IfOk result (λ spans. map span_text spans.items
        ≡ spans_from (reading_values readings.now) 0 lines.entry.now) }
{
    let mut spans = Vec::new(alloc);
    for line in lines {
        push_span(&mut spans, readings, line)?;
    }
    Ok(spans)
}
