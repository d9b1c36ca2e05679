//! The report of what was read.

ghost use Rattle.std.specs.Prelude.{◌≡◌, ◌≤◌, ◌++◌, IfOk, OnOk, map, string_bytes};
ghost use Rattle.std.specs.List.{flat_map, range_with_len};
ghost use Rattle.papi_base.specs.declared.limits.TheConstants.{MOST_SET_EVENTS, THREADS};
ghost use Rattle.region_report.specs.Reports.{name_of, read_text, report_text, thread_text, values_text};
ghost use Rattle.region_report.specs.Spans.{has_spans, reading_values, span_text, spans_from};

use crate::regions::{RegionCall, Regions};
use crate::spans::{LineSpan, spans_of};
use crate::threads::threads_of_spans;
use crate::totals::push_thread;
use papi_base::{THREADS, Values};
use std::alloc::{AllocError, Global};
use std::fmt::Write;

/// What was read at a line: the values of the thread's events.
#[derive(Drop)]
pub struct Reading {
    pub thread: u32,
    pub values: Values,
}

// The name of a span's region.
pub(crate) fn name_in(call: &RegionCall) -> &str
    ensures { result.now ≡ name_of call.now }
{
    match call {
        RegionCall::Begin { name } => name.as_str(),
        RegionCall::Read { name } => name.as_str(),
        RegionCall::End { name } => name.as_str(),
        RegionCall::Run { count: _ } => "",
    }
}

pub(crate) fn push_values(text: &mut String, values: &Values) -> Result<(), AllocError>
    ensures { OnOk result (string_bytes text.new
        ≡ string_bytes text.old ++ values_text values.now) }
{
    for i in 0..values.len() {
        let value = values.at(i);
        write!(text, " {value}")?;
    }
    Ok(())
}

// Appends the line of a `read`, if this is one.
fn push_read(text: &mut String, span: &LineSpan<'_>) -> Result<(), AllocError>
    ensures { OnOk result (string_bytes text.new
        ≡ string_bytes text.old ++ read_text (span_text span.now)) }
{
    let line = span.line.line;
    let thread = span.line.thread;
    match &span.line.call {
        RegionCall::Read { name } => {
            write!(text, "{line} {thread} {name}")?;
            push_values(text, &span.values)?;
            writeln!(text, "")
        }
        _ => Ok(()),
    }
}

// Appends the lines of the reads, in the order of the script.
fn push_reads(text: &mut String, spans: &[LineSpan<'_>]) -> Result<(), AllocError>
    ensures { OnOk result (string_bytes text.new
        ≡ string_bytes text.old ++ flat_map read_text (map span_text spans.now)) }
{
    for span in spans {
        push_read(text, span)?;
    }
    Ok(())
}

// ---- the regions

// Appends the lines of the regions of a thread, which has none if no span is of it.
fn push_regions(
    alloc: Global,
    text: &mut String,
    events: u32,
    thread: u32,
    counts: bool,
    spans: &[LineSpan<'_>],
) -> Result<(), AllocError>
    requires events { events ≤ MOST_SET_EVENTS }
    requires counts { counts ≡ has_spans (map span_text spans.now) thread }
    ensures { OnOk result (string_bytes text.new
        ≡ string_bytes text.old ++ thread_text events (map span_text spans.now) thread) }
{
    if counts {
        push_thread(alloc, text, events, thread, spans)
    } else {
        Ok(())
    }
}

// Appends the lines of the regions of all threads.
fn push_threads(
    alloc: Global,
    text: &mut String,
    events: u32,
    spans: &[LineSpan<'_>],
) -> Result<(), AllocError>
    requires { events ≤ MOST_SET_EVENTS }
    ensures { OnOk result (string_bytes text.new ≡ string_bytes text.old
        ++ flat_map (thread_text events (map span_text spans.now)) (range_with_len 0 THREADS)) }
{
    let counting = threads_of_spans(spans);
    for thread in 0..THREADS {
        let counts = counting[thread as usize];
        push_regions(alloc, text, events, thread, counts, spans)?;
    }
    Ok(())
}

// The text of these spans.
#[tactic(auto, unfolding(crate::specs::Reports::report_text))]
fn text_of(alloc: Global, events: u32, spans: &[LineSpan<'_>]) -> Result<String, AllocError>
    requires { events ≤ MOST_SET_EVENTS }
    ensures { IfOk result (λ text.
        string_bytes text ≡ report_text events (map span_text spans.now)) }
{
    let mut text = String::new(alloc);
    push_reads(&mut text, spans)?;
    push_threads(alloc, &mut text, events, spans)?;
    Ok(text)
}

/// The report of a region script with n events, out of the readings at the lines that begin, read and end regions, one for each in
/// their order: for each `read` a line with what its open instance counted so far, and then for each region a line with how many
/// instances it has and what they counted in all. An instance counts the difference of the readings at its end and at its begin, wrapped
/// to signed 64 bits.
pub fn report(
    alloc: Global,
    regions: &Regions,
    events: u32,
    readings: &[Reading],
) -> Result<String, AllocError>
    requires { events ≤ MOST_SET_EVENTS }
    ensures { IfOk result (λ text.
        string_bytes text ≡ report_text events
        (spans_from (reading_values readings.now) 0 regions.now)) }
{
    let spans = spans_of(alloc, regions.lines(), readings)?;
    text_of(alloc, events, spans.as_slice())
}
