//! The totals of a thread's regions, found by name.

ghost use Rattle.std.specs.Prelude.{◌≡◌, ◌<◌, ◌≤◌, ◌^◌, ◌++◌, All, IfOk, IfSome, OnOk};
ghost use Rattle.std.specs.Prelude.{length, map, pos, position, replicate, slice_get, string_bytes, vec_len, Some};
ghost use Rattle.std.specs.Str.{bytes_eq};
ghost use Rattle.papi_base.specs.declared.limits.TheConstants.{MOST_SET_EVENTS};
ghost use Rattle.indexmap.specs.IndexSet.{index_set_len};
ghost use Rattle.region_report.specs.Reports as Reports;
ghost use Rattle.region_report.specs.Reports.{names_of, thread_text, total_text, with_begin, with_name};
ghost use Rattle.region_report.specs.Spans.{span_text};
ghost use Rattle.region_report.specs.Totals as Totals;
ghost use Rattle.region_report.specs.Totals.{total_of, totals_text, with_instance, with_instance_at};

use crate::pairing::{Sum, pairwise};
use crate::regions::RegionCall;
use crate::reports::{name_in, push_values};
use crate::spans::LineSpan;
use indexmap::IndexSet;
use papi_base::Values;
use std::alloc::{AllocError, Global};
use std::fmt::Write;

// How many instances a region has, and what they counted in all.
#[derive(Drop)]
pub(crate) struct RegionTotal {
    pub(crate) instances: usize,
    pub(crate) values: Values,
}

// ---- the names

// A name after others, if it is not one of them.
fn add_name<'a>(names: &mut IndexSet<&'a str>, name: &'a str) -> Result<(), AllocError>
    ensures { OnOk result (map (λ n. n.now) names.new.keys
        ≡ with_name (map (λ n. n.now) names.old.keys) name.now) }
{
    names.insert(name)?;
    Ok(())
}

// The name of a region of the thread that begins here.
fn add_begin<'a>(
    names: &mut IndexSet<&'a str>,
    thread: u32,
    span: &LineSpan<'a>,
) -> Result<(), AllocError>
    ensures { OnOk result (map (λ n. n.now) names.new.keys
        ≡ with_begin thread (map (λ n. n.now) names.old.keys) (span_text span.now)) }
{
    if span.line.thread == thread && matches!(&span.line.call, RegionCall::Begin { name: _ }) {
        add_name(names, name_in(&span.line.call))?;
    }
    Ok(())
}

// The names of the regions of a thread, in the order of their first begins.
fn names_of<'a>(
    alloc: Global,
    thread: u32,
    spans: &[LineSpan<'a>],
) -> Result<IndexSet<&'a str>, AllocError>
    ensures { IfOk result (λ names. map (λ n. n.now) names.keys
        ≡ names_of thread (map span_text spans.now)) }
{
    let mut names = IndexSet::new(alloc);
    for span in spans {
        add_begin(&mut names, thread, span)?;
    }
    Ok(names)
}

// The place of a name.
fn place_in(names: &IndexSet<&str>, name: &str) -> Option<usize>
    ensures place { result ≡ position (bytes_eq name.now) (map (λ n. n.now) names.now.keys) }
    ensures within { IfSome result (λ i. i < index_set_len names.now) }
{
    names.get_index_of(name)
}

// The place of the region of which an instance ends here.
fn place_of(names: &IndexSet<&str>, thread: u32, span: &LineSpan<'_>) -> Option<usize>
    ensures place { result ≡ Totals.place_of (map (λ n. n.now) names.now.keys) thread
        (span_text span.now) }
    ensures within { IfSome result (λ i. i < index_set_len names.now) }
{
    if span.line.thread == thread && matches!(&span.line.call, RegionCall::End { name: _ }) {
        place_in(names, name_in(&span.line.call))
    } else {
        None
    }
}

// ---- the totals

// One instance more, which counted these values.
fn add_instance(total: &mut RegionTotal, values: &Values)
    requires { total.old.instances < 2 ^ 63 }
    ensures { total.new ≡ with_instance values.now total.old }
{
    total.instances += 1;
    total.values = pairwise::<Sum>(&total.values, values);
}

// One instance more of the region at a place, if there is one.
fn add_at(totals: &mut Vec<RegionTotal>, place: Option<usize>, values: &Values)
    requires few { All (λ t. t.instances < 2 ^ 63) totals.old.items }
    requires within { IfSome place (λ i. i < vec_len totals.old) }
    ensures { totals.new.items ≡ with_instance_at place values.now totals.old.items }
{
    if let Some(place) = place {
        add_instance(&mut totals[place], values);
    }
}

// As many totals of no instances.
#[tactic(auto, using(std::proofs::lemmas::Grind::common_steps))]
fn no_totals(alloc: Global, events: u32, count: usize) -> Result<Vec<RegionTotal>, AllocError>
    requires { events ≤ MOST_SET_EVENTS }
    ensures { IfOk result (λ totals.
        totals.items ≡ replicate count
        (record { instances = 0; values = replicate events (pos 0) })) }
{
    let mut totals = Vec::new(alloc);
    for _region in 0..count {
        totals.push(RegionTotal {
            instances: 0,
            values: Values::repeated(0, events),
        })?;
    }
    Ok(totals)
}

// The totals of the regions of a thread that have these names.
fn totals_of(
    alloc: Global,
    events: u32,
    thread: u32,
    spans: &[LineSpan<'_>],
    names: &IndexSet<&str>,
) -> Result<Vec<RegionTotal>, AllocError>
    requires events { events ≤ MOST_SET_EVENTS }
    requires names { map (λ n. n.now) names.now.keys
        ≡ Reports.names_of thread (map span_text spans.now) }
    ensures { IfOk result (λ totals.
        totals.items ≡ map (total_of events thread (map span_text spans.now))
        (map (λ n. n.now) names.now.keys)) }
{
    let mut totals = no_totals(alloc, events, names.len())?;
    for span in spans {
        let place = place_of(names, thread, span);
        add_at(&mut totals, place, &span.values);
    }
    Ok(totals)
}

// ---- the text

// Appends the line of a region.
fn push_total(
    text: &mut String,
    thread: u32,
    name: &str,
    total: &RegionTotal,
) -> Result<(), AllocError>
    ensures { OnOk result (string_bytes text.new
        ≡ string_bytes text.old ++ total_text thread name.now total.now.instances
        total.now.values) }
{
    let instances = total.instances;
    write!(text, "{thread} {name} {instances}")?;
    push_values(text, &total.values)?;
    writeln!(text, "")
}

// The name at a place that is there.
fn name_at<'a>(names: &[&'a str], i: usize) -> &'a str
    requires { i < length names.now }
    ensures { slice_get (map (λ n. n.now) names.now) i ≡ Some result.now }
{
    names[i]
}

// Appends the lines of regions with these names and totals.
fn push_totals(
    text: &mut String,
    thread: u32,
    names: &[&str],
    totals: &[RegionTotal],
) -> Result<(), AllocError>
    requires { length names.now ≡ length totals.now }
    ensures { OnOk result (string_bytes text.new
        ≡ string_bytes text.old ++ totals_text thread (map (λ n. n.now) names.now) totals.now) }
{
    for i in 0..names.len() {
        push_total(text, thread, name_at(names, i), &totals[i])?;
    }
    Ok(())
}

// Appends the lines of the regions of a thread.
pub(crate) fn push_thread(
    alloc: Global,
    text: &mut String,
    events: u32,
    thread: u32,
    spans: &[LineSpan<'_>],
) -> Result<(), AllocError>
    requires { events ≤ MOST_SET_EVENTS }
    ensures { OnOk result (string_bytes text.new
        ≡ string_bytes text.old ++ thread_text events (map span_text spans.now) thread) }
{
    let names = names_of(alloc, thread, spans)?;
    let totals = totals_of(alloc, events, thread, spans, &names)?;
    push_totals(text, thread, names.as_slice(), totals.as_slice())
}
