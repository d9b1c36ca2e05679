//! `papi_regions`: counts by region of a program.
ghost use Rattle.std.specs.Prelude.{◌≡◌, ◌≤◌, ◌++◌, ◌∷◌, [], ℕ, All, IfOk, List, Ok, OnOk, length, vec_len};
ghost use Rattle.papi_base.specs.Outside.{Rose};
ghost use Rattle.papi_base.specs.declared.limits.TheConstants.{MOST_SET_EVENTS};
ghost use Rattle.call_laws.specs.Spans.{AllFit};
ghost use Rattle.region_report.specs.CallLines.{AreEvents, asked, numbered};
ghost use Rattle.region_report.specs.Reports.{report_text};
ghost use Rattle.region_report.specs.Spans.{reading_values, spans_from};
ghost use Rattle.thread_session.specs.SessionView.{IsFresh};
ghost use Rattle.papi_tools.specs.Openings.{Answers, ToolSays};
ghost use Rattle.papi_tools.specs.Looking.{FilesSeen, LookedBy, Shows, StaysHeld, StopsByFile};
ghost use Rattle.papi_tools.specs.Contents.{regions_in};
ghost use Rattle.papi_tools.specs.Marks.{marked_said};
ghost use Rattle.papi_tools.specs.RegionCounts.{GivenRegions, readings_in, regions_said, regions_verdict};
ghost use Rattle.papi_tools.specs.Running.{CanBeGivenRun};
ghost use Rattle.papi_tools.specs.Streams.{SomeFailed, sources_in};

use crate::contents::FileContent;
use crate::input::{Input, open_input};
use crate::marks::marked;
use crate::script_run::{RanScript, run_script};
use crate::streams::close_readers;
use crate::tables::read_catalog;
use crate::{Output, Said, Stop, ToolResult};
use call_laws::{begun_law, readings_fit, script_law, span_law};
use component_table::Catalog;
use overflow_dispatch::{Handler, Recorder};
use papi_base::{Bytes, Files, Source, THREADS, Text};
use region_report::{Reading, Regions, report, script_of};
use script_lines::Script;
use session_model::Body;
use std::alloc::{AllocError, Global};
use std::marker::{Send, Sync};
use std::thread::Threads;
use stream_reader::StreamReader;
use thread_registry::{ReplyLine, ReplyLines};
use tool_output::{Candidates, choose};
use tool_words::RegionsWords;

// ---- what was read

// Appends the values that a reply shows, if it shows some.
fn push_reading(readings: &mut Vec<Reading>, line: &ReplyLine) -> Result<(), AllocError>
    ensures { OnOk result (reading_values readings.new.items ≡ reading_values readings.old.items
        ++ readings_in (line.now ∷ [])) }
{
    if let Body::Values(values) = &line.reply.body {
        readings.push(Reading {
            thread: line.thread,
            values: values.copy(),
        })?;
    }
    Ok(())
}

// What was read, in the order of the script.
fn readings_of(alloc: Global, lines: &ReplyLines) -> Result<Vec<Reading>, AllocError>
    ensures { IfOk result (λ readings. reading_values readings.items ≡ readings_in lines.now) }
{
    let mut readings = Vec::new(alloc);
    for i in 0..lines.len() {
        push_reading(&mut readings, &lines.at(i))?;
    }
    Ok(readings)
}

// What is said of a run.
fn said_of(alloc: Global, regions: &Regions, events: &[Text], ran: &RanScript) -> ToolResult
    requires { length events.now ≤ MOST_SET_EVENTS }
    ensures said { Answers result (Ok (marked_said ran.now.marks
        (report_text (length events.now)
        (spans_from (readings_in ran.now.lines) 0 regions.now)))) }
    ensures fit { IfOk result (λ _. AllFit (readings_in ran.now.lines)) }
    ensures cause { (before after : FilesSeen) → StopsByFile result before after }
{
    let readings = readings_of(alloc, &ran.lines)?;
    let read = readings.as_slice();
    readings_fit(read);
    let text = report(alloc, regions, events.len() as u32, read)?;
    let out = Output::text(Bytes::new(text.into_bytes()));
    Ok(marked(alloc, &ran.marks, out)?)
}

// ---- the run

// The script of calls that a region script stands for.
fn calls_of(alloc: Global, regions: &Regions, events: &[Text]) -> Result<Script, Stop>
    requires { AreEvents events.now }
    ensures told { Answers result (Ok (numbered 1 (asked regions.now events.now))) }
    ensures cause { (before after : FilesSeen) → StopsByFile result before after }
{
    let text = script_of(alloc, regions, events)?;
    Script::parse(alloc, "regions", text.as_bytes())
}

// Runs the script of calls over the readers, if a set takes the events, and says what came of it.
fn count<R: Threads + Sync, S: Source + Send>(
    rt: &R,
    alloc: Global,
    catalog: &Catalog,
    regions: &Regions,
    words: &RegionsWords,
    readers: &mut Vec<StreamReader<S>>,
) -> ToolResult
    requires readers { vec_len readers.old ≡ THREADS }
    requires fresh { All IsFresh readers.old.items }
    requires read { (name bytes : List ℕ) × (regions_in name bytes ≡ Ok regions.now) }
    ensures counted { (given : GivenRegions)
        × CanBeGivenRun catalog.now regions.now readers.old.items given
        × Answers result (Ok (regions_said words.now.events given)) }
    ensures shows { (before after : ℕ) → (SomeFailed readers.new.items → Rose before after)
        → IfOk result (λ said. Shows (Unit {0}) before after said.outcome) }
    ensures cause { (before after : FilesSeen) → StopsByFile result before after }
    ensures sources { sources_in readers.new.items ≡ sources_in readers.old.items }
{
    begun_law();
    script_law();
    span_law();
    // Their threads are those that there are.
    let _lines = regions.lines();
    let events = words.events.as_slice();
    let choice = choose(alloc, catalog, Candidates::Preset, events)?;
    if !choice.all_taken {
        return Ok(Said::text(alloc, false, choice.text));
    }
    let script = calls_of(alloc, regions, events)?;
    // Nobody reads what these are told.
    let mut handlers: Vec<Box<dyn Handler + Send>> = Vec::new(alloc);
    for _thread in 0..THREADS {
        handlers.push(Box::new(alloc, Recorder::new(alloc))?)?;
    }
    let answer = run_script(
        rt,
        alloc,
        &script,
        catalog,
        readers,
        &mut handlers,
        words.workers.get(),
    );
    match answer {
        Ok(ran) => said_of(alloc, regions, events, &ran),
        Err(_) => Err(Stop::Memory),
    }
}

// ---- the tool

/// `papi_regions`: reads the unit, the presets and the region script, opens the streams, counts the events in a set of each thread that
/// has lines, and reports what each region counted. If a set does not take the events, the first that is refused is said, and no
/// stream is read. No handler is told anything.
pub fn count_regions<R: Threads + Sync, F: Files>(
    rt: &R,
    alloc: Global,
    files: &mut F,
    words: &RegionsWords,
) -> ToolResult
    ensures said { ToolSays (F.held files.old) result regions_verdict words.now }
    ensures shows { IfOk result
        (λ said. Shows (Unit {0}) (F.faults files.old) (F.faults files.new) said.outcome) }
    ensures looked { LookedBy F.held F.misses F.faults F.lent result 0 files.old files.new }
    ensures held { StaysHeld (F.held files.old) (F.held files.new) }
{
    let catalog = read_catalog(alloc, files, &words.unit, words.presets.as_ref())?;
    let input = open_input::<Regions, F>(alloc, files, &words.script, words.streams.as_slice())?;
    let Input {
        script,
        mut readers,
    } = input;
    let answer = count(rt, alloc, &catalog, &script, words, &mut readers);
    close_readers(files, readers);
    answer
}
