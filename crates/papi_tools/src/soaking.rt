//! `papi_soak`: counts a large input that it makes out of a number.
ghost use Rattle.std.specs.Prelude.{◌≡◌, ℕ, All, IfOk, IsOkAnd, Option, codes, length, map, vec_len};
ghost use Rattle.papi_base.specs.Outside.{Held};
ghost use Rattle.soak_input.specs.Script as soak_script;
ghost use Rattle.soak_input.specs.Unit as soak_unit;
ghost use Rattle.thread_session.specs.SessionView.{IsFresh};
ghost use Rattle.papi_tools.specs.Openings.{Answers, AnswersBy};
ghost use Rattle.papi_tools.specs.Looking.{FilesSeen, IsTextual, StopsByFile};
ghost use Rattle.papi_tools.specs.Contents.{script_in, unit_of};
ghost use Rattle.papi_tools.specs.Running.{IsGivenRun};
ghost use Rattle.papi_tools.specs.Soaking.{soak_given, soak_tapes, soak_verdict, summary_said, totals_between};
ghost use Rattle.papi_tools.specs.Streams.{TellStreams, streams_of};
ghost use Rattle.papi_tools.specs.Verdict.{ToolTells};

use crate::contents::FileContent;
use crate::script_run::{RanScript, run_script};
use crate::soak_totals::totals_between;
use crate::streams::add_empty;
use crate::{Said, Stop, ToolResult};
use component_table::Catalog;
use event_tables::Tables;
use overflow_dispatch::{Handler, counts_of};
use papi_base::{Bytes, THREADS};
use script_lines::Script;
use soak_input::{SOAK_THREADS, SoakSource, script_text, summary_text, unit_text};
use std::alloc::{AllocError, Global};
use std::marker::{Send, Sync};
use std::thread::Threads;
use stream_reader::StreamReader;
use tool_words::SoakWords;

// What a soak runs: the catalog, the script, and the readers of all threads.
#[derive(Drop)]
struct SoakRun {
    catalog: Catalog,
    script: Script,
    readers: Vec<StreamReader<SoakSource>>,
}

fn soak_tables(alloc: Global) -> Result<Tables, Stop>
    ensures told { Answers result (unit_of (codes "lab.unit") soak_unit.unit_text) }
    ensures cause { (before after : FilesSeen) → StopsByFile result before after }
{
    Tables::parse(alloc, "lab.unit", unit_text().as_bytes())
}

fn soak_script(alloc: Global, rounds: u32) -> Result<Script, Stop>
    ensures told { Answers result
        (script_in (codes "soak.script") (soak_script.script_text rounds)) }
    ensures cause { (before after : FilesSeen) → StopsByFile result before after }
{
    let text = script_text(alloc, rounds)?;
    Script::parse(alloc, "soak.script", text.as_bytes())
}

// Readers of the streams of a soak, and of empty ones for the other threads.
fn soak_readers(alloc: Global, rounds: u32) -> Result<Vec<StreamReader<SoakSource>>, AllocError>
    ensures told { IfOk result
        (λ readers. TellStreams readers.items (streams_of (soak_tapes rounds))) }
    ensures len { IfOk result (λ readers. vec_len readers ≡ THREADS) }
    ensures fresh { IfOk result (λ readers. All IsFresh readers.items) }
{
    let mut readers = Vec::with_capacity(alloc, THREADS as usize)?;
    for thread in 0..SOAK_THREADS {
        let source = SoakSource::new(rounds, thread);
        readers.push_reserved(StreamReader::new(source));
    }
    add_empty(&mut readers);
    Ok(readers)
}

// Makes what is run, or says why it is refused, which does not happen.
#[tactic(auto, unfolding(crate::specs::Soaking::soak_given))]
fn make_run(alloc: Global, rounds: u32) -> Result<SoakRun, Stop>
    ensures told { AnswersBy
        (λ run given. IsOkAnd given (IsGivenRun run.catalog run.script run.readers.items)) result
        (soak_given rounds) }
    ensures len { IfOk result (λ run. vec_len run.readers ≡ THREADS) }
    ensures fresh { IfOk result (λ run. All IsFresh run.readers.items) }
    ensures cause { (before after : FilesSeen) → StopsByFile result before after }
{
    let tables = soak_tables(alloc)?;
    let script = soak_script(alloc, rounds)?;
    let catalog = Catalog::build(alloc, tables, None)?;
    let readers = soak_readers(alloc, rounds)?;
    Ok(SoakRun {
        catalog,
        script,
        readers,
    })
}

// What is said of a run: its summary, with the notes since it began.
fn said_of(alloc: Global, ran: &RanScript, handlers: &Vec<Box<dyn Handler + Send>>) -> ToolResult
    requires handlers { vec_len handlers.now ≡ THREADS }
    requires noted { vec_len ran.now.noted ≡ THREADS }
    ensures said { Answers result (Ok (summary_said
        (totals_between ran.now.lines ran.now.noted.items
        (map (λ b. length (notes b)) handlers.now.items)) (length ran.now.lines))) }
    ensures textual { IfOk result (λ said. IsTextual ⊥ said.outcome) }
    ensures cause { (before after : FilesSeen) → StopsByFile result before after }
{
    let noted = counts_of(alloc, handlers)?;
    let totals = totals_between(alloc, &ran.lines, ran.noted.as_slice(), noted.as_slice())?;
    let text = summary_text(alloc, totals.as_slice(), ran.lines.len())?;
    Ok(Said::text(alloc, true, Bytes::new(text.into_bytes())))
}

/// `papi_soak`: makes a unit, a script and four streams out of the number of rounds, carries out the script as `papi_run` does, and
/// gives a summary. The handlers of the first four threads are told the thresholds that were passed.
pub fn soak<R: Threads + Sync>(
    rt: &R,
    alloc: Global,
    words: &SoakWords,
    handlers: &mut Vec<Box<dyn Handler + Send>>,
) -> ToolResult
    requires handlers { vec_len handlers.old ≡ THREADS }
    ensures len { vec_len handlers.new ≡ THREADS }
    ensures tells { (held : Option Held) (before after : ℕ) → ToolTells held before after result
        (λ _. soak_verdict words.now) ⊥
        (map (λ b. notes b) handlers.old.items) (map (λ b. notes b) handlers.new.items) }
    ensures cause { (before after : FilesSeen) → StopsByFile result before after }
{
    let run = make_run(alloc, words.rounds.get())?;
    let SoakRun {
        catalog,
        script,
        mut readers,
    } = run;
    let ran = run_script(
        rt,
        alloc,
        &script,
        &catalog,
        &mut readers,
        handlers,
        words.workers.get(),
    )?;
    said_of(alloc, &ran, handlers)
}
