//! `papi_run`: carries out a script.
ghost use Rattle.std.specs.Prelude.{◌≡◌, IfOk, if◌then◌else◌, [], length, map, vec_len};
ghost use Rattle.overflow_dispatch.specs.Notes.{told_since};
ghost use Rattle.papi_tools.specs.Openings.{Answers};
ghost use Rattle.papi_tools.specs.Looking.{FilesSeen, LookedBy, StaysHeld, StopsByFile};
ghost use Rattle.papi_tools.specs.Run.{run_said, run_verdict};
ghost use Rattle.papi_tools.specs.Verdict.{ToolTells};

use crate::input::{Input, open_input};
use crate::marks::marked;
use crate::script_run::{RanScript, run_and_close};
use crate::tables::read_catalog;
use crate::{Output, ToolResult};
use component_table::Catalog;
use overflow_dispatch::{Handler, Note, notes_since};
use papi_base::{Files, THREADS};
use script_lines::Script;
use std::alloc::{AllocError, Global};
use std::marker::{Send, Sync};
use std::thread::Threads;
use tool_words::RunWords;

// The notes that each handler has after its number of `noted`, if they are wanted.
fn shown_notes(
    alloc: Global,
    wanted: bool,
    noted: &[u64],
    handlers: &Vec<Box<dyn Handler + Send>>,
) -> Result<Vec<Note>, AllocError>
    requires { length noted.now ≡ vec_len handlers.now }
    ensures { IfOk result (λ shown.
        shown.items ≡ (if wanted then told_since noted.now (map (λ b. notes b) handlers.now.items)
        else [])) }
{
    if wanted {
        notes_since(alloc, handlers, noted)
    } else {
        Ok(Vec::new(alloc))
    }
}

// What is said of a run. The notes of the run are shown if they are wanted.
fn said_of(
    alloc: Global,
    catalog: Catalog,
    ran: RanScript,
    wanted: bool,
    handlers: &Vec<Box<dyn Handler + Send>>,
) -> ToolResult
    requires { vec_len ran.noted ≡ vec_len handlers.now }
    ensures said { Answers result
        (Ok (run_said catalog ran.lines ran.marks
        (if wanted then told_since ran.noted.items (map (λ b. notes b) handlers.now.items)
        else []))) }
    ensures cause { (before after : FilesSeen) → StopsByFile result before after }
{
    let shown = shown_notes(alloc, wanted, ran.noted.as_slice(), handlers)?;
    let out = Output::replies(ran.lines, catalog, shown);
    Ok(marked(alloc, &ran.marks, out)?)
}

/// `papi_run`: reads the unit, the presets and the script, opens the streams, and carries out the script, each thread's calls on a
/// session of its own. The handlers, one a thread, are told the thresholds that were passed, and these notes follow the
/// replies if the words ask for them.
pub fn run<R: Threads + Sync, F: Files>(
    rt: &R,
    alloc: Global,
    files: &mut F,
    words: &RunWords,
    handlers: &mut Vec<Box<dyn Handler + Send>>,
) -> ToolResult
    requires handlers { vec_len handlers.old ≡ THREADS }
    ensures len { vec_len handlers.new ≡ THREADS }
    ensures tells { ToolTells (F.held files.old) (F.faults files.old) (F.faults files.new) result
        (λ openings. run_verdict openings words.now) ⊥
        (map (λ b. notes b) handlers.old.items) (map (λ b. notes b) handlers.new.items) }
    ensures looked { LookedBy F.held F.misses F.faults F.lent result 0 files.old files.new }
    ensures held { StaysHeld (F.held files.old) (F.held files.new) }
{
    let catalog = read_catalog(alloc, files, &words.unit, words.presets.as_ref())?;
    let input = open_input::<Script, F>(alloc, files, &words.script, words.streams.as_slice())?;
    let Input { script, readers } = input;
    let ran = run_and_close(
        rt,
        alloc,
        files,
        &script,
        &catalog,
        readers,
        handlers,
        words.workers.get(),
    )?;
    said_of(alloc, catalog, ran, words.notes, handlers)
}
