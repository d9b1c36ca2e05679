//! `papi_profil`: counts where in a program the thresholds of an event were passed.
ghost use Rattle.std.specs.Prelude.{◌≡◌, ◌≤◌, ◌<◌, ◌+◌, ◌^◌, ◌∷◌, ◌++◌, IfOk};
ghost use Rattle.std.specs.Prelude.{OnOk, ℕ, [], List, drop, length, map, slice_index_or, vec_len};
ghost use Rattle.profil_hist.specs.Histograms.{IsHistogram};
ghost use Rattle.papi_tools.specs.Openings.{Answers};
ghost use Rattle.papi_tools.specs.Looking.{FilesSeen, LookedBy, StaysHeld, StopsByFile};
ghost use Rattle.papi_tools.specs.Profiling.{counted_in, is_counted, profil_verdict, profile_said};
ghost use Rattle.papi_tools.specs.Verdict.{ToolTells};

use crate::contents::read_file;
use crate::input::{Input, open_input};
use crate::limits::TABLE_BYTES;
use crate::marks::marked;
use crate::script_run::{RanScript, run_and_close};
use crate::tables::read_catalog;
use crate::{Output, ToolResult};
use overflow_dispatch::{Handler, Note, count_of, note_of};
use papi_base::{Bytes, Files, THREADS};
use profil_hist::{Hist, Map, profile_text};
use script_lines::Script;
use std::alloc::{AllocError, Global};
use std::marker::{Send, Sync};
use std::thread::Threads;
use tool_words::ProfilWords;

// ---- the notes of an event

// More notes than a histogram counts, which no memory holds.
const TOO_MANY: u64 = 1 << 63;

// Whether a note is of the event of this index in this set.
fn is_counted(note: &Note, set: u32, index: u32) -> bool
    ensures { result ≡ is_counted set index note.now }
{
    note.set == set && note.index == index
}

// Counts a note, if it is of the event.
fn add_note(hist: &mut Hist, note: &Note, set: u32, index: u32)
    requires { hist.old.total < 2 ^ 63 }
    ensures map { hist.new.map ≡ hist.old.map }
    ensures total { hist.new.total ≤ hist.old.total + 1 }
    ensures counts { (pcs : List ℕ) → IsHistogram hist.old pcs
        → IsHistogram hist.new (pcs ++ counted_in set index (note.now ∷ [])) }
{
    if is_counted(note, set, index) {
        hist.add(note.pc);
    }
}

// Counts the notes of an event that the handler has after its first n.
fn add_notes(
    hist: &mut Hist,
    handler: &Box<dyn Handler + Send>,
    from: u64,
    set: u32,
    index: u32,
) -> Result<(), AllocError>
    requires empty { IsHistogram hist.old [] }
    ensures map { hist.new.map ≡ hist.old.map }
    ensures counts { OnOk result
        (IsHistogram hist.new (counted_in set index (drop from (notes handler.now)))) }
{
    let after = count_of(handler);
    if after.saturating_sub(from) >= TOO_MANY {
        return Err(AllocError);
    }
    for i in from..after {
        if let Some(note) = note_of(handler, i) {
            add_note(hist, &note, set, index);
        }
    }
    Ok(())
}

// The histogram of the asked event, out of the notes that the handler of the asked thread has after its first n.
fn hist_of(
    alloc: Global,
    ranges: Map,
    words: &ProfilWords,
    noted: &[u64],
    handlers: &Vec<Box<dyn Handler + Send>>,
) -> Result<Hist, AllocError>
    requires { length noted.now ≡ vec_len handlers.now }
    ensures map { IfOk result (λ hist. hist.map ≡ ranges) }
    ensures counts { IfOk result (λ hist. IsHistogram hist (counted_in words.now.set words.now.index
        (drop (slice_index_or noted.now words.now.thread 0)
        (slice_index_or (map (λ b. notes b) handlers.now.items) words.now.thread [])))) }
{
    let mut hist = Hist::new(alloc, ranges)?;
    let thread = words.thread as usize;
    if thread < handlers.len() {
        add_notes(
            &mut hist,
            &handlers[thread],
            noted[thread],
            words.set,
            words.index,
        )?;
    }
    Ok(hist)
}

// What is said of a run.
fn said_of(
    alloc: Global,
    ranges: Map,
    ran: &RanScript,
    words: &ProfilWords,
    handlers: &Vec<Box<dyn Handler + Send>>,
) -> ToolResult
    requires { vec_len ran.now.noted ≡ vec_len handlers.now }
    ensures said { Answers result
        (Ok (profile_said ranges ran.now.marks (counted_in words.now.set words.now.index
        (drop (slice_index_or ran.now.noted.items words.now.thread 0)
        (slice_index_or (map (λ b. notes b) handlers.now.items) words.now.thread []))))) }
    ensures cause { (before after : FilesSeen) → StopsByFile result before after }
{
    let hist = hist_of(alloc, ranges, words, ran.noted.as_slice(), handlers)?;
    let text = profile_text(alloc, &hist)?;
    let out = Output::text(Bytes::new(text.into_bytes()));
    Ok(marked(alloc, &ran.marks, out)?)
}

// ---- the tool

/// `papi_profil`: reads the unit, the presets, the map and the script, opens the streams, carries out the script as `papi_run` does,
/// and gives the histogram of the program counters at which a threshold of the asked event was passed. The handlers, one a
/// thread, are told the thresholds that were passed.
pub fn profile<R: Threads + Sync, F: Files>(
    rt: &R,
    alloc: Global,
    files: &mut F,
    words: &ProfilWords,
    handlers: &mut Vec<Box<dyn Handler + Send>>,
) -> ToolResult
    requires handlers { vec_len handlers.old ≡ THREADS }
    ensures len { vec_len handlers.new ≡ THREADS }
    ensures tells { ToolTells (F.held files.old) (F.faults files.old) (F.faults files.new) result
        (λ openings. profil_verdict openings words.now) ⊥
        (map (λ b. notes b) handlers.old.items) (map (λ b. notes b) handlers.new.items) }
    ensures looked { LookedBy F.held F.misses F.faults F.lent result 0 files.old files.new }
    ensures held { StaysHeld (F.held files.old) (F.held files.new) }
{
    let catalog = read_catalog(alloc, files, &words.unit, words.presets.as_ref())?;
    let map: Map = read_file(alloc, files, words.map.as_str(), TABLE_BYTES)?;
    let input = open_input::<Script, F>(alloc, files, &words.script, words.streams.as_slice())?;
    let Input { script, readers } = input;
    let ran = run_and_close(
        rt,
        alloc,
        files,
        &script,
        &catalog,
        readers,
        handlers,
        words.workers.get(),
    )?;
    said_of(alloc, map, &ran, words, handlers)
}
