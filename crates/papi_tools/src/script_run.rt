//! The run of a script, whoever asks for it: over streams that are open, told to the threads' handlers.
ghost use Rattle.std.specs.Prelude.{◌≡◌, ◌≤◌, ◌-◌, All, Any, IfOk, map, vec_len};
ghost use Rattle.overflow_dispatch.specs.Notes.{EachGrown};
ghost use Rattle.papi_base.specs.Outside.{Rose};
ghost use Rattle.thread_registry.specs.Marks.{marks_in};
ghost use Rattle.thread_session.specs.Faults.{IsFaultReply};
ghost use Rattle.thread_session.specs.SessionView.{IsFresh};
ghost use Rattle.papi_tools.specs.Running.{CanBeGivenRun, GivenRun, IsGivenRun, IsRun, note_counts};
ghost use Rattle.papi_tools.specs.Streams.{SomeFailed, sources_in};

use crate::streams::close_readers;
use component_table::{Catalog, NativeCodes};
use overflow_dispatch::{Handler, counts_of};
use papi_base::{Files, Source, THREADS};
use script_lines::Script;
use script_runner::resolve;
use session_model::Ended;
use std::alloc::{AllocError, Global};
use std::marker::{Send, Sync};
use std::thread::Threads;
use stream_reader::StreamReader;
use thread_registry::{ReplyLines, RunResult, run_plan};

/// What a run gives: the replies in the order of the script, the mark that each thread's runs met, and how many notes each
/// handler had before.
#[derive(Drop)]
pub struct RanScript {
    pub lines: ReplyLines,
    pub marks: [Option<Ended>; THREADS as usize],
    pub noted: Vec<u64>,
}

/// Runs a script: each thread's calls on a session of its own, over the thread's reader, told to the thread's handler, by at
/// most this many workers.
///
/// The readers and the handlers are back at their places on every outcome. An `Err` says that memory ran out; then each
/// handler has a prefix of its notes.
pub fn run_script<R: Threads + Sync, S: Source + Send>(
    rt: &R,
    alloc: Global,
    script: &Script,
    catalog: &Catalog,
    readers: &mut Vec<StreamReader<S>>,
    handlers: &mut Vec<Box<dyn Handler + Send>>,
    workers: u32,
) -> Result<RanScript, AllocError>
    requires readers { vec_len readers.old ≡ THREADS }
    requires fresh { All IsFresh readers.old.items }
    requires handlers { vec_len handlers.old ≡ THREADS }
    requires workers { 1 ≤ workers }
    ensures len { vec_len handlers.new ≡ THREADS }
    ensures marks { IfOk result (λ ran. ran.marks ≡ marks_in ran.lines) }
    ensures noted { IfOk result
        (λ ran. ran.noted.items ≡ note_counts (map (λ b. notes b) handlers.old.items)) }
    ensures told { (given : GivenRun) → IsGivenRun catalog.now script.now readers.old.items given
        → IsRun result given (map (λ b. notes b) handlers.old.items)
        (map (λ b. notes b) handlers.new.items) }

    // Told or not, there are streams that can come of the readers, of which these are the replies and the notes.
    ensures possible { (given : GivenRun)
        × CanBeGivenRun catalog.now script.now readers.old.items given
        × IsRun result given (map (λ b. notes b) handlers.old.items)
        (map (λ b. notes b) handlers.new.items) }

    // The lists of notes have grown, the sources are those of before, and a reply of a fault shows one of a source.
    ensures grown { EachGrown (map (λ b. notes b) handlers.old.items)
        (map (λ b. notes b) handlers.new.items) }
    ensures sources { sources_in readers.new.items ≡ sources_in readers.old.items }
    ensures faulty { IfOk result
        (λ ran. Any (λ l. IsFaultReply l.reply) ran.lines → SomeFailed readers.new.items) }
{
    let noted = counts_of(alloc, handlers)?;
    let mut codes = NativeCodes::new(alloc);
    let plan = resolve(alloc, script, catalog, &mut codes)?;
    let shape = catalog.shape();
    let RunResult { lines, marks } = run_plan(
        rt,
        alloc,
        plan,
        catalog.book(),
        &shape,
        readers,
        handlers,
        workers,
    )?;
    Ok(RanScript {
        lines,
        marks,
        noted,
    })
}

/// The same over the sources of files, which are closed then.
pub fn run_and_close<R: Threads + Sync, F: Files>(
    rt: &R,
    alloc: Global,
    files: &mut F,
    script: &Script,
    catalog: &Catalog,
    readers: Vec<StreamReader<F::S>>,
    handlers: &mut Vec<Box<dyn Handler + Send>>,
    workers: u32,
) -> Result<RanScript, AllocError>
    requires readers { vec_len readers ≡ THREADS }
    requires fresh { All IsFresh readers.items }
    requires handlers { vec_len handlers.old ≡ THREADS }
    requires workers { 1 ≤ workers }
    ensures len { vec_len handlers.new ≡ THREADS }
    ensures marks { IfOk result (λ ran. ran.marks ≡ marks_in ran.lines) }
    ensures noted { IfOk result
        (λ ran. ran.noted.items ≡ note_counts (map (λ b. notes b) handlers.old.items)) }
    ensures possible { (given : GivenRun) × CanBeGivenRun catalog.now script.now readers.items given
        × IsRun result given (map (λ b. notes b) handlers.old.items)
        (map (λ b. notes b) handlers.new.items) }
    ensures grown { EachGrown (map (λ b. notes b) handlers.old.items)
        (map (λ b. notes b) handlers.new.items) }
    ensures faulty { IfOk result (λ ran. Any (λ l. IsFaultReply l.reply) ran.lines
        → Rose (F.faults files.old) (F.faults files.new)) }
    ensures lent { F.lent files.new ≡ F.lent files.old - sources_in readers.items }
    ensures held { F.held files.new ≡ F.held files.old }
    ensures misses_stay { F.misses files.old ≤ F.misses files.new }
    ensures faults_stay { F.faults files.old ≤ F.faults files.new }
{
    let mut readers = readers;
    let answer = run_script(rt, alloc, script, catalog, &mut readers, handlers, workers);
    close_readers(files, readers);
    answer
}
