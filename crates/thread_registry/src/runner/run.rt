//! Runs a plan.
ghost use Rattle.std.specs.Prelude.{false, ◌≡◌, ◌<◌, ◌≤◌, ℕ, [], List, None, All, IfOk, OnOk, length, map, replicate, slice_index_or, vec_len, vec_capacity};
ghost use Rattle.std.specs.Result.{is_err};
ghost use Rattle.overflow_dispatch.specs.Notes.{EachAdded, EachBegun, EachGrown};
ghost use Rattle.papi_base.specs.Streams.{Coming};
ghost use Rattle.postfix_rules.specs.Fitting.{BookFits};
ghost use Rattle.event_sets.specs.AtRest.{Widths};
ghost use Rattle.session_model.specs.declared.line.Line.{Line};
ghost use Rattle.session_model.specs.World.{Setting};
ghost use Rattle.session_model.specs.declared.reply.Reply.{Reply};
ghost use Rattle.thread_session.specs.SessionView.{IsFresh};
ghost use Rattle.thread_session.specs.Faults.{FaultsRose, IsFaultReply, fault_count};
ghost use Rattle.thread_registry.specs.Marks.{marks_in};
ghost use Rattle.thread_registry.specs.Merges.{lines_by};
ghost use Rattle.thread_registry.specs.Plans.{AreGood, AreThreads};
ghost use Rattle.thread_registry.specs.Runs.{AllKept, AreInOrder, CanEachCome, IdleStay, IsPlannedAndTold, IsPlannedFrom, notes_by_thread, reply_lines, world_told};
ghost use Rattle.thread_registry.specs.Served.{AreServed};
ghost use Rattle.thread_registry.specs.Works.{AreDealt, AreWorks};

use crate::Job;
use crate::runner::deal::deal;
use crate::runner::jobs::run_jobs;
use crate::runner::lines::{AnsweredLine, ReplyLines};
use crate::runner::marks::marks_of;
use crate::runner::merge::merge;
use crate::runner::plan::{Plan, PlanLine};
use crate::runner::result::RunResult;
use crate::runner::works::{Work, open_works};
use overflow_dispatch::Handler;
use papi_base::{Shape, Source, THREADS};
use postfix_rules::PresetBook;
use reply_lists::Replies;
use std::alloc::{AllocError, Global};
use std::marker::{Send, Sync};
use std::thread::Threads;
use stream_reader::StreamReader;

/// All that a run takes memory for, before the first handler is lent.
struct Prepared<S: Source> {
    works: Vec<Work>,
    jobs: Vec<Job<S>>,
    replies: Vec<Replies>,
    lines: Vec<AnsweredLine>,
}

/// Opens the work of each thread.
fn open_planned(alloc: Global, plan: &[PlanLine], shape: &Shape) -> Result<Vec<Work>, AllocError>
    requires threads { AreThreads plan.now }
    ensures len { IfOk result (λ works. vec_len works ≡ THREADS) }
    ensures works { IfOk result (λ works. AreWorks shape.now works.items) }
    ensures dealt { IfOk result (λ works. AreDealt plan.now works.items) }
{
    let lists = deal(alloc, plan)?;
    open_works(alloc, shape, lists)
}

/// Takes the memory, and opens the work of each thread.
fn prepare<S: Source>(
    alloc: Global,
    plan: &[PlanLine],
    shape: &Shape,
) -> Result<Prepared<S>, AllocError>
    requires threads { AreThreads plan.now }
    ensures len { IfOk result (λ p. vec_len p.works ≡ THREADS) }
    ensures no_jobs { IfOk result (λ p. vec_len p.jobs ≡ 0) }
    ensures no_replies { IfOk result (λ p. vec_len p.replies ≡ 0) }
    ensures no_lines { IfOk result (λ p. vec_len p.lines ≡ 0) }
    ensures room { IfOk result (λ p. THREADS ≤ vec_capacity p.jobs) }
    ensures reply_room { IfOk result (λ p. THREADS ≤ vec_capacity p.replies) }
    ensures line_room { IfOk result (λ p. length plan.now ≤ vec_capacity p.lines) }
    ensures works { IfOk result (λ p. AreWorks shape.now p.works.items) }
    ensures dealt { IfOk result (λ p. AreDealt plan.now p.works.items) }
{
    let jobs = Vec::with_capacity(alloc, THREADS as usize)?;
    let replies = Vec::with_capacity(alloc, THREADS as usize)?;
    let lines = Vec::with_capacity(alloc, plan.len())?;
    let works = open_planned(alloc, plan, shape)?;
    Ok(Prepared {
        works,
        jobs,
        replies,
        lines,
    })
}

/// Runs what was prepared.
fn run_prepared<R: Threads + Sync, S: Source + Send>(
    rt: &R,
    plan: &[PlanLine],
    book: &PresetBook,
    workers: u32,
    prepared: Prepared<S>,
    readers: &mut Vec<StreamReader<S>>,
    handlers: &mut Vec<Box<dyn Handler + Send>>,
) -> Result<RunResult, AllocError>
    requires threads { AreThreads plan.now }
    requires handlers { vec_len handlers.old ≡ THREADS }
    requires readers { vec_len readers.old ≡ THREADS }
    requires fresh { All IsFresh readers.old.items }
    requires len { vec_len prepared.works ≡ THREADS }
    requires no_jobs { vec_len prepared.jobs ≡ 0 }
    requires no_replies { vec_len prepared.replies ≡ 0 }
    requires no_lines { vec_len prepared.lines ≡ 0 }
    requires room { THREADS ≤ vec_capacity prepared.jobs }
    requires reply_room { THREADS ≤ vec_capacity prepared.replies }
    requires line_room { length plan.now ≤ vec_capacity prepared.lines }
    requires low { 1 ≤ workers }
    requires works { (shape : Widths) × AreWorks shape prepared.works.items
        × BookFits shape book.now × AreGood book.now shape plan.now }
    requires dealt { AreDealt plan.now prepared.works.items }
    ensures len { vec_len handlers.new ≡ THREADS }
    ensures readers_len { vec_len readers.new ≡ THREADS }
    ensures served { (shape : Widths) → AreWorks shape prepared.works.items
        → BookFits shape book.now → (replies : List (List Reply))
        × AreServed book.now shape (is_err result) plan.now readers.old.items readers.new.items
        (map (λ b. notes b) handlers.old.items) (map (λ b. notes b) handlers.new.items) replies
        × IfOk result (λ run. run.lines
        ≡ lines_by (record { flags = replicate THREADS false; replies = replies }) plan.now) }
    ensures marks { IfOk result (λ run. run.marks ≡ marks_in run.lines) }
{
    let Prepared {
        works,
        jobs,
        mut replies,
        mut lines,
    } = prepared;
    if run_jobs(
        rt,
        book,
        workers,
        works,
        handlers,
        readers,
        jobs,
        &mut replies,
    ) {
        return Err(AllocError);
    }
    merge(plan, replies.as_slice(), &mut lines);
    let answered = ReplyLines::new(lines, replies);
    let marks = marks_of(&answered);
    Ok(RunResult {
        lines: answered,
        marks,
    })
}

/// Runs the plan: the calls of each thread on a session of its own, over the thread's reader, told to the thread's
/// handler, by at most this many workers, 1 or more.
///
/// The readers and the handlers are back at their places on every outcome, and those of a thread without calls are left alone.
/// An `Err` says that the run is out of memory; then each handler has some of the first of its notes.
pub fn run_plan<R: Threads + Sync, S: Source + Send>(
    rt: &R,
    alloc: Global,
    plan: Plan,
    book: &PresetBook,
    shape: &Shape,
    readers: &mut Vec<StreamReader<S>>,
    handlers: &mut Vec<Box<dyn Handler + Send>>,
    workers: u32,
) -> Result<RunResult, AllocError>
    requires readers { vec_len readers.old ≡ THREADS }
    requires fresh { All IsFresh readers.old.items }
    requires handlers { vec_len handlers.old ≡ THREADS }
    requires low { 1 ≤ workers }
    requires fits { BookFits shape.now book.now }
    requires good { AreGood book.now shape.now plan }
    ensures len { vec_len handlers.new ≡ THREADS }
    ensures readers_len { vec_len readers.new ≡ THREADS }
    ensures replies { (at : Setting) (script : List Line) (streams : List Coming)
        → IsPlannedAndTold at script streams book.now shape.now plan readers.old.items
        → IfOk result (λ run. run.lines ≡ reply_lines plan (world_told at script streams)) }
    ensures notes { (at : Setting) (script : List Line) (streams : List Coming)
        → IsPlannedAndTold at script streams book.now shape.now plan readers.old.items
        → OnOk result (EachAdded (map (λ b. notes b) handlers.old.items)
        (notes_by_thread (world_told at script streams))
        (map (λ b. notes b) handlers.new.items)) }
    ensures begun { (at : Setting) (script : List Line) (streams : List Coming)
        → IsPlannedAndTold at script streams book.now shape.now plan readers.old.items
        → EachBegun (map (λ b. notes b) handlers.old.items)
        (notes_by_thread (world_told at script streams)) (map (λ b. notes b) handlers.new.items) }

    // Told or not.
    ensures possible { (streams : List Coming) × CanEachCome readers.old.items streams
        × ((at : Setting) (script : List Line) → IsPlannedFrom at script book.now shape.now plan
        → IfOk result (λ run. run.lines ≡ reply_lines plan (world_told at script streams))
        × OnOk result (EachAdded (map (λ b. notes b) handlers.old.items)
        (notes_by_thread (world_told at script streams)) (map (λ b. notes b) handlers.new.items))
        × EachBegun (map (λ b. notes b) handlers.old.items)
        (notes_by_thread (world_told at script streams)) (map (λ b. notes b) handlers.new.items)) }
    ensures grown { EachGrown (map (λ b. notes b) handlers.old.items)
        (map (λ b. notes b) handlers.new.items) }
    ensures idle { IdleStay plan readers.old.items readers.new.items
        (map (λ b. notes b) handlers.old.items) (map (λ b. notes b) handlers.new.items) }
    ensures order { IfOk result (λ run. AreInOrder plan run.lines) }
    ensures marks { IfOk result (λ run. run.marks ≡ marks_in run.lines) }
    ensures readers { AllKept (map (λ r. fault_count r) readers.old.items)
        (map (λ r. fault_count r) readers.new.items) }
    ensures faulty { IfOk result (λ run. All (λ l. IsFaultReply l.reply
        → FaultsRose (slice_index_or (map (λ r. fault_count r) readers.old.items) l.thread None)
        (slice_index_or (map (λ r. fault_count r) readers.new.items) l.thread None))
        run.lines) }
{
    let prepared = prepare(alloc, plan.lines(), shape)?;
    run_prepared(rt, plan.lines(), book, workers, prepared, readers, handlers)
}
