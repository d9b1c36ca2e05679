//! Handlers and readers are lent to the jobs of their threads, and come back to their places.
ghost use Rattle.std.specs.Prelude.{false, ℕ, ◌≡◌, ◌≤◌, All, map, reverse, vec_len, vec_capacity};
ghost use Rattle.event_sets.specs.AtRest.{Widths};
ghost use Rattle.thread_registry.specs.OpenedJobs.{IsOpenedForCalls, seen, session_of};
ghost use Rattle.thread_session.specs.SessionView.{IsFresh};
ghost use Rattle.thread_registry.specs.Jobs.{before, befores_of};
ghost use Rattle.thread_registry.specs.Works.{AreWorks, IsWork, calls_of};

use crate::runner::works::Work;
use crate::{Job, Opened};
use overflow_dispatch::Handler;
use papi_base::Source;
use reply_lists::Replies;
use std::marker::Send;
use stream_reader::StreamReader;
use thread_session::Session;

/// The job of a thread. Without calls it has the reader alone.
fn lend<S: Source>(work: Work, handler: Box<dyn Handler + Send>, reader: StreamReader<S>) -> Job<S>
    requires work { (shape : Widths) × ((t : ℕ) × IsWork shape t work) }
    requires fresh { IsFresh reader }
    ensures opened { IsOpenedForCalls result.session result.calls.items }
    ensures job { (shape : Widths) (t : ℕ) → IsWork shape t work
        → seen (notes result.handler) result
        ≡ before shape t reader (notes handler) (calls_of work) }
{
    let Work {
        core,
        calls,
        replies,
    } = work;
    let session = match core {
        Some(core) => Opened::Session(Session::over(core, reader)),
        None => Opened::Reader(reader),
    };
    Job {
        session,
        handler,
        calls,
        replies,
        starved: false,
    }
}

/// Makes the jobs of the threads from their works, handlers and readers, the last one first.
pub fn take_out<S: Source>(
    works: &mut Vec<Work>,
    handlers: &mut Vec<Box<dyn Handler + Send>>,
    readers: &mut Vec<StreamReader<S>>,
    jobs: &mut Vec<Job<S>>,
)
    requires shaped { (shape : Widths) × AreWorks shape works.old.items }
    requires works { vec_len works.old ≡ vec_len handlers.old }
    requires readers { vec_len readers.old ≡ vec_len handlers.old }
    requires fresh { All IsFresh readers.old.items }
    requires no_jobs { vec_len jobs.old ≡ 0 }
    requires room { vec_len handlers.old ≤ vec_capacity jobs.old }
    ensures empty { vec_len handlers.new ≡ 0 }
    ensures no_readers { vec_len readers.new ≡ 0 }
    ensures capacity { vec_capacity handlers.new ≡ vec_capacity handlers.old }
    ensures reader_capacity { vec_capacity readers.new ≡ vec_capacity readers.old }
    ensures len { vec_len jobs.new ≡ vec_len handlers.old }
    ensures opened { All (λ j. IsOpenedForCalls j.session j.calls.items) jobs.new.items }
    ensures jobs { (shape : Widths) → AreWorks shape works.old.items
        → map (λ j. seen (notes j.handler) j) jobs.new.items ≡ reverse (befores_of shape
        readers.old.items (map (λ b. notes b) handlers.old.items) works.old.items) }
{
    for _taken in 0..handlers.len() {
        let handler = handlers.take_last();
        let reader = readers.take_last();
        let work = works.take_last();
        jobs.push_reserved(lend(work, handler, reader));
    }
}

/// Puts the handlers and the readers of the jobs back at their places, and keeps each thread's replies. Says whether memory was
/// refused in some job.
pub fn put_back<S: Source>(
    jobs: &mut Vec<Job<S>>,
    handlers: &mut Vec<Box<dyn Handler + Send>>,
    readers: &mut Vec<StreamReader<S>>,
    replies: &mut Vec<Replies>,
) -> bool
    requires none { vec_len handlers.old ≡ 0 }
    requires no_readers { vec_len readers.old ≡ 0 }
    requires no_replies { vec_len replies.old ≡ 0 }
    requires room { vec_len jobs.old ≤ vec_capacity handlers.old }
    requires reader_room { vec_len jobs.old ≤ vec_capacity readers.old }
    requires reply_room { vec_len jobs.old ≤ vec_capacity replies.old }
    ensures len { vec_len handlers.new ≡ vec_len jobs.old }
    ensures readers_len { vec_len readers.new ≡ vec_len jobs.old }
    ensures replies_len { vec_len replies.new ≡ vec_len jobs.old }
    ensures handlers { map (λ b. notes b) handlers.new.items
        ≡ reverse (map (λ j. notes j.handler) jobs.old.items) }
    ensures readers { readers.new.items
        ≡ reverse (map (λ j. (session_of j.session).reader) jobs.old.items) }
    ensures replies { replies.new.items ≡ reverse (map (λ j. j.replies) jobs.old.items) }
    ensures whole { result ≡ false → All (λ j. j.starved ≡ false) jobs.old.items }
{
    let mut refused = false;
    for _put in 0..jobs.len() {
        let Job {
            session,
            handler,
            calls,
            replies: made,
            starved,
        } = jobs.take_last();
        let _ = calls;
        handlers.push_reserved(handler);
        readers.push_reserved(session.into_reader());
        replies.push_reserved(made);
        refused |= starved;
    }
    refused
}
