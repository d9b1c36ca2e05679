//! The jobs of the threads.
ghost use Rattle.std.specs.Prelude.{◌≡◌, ◌<◌, ◌≤◌, All, length, map, vec_len, vec_capacity};
ghost use Rattle.event_sets.specs.AtRest.{Widths};
ghost use Rattle.thread_registry.specs.JobView.{CanWork};
ghost use Rattle.thread_session.specs.SessionView.{IsFresh};
ghost use Rattle.thread_registry.specs.Jobs.{Left, befores_of};
ghost use Rattle.thread_registry.specs.Works.{AreWorks};

use crate::runner::lending::{put_back, take_out};
use crate::runner::works::Work;
use crate::{Job, work_all};
use overflow_dispatch::Handler;
use papi_base::Source;
use postfix_rules::PresetBook;
use reply_lists::Replies;
use std::marker::{Send, Sync};
use std::thread::Threads;
use stream_reader::StreamReader;

/// Works a job for each thread, and puts the handlers and the readers back at their places. Says whether memory was refused in
/// some job.
pub fn run_jobs<R: Threads + Sync, S: Source + Send>(
    rt: &R,
    book: &PresetBook,
    workers: u32,
    mut works: Vec<Work>,
    handlers: &mut Vec<Box<dyn Handler + Send>>,
    readers: &mut Vec<StreamReader<S>>,
    mut jobs: Vec<Job<S>>,
    replies: &mut Vec<Replies>,
) -> bool
    requires shaped { (shape : Widths) × AreWorks shape works.items
        × All (λ x. 0 < length x.calls → CanWork book.now x.session x.calls) (befores_of shape
        readers.old.items (map (λ b. notes b) handlers.old.items) works.items) }
    requires works { vec_len works ≡ vec_len handlers.old }
    requires readers { vec_len readers.old ≡ vec_len handlers.old }
    requires fresh { All IsFresh readers.old.items }
    requires no_jobs { vec_len jobs ≡ 0 }
    requires no_replies { vec_len replies.old ≡ 0 }
    requires room { vec_len handlers.old ≤ vec_capacity jobs }
    requires reply_room { vec_len handlers.old ≤ vec_capacity replies.old }
    requires low { 1 ≤ workers }
    ensures len { vec_len handlers.new ≡ vec_len handlers.old }
    ensures readers_len { vec_len readers.new ≡ vec_len handlers.old }
    ensures replies_len { vec_len replies.new ≡ vec_len handlers.old }
    ensures left { (shape : Widths) → AreWorks shape works.items
        → Left book.now result (befores_of shape
        readers.old.items (map (λ b. notes b) handlers.old.items) works.items)
        (map (λ b. notes b) handlers.new.items) readers.new.items replies.new.items }
{
    take_out(&mut works, handlers, readers, &mut jobs);
    work_all(rt, &mut jobs, book, workers);
    put_back(&mut jobs, handlers, readers, replies)
}
