//! All jobs, worked by several workers.
ghost use Rattle.std.specs.Prelude.{ℕ, ◌≤◌};
ghost use Rattle.thread_registry.specs.Each.{Each, AtEach};
ghost use Rattle.thread_registry.specs.JobView.{WorkedOrIdle};
ghost use Rattle.thread_registry.specs.OpenedJobs.{CanBeWorked, seen};

use crate::job::Job;
use crate::tasks::work_tasks;
use papi_base::Source;
use postfix_rules::PresetBook;
use std::marker::{Send, Sync};
use std::thread::Threads;

/// Makes the calls of all jobs, by at most this many workers. Each job's replies are those of its calls in order, whatever the
/// number of workers. A job without calls keeps no worker.
pub fn work_all<R: Threads + Sync, S: Source + Send>(
    rt: &R,
    jobs: &mut Vec<Job<S>>,
    book: &PresetBook,
    workers: u32,
)
    requires low { 1 ≤ workers }
    requires ready { AtEach (λ j. CanBeWorked book.now j.session j.calls.items) jobs.old.items }
    ensures worked { Each (λ x y.
        WorkedOrIdle book.now (seen (notes x.handler) x) (seen (notes y.handler) y))
        jobs.old.items jobs.new.items }
{
    work_tasks(rt, book, jobs, workers);
}
