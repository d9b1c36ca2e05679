//! Tasks, worked by several workers at the same time.

ghost use Rattle.std.specs.Prelude.{ℕ, ◌≡◌, ◌≤◌};
ghost use Rattle.std.specs.Thread.{IsSync, IsSend};
ghost use Rattle.thread_registry.specs.Cut.{busy};
ghost use Rattle.thread_registry.specs.Each.{Each, AtEach};

pub mod cut;

use cut::{count_busy, cut};
use std::marker::{Send, Sync};
use std::thread::{Threads, join_mut};

/// One piece of work. `B` is what all workers look at.
pub trait Task<B> {
    /// What must hold of the book and the task before the task is worked.
    ghost ready: { B → Self → Type 0 };

    /// What holds of the book, the task before it was worked, and the task after it.
    ghost done: { B → Self → Self → Type 0 };

    /// How much work the task asks for, in a unit of its own.
    ghost load: { Self → ℕ };

    /// How much work the task asks for, in a unit of its own. The tasks are dealt by it.
    fn load(&self) -> u32
        ensures { result ≡ load self.now };

    /// Does the work.
    fn work(&mut self, book: &B)
        requires { ready book.now self.old }
        ensures { done book.now self.old self.new };
}

/// Works the tasks one after another.
fn work_in_turn<B, T: Task<B>>(book: &B, tasks: &mut [T])
    requires { AtEach (T.ready book.now) tasks.old }
    ensures { Each (T.done book.now) tasks.old tasks.new }
{
    for place in 0..tasks.len() {
        tasks[place].work(book);
    }
}

/// Works the tasks by this many workers, each with at least one that asks for work.
#[cycle(workers)]
fn work_slice<R: Threads + Sync, B: Sync, T: Task<B> + Send>(
    rt: &R,
    book: &B,
    workers: u32,
    tasks: &mut [T],
)
    requires enough { workers ≤ busy T.load tasks.old }
    requires ready { AtEach (T.ready book.now) tasks.old }
    ensures { Each (T.done book.now) tasks.old tasks.new }
{
    if workers <= 1 {
        work_in_turn(book, tasks);
        return;
    }
    let low = workers / 2;
    let middle = cut(tasks, low, workers);
    let (front, back) = tasks.split_at_mut(middle);
    work_parts(rt, book, low, front, workers - low, back);
}

/// Works the two parts at the same time.
#[cycle(workers)]
fn work_parts<R: Threads + Sync, B: Sync, T: Task<B> + Send>(
    rt: &R,
    book: &B,
    low: u32,
    front: &mut [T],
    high: u32,
    back: &mut [T],
)
    requires low { low ≤ busy T.load front.old }
    requires front { AtEach (T.ready book.now) front.old }
    requires high { high ≤ busy T.load back.old }
    requires back { AtEach (T.ready book.now) back.old }
    ensures front { Each (T.done book.now) front.old front.new }
    ensures back { Each (T.done book.now) back.old back.new }
{
    let mut first = ||
        requires { IsSync R.row × IsSync B.row × IsSend T.row × (low ≤ busy T.load front.now)
            × AtEach (T.ready book.now) front.now }
        ensures { Each (T.done book.entry.now) front.entry.now front.exit.now }
    { work_slice(rt, book, low, front) };
    let mut second = ||
        requires { IsSync R.row × IsSync B.row × IsSend T.row × (high ≤ busy T.load back.now)
            × AtEach (T.ready book.now) back.now }
        ensures { Each (T.done book.entry.now) back.entry.now back.exit.now }
    { work_slice(rt, book, high, back) };
    join_mut(rt, &mut first, &mut second);
}

/// Works all tasks by at most this many workers. Each worker has a run of neighbours, so cut that each asks for about as much work. Each has
/// a task that asks for work if there are as many of these as workers, and no more work than there are. No memory is taken.
pub fn work_tasks<R: Threads + Sync, B: Sync, T: Task<B> + Send>(
    rt: &R,
    book: &B,
    tasks: &mut Vec<T>,
    workers: u32,
)
    requires low { 1 ≤ workers }
    requires ready { AtEach (T.ready book.now) tasks.old.items }
    ensures { Each (T.done book.now) tasks.old.items tasks.new.items }
{
    let parts = (workers as usize).min(count_busy(tasks)) as u32;
    work_slice(rt, book, parts, tasks.as_mut_slice());
}
