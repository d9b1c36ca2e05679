//! Where a row of tasks is cut in two, for two groups of workers.
ghost use Rattle.std.specs.Prelude.{ℕ, ◌≡◌, ◌<◌, ◌≤◌, ◌*◌, length, take};
ghost use Rattle.std.specs.List.{sum_by};
ghost use Rattle.thread_registry.specs.Cut.{IsMostEven, busy};

use crate::tasks::Task;

/// How much work the tasks ask for together.
fn total_load<B, T: Task<B>>(tasks: &[T]) -> u128
    ensures sum { result ≡ sum_by T.load tasks.now }
    ensures small { result ≤ length tasks.now * 0xFFFF_FFFF }
{
    let mut total = 0;
    for task in tasks {
        total += u128::from(task.load());
    }
    total
}

/// How many of the tasks ask for any work.
pub fn count_busy<B, T: Task<B>>(tasks: &[T]) -> usize
    ensures count { result ≡ busy T.load tasks.now }
    ensures few { result ≤ length tasks.now }
{
    let mut count = 0;
    for task in tasks {
        count += task.load().min(1) as usize;
    }
    count
}

/// The least number of the first tasks among which n ask for work.
fn first_with<B, T: Task<B>>(tasks: &[T], wanted: usize) -> usize
    requires enough { wanted ≤ busy T.load tasks.now }
    ensures within { result ≤ length tasks.now }
    ensures so_many { busy T.load (take result tasks.now) ≡ wanted }
    ensures least { (j : ℕ) → j < result → busy T.load (take j tasks.now) < wanted }
{
    let mut count = 0;
    for place in 0..tasks.len() {
        if count == wanted {
            return place;
        }
        count += tasks[place].load().min(1) as usize;
    }
    tasks.len()
}

/// How many of the tasks the first `low` of the workers are to have: the cut is as even as one can be that gives each worker a task
/// that asks for work.
pub fn cut<B, T: Task<B>>(tasks: &[T], low: u32, workers: u32) -> usize
    requires part { low ≤ workers }
    requires enough { workers ≤ busy T.load tasks.now }
    ensures { IsMostEven T.load tasks.now low workers result }
{
    let share = u128::from(low) * total_load(tasks);
    let most = count_busy(tasks) - (workers - low) as usize;
    let mut count = low as usize;
    let mut best = first_with(tasks, count);
    let mut front = total_load(&tasks[..best]);
    let mut least = (u128::from(workers) * front).abs_diff(share);
    for place in best..tasks.len() {
        let load = tasks[place].load();
        count += load.min(1) as usize;
        front += u128::from(load);
        let uneven = (u128::from(workers) * front).abs_diff(share);
        if count <= most && uneven < least {
            best = place + 1;
            least = uneven;
        }
    }
    best
}
