//! The calls of each thread.
ghost use Rattle.std.specs.Prelude.{◌≡◌, ◌<◌, ◌++◌, ℕ, [], IfOk, OnOk, length, map, vec_len, slice_index_or};
ghost use Rattle.thread_registry.specs.Plans.{AreThreads, calls_in, planned_at, planned_calls};

use crate::runner::plan::{PlanLine, Planned};
use papi_base::THREADS;
use session_model::Call;
use std::alloc::{AllocError, Global};

/// How many calls on its thread's session a line makes, 0 or 1.
fn calls_in(planned: &Planned) -> usize
    ensures { result ≡ length (calls_in planned.now) }
{
    match planned {
        Planned::Call(_) => 1,
        Planned::CodeOf(_) | Planned::NameOf(_) | Planned::Threads => 0,
    }
}

/// How many calls each thread makes.
fn count_calls(plan: &[PlanLine]) -> [usize; THREADS as usize]
    requires threads { AreThreads plan.now }
    ensures each { (t : ℕ) → t < THREADS
        → slice_index_or result t 0 ≡ length (planned_at t plan.now) }
{
    let mut counts = [0; THREADS as usize];
    for line in plan {
        counts[line.thread as usize] += calls_in(&line.planned);
    }
    counts
}

/// A list without calls for each thread, with the memory for n calls.
fn empty_lists(
    alloc: Global,
    counts: &[usize; THREADS as usize],
) -> Result<Vec<Vec<Call>>, AllocError>
    ensures len { IfOk result (λ v. vec_len v ≡ THREADS) }
    ensures each { IfOk result
        (λ v. (t : ℕ) → t < THREADS → slice_index_or (map (λ c. c.items) v.items) t [] ≡ []) }
{
    let mut lists = Vec::with_capacity(alloc, THREADS as usize)?;
    for thread in 0..THREADS as usize {
        let list = Vec::with_capacity(alloc, counts[thread])?;
        lists.push_reserved(list);
    }
    Ok(lists)
}

/// Adds a line's call to the list of its thread.
fn deal_line(lists: &mut Vec<Vec<Call>>, line: &PlanLine) -> Result<(), AllocError>
    requires thread { line.now.thread < vec_len lists.old }
    ensures len { vec_len lists.new ≡ vec_len lists.old }
    ensures each { (t : ℕ) → OnOk result (slice_index_or (map (λ c. c.items) lists.new.items) t []
        ≡ slice_index_or (map (λ c. c.items) lists.old.items) t [] ++ planned_calls t line.now) }
{
    if let Planned::Call(call) = line.planned {
        let list = &mut lists[line.thread as usize];
        list.push(call)?;
    }
    Ok(())
}

/// The calls of each thread, in order.
pub fn deal(alloc: Global, plan: &[PlanLine]) -> Result<Vec<Vec<Call>>, AllocError>
    requires threads { AreThreads plan.now }
    ensures len { IfOk result (λ v. vec_len v ≡ THREADS) }
    ensures each { IfOk result
        (λ v. (t : ℕ) → t < THREADS → slice_index_or (map (λ c. c.items) v.items) t []
        ≡ planned_at t plan.now) }
{
    let counts = count_calls(plan);
    let mut lists = empty_lists(alloc, &counts)?;
    for line in plan {
        deal_line(&mut lists, line)?;
    }
    Ok(lists)
}
