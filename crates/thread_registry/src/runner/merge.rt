//! The replies of the threads, in the order of the plan.
ghost use Rattle.std.specs.Prelude.{false, ◌≡◌, ◌<◌, ◌≤◌, ℕ, List, [], drop, length, map, replicate, slice_index_or, slice_set, vec_len, vec_capacity};
ghost use Rattle.session_model.specs.Worlds.{registered_after};
ghost use Rattle.session_model.specs.declared.reply.Reply.{Reply};
ghost use Rattle.thread_registry.specs.Answers.{AllAnswered, IsAnsweredBy, IsListOf, answer_of, line_of};
ghost use Rattle.thread_registry.specs.Plans.{AreThreads, calls_in, planned_at};
ghost use Rattle.thread_registry.specs.Merges.{flags_by, lines_by, reply_by, rest_by};

use crate::Registry;
use crate::runner::lines::{Answer, AnsweredLine};
use crate::runner::plan::{PlanLine, Planned};
use papi_base::{Code, THREADS};
use reply_lists::Replies;
use session_model::Call;

/// Keeps which threads are registered, after a call to which this code was replied.
fn keep_registered(registry: &mut Registry, thread: u32, call: &Call, code: Code)
    requires thread { thread < THREADS }
    ensures registered { registry.new
        ≡ slice_set registry.old thread
        (registered_after call.now code (slice_index_or registry.old thread false)) }
{
    match *call {
        Call::Register => registry.set(thread, true),
        Call::Unregister if code == Code::Ok => registry.set(thread, false),
        _ => {}
    }
}

/// What a line is answered with. So many of the replies of its thread were taken.
fn answer_next(line: &PlanLine, replies: &Replies, taken: usize, registry: &mut Registry) -> Answer
    requires thread { line.now.thread < THREADS }
    requires replied { length (calls_in line.now.planned) ≤ length (drop taken replies.now) }
    ensures answered { (lists : List (List Reply)) → IsListOf lists line.now.thread replies.now
        → IsAnsweredBy lists line.now.thread result }
    ensures reply { (lists : List (List Reply)) → IsListOf lists line.now.thread replies.now
        → answer_of lists line.now.thread result
        ≡ reply_by registry.old (drop taken replies.now) line.now.planned }
    ensures registered { registry.new ≡ flags_by registry.old (drop taken replies.now)
        line.now.thread line.now.planned }
{
    match line.planned {
        Planned::Call(call) => {
            keep_registered(registry, line.thread, &call, replies.code_at(taken));
            Answer::Made(taken)
        }
        Planned::CodeOf(event) => Answer::CodeOf(event),
        Planned::NameOf(event) => Answer::NameOf(event),
        Planned::Threads => Answer::Threads(registry.listed()),
    }
}

/// How many of the replies of its thread are taken after a line, if so many were before.
fn taken_after(planned: &Planned, replies: &Replies, taken: usize) -> usize
    requires replied { length (calls_in planned.now) ≤ length (drop taken replies.now) }
    ensures rest { drop result replies.now ≡ rest_by (drop taken replies.now) planned.now }
{
    let _made = replies.len();
    match planned {
        Planned::Call(_) => taken + 1,
        Planned::CodeOf(_) | Planned::NameOf(_) | Planned::Threads => taken,
    }
}

/// Answers the lines in their order. Each thread has as many replies as it has calls.
pub fn merge(plan: &[PlanLine], replies: &[Replies], lines: &mut Vec<AnsweredLine>)
    requires threads { AreThreads plan.now }
    requires len { length replies.now ≡ THREADS }
    requires counts { (t : ℕ) → t < THREADS
        → length (slice_index_or replies.now t []) ≡ length (planned_at t plan.now) }
    requires none { vec_len lines.old ≡ 0 }
    requires room { length plan.now ≤ vec_capacity lines.old }
    ensures answered { AllAnswered replies.now lines.new.items }
    ensures lines { map (line_of replies.now) lines.new.items
        ≡ lines_by (record { flags = replicate THREADS false; replies = replies.now }) plan.now }
{
    let mut registry = Registry::new();
    let mut taken = [0; THREADS as usize];
    for line in plan {
        let t = line.thread as usize;
        let list = &replies[t];
        let answer = answer_next(line, list, taken[t], &mut registry);
        taken[t] = taken_after(&line.planned, list, taken[t]);
        lines.push_reserved(AnsweredLine {
            line: line.number,
            thread: line.thread,
            word: line.planned.name(),
            answer,
        });
    }
}
