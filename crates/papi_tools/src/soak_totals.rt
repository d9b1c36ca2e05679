//! What the threads of a soak counted, out of the replies and the notes of its run.
ghost use Rattle.std.specs.Prelude.{◌≡◌, IfOk, length};
ghost use Rattle.papi_tools.specs.Soaking.{stop_values, stops, totals_between, values_of};

use call_type::CallName;
use papi_base::{THREADS, Values};
use session_model::Body;
use soak_input::{SOAK_THREADS, ThreadTotal};
use std::alloc::{AllocError, Global};
use thread_registry::{ReplyLine, ReplyLines};

fn values_of(body: &Body) -> Values
    ensures { result ≡ values_of body.now }
{
    match body {
        Body::Values(values) => values.copy(),
        _ => Values::new(),
    }
}

// Whether this is the reply to a `stop` of the thread.
fn stops(line: &ReplyLine, thread: u32) -> bool
    ensures { result ≡ stops thread line.now }
{
    line.thread == thread && matches!(line.word, CallName::Stop)
}

fn stop_values(lines: &ReplyLines, thread: u32) -> Values
    ensures { result ≡ stop_values lines.now thread }
{
    for i in 0..lines.len() {
        let line = lines.at(i);
        if stops(&line, thread) {
            return values_of(&line.reply.body);
        }
    }
    Values::new()
}

/// What each thread of a soak counted, by the replies and by how many notes the handlers had before and have after.
pub fn totals_between(
    alloc: Global,
    lines: &ReplyLines,
    before: &[u64],
    after: &[u64],
) -> Result<Vec<ThreadTotal>, AllocError>
    requires before { length before.now ≡ THREADS }
    requires after { length after.now ≡ THREADS }
    ensures { IfOk result (λ totals. totals.items ≡ totals_between lines.now before.now after.now) }
{
    let mut totals = Vec::new(alloc);
    for thread in 0..SOAK_THREADS {
        let place = thread as usize;
        totals.push(ThreadTotal {
            values: stop_values(lines, thread),
            notes: after[place].saturating_sub(before[place]),
        })?;
    }
    Ok(totals)
}
