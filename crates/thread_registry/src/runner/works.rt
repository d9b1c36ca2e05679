//! What the jobs of the threads take, before the handlers and the readers are lent to them.
ghost use Rattle.std.specs.Prelude.{◌≡◌, ◌<◌, ◌≤◌, IfOk, length, map, vec_len};
ghost use Rattle.session_model.specs.Fitness.{IsShape};
ghost use Rattle.thread_registry.specs.Works.{AreWorks, IsWork, calls_of, core_for};

use papi_base::{Shape, THREADS};
use reply_lists::Replies;
use session_model::Call;
use std::alloc::{AllocError, Global};
use thread_core::Core;

/// What the job of a thread takes besides its handler and its reader: its calls, a new core if there are any, and room for their
/// replies.
#[derive(Drop)]
pub struct Work {
    pub core: Option<Core>,
    pub calls: Vec<Call>,
    pub replies: Replies,
}

/// The same shape once more.
fn copy_shape(shape: &Shape) -> Shape
    ensures same { result ≡ shape.now }
{
    let mut copy = Shape::new();
    for i in 0..shape.comps() {
        copy.push(shape.comp(i).copy());
    }
    copy
}

/// A new core for a thread that makes these calls. Without calls there is none.
fn open_core(
    alloc: Global,
    thread: u32,
    shape: &Shape,
    calls: &[Call],
) -> Result<Option<Core>, AllocError>
    ensures core { IfOk result (λ core. core ≡ core_for shape.now thread calls.now) }
    ensures shaped { IfOk result (λ _. 0 < length calls.now → IsShape shape.now) }
{
    if calls.is_empty() {
        return Ok(None);
    }
    let core = Core::new(alloc, thread, copy_shape(shape))?;
    Ok(Some(core))
}

/// The work of a thread that makes these calls. Without calls it takes no memory.
fn open_work(
    alloc: Global,
    thread: u32,
    shape: &Shape,
    calls: Vec<Call>,
) -> Result<Work, AllocError>
    ensures work { IfOk result (IsWork shape.now thread) }
    ensures calls { IfOk result (λ w. calls_of w ≡ calls.items) }
{
    let core = open_core(alloc, thread, shape, calls.as_slice())?;
    let replies = Replies::with_capacity(alloc, calls.len())?;
    Ok(Work {
        core,
        calls,
        replies,
    })
}

/// The work of each thread, in order.
pub fn open_works(
    alloc: Global,
    shape: &Shape,
    lists: Vec<Vec<Call>>,
) -> Result<Vec<Work>, AllocError>
    requires few { vec_len lists ≤ THREADS }
    ensures len { IfOk result (λ v. vec_len v ≡ vec_len lists) }
    ensures works { IfOk result (λ v. AreWorks shape.now v.items) }
    ensures calls { IfOk result (λ v. map calls_of v.items ≡ map (λ c. c.items) lists.items) }
{
    let mut works = Vec::with_capacity(alloc, lists.len())?;
    for calls in lists {
        let thread = works.len() as u32;
        let work = open_work(alloc, thread, shape, calls)?;
        works.push(work)?;
    }
    Ok(works)
}
