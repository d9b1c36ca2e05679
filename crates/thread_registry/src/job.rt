//! The work of one thread.
ghost use Rattle.std.specs.Prelude.{false};
ghost use Rattle.std.specs.Result.{is_err};
ghost use Rattle.thread_registry.specs.JobView.{Worked, CanWork, WorkedOrIdle, seen_of};
ghost use Rattle.thread_registry.specs.OpenedJobs.{CanBeWorked, seen};

use crate::load::load_of;
use crate::opened::Opened;
use crate::tasks::Task;
use overflow_dispatch::Handler;
use papi_base::Source;
use postfix_rules::PresetBook;
use reply_lists::Replies;
use session_model::Call;
use std::alloc::AllocError;
use std::marker::Send;
use thread_session::Session;

/// A thread's session and handler, the calls that it is to make in order, the replies so far, and whether memory was refused.
/// A thread without calls needs no session.
#[derive(Drop)]
pub struct Job<S: Source> {
    pub session: Opened<S>,
    pub handler: Box<dyn Handler + Send>,
    pub calls: Vec<Call>,
    pub replies: Replies,
    pub starved: bool,
}

/// Makes the calls in order, until memory is refused.
fn make_calls<S: Source>(
    session: &mut Session<S>,
    book: &PresetBook,
    h: &mut dyn Handler,
    calls: &[Call],
    replies: &mut Replies,
) -> Result<(), AllocError>
    requires { CanWork book.now session.old calls.now }
    ensures { Worked book.now (seen_of session.old (notes h.old) calls.now replies.old false)
        (seen_of session.new (notes h.new) calls.now replies.new (is_err result)) }
{
    for call in calls {
        session.call_into(book, call, h, replies)?;
    }
    Ok(())
}

/// The same, told to a boxed handler.
fn make_boxed<S: Source>(
    session: &mut Session<S>,
    book: &PresetBook,
    h: &mut Box<dyn Handler + Send>,
    calls: &[Call],
    replies: &mut Replies,
) -> Result<(), AllocError>
    requires { CanWork book.now session.old calls.now }
    ensures { Worked book.now (seen_of session.old (notes h.old) calls.now replies.old false)
        (seen_of session.new (notes h.new) calls.now replies.new (is_err result)) }
{
    make_calls(session, book, &mut **h, calls, replies)
}

/// Makes the calls of the job. One without calls does nothing.
fn work_job<S: Source>(job: &mut Job<S>, book: &PresetBook)
    requires { CanBeWorked book.now job.old.session job.old.calls.items }
    ensures { WorkedOrIdle book.now (seen (notes job.old.handler) job.old)
        (seen (notes job.new.handler) job.new) }
{
    if let Opened::Session(session) = &mut job.session {
        let made = make_boxed(
            session,
            book,
            &mut job.handler,
            job.calls.as_slice(),
            &mut job.replies,
        );
        job.starved = made.is_err();
    }
}

impl<S: Source> Task<PresetBook> for Job<S> {
    ghost use Rattle.thread_registry.specs.JobView.{WorkedOrIdle};
    ghost use Rattle.thread_registry.specs.OpenedJobs.{CanBeWorked, seen};
    ghost use Rattle.thread_registry.specs.Load.{load_of};

    ghost ready = { λ book j. CanBeWorked book j.session j.calls.items };

    ghost done = { λ book x y. WorkedOrIdle book (seen ((Handler-box x.handler).notes x.handler.value) x) (seen ((Handler-box y.handler).notes y.handler.value) y) };

    ghost load = { λ j. load_of j.calls.items };

    /// The occurrences that its runs ask for, and one for each other call, at most 2^32 - 1.
    fn load(&self) -> u32 {
        load_of(self.calls.as_slice())
    }

    fn work(&mut self, book: &PresetBook) {
        work_job(self, book);
    }
}
