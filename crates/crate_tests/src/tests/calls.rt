//! Several calls on one session, one after another.
ghost use Rattle.std.specs.Prelude.{◌≡◌, All};
ghost use Rattle.session_model.specs.Conditions.{IsGood};
ghost use Rattle.thread_session.specs.Stands.{IsReady};

use overflow_dispatch::Handler;
use papi_base::Source;
use postfix_rules::PresetBook;
use session_model::{Call, Reply};
use std::alloc::{AllocError, Global};
use thread_session::Session;

/// Makes the calls in order, and gives their replies.
pub fn make_calls<S: Source>(
    alloc: Global,
    session: &mut Session<S>,
    book: &PresetBook,
    calls: &[Call],
    h: &mut dyn Handler,
) -> Result<Vec<Reply>, AllocError>
    requires ready { IsReady book.now session.old }
    requires good { All (IsGood book.now session.old.core.shape) calls.now }
    ensures ready { IsReady book.now session.new }
    ensures shape { session.new.core.shape ≡ session.old.core.shape }
{
    let mut replies = Vec::new(alloc);
    for c in calls {
        let reply = session.call(book, c, h)?;
        replies.push(reply)?;
    }
    Ok(replies)
}
