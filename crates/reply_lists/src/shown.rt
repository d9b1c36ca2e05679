//! What is shown of a reply where it is kept, without a copy of its values.
ghost use Rattle.std.specs.Prelude.{◌<◌, IfSome, length, slice_get};
ghost use Rattle.reply_lists.specs.Shown.{IsShownOf};

use crate::kept::Kept;
use crate::replies::Replies;
use papi_base::Code;
use session_model::Ran;

/// A reply where it is kept: its code with its values, its code alone, or its code with what a run did. Of any other reply
/// nothing is shown.
#[derive(Clone, Copy)]
pub enum Shown<'a> {
    Values(Code, &'a [i64]),
    Plain(Code),
    Ran(Code, Ran),
    Other,
}

impl Replies {
    /// What is shown of the reply at a place that is there.
    #[inline(always)]
    pub fn shown_at(&self, i: usize) -> Shown<'_>
        requires place { i < length self.now }
        ensures shown { IfSome (slice_get self.now i) (IsShownOf result) }
    {
        let head = &self.heads[i];
        match head.kept {
            Kept::Values(span) => {
                let end = span.from + span.len as usize;
                Shown::Values(head.code, &self.store.values[span.from..end])
            }
            Kept::Nothing => Shown::Plain(head.code),
            Kept::Ran(ran) => Shown::Ran(head.code, ran),
            _ => Shown::Other,
        }
    }
}
