//! Calls whose replies are kept in a list, where they are written at once if they are values, a code or what a run did.
ghost use Rattle.std.specs.Prelude.{◌≡◌, ◌++◌, ◌∷◌, [], OnErr, OnOk, false};
ghost use Rattle.call_type.specs.declared.call.Call.TheVariants as call;
ghost use Rattle.overflow_dispatch.specs.Notes.{Begun, Grown};
ghost use Rattle.papi_base.specs.Streams.{Coming};
ghost use Rattle.session_model.specs.Account.{Account};
ghost use Rattle.session_model.specs.Conditions.{IsGood};
ghost use Rattle.session_model.specs.Step.{step};
ghost use Rattle.session_model.specs.declared.reply.Reply.{Reply};
ghost use Rattle.thread_core.specs.Stands.{AgreesWith};
ghost use Rattle.thread_session.specs.Follows.{is_run};
ghost use Rattle.thread_session.specs.Keeping.{CoreKeeps};

use crate::answers::{code_of, make};
use crate::session::Session;
use overflow_dispatch::Handler;
use papi_base::{Code, MOST_ITEMS, Source};
use postfix_rules::PresetBook;
use reply_lists::Replies;
use session_model::Call;
use std::alloc::AllocError;
use thread_core::Core;

/// Reads a set.
#[inline(always)]
fn read_into(
    core: &Core,
    book: &PresetBook,
    set: u32,
    replies: &mut Replies,
) -> Result<(), AllocError>
    requires agrees { AgreesWith book.now core.now }
    ensures { CoreKeeps result book.now core.now core.now (call.Read set) replies.old replies.new }
{
    let mut values = [0; MOST_ITEMS];
    match core.read_into(book, set, &mut values) {
        Ok(count) => replies.push_values(Code::Ok, &values[..count as usize]),
        Err(code) => replies.push_plain(code),
    }
}

/// Adds the values of a set to the caller's.
#[inline(always)]
fn accum_into(
    core: &mut Core,
    book: &PresetBook,
    set: u32,
    replies: &mut Replies,
) -> Result<(), AllocError>
    requires agrees { AgreesWith book.now core.old }
    ensures { CoreKeeps result book.now core.old core.new (call.Accum set) replies.old
        replies.new }
{
    let mut sums = [0; MOST_ITEMS];
    match core.accum_into(book, set, &mut sums) {
        Ok(count) => replies.push_values(Code::Ok, &sums[..count as usize]),
        Err(refusal) => replies.push_plain(refusal),
    }
}

/// Zeroes the counts of a set.
#[inline(always)]
fn reset_into(
    core: &mut Core,
    book: &PresetBook,
    set: u32,
    replies: &mut Replies,
) -> Result<(), AllocError>
    requires agrees { AgreesWith book.now core.old }
    ensures { CoreKeeps result book.now core.old core.new (call.Reset set) replies.old
        replies.new }
{
    let code = core.reset(book, set);
    replies.push_plain(code)
}

/// Makes a call that is not a run by way of its reply.
#[inline(never)]
fn make_other(
    core: &mut Core,
    book: &PresetBook,
    c: &Call,
    replies: &mut Replies,
) -> Result<(), AllocError>
    requires agrees { AgreesWith book.now core.old }
    requires good { IsGood book.now core.old.shape c.now }
    requires still { is_run c.now ≡ false }
    ensures { CoreKeeps result book.now core.old core.new c.now replies.old replies.new }
{
    let reply = make(core, book, c);
    replies.push(&reply)
}

/// Makes a call that is not a run.
#[inline(always)]
fn make_into(
    core: &mut Core,
    book: &PresetBook,
    c: &Call,
    replies: &mut Replies,
) -> Result<(), AllocError>
    requires agrees { AgreesWith book.now core.old }
    requires good { IsGood book.now core.old.shape c.now }
    requires still { is_run c.now ≡ false }
    ensures { CoreKeeps result book.now core.old core.new c.now replies.old replies.new }
{
    match c {
        Call::Read { set } => read_into(core, book, *set, replies),
        Call::Accum { set } => accum_into(core, book, *set, replies),
        Call::Reset { set } => reset_into(core, book, *set, replies),
        _ => make_other(core, book, c, replies),
    }
}

impl<S: Source> Session<S> {
    ghost use Rattle.thread_session.specs.Faults.{FaultsKept, fault_count};
    ghost use Rattle.thread_session.specs.Keeping.{IsReplied, IsStarvedTo, Keeps};
    ghost use Rattle.thread_session.specs.Prospects.{CanCome};
    ghost use Rattle.thread_session.specs.Stands.{IsReady, Stands};

    // A call that is not a run.
    #[inline(always)]
    fn make_into(
        &mut self,
        book: &PresetBook,
        c: &Call,
        replies: &mut Replies,
    ) -> Result<(), AllocError>
        requires ready { IsReady book.now self.old }
        requires good { IsGood book.now self.old.core.shape c.now }
        requires still { is_run c.now ≡ false }
        ensures { Keeps result book.now self.old self.new c.now replies.old replies.new }
    {
        make_into(&mut self.core, book, c, replies)
    }

    /// Makes one of the calls, and keeps its reply at the end of the list. If memory is refused, in the call or for its reply, the
    /// list stays.
    pub fn call_into(
        &mut self,
        book: &PresetBook,
        c: &Call,
        h: &mut dyn Handler,
        replies: &mut Replies,
    ) -> Result<(), AllocError>
        requires ready { IsReady book.now self.old }
        requires good { IsGood book.now self.old.core.shape c.now }
        ensures stands { (a : Account) → Stands book.now self.old a
            → OnOk result (Stands book.now self.new
            (step book.now self.old.core.shape a c.now).account) }
        ensures reply { (a : Account) → Stands book.now self.old a
            → OnOk result (replies.new
            ≡ replies.old ++ (step book.now self.old.core.shape a c.now).reply ∷ []) }
        ensures notes { (a : Account) → Stands book.now self.old a
            → OnOk result (notes h.new
            ≡ notes h.old ++ (step book.now self.old.core.shape a c.now).notes) }
        ensures begun { (a : Account) → Stands book.now self.old a
            → OnErr result (Begun (notes h.old)
            (step book.now self.old.core.shape a c.now).notes (notes h.new)) }
        ensures err { OnErr result (replies.new ≡ replies.old) }

        // Told or not.
        ensures replied { OnOk result ((r : Reply) × (replies.new ≡ replies.old ++ r ∷ [])
            × IsReplied book.now self.old self.new c.now r (notes h.old) (notes h.new)) }
        ensures starved { (left : Coming) → CanCome self.new.reader left
            → OnErr result (IsStarvedTo book.now self.old c.now (notes h.old) (notes h.new) left) }
        ensures grown { Grown (notes h.old) (notes h.new) }
        ensures ready { IsReady book.now self.new }
        ensures shape { self.new.core.shape ≡ self.old.core.shape }
        ensures faults { FaultsKept (fault_count self.old.reader) (fault_count self.new.reader) }
    {
        match c {
            Call::Run { n } => {
                let ran = self.run(book, *n, h)?;
                replies.push_ran(code_of(ran.ended), ran)
            }
            _ => self.make_into(book, c, replies),
        }
    }
}
