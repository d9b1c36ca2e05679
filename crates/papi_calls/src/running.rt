//! Runs, and the stream that they consume.
ghost use Rattle.std.specs.Prelude.{◌≡◌, ◌≢◌, ◌<◌, ◌≤◌, ◌+◌, [], IfOk, OnErr, drop, false, length, take, true};
ghost use Rattle.call_type.specs.declared.call.Call.TheVariants as call;
ghost use Rattle.thread_session.specs.Follows.{FollowsAs, IsCut, run_reply};
ghost use Rattle.thread_session.specs.Happening.{Happens};
ghost use Rattle.thread_session.specs.declared.happening.Halt.TheVariants as halt;
ghost use Rattle.thread_core.specs.Stands.{has_stamp};
ghost use Rattle.thread_session.specs.Room.{asked_for};
ghost use Rattle.thread_session.specs.declared.filling.TheConstants.{MOST_PASSED};

use crate::library::Library;
use overflow_dispatch::{Handler, Note};
use session_model::Ran;
use std::alloc::AllocError;
use thread_session::{Filled, Happened, Happening};

impl Library {
    /// Consumes up to `n` occurrences, and tells the handler each passing of a threshold as it comes. Memory is taken by the handler
    /// alone.
    pub fn run(&mut self, n: u32, h: &mut dyn Handler) -> Result<Ran, AllocError>
        ensures follows { IfOk result (λ ran.
            FollowsAs self.old.catalog.book self.old.session self.new.session (call.Run n)
            (run_reply ran) (notes h.old) (notes h.new)) }
        ensures cut { OnErr result
            (IsCut self.old.catalog.book self.old.session self.new.session n (notes h.old)
            (notes h.new)) }
        ensures catalog { self.new.catalog ≡ self.old.catalog }
        ensures mentioned { self.new.mentioned ≡ self.old.mentioned }
    {
        self.session.run(self.catalog.book(), n, h)
    }

    /// Consumes up to `n` occurrences, and writes a note of each passing of a threshold into the place. If fewer than 32 notes have
    /// room it stops before the next occurrence, and says that it is full: no note is lost, and a further run goes on. It takes no memory.
    pub fn run_into(&mut self, n: u32, out: &mut [Note]) -> Filled
        ensures follows { FollowsAs self.old.catalog.book self.old.session self.new.session
            (call.Run (asked_for n result)) (run_reply result.ran) []
            (take result.ran.notes out.new) }
        ensures full { result.full ≡ true → length out.new < result.ran.notes + MOST_PASSED }
        ensures early { result.full ≡ true → result.ran.consumed < n }
        ensures fits { result.ran.notes ≤ length out.new }
        ensures rest { drop result.ran.notes out.new ≡ drop result.ran.notes out.old }
        ensures length { length out.new ≡ length out.old }
        ensures catalog { self.new.catalog ≡ self.old.catalog }
        ensures mentioned { self.new.mentioned ≡ self.old.mentioned }
    {
        self.session.run_into(self.catalog.book(), n, out)
    }

    /// This happens as occurrences one after another, without a stream, and a note of each passing of a threshold is written into the
    /// place. If fewer than 32 notes have room it stops before the next occurrence: no note is lost, and what is left of it can happen
    /// then. Nothing happens before the stream has ended. It takes no memory.
    pub fn happen_into(&mut self, what: &Happening, out: &mut [Note]) -> Happened
        ensures happens { Happens self.old.catalog.book self.old.session self.new.session what.now
            result.amount (take result.notes out.new) }
        ensures within { result.amount ≤ what.now.amount }
        ensures done { result.halt ≡ halt.Done → result.amount ≡ what.now.amount }
        ensures full { result.halt ≡ halt.Full → length out.new < result.notes + MOST_PASSED }
        ensures spent { result.halt ≡ halt.Spent → has_stamp self.new.session.core ≡ false }
        ensures early { result.halt ≢ halt.Done → result.halt ≢ halt.Streaming
            → result.amount < what.now.amount }
        ensures streaming { result.halt ≡ halt.Streaming
            → self.old.session.reader.over ≡ false }
        ensures ended { self.old.session.reader.over ≡ false → result.halt ≡ halt.Streaming }
        ensures nothing { result.halt ≡ halt.Streaming → result.amount ≡ 0 }
        ensures fits { result.notes ≤ length out.new }
        ensures rest { drop result.notes out.new ≡ drop result.notes out.old }
        ensures length { length out.new ≡ length out.old }
        ensures catalog { self.new.catalog ≡ self.old.catalog }
        ensures mentioned { self.new.mentioned ≡ self.old.mentioned }
    {
        self.session.happen_into(self.catalog.book(), what, out)
    }
}
