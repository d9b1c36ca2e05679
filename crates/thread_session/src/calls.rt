//! The calls on a session's sets, each as the core makes it.
ghost use Rattle.std.specs.Prelude.{◌≡◌, ◌≢◌, ◌++◌, IfErr, IfOk, OnErr, OnOk, false, length};
ghost use Rattle.overflow_dispatch.specs.Notes.{Grown, PartAdded};
ghost use Rattle.papi_base.specs.declared.code.Code.TheVariants as code;
ghost use Rattle.papi_base.specs.Streams.{Coming};
ghost use Rattle.session_model.specs.Account.{Account};
ghost use Rattle.session_model.specs.Conditions.{IsGood};
ghost use Rattle.postfix_rules.specs.Fitting.{IsNamed};
ghost use Rattle.session_model.specs.Step.{step};
ghost use Rattle.call_type.specs.declared.call.Call.TheVariants as call;
ghost use Rattle.session_model.specs.declared.reply.Body.TheVariants as body;
ghost use Rattle.session_model.specs.Replies.{plain};
ghost use Rattle.thread_core.specs.Following.{IsRefusal, changed_reply, reply_of, values_reply};
ghost use Rattle.thread_core.specs.Told.{AreGiven, values_in};

use crate::answers::{make, run_reply};
use crate::session::Session;
use event_sets::Refusal;
use overflow_dispatch::Handler;
use papi_base::{Code, Events, Source, Values};
use postfix_rules::PresetBook;
use session_model::{Assigned, Call, Named, Reply};
use std::alloc::AllocError;

impl<S: Source> Session<S> {
    ghost use Rattle.thread_session.specs.Faults.{FaultsKept, FaultsRose, IsFaultReply, fault_count};
    ghost use Rattle.thread_session.specs.Follows.{Does, FollowsAs, FollowsTo, IsCutIn, IsCutTo, is_run};
    ghost use Rattle.thread_session.specs.Prospects.{CanCome};
    ghost use Rattle.thread_session.specs.Stands.{IsReady, Stands};

    /// Registers the thread: PAPI_register_thread(3).
    pub fn register(&mut self, book: &PresetBook) -> Code
        requires ready { IsReady book.now self.old }
        ensures { Does book.now self.old self.new call.Register (plain result) }
    {
        self.core.register(book)
    }

    /// Takes the registration back: PAPI_unregister_thread(3). EISRUN if some set of the thread runs, EINVAL if the thread is
    /// not registered.
    pub fn unregister(&mut self, book: &PresetBook) -> Code
        requires ready { IsReady book.now self.old }
        ensures { Does book.now self.old self.new call.Unregister (plain result) }
    {
        self.core.unregister(book)
    }

    /// A new set under the least free number: PAPI_create_eventset(3). ECOUNT if there are [`papi_base::MOST_SETS`].
    pub fn create(&mut self, book: &PresetBook) -> Result<u32, Code>
        requires ready { IsReady book.now self.old }
        ensures { Does book.now self.old self.new call.Create
            (reply_of (λ n. body.SetNumber n) result) }
    {
        self.core.create(book)
    }

    /// Takes a set away: PAPI_destroy_eventset(3). ENOEVST if there is no such set, EISRUN if it runs, EINVAL if it has events.
    pub fn destroy(&mut self, book: &PresetBook, set: u32) -> Code
        requires ready { IsReady book.now self.old }
        ensures { Does book.now self.old self.new (call.Destroy set) (plain result) }
    {
        self.core.destroy(book, set)
    }

    /// Takes everything but the domain from a set: PAPI_cleanup_eventset(3). ENOEVST if there is no such set, EISRUN if it runs.
    pub fn cleanup(&mut self, book: &PresetBook, set: u32) -> Code
        requires ready { IsReady book.now self.old }
        ensures { Does book.now self.old self.new (call.Cleanup set) (plain result) }
    {
        self.core.cleanup(book, set)
    }

    /// Adds an event to a set, and zeroes its counts: PAPI_add_event(3). The refusals are those of the core.
    pub fn add(&mut self, book: &PresetBook, set: u32, e: &Named) -> Result<(), Refusal>
        requires ready { IsReady book.now self.old }
        requires named { IsNamed book.now self.old.core.shape e.now }
        ensures does { Does book.now self.old self.new (call.Add set e.now)
            (changed_reply result) }
        ensures refusal { IfErr result IsRefusal }
    {
        self.core.add(book, set, e)
    }

    /// Takes an event from a set, and zeroes its counts: PAPI_remove_event(3). The refusals are those of the core.
    pub fn remove(&mut self, book: &PresetBook, set: u32, e: &Named) -> Code
        requires ready { IsReady book.now self.old }
        requires named { IsNamed book.now self.old.core.shape e.now }
        ensures { Does book.now self.old self.new (call.Remove set e.now) (plain result) }
    {
        self.core.remove(book, set, e)
    }

    /// Fixes the component of a set: PAPI_assign_eventset_component(3). ENOEVST if there is no such set, ENOCMP if there is
    /// no such component, EISRUN if the set runs, EINVAL if it has another component.
    pub fn assign_component(&mut self, book: &PresetBook, set: u32, comp: u32) -> Code
        requires ready { IsReady book.now self.old }
        ensures { Does book.now self.old self.new (call.AssignComponent set comp) (plain result) }
    {
        self.core.assign_component(book, set, comp)
    }

    /// Sets the domain of a set, and zeroes its counts: PAPI_set_domain(3). ENOEVST if there is no such set, EISRUN if it runs,
    /// EINVAL if the bits are not a domain.
    pub fn set_domain(&mut self, book: &PresetBook, set: u32, bits: u32) -> Code
        requires ready { IsReady book.now self.old }
        ensures { Does book.now self.old self.new (call.SetDomain set bits) (plain result) }
    {
        self.core.set_domain(book, set, bits)
    }

    /// Multiplexes a set by slices of this many ticks, and zeroes its counts: PAPI_set_multiplex(3). ENOEVST if there is no such
    /// set, EISRUN if it runs, EINVAL if the slice is out of range, ECOMBO if a threshold is set.
    pub fn set_multiplex(&mut self, book: &PresetBook, set: u32, slice: u32) -> Code
        requires ready { IsReady book.now self.old }
        ensures { Does book.now self.old self.new (call.SetMultiplex set slice) (plain result) }
    {
        self.core.set_multiplex(book, set, slice)
    }

    /// Sets the threshold of an event, which 0 clears, and zeroes the set's counts: PAPI_overflow(3). The refusals are those of
    /// the core.
    pub fn overflow(&mut self, book: &PresetBook, set: u32, e: &Named, t: u64) -> Code
        requires ready { IsReady book.now self.old }
        requires named { IsNamed book.now self.old.core.shape e.now }
        ensures { Does book.now self.old self.new (call.Overflow set e.now t) (plain result) }
    {
        self.core.overflow(book, set, e, t)
    }

    /// Starts a set: PAPI_start(3). ENOEVST if there is no such set, EISRUN if it runs or another one does on its
    /// component, EINVAL if it has no events.
    pub fn start(&mut self, book: &PresetBook, set: u32) -> Code
        requires ready { IsReady book.now self.old }
        ensures { Does book.now self.old self.new (call.Start set) (plain result) }
    {
        self.core.start(book, set)
    }

    /// The events of a set in the order in which they were added: PAPI_list_events(3). ENOEVST if there is no such set.
    pub fn list_events(&self, book: &PresetBook, set: u32) -> Result<Events, Code>
        requires ready { IsReady book.now self.now }
        ensures { Does book.now self.now self.now (call.ListEvents set)
            (reply_of (λ events. body.Events events) result) }
    {
        self.core.list_events(book, set)
    }

    /// The native events of a set, and the counter of each, as they are when the set starts. ENOEVST if there is no such
    /// set, ECOMBO if it is multiplexed.
    pub fn assign(&self, book: &PresetBook, set: u32) -> Result<Assigned, Code>
        requires ready { IsReady book.now self.now }
        ensures { Does book.now self.now self.now (call.Assign set)
            (reply_of (λ assigned. body.Assigned assigned) result) }
    {
        self.core.assign(book, set)
    }

    /// Stops a set, and gives the value of each event: PAPI_stop(3). ENOEVST if there is no such set, ENOTRUN if it does
    /// not run; `into` then stays as it is.
    pub fn stop(&mut self, book: &PresetBook, set: u32, into: &mut Values) -> Code
        requires ready { IsReady book.now self.old }
        ensures does { Does book.now self.old self.new (call.Stop set)
            (values_reply result into.new) }
        ensures kept { result ≢ code.Ok → into.new ≡ into.old }
    {
        self.core.stop(book, set, into)
    }

    /// Gives the value of each event of a set: PAPI_read(3). ENOEVST if there is no such set; `into`
    /// then stays as it is.
    pub fn read(&self, book: &PresetBook, set: u32, into: &mut Values) -> Code
        requires ready { IsReady book.now self.now }
        ensures does { Does book.now self.now self.now (call.Read set)
            (values_reply result into.new) }
        ensures kept { result ≢ code.Ok → into.new ≡ into.old }
    {
        self.core.read(book, set, into)
    }

    /// Writes the value of each event of a set into the first places of an array, as far as there is room, and gives their
    /// number: PAPI_read(3). ENOEVST if there is no such set; `out` then stays as it is.
    #[inline]
    pub fn read_into(&self, book: &PresetBook, set: u32, out: &mut [i64]) -> Result<u32, Code>
        requires ready { IsReady book.now self.now }
        ensures does { let values = values_in book.now self.now.core set
            in Does book.now self.now self.now (call.Read set)
            (reply_of (λ n. body.Values values) result) }
        ensures count { IfOk result (λ n. n ≡ length (values_in book.now self.now.core set)) }
        ensures given { OnOk result
            (AreGiven (values_in book.now self.now.core set) out.old out.new) }
        ensures refused { IfErr result (λ c. c ≡ code.Enoevst) }
        ensures kept { OnErr result (out.new ≡ out.old) }
    {
        self.core.read_into(book, set, out)
    }

    /// Adds the value of each event of a set to the caller's, gives the sums, and zeroes the counts: PAPI_accum(3). ENOEVST if
    /// there is no such set; `into` then stays as it is.
    pub fn accum(&mut self, book: &PresetBook, set: u32, into: &mut Values) -> Code
        requires ready { IsReady book.now self.old }
        ensures does { Does book.now self.old self.new (call.Accum set)
            (values_reply result into.new) }
        ensures kept { result ≢ code.Ok → into.new ≡ into.old }
    {
        self.core.accum(book, set, into)
    }

    /// Zeroes the counts of a set: PAPI_reset(3). ENOEVST if there is no such set.
    pub fn reset(&mut self, book: &PresetBook, set: u32) -> Code
        requires ready { IsReady book.now self.old }
        ensures { Does book.now self.old self.new (call.Reset set) (plain result) }
    {
        self.core.reset(book, set)
    }

    /// The state bits of a set: PAPI_state(3). ENOEVST if there is no such set.
    pub fn state(&self, book: &PresetBook, set: u32) -> Result<u32, Code>
        requires ready { IsReady book.now self.now }
        ensures { Does book.now self.now self.now (call.State set)
            (reply_of (λ bits. body.State bits) result) }
    {
        self.core.state(book, set)
    }

    /// The register of a counter of a set that runs. ENOEVST if there is no such set, ENOTRUN if it does not run, EINVAL if
    /// no native event of it is on the counter, ECOMBO if it is multiplexed.
    pub fn raw(&self, book: &PresetBook, set: u32, c: u32) -> Result<u64, Code>
        requires ready { IsReady book.now self.now }
        ensures { Does book.now self.now self.now (call.Raw set c)
            (reply_of (λ value. body.Register value) result) }
    {
        self.core.raw(book, set, c)
    }

    // A call that is not a run.
    #[inline(always)]
    fn make(&mut self, book: &PresetBook, c: &Call) -> Reply
        requires ready { IsReady book.now self.old }
        requires good { IsGood book.now self.old.core.shape c.now }
        requires still { is_run c.now ≡ false }
        ensures { Does book.now self.old self.new c.now result }
    {
        make(&mut self.core, book, c)
    }

    /// Makes one of the calls.
    pub fn call(
        &mut self,
        book: &PresetBook,
        c: &Call,
        h: &mut dyn Handler,
    ) -> Result<Reply, AllocError>
        requires ready { IsReady book.now self.old }
        requires good { IsGood book.now self.old.core.shape c.now }
        ensures stands { (a : Account) → Stands book.now self.old a
            → OnOk result (Stands book.now self.new
            (step book.now self.old.core.shape a c.now).account) }
        ensures reply { (a : Account) → Stands book.now self.old a
            → IfOk result (λ r. r ≡ (step book.now self.old.core.shape a c.now).reply) }
        ensures notes { (a : Account) → Stands book.now self.old a
            → OnOk result (notes h.new
            ≡ notes h.old ++ (step book.now self.old.core.shape a c.now).notes) }
        ensures part { (a : Account) → Stands book.now self.old a
            → OnErr result (PartAdded (notes h.old)
            (step book.now self.old.core.shape a c.now).notes (notes h.new)) }

        // Told or not.
        ensures follows { IfOk result
            (λ r. FollowsAs book.now self.old self.new c.now r (notes h.old) (notes h.new)) }
        ensures cut { OnErr result
            (IsCutIn book.now self.old self.new c.now (notes h.old) (notes h.new)) }
        ensures towards { (left : Coming) → CanCome self.new.reader left
            → IfOk result (λ r. FollowsTo book.now self.old self.new c.now r (notes h.old)
            (notes h.new) left) }
        ensures cut_to { (left : Coming) → CanCome self.new.reader left
            → OnErr result (IsCutTo book.now self.old c.now (notes h.old) (notes h.new) left) }
        ensures grown { Grown (notes h.old) (notes h.new) }
        ensures ready { IsReady book.now self.new }
        ensures shape { self.new.core.shape ≡ self.old.core.shape }
        ensures faults { FaultsKept (fault_count self.old.reader) (fault_count self.new.reader) }
        ensures faulty { IfOk result
            (λ r. IsFaultReply r → FaultsRose (fault_count self.old.reader)
            (fault_count self.new.reader)) }
    {
        match c {
            Call::Run { n } => {
                let ran = self.run(book, *n, h)?;
                Ok(run_reply(ran))
            }
            _ => Ok(self.make(book, c)),
        }
    }
}
