//! The calls that take no event, each as the model's step has it.
#![tactic(auto, using(crate::proofs::Calling::calling))]

ghost use Rattle.std.specs.Prelude.{◌≡◌, ◌≢◌, IfErr, IfOk, OnErr, OnOk, length};
ghost use Rattle.papi_base.specs.declared.code.Code.TheVariants as code;
ghost use Rattle.papi_calls.specs.Calls.{Made, values_told};
ghost use Rattle.session_model.specs.Replies.{plain};
ghost use Rattle.call_type.specs.declared.call.Call.TheVariants as call;
ghost use Rattle.session_model.specs.declared.reply.Body.TheVariants as body;
ghost use Rattle.thread_core.specs.Following.{reply_of, values_reply};
ghost use Rattle.thread_core.specs.Told.{AreGiven};

use crate::library::Library;
use papi_base::{Code, Events, Values};
use session_model::Assigned;

impl Library {
    /// Registers the thread: PAPI_register_thread(3).
    pub fn register(&mut self) -> Code
        ensures made { Made self.old self.new call.Register (plain result) }
    {
        self.session.register(self.catalog.book())
    }

    /// Takes the registration back: PAPI_unregister_thread(3). EISRUN if some set runs, EINVAL if the thread is not
    /// registered.
    pub fn unregister(&mut self) -> Code
        ensures made { Made self.old self.new call.Unregister (plain result) }
    {
        self.session.unregister(self.catalog.book())
    }

    /// A new set under the least free number: PAPI_create_eventset(3). ECOUNT if there are [`papi_base::MOST_SETS`].
    pub fn create(&mut self) -> Result<u32, Code>
        ensures made { Made self.old self.new call.Create
            (reply_of (λ n. body.SetNumber n) result) }
    {
        self.session.create(self.catalog.book())
    }

    /// Takes a set away: PAPI_destroy_eventset(3). ENOEVST if there is no such set, EISRUN if it runs, EINVAL if it has
    /// events.
    pub fn destroy(&mut self, set: u32) -> Code
        ensures made { Made self.old self.new (call.Destroy set) (plain result) }
    {
        self.session.destroy(self.catalog.book(), set)
    }

    /// Takes everything but the domain from a set: PAPI_cleanup_eventset(3). ENOEVST if there is no such set, EISRUN if it
    /// runs.
    pub fn cleanup(&mut self, set: u32) -> Code
        ensures made { Made self.old self.new (call.Cleanup set) (plain result) }
    {
        self.session.cleanup(self.catalog.book(), set)
    }

    /// Fixes the component of a set: PAPI_assign_eventset_component(3). ENOEVST, ENOCMP if there is no such component, EISRUN,
    /// EINVAL if the set has another one.
    pub fn assign_component(&mut self, set: u32, comp: u32) -> Code
        ensures made { Made self.old self.new (call.AssignComponent set comp) (plain result) }
    {
        self.session
            .assign_component(self.catalog.book(), set, comp)
    }

    /// Sets the domain of a set, user 1 and kernel 2, and zeroes its counts: PAPI_set_domain(3). ENOEVST, EISRUN, EINVAL if the
    /// bits are not a domain.
    pub fn set_domain(&mut self, set: u32, bits: u32) -> Code
        ensures made { Made self.old self.new (call.SetDomain set bits) (plain result) }
    {
        self.session.set_domain(self.catalog.book(), set, bits)
    }

    /// Multiplexes a set by slices of this many ticks, and zeroes its counts: PAPI_set_multiplex(3). ENOEVST, EISRUN, EINVAL if
    /// the slice is out of range, ECOMBO if a threshold is set.
    pub fn set_multiplex(&mut self, set: u32, slice: u32) -> Code
        ensures made { Made self.old self.new (call.SetMultiplex set slice) (plain result) }
    {
        self.session.set_multiplex(self.catalog.book(), set, slice)
    }

    /// Starts a set: PAPI_start(3). ENOEVST, EISRUN if it runs or another one does on its component, EINVAL if it has no
    /// events.
    pub fn start(&mut self, set: u32) -> Code
        ensures made { Made self.old self.new (call.Start set) (plain result) }
    {
        self.session.start(self.catalog.book(), set)
    }

    /// Stops a set, and gives the value of each event: PAPI_stop(3). ENOEVST, ENOTRUN; `into` then stays as it is.
    pub fn stop(&mut self, set: u32, into: &mut Values) -> Code
        ensures made { Made self.old self.new (call.Stop set) (values_reply result into.new) }
        ensures kept { result ≢ code.Ok → into.new ≡ into.old }
    {
        self.session.stop(self.catalog.book(), set, into)
    }

    /// Writes the value of each event of a set into the first places of an array, as far as there is room, and gives their
    /// number: PAPI_read(3). ENOEVST; `out` then stays as it is.
    #[inline]
    pub fn read_into(&self, set: u32, out: &mut [i64]) -> Result<u32, Code>
        ensures made { Made self.now self.now (call.Read set)
            (reply_of (λ n. body.Values (values_told self.now set)) result) }
        ensures count { IfOk result (λ n. n ≡ length (values_told self.now set)) }
        ensures given { OnOk result (AreGiven (values_told self.now set) out.old out.new) }
        ensures refused { IfErr result (λ c. c ≡ code.Enoevst) }
        ensures kept { OnErr result (out.new ≡ out.old) }
    {
        self.session.read_into(self.catalog.book(), set, out)
    }

    /// Adds the value of each event to the set's sums, gives the sums, and zeroes the counts: the model's form of PAPI_accum(3).
    /// ENOEVST; `into` then stays as it is.
    pub fn accum(&mut self, set: u32, into: &mut Values) -> Code
        ensures made { Made self.old self.new (call.Accum set) (values_reply result into.new) }
        ensures kept { result ≢ code.Ok → into.new ≡ into.old }
    {
        self.session.accum(self.catalog.book(), set, into)
    }

    /// Zeroes the counts of a set: PAPI_reset(3). ENOEVST.
    pub fn reset(&mut self, set: u32) -> Code
        ensures made { Made self.old self.new (call.Reset set) (plain result) }
    {
        self.session.reset(self.catalog.book(), set)
    }

    /// The state bits of a set: PAPI_state(3). ENOEVST.
    pub fn state(&self, set: u32) -> Result<u32, Code>
        ensures made { Made self.now self.now (call.State set)
            (reply_of (λ bits. body.State bits) result) }
    {
        self.session.state(self.catalog.book(), set)
    }

    /// The events of a set in the order in which they were added: PAPI_list_events(3). ENOEVST.
    pub fn list_events(&self, set: u32) -> Result<Events, Code>
        ensures made { Made self.now self.now (call.ListEvents set)
            (reply_of (λ events. body.Events events) result) }
    {
        self.session.list_events(self.catalog.book(), set)
    }

    /// The native events of a set, and the counter of each, as they are when the set starts. ENOEVST, ECOMBO if it is
    /// multiplexed.
    pub fn assign(&self, set: u32) -> Result<Assigned, Code>
        ensures made { Made self.now self.now (call.Assign set)
            (reply_of (λ assigned. body.Assigned assigned) result) }
    {
        self.session.assign(self.catalog.book(), set)
    }

    /// The register of a counter of a set that runs. ENOEVST, ENOTRUN, EINVAL if no native event of the set is on the counter,
    /// ECOMBO if it is multiplexed.
    pub fn raw(&self, set: u32, c: u32) -> Result<u64, Code>
        ensures made { Made self.now self.now (call.Raw set c)
            (reply_of (λ value. body.Register value) result) }
    {
        self.session.raw(self.catalog.book(), set, c)
    }
}
