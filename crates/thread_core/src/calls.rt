//! The calls on a thread's event sets, in the order of their manual pages' table: registering, making and filling sets,
//! counting, and looking.
ghost use Rattle.std.specs.Prelude.{◌≡◌, ◌≢◌, ◌≤◌, IfErr, IfOk, OnErr, OnOk, drop, length, take};
ghost use Rattle.std.specs.Option.{option_copied};
ghost use Rattle.papi_base.specs.declared.code.Code.TheVariants as code;
ghost use Rattle.papi_base.specs.declared.limits.TheConstants.{MOST_ITEMS};
ghost use Rattle.postfix_rules.specs.Fitting.{IsNamed};
ghost use Rattle.session_model.specs.Faces.{at};
ghost use Rattle.session_model.specs.Replies.{plain};
ghost use Rattle.call_type.specs.declared.call.Call.TheVariants as call;
ghost use Rattle.session_model.specs.declared.reply.Body.TheVariants as body;
ghost use Rattle.thread_core.specs.Following.{Follows, IsRefusal, changed_reply, reply_of, values_reply};
ghost use Rattle.thread_core.specs.Stands.{AgreesWith};
ghost use Rattle.thread_core.specs.Told.{AreGiven, values_in};
ghost use Rattle.thread_slots.specs.Altering.{IsFor, changing_call};

use crate::refusal::set_under;
use crate::thread::Core;
use event_sets::Refusal;
use papi_base::{Code, Events, MOST_ITEMS, Values};
use postfix_rules::PresetBook;
use session_model::{Assigned, Named};
use thread_slots::{Change, Slot, free_number};

/// The values in the first places of an array.
fn first_values(all: &[i64], count: u32) -> Values
    requires few { count ≤ MOST_ITEMS }
    requires there { count ≤ length all.now }
    ensures { result ≡ take count all.now }
{
    let mut values = Values::new();
    for i in 0..count {
        values.push(all[i as usize]);
    }
    values
}

impl Core {
    /// Registers the thread, which may be registered already: PAPI_register_thread(3).
    pub fn register(&mut self, _book: &PresetBook) -> Code
        requires { AgreesWith _book.now self.old }
        ensures { Follows _book.now self.old self.new call.Register (plain result) }
    {
        self.registered = true;
        Code::Ok
    }

    /// The thread is registered no more: PAPI_unregister_thread(3). EISRUN if some set of it runs, EINVAL if it is
    /// not registered.
    pub fn unregister(&mut self, _book: &PresetBook) -> Code
        requires { AgreesWith _book.now self.old }
        ensures { Follows _book.now self.old self.new call.Unregister (plain result) }
    {
        if let Some(code) = self.unregister_refusal() {
            return code;
        }
        self.registered = false;
        Code::Ok
    }

    /// A new set under the least free number: PAPI_create_eventset(3). ECOUNT if there are [`papi_base::MOST_SETS`].
    pub fn create(&mut self, _book: &PresetBook) -> Result<u32, Code>
        requires { AgreesWith _book.now self.old }
        ensures { Follows _book.now self.old self.new call.Create
            (reply_of (λ n. body.SetNumber n) result) }
    {
        if let Some(code) = self.create_refusal() {
            return Err(code);
        }
        let number = free_number(&self.slots);
        self.running.forget();
        self.slots[number as usize] = Some(Slot::new());
        Ok(number)
    }

    /// Takes a set away, so that its number is free: PAPI_destroy_eventset(3). ENOEVST if there is no such set, EISRUN
    /// if it runs, EINVAL if it has events.
    pub fn destroy(&mut self, _book: &PresetBook, set: u32) -> Code
        requires { AgreesWith _book.now self.old }
        ensures { Follows _book.now self.old self.new (call.Destroy set) (plain result) }
    {
        if let Some(code) = self.destroy_refusal(set) {
            return code;
        }
        self.running.forget();
        self.slots[set as usize] = None;
        Code::Ok
    }

    /// Takes away the events of a set, its component and its turns, and zeroes its counts; the domain stays:
    /// PAPI_cleanup_eventset(3). ENOEVST if there is no such set, EISRUN if it runs.
    pub fn cleanup(&mut self, book: &PresetBook, set: u32) -> Code
        requires { AgreesWith book.now self.old }
        ensures { Follows book.now self.old self.new (call.Cleanup set) (plain result) }
    {
        self.change(book, set, &Change::Cleanup)
    }

    /// Adds an event to a set, and zeroes its counts: PAPI_add_event(3).
    ///
    /// ENOEVST if there is no such set, EISRUN if it runs, the name's code if the event's text was refused, then
    /// the refusals of the set at rest.
    pub fn add(&mut self, book: &PresetBook, set: u32, e: &Named) -> Result<(), Refusal>
        requires agrees { AgreesWith book.now self.old }
        requires named { IsNamed book.now self.old.shape e.now }
        ensures follows { Follows book.now self.old self.new (call.Add set e.now)
            (changed_reply result) }
        ensures refusal { IfErr result IsRefusal }
    {
        if let Some(code) = self.add_refusal(set) {
            return Err(Refusal::Plain(code));
        }
        let e = match e {
            Ok(e) => e,
            Err(code) => return Err(Refusal::Plain(*code)),
        };
        self.running.forget();
        let Some(slot) = &mut self.slots[set as usize] else {
            return Err(Refusal::Plain(Code::Enoevst));
        };
        slot.add(book, &self.shape, e)
    }

    /// Takes an event away from a set, and zeroes its counts: PAPI_remove_event(3). ENOEVST if there is no such set,
    /// EISRUN if it runs, the name's code if the event's text was refused, EINVAL if the event is not in the set.
    pub fn remove(&mut self, book: &PresetBook, set: u32, e: &Named) -> Code
        requires agrees { AgreesWith book.now self.old }
        requires named { IsNamed book.now self.old.shape e.now }
        ensures { Follows book.now self.old self.new (call.Remove set e.now) (plain result) }
    {
        self.change(book, set, &Change::Remove(*e))
    }

    /// Fixes the component of a set: PAPI_assign_eventset_component(3). ENOEVST if there is no such set, ENOCMP if
    /// there is no such component, EISRUN if the set runs, EINVAL if it has another component.
    pub fn assign_component(&mut self, book: &PresetBook, set: u32, comp: u32) -> Code
        requires { AgreesWith book.now self.old }
        ensures { Follows book.now self.old self.new (call.AssignComponent set comp)
            (plain result) }
    {
        self.change(book, set, &Change::AssignComponent(comp))
    }

    /// Gives a set another domain, by its bits, and zeroes its counts: PAPI_set_domain(3). ENOEVST if there is no such
    /// set, EISRUN if it runs, EINVAL if the bits are 0 or have others than those of USER and KERNEL.
    pub fn set_domain(&mut self, book: &PresetBook, set: u32, bits: u32) -> Code
        requires { AgreesWith book.now self.old }
        ensures { Follows book.now self.old self.new (call.SetDomain set bits) (plain result) }
    {
        self.change(book, set, &Change::SetDomain(bits))
    }

    /// Lets the native events of a set take turns of n ticks, and zeroes its counts: PAPI_set_multiplex(3). ENOEVST
    /// if there is no such set, EISRUN if it runs, EINVAL if the ticks are not from 1 to 1,000,000, ECOMBO if
    /// an event has a threshold.
    pub fn set_multiplex(&mut self, book: &PresetBook, set: u32, slice: u32) -> Code
        requires { AgreesWith book.now self.old }
        ensures { Follows book.now self.old self.new (call.SetMultiplex set slice) (plain result) }
    {
        self.change(book, set, &Change::SetMultiplex(slice))
    }

    /// Gives an event of a set a threshold, or with 0 takes its threshold away, and zeroes the set's counts:
    /// PAPI_overflow(3).
    ///
    /// ENOEVST if there is no such set, EISRUN if it runs, and the name's code if the event's text was refused.
    /// EINVAL if the event is not in the set or is derived, if the threshold is neither 0 nor from 256 to the last
    /// value of each register of the component, and if another event has one on the same native event. Else ECOMBO
    /// if the set is multiplexed.
    pub fn overflow(&mut self, book: &PresetBook, set: u32, e: &Named, t: u64) -> Code
        requires agrees { AgreesWith book.now self.old }
        requires named { IsNamed book.now self.old.shape e.now }
        ensures { Follows book.now self.old self.new (call.Overflow set e.now t) (plain result) }
    {
        self.change(book, set, &Change::Overflow { e: *e, t })
    }

    /// Starts a set: PAPI_start(3). ENOEVST if there is no such set, EISRUN if it runs or another one does on its
    /// component, EINVAL if it has no events.
    pub fn start(&mut self, book: &PresetBook, set: u32) -> Code
        requires { AgreesWith book.now self.old }
        ensures { Follows book.now self.old self.new (call.Start set) (plain result) }
    {
        if let Some(code) = self.start_refusal(set) {
            return code;
        }
        let now = self.time();
        self.running.forget();
        let Some(slot) = &mut self.slots[set as usize] else {
            return Code::Enoevst;
        };
        slot.begin(&mut self.units, book, now);
        Code::Ok
    }

    /// Stops a set, and writes the value of each of its events: PAPI_stop(3). ENOEVST if there is no such set, ENOTRUN
    /// if it does not run; `into` then stays as it is.
    pub fn stop(&mut self, book: &PresetBook, set: u32, into: &mut Values) -> Code
        requires { AgreesWith book.now self.old }
        ensures follows { Follows book.now self.old self.new (call.Stop set)
            (values_reply result into.new) }
        ensures kept { result ≢ code.Ok → into.new ≡ into.old }
    {
        if let Some(code) = self.stop_refusal(set) {
            return code;
        }
        let now = self.time();
        self.running.forget();
        let Some(slot) = &mut self.slots[set as usize] else {
            return Code::Enoevst;
        };
        slot.stop(&mut self.units, &self.shape, now);
        slot.read(&self.units, book, now, into);
        Code::Ok
    }

    /// Writes the value of each event of a set: PAPI_read(3). ENOEVST if there is no such set; `into`
    /// then stays as it is.
    pub fn read(&self, book: &PresetBook, set: u32, into: &mut Values) -> Code
        requires { AgreesWith book.now self.now }
        ensures follows { Follows book.now self.now self.now (call.Read set)
            (values_reply result into.new) }
        ensures kept { result ≢ code.Ok → into.new ≡ into.old }
    {
        let Some(slot) = self.set(set) else {
            return Code::Enoevst;
        };
        slot.read(&self.units, book, self.time(), into);
        Code::Ok
    }

    /// Writes the same into the first places of an array, as far as there is room, and gives their number: PAPI_read(3).
    /// ENOEVST if there is no such set; `out` then stays as it is.
    pub fn read_into(&self, book: &PresetBook, set: u32, out: &mut [i64]) -> Result<u32, Code>
        requires { AgreesWith book.now self.now }
        ensures follows { let values = values_in book.now self.now set
            in Follows book.now self.now self.now (call.Read set)
            (reply_of (λ n. body.Values values) result) }
        ensures count { IfOk result (λ n. n ≡ length (values_in book.now self.now set)) }
        ensures few { IfOk result (λ n. n ≤ MOST_ITEMS) }
        ensures given { OnOk result (AreGiven (values_in book.now self.now set) out.old out.new) }
        ensures refused { IfErr result (λ c. c ≡ code.Enoevst) }
        ensures kept { OnErr result (out.new ≡ out.old) }
    {
        let Some(slot) = self.set(set) else {
            return Err(Code::Enoevst);
        };
        Ok(slot.read_into(&self.units, book, self.time(), out))
    }

    /// Adds the value of each event of a set to the caller's, writes the sums, and zeroes the counts of the set:
    /// PAPI_accum(3). ENOEVST if there is no such set; `into` then stays as it is.
    pub fn accum(&mut self, book: &PresetBook, set: u32, into: &mut Values) -> Code
        requires { AgreesWith book.now self.old }
        ensures follows { Follows book.now self.old self.new (call.Accum set)
            (values_reply result into.new) }
        ensures kept { result ≢ code.Ok → into.new ≡ into.old }
    {
        let mut sums = [0; MOST_ITEMS];
        match self.accum_into(book, set, &mut sums) {
            Ok(count) => {
                *into = first_values(&sums, count);
                Code::Ok
            }
            Err(code) => code,
        }
    }

    /// The same with the sums in the first places of an array that has room for all, and gives their number: PAPI_accum(3).
    /// ENOEVST if there is no such set; `out` then stays as it is.
    pub fn accum_into(&mut self, book: &PresetBook, set: u32, out: &mut [i64]) -> Result<u32, Code>
        requires agrees { AgreesWith book.now self.old }
        requires room { MOST_ITEMS ≤ length out.old }
        ensures follows { Follows book.now self.old self.new (call.Accum set)
            (reply_of (λ n. body.Values (take n out.new)) result) }
        ensures few { IfOk result (λ n. n ≤ MOST_ITEMS) }
        ensures past { IfOk result (λ n. drop n out.new ≡ drop n out.old) }
        ensures long { length out.new ≡ length out.old }
        ensures refused { IfErr result (λ c. c ≡ code.Enoevst) }
        ensures kept { OnErr result (out.new ≡ out.old) }
    {
        if let Some(code) = self.zero_refusal(set) {
            return Err(code);
        }
        let now = self.time();
        let Some(slot) = &mut self.slots[set as usize] else {
            return Err(Code::Enoevst);
        };
        slot.read_into(&self.units, book, now, out);
        slot.zero(&mut self.units, now);
        Ok(slot.accumulate_into(out))
    }

    /// Zeroes the counts of a set, running or not: PAPI_reset(3). ENOEVST if there is no such set.
    pub fn reset(&mut self, _book: &PresetBook, set: u32) -> Code
        requires { AgreesWith _book.now self.old }
        ensures { Follows _book.now self.old self.new (call.Reset set) (plain result) }
    {
        if let Some(code) = self.zero_refusal(set) {
            return code;
        }
        let ticks = self.time();
        let Some(slot) = &mut self.slots[set as usize] else {
            return Code::Enoevst;
        };
        slot.zero(&mut self.units, ticks);
        Code::Ok
    }

    /// Whether a set runs, whether a threshold is set, and whether it is multiplexed, as bits: PAPI_state(3). ENOEVST if
    /// there is no such set.
    pub fn state(&self, _book: &PresetBook, set: u32) -> Result<u32, Code>
        requires { AgreesWith _book.now self.now }
        ensures { Follows _book.now self.now self.now (call.State set)
            (reply_of (λ bits. body.State bits) result) }
    {
        let Some(slot) = self.set(set) else {
            return Err(Code::Enoevst);
        };
        Ok(slot.state())
    }

    /// The events of a set in the order in which they were added: PAPI_list_events(3). ENOEVST if there is no such set.
    pub fn list_events(&self, _book: &PresetBook, set: u32) -> Result<Events, Code>
        requires { AgreesWith _book.now self.now }
        ensures { Follows _book.now self.now self.now (call.ListEvents set)
            (reply_of (λ events. body.Events events) result) }
    {
        let Some(slot) = self.set(set) else {
            return Err(Code::Enoevst);
        };
        Ok(slot.set.events().copy())
    }

    /// The native events of a set, and the counter of each, as they are when the set starts. ENOEVST if there is no such
    /// set, ECOMBO if it is multiplexed.
    pub fn assign(&self, _book: &PresetBook, set: u32) -> Result<Assigned, Code>
        requires { AgreesWith _book.now self.now }
        ensures { Follows _book.now self.now self.now (call.Assign set)
            (reply_of (λ assigned. body.Assigned assigned) result) }
    {
        let Some(slot) = self.set(set) else {
            return Err(Code::Enoevst);
        };
        if slot.set.slice().is_some() {
            return Err(Code::Ecombo);
        }
        Ok(slot.assigned())
    }

    /// The register of a counter of a running set, as the hardware holds it. ENOEVST if there is no such set, ENOTRUN
    /// if it does not run, EINVAL if its component lacks the counter or none of its native events is on it, ECOMBO
    /// if it is multiplexed.
    pub fn raw(&self, _book: &PresetBook, set: u32, c: u32) -> Result<u64, Code>
        requires { AgreesWith _book.now self.now }
        ensures { Follows _book.now self.now self.now (call.Raw set c)
            (reply_of (λ value. body.Register value) result) }
    {
        let Some(slot) = self.set(set) else {
            return Err(Code::Enoevst);
        };
        slot.register(&self.units, c)
    }

    /// The set under the number.
    #[inline]
    fn set(&self, set: u32) -> Option<&Slot>
        ensures { option_copied result ≡ at self.now.slots set }
    {
        set_under(&self.slots, set)
    }

    /// Makes a change of a set that does not run.
    fn change(&mut self, book: &PresetBook, set: u32, change: &Change) -> Code
        requires agrees { AgreesWith book.now self.old }
        requires named { IsFor book.now self.old.shape change.now }
        ensures { Follows book.now self.old self.new (changing_call set change.now) (plain result) }
    {
        if let Some(code) = self.change_refusal(set, change) {
            return code;
        }
        self.running.forget();
        let Some(slot) = &mut self.slots[set as usize] else {
            return Code::Enoevst;
        };
        match slot.change(book, &self.shape, change) {
            Ok(()) => Code::Ok,
            Err(code) => code,
        }
    }
}
