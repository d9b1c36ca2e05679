//! The calls that take an event by its name.
#![tactic(auto, using(crate::proofs::Calling::naming))]

ghost use Rattle.std.specs.Prelude.{◌≡◌, [], ◌∷◌, IfErr, IfOk, OnErr, OnOk};
ghost use Rattle.component_table.specs.Catalogs.{looked_up};
ghost use Rattle.papi_calls.specs.Calls.{Made};
ghost use Rattle.event_tables.specs.Tables.{shape_of};
ghost use Rattle.postfix_rules.specs.Fitting.{Fits, IsNamed};
ghost use Rattle.postfix_rules.specs.NativeCodes.{native_code};
ghost use Rattle.postfix_rules.specs.Sameness.{joined_by};
ghost use Rattle.session_model.specs.Replies.{plain};
ghost use Rattle.session_model.specs.World.{mentions_of};
ghost use Rattle.call_type.specs.declared.call.Call.TheVariants as call;
ghost use Rattle.call_type.specs.declared.call.Asked.TheVariants.{CodeOf};
ghost use Rattle.thread_core.specs.Following.{IsRefusal, changed_reply};

use crate::library::Library;
use component_table::MOST_MENTIONED;
use event_sets::Refusal;
use papi_base::{Code, EventRef, Native};
use session_model::Named;
use std::alloc::AllocError;

impl Library {
    // Mentions a native event, and gives its code. If there are as many as there are codes, nothing changes.
    pub(crate) fn mention(&mut self, native: Native) -> Result<u32, AllocError>
        requires fits { Fits (shape_of self.old.catalog.tables) native }
        ensures code { IfOk result (λ code. code ≡ native_code self.new.mentioned native) }
        ensures mentioned { OnOk result
            (self.new.mentioned ≡ joined_by self.old.mentioned (native ∷ [])) }
        ensures catalog { self.new.catalog ≡ self.old.catalog }
        ensures session { self.new.session ≡ self.old.session }
        ensures unchanged { OnErr result (self.new ≡ self.old) }
    {
        if self.codes.count() >= MOST_MENTIONED {
            return Err(AllocError);
        }
        self.codes.mention(native)
    }

    // The event that a text names, which is mentioned. If it can't be, nothing changes.
    fn name(&mut self, text: &str) -> Result<Named, AllocError>
        ensures named { IfOk result (λ e. e ≡ looked_up self.old.catalog text.now) }
        ensures good { IfOk result (IsNamed self.old.catalog.book self.old.session.core.shape) }
        ensures mentioned { IfOk result
            (λ e. self.new.mentioned ≡ joined_by self.old.mentioned (mentions_of (CodeOf e))) }
        ensures catalog { self.new.catalog ≡ self.old.catalog }
        ensures session { self.new.session ≡ self.old.session }
        ensures unchanged { OnErr result (self.new ≡ self.old) }
    {
        let named = self.catalog.lookup(text);
        if let Ok(EventRef::Native(native)) = named {
            self.mention(native)?;
        }
        Ok(named)
    }

    /// Adds the event of a name to a set, and zeroes its counts: PAPI_add_named_event(3). The refusals are those of the session.
    ///
    /// An `Err` comes if memory is refused, and if as many native events as there are codes were mentioned. Nothing is changed
    /// then, here and below.
    pub fn add_named(&mut self, set: u32, name: &str) -> Result<Result<(), Refusal>, AllocError>
        ensures made { IfOk result
            (λ answer. Made self.old self.new (call.Add set (looked_up self.old.catalog name.now))
            (changed_reply answer)) }
        ensures refusal { IfOk result (λ answer. IfErr answer IsRefusal) }
        ensures unchanged { OnErr result (self.new ≡ self.old) }
    {
        let e = self.name(name)?;
        Ok(self.session.add(self.catalog.book(), set, &e))
    }

    /// Takes the event of a name from a set, and zeroes its counts: PAPI_remove_named_event(3). The refusals are those of the session.
    pub fn remove_named(&mut self, set: u32, name: &str) -> Result<Code, AllocError>
        ensures made { IfOk result
            (λ code. Made self.old self.new (call.Remove set (looked_up self.old.catalog name.now))
            (plain code)) }
        ensures unchanged { OnErr result (self.new ≡ self.old) }
    {
        let e = self.name(name)?;
        Ok(self.session.remove(self.catalog.book(), set, &e))
    }

    /// Sets the threshold of the event of a name, which 0 clears, and zeroes the set's counts: PAPI_overflow(3). The refusals are
    /// those of the session.
    pub fn overflow_named(
        &mut self,
        set: u32,
        name: &str,
        threshold: u64,
    ) -> Result<Code, AllocError>
        ensures made { IfOk result
            (λ code. Made self.old self.new
            (call.Overflow set (looked_up self.old.catalog name.now) threshold) (plain code)) }
        ensures unchanged { OnErr result (self.new ≡ self.old) }
    {
        let e = self.name(name)?;
        Ok(
            self.session
                .overflow(self.catalog.book(), set, &e, threshold),
        )
    }
}
