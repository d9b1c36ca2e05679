//! What calls change in a set that does not run.
ghost use Rattle.std.specs.Prelude.{◌≡◌, All, IfErr, OnErr, OnOk, Some, None, length, pos, replicate};
ghost use Rattle.event_sets.specs.Adding.{add_refusal};
ghost use Rattle.postfix_rules.specs.Fitting.{Fits, IsHeld};
ghost use Rattle.event_sets.specs.Sets.{set_view};
ghost use Rattle.postfix_rules.specs.Presets.{natives_of_event};
ghost use Rattle.thread_slots.specs.Altering.{change_refusal, lacks_component, slot_after};
ghost use Rattle.thread_slots.specs.Changed.{at_zero, slot_with_event};
ghost use Rattle.thread_slots.specs.declared.changing.Change.TheVariants as change;

use crate::slot::{Counting, Slot};
use event_sets::Refusal;
use papi_base::{Code, Counts, EventRef, Shape, Values};
use postfix_rules::PresetBook;
use session_model::Named;

/// A change of a set that does not run, other than by one event more.
#[derive(Clone, Copy)]
pub enum Change {
    /// Nothing is left but the domain: PAPI_cleanup_eventset(3).
    Cleanup,
    /// An event is taken away: PAPI_remove_event(3).
    Remove(Named),
    /// The component is fixed: PAPI_assign_eventset_component(3).
    AssignComponent(u32),
    /// Another domain, as bits: PAPI_set_domain(3).
    SetDomain(u32),
    /// Turns for n ticks each: PAPI_set_multiplex(3).
    SetMultiplex(u32),
    /// Another threshold of an event, or with 0 none: PAPI_overflow(3).
    Overflow { e: Named, t: u64 },
}

/// Whether the change wants a component that the shape has not.
pub fn lacks_component(shape: &Shape, change: &Change) -> bool
    ensures { result ≡ lacks_component shape.now change.now }
{
    match change {
        Change::AssignComponent(comp) => *comp >= shape.comps(),
        _ => false,
    }
}

impl Slot {
    /// It is stopped, and has counted nothing.
    fn recount(&mut self)
        ensures { self.new ≡ record self.old { counting = at_zero (length self.old.set.natives) } }
    {
        let natives = self.set.natives().len();
        self.counting = Counting::Stopped {
            kept: Counts::repeated(0, natives),
        };
    }

    /// It is stopped, has counted nothing, and the caller's values are 0.
    fn renew(&mut self)
        ensures { self.new ≡ record self.old {
          values = replicate (length self.old.set.rest.events) (pos 0);
          counting = at_zero (length self.old.set.natives);
        } }
    {
        let events = self.set.events().len();
        self.values = Values::repeated(0, events);
        self.recount();
    }

    /// Adds an event: PAPI_add_event(3).
    pub fn add(&mut self, book: &PresetBook, shape: &Shape, e: &EventRef) -> Result<(), Refusal>
        requires held { IsHeld book.now e.now }
        requires fits { All (Fits shape.now) (natives_of_event book.now e.now) }
        requires view { self.old.set ≡ set_view book.now shape.now self.old.set.rest }
        ensures added { OnOk result (self.new ≡ slot_with_event book.now shape.now e.now self.old) }
        ensures taken { OnOk result (add_refusal book.now e.now self.old.set.rest ≡ None) }
        ensures refused { IfErr result
            (λ r. add_refusal book.now e.now self.old.set.rest ≡ Some r) }
        ensures unchanged { OnErr result (self.new ≡ self.old) }
    {
        self.set.add(book, shape, e)?;
        self.renew();
        Ok(())
    }

    /// Makes a change.
    pub fn change(&mut self, book: &PresetBook, shape: &Shape, change: &Change) -> Result<(), Code>
        requires view { self.old.set ≡ set_view book.now shape.now self.old.set.rest }
        ensures changed { OnOk result
            (self.new ≡ slot_after book.now shape.now change.now self.old) }
        ensures taken { OnOk result
            (change_refusal book.now shape.now change.now self.old.set.rest ≡ None) }
        ensures refused { IfErr result
            (λ c. change_refusal book.now shape.now change.now self.old.set.rest ≡ Some c) }
        ensures unchanged { OnErr result (self.new ≡ self.old) }
    {
        match change {
            Change::Cleanup => {
                self.set.cleanup();
                self.renew();
                Ok(())
            }
            Change::Remove(Ok(e)) => {
                self.set.remove(book, e)?;
                self.renew();
                Ok(())
            }
            Change::Remove(Err(code)) | Change::Overflow { e: Err(code), .. } => Err(*code),
            Change::AssignComponent(comp) => self.set.assign_component(*comp, shape),
            Change::SetDomain(bits) => {
                self.set.set_domain(*bits)?;
                self.recount();
                Ok(())
            }
            Change::SetMultiplex(slice) => {
                self.set.set_multiplex(*slice)?;
                self.recount();
                Ok(())
            }
            Change::Overflow { e: Ok(e), t } => {
                self.set.set_threshold(book, shape, e, *t)?;
                self.recount();
                Ok(())
            }
        }
    }
}
